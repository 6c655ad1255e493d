//! Functions that find the runs of equal numbers in the classes of symbols, and in rows with one
//! step for each class. `made` calls them, and `fields` prints the runs.

ghost use Rattle.std.specs.Prelude.{◌≡◌, ◌<◌, ◌++◌, ◌∷◌, [], IfOk, OnOk, IsTrue, map};
ghost use Rattle.logos_tables.specs.Imports.{flat_map, by_classes, spread};

use crate::classes::step_at;
use crate::steps::Steps;
use std::alloc::{AllocError, Global};

/// The maximum length of a run.
const LONGEST: usize = 65535;

/// A run of equal numbers. The first element of the pair is the length of the run, and the second
/// element is the number.
pub(crate) type Run = (usize, usize);

/// Splits `numbers` into runs of equal numbers. Returns the runs in the order in which they occur.
///
/// # Errors
///
/// Returns `AllocError` if memory runs out.
pub(crate) fn runs_of(alloc: Global, numbers: &[usize]) -> Result<Vec<Run>, AllocError>
    ensures { IfOk result (λ runs. spread runs.items ≡ numbers.now) }
{
    let mut runs = Vec::new(alloc);
    for number in numbers {
        push_step(&mut runs, *number)?;
    }
    Ok(runs)
}

/// Returns the runs of equal steps in the concatenated rows. `symbols` contains one symbol for each
/// class, and each row consists of the steps of these symbols.
///
/// # Errors
///
/// Returns `AllocError` if memory runs out.
pub(crate) fn row_runs(
    alloc: Global,
    rows: &[Steps],
    symbols: &[usize],
) -> Result<Vec<Run>, AllocError>
    ensures { IfOk result (λ runs. spread runs.items ≡ flat_map (by_classes symbols.now) rows.now) }
{
    let mut runs = Vec::new(alloc);
    for row in rows {
        push_row(&mut runs, row, symbols)?;
    }
    Ok(runs)
}

/// Appends the steps of `row` for `symbols` to the numbers of `runs`. `symbols` contains one symbol
/// for each class.
fn push_row(runs: &mut Vec<Run>, row: &Steps, symbols: &[usize]) -> Result<(), AllocError>
    ensures { OnOk result (spread runs.new.items
        ≡ spread runs.old.items ++ by_classes symbols.now row.now) }
{
    for symbol in symbols {
        push_step(runs, step_at(row, *symbol))?;
    }
    Ok(())
}

/// Appends `step` to the numbers of `runs`. Extends the last run if possible, and begins a new run
/// otherwise.
fn push_step(runs: &mut Vec<Run>, step: usize) -> Result<(), AllocError>
    ensures { OnOk result (spread runs.new.items ≡ spread runs.old.items ++ step ∷ []) }
{
    match runs.pop() {
        Some(last) if continues(last, step) => runs.push((last.0 + 1, step))?,
        Some(last) => {
            runs.push(last)?;
            runs.push((1, step))?;
        }
        None => runs.push((1, step))?,
    }
    Ok(())
}

/// Returns whether `step` can be appended to `run`.
fn continues(run: Run, step: usize) -> bool
    ensures { IsTrue result → (run.1 ≡ step) × (run.0 < LONGEST) }
{
    (run.1 == step) & (run.0 < LONGEST)
}

/// Returns the length of each run.
///
/// # Errors
///
/// Returns `AllocError` if memory runs out.
pub(crate) fn lengths_of(alloc: Global, runs: &[Run]) -> Result<Vec<usize>, AllocError>
    ensures { IfOk result (λ lengths. lengths.items ≡ map (λ run. run.0) runs.now) }
{
    let mut lengths = Vec::new(alloc);
    for run in runs {
        lengths.push(run.0)?;
    }
    Ok(lengths)
}

/// Returns the step that each run repeats.
///
/// # Errors
///
/// Returns `AllocError` if memory runs out.
pub(crate) fn steps_in(alloc: Global, runs: &[Run]) -> Result<Vec<usize>, AllocError>
    ensures { IfOk result (λ steps. steps.items ≡ map (λ run. run.1) runs.now) }
{
    let mut steps = Vec::new(alloc);
    for run in runs {
        steps.push(run.1)?;
    }
    Ok(steps)
}
