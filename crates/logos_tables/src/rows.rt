//! The rows of all states, with each distinct row stored once. `made` calls `rows_of`.

ghost use Rattle.std.specs.Prelude.{◌≡◌, ℕ, ◌<◌, ◌++◌, ◌∷◌, [], IfOk, OnOk, length, vec_len, slice_index, slice_index_or};
ghost use Rattle.logos_tables.specs.Imports.{AreRows, AreWide, rows_at};

use crate::steps::{Steps, steps_of};
use indexmap::IndexSet;
use logos_code::code::Code;
use std::alloc::{AllocError, Global};

/// A list of rows that stores each distinct row once.
#[derive(Drop)]
pub(crate) struct StepRows {
    /// For each row of the list, the row's index in `distinct`.
    pub(crate) slots: Vec<usize>,
    /// The distinct rows.
    pub(crate) distinct: IndexSet<Steps>,
    ghost wide: { AreWide distinct.keys },
    ghost placed: { (i : ℕ) → i < vec_len slots → slice_index slots.items i < length distinct.keys },
}

impl StepRows {
    ghost use Rattle.logos_tables.specs.Views.{rows_of};

    /// Returns an empty list of rows.
    fn new(alloc: Global) -> StepRows
        ensures { rows_of result ≡ [] }
    {
        StepRows {
            slots: Vec::new(alloc),
            distinct: IndexSet::new(alloc),
        }
    }

    /// Appends `row` to the list, and stores it if no equal row is stored.
    fn push(&mut self, row: &Steps) -> Result<(), AllocError>
        ensures { OnOk result (rows_of self.new ≡ rows_of self.old ++ row.now ∷ []) }
    {
        let (slot, _) = self.distinct.insert_full(*row)?;
        self.slots.push(slot)?;
        Ok(())
    }
}

/// Returns the number of states of a code.
fn state_count(code: &Code<'_>) -> usize
    ensures { result ≡ length code.now.states }
{
    code.parts().states.len()
}

/// Returns the rows of all states, in the order of the states' numbers.
///
/// # Errors
///
/// Returns `AllocError` if memory runs out.
pub(crate) fn rows_of(alloc: Global, code: &Code<'_>) -> Result<StepRows, AllocError>
    ensures { IfOk result (λ rows. AreRows code.now
        (rows_at rows.slots.items rows.distinct.keys)) }
{
    let mut rows = StepRows::new(alloc);
    for state in 0..state_count(code) {
        rows.push(&steps_of(code, state))?;
    }
    Ok(rows)
}
