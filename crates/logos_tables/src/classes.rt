//! The equivalence classes of symbols. All symbols of a class have the same step in each state.
//! `made` calls `classes_of`, and `runs` calls `step_at`.

ghost use Rattle.std.specs.Prelude.{◌≡◌, ◌+◌, ◌<◌, IfOk, IfSome, OnOk, IsTrue, slice_index};
ghost use Rattle.logos_tables.specs.Imports.{AreClasses, Classify, IsClassOf, HaveSameSteps};

use crate::steps::Steps;
use std::alloc::{AllocError, Global};

/// The equivalence classes of symbols. A symbol is a byte or the end of the input.
#[derive(Drop)]
pub(crate) struct SymbolClasses {
    /// The number of each symbol's class.
    pub(crate) numbers: Vec<usize>,
    /// The first symbol of each class.
    pub(crate) symbols: Vec<usize>,
}

/// Returns the equivalence classes of all symbols. All symbols of a class have the same step in
/// each row of `rows`.
///
/// # Errors
///
/// Returns `AllocError` if memory runs out.
pub(crate) fn classes_of(alloc: Global, rows: &[Steps]) -> Result<SymbolClasses, AllocError>
    ensures { IfOk result (λ classes. AreClasses rows.now classes.numbers.items classes.symbols.items) }
{
    let mut classes = SymbolClasses {
        numbers: Vec::new(alloc),
        symbols: Vec::new(alloc),
    };
    for symbol in 0..257 {
        add_symbol(rows, &mut classes, symbol)?;
    }
    Ok(classes)
}

/// Appends the class of `symbol` to `classes`. If no earlier symbol has the same steps, adds a new
/// class.
fn add_symbol(rows: &[Steps], classes: &mut SymbolClasses, symbol: usize) -> Result<(), AllocError>
    requires { Classify rows.now classes.old.numbers.items classes.old.symbols.items symbol }
    ensures { OnOk result (Classify rows.now classes.new.numbers.items classes.new.symbols.items
        (symbol + 1)) }
{
    if let Some(number) = class_of(rows, &classes.symbols, symbol) {
        classes.numbers.push(number)?;
        return Ok(());
    }
    classes.numbers.push(classes.symbols.len())?;
    classes.symbols.push(symbol)?;
    Ok(())
}

/// Returns the number of the class whose first symbol has the same step as `symbol` in each of the
/// rows, or `None` if there is no such class. `symbols` contains the first symbol of each class.
fn class_of(rows: &[Steps], symbols: &[usize], symbol: usize) -> Option<usize>
    ensures { IfSome result (IsClassOf rows.now symbols.now symbol) }
{
    for number in 0..symbols.len() {
        if have_same_steps(rows, symbols[number], symbol) {
            return Some(number);
        }
    }
    None
}

/// Returns whether the symbols `one` and `other` have the same step in each of the rows.
fn have_same_steps(rows: &[Steps], one: usize, other: usize) -> bool
    ensures { IsTrue result → HaveSameSteps rows.now one other }
{
    for row in rows {
        if step_at(row, one) != step_at(row, other) {
            return false;
        }
    }
    true
}

/// Returns the step of a symbol in a row, or 0 if the symbol does not exist.
pub(crate) fn step_at(row: &Steps, symbol: usize) -> usize
    ensures { result ≡ slice_index row.now symbol }
{
    if symbol < 257 { row[symbol] } else { 0 }
}
