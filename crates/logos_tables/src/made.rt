//! The values from which the tables of a code are printed. `lexer` calls `tables_of`.

ghost use Rattle.std.specs.Prelude.{◌≡◌, IfOk};
ghost use Rattle.logos_tables.specs.Imports.{AreMade};

use crate::classes::{SymbolClasses, classes_of};
use crate::rows::{StepRows, rows_of};
use crate::runs::{Run, row_runs, runs_of};
use logos_code::code::Code;
use std::alloc::{AllocError, Global};

/// The values from which the tables of a code are printed.
#[derive(Drop)]
pub(crate) struct PrintedTables {
    /// The rows of all states, in the order of the states' numbers.
    pub(crate) rows: StepRows,
    /// The classes of all symbols.
    pub(crate) classes: SymbolClasses,
    /// The runs of equal classes among all symbols.
    pub(crate) class_runs: Vec<Run>,
    /// The runs of equal steps in the concatenated distinct rows. Each row contains one step for
    /// each class.
    pub(crate) runs: Vec<Run>,
}

/// Returns the values from which the tables of a code are printed.
///
/// # Errors
///
/// Returns `AllocError` if memory runs out.
pub(crate) fn tables_of(alloc: Global, code: &Code<'_>) -> Result<PrintedTables, AllocError>
    ensures { IfOk result (λ made. AreMade code.now made.classes.numbers.items
        made.classes.symbols.items made.rows.slots.items made.rows.distinct.keys
        made.class_runs.items made.runs.items) }
{
    let rows = rows_of(alloc, code)?;
    let classes = classes_of(alloc, rows.distinct.as_slice())?;
    let class_runs = runs_of(alloc, &classes.numbers)?;
    let runs = row_runs(alloc, rows.distinct.as_slice(), &classes.symbols)?;
    Ok(PrintedTables {
        rows,
        classes,
        class_runs,
        runs,
    })
}
