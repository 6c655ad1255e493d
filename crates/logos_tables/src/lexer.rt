//! The function `tables`, which prints a table-driven lexer. `shape` calls this function for the
//! shape `tables`.

ghost use Rattle.std.specs.Prelude.{◌∷◌, [], IfOk, OnOk, length, string_bytes};
ghost use Rattle.logos_tables.specs.Views.{Appends, AppendsMade, AppendsNumbers, AppendsTables, ArePrinted, HoldsTables, around_made, front_runs, marks_text, skips_text, step_texts};

use crate::fields::{push_field, push_runs};
use crate::made::{PrintedTables, tables_of};
use crate::marks::{marks_of, skips_of};
use crate::numbers::{entry_count, folded_count, mask_count};
use crate::parts::{
    push_data, push_end, push_entries_size, push_folded, push_head, push_masks, push_unpacked,
};
use logos_code::code::Code;
use logos_codegen::Generated;
use logos_text::Sink;
use logos_token::error::Memory;
use logos_type::print_type;
use std::alloc::Global;

/// Returns the Rust text of an implementation of `Logos` for the enum, and the pieces of the source
/// in this text.
///
/// The lexing function of the implementation contains tables for the loop of the runtime. The
/// tables contain the mark of each state of the code. They also contain the step of each byte, and
/// of the end of the input, in each state.
///
/// # Errors
///
/// Returns `Memory` if memory runs out.
pub fn tables(alloc: Global, made: &Generated<'_>) -> Result<Sink, Memory>
    // The whole text: that of `front`, and right after it the implementation of `Tables`.
    ensures holds { IfOk result (λ sink.
        HoldsTables (around_made made.now) made.now.code (string_bytes sink.text)) }
    // The pieces are those of the front.
    ensures pieces { IfOk result (λ sink. ArePrinted (front_runs (around_made made.now) made.now.code)
        0 sink.pieces.items (string_bytes sink.text)) }
{
    let mut sink = made.front(alloc)?;
    push_implementation(alloc, &mut sink.text, &made.code)?;
    Ok(sink)
}

/// Appends the implementation of `Tables` and the rest of the lexing function to the front of the
/// generated code.
fn push_implementation(alloc: Global, text: &mut String, code: &Code<'_>) -> Result<(), Memory>
    ensures { OnOk result (AppendsTables code.now (string_bytes text.old) (string_bytes text.new)) }
{
    let this = print_type(alloc, &code.parts().header.this)?;
    push_head(text, &this)?;
    push_code(alloc, text, code)?;
    push_end(text)?;
    Ok(())
}

/// Appends all tables of a code, and the constants that are computed from these tables.
fn push_code(alloc: Global, text: &mut String, code: &Code<'_>) -> Result<(), Memory>
    ensures { OnOk result (AppendsMade code.now (string_bytes text.old) (string_bytes text.new)) }
{
    let made = tables_of(alloc, code)?;
    push_data(text, code.root(), made.classes.symbols.len())?;
    push_steps(alloc, text, &made)?;
    push_marks(alloc, text, code)?;
    push_skips(alloc, text, code)?;
    push_numbers(text, &made, code.leaves().len())?;
    Ok(())
}

/// Appends the tables of steps: the runs of classes, the runs of rows, and the row of each state.
fn push_steps(alloc: Global, text: &mut String, made: &PrintedTables) -> Result<(), Memory>
    ensures { OnOk result (Appends (step_texts made.now.class_runs.items made.now.runs.items
        made.now.rows.slots.items) (string_bytes text.old) (string_bytes text.new)) }
{
    push_runs(alloc, text, "class_lengths", "classes", &made.class_runs)?;
    push_runs(alloc, text, "lengths", "steps", &made.runs)?;
    push_field(text, "rows", &made.rows.slots)?;
    Ok(())
}

/// Appends the table of the marks of all states.
fn push_marks(alloc: Global, text: &mut String, code: &Code<'_>) -> Result<(), Memory>
    ensures { OnOk result (Appends (marks_text code.now ∷ []) (string_bytes text.old)
        (string_bytes text.new)) }
{
    let marks = marks_of(alloc, &code.parts().states)?;
    push_field(text, "marks", &marks)
}

/// Appends the table with a number for each leaf. The number is 1 if the leaf's matches are skipped
/// without a callback, and 0 otherwise.
fn push_skips(alloc: Global, text: &mut String, code: &Code<'_>) -> Result<(), Memory>
    ensures { OnOk result (Appends (skips_text code.now ∷ []) (string_bytes text.old)
        (string_bytes text.new)) }
{
    let skips = skips_of(alloc, &code.parts().leaves)?;
    push_field(text, "skips", &skips)
}

/// Appends the end of the tables, and the constants that are computed from the tables. `leaves` is
/// the number of leaves.
fn push_numbers(text: &mut String, made: &PrintedTables, leaves: usize) -> Result<(), Memory>
    ensures { OnOk result (AppendsNumbers (length made.now.rows.slots.items)
        (length made.now.runs.items) (string_bytes text.old) (string_bytes text.new)) }
{
    push_unpacked(text, made.rows.slots.len(), made.runs.len())?;
    push_entries_size(text, entry_count(made))?;
    push_masks(text, mask_count(made))?;
    push_folded(text, folded_count(made, leaves))?;
    Ok(())
}
