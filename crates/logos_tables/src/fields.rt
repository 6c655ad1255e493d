//! Functions that print lists of numbers as fields of the tables. `lexer` calls them, and `parts`
//! calls `push_str`.

ghost use Rattle.std.specs.Prelude.{◌≡◌, ◌++◌, ◌∷◌, [], OnOk, map, string_bytes};
ghost use Rattle.logos_tables.specs.Imports.{Appends, field_head, field_text, runs_texts};

use crate::bytes::{push_entries, size_of};
use crate::runs::{Run, lengths_of, steps_in};
use logos_token::error::Memory;
use std::alloc::Global;

/// Appends a field with the name `name` and the numbers `numbers`.
pub(crate) fn push_field(text: &mut String, name: &str, numbers: &[usize]) -> Result<(), Memory>
    ensures { OnOk result (Appends (field_text name.now numbers.now ∷ []) (string_bytes text.old)
        (string_bytes text.new)) }
{
    push_whole_field(text, name, numbers)?;
    Ok(())
}

/// Appends the text of a field: the name of the field, the size of each number in bytes, and the
/// bytes of all numbers.
fn push_whole_field(text: &mut String, name: &str, numbers: &[usize]) -> Result<(), Memory>
    ensures { OnOk result (string_bytes text.new
        ≡ string_bytes text.old ++ field_text name.now numbers.now) }
{
    let size = size_of(numbers);
    push_head(text, name, size)?;
    push_entries(text, size, numbers)?;
    push_str(text, "\"), ")?;
    Ok(())
}

/// Appends the beginning of a field: the name `name`, and the size `size` of each number in bytes.
fn push_head(text: &mut String, name: &str, size: usize) -> Result<(), Memory>
    ensures { OnOk result (string_bytes text.new
        ≡ string_bytes text.old ++ field_head name.now size) }
{
    write!(text, "{name}: ({size}, b\"")?;
    Ok(())
}

/// Appends two fields: one with the lengths of `runs`, and one with the number that each run
/// repeats.
pub(crate) fn push_runs(
    alloc: Global,
    text: &mut String,
    lengths_name: &str,
    numbers_name: &str,
    runs: &[Run],
) -> Result<(), Memory>
    ensures { OnOk result (Appends (runs_texts lengths_name.now numbers_name.now runs.now)
        (string_bytes text.old) (string_bytes text.new)) }
{
    push_lengths(alloc, text, lengths_name, runs)?;
    push_steps(alloc, text, numbers_name, runs)?;
    Ok(())
}

/// Appends a field with the lengths of runs.
fn push_lengths(alloc: Global, text: &mut String, name: &str, runs: &[Run]) -> Result<(), Memory>
    ensures { OnOk result (Appends (field_text name.now (map (λ run. run.0) runs.now) ∷ [])
        (string_bytes text.old) (string_bytes text.new)) }
{
    let lengths = lengths_of(alloc, runs)?;
    push_field(text, name, &lengths)
}

/// Appends a field with the number that each run repeats.
fn push_steps(alloc: Global, text: &mut String, name: &str, runs: &[Run]) -> Result<(), Memory>
    ensures { OnOk result (Appends (field_text name.now (map (λ run. run.1) runs.now) ∷ [])
        (string_bytes text.old) (string_bytes text.new)) }
{
    let steps = steps_in(alloc, runs)?;
    push_field(text, name, &steps)
}

/// Appends `part` to `text`.
pub(crate) fn push_str(text: &mut String, part: &str) -> Result<(), Memory>
    ensures { OnOk result (string_bytes text.new ≡ string_bytes text.old ++ part.now) }
{
    text.push_str(part)?;
    Ok(())
}
