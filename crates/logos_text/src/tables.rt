//! Printers of the bit tables to which the conditions of states refer. `code` calls `push_tables`
//! before it prints the states.

ghost use Rattle.std.specs.Prelude.{◌≡◌, ◌++◌, ◌∷◌, [], OnOk, codes, string_bytes};
ghost use Rattle.logos_text.specs.Imports.{flat_map, join_by, entry_text, table_text, table_texts, Adds};

use crate::pieces::{push, push_str};
use logos_token::error::Memory;

/// Appends an entry of a bit table.
fn push_entry(text: &mut String, entry: u8) -> Result<(), Memory>
    ensures { OnOk result (string_bytes text.new ≡ string_bytes text.old ++ entry_text entry) }
{
    write!(text, "{entry}u8")?;
    Ok(())
}

/// Appends a comma and an entry of a bit table.
fn push_next_entry(text: &mut String, entry: u8) -> Result<(), Memory>
    ensures { OnOk result (string_bytes text.new
        ≡ string_bytes text.old ++ codes " , " ++ entry_text entry) }
{
    push_str(text, " , ")?;
    push_entry(text, entry)
}

/// Appends entries of a bit table, each preceded by a comma.
fn push_next_entries(text: &mut String, entries: &[u8]) -> Result<(), Memory>
    ensures { OnOk result (string_bytes text.new ≡ string_bytes text.old
        ++ flat_map (λ entry. codes " , " ++ entry_text entry) entries.now) }
{
    for entry in entries {
        push_next_entry(text, *entry)?;
    }
    Ok(())
}

/// Appends the entries of a bit table, with commas between them.
fn push_entries(text: &mut String, entries: &[u8]) -> Result<(), Memory>
    ensures { OnOk result (string_bytes text.new
        ≡ string_bytes text.old ++ join_by entry_text (codes " , ") entries.now) }
{
    let Some((first, rest)) = entries.split_first() else {
        return Ok(());
    };
    push_entry(text, *first)?;
    push_next_entries(text, rest)
}

/// Appends the bit table with the number `n`.
fn push_table(text: &mut String, n: usize, entries: &[u8; 256]) -> Result<(), Memory>
    ensures { OnOk result (string_bytes text.new
        ≡ string_bytes text.old ++ table_text n entries.now) }
{
    write!(text, "const _TABLE_{n} : [ u8 ; 256 ] = [ ")?;
    push_entries(text, entries)?;
    push_str(text, " ] ;")?;
    Ok(())
}

/// Appends the bit table with the number `n`, and a space.
fn push_next_table(text: &mut String, n: usize, entries: &[u8; 256]) -> Result<(), Memory>
    ensures { OnOk result (Adds (table_text n entries.now ∷ []) (string_bytes text.old)
        (string_bytes text.new)) }
{
    push_table(text, n, entries)?;
    push(text, " ")?;
    Ok(())
}

/// Appends the bit tables, in the order of their numbers.
pub(crate) fn push_tables(text: &mut String, tables: &[[u8; 256]]) -> Result<(), Memory>
    ensures { OnOk result (Adds (table_texts 0 tables.now) (string_bytes text.old)
        (string_bytes text.new)) }
{
    for n in 0..tables.len() {
        push_next_table(text, n, &tables[n])?;
    }
    Ok(())
}
