//! Writes the items of an input, each as a JSON object. Used by `logos_show`.

ghost use Rattle.std.specs.Prelude.{IfErr};
ghost use Rattle.logos_items.specs.Imports.{IsNoMisuse, TakesMatches};

use crate::blocks::{BLOCK, write_if_full};
use logos_answers::{Counts, code_name_at, note_of};
use logos_codegen::code::{Code, CodeLeaf};
use logos_codegen::leaf::LeafId;
use logos_codegen::machine::{Action, Item, Lexer};
use logos_host::{Failure, print_bytes};
use logos_lines::Cursor;
use logos_records::{ItemRecord, JsonLines, push_item_record};
use std::alloc::{AllocError, Global};
use std::io::Write;
use std::mem;

/// Writes a JSON object for each item of an input. Returns the note about the callbacks of leaves
/// that have items. The note is empty if there are no such callbacks.
///
/// # Errors
///
/// Returns:
///
/// - `NotUtf8` if the lexer reads UTF-8 and the input is not UTF-8.
/// - `Output` or `Closed` if writing fails.
/// - `Memory` if memory runs out.
pub fn write_item_records<O: Write>(
    alloc: Global,
    code: &Code<'_>,
    input: &[u8],
    out: &mut O,
) -> Result<String, Failure<'static>>
    ensures { IfErr result IsNoMisuse }
{
    let mut records = Records {
        alloc,
        block: Vec::with_capacity(alloc, BLOCK + BLOCK / 16)?,
        counts: Counts::new(alloc, code.leaves().len())?,
    };
    write_all_records(code, input, &mut records, out)?;
    // The note is made first, so that nothing is printed if memory runs out.
    let note = note_of(alloc, code.leaves(), &records.counts)?;
    print_bytes(&records.block, out)?;
    Ok(note)
}

/// The objects of items that have not been written, with the counts of all items so far.
#[derive(Drop)]
struct Records {
    alloc: Global,
    /// The objects that have not been written.
    block: Vec<u8>,
    counts: Counts,
}

/// Writes, in blocks, an object for each item of an input. The last objects remain in `records` for
/// the caller to write.
fn write_all_records<O: Write>(
    code: &Code<'_>,
    input: &[u8],
    records: &mut Records,
    out: &mut O,
) -> Result<(), Failure<'static>>
    ensures { IfErr result IsNoMisuse }
{
    let emit = |_leaf: LeafId, _slice: &[u8]| Action::Emit;
    match Lexer::new_bytes(code, input, emit) {
        Ok(lexer) => {
            let mut lexer = lexer;
            write_records(&mut lexer, code.leaves(), records, out)
        }
        Err(error) => Err(Failure::NotUtf8 {
            valid_up_to: error.valid_up_to,
        }),
    }
}

/// Writes, in blocks, an object for each remaining item of a lexer. The last objects remain in
/// `records`.
fn write_records<C: Fn(LeafId, &[u8]) -> Action, O: Write>(
    lexer: &mut Lexer<'_, '_, '_, C>,
    leaves: &[CodeLeaf<'_>],
    records: &mut Records,
    out: &mut O,
) -> Result<(), Failure<'static>>
    requires { TakesMatches C.Fn lexer.old.code lexer.old.callback }
    ensures { IfErr result IsNoMisuse }
{
    let mut cursor = Cursor::new(lexer.remainder());
    while let Some(item) = lexer.next() {
        add_record(records, leaves, &mut cursor, item)?;
        write_if_full(&mut records.block, out)?;
    }
    Ok(())
}

/// Adds the object of an item to `records`, and counts the item. Moves `cursor` to the start of the
/// item.
fn add_record(
    records: &mut Records,
    leaves: &[CodeLeaf<'_>],
    cursor: &mut Cursor<'_>,
    item: Item<'_>,
) -> Result<(), AllocError> {
    match item {
        Item::Token { leaf, span, slice } => {
            cursor.go_to(span.from);
            records.counts.count_token(leaf.0);
            let record = ItemRecord {
                location: cursor.location(),
                from: span.from,
                leaf: Some(leaf.0),
                variant: code_name_at(leaves, leaf.0),
                bytes: slice,
            };
            push_record(records.alloc, &mut records.block, record)
        }
        Item::Error { span, slice, .. } => {
            cursor.go_to(span.from);
            records.counts.count_error();
            let record = ItemRecord {
                location: cursor.location(),
                from: span.from,
                leaf: None,
                variant: None,
                bytes: slice,
            };
            push_record(records.alloc, &mut records.block, record)
        }
    }
}

/// Appends an object to a block. If memory runs out, the block becomes empty.
fn push_record(
    alloc: Global,
    block: &mut Vec<u8>,
    record: ItemRecord<'_>,
) -> Result<(), AllocError> {
    let out = mem::replace(block, Vec::new(alloc));
    let mut lines = JsonLines::new(alloc, out);
    push_item_record(&mut lines, record);
    *block = lines.finish()?;
    Ok(())
}
