//! Writes all items of an input in blocks. Used by `items`.

ghost use Rattle.std.specs.Prelude.{IfErr};
ghost use Rattle.logos_items.specs.Imports.{IsNoMisuse, TakesMatches};

use crate::blocks::write_if_full;
use logos_codegen::code::Code;
use logos_codegen::leaf::LeafId;
use logos_codegen::machine::{Action, Item, Lexer};
use logos_host::Failure;
use logos_scan::choice::rows_for;
use logos_scan::fold::folded::Folded;
use logos_scan::run::{Reading, Run};
use logos_scan::walk::masks::ChunkEntries;
use std::alloc::{AllocError, Global};
use std::io::Write;

/// A block of text to which the items of an input are appended, one after another.
pub(crate) trait ItemBlock {
    /// Appends the text of an item, and counts the item.
    ///
    /// # Errors
    ///
    /// Returns `AllocError` if memory runs out.
    fn add(&mut self, item: Item<'_>) -> Result<(), AllocError>;

    /// Returns the text that has not been written.
    fn text(&mut self) -> &mut Vec<u8>;
}

/// Writes the items of an input in blocks. The last items remain in `block` for the caller to
/// write.
///
/// # Errors
///
/// Returns:
///
/// - `NotUtf8` if the lexer reads UTF-8 and the input is not UTF-8.
/// - `Output` or `Closed` if writing fails.
/// - `Memory` if memory runs out.
pub(crate) fn write_all<B: ItemBlock, O: Write>(
    alloc: Global,
    code: &Code<'_>,
    input: &[u8],
    block: &mut B,
    out: &mut O,
) -> Result<(), Failure<'static>>
    ensures { IfErr result IsNoMisuse }
{
    let emit = |_leaf: LeafId, _slice: &[u8]| Action::Emit;
    match Lexer::new_bytes(code, input, emit) {
        Ok(lexer) => {
            let mut lexer = lexer;
            match rows_for(alloc, code, input)? {
                Some(folded) => write_by_chunks(&folded, input, &emit, block, out),
                None => write_lexed(&mut lexer, block, out),
            }
        }
        Err(error) => Err(Failure::NotUtf8 {
            valid_up_to: error.valid_up_to,
        }),
    }
}

/// Finds the items of an input by a scan, and writes them in blocks. The last items remain in
/// `block`.
fn write_by_chunks<C: Fn(LeafId, &[u8]) -> Action, B: ItemBlock, O: Write>(
    folded: &Folded<'_, '_>,
    input: &[u8],
    callback: &C,
    block: &mut B,
    out: &mut O,
) -> Result<(), Failure<'static>>
    requires { TakesMatches C.Fn folded.now.code callback.now }
    ensures { IfErr result IsNoMisuse }
{
    let reading = Reading::new(folded, input);
    let mut chunk = ChunkEntries::new();
    let mut run = Run::new(&reading, &mut chunk);
    while let Some(item) = run.next_item(&reading, &mut chunk, callback) {
        block.add(item)?;
        write_if_full(block.text(), out)?;
    }
    Ok(())
}

/// Writes the remaining items of a lexer in blocks. The last items remain in `block`.
fn write_lexed<C: Fn(LeafId, &[u8]) -> Action, B: ItemBlock, O: Write>(
    lexer: &mut Lexer<'_, '_, '_, C>,
    block: &mut B,
    out: &mut O,
) -> Result<(), Failure<'static>>
    requires { TakesMatches C.Fn lexer.old.code lexer.old.callback }
    ensures { IfErr result IsNoMisuse }
{
    while let Some(item) = lexer.next() {
        block.add(item)?;
        write_if_full(block.text(), out)?;
    }
    Ok(())
}
