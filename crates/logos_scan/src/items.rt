//! Functions that return all items of an input at once, from a scan or from a lexer. Called by
//! `logos_codegen`.

ghost use Rattle.std.specs.Prelude.{◌≡◌, map, IfOk};
ghost use Rattle.logos_scan.specs.Imports.{answers_of, item_of, Runs, TakesMatches};

use crate::choice::rows_for;
use crate::fold::folded::Folded;
use crate::run::{Reading, Run};
use crate::walk::masks::ChunkEntries;
use logos_code::action::Action;
use logos_hir::leaf::LeafId;
use logos_machine::machine::{Item, Lexer};
use std::alloc::{AllocError, Global};

/// Returns all items of a lexer's input, in the order of the input. The lexer must be at the start
/// of the input. The input is scanned by chunks if a scan likely takes less time than the lexer.
///
/// # Errors
///
/// Returns `AllocError` if memory runs out.
pub fn items<'i, C: Fn(LeafId, &[u8]) -> Action + Drop>(
    alloc: Global,
    lexer: Lexer<'_, '_, 'i, C>,
) -> Result<Vec<Item<'i>>, AllocError>
    requires callable { TakesMatches C.Fn lexer.code lexer.callback }
    requires first { lexer.to ≡ 0 }
    ensures { IfOk result (λ items. Runs lexer.entry.code (answers_of C.Fn lexer.entry.callback)
        lexer.entry.input 0 (map item_of items.items)) }
{
    match rows_for(alloc, lexer.code(), lexer.input())? {
        Some(folded) => items_by_chunks(alloc, &folded, lexer.input(), lexer.callback()),
        None => lexer.items(alloc),
    }
}

/// Scans an input with the folded rows of a code, and returns all items in the order of the input.
///
/// # Errors
///
/// Returns `AllocError` if memory runs out.
pub fn items_by_chunks<'i, C: Fn(LeafId, &[u8]) -> Action>(
    alloc: Global,
    folded: &Folded<'_, '_>,
    input: &'i [u8],
    callback: &C,
) -> Result<Vec<Item<'i>>, AllocError>
    requires { TakesMatches C.Fn folded.now.code callback.now }
    ensures { IfOk result (λ items. Runs folded.now.code (answers_of C.Fn callback.now) input.now 0
        (map item_of items.items)) }
{
    let reading = Reading::new(folded, input);
    let mut chunk = ChunkEntries::new();
    let mut run = Run::new(&reading, &mut chunk);
    let mut items = Vec::new(alloc);
    while let Some(item) = run.next_item(&reading, &mut chunk, callback) {
        items.push(item)?;
    }
    Ok(items)
}
