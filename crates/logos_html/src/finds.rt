//! Finds the first items of an input. Used by `document`, `spans` and `descriptions`.

ghost use Rattle.std.specs.Prelude.{◌≡◌, IfErr, IfOk, IsTrue, IsUtf8, map};
ghost use Rattle.logos_html.specs.Views.{Begins, IsNoMisuse, TakesMatches, answers_of, emits, end_of, item_of, start_of};

use logos_code::action::Action;
use logos_code::code::Code;
use logos_hir::leaf::LeafId;
use logos_host::Failure;
use logos_machine::machine::{Item, Lexer};
use logos_token::token::Span;
use std::alloc::{AllocError, Global};

/// Returns the first items of an input, from the start of the input through the first item that
/// ends at or after the offset `most`. Returns all items if there is no such item. Each match of a
/// leaf other than a skip is an item.
///
/// # Errors
///
/// Returns `NotUtf8` if the lexer reads UTF-8 and the input is not UTF-8, and `Memory` if memory
/// runs out.
pub(crate) fn first_items<'i>(
    alloc: Global,
    code: &Code<'_>,
    input: &'i [u8],
    most: usize,
) -> Result<Vec<Item<'i>>, Failure<'static>>
    ensures text { IfOk result (λ items. IsTrue code.now.utf8 → IsUtf8 input.now) }
    ensures items { IfOk result (λ items.
        Begins code.now emits input.now 0 most (map item_of items.items)) }
    ensures failed { IfErr result IsNoMisuse }
{
    let emit = |_leaf: LeafId, _slice: &[u8]| Action::Emit;
    match Lexer::new_bytes(code, input, emit) {
        Ok(lexer) => {
            let mut lexer = lexer;
            Ok(next_items(alloc, &mut lexer, most)?)
        }
        Err(error) => Err(Failure::NotUtf8 {
            valid_up_to: error.valid_up_to,
        }),
    }
}

/// Returns the next items of a lexer, through the first item that ends at or after the offset
/// `most`. Returns all remaining items if there is no such item.
fn next_items<'i, C: Fn(LeafId, &[u8]) -> Action>(
    alloc: Global,
    lexer: &mut Lexer<'_, '_, 'i, C>,
    most: usize,
) -> Result<Vec<Item<'i>>, AllocError>
    requires { TakesMatches C.Fn lexer.old.code lexer.old.callback }
    ensures { IfOk result (λ items. Begins lexer.old.code (answers_of C.Fn lexer.old.callback)
        lexer.old.input lexer.old.to most (map item_of items.items)) }
{
    let mut items = Vec::new(alloc);
    while let Some(item) = lexer.next() {
        let is_last = most <= span_of(item).to;
        items.push(item)?;
        if is_last {
            return Ok(items);
        }
    }
    Ok(items)
}

/// Returns the span of an item.
pub(crate) fn span_of(item: Item<'_>) -> Span
    ensures from { result.from ≡ start_of (item_of item.entry) }
    ensures to { result.to ≡ end_of (item_of item.entry) }
{
    match item {
        Item::Token { span, .. } => span,
        Item::Error { span, .. } => span,
    }
}
