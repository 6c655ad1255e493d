//! Checks whether a text ends with a group in braces. Used by `layout`.

ghost use Rattle.std.specs.Prelude.{◌≡◌, IfOk, IsTrue, Some};
ghost use Rattle.logos_layout.specs.Imports.{EndsWithBraces, IsClosed, braces_end, tokens_of, tree_of};

use logos_token::error::Memory;
use logos_token::token::{Delimiter, TokenError, TokenTree, Tokens, tokenize};
use std::alloc::Global;

/// Returns whether a text ends with the closing brace of its last token. Returns `false` if the
/// text cannot be read into tokens.
pub(crate) fn is_closed(alloc: Global, text: &str) -> Result<bool, Memory>
    ensures { IfOk result (λ is. IsTrue is → IsClosed text.now) }
{
    match tokenize(alloc, text) {
        Ok(stream) => Ok(ends_with_braces(stream.run(), text.len())),
        Err(TokenError::Memory) => Err(Memory),
        Err(_) => Ok(false),
    }
}

/// Returns whether the last token of a run is a group in braces that ends at the byte offset `to`.
/// Returns `false` for an empty run.
fn ends_with_braces(run: Tokens<'_, '_>, to: usize) -> bool
    ensures { IsTrue result → EndsWithBraces to (tokens_of run.entry) }
{
    let mut rest = run;
    while let Some(tree) = rest.first() {
        rest = rest.rest();
        if rest.is_empty() {
            return is_braces_to(tree, to);
        }
    }
    false
}

/// Returns whether a token is a group in braces that ends at the byte offset `to`.
fn is_braces_to(tree: TokenTree<'_, '_>, to: usize) -> bool
    ensures { IsTrue result → braces_end (tree_of tree.entry) ≡ Some to }
{
    match tree {
        TokenTree::Group(group) if group.delimiter == Delimiter::Brace => group.span.to == to,
        _ => false,
    }
}
