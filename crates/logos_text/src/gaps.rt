//! The function `gap_after`, which determines the gap between printed tokens and the token that
//! follows them. `sink` and `implementation` call this function.

ghost use Rattle.std.specs.Prelude.{◌≡◌, []};
ghost use Rattle.logos_text.specs.Imports.{gap_after, gap_of, tokens_of, tree_of};

use logos_token::token::{TokenTree, Tokens, gap_after_doc};

/// Returns the gap to print between `tokens` and the token that follows them.
///
/// The gap is empty if there are no tokens, a line end if the last token is a comment that ends
/// with its line, and a space otherwise. Without the line end, the following token would belong to
/// the comment.
pub(crate) fn gap_after(tokens: Tokens<'_, '_>) -> &'static str
    ensures { result.now ≡ gap_after [] (tokens_of tokens.entry) }
{
    let mut gap = "";
    let mut rest = tokens;
    while let Some(tree) = rest.first() {
        gap = gap_of(tree);
        rest = rest.rest();
    }
    gap
}

/// Returns the gap to print after the token `tree`.
fn gap_of(tree: TokenTree<'_, '_>) -> &'static str
    ensures { result.now ≡ gap_of (tree_of tree.entry) }
{
    match tree {
        TokenTree::Doc(doc) => gap_after_doc(doc.text),
        _ => " ",
    }
}
