//! Functions that take single tokens from the front of a run. Called by all readers of this crate.

ghost use Rattle.std.specs.Prelude.{◌≡◌, ◌<◌, ◌≤◌, true, false, List, Ok, Err, MatchOption, MatchResult};
ghost use Rattle.logos_enum.specs.Views.{Span, Spacing, none, also, punctuation, count_of, rest_of, tokens_of, tree_of, first_span, greater, begins_with, is_none, is_outer, Grammar, after_item, name_in, ident_slice};

use crate::error::{Mismatch, ReadError};
use logos_token::token::{Ident, Span, TokenTree, Tokens};

/// Returns the span of the first token, or `0..0` if there are no tokens.
pub(crate) fn first_span(tokens: Tokens<'_, '_>) -> Span
    ensures { result ≡ first_span (tokens_of tokens.entry) }
{
    match tokens.first() {
        Some(tree) => tree.span(),
        None => Span { from: 0, to: 0 },
    }
}

/// Returns the mismatch at the first token, or at `0..0` if there are no tokens.
pub(crate) fn mismatch_at(tokens: Tokens<'_, '_>) -> Mismatch
    ensures { result.span ≡ first_span (tokens_of tokens.entry) }
{
    Mismatch {
        span: first_span(tokens),
    }
}

/// Returns the error `Grammar` at the first token, or at `0..0` if there are no tokens.
pub(crate) fn grammar_at(tokens: Tokens<'_, '_>) -> ReadError
    ensures { result ≡ Grammar (first_span (tokens_of tokens.entry)) }
{
    ReadError::Grammar {
        span: first_span(tokens),
    }
}

/// Returns the first tree and the trees after it, or `None` if the run is empty.
pub(crate) fn split<'t, 's>(tokens: Tokens<'t, 's>) -> Option<(TokenTree<'t, 's>, Tokens<'t, 's>)>
    ensures { MatchOption result (tokens_of tokens.entry ≡ none)
        (λ read. tokens_of tokens.entry ≡ also (tree_of read.0) (tokens_of read.1)) }
{
    let tree = tokens.first()?;
    Some((tree, tokens.rest()))
}

/// Returns the tokens after the punctuation `mark`, joint or alone. Returns `None` if the run does
/// not begin with `mark`.
pub(crate) fn after_mark<'t, 's>(mark: char, tokens: Tokens<'t, 's>) -> Option<Tokens<'t, 's>>
    ensures { MatchOption result (begins_with mark (tokens_of tokens.entry) ≡ false)
        (λ rest. (begins_with mark (tokens_of tokens.entry) ≡ true)
        × (tokens_of rest ≡ rest_of (tokens_of tokens.entry))) }
{
    match split(tokens) {
        Some((TokenTree::Punct(punct), rest)) if punct.character == mark => Some(rest),
        _ => None,
    }
}

/// Returns whether the documentation comment `text` is an outer one, such as `///` or `/**`. An
/// outer documentation comment documents the item that follows it.
pub fn is_outer(text: &str) -> bool
    ensures { result ≡ is_outer text.now }
{
    match text.as_bytes() {
        [_, _, third, ..] => !(*third == b'!'),
        _ => false,
    }
}

/// Returns the name at the front of `tokens`, and the tokens after the name. Returns `Grammar` if
/// no name comes first.
pub(crate) fn read_name<'t, 's>(
    tokens: Tokens<'t, 's>,
) -> Result<(Ident<'s>, Tokens<'t, 's>), ReadError>
    ensures { MatchResult result
        (λ read. (name_in (tokens_of tokens.entry) ≡ Ok (ident_slice read.0, tokens_of read.1))
        × (count_of (tokens_of read.1) < count_of (tokens_of tokens.entry)))
        (λ error. name_in (tokens_of tokens.entry) ≡ Err error) }
{
    match split(tokens) {
        Some((TokenTree::Ident(name), rest)) => Ok((name, rest)),
        _ => Err(grammar_at(tokens)),
    }
}

/// Returns the tokens after the comma that must follow an element of a list in a group. At the end
/// of the group, no comma is needed, and no tokens are returned. Returns `Grammar` at any other
/// token.
pub(crate) fn skip_comma<'t, 's>(tokens: Tokens<'t, 's>) -> Result<Tokens<'t, 's>, ReadError>
    ensures { MatchResult result
        (λ rest. (after_item is_none (tokens_of tokens.entry) ≡ Ok (tt, tokens_of rest))
        × (count_of (tokens_of rest) ≤ count_of (tokens_of tokens.entry)))
        (λ error. after_item is_none (tokens_of tokens.entry) ≡ Err error) }
{
    match split(tokens) {
        None => Ok(tokens),
        Some((TokenTree::Punct(sign), rest)) if sign.character == ',' => Ok(rest),
        _ => Err(grammar_at(tokens)),
    }
}

/// Returns the tokens after the comma that must follow an element of a list in angle brackets.
/// Before `>`, no comma is needed, and all tokens are returned. Returns `Grammar` otherwise.
pub(crate) fn skip_comma_or_angle<'t, 's>(
    tokens: Tokens<'t, 's>,
) -> Result<Tokens<'t, 's>, ReadError>
    ensures { MatchResult result
        (λ rest. (after_item (begins_with greater) (tokens_of tokens.entry)
        ≡ Ok (tt, tokens_of rest))
        × (count_of (tokens_of rest) ≤ count_of (tokens_of tokens.entry)))
        (λ error. after_item (begins_with greater) (tokens_of tokens.entry) ≡ Err error) }
{
    match split(tokens) {
        Some((TokenTree::Punct(punct), _)) if punct.character == '>' => Ok(tokens),
        Some((TokenTree::Punct(punct), rest)) if punct.character == ',' => Ok(rest),
        _ => Err(grammar_at(tokens)),
    }
}
