//! Functions that test the first tokens of a run, or return the tokens after them. The readers of
//! enums, `logos_strip` and `logos_rust_file` call these functions.

ghost use Rattle.std.specs.Prelude.{◌≡◌, None, Some, MatchOption};
ghost use Rattle.logos_token.specs.ViewImports.{begins_with, after_word, is_path_mark, after_colon, after_path_mark, tokens_of};

use crate::token::{Punct, Spacing, TokenTree, Tokens};

/// Returns whether the run `tokens` begins with the punctuation `mark`, with either spacing.
pub fn begins_with(mark: char, tokens: Tokens<'_, '_>) -> bool
    ensures { result ≡ begins_with mark (tokens_of tokens.entry) }
{
    match tokens.first() {
        Some(TokenTree::Punct(punct)) => punct.character == mark,
        _ => false,
    }
}

/// Returns the tokens after the identifier `word`, or `None` if the run does not begin with `word`.
pub fn after_word<'t, 's>(word: &str, tokens: Tokens<'t, 's>) -> Option<Tokens<'t, 's>>
    ensures { MatchOption result (after_word word.now (tokens_of tokens.entry) ≡ None)
        (λ rest. after_word word.now (tokens_of tokens.entry) ≡ Some (tokens_of rest)) }
{
    match tokens.first() {
        Some(TokenTree::Ident(ident)) if ident.text == word => Some(tokens.rest()),
        _ => None,
    }
}

/// Returns whether `punct` is a `:` with the spacing `Joint`, such as the first `:` of `::`.
pub fn is_path_mark(punct: Punct) -> bool
    ensures { result ≡ is_path_mark punct.character punct.spacing }
{
    match punct.spacing {
        Spacing::Joint => punct.character == ':',
        Spacing::Alone => false,
    }
}

/// Returns the tokens after a `:` with either spacing, or `None` if the run does not begin with
/// `:`.
fn after_colon<'t, 's>(tokens: Tokens<'t, 's>) -> Option<Tokens<'t, 's>>
    ensures { MatchOption result (after_colon (tokens_of tokens.entry) ≡ None)
        (λ rest. after_colon (tokens_of tokens.entry) ≡ Some (tokens_of rest)) }
{
    match tokens.first() {
        Some(TokenTree::Punct(punct)) if punct.character == ':' => Some(tokens.rest()),
        _ => None,
    }
}

/// Returns the tokens after `::`, or `None` if the run does not begin with `::`.
pub fn after_path_mark<'t, 's>(tokens: Tokens<'t, 's>) -> Option<Tokens<'t, 's>>
    ensures { MatchOption result (after_path_mark (tokens_of tokens.entry) ≡ None)
        (λ rest. after_path_mark (tokens_of tokens.entry) ≡ Some (tokens_of rest)) }
{
    match tokens.first() {
        Some(TokenTree::Punct(punct)) if is_path_mark(punct) => after_colon(tokens.rest()),
        _ => None,
    }
}
