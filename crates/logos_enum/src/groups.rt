//! Functions that return the group at the front of a run, with the tokens inside and after the
//! group. Called by `attribute_run`, `fields` and `item`.

ghost use Rattle.std.specs.Prelude.{◌≡◌, ◌<◌, Some, None, MatchOption};
ghost use Rattle.logos_enum.specs.Views.{count_of, tokens_of, parenthesis_in, bracket_in, brace_in, opened_value};

use crate::tokens::split;
use logos_token::token::{Delimiter, Span, TokenTree, Tokens};

/// A group at the front of a run: its span, the tokens inside it, and the tokens after it.
#[derive(Clone, Copy)]
pub(crate) struct Opened<'t, 's> {
    pub span: Span,
    pub inside: Tokens<'t, 's>,
    pub rest: Tokens<'t, 's>,
}

/// Returns the group in parentheses at the front of `tokens`, or `None` if `tokens` does not begin
/// with such a group.
pub(crate) fn open_parenthesis<'t, 's>(tokens: Tokens<'t, 's>) -> Option<Opened<'t, 's>>
    ensures { MatchOption result (parenthesis_in (tokens_of tokens.entry) ≡ None)
        (λ opened. (parenthesis_in (tokens_of tokens.entry) ≡ Some (opened_value opened))
        × (count_of (tokens_of opened.rest) < count_of (tokens_of tokens.entry))) }
{
    match split(tokens) {
        Some((TokenTree::Group(group), rest)) if group.delimiter == Delimiter::Parenthesis => {
            Some(Opened {
                span: group.span,
                inside: group.run(),
                rest,
            })
        }
        _ => None,
    }
}

/// Returns the group in brackets at the front of `tokens`, or `None` if `tokens` does not begin
/// with such a group.
pub(crate) fn open_bracket<'t, 's>(tokens: Tokens<'t, 's>) -> Option<Opened<'t, 's>>
    ensures { MatchOption result (bracket_in (tokens_of tokens.entry) ≡ None)
        (λ opened. (bracket_in (tokens_of tokens.entry) ≡ Some (opened_value opened))
        × (count_of (tokens_of opened.rest) < count_of (tokens_of tokens.entry))) }
{
    match split(tokens) {
        Some((TokenTree::Group(group), rest)) if group.delimiter == Delimiter::Bracket => {
            Some(Opened {
                span: group.span,
                inside: group.run(),
                rest,
            })
        }
        _ => None,
    }
}

/// Returns the group in braces at the front of `tokens`, or `None` if `tokens` does not begin with
/// such a group.
pub(crate) fn open_brace<'t, 's>(tokens: Tokens<'t, 's>) -> Option<Opened<'t, 's>>
    ensures { MatchOption result (brace_in (tokens_of tokens.entry) ≡ None)
        (λ opened. (brace_in (tokens_of tokens.entry) ≡ Some (opened_value opened))
        × (count_of (tokens_of opened.rest) < count_of (tokens_of tokens.entry))) }
{
    match split(tokens) {
        Some((TokenTree::Group(group), rest)) if group.delimiter == Delimiter::Brace => {
            Some(Opened {
                span: group.span,
                inside: group.run(),
                rest,
            })
        }
        _ => None,
    }
}
