//! Contains functions that classify the first tokens of a run. Used by the other modules of
//! `table`.

ghost use Rattle.std.specs.Prelude.{◌≡◌};
ghost use Rattle.logos_type_reader.specs.Views.{rest_of, tokens_of, mismatches, first_span, begins_colons, begins_mark, begins_arrow, begins_dots, begins_parenthesis, begins_bound, typing, continues, spot_of, Looks, first_text, begins_word, IsAction};

use crate::table::stage::{FrontToken, Next, Spot, StepFault};
use logos_token::token::{Delimiter, Spacing, Span, TokenTree, Tokens};

/// Returns the class of the first token of a run.
pub(super) fn look(run: Tokens<'_, '_>) -> FrontToken
    ensures { Looks result (tokens_of run.entry) }
{
    match run.first() {
        None => FrontToken::Nothing,
        Some(TokenTree::Ident(_)) => FrontToken::Word,
        Some(TokenTree::Punct(punct)) => FrontToken::Mark(punct.character, punct.spacing),
        Some(TokenTree::Literal(_)) => FrontToken::Literal,
        Some(TokenTree::Doc(_)) => FrontToken::Doc,
        Some(TokenTree::Group(group)) => FrontToken::Group(group.delimiter),
    }
}

/// Returns the text of the first token if it is a name or a literal, and an empty text otherwise.
pub(super) fn first_text<'s>(run: Tokens<'_, 's>) -> &'s str
    ensures { result.now ≡ first_text (tokens_of run.entry) }
{
    match run.first() {
        Some(TokenTree::Ident(name)) => name.text,
        Some(TokenTree::Literal(literal)) => literal.text,
        _ => "",
    }
}

/// Returns the span of the first token, or `0..0` if the run is empty.
pub(super) fn first_span(run: Tokens<'_, '_>) -> Span
    ensures { result ≡ first_span (tokens_of run.entry) }
{
    match run.first() {
        Some(tree) => tree.span(),
        None => Span { from: 0, to: 0 },
    }
}

/// Returns whether the run begins with the identifier `word`.
pub(super) fn begins_word(word: &str, run: Tokens<'_, '_>) -> bool
    ensures { result ≡ begins_word word.now (tokens_of run.entry) }
{
    match look(run) {
        FrontToken::Word => first_text(run) == word,
        _ => false,
    }
}

/// Returns whether the run begins with the punctuation `mark`.
pub(super) fn begins_mark(mark: char, run: Tokens<'_, '_>) -> bool
    ensures { result ≡ begins_mark mark (tokens_of run.entry) }
{
    match look(run) {
        FrontToken::Mark(first, _) => first == mark,
        _ => false,
    }
}

/// Returns whether the run begins with a group in parentheses.
fn begins_parenthesis(run: Tokens<'_, '_>) -> bool
    ensures { result ≡ begins_parenthesis (tokens_of run.entry) }
{
    match look(run) {
        FrontToken::Group(Delimiter::Parenthesis) => true,
        _ => false,
    }
}

/// Returns whether the run begins with `::`.
pub(super) fn begins_colons(run: Tokens<'_, '_>) -> bool
    ensures { result ≡ begins_colons (tokens_of run.entry) }
{
    let FrontToken::Mark(first, Spacing::Joint) = look(run) else {
        return false;
    };
    let FrontToken::Mark(second, _) = look(run.rest()) else {
        return false;
    };
    (first == ':') & (second == ':')
}

/// Returns whether the run begins with `->`.
pub(super) fn begins_arrow(run: Tokens<'_, '_>) -> bool
    ensures { result ≡ begins_arrow (tokens_of run.entry) }
{
    let FrontToken::Mark(first, Spacing::Joint) = look(run) else {
        return false;
    };
    let FrontToken::Mark(second, _) = look(run.rest()) else {
        return false;
    };
    (first == '-') & (second == '>')
}

/// Returns whether the run begins with `...`.
pub(super) fn begins_dots(run: Tokens<'_, '_>) -> bool
    ensures { result ≡ begins_dots (tokens_of run.entry) }
{
    let FrontToken::Mark(first, Spacing::Joint) = look(run) else {
        return false;
    };
    let FrontToken::Mark(second, Spacing::Joint) = look(run.rest()) else {
        return false;
    };
    let FrontToken::Mark(third, _) = look(run.rest().rest()) else {
        return false;
    };
    ((first == '.') & (second == '.')) & (third == '.')
}

/// Returns whether the run begins with a `:` that is not the start of `::`.
pub(super) fn is_typing(run: Tokens<'_, '_>) -> bool
    ensures { result ≡ typing (tokens_of run.entry) }
{
    begins_mark(':', run) & !begins_colons(run)
}

/// Returns whether a run continues the path whose name precedes the run: whether the run begins
/// with `<`, `::` or parentheses.
pub(super) fn continues(run: Tokens<'_, '_>) -> bool
    ensures { result ≡ continues (tokens_of run.entry) }
{
    begins_mark('<', run) | begins_colons(run) | begins_parenthesis(run)
}

/// Returns whether the run begins with a token that can begin a bound.
pub(super) fn begins_bound(run: Tokens<'_, '_>) -> bool
    ensures { result ≡ begins_bound (tokens_of run.entry) }
{
    if let FrontToken::Word = look(run) {
        return true;
    }
    begins_mark('\'', run) | begins_mark('?', run) | begins_colons(run) | begins_parenthesis(run)
}

/// Returns a mismatch at the first token after the spot, or at `0..0` if there is no such token.
pub(super) fn mismatch(at: &Spot<'_, '_>) -> Next
    ensures { IsAction result (spot_of at.now) (mismatches (tokens_of at.now.run)) }
{
    Err(StepFault::Mismatch(first_span(at.run)))
}

/// Returns a mismatch at the second token after the spot, or at `0..0` if there is no such token.
pub(super) fn mismatch_after(at: &Spot<'_, '_>) -> Next
    ensures { IsAction result (spot_of at.now) (mismatches (rest_of (tokens_of at.now.run))) }
{
    Err(StepFault::Mismatch(first_span(at.run.rest())))
}
