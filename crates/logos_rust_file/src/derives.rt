//! Determines whether an enum derives `Logos`. `finder` calls `derives` for each enum.

ghost use Rattle.std.specs.Prelude.{◌≡◌, ◌<◌, ◌||◌, false, true, MatchOption};
ghost use Rattle.logos_rust_file.specs.Imports.{count_of, tokens_of, begins_list, derives, derives_after, derives_in, lists_macro};

use logos_strip::helpers::{is_comma, is_macro_entry};
use logos_token::token::{Delimiter, TokenTree, Tokens};
use logos_token::util::after_word;

/// Returns whether one of the attributes at the front of `tokens` is a `derive` with an entry that
/// `strip_attributes` removes: `Logos`, `logos::Logos` or `::logos::Logos`.
pub(crate) fn derives(tokens: Tokens<'_, '_>) -> bool
    ensures { result ≡ derives (tokens_of tokens.entry) }
{
    let mut rest = tokens;
    while let Some((found, next)) = first_attribute(rest) {
        if found {
            return true;
        }
        rest = next;
    }
    false
}

/// Returns the tokens after the first attribute, with a `bool` that is `true` if the attribute
/// derives `Logos`. Returns `None` if the run does not begin with an attribute.
fn first_attribute<'t, 's>(tokens: Tokens<'t, 's>) -> Option<(bool, Tokens<'t, 's>)>
    ensures { MatchOption result (derives (tokens_of tokens.entry) ≡ false)
        (λ read. (derives (tokens_of tokens.entry) ≡ (read.0 || derives (tokens_of read.1)))
        × (count_of (tokens_of read.1) < count_of (tokens_of tokens.entry))) }
{
    match tokens.first() {
        Some(TokenTree::Doc(_)) => Some((false, tokens.rest())),
        Some(TokenTree::Punct(punct)) if punct.character == '#' => bracketed(tokens.rest()),
        _ => None,
    }
}

/// Returns the tokens after the brackets of an attribute, with a `bool` that is `true` if the
/// brackets derive `Logos`. Returns `None` if the run does not begin with brackets.
fn bracketed<'t, 's>(tokens: Tokens<'t, 's>) -> Option<(bool, Tokens<'t, 's>)>
    ensures { MatchOption result (derives_after (tokens_of tokens.entry) ≡ false)
        (λ read. (derives_after (tokens_of tokens.entry)
        ≡ (read.0 || derives (tokens_of read.1)))
        × (count_of (tokens_of read.1) < count_of (tokens_of tokens.entry))) }
{
    match tokens.first() {
        Some(TokenTree::Group(group)) if group.delimiter == Delimiter::Bracket => {
            Some((derives_in(group.run()), tokens.rest()))
        }
        _ => None,
    }
}

/// Returns whether an attribute is a `derive` with an entry that names the derive macro. `tokens`
/// are the tokens between the brackets of the attribute.
fn derives_in(tokens: Tokens<'_, '_>) -> bool
    ensures { result ≡ derives_in (tokens_of tokens.entry) }
{
    match after_word("derive", tokens) {
        Some(rest) => begins_list(rest),
        None => false,
    }
}

/// Returns whether the run begins with parentheses in which an entry names the derive macro.
fn begins_list(tokens: Tokens<'_, '_>) -> bool
    ensures { result ≡ begins_list (tokens_of tokens.entry) }
{
    match tokens.first() {
        Some(TokenTree::Group(group)) if group.delimiter == Delimiter::Parenthesis => {
            lists_macro(group.run())
        }
        _ => false,
    }
}

/// Returns whether an entry of a `derive` names the derive macro, with or without a path. `tokens`
/// are the entries of the `derive`.
fn lists_macro(tokens: Tokens<'_, '_>) -> bool
    ensures { result ≡ lists_macro true (tokens_of tokens.entry) }
{
    let mut begins = true;
    let mut rest = tokens;
    while let Some(tree) = rest.first() {
        if begins & is_macro_entry(rest) {
            return true;
        }
        begins = is_comma(tree);
        rest = rest.rest();
    }
    false
}
