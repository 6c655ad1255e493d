//! Determines whether an enum derives `Logos` without a path, and thus through an import. `finder`
//! calls `derives_by_name` for each enum.

use logos_strip::helpers::{is_comma, is_macro_entry};
use logos_token::token::{Delimiter, TokenTree, Tokens};
use logos_token::util::after_word;

/// Returns whether a `derive` at the front of the enum `item` has the entry `Logos` without a path.
pub(crate) fn derives_by_name(item: Tokens<'_, '_>) -> bool {
    let mut rest = item;
    for _ in 0..item.count() {
        if begins_list(rest) {
            return true;
        }
        rest = rest.rest();
    }
    false
}

/// Returns whether the run begins with brackets that contain a `derive` with the entry `Logos`,
/// without a path.
fn begins_list(tokens: Tokens<'_, '_>) -> bool {
    match tokens.first() {
        Some(TokenTree::Group(group)) if group.delimiter == Delimiter::Bracket => {
            lists_name(group.run())
        }
        _ => false,
    }
}

/// Returns whether an attribute is a `derive` with the entry `Logos` without a path. `inside` are
/// the tokens between the brackets of the attribute.
fn lists_name(inside: Tokens<'_, '_>) -> bool {
    let Some(rest) = after_word("derive", inside) else {
        return false;
    };
    match rest.first() {
        Some(TokenTree::Group(group)) => has_name(group.run()),
        _ => false,
    }
}

/// Returns whether one of the entries of a `derive` is `Logos` without a path.
fn has_name(entries: Tokens<'_, '_>) -> bool {
    let mut begins = true;
    let mut rest = entries;
    for _ in 0..entries.count() {
        if begins & is_name(rest) {
            return true;
        }
        begins = begins_comma(rest);
        rest = rest.rest();
    }
    false
}

/// Returns whether the run begins with an entry that consists of `Logos` alone.
fn is_name(tokens: Tokens<'_, '_>) -> bool {
    match tokens.first() {
        Some(TokenTree::Ident(word)) => (word.text == "Logos") & is_macro_entry(tokens),
        _ => false,
    }
}

/// Returns whether the run begins with a comma.
fn begins_comma(tokens: Tokens<'_, '_>) -> bool {
    match tokens.first() {
        Some(tree) => is_comma(tree),
        None => false,
    }
}
