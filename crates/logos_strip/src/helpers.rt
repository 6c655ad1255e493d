//! Functions that recognize the parts of an enum that belong to the derive macro: the macro's
//! helper attributes, and the entries of `derive` that name the macro. `spots` and
//! `logos_rust_file` call them.

ghost use Rattle.std.specs.Prelude.{◌≡◌};
ghost use Rattle.logos_strip.specs.Imports.{tokens_of, tree_of, is_comma, is_helper_name, is_helper_path, holds_helper, begins_helper, ends_entry, is_macro_name, is_macro_segment, is_macro_path, is_global_path, is_macro_entry};

use logos_token::token::{Delimiter, TokenTree, Tokens};
use logos_token::util::{after_path_mark, after_word, begins_with};

/// Returns whether a token is a comma.
pub fn is_comma(tree: TokenTree<'_, '_>) -> bool
    ensures { result ≡ is_comma (tree_of tree.entry) }
{
    match tree {
        TokenTree::Punct(punct) => punct.character == ',',
        _ => false,
    }
}

/// Returns whether `text` is the name of a helper attribute.
fn is_helper_name(text: &str) -> bool
    ensures { result ≡ is_helper_name text.now }
{
    (text == "logos") | ((text == "token") | (text == "regex"))
}

/// Returns whether the path of an attribute is exactly the name of a helper attribute. `tokens` are
/// the tokens in the attribute's brackets.
fn is_helper_path(tokens: Tokens<'_, '_>) -> bool
    ensures { result ≡ is_helper_path (tokens_of tokens.entry) }
{
    match tokens.first() {
        Some(TokenTree::Ident(name)) => is_helper_name(name.text)
            & !begins_with(':', tokens.rest()),
        _ => false,
    }
}

/// Returns whether a run begins with the brackets of a helper attribute.
fn holds_helper(tokens: Tokens<'_, '_>) -> bool
    ensures { result ≡ holds_helper (tokens_of tokens.entry) }
{
    match tokens.first() {
        Some(TokenTree::Group(group)) if group.delimiter == Delimiter::Bracket => is_helper_path(
            group.run(),
        ),
        _ => false,
    }
}

/// Returns whether a run begins with a helper attribute.
pub(crate) fn begins_helper(tokens: Tokens<'_, '_>) -> bool
    ensures { result ≡ begins_helper (tokens_of tokens.entry) }
{
    match tokens.first() {
        Some(TokenTree::Punct(punct)) => (punct.character == '#') & holds_helper(tokens.rest()),
        _ => false,
    }
}

/// Returns whether an entry of `derive` ends before `tokens`. This holds if `tokens` begin with a
/// comma or are empty.
fn ends_entry(tokens: Tokens<'_, '_>) -> bool
    ensures { result ≡ ends_entry (tokens_of tokens.entry) }
{
    match tokens.first() {
        Some(tree) => is_comma(tree),
        None => true,
    }
}

/// Returns whether the run begins with the whole entry `Logos`.
fn is_macro_name(tokens: Tokens<'_, '_>) -> bool
    ensures { result ≡ is_macro_name (tokens_of tokens.entry) }
{
    match after_word("Logos", tokens) {
        Some(rest) => ends_entry(rest),
        None => false,
    }
}

/// Returns whether the run begins with `::` and the whole entry `Logos`.
fn is_macro_segment(tokens: Tokens<'_, '_>) -> bool
    ensures { result ≡ is_macro_segment (tokens_of tokens.entry) }
{
    match after_path_mark(tokens) {
        Some(rest) => is_macro_name(rest),
        None => false,
    }
}

/// Returns whether the run begins with the whole entry `logos::Logos`.
fn is_macro_path(tokens: Tokens<'_, '_>) -> bool
    ensures { result ≡ is_macro_path (tokens_of tokens.entry) }
{
    match after_word("logos", tokens) {
        Some(rest) => is_macro_segment(rest),
        None => false,
    }
}

/// Returns whether the run begins with the whole entry `::logos::Logos`.
fn is_global_path(tokens: Tokens<'_, '_>) -> bool
    ensures { result ≡ is_global_path (tokens_of tokens.entry) }
{
    match after_path_mark(tokens) {
        Some(rest) => is_macro_path(rest),
        None => false,
    }
}

/// Returns whether the run begins with an entry that names the derive macro: `Logos`,
/// `logos::Logos` or `::logos::Logos`.
pub fn is_macro_entry(tokens: Tokens<'_, '_>) -> bool
    ensures { result ≡ is_macro_entry (tokens_of tokens.entry) }
{
    is_macro_name(tokens) | (is_macro_path(tokens) | is_global_path(tokens))
}
