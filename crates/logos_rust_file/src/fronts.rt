//! Reads the beginning of an item: its attributes, its visibility, its kind, and the name of an
//! enum. `finder` calls `kind_of` for each item, and `name_of` for each enum.

ghost use Rattle.std.specs.Prelude.{◌≡◌, ◌<◌, MatchOption};
ghost use Rattle.logos_rust_file.specs.Views.{Token, also, count_of, tokens_of, tree_of, after_attributes, after_body, after_hash, after_head, braced_in, ends_body, kind_at, kind_of, kind_value, module_in, name_at, name_of};

use logos_enum::{is_outer, skip_generics, skip_visibility};
use logos_token::token::{Delimiter, Span, TokenTree, Tokens};

/// The kind of the first item of a run, as read from the tokens after its attributes and its
/// visibility.
#[derive(Clone, Copy)]
pub(crate) enum ItemKind<'t, 's> {
    /// No item: no tokens are left.
    End,
    /// An enum, followed by `rest`.
    Enum {
        rest: Tokens<'t, 's>,
    },
    /// A module with the body `inside`, followed by `rest`.
    Module {
        inside: Tokens<'t, 's>,
        rest: Tokens<'t, 's>,
    },
    /// Another token, after which `rest` is read as the next item.
    Other {
        rest: Tokens<'t, 's>,
    },
}

/// Returns the kind of the first item of `tokens`.
pub(crate) fn kind_of<'t, 's>(tokens: Tokens<'t, 's>) -> ItemKind<'t, 's>
    ensures { kind_value result ≡ kind_of (tokens_of tokens.entry) }
{
    kind_at(skip_visibility(skip_attributes(tokens)))
}

/// Returns the tokens after the outer documentation comment or the attribute at the front, or
/// `None` if the run begins with neither.
fn skip_attribute<'t, 's>(tokens: Tokens<'t, 's>) -> Option<Tokens<'t, 's>>
    ensures { MatchOption result
        (after_attributes (tokens_of tokens.entry) ≡ tokens_of tokens.entry)
        (λ rest. (after_attributes (tokens_of tokens.entry) ≡ after_attributes (tokens_of rest))
        × (count_of (tokens_of rest) < count_of (tokens_of tokens.entry))) }
{
    match tokens.first() {
        Some(TokenTree::Doc(doc)) if is_outer(doc.text) => Some(tokens.rest()),
        Some(TokenTree::Punct(punct)) if punct.character == '#' => skip_brackets(tokens.rest()),
        _ => None,
    }
}

/// Returns the tokens after the brackets at the front, or `None` if the run does not begin with
/// brackets.
fn skip_brackets<'t, 's>(tokens: Tokens<'t, 's>) -> Option<Tokens<'t, 's>>
    ensures { MatchOption result ((sign : Token) →
        after_hash sign (tokens_of tokens.entry) ≡ also sign (tokens_of tokens.entry))
        (λ rest. ((sign : Token) → after_hash sign (tokens_of tokens.entry)
        ≡ after_attributes (tokens_of rest))
        × (count_of (tokens_of rest) < count_of (tokens_of tokens.entry))) }
{
    match tokens.first() {
        Some(TokenTree::Group(group)) if group.delimiter == Delimiter::Bracket => {
            Some(tokens.rest())
        }
        _ => None,
    }
}

/// Returns the tokens after all leading attributes.
fn skip_attributes<'t, 's>(tokens: Tokens<'t, 's>) -> Tokens<'t, 's>
    ensures { tokens_of result ≡ after_attributes (tokens_of tokens.entry) }
{
    let mut rest = tokens;
    while let Some(next) = skip_attribute(rest) {
        rest = next;
    }
    rest
}

/// Returns the kind of an item. `tokens` begin after the visibility of the item.
fn kind_at<'t, 's>(tokens: Tokens<'t, 's>) -> ItemKind<'t, 's>
    ensures { kind_value result ≡ kind_at (tokens_of tokens.entry) }
{
    let Some(tree) = tokens.first() else {
        return ItemKind::End;
    };
    let rest = tokens.rest();
    match tree {
        TokenTree::Ident(word) if word.text == "enum" => ItemKind::Enum {
            rest: skip_body(skip_head(rest)),
        },
        TokenTree::Ident(word) if word.text == "mod" => module_at(rest),
        _ => ItemKind::Other { rest },
    }
}

/// Returns a module if `tokens` begin with a name and braces. Otherwise returns `Other` with the
/// rest `tokens`. `tokens` are the tokens after `mod`.
fn module_at<'t, 's>(tokens: Tokens<'t, 's>) -> ItemKind<'t, 's>
    ensures { kind_value result ≡ module_in (tokens_of tokens.entry) }
{
    match tokens.first() {
        Some(TokenTree::Ident(_)) => braced_module(tokens, tokens.rest()),
        _ => ItemKind::Other { rest: tokens },
    }
}

/// Returns a module if `after` begins with braces. Otherwise returns `Other` with the rest
/// `tokens`. `tokens` begin with the name of the module, and `after` contains the tokens after this
/// name.
fn braced_module<'t, 's>(tokens: Tokens<'t, 's>, after: Tokens<'t, 's>) -> ItemKind<'t, 's>
    ensures { kind_value result ≡ braced_in (tokens_of tokens.entry) (tokens_of after.entry) }
{
    match after.first() {
        Some(TokenTree::Group(group)) if group.delimiter == Delimiter::Brace => ItemKind::Module {
            inside: group.run(),
            rest: after.rest(),
        },
        _ => ItemKind::Other { rest: tokens },
    }
}

/// Returns the tokens after the name and the generic parameters of an enum. The generic parameters
/// can contain braces. Returns `tokens` if they do not begin with a name.
fn skip_head<'t, 's>(tokens: Tokens<'t, 's>) -> Tokens<'t, 's>
    ensures { tokens_of result ≡ after_head (tokens_of tokens.entry) }
{
    match tokens.first() {
        Some(TokenTree::Ident(_)) => skip_generics(tokens.rest()),
        _ => tokens,
    }
}

/// Returns the tokens after the first braces or the first `;`, or no tokens if there are neither.
fn skip_body<'t, 's>(tokens: Tokens<'t, 's>) -> Tokens<'t, 's>
    ensures { tokens_of result ≡ after_body (tokens_of tokens.entry) }
{
    let mut rest = tokens;
    while let Some(tree) = rest.first() {
        rest = rest.rest();
        if ends_body(tree) {
            return rest;
        }
    }
    rest
}

/// Returns whether `tree` can end an item, that is, whether it is a group in braces or `;`.
fn ends_body(tree: TokenTree<'_, '_>) -> bool
    ensures { result ≡ ends_body (tree_of tree.entry) }
{
    match tree {
        TokenTree::Group(group) => group.delimiter == Delimiter::Brace,
        TokenTree::Punct(punct) => punct.character == ';',
        _ => false,
    }
}

/// Returns the span of the name of an enum, or `None` if `enum` is not followed by an identifier.
/// `item` contains the tokens of the enum.
pub(crate) fn name_of(item: Tokens<'_, '_>) -> Option<Span>
    ensures { result ≡ name_of (tokens_of item.entry) }
{
    name_at(skip_visibility(skip_attributes(item)).rest())
}

/// Returns the span of the first token, or `None` if the first token is not an identifier.
fn name_at(tokens: Tokens<'_, '_>) -> Option<Span>
    ensures { result ≡ name_at (tokens_of tokens.entry) }
{
    match tokens.first() {
        Some(TokenTree::Ident(word)) => Some(word.span),
        _ => None,
    }
}
