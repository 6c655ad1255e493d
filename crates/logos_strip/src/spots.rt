//! Functions that determine from the spot of each token of an enum whether the token is removed.
//! `groups` calls `goes` and `spot_after` for each token.

ghost use Rattle.std.specs.Prelude.{◌≡◌, ◌<◌, Some, None, MatchOption};
ghost use Rattle.logos_strip.specs.Views.{tokens_of, tree_of, is_none, begins_gone, goes, after_part, after_start, after_hash, after_attributed, after_in_enum, after_in_attribute, spot_after, scope_of, rank};

use crate::helpers::{begins_helper, is_comma, is_macro_entry};
use logos_token::token::{Delimiter, TokenTree, Tokens};

/// A part of an enum whose tokens are stripped as one run.
#[derive(Clone, Copy)]
pub enum Scope {
    /// The whole enum.
    Enum,
    /// The tokens in the brackets of an attribute of the enum.
    Attribute,
    /// The entries of `derive` in an attribute of the enum.
    Derives,
    /// The variants of the enum.
    Variants,
    /// The fields of a variant.
    Fields,
}

/// The spot of the next token in a run. The spot and the run's scope determine whether the token
/// can be removed.
#[derive(Clone, Copy)]
pub enum TokenSpot {
    /// A point at which an attribute, a path or an entry can begin.
    Open,
    /// The point after the `#` of an attribute that remains.
    Hash,
    /// A point inside a part that is removed.
    Gone,
    /// The point after the name of a variant, or after `derive`.
    Named,
    /// A point inside a part that remains.
    Within,
}

/// Returns whether `tokens` begin with an attribute or an entry that is removed. The tokens are at
/// the spot `Open` in a run of `scope`.
fn begins_gone(scope: Scope, tokens: Tokens<'_, '_>) -> bool
    ensures { result ≡ begins_gone scope (tokens_of tokens.entry) }
{
    match scope {
        Scope::Enum | Scope::Variants | Scope::Fields => begins_helper(tokens),
        Scope::Attribute => false,
        Scope::Derives => is_macro_entry(tokens),
    }
}

/// Returns whether the first token of `tokens` is removed. The token is at `spot` in a run of
/// `scope`.
pub(crate) fn goes(scope: Scope, spot: TokenSpot, tokens: Tokens<'_, '_>) -> bool
    ensures { result ≡ goes scope spot (tokens_of tokens.entry) }
{
    match spot {
        TokenSpot::Open => begins_gone(scope, tokens),
        TokenSpot::Gone => true,
        TokenSpot::Hash | TokenSpot::Named | TokenSpot::Within => false,
    }
}

/// Returns the spot after the token `tree` of an entry, a variant or a field. The spot after a
/// comma of either spacing is `Open`, because another entry, variant or field can begin there. The
/// spot after any other token is `other`.
fn after_part(other: TokenSpot, tree: TokenTree<'_, '_>) -> TokenSpot
    ensures { result ≡ after_part other (tree_of tree.entry) }
{
    if is_comma(tree) {
        TokenSpot::Open
    } else {
        other
    }
}

/// Returns the spot after the token `tree`, which is at the spot `Open` and is not removed. Returns
/// `other` if the token does not begin an attribute.
fn after_start(other: TokenSpot, tree: TokenTree<'_, '_>) -> TokenSpot
    ensures { result ≡ after_start other (tree_of tree.entry) }
{
    match tree {
        TokenTree::Punct(punct) if punct.character == '#' => TokenSpot::Hash,
        TokenTree::Doc(_) => TokenSpot::Open,
        _ => other,
    }
}

/// Returns the spot after `tree`, the token that follows the `#` of an attribute that remains.
fn after_hash(tree: TokenTree<'_, '_>) -> TokenSpot
    ensures { result ≡ after_hash (tree_of tree.entry) }
{
    match tree {
        TokenTree::Group(_) => TokenSpot::Open,
        _ => TokenSpot::Within,
    }
}

/// Returns the spot after the token `tree`, which is at `spot` in a run whose parts can begin with
/// attributes. `gone` is `true` if the token is removed. `first` is the spot after the first token
/// of a part that follows the part's attributes.
fn after_attributed(
    first: TokenSpot,
    spot: TokenSpot,
    gone: bool,
    tree: TokenTree<'_, '_>,
) -> TokenSpot
    ensures { result ≡
        after_attributed first spot gone (tree_of tree.entry) }
{
    match spot {
        TokenSpot::Open if gone => TokenSpot::Gone,
        TokenSpot::Open => after_start(first, tree),
        TokenSpot::Hash => after_hash(tree),
        TokenSpot::Gone => TokenSpot::Open,
        TokenSpot::Named | TokenSpot::Within => after_part(TokenSpot::Within, tree),
    }
}

/// Returns the spot after the token `tree`, which is at `spot` in an enum. An enum can begin with
/// attributes. `gone` is `true` if the token is removed.
fn after_in_enum(spot: TokenSpot, gone: bool, tree: TokenTree<'_, '_>) -> TokenSpot
    ensures { result ≡ after_in_enum spot gone (tree_of tree.entry) }
{
    match spot {
        TokenSpot::Within => TokenSpot::Within,
        _ => after_attributed(TokenSpot::Within, spot, gone, tree),
    }
}

/// Returns the spot after the token `tree`, which is at `spot` in the brackets of an attribute.
fn after_in_attribute(spot: TokenSpot, tree: TokenTree<'_, '_>) -> TokenSpot
    ensures { result ≡ after_in_attribute spot (tree_of tree.entry) }
{
    match (spot, tree) {
        (TokenSpot::Open, TokenTree::Ident(name)) if name.text == "derive" => TokenSpot::Named,
        _ => TokenSpot::Within,
    }
}

/// Returns the spot after the token `tree`, which is at `spot` in a run of `scope`. `gone` is
/// `true` if the token is removed.
pub(crate) fn spot_after(
    scope: Scope,
    spot: TokenSpot,
    gone: bool,
    tree: TokenTree<'_, '_>,
) -> TokenSpot
    ensures { result ≡
        spot_after scope spot gone (tree_of tree.entry) }
{
    match scope {
        Scope::Enum => after_in_enum(spot, gone, tree),
        Scope::Attribute => after_in_attribute(spot, tree),
        Scope::Derives if gone => after_part(TokenSpot::Gone, tree),
        Scope::Derives => after_part(TokenSpot::Within, tree),
        Scope::Variants => after_attributed(TokenSpot::Named, spot, gone, tree),
        Scope::Fields => after_attributed(TokenSpot::Within, spot, gone, tree),
    }
}

/// Returns the part of an enum that the tokens of a group form. The group is at `spot` in `scope`,
/// and `rest` are the tokens after the group. Returns `None` if no token in the group can be
/// removed.
pub(crate) fn scope_of(
    scope: Scope,
    spot: TokenSpot,
    delimiter: Delimiter,
    rest: Tokens<'_, '_>,
) -> Option<Scope>
    ensures { MatchOption result
        (scope_of scope spot delimiter (is_none (tokens_of rest.entry)) ≡ None)
        (λ inner. (scope_of scope spot delimiter (is_none (tokens_of rest.entry)) ≡ Some inner)
        × (rank inner < rank scope)) }
{
    match (scope, spot, delimiter) {
        (Scope::Enum, TokenSpot::Hash, Delimiter::Bracket) => Some(Scope::Attribute),
        (Scope::Enum, TokenSpot::Within, Delimiter::Brace) if rest.is_empty() => Some(
            Scope::Variants,
        ),
        (Scope::Attribute, TokenSpot::Named, Delimiter::Parenthesis) => Some(Scope::Derives),
        (Scope::Variants, TokenSpot::Named, _) => Some(Scope::Fields),
        _ => None,
    }
}
