//! Compares types by their parts, regardless of their spans. Users of the library call
//! `is_same_type`.

ghost use Rattle.std.specs.Prelude.{◌≡◌, ◌↔◌, IsTrue, map};
ghost use Rattle.logos_type.specs.Views.{sign_of, tree_of, type_tree};

use crate::type_expr::{TypeExpr, TypePart, TypeToken};

/// Returns whether two tokens are equal.
fn is_same_leaf(leaf: &TypeToken<'_>, other: &TypeToken<'_>) -> bool
    ensures { IsTrue result ↔ (sign_of leaf.now ≡ sign_of other.now) }
{
    match (leaf, other) {
        (TypeToken::Word(text), TypeToken::Word(second)) => text == second,
        (TypeToken::Mark(character), TypeToken::Mark(second)) => character == second,
        (TypeToken::Colons, TypeToken::Colons) => true,
        (TypeToken::Arrow, TypeToken::Arrow) => true,
        (TypeToken::Literal(text), TypeToken::Literal(second)) => text == second,
        (TypeToken::Open(delimiter), TypeToken::Open(second)) => delimiter == second,
        (TypeToken::Close(delimiter), TypeToken::Close(second)) => delimiter == second,
        (TypeToken::Reference(lifetime), TypeToken::Reference(second)) => lifetime == second,
        (TypeToken::Lifetime(text), TypeToken::Lifetime(second)) => text == second,
        (TypeToken::OtherLifetime(text), TypeToken::OtherLifetime(second)) => text == second,
        (TypeToken::Punct(character, spacing), TypeToken::Punct(second, other_spacing)) => {
            (character == second) & (spacing == other_spacing)
        }
        (TypeToken::Doc(text), TypeToken::Doc(second)) => text == second,
        _ => false,
    }
}

/// Returns whether the lists `parts` and `others` have equal parts in the same order.
#[cycle(equality)]
fn are_same_parts(parts: &[TypePart<'_>], others: &[TypePart<'_>]) -> bool
    ensures { IsTrue result ↔ (map tree_of parts.now ≡ map tree_of others.now) }
{
    if parts.len() != others.len() {
        return false;
    }
    for index in 0..parts.len() {
        if !is_same_part(&parts[index], &others[index]) {
            return false;
        }
    }
    true
}

/// Returns whether two parts are equal.
#[cycle(equality)]
fn is_same_part(part: &TypePart<'_>, other: &TypePart<'_>) -> bool
    ensures { IsTrue result ↔ (tree_of part.now ≡ tree_of other.now) }
{
    match (part, other) {
        (TypePart::Leaf(leaf), TypePart::Leaf(second)) => is_same_leaf(leaf, second),
        (TypePart::Name(text), TypePart::Name(second)) => text == second,
        (TypePart::Whole(parts), TypePart::Whole(others)) => are_same_parts(parts, others),
        (TypePart::Still(parts), TypePart::Still(others)) => are_same_parts(parts, others),
        _ => false,
    }
}

/// Returns whether two types have the same parts, regardless of their spans.
pub fn is_same_type(type_expr: &TypeExpr<'_>, other: &TypeExpr<'_>) -> bool
    ensures { IsTrue result ↔ (type_tree type_expr.now ≡ type_tree other.now) }
{
    is_same_part(&type_expr.part, &other.part)
}
