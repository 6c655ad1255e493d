//! Classifies attributes by their names. Used by `mistakes` and `other_attributes`.

ghost use Rattle.std.specs.Prelude.{◌≡◌, ◌↔◌, IsTrue, MatchOption, None, Some, map};
ghost use Rattle.logos_warnings.specs.Views.{attribute_value, enum_value, variant_value, tokens_of, begins_with_colon, begins_with_helper, is_helper_path, is_helper_segment, is_qualified, name_in, name_of, HasHelper, HasHelpers, IsHelper, VariantsHave};

use crate::helper::is_helper_name;
use logos_enum::{Attribute, ItemEnum, Variant, split_attribute};
use logos_token::token::{TokenTree, Tokens};
use logos_token::util::{after_path_mark, after_word};

/// The site of an attribute: an enum, or one of its variants.
#[derive(Clone, Copy)]
pub(crate) enum AttributeSite {
    OnEnum,
    /// A variant without helper attributes.
    OnVariant,
    /// A variant with a helper attribute.
    OnLeaf,
}

/// Returns whether a run begins with `:`.
fn begins_with_colon(tokens: Tokens<'_, '_>) -> bool
    ensures { result ≡ begins_with_colon (tokens_of tokens.entry) }
{
    match tokens.first() {
        Some(TokenTree::Punct(punct)) => punct.character == ':',
        _ => false,
    }
}

/// Returns the name of an attribute, or `None` if the path of the attribute is not a single
/// identifier. `tokens` are the tokens between the brackets of the attribute.
fn name_in<'s>(tokens: Tokens<'_, 's>) -> Option<&'s str>
    ensures { MatchOption result (name_in (tokens_of tokens.entry) ≡ None)
        (λ name. name_in (tokens_of tokens.entry) ≡ Some name.now) }
{
    match tokens.first() {
        Some(TokenTree::Ident(ident)) if !begins_with_colon(tokens.rest()) => Some(ident.text),
        _ => None,
    }
}

/// Returns the name of an attribute. Returns `None` if the attribute has no brackets, or if the
/// path of the attribute is not a single identifier.
pub(crate) fn name_of<'s>(attribute: Attribute<'_, 's>) -> Option<&'s str>
    ensures { MatchOption result (name_of (attribute_value attribute.entry) ≡ None)
        (λ name. name_of (attribute_value attribute.entry) ≡ Some name.now) }
{
    match attribute.inside {
        Some(tokens) => name_in(tokens),
        None => None,
    }
}

/// Returns whether a run begins with `::` and the name of a helper attribute.
fn is_helper_segment(tokens: Tokens<'_, '_>) -> bool
    ensures { result ≡ is_helper_segment (tokens_of tokens.entry) }
{
    match after_path_mark(tokens) {
        Some(rest) => begins_with_helper(rest),
        None => false,
    }
}

/// Returns whether a run begins with the name of a helper attribute.
fn begins_with_helper(tokens: Tokens<'_, '_>) -> bool
    ensures { result ≡ begins_with_helper (tokens_of tokens.entry) }
{
    match tokens.first() {
        Some(TokenTree::Ident(ident)) => is_helper_name(ident.text),
        _ => false,
    }
}

/// Returns whether a run begins with `logos::` and the name of a helper attribute.
fn is_helper_path(tokens: Tokens<'_, '_>) -> bool
    ensures { result ≡ is_helper_path (tokens_of tokens.entry) }
{
    match after_word("logos", tokens) {
        Some(rest) => is_helper_segment(rest),
        None => false,
    }
}

/// Returns whether the path of an attribute is `logos::` and the name of a helper attribute.
pub(crate) fn is_qualified(attribute: Attribute<'_, '_>) -> bool
    ensures { result ≡ is_qualified (attribute_value attribute.entry) }
{
    match attribute.inside {
        Some(tokens) => is_helper_path(tokens),
        None => false,
    }
}

/// Returns whether the name of an attribute is the name of a helper attribute.
fn is_helper(attribute: Attribute<'_, '_>) -> bool
    ensures { IsTrue result ↔ IsHelper (attribute_value attribute.entry) }
{
    match name_of(attribute) {
        Some(name) => is_helper_name(name),
        None => false,
    }
}

/// Returns whether one of the attributes of a run is a helper attribute.
pub(crate) fn has_helper(run: Tokens<'_, '_>) -> bool
    ensures { IsTrue result ↔ HasHelper (tokens_of run.entry) }
{
    let mut rest = run;
    while let Some((attribute, next)) = split_attribute(rest) {
        if is_helper(attribute) {
            return true;
        }
        rest = next;
    }
    false
}

/// Returns whether one of `variants` has a helper attribute.
fn variants_have(variants: &[Variant<'_, '_>]) -> bool
    ensures { IsTrue result ↔ VariantsHave (map variant_value variants.now) }
{
    let mut rest = variants;
    while let [variant, more @ ..] = rest {
        if has_helper(variant.attributes) {
            return true;
        }
        rest = more;
    }
    false
}

/// Returns whether an enum or one of its variants has a helper attribute.
pub(crate) fn has_helpers(item: &ItemEnum<'_, '_>) -> bool
    ensures { IsTrue result ↔ HasHelpers (enum_value item.now) }
{
    has_helper(item.attributes) | variants_have(item.variants.as_slice())
}

/// Returns whether a variant of an enum has a helper attribute.
pub(crate) fn has_patterns(item: &ItemEnum<'_, '_>) -> bool
    ensures { IsTrue result ↔ VariantsHave (enum_value item.now).variants }
{
    variants_have(item.variants.as_slice())
}
