//! Functions that return the names of leaves, or append them to a page. Used by `matches`,
//! `examples`, `logos_records` and other crates.

ghost use Rattle.std.specs.Prelude.{◌≡◌, option_map};
ghost use Rattle.logos_answers.specs.Imports.{Gains, leaf_name, leaf_text, name_at, variant_name, variant_text};

use logos_page::Page;
use logos_pattern::leaf::{Leaf, VariantKind};

/// Returns the variant name of a leaf of the kind `kind`, or `None` for a skip.
pub fn variant_of<'l>(kind: &'l VariantKind<'_>) -> Option<&'l str>
    ensures { option_map (λ name. name.now) result ≡ variant_name kind.now }
{
    match kind {
        VariantKind::Unit(name) => Some(name.text),
        VariantKind::Value(name, _) => Some(name.text),
        VariantKind::Skip => None,
    }
}

/// Returns the variant name of the leaf with the number `leaf`, or `None` if the leaf is a skip or
/// does not exist.
pub fn variant_at<'l>(leaves: &'l [Leaf<'_>], leaf: usize) -> Option<&'l str>
    ensures { option_map (λ name. name.now) result ≡ variant_text leaves.now leaf }
{
    match leaves.get(leaf) {
        Some(leaf) => variant_of(&leaf.kind),
        None => None,
    }
}

/// Returns the name of a leaf: the name of its variant, or `skip`.
fn leaf_name<'l>(leaf: &'l Leaf<'_>) -> &'l str
    ensures { result.now ≡ leaf_name leaf.now }
{
    match variant_of(&leaf.kind) {
        Some(name) => name,
        None => "skip",
    }
}

/// Returns the name of the leaf with the number `leaf`: the name of its variant, or `skip`. Returns
/// an empty text if there is no such leaf.
pub fn name_at<'l>(leaves: &'l [Leaf<'_>], leaf: usize) -> &'l str
    ensures { result.now ≡ name_at leaves.now leaf }
{
    match leaves.get(leaf) {
        Some(leaf) => leaf_name(leaf),
        None => "",
    }
}

/// Appends the leaf with the number `leaf`: its name in backticks, and its number.
pub fn push_leaf(page: &mut Page, leaves: &[Leaf<'_>], leaf: usize)
    ensures { Gains (leaf_text leaves.now leaf) page.old page.new }
{
    page.push("`");
    page.push(name_at(leaves, leaf));
    page.push("` (leaf ");
    page.push_number(leaf);
    page.push(")");
}
