//! Functions that name leaves in messages. Used by `leading_looks`, `meetings` and
//! `shadowed_leaves`.

use logos_page::Page;
use logos_pattern::leaf::{Leaf, VariantKind};
use std::alloc::{AllocError, Global};

/// Returns the name of the variant of a leaf, or `skip` for a leaf that has no variant.
pub(crate) fn name_of<'l>(leaf: &'l Leaf<'_>) -> &'l str {
    match &leaf.kind {
        VariantKind::Unit(name) => name.text,
        VariantKind::Value(name, _) => name.text,
        VariantKind::Skip => "skip",
    }
}

/// Returns the concatenation of `front`, the name of a leaf and `back`.
pub(crate) fn text_with(
    alloc: Global,
    front: &str,
    leaf: &Leaf<'_>,
    back: &str,
) -> Result<String, AllocError> {
    let mut page = Page::new(alloc, false);
    page.push(front);
    page.push(name_of(leaf));
    page.push(back);
    page.finish()
}
