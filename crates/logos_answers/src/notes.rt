//! `note_of` returns the note about callbacks that were not called. Called by `logos_items`.

use crate::counts::{Counts, code_name_at};
use logos_code::code::CodeLeaf;
use logos_page::Page;
use std::alloc::{AllocError, Global};

/// Returns a note that names each variant with a leaf that has a callback and items. Returns an
/// empty text if there is no such variant. The leaves of each variant must be consecutive.
///
/// # Errors
///
/// Returns `AllocError` if memory runs out.
pub fn note_of(
    alloc: Global,
    leaves: &[CodeLeaf<'_>],
    counts: &Counts,
) -> Result<String, AllocError> {
    let mut page = Page::new(alloc, false);
    let mut last = "";
    for number in 0..leaves.len() {
        last = push_variant(&mut page, variant_at(leaves, counts, number), last);
    }
    if !last.is_empty() {
        page.push(": what it answers may change the items of a lexer in Rust\n");
    }
    page.finish()
}

/// Returns the variant name of the leaf at the index `number`, or `None` if the leaf does not
/// exist, is a skip, or has no callback or no items.
fn variant_at<'l>(leaves: &'l [CodeLeaf<'_>], counts: &Counts, number: usize) -> Option<&'l str> {
    if counts.of_leaf(number) == 0 {
        return None;
    }
    let leaf = leaves.get(number)?;
    if leaf.callback.is_none() {
        return None;
    }
    code_name_at(leaves, number)
}

/// Appends `variant` to the note, unless it is `None` or equals `last`, the last variant in the
/// note. Returns the new last variant in the note, or an empty text if the note has no variant.
fn push_variant<'l>(page: &mut Page, variant: Option<&'l str>, last: &'l str) -> &'l str {
    let Some(variant) = variant else {
        return last;
    };
    if variant == last {
        return last;
    }
    page.push(if last.is_empty() {
        "note: no callback was called for `"
    } else {
        ", `"
    });
    page.push(variant);
    page.push("`");
    variant
}
