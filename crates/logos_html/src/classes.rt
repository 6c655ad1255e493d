//! Writes sets of bytes as ranges in brackets, like classes in a pattern. Used by `states` and
//! `drawing`.

use crate::html::Html;
use logos_graph::graph::ByteClass;
use logos_page::Page;
use std::alloc::{AllocError, Global};

/// Appends the first `most` ranges of the set `class` in brackets. If the set has more ranges, also
/// appends the number of the remaining ranges.
///
/// # Errors
///
/// Returns `AllocError` if memory runs out. Then nothing was appended.
pub(crate) fn push_class(
    alloc: Global,
    html: &mut Html,
    class: &ByteClass,
    most: usize,
) -> Result<(), AllocError> {
    let mut page = Page::new(alloc, false);
    logos_attempts::push_class(&mut page, class, most);
    let text = page.finish()?;
    html.push_text(text.as_str());
    Ok(())
}
