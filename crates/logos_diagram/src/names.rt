//! Functions that append the labels of edges, with short names for sets of bytes and of characters.
//! Called by `edges`.

use crate::folds::size_of;
use crate::label::Mermaid;
use logos_attempts::{push_class, push_excluded};
use logos_graph::byte_class::ByteClass;
use logos_page::Page;
use std::alloc::{AllocError, Global};
use std::ops::RangeInclusive;

/// The maximum number of byte ranges that a label shows.
const RANGES: usize = 12;

/// The number of characters outside ASCII.
const WIDE: usize = 1_111_936;

/// The bytes and the characters that take an edge.
#[derive(Clone, Copy)]
pub(crate) struct EdgeLabel<'a> {
    /// The set of bytes, or `None` if only characters outside ASCII take the edge.
    pub(crate) class: Option<&'a ByteClass>,
    /// Whether the label describes the bytes as all bytes that are on no other edge of the state.
    pub(crate) is_rest: bool,
    /// The number of characters outside ASCII that take the edge with all of their bytes.
    pub(crate) wide: usize,
}

/// Appends the label of an edge.
///
/// # Errors
///
/// Returns `AllocError` if memory runs out. Then nothing was appended.
pub(crate) fn push_edge_label(
    alloc: Global,
    mermaid: &mut Mermaid,
    label: EdgeLabel<'_>,
) -> Result<(), AllocError> {
    let mut page = Page::new(alloc, false);
    match label.class {
        Some(class) => push_bytes(&mut page, class, label),
        None => push_wide(&mut page, label.wide),
    }
    let text = page.finish()?;
    mermaid.push_label(text.as_str());
    Ok(())
}

/// Appends the text of `label`: the bytes in `class`, and the characters outside ASCII if there are
/// any.
fn push_bytes(page: &mut Page, class: &ByteClass, label: EdgeLabel<'_>) {
    if (label.wide == WIDE) & is_ascii(class) {
        return push_all_but(page, class);
    }
    if label.is_rest {
        return page.push(rest_name(class));
    }
    push_named(page, class);
    if label.wide > 0 {
        page.push(", ");
        push_wide(page, label.wide);
    }
}

/// Returns the name of the bytes that are on no other edge of a state. `class` is the set of these
/// bytes.
fn rest_name(class: &ByteClass) -> &'static str {
    if size_of(class) == 256 {
        "any byte"
    } else {
        "any other byte"
    }
}

/// Appends the name of all characters except the ASCII characters that are not in `class`.
fn push_all_but(page: &mut Page, class: &ByteClass) {
    if size_of(class) == 128 {
        page.push("any character");
    } else {
        push_excluded(page, &class.to_table());
    }
}

/// Returns whether a set contains only ASCII bytes.
fn is_ascii(class: &ByteClass) -> bool {
    class.ranges.iter().all(|range| *range.end() < 128)
}

/// Appends the label text for `count` characters outside ASCII.
fn push_wide(page: &mut Page, count: usize) {
    if count == WIDE {
        return page.push("any non-ASCII character");
    }
    page.push_number(count);
    page.push(if count == 1 {
        " non-ASCII character"
    } else {
        " non-ASCII characters"
    });
}

/// Appends a set of bytes by its short name, or by its ranges if it has no short name.
fn push_named(page: &mut Page, class: &ByteClass) {
    match name_of(&class.ranges) {
        Some(name) => page.push(name),
        None => push_class(page, class, RANGES),
    }
}

/// Returns the short name of the set of bytes with the ranges `ranges`, or `None` if the set has no
/// short name.
fn name_of(ranges: &[RangeInclusive<u8>]) -> Option<&'static str> {
    match ranges {
        [digits] if is_range(digits, b'0', b'9') => Some("\\d"),
        [controls, blank] if is_range(controls, b'\t', b'\r') & is_range(blank, b' ', b' ') => {
            Some("\\s")
        }
        [digits, upper, line, lower]
            if is_range(digits, b'0', b'9')
                & is_range(upper, b'A', b'Z')
                & is_range(line, b'_', b'_')
                & is_range(lower, b'a', b'z') => { Some("\\w") }
        _ => None,
    }
}

/// Returns whether `range` is `first..=last`.
fn is_range(range: &RangeInclusive<u8>, first: u8, last: u8) -> bool {
    (*range.start() == first) & (*range.end() == last)
}
