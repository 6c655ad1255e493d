//! Unites classes of bytes. `prepare` calls `joined_class` for the alternation of two trees.

ghost use Rattle.std.specs.Prelude.{◌≡◌, ◌+◌, ◌<◌, ◌≤◌, ◌||◌, ℕ, IsTrue, IfOk, IfSome, OnOk, length, max, min, slice_get};
ghost use Rattle.logos_positions.specs.Views.{is_in, pairs, byte_in, AreNear, IsEither, is_within, core_of};

use crate::node::Node;
use logos_hir::hir::Range;
use std::alloc::{AllocError, Global};

/// Returns whether two ranges overlap or are adjacent.
fn are_near(one: Range, other: Range) -> bool
    ensures { IsTrue result → AreNear one other }
{
    one.first <= other.last.saturating_add(1) && other.first <= one.last.saturating_add(1)
}

/// Returns the smallest range that contains both ranges.
fn hull(one: Range, other: Range) -> Range
    ensures first { result.first ≡ min one.first other.first }
    ensures last { result.last ≡ max one.last other.last }
{
    Range {
        first: one.first.min(other.first),
        last: one.last.max(other.last),
    }
}

/// Returns the index of the first of `ranges` that overlaps `range` or is adjacent to `range`.
/// Returns the number of ranges if there is no such range.
fn near_range(ranges: &[Range], range: Range) -> usize
    ensures within { result ≤ length ranges.now }
    ensures near { IfSome (slice_get ranges.now result) (λ found. AreNear found range) }
{
    let mut i = 0;
    while i < ranges.len() {
        if are_near(ranges[i], range) {
            return i;
        }
        i += 1;
    }
    i
}

/// Adds `range` to the class with `ranges`: extends the first range that overlaps `range` or is
/// adjacent to it. Appends `range` if there is no such range.
///
/// # Errors
///
/// Returns `AllocError` if memory runs out.
fn add_range(ranges: &mut Vec<Range>, range: Range) -> Result<(), AllocError>
    ensures { OnOk result ((x : ℕ) → is_in (pairs ranges.new.items) x ≡
        (is_in (pairs ranges.old.items) x || is_within range x)) }
{
    let i = near_range(ranges, range);
    if i < ranges.len() {
        ranges[i] = hull(ranges[i], range);
        return Ok(());
    }
    ranges.push(range)?;
    Ok(())
}

/// Returns the ranges of the union of two classes.
///
/// # Errors
///
/// Returns `AllocError` if memory runs out.
fn union(alloc: Global, one: &[Range], other: &[Range]) -> Result<Vec<Range>, AllocError>
    ensures { IfOk result (λ ranges. (x : ℕ) → is_in (pairs ranges.items) x ≡
        (is_in (pairs one.now) x || is_in (pairs other.now) x)) }
{
    let mut ranges = Vec::from_slice(alloc, one)?;
    for range in other {
        add_range(&mut ranges, *range)?;
    }
    Ok(ranges)
}

/// Returns the ranges of a class of bytes, or `None` for any other tree.
fn ranges_of(node: &Node) -> Option<&[Range]>
    ensures { IfSome result (λ ranges. core_of node.now ≡ byte_in (is_in (pairs ranges.now))) }
{
    match node {
        Node::Bytes(ranges) => Some(ranges),
        _ => None,
    }
}

/// Returns the ranges of the union of `first` and `second`, or `None` if one of the two trees is
/// not a class of bytes.
///
/// # Errors
///
/// Returns `AllocError` if memory runs out.
pub(crate) fn joined_class(
    alloc: Global,
    first: &Node,
    second: &Node,
) -> Result<Option<Vec<Range>>, AllocError>
    ensures { IfOk result (λ joined. IfSome joined (λ ranges.
        IsEither (core_of first.now) (core_of second.now) (is_in (pairs ranges.items)))) }
{
    let Some(first) = ranges_of(first) else {
        return Ok(None);
    };
    let Some(second) = ranges_of(second) else {
        return Ok(None);
    };
    let ranges = union(alloc, first, second)?;
    Ok(Some(ranges))
}
