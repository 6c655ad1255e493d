//! Converts ranges of a class to ranges of characters, and clips these ranges to blocks of numbers.
//! Called by `builder`.

ghost use Rattle.std.specs.Prelude.{◌&&◌, nat_le, ◌≡◌, ℕ, ◌+◌, ◌^◌, ◌<◌, ◌≤◌, ◌||◌, OnOk, IfOk};
ghost use Rattle.logos_positions.specs.Views.{scalar, pairs, is_in, is_char_in, in_range, in_ranges, from_floor, ClipsTo, AreParts};

use logos_hir::hir::Range;
use std::alloc::{AllocError, Global};

/// The numbers from `first` to `last`.
#[derive(Clone, Copy, PartialEq, Eq, Hash)]
pub struct CharRange {
    pub first: u32,
    pub last: u32,
}

/// A part of a block: the numbers from `floor` on in the block of `size` numbers that begins at
/// `start`.
#[derive(Clone, Copy)]
pub struct BlockPart {
    pub floor: u32,
    pub start: u32,
    pub size: u32,
}

/// Returns the offsets, in the block of `window`, of the numbers that are in both `range` and
/// `window`. Returns `None` if there are no such numbers.
fn clip_range(range: CharRange, window: BlockPart) -> Option<CharRange>
    requires fits { window.start + window.size < 2 ^ 32 }
    requires some { 0 < window.size }
    ensures clips { ClipsTo window.floor window.start window.size range result }
{
    let first = range.first.max(window.floor).max(window.start);
    let last = range.last.min(window.start + window.size - 1);
    if first > last {
        return None;
    }
    Some(CharRange {
        first: first - window.start,
        last: last - window.start,
    })
}

/// Appends to `out` the offsets, in the block of `window`, of the numbers that are in both `range`
/// and `window`.
///
/// # Errors
///
/// Returns `AllocError` if memory runs out.
fn push_clip(
    out: &mut Vec<CharRange>,
    range: CharRange,
    window: BlockPart,
) -> Result<(), AllocError>
    requires fits { window.start + window.size < 2 ^ 32 }
    requires some { 0 < window.size }
    ensures members { OnOk result ((o : ℕ) → o < window.size → in_ranges out.new.items o ≡
        (in_ranges out.old.items o || from_floor (in_range range) window.floor window.start o)) }
    ensures parts { AreParts window.size out.old.items →
        OnOk result (AreParts window.size out.new.items) }
{
    match clip_range(range, window) {
        None => Ok(()),
        Some(part) => {
            out.push(part)?;
            Ok(())
        }
    }
}

/// Returns the offsets, in the block of `window`, of the numbers that are in one of `ranges` and in
/// `window`.
///
/// # Errors
///
/// Returns `AllocError` if memory runs out.
pub fn clip(
    alloc: Global,
    ranges: &[CharRange],
    window: BlockPart,
) -> Result<Vec<CharRange>, AllocError>
    requires fits { window.start + window.size < 2 ^ 32 }
    requires some { 0 < window.size }
    ensures members { IfOk result (λ out. (o : ℕ) → o < window.size → in_ranges out.items o ≡
        from_floor (in_ranges ranges.now) window.floor window.start o) }
    ensures parts { IfOk result (λ out. AreParts window.size out.items) }
{
    let mut out = Vec::new(alloc);
    for i in 0..ranges.len() {
        push_clip(&mut out, ranges[i], window)?;
    }
    Ok(out)
}

/// Appends the range from `first` to `last` to `out`, unless the range is empty.
///
/// # Errors
///
/// Returns `AllocError` if memory runs out.
fn push_range(out: &mut Vec<CharRange>, first: u32, last: u32) -> Result<(), AllocError>
    ensures { OnOk result ((c : ℕ) → in_ranges out.new.items c ≡
        (in_ranges out.old.items c || (nat_le first c && nat_le c last))) }
{
    if first <= last {
        out.push(CharRange { first, last })?;
    }
    Ok(())
}

/// Appends the characters of `range` to `out`. Leaves out surrogates and numbers greater than the
/// last character.
///
/// # Errors
///
/// Returns `AllocError` if memory runs out.
fn push_scalars(out: &mut Vec<CharRange>, range: Range) -> Result<(), AllocError>
    ensures { OnOk result ((c : ℕ) → in_ranges out.new.items c ≡
        (in_ranges out.old.items c ||
        (scalar c && (nat_le range.first c && nat_le c range.last)))) }
{
    push_range(out, range.first, range.last.min(0xD7FF))?;
    push_range(out, range.first.max(0xE000), range.last.min(0x10_FFFF))
}

/// Returns the characters of `ranges`. Leaves out surrogates and numbers greater than the last
/// character.
///
/// # Errors
///
/// Returns `AllocError` if memory runs out.
pub fn scalars(alloc: Global, ranges: &[Range]) -> Result<Vec<CharRange>, AllocError>
    ensures { IfOk result (λ made. (c : ℕ) → in_ranges made.items c ≡
        is_char_in (pairs ranges.now) c) }
{
    let mut out = Vec::new(alloc);
    for range in ranges {
        push_scalars(&mut out, *range)?;
    }
    Ok(out)
}
