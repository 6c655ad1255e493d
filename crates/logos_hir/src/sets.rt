//! Sets of characters or bytes, represented as ranges. The builders of trees and the reader of
//! brackets combine sets.

ghost use Rattle.std.specs.Prelude.{◌≡◌, ℕ, ◌+◌, ◌<◌, ◌≤◌, true, ◌||◌, ◌&&◌, not, nat_le, [], IfOk, OnOk, MatchOption};
ghost use Rattle.logos_hir.specs.Imports.{IsNonDecreasingBy, scalar, AreCanonical, in_range, in_ranges, is_range, next, IsLimit, AreRanges, free_from, in_gap, AddsCharacters, HasCharacters};
ghost use Rattle.logos_hir.specs.Hir.{pairs};

use crate::hir::Range;
use std::alloc::{AllocError, Global};

/// The greatest byte.
pub const LAST_BYTE: u32 = 0xFF;

/// The greatest character.
pub const LAST_CHAR: u32 = 0x10_FFFF;

/// A set of characters or bytes, represented by the fewest ranges in ascending order. Each range
/// starts and ends with a character, and there is a character between any two ranges. Sets with
/// equal members therefore have equal ranges.
#[derive(Drop)]
pub struct RangeSet {
    ranges: Vec<Range>,
    ghost canonical: { AreCanonical (pairs ranges.items) },
}

/// Returns the character after `c`, or 0x110000 after the last character.
fn after(c: u32) -> u32
    requires { c ≤ 0x10_FFFF }
    ensures { result ≡ next c }
{
    if c == 0xD7FF { 0xE000 } else { c + 1 }
}

/// Returns the character before `limit`. `limit` must be a character other than U+0000, or
/// 0x110000.
fn before(limit: u32) -> u32
    requires limit { IsLimit limit }
    requires some { 0 < limit }
    ensures char { scalar result ≡ true }
    ensures next { next result ≡ limit }
{
    if limit == 0xE000 { 0xD7FF } else { limit - 1 }
}

/// Appends to `out` the range of the characters from `first` up to but not including `end`, without
/// characters after `last`. Appends nothing if there are no such characters.
fn push_gap(out: &mut Vec<Range>, first: u32, end: u32, last: u32) -> Result<(), AllocError>
    requires first { IsLimit first }
    requires end { IsLimit end }
    requires last { scalar last ≡ true }
    requires canonical { AreCanonical (pairs out.old.items) }
    requires free { free_from 0 (pairs out.old.items) ≤ first }
    ensures canonical { OnOk result (AreCanonical (pairs out.new.items)) }
    ensures free { (n : ℕ) → first ≤ n → end < n →
        OnOk result (free_from 0 (pairs out.new.items) ≤ n) }
    ensures members { OnOk result (AddsCharacters (pairs out.old.items) (pairs out.new.items)
        (in_gap first end last)) }
{
    if first >= end {
        return Ok(());
    }
    let to = before(end).min(last);
    if first > to {
        return Ok(());
    }
    out.push(Range { first, last: to })?;
    Ok(())
}

/// Returns the characters that are at most `last` and in none of the ranges. The ranges must be
/// sorted by their first numbers.
fn gaps(alloc: Global, ranges: &[Range], last: u32) -> Result<Vec<Range>, AllocError>
    requires ranges { AreRanges (pairs ranges.now) }
    requires sorted { IsNonDecreasingBy (λ r. r.first) ranges.now }
    requires last { scalar last ≡ true }
    ensures canonical { IfOk result (λ out. AreCanonical (pairs out.items)) }
    ensures members { IfOk result (λ out. HasCharacters (pairs out.items)
        (λ c. nat_le c last && not (in_ranges (pairs ranges.now) c))) }
{
    let mut out = Vec::new(alloc);
    let mut first = 0;
    for range in ranges {
        push_gap(&mut out, first, range.first, last)?;
        first = first.max(after(range.last));
    }
    push_gap(&mut out, first, LAST_CHAR + 1, last)?;
    Ok(out)
}

/// Returns the first character at or after `c`. Returns `c` if it is greater than all characters.
fn first_char(c: u32) -> u32
    ensures same { (d : ℕ) → scalar d ≡ true → nat_le result d ≡ nat_le c d }
    ensures char { result ≤ 0x10_FFFF → scalar result ≡ true }
{
    if matches!(c, 0xD800..=0xDFFF) {
        0xE000
    } else {
        c
    }
}

/// Returns the last character at or before `c`.
fn last_char(c: u32) -> u32
    ensures same { (d : ℕ) → scalar d ≡ true → nat_le d result ≡ nat_le d c }
    ensures char { scalar result ≡ true }
{
    if matches!(c, 0xD800..=0xDFFF) {
        0xD7FF
    } else {
        c.min(LAST_CHAR)
    }
}

/// Appends to `out` the range of the characters in `range`, or nothing if `range` contains no
/// characters.
fn push_chars(out: &mut Vec<Range>, range: Range) -> Result<(), AllocError>
    requires { AreRanges (pairs out.old.items) }
    ensures ranges { OnOk result (AreRanges (pairs out.new.items)) }
    ensures members { OnOk result ((c : ℕ) → scalar c ≡ true →
        in_ranges (pairs out.new.items) c ≡
        (in_ranges (pairs out.old.items) c || in_range (range.first, range.last) c)) }
{
    let first = first_char(range.first);
    let last = last_char(range.last);
    if first > last {
        return Ok(());
    }
    out.push(Range { first, last })?;
    Ok(())
}

/// Returns the ranges, each narrowed to start and end with a character. Ranges without characters
/// are left out.
fn chars_of(alloc: Global, ranges: &[Range]) -> Result<Vec<Range>, AllocError>
    ensures ranges { IfOk result (λ out. AreRanges (pairs out.items)) }
    ensures members { IfOk result (λ out. HasCharacters (pairs out.items)
        (in_ranges (pairs ranges.now))) }
{
    let mut out = Vec::new(alloc);
    for range in ranges {
        push_chars(&mut out, *range)?;
    }
    Ok(out)
}

impl RangeSet {
    ghost use Rattle.std.specs.Prelude.{◌≡◌, ℕ, ◌≤◌, true, IfOk, MatchBool};
    ghost use Rattle.logos_hir.specs.Views.{scalar, Set, members, union, intersection, difference, symmetric_difference, complement, in_range, pairs, sole_member, set_of};

    /// Returns the set of the characters in `ranges`. The ranges may be in any order, overlap, and
    /// contain numbers that are not characters. A range whose first number is greater than its last
    /// is empty.
    ///
    /// # Errors
    ///
    /// Returns `AllocError` if memory runs out.
    pub fn from_ranges(alloc: Global, ranges: &[Range]) -> Result<RangeSet, AllocError>
        ensures { IfOk result (λ set. set_of set ≡ members (pairs ranges.now)) }
    {
        let mut parts = chars_of(alloc, ranges)?;
        parts.sort_unstable_by_key(|range| range.first);
        let outside = gaps(alloc, &parts, LAST_CHAR)?;
        let ranges = gaps(alloc, &outside, LAST_CHAR)?;
        Ok(RangeSet { ranges })
    }

    /// Returns the characters that are at most `last` and not in the set.
    ///
    /// # Errors
    ///
    /// Returns `AllocError` if memory runs out.
    pub fn complement(&self, last: char) -> Result<RangeSet, AllocError>
        ensures { IfOk result (λ set. set_of set ≡ complement last (set_of self.now)) }
    {
        let ranges = gaps(*self.ranges.allocator(), &self.ranges, last as u32)?;
        Ok(RangeSet { ranges })
    }

    /// Returns the members that are at most U+00FF.
    ///
    /// # Errors
    ///
    /// Returns `AllocError` if memory runs out.
    pub fn bytes(&self) -> Result<RangeSet, AllocError>
        ensures { IfOk result (λ set. set_of set ≡
            intersection (set_of self.now) (in_range (0, LAST_BYTE))) }
    {
        self.complement(char::MAX)?.complement('\u{FF}')
    }

    /// Returns the only member, or `None` if the set does not have exactly one member.
    pub fn sole_member(&self) -> Option<char>
        ensures { result ≡ sole_member (pairs self.now.ranges.items) }
    {
        match self.ranges.as_slice() {
            [range] if range.first == range.last => char::from_u32(range.first),
            _ => None,
        }
    }

    /// Returns the ranges of the set, in ascending order.
    pub fn ranges(&self) -> &[Range]
        ensures { result.now ≡ self.now.ranges.items }
    {
        &self.ranges
    }

    /// Returns the ranges of the set, in ascending order, without a copy.
    pub fn into_ranges(self) -> Vec<Range>
        ensures { result ≡ self.ranges }
    {
        let RangeSet { ranges } = self;
        ranges
    }

    /// Returns the characters that are in this set or in `other`.
    ///
    /// # Errors
    ///
    /// Returns `AllocError` if memory runs out.
    pub fn union(&self, other: &RangeSet) -> Result<RangeSet, AllocError>
        ensures { IfOk result (λ set. set_of set ≡ union (set_of self.now) (set_of other.now)) }
    {
        let alloc = *self.ranges.allocator();
        let mut both = Vec::from_slice(alloc, &self.ranges)?;
        both.extend_from_slice(&other.ranges)?;
        RangeSet::from_ranges(alloc, &both)
    }

    /// Returns the members of this set that are also in `other`.
    ///
    /// # Errors
    ///
    /// Returns `AllocError` if memory runs out.
    pub fn intersection(&self, other: &RangeSet) -> Result<RangeSet, AllocError>
        ensures { IfOk result (λ set. set_of set ≡
            intersection (set_of self.now) (set_of other.now)) }
    {
        let outside = self
            .complement(char::MAX)?
            .union(&other.complement(char::MAX)?)?;
        outside.complement(char::MAX)
    }

    /// Returns the members of this set that are not in `other`.
    ///
    /// # Errors
    ///
    /// Returns `AllocError` if memory runs out.
    pub fn difference(&self, other: &RangeSet) -> Result<RangeSet, AllocError>
        ensures { IfOk result (λ set. set_of set ≡
            difference (set_of self.now) (set_of other.now)) }
    {
        self.intersection(&other.complement(char::MAX)?)
    }

    /// Returns the members of exactly one of this set and `other`.
    ///
    /// # Errors
    ///
    /// Returns `AllocError` if memory runs out.
    pub fn symmetric_difference(&self, other: &RangeSet) -> Result<RangeSet, AllocError>
        ensures { IfOk result (λ set. set_of set ≡
            symmetric_difference (set_of self.now) (set_of other.now)) }
    {
        self.difference(other)?.union(&other.difference(self)?)
    }
}

pub mod laws;
pub mod operands;
