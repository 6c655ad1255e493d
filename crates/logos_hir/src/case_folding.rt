//! Adds to sets of characters the other cases of their members. Called by `logos_syntax` for
//! patterns that ignore case.

ghost use Rattle.std.specs.Prelude.{◌≡◌, ℕ, ◌+◌, ◌<◌, ◌≤◌, ◌^◌, ◌||◌, length, IfOk, OnOk};
ghost use Rattle.logos_hir.specs.Views.{IsNonDecreasingBy, fold_pairs, in_range, in_ranges, fold_case, fold_ascii, Adds, in_values, in_image, shift, pairs, set_of};

use crate::hir::Range;
use crate::sets::RangeSet;
use std::alloc::{AllocError, Global};
use unicode::case;

/// The first capital letter of ASCII.
const CAPITAL_A: u32 = 65;

/// The last capital letter of ASCII.
const CAPITAL_Z: u32 = 90;

/// The first small letter of ASCII.
const SMALL_A: u32 = 97;

/// The last small letter of ASCII.
const SMALL_Z: u32 = 122;

/// Returns the pairs of `table` whose first number is in `range`. The table must be sorted by the
/// first numbers of its pairs.
fn within(table: &[(u32, u32)], range: Range) -> &[(u32, u32)]
    requires { IsNonDecreasingBy (λ p. p.0) table.now }
    ensures { (c : ℕ) → in_values result.now c ≡
        in_image table.now (in_range (range.first, range.last)) c }
{
    let rest = &table[table.partition_point(|pair| pair.0 < range.first)..];
    &rest[..rest.partition_point(|pair| pair.0 <= range.last)]
}

/// Appends to `out` the second number of each pair of `table`, as a range of one number.
fn push_values(out: &mut Vec<Range>, table: &[(u32, u32)]) -> Result<(), AllocError>
    ensures { OnOk result (Adds (pairs out.old.items) (pairs out.new.items) (in_values table.now)) }
{
    for (_, value) in table {
        out.push(Range {
            first: *value,
            last: *value,
        })?;
    }
    Ok(())
}

/// Appends to `out`, for each character in `ranges`, the other characters with an equal simple case
/// folding.
fn push_folds(out: &mut Vec<Range>, ranges: &[Range]) -> Result<(), AllocError>
    ensures { OnOk result (Adds (pairs out.old.items) (pairs out.new.items)
        (in_image fold_pairs (in_ranges (pairs ranges.now)))) }
{
    let table = case::fold_pairs();
    for range in ranges {
        push_values(out, within(table, *range))?;
    }
    Ok(())
}

/// Returns the closure of a set under simple case folding.
///
/// # Errors
///
/// Returns `AllocError` if memory runs out.
pub fn fold_case(alloc: Global, set: &RangeSet) -> Result<RangeSet, AllocError>
    ensures { IfOk result (λ folded. set_of folded ≡ fold_case (set_of set.now)) }
{
    let mut ranges = Vec::from_slice(alloc, set.ranges())?;
    push_folds(&mut ranges, set.ranges())?;
    RangeSet::from_ranges(alloc, &ranges)
}

/// Appends to `out` the numbers of `range` from `first` to `last`, both included, shifted so that
/// `first` becomes `to`. Appends nothing if there are no such numbers.
fn push_shift(
    out: &mut Vec<Range>,
    range: Range,
    first: u32,
    last: u32,
    to: u32,
) -> Result<(), AllocError>
    requires order { first ≤ last }
    requires small { last + to < 2 ^ 32 }
    ensures { OnOk result ((c : ℕ) → in_ranges (pairs out.new.items) c ≡
        (in_ranges (pairs out.old.items) c ||
        shift first last to (in_range (range.first, range.last)) c)) }
{
    let start = range.first.max(first);
    let end = range.last.min(last);
    if start > end {
        return Ok(());
    }
    out.push(Range {
        first: start - first + to,
        last: end - first + to,
    })?;
    Ok(())
}

/// Appends to `out` the other case of each ASCII letter in `ranges`.
fn push_cases(out: &mut Vec<Range>, ranges: &[Range]) -> Result<(), AllocError>
    ensures { OnOk result (Adds (pairs out.old.items) (pairs out.new.items) (λ c.
        shift CAPITAL_A CAPITAL_Z SMALL_A (in_ranges (pairs ranges.now)) c ||
        shift SMALL_A SMALL_Z CAPITAL_A (in_ranges (pairs ranges.now)) c)) }
{
    for range in ranges {
        push_shift(out, *range, CAPITAL_A, CAPITAL_Z, SMALL_A)?;
        push_shift(out, *range, SMALL_A, SMALL_Z, CAPITAL_A)?;
    }
    Ok(())
}

/// Returns `set` with the other case of each of its ASCII letters added.
///
/// # Errors
///
/// Returns `AllocError` if memory runs out.
pub fn fold_ascii(alloc: Global, set: &RangeSet) -> Result<RangeSet, AllocError>
    ensures { IfOk result (λ folded. set_of folded ≡ fold_ascii (set_of set.now)) }
{
    let mut ranges = Vec::from_slice(alloc, set.ranges())?;
    push_cases(&mut ranges, set.ranges())?;
    RangeSet::from_ranges(alloc, &ranges)
}
