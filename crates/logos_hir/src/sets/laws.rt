//! Laws of sets of characters. No code calls these functions: the contract of each is a proved law.

ghost use Rattle.std.specs.Prelude.{◌≡◌, ℕ, Bool};
ghost use Rattle.logos_hir.specs.Views.{AreCanonical, in_range, intersection, members, only_chars, char_ranges, byte_ranges, pairs, set_of};

use super::{LAST_BYTE, RangeSet};

/// Sets with equal members have equal ranges.
pub fn same_members(a: &RangeSet, b: &RangeSet)
    ensures { set_of a.now ≡ set_of b.now → pairs a.now.ranges.items ≡ pairs b.now.ranges.items }
{}

/// The ranges that represent a set in a tree are canonical, and their members are the characters or
/// the bytes in the set.
pub fn ranges_of_a_set()
    ensures chars_canonical { (set : ℕ → Bool) → AreCanonical (char_ranges set) }
    ensures chars_members { (set : ℕ → Bool) → members (char_ranges set) ≡ only_chars set }
    ensures bytes_canonical { (set : ℕ → Bool) → AreCanonical (byte_ranges set) }
    ensures bytes_members { (set : ℕ → Bool) → members (byte_ranges set) ≡
        only_chars (intersection set (in_range (0, LAST_BYTE))) }
{}
