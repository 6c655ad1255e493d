//! Functions on sets of positions, which are stored as ascending lists. `step` and `exits` search
//! these sets.

ghost use Rattle.std.specs.Prelude.{◌⊎◌, OnOk, ◌^◌, ◌≡◌, ℕ, ◌+◌, ◌-◌, ◌*◌, ◌<◌, ◌≤◌, ◌↔◌, IsTrue, IsFalse, length, slice_index};
ghost use Rattle.logos_positions.specs.Marks.{IsRising, IsSet, Has, HasBetween, IsFirstFrom};

use crate::node::Copies;
use std::alloc::AllocError;

/// Returns the index of the first position in `marks` that is at least `position`. The index must
/// be between `low` and `high`, inclusive.
fn first_between(marks: &[usize], low: usize, high: usize, position: usize) -> usize
    requires rising { IsRising marks.now }
    requires order { low ≤ high }
    requires within { high ≤ length marks.now }
    requires below { (k : ℕ) → k < low → slice_index marks.now k < position }
    requires above { (k : ℕ) → high ≤ k → k < length marks.now → position ≤ slice_index marks.now k }
    ensures { IsFirstFrom marks.now position result }
{
    let mut low = low;
    let mut high = high;
    while low < high {
        let mid = low + (high - low) / 2;
        if marks[mid] < position {
            low = mid + 1;
        } else {
            high = mid;
        }
    }
    low
}

/// Returns the index of the first position in `marks` that is at least `from`, or the number of
/// positions if there is no such position.
pub fn first_from(marks: &[usize], from: usize) -> usize
    requires { IsRising marks.now }
    ensures { IsFirstFrom marks.now from result }
{
    first_between(marks, 0, marks.len(), from)
}

/// Returns whether `position` is in the set `marks`.
pub fn has_mark(marks: &[usize], position: usize) -> bool
    requires { IsRising marks.now }
    ensures { IsTrue result ↔ Has marks.now position }
{
    let i = first_from(marks, position);
    i < marks.len() && marks[i] == position
}

/// Returns whether one of the `width` positions from the position `from` on is in the set `marks`.
pub fn any_mark(marks: &[usize], from: usize, width: usize) -> bool
    requires { IsRising marks.now }
    ensures { IsTrue result ↔ ((q : ℕ) × (q < width) × Has marks.now (from + q)) }
{
    let i = first_from(marks, from);
    i < marks.len() && marks[i] - from < width
}

/// The positions of a tree that are in a set: the positions at the indices `from..to` of the set.
#[derive(Clone, Copy)]
pub struct OwnPositions {
    /// The first position of the tree.
    pub base: usize,
    pub from: usize,
    pub to: usize,
}

/// Returns the positions of a tree that are in the set `marks`. The tree has `width` positions from
/// `base` on.
pub fn own_positions(marks: &[usize], base: usize, width: usize) -> OwnPositions
    requires rising { IsRising marks.now }
    requires fits { base + width < 2 ^ 64 }
    ensures base { result.base ≡ base }
    ensures from { IsFirstFrom marks.now base result.from }
    ensures to { IsFirstFrom marks.now (base + width) result.to }
{
    OwnPositions {
        base,
        from: first_from(marks, base),
        to: first_from(marks, base + width),
    }
}

impl OwnPositions {
    /// Returns the positions below `middle` and the positions from `middle` on. The latter are
    /// returned as the positions of a tree that begins at `middle`.
    pub fn parted(self, marks: &[usize], middle: usize) -> (OwnPositions, OwnPositions)
        requires rising { IsRising marks.now }
        requires order { self.from ≤ self.to }
        requires within { self.to ≤ length marks.now }
        requires below { (k : ℕ) → k < self.from → slice_index marks.now k < middle }
        requires above { (k : ℕ) → self.to ≤ k → k < length marks.now →
            middle ≤ slice_index marks.now k }
        ensures base { result.0.base ≡ self.base }
        ensures after { result.1.base ≡ middle }
        ensures from { result.0.from ≡ self.from }
        ensures to { result.1.to ≡ self.to }
        ensures middle { IsFirstFrom marks.now middle result.0.to }
        ensures meet { result.1.from ≡ result.0.to }
    {
        let at = first_between(marks, self.from, self.to, middle);
        let front = OwnPositions {
            base: self.base,
            from: self.from,
            to: at,
        };
        let back = OwnPositions {
            base: middle,
            from: at,
            to: self.to,
        };
        (front, back)
    }
}

/// Returns the number of leading copies that have no position in `marks`. Returns 0 if the first
/// copy is entered.
fn empty_copies(marks: &[usize], copies: Copies) -> usize
    requires { IsRising marks.now }
    ensures bound { result ≤ copies.count }
    ensures stays { IsTrue copies.entered → result ≡ 0 }
    ensures unmarked { (q : ℕ) → q < copies.each * result → ¬ (Has marks.now (copies.base + q)) }
    ensures marked { result < copies.count → IsFalse copies.entered →
        HasBetween marks.now (copies.base + copies.each * result)
        (copies.base + copies.each * (result + 1)) }
{
    if copies.entered {
        return 0;
    }
    if copies.each == 0 {
        return copies.count;
    }
    let i = first_from(marks, copies.base);
    if i == marks.len() {
        return copies.count;
    }
    ((marks[i] - copies.base) / copies.each).min(copies.count)
}

/// Returns the index of the first copy, from the index `done` on, that is entered or has a position
/// in `marks`. Returns the number of copies if there is no such copy.
///
/// `entered` is `true` if the copy at the index `done` is entered. If this copy is not entered, a
/// later copy can be entered only after a copy that has a position in `marks`.
pub fn next_copy(marks: &[usize], copies: Copies, done: usize, entered: bool) -> usize
    requires rising { IsRising marks.now }
    requires fits { copies.base + copies.each * copies.count < 2 ^ 64 }
    requires within { done ≤ copies.count }
    ensures after { done ≤ result }
    ensures bound { result ≤ copies.count }
    ensures stays { IsTrue entered → result ≡ done }
    ensures unmarked { (q : ℕ) → copies.each * done ≤ q → q < copies.each * result →
        ¬ (Has marks.now (copies.base + q)) }
    ensures marked { result < copies.count → IsFalse entered →
        HasBetween marks.now (copies.base + copies.each * result)
        (copies.base + copies.each * (result + 1)) }
{
    let rest = Copies {
        base: copies.base + copies.each * done,
        each: copies.each,
        count: copies.count - done,
        entered,
    };
    done + empty_copies(marks, rest)
}

/// Returns whether another copy has the same positions as the first of `copies`. In `marks`, the
/// positions of the first copy are at the indices `from..to`, and the positions of the other copy
/// begin at the index `at`. `shift` is the distance from the first position of the first copy to
/// the first position of the other copy.
fn is_marked_alike(
    marks: &[usize],
    from: usize,
    to: usize,
    at: usize,
    copies: Copies,
    shift: usize,
) -> bool
    requires rising { IsRising marks.now }
    requires fits { copies.base + shift + copies.each < 2 ^ 64 }
    requires order { from ≤ to }
    requires from { IsFirstFrom marks.now copies.base from }
    requires to { IsFirstFrom marks.now (copies.base + copies.each) to }
    requires at { IsFirstFrom marks.now (copies.base + shift) at }
    ensures same { IsTrue result → (q : ℕ) → q < copies.each →
        Has marks.now (copies.base + shift + q) ↔ Has marks.now (copies.base + q) }
    ensures next { IsTrue result →
        IsFirstFrom marks.now (copies.base + shift + copies.each) (at + (to - from)) }
{
    let mut i = 0;
    while i < to - from {
        if at + i == marks.len() {
            return false;
        }
        if marks[at + i] != marks[from + i] + shift {
            return false;
        }
        i += 1;
    }
    if at + i == marks.len() {
        return true;
    }
    copies.base + shift + copies.each <= marks[at + i]
}

/// Returns the number of consecutive copies after the first copy that have the same positions as
/// the first copy.
pub fn alike_copies(marks: &[usize], copies: Copies) -> usize
    requires rising { IsRising marks.now }
    requires fits { copies.base + copies.each * copies.count < 2 ^ 64 }
    requires some { 0 < copies.count }
    ensures few { result < copies.count }
    ensures same { (k q : ℕ) → k ≤ result → q < copies.each →
        Has marks.now (copies.base + copies.each * k + q) ↔ Has marks.now (copies.base + q) }
{
    let from = first_from(marks, copies.base);
    let to = first_from(marks, copies.base + copies.each);
    if to < from {
        return 0;
    }
    let mut at = to;
    let mut more = 0;
    while more + 1 < copies.count {
        if !is_marked_alike(marks, from, to, at, copies, copies.each * (more + 1)) {
            return more;
        }
        at += to - from;
        more += 1;
    }
    more
}

/// Appends the positions at the indices `from..to`, each increased by `shift`, to `positions`.
///
/// # Errors
///
/// Returns `AllocError` if memory runs out.
pub(crate) fn push_moved(
    positions: &mut Vec<usize>,
    from: usize,
    to: usize,
    shift: usize,
) -> Result<(), AllocError>
    requires within { to ≤ length positions.old.items }
    requires order { from ≤ to }
    requires fits { (k : ℕ) → from ≤ k → k < to → slice_index positions.old.items k + shift < 2 ^ 64 }
    ensures keeps { OnOk result ((k : ℕ) → k < length positions.old.items →
        slice_index positions.new.items k ≡ slice_index positions.old.items k) }
    ensures longer { OnOk result (length positions.old.items ≤ length positions.new.items) }
    ensures set { OnOk result ((low high : ℕ) → IsSet positions.old.items low → low ≤ high →
        ((k : ℕ) → from ≤ k → k < to →
        (low ≤ slice_index positions.old.items k + shift)
        × (slice_index positions.old.items k + shift < high)) →
        IsSet positions.new.items high) }
    ensures has { OnOk result ((q : ℕ) → Has positions.new.items q ↔ (Has positions.old.items q
        ⊎ ((k : ℕ) × (from ≤ k) × (k < to) × (slice_index positions.old.items k + shift ≡ q)))) }
{
    let mut i = from;
    while i < to {
        let position = positions[i] + shift;
        positions.push(position)?;
        i += 1;
    }
    Ok(())
}

/// Inserts `position` into the set `marks`, unless the set already contains it. The set remains in
/// ascending order.
///
/// # Errors
///
/// Returns `AllocError` if memory runs out.
pub fn insert_mark(marks: &mut Vec<usize>, position: usize) -> Result<(), AllocError>
    requires { IsRising marks.old.items }
    ensures rising { OnOk result (IsRising marks.new.items) }
    ensures has { OnOk result ((q : ℕ) → Has marks.new.items q ↔
        (Has marks.old.items q ⊎ (q ≡ position))) }
{
    if has_mark(marks, position) {
        return Ok(());
    }
    let i = first_from(marks, position);
    marks.insert(i, position)?;
    Ok(())
}
