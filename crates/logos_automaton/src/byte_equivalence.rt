//! Finds the bytes that a pattern distinguishes from the next smaller byte. `row` and `tree_steps`
//! compute transitions only for these bytes. Each other byte has the transition of the next smaller
//! byte.

ghost use Rattle.std.specs.Prelude.{◌≡◌, ◌≢◌, ◌∷◌, ◌++◌, ◌+◌, ◌<◌, ℕ, [], IsTrue, IsFalse, OnOk, false, slice_index_or, if◌then◌else◌};
ghost use Rattle.logos_automaton.specs.Views.{is_in, pairs, byte_in, kind_of_byte, IsRising, Has, SetsFlags, OpensAlike, AreKindBytes, AreFirstBytes, IsPrepared, cores_of};

use crate::boundaries::mark_tree;
use crate::trees::Trees;
use logos_hir::hir::Range;
use logos_positions::positions::look::kind_of;
use logos_positions::positions::trees::next_tree;
use std::alloc::{AllocError, Global};

/// Marks `byte` if it is less than 256.
fn mark(byte: usize, marked: &mut [bool; 256])
    ensures { (x : ℕ) → x < 256 → slice_index_or marked.new x false ≡ false →
        (slice_index_or marked.old x false ≡ false) × (x ≢ byte) }
{
    if byte < 256 {
        marked[byte] = true;
    }
}

/// Marks the first number in `range`, and the number after the last one. Ignores numbers above 255.
pub fn mark_range(range: Range, marked: &mut [bool; 256])
    ensures { SetsFlags (OpensAlike (byte_in (is_in ((range.first, range.last) ∷ []))))
        marked.old marked.new }
{
    mark(range.first as usize, marked);
    mark(range.last as usize + 1, marked);
}

/// Marks each byte that a class of the bytes in `ranges` distinguishes from the next smaller byte.
pub fn mark_ranges(ranges: &[Range], marked: &mut [bool; 256])
    ensures { SetsFlags (OpensAlike (byte_in (is_in (pairs ranges.now)))) marked.old marked.new }
{
    for range in ranges {
        mark_range(*range, marked);
    }
}

/// Appends `byte` to `bytes` if `is_one` is `true`.
///
/// # Errors
///
/// Returns `AllocError` if memory runs out.
pub fn note(bytes: &mut Vec<u8>, byte: u8, is_one: bool) -> Result<(), AllocError>
    ensures { OnOk result (bytes.new.items ≡
        (if is_one then bytes.old.items ++ byte ∷ [] else bytes.old.items)) }
{
    if is_one {
        bytes.push(byte)?;
    }
    Ok(())
}

/// Returns whether look-around assertions can distinguish the bytes `one` and `other`.
fn kinds_differ(one: u8, other: u8) -> bool
    ensures { IsFalse result → kind_of_byte one ≡ kind_of_byte other }
{
    kind_of(one) != kind_of(other)
}

/// Returns an array in which the flag of a byte is `true` if look-around assertions can distinguish
/// the byte from the next smaller byte. The flag of byte 0 is `true`.
pub fn kind_bytes() -> [bool; 256]
    ensures { AreKindBytes result }
{
    let mut first = [true; 256];
    for byte in 1..256 {
        first[byte] = kinds_differ((byte - 1) as u8, byte as u8);
    }
    first
}

/// Sets `first[byte]` to `true` for each byte in `bytes`.
pub fn add_bytes(bytes: &[u8], first: &mut [bool; 256])
    ensures { (byte : ℕ) → byte < 256 → slice_index_or first.new byte false ≡ false →
        (slice_index_or first.old byte false ≡ false) × ¬ (Has bytes.now byte) }
{
    for byte in bytes {
        first[*byte as usize] = true;
    }
}

/// Returns `kinds` if `looks` is `true`, and otherwise an array in which no flag is `true`. `looks`
/// is `true` if at least one tree has a look-around assertion.
pub fn first_by_kind(looks: bool, kinds: &[bool; 256]) -> [bool; 256]
    requires kinds { AreKindBytes kinds.now }
    ensures { (x : ℕ) → x + 1 < 256 → slice_index_or result (x + 1) false ≡ false →
        IsTrue looks → kind_of_byte x ≡ kind_of_byte (x + 1) }
{
    if looks { *kinds } else { [false; 256] }
}

/// Returns an array in which the flag of a byte is `true` if the byte can be distinguished from the
/// next smaller byte by look-around assertions, or by a tree that has a position in `marks`. If
/// `entered` is `true`, the trees can also distinguish the bytes at their starts.
pub fn first_bytes(trees: &Trees<'_>, marks: &[usize], entered: bool) -> [bool; 256]
    requires prepared { IsPrepared trees.now }
    requires rising { IsRising marks.now }
    ensures { AreFirstBytes (cores_of trees.now) trees.now.looks (Has marks.now)
        (IsTrue entered) result }
{
    let nodes = trees.nodes;
    let starts = trees.starts;
    let mut first = first_by_kind(trees.looks, trees.kinds);
    let mut number = next_tree(starts, marks, entered, 0);
    while number < nodes.len() {
        mark_tree(&nodes[number], marks, starts[number], entered, &mut first);
        number = next_tree(starts, marks, entered, number + 1);
    }
    first
}
