//! Sets of bytes, and comparisons that test whether a byte is in a set. Graphs label edges with
//! byte classes, and generators turn these classes into comparisons.

ghost use Rattle.std.specs.Prelude.{◌≡◌, ℕ, ◌<◌, ◌≤◌, ◌↔◌, ◌||◌, not, IsTrue, IfOk, OnOk, OnErr, false, [], ◌∷◌, length, map, drop, slice_index_or};
ghost use Rattle.logos_byte_class.specs.Views.{is_in, bounds, ranges_of, has_byte, AreSeparated, comparison_of, compares, some_compares, joined, operations};

use logos_token::error::Memory;
use std::alloc::{AllocError, Global};
use std::ops::RangeInclusive;

/// A set of bytes, stored as ranges.
#[derive(Clone, Debug, PartialEq, Eq, Hash, Drop)]
pub struct ByteClass {
    /// The ranges of the bytes. Each range includes both of its ends.
    pub ranges: Vec<RangeInclusive<u8>>,
}

impl ByteClass {
    /// Returns whether the class contains `byte`.
    fn has(&self, byte: u8) -> bool
        ensures { result ≡ has_byte self.now byte }
    {
        for range in &self.ranges {
            if *range.start() <= byte && byte <= *range.end() {
                return true;
            }
        }
        false
    }

    /// Returns whether the ranges are nonempty and ascend, with at least one byte between any two
    /// ranges.
    pub fn is_separated(&self) -> bool
        ensures { IsTrue result ↔ AreSeparated (ranges_of self.now) }
    {
        let mut least: usize = 0;
        for range in &self.ranges {
            let first = *range.start() as usize;
            let last = *range.end() as usize;
            if first < least || last < first {
                return false;
            }
            least = last + 2;
        }
        true
    }

    /// Returns a table in which the entry of a byte is `true` if the class contains the byte.
    pub fn to_table(&self) -> [bool; 256]
        ensures { (b : ℕ) → b < 256 → slice_index_or result b false ≡ has_byte self.now b }
    {
        let mut table = [false; 256];
        for byte in 0..256 {
            table[byte] = self.has(byte as u8);
        }
        table
    }
}

impl ByteClass {
    /// Adds the bytes of `other` to the class. Afterwards, the ranges ascend with at least one byte
    /// between any two ranges, whatever the order of the ranges was before.
    ///
    /// # Errors
    ///
    /// Returns `Memory` if memory runs out. The class is then unchanged.
    pub fn merge(&mut self, alloc: Global, other: &ByteClass) -> Result<(), Memory>
        ensures union { OnOk result ((b : ℕ) → b < 256 →
            has_byte self.new b ≡ (has_byte self.old b || has_byte other.now b)) }
        ensures separated { OnOk result (AreSeparated (ranges_of self.new)) }
        ensures unchanged { OnErr result (self.new ≡ self.old) }
    {
        let table = self.table_with(other);
        let ranges = ranges_of_table(alloc, &table)?;
        self.ranges = ranges;
        Ok(())
    }

    /// Returns a table in which the entry of a byte is `true` if at least one of the two classes
    /// contains the byte.
    fn table_with(&self, other: &ByteClass) -> [bool; 256]
        ensures { (b : ℕ) → b < 256 → slice_index_or result b false
            ≡ (has_byte self.now b || has_byte other.now b) }
    {
        let mut table = [false; 256];
        for byte in 0..256 {
            table[byte] = self.has(byte as u8) | other.has(byte as u8);
        }
        table
    }

    /// Returns comparisons that hold for exactly the bytes of the class. Ranges with exactly one
    /// byte between them share a comparison, and the byte is an exception of this comparison. The
    /// ranges of the class must be separated, as tested by `is_separated`.
    ///
    /// # Errors
    ///
    /// Returns `Memory` if memory runs out.
    pub fn impl_with_cmp(&self, alloc: Global) -> Result<Vec<Comparisons>, Memory>
        requires { AreSeparated (ranges_of self.now) }
        ensures shape { IfOk result (λ made. map comparison_of made.items
            ≡ joined (ranges_of self.now)) }
        ensures members { IfOk result (λ made. (b : ℕ) → b < 256 →
            some_compares (map comparison_of made.items) b ≡ has_byte self.now b) }
    {
        let ranges = self.ranges.as_slice();
        let mut made = Vec::new(alloc);
        let mut next = 0;
        while next < ranges.len() {
            let (comparison, count) = first_comparison(alloc, &ranges[next..])?;
            made.push(comparison)?;
            next += count;
        }
        Ok(made)
    }
}

/// Returns the first byte from `from` on whose flag in `table` is `wanted`, or 256 if there is no
/// such byte.
fn first_where(table: &[bool], from: usize, wanted: bool) -> usize
    requires long { length table.now ≡ 256 }
    requires within { from ≤ 256 }
    ensures after { from ≤ result }
    ensures bound { result ≤ 256 }
    ensures before { (b : ℕ) → from ≤ b → b < result →
        slice_index_or table.now b false ≡ not wanted }
    ensures at { result < 256 → slice_index_or table.now result false ≡ wanted }
{
    for i in from..256 {
        if table[i] == wanted {
            return i;
        }
    }
    256
}

/// Returns the ranges of the bytes whose flags in `table` are `true`, in ascending order.
fn ranges_of_table(alloc: Global, table: &[bool]) -> Result<Vec<RangeInclusive<u8>>, AllocError>
    requires { length table.now ≡ 256 }
    ensures members { IfOk result (λ made. (b : ℕ) → b < 256 →
        is_in (map bounds made.items) b ≡ slice_index_or table.now b false) }
    ensures separated { IfOk result (λ made. AreSeparated (map bounds made.items)) }
{
    let mut made = Vec::new(alloc);
    let mut start = first_where(table, 0, true);
    while start < 256 {
        let end = first_where(table, start, false);
        made.push(RangeInclusive::new(start as u8, (end - 1) as u8))?;
        start = first_where(table, end, true);
    }
    Ok(made)
}

/// Returns one comparison for the longest prefix of `ranges` in which neighboring ranges have
/// exactly one byte between them. Also returns the number of ranges in this prefix.
fn first_comparison(
    alloc: Global,
    ranges: &[RangeInclusive<u8>],
) -> Result<(Comparisons, usize), AllocError>
    requires { 0 < length ranges.now }
    ensures count { IfOk result (λ made. (0 < made.1) × (made.1 ≤ length ranges.now)) }
    ensures shape { IfOk result (λ made. joined (map bounds ranges.now)
        ≡ comparison_of made.0 ∷ joined (map bounds (drop made.1 ranges.now))) }
{
    let first = *ranges[0].start();
    let mut last = *ranges[0].end();
    let mut except = Vec::new(alloc);
    let mut next = 1;
    while next < ranges.len() && *ranges[next].start() as usize == last as usize + 2 {
        except.push(last + 1)?;
        last = *ranges[next].end();
        next += 1;
    }
    Ok((
        Comparisons {
            range: RangeInclusive::new(first, last),
            except,
        },
        next,
    ))
}

/// A comparison that holds for the bytes of a range other than the exceptions.
#[derive(Debug, Drop)]
pub struct Comparisons {
    /// The range, which includes both of its ends.
    pub range: RangeInclusive<u8>,
    /// The bytes of the range that are excluded.
    pub except: Vec<u8>,
}

impl Comparisons {
    /// Returns a comparison with `range` and without exceptions. The list of exceptions takes its
    /// memory from `alloc` when it grows. This call does not allocate.
    pub fn new(alloc: Global, range: RangeInclusive<u8>) -> Comparisons
        ensures range { result.range ≡ range }
        ensures except { result.except.items ≡ [] }
    {
        Comparisons {
            range,
            except: Vec::new(alloc),
        }
    }

    /// Returns the number of operations that test a byte. A range of a single byte counts as one
    /// operation. For any other range, a start greater than 0 and an end less than 255 count as one
    /// operation each. Each exception counts as one operation.
    pub fn count_ops(&self) -> usize
        ensures { result ≡ operations (comparison_of self.now) }
    {
        let first = *self.range.start();
        let last = *self.range.end();
        let exceptions = self.except.len();
        if first == last {
            return 1 + exceptions;
        }
        (first > 0) as usize + (last < 255) as usize + exceptions
    }

    /// Returns whether `byte` is in the range and is not an exception.
    pub fn holds(&self, byte: u8) -> bool
        ensures { result ≡ compares (comparison_of self.now) byte }
    {
        *self.range.start() <= byte && byte <= *self.range.end() && !self.except.contains(&byte)
    }
}
