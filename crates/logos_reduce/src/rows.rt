//! Contains lists of rows of targets. A list stores equal rows once, unless a different row has the
//! same hash. Each `Table` stores its rows in such a list.

ghost use Rattle.std.specs.Prelude.{◌≡◌, ◌≢◌, ℕ, ◌<◌, ◌≤◌, ◌+◌, ◌++◌, ◌∷◌, [], IfOk, IfSome, IsTrue, OnOk, length, vec_len, slice_index, slice_index_or};
ghost use Rattle.logos_reduce.specs.Rows.{AreSame, AreWide, HasOnly, target_by};

use crate::row_hash::row_hash;
use std::alloc::{AllocError, Global};
use std::collections::HashMap;

/// The number of symbols: the 256 bytes, and the end of the input.
pub const WIDTH: usize = 257;

/// The symbol for the end of the input.
pub const END: usize = 256;

/// The row of a state: for each symbol, one more than the number of the target, or 0 if there is no
/// target. The symbols are the bytes, followed by the end of the input.
pub type Row = [u32; WIDTH];

/// Rows without duplicates, unless two different rows have the same hash.
#[derive(Drop)]
pub struct DistinctRows {
    /// The rows, in the order in which they were added.
    pub(crate) keys: Vec<Row>,
    /// For each hash, the index in `keys` of the last row that was added with this hash.
    found: HashMap<u64, usize>,
}

/// A list of rows.
#[derive(Drop)]
pub struct Rows {
    /// For each row of the list, its index among the distinct rows.
    pub(crate) slots: Vec<usize>,
    /// The distinct rows of the list.
    pub(crate) distinct: DistinctRows,
    ghost wide: { AreWide distinct.keys.items },
    ghost placed: { (i : ℕ) → i < vec_len slots →
        slice_index slots.items i < length distinct.keys.items },
}

impl Rows {
    ghost use Rattle.logos_reduce.specs.RowsView.{rows_of};

    /// Returns a list without rows.
    pub fn new(alloc: Global) -> Rows
        ensures { rows_of result ≡ [] }
    {
        Rows {
            slots: Vec::new(alloc),
            distinct: DistinctRows {
                keys: Vec::new(alloc),
                found: HashMap::new(alloc),
            },
        }
    }

    /// Returns the number of rows of the list.
    pub fn len(&self) -> usize
        ensures { result ≡ length (rows_of self.now) }
    {
        self.slots.len()
    }

    /// Returns the row at the index `i` of the list.
    pub fn get(&self, i: usize) -> &Row
        requires { i < length (rows_of self.now) }
        ensures { result.now ≡ slice_index_or (rows_of self.now) i [] }
    {
        &self.distinct.keys[self.slots[i]]
    }

    /// Returns the index, among the distinct rows, of the row at the index `i` of the list.
    pub fn slot(&self, i: usize) -> usize
        requires { i < length (rows_of self.now) }
        ensures { result ≡ slice_index self.now.slots.items i }
    {
        self.slots[i]
    }

    /// Returns the number of distinct rows.
    pub(crate) fn count(&self) -> usize
        ensures { result ≡ length self.now.distinct.keys.items }
    {
        self.distinct.keys.len()
    }

    /// Returns the distinct row at the index `slot`.
    pub(crate) fn distinct(&self, slot: usize) -> &Row
        requires { slot < length self.now.distinct.keys.items }
        ensures { result.now ≡ slice_index_or self.now.distinct.keys.items slot [] }
    {
        &self.distinct.keys[slot]
    }

    /// Returns the index of `row` among the distinct rows if `row` equals the last row that was
    /// added with the hash `hash`, and `None` otherwise.
    fn find(&self, row: &Row, hash: u64) -> Option<usize>
        ensures { IfSome result (λ slot. (slot < vec_len self.now.distinct.keys)
            × (slice_index_or self.now.distinct.keys.items slot [] ≡ row.now)) }
    {
        let slot = *self.distinct.found.get(&hash)?;
        if slot < self.distinct.keys.len() && self.distinct.keys[slot] == *row {
            return Some(slot);
        }
        None
    }

    /// Appends `row`, whose hash is `hash`, to the distinct rows. Returns the index of `row` among
    /// the distinct rows.
    fn add(&mut self, row: &Row, hash: u64) -> Result<usize, AllocError>
        ensures slots { self.new.slots ≡ self.old.slots }
        ensures slot { IfOk result (λ slot. slot ≡ vec_len self.old.distinct.keys) }
        ensures rows { OnOk result
            (self.new.distinct.keys.items ≡ self.old.distinct.keys.items ++ row.now ∷ []) }
    {
        let slot = self.distinct.keys.len();
        self.distinct.keys.push(*row)?;
        self.distinct.found.insert(hash, slot)?;
        Ok(slot)
    }

    /// Returns the index of `row` among the distinct rows. Appends `row` to the distinct rows first
    /// if `find` returns `None`.
    fn slot_of(&mut self, row: &Row) -> Result<usize, AllocError>
        ensures slots { self.new.slots ≡ self.old.slots }
        ensures slot { IfOk result (λ slot. (slot < vec_len self.new.distinct.keys)
            × (slice_index_or self.new.distinct.keys.items slot [] ≡ row.now)) }
        ensures rows { OnOk result ((i : ℕ) → i < vec_len self.old.distinct.keys →
            slice_index_or self.new.distinct.keys.items i []
            ≡ slice_index_or self.old.distinct.keys.items i []) }
        ensures len { OnOk result (vec_len self.old.distinct.keys ≤ vec_len self.new.distinct.keys) }
    {
        let hash = row_hash(row);
        if let Some(slot) = self.find(row, hash) {
            return Ok(slot);
        }
        self.add(row, hash)
    }

    /// Appends `row` to the list.
    ///
    /// # Errors
    ///
    /// Returns `AllocError` if memory runs out.
    pub fn push(&mut self, row: &Row) -> Result<(), AllocError>
        ensures { OnOk result (rows_of self.new ≡ rows_of self.old ++ row.now ∷ []) }
    {
        let slot = self.slot_of(row)?;
        self.slots.push(slot)?;
        Ok(())
    }
}

/// Returns the target of `row` on the symbol `k`, or `None` if there is no target.
pub fn target_at(row: &Row, k: usize) -> Option<usize>
    requires { k < WIDTH }
    ensures { result ≡ target_by row.now k }
{
    let entry = row[k] as usize;
    if entry == 0 { None } else { Some(entry - 1) }
}

/// The number of entries in a group, which are compared together.
const GROUP: usize = 16;

/// Returns whether all entries of the group that begins at the index `from` equal `entry`.
#[inline(always)]
fn is_filled(row: &Row, from: usize, entry: u32) -> bool
    requires { from + GROUP ≤ WIDTH }
    ensures { IsTrue result → HasOnly row.now from (from + GROUP) entry }
{
    let mut differs = false;
    for i in 0..GROUP {
        differs |= row[from + i] != entry;
    }
    !differs
}

/// Returns the end of a run of equal entries that begins at the index `start`. The run consists of
/// the entry at `start` and of whole groups after this entry.
fn past_groups(row: &Row, start: usize) -> usize
    requires { start < WIDTH }
    ensures after { (start < result) × (result ≤ WIDTH) }
    ensures same { HasOnly row.now start result (slice_index row.now start) }
{
    let mut end = start + 1;
    while GROUP <= WIDTH - end && is_filled(row, end, row[start]) {
        end += GROUP;
    }
    end
}

/// Returns the end of the run of equal entries that begins at the index `start`.
pub(crate) fn run_end(row: &Row, start: usize) -> usize
    requires { start < WIDTH }
    ensures after { (start < result) × (result ≤ WIDTH) }
    ensures same { HasOnly row.now start result (slice_index row.now start) }
    ensures ends { result < WIDTH → slice_index row.now result ≢ slice_index row.now start }
{
    if start + 1 < WIDTH && row[start + 1] != row[start] {
        return start + 1;
    }
    let mut end = past_groups(row, start);
    while end < WIDTH && row[end] == row[start] {
        end += 1;
    }
    end
}

/// Sets the entries at the indices `from..to` to `entry`.
pub(crate) fn fill_run(row: &mut Row, from: usize, to: usize, entry: u32)
    requires { (from ≤ to) × (to ≤ WIDTH) }
    ensures len { length row.new ≡ WIDTH }
    ensures before { (k : ℕ) → k < from → slice_index row.new k ≡ slice_index row.old k }
    ensures after { (k : ℕ) → to ≤ k → slice_index row.new k ≡ slice_index row.old k }
    ensures filled { HasOnly row.new from to entry }
{
    for k in from..to {
        row[k] = entry;
    }
}

/// Sets the entries at the indices `from..to` to `entry`. These entries must be equal. Changes
/// nothing if they already equal `entry`.
pub(crate) fn set_run(row: &mut Row, from: usize, to: usize, entry: u32)
    requires within { (from < to) × (to ≤ WIDTH) }
    requires run { HasOnly row.old from to (slice_index row.old from) }
    ensures len { length row.new ≡ WIDTH }
    ensures before { (k : ℕ) → k < from → slice_index row.new k ≡ slice_index row.old k }
    ensures after { (k : ℕ) → to ≤ k → slice_index row.new k ≡ slice_index row.old k }
    ensures filled { HasOnly row.new from to entry }
{
    if row[from] != entry {
        fill_run(row, from, to, entry);
    }
}

/// Returns whether two rows have equal entries in the group that begins at the index `from`.
#[inline(always)]
fn are_same(row: &Row, other: &Row, from: usize) -> bool
    requires { from + GROUP ≤ WIDTH }
    ensures { IsTrue result → AreSame row.now other.now from (from + GROUP) }
{
    let mut differ = false;
    for i in 0..GROUP {
        differ |= row[from + i] != other[from + i];
    }
    !differ
}

/// Returns an index `end` such that two rows have equal entries at the indices `start..end`.
/// Compares only whole groups.
fn past_same_groups(row: &Row, other: &Row, start: usize) -> usize
    requires { start ≤ WIDTH }
    ensures after { (start ≤ result) × (result ≤ WIDTH) }
    ensures same { AreSame row.now other.now start result }
{
    let mut end = start;
    while GROUP <= WIDTH - end && are_same(row, other, end) {
        end += GROUP;
    }
    end
}

/// Returns the first index from `start` on at which two rows differ, or `WIDTH` if there is no such
/// index.
pub(crate) fn same_until(row: &Row, other: &Row, start: usize) -> usize
    requires { start ≤ WIDTH }
    ensures after { (start ≤ result) × (result ≤ WIDTH) }
    ensures same { AreSame row.now other.now start result }
    ensures ends { result < WIDTH → slice_index row.now result ≢ slice_index other.now result }
{
    let mut end = past_same_groups(row, other, start);
    while end < WIDTH && row[end] == other[end] {
        end += 1;
    }
    end
}
