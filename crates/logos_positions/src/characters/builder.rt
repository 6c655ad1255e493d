//! Builds the table that reads the characters of a class byte by byte. `prepare` calls `table_of`
//! for each class of characters.

ghost use Rattle.std.specs.Prelude.{zero, min, ◌≡◌, ℕ, ◌+◌, ◌-◌, ◌*◌, ◌/◌, ◌%◌, ◌^◌, ◌<◌, ◌≤◌, ◌||◌, OnOk, IfOk, IfSome, Bool, Some, None, slice_index_or, length, vec_len};
ghost use Rattle.logos_positions.specs.Views.{MatchOption, size, lead, after_byte, is_char_in, IsReaderOf, pairs, in_ranges, AreParts, from_floor};
ghost use Rattle.logos_positions.specs.Table as table;

use crate::characters::ranges::{BlockPart, CharRange, clip, scalars};
use crate::characters::reader::CharacterTable;
use indexmap::IndexSet;
use logos_hir::hir::Range;
use std::alloc::{AllocError, Global};

/// The rest of a character whose first bytes have been read.
#[derive(PartialEq, Eq, Hash, Drop)]
pub struct CharacterRest {
    /// The number of remaining bytes.
    pub left: u8,
    /// The characters that the remaining bytes can complete, as offsets in the block of numbers
    /// that the remaining bytes distinguish.
    pub offsets: Vec<CharRange>,
}

/// The block of the characters with a given first byte. The block begins at the number `start`, but
/// only the numbers from `floor` on are characters with this first byte. `left` further bytes
/// distinguish the numbers of the block.
#[derive(Clone, Copy)]
struct Block {
    left: u8,
    floor: u32,
    start: u32,
}

/// Returns the number of the row for `rest`, and adds the row to `rests` if the row is new.
///
/// # Errors
///
/// Returns `AllocError` if memory runs out.
fn number_of(rests: &mut IndexSet<CharacterRest>, rest: CharacterRest) -> Result<usize, AllocError>
    ensures grows { OnOk result (table.Grows rests.old.keys rests.new.keys) }
    ensures stored { IfOk result (λ i. table.IsAt rests.new.keys i (table.row_of rest)) }
    ensures longer { OnOk result (length rests.old.keys ≤ length rests.new.keys) }
    ensures rests { 0 < rest.left → rest.left ≤ 3 → table.AreRests rests.old.keys →
        OnOk result (table.AreRests rests.new.keys) }
    ensures weight { (n : ℕ) → OnOk result
        (table.weight n rests.new.keys ≤ table.weight n rests.old.keys +
        (1 + 64 * table.led_to (rest.left - 1))) }
{
    let (i, _) = rests.insert_full(rest)?;
    Ok(i)
}

/// Returns the number of the row for a rest of `left` bytes with `offsets`, and adds the row to
/// `rests` if the row is new. The number is 0 if `left` is 0. Returns `None` if `offsets` is empty.
///
/// # Errors
///
/// Returns `AllocError` if memory runs out.
fn position(
    rests: &mut IndexSet<CharacterRest>,
    left: u8,
    offsets: Vec<CharRange>,
) -> Result<Option<usize>, AllocError>
    requires small { left ≤ 3 }
    requires parts { AreParts (size left) offsets.items }
    requires rests { table.AreRests rests.old.keys }
    ensures grows { OnOk result (table.Grows rests.old.keys rests.new.keys) }
    ensures longer { OnOk result (length rests.old.keys ≤ length rests.new.keys) }
    ensures rests { OnOk result (table.AreRests rests.new.keys) }
    ensures finds { IfOk result (table.Finds rests.new.keys left (in_ranges offsets.items)) }
    ensures weight { (n : ℕ) → OnOk result
        (table.weight n rests.new.keys ≤ table.weight n rests.old.keys + table.led_to left) }
{
    if offsets.is_empty() {
        return Ok(None);
    }
    if left == 0 {
        return Ok(Some(0));
    }
    let i = number_of(rests, CharacterRest { left, offsets })?;
    Ok(Some(i))
}

/// Returns the number of the row for the characters of `ranges` in `block`, and adds the row to
/// `rests` if it is new. Returns `None` if there are no such characters.
///
/// # Errors
///
/// Returns `AllocError` if memory runs out.
fn row_for(
    alloc: Global,
    rests: &mut IndexSet<CharacterRest>,
    ranges: &[CharRange],
    block: Block,
) -> Result<Option<usize>, AllocError>
    requires small { block.left ≤ 3 }
    requires fits { block.start + size block.left < 2 ^ 32 }
    requires rests { table.AreRests rests.old.keys }
    ensures grows { OnOk result (table.Grows rests.old.keys rests.new.keys) }
    ensures longer { OnOk result (length rests.old.keys ≤ length rests.new.keys) }
    ensures rests { OnOk result (table.AreRests rests.new.keys) }
    ensures finds { IfOk result (table.Finds rests.new.keys block.left
        (from_floor (in_ranges ranges.now) block.floor block.start)) }
    ensures weight { (n : ℕ) → OnOk result
        (table.weight n rests.new.keys ≤ table.weight n rests.old.keys + table.led_to block.left) }
{
    let window = BlockPart {
        floor: block.floor,
        start: block.start,
        size: block_size(block.left),
    };
    let offsets = clip(alloc, ranges, window)?;
    position(rests, block.left, offsets)
}

/// Returns the block of the characters that begin with `byte`, or `None` if no character begins
/// with `byte`.
fn block_of(byte: u8) -> Option<Block>
    ensures block { MatchOption result (lead byte ≡ None)
        (λ block. lead byte ≡ Some (table.lead_of block)) }
    ensures small { IfSome result (λ block. block.left ≤ 3) }
    ensures fits { IfSome result (λ block. block.start + size block.left < 2 ^ 32) }
    ensures weight { IfSome result (λ block. table.first_weight byte + table.led_to block.left ≤
        table.first_weight (byte + 1)) }
{
    let value = byte as u32;
    if value < 0x80 {
        return Some(Block {
            left: 0,
            floor: 0,
            start: value,
        });
    }
    if value < 0xC0 {
        return None;
    }
    if value < 0xE0 {
        return Some(Block {
            left: 1,
            floor: 0x80,
            start: (value - 0xC0) * 64,
        });
    }
    if value < 0xF0 {
        return Some(Block {
            left: 2,
            floor: 0x800,
            start: (value - 0xE0) * 4096,
        });
    }
    if value < 0xF8 {
        return Some(Block {
            left: 3,
            floor: 0x1_0000,
            start: (value - 0xF0) * 262144,
        });
    }
    None
}

/// Returns the number of the row after the first byte `byte`, and adds the row to `rests` if the
/// row is new. Returns `None` if no character of `ranges` begins with the byte.
///
/// # Errors
///
/// Returns `AllocError` if memory runs out.
fn first_for(
    alloc: Global,
    rests: &mut IndexSet<CharacterRest>,
    ranges: &[CharRange],
    byte: u8,
) -> Result<Option<usize>, AllocError>
    requires rests { table.AreRests rests.old.keys }
    ensures grows { OnOk result (table.Grows rests.old.keys rests.new.keys) }
    ensures longer { OnOk result (length rests.old.keys ≤ length rests.new.keys) }
    ensures rests { OnOk result (table.AreRests rests.new.keys) }
    ensures finds { IfOk result
        (table.FindsFirst rests.new.keys (in_ranges ranges.now) (lead byte)) }
    ensures weight { OnOk result (table.weight 0 rests.new.keys + table.first_weight byte ≤
        table.weight 0 rests.old.keys + table.first_weight (byte + 1)) }
{
    let Some(block) = block_of(byte) else {
        return Ok(None);
    };
    row_for(alloc, rests, ranges, block)
}

/// Returns the offsets that remain of `rest` after a continuation byte. `part` is the byte minus
/// `0x80`, and `left` is the number of bytes that follow the byte.
///
/// # Errors
///
/// Returns `AllocError` if memory runs out.
fn after(
    alloc: Global,
    rest: &CharacterRest,
    left: u8,
    part: u32,
) -> Result<Vec<CharRange>, AllocError>
    requires small { left < 3 }
    requires part { part < 64 }
    ensures parts { IfOk result (λ v. AreParts (size left) v.items) }
    ensures members { IfOk result (λ v. (o : ℕ) → o < size left → in_ranges v.items o ≡
        from_floor (in_ranges rest.now.offsets.items) 0 (part * size left) o) }
{
    let size = block_size(left);
    let window = BlockPart {
        floor: 0,
        start: part * size,
        size,
    };
    clip(alloc, &rest.offsets, window)
}

/// Returns the number of the row after `row` and a continuation byte, and adds the row to `rests`
/// if the row is new. `part` is the byte minus `0x80`. Returns `None` if no character continues
/// with the byte.
///
/// # Errors
///
/// Returns `AllocError` if memory runs out.
fn next_for(
    alloc: Global,
    rests: &mut IndexSet<CharacterRest>,
    row: usize,
    part: u32,
) -> Result<Option<usize>, AllocError>
    requires rests { table.AreRests rests.old.keys }
    requires part { part < 64 }
    ensures grows { OnOk result (table.Grows rests.old.keys rests.new.keys) }
    ensures longer { OnOk result (length rests.old.keys ≤ length rests.new.keys) }
    ensures rests { OnOk result (table.AreRests rests.new.keys) }
    ensures finds { (r : table.Row) → table.IsAt rests.old.keys row r →
        IfOk result (table.FindsNext rests.new.keys r r.left (0x80 + part)) }
    ensures weight { (r : table.Row) → table.IsAt rests.old.keys row r → (n : ℕ) →
        OnOk result (table.weight n rests.new.keys ≤ table.weight n rests.old.keys + table.led_to
        (r.left - 1)) }
{
    let rest = match rests.get_index(row) {
        None => return Ok(None),
        Some(rest) => rest,
    };
    if rest.left == 0 {
        return Ok(None);
    }
    let left = rest.left - 1;
    let offsets = after(alloc, rest, left, part)?;
    position(rests, left, offsets)
}

/// Returns the number of values that `left` continuation bytes distinguish.
fn block_size(left: u8) -> u32
    requires { left ≤ 3 }
    ensures size { result ≡ size left }
    ensures some { 0 < result }
{
    match left {
        0 => 1,
        1 => 64,
        2 => 4096,
        _ => 262144,
    }
}

/// Returns, for each first byte, the number of the row after the byte, or `None` if there is no
/// such row. Adds new rows to `rests`.
///
/// # Errors
///
/// Returns `AllocError` if memory runs out.
fn first_cells(
    alloc: Global,
    rests: &mut IndexSet<CharacterRest>,
    ranges: &[CharRange],
) -> Result<Vec<Option<usize>>, AllocError>
    requires rests { table.AreRests rests.old.keys }
    ensures rests { OnOk result (table.AreRests rests.new.keys) }
    ensures long { IfOk result (λ cells. vec_len cells ≡ 256) }
    ensures cells { IfOk result (λ cells. (b : ℕ) → b < 256 →
        table.FindsFirst rests.new.keys (in_ranges ranges.now) (lead b)
        (slice_index_or cells.items b None)) }
    ensures weight { OnOk result (table.weight 0 rests.new.keys + table.first_weight 0 ≤
        table.weight 0 rests.old.keys + table.first_weight 256) }
{
    let mut cells: Vec<Option<usize>> = Vec::new(alloc);
    for byte in 0..256_u32 {
        let to = first_for(alloc, rests, ranges, byte as u8)?;
        cells.push(to)?;
    }
    Ok(cells)
}

/// Appends to `cells`, for each continuation byte, the number of the row after `row` and the byte,
/// or `None` if there is no such row. Adds new rows to `rests`.
///
/// # Errors
///
/// Returns `AllocError` if memory runs out.
fn follow_row(
    alloc: Global,
    rests: &mut IndexSet<CharacterRest>,
    row: usize,
    cells: &mut Vec<Option<usize>>,
) -> Result<(), AllocError>
    requires rests { table.AreRests rests.old.keys }
    requires there { row < length rests.old.keys }
    requires long { vec_len cells.old ≡ 64 * row }
    requires cells { (j : ℕ) → j < 64 * row → table.IsCell rests.old.keys cells.old.items j }
    requires fits { 64 * row + 64 < 2 ^ 64 }
    ensures grows { OnOk result (table.Grows rests.old.keys rests.new.keys) }
    ensures longer { OnOk result (length rests.old.keys ≤ length rests.new.keys) }
    ensures rests { OnOk result (table.AreRests rests.new.keys) }
    ensures long { OnOk result (vec_len cells.new ≡ 64 * (row + 1)) }
    ensures cells { OnOk result ((j : ℕ) → j < 64 * (row + 1) →
        table.IsCell rests.new.keys cells.new.items j) }
    ensures weight { OnOk result (table.weight (row + 1)
        rests.new.keys + 1 ≤ table.weight row rests.old.keys) }
{
    for part in 0..64_u32 {
        let to = next_for(alloc, rests, row, part)?;
        cells.push(to)?;
    }
    Ok(())
}

/// Returns, for each row and each continuation byte, the number of the row to which they lead, or
/// `None` if there is no such row. Adds new rows to `rests`. The result includes the rows that
/// follow these new rows.
///
/// # Errors
///
/// Returns `AllocError` if memory runs out.
fn follow_cells(
    alloc: Global,
    rests: &mut IndexSet<CharacterRest>,
) -> Result<Vec<Option<usize>>, AllocError>
    requires rests { table.AreRests rests.old.keys }
    requires small { table.weight 0 rests.old.keys ≤ 34_361 }
    ensures grows { OnOk result (table.Grows rests.old.keys rests.new.keys) }
    ensures rests { OnOk result (table.AreRests rests.new.keys) }
    ensures few { OnOk result (length rests.new.keys ≤ 34_361) }
    ensures long { IfOk result (λ cells. vec_len cells ≡ 64 * length rests.new.keys) }
    ensures cells { IfOk result (λ cells. (j : ℕ) → j < vec_len cells →
        table.IsCell rests.new.keys cells.items j) }
{
    let mut cells: Vec<Option<usize>> = Vec::new(alloc);
    let mut row = 0;
    while row < rests.len() {
        follow_row(alloc, rests, row, &mut cells)?;
        row += 1;
    }
    Ok(cells)
}

/// Returns the set that contains only row 0. At row 0, a whole character has been read.
///
/// # Errors
///
/// Returns `AllocError` if memory runs out.
fn start(alloc: Global) -> Result<IndexSet<CharacterRest>, AllocError>
    ensures rests { IfOk result (λ rests. table.AreRests rests.keys) }
    ensures weight { IfOk result (λ rests. table.weight 0 rests.keys ≡ 1) }
{
    let mut rests = IndexSet::new(alloc);
    let mut offsets = Vec::new(alloc);
    offsets.push(CharRange { first: 0, last: 0 })?;
    rests.insert_full(CharacterRest { left: 0, offsets })?;
    Ok(rests)
}

/// Builds the table that reads the characters of `ranges`.
///
/// # Errors
///
/// Returns `AllocError` if memory runs out.
fn build(alloc: Global, ranges: &[CharRange]) -> Result<CharacterTable, AllocError>
    ensures { IfOk result (λ made. IsReaderOf (in_ranges ranges.now) (table.reader_of made)) }
{
    let mut rests = start(alloc)?;
    let first = first_cells(alloc, &mut rests, ranges)?;
    let follow = follow_cells(alloc, &mut rests)?;
    Ok(CharacterTable {
        rows: rests.len(),
        first,
        follow,
    })
}

/// Builds the table of the class of characters with `ranges`.
///
/// # Errors
///
/// Returns `AllocError` if memory runs out.
pub fn table_of(alloc: Global, ranges: &[Range]) -> Result<CharacterTable, AllocError>
    ensures { IfOk result (λ made. IsReaderOf (is_char_in (pairs ranges.now))
        (table.reader_of made)) }
{
    let ranges = scalars(alloc, ranges)?;
    build(alloc, &ranges)
}
