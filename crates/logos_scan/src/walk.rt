//! Walks over a chunk of bytes with folded rows, in six parallel blocks and without a branch for
//! each byte, and finds the entries at which attempts end. Called by `run` and `trial`.
//!
//! A folded row has an entry for each byte. A row is identified by its row offset, which is the
//! index of its first entry. The lowest twenty bits of an entry are the offset of the next row. The
//! two highest bits of an entry are flags: `ENDED` is set if a match ends before the byte, and
//! `TOKEN` is set if the entry is pending, which means that the scan must process the entry.

ghost use Rattle.std.specs.Prelude.{◌≡◌, ◌+◌, ◌<◌, ◌≤◌, length, slice_index, slice_set};
ghost use Rattle.logos_scan.specs.walk.Imports.{IsClosed, IsRowStart, IsSameBeside, Walked, entry_at, row_start_of};

pub mod blocks;
pub mod cursor;
pub mod guess;
pub mod masks;
pub mod repair;

/// The bits of an entry that contain the offset of the next row.
pub const OFFSET_MASK: u32 = 0xF_FFFF;

/// The flag of an entry before whose byte a match ends.
pub const ENDED: u32 = 1 << 31;

/// The flag of a pending entry, which the scan must process.
pub const TOKEN: u32 = 1 << 30;

/// Returns the entry of a byte in a row. Adds the byte to the index first, because the row offset
/// comes from the preceding entry and is known last.
#[inline(always)]
pub(crate) fn entry_of(rows: &[u32], byte: u8, row_start: usize) -> u32
    requires { IsRowStart rows.now row_start }
    ensures { result ≡ slice_index rows.now (byte + row_start) }
{
    let column = &rows[byte as usize..];
    column[row_start]
}

/// Steps over the byte at `at` from the row `row_start` on: writes the byte's entry into `trace`,
/// and returns the row to which the entry leads.
#[inline(always)]
pub fn step(rows: &[u32], text: &[u8], row_start: usize, trace: &mut [u32], at: usize) -> usize
    requires closed { IsClosed rows.now }
    requires row_start { IsRowStart rows.now row_start }
    requires text { at < length text.now }
    requires trace { at < length trace.old }
    ensures trace { trace.new ≡ slice_set trace.old at (entry_at rows.now text.now at row_start) }
    ensures result { result ≡ row_start_of (entry_at rows.now text.now at row_start) }
    ensures stays { IsRowStart rows.now result }
{
    let entry = entry_of(rows, text[at], row_start);
    trace[at] = entry;
    (entry & OFFSET_MASK) as usize
}

/// Steps over all bytes of the text, from the row `row_start` on: writes their entries into
/// `trace`, and returns the row after the last byte.
pub fn walk(rows: &[u32], text: &[u8], row_start: usize, trace: &mut [u32]) -> usize
    requires closed { IsClosed rows.now }
    requires row_start { IsRowStart rows.now row_start }
    requires trace { length text.now ≤ length trace.old }
    ensures walked { Walked rows.now text.now row_start trace.new 0 (length text.now) result }
    ensures stays { IsRowStart rows.now result }
    ensures beside { IsSameBeside 0 (length text.now) trace.old trace.new }
{
    let mut now = row_start;
    for at in 0..text.len() {
        now = step(rows, text, now, trace, at);
    }
    now
}
