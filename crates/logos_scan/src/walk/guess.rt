//! Guesses the rows in which blocks begin. Called by `blocks` and `trial` for each chunk.

ghost use Rattle.std.specs.Prelude.{◌≡◌, ◌<◌, length};
ghost use Rattle.logos_scan.specs.walk.Views.{IsClosed, IsRowStart, AreRowStarts};

use crate::walk::blocks::{BLOCK, BLOCKS, CHUNK};
use crate::walk::{OFFSET_MASK, entry_of};

/// The number of bytes that are examined before a block to guess its row.
const WINDOW: usize = 48;

/// Returns the row after a byte: the root after a line end, and otherwise the row to which the byte
/// leads from `row_start`.
#[inline(always)]
fn after(rows: &[u32], byte: u8, row_start: usize, root: usize) -> usize
    requires closed { IsClosed rows.now }
    requires row_start { IsRowStart rows.now row_start }
    requires root { IsRowStart rows.now root }
    ensures { IsRowStart rows.now result }
{
    let next = (entry_of(rows, byte, row_start) & OFFSET_MASK) as usize;
    if byte == b'\n' { root } else { next }
}

/// Steps over one byte before each block but the first, from the block's row in `row_starts` on,
/// and replaces this row. `at` is the index of the byte among the examined bytes.
#[inline(always)]
fn step_before(rows: &[u32], text: &[u8], root: usize, row_starts: &mut [usize; 6], at: usize)
    requires closed { IsClosed rows.now }
    requires root { IsRowStart rows.now root }
    requires text { length text.now ≡ CHUNK }
    requires row_starts { AreRowStarts rows.now row_starts.old }
    requires at { at < WINDOW }
    ensures row_starts { AreRowStarts rows.now row_starts.new }
{
    for block in 1..BLOCKS {
        let byte = text[BLOCK * block - WINDOW + at];
        row_starts[block] = after(rows, byte, row_starts[block], root);
    }
}

/// Returns guesses of the rows in which blocks begin. For the first block, the guess is the root.
/// For any other block, the guess is the row to which the examined bytes before the block lead from
/// the root. If these bytes contain a line end, only the bytes after the last line end count. A
/// wrong guess costs time, but does not change the result of a walk. All guesses are made in
/// parallel.
#[inline(always)]
pub fn guess_row_starts(rows: &[u32], text: &[u8], root: usize) -> [usize; 6]
    requires closed { IsClosed rows.now }
    requires root { IsRowStart rows.now root }
    requires text { length text.now ≡ CHUNK }
    ensures { AreRowStarts rows.now result }
{
    let mut row_starts = [root; 6];
    for at in 0..WINDOW {
        step_before(rows, text, root, &mut row_starts, at);
    }
    row_starts
}
