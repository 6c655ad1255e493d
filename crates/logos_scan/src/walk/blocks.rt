//! Steps over the blocks of a chunk in parallel. Called by `run` and `trial` for each chunk.

ghost use Rattle.std.specs.Prelude.{◌≡◌, ◌<◌, ◌+◌, List, ℕ, length, slice_index};
ghost use Rattle.logos_scan.specs.walk.Views.{IsClosed, IsRowStart, IsSameBeside, Walked, AreRowStarts, AreWalked, HoldsStretch};

use crate::walk::guess::guess_row_starts;
use crate::walk::repair::{Stretch, repair};
use crate::walk::step;

/// The number of blocks of a chunk. The blocks are walked over in parallel. Each step of a walk
/// depends on the preceding step, so a single walk would leave the processor partly idle.
pub const BLOCKS: usize = 6;

/// The number of bytes of a block.
pub const BLOCK: usize = 768;

/// The number of bytes of a chunk.
pub const CHUNK: usize = 4608;

/// Steps over the byte at the index `at` of each block. Writes the entries of these bytes into
/// `trace`, and replaces each block's row in `row_starts` by the row after the byte.
#[inline(always)]
fn column(rows: &[u32], text: &[u8], row_starts: &mut [usize; 6], trace: &mut [u32], at: usize)
    requires closed { IsClosed rows.now }
    requires row_starts { AreRowStarts rows.now row_starts.old }
    requires text { length text.now ≡ CHUNK }
    requires trace { length trace.old ≡ CHUNK }
    requires at { at < BLOCK }
    // Walks of the blocks become walks that are one byte longer.
    ensures walked { (origin : List ℕ)
        → AreWalked rows.now text.now origin trace.old at row_starts.old
        → AreWalked rows.now text.now origin trace.new (at + 1) row_starts.new }
    ensures row_starts { AreRowStarts rows.now row_starts.new }
{
    for block in 0..BLOCKS {
        row_starts[block] = step(rows, text, row_starts[block], trace, at + BLOCK * block);
    }
}

/// Steps over the blocks alternately, each from its row in `row_starts` on. Writes the entries into
/// `trace`, and replaces each row by the row after the block. Called out of line, so that all
/// registers are available to the function.
#[inline(never)]
fn walk_blocks(rows: &[u32], text: &[u8], row_starts: &mut [usize; 6], trace: &mut [u32])
    requires closed { IsClosed rows.now }
    requires row_starts { AreRowStarts rows.now row_starts.old }
    requires text { length text.now ≡ CHUNK }
    requires trace { length trace.old ≡ CHUNK }
    ensures walked { AreWalked rows.now text.now row_starts.old trace.new BLOCK row_starts.new }
    ensures row_starts { AreRowStarts rows.now row_starts.new }
{
    let mut now = *row_starts;
    for at in 0..BLOCK {
        column(rows, text, &mut now, trace, at);
    }
    *row_starts = now;
}

/// Steps over a chunk from the row `row_start` on. Writes the entries of its bytes into `trace`,
/// and returns the row after the chunk. The rows in which the blocks after the first begin are
/// guessed, with `root` as the row in which new attempts begin. A block is repaired if its row was
/// guessed wrongly.
pub fn walk_chunk(
    rows: &[u32],
    text: &[u8],
    root: usize,
    row_start: usize,
    trace: &mut [u32],
) -> usize
    requires closed { IsClosed rows.now }
    requires root { IsRowStart rows.now root }
    requires row_start { IsRowStart rows.now row_start }
    requires text { length text.now ≡ CHUNK }
    requires trace { length trace.old ≡ CHUNK }
    ensures walked { Walked rows.now text.now row_start trace.new 0 CHUNK result }
    ensures stays { IsRowStart rows.now result }
{
    let mut from = guess_row_starts(rows, text, root);
    from[0] = row_start;
    let mut ends = from;
    walk_blocks(rows, text, &mut ends, trace);
    let mut now = ends[0];
    for block in 1..BLOCKS {
        let stretch = Stretch {
            from: BLOCK * block,
            to: BLOCK * block + BLOCK,
            begin: from[block],
            end: ends[block],
        };
        now = repaired_block(rows, text, now, trace, stretch);
    }
    now
}

/// Steps again over a block that began in a guessed row, if the guess was not `row_start`. Returns
/// the row after the block.
#[inline(always)]
fn repaired_block(
    rows: &[u32],
    text: &[u8],
    row_start: usize,
    trace: &mut [u32],
    stretch: Stretch,
) -> usize
    requires closed { IsClosed rows.now }
    requires row_start { IsRowStart rows.now row_start }
    requires holds { HoldsStretch rows.now text.now trace.old stretch }
    ensures walked { Walked rows.now text.now row_start trace.new stretch.from stretch.to result }
    ensures stays { IsRowStart rows.now result }
    ensures beside { IsSameBeside stretch.from stretch.to trace.old trace.new }
{
    if row_start == stretch.begin {
        return stretch.end;
    }
    repair(rows, text, row_start, trace, stretch).row_start
}
