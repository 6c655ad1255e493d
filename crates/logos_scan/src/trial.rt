//! Walks over samples of an input, to estimate whether a scan by chunks takes less time than a
//! lexer. `choice` calls `trial_counts` for each input that is not too short for a scan.

ghost use Rattle.std.specs.Prelude.{◌≡◌, ◌<◌, ◌≤◌, ◌+◌, ◌*◌, length};
ghost use Rattle.logos_scan.specs.Views.{IsReading};
ghost use Rattle.logos_scan.specs.walk.Views.{IsClosed, IsRowStart};

pub mod sections;

use crate::run::Reading;
use crate::trial::sections::{Predictor, Section};
use crate::walk::blocks::{BLOCK, BLOCKS, CHUNK, walk_chunk};
use crate::walk::guess::guess_row_starts;
use crate::walk::{ENDED, OFFSET_MASK, TOKEN, entry_of};

/// The number of bytes of an input for each chunk that is walked over.
const SPREAD: usize = 64 * CHUNK;

/// The maximum number of chunks that are walked over.
const MOST: usize = 8;

/// The number of bytes that are counted in each chunk. The other bytes are not counted, because
/// counting takes longer than the walk. Only the bytes that are stepped over again are counted in
/// the whole chunk.
const COUNTED: usize = 2 * BLOCK;

/// The cost of each byte, for a scan. All costs are fitted to times measured on texts, in
/// hundredths of a nanosecond. Only the ratios of the costs matter.
const STEP: usize = 90;

/// The cost of each pending entry, for a scan.
const PENDING: usize = 270;

/// The cost of each byte that is stepped over again, for a scan. This cost is a third of the fitted
/// cost, because the other counts cover only a third of each chunk.
const AGAIN: usize = 76;

/// The cost of each attempt that is repeated, for a scan.
const REPEAT: usize = 4_860;

/// The cost of each byte, for a lexer.
const BYTE: usize = 23;

/// The cost of each match, for a lexer.
const MATCH: usize = 142;

/// The cost of each state that is entered within an attempt, for a lexer.
const ENTRY: usize = 131;

/// The cost of each fast loop, for a lexer.
const LOOP: usize = 455;

/// The cost of each section that a processor likely predicts wrongly, for a lexer.
const MISS: usize = 866;

/// The cost of each attempt that is repeated, for a lexer. Such an attempt returns to the last mark
/// that it passed, or ends in an error.
const RETURN: usize = 1_370;

/// The numbers of bytes, matches and other events in walks over chunks of an input.
#[derive(Clone, Copy, Drop)]
pub struct TrialCounts {
    /// The number of bytes that were counted.
    pub bytes: usize,
    /// The number of bytes before which a match ends.
    pub ends: usize,
    /// The number of bytes before which a match that is not skipped ends.
    pub tokens: usize,
    /// The number of bytes that lead to another row within an attempt.
    pub entered: usize,
    /// The number of runs of bytes that do not change the row.
    pub loops: usize,
    /// The number of sections of attempts that are predicted wrongly.
    pub missed: usize,
    /// The number of bytes that need a repeated attempt.
    pub repeated: usize,
    /// The number of bytes in whole chunks that are stepped over again, because the row in which
    /// their block begins was guessed wrongly.
    pub again: usize,
}

/// The counts before any walk, which are all 0.
const NOTHING: TrialCounts = TrialCounts {
    bytes: 0,
    ends: 0,
    tokens: 0,
    entered: 0,
    loops: 0,
    missed: 0,
    repeated: 0,
    again: 0,
};

/// Walks over chunks at regular distances in an input, each from the root on. Returns the sums of
/// the counts of these walks. All counts are 0 if the input has fewer than `2 * CHUNK` bytes for
/// each walk.
pub fn trial_counts(reading: &Reading) -> TrialCounts
    requires { IsReading reading.now }
{
    let len = reading.input.len();
    let chunks = (1 + len / SPREAD).min(MOST);
    let part = len / chunks;
    let mut counts = NOTHING;
    if part < 2 * CHUNK {
        return counts;
    }
    let mut predictor = Predictor::new();
    let mut at = 0;
    while len - at >= part {
        counts = counts.and(chunk_counts(reading, at, &mut predictor));
        at += part;
    }
    counts
}

/// Returns the counts of a walk over one chunk. The chunk begins after the first line end among the
/// `CHUNK` bytes from `at` on, or at `at` if these bytes contain no line end.
fn chunk_counts(reading: &Reading, at: usize, predictor: &mut Predictor) -> TrialCounts
    requires reading { IsReading reading.now }
    requires at { at + 2 * CHUNK ≤ length reading.now.input.now }
{
    let from = at + line_start(&reading.input[at..at + CHUNK]);
    let text = &reading.input[from..from + CHUNK];
    let root = reading.code.root_row_start();
    let mut trace = [0u32; 4608];
    walk_chunk(reading.rows, text, root, root, &mut trace);
    TrialCounts {
        again: steps_again(reading.rows, text, root, &trace),
        ..trace_counts(&trace, predictor)
    }
}

/// Returns the index after the first line end in `part`, or 0 if `part` has no line end. A match
/// attempt likely begins at this index, because tokens rarely extend over a line end.
pub(crate) fn line_start(part: &[u8]) -> usize
    ensures { result ≤ length part.now }
{
    for at in 0..part.len() {
        if part[at] == b'\n' {
            return at + 1;
        }
    }
    0
}

/// Returns the counts of the first `COUNTED` entries of a walk. The count `again` is 0.
fn trace_counts(trace: &[u32], predictor: &mut Predictor) -> TrialCounts
    requires trace { length trace.now ≡ CHUNK }
{
    let mut counts = TrialCounts {
        bytes: COUNTED,
        ..NOTHING
    };
    let mut section = Section::new(0);
    for at in 0..COUNTED {
        counts = counts.and(entry_counts(section, trace[at], predictor));
        section = section.after(trace[at]);
    }
    counts
}

/// Returns the counts of `entry`, the entry after the section `section`. The counts `bytes` and
/// `again` are 0.
#[inline(always)]
fn entry_counts(section: Section, entry: u32, predictor: &mut Predictor) -> TrialCounts {
    TrialCounts {
        ends: (entry & ENDED != 0) as usize,
        tokens: (entry >= (ENDED | TOKEN)) as usize,
        entered: section.enters_row(entry) as usize,
        loops: section.begins_loop(entry) as usize,
        missed: missed(section, entry, predictor),
        repeated: (entry & (ENDED | TOKEN) == TOKEN) as usize,
        ..NOTHING
    }
}

/// Returns 1 if the section ends before the byte of the entry and is predicted wrongly, and
/// otherwise 0.
#[inline(always)]
fn missed(section: Section, entry: u32, predictor: &mut Predictor) -> usize {
    if section.ends_at(entry) {
        predictor.misses(section.code(entry)) as usize
    } else {
        0
    }
}

/// Returns the number of bytes of a chunk that were stepped over again. `trace` contains the
/// entries of the walk over the chunk.
fn steps_again(rows: &[u32], text: &[u8], root: usize, trace: &[u32]) -> usize
    requires closed { IsClosed rows.now }
    requires root { IsRowStart rows.now root }
    requires text { length text.now ≡ CHUNK }
    requires trace { length trace.now ≡ CHUNK }
{
    let guesses = guess_row_starts(rows, text, root);
    let mut again = 0usize;
    for block in 1..BLOCKS {
        again = again.wrapping_add(block_steps(rows, text, guesses[block], trace, BLOCK * block));
    }
    again
}

/// Returns the number of bytes that were stepped over again in the block that begins at `from`. The
/// number is 0 if `guess` was right. Otherwise, the bytes up to and including the first byte that
/// leads to the same row from `guess` as in the walk were stepped over again, or the whole block if
/// there is no such byte.
fn block_steps(rows: &[u32], text: &[u8], guess: usize, trace: &[u32], from: usize) -> usize
    requires closed { IsClosed rows.now }
    requires guess { IsRowStart rows.now guess }
    requires text { length text.now ≡ CHUNK }
    requires trace { length trace.now ≡ CHUNK }
    requires first { 0 < from }
    requires last { from + BLOCK ≤ CHUNK }
{
    if guess == (trace[from - 1] & OFFSET_MASK) as usize {
        return 0;
    }
    let mut now = guess;
    for at in from..from + BLOCK {
        now = (entry_of(rows, text[at], now) & OFFSET_MASK) as usize;
        if now == (trace[at] & OFFSET_MASK) as usize {
            return at + 1 - from;
        }
    }
    BLOCK
}

impl TrialCounts {
    /// Returns the sums of the corresponding counts in `self` and `found`.
    fn and(self, found: TrialCounts) -> TrialCounts {
        TrialCounts {
            bytes: self.bytes.wrapping_add(found.bytes),
            ends: self.ends.wrapping_add(found.ends),
            tokens: self.tokens.wrapping_add(found.tokens),
            entered: self.entered.wrapping_add(found.entered),
            loops: self.loops.wrapping_add(found.loops),
            missed: self.missed.wrapping_add(found.missed),
            repeated: self.repeated.wrapping_add(found.repeated),
            again: self.again.wrapping_add(found.again),
        }
    }

    /// Returns whether a scan likely takes less time than a lexer on an input with these counts.
    pub fn suit_scans(self) -> bool {
        self.scan_cost() < self.lexer_cost()
    }

    /// Returns the estimated cost of a scan over the samples.
    fn scan_cost(self) -> usize {
        STEP.wrapping_mul(self.bytes)
            .wrapping_add(PENDING.wrapping_mul(self.tokens))
            .wrapping_add(AGAIN.wrapping_mul(self.again))
            .wrapping_add(REPEAT.wrapping_mul(self.repeated))
    }

    /// Returns the estimated cost of a lexer on the samples.
    fn lexer_cost(self) -> usize {
        BYTE.wrapping_mul(self.bytes)
            .wrapping_add(MATCH.wrapping_mul(self.ends))
            .wrapping_add(ENTRY.wrapping_mul(self.entered))
            .wrapping_add(LOOP.wrapping_mul(self.loops))
            .wrapping_add(MISS.wrapping_mul(self.missed))
            .wrapping_add(RETURN.wrapping_mul(self.repeated))
    }
}
