//! Scans an input. A scan yields the results of match attempts, one after another, from the entries
//! of chunks. Called by `items`, `logos_items` and `logos_commands`.

ghost use Rattle.std.specs.Prelude.{◌≡◌, ◌+◌, ◌<◌, ◌≤◌, length, MatchOption};
ghost use Rattle.logos_scan.specs.Views.{IsBytes, IsRowStart, ComesTo, answers_of, item_of, EndsItems, YieldsItem, IsChunk, IsFlagged, IsHeld, IsLoaded, IsMarked, IsOver, IsReading, IsReady, IsRun, IsTaken, TakesMatches, start_of, with_chunk};

use crate::attempts::{Taken, attempted};
use crate::fold::entries::CALLS;
use crate::fold::folded::Folded;
use crate::walk::blocks::walk_chunk;
use crate::walk::cursor::ChunkCursor;
use crate::walk::masks::ChunkEntries;
use crate::walk::repair::{Stretch, repair};
use crate::walk::{ENDED, OFFSET_MASK, walk};
use logos_code::action::Action;
use logos_code::code::Code;
use logos_hir::leaf::LeafId;
use logos_machine::machine::{Item, error, matched_item, token};
use logos_token::token::Span;

/// The input of a scan, with a code and its folded rows.
#[derive(Clone, Copy, Drop)]
pub struct Reading<'r, 'c, 's, 'i> {
    pub code: &'c Code<'s>,
    pub rows: &'r [u32],
    pub input: &'i [u8],
}

impl<'r, 'c, 's, 'i> Reading<'r, 'c, 's, 'i> {
    /// Returns a reading of `input` with the folded rows of a code.
    pub fn new(folded: &'r Folded<'c, 's>, input: &'i [u8]) -> Reading<'r, 'c, 's, 'i>
        ensures folded { IsReading result }
        ensures code { result.code.now ≡ folded.now.code }
        ensures input { result.input.now ≡ input.now }
    {
        Reading {
            code: folded.code(),
            rows: folded.rows(),
            input,
        }
    }
}

/// The number of bytes in a chunk, and the row after these bytes.
#[derive(Clone, Copy, Drop)]
pub struct Loaded {
    pub count: usize,
    pub row_start: usize,
}

/// A scan of an input: a point in a chunk, and the start of the next attempt. The chunk is stored
/// separately, so that the compiler can keep the scan in registers. Each call receives the reading
/// and the chunk with which the scan was made.
#[derive(Clone, Copy, Drop)]
pub struct Run {
    pub cursor: ChunkCursor,
    /// The number of bytes in the chunk.
    pub count: usize,
    /// The row after the bytes of the chunk.
    pub row_start: usize,
    /// The index of the first entry of the chunk that the last walk wrote.
    pub low: usize,
}

/// Does nothing. A call adds to the proof the fact that the elements of a slice of bytes are bytes.
#[inline(always)]
fn are_bytes(input: &[u8])
    ensures { IsBytes input.now }
{}

/// Writes the entries of the input's bytes from the offset `base` on, for at most one chunk, into
/// `entries`, and 0 into the remaining elements. The walk begins in the row `row_start`. Returns
/// the number of bytes that were walked over, and the row after these bytes.
fn step_over(reading: &Reading, base: usize, row_start: usize, entries: &mut [u32; 4608]) -> Loaded
    requires reading { IsReading reading.now }
    requires base { base ≤ length reading.now.input.now }
    requires row_start { IsRowStart reading.now.rows.now row_start }
    ensures { IsLoaded reading.now.rows.now reading.now.input.now base row_start entries.new result }
{
    let rest = &reading.input[base..];
    if rest.len() >= 4608 {
        let root = reading.code.root_row_start();
        return Loaded {
            count: 4608,
            row_start: walk_chunk(reading.rows, &rest[..4608], root, row_start, entries),
        };
    }
    *entries = [0; 4608];
    Loaded {
        count: rest.len(),
        row_start: walk(reading.rows, rest, row_start, entries),
    }
}

/// Writes the chunk that begins at the offset `base` of the input: the entries of its bytes, as
/// `step_over` does, and their flags. Returns the number of bytes in the chunk, and the row after
/// these bytes.
#[inline(never)]
fn load(reading: &Reading, base: usize, row_start: usize, chunk: &mut ChunkEntries) -> Loaded
    requires reading { IsReading reading.now }
    requires base { base ≤ length reading.now.input.now }
    requires row_start { IsRowStart reading.now.rows.now row_start }
    ensures loaded { IsLoaded reading.now.rows.now reading.now.input.now base row_start
        chunk.new.entries result }
    ensures marked { IsMarked chunk.new }
{
    let loaded = step_over(reading, base, row_start, &mut chunk.entries);
    chunk.mark(0, 72);
    loaded
}

/// Returns the result of a single attempt from `start` on, and the scan at the start of the next
/// attempt.
#[cold]
#[inline(never)]
fn attempt_again(
    reading: &Reading,
    run: Run,
    chunk: &mut ChunkEntries,
    start: usize,
) -> (Taken, Run)
    requires reading { IsReading reading.now }
    requires held { IsHeld reading.now (with_chunk chunk.old run) start }
    ensures ready { IsReady reading.now (with_chunk chunk.new result.1) }
    ensures taken { IsTaken reading.now.code.now reading.now.input.now start
        result.0 (start_of result.1.cursor) }
{
    let (taken, next) = attempted(reading.code, reading.input, start);
    let after = restarted(reading, run, chunk, next);
    (taken, after)
}

/// Returns the scan at the offset `to` of the input, where a match attempt begins.
fn restarted(reading: &Reading, run: Run, chunk: &mut ChunkEntries, to: usize) -> Run
    requires reading { IsReading reading.now }
    requires chunk { IsChunk reading.now.rows.now reading.now.input.now (with_chunk chunk.old run) }
    requires within { to ≤ length reading.now.input.now }
    ensures ready { IsReady reading.now (with_chunk chunk.new result) }
    ensures start { start_of result.cursor ≡ to }
{
    let base = run.cursor.base;
    if to > base && to - base > run.low && to - base < run.count {
        repaired_from(reading, run, chunk, to - base)
    } else {
        filled(reading, chunk, to, to, reading.code.root_row_start())
    }
}

/// Returns the scan at the index `from` of the chunk, where a match attempt begins. Steps again
/// over the bytes from this index on, until a byte leads to the same row as before. The last walk
/// must have begun before this index.
fn repaired_from(reading: &Reading, run: Run, chunk: &mut ChunkEntries, from: usize) -> Run
    requires reading { IsReading reading.now }
    requires chunk { IsChunk reading.now.rows.now reading.now.input.now (with_chunk chunk.old run) }
    requires left { run.low < from }
    requires inside { from < run.count }
    ensures run { IsRun reading.now.code.now reading.now.rows.now reading.now.input.now
        (with_chunk chunk.new result) (run.cursor.base + from) from }
    ensures start { start_of result.cursor ≡ run.cursor.base + from }
    ensures from { result.cursor.from ≡ from }
{
    let base = run.cursor.base;
    let stretch = Stretch {
        from,
        to: run.count,
        begin: (chunk.entries[from - 1] & OFFSET_MASK) as usize,
        end: run.row_start,
    };
    let root = reading.code.root_row_start();
    let rest = &reading.input[base..];
    let repaired = repair(reading.rows, rest, root, &mut chunk.entries, stretch);
    chunk.mark(from / 64, (repaired.stop + 63) / 64);
    let cursor = ChunkCursor::new(chunk, base, base + from, from);
    Run {
        cursor,
        count: run.count,
        row_start: repaired.row_start,
        low: from,
    }
}

/// Writes the chunk that begins at the offset `base` of the input, and returns the scan at the
/// start of this chunk. The attempt that is active at `base` begins at `start`, and is in the state
/// of the row `row_start`.
#[inline(always)]
fn filled(
    reading: &Reading,
    chunk: &mut ChunkEntries,
    base: usize,
    start: usize,
    row_start: usize,
) -> Run
    requires reading { IsReading reading.now }
    requires base { base ≤ length reading.now.input.now }
    requires row_start { IsRowStart reading.now.rows.now row_start }
    requires is_at { ComesTo reading.now.code.now reading.now.input.now start base row_start }
    ensures run { IsRun reading.now.code.now reading.now.rows.now reading.now.input.now
        (with_chunk chunk.new result) start 0 }
    ensures start { start_of result.cursor ≡ start }
    ensures base { result.cursor.base ≡ base }
    ensures from { result.cursor.from ≡ 0 }
{
    let loaded = load(reading, base, row_start, chunk);
    let cursor = ChunkCursor::new(chunk, base, start, 0);
    Run {
        cursor,
        count: loaded.count,
        row_start: loaded.row_start,
        low: 0,
    }
}

impl Run {
    /// Writes the first chunk of an input, and returns the scan at the start of the input.
    #[inline(always)]
    pub fn new(reading: &Reading, chunk: &mut ChunkEntries) -> Run
        requires reading { IsReading reading.now }
        ensures ready { IsReady reading.now (with_chunk chunk.new result) }
        ensures start { start_of result.cursor ≡ 0 }
    {
        filled(reading, chunk, 0, 0, reading.code.root_row_start())
    }

    /// Moves past the next pending entry. Returns the index of this entry in the chunk, or `None`
    /// at the end of the input.
    #[inline(always)]
    fn next_flag(&mut self, reading: &Reading, chunk: &mut ChunkEntries) -> Option<usize>
        requires reading { IsReading reading.now }
        requires ready { IsReady reading.now (with_chunk chunk.old self.old) }
        ensures { MatchOption result
            (IsOver reading.now (start_of self.old.cursor) (with_chunk chunk.new self.new))
            (λ at. IsFlagged reading.now (start_of self.old.cursor) (with_chunk chunk.new self.new)
            at) }
    {
        are_bytes(reading.input);
        loop {
            if let Some(at) = self.cursor.next(chunk) {
                return Some(at);
            }
            let base = self.cursor.base + self.count;
            if base >= reading.input.len() {
                return None;
            }
            let run = filled(reading, chunk, base, self.cursor.word_start, self.row_start);
            *self = run;
        }
    }

    /// Returns the result of the next attempt that is not skipped without a callback, or `Ends` at
    /// the end of the input.
    #[inline(always)]
    pub fn next(&mut self, reading: &Reading, chunk: &mut ChunkEntries) -> Taken
        requires reading { IsReading reading.now }
        requires ready { IsReady reading.now (with_chunk chunk.old self.old) }
        ensures ready { IsReady reading.now (with_chunk chunk.new self.new) }
        ensures taken { IsTaken reading.now.code.now reading.now.input.now
            (start_of self.old.cursor) result (start_of self.new.cursor) }
    {
        are_bytes(reading.input);
        let Some(at) = self.next_flag(reading, chunk) else {
            return self.next_again(reading, chunk, self.cursor.word_start);
        };
        let entry = chunk.entries[at];
        let ended = entry & ENDED;
        if ended == 0 {
            return self.next_again(reading, chunk, self.cursor.start_before(at));
        }
        let leaf = LeafId((entry >> 20 & 511) as usize);
        let to = self.cursor.base + at;
        let calls = entry & CALLS;
        // The start of the match is computed in each branch, so that a caller that only counts
        // tokens never computes it.
        if calls == 0 {
            let from = self.cursor.start_before(at);
            Taken::Emits(leaf, Span { from, to })
        } else {
            let from = self.cursor.start_before(at);
            Taken::CallsBack(leaf, Span { from, to })
        }
    }

    /// Returns the result of a single attempt from `start` on, and moves to the start of the next
    /// attempt. Only `attempt_again` is called out of line, with a copy of the scan, so that the
    /// compiler can keep the original in registers.
    #[inline(always)]
    fn next_again(&mut self, reading: &Reading, chunk: &mut ChunkEntries, start: usize) -> Taken
        requires reading { IsReading reading.now }
        requires held { IsHeld reading.now (with_chunk chunk.old self.old) start }
        ensures ready { IsReady reading.now (with_chunk chunk.new self.new) }
        ensures taken { IsTaken reading.now.code.now reading.now.input.now start
            result (start_of self.new.cursor) }
    {
        let (taken, run) = attempt_again(reading, *self, chunk, start);
        *self = run;
        taken
    }

    /// Returns the next item, or `None` at the end of the input and on every later call. Finds the
    /// same items as a lexer with the callback `callback`. Calls `callback` for each match of a
    /// leaf that has a callback.
    #[inline(always)]
    pub fn next_item<'i, C: Fn(LeafId, &[u8]) -> Action>(
        &mut self,
        reading: &Reading<'_, '_, '_, 'i>,
        chunk: &mut ChunkEntries,
        callback: &C,
    ) -> Option<Item<'i>>
        requires callable { TakesMatches C.Fn reading.now.code.now callback.now }
        requires reading { IsReading reading.now }
        requires ready { IsReady reading.now (with_chunk chunk.old self.old) }
        ensures ready { IsReady reading.now (with_chunk chunk.new self.new) }
        ensures item { MatchOption result
            (EndsItems (answers_of C.Fn callback.now) reading.now callback.now self.old self.new)
            (λ i. YieldsItem (answers_of C.Fn callback.now) reading.now callback.now self.old self.new
            (item_of i)) }
    {
        loop {
            match self.next(reading, chunk) {
                Taken::Emits(leaf, span) => return Some(token(reading.input, leaf, span)),
                Taken::CallsBack(leaf, span) => {
                    let (code, input) = (reading.code, reading.input);
                    if let Some(item) = matched_item(code, input, callback, leaf, span) {
                        return Some(item);
                    }
                }
                Taken::Fails(span) => return Some(error(reading.input, span)),
                Taken::Ends => return None,
            }
        }
    }
}
