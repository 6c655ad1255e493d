//! Finds the pending entries of a chunk by the flags of its entries. `run` iterates over the
//! pending entries with a `ChunkCursor`.

ghost use Rattle.std.specs.Prelude.{◌≡◌, ◌<◌, ◌+◌, ◌*◌, MatchOption};
ghost use Rattle.logos_scan.specs.walk.Views.{HasRoom, Finds, Finishes, IsInWord, IsMarked, Passes, IsAt, start_at, start_by, start_of};

use crate::walk::blocks::CHUNK;
use crate::walk::masks::ChunkEntries;

/// A point of a scan in a chunk: before the entry `from`, in a word of flags. `tokens` contains the
/// flags of those pending entries in the word that have not been passed, and `ends` contains the
/// flags of the ends of matches in the word. The last end before an entry is computed only when it
/// is requested, so `next` changes only the flags that it passes.
#[derive(Clone, Copy, Drop)]
pub struct ChunkCursor {
    /// The offset of the chunk in the input, in bytes.
    pub base: usize,
    /// The index of the first entry that has not been passed.
    pub from: usize,
    /// The start of the attempt that is active before the first end of the word, as an offset in
    /// the input.
    pub word_start: usize,
    word: usize,
    tokens: u64,
    ends: u64,
}

impl ChunkCursor {
    /// Returns the cursor before the entry `from` of the chunk at the offset `base` of the input.
    /// The active attempt began at the offset `start`.
    #[inline(always)]
    pub fn new(chunk: &ChunkEntries, base: usize, start: usize, from: usize) -> ChunkCursor
        requires marked { IsMarked chunk.now }
        requires from { from < CHUNK }
        ensures is_at { IsAt chunk.now.entries result }
        ensures base { result.base ≡ base }
        ensures start { start_of result ≡ start }
        ensures from { result.from ≡ from }
    {
        let word = from / 64;
        let left = !((1u64 << (from % 64)) - 1);
        ChunkCursor {
            base,
            from,
            word_start: start,
            word,
            tokens: chunk.tokens[word] & left,
            ends: chunk.ends[word] & left,
        }
    }

    /// Returns the start of the attempt that is active after the ends whose bits are set in `bits`.
    /// The ends must be in the word.
    #[inline(always)]
    fn start_after(self, bits: u64) -> usize
        requires room { HasRoom self.base }
        requires word { self.word < 72 }
        ensures { result ≡ start_by (self.base + 64 * self.word) self.word_start bits }
    {
        if bits == 0 {
            return self.word_start;
        }
        self.base + 64 * self.word + (63 - bits.leading_zeros() as usize)
    }

    /// Returns the start of the attempt that is active before the entry `at`, which is in the word.
    #[inline(always)]
    pub fn start_before(self, at: usize) -> usize
        requires room { HasRoom self.base }
        requires at { at < CHUNK }
        requires word { IsInWord self at }
        ensures { result ≡ start_at self at }
    {
        let before = (1u64 << (at % 64)) - 1;
        self.start_after(self.ends & before)
    }

    /// Returns the cursor before the next word. The current word must have no pending entry left.
    #[inline(always)]
    fn moved(self, chunk: &ChunkEntries) -> ChunkCursor
        requires marked { IsMarked chunk.now }
        requires room { HasRoom self.base }
        requires is_at { IsAt chunk.now.entries self }
        requires none { self.tokens ≡ 0 }
        requires last { self.word < 71 }
        ensures is_at { IsAt chunk.now.entries result }
        ensures passes { Passes chunk.now.entries self result }
        ensures word { result.word ≡ self.word + 1 }
    {
        let word = self.word + 1;
        ChunkCursor {
            base: self.base,
            from: 64 * word,
            word_start: self.start_after(self.ends),
            word,
            tokens: chunk.tokens[word],
            ends: chunk.ends[word],
        }
    }

    /// Returns the cursor in the first word that has a pending entry left, from the current word
    /// on, or in the last word if no pending entry is left.
    #[inline(always)]
    fn filled(self, chunk: &ChunkEntries) -> ChunkCursor
        requires marked { IsMarked chunk.now }
        requires room { HasRoom self.base }
        requires is_at { IsAt chunk.now.entries self }
        ensures is_at { IsAt chunk.now.entries result }
        ensures passes { Passes chunk.now.entries self result }
        ensures filled { result.tokens ≡ 0 → result.word ≡ 71 }
    {
        let mut cursor = self;
        while cursor.tokens == 0 {
            if cursor.word == 71 {
                return cursor;
            }
            cursor = cursor.moved(chunk);
        }
        cursor
    }

    /// Passes the next pending entry, and returns its index. If no pending entry is left, passes
    /// all entries, and returns `None`. The attempt that is active at the end of the chunk then
    /// began at `word_start`.
    #[inline(always)]
    pub fn next(&mut self, chunk: &ChunkEntries) -> Option<usize>
        requires marked { IsMarked chunk.now }
        requires room { HasRoom self.old.base }
        requires is_at { IsAt chunk.now.entries self.old }
        ensures base { self.new.base ≡ self.old.base }
        ensures is_at { IsAt chunk.now.entries self.new }
        ensures next { MatchOption result
            (Finishes chunk.now.entries self.old self.new)
            (λ at. Finds chunk.now.entries self.old self.new at) }
    {
        let cursor = self.filled(chunk);
        if cursor.tokens == 0 {
            *self = ChunkCursor {
                base: cursor.base,
                from: 4608,
                word_start: cursor.start_after(cursor.ends),
                word: cursor.word,
                tokens: 0,
                ends: 0,
            };
            return None;
        }
        let bit = cursor.tokens.trailing_zeros() as usize;
        let at = 64 * cursor.word + bit;
        *self = ChunkCursor {
            base: cursor.base,
            from: at + 1,
            word_start: cursor.word_start,
            word: cursor.word,
            tokens: cursor.tokens & !(1 << bit),
            ends: cursor.ends,
        };
        Some(at)
    }
}
