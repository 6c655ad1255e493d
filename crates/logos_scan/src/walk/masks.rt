//! Computes bit masks of the flags of entries. Called by `run` for each chunk.

ghost use Rattle.std.specs.Prelude.{◌≡◌, ◌≤◌, ◌+◌, length, replicate};
ghost use Rattle.logos_scan.specs.walk.Views.{HoldTops, MarksFrom, IsMarked, IsMarkedBeside};

use crate::walk::blocks::CHUNK;
use crate::walk::{ENDED, TOKEN};
use std::simd::prelude::*;

/// The number of words of flags of a chunk.
const WORDS: usize = CHUNK / 64;

/// The entries of a chunk, and their flags `ENDED` and `TOKEN` in words of 64 bits, one bit for
/// each entry.
#[derive(Drop)]
pub struct ChunkEntries {
    pub entries: [u32; 4608],
    pub ends: [u64; 72],
    pub tokens: [u64; 72],
}

/// The flag `ENDED` in the highest byte of an entry.
const ENDED_TOP: u8 = (ENDED >> 24) as u8;

/// The flag `TOKEN` in the highest byte of an entry.
const TOKEN_TOP: u8 = (TOKEN >> 24) as u8;

/// Returns the highest bytes of the 16 entries from `at` on. The bytes are selected from all bytes
/// of the entries, because the compiler needs more instructions for a shift.
#[inline(always)]
fn tops_of_16(trace: &[u32], at: usize) -> u8x16
    requires { at + 16 ≤ length trace.now }
    ensures { HoldTops trace.now at 16 result }
{
    let bytes = u32x16::from_slice(&trace[at..]).to_le_bytes();
    bytes.swizzle([3, 7, 11, 15, 19, 23, 27, 31, 35, 39, 43, 47, 51, 55, 59, 63])
}

/// Returns the highest bytes of the 32 entries from `at` on.
#[inline(always)]
fn tops_of_32(trace: &[u32], at: usize) -> u8x32
    requires { at + 32 ≤ length trace.now }
    ensures { HoldTops trace.now at 32 result }
{
    let first = tops_of_16(trace, at);
    let second = tops_of_16(trace, at + 16);
    first.shuffle(
        second,
        [
            0, 1, 2, 3, 4, 5, 6, 7, 8, 9, 10, 11, 12, 13, 14, 15, 16, 17, 18, 19, 20, 21, 22, 23,
            24, 25, 26, 27, 28, 29, 30, 31,
        ],
    )
}

/// Returns the highest bytes of the 64 entries from `at` on.
#[inline(always)]
fn tops_of_64(trace: &[u32], at: usize) -> u8x64
    requires { at + 64 ≤ length trace.now }
    ensures { HoldTops trace.now at 64 result }
{
    let first = tops_of_32(trace, at);
    let second = tops_of_32(trace, at + 32);
    first.shuffle(
        second,
        [
            0, 1, 2, 3, 4, 5, 6, 7, 8, 9, 10, 11, 12, 13, 14, 15, 16, 17, 18, 19, 20, 21, 22, 23,
            24, 25, 26, 27, 28, 29, 30, 31, 32, 33, 34, 35, 36, 37, 38, 39, 40, 41, 42, 43, 44, 45,
            46, 47, 48, 49, 50, 51, 52, 53, 54, 55, 56, 57, 58, 59, 60, 61, 62, 63,
        ],
    )
}

/// Returns the flags `ENDED` and `TOKEN` of the 64 entries from `at` on, as two words: bit `k` is
/// the flag of the entry `at + k`.
#[inline(always)]
fn flags_of(trace: &[u32], at: usize) -> (u64, u64)
    requires { at + 64 ≤ length trace.now }
    ensures ends { MarksFrom 31 trace.now at result.0 }
    ensures tokens { MarksFrom 30 trace.now at result.1 }
{
    let tops = tops_of_64(trace, at);
    let ends = tops & u8x64::splat(ENDED_TOP);
    let tokens = tops & u8x64::splat(TOKEN_TOP);
    (
        ends.simd_ne(u8x64::splat(0)).to_bitmask(),
        tokens.simd_ne(u8x64::splat(0)).to_bitmask(),
    )
}

impl ChunkEntries {
    /// Returns a chunk in which all entries and flags are 0.
    pub fn new() -> ChunkEntries
        ensures entries { result.entries ≡ replicate CHUNK 0 }
        ensures ends { result.ends ≡ replicate WORDS 0 }
        ensures tokens { result.tokens ≡ replicate WORDS 0 }
    {
        ChunkEntries {
            entries: [0; 4608],
            ends: [0; 72],
            tokens: [0; 72],
        }
    }

    /// Computes from the entries the words of flags at the indices `from..to`.
    pub fn mark(&mut self, from: usize, to: usize)
        requires order { from ≤ to }
        requires within { to ≤ 72 }
        // The other words are correct.
        requires others { IsMarkedBeside from to self.old }
        ensures marked { IsMarked self.new }
        ensures entries { self.new.entries ≡ self.old.entries }
    {
        for word in from..to {
            let (ends, tokens) = flags_of(&self.entries, 64 * word);
            self.ends[word] = ends;
            self.tokens[word] = tokens;
        }
    }
}
