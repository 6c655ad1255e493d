//! Finds the end of a fast loop: the first byte that does not pass the test of the loop. Both the
//! fast path and the slow path of an attempt call `stop` in a state that has a fast loop.

ghost use Rattle.std.specs.Prelude.{◌≡◌, ◌+◌, ◌/◌, ◌%◌, ◌<◌, ◌≤◌, length, map, not, slice_index};
ghost use Rattle.logos_machine.specs.Views.{mask_l, passes_test, NamesTest, StopsAt};

use logos_code::code::Code;
use std::simd::prelude::*;

/// Returns the index of the first byte at or after `from` that does not pass the test, or the
/// length of the input if there is no such byte. Tests sixteen bytes at once, without a branch for
/// each byte.
#[inline(always)]
pub(super) fn stop(code: &Code, test: usize, input: &[u8], from: usize) -> usize
    requires test { NamesTest code.now test }
    requires within { from ≤ length input.now }
    ensures { StopsAt code.now test input.now from result }
{
    let Some(block) = input[from..].first_chunk::<16>() else {
        return stop_late(code, test, input, from);
    };
    let bits = stopping(code, test, block);
    if bits != 0 {
        return from + bits.trailing_zeros() as usize;
    }
    stop_far(code, test, input, from + 16)
}

/// Returns a number whose bit `k` is set if byte `k` of the block does not pass the test.
#[inline(always)]
fn stopping(code: &Code, test: usize, block: &[u8; 16]) -> u64
    requires { NamesTest code.now test }
    ensures { result ≡ mask_l (map (λ b. not (passes_test code.now.bit_tables test b)) block.now) }
{
    let bytes = u8x16::from_array(*block);
    let mask = code.mask(test);
    let near = by_low(mask, 0, bytes) & by_high(NEAR, bytes);
    let far = by_low(mask, 16, bytes) & by_high(FAR, bytes);
    (near | far).simd_eq(u8x16::splat(0)).to_bitmask()
}

/// For each upper half of a byte, the bit that represents the half among bytes below 128. For an
/// upper half below 8, the entry has only the bit set whose index is the upper half. For any other
/// upper half, the entry is 0.
const NEAR: [u8; 16] = [1, 2, 4, 8, 16, 32, 64, 128, 0, 0, 0, 0, 0, 0, 0, 0];

/// For each upper half of a byte, the bit that represents the half among bytes from 128 on. For an
/// upper half from 8 on, the entry has only the bit set whose index is the upper half minus 8. For
/// any other upper half, the entry is 0.
const FAR: [u8; 16] = [0, 0, 0, 0, 0, 0, 0, 0, 1, 2, 4, 8, 16, 32, 64, 128];

/// Returns, for each byte, the entry of the mask at the index `at` plus the lower half of the byte.
#[inline(always)]
fn by_low(mask: &[u8; 32], at: usize, bytes: u8x16) -> u8x16
    requires { at ≤ 16 }
    ensures { result ≡ map (λ b. slice_index mask.now (at + b % 16)) bytes }
{
    u8x16::from_slice(&mask[at..]).swizzle_dyn_within::<16>(bytes & u8x16::splat(15))
}

/// Returns, for each byte, the entry of `bits` whose index is the upper half of the byte.
#[inline(always)]
fn by_high(bits: [u8; 16], bytes: u8x16) -> u8x16
    ensures { result ≡ map (λ b. slice_index bits (b / 16)) bytes }
{
    u8x16::from_array(bits).swizzle_dyn_within::<16>(bytes >> u8x16::splat(4))
}

/// Returns the result of `stop` for the bytes from `from` on. Called if the sixteen bytes before
/// `from` pass the test.
#[cold]
#[inline(never)]
fn stop_far(code: &Code, test: usize, input: &[u8], from: usize) -> usize
    requires test { NamesTest code.now test }
    requires within { from ≤ length input.now }
    ensures { StopsAt code.now test input.now from result }
{
    let mut at = from;
    while let Some(block) = input[at..].first_chunk::<16>() {
        let bits = stopping(code, test, block);
        if bits != 0 {
            return at + bits.trailing_zeros() as usize;
        }
        at += 16;
    }
    stop_late(code, test, input, at)
}

/// Returns the result of `stop` for the bytes from `from` on, testing byte by byte. Called if fewer
/// than sixteen bytes are left.
#[cold]
#[inline(never)]
fn stop_late(code: &Code, test: usize, input: &[u8], from: usize) -> usize
    requires test { NamesTest code.now test }
    requires within { from ≤ length input.now }
    ensures { StopsAt code.now test input.now from result }
{
    let mut at = from;
    while at < input.len() && code.passes_test(test, input[at]) {
        at += 1;
    }
    at
}
