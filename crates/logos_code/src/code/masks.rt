//! `masks_of` computes the masks of tests. With a mask, the fast loop of a lexer tests sixteen
//! bytes at once. Called by `construction`.

ghost use Rattle.std.specs.Prelude.{◌≡◌, ◌+◌, ◌*◌, ◌<◌, ◌≤◌, ◌^◌, ◌==◌, ℕ, if◌then◌else◌, IfOk};
ghost use Rattle.logos_code.specs.Views.{bit_at, passes_test, code_of, IsMask, AreMasks, NamesTest};

use super::CodeParts;
use std::alloc::{AllocError, Global};

/// Returns the masks of all tests, in the order of their numbers.
///
/// # Errors
///
/// Returns `AllocError` if memory runs out.
pub(super) fn masks_of(alloc: Global, parts: &CodeParts) -> Result<Vec<[u8; 32]>, AllocError>
    ensures { IfOk result (λ masks. AreMasks (code_of parts.now) masks.items) }
{
    let mut masks = Vec::new(alloc);
    while masks.len() / 8 < parts.bit_tables.len() {
        let test = masks.len();
        masks.push(mask_of(parts, test))?;
    }
    Ok(masks)
}

/// Returns the mask of the test with the number `test`. For each byte `b`, bit `b / 16 % 8` of
/// entry `16 * (b / 128) + b % 16` is set if `b` passes the test.
fn mask_of(parts: &CodeParts, test: usize) -> [u8; 32]
    requires { NamesTest (code_of parts.now) test }
    ensures { IsMask (passes_test parts.now.bit_tables.items test) result }
{
    let mut mask = [0; 32];
    for at in 0..32 {
        mask[at] = mask_entry(parts, test, 128 * (at / 16) + at % 16);
    }
    mask
}

/// The exclusive upper bound of the first bytes of mask entries: `FIRSTS - 1 + 7 * 16` is 255, the
/// greatest byte.
const FIRSTS: usize = 144;

/// Returns an entry of a mask. Bit `k` of the entry is set if the byte `first + 16 * k` passes the
/// test, for each `k` from 0 to 7.
fn mask_entry(parts: &CodeParts, test: usize, first: usize) -> u8
    requires test { NamesTest (code_of parts.now) test }
    requires first { first < FIRSTS }
    ensures { (k : ℕ) → k < 8 → (bit_at result k == 1)
        ≡ passes_test parts.now.bit_tables.items test (first + 16 * k) }
{
    mask_bit(parts.passes_test(test, first as u8), 0)
        + mask_bit(parts.passes_test(test, (first + 16) as u8), 1)
        + mask_bit(parts.passes_test(test, (first + 32) as u8), 2)
        + mask_bit(parts.passes_test(test, (first + 48) as u8), 3)
        + mask_bit(parts.passes_test(test, (first + 64) as u8), 4)
        + mask_bit(parts.passes_test(test, (first + 80) as u8), 5)
        + mask_bit(parts.passes_test(test, (first + 96) as u8), 6)
        + mask_bit(parts.passes_test(test, (first + 112) as u8), 7)
}

/// Returns `1 << k` if `passes` is `true`, and 0 otherwise.
fn mask_bit(passes: bool, k: usize) -> u8
    requires { k < 8 }
    ensures is { result ≡ if passes then 2 ^ k else 0 }
    ensures small { result ≤ 2 ^ k }
{
    if passes { 1 << k } else { 0 }
}
