//! Computes the hash of a row of targets. `rows` finds equal rows by their hash. No proof about
//! rows depends on the hash.
//!
//! Each entry is mixed with its own key, and the results are summed. Therefore the entries of a row
//! are mixed independently, and a processor can mix several entries at once.

use crate::rows::{Row, WIDTH};

/// The number by which an entry is multiplied when it is mixed: an odd number whose bits look
/// random.
const MULTIPLIER: u32 = 0x9e37_79b1;

/// The difference between the keys of two neighboring entries.
const STEP: u32 = 0x85eb_ca77;

/// The number by which the sum of the mixed entries is multiplied: an odd number whose bits look
/// random.
const SPREAD: u64 = 0x9e37_79b9_7f4a_7c15;

/// Returns `entry` mixed with `key`.
#[inline(always)]
fn mixed(entry: u32, key: u32) -> u32 {
    let both = (entry ^ key).wrapping_mul(MULTIPLIER);
    both ^ (both >> 15)
}

/// Returns the hash of a row.
pub fn row_hash(row: &Row) -> u64 {
    let mut sum: u32 = 0;
    let mut key: u32 = 0;
    for k in 0..WIDTH {
        sum = sum.wrapping_add(mixed(row[k], key));
        key = key.wrapping_add(STEP);
    }
    u64::from(sum).wrapping_mul(SPREAD)
}
