//! Collects tests of bytes, and makes the tables whose bits are the results of the tests. `fork`
//! and `nodes` add tests, and `states` and `nodes` make the tables.

ghost use Rattle.std.specs.Prelude.{◌≡◌, ◌+◌, ◌*◌, ◌<◌, ◌≤◌, ◌/◌, ◌∷◌, [], ℕ, Some, IfOk, OnOk, OnErr, length, slice_get, if◌then◌else◌};
ghost use Rattle.logos_generator.specs.Imports.{beq, pointwise, insert_key, ranges_of, passes_test, Extends, IsTest, tests_byte, numbered, bits_from, bit_table, bit_tables_of};

use indexmap::IndexSet;
use logos_byte_class::byte_class::ByteClass;
use std::alloc::{AllocError, Global};

/// Returns the number of the test for the bytes of the class. Adds the test to `tests` if it is
/// new. Classes with the same bytes share a test.
pub(super) fn add_test(
    tests: &mut IndexSet<[bool; 256]>,
    class: &ByteClass,
) -> Result<usize, AllocError>
    ensures grows { Extends tests.old.keys tests.new.keys }
    ensures error { OnErr result (tests.new.keys ≡ tests.old.keys) }
    ensures is { IfOk result (IsTest tests.new.keys (ranges_of class.now)) }
    ensures numbers { OnOk result (tests.new.keys
        ≡ numbered tests.old.keys (ranges_of class.now ∷ [])) }
{
    let k = add_set(tests, class.to_table())?;
    Ok(k)
}

/// Returns the number of the test for the set of bytes `set`. Adds the test to `tests` if it is
/// new.
fn add_set(tests: &mut IndexSet<[bool; 256]>, set: [bool; 256]) -> Result<usize, AllocError>
    ensures long { length set ≡ 256 }
    ensures keys { OnOk result (tests.new.keys ≡ insert_key (pointwise beq) tests.old.keys set) }
    ensures stored { IfOk result (λ k. slice_get tests.new.keys k ≡ Some set) }
    ensures error { OnErr result (tests.new.keys ≡ tests.old.keys) }
{
    let (k, _) = tests.insert_full(set)?;
    Ok(k)
}

/// Returns the bit tables of all tests: test `k` is bit `k % 8` of the entries of table `k / 8`.
pub(super) fn tables_of(alloc: Global, tests: &[[bool; 256]]) -> Result<Vec<[u8; 256]>, AllocError>
    ensures tests { IfOk result (λ tables. (k b : ℕ) → b < 256 →
        passes_test tables.items k b ≡ tests_byte tests.now k b) }
    ensures long { IfOk result (λ tables. length tests.now ≤ 8 * length tables.items) }
    ensures are { IfOk result (λ tables. tables.items ≡ bit_tables_of tests.now) }
{
    let mut tables = Vec::new(alloc);
    for j in 0..tests.len().div_ceil(8) {
        tables.push(table_at(tests, j))?;
    }
    Ok(tables)
}

/// Returns the bit table at the index `j`.
fn table_at(tests: &[[bool; 256]], j: usize) -> [u8; 256]
    requires { 8 * j < length tests.now }
    ensures { result ≡ bit_table tests.now j }
{
    let mut table = [0; 256];
    for b in 0..256 {
        table[b] = entry_of(tests, j, b);
    }
    table
}

/// Returns the entry of bit table `j` for the byte `b`: bit `i` is the bit of test `8 * j + i`.
fn entry_of(tests: &[[bool; 256]], j: usize, b: usize) -> u8
    requires table { 8 * j < length tests.now }
    requires byte { b < 256 }
    ensures { result ≡ bits_from tests.now b (8 * j) 8 }
{
    let mut bits: u8 = 0;
    for i in 0..8 {
        bits = bits * 2 + bit_of(tests, 8 * j + 7 - i, b);
    }
    bits
}

/// Returns the bit of test `k` for the byte `b`: 1 if the test exists and the byte passes it, and 0
/// otherwise.
fn bit_of(tests: &[[bool; 256]], k: usize, b: usize) -> u8
    requires { b < 256 }
    ensures { result ≡ (if tests_byte tests.now k b then 1 else 0) }
{
    match tests.get(k) {
        Some(set) => u8::from(set[b]),
        None => 0,
    }
}
