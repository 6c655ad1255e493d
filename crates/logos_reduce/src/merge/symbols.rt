//! Contains sets of symbols. `refine` stores, for each state, the set of the symbols on which a
//! state leads to it. No proof about blocks depends on these sets.

ghost use Rattle.std.specs.Prelude.{◌<◌, ◌≤◌};

use crate::rows::{Row, WIDTH, run_end, target_at};
use crate::table::Table;
use std::alloc::{AllocError, Global};

/// A set of symbols, with one bit for each symbol.
#[derive(Clone, Copy, Drop)]
pub struct Symbols {
    words: [u64; 5],
}

impl Symbols {
    /// Returns the empty set.
    pub fn new() -> Symbols {
        Symbols { words: [0; 5] }
    }

    /// Returns whether the symbol `k` is in the set.
    pub fn has(&self, k: usize) -> bool
        requires { k < WIDTH }
    {
        (self.words[k / 64] >> (k % 64)) & 1 == 1
    }

    /// Returns a number greater than `k` such that no symbol of the set lies strictly between `k`
    /// and the number. The number can exceed the last symbol.
    pub fn after(&self, k: usize) -> usize
        requires { k < WIDTH }
        ensures { k < result }
    {
        let next = k + 1;
        let rest = self.words[next / 64] >> (next % 64);
        if rest == 0 {
            return (next / 64 + 1) * 64;
        }
        next + rest.trailing_zeros() as usize
    }

    /// Adds the symbol `k` to the set.
    pub fn add(&mut self, k: usize)
        requires { k < WIDTH }
    {
        self.words[k / 64] |= 1 << (k % 64);
    }

    /// Adds the symbols in the range `from..to` to the set.
    fn add_run(&mut self, from: usize, to: usize)
        requires { to ≤ WIDTH }
    {
        for k in from..to {
            self.add(k);
        }
    }

    /// Adds the symbols of `other` to the set.
    pub fn add_all(&mut self, other: &Symbols) {
        for i in 0..5 {
            self.words[i] |= other.words[i];
        }
    }
}

/// Adds the symbols in the range `from..to` to the set of the state `target`. Does nothing if
/// `target` is `None` or has no set.
fn note_run(symbols: &mut Vec<Symbols>, target: Option<usize>, from: usize, to: usize)
    requires { to ≤ WIDTH }
{
    if let Some(t) = target {
        if t < symbols.len() {
            symbols[t].add_run(from, to);
        }
    }
}

/// Adds each symbol on which `row` has a target to the set of this target.
fn note_symbols(symbols: &mut Vec<Symbols>, row: &Row) {
    let mut k = 0;
    while k < WIDTH {
        let end = run_end(row, k);
        note_run(symbols, target_at(row, k), k, end);
        k = end;
    }
}

/// Returns, for each state, the symbols on which a state leads to it.
///
/// # Errors
///
/// Returns `AllocError` if memory runs out.
pub fn symbols_of(alloc: Global, table: &Table) -> Result<Vec<Symbols>, AllocError> {
    let mut symbols = vec![in alloc; Symbols::new(); table.len()]?;
    for s in 0..table.len() {
        note_symbols(&mut symbols, table.row(s));
    }
    Ok(symbols)
}
