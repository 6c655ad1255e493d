//! Divides match attempts into sections, and predicts the sections. `trial` calls the methods of
//! `Section` and `Predictor` for each entry.
//!
//! A section ends where a fast loop or an attempt ends. In sections with equal codes, a lexer takes
//! equal branches. A processor predicts a branch from the preceding branches, so repeated sequences
//! of sections take less time than new sequences.

use crate::walk::{OFFSET_MASK, TOKEN};

/// The number of bytes that a fast loop tests at once.
const NEAR: u32 = 16;

/// The maximum number of entered states that codes distinguish.
const MOST_ENTERED: u32 = 7;

/// The multiplier of hashes: 2 to the power of 32, divided by the golden ratio.
const SPREADING: u32 = 0x9E37_79B1;

/// A section of an attempt, up to but not including the next byte.
#[derive(Clone, Copy, Drop)]
pub(crate) struct Section {
    /// The row before the next byte.
    row_start: u32,
    /// The number of consecutive bytes of the section that led to another row.
    entered: u32,
    /// The number of subsequent bytes that did not change the row.
    stayed: u32,
}

impl Section {
    /// Returns an empty section, which begins in the row `row_start`.
    pub(crate) fn new(row_start: u32) -> Section {
        Section {
            row_start,
            entered: 0,
            stayed: 0,
        }
    }

    /// Returns whether the byte of the entry leads to another row within the attempt.
    #[inline(always)]
    pub(crate) fn enters_row(self, entry: u32) -> bool {
        (entry < TOKEN) & (entry != self.row_start)
    }

    /// Returns whether the byte of the entry is the first byte of the section that does not change
    /// the row.
    #[inline(always)]
    pub(crate) fn begins_loop(self, entry: u32) -> bool {
        (entry == self.row_start) & (self.stayed == 0)
    }

    /// Returns whether the section ends before the byte of the entry.
    #[inline(always)]
    pub(crate) fn ends_at(self, entry: u32) -> bool {
        (entry >= TOKEN) | ((self.stayed > 0) & (entry != self.row_start))
    }

    /// Returns the code of the section that ends before the byte of the entry. The code is a number
    /// from 1 to 255.
    #[inline(always)]
    pub(crate) fn code(self, entry: u32) -> u32 {
        let length = ((self.stayed > 0) as u32).wrapping_add((self.stayed > NEAR) as u32);
        let entered = self.entered.min(MOST_ENTERED);
        (entry >> 29)
            .wrapping_mul(32)
            .wrapping_add(length.wrapping_mul(8))
            .wrapping_add(entered)
            .wrapping_add(1)
    }

    /// Returns the section after the byte of the entry.
    #[inline(always)]
    pub(crate) fn after(self, entry: u32) -> Section {
        if entry == self.row_start {
            return Section {
                stayed: self.stayed.wrapping_add(1),
                ..self
            };
        }
        let row_start = entry & OFFSET_MASK;
        if entry >= TOKEN {
            return Section::new(row_start);
        }
        let before = if self.stayed > 0 { 0 } else { self.entered };
        Section {
            row_start,
            entered: before.wrapping_add(1),
            stayed: 0,
        }
    }
}

/// A predictor of the codes of sections. For each hash of eight consecutive codes, the predictor
/// stores the code that last followed these codes, or 0 if no code is known.
#[derive(Drop)]
pub(crate) struct Predictor {
    codes: [u32; 1024],
    history: u32,
}

impl Predictor {
    /// Returns a predictor that knows no section.
    pub(crate) fn new() -> Predictor {
        Predictor {
            codes: [0; 1024],
            history: 0,
        }
    }

    /// Returns whether `code`, the code of the next section, differs from the predicted code.
    /// Records `code`.
    pub(crate) fn misses(&mut self, code: u32) -> bool {
        // The upper ten bits of a product depend on all codes of the history.
        let index = (self.history.wrapping_mul(SPREADING) >> 22) as usize;
        let predicted = self.codes[index];
        self.codes[index] = code;
        // A code leaves the history after eight others.
        self.history = self.history.wrapping_mul(16).wrapping_add(code);
        predicted != code
    }
}
