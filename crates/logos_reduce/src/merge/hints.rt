//! Chooses the next blocks to process, and the symbols for which they are processed. `refine` and
//! `twins` call the methods of `Hints`. No proof about blocks depends on these choices.

ghost use Rattle.std.specs.Prelude.{◌≡◌, ℕ, ◌+◌, ◌<◌, ◌≤◌, OnSome, IfOk, vec_len, slice_index};

use std::alloc::{AllocError, Global};

/// The sizes of blocks, and the blocks that are still to be processed. A state is hit if it leads
/// into the block that is being processed, on the symbol for which this block is being processed.
#[derive(Drop)]
pub struct Hints {
    /// For each block, the number of its hit states.
    counts: Vec<usize>,
    /// For each block, the number of its states.
    sizes: Vec<usize>,
    /// For each block, whether the block is still to be processed.
    pending: Vec<bool>,
    /// For each block that is still to be processed, the first symbol for which the block is to be
    /// processed.
    first: Vec<usize>,
    /// The blocks that are still to be processed.
    todo: Vec<usize>,
    /// The block that is being processed, or `None` before the first block.
    looked: Option<usize>,
    ghost counts_len: { vec_len counts ≡ vec_len sizes },
    ghost pending_len: { vec_len pending ≡ vec_len sizes },
    ghost first_len: { vec_len first ≡ vec_len sizes },
    ghost todo_in: { (i : ℕ) → i < vec_len todo → slice_index todo.items i < vec_len sizes },
}

impl Hints {
    /// Returns hints in which each of the first `count` blocks is still to be processed. `blocks`
    /// is the block of each state, and `room` is the maximum number of blocks.
    ///
    /// # Errors
    ///
    /// Returns `AllocError` if memory runs out.
    pub fn new(
        alloc: Global,
        blocks: &Vec<usize>,
        count: usize,
        room: usize,
    ) -> Result<Hints, AllocError>
        requires within { (s : ℕ) → s < vec_len blocks.now → slice_index blocks.now.items s < room }
        requires count_in { count ≤ room }
        ensures { IfOk result (λ h. vec_len h.sizes ≡ room) }
    {
        let counts = vec![in alloc; 0; room]?;
        let mut sizes: Vec<usize> = vec![in alloc; 0; room]?;
        let mut pending = vec![in alloc; false; room]?;
        let first = vec![in alloc; 0; room]?;
        let mut todo = Vec::new(alloc);
        for s in 0..blocks.len() {
            let b = blocks[s];
            sizes[b] = sizes[b].saturating_add(1);
        }
        for b in 0..count {
            pending[b] = true;
            todo.push(b)?;
        }
        Ok(Hints {
            counts,
            sizes,
            pending,
            first,
            todo,
            looked: None,
        })
    }

    /// Adds 1 to the number of hit states of `block`.
    pub fn count_hit(&mut self, block: usize)
        requires { block < vec_len self.old.sizes }
        ensures todo { vec_len self.new.todo ≡ vec_len self.old.todo }
        ensures sizes { vec_len self.new.sizes ≡ vec_len self.old.sizes }
    {
        self.counts[block] = self.counts[block].saturating_add(1);
    }

    /// Returns whether `block` contains both a hit state and a state that is not hit.
    pub fn is_cut(&self, block: usize) -> bool
        requires { block < vec_len self.now.sizes }
    {
        0 < self.counts[block] && self.counts[block] < self.sizes[block]
    }

    /// Returns whether `block` is still to be processed, or `false` if there is no such block.
    pub fn is_pending(&self, block: usize) -> bool {
        block < self.pending.len() && self.pending[block]
    }

    /// Returns the first symbol for which `block` is still to be processed, or 0 if there is no
    /// such block.
    pub fn first_symbol(&self, block: usize) -> usize {
        if block < self.first.len() {
            return self.first[block];
        }
        0
    }

    /// Records that `block` is to be processed for the symbols from `first` on.
    ///
    /// # Errors
    ///
    /// Returns `AllocError` if memory runs out.
    fn note(&mut self, block: usize, first: usize) -> Result<(), AllocError>
        requires { block < vec_len self.old.sizes }
        ensures todo { vec_len self.new.todo ≤ vec_len self.old.todo + 1 }
        ensures sizes { vec_len self.new.sizes ≡ vec_len self.old.sizes }
    {
        self.first[block] = first;
        if self.pending[block] {
            return Ok(());
        }
        self.pending[block] = true;
        self.todo.push(block)?;
        Ok(())
    }

    /// Records that the hit states of `block` are now in the block `twin`. Returns the larger of
    /// the two blocks, followed by the smaller.
    fn divide(&mut self, block: usize, twin: usize) -> (usize, usize)
        requires block_in { block < vec_len self.old.sizes }
        requires twin_in { twin < vec_len self.old.sizes }
        ensures todo { vec_len self.new.todo ≡ vec_len self.old.todo }
        ensures sizes { vec_len self.new.sizes ≡ vec_len self.old.sizes }
        ensures larger { result.0 < vec_len self.old.sizes }
        ensures smaller { result.1 < vec_len self.old.sizes }
    {
        let hits = self.counts[block];
        let rest = self.sizes[block].saturating_sub(hits);
        self.counts[block] = 0;
        self.sizes[block] = rest;
        self.sizes[twin] = hits;
        if hits <= rest {
            (block, twin)
        } else {
            (twin, block)
        }
    }

    /// Returns the first symbol for which `block` is still to be processed, or `None` if there is
    /// no such symbol. `symbol` is the symbol for which the current block is being processed.
    fn symbol_left(&self, block: usize, symbol: usize) -> Option<usize>
        requires { block < vec_len self.now.sizes }
    {
        if self.pending[block] {
            return Some(self.first[block]);
        }
        if self.looked == Some(block) {
            return Some(symbol.saturating_add(1));
        }
        None
    }

    /// Records that the hit states of `block` are now in the block `twin`. The smaller of the two
    /// blocks is then to be processed for all symbols, and the larger for the symbols that were
    /// left for `block`. `symbol` is the symbol for which the current block is being processed.
    ///
    /// # Errors
    ///
    /// Returns `AllocError` if memory runs out.
    pub fn part(&mut self, block: usize, twin: usize, symbol: usize) -> Result<(), AllocError>
        requires block_in { block < vec_len self.old.sizes }
        requires twin_in { twin < vec_len self.old.sizes }
        ensures todo { vec_len self.new.todo ≤ vec_len self.old.todo + 2 }
        ensures sizes { vec_len self.new.sizes ≡ vec_len self.old.sizes }
    {
        let left = self.symbol_left(block, symbol);
        let (larger, smaller) = self.divide(block, twin);
        if let Some(first) = left {
            self.note(larger, first)?;
        }
        self.note(smaller, 0)
    }

    /// Sets the number of hit states of `block` to 0.
    pub fn forget(&mut self, block: usize)
        requires { block < vec_len self.old.sizes }
        ensures todo { vec_len self.new.todo ≡ vec_len self.old.todo }
        ensures sizes { vec_len self.new.sizes ≡ vec_len self.old.sizes }
    {
        self.counts[block] = 0;
    }

    /// Removes and returns the next block to process, or returns `None` if no block is left.
    pub fn next(&mut self) -> Option<usize>
        ensures some { OnSome result (vec_len self.new.todo + 1 ≡ vec_len self.old.todo) }
        ensures sizes { vec_len self.new.sizes ≡ vec_len self.old.sizes }
    {
        let block = self.todo.pop()?;
        self.begin(block);
        Some(block)
    }

    /// Records that `block` is being processed and is no longer pending.
    fn begin(&mut self, block: usize)
        ensures todo { vec_len self.new.todo ≡ vec_len self.old.todo }
        ensures sizes { vec_len self.new.sizes ≡ vec_len self.old.sizes }
    {
        self.looked = Some(block);
        if block < self.pending.len() {
            self.pending[block] = false;
        }
    }
}
