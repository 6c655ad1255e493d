//! Splits blocks by the blocks to which their states lead. `merge` calls `refine` with the blocks
//! of states with equal marks, and again after each split that `merge` makes itself.

ghost use Rattle.std.specs.Prelude.{true, ◌≡◌, ◌≢◌, ℕ, ◌+◌, ◌<◌, ◌≤◌, ◌↔◌, Some, OnSome, OnOk, IfOk, IsTrue, length, vec_len, slice_index, option_map};
ghost use Rattle.logos_reduce.specs.Views.{has, has_in, ArePredecessors, AreFiled, AreSources, AreHits, target_by, target_block, IsSound, IsFiner, size, to};
ghost use Rattle.logos_reduce.specs.inside.Refinements.{IsSoundRefinement, IsFinerRefinement, steps_left};

use crate::lists::{add, empty_lists, file, predecessors};
use crate::merge::blocks::Blocks;
use crate::merge::hints::Hints;
use crate::merge::symbols::{Symbols, symbols_of};
use crate::merge::twins::{Cuts, Filing, Refinement, split_on};
use crate::rows::WIDTH;
use crate::table::Table;
use std::alloc::{AllocError, Global};

/// Returns the block of `target`, or `None` if there is no target. `blocks` is the block of each
/// state.
pub fn block_of(target: Option<usize>, blocks: &Vec<usize>) -> Option<usize>
    requires { (t : ℕ) → target ≡ Some t → t < vec_len blocks.now }
    ensures { result ≡ option_map (slice_index blocks.now.items) target }
{
    Some(blocks[target?])
}

/// Appends the numbers of the list at the index `t` of `lists` to `sources`.
fn add_all(sources: &mut Vec<usize>, lists: &Vec<Vec<usize>>, t: usize) -> Result<(), AllocError>
    requires { t < vec_len lists.now }
    ensures stays { (s : ℕ) → has sources.old.items s ≡ true → has sources.new.items s ≡ true }
    ensures added { OnOk result ((s : ℕ) → has_in lists.now.items t s ≡ true →
        has sources.new.items s ≡ true) }
{
    sources.extend_from_slice(&lists[t])?;
    Ok(())
}

/// Returns a list that contains all states with an edge into the block `b`. The list can contain
/// duplicates and other states. `from` contains the predecessors of each state.
fn all_sources(
    alloc: Global,
    parts: &Refinement,
    from: &Vec<Vec<usize>>,
    b: usize,
) -> Result<Vec<usize>, AllocError>
    requires b_in { b < vec_len parts.now.cuts.splits }
    requires len { vec_len from.now ≡ vec_len parts.now.filing.blocks }
    ensures { IfOk result (λ v. (t s : ℕ) → t < vec_len parts.now.filing.blocks →
        slice_index parts.now.filing.blocks.items t ≡ b →
        has_in from.now.items t s ≡ true → has v.items s ≡ true) }
{
    let mut sources = Vec::new(alloc);
    for t in &parts.filing.lists[b] {
        if *t < parts.filing.blocks.len() && parts.filing.blocks[*t] == b {
            add_all(&mut sources, from, *t)?;
        }
    }
    Ok(sources)
}

/// Returns `list` without consecutive repeated numbers.
fn without_repeats(alloc: Global, list: &Vec<usize>) -> Result<Vec<usize>, AllocError>
    ensures { IfOk result (λ v. (s : ℕ) → has list.now.items s ≡ true → has v.items s ≡ true) }
{
    let mut once = Vec::new(alloc);
    for s in list {
        add(&mut once, *s)?;
    }
    Ok(once)
}

/// Returns a list that contains all states with an edge into the block `b`, in ascending order and
/// without duplicates. The list can contain other states. `from` contains the predecessors of each
/// state.
fn sources_of(
    alloc: Global,
    parts: &Refinement,
    from: &Vec<Vec<usize>>,
    b: usize,
) -> Result<Vec<usize>, AllocError>
    requires b_in { b < vec_len parts.now.cuts.splits }
    requires len { vec_len from.now ≡ vec_len parts.now.filing.blocks }
    ensures { IfOk result (λ v. (t s : ℕ) → t < vec_len parts.now.filing.blocks →
        slice_index parts.now.filing.blocks.items t ≡ b →
        has_in from.now.items t s ≡ true → has v.items s ≡ true) }
{
    let mut all = all_sources(alloc, parts, from, b)?;
    all.sort_unstable();
    let once = without_repeats(alloc, &all)?;
    Ok(once)
}

/// Returns whether the state `s` leads into the block `b` on the symbol `k`, or `false` if there is
/// no such state.
fn leads_into(table: &Table, blocks: &Vec<usize>, s: usize, b: usize, k: usize) -> bool
    requires len { vec_len blocks.now ≡ size table.now }
    requires k_in { k < WIDTH }
    ensures { IsTrue result ↔ ((s < size table.now)
        × (target_block table.now (slice_index blocks.now.items) s k ≡ Some b)) }
{
    s < table.len() && block_of(table.target(s, k), blocks) == Some(b)
}

/// A block by which other blocks are split. The sources of the block include all states with an
/// edge into the block, and its symbols are the symbols of these edges.
#[derive(Drop)]
struct Splitter {
    block: usize,
    /// The first symbol for which the block is processed.
    first: usize,
    sources: Vec<usize>,
    used: Symbols,
}

/// Returns the sources of `by` that lead into the block of `by` on the symbol `k`.
fn hits_of(
    alloc: Global,
    table: &Table,
    blocks: &Vec<usize>,
    by: &Splitter,
    k: usize,
) -> Result<Vec<usize>, AllocError>
    requires len { vec_len blocks.now ≡ size table.now }
    requires k_in { k < WIDTH }
    ensures hits { IfOk result (λ v.
        AreHits (size table.now) (target_block table.now (slice_index blocks.now.items))
        by.now.sources.items v.items by.now.block k) }
{
    let mut hits = Vec::new(alloc);
    for s in &by.sources {
        if leads_into(table, blocks, *s, by.block, k) {
            hits.push(*s)?;
        }
    }
    Ok(hits)
}

/// Splits each block by whether its states lead into the block of `by` on the symbol `k`. Splits
/// nothing if `k` is not among the symbols of `by`.
fn split_by_symbol(
    alloc: Global,
    table: &Table,
    parts: Refinement,
    by: &Splitter,
    k: usize,
) -> Result<Refinement, AllocError>
    requires k_in { k < WIDTH }
    requires len { vec_len parts.filing.blocks ≡ size table.now }
    requires block_in { by.now.block < vec_len parts.cuts.splits }
    requires sources { AreSources (size table.now)
        (target_block table.now (slice_index parts.filing.blocks.items))
        by.now.sources.items by.now.block }
    requires sound { IsSoundRefinement table.now parts }
    ensures len { IfOk result (λ w. vec_len w.filing.blocks ≡ vec_len parts.filing.blocks) }
    ensures lists_len { IfOk result (λ w. vec_len w.filing.lists ≡ vec_len parts.filing.lists) }
    ensures sound { IfOk result (λ w. IsSoundRefinement table.now w) }
    ensures finer { IfOk result (λ w. IsFinerRefinement table.now w parts) }
    ensures falls { IfOk result (λ w. steps_left w ≤ steps_left parts) }
    ensures block_in { IfOk result (λ w. by.now.block < vec_len w.cuts.splits) }
    ensures sources { IfOk result
        (λ w. AreSources (size table.now)
        (target_block table.now (slice_index w.filing.blocks.items))
        by.now.sources.items by.now.block) }
{
    if !by.used.has(k) {
        return Ok(parts);
    }
    let hits = hits_of(alloc, table, &parts.filing.blocks, by, k)?;
    if hits.is_empty() {
        return Ok(parts);
    }
    let split = split_on(alloc, parts, &hits, k)?;
    Ok(split)
}

/// Returns the symbols on which a state leads into the block `b`. `symbols` contains, for each
/// state, the symbols on which a state leads to it.
fn symbols_into(parts: &Refinement, symbols: &Vec<Symbols>, b: usize) -> Symbols
    requires { b < vec_len parts.now.cuts.splits }
{
    let mut used = Symbols::new();
    for t in &parts.filing.lists[b] {
        if *t < symbols.len() && *t < parts.filing.blocks.len() && parts.filing.blocks[*t] == b {
            used.add_all(&symbols[*t]);
        }
    }
    used
}

/// Splits each block by whether its states lead into the block of `by`, symbol by symbol. Stops
/// early if the block of `by` is split itself, because both resulting blocks are then still to be
/// processed.
fn split_by_block(
    alloc: Global,
    table: &Table,
    parts: Refinement,
    by: &Splitter,
) -> Result<Refinement, AllocError>
    requires len { vec_len parts.filing.blocks ≡ size table.now }
    requires block_in { by.now.block < vec_len parts.cuts.splits }
    requires sources { AreSources (size table.now)
        (target_block table.now (slice_index parts.filing.blocks.items))
        by.now.sources.items by.now.block }
    requires sound { IsSoundRefinement table.now parts }
    ensures len { IfOk result (λ w. vec_len w.filing.blocks ≡ vec_len parts.filing.blocks) }
    ensures lists_len { IfOk result (λ w. vec_len w.filing.lists ≡ vec_len parts.filing.lists) }
    ensures sound { IfOk result (λ w. IsSoundRefinement table.now w) }
    ensures finer { IfOk result (λ w. IsFinerRefinement table.now w parts) }
    ensures falls { IfOk result (λ w. steps_left w ≤ steps_left parts) }
{
    let mut split = parts;
    let mut k = by.first;
    while k < WIDTH {
        split = split_by_symbol(alloc, table, split, by, k)?;
        if split.cuts.hints.is_pending(by.block) {
            return Ok(split);
        }
        k = by.used.after(k);
    }
    Ok(split)
}

impl Refinement {
    /// Removes and returns the next block to process, or returns `None` if no block is left.
    fn next(&mut self) -> Option<usize>
        ensures some { OnSome result (vec_len self.new.cuts.hints.todo + 1
            ≡ vec_len self.old.cuts.hints.todo) }
        ensures blocks { self.new.filing.blocks ≡ self.old.filing.blocks }
        ensures splits { self.new.cuts.splits ≡ self.old.cuts.splits }
        ensures lists { self.new.filing.lists ≡ self.old.filing.lists }
    {
        self.cuts.hints.next()
    }

    /// Returns the blocks with their splits, and drops the rest of the refinement.
    fn into_blocks(self) -> Blocks
        ensures of { result.of ≡ self.filing.blocks }
        ensures splits { result.splits ≡ self.cuts.splits }
    {
        let Refinement { filing, cuts } = self;
        let Filing { blocks, lists: _ } = filing;
        let Cuts {
            twins: _,
            splits,
            hints: _,
        } = cuts;
        Blocks { of: blocks, splits }
    }
}

/// Returns a vector of `room` lists that contains, for each block, the list of its states. `blocks`
/// is the block of each state.
fn filed_states(
    alloc: Global,
    blocks: &Vec<usize>,
    room: usize,
) -> Result<Vec<Vec<usize>>, AllocError>
    requires { (s : ℕ) → s < vec_len blocks.now → slice_index blocks.now.items s < room }
    ensures len { IfOk result (λ v. vec_len v ≡ room) }
    ensures filed { IfOk result (λ v.
        AreFiled (vec_len blocks.now) (slice_index blocks.now.items) v.items) }
{
    let mut lists = empty_lists(alloc, room)?;
    for s in 0..blocks.len() {
        file(&mut lists, blocks[s], s)?;
    }
    Ok(lists)
}

/// Returns a refinement of `blocks` in which each block is still to be processed. `room` is the
/// maximum number of blocks.
fn start(alloc: Global, blocks: Blocks, room: usize) -> Result<Refinement, AllocError>
    requires some { 0 < vec_len blocks.splits }
    requires room { vec_len blocks.splits ≤ room }
    ensures blocks { IfOk result (λ w. w.filing.blocks ≡ blocks.of) }
    ensures splits { IfOk result (λ w. w.cuts.splits ≡ blocks.splits) }
{
    let Blocks { of, splits } = blocks;
    let lists = filed_states(alloc, &of, room)?;
    let hints = Hints::new(alloc, &of, splits.len(), room)?;
    let twins = vec![in alloc; 0; room]?;
    Ok(Refinement {
        filing: Filing { blocks: of, lists },
        cuts: Cuts {
            twins,
            splits,
            hints,
        },
    })
}

/// The edges into each state.
#[derive(Drop)]
struct Edges {
    /// For each state, the states that lead to it.
    from: Vec<Vec<usize>>,
    /// For each state, the symbols on which a state leads to it.
    symbols: Vec<Symbols>,
}

/// Splits each block by whether its states lead into the block `b`. Splits nothing if there is no
/// such block.
fn look_at(
    alloc: Global,
    table: &Table,
    edges: &Edges,
    parts: Refinement,
    b: usize,
) -> Result<Refinement, AllocError>
    requires len { vec_len parts.filing.blocks ≡ size table.now }
    requires from_len { vec_len edges.now.from ≡ size table.now }
    requires from { ArePredecessors (size table.now) WIDTH (to table.now) edges.now.from.items }
    requires sound { IsSoundRefinement table.now parts }
    ensures len { IfOk result (λ w. vec_len w.filing.blocks ≡ size table.now) }
    ensures sound { IfOk result (λ w. IsSoundRefinement table.now w) }
    ensures finer { IfOk result (λ w. IsFinerRefinement table.now w parts) }
    ensures falls { IfOk result (λ w. steps_left w ≤ steps_left parts) }
{
    if parts.cuts.splits.len() <= b {
        return Ok(parts);
    }
    let sources = sources_of(alloc, &parts, &edges.from, b)?;
    let used = symbols_into(&parts, &edges.symbols, b);
    let by = Splitter {
        block: b,
        first: parts.cuts.hints.first_symbol(b),
        sources,
        used,
    };
    split_by_block(alloc, table, parts, &by)
}

/// Splits the blocks by each block that is still to be processed, until there is no such block.
fn look_at_all(
    alloc: Global,
    table: &Table,
    edges: &Edges,
    parts: Refinement,
) -> Result<Refinement, AllocError>
    requires len { vec_len parts.filing.blocks ≡ size table.now }
    requires from_len { vec_len edges.now.from ≡ size table.now }
    requires from { ArePredecessors (size table.now) WIDTH (to table.now) edges.now.from.items }
    requires sound { IsSoundRefinement table.now parts }
    ensures len { IfOk result (λ w. vec_len w.filing.blocks ≡ size table.now) }
    ensures sound { IfOk result (λ w. IsSoundRefinement table.now w) }
    ensures finer { IfOk result (λ w. IsFinerRefinement table.now w parts) }
{
    let mut split = parts;
    while let Some(b) = split.next() {
        split = look_at(alloc, table, edges, split, b)?;
    }
    Ok(split)
}

/// Splits the blocks by the blocks to which their states lead, until no block is left to process.
///
/// # Errors
///
/// Returns `AllocError` if memory runs out.
pub fn refine(alloc: Global, table: &Table, blocks: Blocks) -> Result<Blocks, AllocError>
    requires len { vec_len blocks.of ≡ size table.now }
    requires sound { IsSound table.now blocks.splits.items (slice_index blocks.of.items) }
    ensures len { IfOk result (λ r. vec_len r.of ≡ size table.now) }
    ensures sound { IfOk result (λ r. IsSound table.now r.splits.items (slice_index r.of.items)) }
    ensures finer { IfOk result (λ r.
        IsFiner (size table.now) (slice_index r.of.items) (slice_index blocks.of.items)) }
{
    if blocks.splits.is_empty() {
        return Ok(blocks);
    }
    let edges = Edges {
        from: predecessors(alloc, table, WIDTH)?,
        symbols: symbols_of(alloc, table)?,
    };
    let room = blocks.splits.len().max(table.len());
    let parts = start(alloc, blocks, room)?;
    let split = look_at_all(alloc, table, &edges, parts)?;
    Ok(split.into_blocks())
}
