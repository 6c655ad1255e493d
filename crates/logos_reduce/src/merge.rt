//! Merges equivalent states, which no sequence of symbols distinguishes. `reduce` calls `merge` as
//! its third step, after `prune`.

ghost use Rattle.std.specs.Prelude.{◌≡◌, ◌≢◌, ℕ, ◌+◌, ◌<◌, ◌≤◌, Some, IfOk, MatchOption, length, vec_len, slice_index, option_map};
ghost use Rattle.logos_reduce.specs.Views.{target_by, target_block, IsSound, AreLeaders, IsMerged, IsFiner, IsExtension, IsLanding, size, to};

pub mod blocks;
mod classes;
mod hints;
pub(crate) mod refine;
mod symbols;
mod twins;

use crate::lists::looked_up;
use crate::merge::blocks::{Blocks, Split, by_marks, leaders_of};
use crate::merge::classes::{class_table, classes_of};
use crate::merge::refine::{block_of, refine};
use crate::rows::{Row, WIDTH, same_until, target_at};
use crate::table::Table;
use std::alloc::{AllocError, Global};

/// Returns the first symbol on which two rows lead to different blocks, or `None` if there is no
/// such symbol. A missing target counts as a block of its own. `blocks` contains the block of each
/// state.
fn first_difference(row: &Row, other: &Row, blocks: &Vec<usize>) -> Option<usize>
    requires row { (k t : ℕ) → target_by row.now k ≡ Some t → t < vec_len blocks.now }
    requires other { (k t : ℕ) → target_by other.now k ≡ Some t → t < vec_len blocks.now }
    ensures { MatchOption result
        ((k : ℕ) → option_map (slice_index blocks.now.items) (target_by row.now k)
        ≡ option_map (slice_index blocks.now.items) (target_by other.now k))
        (λ k. (k < WIDTH)
        × (option_map (slice_index blocks.now.items) (target_by row.now k)
        ≢ option_map (slice_index blocks.now.items) (target_by other.now k))) }
{
    let mut k = same_until(row, other, 0);
    while k < WIDTH {
        if block_of(target_at(row, k), blocks) != block_of(target_at(other, k), blocks) {
            return Some(k);
        }
        k = same_until(row, other, k + 1);
    }
    None
}

/// A state, the leader of its block, and a symbol on which the state and the leader lead to
/// different blocks.
#[derive(Clone, Copy, Drop)]
struct Difference {
    leader: usize,
    state: usize,
    symbol: usize,
}

/// Compares each state with the leader of its block. Returns a state, the leader, and a symbol on
/// which the state and the leader lead to different blocks, or `None` if there is no such state.
fn find_difference(table: &Table, blocks: &Vec<usize>, leaders: &Vec<usize>) -> Option<Difference>
    requires len { vec_len blocks.now ≡ size table.now }
    requires within { (s : ℕ) → s < size table.now →
        slice_index blocks.now.items s < vec_len leaders.now }
    requires leaders { AreLeaders (size table.now) (slice_index blocks.now.items)
        (slice_index leaders.now.items) }
    ensures { MatchOption result
        ((s k : ℕ) → s < size table.now →
        target_block table.now (slice_index blocks.now.items) s k
        ≡ target_block table.now (slice_index blocks.now.items)
        (slice_index leaders.now.items (slice_index blocks.now.items s)) k)
        (λ d. (d.state < size table.now) × (d.symbol < WIDTH)
        × (d.leader ≡ slice_index leaders.now.items (slice_index blocks.now.items d.state))
        × (target_block table.now (slice_index blocks.now.items) d.state d.symbol
        ≢ target_block table.now (slice_index blocks.now.items) d.leader d.symbol)) }
{
    for s in 0..table.len() {
        let leader = leaders[blocks[s]];
        if let Some(symbol) = first_difference(table.row(s), table.row(leader), blocks) {
            return Some(Difference {
                leader,
                state: s,
                symbol,
            });
        }
    }
    None
}

/// A cut of a block. The states of the block that lead to the block `to` on `symbol`, or to no
/// block if `to` is `None`, move to a new block.
#[derive(Clone, Copy, Drop)]
struct Cut {
    /// The block that is cut.
    home: usize,
    symbol: usize,
    /// The block to which the moved states lead on `symbol`, or `None` if the moved states have no
    /// target on `symbol`.
    to: Option<usize>,
    /// The number of the new block.
    fresh: usize,
}

/// Returns the block of the state `t` after `cut`.
fn part_of(table: &Table, blocks: &Vec<usize>, t: usize, cut: Cut) -> usize
    requires len { vec_len blocks.now ≡ size table.now }
    requires t_in { t < size table.now }
    requires symbol_in { cut.symbol < WIDTH }
    ensures { IsLanding cut.home cut.to cut.fresh (slice_index blocks.now.items t)
        (target_block table.now (slice_index blocks.now.items) t cut.symbol) result }
{
    let block = blocks[t];
    if block == cut.home {
        if block_of(table.target(t, cut.symbol), blocks) == cut.to {
            return cut.fresh;
        }
    }
    block
}

/// Returns the block of each state after `cut`.
fn parts(
    alloc: Global,
    table: &Table,
    blocks: &Vec<usize>,
    cut: Cut,
) -> Result<Vec<usize>, AllocError>
    requires len { vec_len blocks.now ≡ size table.now }
    requires symbol_in { cut.symbol < WIDTH }
    ensures len { IfOk result (λ v. vec_len v ≡ size table.now) }
    ensures parts { IfOk result (λ v. (t : ℕ) → t < size table.now →
        IsLanding cut.home cut.to cut.fresh (slice_index blocks.now.items t)
        (target_block table.now (slice_index blocks.now.items) t cut.symbol)
        (slice_index v.items t)) }
{
    let mut parts = Vec::new(alloc);
    for t in 0..table.len() {
        parts.push(part_of(table, blocks, t, cut))?;
    }
    Ok(parts)
}

/// Moves the state of `found` to a new block, together with the states of its old block that lead
/// to the same block on the symbol of `found`.
fn split_off(
    alloc: Global,
    table: &Table,
    blocks: Blocks,
    found: Difference,
) -> Result<Blocks, AllocError>
    requires len { vec_len blocks.of ≡ size table.now }
    requires state_in { found.state < size table.now }
    requires leader_in { found.leader < size table.now }
    requires symbol_in { found.symbol < WIDTH }
    requires together { slice_index blocks.of.items found.leader
        ≡ slice_index blocks.of.items found.state }
    requires different { target_block table.now (slice_index blocks.of.items) found.state found.symbol
        ≢ target_block table.now (slice_index blocks.of.items) found.leader found.symbol }
    ensures len { IfOk result (λ b. vec_len b.of ≡ size table.now) }
    ensures extension { IfOk result (λ b. IsExtension table.now blocks.splits.items b.splits.items
        (slice_index blocks.of.items) (slice_index b.of.items)) }
    ensures parted { IfOk result (λ b.
        slice_index b.of.items found.state ≢ slice_index b.of.items found.leader) }
{
    let Blocks { of, mut splits } = blocks;
    let home = of[found.state];
    let cut = Cut {
        home,
        symbol: found.symbol,
        to: block_of(table.target(found.state, found.symbol), &of),
        fresh: splits.len(),
    };
    let parts = parts(alloc, table, &of, cut)?;
    splits.push(Split {
        parent: home,
        symbol: Some(found.symbol),
    })?;
    Ok(Blocks { of: parts, splits })
}

/// The blocks of equivalent states, with a leader for each block.
#[derive(Drop)]
pub struct Partition {
    pub blocks: Blocks,
    /// For each block, one of its states.
    pub leaders: Vec<usize>,
}

/// Returns the blocks of equivalent states.
///
/// The states are first grouped into classes with equal marks and equal rows. If there are at most
/// half as many classes as states, rounded up, classes are merged instead of states.
///
/// # Errors
///
/// Returns `AllocError` if memory runs out.
pub fn merge(alloc: Global, table: &Table) -> Result<Partition, AllocError>
    ensures len { IfOk result (λ m. vec_len m.blocks.of ≡ size table.now) }
    ensures leaders_len { IfOk result (λ m. vec_len m.leaders ≡ vec_len m.blocks.splits) }
    ensures merged { IfOk result (λ m.
        IsMerged table.now m.blocks.splits.items (slice_index m.blocks.of.items)
        (slice_index m.leaders.items)) }
{
    let classes = classes_of(alloc, table)?;
    if table.len() - classes.count < table.len() / 2 {
        return merge_classes(alloc, table);
    }
    let small = class_table(alloc, table, &classes)?;
    let merged = merge_classes(alloc, &small)?;
    let of = looked_up(alloc, &merged.blocks.of, &classes.of)?;
    let leaders = leaders_of(alloc, &of, merged.blocks.splits.len())?;
    let Partition { blocks, leaders: _ } = merged;
    let Blocks { of: _, splits } = blocks;
    Ok(Partition {
        blocks: Blocks { of, splits },
        leaders,
    })
}

/// Returns the blocks of equivalent states, without grouping states into classes.
fn merge_classes(alloc: Global, table: &Table) -> Result<Partition, AllocError>
    ensures len { IfOk result (λ m. vec_len m.blocks.of ≡ size table.now) }
    ensures leaders_len { IfOk result (λ m. vec_len m.leaders ≡ vec_len m.blocks.splits) }
    ensures merged { IfOk result (λ m.
        IsMerged table.now m.blocks.splits.items (slice_index m.blocks.of.items)
        (slice_index m.leaders.items)) }
{
    let first = by_marks(alloc, table)?;
    let mut blocks = refine(alloc, table, first)?;
    loop {
        let leaders = leaders_of(alloc, &blocks.of, blocks.splits.len())?;
        match find_difference(table, &blocks.of, &leaders) {
            None => return Ok(Partition { blocks, leaders }),
            Some(found) => {
                let split = split_off(alloc, table, blocks, found)?;
                blocks = refine(alloc, table, split)?;
            }
        }
    }
}
