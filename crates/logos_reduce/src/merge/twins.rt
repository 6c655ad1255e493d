//! Cuts blocks into the states that are hit and the states that are not hit. A state is hit if it
//! leads into the block that is being processed, on the symbol for which the block is being
//! processed. `refine` calls `split_on` for each such block and symbol.

ghost use Rattle.std.specs.Prelude.{true, ◌≡◌, ◌≢◌, ℕ, ◌+◌, ◌-◌, ◌*◌, ◌<◌, ◌≤◌, OnOk, IfOk, length, vec_len, slice_index};
ghost use Rattle.logos_reduce.specs.Imports.{has_in, AreFiled, landing, HaveMoved};
ghost use Rattle.logos_reduce.specs.inside.Merge.{AreTwins, Continues};

use crate::lists::file;
use crate::merge::blocks::Split;
use crate::merge::hints::Hints;
use std::alloc::{AllocError, Global};

/// The block of each state, and the states of each block.
#[derive(Drop)]
pub struct Filing {
    /// For each state, its block.
    pub blocks: Vec<usize>,
    /// For each block, a list of its states. The list can also contain states that have left the
    /// block.
    pub lists: Vec<Vec<usize>>,
}

/// The cuts that have been made. Each cut divided a block into two blocks.
#[derive(Drop)]
pub struct Cuts {
    /// For each block, the block to which its hit states last moved, or 0 if no state has moved.
    pub twins: Vec<usize>,
    /// For each block, the split that separated it from a block with a lower number.
    pub splits: Vec<Split>,
    pub hints: Hints,
}

/// Counts the hit states of each block. Returns the block of each state in `hits`, the list of all
/// hit states.
fn homes_of(
    alloc: Global,
    hints: &mut Hints,
    blocks: &Vec<usize>,
    hits: &Vec<usize>,
) -> Result<Vec<usize>, AllocError>
    requires hits_in { (i : ℕ) → i < vec_len hits.now →
        slice_index hits.now.items i < vec_len blocks.now }
    requires within { (s : ℕ) → s < vec_len blocks.now →
        slice_index blocks.now.items s < vec_len hints.old.sizes }
    ensures todo { vec_len hints.new.todo ≡ vec_len hints.old.todo }
    ensures sizes { vec_len hints.new.sizes ≡ vec_len hints.old.sizes }
    ensures homes { IfOk result (λ h.
        (vec_len h ≡ vec_len hits.now) × ((i : ℕ) → i < vec_len hits.now →
        slice_index h.items i ≡ slice_index blocks.now.items (slice_index hits.now.items i))) }
{
    let mut homes = Vec::new(alloc);
    for s in hits {
        let home = blocks[*s];
        hints.count_hit(home);
        homes.push(home)?;
    }
    Ok(homes)
}

/// Adds a new block for the hit states of `block`. Does nothing if all or none of the states of
/// `block` are hit on `symbol`, or if this cut has already added the new block. The new blocks of
/// this cut have numbers from `fresh` on.
fn add_twin(cuts: &mut Cuts, fresh: usize, block: usize, symbol: usize) -> Result<(), AllocError>
    requires room { vec_len cuts.old.twins ≡ vec_len cuts.old.hints.sizes }
    requires fits { vec_len cuts.old.splits ≤ vec_len cuts.old.twins }
    requires older { fresh ≤ vec_len cuts.old.splits }
    requires block_in { block < fresh }
    requires below { (c : ℕ) → slice_index cuts.old.twins.items c < vec_len cuts.old.splits }
    requires twins { AreTwins fresh symbol cuts.old.twins.items cuts.old.splits.items }
    ensures len { vec_len cuts.new.twins ≡ vec_len cuts.old.twins }
    ensures sizes { vec_len cuts.new.hints.sizes ≡ vec_len cuts.old.hints.sizes }
    ensures fits { OnOk result (vec_len cuts.new.splits ≤ vec_len cuts.old.twins) }
    ensures todo { OnOk result (vec_len cuts.new.hints.todo + 2 * vec_len cuts.old.splits
        ≤ vec_len cuts.old.hints.todo + 2 * vec_len cuts.new.splits) }
    ensures below { OnOk result ((c : ℕ) →
        slice_index cuts.new.twins.items c < vec_len cuts.new.splits) }
    ensures twins { OnOk result (AreTwins fresh symbol cuts.new.twins.items cuts.new.splits.items) }
    ensures continues { OnOk result (Continues cuts.old.splits.items cuts.new.splits.items) }
{
    let twin = cuts.splits.len();
    if twin < cuts.twins.len() && cuts.twins[block] < fresh && cuts.hints.is_cut(block) {
        cuts.hints.part(block, twin, symbol)?;
        cuts.splits.push(Split {
            parent: block,
            symbol: Some(symbol),
        })?;
        cuts.twins[block] = twin;
    }
    Ok(())
}

/// Adds a new block for each block in `homes` that contains both states that are hit on `symbol`
/// and states that are not.
fn add_twins(cuts: &mut Cuts, homes: &Vec<usize>, symbol: usize) -> Result<(), AllocError>
    requires room { vec_len cuts.old.twins ≡ vec_len cuts.old.hints.sizes }
    requires fits { vec_len cuts.old.splits ≤ vec_len cuts.old.twins }
    requires homes_in { (i : ℕ) → i < vec_len homes.now →
        slice_index homes.now.items i < vec_len cuts.old.splits }
    requires below { (c : ℕ) → slice_index cuts.old.twins.items c < vec_len cuts.old.splits }
    ensures len { vec_len cuts.new.twins ≡ vec_len cuts.old.twins }
    ensures sizes { vec_len cuts.new.hints.sizes ≡ vec_len cuts.old.hints.sizes }
    ensures fits { OnOk result (vec_len cuts.new.splits ≤ vec_len cuts.old.twins) }
    ensures todo { OnOk result (vec_len cuts.new.hints.todo + 2 * vec_len cuts.old.splits
        ≤ vec_len cuts.old.hints.todo + 2 * vec_len cuts.new.splits) }
    ensures below { OnOk result ((c : ℕ) →
        slice_index cuts.new.twins.items c < vec_len cuts.new.splits) }
    ensures twins { OnOk result
        (AreTwins (vec_len cuts.old.splits) symbol cuts.new.twins.items cuts.new.splits.items) }
    ensures continues { OnOk result (Continues cuts.old.splits.items cuts.new.splits.items) }
{
    let fresh = cuts.splits.len();
    for home in homes {
        add_twin(cuts, fresh, *home, symbol)?;
    }
    Ok(())
}

/// Sets the number of hit states of each block in `homes` to 0.
fn forget_all(hints: &mut Hints, homes: &Vec<usize>)
    requires { (i : ℕ) → i < vec_len homes.now →
        slice_index homes.now.items i < vec_len hints.old.sizes }
    ensures todo { vec_len hints.new.todo ≡ vec_len hints.old.todo }
    ensures sizes { vec_len hints.new.sizes ≡ vec_len hints.old.sizes }
{
    for home in homes {
        hints.forget(*home);
    }
}

/// Moves the state `s` to `block`.
fn move_to(filing: &mut Filing, s: usize, block: usize) -> Result<(), AllocError>
    requires s_in { s < vec_len filing.old.blocks }
    requires block_in { block < vec_len filing.old.lists }
    requires filed { AreFiled (vec_len filing.old.blocks)
        (slice_index filing.old.blocks.items) filing.old.lists.items }
    ensures len { vec_len filing.new.blocks ≡ vec_len filing.old.blocks }
    ensures lists_len { vec_len filing.new.lists ≡ vec_len filing.old.lists }
    ensures moved { OnOk result (slice_index filing.new.blocks.items s ≡ block) }
    ensures others { (t : ℕ) → t ≢ s →
        slice_index filing.new.blocks.items t ≡ slice_index filing.old.blocks.items t }
    ensures filed { OnOk result (AreFiled (vec_len filing.old.blocks)
        (slice_index filing.new.blocks.items) filing.new.lists.items) }
{
    file(&mut filing.lists, block, s)?;
    filing.blocks[s] = block;
    Ok(())
}

/// Moves the hit state `s` to the new block that was split off the block of `s`. Does nothing if
/// there is no such new block. The new blocks have numbers from `fresh` on.
fn move_hit(
    filing: &mut Filing,
    twins: &Vec<usize>,
    fresh: usize,
    s: usize,
) -> Result<(), AllocError>
    requires s_in { s < vec_len filing.old.blocks }
    requires room { fresh ≤ vec_len twins.now }
    requires twins_in { (c : ℕ) → slice_index twins.now.items c < vec_len filing.old.lists }
    requires filed { AreFiled (vec_len filing.old.blocks)
        (slice_index filing.old.blocks.items) filing.old.lists.items }
    ensures len { vec_len filing.new.blocks ≡ vec_len filing.old.blocks }
    ensures lists_len { vec_len filing.new.lists ≡ vec_len filing.old.lists }
    ensures landed { OnOk result (slice_index filing.new.blocks.items s
        ≡ landing twins.now.items fresh (slice_index filing.old.blocks.items s)) }
    ensures others { (t : ℕ) → t ≢ s →
        slice_index filing.new.blocks.items t ≡ slice_index filing.old.blocks.items t }
    ensures filed { OnOk result (AreFiled (vec_len filing.old.blocks)
        (slice_index filing.new.blocks.items) filing.new.lists.items) }
{
    let home = filing.blocks[s];
    if fresh <= home {
        return Ok(());
    }
    let twin = twins[home];
    if twin < fresh {
        return Ok(());
    }
    move_to(filing, s, twin)
}

/// Moves each state in `hits`, the list of all hit states, to the new block that was split off the
/// block of the state. A state remains in its block if there is no such new block. The new blocks
/// have numbers from `fresh` on.
fn move_hits(
    filing: &mut Filing,
    twins: &Vec<usize>,
    fresh: usize,
    hits: &Vec<usize>,
) -> Result<(), AllocError>
    requires hits_in { (i : ℕ) → i < vec_len hits.now →
        slice_index hits.now.items i < vec_len filing.old.blocks }
    requires homes_in { (s : ℕ) → s < vec_len filing.old.blocks →
        slice_index filing.old.blocks.items s < fresh }
    requires room { fresh ≤ vec_len twins.now }
    requires twins_in { (c : ℕ) → slice_index twins.now.items c < vec_len filing.old.lists }
    requires filed { AreFiled (vec_len filing.old.blocks)
        (slice_index filing.old.blocks.items) filing.old.lists.items }
    ensures len { vec_len filing.new.blocks ≡ vec_len filing.old.blocks }
    ensures lists_len { vec_len filing.new.lists ≡ vec_len filing.old.lists }
    ensures moved { OnOk result (HaveMoved (vec_len filing.old.blocks)
        (vec_len hits.now) fresh filing.old.blocks.items filing.new.blocks.items
        twins.now.items hits.now.items filing.new.lists.items) }
{
    for s in hits {
        move_hit(filing, twins, fresh, *s)?;
    }
    Ok(())
}

/// A refinement in progress: the states of each block, and the cuts that made the blocks.
#[derive(Drop)]
pub struct Refinement {
    pub filing: Filing,
    pub cuts: Cuts,
    ghost within: { (s : ℕ) → s < vec_len filing.blocks →
        slice_index filing.blocks.items s < vec_len cuts.splits },
    ghost below: { (c : ℕ) → slice_index cuts.twins.items c < vec_len cuts.splits },
    ghost room: { vec_len cuts.splits ≤ vec_len filing.lists },
    ghost twins_len: { vec_len cuts.twins ≡ vec_len filing.lists },
    ghost hints_len: { vec_len cuts.hints.sizes ≡ vec_len filing.lists },
    ghost filed: { AreFiled (vec_len filing.blocks) (slice_index filing.blocks.items)
        filing.lists.items },
}

/// Cuts each block into its states in `hits` and its other states. `hits` contains the states that
/// lead into one block on `symbol`.
///
/// # Errors
///
/// Returns `AllocError` if memory runs out.
pub fn split_on(
    alloc: Global,
    parts: Refinement,
    hits: &Vec<usize>,
    symbol: usize,
) -> Result<Refinement, AllocError>
    requires hits_in { (i : ℕ) → i < vec_len hits.now →
        slice_index hits.now.items i < vec_len parts.filing.blocks }
    ensures len { IfOk result (λ w. vec_len w.filing.blocks ≡ vec_len parts.filing.blocks) }
    ensures lists_len { IfOk result (λ w. vec_len w.filing.lists ≡ vec_len parts.filing.lists) }
    ensures moved { IfOk result (λ w.
        HaveMoved (vec_len parts.filing.blocks) (vec_len hits.now)
        (vec_len parts.cuts.splits) parts.filing.blocks.items w.filing.blocks.items
        w.cuts.twins.items hits.now.items w.filing.lists.items) }
    ensures twins { IfOk result (λ w.
        AreTwins (vec_len parts.cuts.splits) symbol w.cuts.twins.items w.cuts.splits.items) }
    ensures continues { IfOk result (λ w. Continues parts.cuts.splits.items w.cuts.splits.items) }
    ensures falls { IfOk result (λ w.
        2 * (vec_len w.filing.lists - vec_len w.cuts.splits) + vec_len w.cuts.hints.todo
        ≤ 2 * (vec_len parts.filing.lists - vec_len parts.cuts.splits)
        + vec_len parts.cuts.hints.todo) }
{
    let Refinement {
        mut filing,
        mut cuts,
    } = parts;
    let fresh = cuts.splits.len();
    let homes = homes_of(alloc, &mut cuts.hints, &filing.blocks, hits)?;
    add_twins(&mut cuts, &homes, symbol)?;
    forget_all(&mut cuts.hints, &homes);
    move_hits(&mut filing, &cuts.twins, fresh, hits)?;
    Ok(Refinement { filing, cuts })
}
