//! Computes the steps of one tree for each byte. `cache` calls `steps_of` for each state of a tree
//! whose steps are not cached.

ghost use Rattle.std.specs.Prelude.{◌≡◌, ◌+◌, ◌-◌, ◌<◌, ◌≤◌, ℕ, false, IsTrue, IfOk, IfSome, OnOk, length, vec_len, slice_get, slice_index, slice_index_or};
ghost use Rattle.logos_automaton.specs.Views.{AreChangesOf, AreFirstOf, IsPrepared, tree_view, view_of, viewed, AreStepsFrom, IsTreeState, MakesFrom};

use crate::boundaries::mark_tree;
use crate::byte_equivalence::{first_by_kind, note};
use crate::tree_steps::{TreeState, TreeSteps};
use crate::trees::Trees;
use logos_positions::positions::look::Context;
use logos_positions::positions::step::ReadByte;
use logos_positions::positions::tree::{TreeStep, step_tree};
use std::alloc::{AllocError, Global};

/// Returns whether two steps are equal.
fn is_same(one: &TreeStep, other: &TreeStep) -> bool
    ensures { IsTrue result → view_of one.now ≡ view_of other.now }
{
    one.left == other.left && one.positions == other.positions
}

/// Returns the index of the first step in `found` that is equal to `step`, or the length of `found`
/// if there is no such step.
fn position_of(found: &[TreeStep], step: &TreeStep) -> usize
    ensures within { result ≤ length found.now }
    ensures same { result < length found.now →
        viewed (slice_get found.now result) ≡ view_of step.now }
{
    let mut i = 0;
    while i < found.len() {
        if is_same(&found[i], step) {
            return i;
        }
        i += 1;
    }
    i
}

/// Returns the index of `step` in `found`. Appends the step to `found` if it is new.
///
/// # Errors
///
/// Returns `AllocError` if memory runs out.
fn add_step(found: &mut Vec<TreeStep>, step: TreeStep) -> Result<usize, AllocError>
    ensures stored { IfOk result (λ i. viewed (slice_get found.new.items i) ≡ view_of step) }
    ensures within { IfOk result (λ i. i < vec_len found.new) }
    ensures keeps { OnOk result ((i : ℕ) → i < vec_len found.old →
        slice_get found.new.items i ≡ slice_get found.old.items i) }
    ensures longer { OnOk result (vec_len found.old ≤ vec_len found.new) }
    ensures few { OnOk result (vec_len found.new ≤ vec_len found.old + 1) }
{
    let i = position_of(found, &step);
    if i == found.len() {
        found.push(step)?;
    }
    Ok(i)
}

/// Returns the step for `byte` from `state`, a state of a tree.
///
/// # Errors
///
/// Returns `AllocError` if memory runs out.
fn step_by(trees: &Trees<'_>, state: &TreeState, byte: u8) -> Result<TreeStep, AllocError>
    requires prepared { IsPrepared trees.now }
    requires state { IsTreeState trees.now.nodes.now trees.now.starts.now (tree_view state.now) }
    ensures { IfOk result (λ made.
        MakesFrom trees.now.nodes.now trees.now.starts.now (tree_view state.now) byte
        (view_of made)) }
{
    let at = Context {
        before: state.kind,
        after: Some(byte),
    };
    let by = ReadByte {
        byte,
        marks: &state.positions,
        at,
    };
    step_tree(
        trees.alloc,
        &trees.nodes[state.tree],
        by,
        trees.starts[state.tree],
    )
}

/// Returns the index in `known` if there is one. Otherwise computes the step for `byte`, appends
/// the step to `found` if it is new, and returns its index in `found`.
///
/// # Errors
///
/// Returns `AllocError` if memory runs out.
fn index_by(
    trees: &Trees<'_>,
    state: &TreeState,
    byte: u8,
    found: &mut Vec<TreeStep>,
    known: Option<u8>,
) -> Result<u8, AllocError>
    requires prepared { IsPrepared trees.now }
    requires state { IsTreeState trees.now.nodes.now trees.now.starts.now (tree_view state.now) }
    requires few { vec_len found.old ≤ byte }
    requires known { IfSome known (λ i. i < vec_len found.old) }
    requires made { IfSome known (λ i. MakesFrom trees.now.nodes.now trees.now.starts.now
        (tree_view state.now) byte (viewed (slice_get found.old.items i))) }
    ensures within { IfOk result (λ i. i < vec_len found.new) }
    ensures made { IfOk result (λ i. MakesFrom trees.now.nodes.now trees.now.starts.now
        (tree_view state.now) byte (viewed (slice_get found.new.items i))) }
    ensures keeps { OnOk result ((i : ℕ) → i < vec_len found.old →
        slice_get found.new.items i ≡ slice_get found.old.items i) }
    ensures longer { OnOk result (vec_len found.old ≤ vec_len found.new) }
    ensures few { OnOk result (vec_len found.new ≤ vec_len found.old + 1) }
{
    if let Some(i) = known {
        return Ok(i);
    }
    let step = step_by(trees, state, byte)?;
    let i = add_step(found, step)?;
    Ok(i as u8)
}

/// Returns an array in which the flag of a byte is `true` if the tree of `state` or look-around
/// assertions can distinguish the byte from the next smaller byte.
fn first_in(trees: &Trees<'_>, state: &TreeState) -> [bool; 256]
    requires prepared { IsPrepared trees.now }
    requires state { IsTreeState trees.now.nodes.now trees.now.starts.now (tree_view state.now) }
    ensures { AreFirstOf trees.now.nodes.now trees.now.looks state.now.tree state.now.positions.items
        (slice_index trees.now.starts.now state.now.tree) result }
{
    let mut first = first_by_kind(trees.looks, trees.kinds);
    mark_tree(
        &trees.nodes[state.tree],
        &state.positions,
        trees.starts[state.tree],
        false,
        &mut first,
    );
    first
}

/// Returns the index of the step for `byte - 1`. Returns `None` if the flag of `byte` in `first` is
/// set or `byte` is 0.
fn index_before(first: &[bool; 256], by_byte: &[u8; 256], byte: usize) -> Option<u8>
    requires within { byte < 256 }
    ensures { IfSome result (λ i. (1 ≤ byte) × (slice_index_or first.now byte false ≡ false)
        × (i ≡ slice_index by_byte.now (byte - 1))) }
{
    if byte == 0 {
        return None;
    }
    if first[byte] {
        return None;
    }
    Some(by_byte[byte - 1])
}

/// Returns the bytes whose entry in `by_byte` differs from the entry of the next smaller byte, in
/// ascending order.
///
/// # Errors
///
/// Returns `AllocError` if memory runs out.
fn changes_of(alloc: Global, by_byte: &[u8; 256]) -> Result<Vec<u8>, AllocError>
    ensures { IfOk result (λ changes. AreChangesOf by_byte.now changes.items) }
{
    let mut changes = Vec::new(alloc);
    for byte in 1..256usize {
        let is_change = by_byte[byte - 1] != by_byte[byte];
        note(&mut changes, byte as u8, is_change)?;
    }
    Ok(changes)
}

/// Returns the steps for all bytes from `state`, a state of a tree.
///
/// # Errors
///
/// Returns `AllocError` if memory runs out.
pub fn steps_of(trees: &Trees<'_>, state: &TreeState) -> Result<TreeSteps, AllocError>
    requires prepared { IsPrepared trees.now }
    requires state { IsTreeState trees.now.nodes.now trees.now.starts.now (tree_view state.now) }
    ensures { IfOk result (λ steps. AreStepsFrom trees.now.nodes.now trees.now.starts.now
        (tree_view state.now) steps.found.items steps.by_byte 256) }
{
    let first = first_in(trees, state);
    let mut found = Vec::new(trees.alloc);
    let mut by_byte = [0; 256];
    for byte in 0..256usize {
        let known = index_before(&first, &by_byte, byte);
        by_byte[byte] = index_by(trees, state, byte as u8, &mut found, known)?;
    }
    let changes = changes_of(trees.alloc, &by_byte)?;
    Ok(TreeSteps {
        found,
        by_byte,
        changes,
    })
}
