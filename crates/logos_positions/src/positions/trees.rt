//! Makes steps on several trees with consecutively numbered positions. `logos_automaton` calls
//! `step_all` and `exits_all` for the key of each state.

ghost use Rattle.std.specs.Prelude.{◌≡◌, ◌∷◌, ◌++◌, ◌^◌, ◌<◌, ◌≤◌, ◌+◌, ◌-◌, ℕ, [], IsTrue, IsFalse, IfOk, OnOk, length, map, slice_index, if◌then◌else◌};
ghost use Rattle.logos_positions.specs.Views.{IsRising, Has, HasBetween, width_of, test_at, core_of, AreMeasured, ReadBy, LeftBy, AreStarts};

use crate::node::{Node, TreeSpot};
use crate::positions::exits::exits;
use crate::positions::look::Context;
use crate::positions::set::first_from;
use crate::positions::step::{ReadByte, step};
use std::alloc::{AllocError, Global};

/// Several trees with consecutively numbered positions.
#[derive(Clone, Copy)]
pub struct Forest<'n> {
    /// The trees.
    pub nodes: &'n [Node],
    /// The first position of each tree, and the position after the last tree.
    pub starts: &'n [usize],
}

/// The result of a step on several trees.
#[derive(Drop)]
pub struct JointStep {
    /// The positions that read the byte, in ascending order.
    pub positions: Vec<usize>,
    /// The numbers of the trees that can be left before the byte, in ascending order.
    pub left: Vec<usize>,
}

/// Returns the number of the tree to which `position` belongs. The search begins at the tree with
/// the number `from`. `starts` contains the first position of each tree, and the position after the
/// last tree.
fn tree_at(starts: &[usize], from: usize, position: usize) -> usize
    requires some { from + 1 < length starts.now }
    requires low { slice_index starts.now from ≤ position }
    requires high { position < slice_index starts.now (length starts.now - 1) }
    ensures after { from ≤ result }
    ensures bound { result + 1 < length starts.now }
    ensures begins { slice_index starts.now result ≤ position }
    ensures ends { position < slice_index starts.now (result + 1) }
{
    let mut low = from;
    let mut high = starts.len() - 1;
    while low + 1 < high {
        let mid = low + (high - low) / 2;
        if starts[mid] <= position {
            low = mid;
        } else {
            high = mid;
        }
    }
    low
}

/// Returns the number of the first tree, from the tree with the number `from` on, that is entered
/// or has a position in `marks`. Returns the number of trees if there is no such tree. `entered` is
/// `true` if all trees are entered, and `false` if none is.
pub fn next_tree(starts: &[usize], marks: &[usize], entered: bool, from: usize) -> usize
    requires rising { IsRising marks.now }
    requires within { from < length starts.now }
    ensures after { from ≤ result }
    ensures bound { result < length starts.now }
    ensures stays { IsTrue entered → result ≡ from }
    ensures unmarked { (q : ℕ) → slice_index starts.now from ≤ q →
        q < slice_index starts.now result → ¬ (Has marks.now q) }
    ensures marked { result + 1 < length starts.now → IsFalse entered →
        HasBetween marks.now (slice_index starts.now result) (slice_index starts.now (result + 1)) }
{
    let last = starts.len() - 1;
    if entered | (from == last) {
        return from;
    }
    let i = first_from(marks, starts[from]);
    if i == marks.len() {
        return last;
    }
    if starts[last] <= marks[i] {
        return last;
    }
    tree_at(starts, from, marks[i])
}

/// Appends `number` to `numbers` if `is_one` is `true`.
///
/// # Errors
///
/// Returns `AllocError` if memory runs out.
fn note(numbers: &mut Vec<usize>, number: usize, is_one: bool) -> Result<(), AllocError>
    ensures { OnOk result (numbers.new.items ≡
        (if is_one then numbers.old.items ++ number ∷ [] else numbers.old.items)) }
{
    if is_one {
        numbers.push(number)?;
    }
    Ok(())
}

/// Returns the result of a step on all trees of `forest`. `entered` is `true` if all trees are
/// entered, and `false` if none is.
///
/// # Errors
///
/// Returns `AllocError` if memory runs out.
pub fn step_all(
    alloc: Global,
    forest: Forest<'_>,
    by: ReadByte<'_>,
    entered: bool,
) -> Result<JointStep, AllocError>
    requires fits { width_of (map core_of forest.nodes.now) < 2 ^ 64 }
    requires measured { AreMeasured forest.nodes.now }
    requires starts { AreStarts forest.nodes.now forest.starts.now }
    requires rising { IsRising by.marks.now }
    ensures positions { IfOk result (λ step.
        ReadBy (map core_of forest.entry.nodes.now) (test_at by.entry.at) by.entry.byte
        (Has by.entry.marks.now) (IsTrue entered) step.positions.items) }
    ensures left { IfOk result (λ step.
        LeftBy (map core_of forest.entry.nodes.now) (test_at by.entry.at) (Has by.entry.marks.now)
        (IsTrue entered) step.left.items) }
{
    let nodes = forest.nodes;
    let starts = forest.starts;
    let mut positions = Vec::new(alloc);
    let mut left = Vec::new(alloc);
    let mut number = next_tree(starts, by.marks, entered, 0);
    while number < nodes.len() {
        let spot = TreeSpot {
            base: starts[number],
            entered,
        };
        let leaves = step(&nodes[number], by, spot, &mut positions)?;
        note(&mut left, number, leaves)?;
        number = next_tree(starts, by.marks, entered, number + 1);
    }
    Ok(JointStep { positions, left })
}

/// Returns the numbers of the trees that can be left at the point `at`, in ascending order. `marks`
/// contains the positions that read the byte before the point. `entered` is `true` if all trees are
/// entered, and `false` if none is.
///
/// # Errors
///
/// Returns `AllocError` if memory runs out.
pub fn exits_all(
    alloc: Global,
    forest: Forest<'_>,
    marks: &[usize],
    at: Context,
    entered: bool,
) -> Result<Vec<usize>, AllocError>
    requires fits { width_of (map core_of forest.nodes.now) < 2 ^ 64 }
    requires measured { AreMeasured forest.nodes.now }
    requires starts { AreStarts forest.nodes.now forest.starts.now }
    requires rising { IsRising marks.now }
    ensures { IfOk result (λ left. LeftBy (map core_of forest.entry.nodes.now) (test_at at)
        (Has marks.now) (IsTrue entered) left.items) }
{
    let nodes = forest.nodes;
    let starts = forest.starts;
    let mut left = Vec::new(alloc);
    let mut number = next_tree(starts, marks, entered, 0);
    while number < nodes.len() {
        let spot = TreeSpot {
            base: starts[number],
            entered,
        };
        let leaves = exits(&nodes[number], marks, spot, at);
        note(&mut left, number, leaves)?;
        number = next_tree(starts, marks, entered, number + 1);
    }
    Ok(left)
}
