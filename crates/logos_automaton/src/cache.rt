//! Caches the steps from each state of each tree. `row` looks up these steps while it fills the row
//! of a state of the automaton.

ghost use Rattle.std.specs.Prelude.{◌≡◌, ◌∷◌, ◌++◌, ◌+◌, ◌<◌, ◌≤◌, ◌↔◌, List, ℕ, [], false, IfOk, IsTrue, OnOk, length, slice_index, slice_index_or, if◌then◌else◌};
ghost use Rattle.logos_automaton.specs.Views.{Node, kind_of_byte, Has, IsRising, state_of, Trees, AreKindBytes, IsPrepared, IsCacheOf, AreAlmostCached, AreCached, AreLive, HasSteps, IsTreeState, Keeps, state_after, step_of, tree_view};

use crate::byte_equivalence::{add_bytes, first_by_kind};
use crate::key::{Key, next_kind};
use crate::tree_steps::construction::steps_of;
use crate::tree_steps::{TreeState, TreeSteps};
use crate::trees::Trees;
use indexmap::IndexSet;
use logos_positions::positions::set::first_from;
use logos_positions::positions::trees::next_tree;
use std::alloc::{AllocError, Global};

/// The number of states of trees at which the cache is full. All states are removed from a full
/// cache before more are added, which bounds the memory of the cache.
const MAX_TREE_STATES: usize = 32_768;

/// The states of trees that have occurred, and the steps from each of these states.
#[derive(Drop)]
pub struct StepCache {
    /// The states.
    pub states: IndexSet<TreeState>,
    /// The steps from each state, at the index of the state in `states`.
    pub steps: Vec<TreeSteps>,
}

/// A tree with at least one position that read the last byte, and the steps of the tree.
#[derive(Clone, Copy)]
pub struct LiveTree {
    /// The number of the tree.
    pub tree: usize,
    /// The index of the tree's steps in the cache.
    pub steps: usize,
}

/// Returns the positions in `marks` that are in `low..high`.
///
/// # Errors
///
/// Returns `AllocError` if memory runs out.
fn marks_between(
    alloc: Global,
    marks: &[usize],
    low: usize,
    high: usize,
) -> Result<Vec<usize>, AllocError>
    requires rising { IsRising marks.now }
    requires order { low ≤ high }
    ensures rising { IfOk result (λ own. IsRising own.items) }
    ensures has { IfOk result (λ own. (q : ℕ) → low ≤ q → q < high →
        Has own.items q ↔ Has marks.now q) }
{
    let from = first_from(marks, low);
    let to = first_from(marks, high);
    Vec::from_slice(alloc, &marks[from..to])
}

/// Returns the state of the tree at the index `tree` within the automaton's state with the key
/// `key`.
///
/// # Errors
///
/// Returns `AllocError` if memory runs out.
fn tree_state(trees: &Trees<'_>, key: &Key, tree: usize) -> Result<TreeState, AllocError>
    requires prepared { IsPrepared trees.now }
    requires rising { IsRising key.now.positions.items }
    requires within { tree < length trees.now.nodes.now }
    ensures there { IfOk result (λ state.
        IsTreeState trees.now.nodes.now trees.now.starts.now (tree_view state)) }
    ensures tree { IfOk result (λ state. state.tree ≡ tree) }
    ensures kind { IfOk result (λ state. state.kind ≡ key.now.kind) }
    ensures has { IfOk result (λ state. (q : ℕ) → slice_index trees.now.starts.now tree ≤ q →
        q < slice_index trees.now.starts.now (tree + 1) →
        Has state.positions.items q ↔ Has key.now.positions.items q) }
{
    let low = trees.starts[tree];
    let high = trees.starts[tree + 1];
    let positions = marks_between(trees.alloc, &key.positions, low, high)?;
    Ok(TreeState {
        tree,
        positions,
        kind: key.kind,
    })
}

impl StepCache {
    /// Returns an empty cache.
    pub fn new(alloc: Global) -> StepCache
        ensures { (nodes : List Node) (starts : List ℕ) →
            AreCached nodes starts result.states.keys result.steps.items }
    {
        StepCache {
            states: IndexSet::new(alloc),
            steps: Vec::new(alloc),
        }
    }

    /// Removes all states and steps if the cache is full, that is, if it has at least
    /// `MAX_TREE_STATES` states.
    pub fn trim(&mut self)
        ensures { (trees : Trees) → IsCacheOf trees self.old → IsCacheOf trees self.new }
    {
        if self.steps.len() < MAX_TREE_STATES {
            return;
        }
        self.states.clear();
        self.steps.clear();
    }

    /// Computes and stores the steps from the last state in `states`, unless they are stored
    /// already.
    ///
    /// # Errors
    ///
    /// Returns `AllocError` if memory runs out.
    fn add_missing(&mut self, trees: &Trees<'_>) -> Result<(), AllocError>
        requires prepared { IsPrepared trees.now }
        requires missing { AreAlmostCached trees.now.nodes.now trees.now.starts.now
            self.old.states.keys self.old.steps.items }
        ensures cached { OnOk result (IsCacheOf trees.now self.new) }
        ensures keeps { OnOk result (Keeps self.old.steps.items self.new.steps.items) }
        ensures same { self.new.states.keys ≡ self.old.states.keys }
    {
        match self.states.get_index(self.steps.len()) {
            Some(state) => {
                let steps = steps_of(trees, state)?;
                self.steps.push(steps)?;
                Ok(())
            }
            None => Ok(()),
        }
    }

    /// Returns the index of the steps from `state`. If the state is new, adds the state and its
    /// steps.
    ///
    /// # Errors
    ///
    /// Returns `AllocError` if memory runs out.
    fn index_of(&mut self, trees: &Trees<'_>, state: TreeState) -> Result<usize, AllocError>
        requires prepared { IsPrepared trees.now }
        requires state { IsTreeState trees.now.nodes.now trees.now.starts.now (tree_view state) }
        requires cached { IsCacheOf trees.now self.old }
        ensures cached { OnOk result (IsCacheOf trees.now self.new) }
        ensures keeps { OnOk result (Keeps self.old.steps.items self.new.steps.items) }
        ensures has { IfOk result (λ i. HasSteps trees.now.nodes.now trees.now.starts.now
            self.new.steps.items (tree_view state) i) }
    {
        let (index, _) = self.states.insert_full(state)?;
        self.add_missing(trees)?;
        Ok(index)
    }

    /// Returns the live trees of the state with the key `key`, in ascending order. The state must
    /// not be the start. Adds the steps of these trees that are not stored yet.
    ///
    /// # Errors
    ///
    /// Returns `AllocError` if memory runs out.
    pub fn live_trees(&mut self, trees: &Trees<'_>, key: &Key) -> Result<Vec<LiveTree>, AllocError>
        requires prepared { IsPrepared trees.now }
        requires rising { IsRising key.now.positions.items }
        requires cached { IsCacheOf trees.now self.old }
        ensures cached { OnOk result (IsCacheOf trees.now self.new) }
        ensures live { IfOk result (λ lives. AreLive trees.now.nodes.now trees.now.starts.now
            key.now.positions.items key.now.kind self.new.steps.items
            0 lives.items (length trees.now.nodes.now)) }
    {
        let mut lives = Vec::new(trees.alloc);
        let mut tree = next_tree(trees.starts, &key.positions, false, 0);
        while tree < trees.nodes.len() {
            let state = tree_state(trees, key, tree)?;
            let steps = self.index_of(trees, state)?;
            lives.push(LiveTree { tree, steps })?;
            tree = next_tree(trees.starts, &key.positions, false, tree + 1);
        }
        Ok(lives)
    }
}

/// The steps from a state of the automaton for each byte. They consist of the steps of the state's
/// live trees.
#[derive(Clone, Copy)]
pub struct StateSteps<'c> {
    /// The allocator of the states to which the steps lead.
    pub alloc: Global,
    /// The live trees of the state, in ascending order.
    pub lives: &'c [LiveTree],
    /// The steps in the cache, to which the indexes in `lives` refer.
    pub steps: &'c [TreeSteps],
    /// Whether at least one tree has a look-around assertion.
    pub looks: bool,
}

/// Appends the positions at which a live tree reads `byte` to `positions`. Returns whether the tree
/// can be left before the byte.
///
/// # Errors
///
/// Returns `AllocError` if memory runs out.
fn push_positions(
    steps: &[TreeSteps],
    live: LiveTree,
    byte: u8,
    positions: &mut Vec<usize>,
) -> Result<bool, AllocError>
    ensures positions { OnOk result (positions.new.items ≡
        positions.old.items ++ (step_of steps.now live byte).positions) }
    ensures left { IfOk result (λ left. left ≡ (step_of steps.now live byte).left) }
{
    let Some(of_tree) = steps.get(live.steps) else {
        return Ok(false);
    };
    let index = of_tree.by_byte[byte as usize] as usize;
    let Some(step) = of_tree.found.get(index) else {
        return Ok(false);
    };
    positions.extend_from_slice(&step.positions)?;
    Ok(step.left)
}

/// Appends `number` to `numbers` if `is_one` is `true`.
///
/// # Errors
///
/// Returns `AllocError` if memory runs out.
fn push_if(numbers: &mut Vec<usize>, number: usize, is_one: bool) -> Result<(), AllocError>
    ensures { OnOk result (numbers.new.items ≡
        (if is_one then numbers.old.items ++ number ∷ [] else numbers.old.items)) }
{
    if is_one {
        numbers.push(number)?;
    }
    Ok(())
}

/// Sets `first[byte]` to `true` for each byte whose step on a live tree differs from the step of
/// the next smaller byte.
fn add_changes(steps: &[TreeSteps], live: LiveTree, first: &mut [bool; 256])
    ensures { (x : ℕ) → x + 1 < 256 → slice_index_or first.new (x + 1) false ≡ false →
        (slice_index_or first.old (x + 1) false ≡ false)
        × (step_of steps.now live x ≡ step_of steps.now live (x + 1)) }
{
    if let Some(of_tree) = steps.get(live.steps) {
        add_bytes(&of_tree.changes, first);
    }
}

impl StateSteps<'_> {
    /// Returns the key of the state to which `byte` leads.
    ///
    /// # Errors
    ///
    /// Returns `AllocError` if memory runs out.
    pub fn next_key(self, byte: u8) -> Result<Key, AllocError>
        ensures { IfOk result (λ made. state_of made ≡
            state_after self.entry.looks self.entry.steps.now self.entry.lives.now byte) }
    {
        let mut positions = Vec::new(self.alloc);
        let mut matches = Vec::new(self.alloc);
        for live in self.lives {
            let left = push_positions(self.steps, *live, byte, &mut positions)?;
            push_if(&mut matches, live.tree, left)?;
        }
        Ok(Key {
            kind: next_kind(self.looks, &positions, byte),
            positions,
            matches,
        })
    }

    /// Returns an array in which the flag of a byte is `true` if the byte can lead to a different
    /// state than the next smaller byte. `kinds` contains the flags that `kind_bytes` returns.
    pub fn changes(self, kinds: &[bool; 256]) -> [bool; 256]
        requires kinds { AreKindBytes kinds.now }
        ensures { (x : ℕ) → x + 1 < 256 → slice_index_or result (x + 1) false ≡ false →
            state_after self.entry.looks self.entry.steps.now self.entry.lives.now x ≡
            state_after self.entry.looks self.entry.steps.now self.entry.lives.now (x + 1) }
    {
        let mut first = first_by_kind(self.looks, kinds);
        for live in self.lives {
            add_changes(self.steps, *live, &mut first);
        }
        first
    }
}
