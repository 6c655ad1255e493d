//! Finds the leaves that a graph marks. Used by `logos_causes`.

ghost use Rattle.std.specs.Prelude.{◌≡◌, ℕ, ◌<◌, ◌⊎◌, ◌↔◌, IfOk, length, option_map};
ghost use Rattle.logos_inspect.specs.Imports.{leaf_number, state_type_of, AreMarks, IsSet, Marks, AddsMark};

use logos_graph::graph::{Graph, StateType};
use logos_hir::leaf::LeafId;
use std::alloc::{AllocError, Global};

/// Returns an array with a flag for each leaf of a graph, indexed by the leaf's number. The flag is
/// `true` if at least one state marks the leaf.
///
/// If a graph without faults does not mark a leaf, maximal munch never finds the leaf in any input.
/// At each match of the leaf, another leaf has a longer match, or a match of equal length and a
/// higher priority. Maximal munch may also never find a leaf that has only late marks, because a
/// longer match may follow each match of the leaf.
///
/// # Errors
///
/// Returns `AllocError` if memory runs out.
pub fn marked_leaves(alloc: Global, graph: &Graph<'_>) -> Result<Vec<bool>, AllocError>
    ensures { IfOk result (λ flags. AreMarks graph.now flags.items) }
{
    let mut flags = vec![in alloc; false; graph.leaves().len()]?;
    for state in graph.iter_states() {
        add_marks(&mut flags, graph.get_state(state).state_type);
    }
    Ok(flags)
}

/// Sets to `true` the flag of each leaf that a state of the type `state_type` marks.
fn add_marks(flags: &mut Vec<bool>, state_type: StateType)
    ensures count { length flags.new.items ≡ length flags.old.items }
    ensures each { (k : ℕ) → k < length flags.old.items → IsSet flags.new.items k
        ↔ (IsSet flags.old.items k ⊎ Marks (state_type_of state_type) k) }
{
    add_mark(flags, state_type.accept);
    add_mark(flags, state_type.early);
}

/// Sets the flag of `leaf` to `true`. Does nothing if `leaf` is `None` or has no flag.
fn add_mark(flags: &mut Vec<bool>, leaf: Option<LeafId>)
    ensures { AddsMark flags.old.items (option_map leaf_number leaf) flags.new.items }
{
    let Some(leaf) = leaf else {
        return;
    };
    let number = leaf.0;
    if number < flags.len() {
        flags[number] = true;
    }
}
