//! Traverses a graph from each node to find the nodes that lie on a cycle. `on_cycles` calls
//! `marks` if the check fails.

ghost use Rattle.std.specs.Prelude.{◌≡◌, ℕ, ◌<◌, ◌↔◌, [], ◌∷◌, true, false, IfOk, OnOk, IsTrue, Contains, length, vec_len, slice_index_or};
ghost use Rattle.logos_type_params.specs.cycles.Views.{Leads, targets_of, Reaches, graph};

use std::alloc::{AllocError, Global};

/// The state of a traversal from one node.
#[derive(Drop)]
struct Traversal {
    /// For each node, whether it has been found.
    found: Vec<bool>,
    /// The found nodes whose edges have not been followed yet.
    waiting: Vec<usize>,
}

/// Adds the node `to` to the found nodes, unless the node has already been found or does not exist.
fn add(traversal: &mut Traversal, to: usize) -> Result<(), AllocError>
    ensures { OnOk result (Reaches (to ∷ []) traversal.old.found.items traversal.old.waiting.items
        traversal.new.found.items traversal.new.waiting.items) }
{
    let Some(found) = traversal.found.get(to).copied() else {
        return Ok(());
    };
    if found {
        return Ok(());
    }
    traversal.waiting.push(to)?;
    traversal.found[to] = true;
    Ok(())
}

/// Adds the nodes in `targets` to the found nodes.
fn add_all(traversal: &mut Traversal, targets: &[usize]) -> Result<(), AllocError>
    ensures { OnOk result (Reaches targets.now traversal.old.found.items traversal.old.waiting.items
        traversal.new.found.items traversal.new.waiting.items) }
{
    for to in targets {
        add(traversal, *to)?;
    }
    Ok(())
}

/// Adds the targets of the edges of `from` to the found nodes.
fn add_targets(
    lists: &[Vec<usize>],
    from: usize,
    traversal: &mut Traversal,
) -> Result<(), AllocError>
    ensures { OnOk result (Reaches (targets_of (graph lists.now) from)
        traversal.old.found.items traversal.old.waiting.items
        traversal.new.found.items traversal.new.waiting.items) }
{
    let Some(list) = lists.get(from) else {
        return Ok(());
    };
    add_all(traversal, list)
}

/// Returns whether a path of at least one edge leads from `node` back to `node`.
fn leads_back(alloc: Global, lists: &[Vec<usize>], node: usize) -> Result<bool, AllocError>
    requires { node < length lists.now }
    ensures { IfOk result (λ leads. IsTrue leads ↔ Leads (graph lists.now) node node) }
{
    let mut traversal = Traversal {
        found: vec![in alloc; false; lists.len()]?,
        waiting: Vec::new(alloc),
    };
    add_targets(lists, node, &mut traversal)?;
    while let Some(from) = traversal.waiting.pop() {
        add_targets(lists, from, &mut traversal)?;
    }
    Ok(traversal.found[node])
}

/// Returns, for each node, whether it lies on a cycle.
///
/// # Errors
///
/// Returns `AllocError` if memory runs out.
pub(crate) fn marks(alloc: Global, lists: &[Vec<usize>]) -> Result<Vec<bool>, AllocError>
    ensures length { IfOk result (λ marks. vec_len marks ≡ length lists.now) }
    ensures marks { IfOk result (λ marks. (node : ℕ) → node < length lists.now →
        IsTrue (slice_index_or marks.items node false) ↔ Leads (graph lists.now) node node) }
{
    let mut marks = Vec::new(alloc);
    for node in 0..lists.len() {
        marks.push(leads_back(alloc, lists, node)?)?;
    }
    Ok(marks)
}
