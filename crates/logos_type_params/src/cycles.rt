//! Finds the nodes of a directed graph that lie on a cycle. `self_reference` calls `on_cycles` for
//! parameters whose types contain one another.

ghost use Rattle.std.specs.Prelude.{true, false, ◌≡◌, ℕ, ◌<◌, ◌↔◌, List, IfOk, IsTrue, length, map, vec_len, slice_index_or};
ghost use Rattle.logos_type_params.specs.cycles.Imports.{Leads};

mod check;
mod evidence;
mod reference;

use std::alloc::{AllocError, Global};

/// Returns, for each node, whether the node lies on a cycle. The index of a list in `lists` is the
/// number of a node, and the list contains the numbers of the nodes to which this node's edges
/// lead. Numbers without a node are ignored.
///
/// Two traversals find the strongly connected components of the graph. The components are checked
/// before the result is read from them. This takes time linear in the numbers of nodes and edges.
/// The check has never been observed to fail. If the check fails, a traversal from each node
/// computes the same result, in time that grows with the product of the number of nodes and the
/// number of edges.
///
/// # Errors
///
/// Returns `AllocError` if memory runs out.
pub fn on_cycles(alloc: Global, lists: &[Vec<usize>]) -> Result<Vec<bool>, AllocError>
    ensures length { IfOk result (λ marks. vec_len marks ≡ length lists.now) }
    ensures marks { IfOk result (λ marks. (node : ℕ) → node < length lists.now →
        IsTrue (slice_index_or marks.items node false) ↔
        Leads (map (λ list. list.items) lists.now) node node) }
{
    let memberships = evidence::memberships(alloc, lists)?;
    if check::is_evidence(lists, &memberships) {
        return check::marks(alloc, lists, &memberships);
    }
    reference::marks(alloc, lists)
}
