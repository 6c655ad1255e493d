//! Finds the membership of each node in the strongly connected components of a graph. `on_cycles`
//! calls `memberships` first. The functions in this module have no contracts, because `check`
//! validates their result.

mod backward_walk;
mod forward_walk;

use crate::cycles::evidence::backward_walk::Backward;
use crate::cycles::evidence::forward_walk::Forward;
use std::alloc::{AllocError, Global};

/// The membership of a node in a strongly connected component of its graph. Such a component is a
/// maximal set of nodes with paths from each node to every other node.
#[derive(Clone, Copy)]
pub(crate) struct Membership {
    /// The node that identifies the component.
    pub(crate) root: usize,
    /// The number of the component. Edges between components lead to components with greater
    /// numbers.
    pub(crate) order: usize,
    /// The index of the node's edge on a path to the root of the component.
    pub(crate) toward: usize,
    /// An upper bound for the distance from the node to the root along the edges `toward`. The
    /// bound decreases along each of these edges.
    pub(crate) to_rank: usize,
    /// The predecessor of the node on a path from the root of the component.
    pub(crate) from: usize,
    /// The index, among the edges of `from`, of the edge that leads to the node.
    pub(crate) edge: usize,
    /// A number that increases along the path from the root to the node.
    pub(crate) from_rank: usize,
}

/// Marks `node` as visited. Returns `true` on the first visit, and `false` on later visits or if
/// there is no such node.
fn meets(met: &mut [bool], node: usize) -> bool {
    let Some(met) = met.get_mut(node) else {
        return false;
    };
    if *met {
        return false;
    }
    *met = true;
    true
}

/// Returns the membership of each node. A forward traversal along the edges determines the order in
/// which nodes are finished. Backward traversals against the edges, beginning with the node
/// finished last, determine the components.
///
/// # Errors
///
/// Returns `AllocError` if memory runs out.
pub(crate) fn memberships(
    alloc: Global,
    lists: &[Vec<usize>],
) -> Result<Vec<Membership>, AllocError> {
    let mut forward = Forward::new(alloc, lists.len())?;
    forward.walk(lists)?;
    let mut backward = Backward::new(alloc, lists, forward.memberships)?;
    backward.walk(&forward.left)?;
    Ok(backward.memberships)
}
