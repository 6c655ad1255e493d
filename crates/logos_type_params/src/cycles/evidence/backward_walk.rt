//! Traverses a graph against its edges, once for each component. `evidence` calls `Backward::walk`
//! after the forward traversal.

use crate::cycles::evidence::{Membership, meets};
use std::alloc::{AllocError, Global};

/// An incoming edge of a node.
#[derive(Clone, Copy)]
struct Arrow {
    from: usize,
    /// The index of the edge among the edges of `from`.
    edge: usize,
}

/// The state of the traversals against the edges.
#[derive(Drop)]
pub(crate) struct Backward {
    /// The membership of each node. Once a node has been visited, the membership identifies the
    /// component of the node.
    pub(crate) memberships: Vec<Membership>,
    /// For each node, the edges that lead to it.
    arrows: Vec<Vec<Arrow>>,
    /// For each node, whether it was visited.
    met: Vec<bool>,
    /// The nodes that were visited, in the order of the visits.
    order: Vec<usize>,
}

/// Records each edge from the node `from` to a node in `list` as an incoming edge of the second
/// node. Numbers without a node are ignored.
fn note_edges(arrows: &mut [Vec<Arrow>], from: usize, list: &[usize]) -> Result<(), AllocError> {
    for (edge, to) in list.iter().enumerate() {
        if let Some(row) = arrows.get_mut(*to) {
            row.push(Arrow { from, edge })?;
        }
    }
    Ok(())
}

/// Returns `len` empty lists of edges.
fn no_arrows(alloc: Global, len: usize) -> Result<Vec<Vec<Arrow>>, AllocError> {
    let mut arrows = Vec::new(alloc);
    for _ in 0..len {
        arrows.push(Vec::new(alloc))?;
    }
    Ok(arrows)
}

impl Backward {
    /// Returns the state before the first traversal of the graph `lists`. `memberships` is the
    /// result of the forward traversal.
    ///
    /// # Errors
    ///
    /// Returns `AllocError` if memory runs out.
    pub(crate) fn new(
        alloc: Global,
        lists: &[Vec<usize>],
        memberships: Vec<Membership>,
    ) -> Result<Backward, AllocError> {
        let mut arrows = no_arrows(alloc, lists.len())?;
        for (from, list) in lists.iter().enumerate() {
            note_edges(&mut arrows, from, list)?;
        }
        let met = vec![in alloc; false; lists.len()]?;
        Ok(Backward {
            memberships,
            arrows,
            met,
            order: Vec::new(alloc),
        })
    }

    /// Adds `node` to the component with the root `root` and the number `start`, unless the node
    /// was visited before. `edge` is the index of the node's edge on a path to the root.
    fn membership(
        &mut self,
        node: usize,
        root: usize,
        start: usize,
        edge: usize,
    ) -> Result<(), AllocError> {
        if !meets(&mut self.met, node) {
            return Ok(());
        }
        let to_rank = self.order.len();
        if let Some(membership) = self.memberships.get_mut(node) {
            membership.root = root;
            membership.order = start;
            membership.toward = edge;
            membership.to_rank = to_rank;
        }
        self.order.push(node)?;
        Ok(())
    }

    /// Returns the number of edges that lead to `node`, or 0 if there is no such node.
    fn arrow_count(&self, node: usize) -> usize {
        match self.arrows.get(node) {
            Some(row) => row.len(),
            None => 0,
        }
    }

    /// Returns the edge at the index `at` among the edges that lead to `node`, or `None` if there
    /// is no such edge.
    fn arrow(&self, node: usize, at: usize) -> Option<Arrow> {
        self.arrows.get(node)?.get(at).copied()
    }

    /// Adds each unvisited node with an edge to `node` to the component with the root `root` and
    /// the number `start`.
    fn spread(&mut self, node: usize, root: usize, start: usize) -> Result<(), AllocError> {
        for at in 0..self.arrow_count(node) {
            if let Some(arrow) = self.arrow(node, at) {
                self.membership(arrow.from, root, start, arrow.edge)?;
            }
        }
        Ok(())
    }

    /// Completes the component with the root `root` and the number `start`. Adds each unvisited
    /// node from which a path leads to a node in `order` at or after the index `start`.
    fn finish(&mut self, root: usize, start: usize) -> Result<(), AllocError> {
        let mut at = start;
        while let Some(node) = self.order.get(at).copied() {
            at += 1;
            self.spread(node, root, start)?;
        }
        Ok(())
    }

    /// Traverses the graph against its edges from each unvisited node in `nodes`, beginning with
    /// the last node.
    ///
    /// # Errors
    ///
    /// Returns `AllocError` if memory runs out.
    pub(crate) fn walk(&mut self, nodes: &[usize]) -> Result<(), AllocError> {
        for root in nodes.iter().rev() {
            let start = self.order.len();
            self.membership(*root, *root, start, 0)?;
            self.finish(*root, start)?;
        }
        Ok(())
    }
}
