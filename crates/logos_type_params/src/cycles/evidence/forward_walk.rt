//! Traverses a graph along its edges in depth-first order, and records the order in which the nodes
//! are finished. `evidence` calls `Forward::walk` first.

use crate::cycles::evidence::{Membership, meets};
use std::alloc::{AllocError, Global};

/// An unfinished node on the path of a traversal.
#[derive(Clone, Copy)]
struct PathNode {
    node: usize,
    /// The index, in the node's list, of the next edge to follow.
    next: usize,
}

/// The state of a traversal along the edges.
#[derive(Drop)]
pub(crate) struct Forward {
    /// For each node, the edge through which it was visited, and the length of the path at that
    /// time.
    pub(crate) memberships: Vec<Membership>,
    /// The finished nodes, in the order in which they were finished.
    pub(crate) left: Vec<usize>,
    /// For each node, whether it was visited.
    met: Vec<bool>,
    /// The path from the start to the current node. Each node except the first was visited through
    /// an edge of an earlier node on the path.
    path: Vec<PathNode>,
}

/// Returns an upper bound for the number of steps of a traversal: one step for each edge, and one
/// to finish each node.
fn steps_along(lists: &[Vec<usize>]) -> usize {
    let mut steps = lists.len();
    for list in lists {
        steps = steps.saturating_add(list.len());
    }
    steps
}

impl Forward {
    /// Returns the state before the traversal of a graph with `len` nodes.
    ///
    /// # Errors
    ///
    /// Returns `AllocError` if memory runs out.
    pub(crate) fn new(alloc: Global, len: usize) -> Result<Forward, AllocError> {
        let nowhere = Membership {
            root: len,
            order: 0,
            toward: 0,
            to_rank: 0,
            from: len,
            edge: 0,
            from_rank: 0,
        };
        let memberships = vec![in alloc; nowhere; len]?;
        let met = vec![in alloc; false; len]?;
        Ok(Forward {
            memberships,
            left: Vec::new(alloc),
            met,
            path: Vec::new(alloc),
        })
    }

    /// Follows the edge at the index `edge` among the edges of the node `from` to the node `to`.
    /// Adds `to` to the path unless `to` was visited before.
    fn follow(&mut self, from: usize, edge: usize, to: usize) -> Result<(), AllocError> {
        if !meets(&mut self.met, to) {
            return Ok(());
        }
        let from_rank = self.path.len();
        if let Some(membership) = self.memberships.get_mut(to) {
            membership.from = from;
            membership.edge = edge;
            membership.from_rank = from_rank;
        }
        self.path.push(PathNode { node: to, next: 0 })?;
        Ok(())
    }

    /// Follows the next edge of the node in `frame`, or finishes the node if no edge is left.
    /// `frame` must have been removed from the end of the path.
    fn step(&mut self, lists: &[Vec<usize>], frame: PathNode) -> Result<(), AllocError> {
        let Some(list) = lists.get(frame.node) else {
            return Ok(());
        };
        let Some(to) = list.get(frame.next) else {
            self.left.push(frame.node)?;
            return Ok(());
        };
        self.path.push(PathNode {
            node: frame.node,
            next: frame.next + 1,
        })?;
        self.follow(frame.node, frame.next, *to)
    }

    /// Takes steps until the path is empty, but at most `steps` steps.
    fn finish(&mut self, lists: &[Vec<usize>], steps: usize) -> Result<(), AllocError> {
        for _ in 0..steps {
            let Some(frame) = self.path.pop() else {
                return Ok(());
            };
            self.step(lists, frame)?;
        }
        Ok(())
    }

    /// Traverses the graph from each node that was not visited before, in ascending order of the
    /// nodes' numbers.
    ///
    /// # Errors
    ///
    /// Returns `AllocError` if memory runs out.
    pub(crate) fn walk(&mut self, lists: &[Vec<usize>]) -> Result<(), AllocError> {
        let steps = steps_along(lists);
        for node in 0..lists.len() {
            self.follow(node, 0, node)?;
            self.finish(lists, steps)?;
        }
        Ok(())
    }
}
