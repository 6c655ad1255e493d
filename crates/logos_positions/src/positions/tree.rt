//! Makes a step on one of several trees with consecutively numbered positions. `logos_automaton`
//! calls `step_tree` for the steps that it stores.

ghost use Rattle.std.specs.Prelude.{◌^◌, ◌<◌, ◌+◌, IsTrue, IfOk};
ghost use Rattle.logos_positions.specs.Views.{IsRising, test_at, core_of, is_measured, IsStepOf};
ghost use Rattle.logos_positions.specs.Core as core;

use crate::node::{Node, TreeSpot};
use crate::positions::step::{ReadByte, step};
use std::alloc::{AllocError, Global};

/// The result of a step on one tree.
#[derive(PartialEq, Eq, Drop)]
pub struct TreeStep {
    /// The positions of the tree that read the byte, in ascending order.
    pub positions: Vec<usize>,
    /// Whether the tree can be left before the byte.
    pub left: bool,
}

/// Returns the result of a step on the tree `node`, which is not entered. The positions of the tree
/// begin at `base`.
///
/// # Errors
///
/// Returns `AllocError` if memory runs out.
pub fn step_tree(
    alloc: Global,
    node: &Node,
    by: ReadByte<'_>,
    base: usize,
) -> Result<TreeStep, AllocError>
    requires fits { base + core.width (core_of node.now) < 2 ^ 64 }
    requires measured { IsTrue (is_measured node.now) }
    requires rising { IsRising by.marks.now }
    ensures { IfOk result (λ made. IsStepOf (core_of node.now) (test_at by.entry.at)
        by.entry.byte by.entry.marks.now base made.positions.items made.left) }
{
    let mut positions = Vec::new(alloc);
    let spot = TreeSpot {
        base,
        entered: false,
    };
    let left = step(node, by, spot, &mut positions)?;
    Ok(TreeStep { positions, left })
}
