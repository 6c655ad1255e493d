//! Defines `Trees`, the input of the construction of states. `dfa::builder` makes a value of this
//! type before its loop.

ghost use Rattle.std.specs.Prelude.{◌^◌, ◌<◌, IfOk, map};
ghost use Rattle.logos_automaton.specs.Imports.{AreMeasured, AreStarts, core_of, width_of};

use logos_positions::node::{Node, width};
use std::alloc::{AllocError, Global};

/// The trees of an automaton, and the values that are computed from the trees before the first
/// state is built.
#[derive(Clone, Copy)]
pub struct Trees<'n> {
    /// The allocator of the automaton.
    pub alloc: Global,
    /// The prepared trees.
    pub nodes: &'n [Node],
    /// The first position of each tree, followed by the position after the last tree.
    pub starts: &'n [usize],
    /// Whether at least one tree has a look-around assertion. Only then do states store the kind of
    /// the last byte.
    pub looks: bool,
    /// The flags of all bytes, each `true` if look-around assertions can distinguish the byte from
    /// the next smaller byte.
    pub kinds: &'n [bool; 256],
}

/// Returns the first position of each tree, followed by the position after the last tree.
///
/// # Errors
///
/// Returns `AllocError` if memory runs out.
pub fn starts_of(alloc: Global, nodes: &[Node]) -> Result<Vec<usize>, AllocError>
    requires fits { width_of (map core_of nodes.now) < 2 ^ 64 }
    requires measured { AreMeasured nodes.now }
    ensures { IfOk result (λ starts. AreStarts nodes.now starts.items) }
{
    let mut starts = Vec::new(alloc);
    let mut base = 0;
    let mut number = 0;
    while number < nodes.len() {
        starts.push(base)?;
        base += width(&nodes[number]);
        number += 1;
    }
    starts.push(base)?;
    Ok(starts)
}
