//! Defines the steps of one tree for each byte. `tree_steps::construction` computes the steps, and
//! `cache` stores them.

ghost use Rattle.logos_automaton.specs.inside.Alike.{AreChangesOf};

pub mod construction;

use logos_positions::positions::look::ByteKind;
use logos_positions::positions::tree::TreeStep;

/// A state of one tree, while the tree is not entered. The state determines the steps of the tree.
#[derive(PartialEq, Eq, Hash, Drop)]
pub struct TreeState {
    /// The number of the tree.
    pub tree: usize,
    /// The positions of the tree that read the last byte, in ascending order.
    pub positions: Vec<usize>,
    /// The kind of the last byte, or `Unseen` if look-around assertions cannot depend on the byte.
    pub kind: ByteKind,
}

/// The steps of one tree from one of its states, for each byte.
#[derive(Drop)]
pub struct TreeSteps {
    /// The distinct steps of the tree.
    pub found: Vec<TreeStep>,
    /// The index in `found` of the step of each byte.
    pub by_byte: [u8; 256],
    /// The bytes whose step differs from the step of the next smaller byte, in ascending order.
    pub changes: Vec<u8>,
    ghost changed: { AreChangesOf by_byte changes.items },
}
