//! Contains the trees that are prepared for the automaton. `prepare` makes these trees, and
//! `positions` makes steps on them. A tree is entered at a point where a match of the tree begins,
//! and can be left at a point where a match of the tree ends.

ghost use Rattle.std.specs.Prelude.{◌≡◌, ◌+◌, ◌*◌, ◌^◌, ◌<◌, ◌≤◌, ◌-◌, IsTrue, false};
ghost use Rattle.logos_positions.specs.Views.{count_of, core_of, is_measured};
ghost use Rattle.logos_positions.specs.Core as core;

use crate::characters::reader::CharacterTable;
use logos_hir::hir::{Look, Range};

/// A prepared tree. Each concatenation and each alternation combines two trees, and stores the
/// number of positions of both trees.
#[derive(Drop)]
pub enum Node {
    /// A tree that matches nothing.
    Void,
    /// A tree that matches the empty string.
    Empty,
    /// Bytes that are matched one after another.
    Literal(Vec<u8>),
    /// One byte of a class, with the ranges of the class.
    Bytes(Vec<Range>),
    /// One character of a class, with the table that reads the character.
    Characters(CharacterTable),
    /// A look-around assertion: a condition on a point of the input.
    Look(Look),
    /// One tree, followed by another.
    Cat {
        /// The number of positions of both trees.
        width: usize,
        first: Box<Node>,
        second: Box<Node>,
    },
    /// One of two trees.
    Alt {
        /// The number of positions of both trees.
        width: usize,
        first: Box<Node>,
        second: Box<Node>,
    },
    /// The body, repeated at least `least` times, and at most `most` times unless `most` is `None`.
    Repeat {
        least: usize,
        most: Option<usize>,
        /// The number of positions of the body.
        each: usize,
        body: Box<Node>,
    },
}

/// Returns the number of copies of a repetition's body that have their own positions: `most`, or
/// the larger of `least` and 1 if `most` is `None`.
pub fn copy_count(least: usize, most: Option<usize>) -> usize
    ensures { result ≡ count_of least most }
{
    match most {
        None => least.max(1),
        Some(most) => most,
    }
}

/// Returns the number of positions of a tree.
pub fn width(node: &Node) -> usize
    requires fits { core.width (core_of node.now) < 2 ^ 64 }
    requires measured { IsTrue (is_measured node.now) }
    ensures { result ≡ core.width (core_of node.now) }
{
    match node {
        Node::Void | Node::Empty | Node::Look(_) => 0,
        Node::Literal(text) => text.len(),
        Node::Bytes(_) => 1,
        Node::Characters(table) => table.rows,
        Node::Cat { width, .. } => *width,
        Node::Alt { width, .. } => *width,
        Node::Repeat {
            least,
            most,
            each,
            ..
        } => *each * copy_count(*least, *most),
    }
}

/// The first position of a tree in a step, with a flag that is `true` if the tree is entered.
#[derive(Clone, Copy)]
pub struct TreeSpot {
    /// The first position of the tree.
    pub base: usize,
    /// Whether a match of the tree begins at the point of the step.
    pub entered: bool,
}

impl TreeSpot {
    /// Returns the spot of a tree that is not entered. The positions of the tree begin at `base`.
    pub fn unentered(base: usize) -> TreeSpot
        ensures base { result.base ≡ base }
        ensures entered { result.entered ≡ false }
    {
        TreeSpot {
            base,
            entered: false,
        }
    }

    /// Returns the spot of the next tree. `width` is the number of positions of this tree, and
    /// `entered` is `true` if the next tree is entered.
    pub fn after(self, width: usize, entered: bool) -> TreeSpot
        requires { self.base + width < 2 ^ 64 }
        ensures base { result.base ≡ self.base + width }
        ensures entered { result.entered ≡ entered }
    {
        TreeSpot {
            base: self.base + width,
            entered,
        }
    }
}

/// Consecutive copies of the body of a repetition.
#[derive(Clone, Copy)]
pub struct Copies {
    /// The first position of the first copy.
    pub base: usize,
    /// The number of positions of each copy.
    pub each: usize,
    /// The number of copies.
    pub count: usize,
    /// Whether the first copy is entered.
    pub entered: bool,
}

impl Copies {
    /// Returns `count` copies of a body with `each` positions. The first copy is at `spot`.
    pub fn new(spot: TreeSpot, each: usize, count: usize) -> Copies
        ensures base { result.base ≡ spot.base }
        ensures entered { result.entered ≡ spot.entered }
        ensures each { result.each ≡ each }
        ensures count { result.count ≡ count }
    {
        Copies {
            base: spot.base,
            each,
            count,
            entered: spot.entered,
        }
    }

    /// Returns the copies from the index `number` on. `entered` is `true` if the first of the
    /// returned copies is entered.
    pub fn from(self, number: usize, entered: bool) -> Copies
        requires fits { self.base + self.each * number < 2 ^ 64 }
        requires within { number ≤ self.count }
        ensures base { result.base ≡ self.base + self.each * number }
        ensures each { result.each ≡ self.each }
        ensures count { result.count ≡ self.count - number }
        ensures entered { result.entered ≡ entered }
    {
        Copies {
            base: self.base + self.each * number,
            each: self.each,
            count: self.count - number,
            entered,
        }
    }

    /// Returns the spot of the copy at the index `number`. `entered` is `true` if the copy is
    /// entered.
    pub fn at(self, number: usize, entered: bool) -> TreeSpot
        requires { self.base + self.each * number < 2 ^ 64 }
        ensures base { result.base ≡ self.base + self.each * number }
        ensures entered { result.entered ≡ entered }
    {
        TreeSpot {
            base: self.base + self.each * number,
            entered,
        }
    }
}
