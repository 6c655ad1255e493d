//! Determines whether a tree can be left at a point, that is, whether a match of the tree ends at
//! the point. `step` calls `exits` for the body of a repetition without an upper bound, and `trees`
//! calls `exits` for each tree.

ghost use Rattle.std.specs.Prelude.{max, ◌≡◌, ℕ, ◌+◌, ◌*◌, ◌-◌, ◌^◌, ◌<◌, ◌⊎◌, ◌↔◌, IsTrue, Bool, false, List, length};
ghost use Rattle.logos_positions.specs.Views.{Core, Exits, IsFirstFrom, IsRising, Has, spelled, in_front, up_to, at_least, repeated, count_of, IsOrdered, Look, test_at, core_of, is_measured};
ghost use Rattle.logos_positions.specs.Core as core;

use crate::node::{Copies, Node, TreeSpot, width};
use crate::positions::look::{Context, holds};
use crate::positions::set::{
    OwnPositions, alike_copies, any_mark, has_mark, next_copy, own_positions,
};

/// Returns whether the tree `node` at `spot` can be left at the point `at`. `marks` contains the
/// positions that read the byte before the point, in ascending order.
#[cycle(exits)]
pub(crate) fn exits(node: &Node, marks: &[usize], spot: TreeSpot, at: Context) -> bool
    requires fits { spot.base + core.width (core_of node.now) < 2 ^ 64 }
    requires measured { IsTrue (is_measured node.now) }
    requires rising { IsRising marks.now }
    ensures { IsTrue result ↔ Exits (core_of node.now) (test_at at) (λ q.
        Has marks.now (spot.base + q)) (IsTrue spot.entered) }
{
    if !spot.entered {
        if !any_mark(marks, spot.base, width(node)) {
            return false;
        }
        if let Node::Alt { .. } = node {
            let own = own_positions(marks, spot.base, width(node));
            return exits_marked(node, marks, own, at);
        }
    }
    exits_node(node, marks, spot, at)
}

/// Returns whether the tree `node`, which is not entered, can be left at the point `at`. `own`
/// contains the positions of the tree in the set `marks`, and must not be empty. Skips the branches
/// of alternations that have no position in the set.
#[cycle(exits)]
fn exits_marked(node: &Node, marks: &[usize], own: OwnPositions, at: Context) -> bool
    requires fits { own.base + core.width (core_of node.now) < 2 ^ 64 }
    requires measured { IsTrue (is_measured node.now) }
    requires rising { IsRising marks.now }
    requires some { own.from < own.to }
    requires from { IsFirstFrom marks.now own.base own.from }
    requires to { IsFirstFrom marks.now (own.base + core.width (core_of node.now)) own.to }
    ensures { IsTrue result ↔ Exits (core_of node.now) (test_at at) (λ q.
        Has marks.now (own.base + q)) (IsTrue false) }
{
    let Node::Alt { first, second, .. } = node else {
        return exits_node(node, marks, TreeSpot::unentered(own.base), at);
    };
    let middle = own.base + width(first);
    if marks[own.to - 1] < middle {
        return exits_marked(first, marks, own, at);
    }
    if middle <= marks[own.from] {
        let own = OwnPositions {
            base: middle,
            ..own
        };
        return exits_marked(second, marks, own, at);
    }
    let (front, back) = own.parted(marks, middle);
    let one = exits_marked(first, marks, front, at);
    let other = exits_marked(second, marks, back, at);
    one | other
}

/// Does the same as `exits` for the tree `node` at `spot`, with a case for each variant of `Node`.
#[cycle(exits)]
fn exits_node(node: &Node, marks: &[usize], spot: TreeSpot, at: Context) -> bool
    requires fits { spot.base + core.width (core_of node.now) < 2 ^ 64 }
    requires measured { IsTrue (is_measured node.now) }
    requires rising { IsRising marks.now }
    ensures { IsTrue result ↔ Exits (core_of node.now) (test_at at) (λ q.
        Has marks.now (spot.base + q)) (IsTrue spot.entered) }
{
    match node {
        Node::Void => false,
        Node::Empty => spot.entered,
        Node::Literal(text) => exits_literal(text, marks, spot),
        Node::Bytes(_) => has_mark(marks, spot.base),
        Node::Characters(_) => has_mark(marks, spot.base),
        Node::Look(look) => spot.entered && holds(*look, at),
        Node::Cat { first, second, .. } => {
            let left = exits(first, marks, spot, at);
            exits(second, marks, spot.after(width(first), left), at)
        }
        Node::Alt { first, second, .. } => {
            let one = exits(first, marks, spot, at);
            let beside = spot.after(width(first), spot.entered);
            let other = exits(second, marks, beside, at);
            one | other
        }
        Node::Repeat {
            least,
            most,
            each,
            body,
        } => {
            let copies = Copies::new(spot, *each, *least);
            exits_repeat(body, copies, *most, marks, at)
        }
    }
}

/// Returns whether a literal can be left. An empty literal can be left if the literal is entered.
/// Any other literal can be left if its last position is in the set `marks`.
fn exits_literal(text: &[u8], marks: &[usize], spot: TreeSpot) -> bool
    requires fits { spot.base + length text.now < 2 ^ 64 }
    requires rising { IsRising marks.now }
    ensures { (test : Look → Bool) → IsTrue result ↔
        Exits (spelled text.now) test (λ q. Has marks.now (spot.base + q)) (IsTrue spot.entered) }
{
    if text.is_empty() {
        return spot.entered;
    }
    has_mark(marks, spot.base + text.len() - 1)
}

/// Returns whether a repetition of `body` can be left at the point `at`. The repetition has at
/// least `copies.count` copies, and at most `most` unless `most` is `None`.
#[cycle(exits)]
fn exits_repeat(
    body: &Node,
    copies: Copies,
    most: Option<usize>,
    marks: &[usize],
    at: Context,
) -> bool
    requires fits { copies.base + copies.each * count_of copies.count most < 2 ^ 64 }
    requires count { IsOrdered copies.count most }
    requires each { copies.each ≡ core.width (core_of body.now) }
    requires measured { IsTrue (is_measured body.now) }
    requires rising { IsRising marks.now }
    ensures { IsTrue result ↔ Exits (repeated copies.count most (core_of body.now)) (test_at at)
        (λ q. Has marks.now (copies.base + q)) (IsTrue copies.entered) }
{
    let Some(most) = most else {
        return exits_at_least(body, copies, marks, at);
    };
    let front = exits_copies(body, copies, marks, at);
    let rest = Copies {
        base: copies.base + copies.each * copies.count,
        each: copies.each,
        count: most - copies.count,
        entered: front,
    };
    exits_up_to(body, rest, marks, at)
}

/// Returns whether a repetition of `body` at least `copies.count` times can be left at the point
/// `at`.
#[cycle(exits)]
fn exits_at_least(body: &Node, copies: Copies, marks: &[usize], at: Context) -> bool
    requires fits { copies.base + copies.each * max copies.count 1 < 2 ^ 64 }
    requires each { copies.each ≡ core.width (core_of body.now) }
    requires measured { IsTrue (is_measured body.now) }
    requires rising { IsRising marks.now }
    ensures { IsTrue result ↔ Exits (at_least copies.count (core_of body.now)) (test_at at)
        (λ q. Has marks.now (copies.base + q)) (IsTrue copies.entered) }
{
    if copies.count == 0 {
        let spot = TreeSpot {
            base: copies.base,
            entered: copies.entered,
        };
        let left = exits(body, marks, spot, at);
        return left | copies.entered;
    }
    let fronts = Copies {
        count: copies.count - 1,
        ..copies
    };
    let front = exits_copies(body, fronts, marks, at);
    exits(body, marks, copies.at(fronts.count, front), at)
}

/// Returns the number of consecutive copies in `rest`, after the first copy, that agree with the
/// first copy: they have the same positions, and they are entered if and only if the first copy is.
/// These copies can be left if and only if the first copy can be left. `left` is `true` if the
/// first copy can be left.
fn alike_exits(marks: &[usize], rest: Copies, left: bool) -> usize
    requires rising { IsRising marks.now }
    requires fits { rest.base + rest.each * rest.count < 2 ^ 64 }
    requires some { 0 < rest.count }
    ensures few { result < rest.count }
    ensures same { 0 < result → left ≡ rest.entered }
    ensures alike { (k q : ℕ) → k < result → q < rest.each →
        Has marks.now (rest.base + rest.each * (k + 1) + q) ↔ Has marks.now (rest.base + q) }
{
    if left != rest.entered {
        return 0;
    }
    alike_copies(marks, rest)
}

/// Returns whether the last of `copies` can be left at the point `at`. Each copy after the first is
/// entered if the preceding copy can be left. Returns `copies.entered` if there are no copies.
#[cycle(exits)]
fn exits_copies(body: &Node, copies: Copies, marks: &[usize], at: Context) -> bool
    requires fits { copies.base + copies.each * copies.count < 2 ^ 64 }
    requires each { copies.each ≡ core.width (core_of body.now) }
    requires measured { IsTrue (is_measured body.now) }
    requires rising { IsRising marks.now }
    ensures { (b : Core) →
        Exits b (test_at at) (λ q. Has marks.now (copies.base + copies.each * copies.count + q))
        (IsTrue result)
        ↔ Exits (in_front copies.count (core_of body.now) b) (test_at at)
        (λ q. Has marks.now (copies.base + q)) (IsTrue copies.entered) }
{
    let mut done = next_copy(marks, copies, 0, copies.entered);
    let mut left = copies.entered;
    while done < copies.count {
        let rest = copies.from(done, left);
        left = exits(body, marks, copies.at(done, left), at);
        let more = alike_exits(marks, rest, left);
        done = next_copy(marks, copies, done + 1 + more, left);
    }
    left
}

/// Returns whether a repetition of `body` at most `copies.count` times can be left at the point
/// `at`.
#[cycle(exits)]
fn exits_up_to(body: &Node, copies: Copies, marks: &[usize], at: Context) -> bool
    requires fits { copies.base + copies.each * copies.count < 2 ^ 64 }
    requires each { copies.each ≡ core.width (core_of body.now) }
    requires measured { IsTrue (is_measured body.now) }
    requires rising { IsRising marks.now }
    ensures { IsTrue result ↔ Exits (up_to copies.count (core_of body.now)) (test_at at)
        (λ q. Has marks.now (copies.base + q)) (IsTrue copies.entered) }
{
    let mut done = next_copy(marks, copies, 0, copies.entered);
    let mut left = copies.entered;
    let mut any = false;
    while done < copies.count {
        any = any | left;
        let rest = copies.from(done, left);
        left = exits(body, marks, copies.at(done, left), at);
        let more = alike_exits(marks, rest, left);
        done = next_copy(marks, copies, done + 1 + more, left);
    }
    any | left
}
