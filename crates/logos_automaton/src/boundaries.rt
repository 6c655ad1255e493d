//! Finds the bytes whose steps on a tree differ from those of the next smaller byte, in one pass
//! over the tree that begins at the positions that read the last byte. `byte_equivalence` and
//! `tree_steps::construction` call `mark_tree`.

ghost use Rattle.std.specs.Prelude.{◌≡◌, ◌<◌, ◌^◌, ◌+◌, ◌*◌, ◌==◌, ℕ, IsTrue, IsFalse, length, slice_index};
ghost use Rattle.logos_automaton.specs.Views.{byte_in, core_of, is_measured, reader_of, spelled, Has, IsFirstFrom, IsRising, GoesAlike, IsCopyAlike, MayLeave, MayPass, OpensAlike, SetsFlags};
ghost use Rattle.logos_positions.specs.Core as core;

use crate::byte_equivalence::{mark_range, mark_ranges};
use logos_hir::hir::Range;
use logos_positions::characters::reader::CharacterTable;
use logos_positions::node::{Copies, Node, copy_count, width};
use logos_positions::positions::set::{
    OwnPositions, alike_copies, any_mark, has_mark, next_copy, own_positions,
};

/// Returns whether the row numbers `row` and `other` differ. `None` denotes the absence of a row
/// and equals only `None`.
fn differ(row: Option<usize>, other: Option<usize>) -> bool
    ensures { IsFalse result → row ≡ other }
{
    match (row, other) {
        (None, None) => false,
        (Some(row), Some(other)) => row != other,
        _ => true,
    }
}

/// Marks each byte from 1 on whose transition from the start of a class of characters differs from
/// that of the next smaller byte.
fn mark_first(table: &CharacterTable, marked: &mut [bool; 256])
    ensures { SetsFlags (OpensAlike (core.character (reader_of table.now))) marked.old marked.new }
{
    for byte in 1..256usize {
        let is_other = differ(table.first((byte - 1) as u8), table.first(byte as u8));
        marked[byte] = marked[byte] | is_other;
    }
}

/// Marks each byte whose transition from the row `row` of a class of characters differs from that
/// of the next smaller byte.
fn mark_row(table: &CharacterTable, row: usize, marked: &mut [bool; 256])
    requires { row < table.now.rows }
    ensures { SetsFlags (λ x y. (reader_of table.now).follow row x ≡ (reader_of table.now).follow row y)
        marked.old marked.new }
{
    for byte in 0x80..0xC1usize {
        let before = table.follow(row, (byte - 1) as u8);
        let is_other = differ(before, table.follow(row, byte as u8));
        marked[byte] = marked[byte] | is_other;
    }
}

/// Marks each byte whose transition from at least one of the rows in `marks` differs from that of
/// the next smaller byte. The rows belong to a class of characters whose positions begin at `base`.
fn mark_rows(table: &CharacterTable, marks: &[usize], base: usize, marked: &mut [bool; 256])
    requires rising { IsRising marks.now }
    requires fits { base + table.now.rows < 2 ^ 64 }
    ensures { SetsFlags (GoesAlike (core.character (reader_of table.now)) (λ q. Has marks.now (base + q)))
        marked.old marked.new }
{
    let rows = Copies {
        base,
        each: 1,
        count: table.rows,
        entered: false,
    };
    let mut row = next_copy(marks, rows, 0, false);
    while row < table.rows {
        mark_row(table, row, marked);
        row = next_copy(marks, rows, row + 1, false);
    }
}

/// Marks `byte` and the next larger byte, if there is one.
fn mark_byte(byte: u8, marked: &mut [bool; 256])
    ensures { SetsFlags (OpensAlike (byte_in (λ x. x == byte))) marked.old marked.new }
{
    let value = byte as u32;
    mark_range(Range::new(value, value), marked);
}

/// Marks the byte at the index `at` of the literal `text`, and the next larger byte. Marks nothing
/// if the literal has no such index.
fn mark_at(text: &[u8], at: usize, marked: &mut [bool; 256])
    ensures { SetsFlags (λ x y. at < length text.now →
        (x == slice_index text.now at) ≡ (y == slice_index text.now at)) marked.old marked.new }
{
    if let Some(byte) = text.get(at) {
        mark_byte(*byte, marked);
    }
}

/// Marks each byte whose transition from the start of the literal `text` differs from that of the
/// next smaller byte. Returns whether the literal is empty.
fn open_literal(text: &[u8], marked: &mut [bool; 256]) -> bool
    ensures marks { SetsFlags (OpensAlike (spelled text.now)) marked.old marked.new }
    ensures passes { MayPass (spelled text.now) → IsTrue result }
{
    mark_at(text, 0, marked);
    text.is_empty()
}

/// Marks each byte whose transitions from the start of `node` differ from those of the next smaller
/// byte. Returns whether `node` matches the empty string if all look-around assertions hold.
#[cycle(open)]
fn open(node: &Node, marked: &mut [bool; 256]) -> bool
    ensures marks { SetsFlags (OpensAlike (core_of node.now)) marked.old marked.new }
    ensures passes { MayPass (core_of node.now) → IsTrue result }
{
    match node {
        Node::Void => false,
        Node::Empty | Node::Look(_) => true,
        Node::Literal(text) => open_literal(text, marked),
        Node::Bytes(ranges) => {
            mark_ranges(ranges, marked);
            false
        }
        Node::Characters(table) => {
            mark_first(table, marked);
            false
        }
        Node::Cat { first, second, .. } => {
            if !open(first, marked) {
                return false;
            }
            open(second, marked)
        }
        Node::Alt { first, second, .. } => {
            let one = open(first, marked);
            let other = open(second, marked);
            one | other
        }
        Node::Repeat { least, body, .. } => {
            let passed = open(body, marked);
            passed | (*least == 0)
        }
    }
}

/// Calls `open` on `node` and returns the result if `entered` is `true`. Otherwise marks nothing
/// and returns `false`.
fn open_if(entered: bool, node: &Node, marked: &mut [bool; 256]) -> bool
    ensures marks { SetsFlags (λ x y. IsTrue entered → OpensAlike (core_of node.now) x y)
        marked.old marked.new }
    ensures passes { IsTrue entered → MayPass (core_of node.now) → IsTrue result }
{
    if !entered {
        return false;
    }
    open(node, marked)
}

/// Marks each byte whose transitions from the positions of the literal `text` in `marks` differ
/// from those of the next smaller byte. The positions of the literal begin at `base`. Returns
/// whether the last position of the literal is in `marks`.
fn follow_literal(text: &[u8], marks: &[usize], base: usize, marked: &mut [bool; 256]) -> bool
    requires rising { IsRising marks.now }
    requires fits { base + length text.now < 2 ^ 64 }
    ensures marks { SetsFlags (GoesAlike (spelled text.now) (λ q. Has marks.now (base + q)))
        marked.old marked.new }
    ensures leaves { MayLeave (spelled text.now) (λ q. Has marks.now (base + q)) → IsTrue result }
{
    let bytes = Copies {
        base,
        each: 1,
        count: text.len(),
        entered: false,
    };
    let mut done = next_copy(marks, bytes, 0, false);
    while done < text.len() {
        mark_at(text, done + 1, marked);
        done = next_copy(marks, bytes, done + 1, false);
    }
    if text.is_empty() {
        return false;
    }
    has_mark(marks, base + (text.len() - 1))
}

/// Marks each byte whose transitions from the positions of `node` in `marks` differ from those of
/// the next smaller byte. The tree is not entered, and its positions begin at `base`. Returns
/// whether the tree can be left if all look-around assertions hold.
#[cycle(follow)]
fn follow(node: &Node, marks: &[usize], base: usize, marked: &mut [bool; 256]) -> bool
    requires fits { base + core.width (core_of node.now) < 2 ^ 64 }
    requires measured { IsTrue (is_measured node.now) }
    requires rising { IsRising marks.now }
    ensures marks { SetsFlags (GoesAlike (core_of node.now) (λ q. Has marks.now (base + q)))
        marked.old marked.new }
    ensures leaves { MayLeave (core_of node.now) (λ q. Has marks.now (base + q)) → IsTrue result }
{
    if !any_mark(marks, base, width(node)) {
        return false;
    }
    if let Node::Alt { .. } = node {
        let own = own_positions(marks, base, width(node));
        return follow_marked(node, marks, own, marked);
    }
    follow_node(node, marks, base, marked)
}

/// Marks the same bytes as `follow` and returns the same result. `own` contains the positions of
/// the tree in `marks`, of which there is at least one. Skips each branch of an alternation without
/// a position in `marks`.
#[cycle(follow)]
fn follow_marked(node: &Node, marks: &[usize], own: OwnPositions, marked: &mut [bool; 256]) -> bool
    requires fits { own.base + core.width (core_of node.now) < 2 ^ 64 }
    requires measured { IsTrue (is_measured node.now) }
    requires rising { IsRising marks.now }
    requires some { own.from < own.to }
    requires from { IsFirstFrom marks.now own.base own.from }
    requires to { IsFirstFrom marks.now (own.base + core.width (core_of node.now)) own.to }
    ensures marks { SetsFlags (GoesAlike (core_of node.now) (λ q. Has marks.now (own.base + q)))
        marked.old marked.new }
    ensures leaves { MayLeave (core_of node.now) (λ q. Has marks.now (own.base + q)) →
        IsTrue result }
{
    let Node::Alt { first, second, .. } = node else {
        return follow_node(node, marks, own.base, marked);
    };
    let middle = own.base + width(first);
    if marks[own.to - 1] < middle {
        return follow_marked(first, marks, own, marked);
    }
    if middle <= marks[own.from] {
        let own = OwnPositions {
            base: middle,
            ..own
        };
        return follow_marked(second, marks, own, marked);
    }
    let (front, back) = own.parted(marks, middle);
    let one = follow_marked(first, marks, front, marked);
    let other = follow_marked(second, marks, back, marked);
    one | other
}

/// Marks the same bytes as `follow` and returns the same result, with a case for each form of tree.
#[cycle(follow)]
fn follow_node(node: &Node, marks: &[usize], base: usize, marked: &mut [bool; 256]) -> bool
    requires fits { base + core.width (core_of node.now) < 2 ^ 64 }
    requires measured { IsTrue (is_measured node.now) }
    requires rising { IsRising marks.now }
    ensures marks { SetsFlags (GoesAlike (core_of node.now) (λ q. Has marks.now (base + q)))
        marked.old marked.new }
    ensures leaves { MayLeave (core_of node.now) (λ q. Has marks.now (base + q)) → IsTrue result }
{
    match node {
        Node::Void | Node::Empty | Node::Look(_) => false,
        Node::Literal(text) => follow_literal(text, marks, base, marked),
        Node::Bytes(_) => has_mark(marks, base),
        Node::Characters(table) => {
            mark_rows(table, marks, base, marked);
            has_mark(marks, base)
        }
        Node::Cat { first, second, .. } => {
            let left = follow(first, marks, base, marked);
            let passed = open_if(left, second, marked);
            let other = follow(second, marks, base + width(first), marked);
            passed | other
        }
        Node::Alt { first, second, .. } => {
            let one = follow(first, marks, base, marked);
            let other = follow(second, marks, base + width(first), marked);
            one | other
        }
        Node::Repeat {
            least,
            most,
            each,
            body,
        } => {
            let copies = Copies {
                base,
                each: *each,
                count: copy_count(*least, *most),
                entered: false,
            };
            follow_copies(body, copies, marks, marked)
        }
    }
}

/// Marks each byte whose transitions from the positions of `copies` of `body` differ from those of
/// the next smaller byte. Returns whether at least one of the copies can be left if all look-around
/// assertions hold. The body can then be entered again. Visits copies with the same positions once.
#[cycle(follow)]
fn follow_copies(body: &Node, copies: Copies, marks: &[usize], marked: &mut [bool; 256]) -> bool
    requires fits { copies.base + copies.each * copies.count < 2 ^ 64 }
    requires each { copies.each ≡ core.width (core_of body.now) }
    requires measured { IsTrue (is_measured body.now) }
    requires rising { IsRising marks.now }
    ensures marks { SetsFlags (λ x y. (k : ℕ) → k < copies.count → IsCopyAlike (core_of body.now)
        (λ q. Has marks.now (copies.base + copies.each * k + q)) x y) marked.old marked.new }
    ensures leaves { (k : ℕ) → k < copies.count → MayLeave (core_of body.now)
        (λ q. Has marks.now (copies.base + copies.each * k + q)) → IsTrue result }
{
    let mut any = false;
    let mut done = next_copy(marks, copies, 0, false);
    while done < copies.count {
        let rest = copies.from(done, false);
        let left = follow(body, marks, rest.base, marked);
        any = any | left;
        let more = alike_copies(marks, rest);
        done = next_copy(marks, copies, done + 1 + more, false);
    }
    open_if(any, body, marked);
    any
}

/// Marks each byte whose transitions from the positions of `node` in `marks` differ from those of
/// the next smaller byte. If `entered` is `true`, also compares the transitions from the start of
/// the tree. The positions of the tree begin at `base`.
pub fn mark_tree(node: &Node, marks: &[usize], base: usize, entered: bool, marked: &mut [bool; 256])
    requires fits { base + core.width (core_of node.now) < 2 ^ 64 }
    requires measured { IsTrue (is_measured node.now) }
    requires rising { IsRising marks.now }
    ensures { SetsFlags (λ x y. GoesAlike (core_of node.now) (λ q. Has marks.now (base + q)) x y
        × (IsTrue entered → OpensAlike (core_of node.now) x y)) marked.old marked.new }
{
    open_if(entered, node, marked);
    follow(node, marks, base, marked);
}
