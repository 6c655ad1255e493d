//! Makes steps from the positions that read one byte to the positions that read the next byte.
//! `tree` and `trees` call `step` for each tree. Each step adds the positions of its tree that read
//! the byte to `next`, and returns whether the tree can be left before the byte.

ghost use Rattle.std.specs.Prelude.{max, ◌≡◌, ℕ, ◌+◌, ◌-◌, ◌*◌, ◌^◌, ◌<◌, ◌≤◌, ◌⊎◌, IsTrue, IfOk, OnOk, IfSome, ◌↔◌, Bool, false, Option, Some, List, length, slice_get, slice_index};
ghost use Rattle.logos_positions.specs.Views.{Core, IsFirstFrom, IsRising, IsSet, Has, spelled, in_front, up_to, at_least, repeated, count_of, IsOrdered, Stepped, Owes, is_in, pairs, Look, test_at, core_of, is_measured, reader_of};
ghost use Rattle.logos_positions.specs.Core as core;
ghost use Rattle.logos_positions.specs.inside.Repeated.{Repeated};

use crate::characters::reader::CharacterTable;
use crate::node::{Copies, Node, TreeSpot, width};
use crate::positions::exits::exits;
use crate::positions::look::{Context, holds};
use crate::positions::set::{
    OwnPositions, alike_copies, any_mark, first_from, has_mark, insert_mark, next_copy,
    own_positions, push_moved,
};
use logos_hir::hir::Range;
use std::alloc::AllocError;

/// A byte that a step reads, with the point before the byte and the positions that read the
/// preceding byte.
#[derive(Clone, Copy)]
pub struct ReadByte<'m> {
    /// The byte.
    pub byte: u8,
    /// The positions that read the preceding byte, in ascending order.
    pub marks: &'m [usize],
    /// The point before the byte.
    pub at: Context,
}

/// Returns whether `byte` is in one of `ranges`.
pub fn has_byte(ranges: &[Range], byte: u8) -> bool
    ensures { result ≡ is_in (pairs ranges.now) byte }
{
    let value = byte as u32;
    for range in ranges {
        if range.first <= value && value <= range.last {
            return true;
        }
    }
    false
}

/// Steps on a tree with one position: appends the position to `next` if the position reads the
/// byte. `fits` is `true` if the tree matches the byte. Returns whether the tree can be left before
/// the byte.
///
/// # Errors
///
/// Returns `AllocError` if memory runs out.
fn step_byte(
    fits: bool,
    by: ReadByte<'_>,
    spot: TreeSpot,
    next: &mut Vec<usize>,
) -> Result<bool, AllocError>
    requires rising { IsRising by.marks.now }
    requires set { IsSet next.old.items spot.base }
    ensures { IfOk result (λ left. (c : ℕ → Bool) (test : Look → Bool) → c by.entry.byte ≡ fits →
        Stepped (core.byte_in c) test by.entry.byte by.entry.marks.now
        next.old.items next.new.items spot.base spot.entered left) }
{
    let left = has_mark(by.marks, spot.base);
    if !spot.entered {
        return Ok(left);
    }
    if !fits {
        return Ok(left);
    }
    next.push(spot.base)?;
    Ok(left)
}

/// Steps on the class of bytes with `ranges`: appends the position of the class to `next` if the
/// position reads the byte. Returns whether the class can be left before the byte.
///
/// # Errors
///
/// Returns `AllocError` if memory runs out.
fn step_bytes(
    ranges: &[Range],
    by: ReadByte<'_>,
    spot: TreeSpot,
    next: &mut Vec<usize>,
) -> Result<bool, AllocError>
    requires rising { IsRising by.marks.now }
    requires set { IsSet next.old.items spot.base }
    ensures { IfOk result (λ left. (test : Look → Bool) →
        Stepped (core.byte_in (is_in (pairs ranges.now))) test by.entry.byte by.entry.marks.now
        next.old.items next.new.items spot.base spot.entered left) }
{
    let fits = has_byte(ranges, by.byte);
    step_byte(fits, by, spot, next)
}

/// Steps on the literal `text`: appends to `next` the positions of the literal that read the byte.
/// Returns whether the literal can be left before the byte.
///
/// # Errors
///
/// Returns `AllocError` if memory runs out.
fn step_literal(
    text: &[u8],
    by: ReadByte<'_>,
    spot: TreeSpot,
    next: &mut Vec<usize>,
) -> Result<bool, AllocError>
    requires fits { spot.base + length text.now < 2 ^ 64 }
    requires rising { IsRising by.marks.now }
    requires set { IsSet next.old.items spot.base }
    ensures { IfOk result (λ left. (test : Look → Bool) →
        Stepped (spelled text.now) test by.entry.byte by.entry.marks.now
        next.old.items next.new.items spot.base spot.entered left) }
{
    let bytes = Copies {
        base: spot.base,
        each: 1,
        count: text.len(),
        entered: spot.entered,
    };
    let mut done = next_copy(by.marks, bytes, 0, spot.entered);
    let mut left = spot.entered;
    while done < text.len() {
        let position = TreeSpot {
            base: spot.base + done,
            entered: left,
        };
        left = step_byte(by.byte == text[done], by, position, next)?;
        done = next_copy(by.marks, bytes, done + 1, left);
    }
    Ok(left)
}

/// Appends the position `position + 1` to `next` if this position belongs to the literal `text` and
/// reads `byte`. The positions of the literal begin at `base`.
///
/// # Errors
///
/// Returns `AllocError` if memory runs out.
fn push_after(
    text: &[u8],
    byte: u8,
    base: usize,
    position: usize,
    next: &mut Vec<usize>,
) -> Result<(), AllocError>
    requires fits { base + length text.now < 2 ^ 64 }
    requires low { base ≤ position }
    requires high { position < base + length text.now }
    requires below { (k : ℕ) → k < length next.old.items → slice_index next.old.items k ≤ position }
    requires rising { IsRising next.old.items }
    ensures rising { OnOk result (IsRising next.new.items) }
    ensures has { OnOk result ((q : ℕ) → Has next.new.items q ↔ (Has next.old.items q
        ⊎ ((q ≡ position + 1) × (slice_get text.now (q - base) ≡ Some byte)))) }
{
    let after = position - base + 1;
    if after < text.len() && text[after] == byte {
        next.push(position + 1)?;
    }
    Ok(())
}

/// Steps on the literal `text`, which is not entered: appends to `next` the positions of the
/// literal that read the byte. `own` contains the positions of the literal in the set `by.marks`.
/// Returns whether the literal can be left before the byte.
///
/// # Errors
///
/// Returns `AllocError` if memory runs out.
fn step_marked_literal(
    text: &[u8],
    by: ReadByte<'_>,
    own: OwnPositions,
    next: &mut Vec<usize>,
) -> Result<bool, AllocError>
    requires fits { own.base + length text.now < 2 ^ 64 }
    requires rising { IsRising by.marks.now }
    requires set { IsSet next.old.items own.base }
    requires some { own.from < own.to }
    requires from { IsFirstFrom by.marks.now own.base own.from }
    requires to { IsFirstFrom by.marks.now (own.base + length text.now) own.to }
    ensures { IfOk result (λ left. (test : Look → Bool) →
        Stepped (spelled text.now) test by.entry.byte by.entry.marks.now
        next.old.items next.new.items own.base false left) }
{
    let mut i = own.from;
    while i < own.to {
        push_after(text, by.byte, own.base, by.marks[i], next)?;
        i += 1;
    }
    Ok(by.marks[own.to - 1] + 1 == own.base + text.len())
}

/// Inserts the position of `row`, a row of a class of characters, into `next`. The class has `rows`
/// rows, and its positions begin at `base`. Does nothing if `row` is `None` or at least `rows`.
///
/// # Errors
///
/// Returns `AllocError` if memory runs out.
fn insert_row(
    row: Option<usize>,
    rows: usize,
    base: usize,
    next: &mut Vec<usize>,
) -> Result<(), AllocError>
    requires fits { base + rows < 2 ^ 64 }
    requires set { IsSet next.old.items (base + rows) }
    ensures set { OnOk result (IsSet next.new.items (base + rows)) }
    ensures has { OnOk result ((q : ℕ) → Has next.new.items q ↔
        (Has next.old.items q ⊎ ((p : ℕ) × (p < rows) × (row ≡ Some p) × (q ≡ base + p)))) }
{
    let Some(row) = row else {
        return Ok(());
    };
    if row >= rows {
        return Ok(());
    }
    insert_mark(next, base + row)
}

/// Steps on a class of characters: inserts into `next` the positions of the class that read the
/// byte. Returns whether the class can be left before the byte.
///
/// # Errors
///
/// Returns `AllocError` if memory runs out.
fn step_characters(
    table: &CharacterTable,
    by: ReadByte<'_>,
    spot: TreeSpot,
    next: &mut Vec<usize>,
) -> Result<bool, AllocError>
    requires fits { spot.base + table.now.rows < 2 ^ 64 }
    requires rising { IsRising by.marks.now }
    requires set { IsSet next.old.items spot.base }
    ensures { IfOk result (λ left. (test : Look → Bool) →
        Stepped (core.character (reader_of table.now)) test by.entry.byte by.entry.marks.now
        next.old.items next.new.items spot.base spot.entered left) }
{
    let marks = by.marks;
    let base = spot.base;
    let left = has_mark(marks, base);
    let first = if spot.entered {
        table.first(by.byte)
    } else {
        None
    };
    insert_row(first, table.rows, base, next)?;
    let mut i = first_from(marks, base);
    while i < marks.len() && marks[i] - base < table.rows {
        insert_row(
            table.follow(marks[i] - base, by.byte),
            table.rows,
            base,
            next,
        )?;
        i += 1;
    }
    Ok(left)
}

/// Adds to `next` the positions of the tree `node` at `spot` that read the byte. Returns whether
/// the tree can be left before the byte.
///
/// # Errors
///
/// Returns `AllocError` if memory runs out.
#[cycle(step)]
pub(crate) fn step(
    node: &Node,
    by: ReadByte<'_>,
    spot: TreeSpot,
    next: &mut Vec<usize>,
) -> Result<bool, AllocError>
    requires fits { spot.base + core.width (core_of node.now) < 2 ^ 64 }
    requires measured { IsTrue (is_measured node.now) }
    requires rising { IsRising by.marks.now }
    requires set { IsSet next.old.items spot.base }
    ensures { IfOk result (λ left. Stepped (core_of node.now) (test_at by.entry.at)
        by.entry.byte by.entry.marks.now
        next.old.items next.new.items spot.base spot.entered left) }
{
    if !spot.entered {
        if !any_mark(by.marks, spot.base, width(node)) {
            return Ok(false);
        }
        if let Node::Alt { .. } = node {
            let own = own_positions(by.marks, spot.base, width(node));
            return step_marked(node, by, own, next);
        }
    }
    step_node(node, by, spot, next)
}

/// Does the same as `step` for the tree `node`, which is not entered. `own` contains the positions
/// of the tree in the set `by.marks`, and must not be empty. Skips the branches of alternations
/// that have no position in the set.
///
/// # Errors
///
/// Returns `AllocError` if memory runs out.
#[cycle(step)]
fn step_marked(
    node: &Node,
    by: ReadByte<'_>,
    own: OwnPositions,
    next: &mut Vec<usize>,
) -> Result<bool, AllocError>
    requires fits { own.base + core.width (core_of node.now) < 2 ^ 64 }
    requires measured { IsTrue (is_measured node.now) }
    requires rising { IsRising by.marks.now }
    requires set { IsSet next.old.items own.base }
    requires some { own.from < own.to }
    requires from { IsFirstFrom by.marks.now own.base own.from }
    requires to { IsFirstFrom by.marks.now (own.base + core.width (core_of node.now)) own.to }
    ensures { IfOk result (λ left. Stepped (core_of node.now) (test_at by.entry.at)
        by.entry.byte by.entry.marks.now
        next.old.items next.new.items own.base false left) }
{
    if let Node::Literal(text) = node {
        return step_marked_literal(text, by, own, next);
    }
    let Node::Alt { first, second, .. } = node else {
        return step_node(node, by, TreeSpot::unentered(own.base), next);
    };
    let middle = own.base + width(first);
    if by.marks[own.to - 1] < middle {
        return step_marked(first, by, own, next);
    }
    if middle <= by.marks[own.from] {
        let own = OwnPositions {
            base: middle,
            ..own
        };
        return step_marked(second, by, own, next);
    }
    let (front, back) = own.parted(by.marks, middle);
    let one = step_marked(first, by, front, next)?;
    let other = step_marked(second, by, back, next)?;
    Ok(one | other)
}

/// Does the same as `step` for the tree `node` at `spot`, with a case for each variant of `Node`.
///
/// # Errors
///
/// Returns `AllocError` if memory runs out.
#[cycle(step)]
fn step_node(
    node: &Node,
    by: ReadByte<'_>,
    spot: TreeSpot,
    next: &mut Vec<usize>,
) -> Result<bool, AllocError>
    requires fits { spot.base + core.width (core_of node.now) < 2 ^ 64 }
    requires measured { IsTrue (is_measured node.now) }
    requires rising { IsRising by.marks.now }
    requires set { IsSet next.old.items spot.base }
    ensures { IfOk result (λ left. Stepped (core_of node.now) (test_at by.entry.at)
        by.entry.byte by.entry.marks.now
        next.old.items next.new.items spot.base spot.entered left) }
{
    match node {
        Node::Void => Ok(false),
        Node::Empty => Ok(spot.entered),
        Node::Literal(text) => step_literal(text, by, spot, next),
        Node::Bytes(ranges) => step_bytes(ranges, by, spot, next),
        Node::Characters(table) => step_characters(table, by, spot, next),
        Node::Look(look) => Ok(spot.entered && holds(*look, by.at)),
        Node::Cat { first, second, .. } => {
            let left = step(first, by, spot, next)?;
            step(second, by, spot.after(width(first), left), next)
        }
        Node::Alt { first, second, .. } => {
            let one = step(first, by, spot, next)?;
            let beside = spot.after(width(first), spot.entered);
            let other = step(second, by, beside, next)?;
            Ok(one | other)
        }
        Node::Repeat {
            least,
            most,
            each,
            body,
        } => {
            let copies = Copies::new(spot, *each, *least);
            step_repeat(body, copies, *most, by, next)
        }
    }
}

/// Does the same as `step` for a repetition of `body`. The repetition has at least `copies.count`
/// copies, and at most `most` unless `most` is `None`.
///
/// # Errors
///
/// Returns `AllocError` if memory runs out.
#[cycle(step)]
fn step_repeat(
    body: &Node,
    copies: Copies,
    most: Option<usize>,
    by: ReadByte<'_>,
    next: &mut Vec<usize>,
) -> Result<bool, AllocError>
    requires fits { copies.base + copies.each * count_of copies.count most < 2 ^ 64 }
    requires count { IsOrdered copies.count most }
    requires each { copies.each ≡ core.width (core_of body.now) }
    requires measured { IsTrue (is_measured body.now) }
    requires rising { IsRising by.marks.now }
    requires set { IsSet next.old.items copies.base }
    ensures { IfOk result (λ left. Stepped (repeated copies.count most (core_of body.now))
        (test_at by.entry.at) by.entry.byte by.entry.marks.now
        next.old.items next.new.items copies.base copies.entered left) }
{
    let Some(most) = most else {
        return step_at_least(body, copies, by, next);
    };
    let front = step_copies(body, copies, by, next)?;
    let rest = Copies {
        base: copies.base + copies.each * copies.count,
        each: copies.each,
        count: most - copies.count,
        entered: front,
    };
    step_up_to(body, rest, by, next)
}

/// Does the same as `step` for a repetition of `body` at least `copies.count` times.
///
/// # Errors
///
/// Returns `AllocError` if memory runs out.
#[cycle(step)]
fn step_at_least(
    body: &Node,
    copies: Copies,
    by: ReadByte<'_>,
    next: &mut Vec<usize>,
) -> Result<bool, AllocError>
    requires fits { copies.base + copies.each * max copies.count 1 < 2 ^ 64 }
    requires each { copies.each ≡ core.width (core_of body.now) }
    requires measured { IsTrue (is_measured body.now) }
    requires rising { IsRising by.marks.now }
    requires set { IsSet next.old.items copies.base }
    ensures { IfOk result (λ left. Stepped (at_least copies.count (core_of body.now))
        (test_at by.entry.at) by.entry.byte by.entry.marks.now
        next.old.items next.new.items copies.base copies.entered left) }
{
    if copies.count == 0 {
        let spot = TreeSpot {
            base: copies.base,
            entered: copies.entered,
        };
        let left = step_plus(body, by, spot, next)?;
        return Ok(left | copies.entered);
    }
    let fronts = Copies {
        count: copies.count - 1,
        ..copies
    };
    let front = step_copies(body, fronts, by, next)?;
    step_plus(body, by, copies.at(fronts.count, front), next)
}

/// Steps on the consecutive copies in `rest`, after the first copy, that agree with the first copy:
/// they have the same positions, and they are entered if and only if the first copy is. Returns the
/// number of these copies. The step on the first copy must have been made. `left` is `true` if the
/// first copy can be left.
///
/// # Errors
///
/// Returns `AllocError` if memory runs out.
fn repeat_step(
    rest: Copies,
    left: bool,
    by: ReadByte<'_>,
    next: &mut Vec<usize>,
) -> Result<usize, AllocError>
    requires fits { rest.base + rest.each * rest.count < 2 ^ 64 }
    requires some { 0 < rest.count }
    requires rising { IsRising by.marks.now }
    requires set { IsSet next.old.items (rest.base + rest.each) }
    ensures few { IfOk result (λ more. more < rest.count) }
    ensures same { IfOk result (λ more. 0 < more → left ≡ rest.entered) }
    ensures repeated { IfOk result (λ more. (t : Core) → (before : List ℕ) →
        rest.each ≡ core.width t → IsSet before rest.base →
        Stepped t (test_at by.entry.at) by.entry.byte by.entry.marks.now
        before next.old.items rest.base rest.entered left →
        Repeated t (test_at by.entry.at) by.entry.byte by.entry.marks.now
        next.old.items (rest.base + rest.each) left more next.new.items) }
{
    if left != rest.entered {
        return Ok(0);
    }
    let count = alike_copies(by.marks, rest);
    let from = first_from(next, rest.base);
    let to = next.len();
    let mut more = 0;
    while more < count {
        push_moved(next, from, to, rest.each * (more + 1))?;
        more += 1;
    }
    Ok(count)
}

/// Does the same as `step` for each of `copies`. Each copy after the first is entered if the
/// preceding copy can be left. Returns whether the last copy can be left, or `copies.entered` if
/// there are no copies.
///
/// # Errors
///
/// Returns `AllocError` if memory runs out.
#[cycle(step)]
fn step_copies(
    body: &Node,
    copies: Copies,
    by: ReadByte<'_>,
    next: &mut Vec<usize>,
) -> Result<bool, AllocError>
    requires fits { copies.base + copies.each * copies.count < 2 ^ 64 }
    requires each { copies.each ≡ core.width (core_of body.now) }
    requires measured { IsTrue (is_measured body.now) }
    requires rising { IsRising by.marks.now }
    requires set { IsSet next.old.items copies.base }
    ensures { IfOk result (λ left. (b : Core) →
        Owes (in_front copies.count (core_of body.now) b) b (test_at by.entry.at)
        by.entry.byte by.entry.marks.now next.old.items next.new.items
        copies.base (copies.base + copies.each * copies.count) copies.entered left false) }
{
    let mut done = next_copy(by.marks, copies, 0, copies.entered);
    let mut left = copies.entered;
    while done < copies.count {
        let rest = copies.from(done, left);
        left = step(body, by, copies.at(done, left), next)?;
        let more = repeat_step(rest, left, by, next)?;
        done = next_copy(by.marks, copies, done + 1 + more, left);
    }
    Ok(left)
}

/// Does the same as `step` for a repetition of `body` at most `copies.count` times.
///
/// # Errors
///
/// Returns `AllocError` if memory runs out.
#[cycle(step)]
fn step_up_to(
    body: &Node,
    copies: Copies,
    by: ReadByte<'_>,
    next: &mut Vec<usize>,
) -> Result<bool, AllocError>
    requires fits { copies.base + copies.each * copies.count < 2 ^ 64 }
    requires each { copies.each ≡ core.width (core_of body.now) }
    requires measured { IsTrue (is_measured body.now) }
    requires rising { IsRising by.marks.now }
    requires set { IsSet next.old.items copies.base }
    ensures { IfOk result (λ left. Stepped (up_to copies.count (core_of body.now))
        (test_at by.entry.at) by.entry.byte by.entry.marks.now
        next.old.items next.new.items copies.base copies.entered left) }
{
    let mut done = next_copy(by.marks, copies, 0, copies.entered);
    let mut left = copies.entered;
    let mut any = false;
    while done < copies.count {
        any = any | left;
        let rest = copies.from(done, left);
        left = step(body, by, copies.at(done, left), next)?;
        let more = repeat_step(rest, left, by, next)?;
        done = next_copy(by.marks, copies, done + 1 + more, left);
    }
    Ok(any | left)
}

/// Does the same as `step` for `body`, repeated one or more times. All repetitions share the
/// positions of one copy.
///
/// # Errors
///
/// Returns `AllocError` if memory runs out.
#[cycle(step)]
fn step_plus(
    body: &Node,
    by: ReadByte<'_>,
    spot: TreeSpot,
    next: &mut Vec<usize>,
) -> Result<bool, AllocError>
    requires fits { spot.base + core.width (core_of body.now) < 2 ^ 64 }
    requires measured { IsTrue (is_measured body.now) }
    requires rising { IsRising by.marks.now }
    requires set { IsSet next.old.items spot.base }
    ensures { IfOk result (λ left. Stepped (core.plus (core_of body.now)) (test_at by.entry.at)
        by.entry.byte by.entry.marks.now
        next.old.items next.new.items spot.base spot.entered left) }
{
    let left = exits(body, by.marks, spot, by.at);
    let again = TreeSpot {
        base: spot.base,
        entered: spot.entered | left,
    };
    step(body, by, again, next)?;
    Ok(left)
}
