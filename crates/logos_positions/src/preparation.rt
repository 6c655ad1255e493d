//! Prepares a pattern's tree for the steps of the automaton. `logos_automaton` calls `prepare` once
//! for each leaf, before it builds states.

ghost use Rattle.std.specs.Prelude.{◌≡◌, ℕ, ◌+◌, ◌^◌, ◌<◌, ◌≤◌, IsTrue, IfOk, Bool, true, length, map, vec_len};
ghost use Rattle.logos_positions.specs.Views.{trees, literal, repetition, class_tree, tree_of, IsCoreOf, pair_up, of_none, IsPair, IsJoined, AreCoresOf, width_of, sizes, core_of, is_measured, AreMeasured};
ghost use Rattle.logos_positions.specs.Size.{size};
ghost use Rattle.logos_positions.specs.Core as core;

pub(crate) mod classes;

use crate::characters::builder::table_of;
use crate::node::{Node, width};
use crate::preparation::classes::joined_class;
use logos_hir::hir::{Class, Hir, Range};
use std::alloc::{AllocError, Global};

/// Returns the prepared tree of a literal. A literal of one byte becomes a class.
///
/// # Errors
///
/// Returns `AllocError` if memory runs out.
fn prepare_literal(alloc: Global, bytes: &[u8]) -> Result<Node, AllocError>
    ensures occurs { IfOk result (λ node. IsCoreOf (literal bytes.now) (core_of node)) }
    ensures measured { IfOk result (λ node. IsTrue (is_measured node)) }
{
    if let [byte] = bytes {
        let value = *byte as u32;
        let ranges = vec![in alloc; Range::new(value, value)]?;
        return Ok(Node::Bytes(ranges));
    }
    Ok(Node::Literal(Vec::from_slice(alloc, bytes)?))
}

/// Returns the prepared tree of a class.
///
/// # Errors
///
/// Returns `AllocError` if memory runs out.
fn prepare_class(alloc: Global, class: &Class) -> Result<Node, AllocError>
    ensures occurs { IfOk result (λ node. IsCoreOf (class_tree class.now) (core_of node)) }
    ensures measured { IfOk result (λ node. IsTrue (is_measured node)) }
{
    match class {
        Class::Bytes(ranges) => Ok(Node::Bytes(Vec::from_slice(alloc, ranges)?)),
        Class::Characters(ranges) => Ok(Node::Characters(table_of(alloc, ranges)?)),
    }
}

/// Returns the concatenation of `first` and `second` if `in_order` is `true`, and their alternation
/// otherwise. Each of the two trees has its own positions.
///
/// # Errors
///
/// Returns `AllocError` if memory runs out.
fn apart(alloc: Global, in_order: bool, first: Node, second: Node) -> Result<Node, AllocError>
    requires first { IsTrue (is_measured first) }
    requires second { IsTrue (is_measured second) }
    requires fits { core.width (core_of first) + core.width (core_of second) < 2 ^ 64 }
    ensures occurs { IfOk result (λ node. core_of node ≡
        pair_up in_order (core_of first) (core_of second)) }
    ensures measured { IfOk result (λ node. IsTrue (is_measured node)) }
{
    let width = width(&first) + width(&second);
    let first = Box::new(alloc, first)?;
    let second = Box::new(alloc, second)?;
    if in_order {
        return Ok(Node::Cat {
            width,
            first,
            second,
        });
    }
    Ok(Node::Alt {
        width,
        first,
        second,
    })
}

/// Returns the concatenation of `first` and `second` if `in_order` is `true`, and their alternation
/// otherwise. Two classes of bytes are united into one class for their alternation.
///
/// # Errors
///
/// Returns `AllocError` if memory runs out.
fn pair(alloc: Global, in_order: bool, first: Node, second: Node) -> Result<Node, AllocError>
    requires first { IsTrue (is_measured first) }
    requires second { IsTrue (is_measured second) }
    requires fits { core.width (core_of first) + core.width (core_of second) < 2 ^ 64 }
    ensures occurs { IfOk result (λ node.
        IsPair in_order (core_of first) (core_of second) (core_of node)) }
    ensures measured { IfOk result (λ node. IsTrue (is_measured node)) }
{
    if in_order {
        return apart(alloc, in_order, first, second);
    }
    match joined_class(alloc, &first, &second)? {
        Some(ranges) => Ok(Node::Bytes(ranges)),
        None => apart(alloc, in_order, first, second),
    }
}

/// Returns `Node::Empty`, the concatenation of no trees, if `in_order` is `true`. Otherwise,
/// returns `Node::Void`, the alternation of no trees, which matches nothing.
fn none_of(in_order: bool) -> Node
    ensures occurs { core_of result ≡ of_none in_order }
    ensures measured { IsTrue (is_measured result) }
{
    if in_order {
        return Node::Empty;
    }
    Node::Void
}

/// Returns the only tree of `nodes`, or the result of `none_of` if `nodes` is empty.
fn sole(in_order: bool, mut nodes: Vec<Node>) -> Node
    requires measured { AreMeasured nodes.items }
    requires few { vec_len nodes < 2 }
    ensures occurs { IsJoined in_order (map core_of nodes.items) (core_of result) }
    ensures measured { IsTrue (is_measured result) }
{
    let Some(node) = nodes.pop() else {
        return none_of(in_order);
    };
    node
}

/// Combines trees: joins each half of the trees, and then combines the two results. Returns the
/// concatenation of all trees if `in_order` is `true`, and their alternation otherwise.
///
/// # Errors
///
/// Returns `AllocError` if memory runs out.
fn join(alloc: Global, in_order: bool, mut nodes: Vec<Node>) -> Result<Node, AllocError>
    requires measured { AreMeasured nodes.items }
    requires fits { width_of (map core_of nodes.items) < 2 ^ 64 }
    ensures occurs { IfOk result (λ node.
        IsJoined in_order (map core_of nodes.items) (core_of node)) }
    ensures measured { IfOk result (λ node. IsTrue (is_measured node)) }
{
    if nodes.len() < 2 {
        return Ok(sole(in_order, nodes));
    }
    let second = nodes.split_off(nodes.len() / 2)?;
    let first = join(alloc, in_order, nodes)?;
    let second = join(alloc, in_order, second)?;
    pair(alloc, in_order, first, second)
}

/// Returns `count` as a `usize`, or `None` if `count` is `None`.
fn widen(count: Option<u32>) -> Option<usize>
    ensures { result ≡ count }
{
    match count {
        None => None,
        Some(count) => Some(count as usize),
    }
}

/// Returns the prepared tree of `hir`. The size of `hir` must be at most 1,048,576.
///
/// # Errors
///
/// Returns `AllocError` if memory runs out.
#[cycle(prepare)]
pub fn prepare(alloc: Global, hir: &Hir) -> Result<Node, AllocError>
    requires { size (tree_of hir.now) ≤ 2 ^ 20 }
    ensures occurs { IfOk result (λ node. IsCoreOf (tree_of hir.now) (core_of node)) }
    ensures measured { IfOk result (λ node. IsTrue (is_measured node)) }
{
    match hir {
        Hir::Empty => Ok(Node::Empty),
        Hir::Literal(bytes) => prepare_literal(alloc, bytes),
        Hir::Class(class) => prepare_class(alloc, class),
        Hir::Look(look) => Ok(Node::Look(*look)),
        Hir::Repetition { min, max, sub, .. } => prepare_repetition(alloc, *min, *max, sub),
        Hir::Capture(sub) => prepare(alloc, sub),
        Hir::Concat(parts) => {
            let nodes = prepare_all(alloc, parts)?;
            join(alloc, true, nodes)
        }
        Hir::Alternation(branches) => {
            let nodes = prepare_all(alloc, branches)?;
            join(alloc, false, nodes)
        }
    }
}

/// Returns the prepared tree of a repetition of `sub` from `min` to `max` times. The size of the
/// repetition must be at most 1,048,576.
///
/// # Errors
///
/// Returns `AllocError` if memory runs out.
#[cycle(prepare)]
fn prepare_repetition(
    alloc: Global,
    min: u32,
    max: Option<u32>,
    sub: &Hir,
) -> Result<Node, AllocError>
    requires { size (repetition min max true (tree_of sub.now)) ≤ 2 ^ 20 }
    ensures occurs { IfOk result (λ node. (greedy : Bool) →
        IsCoreOf (repetition min max greedy (tree_of sub.now)) (core_of node)) }
    ensures measured { IfOk result (λ node. IsTrue (is_measured node)) }
{
    if let Some(most) = max {
        if most < min {
            return Ok(Node::Void);
        }
        if most == 0 {
            return Ok(Node::Empty);
        }
    }
    let body = prepare(alloc, sub)?;
    let each = width(&body);
    Ok(Node::Repeat {
        least: min as usize,
        most: widen(max),
        each,
        body: Box::new(alloc, body)?,
    })
}

/// Returns the prepared tree of each of `hirs`. The total size of `hirs` must be at most 1,048,576.
///
/// # Errors
///
/// Returns `AllocError` if memory runs out.
#[cycle(prepare)]
fn prepare_all(alloc: Global, hirs: &[Hir]) -> Result<Vec<Node>, AllocError>
    requires { sizes (trees (map tree_of hirs.now)) ≤ 2 ^ 20 }
    ensures occur { IfOk result (λ nodes.
        AreCoresOf (trees (map tree_of hirs.now)) (map core_of nodes.items)) }
    ensures measured { IfOk result (λ nodes. AreMeasured nodes.items) }
{
    let mut nodes = Vec::new(alloc);
    for hir in hirs {
        let node = prepare(alloc, hir)?;
        nodes.push(node)?;
    }
    Ok(nodes)
}
