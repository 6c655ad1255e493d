//! Builds trees in their simplest form. Called by the simplifier and `logos_syntax` for each node.

ghost use Rattle.std.specs.Prelude.{◌≡◌, false, map, ◌++◌, Option, Some, IfOk, OnOk};
ghost use Rattle.logos_hir.specs.Views.{look, capture, tree_of, set_of, literal_of, one_char_of, one_byte_of, is_byteless, is_most, cut, times, repetition_of, parts_of, in_a_row, part_text, add_text, add_part, add_parts, is_literal_tree, are_apart};

pub(crate) mod branches;

use crate::hir::{Class, Hir, Look};
use crate::sets::RangeSet;
pub use branches::alternation;
use std::alloc::{AllocError, Global};

/// Returns the literal with the bytes `bytes`, or `Hir::Empty` if `bytes` is empty.
pub fn literal(bytes: Vec<u8>) -> Hir
    ensures { tree_of result ≡ literal_of bytes.items }
{
    if bytes.is_empty() {
        return Hir::Empty;
    }
    Hir::Literal(bytes)
}

/// Returns the tree of a look-around assertion.
pub fn look(kind: Look) -> Hir
    ensures { tree_of result ≡ look kind }
{
    Hir::Look(kind)
}

/// Returns a capture group around `body`.
///
/// # Errors
///
/// Returns `AllocError` if memory runs out.
pub fn capture(alloc: Global, body: Hir) -> Result<Hir, AllocError>
    ensures { IfOk result (λ hir. tree_of hir ≡ capture (tree_of body)) }
{
    Ok(Hir::Capture(Box::new(alloc, body)?))
}

/// Returns the class of the characters in `set`, or a literal if `set` has exactly one character.
///
/// # Errors
///
/// Returns `AllocError` if memory runs out.
pub fn char_class(alloc: Global, set: RangeSet) -> Result<Hir, AllocError>
    ensures { IfOk result (λ hir. tree_of hir ≡ one_char_of (set_of set)) }
{
    match set.sole_member() {
        Some(c) => {
            let mut buffer = [0; 4];
            let bytes = c.encode_utf8(&mut buffer).as_bytes();
            Ok(Hir::Literal(Vec::from_slice(alloc, bytes)?))
        }
        None => Ok(Hir::Class(Class::Characters(set.into_ranges()))),
    }
}

/// Returns the class of the bytes in `set`, or a literal if `set` contains exactly one byte.
/// Members above U+00FF are ignored.
///
/// # Errors
///
/// Returns `AllocError` if memory runs out.
pub fn byte_class(alloc: Global, set: RangeSet) -> Result<Hir, AllocError>
    ensures { IfOk result (λ hir. tree_of hir ≡ one_byte_of (set_of set)) }
{
    let bytes = set.bytes()?;
    match bytes.sole_member() {
        Some(c) => Ok(Hir::Literal(Vec::from_slice(alloc, &[c as u8])?)),
        None => Ok(Hir::Class(Class::Bytes(bytes.into_ranges()))),
    }
}

/// Returns whether a tree contains neither a literal nor a class. All matches of such a tree are
/// empty.
pub fn is_byteless(hir: &Hir) -> bool
    ensures { result ≡ is_byteless (tree_of hir.now) }
{
    match hir {
        Hir::Empty | Hir::Look(_) => true,
        Hir::Literal(_) | Hir::Class(_) => false,
        Hir::Repetition { sub, .. } | Hir::Capture(sub) => is_byteless(sub),
        Hir::Concat(parts) | Hir::Alternation(parts) => {
            for part in parts {
                if !is_byteless(part) {
                    return false;
                }
            }
            true
        }
    }
}

/// Returns whether `max` is `Some(n)`.
fn is_most(n: u32, max: Option<u32>) -> bool
    ensures { result ≡ is_most n max }
{
    max == Some(n)
}

/// Returns the minimum of `max` and 1, or 1 if `max` is `None`.
fn cut(max: Option<u32>) -> u32
    ensures { Some result ≡ cut max }
{
    match max {
        Some(max) => max.min(1),
        None => 1,
    }
}

/// Returns a repetition of `body`, or `body` itself if `body` is repeated exactly once.
fn times(
    alloc: Global,
    min: u32,
    max: Option<u32>,
    greedy: bool,
    body: Hir,
) -> Result<Hir, AllocError>
    ensures { IfOk result (λ hir. tree_of hir ≡ times min max greedy (tree_of body)) }
{
    if min == 1 && is_most(1, max) {
        return Ok(body);
    }
    Ok(Hir::Repetition {
        min,
        max,
        greedy,
        sub: Box::new(alloc, body)?,
    })
}

/// Returns the simplest form of a repetition of `body`. Returns `Hir::Empty` if `max` is 0. If
/// `body` contains neither a literal nor a class, each count is replaced with the minimum of the
/// count and 1. Returns `body` itself if both counts are then 1.
///
/// # Errors
///
/// Returns `AllocError` if memory runs out.
pub fn repetition(
    alloc: Global,
    min: u32,
    max: Option<u32>,
    greedy: bool,
    body: Hir,
) -> Result<Hir, AllocError>
    ensures { IfOk result (λ hir. tree_of hir ≡ repetition_of min max greedy (tree_of body)) }
{
    if is_most(0, max) {
        return Ok(Hir::Empty);
    }
    if is_byteless(&body) {
        return times(alloc, min.min(1), Some(cut(max)), greedy, body);
    }
    times(alloc, min, max, greedy, body)
}

/// Appends the part `last` and a literal of `bytes` to `parts`. If `last` is a literal, the two
/// literals become one.
fn push_after(parts: &mut Vec<Hir>, last: Hir, bytes: Vec<u8>) -> Result<(), AllocError>
    ensures { OnOk result (map tree_of parts.new.items ≡
        map tree_of parts.old.items ++ part_text (tree_of last) bytes.items) }
{
    match last {
        Hir::Literal(mut before) => {
            before.extend_from_slice(&bytes)?;
            Ok(parts.push(Hir::Literal(before))?)
        }
        other => {
            parts.push(other)?;
            Ok(parts.push(Hir::Literal(bytes))?)
        }
    }
}

/// Appends a literal of `bytes` to `parts`. If `parts` ends with a literal, the two literals become
/// one.
fn push_literal(parts: &mut Vec<Hir>, bytes: Vec<u8>) -> Result<(), AllocError>
    ensures { OnOk result (map tree_of parts.new.items ≡
        add_text (map tree_of parts.old.items) bytes.items) }
{
    match parts.pop() {
        Some(last) => push_after(parts, last, bytes),
        None => Ok(parts.push(Hir::Literal(bytes))?),
    }
}

/// Appends `part` to `parts`. Neighboring literals become one.
fn push_part(parts: &mut Vec<Hir>, part: Hir) -> Result<(), AllocError>
    ensures { OnOk result (map tree_of parts.new.items ≡
        add_part (map tree_of parts.old.items) (tree_of part)) }
{
    match part {
        Hir::Literal(bytes) => push_literal(parts, bytes),
        other => Ok(parts.push(other)?),
    }
}

/// Appends the parts of `inner` to `parts` one by one. Neighboring literals become one.
fn push_parts(parts: &mut Vec<Hir>, inner: Vec<Hir>) -> Result<(), AllocError>
    ensures { OnOk result (map tree_of parts.new.items ≡
        add_parts (map tree_of parts.old.items) (map tree_of inner.items)) }
{
    for part in inner {
        push_part(parts, part)?;
    }
    Ok(())
}

/// Returns whether the tree is a literal.
fn is_literal(hir: &Hir) -> bool
    ensures { result ≡ is_literal_tree (tree_of hir.now) }
{
    matches!(hir, Hir::Literal(_))
}

/// Returns whether no two literals in `parts` are adjacent.
fn are_apart(parts: &[Hir]) -> bool
    ensures { result ≡ are_apart false (map tree_of parts.now) }
{
    let mut before = false;
    for part in parts {
        let here = is_literal(part);
        if before && here {
            return false;
        }
        before = here;
    }
    true
}

/// Appends the parts of `inner` to `parts`. Neighboring literals become one. If `parts` is empty
/// and no two literals of `inner` are adjacent, `inner` is reused without a copy.
fn push_all(parts: &mut Vec<Hir>, inner: Vec<Hir>) -> Result<(), AllocError>
    ensures { OnOk result (map tree_of parts.new.items ≡
        add_parts (map tree_of parts.old.items) (map tree_of inner.items)) }
{
    if parts.is_empty() && are_apart(&inner) {
        *parts = inner;
        return Ok(());
    }
    push_parts(parts, inner)
}

/// Appends the tree `part` to `parts`. Appends the parts of a concatenation one by one, and appends
/// nothing for `Hir::Empty`. Neighboring literals become one.
pub(crate) fn push_flat(parts: &mut Vec<Hir>, part: Hir) -> Result<(), AllocError>
    ensures { OnOk result (map tree_of parts.new.items ≡
        add_parts (map tree_of parts.old.items) (parts_of (tree_of part))) }
{
    match part {
        Hir::Empty => Ok(()),
        Hir::Concat(inner) => push_all(parts, inner),
        other => push_part(parts, other),
    }
}

/// Returns the concatenation of `parts`. Returns a single part unchanged, and `Hir::Empty` if
/// `parts` is empty.
pub(crate) fn in_a_row(mut parts: Vec<Hir>) -> Hir
    ensures { tree_of result ≡ in_a_row (map tree_of parts.items) }
{
    if parts.len() > 1 {
        return Hir::Concat(parts);
    }
    match parts.pop() {
        Some(only) => only,
        None => Hir::Empty,
    }
}
