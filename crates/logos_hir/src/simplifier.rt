//! Builds unsimplified trees, and simplifies whole trees. Because a tree is simplified only once,
//! each node is moved and examined only once, regardless of the number of groups around the node.
//! `logos_syntax` calls `simplify` at the end of each pattern.

ghost use Rattle.std.specs.Prelude.{◌≡◌, ◌++◌, map, flat_map, IfOk, OnOk};
ghost use Rattle.logos_hir.specs.Views.{trees, capture as capture_of, tree_of, parts_of, branches_of, concat_of, alternation_of, repetition_of, simplest, all_simplest, simplest_tree, add_parts, fits_of};

use crate::builder::branches::{Fits, choice, join_class, push_fitting};
use crate::builder::{capture, in_a_row, push_flat, repetition};
use crate::hir::Hir;
use std::alloc::{AllocError, Global};

/// Returns an unsimplified concatenation of `parts`. Returns a single part unchanged, and
/// `Hir::Empty` if `parts` is empty.
pub fn row(parts: Vec<Hir>) -> Hir
    ensures { simplest_tree result ≡ concat_of (map simplest_tree parts.items) }
{
    in_a_row(parts)
}

/// Returns an unsimplified alternation of `branches`, which may be empty. Returns a single branch
/// unchanged.
pub fn either(mut branches: Vec<Hir>) -> Hir
    ensures { simplest_tree result ≡ alternation_of (map simplest_tree branches.items) }
{
    if branches.len() > 1 {
        return Hir::Alternation(branches);
    }
    match branches.pop() {
        Some(only) => only,
        None => Hir::Alternation(branches),
    }
}

/// Returns an unsimplified repetition of `body`.
///
/// # Errors
///
/// Returns `AllocError` if memory runs out.
pub fn repeated(
    alloc: Global,
    min: u32,
    max: Option<u32>,
    greedy: bool,
    body: Hir,
) -> Result<Hir, AllocError>
    ensures { IfOk result (λ hir. simplest_tree hir ≡
        repetition_of min max greedy (simplest_tree body)) }
{
    Ok(Hir::Repetition {
        min,
        max,
        greedy,
        sub: Box::new(alloc, body)?,
    })
}

/// Returns an unsimplified capture group around `body`.
///
/// # Errors
///
/// Returns `AllocError` if memory runs out.
pub fn captured(alloc: Global, body: Hir) -> Result<Hir, AllocError>
    ensures { IfOk result (λ hir. simplest_tree hir ≡ capture_of (simplest_tree body)) }
{
    Ok(Hir::Capture(Box::new(alloc, body)?))
}

/// Appends the parts of the simplest form of `tree` to `parts`.
#[cycle(simplify)]
fn push_simplified(alloc: Global, tree: Hir, parts: &mut Vec<Hir>) -> Result<(), AllocError>
    ensures { OnOk result (map tree_of parts.new.items ≡
        add_parts (map tree_of parts.old.items) (parts_of (simplest (tree_of tree)))) }
{
    match tree {
        Hir::Concat(inner) => push_all_simplified(alloc, inner, parts),
        other => push_flat(parts, simplify(alloc, other)?),
    }
}

/// Appends the parts of the simplest form of each tree in `inner` to `parts`.
#[cycle(simplify)]
fn push_all_simplified(
    alloc: Global,
    inner: Vec<Hir>,
    parts: &mut Vec<Hir>,
) -> Result<(), AllocError>
    ensures { OnOk result (map tree_of parts.new.items ≡
        add_parts (map tree_of parts.old.items)
        (flat_map parts_of (all_simplest (trees (map tree_of inner.items))))) }
{
    for tree in inner {
        push_simplified(alloc, tree, parts)?;
    }
    Ok(())
}

/// Appends the branches of the simplest form of `tree` to `branches`. Returns the classes that the
/// appended branches fit.
#[cycle(simplify)]
fn push_simplified_branch(
    alloc: Global,
    tree: Hir,
    branches: &mut Vec<Hir>,
) -> Result<Fits, AllocError>
    ensures items { OnOk result (map tree_of branches.new.items ≡
        map tree_of branches.old.items ++ branches_of (simplest (tree_of tree))) }
    ensures fits { IfOk result (λ fits. fits ≡
        fits_of (branches_of (simplest (tree_of tree)))) }
{
    match tree {
        Hir::Alternation(inner) => {
            let from = branches.len();
            let fits = push_all_branches(alloc, inner, branches)?;
            join_class(alloc, branches, from, fits)
        }
        other => push_fitting(branches, simplify(alloc, other)?),
    }
}

/// Appends the branches of the simplest form of each tree in `all` to `branches`. Returns the
/// classes that the appended branches fit.
#[cycle(simplify)]
fn push_all_branches(
    alloc: Global,
    all: Vec<Hir>,
    branches: &mut Vec<Hir>,
) -> Result<Fits, AllocError>
    ensures items { OnOk result (map tree_of branches.new.items ≡ map tree_of branches.old.items
        ++ flat_map branches_of (all_simplest (trees (map tree_of all.items)))) }
    ensures fits { IfOk result (λ fits. fits ≡
        fits_of (flat_map branches_of (all_simplest (trees (map tree_of all.items))))) }
{
    let mut fits = Fits::all();
    for tree in all {
        let here = push_simplified_branch(alloc, tree, branches)?;
        fits = fits.both(here);
    }
    Ok(fits)
}

/// Returns the simplest form of a tree, rebuilt by the builders from the innermost nodes outwards.
///
/// # Errors
///
/// Returns `AllocError` if memory runs out.
#[cycle(simplify)]
pub fn simplify(alloc: Global, tree: Hir) -> Result<Hir, AllocError>
    ensures { IfOk result (λ hir. tree_of hir ≡ simplest (tree_of tree)) }
{
    match tree {
        Hir::Repetition {
            min,
            max,
            greedy,
            sub,
        } => {
            let body = simplify(alloc, Box::into_inner(sub))?;
            repetition(alloc, min, max, greedy, body)
        }
        Hir::Capture(sub) => {
            let body = simplify(alloc, Box::into_inner(sub))?;
            capture(alloc, body)
        }
        Hir::Concat(all) => {
            let mut parts = Vec::new(alloc);
            push_all_simplified(alloc, all, &mut parts)?;
            Ok(in_a_row(parts))
        }
        Hir::Alternation(all) => {
            let mut branches = Vec::new(alloc);
            push_all_branches(alloc, all, &mut branches)?;
            choice(branches)
        }
        leaf => Ok(leaf),
    }
}
