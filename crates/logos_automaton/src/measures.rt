//! Functions that measure trees without allocation. `rule` and `faults` call the functions that
//! return whether a tree can match the empty string or has a look-around assertion. `logos_graph`
//! calls the functions that compute the size of trees.

ghost use Rattle.std.specs.Prelude.{◌≡◌, ℕ, ◌+◌, ◌*◌, ◌^◌, ◌≤◌, ◌↔◌, IsTrue, length, max, map};
ghost use Rattle.logos_automaton.specs.Imports.{class_tree, tree_of, trees, IsWithinLimit, size, sizes};
ghost use Rattle.logos_hir.specs.Passable as tree;
ghost use Rattle.logos_positions.specs.Positions as positions;

use logos_hir::hir::{Class, Hir};

/// The greatest allowed size of all trees together.
const SIZE_LIMIT: usize = 1 << 20;

/// Returns whether a tree matches the empty string if all look-around assertions hold.
#[cycle(passable)]
pub fn passable(hir: &Hir) -> bool
    ensures { result ≡ tree.passable (tree_of hir.now) }
{
    match hir {
        Hir::Empty | Hir::Look(_) => true,
        Hir::Literal(bytes) => bytes.is_empty(),
        Hir::Class(_) => false,
        Hir::Repetition { min, sub, .. } => *min == 0 || passable(sub),
        Hir::Capture(sub) => passable(sub),
        Hir::Concat(parts) => all_passable(parts),
        Hir::Alternation(branches) => some_passable(branches),
    }
}

/// Returns whether each of the trees can match the empty string.
#[cycle(passable)]
fn all_passable(parts: &[Hir]) -> bool
    ensures { result ≡ tree.all_passable (trees (map tree_of parts.now)) }
{
    for part in parts {
        if !passable(part) {
            return false;
        }
    }
    true
}

/// Returns whether at least one of the trees can match the empty string.
#[cycle(passable)]
fn some_passable(branches: &[Hir]) -> bool
    ensures { result ≡ tree.some_passable (trees (map tree_of branches.now)) }
{
    for branch in branches {
        if passable(branch) {
            return true;
        }
    }
    false
}

/// Returns whether a tree can have a look-around assertion before its first byte.
#[cycle(leads)]
pub fn leads(hir: &Hir) -> bool
    ensures { result ≡ tree.leads (tree_of hir.now) }
{
    match hir {
        Hir::Empty | Hir::Literal(_) | Hir::Class(_) => false,
        Hir::Look(_) => true,
        Hir::Repetition { sub, .. } | Hir::Capture(sub) => leads(sub),
        Hir::Concat(parts) => leads_in_order(parts),
        Hir::Alternation(branches) => some_leads(branches),
    }
}

/// Returns whether one of the trees can have a look-around assertion before its first byte, and all
/// preceding trees can match the empty string.
#[cycle(leads)]
fn leads_in_order(parts: &[Hir]) -> bool
    ensures { result ≡ tree.leads_in_order (trees (map tree_of parts.now)) }
{
    for part in parts {
        if leads(part) {
            return true;
        }
        if !passable(part) {
            return false;
        }
    }
    false
}

/// Returns whether at least one of the trees can have a look-around assertion before its first
/// byte.
#[cycle(leads)]
fn some_leads(branches: &[Hir]) -> bool
    ensures { result ≡ tree.some_leads (trees (map tree_of branches.now)) }
{
    for branch in branches {
        if leads(branch) {
            return true;
        }
    }
    false
}

/// Returns whether a tree has a look-around assertion.
#[cycle(has_look)]
pub fn has_look(hir: &Hir) -> bool
    ensures { result ≡ positions.has_look (tree_of hir.now) }
{
    match hir {
        Hir::Empty | Hir::Literal(_) | Hir::Class(_) => false,
        Hir::Look(_) => true,
        Hir::Repetition { sub, .. } | Hir::Capture(sub) => has_look(sub),
        Hir::Concat(parts) | Hir::Alternation(parts) => some_has_look(parts),
    }
}

/// Returns whether at least one of the trees has a look-around assertion.
#[cycle(has_look)]
fn some_has_look(hirs: &[Hir]) -> bool
    ensures { result ≡ positions.some_has_look (trees (map tree_of hirs.now)) }
{
    for hir in hirs {
        if has_look(hir) {
            return true;
        }
    }
    false
}

// In the following functions `None` is a size that exceeds the limit.

/// Returns `size`, or `None` if `size` exceeds the limit.
fn limited(size: usize) -> Option<usize>
    ensures { IsWithinLimit size result }
{
    if size > SIZE_LIMIT {
        return None;
    }
    Some(size)
}

/// Returns the sum of two sizes. Returns `None` if the sum exceeds the limit or one of the sizes is
/// `None`.
pub fn plus(a: Option<usize>, b: Option<usize>) -> Option<usize>
    ensures { (m n : ℕ) → IsWithinLimit m a → IsWithinLimit n b → IsWithinLimit (m + n) result }
{
    limited(a?.checked_add(b?)?)
}

/// Returns the factor by which a repetition multiplies the size of its body.
fn copies(min: u32, max: Option<u32>) -> usize
    ensures count { result ≡ positions.copies min max }
    ensures some { 1 ≤ result }
    ensures few { result ≤ 2 ^ 32 }
{
    match max {
        None => min as usize + 1,
        Some(max) => (max as usize).max(1),
    }
}

/// Returns the size of a repetition whose body has the size `body`. Returns `None` if the result
/// exceeds the limit or `body` is `None`.
fn times(body: Option<usize>, min: u32, max: Option<u32>) -> Option<usize>
    ensures { (n : ℕ) → IsWithinLimit n body → IsWithinLimit (n * positions.copies min max) result }
{
    limited(body?.checked_mul(copies(min, max))?)
}

/// Returns the size of a class, or `None` if the size exceeds the limit.
fn class_size(class: &Class) -> Option<usize>
    ensures { IsWithinLimit (size (class_tree class.now)) result }
{
    match class {
        Class::Bytes(_) => Some(1),
        Class::Characters(ranges) => ranges_size(ranges.len()),
    }
}

/// Returns the size of a class of characters with `ranges` ranges, or `None` if the size exceeds
/// the limit.
fn ranges_size(ranges: usize) -> Option<usize>
    ensures { IsWithinLimit (max 1 (4 * ranges)) result }
{
    if ranges > SIZE_LIMIT {
        return None;
    }
    limited((4 * ranges).max(1))
}

/// Returns the size of a tree, or `None` if the size exceeds the limit.
#[cycle(size)]
pub fn limited_size(hir: &Hir) -> Option<usize>
    ensures { IsWithinLimit (size (tree_of hir.now)) result }
{
    match hir {
        Hir::Empty => Some(0),
        Hir::Look(_) => Some(1),
        Hir::Literal(bytes) => limited(bytes.len()),
        Hir::Class(class) => class_size(class),
        Hir::Repetition { min, max, sub, .. } => times(limited_size(sub), *min, *max),
        Hir::Capture(sub) => limited_size(sub),
        Hir::Concat(parts) | Hir::Alternation(parts) => limited_sizes(parts),
    }
}

/// Returns the sum of the sizes of trees, or `None` if the sum exceeds the limit.
#[cycle(size)]
fn limited_sizes(hirs: &[Hir]) -> Option<usize>
    ensures { IsWithinLimit (sizes (trees (map tree_of hirs.now))) result }
{
    let mut sum = Some(0);
    for hir in hirs {
        sum = plus(sum, limited_size(hir));
    }
    sum
}
