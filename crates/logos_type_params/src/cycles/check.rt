//! Checks the memberships of nodes in strongly connected components, and finds the nodes that lie
//! on a cycle. `on_cycles` calls these functions with the memberships that `evidence` finds.

ghost use Rattle.std.specs.Prelude.{◌≡◌, ℕ, ◌<◌, ◌↔◌, Some, true, false, IfOk, IfSome, IsTrue, Contains, length, vec_len, slice_index_or};
ghost use Rattle.logos_type_params.specs.cycles.Views.{slice_get, Leads, graph, Edge, Follows, GoesToward, ComesFrom, FollowAll, HasRoot, HasInner, IsPlaced, IsEvidence};

use crate::cycles::evidence::Membership;
use std::alloc::{AllocError, Global};

/// Returns the node to which the edge at the index `edge` in the list of `node` leads, or `None` if
/// there is no such edge.
fn target(lists: &[Vec<usize>], node: usize, edge: usize) -> Option<usize>
    ensures { IfSome result (λ to. Edge (graph lists.now) node to) }
{
    let list = lists.get(node)?;
    let to = list.get(edge)?;
    Some(*to)
}

/// Returns whether `node` is the root of its component, or the edge of `node` at the index
/// `membership.toward` leads to a node of the same component with a lower `to_rank`.
fn goes_toward(
    lists: &[Vec<usize>],
    memberships: &[Membership],
    node: usize,
    membership: Membership,
) -> bool
    ensures { IsTrue result → GoesToward (graph lists.now) memberships.now node membership }
{
    if membership.root == node {
        return true;
    }
    let Some(to) = target(lists, node, membership.toward) else {
        return false;
    };
    let Some(other) = memberships.get(to) else {
        return false;
    };
    if other.root != membership.root {
        return false;
    }
    other.to_rank < membership.to_rank
}

/// Returns whether `node` is the root of its component, or the edge at the index `membership.edge`
/// of the node `membership.from` leads to `node`. In the second case, `membership.from` must be in
/// the same component and have a lower `from_rank`.
fn comes_from(
    lists: &[Vec<usize>],
    memberships: &[Membership],
    node: usize,
    membership: Membership,
) -> bool
    ensures { IsTrue result → ComesFrom (graph lists.now) memberships.now node membership }
{
    if membership.root == node {
        return true;
    }
    let Some(to) = target(lists, membership.from, membership.edge) else {
        return false;
    };
    let Some(other) = memberships.get(membership.from) else {
        return false;
    };
    if to != node || other.root != membership.root {
        return false;
    }
    other.from_rank < membership.from_rank
}

/// Returns whether the node `to` is in the component of `membership` or in a later component. A
/// number without a node counts as later.
fn follows(memberships: &[Membership], membership: Membership, to: usize) -> bool
    ensures { IsTrue result → (next : Membership) →
        slice_get memberships.now to ≡ Some next → Follows membership next }
{
    let Some(next) = memberships.get(to) else {
        return true;
    };
    membership.order < next.order || membership.order == next.order && membership.root == next.root
}

/// Returns whether each node in `targets` is in the component of `membership` or in a later
/// component. Numbers without nodes count as later.
fn follow_all(memberships: &[Membership], membership: Membership, targets: &[usize]) -> bool
    ensures { IsTrue result → FollowAll memberships.now membership targets.now }
{
    for to in targets {
        if !follows(memberships, membership, *to) {
            return false;
        }
    }
    true
}

/// Returns whether the membership of `node` is correct. Returns `false` if there is no such node.
fn is_placed(lists: &[Vec<usize>], memberships: &[Membership], node: usize) -> bool
    ensures { IsTrue result → (membership : Membership) → slice_get memberships.now node ≡ Some membership →
        IsPlaced (graph lists.now) memberships.now node membership }
{
    let Some(membership) = memberships.get(node) else {
        return false;
    };
    let Some(list) = lists.get(node) else {
        return false;
    };
    if !goes_toward(lists, memberships, node, *membership) {
        return false;
    }
    if !comes_from(lists, memberships, node, *membership) {
        return false;
    }
    follow_all(memberships, *membership, list)
}

/// Returns whether `memberships` contains exactly one membership for each node of `lists`, and all
/// memberships are correct.
pub(crate) fn is_evidence(lists: &[Vec<usize>], memberships: &[Membership]) -> bool
    ensures { IsTrue result → IsEvidence (graph lists.now) memberships.now }
{
    if lists.len() != memberships.len() {
        return false;
    }
    for node in 0..lists.len() {
        if !is_placed(lists, memberships, node) {
            return false;
        }
    }
    true
}

/// Returns whether the node `node` exists and has the root `root`.
fn has_root(memberships: &[Membership], node: usize, root: usize) -> bool
    ensures { IsTrue result ↔ HasRoot memberships.now node root }
{
    let Some(membership) = memberships.get(node) else {
        return false;
    };
    membership.root == root
}

/// Returns whether a node in `targets` has the root `root`.
fn has_inner(memberships: &[Membership], root: usize, targets: &[usize]) -> bool
    ensures { IsTrue result ↔ HasInner memberships.now root targets.now }
{
    for to in targets {
        if has_root(memberships, *to, root) {
            return true;
        }
    }
    false
}

/// Returns whether `node` lies on a cycle. A node lies on a cycle if and only if one of its edges
/// leads to a node of the same component.
fn mark(lists: &[Vec<usize>], memberships: &[Membership], node: usize) -> bool
    requires within { node < length lists.now }
    requires evidence { IsEvidence (graph lists.now) memberships.now }
    ensures { IsTrue result ↔ Leads (graph lists.now) node node }
{
    has_inner(memberships, memberships[node].root, &lists[node])
}

/// Returns, for each node, whether it lies on a cycle. The memberships must be correct.
///
/// # Errors
///
/// Returns `AllocError` if memory runs out.
pub(crate) fn marks(
    alloc: Global,
    lists: &[Vec<usize>],
    memberships: &[Membership],
) -> Result<Vec<bool>, AllocError>
    requires { IsEvidence (graph lists.now) memberships.now }
    ensures length { IfOk result (λ marks. vec_len marks ≡ length lists.now) }
    ensures marks { IfOk result (λ marks. (node : ℕ) → node < length lists.now →
        IsTrue (slice_index_or marks.items node false) ↔ Leads (graph lists.now) node node) }
{
    let mut marks = Vec::new(alloc);
    for node in 0..lists.len() {
        marks.push(mark(lists, memberships, node))?;
    }
    Ok(marks)
}
