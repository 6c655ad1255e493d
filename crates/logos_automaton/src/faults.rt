//! Finds the faults of rules. `Graph::new` of `logos_graph` calls `graph_errors` after it has built
//! the automaton.

ghost use Rattle.std.specs.Prelude.{◌≡◌, ℕ, ◌≤◌, ◌⊎◌, ◌↔◌, IfOk, OnOk, List, map, Contains, vec_len};
ghost use Rattle.logos_automaton.specs.Views.{AreFaults, ArePassable, AreAmbiguous, Ascends, empty_match, disambiguation, AllStart, priority_of, highest_of, with_priority, top_of, IsTopSet, IsTopIn, AreTopSets, IsTotal, ReadsOneByteLate, dfa_of, fault_of, numbers, rules_of};

use crate::dfa::Dfa;
use crate::dfa::parts::{leaves_at, state_count};
use crate::errors::GraphError;
use crate::measures::passable;
use crate::rule::{RuleView, some_leads, some_passable};
use logos_hir::leaf::LeafId;
use std::alloc::{AllocError, Global};
use std::collections::BTreeSet;

/// Returns the leaves whose trees can match the empty string, in ascending order.
///
/// # Errors
///
/// Returns `AllocError` if memory runs out.
pub fn passable_leaves(alloc: Global, rules: &[RuleView<'_>]) -> Result<Vec<LeafId>, AllocError>
    ensures { IfOk result (λ passed. ArePassable (rules_of rules.now) (numbers passed.items)) }
{
    let mut passed = Vec::new(alloc);
    for (number, rule) in rules.iter().enumerate() {
        if passable(rule.tree) {
            passed.push(LeafId(number))?;
        }
    }
    Ok(passed)
}

/// Returns the priority of the leaf with the number `leaf`, or 0 if there is no such leaf.
pub fn priority_at(rules: &[RuleView<'_>], leaf: usize) -> usize
    ensures { result ≡ priority_of (rules_of rules.now) leaf }
{
    match rules.get(leaf) {
        Some(rule) => rule.priority,
        None => 0,
    }
}

/// Returns the highest priority among the leaves in `listed`, or 0 if `listed` is empty.
fn highest(rules: &[RuleView<'_>], listed: &[usize]) -> usize
    ensures { result ≡ highest_of (rules_of rules.now) listed.now }
{
    let mut highest = 0;
    for leaf in listed {
        highest = priority_at(rules, *leaf).max(highest);
    }
    highest
}

/// Returns the leaves in `listed` with the priority `priority`, in the order of `listed`.
///
/// # Errors
///
/// Returns `AllocError` if memory runs out.
fn with_priority(
    alloc: Global,
    rules: &[RuleView<'_>],
    listed: &[usize],
    priority: usize,
) -> Result<Vec<usize>, AllocError>
    ensures { IfOk result (λ chosen. chosen.items ≡
        with_priority (rules_of rules.now) priority listed.now) }
{
    let mut chosen = Vec::new(alloc);
    for leaf in listed {
        if priority_at(rules, *leaf) == priority {
            chosen.push(*leaf)?;
        }
    }
    Ok(chosen)
}

/// Selects the leaves in `listed` with the highest priority. Adds this set of leaves to `sets` if
/// it has at least two leaves.
///
/// # Errors
///
/// Returns `AllocError` if memory runs out.
fn add_top_set(
    alloc: Global,
    rules: &[RuleView<'_>],
    listed: &[usize],
    sets: &mut BTreeSet<Vec<usize>>,
) -> Result<(), AllocError>
    ensures { OnOk result ((set : List ℕ) → Contains (map (λ v. v.items) sets.new.keys) set
        ↔ (Contains (map (λ v. v.items) sets.old.keys) set ⊎
        IsTopSet (rules_of rules.now) listed.now set)) }
{
    if listed.len() < 2 {
        return Ok(());
    }
    let top = with_priority(alloc, rules, listed, highest(rules, listed))?;
    if top.len() < 2 {
        return Ok(());
    }
    add_set(sets, top)
}

/// Adds `set` to `sets` if it is new.
///
/// # Errors
///
/// Returns `AllocError` if memory runs out.
fn add_set(sets: &mut BTreeSet<Vec<usize>>, set: Vec<usize>) -> Result<(), AllocError>
    ensures { OnOk result ((other : List ℕ) → Contains (map (λ v. v.items) sets.new.keys) other
        ↔ (Contains (map (λ v. v.items) sets.old.keys) other ⊎ (other ≡ set.items))) }
{
    sets.insert(set)?;
    Ok(())
}

/// Returns each set of at least two leaves that share the highest priority in a state.
///
/// # Errors
///
/// Returns `AllocError` if memory runs out.
fn top_sets(
    alloc: Global,
    rules: &[RuleView<'_>],
    dfa: &Dfa,
) -> Result<BTreeSet<Vec<usize>>, AllocError>
    ensures { IfOk result (λ sets. (set : List ℕ) →
        Contains (map (λ v. v.items) sets.keys) set ↔
        IsTopIn (rules_of rules.now) (dfa_of dfa.now).matches set) }
{
    let mut sets = BTreeSet::new(alloc);
    for state in 0..state_count(dfa) {
        add_top_set(alloc, rules, leaves_at(dfa, state), &mut sets)?;
    }
    Ok(sets)
}

/// Returns the identifiers of the leaves whose numbers are in `set`.
///
/// # Errors
///
/// Returns `AllocError` if memory runs out.
fn leaf_ids(alloc: Global, set: &[usize]) -> Result<Vec<LeafId>, AllocError>
    ensures { IfOk result (λ ids. numbers ids.items ≡ set.now) }
{
    let mut ids = Vec::new(alloc);
    for leaf in set {
        ids.push(LeafId(*leaf))?;
    }
    Ok(ids)
}

/// Returns the sets of leaves in `sets`, in ascending order.
///
/// # Errors
///
/// Returns `AllocError` if memory runs out.
fn in_order(alloc: Global, sets: &BTreeSet<Vec<usize>>) -> Result<Vec<Vec<LeafId>>, AllocError>
    ensures ascends { IfOk result (λ named. Ascends (map (λ set. numbers set.items) named.items)) }
    ensures same { IfOk result (λ named. map (λ set. numbers set.items) named.items ≡
        map (λ v. v.items) sets.now.keys) }
{
    let mut named = Vec::new(alloc);
    for set in sets {
        let ids = leaf_ids(alloc, set)?;
        named.push(ids)?;
    }
    Ok(named)
}

/// Returns the sets of leaves that length and priority do not distinguish, without duplicates and
/// in ascending order.
///
/// # Errors
///
/// Returns `AllocError` if memory runs out.
pub fn ambiguous_sets(
    alloc: Global,
    rules: &[RuleView<'_>],
    dfa: &Dfa,
) -> Result<Vec<Vec<LeafId>>, AllocError>
    requires total { IsTotal (dfa_of dfa.now) }
    ensures { IfOk result (λ sets. ReadsOneByteLate (rules_of rules.now) (dfa_of dfa.now) →
        AllStart (rules_of rules.now) →
        AreAmbiguous (rules_of rules.now) (map (λ set. numbers set.items) sets.items)) }
{
    let sets = top_sets(alloc, rules, dfa)?;
    in_order(alloc, &sets)
}

/// Returns an `EmptyMatch` for each leaf in `passed`. The trees of these leaves can match the empty
/// string.
///
/// # Errors
///
/// Returns `AllocError` if memory runs out.
fn empty_matches(alloc: Global, passed: Vec<LeafId>) -> Result<Vec<GraphError>, AllocError>
    ensures { IfOk result (λ errors. map fault_of errors.items ≡
        map empty_match (numbers passed.items)) }
{
    let mut errors = Vec::new(alloc);
    for leaf in &passed {
        errors.push(GraphError::EmptyMatch(*leaf))?;
    }
    Ok(errors)
}

/// Returns a `Disambiguation` for each set in `sets`. Length and priority do not distinguish the
/// leaves of a set.
///
/// # Errors
///
/// Returns `AllocError` if memory runs out.
fn disambiguations(alloc: Global, sets: Vec<Vec<LeafId>>) -> Result<Vec<GraphError>, AllocError>
    ensures { IfOk result (λ errors. map fault_of errors.items ≡
        map disambiguation (map (λ set. numbers set.items) sets.items)) }
{
    let mut errors = Vec::new(alloc);
    for set in sets {
        errors.push(GraphError::Disambiguation(set))?;
    }
    Ok(errors)
}

/// Returns the faults of rules and of their automaton.
///
/// Returns only `NoUniversalStart` if the rules have this fault. Otherwise returns each
/// `EmptyMatch`, and if there is none, each `Disambiguation`.
///
/// # Errors
///
/// Returns `AllocError` if memory runs out.
pub fn graph_errors(
    alloc: Global,
    rules: &[RuleView<'_>],
    dfa: &Dfa,
) -> Result<Vec<GraphError>, AllocError>
    requires total { IsTotal (dfa_of dfa.now) }
    ensures { IfOk result (λ errors.
        (AllStart (rules_of rules.now) → ReadsOneByteLate (rules_of rules.now) (dfa_of dfa.now)) →
        AreFaults (rules_of rules.now) (map fault_of errors.items)) }
{
    if some_leads(rules) {
        return Ok(vec![in alloc; GraphError::NoUniversalStart]?);
    }
    if some_passable(rules) {
        return empty_matches(alloc, passable_leaves(alloc, rules)?);
    }
    disambiguations(alloc, ambiguous_sets(alloc, rules, dfa)?)
}
