//! Builds graphs from leaves. `logos_codegen` calls `Graph::new` once for each source.

ghost use Rattle.std.specs.Prelude.{◌≡◌, ◌^◌, ◌<◌, ◌≤◌, [], IfOk, IfErr, length, map};
ghost use Rattle.logos_graph.specs.Imports.{dfa_of, AreFaults, AllStart, fault_of, IsGraphOf, AreFindings, Refuses, size_of, rules_of, IsTotal, ReadsOneByteLate, Memory, LimitSize};
ghost use Rattle.logos_automaton.specs.View as views;

use super::{BuildError, Config, Graph, GraphError};
use crate::leaves::{is_size_within, rule_views};
use crate::raw_table::raw_table;
use logos_automaton::dfa::Dfa;
use logos_automaton::dfa::builder::{MAX_STATES, build};
use logos_automaton::faults::graph_errors;
use logos_automaton::rule::{RuleView, some_leads, some_passable};
use logos_pattern::leaf::Leaf;
use logos_reduce::reduction::reduce;
use std::alloc::Global;

/// Returns the automaton of an empty list of rules.
fn automaton_of_none(alloc: Global) -> Result<Dfa, BuildError>
    ensures total { IfOk result (λ dfa. IsTotal (dfa_of dfa)) }
    ensures few { IfOk result (λ dfa. length (dfa_of dfa).matches ≤ MAX_STATES) }
    ensures err { IfErr result (λ e. e ≡ Memory) }
{
    match build(alloc, &[]) {
        Ok(dfa) => Ok(dfa),
        Err(_) => Err(BuildError::Memory),
    }
}

/// Returns the automaton of `rules`. Returns the automaton of no rules if the tree of a rule
/// matches the empty string or has a look-around assertion before its first byte.
fn automaton(alloc: Global, rules: &[RuleView<'_>]) -> Result<Dfa, BuildError>
    requires { size_of (views.rules_of rules.now) ≤ 2 ^ 20 }
    ensures late { IfOk result (λ dfa. AllStart (views.rules_of rules.now) →
        ReadsOneByteLate (views.rules_of rules.now) (dfa_of dfa)) }
    ensures total { IfOk result (λ dfa. IsTotal (dfa_of dfa)) }
    ensures few { IfOk result (λ dfa. length (dfa_of dfa).matches ≤ MAX_STATES) }
    ensures err { IfErr result (Refuses (views.rules_of rules.now)) }
{
    if some_leads(rules) {
        return automaton_of_none(alloc);
    }
    if some_passable(rules) {
        return automaton_of_none(alloc);
    }
    build(alloc, rules)
}

/// An automaton, and the faults of its rules.
#[derive(Drop)]
struct Findings {
    dfa: Dfa,
    errors: Vec<GraphError>,
}

/// Returns the automaton and the faults of `rules`.
fn rule_findings(alloc: Global, rules: &[RuleView<'_>]) -> Result<Findings, BuildError>
    requires { size_of (views.rules_of rules.now) ≤ 2 ^ 20 }
    ensures found { IfOk result (λ made.
        AreFindings (views.rules_of rules.now) (dfa_of made.dfa) (map fault_of made.errors.items)) }
    ensures err { IfErr result (Refuses (views.rules_of rules.now)) }
{
    let dfa = automaton(alloc, rules)?;
    let errors = graph_errors(alloc, rules, &dfa)?;
    Ok(Findings { dfa, errors })
}

/// Returns the automaton and the faults of `leaves`.
fn leaf_findings(alloc: Global, leaves: &[Leaf<'_>]) -> Result<Findings, BuildError>
    requires { size_of (rules_of leaves.now) ≤ 2 ^ 20 }
    ensures found { IfOk result (λ made.
        AreFindings (rules_of leaves.now) (dfa_of made.dfa) (map fault_of made.errors.items)) }
    ensures err { IfErr result (Refuses (rules_of leaves.now)) }
{
    let rules = rule_views(alloc, leaves)?;
    rule_findings(alloc, &rules)
}

/// Returns the graph of `leaves`, which must have no faults. `dfa` must be the automaton of the
/// leaves.
fn finished<'s>(
    alloc: Global,
    leaves: Vec<Leaf<'s>>,
    config: Config,
    dfa: Dfa,
) -> Result<Graph<'s>, BuildError>
    requires total { IsTotal (dfa_of dfa) }
    requires few { length (dfa_of dfa).matches ≤ MAX_STATES }
    requires late { ReadsOneByteLate (rules_of leaves.items) (dfa_of dfa) }
    requires faultless { AreFaults (rules_of leaves.items) [] }
    ensures graph { IfOk result (IsGraphOf leaves.entry.items config.utf8_mode) }
    ensures err { IfErr result (λ e. e ≡ Memory) }
{
    let table = raw_table(alloc, &leaves, &dfa)?;
    let reduced = reduce(alloc, table, 0)?;
    Ok(Graph::finished(alloc, leaves, config, dfa, reduced)?)
}

impl<'s> Graph<'s> {
    /// Returns the graph of `leaves`. The number of a leaf is its index in `leaves`.
    ///
    /// The faults of the leaves are in `errors`. If the universal start is missing, this is the
    /// only fault. Otherwise, if leaves match the empty string, these leaves are the only faults.
    /// Otherwise, all ambiguous sets of leaves are faults, in ascending order. If there is a fault,
    /// the graph has no states.
    ///
    /// # Errors
    ///
    /// Returns:
    ///
    /// - `LimitSize` if and only if the size of all trees exceeds 1,048,576.
    /// - `LimitStates` only if no pattern matches the empty string or has a look-around assertion
    ///   before its first byte, and the automaton would have more than 65,536 states.
    /// - `Memory` if memory runs out.
    pub fn new(
        alloc: Global,
        leaves: Vec<Leaf<'s>>,
        config: Config,
    ) -> Result<Graph<'s>, BuildError>
        ensures graph { IfOk result (IsGraphOf leaves.entry.items config.utf8_mode) }
        ensures err { IfErr result (Refuses (rules_of leaves.entry.items)) }
        ensures too_large { 2 ^ 20 < size_of (rules_of leaves.entry.items) →
            IfOk result (λ graph. ⊥) × IfErr result (λ e. e ≡ LimitSize) }
    {
        if !is_size_within(&leaves) {
            return Err(BuildError::LimitSize);
        }
        let Findings { dfa, errors } = leaf_findings(alloc, &leaves)?;
        if !errors.is_empty() {
            return Ok(Graph::refused(alloc, leaves, config, dfa, errors));
        }
        finished(alloc, leaves, config, dfa)
    }
}
