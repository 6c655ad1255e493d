//! Defines rules: the parts of leaves that an automaton needs. `logos_graph` creates a rule for
//! each of its leaves.

ghost use Rattle.std.specs.Prelude.{◌≡◌};
ghost use Rattle.logos_automaton.specs.Faults as faults;
ghost use Rattle.logos_automaton.specs.Rules as inner;
ghost use Rattle.logos_automaton.specs.View.{rules_of};

use crate::measures::{has_look, leads, passable};
use logos_hir::hir::Hir;

/// The parts of a leaf that an automaton needs: its tree, its priority, and the use of its matches.
#[derive(Clone, Copy)]
pub struct RuleView<'h> {
    /// The tree of the leaf's pattern.
    pub tree: &'h Hir,
    /// The leaf's priority.
    pub priority: usize,
    /// Whether the leaf's matches are skipped.
    pub skips: bool,
    /// Whether a callback is called for each match.
    pub calls_back: bool,
}

/// Returns whether the tree of at least one rule can have a look-around assertion before its first
/// byte.
pub fn some_leads(rules: &[RuleView<'_>]) -> bool
    ensures { result ≡ faults.some_leads (rules_of rules.now) }
{
    for rule in rules {
        if leads(rule.tree) {
            return true;
        }
    }
    false
}

/// Returns whether the tree of at least one rule can match the empty string.
pub fn some_passable(rules: &[RuleView<'_>]) -> bool
    ensures { result ≡ faults.some_passable (rules_of rules.now) }
{
    for rule in rules {
        if passable(rule.tree) {
            return true;
        }
    }
    false
}

/// Returns whether the tree of at least one rule has a look-around assertion.
pub fn some_look(rules: &[RuleView<'_>]) -> bool
    ensures { result ≡ inner.some_look (rules_of rules.now) }
{
    for rule in rules {
        if has_look(rule.tree) {
            return true;
        }
    }
    false
}
