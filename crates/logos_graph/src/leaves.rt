//! Turns leaves into rules of an automaton. Called by `graph::construction`, which then builds the
//! automaton.

ghost use Rattle.std.specs.Prelude.{◌≡◌, ◌^◌, ◌≤◌, ◌↔◌, IsTrue, IfOk};
ghost use Rattle.logos_graph.specs.Imports.{size_of, rule_of, rules_of};
ghost use Rattle.logos_automaton.specs.View as views;

use logos_automaton::measures::{limited_size, plus};
use logos_automaton::rule::RuleView;
use logos_pattern::leaf::{Leaf, VariantKind};
use std::alloc::{AllocError, Global};

/// Returns whether the trees of all leaves have a total size of at most 1,048,576. Does not
/// allocate.
pub(crate) fn is_size_within(leaves: &[Leaf<'_>]) -> bool
    ensures { IsTrue result ↔ (size_of (rules_of leaves.now) ≤ 2 ^ 20) }
{
    let mut sum = Some(0);
    for leaf in leaves {
        sum = plus(sum, limited_size(leaf.pattern.hir()));
    }
    sum.is_some()
}

/// Returns the rule of a leaf. The rule borrows the tree of the leaf.
fn rule_view<'l>(leaf: &'l Leaf<'_>) -> RuleView<'l>
    ensures { views.rule_of result ≡ rule_of leaf.now }
{
    RuleView {
        tree: leaf.pattern.hir(),
        priority: leaf.priority,
        skips: matches!(leaf.kind, VariantKind::Skip),
        calls_back: leaf.callback.is_some(),
    }
}

/// Returns the rules of `leaves`, in the order of the leaves.
pub(crate) fn rule_views<'l>(
    alloc: Global,
    leaves: &'l [Leaf<'_>],
) -> Result<Vec<RuleView<'l>>, AllocError>
    ensures { IfOk result (λ rules. views.rules_of rules.items ≡ rules_of leaves.now) }
{
    let mut rules = Vec::new(alloc);
    for leaf in leaves {
        rules.push(rule_view(leaf))?;
    }
    Ok(rules)
}
