//! Prepares the trees of rules for the automaton. `dfa::builder` calls `nodes_of` before it builds
//! the states.

ghost use Rattle.std.specs.Prelude.{◌^◌, ◌≤◌, IfOk, map};
ghost use Rattle.logos_automaton.specs.Views.{core_of, AreMeasured, AreRuleCores, size_of, rules_of};

use crate::rule::RuleView;
use logos_positions::node::Node;
use logos_positions::preparation::prepare;
use std::alloc::{AllocError, Global};

/// Returns the prepared trees of `rules`. The total size of all trees must be at most 1,048,576.
///
/// # Errors
///
/// Returns `AllocError` if memory runs out.
pub fn nodes_of(alloc: Global, rules: &[RuleView<'_>]) -> Result<Vec<Node>, AllocError>
    requires { size_of (rules_of rules.now) ≤ 2 ^ 20 }
    ensures cores { IfOk result (λ nodes.
        AreRuleCores (rules_of rules.now) (map core_of nodes.items)) }
    ensures measured { IfOk result (λ nodes. AreMeasured nodes.items) }
{
    let mut nodes = Vec::new(alloc);
    for rule in rules {
        let node = prepare(alloc, rule.tree)?;
        nodes.push(node)?;
    }
    Ok(nodes)
}
