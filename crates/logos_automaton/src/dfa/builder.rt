//! Builds the automaton of rules. A loop over the states, beginning with the start, computes the
//! targets of each state. `Graph::new` of `logos_graph` calls `build` after it has checked the size
//! of the rules.

ghost use Rattle.std.specs.Prelude.{◌≡◌, ◌^◌, ◌<◌, ◌≤◌, ◌+◌, [], Bool, false, List, IfOk, IfErr, OnOk, length, map, vec_len};
ghost use Rattle.logos_automaton.specs.Views.{AreFree, Core, core_of, AreMeasured, width_of, size_of, AllStart, IsTotal, ReadsOneByteLate, IsCacheOf, IsPrepared, cores_of, IsUnderway, FailsOn, FailsFor, dfa_of, AreDistinct, AreReached, IsBuilt, rules_of};

use super::Dfa;
use crate::byte_equivalence::kind_bytes;
use crate::cache::StepCache;
use crate::errors::BuildError;
use crate::key::{Key, number_of, start_key};
use crate::nodes::nodes_of;
use crate::row::{Row, end_after, narrowed, row_of};
use crate::rule::{RuleView, some_look};
use crate::trees::{Trees, starts_of};
use indexmap::IndexSet;
use logos_positions::node::Node;
use std::alloc::{AllocError, Global};

/// The greatest number of states that an automaton can have.
pub const MAX_STATES: usize = 65_536;

/// Returns the set of states that contains only the start.
///
/// # Errors
///
/// Returns `AllocError` if memory runs out.
fn only_start(alloc: Global) -> Result<IndexSet<Key>, AllocError>
    ensures { (looks : Bool) (ts : List Core) →
        IfOk result (λ states. IsUnderway ts looks states.keys [] []) }
{
    let mut states = IndexSet::new(alloc);
    number_of(&mut states, start_key(alloc))?;
    Ok(states)
}

/// Returns the states in the order of their numbers. Drops the hash index of `states`, which a
/// `Dfa` does not need.
///
/// # Errors
///
/// Returns `AllocError` if memory runs out.
fn in_order(alloc: Global, states: IndexSet<Key>) -> Result<Vec<Key>, AllocError>
    ensures { IfOk result (λ list. list.items ≡ states.keys) }
{
    states.into_iter().collect(alloc)
}

/// Computes the targets of the first state without targets, and appends them to `rows` and `ends`.
/// Adds each new target to `states`.
///
/// # Errors
///
/// Returns `LimitStates` if there are more states than an automaton can have, and `Memory` if
/// memory runs out.
fn fill_next(
    trees: &Trees<'_>,
    cache: &mut StepCache,
    states: &mut IndexSet<Key>,
    rows: &mut Vec<Row>,
    ends: &mut Vec<u32>,
) -> Result<(), BuildError>
    requires prepared { IsPrepared trees.now }
    requires cached { IsCacheOf trees.now cache.old }
    requires left { vec_len rows.old < length states.old.keys }
    requires underway { IsUnderway (cores_of trees.now)
        trees.now.looks states.old.keys rows.old.items ends.old.items }
    ensures cached { OnOk result (IsCacheOf trees.now cache.new) }
    ensures underway { OnOk result (IsUnderway (cores_of trees.now)
        trees.now.looks states.new.keys rows.new.items ends.new.items) }
    ensures next { OnOk result (vec_len rows.new ≡ vec_len rows.old + 1) }
    ensures fails { IfErr result (FailsOn (cores_of trees.now) trees.now.looks) }
{
    let state = rows.len();
    let row = row_of(trees, cache, states, state)?;
    let end = end_after(trees, states, state, row[0])?;
    if states.len() > MAX_STATES {
        return Err(BuildError::LimitStates);
    }
    rows.push(narrowed(&row))?;
    ends.push(end)?;
    Ok(())
}

/// Builds the automaton of the prepared trees `nodes`. `looks` is `true` if at least one of the
/// trees has a look-around assertion.
///
/// # Errors
///
/// Returns `LimitStates` if the automaton would have more than 65,536 states, and `Memory` if
/// memory runs out.
fn build_nodes(alloc: Global, nodes: &[Node], looks: bool) -> Result<Dfa, BuildError>
    requires fits { width_of (map core_of nodes.now) < 2 ^ 64 }
    requires measured { AreMeasured nodes.now }
    requires free { looks ≡ false → AreFree (map core_of nodes.now) }
    ensures built { IfOk result (λ dfa.
        IsBuilt (map core_of nodes.now) looks 0 dfa.states.items dfa.rows.items dfa.ends.items) }
    ensures distinct { IfOk result (λ dfa. AreDistinct dfa.states.items) }
    ensures reached { IfOk result (λ dfa.
        AreReached (map core_of nodes.now) looks dfa.states.items) }
    ensures few { IfOk result (λ dfa. length dfa.states.items ≤ MAX_STATES) }
    ensures fails { IfErr result (FailsOn (map core_of nodes.now) looks) }
{
    let starts = starts_of(alloc, nodes)?;
    let kinds = kind_bytes();
    let trees = Trees {
        alloc,
        nodes,
        starts: &starts,
        looks,
        kinds: &kinds,
    };
    let mut cache = StepCache::new(alloc);
    let mut states = only_start(alloc)?;
    let mut rows = Vec::new(alloc);
    let mut ends = Vec::new(alloc);
    while rows.len() < states.len() {
        fill_next(&trees, &mut cache, &mut states, &mut rows, &mut ends)?;
    }
    let ordered = in_order(alloc, states)?;
    Ok(Dfa {
        states: ordered,
        rows,
        ends,
    })
}

/// Builds the automaton of `rules`. The total size of all trees must be at most 1,048,576.
///
/// # Errors
///
/// Returns `LimitStates` if the automaton would have more than 65,536 states, and `Memory` if
/// memory runs out.
pub fn build(alloc: Global, rules: &[RuleView<'_>]) -> Result<Dfa, BuildError>
    requires size { size_of (rules_of rules.now) ≤ 2 ^ 20 }
    requires start { AllStart (rules_of rules.now) }
    ensures late { IfOk result (λ dfa. ReadsOneByteLate (rules_of rules.now) (dfa_of dfa)) }
    ensures total { IfOk result (λ dfa. IsTotal (dfa_of dfa)) }
    ensures few { IfOk result (λ dfa. length (dfa_of dfa).matches ≤ MAX_STATES) }
    ensures fails { IfErr result (FailsFor (rules_of rules.now)) }
{
    let nodes = nodes_of(alloc, rules)?;
    build_nodes(alloc, &nodes, some_look(rules))
}
