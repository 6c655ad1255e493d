//! Finds a shortest input that begins with a match of a leaf, but on which a lexer finds a match of
//! another leaf first. Used by `logos_answers` for `--examples`, and by `logos_causes` for
//! warnings.

ghost use Rattle.std.specs.Prelude.{◌≡◌, ◌==◌, [], IfOk, MatchOption, option_map};
ghost use Rattle.logos_evidence.specs.Imports.{list_any, IsGraphOf, rules_of, IsShortestLoss, NeverLoses, dfa_of, loss_next, loss_goal, shown};
ghost use Rattle.logos_evidence.specs.inside.Machines as machines;

use crate::examples::{is_last, point_from};
use crate::graph_steps::{next_at_end, next_by, seen_by, states_of};
use crate::search::{Machine, Point, shortest};
use crate::steps::{listed, listed_at_end, step_by};
use logos_automaton::dfa::Dfa;
use logos_graph::graph::{Graph, StateData};
use std::alloc::{AllocError, Global};

/// A machine that follows an automaton and its graph. Its goals are the points at which `leaf` has
/// matched, but the last match is a match of another leaf.
#[derive(Clone, Copy)]
struct Losses<'g> {
    dfa: &'g Dfa,
    states: &'g [&'g StateData],
    leaf: usize,
}

/// Returns whether a leaf is among `leaves`.
fn is_among(leaf: usize, leaves: &[usize]) -> bool
    ensures { result ≡ list_any (λ other. other == leaf) leaves.now }
{
    leaves.iter().any(|other| *other == leaf)
}

/// Returns whether a leaf is among `leaves`, or `false` if `leaves` is `None`.
fn lists(leaf: usize, leaves: Option<&[usize]>) -> bool
    ensures { result ≡ machines.lists leaf (option_map (λ listed. listed.now) leaves.entry) }
{
    match leaves {
        Some(leaves) => is_among(leaf, leaves),
        None => false,
    }
}

impl Machine for Losses<'_> {
    ghost leads = { λ it. loss_next (dfa_of it.dfa.now) (shown it.states.now) it.leaf };

    ghost goal = { λ it. loss_goal (dfa_of it.dfa.now) (shown it.states.now) it.leaf };

    fn next(&self, at: Point, byte: u8) -> Option<Point> {
        let here = step_by(self.dfa, at.here, byte)?;
        let next = next_by(self.states, at.there, byte);
        let mark = seen_by(self.states, at.there, next);
        Some(Point {
            here,
            there: next.unwrap_or(self.states.len()),
            begun: false,
            met: at.met | lists(self.leaf, listed(self.dfa, here)),
            last: is_last(self.leaf, mark, at.last),
        })
    }

    fn is_goal(&self, at: Point) -> bool {
        let next = next_at_end(self.states, at.there);
        let mark = seen_by(self.states, at.there, next);
        let met = at.met | lists(self.leaf, listed_at_end(self.dfa, at.here));
        met & !is_last(self.leaf, mark, at.last)
    }
}

/// Returns a shortest input that begins with a match of the leaf with the number `leaf`, but on
/// which a lexer finds a match of another leaf first. Returns `None` if and only if there is no
/// such input. Among inputs of the same length, the search prefers letters, then digits, then
/// punctuation.
///
/// The graph must have no faults.
///
/// # Errors
///
/// Returns `AllocError` if memory runs out.
pub fn loses(alloc: Global, graph: &Graph<'_>, leaf: usize) -> Result<Option<Vec<u8>>, AllocError>
    ensures { IfOk result (λ found. IsGraphOf graph.now.leaves graph.now.utf8 graph.now →
        graph.now.faults ≡ [] → MatchOption found
        (NeverLoses (rules_of graph.now.leaves) graph.now.utf8 leaf)
        (λ bytes. IsShortestLoss (rules_of graph.now.leaves) graph.now.utf8 leaf bytes.items)) }
{
    let states = states_of(alloc, graph)?;
    let dfa = graph.dfa();
    let machine = Losses {
        dfa,
        states: &states,
        leaf,
    };
    let start = point_from(dfa.start().index());
    let found = shortest(alloc, &machine, graph.utf8_mode(), start)?;
    Ok(found)
}
