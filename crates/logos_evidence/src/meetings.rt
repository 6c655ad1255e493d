//! Finds a shortest input that several leaves match with the same priority. Used by `logos_causes`
//! to explain ambiguities.

ghost use Rattle.std.specs.Prelude.{◌≡◌, ◌<◌, ◌∷◌, ℕ, List, IfOk, IsTrue, MatchOption, false, length, if◌then◌else◌, option_map, bytes_eq};
ghost use Rattle.logos_evidence.specs.Imports.{IsStrictlyIncreasing, AllStart, highest_of, top_of, IsGraphOf, rules_of, IsShortestMeeting, NeverMeet, meeting_next, meeting_goal};
ghost use Rattle.logos_evidence.specs.inside.Machines as machines;

use crate::matches::priority_of;
use crate::search::{Machine, Point, shortest};
use crate::steps::{listed, listed_at_end, step_by};
use logos_graph::graph::Graph;
use logos_pattern::leaf::Leaf;
use std::alloc::{AllocError, Global};

/// A machine that follows an automaton. Its goals are the points after inputs with a prefix that
/// exactly the leaves of a set match with the highest priority.
#[derive(Clone, Copy)]
struct Meetings<'g, 's> {
    graph: &'g Graph<'s>,
    set: &'g [usize],
}

/// Returns the highest priority among the leaves in `listed`, or 0 if `listed` is empty.
fn highest(leaves: &[Leaf<'_>], listed: &[usize]) -> usize
    ensures { result ≡ highest_of (rules_of leaves.now) listed.now }
{
    let mut highest = 0;
    for leaf in listed {
        highest = priority_of(leaves, *leaf).max(highest);
    }
    highest
}

/// Returns `rest` without its first leaf if this leaf is `leaf`, and `None` otherwise. Returns
/// `rest` unchanged if `counts` is `false`.
fn after_leaf(rest: &[usize], leaf: usize, counts: bool) -> Option<&[usize]>
    ensures { MatchOption result
        (IsTrue counts × ((ys : List ℕ) → bytes_eq (leaf ∷ ys) rest.now ≡ false))
        (λ others. (ys : List ℕ) →
        bytes_eq (if counts then leaf ∷ ys else ys) rest.now ≡ bytes_eq ys others.now) }
{
    if !counts {
        return Some(rest);
    }
    let (first, others) = rest.split_first()?;
    if *first == leaf { Some(others) } else { None }
}

/// Returns whether `set` consists of exactly the leaves of highest priority in `listed`. Both lists
/// are in ascending order.
fn is_top(leaves: &[Leaf<'_>], listed: &[usize], set: &[usize]) -> bool
    ensures { result ≡ bytes_eq (top_of (rules_of leaves.now) listed.now) set.now }
{
    let highest = highest(leaves, listed);
    let mut rest = set;
    for leaf in listed {
        let counts = priority_of(leaves, *leaf) == highest;
        let Some(others) = after_leaf(rest, *leaf, counts) else {
            return false;
        };
        rest = others;
    }
    rest.is_empty()
}

/// Returns whether `set` consists of exactly the leaves of highest priority in `listed`. Returns
/// `false` if `listed` is `None`.
fn tops_are(leaves: &[Leaf<'_>], listed: Option<&[usize]>, set: &[usize]) -> bool
    ensures { result ≡ machines.tops_are (rules_of leaves.now) set.now (option_map (λ listed. listed.now) listed.entry) }
{
    match listed {
        Some(listed) => is_top(leaves, listed, set),
        None => false,
    }
}

/// Returns the point at `state`. If `met` is `true`, returns the point after the set was met, which
/// does not depend on `state`.
fn point_at(state: usize, met: bool) -> Point
    ensures { result ≡ machines.meeting_at state met }
{
    Point {
        here: if met { 0 } else { state },
        there: 0,
        begun: false,
        met,
        last: false,
    }
}

impl Machine for Meetings<'_, '_> {
    ghost leads = { λ it. meeting_next it.graph.now.automaton (rules_of it.graph.now.leaves) it.set.now };

    ghost goal = { λ it. meeting_goal it.graph.now.automaton (rules_of it.graph.now.leaves) it.set.now };

    fn next(&self, at: Point, byte: u8) -> Option<Point> {
        if at.met {
            return Some(point_at(0, true));
        }
        let dfa = self.graph.dfa();
        let here = step_by(dfa, at.here, byte)?;
        let met = tops_are(self.graph.leaves(), listed(dfa, here), self.set);
        Some(point_at(here, met))
    }

    fn is_goal(&self, at: Point) -> bool {
        let dfa = self.graph.dfa();
        at.met | tops_are(self.graph.leaves(), listed_at_end(dfa, at.here), self.set)
    }
}

/// Returns a shortest input with a prefix that exactly the leaves of a set match with the highest
/// priority. Returns `None` if and only if there is no such input. Among inputs of the same length,
/// the search prefers letters, then digits, then punctuation.
///
/// The set must be nonempty and in ascending order. The leaves must have no faults except ambiguous
/// sets.
///
/// # Errors
///
/// Returns `AllocError` if memory runs out.
pub fn meeting(
    alloc: Global,
    graph: &Graph<'_>,
    set: &[usize],
) -> Result<Option<Vec<u8>>, AllocError>
    requires some { 0 < length set.now }
    requires ascending { IsStrictlyIncreasing set.now }
    ensures { IfOk result (λ found. IsGraphOf graph.now.leaves graph.now.utf8 graph.now →
        AllStart (rules_of graph.now.leaves) → MatchOption found
        (NeverMeet (rules_of graph.now.leaves) graph.now.utf8 set.now)
        (λ bytes. IsShortestMeeting (rules_of graph.now.leaves) graph.now.utf8 set.now bytes.items)) }
{
    let machine = Meetings { graph, set };
    let start = point_at(graph.dfa().start().index(), false);
    let found = shortest(alloc, &machine, graph.utf8_mode(), start)?;
    Ok(found)
}
