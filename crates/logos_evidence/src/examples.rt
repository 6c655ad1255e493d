//! Finds a shortest input on which a lexer finds a match of a leaf first. Used by `logos_answers`
//! for `--examples`, and by the other modules that follow graphs.

ghost use Rattle.std.specs.Prelude.{◌≡◌, [], IfOk, MatchOption};
ghost use Rattle.logos_evidence.specs.Imports.{IsGraphOf, rules_of, HasNoExample, IsShortestExample, example_next, example_goal, shown};
ghost use Rattle.logos_evidence.specs.inside.Machines as machines;

use crate::graph_steps::{next_at_end, next_by, seen_by, states_of};
use crate::search::{Machine, Point, shortest};
use logos_graph::graph::{Graph, StateData};
use std::alloc::{AllocError, Global};

/// A machine that follows a graph. Its goals are the points at which the last match is a match of
/// `leaf`.
#[derive(Clone, Copy)]
struct Examples<'g> {
    states: &'g [&'g StateData],
    leaf: usize,
}

/// Returns whether the last match after a step is a match of `leaf`. `mark` is the leaf whose match
/// ends at the step. If `mark` is `None`, the result is `before`, the result for the previous step.
pub(crate) fn is_last(leaf: usize, mark: Option<usize>, before: bool) -> bool
    ensures { result ≡ machines.is_last leaf mark before }
{
    match mark {
        Some(mark) => mark == leaf,
        None => before,
    }
}

/// Returns the point at the state `here` whose other fields are 0 or `false`.
pub(crate) fn point_from(here: usize) -> Point
    ensures { result ≡ machines.point_from here }
{
    Point {
        here,
        there: 0,
        begun: false,
        met: false,
        last: false,
    }
}

impl Machine for Examples<'_> {
    ghost leads = { λ it. example_next (shown it.states.now) it.leaf };

    ghost goal = { λ it. example_goal (shown it.states.now) it.leaf };

    fn next(&self, at: Point, byte: u8) -> Option<Point> {
        let next = next_by(self.states, at.here, byte);
        let mark = seen_by(self.states, at.here, next);
        Some(Point {
            here: next.unwrap_or(self.states.len()),
            there: 0,
            begun: false,
            met: false,
            last: is_last(self.leaf, mark, at.last),
        })
    }

    fn is_goal(&self, at: Point) -> bool {
        let next = next_at_end(self.states, at.here);
        let mark = seen_by(self.states, at.here, next);
        is_last(self.leaf, mark, at.last)
    }
}

/// Returns a shortest input on which a lexer finds a match of a leaf first, or `None` if and only
/// if there is no such input. Among inputs of the same length, the search prefers letters, then
/// digits, then punctuation.
///
/// The graph must have no faults.
///
/// # Errors
///
/// Returns `AllocError` if memory runs out.
pub fn example(alloc: Global, graph: &Graph<'_>, leaf: usize) -> Result<Option<Vec<u8>>, AllocError>
    ensures { IfOk result (λ found. IsGraphOf graph.now.leaves graph.now.utf8 graph.now →
        graph.now.faults ≡ [] → MatchOption found
        (HasNoExample (rules_of graph.now.leaves) graph.now.utf8 leaf)
        (λ bytes. IsShortestExample (rules_of graph.now.leaves) graph.now.utf8 leaf bytes.items)) }
{
    let states = states_of(alloc, graph)?;
    let machine = Examples {
        states: &states,
        leaf,
    };
    let found = shortest(alloc, &machine, graph.utf8_mode(), point_from(0))?;
    Ok(found)
}
