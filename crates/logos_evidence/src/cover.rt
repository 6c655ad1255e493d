//! Finds inputs that together take all edges of a graph. Used by `logos_answers` and
//! `logos_records` for `--inputs`.

ghost use Rattle.std.specs.Prelude.{◌≡◌, IfOk, map};
ghost use Rattle.logos_evidence.specs.Imports.{AreCoveringInputs, edge_next, edge_goal, shown};

use crate::examples::point_from;
use crate::graph_steps::{next_at_end, next_by, states_of};
use crate::search::{Machine, Point, covering};
use logos_graph::graph::{Graph, StateData};
use std::alloc::{AllocError, Global};

/// A machine that follows the edges of a graph. Its goals are the points at states with an edge for
/// the end of the input.
#[derive(Clone, Copy)]
struct EdgeMachine<'g> {
    states: &'g [&'g StateData],
}

impl Machine for EdgeMachine<'_> {
    ghost leads = { λ it. edge_next (shown it.states.now) };

    ghost goal = { λ it. edge_goal (shown it.states.now) };

    fn next(&self, at: Point, byte: u8) -> Option<Point> {
        let here = next_by(self.states, at.here, byte)?;
        Some(point_from(here))
    }

    fn is_goal(&self, at: Point) -> bool {
        next_at_end(self.states, at.here).is_some()
    }
}

/// Returns inputs that together take each edge of a graph that at least one input takes. These
/// edges include the edges for the end of the input. The inputs are seeds for tests and fuzzers.
///
/// Each input takes an edge that no earlier input takes, so there are at most as many inputs as
/// edges. In UTF-8 mode the inputs are UTF-8. Inputs that lead to states far from the root come
/// first. Each input has at most one byte for each state on its way, and at most four further
/// bytes. The total length of all inputs can grow with the square of the number of states, for
/// example if an enum has many keywords and a leaf for names.
///
/// # Errors
///
/// Returns `AllocError` if memory runs out.
pub fn covering_inputs(alloc: Global, graph: &Graph<'_>) -> Result<Vec<Vec<u8>>, AllocError>
    ensures { IfOk result (λ inputs. AreCoveringInputs graph.now.states graph.now.utf8
        (map (λ v. v.items) inputs.items)) }
{
    let states = states_of(alloc, graph)?;
    let machine = EdgeMachine { states: &states };
    let inputs = covering(alloc, &machine, graph.utf8_mode(), point_from(0))?;
    Ok(inputs)
}
