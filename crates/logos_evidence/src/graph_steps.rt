//! Functions that take steps of a graph, and find the matches that end at a step. Used by
//! `comparison`, `cover`, `examples` and `losses`.

ghost use Rattle.std.specs.Prelude.{◌≡◌, [], IfOk, find, length, map, option_map};
ghost use Rattle.logos_evidence.specs.Imports.{has_byte, IsFinished, edge_of, graph_state_of, is_in, shown};
ghost use Rattle.logos_graph.specs.Graph as graphs;
ghost use Rattle.logos_evidence.specs.inside.Lasts as lasts;

use logos_byte_class::byte_class::ByteClass;
use logos_graph::graph::{Graph, State, StateData};
use std::alloc::{AllocError, Global};

/// Returns the states of a graph, in the order of their numbers.
///
/// # Errors
///
/// Returns `AllocError` if memory runs out.
pub(crate) fn states_of<'g>(
    alloc: Global,
    graph: &'g Graph<'_>,
) -> Result<Vec<&'g StateData>, AllocError>
    ensures states { IfOk result (λ states. shown states.items ≡ graph.now.states) }
    ensures finished { IfOk result (λ states. graph.now.faults ≡ [] →
        IsFinished graph.now.states (length graph.now.leaves)) }
{
    let mut states = Vec::new(alloc);
    for state in graph.iter_states() {
        states.push(graph.get_state(state))?;
    }
    Ok(states)
}

/// Returns whether a class contains a byte.
fn holds(class: &ByteClass, byte: u8) -> bool
    ensures { result ≡ has_byte class.now byte }
{
    for range in &class.ranges {
        if *range.start() <= byte && byte <= *range.end() {
            return true;
        }
    }
    false
}

/// Returns the target of the first of `edges` whose class contains `byte`, or `None` if there is no
/// such edge.
fn target_of(edges: &[(ByteClass, State)], byte: u8) -> Option<usize>
    ensures { result ≡ option_map (λ edge. edge.1)
        (find (λ edge. is_in edge.0 byte) (map edge_of edges.now)) }
{
    for edge in edges {
        if holds(&edge.0, byte) {
            return Some(edge.1.index());
        }
    }
    None
}

/// Returns the target of the edge of the state `from` whose class contains `byte`, or `None` if
/// there is no such edge.
fn target_in(from: &StateData, byte: u8) -> Option<usize>
    ensures { result ≡ option_map (λ edge. edge.1)
        (find (λ edge. is_in edge.0 byte) (graph_state_of from.now).normal) }
{
    target_of(&from.normal, byte)
}

/// Returns the state to which `byte` leads from `state`, or `None` if there is no such edge or no
/// such `state`.
pub(crate) fn next_by(states: &[&StateData], state: usize, byte: u8) -> Option<usize>
    ensures { result ≡ graphs.next_by (shown states.now) state byte }
{
    let data = states.get(state)?;
    let target = target_in(data, byte)?;
    Some(target)
}

/// Returns the state to which the end of the input leads from `state`, or `None` if there is no
/// such edge or no such `state`.
pub(crate) fn next_at_end(states: &[&StateData], state: usize) -> Option<usize>
    ensures { result ≡ graphs.next_at_end (shown states.now) state }
{
    let data = states.get(state)?;
    let next = data.eoi?;
    Some(next.index())
}

/// Returns the early mark of a state, which is the leaf whose match ends at the state. Returns
/// `None` if the state has no early mark or does not exist.
fn early_of(states: &[&StateData], state: usize) -> Option<usize>
    ensures { result ≡ lasts.early_of (shown states.now) state }
{
    let data = states.get(state)?;
    let leaf = data.state_type.early?;
    Some(leaf.0)
}

/// Returns the late mark of a state, which is the leaf whose match ends one byte before the state.
/// Returns `None` if the state has no late mark or does not exist.
fn late_of(states: &[&StateData], state: usize) -> Option<usize>
    ensures { result ≡ lasts.late_of (shown states.now) state }
{
    let data = states.get(state)?;
    let leaf = data.state_type.accept?;
    Some(leaf.0)
}

/// Returns the leaf whose match ends at `state`, or `None` if no match ends at `state`. `next` is
/// the state to which the step from `state` leads. The leaf is the late mark of `next`, or the
/// early mark of `state` if `next` has no late mark.
pub(crate) fn seen_by(states: &[&StateData], state: usize, next: Option<usize>) -> Option<usize>
    ensures { result ≡ lasts.seen_by (shown states.now) state next }
{
    let Some(next) = next else {
        return early_of(states, state);
    };
    match late_of(states, next) {
        Some(leaf) => Some(leaf),
        None => early_of(states, state),
    }
}
