//! Makes the states of a graph from its table. Called by `value` once for each graph without
//! faults.

ghost use Rattle.std.specs.Prelude.{◌≡◌, ◌≢◌, ℕ, ◌<◌, ◌≤◌, ◌++◌, ◌∷◌, [], IsTrue, IsFalse, IfOk, OnOk, length, map, option_map, slice_index};
ghost use Rattle.logos_graph.specs.Views.{All, bounds, AreNeat, IsFit, IsFinished, IsRising, IsFirstFrom, Shows, size, to, mark, type_of, target_by, HaveBackward, edge_of, graph_state_of, leaf_number, state_number, state_type_of, targets, with_range, with_run, AreEdgesOf, IsStateOf};

use super::{State, StateData, StateType};
use logos_byte_class::byte_class::ByteClass;
use logos_hir::leaf::LeafId;
use logos_reduce::lists::predecessors;
use logos_reduce::rows::{END, Row, WIDTH, target_at};
use logos_reduce::table::{StateMarks, Table};
use std::alloc::{AllocError, Global};
use std::ops::RangeInclusive;

/// An edge: a class of bytes, and the state to which these bytes lead.
type Edge = (ByteClass, State);

/// Returns the index of the first edge whose target is `target` or greater, or the number of edges
/// if there is no such edge. The targets must be in ascending order.
fn slot_of(edges: &[Edge], target: usize) -> usize
    requires { IsRising (targets (map edge_of edges.now)) }
    ensures { IsFirstFrom (targets (map edge_of edges.now)) target result }
{
    let mut low = 0;
    let mut high = edges.len();
    while low < high {
        let mid = low + (high - low) / 2;
        if edges[mid].1.0 < target {
            low = mid + 1;
        } else {
            high = mid;
        }
    }
    low
}

/// Returns whether an edge exists at the index `slot` and leads to `target`.
fn is_at(edges: &[Edge], slot: usize, target: usize) -> bool
    ensures hit { IsTrue result → (slot < length edges.now)
        × (slice_index (targets (map edge_of edges.now)) slot ≡ target) }
    ensures miss { IsFalse result → slot < length edges.now →
        slice_index (targets (map edge_of edges.now)) slot ≢ target }
{
    if slot >= edges.len() {
        return false;
    }
    edges[slot].1.0 == target
}

/// Appends a range of bytes to the ranges of an edge.
fn push_range(edge: &mut Edge, range: RangeInclusive<u8>) -> Result<(), AllocError>
    ensures { OnOk result (edge_of edge.new
        ≡ ((edge_of edge.old).0 ++ bounds range ∷ [], (edge_of edge.old).1)) }
{
    edge.0.ranges.push(range)?;
    Ok(())
}

/// Returns an edge to `target` on a range of bytes.
fn new_edge(alloc: Global, range: RangeInclusive<u8>, target: usize) -> Result<Edge, AllocError>
    ensures { IfOk result (λ edge. edge_of edge ≡ (bounds range ∷ [], target)) }
{
    let mut ranges = Vec::new(alloc);
    ranges.push(range)?;
    Ok((ByteClass { ranges }, State(target)))
}

/// Appends a range of bytes to the edge to `target`. If there is no edge to `target`, inserts a new
/// edge, so that the edges remain in ascending order of their targets.
fn add_range(
    alloc: Global,
    edges: &mut Vec<Edge>,
    range: RangeInclusive<u8>,
    target: usize,
) -> Result<(), AllocError>
    requires { IsRising (targets (map edge_of edges.old.items)) }
    ensures { OnOk result (map edge_of edges.new.items
        ≡ with_range (map edge_of edges.old.items) (bounds range) target) }
{
    let slot = slot_of(edges, target);
    if is_at(edges, slot, target) {
        push_range(&mut edges[slot], range)?;
        return Ok(());
    }
    edges.insert(slot, new_edge(alloc, range, target)?)?;
    Ok(())
}

/// Returns the end of the run of equal entries that begins at the byte `from` of a row. The end is
/// the first byte after the run, or 256.
fn run_end(row: &Row, from: usize) -> usize
    requires { from < 256 }
    ensures after { from < result }
    ensures bound { result ≤ 256 }
    ensures same { (b : ℕ) → from ≤ b → b < result →
        slice_index row.now b ≡ slice_index row.now from }
    ensures changes { result < 256 → slice_index row.now result ≢ slice_index row.now from }
{
    for i in from + 1..256 {
        if row[i] != row[from] {
            return i;
        }
    }
    256
}

/// Adds a range of bytes to the edge to `target`. Does nothing if `target` is `None`.
fn add_run(
    alloc: Global,
    edges: &mut Vec<Edge>,
    range: RangeInclusive<u8>,
    target: Option<usize>,
) -> Result<(), AllocError>
    requires { IsRising (targets (map edge_of edges.old.items)) }
    ensures { OnOk result (map edge_of edges.new.items
        ≡ with_run (map edge_of edges.old.items) (bounds range) target) }
{
    let Some(target) = target else {
        return Ok(());
    };
    add_range(alloc, edges, range, target)
}

/// Returns the edges on bytes of the state with the row `row`, in ascending order of their targets.
fn edges_of(alloc: Global, row: &Row) -> Result<Vec<Edge>, AllocError>
    ensures { IfOk result (λ edges. AreEdgesOf (target_by row.now) 256 (map edge_of edges.items)) }
{
    let mut edges = Vec::new(alloc);
    let mut start = 0;
    while start < END {
        let end = run_end(row, start);
        let range = RangeInclusive::new(start as u8, (end - 1) as u8);
        add_run(alloc, &mut edges, range, target_at(row, start))?;
        start = end;
    }
    Ok(edges)
}

/// Returns the leaf with the number `number`, or `None` if `number` is `None`.
fn leaf(number: Option<usize>) -> Option<LeafId>
    ensures { option_map leaf_number result ≡ number }
{
    Some(LeafId(number?))
}

/// Returns the type of a state with the marks `mark`.
fn type_of_mark(mark: StateMarks) -> StateType
    ensures { state_type_of result ≡ type_of mark }
{
    StateType {
        accept: leaf(mark.accept),
        early: leaf(mark.early),
    }
}

/// Returns the state with the number `number`, or `None` if `number` is `None`.
fn state(number: Option<usize>) -> Option<State>
    ensures { option_map state_number result ≡ number }
{
    Some(State(number?))
}

/// Returns the states with the numbers `numbers`, in the order of `numbers`.
fn numbered(alloc: Global, numbers: &[usize]) -> Result<Vec<State>, AllocError>
    ensures { IfOk result (λ states. map state_number states.items ≡ numbers.now) }
{
    let mut states = Vec::new(alloc);
    for number in numbers {
        states.push(State(*number))?;
    }
    Ok(states)
}

/// Returns the state `s` of the table. `before` contains the numbers of the states that lead to
/// `s`.
fn state_of(
    alloc: Global,
    table: &Table,
    s: usize,
    before: &[usize],
) -> Result<StateData, AllocError>
    requires { s < size table.now }
    ensures state { IfOk result (λ state. IsStateOf table.now s (graph_state_of state)) }
    ensures backward { IfOk result (λ state. map state_number state.backward.items ≡ before.now) }
{
    let normal = edges_of(alloc, table.row(s))?;
    let backward = numbered(alloc, before)?;
    Ok(StateData {
        state_type: type_of_mark(table.mark(s)),
        normal,
        eoi: state(table.target(s, END)),
        backward,
    })
}

/// Returns the states of the graph that the table represents, in the order of their numbers.
pub(crate) fn states_of(alloc: Global, table: &Table) -> Result<Vec<StateData>, AllocError>
    ensures shows { IfOk result (λ states. Shows table.now (map graph_state_of states.items)) }
    ensures neat { IfOk result (λ states.
        All (λ state. AreNeat (graph_state_of state).normal) states.items) }
    ensures finished { IfOk result (λ states. (leaves : ℕ) → IsFit table.now leaves →
        IsFinished (map graph_state_of states.items) leaves) }
    ensures backward { IfOk result (λ states. HaveBackward states.items) }
{
    let before = predecessors(alloc, table, WIDTH)?;
    let mut states = Vec::new(alloc);
    for s in 0..table.len() {
        states.push(state_of(alloc, table, s, &before[s])?)?;
    }
    Ok(states)
}
