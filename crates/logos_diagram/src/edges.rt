//! Functions that append the lines of a state and of its edges to a diagram. Called by `diagram`.

use crate::folds::{add_folded, is_folded, size_of};
use crate::label::Mermaid;
use crate::names::{EdgeLabel, push_edge_label};
use logos_answers::name_at;
use logos_graph::byte_class::ByteClass;
use logos_graph::graph::{Graph, State, StateData};
use std::alloc::{AllocError, Global};

/// The states that are drawn, in the order in which edges reach them.
#[derive(Drop)]
pub(crate) struct Drawn {
    /// Whether each state is drawn, indexed by the number of the state.
    pub(crate) seen: Vec<bool>,
    /// The numbers of the drawn states.
    pub(crate) reached: Vec<usize>,
}

impl Drawn {
    /// Adds the state with the number `state`, unless it was added before or does not exist.
    ///
    /// # Errors
    ///
    /// Returns `AllocError` if memory runs out.
    pub(crate) fn add(&mut self, state: usize) -> Result<(), AllocError> {
        if state >= self.seen.len() {
            return Ok(());
        }
        if self.seen[state] {
            return Ok(());
        }
        self.reached.push(state)?;
        self.seen[state] = true;
        Ok(())
    }
}

/// Appends the line of the state with the number `state`, including the state's mark if the state
/// is marked.
pub(crate) fn push_state(mermaid: &mut Mermaid, graph: &Graph<'_>, state: usize, data: &StateData) {
    push_id(mermaid, state);
    match (data.state_type.early, data.state_type.accept) {
        (Some(leaf), _) => push_marked(mermaid, graph, state, leaf.0, ""),
        (None, Some(leaf)) => push_marked(mermaid, graph, state, leaf.0, ", late"),
        (None, None) => {
            mermaid.push_code("((\"");
            mermaid.push_number(state);
            mermaid.push_code("\"))\n");
        }
    }
}

/// Appends the label of a state with a mark: the state's number, the name of the mark's leaf, and
/// `end`.
fn push_marked(
    mermaid: &mut Mermaid,
    graph: &Graph<'_>,
    state: usize,
    leaf: usize,
    end: &'static str,
) {
    mermaid.push_code("([\"");
    mermaid.push_number(state);
    mermaid.push_code(" ");
    mermaid.push_label(name_at(graph.leaves(), leaf));
    mermaid.push_code(end);
    mermaid.push_code("\"])\n");
}

/// Appends the name of the node of the state with the number `state`.
fn push_id(mermaid: &mut Mermaid, state: usize) {
    mermaid.push_code("s");
    mermaid.push_number(state);
}

/// Appends the lines of the edges of the state with the number `state`, and adds the targets of the
/// edges to `drawn`. Changes nothing if there is no such state.
///
/// # Errors
///
/// Returns `AllocError` if memory runs out. Then some lines may have been appended.
pub(crate) fn push_edges(
    alloc: Global,
    mermaid: &mut Mermaid,
    states: &[&StateData],
    drawn: &mut Drawn,
    state: usize,
) -> Result<(), AllocError> {
    let Some(data) = states.get(state) else {
        return Ok(());
    };
    let mut wide = vec![in alloc; 0; states.len()]?;
    count_wide(states, &data.normal, &mut wide);
    let edges = EdgesFrom {
        states,
        state,
        data: *data,
    };
    push_narrow_edges(alloc, mermaid, edges, drawn, &mut wide)?;
    push_wide_edges(alloc, mermaid, edges, drawn, &wide)?;
    push_end_edge(mermaid, drawn, state, data.eoi)
}

/// The states of a graph, and the number and the data of one of the states.
#[derive(Clone, Copy)]
struct EdgesFrom<'a> {
    states: &'a [&'a StateData],
    state: usize,
    data: &'a StateData,
}

/// Adds to `wide`, for each target state, the number of characters of the folded edges in `edges`
/// that lead to the target.
fn count_wide(states: &[&StateData], edges: &[(ByteClass, State)], wide: &mut Vec<usize>) {
    for edge in edges {
        if is_folded(states, edge) {
            add_folded(states, edge, wide);
        }
    }
}

/// Appends the edges that are not folded, each combined with the characters outside ASCII that lead
/// to the edge's target. Sets the counts of these characters in `wide` to 0, and adds the targets
/// of the edges to `drawn`.
fn push_narrow_edges(
    alloc: Global,
    mermaid: &mut Mermaid,
    from: EdgesFrom<'_>,
    drawn: &mut Drawn,
    wide: &mut Vec<usize>,
) -> Result<(), AllocError> {
    for edge in &from.data.normal {
        if !is_folded(from.states, edge) {
            push_narrow(alloc, mermaid, from, edge, taken(wide, edge.1.index()))?;
            drawn.add(edge.1.index())?;
        }
    }
    Ok(())
}

/// Returns the count in `wide` of the state with the number `state`, and sets the count to 0.
/// Returns 0 if there is no such state.
fn taken(wide: &mut Vec<usize>, state: usize) -> usize {
    if state >= wide.len() {
        return 0;
    }
    let count = wide[state];
    wide[state] = 0;
    count
}

/// Appends an edge that is not folded, combined with the `wide` characters outside ASCII that lead
/// to the edge's target.
fn push_narrow(
    alloc: Global,
    mermaid: &mut Mermaid,
    from: EdgesFrom<'_>,
    edge: &(ByteClass, State),
    wide: usize,
) -> Result<(), AllocError> {
    let label = EdgeLabel {
        class: Some(&edge.0),
        is_rest: (wide == 0) & is_rest(from.data, &edge.0),
        wide,
    };
    push_edge(alloc, mermaid, from.state, edge.1.index(), label)
}

/// Returns whether the edges of a state cover all bytes, and `class` contains either all bytes or
/// at least 128 bytes in several ranges.
fn is_rest(data: &StateData, class: &ByteClass) -> bool {
    let mut size: usize = 0;
    for edge in &data.normal {
        size = size.saturating_add(size_of(&edge.0));
    }
    (size == 256) & (size_of(class) >= 128) & ((class.ranges.len() > 1) | (size_of(class) == 256))
}

/// Appends an edge to each state with a count above 0 in `wide`, and adds the state to `drawn`.
/// Only characters outside ASCII take these edges.
fn push_wide_edges(
    alloc: Global,
    mermaid: &mut Mermaid,
    from: EdgesFrom<'_>,
    drawn: &mut Drawn,
    wide: &[usize],
) -> Result<(), AllocError> {
    for target in 0..wide.len() {
        if wide[target] > 0 {
            push_only_wide(alloc, mermaid, from.state, target, wide[target])?;
            drawn.add(target)?;
        }
    }
    Ok(())
}

/// Appends an edge from `state` to `target` that only `wide` characters outside ASCII take.
fn push_only_wide(
    alloc: Global,
    mermaid: &mut Mermaid,
    state: usize,
    target: usize,
    wide: usize,
) -> Result<(), AllocError> {
    let label = EdgeLabel {
        class: None,
        is_rest: false,
        wide,
    };
    push_edge(alloc, mermaid, state, target, label)
}

/// Appends the line of an edge from `state` to `target` with the label `label`.
fn push_edge(
    alloc: Global,
    mermaid: &mut Mermaid,
    state: usize,
    target: usize,
    label: EdgeLabel<'_>,
) -> Result<(), AllocError> {
    push_id(mermaid, state);
    mermaid.push_code(" -->|\"");
    push_edge_label(alloc, mermaid, label)?;
    mermaid.push_code("\"| ");
    push_id(mermaid, target);
    mermaid.push_code("\n");
    Ok(())
}

/// Appends the line of the edge from `state` to `end` at the end of the input, and adds `end` to
/// `drawn`. Changes nothing if `end` is `None`.
fn push_end_edge(
    mermaid: &mut Mermaid,
    drawn: &mut Drawn,
    state: usize,
    end: Option<State>,
) -> Result<(), AllocError> {
    let Some(target) = end else {
        return Ok(());
    };
    push_id(mermaid, state);
    mermaid.push_code(" -.->|\"end of input\"| ");
    push_id(mermaid, target.index());
    mermaid.push_code("\n");
    drawn.add(target.index())
}
