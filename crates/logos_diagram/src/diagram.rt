//! The function `diagram_of`, which draws the state diagram of a lexer as Mermaid text. Called by
//! `logos_show`.

use crate::edges::{Drawn, push_edges, push_state};
use crate::label::Mermaid;
use logos_graph::graph::{Graph, StateData};
use std::alloc::{AllocError, Global};

/// The graph of a lexer, with the name of its enum.
#[derive(Clone, Copy)]
pub struct DiagramLexer<'p, 's> {
    /// The name of the enum.
    pub name: &'p str,
    pub graph: &'p Graph<'s>,
}

/// Returns the state diagram of a lexer as Mermaid text, with a line for each drawn state and each
/// edge. The bytes of a character outside ASCII form one edge, and the states between the bytes are
/// not drawn.
///
/// # Errors
///
/// Returns `AllocError` if memory runs out.
pub fn diagram_of(alloc: Global, lexer: DiagramLexer<'_, '_>) -> Result<String, AllocError> {
    let states = states_of(alloc, lexer.graph)?;
    let mut drawn = Drawn {
        seen: vec![in alloc; false; states.len()]?,
        reached: Vec::new(alloc),
    };
    drawn.add(0)?;
    let mut mermaid = Mermaid::new(alloc);
    push_head(&mut mermaid, lexer.name);
    for number in 0..states.len() {
        push_next(
            alloc,
            &mut mermaid,
            lexer.graph,
            &states,
            &mut drawn,
            number,
        )?;
    }
    mermaid.finish()
}

/// Appends the comment at the top of the diagram of the enum `name`, and the kind of the diagram.
fn push_head(mermaid: &mut Mermaid, name: &str) {
    mermaid.push_code("%% The states of the lexer ");
    mermaid.push_label(name);
    mermaid.push_code(
        ". Each match attempt begins in state 0.
%% Sets of bytes are written as in a pattern, and \\d, \\s and \\w are those of ASCII. A match ends
%% where a state names its leaf, or one byte before if the mark is late.
flowchart LR
",
    );
}

/// Appends the lines of a state and of its edges, and adds the targets of the edges to `drawn`. The
/// state is at the index `number` of the drawn states. Appends nothing if there is no such state.
fn push_next(
    alloc: Global,
    mermaid: &mut Mermaid,
    graph: &Graph<'_>,
    states: &[&StateData],
    drawn: &mut Drawn,
    number: usize,
) -> Result<(), AllocError> {
    if number >= drawn.reached.len() {
        return Ok(());
    }
    let state = drawn.reached[number];
    if state >= states.len() {
        return Ok(());
    }
    push_state(mermaid, graph, state, states[state]);
    push_edges(alloc, mermaid, states, drawn, state)
}

/// Returns the states of a graph, in the order of their numbers.
fn states_of<'g>(alloc: Global, graph: &'g Graph<'_>) -> Result<Vec<&'g StateData>, AllocError> {
    let mut states = Vec::new(alloc);
    for state in graph.iter_states() {
        states.push(graph.get_state(state))?;
    }
    Ok(states)
}
