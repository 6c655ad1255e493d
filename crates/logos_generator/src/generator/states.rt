//! Turns the states of a graph into the states of a code. `Generator::generate` calls `code_of`.

ghost use Rattle.std.specs.Prelude.{◌≡◌, ◌<◌, [], IfOk, OnOk, length, map, option_map};
ghost use Rattle.logos_generator.specs.Imports.{All, range_with_len, RunsAs, mark_made, mark_of, state_of, code_leaf_value, leaf_value, IsFinished, Extends, IsStateOf, HasNodesOf, numbered, state_uses, tests_of, uses_from, fork_tables, tables_from, with_tables, jump_tables_of, state_number, state_type_of, graph_state_of, states_left, leaf_use, AreStatesOf, AreTablesOf, IsCodable};

use super::fork::{impl_fork, maybe_impl_fast_loop};
use super::leaves::leaves_of;
use super::node_tables::NodeTables;
use super::tests_by_bits::tables_of;
use logos_code::code::{Code, CodeParts, CodeState, Header, Mark};
use logos_code::make_code;
use logos_graph::graph::{Graph, State, StateData, StateType, States};
use std::alloc::{AllocError, Global};

/// Returns the code of a graph with the header `header`. `states` are the states of the graph. Adds
/// the tests and jump tables of the code to `tables`, which must be empty.
pub(super) fn code_of<'s>(
    alloc: Global,
    tables: &mut NodeTables,
    header: Header<'s>,
    graph: &Graph<'s>,
    states: States,
) -> Result<Code<'s>, AllocError>
    requires finished { IsFinished graph.now.states (length graph.now.leaves) }
    requires states { states_left states ≡ range_with_len 0 (length graph.now.states) }
    requires tests { tables.old.tests.keys ≡ [] }
    requires jumps { tables.old.jumps.keys ≡ [] }
    ensures tests { OnOk result (tables.new.tests.keys ≡ tests_of graph.now.states) }
    ensures jumps { OnOk result (tables.new.jumps.keys ≡ jump_tables_of graph.now.states) }
    ensures nodes { IfOk result (HasNodesOf graph.now.states) }
    ensures runs { IfOk result (λ code. RunsAs graph.now.states graph.now.utf8 code) }
    ensures mode { IfOk result (λ code. code.utf8 ≡ graph.now.utf8) }
    ensures leaves { IfOk result (λ code. code.leaves ≡ map leaf_use graph.now.leaves) }
    ensures header { IfOk result (λ code. code.header ≡ header.entry) }
    ensures code_leaves { IfOk result
        (λ code. map code_leaf_value code.code_leaves ≡ map leaf_value graph.now.leaves) }
{
    let made = tables_made(alloc, tables, graph, states)?;
    let leaves = leaves_of(alloc, graph.leaves())?;
    let parts = CodeParts {
        header,
        states: made.states,
        bit_tables: made.bit_tables,
        jump_tables: made.jump_tables,
        leaves,
        root: 0,
        utf8: graph.utf8_mode(),
    };
    make_code(alloc, parts)
}

/// The states of a code, and the tables that they use.
#[derive(Drop)]
struct Tables {
    states: Vec<CodeState>,
    bit_tables: Vec<[u8; 256]>,
    jump_tables: Vec<[u32; 256]>,
}

/// Returns the states of the code, with their tables. Adds the tests and jump tables to `tables`,
/// which must be empty.
fn tables_made(
    alloc: Global,
    tables: &mut NodeTables,
    graph: &Graph,
    states: States,
) -> Result<Tables, AllocError>
    requires codable { All IsCodable graph.now.states }
    requires states { states_left states ≡ range_with_len 0 (length graph.now.states) }
    requires tests { tables.old.tests.keys ≡ [] }
    requires jumps { tables.old.jumps.keys ≡ [] }
    ensures tests { OnOk result (tables.new.tests.keys ≡ tests_of graph.now.states) }
    ensures jumps { OnOk result (tables.new.jumps.keys ≡ jump_tables_of graph.now.states) }
    ensures tables { IfOk result (λ tables. AreTablesOf graph.now.states tables.states.items
        tables.bit_tables.items tables.jump_tables.items) }
{
    let states = states_of(alloc, tables, graph, states)?;
    let bit_tables = tables_of(alloc, tables.tests.as_slice())?;
    let jump_tables = Vec::from_slice(alloc, tables.jumps.as_slice())?;
    Ok(Tables {
        states,
        bit_tables,
        jump_tables,
    })
}

/// Returns the states of the code, in the order of the graph's states. Adds the tests and jump
/// tables of the states to `tables` if they are new.
fn states_of(
    alloc: Global,
    tables: &mut NodeTables,
    graph: &Graph,
    states: States,
) -> Result<Vec<CodeState>, AllocError>
    requires codable { All IsCodable graph.now.states }
    requires states { states_left states ≡ range_with_len 0 (length graph.now.states) }
    ensures are { IfOk result (λ made.
        AreStatesOf tables.new.tests.keys tables.new.jumps.keys graph.now.states made.items) }
    ensures numbers { OnOk result (tables.new.tests.keys
        ≡ numbered tables.old.tests.keys (uses_from 0 graph.now.states)) }
    ensures tables { OnOk result (tables.new.jumps.keys
        ≡ with_tables tables.old.jumps.keys (tables_from 0 graph.now.states)) }
{
    let mut made = Vec::new(alloc);
    for state in states {
        made.push(state_made(alloc, tables, graph.get_state(state), state.index())?)?;
    }
    Ok(made)
}

/// Returns the code's state for `state`, which has the index `s` in the graph. Adds the tests and
/// the jump table of the state to `tables` if they are new.
fn state_made(
    alloc: Global,
    tables: &mut NodeTables,
    state: &StateData,
    s: usize,
) -> Result<CodeState, AllocError>
    requires { IsCodable (graph_state_of state.now) }
    ensures tests { OnOk result (Extends tables.old.tests.keys tables.new.tests.keys) }
    ensures jumps { OnOk result (Extends tables.old.jumps.keys tables.new.jumps.keys) }
    ensures is { IfOk result (λ made. IsStateOf tables.new.tests.keys s
        (graph_state_of state.now) (state_of tables.new.jumps.keys made)) }
    ensures numbers { OnOk result (tables.new.tests.keys
        ≡ numbered tables.old.tests.keys (state_uses s (graph_state_of state.now).normal)) }
    ensures tables { OnOk result (tables.new.jumps.keys
        ≡ with_tables tables.old.jumps.keys (fork_tables s (graph_state_of state.now).normal)) }
{
    let fast_loop = maybe_impl_fast_loop(&mut tables.tests, &state.normal, s)?;
    let fork = impl_fork(alloc, tables, &state.normal, s)?;
    Ok(CodeState {
        fast_loop,
        mark: mark_made(&state.state_type),
        fork,
        at_end: number_of(state.eoi),
    })
}

/// Returns the number of a state, or `None` if `state` is `None`.
fn number_of(state: Option<State>) -> Option<usize>
    ensures { result ≡ option_map state_number state }
{
    match state {
        Some(state) => Some(state.index()),
        None => None,
    }
}

/// Returns the mark of a state, or `None` if the state has no mark. An early mark takes precedence
/// over a late mark.
fn mark_made(state_type: &StateType) -> Option<Mark>
    ensures { option_map mark_of result ≡ mark_made (state_type_of state_type.now) }
{
    match (state_type.early, state_type.accept) {
        (Some(leaf), _) => Some(Mark { leaf, late: false }),
        (None, Some(leaf)) => Some(Mark { leaf, late: true }),
        (None, None) => None,
    }
}
