//! The graph of a lexer, and its methods. `construction` makes graphs, and the generator of codes
//! reads them. Part of the public interface.

ghost use Rattle.std.specs.Prelude.{◌≡◌, ◌≢◌, ℕ, ◌-◌, ◌<◌, ◌↔◌, [], IsTrue, IfOk, Some, length, map, slice_get, string_bytes};
ghost use Rattle.logos_graph.specs.Views.{range_with_len, dfa_of, fault_of, IsFit, IsFinished, mermaid_of, Shows, YieldsEvidence, YieldsFirstBy, item_count, AreBackward, graph_state_of, state_number, states_left};

use super::display::Listing;
use super::mermaid::diagram;
use super::states::states_of;
use super::{Config, GraphError, State, StateData};
use logos_automaton::dfa::Dfa;
use logos_pattern::leaf::Leaf;
use logos_reduce::reduction::Reduction;
use logos_token::error::Memory;
use std::alloc::{AllocError, Global};
use std::fmt;
use std::marker::Model;

/// The graph of a lexer: its leaves and their faults, its states, and the edges between them.
#[derive(Drop)]
pub struct Graph<'s> {
    leaves: Vec<Leaf<'s>>,
    config: Config,
    dfa: Dfa,
    errors: Vec<GraphError>,
    states: Vec<StateData>,
    reduced: Option<Reduction>,
}

/// An iterator over the states of a graph, in the order of their numbers.
#[derive(Clone, Copy)]
pub struct States {
    next: usize,
    end: usize,
}

impl<'s> Model for Graph<'s> {
    ghost use Rattle.std.specs.Prelude.{[]};
    ghost use Rattle.logos_graph.specs.Imports.{codes, named, GraphValue};
    ghost use Rattle.logos_hir.specs.contracts.hir.Hir as e;
    ghost use Rattle.logos_type.specs.contracts.type_expr.TypePart as p;

    ghost Value = { GraphValue };

    ghost coded = { Prim.hlevel (
      codes,
      e.the_row.coded,
      (p.the_row (record { mir = named 1; lft = [] })).coded,
    ) };

    ghost use Rattle.logos_graph.specs.Views.{value_of, IsConsistent};

    ghost view = { value_of };

    ghost invariant = { IsConsistent };
}

impl<'s> Graph<'s> {
    /// Returns the graph of `leaves`, whose faults are `errors`. The graph has no states.
    pub(crate) fn refused(
        alloc: Global,
        leaves: Vec<Leaf<'s>>,
        config: Config,
        dfa: Dfa,
        errors: Vec<GraphError>,
    ) -> Graph<'s>
        requires { map fault_of errors.items ≢ [] }
        ensures { result ≡ record {
          leaves = leaves.entry.items;
          utf8 = config.utf8_mode;
          faults = map fault_of errors.items;
          states = [];
          automaton = dfa_of dfa;
        } }
    {
        Graph {
            leaves,
            config,
            dfa,
            errors,
            states: Vec::new(alloc),
            reduced: None,
        }
    }

    /// Returns the graph of `leaves` that the table of `reduced` represents. The graph has no
    /// faults.
    pub(crate) fn finished(
        alloc: Global,
        leaves: Vec<Leaf<'s>>,
        config: Config,
        dfa: Dfa,
        reduced: Reduction,
    ) -> Result<Graph<'s>, AllocError>
        requires fit { IsFit reduced.table (length leaves.items) }
        requires evidence { YieldsEvidence reduced }
        ensures leaves { IfOk result (λ graph. graph.leaves ≡ leaves.entry.items) }
        ensures utf8 { IfOk result (λ graph. graph.utf8 ≡ config.utf8_mode) }
        ensures faults { IfOk result (λ graph. graph.faults ≡ []) }
        ensures shows { IfOk result (λ graph. Shows reduced.table graph.states) }
        ensures automaton { IfOk result (λ graph. graph.automaton ≡ dfa_of dfa) }
    {
        let states = states_of(alloc, &reduced.table)?;
        Ok(Graph {
            leaves,
            config,
            dfa,
            errors: Vec::new(alloc),
            states,
            reduced: Some(reduced),
        })
    }

    /// Returns the leaves from which the graph was made.
    pub fn leaves(&self) -> &[Leaf<'s>]
        ensures { result.now ≡ self.now.leaves }
    {
        &self.leaves
    }
}

impl Graph<'_> {
    /// Returns the state in which each match attempt begins. The graph must have states. A graph
    /// without faults has states.
    pub fn root(&self) -> State
        requires { 0 < length self.now.states }
        ensures root { result.0 ≡ 0 }
        ensures finished { self.now.faults ≡ [] →
            IsFinished self.now.states (length self.now.leaves) }
    {
        // Reading a field brings the invariant of the type into the proof.
        let _ = &self.states;
        State(0)
    }

    /// Returns an iterator over all states, in the order of their numbers. A graph with faults has
    /// no states.
    pub fn iter_states(&self) -> States
        ensures states { states_left result ≡ range_with_len 0 (length self.now.states) }
        ensures finished { self.now.faults ≡ [] →
            IsFinished self.now.states (length self.now.leaves) }
        ensures none { self.now.faults ≢ [] → self.now.states ≡ [] }
    {
        States {
            next: 0,
            end: self.states.len(),
        }
    }

    /// Returns whether `state` is a state of this graph.
    pub fn contains(&self, state: State) -> bool
        ensures { IsTrue result ↔ (state.0 < length self.now.states) }
    {
        state.0 < self.states.len()
    }

    /// Returns the type and the edges of `state`, which must be a state of this graph.
    pub fn get_state(&self, state: State) -> &StateData
        requires { state.0 < length self.now.states }
        ensures state { slice_get self.now.states state.0 ≡ Some (graph_state_of result.now) }
        ensures backward { AreBackward self.now.states state.0
            (map state_number result.now.backward.items) }
    {
        &self.states[state.0]
    }

    /// Returns the reduction whose table the graph represents. The graph must have states.
    pub(crate) fn reduced(&self) -> &Reduction
        requires { 0 < length self.now.states }
        ensures shows { Shows result.now.table self.now.states }
        ensures evidence { YieldsEvidence result.now }
    {
        match &self.reduced {
            Some(reduced) => reduced,
            None => unreachable!(),
        }
    }

    /// Returns the automaton from which the graph was made.
    pub fn dfa(&self) -> &Dfa
        ensures { dfa_of result.now ≡ self.now.automaton }
    {
        &self.dfa
    }

    /// Returns the faults of the leaves. A graph with faults has no states.
    pub fn errors(&self) -> &[GraphError]
        ensures { map fault_of result.now ≡ self.now.faults }
    {
        &self.errors
    }

    /// Returns the state diagram of the graph in Mermaid's language: a flow chart with a node for
    /// each state and for each edge.
    ///
    /// # Errors
    ///
    /// Returns `Memory` if memory runs out.
    pub fn get_mermaid(&self, alloc: Global) -> Result<String, Memory>
        ensures { IfOk result (λ text. string_bytes text ≡ mermaid_of self.now.states) }
    {
        Ok(diagram(alloc, &self.states)?)
    }

    /// Returns whether inputs are UTF-8, so that an error ends between characters.
    pub fn utf8_mode(&self) -> bool
        ensures { result ≡ self.now.utf8 }
    {
        self.config.utf8_mode
    }
}

/// Prints the states with their numbers and marks, and a line for each edge.
impl fmt::Display for Graph<'_> {
    fn fmt<W: fmt::Write>(&self, f: &mut fmt::Formatter<W>) -> fmt::Result {
        let listing = Listing {
            states: &self.states,
        };
        write!(f, "{listing}")
    }
}

impl Iterator for States {
    type Item = State;

    ghost next_gives = { YieldsFirstBy state_number states_left };

    ghost remaining = { item_count states_left };

    fn next(&mut self) -> Option<State> {
        if self.next >= self.end {
            return None;
        }
        let state = State(self.next);
        self.next += 1;
        Some(state)
    }
}
