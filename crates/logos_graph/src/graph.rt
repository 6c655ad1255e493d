//! The types of graphs: their options, states and edges. Used by every crate that reads a graph.

ghost use Rattle.std.specs.Prelude.{◌≡◌};
ghost use Rattle.logos_graph.specs.StateEquality.{same_state, same_state_laws};

mod construction;
mod display;
mod evidence;
mod mermaid;
mod states;
mod value;

pub use evidence::Telling;
pub use logos_automaton::dfa::{Children, Dfa, DfaStates, Matches, StateId};
pub use logos_automaton::errors::{BuildError, GraphError};
pub use logos_byte_class::byte_class::{ByteClass, Comparisons};
use logos_hir::leaf::LeafId;
pub use value::{Graph, States};

/// The options with which a graph is built.
#[derive(Clone, Copy, Debug, PartialEq, Eq)]
pub struct Config {
    /// Whether inputs are UTF-8, so that an error ends between characters.
    pub utf8_mode: bool,
}

/// A state of a graph, identified by its number.
#[derive(Clone, Copy, Debug, PartialEq, Eq)]
pub struct State(pub(crate) usize);

impl State {
    /// Returns the number of the state, which is 0 for the root.
    pub fn index(self) -> usize
        ensures { result ≡ self.0 }
    {
        self.0
    }
}

/// The marks of a state: the leaves whose matches end at the state, or one byte before the state.
#[derive(Clone, Copy, Debug, PartialEq, Eq)]
pub struct StateType {
    /// The leaf of the late mark, whose match ends one byte before the state, or `None` if there is
    /// no late mark.
    pub accept: Option<LeafId>,
    /// The leaf of the early mark, whose match ends at the state, or `None` if there is no early
    /// mark.
    pub early: Option<LeafId>,
}

/// A state of a graph: its type and its edges.
#[derive(Debug, Drop)]
pub struct StateData {
    pub state_type: StateType,
    /// The edges on bytes, in ascending order of their targets. Each edge consists of a class of
    /// bytes, and the target to which these bytes lead.
    pub normal: Vec<(ByteClass, State)>,
    /// The target of the end of the input, or `None` if the end leads nowhere.
    pub eoi: Option<State>,
    /// The states from which a byte or the end leads to this state, in ascending order and without
    /// duplicates. The equality of states ignores this field.
    pub backward: Vec<State>,
}

/// Compares the types and the edges of states, but not the states that lead to them.
impl PartialEq for StateData {
    ghost eq = { same_state };

    ghost laws = { same_state_laws };

    fn eq(&self, other: &StateData) -> bool {
        self.state_type == other.state_type && self.normal == other.normal && self.eoi == other.eoi
    }
}
