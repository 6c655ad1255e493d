//! Defines the automaton of rules. Its states record each match one byte late. `logos_graph`
//! reduces the automaton to a graph.

ghost use Rattle.std.specs.Prelude.{◌≡◌, ◌<◌, length, vec_len};
ghost use Rattle.logos_automaton.specs.Imports.{AreReachable, AreByteRows, LeadWithin, EndWithin};
ghost use Rattle.logos_automaton.specs.Keys.{automaton_of};

pub mod builder;
pub mod parts;
pub mod walks;

use crate::key::Key;
pub use crate::row::Row;
pub use walks::{Children, DfaStates, Matches, StateId};

/// An automaton that reads bytes and the end of the input.
///
/// Each state has the leaves that match all bytes read except the last one, or all bytes if the end
/// was read. Each state also has a target for each byte and a target for the end.
#[derive(Drop)]
pub struct Dfa {
    states: Vec<Key>,
    rows: Vec<Row>,
    ends: Vec<u32>,
    ghost rows_there: { vec_len rows ≡ length states.items },
    ghost ends_there: { vec_len ends ≡ length states.items },
    ghost start_there: { 0 < length states.items },
    ghost wide: { AreByteRows rows.items },
    ghost leads: { LeadWithin rows.items (length states.items) },
    ghost ends_within: { EndWithin ends.items (length states.items) },
    ghost reached: { AreReachable (automaton_of 0 states.items rows.items ends.items) },
}
