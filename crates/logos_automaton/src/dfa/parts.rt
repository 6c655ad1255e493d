//! Functions that return the number of states of an automaton, and the leaves and targets of each
//! state. Called by `faults`, `logos_attempts`, `logos_evidence`, `logos_graph` and `logos_html`.

ghost use Rattle.std.specs.Prelude.{◌≡◌, ◌<◌, Some, length, slice_get};
ghost use Rattle.logos_automaton.specs.DfaView.{dfa_of};

use super::{Dfa, Row};

/// Returns the number of states of an automaton.
pub fn state_count(dfa: &Dfa) -> usize
    ensures { result ≡ length (dfa_of dfa.now).matches }
{
    dfa.rows.len()
}

/// Returns the numbers of the leaves of a state, in ascending order.
pub fn leaves_at(dfa: &Dfa, state: usize) -> &[usize]
    requires { state < length (dfa_of dfa.now).matches }
    ensures { slice_get (dfa_of dfa.now).matches state ≡ Some result.now }
{
    &dfa.states[state].matches
}

/// Returns the targets of a state for all bytes.
pub fn row_at(dfa: &Dfa, state: usize) -> &Row
    requires { state < length (dfa_of dfa.now).matches }
    ensures { slice_get (dfa_of dfa.now).by_byte state ≡ Some result.now }
{
    &dfa.rows[state]
}

/// Returns the target of a state for the end of the input.
pub fn end_at(dfa: &Dfa, state: usize) -> u32
    requires { state < length (dfa_of dfa.now).matches }
    ensures { slice_get (dfa_of dfa.now).at_end state ≡ Some result }
{
    dfa.ends[state]
}
