//! Counts the bytes that decide which matches start at an offset. Used by `descriptions`.

ghost use Rattle.std.specs.Prelude.{◌≡◌, ◌<◌, ℕ, IfSome, IsTrue, Some, length};
ghost use Rattle.logos_html.specs.Imports.{IsDead, IsEnough, dfa_next, dfa_of};

use logos_automaton::dfa::parts::{end_at, leaves_at};
use logos_automaton::dfa::{Dfa, StateId};

/// The number of values of a byte.
const BYTES: usize = 256;

/// Returns the length of a prefix of `rest` that decides which matches start at the beginning of
/// `rest`. This is the number of bytes after which the automaton is in its dead state, or the
/// length of `rest` if the automaton never reaches the dead state.
///
/// Returns `None` if the automaton has no dead state, or if `rest` is longer than `most` bytes and
/// the automaton does not reach the dead state after fewer than `most` bytes.
pub(crate) fn enough_bytes(dfa: &Dfa, rest: &[u8], most: usize) -> Option<usize>
    ensures { IfSome result (IsEnough (dfa_of dfa.now) rest.now) }
{
    let dead = dfa.next_eoi_state(dfa.next_eoi_state(dfa.start()));
    if !is_dead(dfa, dead) {
        return None;
    }
    let mut state = dfa.start();
    for count in 0..rest.len().min(most) {
        if state.index() == dead.index() {
            return Some(count);
        }
        state = dfa.next_state(state, rest[count]);
    }
    if most < rest.len() {
        return None;
    }
    Some(rest.len())
}

/// Returns whether a state is dead: whether the state has no leaf, and each byte and the end of the
/// input lead from the state back to the state itself.
fn is_dead(dfa: &Dfa, state: StateId) -> bool
    requires { state.0 < length (dfa_of dfa.now).matches }
    ensures { IsTrue result → IsDead (dfa_of dfa.now) state.0 }
{
    if !leaves_at(dfa, state.index()).is_empty() {
        return false;
    }
    if end_at(dfa, state.index()) as usize != state.index() {
        return false;
    }
    stays(dfa, state)
}

/// Returns whether each byte leads from a state back to the state itself.
fn stays(dfa: &Dfa, state: StateId) -> bool
    requires { state.0 < length (dfa_of dfa.now).matches }
    ensures { IsTrue result → (b : ℕ) → b < 256 →
        dfa_next (dfa_of dfa.now) (Some state.0) b ≡ Some state.0 }
{
    for byte in 0..BYTES {
        if dfa.next_state(state, byte as u8).index() != state.index() {
            return false;
        }
    }
    true
}
