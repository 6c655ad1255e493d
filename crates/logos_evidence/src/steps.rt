//! Functions that take steps of an automaton, and return the leaves that its states list. Used by
//! `losses` and `meetings`.

ghost use Rattle.std.specs.Prelude.{◌≡◌, option_map, slice_get};
ghost use Rattle.logos_automaton.specs.DfaView.{dfa_of};
ghost use Rattle.logos_evidence.specs.inside.Steps as steps;

use logos_automaton::dfa::Dfa;
use logos_automaton::dfa::parts::{end_at, leaves_at, row_at, state_count};

/// Returns the state to which `byte` leads from `state`, or `None` if the automaton does not have
/// `state`.
pub(crate) fn step_by(dfa: &Dfa, state: usize, byte: u8) -> Option<usize>
    ensures { result ≡ steps.step_by (dfa_of dfa.now) state byte }
{
    if state >= state_count(dfa) {
        return None;
    }
    Some(row_at(dfa, state)[byte as usize] as usize)
}

/// Returns the state to which the end of the input leads from `state`, or `None` if the automaton
/// does not have `state`.
fn step_at_end(dfa: &Dfa, state: usize) -> Option<usize>
    ensures { result ≡ steps.step_at_end (dfa_of dfa.now) state }
{
    if state >= state_count(dfa) {
        return None;
    }
    Some(end_at(dfa, state) as usize)
}

/// Returns the leaves that `state` lists, or `None` if the automaton does not have `state`.
pub(crate) fn listed(dfa: &Dfa, state: usize) -> Option<&[usize]>
    ensures { option_map (λ leaves. leaves.now) result ≡ slice_get (dfa_of dfa.now).matches state }
{
    if state >= state_count(dfa) {
        return None;
    }
    Some(leaves_at(dfa, state))
}

/// Returns the leaves that are listed by the state to which the end of the input leads from
/// `state`. Returns `None` if the automaton does not have `state`.
pub(crate) fn listed_at_end(dfa: &Dfa, state: usize) -> Option<&[usize]>
    ensures { option_map (λ leaves. leaves.now) result ≡ steps.listed_at_end (dfa_of dfa.now) state }
{
    listed(dfa, step_at_end(dfa, state)?)
}
