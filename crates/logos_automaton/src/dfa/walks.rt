//! Defines the public interface for walking through an automaton from state to state. Also used by
//! `logos_causes`, `logos_evidence` and `logos_html`.

ghost use Rattle.std.specs.Prelude.{◌≤◌, ◌≡◌};

use super::Dfa;
use super::parts::leaves_at;
use crate::row::SYMBOLS;
use logos_hir::leaf::LeafId;

/// A state of an automaton, identified by its number.
#[derive(Clone, Copy, Debug, PartialEq, Eq)]
pub struct StateId(pub(crate) usize);

/// An iterator over the leaves of a state, in ascending order.
#[derive(Clone, Copy)]
pub struct Matches<'d> {
    leaves: &'d [usize],
}

/// An iterator over the targets of a state: the target for each byte from 0 to 255, and then the
/// target for the end. A state that is the target of several symbols occurs once for each symbol.
#[derive(Clone, Copy)]
pub struct Children<'d> {
    row: &'d [u16],
    end: Option<u32>,
}

/// An iterator over the states of an automaton, in ascending order of their numbers.
#[derive(Clone, Copy)]
pub struct DfaStates {
    next: usize,
    count: usize,
    ghost ordered: { next ≤ count },
}

impl StateId {
    /// Returns the number of the state. The number of the start is 0.
    pub fn index(self) -> usize
        ensures { result ≡ self.0 }
    {
        self.0
    }
}

impl Dfa {
    ghost use Rattle.std.specs.Prelude.{◌≡◌, ◌<◌, ◌↔◌, ℕ, IsTrue, Some, Contains, length, slice_get};
    ghost use Rattle.logos_automaton.specs.Views.{All, range_with_len, dfa_next, IsReachable, dfa_of, matches_left, children_left, states_left};

    /// Returns the start, which is the state before the first byte.
    pub fn start(&self) -> StateId
        ensures start { result.0 ≡ (dfa_of self.now).start }
        ensures within { result.0 < length (dfa_of self.now).matches }
    {
        StateId(0)
    }

    /// Returns whether the automaton contains the state, that is, whether the state's number is
    /// less than the number of states.
    pub fn contains(&self, state: StateId) -> bool
        ensures { IsTrue result ↔ (state.0 < length (dfa_of self.now).matches) }
    {
        state.0 < self.rows.len()
    }

    /// Returns the target of a state for `byte`. The automaton must contain the state.
    pub fn next_state(&self, state: StateId, byte: u8) -> StateId
        requires { state.0 < length (dfa_of self.now).matches }
        ensures next { dfa_next (dfa_of self.now) (Some state.0) byte ≡ Some result.0 }
        ensures within { result.0 < length (dfa_of self.now).matches }
    {
        StateId(self.rows[state.0][byte as usize] as usize)
    }

    /// Returns the target of a state for the end of the input. The automaton must contain the
    /// state.
    pub fn next_eoi_state(&self, state: StateId) -> StateId
        requires { state.0 < length (dfa_of self.now).matches }
        ensures next { slice_get (dfa_of self.now).at_end state.0 ≡ Some result.0 }
        ensures within { result.0 < length (dfa_of self.now).matches }
    {
        StateId(self.ends[state.0] as usize)
    }

    /// Returns the leaves of a state, in ascending order. These leaves match all bytes read except
    /// the last one, or all bytes if the end was read. The automaton must contain the state.
    pub fn iter_matches(&self, state: StateId) -> Matches<'_>
        requires { state.0 < length (dfa_of self.now).matches }
        ensures { slice_get (dfa_of self.now).matches state.0 ≡ Some (matches_left result) }
    {
        Matches {
            leaves: leaves_at(self, state.0),
        }
    }

    /// Returns the targets of a state: the target for each byte from 0 to 255, and then the target
    /// for the end. The automaton must contain the state.
    pub fn iter_children(&self, state: StateId) -> Children<'_>
        requires { state.0 < length (dfa_of self.now).matches }
        ensures count { length (children_left result) ≡ SYMBOLS }
        ensures by_byte { (byte : ℕ) → byte < 256 → slice_get (children_left result) byte ≡
            dfa_next (dfa_of self.now) (Some state.0) byte }
        ensures at_end { slice_get (children_left result) 256 ≡
            slice_get (dfa_of self.now).at_end state.0 }
        ensures within { All (λ child. child < length (dfa_of self.now).matches)
            (children_left result) }
    {
        Children {
            row: &self.rows[state.0],
            end: Some(self.ends[state.0]),
        }
    }

    /// Returns all states of the automaton, in ascending order of their numbers. The first state is
    /// the start, from which bytes and the end lead to all others.
    pub fn get_states(&self) -> DfaStates
        ensures all { states_left result ≡ range_with_len 0 (length (dfa_of self.now).matches) }
        ensures reached { (s : ℕ) → Contains (states_left result) s ↔
            IsReachable (dfa_of self.now) s }
    {
        DfaStates {
            next: 0,
            count: self.rows.len(),
        }
    }
}

impl Iterator for Matches<'_> {
    type Item = LeafId;

    ghost use Rattle.logos_automaton.specs.Views.{YieldsFirstBy, item_count, matches_left};

    ghost next_gives = { YieldsFirstBy (λ leaf. leaf.0) matches_left };

    ghost remaining = { item_count matches_left };

    fn next(&mut self) -> Option<LeafId> {
        let (first, rest) = self.leaves.split_first()?;
        self.leaves = rest;
        Some(LeafId(*first))
    }
}

impl Iterator for Children<'_> {
    type Item = StateId;

    ghost use Rattle.logos_automaton.specs.Views.{YieldsFirstBy, item_count, children_left};

    ghost next_gives = { YieldsFirstBy (λ state. state.0) children_left };

    ghost remaining = { item_count children_left };

    fn next(&mut self) -> Option<StateId> {
        if let Some((first, rest)) = self.row.split_first() {
            self.row = rest;
            return Some(StateId(*first as usize));
        }
        let end = self.end?;
        self.end = None;
        Some(StateId(end as usize))
    }
}

impl Iterator for DfaStates {
    type Item = StateId;

    ghost use Rattle.logos_automaton.specs.Views.{YieldsFirstBy, item_count, states_left};

    ghost next_gives = { YieldsFirstBy (λ state. state.0) states_left };

    ghost remaining = { item_count states_left };

    fn next(&mut self) -> Option<StateId> {
        if self.next == self.count {
            return None;
        }
        let state = StateId(self.next);
        self.next += 1;
        Some(state)
    }
}
