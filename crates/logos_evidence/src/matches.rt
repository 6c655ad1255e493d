//! Finds all matches of leaves that begin at an offset of an input. Used by `meetings`,
//! `logos_answers`, `logos_causes` and `logos_records`.

ghost use Rattle.std.specs.Prelude.{◌≡◌, ◌≤◌, ◌⊎◌, ◌++◌, [], IfOk, MatchOption, OnOk, length, map};
ghost use Rattle.logos_evidence.specs.Views.{AllStart, IsGraphOf, rules_of, IsBytes, AreMatches, IsAtMost, IsWinner, match_to, priority_of};

use logos_automaton::dfa::parts::leaves_at;
use logos_graph::graph::Graph;
use logos_pattern::leaf::Leaf;
use std::alloc::{AllocError, Global};

/// A match of a leaf that begins at a known offset of an input.
#[derive(Clone, Copy, Debug, PartialEq, Eq)]
pub struct Match {
    /// The number of the leaf.
    pub leaf: usize,
    /// The byte offset in the input at which the match ends.
    pub end: usize,
    /// The priority of the leaf.
    pub priority: usize,
}

/// Returns the priority of the leaf with the number `leaf`, or 0 if there is no such leaf.
pub(crate) fn priority_of(leaves: &[Leaf<'_>], leaf: usize) -> usize
    ensures { result ≡ priority_of (rules_of leaves.now) leaf }
{
    match leaves.get(leaf) {
        Some(leaf) => leaf.priority,
        None => 0,
    }
}

/// Appends a match to `found` for each leaf in `listed`. Each match ends at the byte offset `end`.
///
/// # Errors
///
/// Returns `AllocError` if memory runs out. Then some of the matches may have been appended.
fn add_matches(
    found: &mut Vec<Match>,
    leaves: &[Leaf<'_>],
    listed: &[usize],
    end: usize,
) -> Result<(), AllocError>
    ensures { OnOk result (found.new.items ≡ found.old.items ++
        map (match_to (priority_of (rules_of leaves.now)) end) listed.now) }
{
    for leaf in listed {
        let priority = priority_of(leaves, *leaf);
        found.push(Match {
            leaf: *leaf,
            end,
            priority,
        })?;
    }
    Ok(())
}

/// Returns all matches of all leaves that begin at the byte offset `from` of an input. The matches
/// are in the order of their ends, and matches with the same end are in the order of their leaves.
/// `from` must be at most the length of the input.
///
/// The leaves must have no faults except ambiguous sets. The input is read to its end.
///
/// # Errors
///
/// Returns `AllocError` if memory runs out.
pub fn matches_from(
    alloc: Global,
    graph: &Graph<'_>,
    input: &[u8],
    from: usize,
) -> Result<Vec<Match>, AllocError>
    requires { from ≤ length input.now }
    ensures { IfOk result (λ found. IsGraphOf graph.now.leaves graph.now.utf8 graph.now →
        AllStart (rules_of graph.now.leaves) → IsBytes input.now →
        AreMatches (rules_of graph.now.leaves) input.now from found.items) }
{
    let dfa = graph.dfa();
    let mut found = Vec::new(alloc);
    let mut state = dfa.start();
    for end in from..input.len() {
        state = dfa.next_state(state, input[end]);
        add_matches(
            &mut found,
            graph.leaves(),
            leaves_at(dfa, state.index()),
            end,
        )?;
    }
    let last = dfa.next_eoi_state(state);
    add_matches(
        &mut found,
        graph.leaves(),
        leaves_at(dfa, last.index()),
        input.len(),
    )?;
    Ok(found)
}

/// Returns the better of two matches: the longer match, or the match of higher priority if both
/// have the same length. Returns `one` if the priorities are equal, too.
fn better(one: Match, other: Match) -> Match
    ensures among { (result ≡ one) ⊎ (result ≡ other) }
    ensures first { IsAtMost one result }
    ensures second { IsAtMost other result }
{
    if one.end < other.end {
        return other;
    }
    if one.end == other.end && one.priority < other.priority {
        return other;
    }
    one
}

/// Returns the match that a lexer selects among `matches`, which are all matches from an offset.
/// This is the longest match. If several matches are longest, it is the first one with the highest
/// priority among them. Returns `None` if there is no match.
pub fn winner(matches: &[Match]) -> Option<Match>
    ensures { MatchOption result (matches.now ≡ []) (IsWinner matches.now) }
{
    let (first, _) = matches.split_first()?;
    let mut best = *first;
    for other in matches {
        best = better(best, *other);
    }
    Some(best)
}
