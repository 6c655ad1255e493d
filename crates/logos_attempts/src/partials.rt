//! Finds partial matches. A partial match is the longest prefix of a leaf's match that an input has
//! at an offset, together with the bytes that continue the prefix. Called by `partial_lines`.

use crate::classes::run_at;
use logos_automaton::dfa::Dfa;
use logos_automaton::dfa::parts::{end_at, leaves_at, row_at, state_count};
use logos_graph::byte_class::ByteClass;
use logos_graph::graph::Graph;
use std::alloc::{AllocError, Global};
use std::ops::RangeInclusive;

/// The longest nonempty prefix of a leaf's match that an input has at an offset.
#[derive(Debug, Drop)]
pub struct PartialMatch {
    /// The index of the leaf.
    pub leaf: usize,
    /// The byte offset of the input at which the prefix ends.
    pub end: usize,
    /// The bytes that continue the prefix, and the bytes before which a match ends.
    pub next: ByteClass,
    /// The bytes that complete a match if the input ends after them.
    pub last: ByteClass,
    /// Whether a match ends at the end of the prefix if the input ends at this point.
    pub may_end: bool,
}

/// The states that an automaton enters on an input from an offset, and all states that edges reach
/// from the entered states.
#[derive(Drop)]
struct Walk {
    /// For each state, the byte offset of the end of the longest prefix that leads to the state, or
    /// 0 if no prefix leads to it.
    ends: Vec<usize>,
    /// The entered states, and all states to which edges lead from entered states, directly or
    /// through other states.
    reached: Vec<usize>,
    /// The edges between the reached states. Equal edges for consecutive bytes are stored once.
    edges: Vec<Edge>,
}

/// An edge of an automaton, from `state` to `target`.
#[derive(Clone, Copy)]
struct Edge {
    state: usize,
    target: usize,
}

/// Returns the partial matches from the byte offset `from` of an input on, at most one for each
/// leaf, in the order of the leaves.
///
/// # Errors
///
/// Returns `AllocError` if memory runs out.
pub fn partial_matches(
    alloc: Global,
    graph: &Graph<'_>,
    input: &[u8],
    from: usize,
) -> Result<Vec<PartialMatch>, AllocError> {
    let dfa = graph.dfa();
    let walk = walk_of(alloc, dfa, input, from)?;
    let mut found = Vec::new(alloc);
    for leaf in 0..graph.leaves().len() {
        add_partial(alloc, &mut found, dfa, &walk, leaf)?;
    }
    Ok(found)
}

/// Returns the states that an automaton enters on an input from the byte offset `from`, and all
/// states that edges reach from the entered states.
fn walk_of(alloc: Global, dfa: &Dfa, input: &[u8], from: usize) -> Result<Walk, AllocError> {
    let ends = ends_of(alloc, dfa, input, from)?;
    let mut walk = Walk {
        ends,
        reached: Vec::new(alloc),
        edges: Vec::new(alloc),
    };
    add_reached(alloc, dfa, &mut walk)?;
    Ok(walk)
}

/// Returns for each state the byte offset of the end of the longest prefix that begins at `from`
/// and leads to the state, or 0 if no prefix leads to the state.
fn ends_of(alloc: Global, dfa: &Dfa, input: &[u8], from: usize) -> Result<Vec<usize>, AllocError> {
    let mut ends = vec![in alloc; 0; state_count(dfa)]?;
    let mut state = dfa.start().index();
    for at in from..input.len() {
        state = next_by(dfa, state, input[at] as usize);
        set_end(&mut ends, state, at.saturating_add(1));
    }
    Ok(ends)
}

/// Returns the state to which `byte` leads from `state`. Returns `state` if the automaton does not
/// contain `state`.
fn next_by(dfa: &Dfa, state: usize, byte: usize) -> usize {
    if state >= state_count(dfa) {
        return state;
    }
    row_at(dfa, state)[byte % 256] as usize
}

/// Returns whether `state` lists a leaf, or `false` if the automaton does not contain `state`.
fn lists(dfa: &Dfa, state: usize, leaf: usize) -> bool {
    if state >= state_count(dfa) {
        return false;
    }
    leaves_at(dfa, state).contains(&leaf)
}

/// Returns whether the state to which the end of the input leads from `state` lists a leaf, or
/// `false` if the automaton does not contain `state`.
fn lists_at_end(dfa: &Dfa, state: usize, leaf: usize) -> bool {
    if state >= state_count(dfa) {
        return false;
    }
    lists(dfa, end_at(dfa, state) as usize, leaf)
}

/// Records `end` as the end of the longest prefix that leads to `state`. Does nothing if the state
/// does not exist.
fn set_end(ends: &mut Vec<usize>, state: usize, end: usize) {
    if state < ends.len() {
        ends[state] = end;
    }
}

/// Adds to `walk` the states whose end is not 0, all states that edges reach from these states, and
/// the edges between all of these states.
fn add_reached(alloc: Global, dfa: &Dfa, walk: &mut Walk) -> Result<(), AllocError> {
    let count = walk.ends.len();
    let mut seen = vec![in alloc; false; count]?;
    add_entered(&mut seen, &mut walk.reached, &walk.ends)?;
    for number in 0..count {
        add_next(dfa, &mut seen, walk, number)?;
    }
    Ok(())
}

/// Appends to `reached` the states whose end is not 0, and marks them in `seen`.
fn add_entered(
    seen: &mut Vec<bool>,
    reached: &mut Vec<usize>,
    ends: &[usize],
) -> Result<(), AllocError> {
    for state in 0..ends.len() {
        if ends[state] > 0 {
            add_state(seen, reached, state)?;
        }
    }
    Ok(())
}

/// Adds to `walk` the edges from the reached state at the index `number`, and the states to which
/// these edges lead. Does nothing if there is no such reached state.
fn add_next(
    dfa: &Dfa,
    seen: &mut Vec<bool>,
    walk: &mut Walk,
    number: usize,
) -> Result<(), AllocError> {
    if number >= walk.reached.len() {
        return Ok(());
    }
    let state = walk.reached[number];
    for byte in 0..256 {
        add_edge(dfa, seen, walk, state, byte)?;
    }
    Ok(())
}

/// Adds to `walk` the edge of `state` for `byte` and the target of the edge, unless the next
/// smaller byte leads to the same target.
fn add_edge(
    dfa: &Dfa,
    seen: &mut Vec<bool>,
    walk: &mut Walk,
    state: usize,
    byte: usize,
) -> Result<(), AllocError> {
    let target = next_by(dfa, state, byte);
    if (byte > 0) & (target == next_by(dfa, state, byte.saturating_sub(1))) {
        return Ok(());
    }
    walk.edges.push(Edge { state, target })?;
    add_state(seen, &mut walk.reached, target)
}

/// Appends `state` to `reached` and marks it in `seen`, if the state exists and was not seen
/// before.
fn add_state(
    seen: &mut Vec<bool>,
    reached: &mut Vec<usize>,
    state: usize,
) -> Result<(), AllocError> {
    if state >= seen.len() {
        return Ok(());
    }
    if seen[state] {
        return Ok(());
    }
    reached.push(state)?;
    seen[state] = true;
    Ok(())
}

/// Appends the partial match of a leaf to `found`, if the leaf reads at least one byte.
fn add_partial(
    alloc: Global,
    found: &mut Vec<PartialMatch>,
    dfa: &Dfa,
    walk: &Walk,
    leaf: usize,
) -> Result<(), AllocError> {
    let open = open_states(alloc, dfa, walk, leaf)?;
    let Some(state) = furthest(walk, &open) else {
        return Ok(());
    };
    let partial = PartialMatch {
        leaf,
        end: end_of(walk, state),
        next: class_of(alloc, &next_table(dfa, state, leaf, &open))?,
        last: class_of(alloc, &last_table(dfa, state, leaf))?,
        may_end: lists_at_end(dfa, state, leaf),
    };
    Ok(found.push(partial)?)
}

/// Returns for each state whether the state is open. A state is open if it was reached and a match
/// of the leaf can end at the state or later.
fn open_states(
    alloc: Global,
    dfa: &Dfa,
    walk: &Walk,
    leaf: usize,
) -> Result<Vec<bool>, AllocError> {
    let mut open = vec![in alloc; false; walk.ends.len()]?;
    for state in &walk.reached {
        open_if(&mut open, *state, lists_at_end(dfa, *state, leaf));
    }
    open_before(dfa, walk, leaf, &mut open);
    Ok(open)
}

/// Marks in `open` each reached state from which edges lead to an open state or to a state that
/// lists the leaf, directly or through other states.
fn open_before(dfa: &Dfa, walk: &Walk, leaf: usize, open: &mut Vec<bool>) {
    for _ in 0..walk.reached.len() {
        if !open_more(dfa, walk, leaf, open) {
            return;
        }
    }
}

/// Marks in `open` the states from which an edge leads to an open state or to a state that lists
/// the leaf. Passes once over the edges, from the last edge to the first. Returns whether a state
/// was marked.
fn open_more(dfa: &Dfa, walk: &Walk, leaf: usize, open: &mut Vec<bool>) -> bool {
    let count = walk.edges.len();
    let mut is_more = false;
    for number in 0..count {
        let edge = walk.edges[count - 1 - number];
        let leads = !is_set(open, edge.state) & continues(dfa, leaf, open, edge.target);
        is_more |= open_if(open, edge.state, leads);
    }
    is_more
}

/// Marks `state` in `open` if `is_open` is `true` and the state exists. Returns whether the state
/// was marked.
fn open_if(open: &mut Vec<bool>, state: usize, is_open: bool) -> bool {
    if (state >= open.len()) | !is_open {
        return false;
    }
    open[state] = true;
    true
}

/// Returns whether a state is open or lists the leaf.
fn continues(dfa: &Dfa, leaf: usize, open: &[bool], state: usize) -> bool {
    is_set(open, state) | lists(dfa, state, leaf)
}

/// Returns the flag at `index`, or `false` if the index is past the end.
fn is_set(flags: &[bool], index: usize) -> bool {
    match flags.get(index) {
        Some(flag) => *flag,
        None => false,
    }
}

/// Returns the byte offset of the end of the longest prefix that leads to `state`, or 0 if no
/// prefix leads to `state`.
fn end_of(walk: &Walk, state: usize) -> usize {
    match walk.ends.get(state) {
        Some(end) => *end,
        None => 0,
    }
}

/// Returns the open state to which the longest prefix leads, or `None` if no prefix leads to an
/// open state.
fn furthest(walk: &Walk, open: &[bool]) -> Option<usize> {
    let mut best = None;
    for state in 0..walk.ends.len() {
        best = later(walk, open, best, state);
    }
    best
}

/// Returns `state` if it is open and a longer prefix leads to `state` than to `best`. Returns
/// `best` otherwise. If `best` is `None`, any prefix is longer.
fn later(walk: &Walk, open: &[bool], best: Option<usize>, state: usize) -> Option<usize> {
    let least = match best {
        Some(best) => end_of(walk, best),
        None => 0,
    };
    if is_set(open, state) & (least < end_of(walk, state)) {
        return Some(state);
    }
    best
}

/// Returns for each byte whether the byte continues the prefix that leads to `state`, or whether a
/// match of the leaf ends before the byte.
fn next_table(dfa: &Dfa, state: usize, leaf: usize, open: &[bool]) -> [bool; 256] {
    let mut table = [false; 256];
    for byte in 0..256 {
        table[byte] = continues(dfa, leaf, open, next_by(dfa, state, byte));
    }
    table
}

/// Returns for each byte whether a match of the leaf ends after the byte, if the byte follows the
/// prefix that leads to `state` and the input ends after the byte.
fn last_table(dfa: &Dfa, state: usize, leaf: usize) -> [bool; 256] {
    let mut table = [false; 256];
    for byte in 0..256 {
        table[byte] = lists_at_end(dfa, next_by(dfa, state, byte), leaf);
    }
    table
}

/// Returns the set of the bytes whose flags in `table` are `true`.
fn class_of(alloc: Global, table: &[bool; 256]) -> Result<ByteClass, AllocError> {
    let mut ranges = Vec::new(alloc);
    for byte in 0..256 {
        add_run(&mut ranges, run_at(table, true, byte))?;
    }
    Ok(ByteClass { ranges })
}

/// Appends a range to `ranges`, or nothing for `None`.
fn add_run(
    ranges: &mut Vec<RangeInclusive<u8>>,
    range: Option<RangeInclusive<u8>>,
) -> Result<(), AllocError> {
    match range {
        Some(range) => Ok(ranges.push(range)?),
        None => Ok(()),
    }
}
