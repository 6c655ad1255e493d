//! Functions that fold the edges on the bytes of a character outside ASCII into one edge of a
//! diagram. Called by `edges` and `names`.

use logos_graph::byte_class::ByteClass;
use logos_graph::graph::{State, StateData};
use std::ops::RangeInclusive;

/// The least first byte of a character of two bytes. `THREE` and `FOUR` are the least first bytes
/// of characters of three and four bytes, and `LAST` is the greatest first byte of a character.
const FIRST: u8 = 0xC2;

const THREE: u8 = 0xE0;

const FOUR: u8 = 0xF0;

const LAST: u8 = 0xF4;

/// Returns whether an edge is folded. An edge is folded if each of its bytes begins a character
/// outside ASCII, and if the states between the bytes of the character have no mark and have edges
/// only on bytes that continue the character.
pub(crate) fn is_folded(states: &[&StateData], edge: &(ByteClass, State)) -> bool {
    edge.0.ranges.iter().all(|range| folds_from(
        states,
        edge.1.index(),
        *range.start(),
        *range.end(),
    ))
}

/// Returns whether each byte in `first..=last` begins a character outside ASCII, and the state with
/// the number `state` reads only bytes that continue the character.
fn folds_from(states: &[&StateData], state: usize, first: u8, last: u8) -> bool {
    if (first < FIRST) | (LAST < last) {
        return false;
    }
    for byte in first as usize..last as usize + 1 {
        if !folds_at(states, state, byte as u8) {
            return false;
        }
    }
    true
}

/// Returns whether the state with the number `state` reads only bytes that continue a character
/// with the first byte `first`.
fn folds_at(states: &[&StateData], state: usize, first: u8) -> bool {
    if first < THREE {
        return continues(states, state, 0x80, 0xBF);
    }
    if first < FOUR {
        return continues_twice(states, state, least_second(first), most_second(first));
    }
    continues_thrice(states, state, least_second(first), most_second(first))
}

/// Returns the least second byte of a character with the first byte `first`.
fn least_second(first: u8) -> u8 {
    match first {
        0xE0 => 0xA0,
        0xF0 => 0x90,
        _ => 0x80,
    }
}

/// Returns the greatest second byte of a character with the first byte `first`.
fn most_second(first: u8) -> u8 {
    match first {
        0xED => 0x9F,
        0xF4 => 0x8F,
        _ => 0xBF,
    }
}

/// Returns whether the state with the number `state` has no mark, and has edges, all of them on
/// bytes in `least..=most`. Returns `false` if there is no such state.
fn continues(states: &[&StateData], state: usize, least: u8, most: u8) -> bool {
    match states.get(state) {
        Some(data) => is_unmarked(data) & has_edges_within(data, least, most),
        None => false,
    }
}

/// Returns whether a state has no mark and no edge at the end of the input.
fn is_unmarked(data: &StateData) -> bool {
    data.state_type.accept.is_none() & data.state_type.early.is_none() & data.eoi.is_none()
}

/// Returns whether a state has at least one edge on bytes, and the bytes of all its edges are in
/// `least..=most`.
fn has_edges_within(data: &StateData, least: u8, most: u8) -> bool {
    !data.normal.is_empty()
        & data
            .normal
            .iter()
            .all(|edge| is_within(&edge.0, least, most))
}

/// Returns whether a set contains only bytes in `least..=most`.
fn is_within(class: &ByteClass, least: u8, most: u8) -> bool {
    class
        .ranges
        .iter()
        .all(|range| (least <= *range.start()) & (*range.end() <= most))
}

/// Returns whether the state with the number `state` reads only pairs of bytes: a byte in
/// `least..=most`, followed by a continuation byte.
fn continues_twice(states: &[&StateData], state: usize, least: u8, most: u8) -> bool {
    if !continues(states, state, least, most) {
        return false;
    }
    let Some(data) = states.get(state) else {
        return false;
    };
    data.normal
        .iter()
        .all(|edge| continues(states, edge.1.index(), 0x80, 0xBF))
}

/// Returns whether the state with the number `state` reads only triples of bytes: a byte in
/// `least..=most`, followed by two continuation bytes.
fn continues_thrice(states: &[&StateData], state: usize, least: u8, most: u8) -> bool {
    if !continues(states, state, least, most) {
        return false;
    }
    let Some(data) = states.get(state) else {
        return false;
    };
    data.normal
        .iter()
        .all(|edge| continues_twice(states, edge.1.index(), 0x80, 0xBF))
}

/// Adds to `counts`, for each target state, the number of characters of a folded edge that lead to
/// the target.
pub(crate) fn add_folded(
    states: &[&StateData],
    edge: &(ByteClass, State),
    counts: &mut Vec<usize>,
) {
    for range in &edge.0.ranges {
        add_range(states, edge.1.index(), range, counts);
    }
}

/// Adds to `counts`, for each target state, the number of characters that lead to the target. The
/// characters begin with a byte in `range`, and the state with the number `state` reads their other
/// bytes.
fn add_range(
    states: &[&StateData],
    state: usize,
    range: &RangeInclusive<u8>,
    counts: &mut Vec<usize>,
) {
    for byte in *range.start() as usize..*range.end() as usize + 1 {
        add_from(states, state, byte as u8, counts);
    }
}

/// Adds to `counts`, for each target state, the number of characters that lead to the target. The
/// characters begin with the byte `first`, and the state with the number `state` reads their other
/// bytes.
fn add_from(states: &[&StateData], state: usize, first: u8, counts: &mut Vec<usize>) {
    if first < THREE {
        add_last(states, state, 1, counts);
    } else if first < FOUR {
        add_twice(states, state, 1, counts);
    } else {
        add_thrice(states, state, counts);
    }
}

/// Returns the number of bytes of a set.
pub(crate) fn size_of(class: &ByteClass) -> usize {
    let mut size: usize = 0;
    for range in &class.ranges {
        size = size.saturating_add(
            (*range.end() as usize + 1).saturating_sub(*range.start() as usize),
        );
    }
    size
}

/// Adds the number of bytes on each edge of the state with the number `state`, multiplied by
/// `times`, to the count of the edge's target.
fn add_last(states: &[&StateData], state: usize, times: usize, counts: &mut Vec<usize>) {
    if let Some(data) = states.get(state) {
        for edge in &data.normal {
            add_count(
                counts,
                edge.1.index(),
                size_of(&edge.0).saturating_mul(times),
            );
        }
    }
}

/// Adds `count` to the count of the state with the number `state`. Does nothing if there is no such
/// state.
fn add_count(counts: &mut Vec<usize>, state: usize, count: usize) {
    if state < counts.len() {
        counts[state] = counts[state].saturating_add(count);
    }
}

/// Adds to `counts`, for each target state, the number of pairs of bytes that lead from the state
/// with the number `state` to the target, multiplied by `times`.
fn add_twice(states: &[&StateData], state: usize, times: usize, counts: &mut Vec<usize>) {
    if let Some(data) = states.get(state) {
        for edge in &data.normal {
            let more = size_of(&edge.0).saturating_mul(times);
            add_last(states, edge.1.index(), more, counts);
        }
    }
}

/// Adds to `counts`, for each target state, the number of triples of bytes that lead from the state
/// with the number `state` to the target.
fn add_thrice(states: &[&StateData], state: usize, counts: &mut Vec<usize>) {
    if let Some(data) = states.get(state) {
        for edge in &data.normal {
            add_twice(states, edge.1.index(), size_of(&edge.0), counts);
        }
    }
}
