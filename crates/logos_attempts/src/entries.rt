//! Counts how often match attempts enter each state of a graph. Called by `logos_html`.

ghost use Rattle.std.specs.Prelude.{◌≡◌, ◌≤◌, length};

use crate::around::found_at;
use logos_code::code::Code;
use logos_graph::byte_class::ByteClass;
use logos_graph::graph::StateData;
use std::alloc::{AllocError, Global};

/// The number of entries after which no further match attempt is counted.
const MOST: usize = 4_194_304;

/// The number of times that match attempts on a prefix of an input enter each state.
#[derive(Drop)]
pub struct Entries {
    /// The number of entries for each state.
    pub counts: Vec<usize>,
    /// The byte offset at which the first uncounted match attempt begins.
    pub end: usize,
    /// The sum of the counts.
    total: usize,
}

/// Returns the number of times that match attempts enter each state of a graph. The match attempts
/// begin in the first `most` bytes of an input, and are followed only to the end of these bytes.
/// After 4,194,304 entries, no further match attempt is counted.
///
/// # Errors
///
/// Returns `AllocError` if memory runs out.
pub fn entries_of(
    alloc: Global,
    states: &[&StateData],
    code: &Code<'_>,
    input: &[u8],
    most: usize,
) -> Result<Entries, AllocError> {
    let mut entries = Entries {
        counts: vec![in alloc; 0; states.len()]?,
        end: 0,
        total: 0,
    };
    let end = most.min(input.len());
    while entries.end < end {
        if entries.total >= MOST {
            return Ok(entries);
        }
        let found = found_at(code, input, entries.end);
        add_attempt(&mut entries, states, input, end);
        entries.end = found.to;
    }
    Ok(entries)
}

/// Counts in `entries` the states that the match attempt from `entries.end` enters, up to the byte
/// offset `end` of the input.
fn add_attempt(entries: &mut Entries, states: &[&StateData], input: &[u8], end: usize)
    requires { end ≤ length input.now }
    ensures { entries.new.end ≡ entries.old.end }
{
    let mut state = 0;
    add_entry(entries, state);
    for at in entries.end..end {
        let Some(next) = target_of(states, state, input[at]) else {
            return;
        };
        add_entry(entries, next);
        state = next;
    }
    if end == input.len() {
        add_end(entries, states, state);
    }
}

/// Counts in `entries` the state to which the end of the input leads from `state`. Does nothing if
/// there is no such state.
fn add_end(entries: &mut Entries, states: &[&StateData], state: usize)
    ensures { entries.new.end ≡ entries.old.end }
{
    if let Some(next) = target_at_end(states, state) {
        add_entry(entries, next);
    }
}

/// Adds one entry to the count of `state`, if the state exists, and to the total.
fn add_entry(entries: &mut Entries, state: usize)
    ensures { entries.new.end ≡ entries.old.end }
{
    entries.total = entries.total.saturating_add(1);
    if state < entries.counts.len() {
        entries.counts[state] = entries.counts[state].saturating_add(1);
    }
}

/// Returns the state to which `byte` leads from `state`, or `None` if there is none.
fn target_of(states: &[&StateData], state: usize, byte: u8) -> Option<usize> {
    let data = states.get(state)?;
    for edge in &data.normal {
        if has_byte(&edge.0, byte) {
            return Some(edge.1.index());
        }
    }
    None
}

/// Returns the state to which the end of the input leads from `state`, or `None` if there is none.
fn target_at_end(states: &[&StateData], state: usize) -> Option<usize> {
    let data = states.get(state)?;
    let next = data.eoi?;
    Some(next.index())
}

/// Returns whether a set contains a byte.
fn has_byte(class: &ByteClass, byte: u8) -> bool {
    class
        .ranges
        .iter()
        .any(|range| (*range.start() <= byte) & (byte <= *range.end()))
}
