//! Makes the lines under an error: the other lines of its message, the clues and the help. `errors`
//! calls `notes_of`.

use crate::diagnostic::{Note, add_help, add_note};
use logos_report::{MOST, Member, Part, Start, put_in};
use logos_token::error::{Memory, SpannedError};
use std::alloc::Global;

/// An error, with the clues about its fault.
#[derive(Clone, Copy)]
pub(crate) struct KnownError<'f, 'p, 't> {
    pub(crate) part: Part<'p, 't>,
    /// The fault with which the error begins.
    pub(crate) fault: &'f SpannedError,
    /// The fault as a member of its set of ambiguous leaves, or `None` if no clue is about such a
    /// set.
    pub(crate) member: Option<Member<'f>>,
    /// The patterns that explain the fault. For `NoUniversalStart`, these are the patterns that can
    /// examine the bytes before their start. For all other faults, there are none.
    pub(crate) starts: &'f [Start],
    /// The help for the fault, if there is one.
    pub(crate) help: Option<&'static str>,
    /// The number of omitted later faults with the code of the error, or 0 if another error with
    /// this code may follow.
    pub(crate) left_out: usize,
}

/// Returns the lines under an error.
///
/// These are, in this order:
///
/// - the subpattern that shifts the byte of the fault,
/// - the rest of the message,
/// - the patterns that explain the fault,
/// - the help,
/// - the number of omitted faults with the same code.
pub(crate) fn notes_of(alloc: Global, error: KnownError<'_, '_, '_>) -> Result<Vec<Note>, Memory> {
    let mut notes = Vec::new(alloc);
    add_put_in(alloc, error, &mut notes)?;
    add_message(error, &mut notes)?;
    add_starts(error.starts, &mut notes)?;
    add_advice(error, &mut notes)?;
    add_left_out(alloc, error.left_out, &mut notes)?;
    Ok(notes)
}

/// Appends to `notes` the name of the first subpattern that is substituted before the byte of the
/// fault. Appends nothing if there is no such subpattern.
fn add_put_in(
    alloc: Global,
    error: KnownError<'_, '_, '_>,
    notes: &mut Vec<Note>,
) -> Result<(), Memory> {
    let Some(put) = put_in(error.part, error.fault) else {
        return Ok(());
    };
    let name = put.name;
    let text = format!(in alloc; "the byte counts with `(?&{name})` put in")?;
    add_note(text.as_str(), notes)
}

/// Appends all lines of an error's message except the first to `notes`. For a member of a set of
/// ambiguous leaves, appends the note of the set instead, because labels name the other members.
fn add_message(error: KnownError<'_, '_, '_>, notes: &mut Vec<Note>) -> Result<(), Memory> {
    match error.member {
        Some(member) => add_note(member.meeting.note.as_str(), notes),
        None => add_other_lines(error.fault.message.as_str(), notes),
    }
}

/// Appends all lines of `message` except the first to `notes`.
fn add_other_lines(message: &str, notes: &mut Vec<Note>) -> Result<(), Memory> {
    for line in message.split('\n').skip(1) {
        add_other_line(line, notes)?;
    }
    Ok(())
}

/// Appends a line of a message without its leading whitespace to `notes`, unless the line is empty.
fn add_other_line(line: &str, notes: &mut Vec<Note>) -> Result<(), Memory> {
    if line.is_empty() {
        return Ok(());
    }
    add_note(line.trim_start(), notes)
}

/// Appends a line to `notes` for each of the first 50 patterns in `starts`. These are the patterns
/// that can examine bytes before the start of a match.
fn add_starts(starts: &[Start], notes: &mut Vec<Note>) -> Result<(), Memory> {
    for start in starts.iter().take(MOST) {
        add_note(start.name.as_str(), notes)?;
    }
    Ok(())
}

/// Appends the help for an error to `notes`, if there is one.
fn add_advice(error: KnownError<'_, '_, '_>, notes: &mut Vec<Note>) -> Result<(), Memory> {
    match error.help {
        Some(help) => add_help(help, notes),
        None => Ok(()),
    }
}

/// Appends to `notes` a line that reports that `count` faults with the code of the error are not
/// shown. Appends nothing if `count` is 0.
fn add_left_out(alloc: Global, count: usize, notes: &mut Vec<Note>) -> Result<(), Memory> {
    if count == 0 {
        return Ok(());
    }
    let text = format!(in alloc; "{count} more with this code are not shown")?;
    add_note(text.as_str(), notes)
}
