//! Functions that append the notes and the help of a fault or a warning. Used by `fault`,
//! `rest_line` and `warnings`.

ghost use Rattle.std.specs.Prelude.{◌≡◌, [], ◌∷◌, option_map, string_bytes};
ghost use Rattle.logos_messages.specs.Imports.{Gains, YieldsNoteList, YieldsNotes, list_member, note_tokens, nothing_tokens};

use crate::fault::FaultMessage;
use logos_json::JsonLines;
use logos_report::{MOST, Member, Start};

/// Appends a member with the list of the notes and the help of a fault.
pub(crate) fn push_notes(
    lines: &mut JsonLines,
    message: FaultMessage<'_, '_, '_, '_>,
    put_in: &Option<String>,
)
    ensures { YieldsNoteList lines.old lines.new }
{
    lines.begin_list("children");
    push_other_lines(lines, message.known.fault.message.as_str());
    push_put_in(lines, put_in);
    push_starts(lines, message.starts);
    push_advice(lines, message);
    lines.end_list();
}

/// Appends a note with `put_in`, the text about the subpattern whose substitution shifts the byte
/// of a fault. Appends nothing if `put_in` is `None`.
fn push_put_in(lines: &mut JsonLines, put_in: &Option<String>)
    ensures { YieldsNotes lines.old lines.new }
{
    if let Some(text) = put_in {
        push_one(lines, "note", text.as_str());
    }
}

/// Appends a note for each of the first 50 patterns that can examine bytes before the start of a
/// match. The text of the note is the name of the pattern's leaf.
fn push_starts(lines: &mut JsonLines, starts: &[Start])
    ensures { YieldsNotes lines.old lines.new }
{
    for start in &starts[..starts.len().min(MOST)] {
        push_one(lines, "note", start.name.as_str());
    }
}

/// Appends the clue about the set of ambiguous leaves of a fault, if any, and the help for the
/// fault, if any.
fn push_advice(lines: &mut JsonLines, message: FaultMessage<'_, '_, '_, '_>)
    ensures { YieldsNotes lines.old lines.new }
{
    push_known(lines, message.member);
    push_help(lines, message.known.help);
}

/// Appends a note with the clue about the set of ambiguous leaves of `member`. Appends nothing if
/// `member` is `None`.
fn push_known(lines: &mut JsonLines, member: Option<Member<'_>>)
    ensures { YieldsNotes lines.old lines.new }
{
    if let Some(member) = member {
        push_one(lines, "note", member.meeting.note.as_str());
    }
}

/// Returns a reference to the text in `text`, or `None` if `text` is `None`.
pub(crate) fn text_of(text: &Option<String>) -> Option<&str>
    ensures { option_map (λ t. t.now) result ≡ option_map string_bytes text.now }
{
    match text {
        Some(text) => Some(text.as_str()),
        None => None,
    }
}

/// Appends the object of a note or a help with the text `text`, as `push_note` does. `level` is
/// `note` or `help`.
pub(crate) fn push_one(lines: &mut JsonLines, level: &str, text: &str)
    ensures { YieldsNotes lines.old lines.new }
{
    push_note(lines, level, text);
}

/// Appends a note for each non-empty line of a message after the first line.
fn push_other_lines(lines: &mut JsonLines, message: &str)
    ensures { YieldsNotes lines.old lines.new }
{
    for text in message.split('\n').skip(1) {
        push_other_line(lines, text);
    }
}

/// Appends a note with the line `text` of a message, without the leading blanks of the line.
/// Appends nothing if the line is empty.
fn push_other_line(lines: &mut JsonLines, text: &str)
    ensures { YieldsNotes lines.old lines.new }
{
    if !text.is_empty() {
        push_note(lines, "note", text.trim_start());
    }
}

/// Appends the object with the help for a fault. Appends nothing if `help` is `None`.
fn push_help(lines: &mut JsonLines, help: Option<&str>)
    ensures { YieldsNotes lines.old lines.new }
{
    if let Some(help) = help {
        push_note(lines, "help", help);
    }
}

/// Appends the object of a note or a help: the text `text`, the level `level`, and the members that
/// are empty in a note. `level` is `note` or `help`.
fn push_note(lines: &mut JsonLines, level: &str, text: &str)
    ensures { Gains (note_tokens (record { level = level.now; text = text.now })) lines.old lines.new }
{
    lines.begin_object();
    lines.push_text("message", text);
    lines.push_null("code");
    lines.push_text("level", level);
    push_nothing_else(lines);
    lines.end_object();
}

/// Appends the members that are empty in a note: the spans, the notes and the report.
fn push_nothing_else(lines: &mut JsonLines)
    ensures { Gains nothing_tokens lines.old lines.new }
{
    push_empty_list(lines, "spans");
    push_empty_list(lines, "children");
    lines.push_null("rendered");
}

/// Appends a member with an empty list.
pub(crate) fn push_empty_list(lines: &mut JsonLines, name: &str)
    ensures { Gains (list_member name.now []) lines.old lines.new }
{
    lines.begin_list(name);
    lines.end_list();
}
