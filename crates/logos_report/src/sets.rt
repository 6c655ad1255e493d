//! Appends faults to a report, with the clues about the faults. Each set of ambiguous leaves with a
//! clue has one report. A pattern that can examine bytes before the start of a match is shown under
//! the fault that it explains. Used by `faults`.

ghost use Rattle.std.specs.Prelude.{◌∷◌, ◌++◌, [], map, nat_lt, if◌then◌else◌};
ghost use Rattle.logos_report.specs.Views.{fault_of, from_of, fault_texts, listed_texts, Shows, location_line, next_value, offsets_of, starts_in};

use crate::clues::{Meeting, Member, NextFaults, Start};
use crate::faults::{KnownFault, push_fault, push_head, push_marked};
use crate::frame::{Marks, push_frame_with, push_offset};
use crate::notes::{ShownFault, push_help, push_note, push_notes};
use crate::source::Part;
use logos_page::{Page, Style};
use logos_token::error::SpannedError;

/// The maximum number of patterns that are shown under a fault.
const MOST: usize = 50;

/// Appends `known`, the next fault, with the clues about the fault. A fault in a set of ambiguous
/// leaves with a clue is appended as a member of the set, and any other fault is appended with the
/// patterns that explain the fault. `next` contains the clues from this fault on.
pub(crate) fn push_listed(
    page: &mut Page,
    part: Part<'_, '_>,
    known: KnownFault<'_>,
    next: NextFaults<'_>,
)
    ensures { Shows (listed_texts page.old.is_colored part.entry.source.now part.entry.offset
        (starts_in next.entry) (next_value next.entry) (fault_of known.entry.fault.now))
        page.old page.new }
{
    match next.member(known.fault) {
        Some(member) => push_member(page, part, known, member),
        None => push_single(page, part, known, next.starts(known.fault.code)),
    }
}

/// Appends a fault of a set of ambiguous leaves. After the last fault of the set, appends the clue
/// about the set.
fn push_member(page: &mut Page, part: Part<'_, '_>, known: KnownFault<'_>, member: Member<'_>)
    ensures { Shows (if nat_lt 0 member.entry.number
        then location_line page.old.is_colored part.entry.source.now part.entry.offset
        known.entry.fault.now.span.from ∷ []
        else fault_texts page.old.is_colored part.entry.source.now part.entry.offset
        (fault_of known.entry.fault.now)) page.old page.new }
{
    let width = push_location_of(page, part, known.fault, member);
    push_end(page, ShownFault { part, known, width }, member);
}

/// Appends the location and the lines of a fault of a set of ambiguous leaves. If the fault is the
/// first of its set, appends its code and the first line of its message before its location.
/// Returns the width of the column of line numbers.
fn push_location_of(
    page: &mut Page,
    part: Part<'_, '_>,
    fault: &SpannedError,
    member: Member<'_>,
) -> usize
    ensures { Shows (if nat_lt 0 member.entry.number
        then location_line page.old.is_colored part.entry.source.now part.entry.offset
        fault.now.span.from ∷ []
        else fault_texts page.old.is_colored part.entry.source.now part.entry.offset
        (fault_of fault.now)) page.old page.new }
{
    if member.number > 0 {
        push_marked(page, part, fault, member.name())
    } else {
        push_begin(page, part, fault, member.name())
    }
}

/// Appends the code of a fault, the first line of its message, its location and its lines, with
/// `label` after the carets. Returns the width of the column of line numbers.
fn push_begin(page: &mut Page, part: Part<'_, '_>, fault: &SpannedError, label: &str) -> usize
    ensures { Shows (fault_texts page.old.is_colored part.entry.source.now part.entry.offset
        (fault_of fault.now)) page.old page.new }
{
    push_head(page, fault);
    push_marked(page, part, fault, label)
}

/// Appends the clue about a set of ambiguous leaves if `member` is the last fault of the set.
/// Otherwise appends nothing.
fn push_end(page: &mut Page, shown: ShownFault<'_, '_, '_>, member: Member<'_>)
    ensures { Shows [] page.old page.new }
{
    if member.is_last() {
        push_meeting(page, shown, member.meeting);
    }
}

/// Appends the note of a clue, the help for the shown fault if there is one, and an empty line.
fn push_meeting(page: &mut Page, shown: ShownFault<'_, '_, '_>, meeting: &Meeting)
    ensures { Shows [] page.old page.new }
{
    push_note(page, shown.width, "note", meeting.note.as_str());
    page.push("\n");
    push_help(page, shown);
    page.push("\n");
}

/// Appends a fault that does not belong to a set with a clue. Shows the patterns `starts`, which
/// explain the fault, or the lines of the fault's span if `starts` is empty.
fn push_single(page: &mut Page, part: Part<'_, '_>, known: KnownFault<'_>, starts: &[Start])
    ensures { Shows (fault_texts page.old.is_colored part.entry.source.now part.entry.offset
        (fault_of known.entry.fault.now)
        ++ map (location_line page.old.is_colored part.entry.source.now part.entry.offset)
        (offsets_of starts.now)) page.old page.new }
{
    if starts.is_empty() {
        push_fault(page, part, known);
    } else {
        push_explained(page, part, known, starts);
    }
}

/// Appends a fault about a whole enum. Instead of the lines of the enum, shows at most 50 of the
/// patterns `starts`, which explain the fault.
fn push_explained(page: &mut Page, part: Part<'_, '_>, known: KnownFault<'_>, starts: &[Start])
    ensures { Shows (fault_texts page.old.is_colored part.entry.source.now part.entry.offset
        (fault_of known.entry.fault.now)
        ++ map (location_line page.old.is_colored part.entry.source.now part.entry.offset)
        (offsets_of starts.now)) page.old page.new }
{
    push_head(page, known.fault);
    push_offset(page, part, known.fault.span.from, 1);
    push_starts(page, part, &starts[..starts.len().min(MOST)]);
    let width = 1;
    push_notes(page, ShownFault { part, known, width });
}

/// Appends the location and the lines of each pattern in `starts`, with carets and the name of the
/// pattern's leaf.
fn push_starts(page: &mut Page, part: Part<'_, '_>, starts: &[Start])
    ensures { Shows (map (location_line page.old.is_colored part.entry.source.now part.entry.offset)
        (map from_of starts.now)) page.old page.new }
{
    for start in starts {
        push_start(page, part, start);
    }
}

/// Appends the location and the lines of a pattern that can examine bytes before the start of a
/// match, with carets and the name of the pattern's leaf.
fn push_start(page: &mut Page, part: Part<'_, '_>, start: &Start)
    ensures { Shows (location_line page.old.is_colored part.entry.source.now part.entry.offset
        (from_of start.now) ∷ []) page.old page.new }
{
    let marks = Marks {
        span: start.span,
        style: Style::Error,
        label: start.name.as_str(),
    };
    push_frame_with(page, part, start.span.from, marks);
}
