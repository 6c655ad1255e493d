//! Appends the lines under a fault: the lines of the message after the first line, the location of
//! the second span, and the help. Used by `faults`, `sets`, `warnings` and `logos_messages`.

ghost use Rattle.std.specs.Prelude.{[]};
ghost use Rattle.logos_report.specs.Imports.{Begins, Continues, Ends, IsInLine, Shows};

use crate::faults::KnownFault;
use crate::frame::push_location;
use crate::pattern_caret::{PutIn, put_in};
use crate::source::Part;
use logos_page::{Page, Style};
use logos_token::error::SpannedError;

/// A fault whose location is already in the report. Its notes and its help are appended next.
#[derive(Clone, Copy)]
pub(crate) struct ShownFault<'f, 'p, 't> {
    pub(crate) part: Part<'p, 't>,
    pub(crate) known: KnownFault<'f>,
    /// The width of the column of line numbers.
    pub(crate) width: usize,
}

/// Appends the notes and the help of a fault, and an empty line.
pub(crate) fn push_notes(page: &mut Page, shown: ShownFault<'_, '_, '_>)
    ensures { Shows [] page.old page.new }
{
    push_other_lines(page, shown);
    push_put_in_note(page, shown);
    push_other_location(page, shown);
    push_help(page, shown);
    page.push("\n");
}

/// Appends the note about the subpattern that was substituted before the faulty byte, if there is
/// such a subpattern.
fn push_put_in_note(page: &mut Page, shown: ShownFault<'_, '_, '_>)
    ensures { Shows [] page.old page.new }
{
    if let Some(put) = put_in(shown.part, shown.known.fault) {
        push_note(page, shown.width, "note", "");
        push_put_in(page, shown.part, put);
        page.push("\n");
    }
}

/// Appends the name of the subpattern that was substituted before the faulty byte, and the location
/// of its definition.
pub fn push_put_in(page: &mut Page, part: Part<'_, '_>, put: PutIn<'_>)
    ensures { Continues page.old page.new }
{
    page.push("the byte counts with `(?&");
    page.push_shown(put.name);
    page.push(")` put in, which is defined at ");
    push_location(page, part, put.definition);
}

/// Appends a line under a fault, without its line end. The line consists of the margin, the word
/// `kind`, such as `help`, the separator `: `, and `text`.
pub(crate) fn push_note(page: &mut Page, width: usize, kind: &str, text: &str)
    requires { IsInLine kind.now }
    ensures { Begins page.old page.new }
{
    push_note_mark(page, width);
    page.paint(Style::Strong, kind);
    page.push(": ");
    page.push_shown(text);
}

/// Appends the margin of a line under a fault: `width + 1` spaces and `= `.
fn push_note_mark(page: &mut Page, width: usize)
    ensures { Begins page.old page.new }
{
    page.push_times(" ", width.saturating_add(1));
    page.paint(Style::Frame, "=");
    page.push(" ");
}

/// Appends the note with the location of the second span of a fault, if there is such a span.
fn push_other_location(page: &mut Page, shown: ShownFault<'_, '_, '_>)
    ensures { Shows [] page.old page.new }
{
    if let Some(also) = shown.known.fault.also {
        push_note(page, shown.width, "note", "see also ");
        push_location(page, shown.part, also.from);
        page.push("\n");
    }
}

/// Appends the line with the help for a fault, if there is a help text for the fault.
pub(crate) fn push_help(page: &mut Page, shown: ShownFault<'_, '_, '_>)
    ensures { Shows [] page.old page.new }
{
    if let Some(help) = shown.known.help {
        push_note(page, shown.width, "help", help);
        page.push("\n");
    }
}

/// Appends the nonempty lines of a fault's message after the first line. In the message about an
/// ambiguous leaf, the lines after the first line begin with one line for each other leaf of the
/// set. Such a line is followed by the location of the other leaf's fault.
fn push_other_lines(page: &mut Page, shown: ShownFault<'_, '_, '_>)
    ensures { Shows [] page.old page.new }
{
    let mut number: usize = 0;
    for line in shown.known.fault.message.as_str().split('\n').skip(1) {
        push_other_line(page, shown, line, number);
        number = number.saturating_add(1);
    }
}

/// Appends a line of a fault's message as a note, unless the line is empty. `number` is the index
/// of the line among the lines after the first line. If the set of the fault has another fault at
/// this index, the location of this other fault is appended to the note.
fn push_other_line(page: &mut Page, shown: ShownFault<'_, '_, '_>, line: &str, number: usize)
    ensures { Shows [] page.old page.new }
{
    if line.is_empty() {
        return;
    }
    push_note(page, shown.width, "note", line.trim_start());
    push_leaf_location(page, shown.part, shown.known.set.other(number));
}

/// Appends the location of `other`, the fault of another leaf, and a line end. Appends only the
/// line end if `other` is `None`.
fn push_leaf_location(page: &mut Page, part: Part<'_, '_>, other: Option<&SpannedError>)
    ensures { Ends page.old page.new }
{
    push_leaf_at(page, part, other);
    page.push("\n");
}

/// Appends the location of `other`, the fault of another leaf. Appends nothing if `other` is
/// `None`.
fn push_leaf_at(page: &mut Page, part: Part<'_, '_>, other: Option<&SpannedError>)
    ensures { Continues page.old page.new }
{
    if let Some(other) = other {
        page.push(" at ");
        push_location(page, part, other.span.from);
    }
}
