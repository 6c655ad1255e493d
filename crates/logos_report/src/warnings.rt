//! Defines warnings about probable mistakes that are not faults, and appends warnings to a report.
//! Used by `logos_file_warnings`, `logos_messages` and the crates that find warnings.

ghost use Rattle.std.specs.Prelude.{◌≡◌, ◌++◌, ◌∷◌, [], codes, string_bytes};
ghost use Rattle.logos_report.specs.Views.{IsInLine, shown_text, Gains, Shows, painted, location_line, all_texts, left_out_line, left_out_texts, shown_of, warning_head, warning_texts, warnings_texts};

use crate::frame::{push_frame, push_location};
use crate::notes::push_note;
use crate::source::Part;
use logos_page::{Page, Style};
use logos_token::token::Span;

/// The maximum number of warnings that are shown for a part of a file.
const MOST: usize = 50;

/// A warning about a probable mistake in a part of a file. The mistake is not a fault.
#[derive(Debug, Drop)]
pub struct Warning {
    /// The message about the probable mistake, on one line.
    pub message: String,
    /// The span of the mistake, in bytes of the part.
    pub span: Span,
    /// A further explanation on one line, if there is such an explanation.
    pub note: Option<String>,
    /// The help, if there is one.
    pub help: Option<&'static str>,
    /// A second span of the mistake, in bytes of the part, if there is such a span.
    pub also: Option<Span>,
}

/// Appends the first 50 warnings of a part of a file, or all warnings if there are fewer than 50,
/// in the order of `warnings`. If there are more than 50, appends the number of warnings that are
/// left out. For each warning, the appended text has a line with its message and a line with its
/// location.
pub fn push_warnings(page: &mut Page, part: Part<'_, '_>, warnings: &[Warning])
    ensures { Shows (warnings_texts page.old.is_colored part.entry.source.now part.entry.offset
        warnings.now) page.old page.new }
{
    push_all(page, part, first_of(warnings));
    push_left_out(page, warnings.len().saturating_sub(MOST));
}

/// Returns the warnings that are shown: the first 50, or all if there are fewer than 50.
pub fn first_of(warnings: &[Warning]) -> &[Warning]
    ensures { result.now ≡ shown_of warnings.now }
{
    if warnings.len() > MOST {
        &warnings[..MOST]
    } else {
        warnings
    }
}

/// Appends all warnings in `warnings`, in the order of the list.
fn push_all(page: &mut Page, part: Part<'_, '_>, warnings: &[Warning])
    ensures { Shows (all_texts page.old.is_colored part.entry.source.now part.entry.offset
        warnings.now) page.old page.new }
{
    for warning in warnings {
        push_warning(page, part, warning);
    }
}

/// Appends a line reporting that `count` warnings are not shown, and an empty line. Appends nothing
/// if `count` is 0.
fn push_left_out(page: &mut Page, count: usize)
    ensures { Shows (left_out_texts page.old.is_colored count) page.old page.new }
{
    if count > 0 {
        push_left_out_line(page, count);
        page.push("\n");
    }
}

/// Appends the line reporting that `count` warnings are not shown.
fn push_left_out_line(page: &mut Page, count: usize)
    ensures { Gains (left_out_line page.old.is_colored count) page.old page.new }
{
    page.paint(Style::Warning, "warning");
    page.push(": ");
    page.push_number(count);
    page.push(" more warnings are not shown\n");
}

/// Appends a warning: its message, its location, the lines of its span, its notes and its help, and
/// an empty line.
pub fn push_warning(page: &mut Page, part: Part<'_, '_>, warning: &Warning)
    ensures { Shows (warning_texts page.old.is_colored part.entry.source.now part.entry.offset
        warning.now) page.old page.new }
{
    push_head(page, warning.message.as_str());
    let width = push_frame(page, part, warning.span, Style::Warning);
    push_notes(page, part, width, warning);
}

/// Appends the line with the message of a warning.
fn push_head(page: &mut Page, message: &str)
    ensures { Gains (warning_head page.old.is_colored message.now) page.old page.new }
{
    page.paint(Style::Warning, "warning");
    push_message(page, message);
    page.push("\n");
}

/// Appends the separator `: ` and the message of a warning.
fn push_message(page: &mut Page, message: &str)
    ensures { Gains (painted page.old.is_colored Style.Strong (codes ": " ++ shown_text message.now))
        page.old page.new }
{
    page.begin(Style::Strong);
    page.push(": ");
    page.push_shown(message);
    page.end();
}

/// Appends the notes and the help under a warning, and an empty line. `width` is the width of the
/// column of line numbers.
fn push_notes(page: &mut Page, part: Part<'_, '_>, width: usize, warning: &Warning)
    ensures { Shows [] page.old page.new }
{
    push_further(page, width, &warning.note);
    push_other(page, part, width, warning.also);
    push_help(page, width, warning.help);
    page.push("\n");
}

/// Appends the line with the further explanation of a warning, if there is one.
fn push_further(page: &mut Page, width: usize, note: &Option<String>)
    ensures { Shows [] page.old page.new }
{
    if let Some(note) = note {
        push_line(page, width, "note", note.as_str());
    }
}

/// Appends the line with the help for a warning, if there is one.
fn push_help(page: &mut Page, width: usize, help: Option<&str>)
    ensures { Shows [] page.old page.new }
{
    if let Some(help) = help {
        push_line(page, width, "help", help);
    }
}

/// Appends a line with a note or a help. `kind` is the word before `text`.
fn push_line(page: &mut Page, width: usize, kind: &str, text: &str)
    requires { IsInLine kind.now }
    ensures { Shows [] page.old page.new }
{
    push_note(page, width, kind, text);
    page.push("\n");
}

/// Appends the line with the location of `also`, the second span of a warning. Appends nothing if
/// `also` is `None`.
fn push_other(page: &mut Page, part: Part<'_, '_>, width: usize, also: Option<Span>)
    ensures { Shows [] page.old page.new }
{
    if let Some(span) = also {
        push_note(page, width, "note", "see also ");
        push_location(page, part, span.from);
        page.push("\n");
    }
}
