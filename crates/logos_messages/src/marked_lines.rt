//! Functions that append the lines of a span, with the columns of the span in each line. Used by
//! `spans`.

ghost use Rattle.std.specs.Prelude.{◌≡◌, ◌≤◌, [], ◌∷◌, length, chars};
ghost use Rattle.logos_messages.specs.Imports.{Gains, YieldsLineList, YieldsLines, first_column, last_column, marked_tokens};

use logos_json::JsonLines;
use logos_lines::Location;
use logos_report::Source;

/// The maximum number of lines after the first line of a span. No lines are shown for a span with
/// more lines.
const LINES: usize = 8;

/// The maximum length in bytes of a line that is shown.
pub(crate) const LONG: usize = 400;

/// A span of a file: the locations of its start and of its end.
#[derive(Clone, Copy)]
pub(crate) struct Reach {
    pub(crate) first: Location,
    pub(crate) last: Location,
}

/// Appends a member with the list of a span's lines. Lines of more than `LONG` bytes are left out.
/// The list is empty if the span has more than `LINES` lines after its first line.
pub(crate) fn push_lines(lines: &mut JsonLines, source: &Source<'_>, reach: Reach)
    ensures { YieldsLineList source.now.text reach.first reach.last lines.old lines.new }
{
    lines.begin_list("text");
    push_each_line(lines, source, reach);
    lines.end_list();
}

/// Appends the lines of a span that have at most `LONG` bytes. Appends nothing if the span has more
/// than `LINES` lines after its first line.
fn push_each_line(lines: &mut JsonLines, source: &Source<'_>, reach: Reach)
    ensures { YieldsLines source.now.text reach.first reach.last lines.old lines.new }
{
    if reach.last.line.saturating_sub(reach.first.line) > LINES {
        return;
    }
    for number in reach.first.line..reach.last.line.saturating_add(1) {
        push_line(lines, source, reach, number);
    }
}

/// Appends the line with the number `number` of a file, with the columns of a span in this line.
/// Appends nothing if the line has more than `LONG` bytes or does not exist.
fn push_line(lines: &mut JsonLines, source: &Source<'_>, reach: Reach, number: usize)
    requires after { reach.first.line ≤ number }
    requires before { number ≤ reach.last.line }
    ensures { YieldsLines source.now.text reach.first reach.last lines.old lines.new }
{
    if let Some(text) = source.short_line(number, LONG) {
        push_marked(
            lines,
            text,
            first_column(reach, number),
            last_column(reach, number, text),
        );
    }
}

/// Returns the column at which a span begins in the line with the number `number`: the column of
/// the span's start in the first line, and 1 in any other line.
fn first_column(reach: Reach, number: usize) -> usize
    ensures { result ≡ first_column reach.first number }
{
    if number == reach.first.line {
        reach.first.column
    } else {
        1
    }
}

/// Returns the column before which a span ends in the line with the number `number` and the text
/// `text`: the column of the span's end in the last line, and the column after the text in any
/// other line.
fn last_column(reach: Reach, number: usize, text: &str) -> usize
    ensures { result ≡ last_column reach.last number text.now }
{
    if number == reach.last.line {
        reach.last.column
    } else {
        char_count(text).saturating_add(1)
    }
}

/// Returns the number of characters of a text.
fn char_count(text: &str) -> usize
    ensures { result ≡ length (chars text.now) }
{
    text.chars().count()
}

/// Appends the object of a line with the text `text`. The span covers the columns `from..to` of
/// this line.
fn push_marked(lines: &mut JsonLines, text: &str, from: usize, to: usize)
    ensures { Gains (marked_tokens (record { text = text.now; from = from; to = to })) lines.old
        lines.new }
{
    lines.begin_object();
    lines.push_text("text", text);
    lines.push_number("highlight_start", from);
    lines.push_number("highlight_end", to);
    lines.end_object();
}
