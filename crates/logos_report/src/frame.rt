//! Appends a frame for a span of a file: the location of the span, the lines on which the span
//! begins and ends, and carets under the span. Used by `faults`, `sets`, `notes` and `warnings`.

ghost use Rattle.std.specs.Prelude.{◌∷◌, []};
ghost use Rattle.logos_report.specs.Views.{Begins, Continues, shown_text, Gains, Shows, arrow_line, location_line, shown_location, shown_line_column};

use crate::source::{Part, Source};
use crate::window::{FileSpot, LineWindow, window_at};
use logos_lines::Location;
use logos_page::{Page, Style, digits};
use logos_token::token::Span;

/// A span of a file, and the style and the label with which the span is shown.
#[derive(Clone, Copy)]
struct Frame<'p, 't> {
    source: &'p Source<'t>,
    /// The start of the span.
    first: FileSpot,
    /// The end of the shown part of the span.
    last: FileSpot,
    /// The width of the column of line numbers.
    width: usize,
    /// The style of the carets and of the label.
    style: Style,
    /// The text after the carets.
    label: &'p str,
}

/// A span of a part of a file, with the style and the label of the carets under the span.
#[derive(Clone, Copy)]
pub(crate) struct Marks<'l> {
    /// The span to mark with carets, in bytes of the part.
    pub(crate) span: Span,
    /// The style of the carets and of the label.
    pub(crate) style: Style,
    /// The text after the carets, which may be empty.
    pub(crate) label: &'l str,
}

/// Appends the location of the start of `span`, the lines on which the span begins and ends, and
/// carets in the style `style` under the span. `span` is in bytes of the part. Of a line that does
/// not fit in the frame, only the columns around the span are shown. Returns the number of digits
/// of the last line's number.
pub fn push_frame(page: &mut Page, part: Part<'_, '_>, span: Span, style: Style) -> usize
    ensures { Shows (location_line page.old.is_colored part.entry.source.now part.entry.offset span.from
        ∷ []) page.old page.new }
{
    let marks = Marks {
        span,
        style,
        label: "",
    };
    push_frame_with(page, part, span.from, marks)
}

/// Appends the location of the byte offset `offset` in a part of a file, the lines on which the
/// span of `marks` begins and ends, and carets under the span. Returns the number of digits of the
/// last line's number.
pub(crate) fn push_frame_with(
    page: &mut Page,
    part: Part<'_, '_>,
    offset: usize,
    marks: Marks<'_>,
) -> usize
    ensures { Shows (location_line page.old.is_colored part.entry.source.now part.entry.offset offset
        ∷ []) page.old page.new }
{
    let frame = frame_of(part, marks);
    push_offset(page, part, offset, frame.width);
    push_lines(page, frame);
    frame.width
}

/// Returns the frame for the span of `marks`, which is in bytes of the part.
fn frame_of<'p, 't>(part: Part<'p, 't>, marks: Marks<'p>) -> Frame<'p, 't> {
    let first = spot_in(part, marks.span.from);
    let last = last_shown(part.source, first, spot_in(part, marks.span.to));
    Frame {
        source: part.source,
        first,
        last,
        width: digits(last.location.line),
        style: marks.style,
        label: marks.label,
    }
}

/// Converts the byte offset `offset` in a part to an offset and a location in the file.
fn spot_in(part: Part<'_, '_>, offset: usize) -> FileSpot {
    FileSpot {
        offset: offset.saturating_add(part.offset),
        location: part.location(offset),
    }
}

/// Returns the end of the shown part of the span from `first` to `end`: the location of the
/// preceding byte if the span ends at the beginning of a line after the line of `first`, and `end`
/// otherwise.
fn last_shown(source: &Source<'_>, first: FileSpot, end: FileSpot) -> FileSpot {
    if (end.location.column > 1) | (lines_after(first, end) == 0) {
        return end;
    }
    let offset = end.offset.saturating_sub(1);
    FileSpot {
        offset,
        location: source.location(offset),
    }
}

/// Appends the line with the location of the byte offset `offset` in a part of a file, indented by
/// `width` spaces.
pub(crate) fn push_offset(page: &mut Page, part: Part<'_, '_>, offset: usize, width: usize)
    ensures { Shows (location_line page.old.is_colored part.entry.source.now part.entry.offset offset
        ∷ []) page.old page.new }
{
    page.push_times(" ", width);
    push_arrow(page, part.source, part.location(offset));
}

/// Appends the location of the byte offset `offset` in a part of a file as `path:line:column`.
pub fn push_location(page: &mut Page, part: Part<'_, '_>, offset: usize)
    ensures { Gains (shown_location part.entry.source.now part.entry.offset offset) page.old page.new }
{
    push_line_column(page, part.source, part.location(offset));
}

/// Appends a location in the file `source` as `path:line:column`.
fn push_line_column(page: &mut Page, source: &Source<'_>, location: Location)
    ensures { Gains (shown_line_column source.now.path location) page.old page.new }
{
    page.push_shown(source.path());
    page.push(":");
    page.push_number(location.line);
    page.push(":");
    page.push_number(location.column);
}

/// Appends `-->` and a location: the line with the location, without the spaces at its beginning.
fn push_arrow(page: &mut Page, source: &Source<'_>, location: Location)
    ensures { Gains (arrow_line page.old.is_colored source.now.path location) page.old page.new }
{
    page.paint(Style::Frame, "-->");
    page.push(" ");
    push_line_column(page, source, location);
    page.push("\n");
}

/// Appends an empty margin, and the first and the last line of a span with carets under each of the
/// two. A span on a single line has only this line.
fn push_lines(page: &mut Page, frame: Frame<'_, '_>)
    ensures { Shows [] page.old page.new }
{
    push_margin(page, frame.width);
    page.push("\n");
    if frame.first.location.line == frame.last.location.line {
        push_only_line(page, frame);
    } else {
        push_first_line(page, frame);
        push_dots(page, frame);
        push_last_line(page, frame);
    }
}

/// Appends the line of a span that begins and ends on one line, with carets under the span.
fn push_only_line(page: &mut Page, frame: Frame<'_, '_>)
    ensures { Shows [] page.old page.new }
{
    let Location { line, column } = frame.first.location;
    let window = window_at(frame.source, frame.first);
    push_line(page, frame, line, window);
    push_carets(page, frame, window, column, frame.last.location.column);
}

/// Appends the first line of a span that ends on a later line, with carets from the start of the
/// span to the end of the line.
fn push_first_line(page: &mut Page, frame: Frame<'_, '_>)
    ensures { Shows [] page.old page.new }
{
    let Location { line, column } = frame.first.location;
    let window = window_at(frame.source, frame.first);
    push_line(page, frame, line, window);
    let frame = Frame { label: "", ..frame };
    push_carets(page, frame, window, column, usize::MAX);
}

/// Appends a line of three dots if a span has lines between its first and its last line.
fn push_dots(page: &mut Page, frame: Frame<'_, '_>)
    ensures { Shows [] page.old page.new }
{
    if lines_after(frame.first, frame.last) > 1 {
        page.paint(Style::Frame, "...");
        page.push("\n");
    }
}

/// Returns the difference between the line numbers of `last` and `first`, or 0 if `last` is on an
/// earlier line.
fn lines_after(first: FileSpot, last: FileSpot) -> usize {
    last.location.line.saturating_sub(first.location.line)
}

/// Appends the last line of a span that begins on an earlier line, with carets up to the end of the
/// span, and the label.
fn push_last_line(page: &mut Page, frame: Frame<'_, '_>)
    ensures { Shows [] page.old page.new }
{
    let Location { line, column } = frame.last.location;
    let window = window_at(frame.source, frame.last);
    push_line(page, frame, line, window);
    push_carets(page, frame, window, 1, column);
}

/// Appends the margin of a line without a number: `width + 1` spaces and `|`.
fn push_margin(page: &mut Page, width: usize)
    ensures { Begins page.old page.new }
{
    page.push_times(" ", width.saturating_add(1));
    page.paint(Style::Frame, "|");
}

/// Appends the line number `line`, and the shown part of the line with this number.
fn push_line(page: &mut Page, frame: Frame<'_, '_>, line: usize, window: LineWindow<'_>)
    ensures { Shows [] page.old page.new }
{
    push_line_number(page, line, frame.width);
    push_window(page, window);
    page.push("\n");
}

/// Appends a space and the shown part of a line, unless this part is empty.
fn push_window(page: &mut Page, window: LineWindow<'_>)
    ensures { Continues page.old page.new }
{
    if !window.is_empty() {
        page.push(" ");
        window.push(page);
    }
}

/// Appends the number of a line in a column of `width` digits, and ` |` after it.
fn push_line_number(page: &mut Page, line: usize, width: usize)
    ensures { Begins page.old page.new }
{
    page.begin(Style::Frame);
    page.push_number(line);
    page.push_times(" ", width.saturating_sub(digits(line)));
    page.push(" |");
    page.end();
}

/// Appends a line with carets and the label of `frame`. The carets mark the shown part of the
/// columns `from..to` of a line of the file. At least one caret is appended.
fn push_carets(
    page: &mut Page,
    frame: Frame<'_, '_>,
    window: LineWindow<'_>,
    from: usize,
    to: usize,
)
    ensures { Shows [] page.old page.new }
{
    push_margin(page, frame.width);
    page.push(" ");
    page.push_times(" ", window.columns_before(from));
    page.begin(frame.style);
    page.push("^");
    page.push_times("^", window.columns_between(from, to).saturating_sub(1));
    push_label(page, frame.label);
    page.end();
    page.push("\n");
}

/// Appends a space and the text after carets, unless this text is empty.
fn push_label(page: &mut Page, label: &str)
    ensures { Continues page.old page.new }
{
    if !label.is_empty() {
        page.push(" ");
        page.push_shown(label);
    }
}
