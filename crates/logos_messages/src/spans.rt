//! Functions that append the spans of a fault or a warning. Used by `fault` and `warnings`.

ghost use Rattle.std.specs.Prelude.{◌≡◌, [], ◌∷◌, IsTrue, List, Some, None, codes, option_map};
ghost use Rattle.logos_messages.specs.Imports.{Gains, HasLongLine, IsLongAt, YieldsOther, YieldsSpan, YieldsSpanList, bytes_tokens, label_tokens, locations_tokens};

use crate::marked_lines::{LONG, Reach, push_lines};
use logos_json::JsonLines;
use logos_report::Part;
use logos_token::token::Span;

/// Appends the object of a span of a part of a file. The span is the primary span of its fault if
/// `label` is `None`.
fn push_span(lines: &mut JsonLines, part: Part<'_, '_>, span: Span, label: Option<&str>)
    ensures { YieldsSpan part.entry.source.now part.entry.offset span (option_map (λ t. t.now) label.entry)
        lines.old lines.new }
{
    let reach = Reach {
        first: part.location(span.from),
        last: part.location(span.to),
    };
    lines.begin_object();
    push_bytes(lines, part, span);
    push_locations(lines, reach);
    push_label(lines, label);
    push_lines(lines, part.source, reach);
    lines.end_object();
}

/// Appends the second span `also` of a fault or a warning. Appends nothing if `also` is `None`.
fn push_other(lines: &mut JsonLines, part: Part<'_, '_>, also: Option<Span>)
    ensures { YieldsOther part.entry.source.now part.entry.offset also lines.old lines.new }
{
    if let Some(span) = also {
        push_span(lines, part, span, Some("see also"));
    }
}

/// Appends a member with the list of the spans of a fault or a warning: the primary span `span`,
/// and the second span `also` if it is not `None`. Both spans are in bytes of the part.
pub(crate) fn push_spans(lines: &mut JsonLines, part: Part<'_, '_>, span: Span, also: Option<Span>)
    ensures { YieldsSpanList part.entry.source.now part.entry.offset span also lines.old lines.new }
{
    lines.begin_list("spans");
    push_span(lines, part, span, None);
    push_other(lines, part, also);
    lines.end_list();
}

/// Appends the path of the file of a span, and the start and the end of the span in bytes of the
/// file.
fn push_bytes(lines: &mut JsonLines, part: Part<'_, '_>, span: Span)
    ensures { Gains (bytes_tokens part.entry.source.now part.entry.offset span) lines.old lines.new }
{
    lines.push_text("file_name", part.source.path());
    lines.push_number("byte_start", span.from.saturating_add(part.offset));
    lines.push_number("byte_end", span.to.saturating_add(part.offset));
}

/// Appends the line and the column of the start of a span, and those of its end.
fn push_locations(lines: &mut JsonLines, reach: Reach)
    ensures { Gains (locations_tokens reach.first reach.last) lines.old lines.new }
{
    lines.push_number("line_start", reach.first.line);
    lines.push_number("line_end", reach.last.line);
    lines.push_number("column_start", reach.first.column);
    lines.push_number("column_end", reach.last.column);
}

/// Appends a member that states whether a span is the primary span of its fault, and a member with
/// the label of the span. The span is primary if `label` is `None`.
fn push_label(lines: &mut JsonLines, label: Option<&str>)
    ensures { Gains (label_tokens (option_map (λ t. t.now) label.entry)) lines.old lines.new }
{
    match label {
        Some(label) => push_other_label(lines, label),
        None => push_primary(lines),
    }
}

/// Appends a member that states that a span is not primary, and a member with the label of the
/// span.
fn push_other_label(lines: &mut JsonLines, label: &str)
    ensures { Gains (label_tokens (Some label.now)) lines.old lines.new }
{
    lines.push_bool("is_primary", false);
    lines.push_text("label", label);
}

/// Appends a member that states that a span is primary, and a null label.
fn push_primary(lines: &mut JsonLines)
    ensures { Gains (label_tokens None) lines.old lines.new }
{
    lines.push_bool("is_primary", true);
    lines.push_null("label");
}

/// Returns whether a span of a part begins or ends in a line of more than `LONG` bytes.
pub(crate) fn has_long_line(part: Part<'_, '_>, span: Span) -> bool
    ensures { IsTrue result → HasLongLine part.entry.source.now part.entry.offset span }
{
    if is_long(part, span.from) {
        return true;
    }
    is_long(part, span.to)
}

/// Returns whether the line that contains the byte `offset` of a part has more than `LONG` bytes.
fn is_long(part: Part<'_, '_>, offset: usize) -> bool
    ensures { IsTrue result → IsLongAt part.entry.source.now part.entry.offset offset }
{
    match part.source.short_line(part.location(offset).line, LONG) {
        Some(_) => false,
        None => true,
    }
}
