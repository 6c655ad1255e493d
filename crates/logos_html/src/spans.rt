//! Writes the text of an input, with an HTML span for each item of the input. Used by `document`.

ghost use Rattle.std.specs.Prelude.{◌≡◌, decimal, map};
ghost use Rattle.logos_html.specs.Views.{Gains, class_text, described_of, description_text, end_of, extent_label, item_head, item_markup, item_of, items_text, location_label, moved, name_label, next_text, part_of, label_end, priority_at, priority_label, range_text, slice_text, span_data, start_of, token_head};

use crate::bytes::push_bytes;
use crate::descriptions::Described;
use crate::finds::span_of;
use crate::html::Html;
use logos_answers::{bytes_between, name_at};
use logos_lines::{Cursor, Location};
use logos_machine::machine::Item;
use logos_pattern::leaf::Leaf;
use logos_token::token::Span;

/// The number of colors. Leaf `n` has the color `n % COLORS`.
const COLORS: usize = 8;

/// An input whose front is shown on a page, and the leaves of the page's lexer.
#[derive(Clone, Copy)]
pub(crate) struct ShownInput<'a, 's> {
    pub(crate) leaves: &'a [Leaf<'s>],
    pub(crate) bytes: &'a [u8],
    /// The end of the shown front, as an offset in bytes.
    pub(crate) end: usize,
}

/// Appends the shown front of an input, with an HTML span around each of `items`.
pub(crate) fn push_items(html: &mut Html, shown: ShownInput<'_, '_>, items: &[Described<'_>])
    ensures { Gains (items_text shown.entry.leaves.now shown.entry.bytes.now shown.entry.end 0 0
        (map described_of items.now)) html.old html.new }
{
    let mut at = 0;
    let mut cursor = Cursor::new(shown.bytes);
    for item in items {
        push_next(html, shown, &mut cursor, at, item);
        at = span_of(item.item).to;
    }
    push_bytes(html, part_of(shown, at, shown.end));
}

/// Appends the shown bytes between the offset `at` and an item, and the HTML span of the item.
/// Moves `cursor` to the start of the item.
fn push_next(
    html: &mut Html,
    shown: ShownInput<'_, '_>,
    cursor: &mut Cursor<'_>,
    at: usize,
    item: &Described<'_>,
)
    requires { cursor.old.text ≡ shown.bytes.now }
    ensures gains { Gains (next_text shown.entry.leaves.now shown.entry.bytes.now shown.entry.end at
        cursor.old.at (described_of item.now)) html.old html.new }
    ensures moves { cursor.new ≡ record {
      text = cursor.old.text;
      at = moved shown.entry.bytes.now cursor.old.at (start_of (described_of item.now).item);
    } }
{
    let span = span_of(item.item);
    push_bytes(html, part_of(shown, at, span.from));
    cursor.go_to(span.from);
    push_item(html, shown, item, cursor.location());
}

/// Returns the shown bytes of an input between the offsets `from` and `to`.
fn part_of<'a>(shown: ShownInput<'a, '_>, from: usize, to: usize) -> &'a [u8]
    ensures { result.now ≡ part_of shown.entry.bytes.now shown.entry.end from to }
{
    bytes_between(shown.bytes, from, to.min(shown.end))
}

/// Appends the HTML span of an item that starts at `location`.
fn push_item(html: &mut Html, shown: ShownInput<'_, '_>, item: &Described<'_>, location: Location)
    ensures { Gains (item_markup shown.entry.leaves.now shown.entry.bytes.now shown.entry.end
        location (described_of item.now)) html.old html.new }
{
    let span = span_of(item.item);
    push_head(html, shown.leaves, item.item);
    push_label_end(html, span, location);
    push_description(html, item.description.as_str());
    push_slice(html, shown, span);
}

/// Appends the beginning of the HTML span of an item. This beginning ends before the location in
/// the label of the item.
fn push_head(html: &mut Html, leaves: &[Leaf<'_>], item: Item<'_>)
    ensures { Gains (item_head leaves.now (item_of item.entry)) html.old html.new }
{
    match item {
        Item::Token { leaf, .. } => push_token_head(html, leaves, leaf.0),
        Item::Error { .. } => {
            html.push_markup("<span tabindex=\"0\" role=\"group\" class=\"e\" aria-label=\"error");
        }
    }
}

/// Appends the description of an item as an attribute, unless the description is empty. Ends the
/// start tag of the item's HTML span.
fn push_description(html: &mut Html, description: &str)
    ensures { Gains (description_text description.now) html.old html.new }
{
    if description.is_empty() {
        return html.push_markup(">");
    }
    html.push_markup(" aria-description=\"");
    html.push_lines(description);
    html.push_markup("\">");
}

/// Appends the beginning of the HTML span of a match, with the color, the name, the number and the
/// priority of its leaf.
fn push_token_head(html: &mut Html, leaves: &[Leaf<'_>], leaf: usize)
    ensures { Gains (token_head leaves.now leaf) html.old html.new }
{
    push_class(html, leaf);
    push_name(html, leaves, leaf);
    push_priority(html, leaves, leaf);
}

/// Appends the beginning of the HTML span of a match, with the color and the number of its leaf.
fn push_class(html: &mut Html, leaf: usize)
    ensures { Gains (class_text leaf) html.old html.new }
{
    html.push_markup("<span tabindex=\"0\" role=\"group\" class=\"k c");
    html.push_number(leaf % COLORS);
    html.push_markup("\" data-leaf=\"");
    html.push_number(leaf);
}

/// Appends the beginning of the label of a match, with the name and the number of its leaf.
fn push_name(html: &mut Html, leaves: &[Leaf<'_>], leaf: usize)
    ensures { Gains (name_label leaves.now leaf) html.old html.new }
{
    html.push_markup("\" aria-label=\"");
    html.push_text(name_at(leaves, leaf));
    html.push_markup(", leaf ");
    html.push_number(leaf);
}

/// Appends the priority of a leaf to the label of a match.
fn push_priority(html: &mut Html, leaves: &[Leaf<'_>], leaf: usize)
    ensures { Gains (priority_label leaves.now leaf) html.old html.new }
{
    html.push_markup(", priority ");
    html.push_number(priority_at(leaves, leaf));
}

/// Returns the priority of the leaf with the number `leaf`, or 0 if there is no such leaf.
fn priority_at(leaves: &[Leaf<'_>], leaf: usize) -> usize
    ensures { result ≡ priority_at leaves.now leaf }
{
    match leaves.get(leaf) {
        Some(leaf) => leaf.priority,
        None => 0,
    }
}

/// Appends the rest of the label of an item, with the item's location and span. Also appends the
/// attribute `data-span`, from which programs read the item's span.
fn push_label_end(html: &mut Html, span: Span, location: Location)
    ensures { Gains (label_end span.from span.to location) html.old html.new }
{
    push_location(html, location);
    push_extent(html, span);
    push_data(html, span);
}

/// Appends the line and the column of an item to its label.
fn push_location(html: &mut Html, location: Location)
    ensures { Gains (location_label location) html.old html.new }
{
    html.push_markup(", line ");
    html.push_number(location.line);
    html.push_markup(", column ");
    html.push_number(location.column);
}

/// Appends the span of an item to its label.
fn push_extent(html: &mut Html, span: Span)
    ensures { Gains (extent_label span.from span.to) html.old html.new }
{
    html.push_markup(", bytes ");
    push_range(html, span);
}

/// Appends the end of the label of an item, and the attribute `data-span`, from which programs read
/// the item's span.
fn push_data(html: &mut Html, span: Span)
    ensures { Gains (span_data span.from span.to) html.old html.new }
{
    html.push_markup("\" data-span=\"");
    push_range(html, span);
    html.push_markup("\"");
}

/// Appends the start and the end of a span, with `..` between these offsets.
fn push_range(html: &mut Html, span: Span)
    ensures { Gains (range_text span.from span.to) html.old html.new }
{
    html.push_number(span.from);
    html.push_markup("..");
    html.push_number(span.to);
}

/// Appends the shown bytes of the item with the span `span`, and ends the item's HTML span.
fn push_slice(html: &mut Html, shown: ShownInput<'_, '_>, span: Span)
    ensures { Gains (slice_text shown.entry.bytes.now shown.entry.end span.from span.to)
        html.old html.new }
{
    push_bytes(html, part_of(shown, span.from, span.to));
    html.push_markup("</span>");
}
