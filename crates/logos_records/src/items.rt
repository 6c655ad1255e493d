//! Writes the JSON object for an item. Used by `logos_items`.

ghost use Rattle.std.specs.Prelude.{◌≡◌, ◌∷◌, []};
ghost use Rattle.logos_records.specs.Views.{Gains, Puts, object, item_members, kind_members, location_members};

use logos_json::JsonLines;
use logos_lines::Location;

/// An item of an input, with the values that its JSON object contains.
#[derive(Clone, Copy)]
pub struct ItemRecord<'i> {
    /// The line and the column at which the item begins.
    pub location: Location,
    /// The offset at which the item begins, in bytes.
    pub from: usize,
    /// The leaf of a match, or `None` for an error.
    pub leaf: Option<usize>,
    /// The variant of a match, or `None` for an error.
    pub variant: Option<&'i str>,
    pub bytes: &'i [u8],
}

/// Appends the line with the object of an item.
pub fn push_item_record(lines: &mut JsonLines, item: ItemRecord<'_>)
    ensures { Puts (object (item_members item.entry) ∷ []) lines.old lines.new }
{
    lines.begin_object();
    push_location_members(lines, item);
    push_kind_members(lines, item);
    lines.end_object();
    lines.end_line();
}

/// Appends the members with the line, the column and the offset at which an item begins.
fn push_location_members(lines: &mut JsonLines, item: ItemRecord<'_>)
    ensures { Gains (location_members item.entry) lines.old lines.new }
{
    lines.push_number("line", item.location.line);
    lines.push_number("column", item.location.column);
    lines.push_number("from", item.from);
}

/// Appends the members with the leaf, the variant and the text of an item. The leaf and the variant
/// of an error are null.
fn push_kind_members(lines: &mut JsonLines, item: ItemRecord<'_>)
    ensures { Gains (kind_members item.entry) lines.old lines.new }
{
    lines.push_maybe_number("leaf", item.leaf);
    lines.push_maybe_text("variant", item.variant);
    lines.push_bytes("text", item.bytes);
}
