//! Formats the line of an item with the colors and the width of a screen. `logos_items` calls
//! `push_item_line`.

ghost use Rattle.std.specs.Prelude.{◌≡◌, ◌++◌, OnOk};
ghost use Rattle.logos_screen.specs.Views.{ShowsItem, item_text, painted, part_sequence};

use crate::fronts::{front_of, push_end};
use crate::screen::Screen;
use std::alloc::AllocError;

/// The line of an item, without the line end: the location, the variant with the blanks around the
/// variant, and the text in quotes.
#[derive(Clone, Copy)]
pub struct ItemLine<'l> {
    pub line: &'l str,
    /// The length in bytes of the variant with the blanks around the variant.
    pub variant: usize,
    pub is_error: bool,
}

/// The parts of the line of an item.
#[derive(Clone, Copy)]
struct ItemParts<'l> {
    location: &'l str,
    variant: &'l str,
    text: &'l str,
}

/// The kind of a part of an item's line. The kind determines the style of the part.
#[derive(Clone, Copy, Debug, PartialEq, Eq)]
pub(crate) enum ItemPart {
    /// The location: bold and blue, like the frame of a report.
    Location,
    /// The variant: bold.
    Variant,
    /// The text: green.
    Text,
    /// The name and the text of an error: bold and red, as in a report.
    Error,
}

/// Appends the line of an item and a line end to `block`, with the colors and the width of the
/// screen.
///
/// # Errors
///
/// Returns `AllocError` if memory runs out. In this case, a part of the line may have been
/// appended.
pub fn push_item_line(
    block: &mut Vec<u8>,
    screen: Screen,
    line: ItemLine<'_>,
) -> Result<(), AllocError>
    ensures { OnOk result (ShowsItem screen line.entry block.old.items block.new.items) }
{
    let front = front_of(line.line, screen.width);
    let parts = parts_of(front.text, line.variant);
    push_parts(block, screen.is_colored, line.is_error, parts)?;
    push_end(block, front.mark)
}

/// Returns the parts of a line. The location ends before the first space, the next `variant` bytes
/// are the variant, and the rest of the line is the text.
fn parts_of<'l>(line: &'l str, variant: usize) -> ItemParts<'l>
    ensures { result.location.now ++ (result.variant.now ++ result.text.now) ≡ line.now }
{
    let (location, rest) = split(line, location_length(line));
    let (variant, text) = split(rest, variant);
    ItemParts {
        location,
        variant,
        text,
    }
}

/// Returns the length in bytes of the location at the beginning of a line. The location ends before
/// the first space, or at the end of the line if there is no space.
fn location_length(line: &str) -> usize {
    match line.find(' ') {
        Some(length) => length,
        None => line.len(),
    }
}

/// Returns the parts of `text` before and after the byte offset `at`. If `text` cannot be split at
/// this offset, the first part is all of `text` and the second part is empty.
fn split<'l>(text: &'l str, at: usize) -> (&'l str, &'l str)
    ensures { result.0.now ++ result.1.now ≡ text.now }
{
    match text.split_at_checked(at) {
        Some((front, rest)) => (front, rest),
        None => (text, ""),
    }
}

/// Appends the parts of a line to `block`, in their styles if `is_colored` is `true`. If `is_error`
/// is `true`, the variant and the text have the style of an error.
fn push_parts(
    block: &mut Vec<u8>,
    is_colored: bool,
    is_error: bool,
    parts: ItemParts<'_>,
) -> Result<(), AllocError>
    ensures { OnOk result (block.new.items ≡ block.old.items ++ item_text is_colored is_error
        parts.entry.location.now parts.entry.variant.now parts.entry.text.now) }
{
    let (variant, text) = if is_error {
        (ItemPart::Error, ItemPart::Error)
    } else {
        (ItemPart::Variant, ItemPart::Text)
    };
    push_part(block, is_colored, ItemPart::Location, parts.location)?;
    push_part(block, is_colored, variant, parts.variant)?;
    push_part(block, is_colored, text, parts.text)
}

/// Appends the text of a part to `block`, in the style of the part if `is_colored` is `true`.
fn push_part(
    block: &mut Vec<u8>,
    is_colored: bool,
    part: ItemPart,
    text: &str,
) -> Result<(), AllocError>
    ensures { OnOk result (block.new.items ≡ block.old.items ++ painted is_colored part text.now) }
{
    if !is_colored {
        return block.extend_from_slice(text.as_bytes());
    }
    block.extend_from_slice(part_sequence(part).as_bytes())?;
    block.extend_from_slice(text.as_bytes())?;
    block.extend_from_slice(b"\x1b[0m")
}

/// Returns the escape sequence that begins a part on a terminal.
fn part_sequence(part: ItemPart) -> &'static str
    ensures { result.now ≡ part_sequence part }
{
    match part {
        ItemPart::Location => "\u{1b}[1;34m",
        ItemPart::Variant => "\u{1b}[1m",
        ItemPart::Text => "\u{1b}[32m",
        ItemPart::Error => "\u{1b}[1;31m",
    }
}
