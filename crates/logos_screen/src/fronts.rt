//! Cuts lines to the width of a screen. Used by `item_line` and `logos_show`.

ghost use Rattle.std.specs.Prelude.{◌≡◌, ◌++◌, [], ◌∷◌, None, OnOk};
ghost use Rattle.logos_screen.specs.Views.{IsCutFront, IsFront};

use logos_page::columns_of;
use std::alloc::AllocError;

/// The mark at the end of a cut line. The mark takes one column.
const CUT: &str = "…";

/// The shown part of a line, and the mark after this part. The mark is empty if the whole line is
/// shown.
#[derive(Clone, Copy)]
pub(crate) struct ShownLine<'l> {
    pub(crate) text: &'l str,
    pub(crate) mark: &'static str,
}

/// Appends a text to `block`. The text is unchanged if `width` is `None`. Otherwise, each line of
/// the text is cut to `width` columns and ends with LF.
///
/// # Errors
///
/// Returns `AllocError` if memory runs out. In this case, a part of the text may have been appended
/// to `block`.
pub fn push_fitted(block: &mut Vec<u8>, text: &str, width: Option<usize>) -> Result<(), AllocError>
    ensures { width ≡ None → OnOk result (block.new.items ≡ block.old.items ++ text.now) }
{
    match width {
        Some(_) => push_lines(block, text, width),
        None => block.extend_from_slice(text.as_bytes()),
    }
}

/// Appends the lines of a text to `block`, each cut to `width` columns.
fn push_lines(block: &mut Vec<u8>, text: &str, width: Option<usize>) -> Result<(), AllocError> {
    for line in text.lines() {
        push_front(block, front_of(line, width))?;
    }
    Ok(())
}

/// Appends the shown part of a line to `block`, followed by the mark of the line and a line end.
fn push_front(block: &mut Vec<u8>, front: ShownLine<'_>) -> Result<(), AllocError>
    ensures { OnOk result (block.new.items ≡ block.old.items
        ++ (front.entry.text.now ++ (front.entry.mark.now ++ 10 ∷ []))) }
{
    block.extend_from_slice(front.text.as_bytes())?;
    push_end(block, front.mark)
}

/// Appends a mark and a line end to `block`.
pub(crate) fn push_end(block: &mut Vec<u8>, mark: &str) -> Result<(), AllocError>
    ensures { OnOk result (block.new.items ≡ block.old.items ++ (mark.now ++ 10 ∷ [])) }
{
    block.extend_from_slice(mark.as_bytes())?;
    block.extend_from_slice(b"\n")
}

/// Returns the shown part of a line. If `width` is `None` or the line fits into `width` columns,
/// this part is the whole line. Otherwise, this part is a prefix of the line, followed by the mark
/// of a cut.
pub(crate) fn front_of<'l>(line: &'l str, width: Option<usize>) -> ShownLine<'l>
    ensures { IsFront line.now width result.text.now result.mark.now }
{
    match width {
        Some(width) if columns_in(line) > width => cut_front(line, end_of(line, width)),
        _ => ShownLine {
            text: line,
            mark: "",
        },
    }
}

/// Returns the first `end` bytes of a line, followed by the mark of a cut. Returns the mark alone
/// if the line cannot be split at `end`.
fn cut_front<'l>(line: &'l str, end: usize) -> ShownLine<'l>
    ensures { IsCutFront line.now result.text.now result.mark.now }
{
    match line.split_at_checked(end) {
        Some((text, _)) => ShownLine { text, mark: CUT },
        None => ShownLine {
            text: "",
            mark: CUT,
        },
    }
}

/// Returns the number of columns of a line.
fn columns_in(line: &str) -> usize {
    let mut columns: usize = 0;
    for character in line.chars() {
        columns = columns.saturating_add(columns_of(character));
    }
    columns
}

/// Returns the length in bytes of the longest prefix of a line that takes fewer than `width`
/// columns.
fn end_of(line: &str, width: usize) -> usize {
    let mut columns: usize = 1;
    let mut end: usize = 0;
    for character in line.chars() {
        columns = columns.saturating_add(columns_of(character));
        if columns > width {
            return end;
        }
        end = end.saturating_add(character.len_utf8());
    }
    end
}
