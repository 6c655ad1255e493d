//! The shown part of a line: the whole line, or about 140 columns around a location in the line. At
//! most 800 bytes on either side of the location are examined, regardless of the length of the
//! line. Used by `frame`.

ghost use Rattle.std.specs.Prelude.{◌≡◌};
ghost use Rattle.logos_report.specs.Imports.{Continues};

use crate::source::Source;
use logos_lines::Location;
use logos_page::{Page, columns_of};

/// The width of the shown part of a line, in columns.
const COLUMNS: usize = 140;
/// The maximum width, in columns, of the text before the first caret if none of this text is left
/// out.
const NEAR: usize = 100;
/// The number of columns before the first caret that are shown if earlier columns are left out.
const FRONT: usize = 60;
/// The number of bytes that are examined on either side of a location. The shown columns have fewer
/// bytes, unless the line has characters that take no column.
const FAR: usize = 800;

/// A location in a file: its offset, line and column.
#[derive(Clone, Copy)]
pub(crate) struct FileSpot {
    /// The byte offset in the file.
    pub(crate) offset: usize,
    pub(crate) location: Location,
}

/// The text of a line near a location, and the number of leading characters of this text that are
/// left out.
#[derive(Clone, Copy)]
pub(crate) struct LineWindow<'t> {
    /// The text near the location.
    text: &'t str,
    /// The number of characters of the line before the text.
    front: usize,
    /// The number of leading characters of the text that are left out.
    skipped: usize,
    /// Whether the line continues after the text.
    continues: bool,
}

/// Returns the shown part of the line at the location `spot` in a file.
pub(crate) fn window_at<'t>(source: &Source<'t>, spot: FileSpot) -> LineWindow<'t> {
    let text = source.text();
    let bytes = text.as_bytes();
    let from = character_at(text, near_start(bytes, spot.offset));
    let to = near_end(bytes, from, spot.offset.saturating_add(FAR));
    let near = text.get(from..character_at(text, to)).unwrap_or("");
    let before = text.get(from..spot.offset).unwrap_or("").chars().count();
    let window = LineWindow {
        text: near,
        front: spot
            .location
            .column
            .saturating_sub(1)
            .saturating_sub(before),
        skipped: 0,
        continues: !ends_at(bytes, to),
    };
    LineWindow {
        skipped: skipped_of(window, before),
        ..window
    }
}

/// Returns the start of the text near `offset`: the start of the line, or the offset `FAR` bytes
/// before `offset` if the line begins earlier.
fn near_start(bytes: &[u8], offset: usize) -> usize {
    let least = offset.saturating_sub(FAR);
    let mut from = offset.min(bytes.len());
    while from > least {
        if bytes[from - 1] == b'\n' {
            return from;
        }
        from -= 1;
    }
    from
}

/// Returns the end of a text that begins at `from`: the end of the line, or the offset `last` if
/// the line ends later.
fn near_end(bytes: &[u8], from: usize, last: usize) -> usize {
    let mut to = from;
    while to < last {
        if ends_at(bytes, to) {
            return to;
        }
        to += 1;
    }
    to
}

/// Returns whether a line ends at the offset `at`: at LF, at CR LF, or at the end of the text.
fn ends_at(bytes: &[u8], at: usize) -> bool {
    match bytes.get(at) {
        Some(b'\n') => true,
        Some(b'\r') => bytes.get(at.saturating_add(1)) == Some(&b'\n'),
        Some(_) => false,
        None => true,
    }
}

/// Returns the first offset at or after `offset` at which a character begins or the text ends.
/// Returns `offset` if it is past the end of the text.
fn character_at(text: &str, offset: usize) -> usize {
    let mut at = offset;
    while at < text.len() {
        if text.is_char_boundary(at) {
            return at;
        }
        at += 1;
    }
    at
}

/// Returns the number of leading characters to leave out of a window whose text has `before`
/// characters before the location.
fn skipped_of(window: LineWindow<'_>, before: usize) -> usize {
    let width = columns(window.text, 0, before);
    let is_whole = (window.front == 0) & !window.continues;
    let is_near = (window.front == 0) & (width <= NEAR);
    if is_near | (is_whole & (columns(window.text, 0, usize::MAX) <= COLUMNS)) {
        0
    } else {
        characters_in(window.text, width.saturating_sub(FRONT))
    }
}

/// Returns the width in columns of at most `count` characters of a text, starting with the
/// character at the index `from`.
fn columns(text: &str, from: usize, count: usize) -> usize {
    let mut total: usize = 0;
    for character in text.chars().skip(from).take(count) {
        total = total.saturating_add(columns_of(character));
    }
    total
}

/// Returns the least number of leading characters of a text that take at least `columns` columns,
/// or the number of all characters if the text takes fewer columns.
fn characters_in(text: &str, columns: usize) -> usize {
    let mut total: usize = 0;
    let mut count: usize = 0;
    for character in text.chars() {
        if total >= columns {
            return count;
        }
        total = total.saturating_add(columns_of(character));
        count = count.saturating_add(1);
    }
    count
}

/// Appends three dots if `is_cut` is `true`, that is, if characters of a line are left out.
fn push_cut(page: &mut Page, is_cut: bool)
    ensures { Continues page.old page.new }
{
    if is_cut {
        page.push("...");
    }
}

impl LineWindow<'_> {
    /// Returns whether the text near the location is empty.
    pub(crate) fn is_empty(self) -> bool {
        self.text.is_empty()
    }

    /// Returns whether the beginning of the line is left out.
    fn is_cut(self) -> bool {
        (self.skipped > 0) | (self.front > 0)
    }

    /// Appends the shown part of the line, with three dots at each end at which the line is cut.
    pub(crate) fn push(self, page: &mut Page)
        ensures { Continues page.old page.new }
    {
        push_cut(page, self.is_cut());
        let continues = self.push_characters(page);
        push_cut(page, continues);
    }

    /// Appends the shown part of the line without dots. Returns whether the line continues after
    /// this part.
    fn push_characters(self, page: &mut Page) -> bool
        ensures { Continues page.old page.new }
    {
        let mut total: usize = 0;
        for character in self.text.chars().skip(self.skipped) {
            if total >= COLUMNS {
                return true;
            }
            page.push_shown_char(character);
            total = total.saturating_add(columns_of(character));
        }
        self.continues
    }

    /// Returns the number of characters of the line between the start of the window's text and
    /// `column`, a column of the line.
    fn characters_before(self, column: usize) -> usize {
        column.saturating_sub(1).saturating_sub(self.front)
    }

    /// Returns the number of columns that are shown before `column`, a column of the line. The
    /// columns of the dots count too.
    pub(crate) fn columns_before(self, column: usize) -> usize {
        let dots = if self.is_cut() { 3 } else { 0 };
        let shown = self.characters_before(column).saturating_sub(self.skipped);
        columns(self.text, self.skipped, shown).saturating_add(dots)
    }

    /// Returns the width in columns of the shown part of the columns `from..to` of the line.
    pub(crate) fn columns_between(self, from: usize, to: usize) -> usize {
        let first = self.characters_before(from).max(self.skipped);
        let count = self.characters_before(to).saturating_sub(first);
        let before = self.columns_before(from).min(COLUMNS);
        columns(self.text, first, count.min(COLUMNS)).min(COLUMNS - before)
    }
}
