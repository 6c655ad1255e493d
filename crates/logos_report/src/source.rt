//! Defines files and parts of files, and finds the locations of byte offsets in them. Used by all
//! modules that print faults or warnings.

ghost use Rattle.std.specs.Prelude.{◌≡◌, ◌≤◌, ◌⊎◌, IfOk, MatchOption, length};
ghost use Rattle.logos_report.specs.Views.{IsLineOf, IsLongLine, IsNoLine, location_at, in_file};

use logos_lines::{LineIndex, Location};
use logos_token::token::Span;
use std::alloc::{AllocError, Global};
use std::marker::Model;

/// A part of a file. Offsets in the part count bytes from its beginning.
#[derive(Clone, Copy)]
pub struct Part<'p, 't> {
    /// The whole file.
    pub source: &'p Source<'t>,
    /// The byte offset of the part in the file.
    pub offset: usize,
}

impl Part<'_, '_> {
    /// Returns the line and the column in the file of the byte offset `offset` in the part.
    pub fn location(self, offset: usize) -> Location
        ensures { result ≡ location_at self.entry.source.now.text
            (in_file self.entry.offset offset) }
    {
        self.source.location(offset.saturating_add(self.offset))
    }
}

impl<'t> Part<'_, 't> {
    /// Returns the text at `span`, a span in bytes of the part, or an empty text if the file has no
    /// such span.
    pub fn text_at(self, span: Span) -> &'t str {
        let from = span.from.saturating_add(self.offset);
        let to = span.to.saturating_add(self.offset);
        self.source.text().get(from..to).unwrap_or("")
    }

    /// Returns the text of the file from the byte offset `offset` in the part to the end of the
    /// file, or an empty text if the file has no such offset.
    pub fn text_from(self, offset: usize) -> &'t str {
        let from = offset.saturating_add(self.offset);
        self.source.text().get(from..).unwrap_or("")
    }
}

/// A file: its path, and its text with an index of its lines.
#[derive(Drop)]
pub struct Source<'t> {
    path: &'t str,
    text: &'t str,
    index: LineIndex<'t>,
}

impl<'t> Model for Source<'t> {
    ghost use Rattle.std.specs.Prelude.{◌≡◌};
    ghost use Rattle.logos_report.specs.Locations.{SourceValue};

    ghost Value = { SourceValue };

    ghost view = { λ source. record { path = source.path.now; text = source.text.now } };

    ghost invariant = { λ source. source.index ≡ source.text.now };
}

impl<'t> Source<'t> {
    /// Returns a file with the path `path` and the text `text`.
    ///
    /// # Errors
    ///
    /// Returns `AllocError` if memory runs out.
    pub fn new(alloc: Global, path: &'t str, text: &'t str) -> Result<Source<'t>, AllocError>
        ensures { IfOk result
            (λ source. source ≡ record { path = path.now; text = text.now }) }
    {
        let index = LineIndex::new(alloc, text)?;
        Ok(Source { path, text, index })
    }

    /// Returns the path of the file.
    pub fn path(&self) -> &'t str
        ensures { result.now ≡ self.now.path }
    {
        self.path
    }

    /// Returns the text of the file.
    pub fn text(&self) -> &'t str
        ensures { result.now ≡ self.now.text }
    {
        self.text
    }

    /// Returns the line and the column of a byte offset in the file.
    pub fn location(&self, offset: usize) -> Location
        ensures { result ≡ location_at self.now.text offset }
    {
        self.index.line_column(offset)
    }

    /// Returns the text of the line with the number `line`, or `None` if the file has no such line
    /// or the line has more than `most` bytes. Examines at most `most` bytes and the end of the
    /// line.
    pub fn short_line(&self, line: usize, most: usize) -> Option<&'t str>
        ensures { MatchOption result
            (IsNoLine self.now.text line ⊎ IsLongLine self.now.text line most)
            (λ shown. IsLineOf self.now.text line shown.now × (length shown.now ≤ most)) }
    {
        self.index.short_line(line, most)
    }
}
