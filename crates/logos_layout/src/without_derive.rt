//! Removes lexemes from a source, with the gaps around them. Used by `writer`.

use crate::kept_lexemes::Staying;
use crate::pieces::first_piece;
use logos_lexeme::lexeme::{LexemeKind, Span};
use logos_token::error::Memory;
use logos_token::token::Tokens;
use std::alloc::Global;

/// The beginning of a source without the removed lexemes and without the gaps around them.
#[derive(Drop)]
struct Thinned {
    text: String,
    /// The gap after `text`, not yet appended to `text`.
    gap: String,
    /// Whether the gap has a line end.
    has_line: bool,
    /// Whether the last lexeme was removed, and no gap has been added since.
    is_cut: bool,
    /// The number of removed opening delimiters that are still open.
    depth: usize,
}

/// Returns the text of `source` without the lexemes that do not belong to the tokens `left`. The
/// result ends before the first byte of `source` that cannot be read into a lexeme.
///
/// A line that contains only removed lexemes is removed with them. Comments remain, except inside
/// removed delimiters and after the last remaining lexeme.
pub(crate) fn text_without(
    alloc: Global,
    source: &str,
    left: Tokens<'_, '_>,
) -> Result<String, Memory> {
    let mut thinned = Thinned::new(alloc);
    let mut staying = Staying::new(alloc, left);
    let mut left = source;
    while let Some(first) = first_piece(left) {
        let from = source.len().saturating_sub(left.len());
        let to = source.len().saturating_sub(first.rest.len());
        let stays = stays(&mut staying, first.kind, Span { from, to })?;
        thinned.add_piece(first.kind, first.piece, stays)?;
        left = first.rest;
    }
    Ok(thinned.text)
}

/// Returns whether a lexeme of the kind `kind` at `span` is the next remaining lexeme. If so, moves
/// `staying` past the lexeme. Returns `false` for a gap.
fn stays(staying: &mut Staying<'_, '_>, kind: LexemeKind, span: Span) -> Result<bool, Memory> {
    match kind {
        LexemeKind::Gap => Ok(false),
        _ => staying.pass(span),
    }
}

impl Thinned {
    /// Returns an empty text without a gap.
    fn new(alloc: Global) -> Thinned {
        Thinned {
            text: String::new(alloc),
            gap: String::new(alloc),
            has_line: false,
            is_cut: false,
            depth: 0,
        }
    }

    /// Adds a gap or a lexeme to the text. A lexeme is left out unless `stays` is `true`.
    fn add_piece(&mut self, kind: LexemeKind, piece: &str, stays: bool) -> Result<(), Memory> {
        match kind {
            LexemeKind::Gap => self.add_gap(piece),
            _ if stays => self.add(piece),
            _ => {
                self.leave_out(kind);
                Ok(())
            }
        }
    }

    /// Appends the gap and `lexeme` to the text. Leaves out the gap if it has no line end and the
    /// lexeme directly before `lexeme` was removed.
    fn add(&mut self, lexeme: &str) -> Result<(), Memory> {
        if !self.is_cut | self.has_line {
            self.text.push_str(self.gap.as_str())?;
        }
        self.text.push_str(lexeme)?;
        self.gap.clear();
        self.has_line = false;
        self.is_cut = false;
        self.depth = 0;
        Ok(())
    }

    /// Skips a removed lexeme of the kind `kind`, and updates the number of removed delimiters that
    /// are open.
    fn leave_out(&mut self, kind: LexemeKind) {
        self.is_cut = true;
        match kind {
            LexemeKind::Opening(_) => self.depth = self.depth.saturating_add(1),
            LexemeKind::Closing(_) => self.depth = self.depth.saturating_sub(1),
            _ => {}
        }
    }

    /// Adds white space or a comment to the gap, unless it is inside removed delimiters.
    fn add_gap(&mut self, piece: &str) -> Result<(), Memory> {
        if self.depth != 0 {
            return Ok(());
        }
        if self.is_cut & !is_comment(piece) {
            return self.join_gap(piece);
        }
        self.push_gap(piece)
    }

    /// Replaces the gap before a removed lexeme by `space`, the white space after the lexeme, if
    /// `space` has a line end and the gap has none. Otherwise, and at the beginning of the text,
    /// leaves out `space`.
    fn join_gap(&mut self, space: &str) -> Result<(), Memory> {
        self.is_cut = false;
        if self.has_line | self.text.is_empty() | !has_line(space.as_bytes()) {
            return Ok(());
        }
        self.gap.clear();
        self.push_gap(space)
    }

    /// Appends white space or a comment to the gap.
    fn push_gap(&mut self, piece: &str) -> Result<(), Memory> {
        self.gap.push_str(piece)?;
        self.has_line = self.has_line | has_line(piece.as_bytes());
        self.is_cut = false;
        Ok(())
    }
}

/// Returns whether a gap is a comment: whether it begins with `/`.
fn is_comment(piece: &str) -> bool {
    match piece.as_bytes() {
        [first, ..] => *first == b'/',
        [] => false,
    }
}

/// Returns whether `bytes` contain a line end.
fn has_line(bytes: &[u8]) -> bool {
    for byte in bytes {
        if *byte == b'\n' {
            return true;
        }
    }
    false
}
