//! Arranges the lexemes of a text in lines. Used by `layout`.

use crate::classes::{LexemeClass, Punctuation, Role, class_of_name, role_of};
use crate::layout::{Note, Setting};
use crate::lines::WordLines;
use crate::pieces::first_piece;
use crate::state::{Gap, LayoutState, Open, opened};
use logos_lexeme::lexeme::LexemeKind;
use logos_token::error::Memory;
use logos_token::token::{Delimiter, Spacing};
use std::alloc::Global;

/// A layout in progress: the lines so far, with the state after them.
#[derive(Drop)]
struct Layout {
    lines: WordLines,
    state: LayoutState,
    /// The contents of all open delimiters except the innermost one, beginning with the outermost
    /// delimiter.
    outer: Vec<Open>,
}

/// Returns `text` in lines, with the comments of `setting` inserted. The result ends before the
/// first byte of `text` that cannot be read into a lexeme.
pub(crate) fn lines_of(alloc: Global, text: &str, setting: Setting<'_>) -> Result<String, Memory> {
    let mut layout = Layout {
        lines: WordLines::new(alloc, setting.margin)?,
        state: LayoutState::new(),
        outer: Vec::new(alloc),
    };
    let mut notes = setting.notes;
    let mut left = text;
    while let Some(first) = first_piece(left) {
        let from = text.len().saturating_sub(left.len());
        notes = layout.add_note(alloc, notes, from)?;
        layout.add_piece(first.kind, first.piece, first.rest.as_bytes())?;
        left = first.rest;
    }
    layout.lines.finish()
}

impl Layout {
    /// Adds `piece`, a lexeme or gap of the kind `kind`, to the layout. The bytes `ahead` follow
    /// `piece` in the text.
    fn add_piece(&mut self, kind: LexemeKind, piece: &str, ahead: &[u8]) -> Result<(), Memory> {
        let last = self.state.last;
        match kind {
            LexemeKind::Gap => self.add_gap(piece),
            LexemeKind::Identifier => self.add(class_of_name(piece, last), piece),
            LexemeKind::Literal => self.add(LexemeClass::Literal, piece),
            LexemeKind::Doc => self.add(LexemeClass::Comment, piece),
            LexemeKind::Punctuation(spacing) => {
                let role = self.role(first_byte(piece), spacing);
                self.add(LexemeClass::Sign(role), piece)
            }
            LexemeKind::Opening(delimiter) => self.open(delimiter, piece, ahead),
            LexemeKind::Closing(delimiter) => self.close(delimiter, piece),
        }
    }

    /// Adds the first of `notes` to the layout as a comment if its offset is at most `from`.
    /// Returns the notes that were not added.
    fn add_note<'n>(
        &mut self,
        alloc: Global,
        notes: &'n [Note],
        from: usize,
    ) -> Result<&'n [Note], Memory> {
        match notes {
            [note, rest @ ..] if note.offset <= from => {
                let line = note.line;
                let comment = format!(in alloc; "// line {line}")?;
                self.add(LexemeClass::Comment, comment.as_str())?;
                Ok(rest)
            }
            _ => Ok(notes),
        }
    }

    /// Returns the role of `character`, the next character of punctuation.
    fn role(&self, character: u8, spacing: Spacing) -> Role {
        role_of(Punctuation {
            character,
            spacing,
            last: self.state.last,
            is_second: matches!(self.state.gap, Gap::Nothing),
            has_types: self.state.types != 0,
        })
    }

    /// Adds a lexeme of the class `next` to the layout. The lexeme must not be a delimiter.
    fn add(&mut self, next: LexemeClass, lexeme: &str) -> Result<(), Memory> {
        self.put(next, lexeme)?;
        self.state = self.state.after(next);
        Ok(())
    }

    /// Adds an opening delimiter to the layout. The bytes `ahead` follow the delimiter in the text.
    fn open(&mut self, delimiter: Delimiter, lexeme: &str, ahead: &[u8]) -> Result<(), Memory> {
        let last = self.state.last;
        self.put(LexemeClass::Opening(delimiter), lexeme)?;
        let inner = opened(last, delimiter, ahead, self.lines.room());
        self.outer.push(self.state.inner)?;
        self.state = self.state.after_opening(delimiter, inner);
        Ok(())
    }

    /// Adds a closing delimiter to the layout.
    fn close(&mut self, delimiter: Delimiter, lexeme: &str) -> Result<(), Memory> {
        self.put(LexemeClass::Closing(delimiter), lexeme)?;
        let outer = match self.outer.pop() {
            Some(outer) => outer,
            None => Open::Block,
        };
        self.state = self.state.after_closing(delimiter, outer);
        Ok(())
    }

    /// Adds a lexeme of the class `next` to the current word, or begins a new word with the lexeme.
    /// The state of the layout does not change.
    fn put(&mut self, next: LexemeClass, lexeme: &str) -> Result<(), Memory> {
        if let Some(lead) = self.state.lead(next) {
            self.lines.begin(lead)?;
        }
        self.lines.add(lexeme)
    }

    /// Adds a gap to the layout. A comment is added as a lexeme; white space changes only the
    /// state.
    fn add_gap(&mut self, piece: &str) -> Result<(), Memory> {
        if first_byte(piece) == b'/' {
            return self.add(LexemeClass::Comment, piece);
        }
        self.state.gap = gap_of(piece.as_bytes());
        Ok(())
    }
}

/// Returns the first byte of a text, or 0 if the text is empty.
fn first_byte(text: &str) -> u8 {
    match text.as_bytes() {
        [first, ..] => *first,
        [] => 0,
    }
}

/// Returns the kind of the gap that consists of the white space `space`. `space` must not be empty.
fn gap_of(space: &[u8]) -> Gap {
    let mut gap = Gap::Blank;
    for byte in space {
        gap = gap_with(gap, *byte);
    }
    gap
}

/// Returns the kind of the gap that results when `byte`, a byte of white space, is appended to a
/// gap of the kind `gap`.
fn gap_with(gap: Gap, byte: u8) -> Gap {
    match (gap, byte) {
        (Gap::Line, b'\n') => Gap::EmptyLine,
        (Gap::EmptyLine, b'\n') => Gap::EmptyLine,
        (_, b'\n') => Gap::Line,
        _ => gap,
    }
}
