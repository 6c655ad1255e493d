//! Fills lines word by word. Used by `line_breaks` and `state`.

use logos_token::error::Memory;
use std::alloc::Global;

/// The maximum length in bytes of a line that can be broken at a blank.
const MAX_LINE: usize = 100;

/// The separator before a word.
#[derive(Clone, Copy)]
pub(crate) enum WordLead {
    /// A blank if the word fits into the line, and otherwise a line end and `depth` levels of
    /// indentation.
    Blank { depth: usize },
    /// A line end and `depth` levels of indentation. An empty line precedes them if `is_apart` is
    /// `true`.
    Line { depth: usize, is_apart: bool },
    /// Nothing: the beginning of the text.
    Nothing,
}

/// A text in lines that are filled word by word. A word consists of lexemes without a blank between
/// them.
#[derive(Drop)]
pub(crate) struct WordLines {
    /// The lines so far, without the current word.
    text: String,
    /// The spaces and tabs before each line.
    margin: String,
    /// The number of bytes of the last line of `text`.
    column: usize,
    /// The separator before the current word.
    lead: WordLead,
    /// The current word, to which lexemes are added.
    word: String,
}

impl WordLines {
    /// Returns an empty text whose lines, including the first one, will begin with `margin`.
    pub(crate) fn new(alloc: Global, margin: &str) -> Result<WordLines, Memory> {
        Ok(WordLines {
            text: String::new(alloc),
            margin: String::from_str(alloc, margin)?,
            column: 0,
            lead: WordLead::Nothing,
            word: String::new(alloc),
        })
    }

    /// Appends the current word to the lines, and begins a new word with the separator `lead`
    /// before it.
    pub(crate) fn begin(&mut self, lead: WordLead) -> Result<(), Memory> {
        self.put_word()?;
        self.lead = lead;
        Ok(())
    }

    /// Returns the number of bytes that fit into the last line after the current word, not counting
    /// a separator before the word. Returns 0 if no byte fits.
    pub(crate) fn room(&self) -> usize {
        let used = self.column.saturating_add(self.word.len());
        MAX_LINE.saturating_sub(used)
    }

    /// Appends a lexeme to the current word.
    pub(crate) fn add(&mut self, lexeme: &str) -> Result<(), Memory> {
        self.word.push_str(lexeme)?;
        Ok(())
    }

    /// Returns all lines, including the current word.
    pub(crate) fn finish(mut self) -> Result<String, Memory> {
        self.put_word()?;
        Ok(self.text)
    }

    /// Appends the current word and the separator before it to the lines. Afterwards, the current
    /// word is empty.
    fn put_word(&mut self) -> Result<(), Memory> {
        self.put_lead()?;
        self.text.push_str(self.word.as_str())?;
        self.column = self.column.saturating_add(self.word.len());
        self.word.clear();
        Ok(())
    }

    /// Appends the separator before the current word to the lines.
    fn put_lead(&mut self) -> Result<(), Memory> {
        match self.lead {
            WordLead::Nothing => self.put_margin(),
            WordLead::Blank { depth: _ } if self.has_room() => self.put_blank(),
            WordLead::Blank { depth } => self.put_line(depth),
            WordLead::Line { depth, is_apart } => {
                self.put_empty_line(is_apart)?;
                self.put_line(depth)
            }
        }
    }

    /// Returns whether a blank and the current word fit into the last line.
    fn has_room(&self) -> bool {
        self.column.saturating_add(self.word.len()) < MAX_LINE
    }

    /// Appends a blank to the last line.
    fn put_blank(&mut self) -> Result<(), Memory> {
        self.text.push(' ')?;
        self.column = self.column.saturating_add(1);
        Ok(())
    }

    /// Appends a line end if `is_apart` is `true`, so that an empty line follows the last line.
    fn put_empty_line(&mut self, is_apart: bool) -> Result<(), Memory> {
        if is_apart {
            self.text.push('\n')?;
        }
        Ok(())
    }

    /// Ends the last line, and begins a new line with the margin and `depth` levels of four blanks.
    fn put_line(&mut self, depth: usize) -> Result<(), Memory> {
        self.text.push('\n')?;
        self.put_margin()?;
        for _ in 0..depth {
            self.text.push_str("    ")?;
        }
        self.column = self.column.saturating_add(depth.saturating_mul(4));
        Ok(())
    }

    /// Appends the margin to the lines, as the beginning of a line.
    fn put_margin(&mut self) -> Result<(), Memory> {
        self.text.push_str(self.margin.as_str())?;
        self.column = self.margin.len();
        Ok(())
    }
}
