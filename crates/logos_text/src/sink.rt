//! The output of printers: a text, and the pieces of the source in the text. `code` creates a sink,
//! and all printers of a user's tokens write to the sink.

ghost use Rattle.std.specs.Prelude.{[], OnOk};
ghost use Rattle.logos_text.specs.Views.{IsEmptySink, Prints, PrintsPiece, name_runs, noted_runs, printed, run_after, tokens_of};

use crate::gaps::gap_after;
use logos_pattern::leaf::Callback;
use logos_token::error::Memory;
use logos_token::token::{Ident, Span, Tokens, print};
use std::alloc::Global;

/// Tokens of a source that a text repeats. The bytes `from..to` of the text are the printed form of
/// the tokens at `span` in the source.
#[derive(Clone, Copy, Debug, PartialEq, Eq)]
pub struct Piece {
    pub from: usize,
    pub to: usize,
    /// The span of the tokens in the source, in bytes.
    pub span: Span,
}

/// A statement of a text that calls a callback.
#[derive(Clone, Copy, Debug, PartialEq, Eq)]
pub struct Call {
    /// The byte offset at which the statement begins in the text.
    pub offset: usize,
    /// The byte offset at which the callback begins in the source.
    pub from: usize,
}

/// A text of printed tokens, with the pieces of the source and the calls of callbacks in it.
#[derive(Debug, Drop)]
pub struct Sink {
    /// The printed text.
    pub text: String,
    /// The pieces, in the order in which they occur in the text. No two pieces overlap.
    pub pieces: Vec<Piece>,
    /// The statements that call callbacks, in the order in which they occur in the text. No
    /// contract describes this list.
    pub calls: Vec<Call>,
}

impl Sink {
    /// Returns a sink with an empty text.
    pub(crate) fn new(alloc: Global) -> Sink
        ensures { IsEmptySink result }
    {
        Sink {
            text: String::new(alloc),
            pieces: Vec::new(alloc),
            calls: Vec::new(alloc),
        }
    }

    /// Appends `part`, a text that does not come from the source.
    pub(crate) fn push(&mut self, part: &str) -> Result<(), Memory>
        ensures { OnOk result (Prints part.now [] self.old self.new) }
    {
        self.text.push_str(part)?;
        Ok(())
    }

    /// Appends a name of the source, as a piece.
    pub(crate) fn push_name(&mut self, name: Ident<'_>) -> Result<(), Memory>
        ensures { OnOk result (Prints name.entry.text.now (name_runs name.entry) self.old self.new) }
    {
        self.push_piece(name.text, name.span)?;
        Ok(())
    }

    /// Appends tokens of the source as a piece, without the gap after them. Appends nothing if
    /// there are no tokens.
    fn push_tokens(&mut self, alloc: Global, tokens: Tokens<'_, '_>) -> Result<(), Memory>
        ensures { OnOk result (Prints (printed (tokens_of tokens.entry))
            (noted_runs (tokens_of tokens.entry)) self.old self.new) }
    {
        if tokens.is_empty() {
            return Ok(());
        }
        let text = print(alloc, tokens)?;
        self.push_piece(text.as_str(), tokens.span())?;
        Ok(())
    }

    /// Appends tokens of the source as a piece, and the gap after them.
    pub(crate) fn push_run(&mut self, alloc: Global, tokens: Tokens<'_, '_>) -> Result<(), Memory>
        ensures { OnOk result (Prints (run_after (tokens_of tokens.entry))
            (noted_runs (tokens_of tokens.entry)) self.old self.new) }
    {
        self.push_tokens(alloc, tokens)?;
        self.push(gap_after(tokens))?;
        Ok(())
    }

    /// Appends a piece: `text`, the printed form of the tokens at `span` in the source.
    fn push_piece(&mut self, text: &str, span: Span) -> Result<(), Memory>
        ensures { OnOk result (PrintsPiece text.now span self.old self.new) }
    {
        let from = self.text.len();
        self.text.push_str(text)?;
        let to = self.text.len();
        self.pieces.push(Piece { from, to, span })?;
        Ok(())
    }

    /// Records that the next statement appended to the sink calls `callback`.
    pub(crate) fn note_call(&mut self, callback: &Callback<'_>) -> Result<(), Memory>
        ensures { OnOk result (Prints [] [] self.old self.new) }
    {
        let from = match callback {
            Callback::Label(label) => label.run().span().from,
            Callback::Inline(inline) => inline.arg.span.from,
        };
        let offset = self.text.len();
        self.calls.push(Call { offset, from })?;
        Ok(())
    }
}
