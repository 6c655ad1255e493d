//! The tokens of a source text. `reader` creates tokens, and `views` provides access to them. Every
//! crate that reads sources uses this module.

mod entry;
mod laws;
mod printing;
mod reader;
mod value;
mod views;

pub use laws::{prints_back, prints_runs_back};
pub use logos_lexeme::lexeme::{Delimiter, LexicalKind, Spacing, Span};
pub use printing::{Printer, closing_text, gap_after, gap_after_doc, opening_text, print};
pub use reader::{TokenError, spelled_in_order, spells_once, tokenize};
pub use value::LiteralValue;
pub use views::{Group, TokenIter, TokenStream, TokenTree, Tokens};

/// An identifier of a source, including its prefix `r#` if it has one.
#[derive(Clone, Copy)]
pub struct Ident<'s> {
    pub text: &'s str,
    pub span: Span,
}

/// A character of punctuation.
#[derive(Clone, Copy, PartialEq, Eq)]
pub struct Punct {
    pub character: char,
    pub spacing: Spacing,
    pub span: Span,
}

/// A literal of a source, including its suffix if it has one.
#[derive(Clone, Copy)]
pub struct Literal<'s> {
    pub text: &'s str,
    pub span: Span,
}

/// A documentation comment as written in the source. The text of a line comment does not include
/// the end of the line.
#[derive(Clone, Copy)]
pub struct Doc<'s> {
    pub text: &'s str,
    pub span: Span,
}
