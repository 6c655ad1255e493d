//! `lexeme_at` finds the kind and the end of the lexeme or gap at a byte offset of a source.
//!
//! The function reads a literal if a literal begins at the offset, otherwise a comment, and
//! otherwise the lexeme or gap that begins with the character at the offset. The number of times
//! that a byte is examined is bounded by a constant. `logos_token` calls `lexeme_at` at each offset
//! at which a lexeme or a gap begins.

ghost use Rattle.std.specs.Prelude.{◌<◌, length, IfOk, IfErr};
ghost use Rattle.logos_lexeme.specs.Views.{IsCharBoundary, IsNext, IsStuck};

pub mod bodies;
pub mod characters;
pub mod ends;
pub mod openings;

use bodies::is_sound;
use characters::past;
use ends::{end_of, suffix_end};
use openings::{Opening, kind_of, opening_at};

/// A range of bytes of the source, from `from` up to but not including `to`.
#[derive(Clone, Copy, Debug, PartialEq, Eq)]
pub struct Span {
    /// The byte offset of the first byte.
    pub from: usize,
    /// The byte offset after the last byte.
    pub to: usize,
}

/// The spacing of a punctuation character: whether more punctuation follows directly.
#[derive(Clone, Copy, Debug, PartialEq, Eq)]
pub enum Spacing {
    /// Neither punctuation nor `'` follows directly, or a comment follows.
    Alone,
    /// Other punctuation, a `'`, or the name of a lifetime follows directly.
    Joint,
}

/// The kind of the two delimiters that enclose a group.
#[derive(Clone, Copy, Debug, PartialEq, Eq)]
pub enum Delimiter {
    /// `(` and `)`.
    Parenthesis,
    /// `[` and `]`.
    Bracket,
    /// `{` and `}`.
    Brace,
}

/// The kind of a lexeme or gap.
#[derive(Clone, Copy, Debug, PartialEq, Eq)]
pub enum LexemeKind {
    /// White space, a comment that is not documentation, or U+FEFF at the start of the
    /// text.
    Gap,
    /// An identifier, including the `r#` of a raw identifier.
    Identifier,
    /// A literal, including its suffix.
    Literal,
    /// A documentation comment. A line comment does not include the end of its line.
    Doc,
    /// A character of punctuation, or the `'` of a lifetime.
    Punctuation(Spacing),
    /// An opening delimiter.
    Opening(Delimiter),
    /// A closing delimiter.
    Closing(Delimiter),
}

/// The reason why a source text cannot be cut into lexemes or tokens.
#[derive(Clone, Copy, Debug, PartialEq, Eq)]
pub enum LexicalKind {
    /// A character that begins no lexeme.
    BadCharacter,
    /// A malformed literal. The span does not include the literal's suffix.
    BadLiteral,
    /// A literal or a comment without an end. The span reaches to the end of the text.
    Unterminated,
    /// A delimiter without a matching delimiter.
    Unbalanced,
}

/// Returns the kind of the lexeme or gap at the byte offset `from`, and the byte offset after the
/// lexeme or gap.
///
/// Consecutive white space is one gap, and each comment that is not documentation is a gap of its
/// own.
///
/// # Errors
///
/// Returns:
///
/// - `BadCharacter` with the span of the character if no lexeme or gap begins with the character
/// - `Unterminated` with the span up to the end of the source if a literal or a comment does not
///   end
/// - `BadLiteral` with the span of the literal without its suffix if the literal is malformed
///
/// Never returns `Unbalanced`, because this function does not match delimiters.
pub fn lexeme_at(source: &str, from: usize) -> Result<(LexemeKind, usize), (LexicalKind, Span)>
    requires inside { from < length source.now }
    requires boundary { IsCharBoundary source.now from }
    ensures ok { IfOk result (λ r. IsNext source.now from r.0 r.1) }
    ensures err { IfErr result (λ fault. IsStuck source.now from fault.0 fault.1) }
{
    let opens = opening_at(source, from);
    if let Opening::Nothing = opens {
        let to = past(source, from);
        return Err((LexicalKind::BadCharacter, Span { from, to }));
    }
    let Some(end) = end_of(source, from, opens) else {
        let to = source.len();
        return Err((LexicalKind::Unterminated, Span { from, to }));
    };
    if !is_sound(source, from, opens, end) {
        return Err((LexicalKind::BadLiteral, Span { from, to: end }));
    }
    match kind_of(opens) {
        LexemeKind::Literal => Ok((LexemeKind::Literal, suffix_end(source, end))),
        kind => Ok((kind, end)),
    }
}
