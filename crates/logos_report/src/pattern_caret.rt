//! Finds the character of a literal at which the literal's pattern is faulty, and the subpattern
//! that was substituted before the faulty byte. Used by `faults`, `notes` and other crates.

use crate::source::Part;
use logos_token::error::{Detail, PatternDetail, SpannedError};
use logos_token::token::Span;

/// Returns the span to mark with carets for a fault, in bytes of the part: the span of the
/// character or the escape at which the pattern of a literal is faulty, or the span of the fault if
/// there is no such character or escape.
pub fn caret_span(part: Part<'_, '_>, fault: &SpannedError) -> Span {
    match fault.detail {
        Detail::Pattern(detail) => pattern_span(part, fault.span, detail),
        _ => fault.span,
    }
}

/// Returns the span of the character or the escape at which the pattern of a literal is faulty.
/// Returns `literal`, the span of the literal, if the literal does not spell the faulty byte.
fn pattern_span(part: Part<'_, '_>, literal: Span, detail: PatternDetail) -> Span {
    let Some(byte) = detail.origin.own else {
        return literal;
    };
    match piece_at(part.text_at(literal), byte) {
        Some(piece) => Span {
            from: literal.from.saturating_add(piece.from),
            to: literal.from.saturating_add(piece.to),
        },
        None => literal,
    }
}

/// A subpattern that was substituted into a pattern before the faulty byte.
#[derive(Clone, Copy)]
pub struct PutIn<'t> {
    pub name: &'t str,
    /// The offset of the name in the subpattern's definition, in bytes of the part.
    pub definition: usize,
}

/// Returns the first subpattern that was substituted into a faulty pattern before the faulty byte.
/// Returns `None` if there is no such subpattern, or if the fault is not about a pattern.
pub fn put_in<'t>(part: Part<'_, 't>, fault: &SpannedError) -> Option<PutIn<'t>> {
    let Detail::Pattern(detail) = fault.detail else {
        return None;
    };
    let span = detail.origin.put_in?;
    Some(PutIn {
        name: part.text_at(span),
        definition: span.from,
    })
}

/// Returns the span, in bytes of the literal, of the character or the escape that spells the byte
/// at the index `byte` of the literal's value. Returns `None` if the value has no such byte.
fn piece_at(literal: &str, byte: usize) -> Option<Span> {
    let (prefix, rest) = literal.split_once('"')?;
    let (inner, _) = rest.rsplit_once('"')?;
    let reader = Reader {
        is_raw: prefix.contains('r'),
        is_bytes: prefix.contains('b'),
        state: LiteralState::Plain,
        piece: Span {
            from: prefix.len().saturating_add(1),
            to: prefix.len().saturating_add(1),
        },
    };
    find(reader, inner, byte)
}

/// The construct that the next character of a literal continues. A piece is a character or an
/// escape of the literal.
#[derive(Clone, Copy)]
enum LiteralState {
    /// No construct: a piece begins with the next character.
    Plain,
    /// An escape, after its backslash.
    Escape,
    /// An escape, after `\x`.
    Hex,
    /// An escape, after `\x` and a digit. `is_high` is `true` if the digit is at least 8.
    Digit { is_high: bool },
    /// An escape, after `\u`, and perhaps after `{` and digits. The number is the value of the
    /// digits that have been read.
    Number(u32),
    /// A backslash at the end of a line, and the blanks after it.
    Blanks,
}

/// The state of a reader of a literal, before a character of the literal.
#[derive(Clone, Copy)]
struct Reader {
    is_raw: bool,
    is_bytes: bool,
    state: LiteralState,
    /// The span of the current piece up to the next character, in bytes of the literal.
    piece: Span,
}

/// Returns the span of the piece that spells the byte at the index `byte` of a literal's value, or
/// `None` if the value has no such byte. `inner` is the text between the quotes of the literal, and
/// `start` is the reader before this text.
fn find(start: Reader, inner: &str, byte: usize) -> Option<Span> {
    let mut reader = start;
    let mut left = byte;
    for character in inner.chars() {
        let (next, length) = reader.after(character);
        if left < length {
            return Some(next.piece);
        }
        left -= length;
        reader = next;
    }
    None
}

impl Reader {
    /// Returns the reader after a character, and the number of bytes that the piece ending with
    /// this character spells. The number is 0 if no piece ends with the character.
    fn after(self, character: char) -> (Reader, usize) {
        let from = match self.state {
            LiteralState::Plain => self.piece.to,
            LiteralState::Blanks if !character.is_ascii_whitespace() => self.piece.to,
            _ => self.piece.from,
        };
        let (state, length) = self.step(character);
        let piece = Span {
            from,
            to: self.piece.to.saturating_add(character.len_utf8()),
        };
        (
            Reader {
                state,
                piece,
                ..self
            },
            length,
        )
    }

    /// Returns the state after a character, and the number of bytes that the piece ending with this
    /// character spells. The number is 0 if no piece ends with the character.
    fn step(self, character: char) -> (LiteralState, usize) {
        match self.state {
            LiteralState::Plain => self.begin(character),
            LiteralState::Escape => escape(character),
            LiteralState::Hex => (
                LiteralState::Digit {
                    is_high: character >= '8',
                },
                0,
            ),
            LiteralState::Digit { is_high } => {
                let is_escaped = is_high & self.is_bytes;
                (LiteralState::Plain, if is_escaped { 4 } else { 1 })
            }
            LiteralState::Number(number) => digit(number, character),
            LiteralState::Blanks if character.is_ascii_whitespace() => (LiteralState::Blanks, 0),
            LiteralState::Blanks => self.begin(character),
        }
    }

    /// Returns the result of `step` for a character that begins a piece. CR occurs only before LF
    /// and spells no byte.
    fn begin(self, character: char) -> (LiteralState, usize) {
        if (character == '\\') & !self.is_raw {
            (LiteralState::Escape, 0)
        } else if character == '\r' {
            (LiteralState::Plain, 0)
        } else {
            (LiteralState::Plain, character.len_utf8())
        }
    }
}

/// Returns the result of `Reader::step` for a character after a backslash.
fn escape(character: char) -> (LiteralState, usize) {
    match character {
        'x' => (LiteralState::Hex, 0),
        'u' => (LiteralState::Number(0), 0),
        '\r' => (LiteralState::Blanks, 0),
        '\n' => (LiteralState::Blanks, 0),
        _ => (LiteralState::Plain, 1),
    }
}

/// Returns the result of `Reader::step` for a character after `\u`. `number` is the value of the
/// digits before the character.
fn digit(number: u32, character: char) -> (LiteralState, usize) {
    if character == '}' {
        return (LiteralState::Plain, utf8_length(number));
    }
    match character.to_digit(16) {
        Some(value) => (
            LiteralState::Number(number.wrapping_mul(16).wrapping_add(value)),
            0,
        ),
        None => (LiteralState::Number(number), 0),
    }
}

/// Returns the number of bytes in the UTF-8 encoding of the character with the code point `number`.
fn utf8_length(number: u32) -> usize {
    match number {
        0..=0x7F => 1,
        0x80..=0x7FF => 2,
        0x800..=0xFFFF => 3,
        _ => 4,
    }
}
