//! Functions that read the values of string and byte string literals. The readers of definitions,
//! subpatterns and options call them for each literal.

ghost use Rattle.std.specs.Prelude.{◌≡◌, ℕ, ◌+◌, ◌<◌, ◌≤◌, ◌++◌, ◌⊎◌, ◌==◌, ◌&&◌, ◌||◌, List, length, slice_index, slice_range, string_bytes, option_map, IfOk, OnOk, MatchOption};
ghost use Rattle.logos_token.specs.ViewImports.{IsCharBoundary, Holds, bytes_of, IsRest, IsAdded, IsAscii, IsValue, IsHeld, held, held_value};

use crate::error::Memory;
use crate::token::Literal;
use logos_lexeme::lexeme::bodies::{Piece, piece_at};
use logos_lexeme::lexeme::characters::byte_at;
use logos_lexeme::lexeme::ends::{end_of, prefix_of};
use logos_lexeme::lexeme::openings::{Content, Opening, opening_at};
use std::alloc::{AllocError, Global};

/// The value of a string or byte string literal.
#[derive(Debug, Drop)]
pub enum LiteralValue {
    /// The text of a string.
    Text(String),
    /// The bytes of a byte string.
    Bytes(Vec<u8>),
}

/// Returns whether `byte` is CR, or a backslash in a string with escapes. `escapes` is `false` for
/// a raw string.
fn is_special(escapes: bool, byte: u8) -> bool
    ensures { result ≡ ((byte == 13) || (escapes && (byte == 92))) }
{
    (byte == b'\r') | (escapes & (byte == b'\\'))
}

/// Returns the byte offset of the first byte from `from` on that does not represent itself, or `to`
/// if each byte before `to` represents itself. `escapes` is `false` for a raw string.
fn plain_end(source: &str, escapes: bool, from: usize, to: usize) -> usize
    requires inside { from ≤ to }
    requires within { to ≤ length source.now }
    ensures begun { from ≤ result }
    ensures ended { result ≤ to }
    ensures stops { result < to →
        (slice_index source.now result ≡ 13) ⊎ (slice_index source.now result ≡ 92) }
    ensures rest { IsRest escapes Content.Text source.now from result to
        (slice_range source.now from result) }
{
    let mut end = from;
    while end < to && !is_special(escapes, byte_at(source, end)) {
        end += 1;
    }
    end
}

/// Appends the value of `piece` to the text `value`.
fn push_text(value: &mut String, piece: Piece) -> Result<(), AllocError>
    requires { IsAscii piece }
    ensures { OnOk result (string_bytes value.new ≡ string_bytes value.old ++ bytes_of piece) }
{
    match piece {
        Piece::Nothing => Ok(()),
        Piece::Byte(byte) => value.push(char::from(byte)),
        Piece::Character(character) => value.push(character),
    }
}

/// Appends the value of the next bytes of a string's contents to `value`. The next bytes are the
/// bytes from `at` on that represent themselves or, if there are none, the escape or CR LF at `at`.
/// Returns the byte offset after these bytes, or `None` if the contents are malformed at `at`.
fn add_text(
    value: &mut String,
    source: &str,
    escapes: bool,
    at: usize,
    to: usize,
) -> Result<Option<usize>, AllocError>
    requires before { at < to }
    requires boundary { IsCharBoundary source.now at }
    requires end_boundary { IsCharBoundary source.now to }
    ensures { IfOk result (λ next. MatchOption next
        ((held : List ℕ) → Holds escapes Content.Text source.now at to held → ⊥)
        (λ next. IsAdded escapes source.now at next to
        (string_bytes value.old) (string_bytes value.new))) }
{
    let end = plain_end(source, escapes, at, to);
    if at < end {
        value.push_str(&source[at..end])?;
        return Ok(Some(end));
    }
    let Some((piece, next)) = piece_at(source, escapes, Content::Text, at) else {
        return Ok(None);
    };
    push_text(value, piece)?;
    Ok(Some(next))
}

/// Returns the text of a string whose contents are the bytes from `from` to `to` of `source`.
/// `escapes` is `false` for a raw string. Returns `None` if the contents are malformed.
fn text_between(
    alloc: Global,
    source: &str,
    escapes: bool,
    from: usize,
    to: usize,
) -> Result<Option<String>, AllocError>
    requires boundary { IsCharBoundary source.now from }
    requires end_boundary { IsCharBoundary source.now to }
    ensures { IfOk result (λ value. MatchOption value
        ((held : List ℕ) → Holds escapes Content.Text source.now from to held → ⊥)
        (λ value. Holds escapes Content.Text source.now from to (string_bytes value))) }
{
    let mut value = String::new(alloc);
    let mut at = from;
    while at < to {
        let Some(next) = add_text(&mut value, source, escapes, at, to)? else {
            return Ok(None);
        };
        at = next;
    }
    if at != to {
        return Ok(None);
    }
    Ok(Some(value))
}

/// Appends the bytes of the value of `piece` to `value`.
fn push_bytes(value: &mut Vec<u8>, piece: Piece) -> Result<(), AllocError>
    ensures { OnOk result (value.new.items ≡ value.old.items ++ bytes_of piece) }
{
    match piece {
        Piece::Nothing => Ok(()),
        Piece::Byte(byte) => value.extend_from_slice(&[byte]),
        Piece::Character(character) => {
            let mut room = [0; 4];
            value.extend_from_slice(character.encode_utf8(&mut room).as_bytes())
        }
    }
}

/// Returns the bytes of a byte string whose contents are the bytes from `from` to `to` of `source`.
/// `escapes` is `false` for a raw byte string. Returns `None` if the contents are malformed.
fn bytes_between(
    alloc: Global,
    source: &str,
    escapes: bool,
    from: usize,
    to: usize,
) -> Result<Option<Vec<u8>>, AllocError>
    requires { to ≤ length source.now }
    ensures { IfOk result (λ value. MatchOption value
        ((held : List ℕ) → Holds escapes Content.Bytes source.now from to held → ⊥)
        (λ value. Holds escapes Content.Bytes source.now from to value.items)) }
{
    let mut value = Vec::new(alloc);
    let mut at = from;
    while at < to {
        let Some((piece, next)) = piece_at(source, escapes, Content::Bytes, at) else {
            return Ok(None);
        };
        push_bytes(&mut value, piece)?;
        at = next;
    }
    if at != to {
        return Ok(None);
    }
    Ok(Some(value))
}

/// Returns the value of a string or byte string whose contents are the bytes from `from` to `to` of
/// `source`. `escapes` is `false` for a raw literal. Returns `None` if the contents are malformed
/// or belong to a C string.
fn value_between(
    alloc: Global,
    source: &str,
    escapes: bool,
    content: Content,
    from: usize,
    to: usize,
) -> Result<Option<LiteralValue>, AllocError>
    requires boundary { IsCharBoundary source.now from }
    requires end_boundary { IsCharBoundary source.now to }
    ensures { IfOk result (λ value. IsHeld escapes content source.now from to value) }
{
    match content {
        Content::Text => match text_between(alloc, source, escapes, from, to)? {
            Some(text) => Ok(Some(LiteralValue::Text(text))),
            None => Ok(None),
        },
        Content::Bytes => match bytes_between(alloc, source, escapes, from, to)? {
            Some(bytes) => Ok(Some(LiteralValue::Bytes(bytes))),
            None => Ok(None),
        },
        Content::C => Ok(None),
    }
}

/// Returns the value of the string or byte string at the start of a text. Returns `None` if the
/// text begins with neither, or if the literal is malformed.
fn string_value(alloc: Global, text: &str) -> Result<Option<LiteralValue>, AllocError>
    ensures { IfOk result (λ value. IsValue text.now value) }
{
    if text.is_empty() {
        return Ok(None);
    }
    let opens = opening_at(text, 0);
    let Some(end) = end_of(text, 0, opens) else {
        return Ok(None);
    };
    match opens {
        Opening::Quotes(content) => {
            let from = prefix_of(content) + 1;
            value_between(alloc, text, true, content, from, end - 1)
        }
        Opening::Raw(content, count) => {
            let hashes = count as usize;
            let from = prefix_of(content) + 1 + hashes + 1;
            let to = end - 1 - hashes;
            value_between(alloc, text, false, content, from, to)
        }
        _ => Ok(None),
    }
}

impl Literal<'_> {
    /// Returns the value of a literal: the text of a string, or the bytes of a byte string. Escapes
    /// are replaced by their values, each CR LF becomes LF, and the suffix is left out. Returns
    /// `None` if the literal is neither a string nor a byte string, or is malformed.
    ///
    /// # Errors
    ///
    /// Returns `Memory` if memory runs out.
    pub fn value(&self, alloc: Global) -> Result<Option<LiteralValue>, Memory>
        ensures value { IfOk result (λ value. IsValue self.now.text.now value) }
        ensures held { IfOk result (λ value.
            option_map held_value value ≡ held self.now.text.now) }
    {
        Ok(string_value(alloc, self.text)?)
    }
}
