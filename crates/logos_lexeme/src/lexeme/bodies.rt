//! Functions that check the contents of literals and read the pieces of strings. Called by
//! `lexeme_at` after the end of a literal is found, and by `logos_token` to read the values of
//! literals.

ghost use Rattle.std.specs.Prelude.{◌≡◌, ℕ, ◌+◌, ◌^◌, ◌<◌, ◌≤◌, ◌↔◌, ◌==◌, ◌||◌, Bool, true, List, IsTrue, IsFalse, length, slice_index, slice_range, MatchOption};
ghost use Rattle.logos_lexeme.specs.Views.{digit_value, IsFirst, Steps, Ends, is_simple, simple_value, is_hex, hex_value, greatest_of, digits_between, is_blank, BreaksLine, IsEscape, IsHexEscape, IsUnicodeEscape, IsAllowed, Represents, IsPiece, IsCharacterPiece, IsSound, bytes_of, ReadsByte, IsPlain};

use crate::lexeme::characters::byte_at;
use crate::lexeme::ends::prefix_of;
use crate::lexeme::openings::{Content, Opening};

/// The letter of the escape `\xNN`.
const LETTER_X: u8 = b'x';

/// The letter of the escape `\u{..}`.
const LETTER_U: u8 = b'u';

/// The value of one piece of a string. A piece is an escape, a byte that represents itself, or CR
/// LF.
#[derive(Clone, Copy)]
pub enum Piece {
    /// No bytes: an escaped line break.
    Nothing,
    /// One byte.
    Byte(u8),
    /// One character.
    Character(char),
}

/// Returns whether a backslash followed by `letter` is a complete escape.
#[tactic(auto, unfolding(crate::specs::LiteralBodies::is_simple))]
fn is_simple(letter: u8) -> bool
    ensures { result ≡ is_simple letter }
{
    b"nrt\\0'\"".contains(&letter)
}

/// Returns the byte that `letter` after a backslash denotes. A letter other than `n`, `r`, `t` and
/// `0` denotes itself.
#[tactic(auto, unfolding(crate::specs::LiteralBodies::simple_value))]
fn simple_value(letter: u8) -> u8
    ensures { result ≡ simple_value letter }
{
    if letter == b'n' {
        return b'\n';
    }
    if letter == b'r' {
        return b'\r';
    }
    if letter == b't' {
        return b'\t';
    }
    if letter == b'0' {
        return 0;
    }
    letter
}

/// Returns whether `byte` is a space, a tab, LF or CR.
#[tactic(auto, unfolding(crate::specs::LiteralBodies::is_blank))]
fn is_blank(byte: u8) -> bool
    ensures { result ≡ is_blank byte }
{
    (byte == b' ') | (byte == b'\t') | (byte == b'\n') | (byte == b'\r')
}

/// Returns the value of the hexadecimal digit `byte`, or `None` if `byte` is not a hexadecimal
/// digit.
fn digit_of(byte: u8) -> Option<u32>
    ensures { MatchOption result
        (IsFalse (is_hex byte))
        (λ digit. IsTrue (is_hex byte) × (digit ≡ digit_value byte) × (digit < 16)) }
{
    char::from(byte).to_digit(16)
}

/// Returns the greatest byte that `\xNN` can denote in a literal with contents of the kind
/// `content`.
fn greatest_of(content: Content) -> u32
    ensures { result ≡ greatest_of content }
{
    match content {
        Content::Text => 0x7F,
        Content::Bytes | Content::C => 0xFF,
    }
}

/// Returns the byte that `\xNN` at the byte offset `at` denotes. Returns `None` if a digit is
/// missing or the byte is greater than `greatest_of(content)`.
fn hex_escape(source: &str, content: Content, at: usize) -> Option<u8>
    requires within { at ≤ length source.now }
    requires backslash { slice_index source.now at ≡ 92 }
    requires letter { slice_index source.now (at + 1) ≡ LETTER_X }
    ensures { MatchOption result
        (IsHexEscape content source.now at → ⊥)
        (λ value. IsHexEscape content source.now at
        × (value ≡ hex_value (slice_range source.now (at + 2) (at + 4)))) }
{
    let first = digit_of(byte_at(source, at + 2))?;
    let second = digit_of(byte_at(source, at + 3))?;
    let value = first * 16 + second;
    if value > greatest_of(content) {
        return None;
    }
    Some(value as u8)
}

/// Returns whether `byte` is a hexadecimal digit or `_`.
fn is_digit_or_line(byte: u8) -> bool
    ensures { result ≡ (is_hex byte || (byte == 95)) }
{
    match digit_of(byte) {
        Some(_) => true,
        None => byte == b'_',
    }
}

/// Returns the byte offset of the first byte from `from` on that is neither a hexadecimal digit nor
/// `_`, or of the end of the source.
fn digits_end(source: &str, from: usize) -> usize
    requires { from ≤ length source.now }
    ensures within { result ≤ length source.now }
    ensures first { IsFirst (λ i.
        IsFalse (is_hex (slice_index source.now i) || (slice_index source.now i == 95)))
        from result }
{
    let mut end = from;
    while end < source.len() && is_digit_or_line(byte_at(source, end)) {
        end += 1;
    }
    end
}

/// The digits of `\u{..}` that have been read: their count and the value that they spell.
#[derive(Clone, Copy)]
struct Digits {
    count: u32,
    value: u32,
}

impl Digits {
    /// Returns the digits after one more byte is read. A byte that is not a hexadecimal digit, such
    /// as `_`, changes nothing. Returns `None` if `byte` is a seventh digit.
    fn with(self, byte: u8) -> Option<Digits>
        requires few { self.count ≤ 6 }
        requires small { self.value < 16 ^ self.count }
        ensures { MatchOption result
            (IsTrue (is_hex byte) × (6 ≤ self.count))
            (λ next. ReadsByte byte self.count self.value next.count next.value) }
    {
        let Some(digit) = digit_of(byte) else {
            return Some(self);
        };
        if self.count >= 6 {
            return None;
        }
        let count = self.count + 1;
        let value = self.value * 16 + digit;
        Some(Digits { count, value })
    }
}

/// Returns the number that the hexadecimal digits between the byte offsets `from` and `to` spell.
/// Other bytes are skipped. Returns `None` if there are more than six digits.
fn number_between(source: &str, from: usize, to: usize) -> Option<u32>
    requires begun { from ≤ to }
    requires within { to ≤ length source.now }
    ensures { MatchOption result
        (6 < length (digits_between source.now from to))
        (λ number. (length (digits_between source.now from to) ≤ 6)
        × (number ≡ hex_value (digits_between source.now from to))) }
{
    let mut digits = Digits { count: 0, value: 0 };
    for at in from..to {
        digits = digits.with(byte_at(source, at))?;
    }
    Some(digits.value)
}

/// Returns the character that `\u{..}` at the byte offset `at` denotes, and the byte offset of its
/// closing brace. Returns `None` if the escape is malformed.
fn unicode_escape(source: &str, at: usize) -> Option<(char, usize)>
    requires within { at ≤ length source.now }
    requires backslash { slice_index source.now at ≡ 92 }
    requires letter { slice_index source.now (at + 1) ≡ LETTER_U }
    ensures { MatchOption result
        ((brace : ℕ) → IsUnicodeEscape source.now at brace → ⊥)
        (λ found. IsUnicodeEscape source.now at found.1
        × (found.0 ≡ hex_value (digits_between source.now (at + 3) found.1))) }
{
    if byte_at(source, at + 2) != b'{' {
        return None;
    }
    digit_of(byte_at(source, at + 3))?;
    let brace = digits_end(source, at + 3);
    if byte_at(source, brace) != b'}' {
        return None;
    }
    let number = number_between(source, at + 3, brace)?;
    let character = char::from_u32(number)?;
    Some((character, brace))
}

/// Returns the value of the escape at the byte offset `at`, and the byte offset after the escape.
/// Returns `None` if no well-formed escape begins at `at`.
fn escape_at(source: &str, content: Content, at: usize) -> Option<(Piece, usize)>
    requires { at ≤ length source.now }
    ensures { MatchOption result
        ((next : ℕ) (held : List ℕ) → IsEscape content source.now at next held → ⊥)
        (λ found. IsEscape content source.now at found.1 (bytes_of found.0)) }
{
    if byte_at(source, at) != b'\\' {
        return None;
    }
    let letter = byte_at(source, at + 1);
    if is_simple(letter) {
        return Some((Piece::Byte(simple_value(letter)), at + 2));
    }
    if letter == b'x' {
        let byte = hex_escape(source, content, at)?;
        return Some((Piece::Byte(byte), at + 4));
    }
    if letter == b'u' {
        if let Content::Bytes = content {
            return None;
        }
        let (character, brace) = unicode_escape(source, at)?;
        return Some((Piece::Character(character), brace + 1));
    }
    None
}

/// Returns whether a line break begins at the byte offset `at`.
fn breaks_line(source: &str, at: usize) -> bool
    requires { at ≤ length source.now + 1 }
    ensures { IsTrue result ↔ BreaksLine source.now at }
{
    let byte = byte_at(source, at);
    if byte == b'\n' {
        return true;
    }
    byte == b'\r' && byte_at(source, at + 1) == b'\n'
}

/// Returns the byte offset of the first byte from `from` on that is not blank, or of the end of the
/// source.
fn blanks_end(source: &str, from: usize) -> usize
    requires { from ≤ length source.now }
    ensures { IsFirst (λ i. IsFalse (is_blank (slice_index source.now i))) from result }
{
    let mut end = from;
    while end < source.len() && is_blank(byte_at(source, end)) {
        end += 1;
    }
    end
}

/// Returns whether `byte` can represent itself, or a part of a character, in a literal with
/// contents of the kind `content`.
fn is_allowed(content: Content, byte: u8) -> bool
    ensures { IsTrue result ↔ IsAllowed content byte }
{
    if byte == b'\r' {
        return false;
    }
    match content {
        Content::Bytes => byte < 128,
        Content::Text | Content::C => true,
    }
}

/// Returns the value of the unescaped piece at the byte offset `at`, and the byte offset after the
/// piece. The piece is a byte that represents itself, or CR LF, which denotes LF. Returns `None` if
/// no such piece begins at `at`.
fn plain_at(source: &str, content: Content, at: usize) -> Option<(Piece, usize)>
    requires { at ≤ length source.now }
    ensures { MatchOption result
        ((next : ℕ) (held : List ℕ) → IsPlain content source.now at next held → ⊥)
        (λ found. IsPlain content source.now at found.1 (bytes_of found.0)) }
{
    let byte = byte_at(source, at);
    if is_allowed(content, byte) {
        return Some((Piece::Byte(byte), at + 1));
    }
    if byte == b'\r' && byte_at(source, at + 1) == b'\n' {
        return Some((Piece::Byte(b'\n'), at + 2));
    }
    None
}

/// Returns the value of the piece of a string at the byte offset `at`, and the byte offset after
/// the piece. Returns `None` if no piece begins at `at`. `escapes` is `false` for a raw string.
pub fn piece_at(source: &str, escapes: bool, content: Content, at: usize) -> Option<(Piece, usize)>
    requires { at ≤ length source.now }
    ensures { MatchOption result
        ((next : ℕ) (held : List ℕ) → Represents escapes content source.now at next held → ⊥)
        (λ found. Represents escapes content source.now at found.1 (bytes_of found.0)) }
{
    if !escapes {
        return plain_at(source, content, at);
    }
    if byte_at(source, at) != b'\\' {
        return plain_at(source, content, at);
    }
    if breaks_line(source, at + 1) {
        return Some((Piece::Nothing, blanks_end(source, at + 1)));
    }
    escape_at(source, content, at)
}

/// Returns whether the span from `from` to `to` consists of pieces of a string.
fn is_body(source: &str, escapes: bool, content: Content, from: usize, to: usize) -> bool
    requires { to ≤ length source.now }
    ensures { IsTrue result ↔ Steps (IsPiece escapes content source.now) from to }
{
    let mut at = from;
    while at < to {
        let Some((_, next)) = piece_at(source, escapes, content, at) else {
            return false;
        };
        at = next;
    }
    at == to
}

/// Returns the byte offset after the escape at the byte offset `at`, or after the byte at `at` if
/// the byte represents itself. Returns `None` if there is neither an escape nor such a byte.
fn character_piece_end(source: &str, content: Content, at: usize) -> Option<usize>
    requires { at ≤ length source.now }
    ensures { MatchOption result
        ((next : ℕ) → IsCharacterPiece content source.now at next → ⊥)
        (IsCharacterPiece content source.now at) }
{
    let byte = byte_at(source, at);
    if byte == b'\\' {
        let (_, next) = escape_at(source, content, at)?;
        return Some(next);
    }
    if is_allowed(content, byte) {
        return Some(at + 1);
    }
    None
}

/// Returns whether the span from `from` to `to` is one escape, or one byte that represents itself.
fn is_character(source: &str, content: Content, from: usize, to: usize) -> bool
    requires { from ≤ length source.now }
    ensures { IsTrue result ↔ IsCharacterPiece content source.now from to }
{
    match character_piece_end(source, content, from) {
        Some(next) => next == to,
        None => false,
    }
}

/// Returns whether the literal with the opening `opens` at `from` has well-formed contents. `end`
/// is the byte offset after the literal without its suffix. Returns `true` for a number and for
/// anything that is not a literal.
pub(crate) fn is_sound(source: &str, from: usize, opens: Opening, end: usize) -> bool
    requires inside { from < length source.now }
    requires ends { Ends source.now from opens end }
    requires within { end ≤ length source.now }
    ensures { IsTrue result ↔ IsSound source.now from opens end }
{
    match opens {
        Opening::Quotes(content) => {
            is_body(
                source,
                true,
                content,
                from + prefix_of(content) + 1,
                end - 1,
            )
        }
        Opening::Raw(content, count) => {
            let hashes = count as usize;
            let body = from + prefix_of(content) + 1 + hashes + 1;
            is_body(source, false, content, body, end - 1 - hashes)
        }
        Opening::Apostrophes(content) => {
            is_character(source, content, from + prefix_of(content) + 1, end - 1)
        }
        Opening::Character => byte_at(source, from + 1) != b'\r',
        _ => true,
    }
}
