//! `opening_at` classifies the lexeme or gap that begins at a byte offset of a source text. Called
//! by `lexeme_at` before the end of the lexeme or gap is searched for.

ghost use Rattle.std.specs.Prelude.{◌≡◌, ◌+◌, ◌<◌, ◌≤◌, min, length, slice_index};
ghost use Rattle.logos_lexeme.specs.Views.{is_ascii_digit, IsCharBoundary, hashes, raw_opening, string_opening, character_opening, bytes_opening, literal_opening, line_kind, block_kind, comment_opening, name_at, spacing, delimiter_kind, single_kind, other_opening, follows_apostrophe, is_lifetime_name, literal_at, opening_at, kind_of};

use crate::lexeme::characters::{byte_at, char_at, is_mark, is_space, is_start, past};
use crate::lexeme::{Delimiter, LexemeKind, Spacing};

/// The kind of the contents of a literal.
#[derive(Clone, Copy)]
pub enum Content {
    /// Characters, in a literal without the prefix `b` or `c`.
    Text,
    /// Bytes, in a literal with the prefix `b`.
    Bytes,
    /// Characters and bytes, in a literal with the prefix `c`.
    C,
}

/// The class of a lexeme or gap, determined by its first characters.
#[derive(Clone, Copy)]
pub enum Opening {
    /// White space.
    Space,
    /// A line comment, with its kind: documentation or a gap.
    Line(LexemeKind),
    /// A block comment, with its kind: documentation or a gap.
    Block(LexemeKind),
    /// An identifier.
    Word,
    /// A number.
    Number,
    /// A string that is not raw, with the kind of its contents. The string can contain escapes.
    Quotes(Content),
    /// A raw string, with the kind of its contents and the number of `#` before its quote.
    Raw(Content, u8),
    /// An escaped character, or a byte, between apostrophes.
    Apostrophes(Content),
    /// A character between apostrophes.
    Character,
    /// A lexeme or gap of one character, with its kind.
    Single(LexemeKind),
    /// A character that begins no lexeme.
    Nothing,
}

/// Returns the number of consecutive `#` from `from` on, at most 256.
fn count_hashes(source: &str, from: usize) -> usize
    requires { from ≤ length source.now + 2 }
    ensures { result ≡ min 256 (hashes source.now from) }
{
    let mut count = 0;
    while count < 256 && byte_at(source, from + count) == b'#' {
        count += 1;
    }
    count
}

/// Returns the opening of a raw string. `at` is the byte offset after its `r`. Returns `None` if
/// there is no such string.
#[tactic(auto, unfolding(crate::specs::LexemeOpenings::raw_opening))]
fn raw_opening(content: Content, source: &str, at: usize) -> Option<Opening>
    requires { at ≤ length source.now + 2 }
    ensures { result ≡ raw_opening content source.now at }
{
    let count = count_hashes(source, at);
    if count > 255 {
        return None;
    }
    if byte_at(source, at + count) != b'"' {
        return None;
    }
    Some(Opening::Raw(content, count as u8))
}

/// Returns the opening of a string. `at` is the byte offset after the prefix `b` or `c` of the
/// string, or the byte offset of a string without such a prefix. Returns `None` if there is no such
/// string.
#[tactic(auto, unfolding(crate::specs::LexemeOpenings::string_opening))]
fn string_opening(content: Content, source: &str, at: usize) -> Option<Opening>
    requires { at ≤ length source.now + 1 }
    ensures { result ≡ string_opening content source.now at }
{
    let byte = byte_at(source, at);
    if byte == b'"' {
        return Some(Opening::Quotes(content));
    }
    if byte == b'r' {
        return raw_opening(content, source, at + 1);
    }
    None
}

/// Returns the opening of the character literal whose contents begin at `at`, after a `'`. Returns
/// `None` if there is no such literal.
#[tactic(auto, unfolding(crate::specs::LexemeOpenings::character_opening))]
fn character_opening(source: &str, at: usize) -> Option<Opening>
    requires { IsCharBoundary source.now at }
    ensures { result ≡ character_opening source.now at }
{
    if byte_at(source, at) == b'\\' {
        return Some(Opening::Apostrophes(Content::Text));
    }
    let after = at + char_at(source, at).len_utf8();
    if byte_at(source, after) == b'\'' {
        return Some(Opening::Character);
    }
    None
}

/// Returns the opening of a byte literal or byte string literal. `at` is the byte offset after its
/// `b`. Returns `None` if there is no such literal.
#[tactic(auto, unfolding(crate::specs::LexemeOpenings::bytes_opening))]
fn bytes_opening(source: &str, at: usize) -> Option<Opening>
    requires { at ≤ length source.now }
    ensures { result ≡ bytes_opening source.now at }
{
    if byte_at(source, at) == b'\'' {
        return Some(Opening::Apostrophes(Content::Bytes));
    }
    string_opening(Content::Bytes, source, at)
}

/// Returns the opening of the literal at a byte offset, or `None` if no literal begins at the
/// offset.
#[tactic(auto, unfolding(crate::specs::LexemeOpenings::literal_opening))]
fn literal_opening(source: &str, at: usize) -> Option<Opening>
    requires inside { at < length source.now }
    requires boundary { IsCharBoundary source.now at }
    ensures { result ≡ literal_opening source.now at }
{
    let byte = byte_at(source, at);
    if byte.is_ascii_digit() {
        return Some(Opening::Number);
    }
    if byte == b'\'' {
        return character_opening(source, at + 1);
    }
    if byte == b'b' {
        return bytes_opening(source, at + 1);
    }
    if byte == b'c' {
        return string_opening(Content::C, source, at + 1);
    }
    string_opening(Content::Text, source, at)
}

/// Returns the kind of a line comment: documentation or a gap. `at` is the byte offset after its
/// `//`.
#[tactic(auto, unfolding(crate::specs::LexemeOpenings::line_kind))]
fn line_kind(source: &str, at: usize) -> LexemeKind
    requires { at ≤ length source.now + 2 }
    ensures { result ≡ line_kind source.now at }
{
    let first = byte_at(source, at);
    let second = byte_at(source, at + 1);
    if (first == b'!') | ((first == b'/') & (second != b'/')) {
        LexemeKind::Doc
    } else {
        LexemeKind::Gap
    }
}

/// Returns the kind of a block comment: documentation or a gap. `at` is the byte offset after its
/// `/*`.
#[tactic(auto, unfolding(crate::specs::LexemeOpenings::block_kind))]
fn block_kind(source: &str, at: usize) -> LexemeKind
    requires { at ≤ length source.now + 2 }
    ensures { result ≡ block_kind source.now at }
{
    let first = byte_at(source, at);
    let second = byte_at(source, at + 1);
    if (first == b'!') | ((first == b'*') & !((second == b'*') | (second == b'/'))) {
        LexemeKind::Doc
    } else {
        LexemeKind::Gap
    }
}

/// Returns the opening of the comment at a byte offset, or `None` if no comment begins at the
/// offset.
#[tactic(auto, unfolding(crate::specs::LexemeOpenings::comment_opening))]
fn comment_opening(source: &str, at: usize) -> Option<Opening>
    requires { at ≤ length source.now }
    ensures { result ≡ comment_opening source.now at }
{
    if byte_at(source, at) != b'/' {
        return None;
    }
    let second = byte_at(source, at + 1);
    if second == b'/' {
        return Some(Opening::Line(line_kind(source, at + 2)));
    }
    if second == b'*' {
        return Some(Opening::Block(block_kind(source, at + 2)));
    }
    None
}

/// Returns the byte offset at which the name of an identifier begins: after its `r#`, or at `at`.
/// Returns `None` if no identifier begins at `at`.
#[tactic(auto, unfolding(crate::specs::LexemeOpenings::name_at))]
pub(crate) fn name_at(source: &str, at: usize) -> Option<usize>
    requires { IsCharBoundary source.now at }
    ensures value { result ≡ name_at source.now at }
{
    if byte_at(source, at) == b'r'
        && byte_at(source, at + 1) == b'#'
        && is_start(char_at(source, at + 2))
    {
        return Some(at + 2);
    }
    if is_start(char_at(source, at)) {
        return Some(at);
    }
    None
}

/// Returns the spacing of the punctuation that ends at `at`.
#[tactic(auto, unfolding(crate::specs::LexemeOpenings::spacing))]
fn spacing(source: &str, at: usize) -> Spacing
    requires { IsCharBoundary source.now at }
    ensures { result ≡ spacing source.now at }
{
    let next = byte_at(source, at);
    if !(is_mark(next as char) | (next == b'\'')) {
        return Spacing::Alone;
    }
    if comment_opening(source, at).is_some() {
        return Spacing::Alone;
    }
    Spacing::Joint
}

/// Returns the kind of the delimiter `c`, or `None` if `c` is not a delimiter.
#[tactic(auto, unfolding(crate::specs::LexemeOpenings::delimiter_kind))]
fn delimiter_kind(c: char) -> Option<LexemeKind>
    ensures { result ≡ delimiter_kind c }
{
    if c == '(' {
        return Some(LexemeKind::Opening(Delimiter::Parenthesis));
    }
    if c == ')' {
        return Some(LexemeKind::Closing(Delimiter::Parenthesis));
    }
    if c == '[' {
        return Some(LexemeKind::Opening(Delimiter::Bracket));
    }
    if c == ']' {
        return Some(LexemeKind::Closing(Delimiter::Bracket));
    }
    if c == '{' {
        return Some(LexemeKind::Opening(Delimiter::Brace));
    }
    if c == '}' {
        return Some(LexemeKind::Closing(Delimiter::Brace));
    }
    None
}

/// Returns the kind of the lexeme or gap of one character at a byte offset, or `None` if there is
/// no such lexeme or gap.
#[tactic(auto, unfolding(crate::specs::LexemeOpenings::single_kind))]
fn single_kind(source: &str, at: usize) -> Option<LexemeKind>
    requires inside { at < length source.now }
    requires boundary { IsCharBoundary source.now at }
    ensures { result ≡ single_kind source.now at }
{
    let c = char_at(source, at);
    let after = past(source, at);
    if is_mark(c) {
        return Some(LexemeKind::Punctuation(spacing(source, after)));
    }
    if c == '\'' && is_start(char_at(source, after)) {
        return Some(LexemeKind::Punctuation(Spacing::Joint));
    }
    if c == '\u{FEFF}' && at == 0 {
        return Some(LexemeKind::Gap);
    }
    delimiter_kind(c)
}

/// Returns the opening at a byte offset at which neither a literal nor a comment begins. Returns
/// `Nothing` if no lexeme or gap begins at the offset.
#[tactic(auto, unfolding(crate::specs::LexemeOpenings::other_opening))]
fn other_opening(source: &str, at: usize) -> Opening
    requires inside { at < length source.now }
    requires boundary { IsCharBoundary source.now at }
    ensures { result ≡ other_opening source.now at }
{
    if is_space(char_at(source, at)) {
        return Opening::Space;
    }
    if name_at(source, at).is_some() {
        return Opening::Word;
    }
    if let Some(kind) = single_kind(source, at) {
        return Opening::Single(kind);
    }
    Opening::Nothing
}

/// Returns whether a `'` directly precedes a byte offset.
#[tactic(auto, unfolding(crate::specs::LexemeOpenings::follows_apostrophe))]
fn follows_apostrophe(source: &str, at: usize) -> bool
    ensures { result ≡ follows_apostrophe source.now at }
{
    if at == 0 {
        return false;
    }
    byte_at(source, at - 1) == b'\''
}

/// Returns whether the name of a lifetime begins at a byte offset: a character that can begin an
/// identifier, directly after `'`.
#[tactic(auto, unfolding(crate::specs::LexemeOpenings::is_lifetime_name))]
fn is_lifetime_name(source: &str, at: usize) -> bool
    requires { IsCharBoundary source.now at }
    ensures { result ≡ is_lifetime_name source.now at }
{
    if !follows_apostrophe(source, at) {
        return false;
    }
    is_start(char_at(source, at))
}

/// Returns the opening of the literal at a byte offset, or `None` if no literal begins at the
/// offset. No literal begins at an offset at which the name of a lifetime begins.
#[tactic(auto, unfolding(crate::specs::LexemeOpenings::literal_at))]
fn literal_at(source: &str, at: usize) -> Option<Opening>
    requires inside { at < length source.now }
    requires boundary { IsCharBoundary source.now at }
    ensures { result ≡ literal_at source.now at }
{
    if is_lifetime_name(source, at) {
        return None;
    }
    literal_opening(source, at)
}

/// Returns the opening at a byte offset: of a literal, otherwise of a comment, and otherwise of any
/// other lexeme or gap. Returns `Nothing` if no lexeme or gap begins at the offset.
#[tactic(auto, unfolding(crate::specs::LexemeOpenings::opening_at))]
pub fn opening_at(source: &str, at: usize) -> Opening
    requires inside { at < length source.now }
    requires boundary { IsCharBoundary source.now at }
    ensures { result ≡ opening_at source.now at }
{
    if let Some(literal) = literal_at(source, at) {
        return literal;
    }
    if let Some(comment) = comment_opening(source, at) {
        return comment;
    }
    other_opening(source, at)
}

/// Returns the kind of a lexeme or gap with the opening `opens`, or `Gap` if `opens` is `Nothing`.
pub(crate) fn kind_of(opens: Opening) -> LexemeKind
    ensures { result ≡ kind_of opens }
{
    match opens {
        Opening::Space | Opening::Nothing => LexemeKind::Gap,
        Opening::Line(kind) | Opening::Block(kind) | Opening::Single(kind) => kind,
        Opening::Word => LexemeKind::Identifier,
        Opening::Number
        | Opening::Quotes(_)
        | Opening::Raw(_, _)
        | Opening::Apostrophes(_)
        | Opening::Character => LexemeKind::Literal,
    }
}
