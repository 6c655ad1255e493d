//! `end_of` finds the end of the lexeme or gap that begins at a byte offset. Called by `lexeme_at`
//! after the opening of the lexeme or gap is classified.

ghost use Rattle.std.specs.Prelude.{◌≡◌, ◌≢◌, ℕ, ◌+◌, ◌-◌, ◌<◌, ◌≤◌, ◌↔◌, length, slice_index, MatchOption, IsTrue};
ghost use Rattle.logos_lexeme.specs.Views.{IsCharBoundary, past, is_space, is_continuing, Run, IsFirst, Passes, opening_at, prefix_of, IsLineEnd, Closes, IsName, IsSuffix, has_base, Continues, ReachesQuote, IsRawEnd, IsQuoted, IsRaw, Ends, IsOnward};

use crate::lexeme::characters::{byte_at, char_at, is_continuing, is_space, past};
use crate::lexeme::openings::{Content, Opening, name_at};

/// Returns the byte offset of the first character from `from` on that is not white space, or of the
/// end of the source.
fn spaces_end(source: &str, from: usize) -> usize
    requires { IsCharBoundary source.now from }
    ensures { Run (Passes is_space source.now) from result }
{
    let mut end = from;
    while end < source.len() && is_space(char_at(source, end)) {
        end = past(source, end);
    }
    end
}

/// Returns the byte offset of the first character from `from` on that cannot continue an
/// identifier, or of the end of the source.
fn letters_end(source: &str, from: usize) -> usize
    requires { IsCharBoundary source.now from }
    ensures run { Run (Passes is_continuing source.now) from result }
    ensures within { result ≤ length source.now }
{
    let mut end = from;
    while end < source.len() && is_continuing(char_at(source, end)) {
        end = past(source, end);
    }
    end
}

/// Returns whether the number that begins at `from` starts with a base prefix, such as `0x`.
#[tactic(auto, unfolding(crate::specs::LexemeEnds::has_base))]
fn has_base(source: &str, from: usize) -> bool
    requires { from < length source.now }
    ensures { result ≡ has_base source.now from }
{
    let letter = byte_at(source, from + 1);
    (byte_at(source, from) == b'0') & ((letter == b'x') | (letter == b'o') | (letter == b'b'))
}

/// Returns the byte offset after the character at `at` if the character continues a number: a
/// character that continues an identifier, a decimal point, or the sign of an exponent. Returns
/// `None` if the number ends at `at`. `based` is `true` if the number has a base prefix.
fn number_step(source: &str, based: bool, at: usize) -> Option<usize>
    requires inside { at < length source.now }
    requires boundary { IsCharBoundary source.now at }
    requires begun { 0 < at }
    ensures { MatchOption result
        ((next : ℕ) → Continues based source.now at next → ⊥)
        (Continues based source.now at) }
{
    if is_continuing(char_at(source, at)) {
        return Some(past(source, at));
    }
    if based || !byte_at(source, at + 1).is_ascii_digit() {
        return None;
    }
    let byte = byte_at(source, at);
    let before = byte_at(source, at - 1);
    if byte == b'.' {
        return Some(at + 1);
    }
    if (byte == b'+' || byte == b'-') && (before == b'e' || before == b'E') {
        return Some(at + 1);
    }
    None
}

/// Returns the byte offset after a number. `from` is the byte offset after the first character of
/// the number. `based` is `true` if the number has a base prefix.
fn number_end(source: &str, based: bool, from: usize) -> usize
    requires boundary { IsCharBoundary source.now from }
    requires begun { 0 < from }
    ensures { Run (Continues based source.now) from result }
{
    let mut end = from;
    while end < source.len()
        && let Some(next) = number_step(source, based, end)
    {
        end = next;
    }
    end
}

/// Returns the byte offset of the first LF from `from` on, or of the end of the source.
fn feed_at(source: &str, from: usize) -> usize
    requires { from ≤ length source.now }
    ensures begun { from ≤ result }
    ensures within { result ≤ length source.now }
    ensures closes { result < length source.now → slice_index source.now result ≡ 10 }
    ensures first { (i : ℕ) → from ≤ i → i < result → slice_index source.now i ≢ 10 }
{
    let mut at = from;
    while at < source.len() && byte_at(source, at) != b'\n' {
        at += 1;
    }
    at
}

/// Returns the byte offset after a line comment whose text begins at `from`, after its `//`. The
/// comment includes neither its LF nor CRs directly before the LF or the end of the source.
fn line_end(source: &str, from: usize) -> usize
    requires { from ≤ length source.now }
    ensures { IsFirst (IsLineEnd source.now) from result }
{
    let mut end = feed_at(source, from);
    while from < end && byte_at(source, end - 1) == b'\r' {
        end -= 1;
    }
    end
}

/// Reads `/*`, `*/` or one other byte at `at`, inside `depth` nested block comments. Returns the
/// number of comments that have not ended, and the byte offset after the bytes read. Returns `None`
/// at the end of the source.
fn block_step(source: &str, depth: usize, at: usize) -> Option<(usize, usize)>
    requires open { 0 < depth }
    requires shallow { depth ≤ at + 1 }
    requires near { at ≤ length source.now + 2 }
    ensures { MatchOption result
        ((to : ℕ) → Closes source.now depth at to → ⊥)
        (λ next. IsOnward source.now depth at next.0 next.1) }
{
    let first = byte_at(source, at);
    let second = byte_at(source, at + 1);
    if first == b'/' && second == b'*' {
        return Some((depth + 1, at + 2));
    }
    if first == b'*' && second == b'/' {
        return Some((depth - 1, at + 2));
    }
    if at >= source.len() {
        return None;
    }
    Some((depth, at + 1))
}

/// Returns the byte offset after a block comment whose text begins at `from`, after its `/*`.
/// Returns `None` if the comment has no end.
fn block_end(source: &str, from: usize) -> Option<usize>
    requires { from ≤ length source.now + 2 }
    ensures { MatchOption result
        ((to : ℕ) → Closes source.now 1 from to → ⊥)
        (Closes source.now 1 from) }
{
    let mut depth = 1;
    let mut at = from;
    while depth > 0 {
        let (next_depth, next) = block_step(source, depth, at)?;
        depth = next_depth;
        at = next;
    }
    Some(at)
}

/// Returns the number of bytes from `byte` to the next byte that can be a closing quote: 2 for a
/// backslash, which escapes a byte, and 1 otherwise.
fn width_of(byte: u8) -> usize
    ensures escaped { byte ≡ 92 → result ≡ 2 }
    ensures plain { byte ≢ 92 → result ≡ 1 }
{
    if byte == b'\\' { 2 } else { 1 }
}

/// Returns the byte offset of the first `quote` from `from` on that is not escaped. Returns `None`
/// if there is no such quote.
fn quote_at(source: &str, quote: u8, from: usize) -> Option<usize>
    requires visible { 0 < quote }
    requires no_backslash { quote ≢ 92 }
    ensures { MatchOption result
        ((to : ℕ) → ReachesQuote quote source.now from to → ⊥)
        (λ to. (to < length source.now) × ReachesQuote quote source.now from to) }
{
    let mut at = from;
    while at < source.len() {
        let byte = byte_at(source, at);
        if byte == quote {
            return Some(at);
        }
        at += width_of(byte);
    }
    None
}

/// Returns the byte offset after the first `quote` from `body` on that is not escaped. Returns
/// `None` if there is no such quote.
fn quote_end(source: &str, quote: u8, body: usize) -> Option<usize>
    requires visible { 0 < quote }
    requires no_backslash { quote ≢ 92 }
    ensures { MatchOption result
        ((to : ℕ) → IsQuoted quote source.now body to → ⊥)
        (IsQuoted quote source.now body) }
{
    let at = quote_at(source, quote, body)?;
    Some(at + 1)
}

/// Returns whether a quote followed by `count` `#` characters begins at the byte offset `at`.
fn is_raw_end(source: &str, count: u8, at: usize) -> bool
    requires { at < length source.now }
    ensures { IsTrue result ↔ IsRawEnd count source.now at }
{
    if byte_at(source, at) != b'"' {
        return false;
    }
    for i in 0..count {
        if byte_at(source, at + 1 + i as usize) != b'#' {
            return false;
        }
    }
    true
}

/// Returns the byte offset after a raw string with `count` `#` characters on each side. The
/// contents of the string begin at `body`. Returns `None` if the string has no end.
fn raw_end(source: &str, count: u8, body: usize) -> Option<usize>
    ensures { MatchOption result
        ((to : ℕ) → IsRaw count source.now body to → ⊥)
        (IsRaw count source.now body) }
{
    let mut at = body;
    while at < source.len() {
        if is_raw_end(source, count, at) {
            return Some(at + 1 + count as usize);
        }
        at += 1;
    }
    None
}

/// Returns the byte offset after the identifier at `at`, or `None` if no identifier begins at `at`.
fn name_end(source: &str, at: usize) -> Option<usize>
    requires { IsCharBoundary source.now at }
    ensures { MatchOption result
        ((to : ℕ) → IsName source.now at to → ⊥)
        (IsName source.now at) }
{
    let name = name_at(source, at)?;
    Some(letters_end(source, past(source, name)))
}

/// Returns the byte offset after the suffix of a literal. The suffix begins at `at`, and can be
/// empty.
pub(crate) fn suffix_end(source: &str, at: usize) -> usize
    requires { IsCharBoundary source.now at }
    ensures suffix { IsSuffix source.now at result }
    ensures within { result ≤ length source.now }
{
    match name_at(source, at) {
        Some(name) => letters_end(source, past(source, name)),
        None => at,
    }
}

/// Returns the number of bytes before the `r`, `'` or quote of a literal with contents of the kind
/// `content`.
pub fn prefix_of(content: Content) -> usize
    ensures { result ≡ prefix_of content }
{
    match content {
        Content::Text => 0,
        Content::Bytes | Content::C => 1,
    }
}

/// Returns the byte offset after the lexeme or gap with the opening `opens` at `from`, without the
/// suffix of a literal. Returns `None` if the lexeme or gap has no end, or if `opens` is `Nothing`.
pub fn end_of(source: &str, from: usize, opens: Opening) -> Option<usize>
    requires inside { from < length source.now }
    requires boundary { IsCharBoundary source.now from }
    requires found { opens ≡ opening_at source.now from }
    ensures { MatchOption result
        ((to : ℕ) → Ends source.now from opens to → ⊥)
        (Ends source.now from opens) }
{
    match opens {
        Opening::Space => Some(spaces_end(source, past(source, from))),
        Opening::Line(_) => Some(line_end(source, from + 2)),
        Opening::Block(_) => block_end(source, from + 2),
        Opening::Word => name_end(source, from),
        Opening::Number => {
            let based = has_base(source, from);
            Some(number_end(source, based, past(source, from)))
        }
        Opening::Quotes(content) => quote_end(source, b'"', from + prefix_of(content) + 1),
        Opening::Raw(content, count) => {
            raw_end(
                source,
                count,
                from + prefix_of(content) + 2 + count as usize,
            )
        }
        Opening::Apostrophes(content) => quote_end(source, b'\'', from + prefix_of(content) + 1),
        Opening::Character => Some(past(source, from + 1) + 1),
        Opening::Single(_) => Some(past(source, from)),
        Opening::Nothing => None,
    }
}
