//! Functions that append bytes in quotes, with escapes for control characters, invisible
//! characters, and characters that change the direction of text. Used by the modules that append
//! inputs or matches, and by other crates.

ghost use Rattle.std.specs.Prelude.{◌≡◌, ◌<◌, ◌/◌, ◌%◌, length};
ghost use Rattle.logos_answers.specs.Quoting as shown;
ghost use Rattle.logos_answers.specs.Imports.{Gains};

use logos_page::Page;
use std::str;

/// Appends bytes in quotes. If the shown bytes are not UTF-8, each byte that is not ASCII is
/// escaped. If there are more than sixty bytes, only the first 57 to 60 are shown, and two dots
/// follow the closing quote.
pub fn push_quoted(page: &mut Page, bytes: &[u8])
    ensures { Gains (shown.quoted bytes.now) page.old page.new }
{
    page.push("\"");
    push_shown(page, clipped(bytes));
    page.push(closing(bytes));
}

/// Appends bytes as a Rust literal on one line: a string if they are UTF-8, otherwise a byte
/// string. No byte is left out.
pub(crate) fn push_literal(page: &mut Page, bytes: &[u8])
    ensures { Gains (shown.literal bytes.now) page.old page.new }
{
    match str::from_utf8(bytes) {
        Ok(text) => push_string(page, text),
        Err(_) => push_byte_string(page, bytes),
    }
}

/// Appends a text as a string literal of Rust.
fn push_string(page: &mut Page, text: &str)
    ensures { Gains (shown.string_literal text.now) page.old page.new }
{
    page.push("\"");
    push_text(page, text);
    page.push("\"");
}

/// Appends bytes that are not UTF-8 as a byte string literal of Rust.
fn push_byte_string(page: &mut Page, bytes: &[u8])
    ensures { Gains (shown.byte_literal bytes.now) page.old page.new }
{
    page.push("b\"");
    push_bytes(page, bytes);
    page.push("\"");
}

/// Returns the shown part of bytes: all bytes if there are at most sixty, otherwise the first 57 to
/// 60. If the bytes are UTF-8, the part ends between two characters.
fn clipped(bytes: &[u8]) -> &[u8]
    ensures { result.now ≡ shown.clipped bytes.now }
{
    if bytes.len() > 60 {
        return &bytes[..cut_of(bytes)];
    }
    bytes
}

/// Returns the number of bytes to show if there are more than sixty: the greatest number from 58 to
/// 60 that is not the index of a continuation byte, or 57 if there is no such number.
fn cut_of(bytes: &[u8]) -> usize
    requires { 60 < length bytes.now }
    ensures cut { result ≡ shown.cut_of bytes.now }
    ensures within { result < length bytes.now }
{
    if !continues(bytes[60]) {
        return 60;
    }
    if !continues(bytes[59]) {
        return 59;
    }
    if !continues(bytes[58]) {
        return 58;
    }
    57
}

/// Returns whether a byte is a continuation byte of UTF-8.
pub(crate) fn continues(byte: u8) -> bool
    ensures { result ≡ shown.continues byte }
{
    (128 <= byte) & (byte < 192)
}

/// Returns the text after the shown part of bytes: a quote, followed by two dots if there are more
/// than sixty bytes.
fn closing(bytes: &[u8]) -> &'static str
    ensures { result.now ≡ shown.closing bytes.now }
{
    if bytes.len() > 60 { "\".." } else { "\"" }
}

/// Appends the shown form of bytes, in which hidden characters, quotes and backslashes are escaped.
/// If the bytes are not UTF-8, each byte that is not ASCII is also escaped.
fn push_shown(page: &mut Page, bytes: &[u8])
    ensures { Gains (shown.shown_bytes bytes.now) page.old page.new }
{
    match str::from_utf8(bytes) {
        Ok(text) => push_text(page, text),
        Err(_) => push_bytes(page, bytes),
    }
}

/// Appends the shown form of a text.
fn push_text(page: &mut Page, text: &str)
    ensures { Gains (shown.shown_text text.now) page.old page.new }
{
    for character in text.chars() {
        push_character(page, character);
    }
}

/// Appends the shown form of bytes that are not UTF-8.
fn push_bytes(page: &mut Page, bytes: &[u8])
    ensures { Gains (shown.shown_others bytes.now) page.old page.new }
{
    for byte in bytes {
        push_byte(page, *byte);
    }
}

/// Appends the shown form of a byte from bytes that are not UTF-8. A byte that is not ASCII is
/// escaped.
fn push_byte(page: &mut Page, byte: u8)
    ensures { Gains (shown.shown_byte byte) page.old page.new }
{
    if byte < 128 {
        push_character(page, byte as char);
    } else {
        push_byte_escape(page, byte);
    }
}

/// Appends the escape of a byte: `\x` and two hexadecimal digits.
fn push_byte_escape(page: &mut Page, byte: u8)
    ensures { Gains (shown.byte_escape byte) page.old page.new }
{
    page.push("\\x");
    page.push_char(hex_digit(byte as u32 / 16));
    page.push_char(hex_digit(byte as u32));
}

/// Appends the shown form of a character: the character, or its escape.
fn push_character(page: &mut Page, character: char)
    ensures { Gains (shown.shown_character character) page.old page.new }
{
    match character {
        '"' => page.push("\\\""),
        '\\' => page.push("\\\\"),
        '\n' => page.push("\\n"),
        '\r' => page.push("\\r"),
        '\t' => page.push("\\t"),
        _ => push_other(page, character),
    }
}

/// Appends the shown form of a character that has no two-character escape: its numeric escape if
/// the character is hidden, otherwise the character.
fn push_other(page: &mut Page, character: char)
    ensures { Gains (shown.shown_other character) page.old page.new }
{
    if is_hidden(character as u32) {
        push_escape(page, character as u32);
    } else {
        page.push_char(character);
    }
}

/// Appends the escape of the hidden character with the code point `number`: `\x..` for an ASCII
/// character, otherwise `\u{..}`.
fn push_escape(page: &mut Page, number: u32)
    ensures { Gains (shown.hidden_escape number) page.old page.new }
{
    if number < 128 {
        push_byte_escape(page, number as u8);
    } else {
        push_number_escape(page, number);
    }
}

/// Appends the escape `\u{..}` of the character with the code point `number`.
fn push_number_escape(page: &mut Page, number: u32)
    ensures { Gains (shown.number_escape number) page.old page.new }
{
    page.push("\\u{");
    push_number_digits(page, number);
    page.push("}");
}

/// Appends the last four hexadecimal digits of a number, or the last six if it is 65,536 or more.
fn push_number_digits(page: &mut Page, number: u32)
    ensures { Gains (shown.number_digits number) page.old page.new }
{
    if number < 65536 {
        push_four_digits(page, number);
    } else {
        push_two_digits_before(page, number);
        push_four_digits(page, number);
    }
}

/// Appends the two hexadecimal digits before the last four of a number.
fn push_two_digits_before(page: &mut Page, number: u32)
    ensures { Gains (shown.two_digits_before number) page.old page.new }
{
    page.push_char(hex_digit(number / 1_048_576));
    page.push_char(hex_digit(number / 65_536));
}

/// Appends the last four hexadecimal digits of a number.
fn push_four_digits(page: &mut Page, number: u32)
    ensures { Gains (shown.four_digits number) page.old page.new }
{
    page.push_char(hex_digit(number / 4096));
    page.push_char(hex_digit(number / 256));
    page.push_char(hex_digit(number / 16));
    page.push_char(hex_digit(number));
}

/// Returns the last hexadecimal digit of a number, in upper case.
fn hex_digit(number: u32) -> char
    ensures { result ≡ shown.hex_digit (number % 16) }
{
    let digit = (number % 16) as u8;
    if digit < 10 {
        (b'0' + digit) as char
    } else {
        (b'A' + (digit - 10)) as char
    }
}

/// Returns whether the character with the code point `number` is hidden. Hidden characters are
/// shown as escapes.
pub(crate) fn is_hidden(number: u32) -> bool
    ensures { result ≡ shown.is_hidden number }
{
    is_hidden_low(number)
        | (is_hidden_filler(number) | (is_hidden_mark(number) | is_hidden_special(number)))
}

/// Returns whether the character with the code point `number` is a control character, U+00AD,
/// U+034F or U+061C.
fn is_hidden_low(number: u32) -> bool
    ensures { result ≡ shown.is_hidden_low number }
{
    (number < 32)
        | (is_between(127, 159, number)
            | ((number == 0xAD) | ((number == 0x34F) | (number == 0x61C))))
}

/// Returns whether the character with the code point `number` is a Hangul filler, an inherent vowel
/// of Khmer, or a variation selector or the vowel separator of Mongolian.
fn is_hidden_filler(number: u32) -> bool
    ensures { result ≡ shown.is_hidden_filler number }
{
    is_between(0x115F, 0x1160, number)
        | (is_between(0x17B4, 0x17B5, number)
            | (is_between(0x180B, 0x180F, number) | ((number == 0x3164) | (number == 0xFFA0))))
}

/// Returns whether the character with the code point `number` is a character without width, a line
/// or paragraph separator, a control of the direction of text, or a variation selector, from one of
/// the blocks General Punctuation, Variation Selectors and Arabic Presentation Forms-B.
fn is_hidden_mark(number: u32) -> bool
    ensures { result ≡ shown.is_hidden_mark number }
{
    is_between(0x200B, 0x200F, number)
        | (is_between(0x2028, 0x202E, number)
            | (is_between(0x2060, 0x206F, number)
                | (is_between(0xFE00, 0xFE0F, number) | (number == 0xFEFF))))
}

/// Returns whether the code point `number` is in one of two ranges: U+FFF0 to U+FFFB in the block
/// Specials, or U+E0000 to U+E0FFF, which contains the tags and the supplementary variation
/// selectors.
fn is_hidden_special(number: u32) -> bool
    ensures { result ≡ shown.is_hidden_special number }
{
    is_between(0xFFF0, 0xFFFB, number) | is_between(0xE0000, 0xE0FFF, number)
}

/// Returns whether a number is in `from..=to`.
fn is_between(from: u32, to: u32, number: u32) -> bool
    ensures { result ≡ shown.is_between from to number }
{
    (from <= number) & (number <= to)
}
