//! Appends bytes to a page as preformatted text. Used by `spans`.

ghost use Rattle.std.specs.Prelude.{◌≡◌, ◌<◌};
ghost use Rattle.logos_html.specs.Imports.{Gains, byte_escape, flowing_byte, flowing_bytes, flowing_char, flowing_others, flowing_text, hex_digit};

use crate::html::Html;
use std::str;

/// Appends `bytes` as preformatted text. If `bytes` are UTF-8, appends their characters. Otherwise,
/// appends each ASCII byte as a character, and every other byte as its escape. Each LF appears as
/// its symbol, followed by a line end.
pub(crate) fn push_bytes(html: &mut Html, bytes: &[u8])
    ensures { Gains (flowing_bytes bytes.now) html.old html.new }
{
    match str::from_utf8(bytes) {
        Ok(text) => push_flowing(html, text),
        Err(_) => push_others(html, bytes),
    }
}

/// Appends the characters of `text` as preformatted text.
fn push_flowing(html: &mut Html, text: &str)
    ensures { Gains (flowing_text text.now) html.old html.new }
{
    for character in text.chars() {
        push_flowing_char(html, character);
    }
}

/// Appends `character` as preformatted text, followed by a line end if `character` is LF.
fn push_flowing_char(html: &mut Html, character: char)
    ensures { Gains (flowing_char character) html.old html.new }
{
    html.push_char(character);
    html.push_line_end(character);
}

/// Appends bytes that are not UTF-8 as preformatted text: each ASCII byte as a character, and every
/// other byte as its escape.
fn push_others(html: &mut Html, bytes: &[u8])
    ensures { Gains (flowing_others bytes.now) html.old html.new }
{
    for byte in bytes {
        push_flowing_byte(html, *byte);
    }
}

/// Appends a byte as preformatted text: an ASCII byte as a character, and any other byte as its
/// escape.
fn push_flowing_byte(html: &mut Html, byte: u8)
    ensures { Gains (flowing_byte byte) html.old html.new }
{
    if byte < 128 {
        push_flowing_char(html, byte as char);
    } else {
        push_byte_escape(html, byte);
    }
}

/// Appends the escape of a byte, such as `\xFF`.
fn push_byte_escape(html: &mut Html, byte: u8)
    ensures { Gains (byte_escape byte) html.old html.new }
{
    html.push_markup("\\x");
    html.push_char(hex_digit(byte / 16));
    html.push_char(hex_digit(byte % 16));
}

/// Returns the hexadecimal digit of a number below 16, in upper case.
fn hex_digit(number: u8) -> char
    requires { number < 16 }
    ensures { result ≡ hex_digit number }
{
    if number < 10 {
        (b'0' + number) as char
    } else {
        (b'A' + (number - 10)) as char
    }
}
