//! `push_item` appends the line of an item to a block of bytes. Called by `logos_items`.

ghost use Rattle.std.specs.Prelude.{◌≡◌, ◌<◌, ◌≤◌, ◌+◌, length};

use crate::quotes::is_hidden;
use itoa::write_digits;
use logos_lines::Location;
use std::alloc::AllocError;
use std::str;

/// The maximum number of shown characters of an item, or of shown bytes if the item is not UTF-8.
const SHOWN: usize = 60;

/// The maximum length in bytes of a location: two numbers of 20 digits with a colon between them.
const POSITION: usize = 41;

/// The maximum length in bytes of the head of a line that is assembled in one buffer.
const HEAD: usize = 64;

/// The maximum length in bytes of a line that is assembled in one buffer: a location, a head, an
/// escape of four bytes for each shown byte, a quote and a line end.
pub const LINE: usize = 347;

/// Appends the line of an item to `block`. The line consists of the item's location, the text
/// `head`, the item's text `slice`, and the closing quote. `head` names the item and ends with the
/// opening quote. If `head` has at most `HEAD` bytes and `slice` consists of at most `SHOWN` ASCII
/// characters, the line is first assembled in the buffer `line`.
///
/// # Errors
///
/// Returns `AllocError` if memory runs out. Then a part of the line may have been appended to
/// `block`.
#[inline(always)]
pub fn push_item(
    block: &mut Vec<u8>,
    line: &mut [u8; LINE],
    location: Location,
    head: &[u8],
    slice: &[u8],
) -> Result<(), AllocError> {
    let from = write_location(line, location);
    if head.len() <= HEAD && slice.len() <= SHOWN && slice.is_ascii() {
        let to = write_short(line, head, slice);
        return block.extend_from_slice(&line[from..to]);
    }
    block.extend_from_slice(&line[from..POSITION])?;
    block.extend_from_slice(head)?;
    push_quoted(block, slice)?;
    block.extend_from_slice(b"\n")
}

/// Writes a location as `line:column` into `line` so that the location ends at the index
/// `POSITION`. Returns the index at which the location begins.
#[inline(always)]
fn write_location(line: &mut [u8; LINE], location: Location) -> usize
    ensures { result ≤ 41 }
{
    let end = write_digits(location.column as u64, line, POSITION);
    let colon = end - 1;
    line[colon] = b':';
    write_digits(location.line as u64, line, colon)
}

/// Completes the line of an item in `line`: writes `head`, `slice`, the closing quote and a line
/// end after the location. Returns the index at which the line ends.
#[inline(always)]
fn write_short(line: &mut [u8; LINE], head: &[u8], slice: &[u8]) -> usize
    requires head { length head.now ≤ 64 }
    requires short { length slice.now ≤ 60 }
    ensures after { 41 ≤ result }
    ensures within { result ≤ LINE }
{
    let mut at = write_text(line, POSITION, head);
    for byte in slice {
        at = write_byte(line, at, *byte);
    }
    line[at] = b'"';
    line[at + 1] = b'\n';
    at + 2
}

/// Writes `text` into `line` from the index `at` on. Returns the index at which the text ends.
#[inline(always)]
fn write_text(line: &mut [u8], at: usize, text: &[u8]) -> usize
    requires { at + length text.now ≤ length line.old }
    ensures { result ≡ at + length text.now }
{
    let end = at + text.len();
    line[at..end].copy_from_slice(text);
    end
}

/// Writes a byte into `text` from the index `at` on, as an escape if the byte must be escaped in
/// quotes. Returns the index after the written bytes.
#[inline(always)]
fn write_byte(text: &mut [u8], at: usize, byte: u8) -> usize
    requires { at + 4 ≤ length text.old }
    ensures after { at ≤ result }
    ensures within { result ≤ at + 4 }
{
    if is_plain(byte) {
        text[at] = byte;
        return at + 1;
    }
    write_escape(text, at, byte)
}

/// Returns whether a byte is an ASCII character that needs no escape in quotes.
#[inline(always)]
fn is_plain(byte: u8) -> bool {
    (b' ' <= byte) & (byte <= b'~') & (byte != b'"') & (byte != b'\\')
}

/// Writes the escape of a byte into `text` from the index `at` on. Returns the index at which the
/// escape ends.
fn write_escape(text: &mut [u8], at: usize, byte: u8) -> usize
    requires { at + 4 ≤ length text.old }
    ensures after { at ≤ result }
    ensures within { result ≤ at + 4 }
{
    text[at] = b'\\';
    if let Some(letter) = letter_of(byte) {
        text[at + 1] = letter;
        return at + 2;
    }
    text[at + 1] = b'x';
    text[at + 2] = hexadecimal_digit(byte / 16);
    text[at + 3] = hexadecimal_digit(byte % 16);
    at + 4
}

/// Returns the second byte of the escape of `byte`, or `None` if the escape is longer than two
/// bytes.
fn letter_of(byte: u8) -> Option<u8> {
    match byte {
        b'"' | b'\\' => Some(byte),
        b'\n' => Some(b'n'),
        b'\r' => Some(b'r'),
        b'\t' => Some(b't'),
        _ => None,
    }
}

/// Returns the hexadecimal digit of a number below 16, as an ASCII byte in upper case.
fn hexadecimal_digit(number: u8) -> u8
    requires { number < 16 }
{
    if number < 10 {
        b'0' + number
    } else {
        b'A' + (number - 10)
    }
}

/// Appends a number in decimal to `block`, or nothing if memory runs out.
fn push_number(block: &mut Vec<u8>, number: usize) -> Result<(), AllocError> {
    let mut digits = [0; 20];
    let from = write_digits(number as u64, &mut digits, 20);
    block.extend_from_slice(&digits[from..])
}

/// Appends the shown part of an item and the closing quote. If the item is not shown in full, also
/// appends two dots and the item's length.
fn push_quoted(block: &mut Vec<u8>, slice: &[u8]) -> Result<(), AllocError> {
    match str::from_utf8(slice) {
        Ok(text) => push_text(block, text),
        Err(_) => push_bytes(block, slice),
    }
}

/// Appends the first `SHOWN` characters of a text and the closing quote. If the text has more
/// characters, also appends two dots and the number of characters.
fn push_text(block: &mut Vec<u8>, text: &str) -> Result<(), AllocError> {
    for character in text.chars().take(SHOWN) {
        push_character(block, character)?;
    }
    push_end(block, text.chars().count(), " characters")
}

/// Appends the first `SHOWN` bytes of an item that is not UTF-8 and the closing quote. If the item
/// has more bytes, also appends two dots and the number of bytes.
fn push_bytes(block: &mut Vec<u8>, slice: &[u8]) -> Result<(), AllocError> {
    for byte in slice.iter().take(SHOWN) {
        push_byte(block, *byte)?;
    }
    push_end(block, slice.len(), " bytes")
}

/// Appends the closing quote. If `count` exceeds `SHOWN`, also appends two dots and the length
/// `count` with its unit `unit`.
fn push_end(block: &mut Vec<u8>, count: usize, unit: &str) -> Result<(), AllocError> {
    block.extend_from_slice(b"\"")?;
    if count <= SHOWN {
        return Ok(());
    }
    block.extend_from_slice(b".. ")?;
    push_number(block, count)?;
    block.extend_from_slice(unit.as_bytes())
}

/// Appends a character, or its escape if the character must be escaped in quotes.
fn push_character(block: &mut Vec<u8>, character: char) -> Result<(), AllocError> {
    let code = character as u32;
    if code < 128 {
        return push_byte(block, code as u8);
    }
    if is_hidden(code) {
        return push_number_escape(block, code);
    }
    let mut bytes = [0; 4];
    block.extend_from_slice(character.encode_utf8(&mut bytes).as_bytes())
}

/// Appends the escape of a hidden character: `\u{..}` with the four or six hexadecimal digits of
/// its code point `code`.
fn push_number_escape(block: &mut Vec<u8>, code: u32) -> Result<(), AllocError> {
    block.extend_from_slice(b"\\u{")?;
    if code > 0xFFFF {
        push_two_digits(block, (code / 65_536 % 256) as u8)?;
    }
    push_two_digits(block, (code / 256 % 256) as u8)?;
    push_two_digits(block, (code % 256) as u8)?;
    block.extend_from_slice(b"}")
}

/// Appends the two hexadecimal digits of a byte.
fn push_two_digits(block: &mut Vec<u8>, byte: u8) -> Result<(), AllocError> {
    let digits = [hexadecimal_digit(byte / 16), hexadecimal_digit(byte % 16)];
    block.extend_from_slice(&digits)
}

/// Appends a byte, or its escape if the byte must be escaped in quotes.
fn push_byte(block: &mut Vec<u8>, byte: u8) -> Result<(), AllocError> {
    let mut text = [0; 4];
    let to = write_byte(&mut text, 0, byte);
    block.extend_from_slice(&text[..to])
}
