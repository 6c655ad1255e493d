//! `push_class` and `push_needed` append a set of bytes to a page, in the short form in which a
//! pattern spells the set. Called by `partials`, `partial_lines` and `logos_diagram`.

ghost use Rattle.std.specs.Prelude.{◌<◌};

use logos_graph::byte_class::ByteClass;
use logos_page::Page;
use std::ops::RangeInclusive;

/// The maximum number of ranges that [`push_needed`] appends.
const NEEDED: usize = 12;

/// The number of ASCII characters.
const ASCII: usize = 128;

/// Appends the set `class` of bytes that can follow a partial match.
///
/// If one range of the set contains all bytes that begin a non-ASCII character, appends `any byte`,
/// `any character`, or the ASCII characters that the set excludes. Otherwise, appends the first
/// [`NEEDED`] ranges.
pub(crate) fn push_needed(page: &mut Page, class: &ByteClass) {
    if !is_wide(class) {
        return push_class(page, class, NEEDED);
    }
    if has_run(class, 0, 255) {
        return page.push("any byte");
    }
    if has_run(class, 0, 127) {
        return page.push("any character");
    }
    push_excluded(page, &class.to_table());
}

/// Returns whether one range of a set contains all bytes that begin a non-ASCII character.
fn is_wide(class: &ByteClass) -> bool {
    has_run(class, 0xC2, 0xF4)
}

/// Returns whether one range of a set contains all bytes in `first..=last`.
fn has_run(class: &ByteClass, first: u8, last: u8) -> bool {
    class
        .ranges
        .iter()
        .any(|range| (*range.start() <= first) & (last <= *range.end()))
}

/// Appends the ASCII characters whose flags in `table` are `false`, as a negated class such as
/// `[^a-z]`.
pub fn push_excluded(page: &mut Page, table: &[bool; 256]) {
    page.push("[^");
    for byte in 0..ASCII {
        push_run(page, run_at(&table[..ASCII], false, byte));
    }
    page.push("]");
}

/// Appends a range of bytes, or nothing for `None`.
fn push_run(page: &mut Page, range: Option<RangeInclusive<u8>>) {
    if let Some(range) = range {
        push_range(page, &range);
    }
}

/// Returns the maximal range of bytes whose flags in `table` are `flag`, if such a range begins at
/// `from`. Returns `None` otherwise.
pub(crate) fn run_at(table: &[bool], flag: bool, from: usize) -> Option<RangeInclusive<u8>> {
    if !has_flag(table, flag, from) {
        return None;
    }
    if (from > 0) & has_flag(table, flag, from.saturating_sub(1)) {
        return None;
    }
    let end = run_end(table, flag, from);
    Some(RangeInclusive::new((from % 256) as u8, (end.saturating_sub(1) % 256) as u8))
}

/// Returns whether the flag of a byte in `table` is `flag`. Returns `false` if the byte is past the
/// end of the table.
fn has_flag(table: &[bool], flag: bool, byte: usize) -> bool {
    match table.get(byte) {
        Some(found) => *found == flag,
        None => false,
    }
}

/// Returns the first byte from `from` on whose flag is not `flag`, or the length of the table if
/// there is none.
fn run_end(table: &[bool], flag: bool, from: usize) -> usize {
    for byte in from..table.len() {
        if table[byte] != flag {
            return byte;
        }
    }
    table.len()
}

/// Appends the first `most` ranges of a set of bytes between brackets, followed by the number of
/// the omitted ranges if there are any.
pub fn push_class(page: &mut Page, class: &ByteClass, most: usize) {
    page.push("[");
    for range in class.ranges.iter().take(most) {
        push_range(page, range);
    }
    page.push("]");
    push_others(page, class.ranges.len().saturating_sub(most));
}

/// Appends ` +` and the number `count` of omitted ranges, unless `count` is 0.
fn push_others(page: &mut Page, count: usize) {
    if count > 0 {
        page.push(" +");
        page.push_number(count);
    }
}

/// Appends the first byte of a range, and also the last byte if the two bytes differ.
fn push_range(page: &mut Page, range: &RangeInclusive<u8>) {
    let first = *range.start();
    let last = *range.end();
    push_byte(page, first);
    if first < last {
        page.push("-");
        push_byte(page, last);
    }
}

/// Appends a byte in the form in which it is written between the brackets of a pattern.
fn push_byte(page: &mut Page, byte: u8) {
    match byte {
        b'\n' => page.push("\\n"),
        b'\r' => page.push("\\r"),
        b'\t' => page.push("\\t"),
        b'\\' | b'[' | b']' | b'^' | b'-' => push_escaped(page, byte),
        b'!'..=b'~' => page.push_char(byte as char),
        _ => push_byte_escape(page, byte),
    }
}

/// Appends the escape of a byte that has a special meaning between brackets.
fn push_escaped(page: &mut Page, byte: u8) {
    page.push("\\");
    page.push_char(byte as char);
}

/// Appends the escape of a byte, such as `\xFF`.
fn push_byte_escape(page: &mut Page, byte: u8) {
    page.push("\\x");
    page.push_char(hex_digit(byte / 16));
    page.push_char(hex_digit(byte % 16));
}

/// Returns the hexadecimal digit of a number less than 16.
fn hex_digit(number: u8) -> char
    requires { number < 16 }
{
    if number < 10 {
        (b'0' + number) as char
    } else {
        (b'A' + (number - 10)) as char
    }
}
