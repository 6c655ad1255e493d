//! The printed form of bytes and of sets of bytes. State diagrams and generated code show classes
//! in this form.

ghost use Rattle.std.specs.Prelude.{◌≡◌, ◌<◌, ◌≤◌, ◌↔◌, IsTrue, IsFalse, IfSome, Some, codes, map};
ghost use Rattle.logos_byte_class.specs.Views.{letter_of, lower_digit, byte_text, range_text, next_ranges_text, class_text, bounds, ranges_of};

use crate::byte_class::ByteClass;
use std::fmt;
use std::ops::RangeInclusive;

/// The number of ASCII characters. The code points of all ASCII characters are less than this
/// number.
const ASCII: u32 = 128;

/// The control character DEL. It follows the greatest byte that prints as itself.
const DELETE: u8 = 127;

/// Returns the character after the `\` if `byte` prints as a `\` and one character, and `None`
/// otherwise.
pub fn letter_of(byte: u8) -> Option<char>
    ensures is { result ≡ letter_of byte }
    ensures ascii { IfSome result (λ letter. letter < ASCII) }
{
    match byte {
        b'\t' => Some('t'),
        b'\r' => Some('r'),
        b'\n' => Some('n'),
        b'\'' => Some('\''),
        b'"' => Some('"'),
        b'\\' => Some('\\'),
        _ => None,
    }
}

/// Returns whether `byte` is printable ASCII. Such a byte prints as itself unless `letter_of`
/// returns an escape.
pub fn is_printable(byte: u8) -> bool
    ensures { IsTrue result ↔ ((32 ≤ byte) × (byte < DELETE)) }
{
    (32..DELETE).contains(&byte)
}

/// Returns the lowercase hexadecimal digit of `value`, which must be less than 16.
pub fn lower_digit(value: u8) -> char
    requires { value < 16 }
    ensures is { result ≡ lower_digit value }
    ensures ascii { result < ASCII }
{
    if value < 10 {
        return char::from(b'0' + value);
    }
    char::from(b'a' + (value - 10))
}

/// A byte, displayed as its text.
#[derive(Clone, Copy)]
struct ByteText(u8);

/// A range of bytes, displayed as its text.
#[derive(Clone, Copy)]
struct RangeText(u8, u8);

impl fmt::Display for ByteText {
    ghost output = { λ byte. Some (byte_text byte.0) };

    fn fmt<W: fmt::Write>(&self, f: &mut fmt::Formatter<W>) -> fmt::Result {
        let byte = self.0;
        if let Some(letter) = letter_of(byte) {
            return write!(f, "\\{letter}");
        }
        if is_printable(byte) {
            let character = char::from(byte);
            return write!(f, "{character}");
        }
        let high = lower_digit(byte / 16);
        let low = lower_digit(byte % 16);
        write!(f, "\\x{high}{low}")
    }
}

impl fmt::Display for RangeText {
    ghost output = { λ range. Some (range_text (range.0, range.1)) };

    fn fmt<W: fmt::Write>(&self, f: &mut fmt::Formatter<W>) -> fmt::Result {
        let first = ByteText(self.0);
        if self.0 == self.1 {
            return write!(f, "{first}");
        }
        let last = ByteText(self.1);
        write!(f, "{first}..={last}")
    }
}

/// Ranges of bytes, displayed as their texts. A separator precedes each text.
#[derive(Clone, Copy)]
struct NextRanges<'c> {
    ranges: &'c [RangeInclusive<u8>],
    between: &'static str,
}

impl fmt::Display for NextRanges<'_> {
    ghost output = { λ next. Some (next_ranges_text next.between.now
        (map bounds next.ranges.now)) };

    fn fmt<W: fmt::Write>(&self, f: &mut fmt::Formatter<W>) -> fmt::Result {
        let between = self.between;
        for range in self.ranges {
            let text = RangeText(*range.start(), *range.end());
            write!(f, "{between}{text}")?;
        }
        Ok(())
    }
}

/// Returns the separator between two ranges: a line end in the alternate form, and `|` otherwise.
fn between(alternate: bool) -> &'static str
    ensures { IsFalse alternate → result.now ≡ codes "|" }
{
    if alternate { "\n" } else { "|" }
}

/// Prints the ranges, separated by `|`, or by line ends in the alternate form. Prints nothing for
/// an empty class.
impl fmt::Display for ByteClass {
    ghost output = { λ class. Some (class_text (codes "|") (ranges_of class)) };

    fn fmt<W: fmt::Write>(&self, f: &mut fmt::Formatter<W>) -> fmt::Result {
        let between = between(f.alternate());
        let Some((first, ranges)) = self.ranges.split_first() else {
            return Ok(());
        };
        let first = RangeText(*first.start(), *first.end());
        let next = NextRanges { ranges, between };
        write!(f, "{first}{next}")
    }
}
