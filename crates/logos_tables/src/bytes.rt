//! Functions that print numbers as the text of a byte string. `fields` calls them.

ghost use Rattle.std.specs.Prelude.{◌≡◌, ◌++◌, OnOk, string_bytes};
ghost use Rattle.logos_tables.specs.Imports.{flat_map, are_at_most, byte_text, entries_text, entry_text, size_number};

use logos_byte_class::text::{is_printable, letter_of, lower_digit};
use logos_token::error::Memory;

/// Returns the smallest of the sizes 1, 2, 4 and 8 bytes in which each of `numbers` fits.
pub(crate) fn size_of(numbers: &[usize]) -> usize
    ensures { result ≡ size_number numbers.now }
{
    if are_at_most(numbers, 255) {
        return 1;
    }
    if are_at_most(numbers, 65535) {
        return 2;
    }
    if are_at_most(numbers, 4294967295) {
        return 4;
    }
    8
}

/// Returns whether no element of `numbers` is greater than `most`.
fn are_at_most(numbers: &[usize], most: usize) -> bool
    ensures { result ≡ are_at_most most numbers.now }
{
    for number in numbers {
        if *number > most {
            return false;
        }
    }
    true
}

/// Appends `numbers` as the text of a byte string, with `size` bytes for each number.
pub(crate) fn push_entries(text: &mut String, size: usize, numbers: &[usize]) -> Result<(), Memory>
    ensures { OnOk result (string_bytes text.new
        ≡ string_bytes text.old ++ entries_text size numbers.now) }
{
    for number in numbers {
        push_entry(text, size, *number)?;
    }
    Ok(())
}

/// Appends the lowest `size` bytes of `number`, in little-endian order.
fn push_entry(text: &mut String, size: usize, number: usize) -> Result<(), Memory>
    ensures { OnOk result (string_bytes text.new ≡ string_bytes text.old ++ entry_text size number) }
{
    let mut rest = number;
    let mut left = size;
    while left > 0 {
        push_byte(text, (rest % 256) as u8)?;
        rest /= 256;
        left -= 1;
    }
    Ok(())
}

/// Appends `byte` as it is written in a byte string.
fn push_byte(text: &mut String, byte: u8) -> Result<(), Memory>
    ensures { OnOk result (string_bytes text.new ≡ string_bytes text.old ++ byte_text byte) }
{
    if let Some(letter) = letter_of(byte) {
        write!(text, "\\{letter}")?;
        return Ok(());
    }
    if is_printable(byte) {
        let character = char::from(byte);
        write!(text, "{character}")?;
        return Ok(());
    }
    let high = lower_digit(byte / 16);
    let low = lower_digit(byte % 16);
    write!(text, "\\x{high}{low}")?;
    Ok(())
}
