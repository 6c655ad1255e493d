//! Functions that read a location or a number from an argument. Used by `logos_questions`.

ghost use Rattle.std.specs.Prelude.{◌≡◌, Some};
ghost use Rattle.logos_answers.specs.Locations.{digits_after, number_named, location_named, location_of, positive, with_digit};

use logos_lines::Location;

/// Returns the location in an argument such as `2:14`. Returns `None` unless the argument consists
/// of two numbers that `number_by_text` reads, separated by a colon.
pub fn location_by_word(word: &str) -> Option<Location>
    ensures { result ≡ location_named word.now }
{
    match word.split_once(':') {
        Some((line, column)) => location_of(number_by_text(line), number_by_text(column)),
        None => None,
    }
}

/// Returns the location with the line `line` and the column `column`, or `None` if either is
/// `None`.
fn location_of(line: Option<usize>, column: Option<usize>) -> Option<Location>
    ensures { result ≡ location_of line column }
{
    match (line, column) {
        (Some(line), Some(column)) => Some(Location { line, column }),
        (Some(_), None) => None,
        (None, _) => None,
    }
}

/// Returns the decimal number in a text, or `None` if the text is not a positive number of at most
/// seventeen digits without leading zeros.
pub fn number_by_text(text: &str) -> Option<usize>
    ensures { result ≡ number_named text.now }
{
    digits_after(0, text.as_bytes())
}

/// Returns the number whose decimal digits are the digits of `number` followed by `digits`. Returns
/// `None` if the digits do not form a positive number of at most seventeen digits without leading
/// zeros. The limit of seventeen digits also bounds the depth of the recursion.
fn digits_after(number: usize, digits: &[u8]) -> Option<usize>
    ensures { result ≡ digits_after (Some number) digits.now }
{
    let [byte, rest @ ..] = digits else {
        return positive(number);
    };
    match with_digit(number, *byte) {
        Some(next) => digits_after(next, rest),
        None => None,
    }
}

/// Returns `number` with the decimal digit `byte` appended, or `None` if `byte` is not an ASCII
/// digit or if the result is 0 or has more than seventeen digits.
fn with_digit(number: usize, byte: u8) -> Option<usize>
    ensures { result ≡ with_digit number byte }
{
    if byte < b'0' {
        return None;
    }
    if byte > b'9' {
        return None;
    }
    if number as u64 >= 10_000_000_000_000_000 {
        return None;
    }
    positive(number * 10 + (byte - b'0') as usize)
}

/// Returns `number`, or `None` if it is 0.
fn positive(number: usize) -> Option<usize>
    ensures { result ≡ positive number }
{
    if number == 0 { None } else { Some(number) }
}
