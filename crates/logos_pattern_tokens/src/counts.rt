//! Functions that read numbers, and repetition operators with counts, from the text of a pattern.
//! Called by the readers of tokens.

ghost use Rattle.std.specs.Prelude.{◌≡◌, ◌==◌, option_map, position};
ghost use Rattle.logos_pattern_tokens.specs.Views.{Yields, token_view, is_digit, hex_digit, hex_from, scalar_of, cut_at, number_from, fits, number_at, lazy_at, count_end, order_at, most_at, bounds_at, count_at};

use crate::error::{Fault, Kind};
use crate::token::{Operator, Token};

/// Returns the value of the hexadecimal digit `c`, or `None` if `c` is not a hexadecimal digit.
pub fn hex_digit(c: char) -> Option<u32>
    ensures { result ≡ hex_digit c }
{
    c.to_digit(16)
}

/// Returns the Unicode scalar value whose number the hexadecimal digits spell. Returns U+0000 if
/// `digits` is empty.
///
/// # Errors
///
/// Returns the first fault from the left: `HexSyntax` at a character that is not a hexadecimal
/// digit, or `HexNotScalar` at a digit that makes the number exceed 10FFFF. Also returns
/// `HexNotScalar` if the number denotes a surrogate.
pub fn scalar_of(digits: &[char]) -> Result<char, Fault>
    ensures { Yields (λ n. n) result (scalar_of digits.now) }
{
    let mut number = 0;
    for c in digits {
        let Some(digit) = hex_digit(*c) else {
            return Err(Fault::Syntax(Kind::HexSyntax));
        };
        number = number * 16 + digit;
        if number > 0x10_FFFF {
            return Err(Fault::Syntax(Kind::HexNotScalar));
        }
    }
    match char::from_u32(number) {
        Some(c) => Ok(c),
        None => Err(Fault::Syntax(Kind::HexNotScalar)),
    }
}

/// Returns the text before and the text after the first `end`, or `None` if the text has no `end`.
pub fn cut_at(end: char, text: &[char]) -> Option<(&[char], &[char])>
    ensures { option_map (λ x. (x.0.now, x.1.now)) result ≡ cut_at end text.now }
{
    match slot_of(end, text) {
        Some(at) => Some((&text[..at], &text[at + 1..])),
        None => None,
    }
}

/// Returns the index of the first `end` in the text, or `None` if the text has no `end`.
fn slot_of(end: char, text: &[char]) -> Option<usize>
    ensures { result ≡ position (λ c. c == end) text.now }
{
    text.iter().position(|c| *c == end)
}

/// Returns whether the character is an ASCII digit.
fn is_digit(c: char) -> bool
    ensures { result ≡ is_digit c }
{
    '0' <= c && c <= '9'
}

/// Reads the digits at the front of the text as a continuation of the number `start`. Returns the
/// number and the rest of the text, or `None` if the number is 2^32 or more.
fn number_from(start: u32, text: &[char]) -> Option<(u32, &[char])>
    ensures { option_map (λ x. (x.0, x.1.now)) result ≡ fits (number_from start text.now) }
{
    let mut number = start;
    let mut rest = text;
    loop {
        let [c, after @ ..] = rest else {
            return Some((number, rest));
        };
        if !is_digit(*c) {
            return Some((number, rest));
        }
        let Some(shifted) = number.checked_mul(10) else {
            return None;
        };
        let Some(more) = shifted.checked_add(*c as u32 - '0' as u32) else {
            return None;
        };
        number = more;
        rest = after;
    }
}

/// Reads the number at the front of the text. Returns the number and the rest of the text.
///
/// # Errors
///
/// Returns:
///
/// - `Unclosed` if the text is empty
/// - `CountSyntax` if the text does not begin with a digit
/// - `CountTooLarge` if the number is 2^32 or more
#[tactic(auto, unfolding(crate::specs::Token::number_at))]
fn number_at(text: &[char]) -> Result<(u32, &[char]), Fault>
    ensures { Yields (λ x. (x.0, x.1.now)) result (number_at text.now) }
{
    match text {
        [c, ..] if is_digit(*c) => {
            number_from(0, text).ok_or(Fault::Syntax(Kind::CountTooLarge))
        }
        [] => Err(Fault::Syntax(Kind::Unclosed)),
        _ => Err(Fault::Syntax(Kind::CountSyntax)),
    }
}

/// Returns the operator with the counts `least` and `most`, and the rest of the text. `text` is the
/// text after the operator. The operator is lazy if `text` begins with `?`.
#[tactic(auto, unfolding(crate::specs::Token::lazy_at))]
pub fn lazy_at<'t>(least: u32, most: Option<u32>, text: &'t [char]) -> (Token<'t>, &'t [char])
    ensures token { token_view result.0 ≡ (lazy_at least most text.now).0 }
    ensures rest { result.1.now ≡ (lazy_at least most text.now).1 }
{
    match text {
        ['?', rest @ ..] => (
            Token::Repeat(Operator {
                least,
                most,
                lazy: true,
            }),
            rest,
        ),
        _ => (
            Token::Repeat(Operator {
                least,
                most,
                lazy: false,
            }),
            text,
        ),
    }
}

/// Reads the `}` after the counts, and the `?` if one follows. Returns the operator with these
/// counts and the rest of the text.
///
/// # Errors
///
/// Returns `Unclosed` if the text is empty, and `CountSyntax` if the text begins with a character
/// other than `}`.
#[tactic(auto, unfolding(crate::specs::Token::count_end))]
fn count_end<'t>(
    least: u32,
    most: Option<u32>,
    text: &'t [char],
) -> Result<(Token<'t>, &'t [char]), Fault>
    ensures { Yields (λ x. (token_view x.0, x.1.now)) result (count_end least most text.now) }
{
    match text {
        ['}', rest @ ..] => Ok(lazy_at(least, most, rest)),
        [] => Err(Fault::Syntax(Kind::Unclosed)),
        _ => Err(Fault::Syntax(Kind::CountSyntax)),
    }
}

/// Reads the text after `{n,`, where `least` is `n`. Returns the operator and the rest of the text.
///
/// # Errors
///
/// Returns:
///
/// - `Unclosed` if the text is empty
/// - `CountOrder` if the second count is less than `least`
/// - the errors of `number_at` and `count_end`
#[tactic(auto, unfolding(crate::specs::Token::most_at, crate::specs::Token::order_at))]
fn most_at(least: u32, text: &[char]) -> Result<(Token<'_>, &[char]), Fault>
    ensures { Yields (λ x. (token_view x.0, x.1.now)) result (most_at least text.now) }
{
    match text {
        [] => Err(Fault::Syntax(Kind::Unclosed)),
        ['}', rest @ ..] => Ok(lazy_at(least, None, rest)),
        _ => {
            let (most, rest) = number_at(text)?;
            if least > most {
                return Err(Fault::Syntax(Kind::CountOrder));
            }
            count_end(least, Some(most), rest)
        }
    }
}

/// Reads the text after `{n`, where `least` is `n`. Returns the operator and the rest of the text.
///
/// # Errors
///
/// Returns `Unclosed` if the text is empty, and otherwise the errors of `most_at` or `count_end`.
#[tactic(auto, unfolding(crate::specs::Token::bounds_at))]
fn bounds_at(least: u32, text: &[char]) -> Result<(Token<'_>, &[char]), Fault>
    ensures { Yields (λ x. (token_view x.0, x.1.now)) result (bounds_at least text.now) }
{
    match text {
        [] => Err(Fault::Syntax(Kind::Unclosed)),
        [',', rest @ ..] => most_at(least, rest),
        _ => count_end(least, Some(least), text),
    }
}

/// Reads a repetition operator with counts from the text after its `{`. Returns the operator's
/// token and the rest of the text.
///
/// # Errors
///
/// Returns:
///
/// - `Unclosed` if the text ends before `}`
/// - `CountSyntax` if no counts follow
/// - `CountTooLarge` if a count is 2^32 or more
/// - `CountOrder` if the second count is less than the first
#[tactic(auto, unfolding(crate::specs::Token::count_at))]
pub fn count_at(text: &[char]) -> Result<(Token<'_>, &[char]), Fault>
    ensures { Yields (λ x. (token_view x.0, x.1.now)) result (count_at text.now) }
{
    let (least, rest) = number_at(text)?;
    bounds_at(least, rest)
}
