//! Reads numbers and booleans in the arguments of an attribute. The readers of definitions and
//! options call `number_in` and `boolean_in`.

ghost use Rattle.std.specs.Prelude.{◌≡◌};
ghost use Rattle.logos_attribute.specs.Imports.{all_ascii_digits, tokens_of, decimal, number_in, boolean_named, boolean_in};

use crate::nested::split;
use logos_token::token::{TokenTree, Tokens};

/// Returns whether all `bytes` are ASCII digits.
fn all_digits(bytes: &[u8]) -> bool
    ensures { result ≡ all_ascii_digits bytes.now }
{
    for byte in bytes {
        if !byte.is_ascii_digit() {
            return false;
        }
    }
    true
}

/// Returns the number that `text` spells in decimal digits. Returns `None` if `text` is empty or
/// contains a byte that is not a digit, or if the number does not fit `usize`.
#[tactic(auto, using(crate::proofs::NumberLemmas::decimal_parsed))]
fn decimal(text: &str) -> Option<usize>
    ensures { result ≡ decimal text.now }
{
    if !all_digits(text.as_bytes()) {
        return None;
    }
    text.parse::<usize>().ok()
}

/// Returns the number that the run `tokens` spells. The run must consist of one literal of decimal
/// digits, without a suffix, whose value fits `usize`. Returns `None` for any other run.
pub fn number_in(tokens: Tokens<'_, '_>) -> Option<usize>
    ensures { result ≡ number_in (tokens_of tokens.entry) }
{
    match split(tokens) {
        Some((TokenTree::Literal(literal), rest)) if rest.is_empty() => decimal(literal.text),
        _ => None,
    }
}

/// Returns the boolean that `text` spells, or `None` if `text` is neither `true` nor `false`.
fn boolean_named(text: &str) -> Option<bool>
    ensures { result ≡ boolean_named text.now }
{
    if text == "true" {
        return Some(true);
    }
    if text == "false" {
        return Some(false);
    }
    None
}

/// Returns the boolean that the run `tokens` spells. The run must consist of the identifier `true`
/// or `false` alone. Returns `None` for any other run.
pub fn boolean_in(tokens: Tokens<'_, '_>) -> Option<bool>
    ensures { result ≡ boolean_in (tokens_of tokens.entry) }
{
    match split(tokens) {
        Some((TokenTree::Ident(word), rest)) if rest.is_empty() => boolean_named(word.text),
        _ => None,
    }
}
