//! `token_at` reads one token from the front of a text outside brackets. `logos_syntax` calls
//! `token_at` once for each token.

ghost use Rattle.std.specs.Prelude.{◌≡◌};
ghost use Rattle.logos_pattern_tokens.specs.Views.{Yields, token_view, escape_token_at, token_at};

use crate::counts::{count_at, lazy_at};
use crate::error::{Fault, Kind};
use crate::escapes::escape_at;
use crate::openings::group_at;
use crate::token::{Atom, Token};
use std::alloc::Global;

/// Reads an escape from the text after its backslash. Returns the token of the escape and the rest
/// of the text.
///
/// # Errors
///
/// Returns the errors of `escape_at`.
#[tactic(auto, unfolding(crate::specs::Reader::escape_token_at))]
fn escape_token_at(alloc: Global, text: &[char]) -> Result<(Token<'_>, &[char]), Fault>
    ensures { Yields (λ x. (token_view x.0, x.1.now)) result (escape_token_at text.now) }
{
    let (atom, rest) = escape_at(alloc, text)?;
    Ok((Token::Atom(atom), rest))
}

/// Reads the token at the front of the text. Returns the token and the rest of the text. The text
/// must not begin with `[`, because brackets have their own reader.
///
/// # Errors
///
/// Returns:
///
/// - `Unclosed` if the text is empty or begins with `[`
/// - the fault of the token if the token is malformed
/// - `Memory` if memory runs out
#[tactic(auto, unfolding(crate::specs::Reader::token_at))]
pub fn token_at(alloc: Global, text: &[char]) -> Result<(Token<'_>, &[char]), Fault>
    ensures { Yields (λ x. (token_view x.0, x.1.now)) result (token_at text.now) }
{
    let [c, rest @ ..] = text else {
        return Err(Fault::Syntax(Kind::Unclosed));
    };
    match *c {
        '|' => Ok((Token::Bar, rest)),
        '(' => group_at(rest),
        ')' => Ok((Token::Close, rest)),
        '*' => Ok(lazy_at(0, None, rest)),
        '+' => Ok(lazy_at(1, None, rest)),
        '?' => Ok(lazy_at(0, Some(1), rest)),
        '{' => count_at(rest),
        '\\' => escape_token_at(alloc, rest),
        '.' => Ok((Token::Atom(Atom::Dot), rest)),
        '^' => Ok((Token::Atom(Atom::Caret), rest)),
        '$' => Ok((Token::Atom(Atom::Dollar), rest)),
        '[' => Err(Fault::Syntax(Kind::Unclosed)),
        _ => Ok((Token::Atom(Atom::Character(*c)), rest)),
    }
}
