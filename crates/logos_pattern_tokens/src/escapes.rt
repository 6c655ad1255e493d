//! `escape_at` reads the text after a backslash. Called by both readers of tokens.

ghost use Rattle.std.specs.Prelude.{◌≡◌, MatchResult};
ghost use Rattle.logos_pattern_tokens.specs.Views.{Yields, is_among, is_escapable, single_of, begins, is_form, plain_property, property_of, property_at, braces_at, fixed_at, byte_at, hex_at, boundary_at, single_at, escape_at};

use crate::counts::{cut_at, hex_digit, scalar_of};
use crate::error::{Fault, Kind};
use crate::token::Atom;
use logos_hir::property::{PerlKind, property_named};
use std::alloc::Global;
use unicode::sets::Set;

/// Returns whether a backslash before the character denotes the character itself. This holds for
/// each ASCII character except letters, digits, `<` and `>`.
fn is_escapable(c: char) -> bool
    ensures { result ≡ is_escapable c }
{
    c.is_ascii() && !(c.is_ascii_alphanumeric() || c == '<' || c == '>')
}

/// Returns the atom of the escape that consists of a backslash and `c`: a character, a class or a
/// look-around assertion. Returns `None` if there is no such escape.
fn single_of(c: char) -> Option<Atom>
    ensures { result ≡ single_of c }
{
    if is_escapable(c) {
        return Some(Atom::Character(c));
    }
    match c {
        'a' => Some(Atom::Character('\x07')),
        'f' => Some(Atom::Character('\x0C')),
        't' => Some(Atom::Character('\t')),
        'n' => Some(Atom::Character('\n')),
        'r' => Some(Atom::Character('\r')),
        'v' => Some(Atom::Character('\x0B')),
        'd' => Some(Atom::Perl(PerlKind::Digit, false)),
        's' => Some(Atom::Perl(PerlKind::Space, false)),
        'w' => Some(Atom::Perl(PerlKind::Word, false)),
        'D' => Some(Atom::Perl(PerlKind::Digit, true)),
        'S' => Some(Atom::Perl(PerlKind::Space, true)),
        'W' => Some(Atom::Perl(PerlKind::Word, true)),
        'A' => Some(Atom::TextStart),
        'z' => Some(Atom::TextEnd),
        'B' => Some(Atom::Boundary(true)),
        _ => None,
    }
}

/// Returns whether `name` contains the character `c`.
fn contains(name: &[char], c: char) -> bool
    ensures { result ≡ is_among c name.now }
{
    name.contains(&c)
}

/// Returns whether the name of a property contains `=` or `:`, or begins with `^`. Such a name has
/// a value or is negated.
fn is_form(name: &[char]) -> bool
    ensures { result ≡ is_form name.now }
{
    contains(name, '=') || contains(name, ':') || matches!(name, ['^', ..])
}

/// Returns the set of characters of the property with this name.
///
/// # Errors
///
/// Returns:
///
/// - `PropertyForm` if the name has a value or is negated
/// - `UnknownProperty` if no property has the name
/// - `Memory` if memory runs out
#[tactic(auto, unfolding(crate::specs::Escapes::plain_property))]
fn plain_property(alloc: Global, name: &[char]) -> Result<Set, Fault>
    ensures { Yields (λ set. set) result (plain_property name.now) }
{
    if is_form(name) {
        return Err(Fault::Syntax(Kind::PropertyForm));
    }
    match property_named(alloc, name)? {
        Some(set) => Ok(set),
        None => Err(Fault::Syntax(Kind::UnknownProperty)),
    }
}

/// Returns the atom of the property with this name, and the rest of the text.
///
/// # Errors
///
/// Returns the errors of `plain_property`.
#[tactic(auto, unfolding(crate::specs::Escapes::property_of))]
fn property_of<'t>(
    alloc: Global,
    negated: bool,
    name: &[char],
    rest: &'t [char],
) -> Result<(Atom, &'t [char]), Fault>
    ensures { Yields (λ x. (x.0, x.1.now)) result (property_of negated name.now rest.now) }
{
    let set = plain_property(alloc, name)?;
    Ok((Atom::Property(set, negated), rest))
}

/// Reads the name of a property: one character, or a name in braces. Returns the atom of the
/// property and the rest of the text.
///
/// # Errors
///
/// Returns:
///
/// - `UnknownProperty` if the text is empty, or if its one character names no property
/// - `Unclosed` if the brace is not closed
/// - otherwise the errors of `plain_property`
#[tactic(auto, unfolding(crate::specs::Escapes::property_at))]
fn property_at(alloc: Global, negated: bool, text: &[char]) -> Result<(Atom, &[char]), Fault>
    ensures { Yields (λ x. (x.0, x.1.now)) result (property_at negated text.now) }
{
    match text {
        [] => Err(Fault::Syntax(Kind::UnknownProperty)),
        ['{', rest @ ..] => {
            let Some((name, after)) = cut_at('}', rest) else {
                return Err(Fault::Syntax(Kind::Unclosed));
            };
            property_of(alloc, negated, name, after)
        }
        [c, rest @ ..] => match property_of(alloc, negated, &[*c], rest) {
            Ok(found) => Ok(found),
            Err(Fault::Syntax(_)) => Err(Fault::Syntax(Kind::UnknownProperty)),
            Err(Fault::Memory) => Err(Fault::Memory),
        },
    }
}

/// Reads hexadecimal digits up to `}`, from the text after `{`. Returns the atom of the character
/// whose number the digits spell, and the text after `}`.
///
/// # Errors
///
/// Returns:
///
/// - `Unclosed` if the text has no `}` and consists of hexadecimal digits only
/// - `HexSyntax` if there are no digits before `}`, or if other characters are among the digits
/// - `HexNotScalar` if the number is not a Unicode scalar value
#[tactic(auto, unfolding(crate::specs::Escapes::braces_at))]
fn braces_at(text: &[char]) -> Result<(Atom, &[char]), Fault>
    ensures { Yields (λ x. (x.0, x.1.now)) result (braces_at text.now) }
{
    let Some((digits, rest)) = cut_at('}', text) else {
        return Err(Fault::Syntax(digits_fault(text)));
    };
    if digits.is_empty() {
        return Err(Fault::Syntax(Kind::HexSyntax));
    }
    let c = scalar_of(digits)?;
    Ok((Atom::Character(c), rest))
}

/// Returns the fault of the text after a `{` that is not closed by a `}`: `Unclosed` if the text
/// consists of hexadecimal digits only, and `HexSyntax` otherwise.
fn digits_fault(digits: &[char]) -> Kind {
    if digits.iter().all(|c| hex_digit(*c).is_some()) {
        Kind::Unclosed
    } else {
        Kind::HexSyntax
    }
}

/// Reads `width` hexadecimal digits. Returns the atom of the character whose number the digits
/// spell, and the rest of the text.
///
/// # Errors
///
/// Returns `HexSyntax` if the text does not begin with `width` hexadecimal digits, and
/// `HexNotScalar` if the number is not a Unicode scalar value.
#[tactic(auto, unfolding(crate::specs::Escapes::fixed_at))]
fn fixed_at(width: usize, text: &[char]) -> Result<(Atom, &[char]), Fault>
    ensures { Yields (λ x. (x.0, x.1.now)) result (fixed_at width text.now) }
{
    if text.len() < width {
        return Err(Fault::Syntax(Kind::HexSyntax));
    }
    let (digits, rest) = text.split_at(width);
    let c = scalar_of(digits)?;
    Ok((Atom::Character(c), rest))
}

/// Reads two hexadecimal digits as the value of a byte. Returns the atom of the byte and the rest
/// of the text.
///
/// # Errors
///
/// Returns `HexSyntax` if the text does not begin with two hexadecimal digits.
#[tactic(auto, unfolding(crate::specs::Escapes::byte_at))]
fn byte_at(text: &[char]) -> Result<(Atom, &[char]), Fault>
    ensures { Yields (λ x. (x.0, x.1.now)) result (byte_at text.now) }
{
    match text {
        [a, b, rest @ ..] => match (hex_digit(*a), hex_digit(*b)) {
            (Some(high), Some(low)) => Ok((Atom::Byte((high * 16 + low) as u8), rest)),
            _ => Err(Fault::Syntax(Kind::HexSyntax)),
        },
        _ => Err(Fault::Syntax(Kind::HexSyntax)),
    }
}

/// Reads the text after `\x`, `\u` or `\U`, where `letter` is the letter of the escape. Returns the
/// atom of the escape and the rest of the text.
///
/// # Errors
///
/// Returns `HexSyntax` if the text is empty, and otherwise the errors of `braces_at`, `byte_at` or
/// `fixed_at`.
#[tactic(auto, unfolding(crate::specs::Escapes::hex_at))]
fn hex_at(letter: char, text: &[char]) -> Result<(Atom, &[char]), Fault>
    ensures { Yields (λ x. (x.0, x.1.now)) result (hex_at letter text.now) }
{
    match text {
        [] => Err(Fault::Syntax(Kind::HexSyntax)),
        ['{', rest @ ..] => braces_at(rest),
        _ => match letter {
            'x' => byte_at(text),
            'u' => fixed_at(4, text),
            _ => fixed_at(8, text),
        },
    }
}

/// Reads the text after `\b`. Returns the atom of a word boundary and the whole text, because `\b`
/// alone is a word boundary.
///
/// # Errors
///
/// Returns `WordBoundaryForm` if the text begins with `{`.
#[tactic(auto, unfolding(crate::specs::Escapes::boundary_at))]
fn boundary_at(text: &[char]) -> Result<(Atom, &[char]), Fault>
    ensures { Yields (λ x. (x.0, x.1.now)) result (boundary_at text.now) }
{
    match text {
        ['{', ..] => Err(Fault::Syntax(Kind::WordBoundaryForm)),
        _ => Ok((Atom::Boundary(false), text)),
    }
}

/// Returns the fault of a backslash before the character `c`, which cannot be escaped.
fn no_escape(c: char) -> Kind {
    match c {
        '<' | '>' => Kind::WordBoundaryForm,
        _ => Kind::EscapeUnknown,
    }
}

/// Returns the atom of the escape of the character `c`, and the rest of the text.
///
/// # Errors
///
/// Returns `WordBoundaryForm` if `c` is `<` or `>`, and `EscapeUnknown` if `c` is another character
/// that cannot be escaped.
#[tactic(auto, unfolding(crate::specs::Escapes::single_at))]
fn single_at(c: char, rest: &[char]) -> Result<(Atom, &[char]), Fault>
    ensures { Yields (λ x. (x.0, x.1.now)) result (single_at c rest.now) }
{
    match single_of(c) {
        Some(atom) => Ok((atom, rest)),
        None => Err(Fault::Syntax(no_escape(c))),
    }
}

/// Reads an escape from the text after its backslash. Returns the atom and the rest of the text.
///
/// # Errors
///
/// Returns:
///
/// - `EscapeUnknown` if the text is empty or begins with a character that cannot be escaped
/// - the fault of the escape if the escape is malformed
/// - `Memory` if memory runs out
#[tactic(auto, unfolding(crate::specs::Escapes::escape_at))]
pub fn escape_at(alloc: Global, text: &[char]) -> Result<(Atom, &[char]), Fault>
    ensures { Yields (λ x. (x.0, x.1.now)) result (escape_at text.now) }
{
    let [c, rest @ ..] = text else {
        return Err(Fault::Syntax(Kind::EscapeUnknown));
    };
    match *c {
        'x' | 'u' | 'U' => hex_at(*c, rest),
        'p' => property_at(alloc, false, rest),
        'P' => property_at(alloc, true, rest),
        'b' => boundary_at(rest),
        _ => single_at(*c, rest),
    }
}
