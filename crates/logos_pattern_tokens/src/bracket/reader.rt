//! `bracket_token_at` reads one token from the front of a text inside brackets. `logos_syntax`
//! calls `bracket_token_at` for each token between `[` and `]`.

ghost use Rattle.std.specs.Prelude.{◌≡◌, ◌+◌, ◌≤◌, Option, Some, MatchOption, option_map};
ghost use Rattle.logos_pattern_tokens.specs.Views.{Yields, code_of, begins_operator, begins_range, symbol_of, last_at, range_token, range_at, lone_at, escape_item, item_at, dashes_from, lead_at, open_at, class_end, name_end, colon_at, class_at, inner_at, operator_of, bracket_token_at};

use crate::bracket::token::{BracketItem, BracketToken, Lead, Symbol};
use crate::counts::cut_at;
use crate::error::{Fault, Kind};
use crate::escapes::escape_at;
use crate::token::Atom;
use logos_hir::property::AsciiKind;
use logos_hir::sets::operands::SetOperator;
use std::alloc::Global;

/// Returns the code point of a character, or the value of a byte.
pub fn code_of(symbol: Symbol) -> u32
    ensures { result ≡ code_of symbol }
{
    match symbol {
        Symbol::Character(c) => c as u32,
        Symbol::Byte(b) => b as u32,
    }
}

/// Returns whether the text begins with a `-` that continues a range: a `-` before a character
/// other than `]` and `-`.
fn begins_range(text: &[char]) -> bool
    ensures { result ≡ begins_range text.now }
{
    match text {
        ['-', d, ..] => !(*d == ']' || *d == '-'),
        _ => false,
    }
}

/// Returns whether the character `c` and the first character of `rest` form an operator: `&&`, `--`
/// or `~~`.
fn begins_operator(c: char, rest: &[char]) -> bool
    ensures { result ≡ begins_operator c rest.now }
{
    match rest {
        [d, ..] => c == *d && (c == '&' || (c == '-' || c == '~')),
        [] => false,
    }
}

/// Returns the character or the byte that an escape denotes, or `None` if it denotes neither.
fn symbol_of(atom: Atom) -> Option<Symbol>
    ensures { result ≡ symbol_of atom }
{
    match atom {
        Atom::Character(c) => Some(Symbol::Character(c)),
        Atom::Byte(b) => Some(Symbol::Byte(b)),
        _ => None,
    }
}

/// Returns the fault of a range that ends with the escape `atom`, where `atom` is not a character:
/// `ClassRange` for a class, and `EscapeUnknown` otherwise.
fn no_symbol(atom: Atom) -> Kind {
    match atom {
        Atom::Perl(_, _) | Atom::Property(_, _) => Kind::ClassRange,
        _ => Kind::EscapeUnknown,
    }
}

/// Reads the last symbol of a range from the text after the `-` of the range. Returns the symbol
/// and the rest of the text.
///
/// # Errors
///
/// Returns:
///
/// - `Unclosed` if the text is empty
/// - `ClassRange` if the text begins with a class
/// - `EscapeUnknown` if the text begins with another escape that is not a character
/// - the error of `escape_at` if an escape cannot be read
#[tactic(auto, unfolding(crate::specs::bracket::Reader::last_at))]
fn last_at(alloc: Global, text: &[char]) -> Result<(Symbol, &[char]), Fault>
    ensures { Yields (λ x. (x.0, x.1.now)) result (last_at text.now) }
{
    match text {
        [] => Err(Fault::Syntax(Kind::Unclosed)),
        ['\\', rest @ ..] => {
            let (atom, after) = escape_at(alloc, rest)?;
            match symbol_of(atom) {
                Some(symbol) => Ok((symbol, after)),
                None => Err(Fault::Syntax(no_symbol(atom))),
            }
        }
        [c, rest @ ..] => Ok((Symbol::Character(*c), rest)),
    }
}

/// Returns the range from `first` to `last`, and the rest of the text.
///
/// # Errors
///
/// Returns `ClassRange` if `last` is less than `first`.
#[tactic(auto, unfolding(crate::specs::bracket::Reader::range_token))]
fn range_token<'t>(
    first: Symbol,
    last: Symbol,
    rest: &'t [char],
) -> Result<(BracketToken, &'t [char]), Fault>
    ensures { Yields (λ x. (x.0, x.1.now)) result (range_token first (last, rest.now)) }
{
    if code_of(first) > code_of(last) {
        return Err(Fault::Syntax(Kind::ClassRange));
    }
    Ok((BracketToken::Item(BracketItem::Range(first, last)), rest))
}

/// Reads the text after the symbol `first`. Returns the range that begins with `first`, or `first`
/// alone if the text does not continue a range, and the rest of the text.
///
/// # Errors
///
/// Returns the errors of `last_at` and `range_token`.
#[tactic(auto, unfolding(crate::specs::bracket::Reader::range_at))]
fn range_at(alloc: Global, first: Symbol, rest: &[char]) -> Result<(BracketToken, &[char]), Fault>
    ensures { Yields (λ x. (x.0, x.1.now)) result (range_at first rest.now) }
{
    if !begins_range(rest) {
        return Ok((BracketToken::Item(BracketItem::One(first)), rest));
    }
    let (last, after) = last_at(alloc, &rest[1..])?;
    range_token(first, last, after)
}

/// Returns the token of the class `item`, and the rest of the text.
///
/// # Errors
///
/// Returns `ClassRange` if the text continues a range, because a class cannot be the start of a
/// range.
#[tactic(auto, unfolding(crate::specs::bracket::Reader::lone_at))]
fn lone_at(item: BracketItem, rest: &[char]) -> Result<(BracketToken, &[char]), Fault>
    ensures { Yields (λ x. (x.0, x.1.now)) result (lone_at item rest.now) }
{
    if begins_range(rest) {
        return Err(Fault::Syntax(Kind::ClassRange));
    }
    Ok((BracketToken::Item(item), rest))
}

/// Reads the text after the escape `atom`. Returns the element that begins with the escape, and the
/// rest of the text.
///
/// # Errors
///
/// Returns `EscapeUnknown` if the escape is neither a character nor a class, and otherwise the
/// errors of `range_at` or `lone_at`.
#[tactic(auto, unfolding(crate::specs::bracket::Reader::escape_item))]
fn escape_item(alloc: Global, atom: Atom, rest: &[char]) -> Result<(BracketToken, &[char]), Fault>
    ensures { Yields (λ x. (x.0, x.1.now)) result (escape_item atom rest.now) }
{
    match atom {
        Atom::Character(c) => range_at(alloc, Symbol::Character(c), rest),
        Atom::Byte(b) => range_at(alloc, Symbol::Byte(b), rest),
        Atom::Perl(kind, negated) => lone_at(BracketItem::Perl(kind, negated), rest),
        Atom::Property(set, negated) => lone_at(BracketItem::Property(set, negated), rest),
        _ => Err(Fault::Syntax(Kind::EscapeUnknown)),
    }
}

/// Reads an element: a character, a range or a class. Returns its token and the rest of the text.
///
/// # Errors
///
/// Returns:
///
/// - `Unclosed` if the text is empty
/// - the fault of the element if the element is malformed
/// - `Memory` if memory runs out
#[tactic(auto, unfolding(crate::specs::bracket::Reader::item_at))]
fn item_at(alloc: Global, text: &[char]) -> Result<(BracketToken, &[char]), Fault>
    ensures { Yields (λ x. (x.0, x.1.now)) result (item_at text.now) }
{
    match text {
        [] => Err(Fault::Syntax(Kind::Unclosed)),
        ['\\', rest @ ..] => {
            let (atom, after) = escape_at(alloc, rest)?;
            escape_item(alloc, atom, after)
        }
        [c, rest @ ..] => range_at(alloc, Symbol::Character(*c), rest),
    }
}

/// Returns the number of `-` at the front of the text, and the rest of the text.
fn dashes_at(text: &[char]) -> (usize, &[char])
    ensures count { result.0 ≡ (dashes_from 0 text.now).0 }
    ensures rest { result.1.now ≡ (dashes_from 0 text.now).1 }
{
    let mut count = 0;
    let mut rest = text;
    while let ['-', after @ ..] = rest {
        count += 1;
        rest = after;
    }
    (count, rest)
}

/// Reads the literals after `[` or `[^`: one `]`, or all of the `-` that follow. Returns the
/// literals and the rest of the text.
#[tactic(auto, unfolding(crate::specs::bracket::Reader::lead_at))]
fn lead_at(text: &[char]) -> (Lead, &[char])
    ensures lead { result.0 ≡ (lead_at text.now).0 }
    ensures rest { result.1.now ≡ (lead_at text.now).1 }
{
    match text {
        [']', rest @ ..] => (Lead::Bracket, rest),
        _ => {
            let (count, rest) = dashes_at(text);
            (Lead::Dashes(count), rest)
        }
    }
}

/// Reads the text after `[`. Returns whether `^` negates the bracket, the literals at the front of
/// the bracket, and the rest of the text.
#[tactic(auto, unfolding(crate::specs::bracket::Reader::open_at))]
pub fn open_at(text: &[char]) -> (bool, Lead, &[char])
    ensures negated { result.0 ≡ (open_at text.now).0 }
    ensures lead { result.1 ≡ (open_at text.now).1 }
    ensures rest { result.2.now ≡ (open_at text.now).2 }
{
    match text {
        ['^', after @ ..] => {
            let (lead, rest) = lead_at(after);
            (true, lead, rest)
        }
        _ => {
            let (lead, rest) = lead_at(text);
            (false, lead, rest)
        }
    }
}

/// Reads the `]` after `[:name:`. Returns the class with the name `name` and the rest of the text.
/// Returns `None` if the text does not begin with `]`, or if no class of ASCII characters has the
/// name.
#[tactic(auto, unfolding(crate::specs::bracket::Reader::class_end))]
fn class_end<'t>(
    negated: bool,
    name: &[char],
    text: &'t [char],
) -> Option<(BracketToken, &'t [char])>
    ensures { option_map (λ x. (x.0, x.1.now)) result ≡ class_end negated name.now text.now }
{
    match text {
        [']', rest @ ..] => match AsciiKind::from_name(name) {
            Some(kind) => Some((BracketToken::Item(BracketItem::Ascii(kind, negated)), rest)),
            None => None,
        },
        _ => None,
    }
}

/// Reads `name:]`. Returns the class with this name and the rest of the text, or `None` if the text
/// does not begin with the name of a class and `:]`.
#[tactic(auto, unfolding(crate::specs::bracket::Reader::name_end))]
fn name_end(negated: bool, text: &[char]) -> Option<(BracketToken, &[char])>
    ensures { option_map (λ x. (x.0, x.1.now)) result ≡ name_end negated text.now }
{
    match cut_at(':', text) {
        Some((name, rest)) => class_end(negated, name, rest),
        None => None,
    }
}

/// Reads `name:]` or `^name:]`. Returns the class and the rest of the text, or `None` if the text
/// does not begin with one of these forms.
#[tactic(auto, unfolding(crate::specs::bracket::Reader::colon_at))]
fn colon_at(text: &[char]) -> Option<(BracketToken, &[char])>
    ensures { option_map (λ x. (x.0, x.1.now)) result ≡ colon_at text.now }
{
    match text {
        [] => None,
        ['^', rest @ ..] => name_end(true, rest),
        _ => name_end(false, text),
    }
}

/// Reads `:name:]` or `:^name:]`, a class of ASCII characters. Returns the class and the rest of
/// the text, or `None` if the text does not begin with one of these forms.
#[tactic(auto, unfolding(crate::specs::bracket::Reader::class_at))]
fn class_at(text: &[char]) -> Option<(BracketToken, &[char])>
    ensures { option_map (λ x. (x.0, x.1.now)) result ≡ class_at text.now }
{
    match text {
        [':', rest @ ..] => colon_at(rest),
        _ => None,
    }
}

/// Reads the text after `[` inside a bracket. Returns a class of ASCII characters, or the opening
/// of a nested bracket, and the rest of the text.
#[tactic(auto, unfolding(crate::specs::bracket::Reader::inner_at))]
fn inner_at(text: &[char]) -> (BracketToken, &[char])
    ensures token { result.0 ≡ (inner_at text.now).0 }
    ensures rest { result.1.now ≡ (inner_at text.now).1 }
{
    match class_at(text) {
        Some(found) => found,
        None => {
            let (negated, lead, rest) = open_at(text);
            (BracketToken::Open(negated, lead), rest)
        }
    }
}

/// Returns the operator that is written as `c` twice, where `c` is `&`, `-` or `~`.
fn operator_of(c: char) -> SetOperator
    ensures { result ≡ operator_of c }
{
    match c {
        '&' => SetOperator::Intersection,
        '-' => SetOperator::Difference,
        _ => SetOperator::SymmetricDifference,
    }
}

/// Reads the token at the front of a text inside brackets. Returns the token and the rest of the
/// text.
///
/// # Errors
///
/// Returns:
///
/// - `Unclosed` if the text is empty
/// - the fault of the token if the token is malformed
/// - `Memory` if memory runs out
#[tactic(auto, unfolding(crate::specs::bracket::Reader::bracket_token_at))]
pub fn bracket_token_at(alloc: Global, text: &[char]) -> Result<(BracketToken, &[char]), Fault>
    ensures { Yields (λ x. (x.0, x.1.now)) result (bracket_token_at text.now) }
{
    let [c, rest @ ..] = text else {
        return Err(Fault::Syntax(Kind::Unclosed));
    };
    match *c {
        ']' => Ok((BracketToken::Close, rest)),
        '[' => Ok(inner_at(rest)),
        _ => {
            if begins_operator(*c, rest) {
                return Ok((BracketToken::Operator(operator_of(*c)), &rest[1..]));
            }
            item_at(alloc, text)
        }
    }
}
