//! Turns the elements of a bracket into the sets that they denote. The stack of brackets calls
//! `push_item` for each element.

ghost use Rattle.std.specs.Prelude.{◌≡◌, ◌==◌, ◌∷◌, [], IfOk, IfSome, OnOk};
ghost use Rattle.logos_syntax.specs.Imports.{pairs, only_chars, members, union, in_range, code_of, set_of, last_of, case_closure, set_or_complement, item_test, is_negated, item_set, lead_set, symbol_fits, item_fits, combination};

use logos_hir::case_folding::{fold_ascii, fold_case};
use logos_hir::hir::Range;
use logos_hir::property::{ascii_set, perl_set, property_set};
use logos_hir::sets::RangeSet;
use logos_hir::sets::operands::SetOperator;
use logos_pattern_tokens::bracket::reader::code_of;
use logos_pattern_tokens::bracket::token::{BracketItem, Lead, Symbol};
use logos_pattern_tokens::token::Flags;
use std::alloc::{AllocError, Global};

/// Returns the greatest character, or the greatest byte if the pattern matches bytes.
fn last_of(flags: Flags) -> char
    ensures { result ≡ last_of flags }
{
    if flags.unicode { char::MAX } else { '\u{FF}' }
}

/// Returns the set, with the other cases of its members added if the flag `i` is on. If the pattern
/// matches bytes, only ASCII letters have other cases.
pub(crate) fn case_closure(
    alloc: Global,
    flags: Flags,
    set: RangeSet,
) -> Result<RangeSet, AllocError>
    ensures { IfOk result (λ out. set_of out ≡ case_closure flags (set_of set)) }
{
    if !flags.ignore_case {
        return Ok(set);
    }
    if flags.unicode {
        return fold_case(alloc, &set);
    }
    fold_ascii(alloc, &set)
}

/// Returns `set`, or its complement if `negated` is `true`. The complement is taken among all bytes
/// if the pattern matches bytes, and among all characters otherwise.
pub(crate) fn set_or_complement(
    flags: Flags,
    negated: bool,
    set: RangeSet,
) -> Result<RangeSet, AllocError>
    ensures { IfOk result (λ out. set_of out ≡ set_or_complement flags negated (set_of set)) }
{
    if negated {
        return set.complement(last_of(flags));
    }
    Ok(set)
}

/// Returns the set of the numbers from `first` to `last`.
fn range_set(alloc: Global, first: u32, last: u32) -> Result<RangeSet, AllocError>
    ensures { IfOk result (λ set. set_of set ≡ members ((first, last) ∷ [])) }
{
    RangeSet::from_ranges(alloc, &[Range { first, last }])
}

/// Returns the set that contains only the number `code`.
pub(crate) fn number_set(alloc: Global, code: u32) -> Result<RangeSet, AllocError>
    ensures { IfOk result (λ set. set_of set ≡ only_chars (λ c. c == code)) }
{
    range_set(alloc, code, code)
}

/// Returns the set of the characters or bytes from `first` to `last`.
fn symbols_set(alloc: Global, first: Symbol, last: Symbol) -> Result<RangeSet, AllocError>
    ensures { IfOk result (λ set. set_of set ≡ only_chars
        (in_range (code_of first, code_of last))) }
{
    range_set(alloc, code_of(first), code_of(last))
}

/// Returns the set of an element. The negation of the element and the flag `i` are ignored.
fn item_test(alloc: Global, flags: Flags, item: BracketItem) -> Result<RangeSet, AllocError>
    ensures { IfOk result (λ set. set_of set ≡ only_chars (item_test flags item)) }
{
    match item {
        BracketItem::One(s) => number_set(alloc, code_of(s)),
        BracketItem::Range(a, b) => symbols_set(alloc, a, b),
        BracketItem::Perl(kind, _) => perl_set(alloc, kind, flags.unicode),
        BracketItem::Property(set, _) => property_set(alloc, set),
        BracketItem::Ascii(kind, _) => ascii_set(alloc, kind),
    }
}

/// Returns whether the element is negated.
fn is_negated(item: BracketItem) -> bool
    ensures { result ≡ is_negated item }
{
    match item {
        BracketItem::One(_) | BracketItem::Range(_, _) => false,
        BracketItem::Perl(_, negated)
        | BracketItem::Property(_, negated)
        | BracketItem::Ascii(_, negated) => negated,
    }
}

/// Returns the set of an element, including its negation and, if the flag `i` is on, the other
/// cases of its members.
fn item_set(alloc: Global, flags: Flags, item: BracketItem) -> Result<RangeSet, AllocError>
    ensures { IfOk result (λ set. set_of set ≡ item_set flags item) }
{
    let test = item_test(alloc, flags, item)?;
    let same_letters = case_closure(alloc, flags, test)?;
    set_or_complement(flags, is_negated(item), same_letters)
}

/// Returns the bounds of an element whose set is one range and needs no case folding: a character,
/// a byte or a range if the flag `i` is off. Returns `None` for any other element.
fn plain_ends(flags: Flags, item: BracketItem) -> Option<(u32, u32)>
    ensures { IfSome result (λ ends. item_set flags item ≡ members (ends ∷ [])) }
{
    if flags.ignore_case {
        return None;
    }
    match item {
        BracketItem::One(s) => Some((code_of(s), code_of(s))),
        BracketItem::Range(a, b) => Some((code_of(a), code_of(b))),
        _ => None,
    }
}

/// Appends the ranges of the set that the element `item` denotes to `ranges`.
pub(crate) fn push_item(
    alloc: Global,
    ranges: &mut Vec<Range>,
    flags: Flags,
    item: BracketItem,
) -> Result<(), AllocError>
    ensures { OnOk result (members (pairs ranges.new.items) ≡
        union (members (pairs ranges.old.items)) (item_set flags item)) }
{
    match plain_ends(flags, item) {
        Some((first, last)) => push_range(ranges, first, last),
        None => push_set(ranges, &item_set(alloc, flags, item)?),
    }
}

/// Appends the range from `first` to `last` to `ranges`.
fn push_range(ranges: &mut Vec<Range>, first: u32, last: u32) -> Result<(), AllocError>
    ensures { OnOk result (members (pairs ranges.new.items) ≡
        union (members (pairs ranges.old.items)) (members ((first, last) ∷ []))) }
{
    ranges.push(Range { first, last })?;
    Ok(())
}

/// Appends the ranges of `set` to `ranges`.
pub(crate) fn push_set(ranges: &mut Vec<Range>, set: &RangeSet) -> Result<(), AllocError>
    ensures { OnOk result (members (pairs ranges.new.items) ≡
        union (members (pairs ranges.old.items)) (set_of set.now)) }
{
    ranges.extend_from_slice(set.ranges())?;
    Ok(())
}

/// Returns the ranges of the literals at the front of a bracket.
pub(crate) fn lead_ranges(alloc: Global, lead: Lead) -> Result<Vec<Range>, AllocError>
    ensures { IfOk result (λ ranges. members (pairs ranges.items) ≡ lead_set lead) }
{
    match lead {
        Lead::Dashes(0) => Ok(Vec::new(alloc)),
        Lead::Dashes(_) => Vec::from_slice(alloc, &[Range::new(45, 45)]),
        Lead::Bracket => Vec::from_slice(alloc, &[Range::new(93, 93)]),
    }
}

/// Returns whether the flags allow the symbol. If the pattern matches bytes, a character must be
/// ASCII.
fn symbol_fits(flags: Flags, symbol: Symbol) -> bool
    ensures { result ≡ symbol_fits flags symbol }
{
    match symbol {
        Symbol::Character(c) => flags.unicode || c.is_ascii(),
        Symbol::Byte(_) => true,
    }
}

/// Returns whether the flags allow the element. If the pattern matches bytes, the element must not
/// be a property, and its characters must be ASCII.
pub(crate) fn item_fits(flags: Flags, item: BracketItem) -> bool
    ensures { result ≡ item_fits flags item }
{
    match item {
        BracketItem::One(s) => symbol_fits(flags, s),
        BracketItem::Range(a, b) => symbol_fits(flags, a) && symbol_fits(flags, b),
        BracketItem::Property(_, _) => flags.unicode,
        BracketItem::Perl(_, _) | BracketItem::Ascii(_, _) => true,
    }
}
