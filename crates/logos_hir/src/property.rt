//! Sets of characters that patterns denote by names, such as `\p{..}`, `[:name:]` and `\d`.
//! `logos_pattern_tokens` and `logos_syntax` look up sets in this module.

ghost use Rattle.std.specs.Prelude.{◌≡◌, ℕ, Bool, IfOk, bytes_eq};
ghost use Rattle.logos_hir.specs.Views.{only_chars, in_ranges, HasExactly, in_set, pairs, set_of, ascii_set, ascii_named, perl_set, property_named, property_normalized};

use crate::hir::Range;
use crate::sets::RangeSet;
use std::alloc::{AllocError, Global};
use unicode::perl;
use unicode::sets::{self, Set};

/// A named class of ASCII characters, from `[:alnum:]` to `[:xdigit:]`.
#[derive(Clone, Copy)]
pub enum AsciiKind {
    Alnum,
    Alpha,
    Ascii,
    Blank,
    Cntrl,
    Digit,
    Graph,
    Lower,
    Print,
    Punct,
    Space,
    Upper,
    Word,
    Xdigit,
}

/// One of the classes `\d`, `\s` and `\w`.
#[derive(Clone, Copy)]
pub enum PerlKind {
    Digit,
    Space,
    Word,
}

/// Returns the first and the last member of each range of an ASCII class.
#[tactic(auto, using(std::proofs::lemmas::Bool::Decides::nat_tests))]
fn ascii_runs(kind: AsciiKind) -> &'static [(u32, u32)]
    ensures { (c : ℕ) → in_ranges result.now c ≡ ascii_set kind c }
{
    match kind {
        AsciiKind::Alnum => &[(48, 57), (65, 90), (97, 122)],
        AsciiKind::Alpha => &[(65, 90), (97, 122)],
        AsciiKind::Ascii => &[(0, 127)],
        AsciiKind::Blank => &[(9, 9), (32, 32)],
        AsciiKind::Cntrl => &[(0, 31), (127, 127)],
        AsciiKind::Digit => &[(48, 57)],
        AsciiKind::Graph => &[(33, 126)],
        AsciiKind::Lower => &[(97, 122)],
        AsciiKind::Print => &[(32, 126)],
        AsciiKind::Punct => &[(33, 47), (58, 64), (91, 96), (123, 126)],
        AsciiKind::Space => &[(9, 13), (32, 32)],
        AsciiKind::Upper => &[(65, 90)],
        AsciiKind::Word => &[(48, 57), (65, 90), (95, 95), (97, 122)],
        AsciiKind::Xdigit => &[(48, 57), (65, 70), (97, 102)],
    }
}

/// Returns whether `name` consists of the characters of the ASCII text `word`.
fn spells(name: &[char], word: &[u8]) -> bool
    ensures { result ≡ bytes_eq name.now word.now }
{
    if name.len() != word.len() {
        return false;
    }
    for i in 0..name.len() {
        if name[i] as u32 != word[i] as u32 {
            return false;
        }
    }
    true
}

impl AsciiKind {
    /// Returns the class that `name` denotes in `[:name:]`, or `None` if there is no such class.
    pub fn from_name(name: &[char]) -> Option<AsciiKind>
        ensures { result ≡ ascii_named name.now }
    {
        if spells(name, b"alnum") {
            Some(AsciiKind::Alnum)
        } else if spells(name, b"alpha") {
            Some(AsciiKind::Alpha)
        } else if spells(name, b"ascii") {
            Some(AsciiKind::Ascii)
        } else if spells(name, b"blank") {
            Some(AsciiKind::Blank)
        } else if spells(name, b"cntrl") {
            Some(AsciiKind::Cntrl)
        } else if spells(name, b"digit") {
            Some(AsciiKind::Digit)
        } else if spells(name, b"graph") {
            Some(AsciiKind::Graph)
        } else if spells(name, b"lower") {
            Some(AsciiKind::Lower)
        } else if spells(name, b"print") {
            Some(AsciiKind::Print)
        } else if spells(name, b"punct") {
            Some(AsciiKind::Punct)
        } else if spells(name, b"space") {
            Some(AsciiKind::Space)
        } else if spells(name, b"upper") {
            Some(AsciiKind::Upper)
        } else if spells(name, b"word") {
            Some(AsciiKind::Word)
        } else {
            spells(name, b"xdigit").then_some(AsciiKind::Xdigit)
        }
    }
}

/// Returns the members of an ASCII class.
///
/// # Errors
///
/// Returns `AllocError` if memory runs out.
pub fn ascii_set(alloc: Global, kind: AsciiKind) -> Result<RangeSet, AllocError>
    ensures { IfOk result (λ set. set_of set ≡ only_chars (ascii_set kind)) }
{
    RangeSet::from_ranges(alloc, &ranges_of(alloc, ascii_runs(kind))?)
}

/// Returns a range for each pair of a first and a last member in `runs`.
fn ranges_of(alloc: Global, runs: &[(u32, u32)]) -> Result<Vec<Range>, AllocError>
    ensures { IfOk result (λ v. pairs v.items ≡ runs.now) }
{
    let mut ranges = Vec::new(alloc);
    for (first, last) in runs {
        ranges.push(Range::new(*first, *last))?;
    }
    Ok(ranges)
}

/// Returns the set of the characters in the ranges `runs`. Surrogates in the ranges are left out.
fn from_runs(alloc: Global, runs: &[(u32, u32)]) -> Result<RangeSet, AllocError>
    ensures { (p : ℕ → Bool) → HasExactly runs.now p →
        IfOk result (λ set. set_of set ≡ only_chars p) }
{
    RangeSet::from_ranges(alloc, &ranges_of(alloc, runs)?)
}

/// Returns the members of `\d`, `\s` or `\w`: Unicode characters if `unicode` is `true`, and only
/// ASCII characters otherwise.
///
/// # Errors
///
/// Returns `AllocError` if memory runs out.
pub fn perl_set(alloc: Global, kind: PerlKind, unicode: bool) -> Result<RangeSet, AllocError>
    ensures { IfOk result (λ set. set_of set ≡ only_chars (perl_set kind unicode)) }
{
    match (kind, unicode) {
        (PerlKind::Digit, true) => from_runs(alloc, &perl::digit_ranges(alloc)?),
        (PerlKind::Space, true) => from_runs(alloc, &perl::space_ranges(alloc)?),
        (PerlKind::Word, true) => from_runs(alloc, &perl::word_ranges(alloc)?),
        (PerlKind::Digit, false) => ascii_set(alloc, AsciiKind::Digit),
        (PerlKind::Space, false) => ascii_set(alloc, AsciiKind::Space),
        (PerlKind::Word, false) => ascii_set(alloc, AsciiKind::Word),
    }
}

/// Returns the set of the property with the name `name`, or `None` if there is no such property.
/// `unicode::sets::normalize` normalizes the name before the search.
///
/// # Errors
///
/// Returns `AllocError` if memory runs out.
pub fn property_named(alloc: Global, name: &[char]) -> Result<Option<Set>, AllocError>
    ensures { IfOk result (λ set. set ≡ property_named name.now) }
{
    let name = sets::normalize(alloc, name)?;
    Ok(property_normalized(&name))
}

/// Returns the set of the property with the normalized name `name`, or `None` if there is no such
/// property.
fn property_normalized(name: &[u8]) -> Option<Set>
    ensures { result ≡ property_normalized name.now }
{
    if name == b"any".as_slice() {
        return Some(Set::Any);
    }
    if name == b"ascii".as_slice() {
        return Some(Set::Ascii);
    }
    if name == b"assigned".as_slice() {
        return Some(Set::Assigned);
    }
    sets::by_name(name).ok()
}

/// Returns the characters in `set`, the set of a property.
///
/// # Errors
///
/// Returns `AllocError` if memory runs out.
pub fn property_set(alloc: Global, set: Set) -> Result<RangeSet, AllocError>
    ensures { IfOk result (λ chars. set_of chars ≡ only_chars (in_set set)) }
{
    from_runs(alloc, &set.ranges(alloc)?)
}
