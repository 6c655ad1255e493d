//! Turns atoms into trees. The stack of groups calls `atom_tree` for each atom.

ghost use Rattle.std.specs.Prelude.{◌≡◌, ◌==◌, IfOk, encode_utf8, if◌then◌else◌};
ghost use Rattle.logos_syntax.specs.Imports.{literal, tree_of, only_chars, set_of, set_or_complement, case_closure, one_of, same_as, character_tree, byte_tree, dot_set, start_look, end_look, atom_tree, atom_fits};

use crate::bracket::translation::{case_closure, number_set, set_or_complement};
use logos_hir::builder;
use logos_hir::hir::{Hir, Look, Range};
use logos_hir::property::{perl_set, property_set};
use logos_hir::sets::RangeSet;
use logos_pattern_tokens::token::{Atom, Flags};
use std::alloc::{AllocError, Global};

/// Returns the tree that matches one character of the set, or one byte of the set if the pattern
/// matches bytes.
pub(crate) fn one_of(alloc: Global, flags: Flags, set: RangeSet) -> Result<Hir, AllocError>
    ensures { IfOk result (λ hir. tree_of hir ≡ one_of flags (set_of set)) }
{
    if flags.unicode {
        return builder::char_class(alloc, set);
    }
    builder::byte_class(alloc, set)
}

/// Returns the set that contains only the number `code`. If the flag `i` is on, the set also
/// contains the numbers that differ from `code` only in case.
fn same_as(alloc: Global, flags: Flags, code: u32) -> Result<RangeSet, AllocError>
    ensures { IfOk result (λ set. set_of set ≡ same_as flags code) }
{
    let only = number_set(alloc, code)?;
    case_closure(alloc, flags, only)
}

/// Returns the tree that matches the UTF-8 encoding of a character.
fn encoding(alloc: Global, c: char) -> Result<Hir, AllocError>
    ensures { IfOk result (λ hir. tree_of hir ≡ literal (encode_utf8 c)) }
{
    let mut buffer = [0; 4];
    let bytes = c.encode_utf8(&mut buffer).as_bytes();
    Ok(Hir::Literal(Vec::from_slice(alloc, bytes)?))
}

/// Returns the tree that matches a character, in both cases if the flag `i` is on. If the pattern
/// matches bytes, only ASCII letters match in both cases.
fn character(alloc: Global, flags: Flags, c: char) -> Result<Hir, AllocError>
    ensures { IfOk result (λ hir. tree_of hir ≡ character_tree flags c) }
{
    if flags.ignore_case && (flags.unicode || c.is_ascii()) {
        return one_of(alloc, flags, same_as(alloc, flags, c as u32)?);
    }
    encoding(alloc, c)
}

/// Returns the tree that matches the byte `b` if the pattern matches bytes, and the character with
/// the number `b` otherwise. The tree matches in both cases of letters if the flag `i` is on.
fn byte(alloc: Global, flags: Flags, b: u8) -> Result<Hir, AllocError>
    ensures { IfOk result (λ hir. tree_of hir ≡ byte_tree flags b) }
{
    if flags.unicode {
        return character(alloc, flags, b as char);
    }
    if flags.ignore_case {
        return builder::byte_class(alloc, same_as(alloc, flags, b as u32)?);
    }
    Ok(Hir::Literal(Vec::from_slice(alloc, &[b])?))
}

/// Returns the set of the characters that `.` matches: all characters if the flag `s` is on, all
/// except LF and CR if the flag `R` is on, and all except LF otherwise.
fn dot_set(alloc: Global, flags: Flags) -> Result<RangeSet, AllocError>
    ensures { IfOk result (λ set. set_of set ≡ dot_set flags) }
{
    let last = 0x10_FFFF;
    if flags.dot_all {
        return RangeSet::from_ranges(alloc, &[Range::new(0, last)]);
    }
    if flags.crlf {
        let ends = [Range::new(0, 9), Range::new(11, 12), Range::new(14, last)];
        return RangeSet::from_ranges(alloc, &ends);
    }
    RangeSet::from_ranges(alloc, &[Range::new(0, 9), Range::new(11, last)])
}

/// Returns the look-around assertion that `^` denotes.
fn start_look(flags: Flags) -> Look
    ensures { result ≡ start_look flags }
{
    match (flags.multi_line, flags.crlf) {
        (false, _) => Look::Start,
        (true, false) => Look::StartLF,
        (true, true) => Look::StartCRLF,
    }
}

/// Returns the look-around assertion that `$` denotes.
fn end_look(flags: Flags) -> Look
    ensures { result ≡ end_look flags }
{
    match (flags.multi_line, flags.crlf) {
        (false, _) => Look::End,
        (true, false) => Look::EndLF,
        (true, true) => Look::EndCRLF,
    }
}

/// Returns the look-around assertion of a word boundary, or of its negation if `negated` is `true`.
fn boundary(negated: bool) -> Look
    ensures { result ≡ (if negated then Look.WordAsciiNegate else Look.WordAscii) }
{
    if negated {
        Look::WordAsciiNegate
    } else {
        Look::WordAscii
    }
}

/// Returns the tree that matches one member of a class. If `negated` is `true`, the tree matches
/// one member of the complement of the class instead. The class contains the members of `set` and,
/// if the flag `i` is on, the other cases of these members.
fn class(alloc: Global, flags: Flags, negated: bool, set: RangeSet) -> Result<Hir, AllocError>
    ensures { IfOk result (λ hir. tree_of hir ≡
        one_of flags (set_or_complement flags negated (case_closure flags (set_of set)))) }
{
    let same_letters = case_closure(alloc, flags, set)?;
    one_of(
        alloc,
        flags,
        set_or_complement(flags, negated, same_letters)?,
    )
}

/// Returns the tree that an atom denotes under the flags `flags`.
pub(crate) fn atom_tree(alloc: Global, flags: Flags, atom: Atom) -> Result<Hir, AllocError>
    ensures { IfOk result (λ hir. tree_of hir ≡ atom_tree flags atom) }
{
    match atom {
        Atom::Character(c) => character(alloc, flags, c),
        Atom::Byte(b) => byte(alloc, flags, b),
        Atom::Dot => one_of(alloc, flags, dot_set(alloc, flags)?),
        Atom::Caret => Ok(builder::look(start_look(flags))),
        Atom::Dollar => Ok(builder::look(end_look(flags))),
        Atom::TextStart => Ok(builder::look(Look::Start)),
        Atom::TextEnd => Ok(builder::look(Look::End)),
        Atom::Boundary(negated) => Ok(builder::look(boundary(negated))),
        Atom::Perl(kind, negated) => class(
            alloc,
            flags,
            negated,
            perl_set(alloc, kind, flags.unicode)?,
        ),
        Atom::Property(set, negated) => class(alloc, flags, negated, property_set(alloc, set)?),
    }
}

/// Returns whether the flags allow the atom. A word boundary is allowed if the pattern matches
/// bytes, and a property if it matches characters.
pub(crate) fn atom_fits(flags: Flags, atom: Atom) -> bool
    ensures { result ≡ atom_fits flags atom }
{
    match atom {
        Atom::Boundary(_) => !flags.unicode,
        Atom::Property(_, _) => flags.unicode,
        _ => true,
    }
}
