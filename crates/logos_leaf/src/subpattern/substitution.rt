//! Substitutes subpatterns in the text of a pattern. `subpattern` calls `substituted` for each
//! subpattern and for each leaf of a `regex` or `skip`.

ghost use Rattle.std.specs.Prelude.{◌≡◌, ℕ, List, ◌+◌, ◌<◌, ◌++◌, ◌∷◌, [], length, drop, option_map, chars, OnOk, IfOk, MatchOption, string_bytes};
ghost use Rattle.logos_leaf.specs.subpattern.Views.{IsReport, AddsFault, is_word, word_front, word_rest, closed, reference, parts, encoded, subpattern_missing, subst_report, part_report, name_report, text_of, names_of, part_of, text_view};

use crate::subpattern::Subpatterns;
use logos_attribute::reports::report_named;
use logos_token::error::{Errors, FaultCode, Memory};
use logos_token::token::{Ident, Span};
use std::alloc::{AllocError, Global};

/// A part of a pattern's text: a character or a use of a subpattern.
#[derive(Clone, Copy)]
pub(crate) enum TextPart<'a> {
    /// A character that does not belong to a use `(?&name)` of a subpattern.
    Itself(char),
    /// The name in a use `(?&name)` of a subpattern.
    Used(&'a [char]),
}

/// The subpatterns of a lexer, and the span at which missing subpatterns are reported.
#[derive(Clone, Copy)]
struct Lookup<'p, 's> {
    subpatterns: &'p Subpatterns<'s>,
    span: Span,
}

/// A prefix of a text, with its subpatterns substituted.
#[derive(Drop)]
struct Text {
    text: String,
    /// Whether each name in the prefix is the name of a subpattern.
    complete: bool,
}

/// Returns whether `c` can occur in the name of a subpattern.
fn is_word(c: char) -> bool
    ensures { result ≡ is_word c }
{
    ((('/' < c) & (c < ':')) | (('@' < c) & (c < '['))) | ((('`' < c) & (c < '{')) | (c == '_'))
}

/// Splits a text after the longest prefix whose characters can all occur in a name. Returns the
/// prefix, which can be empty, and the rest.
fn word_in(text: &[char]) -> (&[char], &[char])
    ensures front { result.0.now ≡ word_front text.now }
    ensures rest { result.1.now ≡ word_rest text.now }
{
    let mut end = 0;
    while end < text.len() && is_word(text[end]) {
        end += 1;
    }
    (&text[..end], &text[end..])
}

/// Returns the text after `(?&`, or `None` if the text does not begin with `(?&`.
fn after_opening(text: &[char]) -> Option<&[char]>
    ensures { MatchOption result
        (reference text.now ≡ None)
        (λ rest. text.now ≡ 40 ∷ 63 ∷ 38 ∷ rest.now) }
{
    match text {
        [a, b, c, rest @ ..] if (*a == '(') & ((*b == '?') & (*c == '&')) => Some(rest),
        _ => None,
    }
}

/// Returns the text after `)`, or `None` if the text does not begin with `)`.
fn after_closing(text: &[char]) -> Option<&[char]>
    ensures { MatchOption result
        ((name : List ℕ) → closed name text.now ≡ None)
        (λ rest. text.now ≡ 41 ∷ rest.now) }
{
    let (first, rest) = text.split_first()?;
    if *first == ')' { Some(rest) } else { None }
}

/// Returns the name in the `(?&name)` at the beginning of a text, and the text after the `)`.
/// Returns `None` if the text does not begin with a use of this form.
fn reference_at(text: &[char]) -> Option<(&[char], &[char])>
    ensures { MatchOption result
        (reference text.now ≡ None)
        (λ read. (reference text.now ≡ Some read.0.now)
        × (read.1.now ≡ drop (4 + length read.0.now) text.now)) }
{
    let rest = after_opening(text)?;
    let (name, after) = word_in(rest);
    if name.is_empty() {
        return None;
    }
    let Some(rest) = after_closing(after) else {
        return None;
    };
    Some((name, rest))
}

/// Returns the first part of a text, and the text after the part. Returns `None` if the text is
/// empty.
pub(crate) fn part_at(text: &[char]) -> Option<(TextPart<'_>, &[char])>
    ensures { MatchOption result
        (parts 0 text.now ≡ [])
        (λ read. (parts 0 text.now ≡ part_of read.0 ∷ parts 0 read.1.now)
        × (length read.1.now < length text.now)) }
{
    let (first, rest) = text.split_first()?;
    if let Some((name, after)) = reference_at(text) {
        return Some((TextPart::Used(name), after));
    }
    Some((TextPart::Itself(*first), rest))
}

/// Returns `characters` encoded as UTF-8.
pub(crate) fn encoded(alloc: Global, characters: &[char]) -> Result<String, AllocError>
    ensures { IfOk result (λ text. string_bytes text ≡ encoded characters.now) }
{
    let mut text = String::new(alloc);
    for character in characters {
        text.push(*character)?;
    }
    Ok(text)
}

/// Reports that there is no subpattern called `name`.
fn report_missing(name: &str, span: Span, errors: &mut Errors) -> Result<(), Memory>
    ensures { OnOk result (AddsFault (subpattern_missing span name.now) errors.old errors.new) }
{
    let missing = Ident { text: name, span };
    report_named(
        errors,
        FaultCode::SubpatternMissing,
        "Subpattern `",
        missing,
        "` not found",
    )
}

impl Text {
    /// Appends the text of the subpattern that is called `name`, or reports that there is no such
    /// subpattern.
    fn add_name(
        &mut self,
        lookup: Lookup<'_, '_>,
        name: &str,
        errors: &mut Errors,
    ) -> Result<(), Memory>
        ensures { OnOk result (IsReport
            (name_report lookup.entry.span name.now (text_view self.old)
            (text_of (names_of lookup.entry.subpatterns.now) name.now))
            (text_view self.new) errors.old errors.new) }
    {
        match lookup.subpatterns.find(name) {
            Some(text) => self.text.push_str(text)?,
            None => {
                report_missing(name, lookup.span, errors)?;
                self.complete = false;
            }
        }
        Ok(())
    }

    /// Appends `part` if it is a character, and otherwise the text of the subpattern that is used.
    /// Reports a missing subpattern.
    fn add(
        &mut self,
        lookup: Lookup<'_, '_>,
        part: TextPart<'_>,
        errors: &mut Errors,
    ) -> Result<(), Memory>
        ensures { OnOk result (IsReport
            (part_report (names_of lookup.entry.subpatterns.now) lookup.entry.span
            (part_of part.entry) (text_view self.old))
            (text_view self.new) errors.old errors.new) }
    {
        match part {
            TextPart::Itself(character) => self.text.push(character)?,
            TextPart::Used(name) => {
                let name = encoded(errors.alloc(), name)?;
                self.add_name(lookup, name.as_str(), errors)?;
            }
        }
        Ok(())
    }
}

/// Returns the characters of `text`.
pub(crate) fn characters(alloc: Global, text: &str) -> Result<Vec<char>, AllocError>
    ensures { IfOk result (λ v. v.items ≡ chars text.now) }
{
    text.chars().collect(alloc)
}

/// Returns the text of `characters` with each subpattern substituted. If subpatterns are missing,
/// reports each of them and returns `None`.
fn put_together(
    lookup: Lookup<'_, '_>,
    characters: &[char],
    errors: &mut Errors,
) -> Result<Option<String>, Memory>
    ensures { IfOk result (λ text.
        IsReport
        (subst_report (names_of lookup.entry.subpatterns.now) lookup.entry.span characters.now)
        (option_map string_bytes text) errors.old errors.new) }
{
    let mut text = Text {
        text: String::new(errors.alloc()),
        complete: true,
    };
    let mut rest = characters;
    while let Some((part, after)) = part_at(rest) {
        text.add(lookup, part, errors)?;
        rest = after;
    }
    if text.complete {
        return Ok(Some(text.text));
    }
    Ok(None)
}

/// Returns `text` with each subpattern substituted. If subpatterns are missing, reports each of
/// them at `span` and returns `None`.
pub(crate) fn substituted(
    subpatterns: &Subpatterns<'_>,
    text: &str,
    span: Span,
    errors: &mut Errors,
) -> Result<Option<String>, Memory>
    ensures { IfOk result (λ whole.
        IsReport (subst_report (names_of subpatterns.now) span (chars text.now))
        (option_map string_bytes whole) errors.old errors.new) }
{
    let characters = characters(errors.alloc(), text)?;
    put_together(Lookup { subpatterns, span }, &characters, errors)
}
