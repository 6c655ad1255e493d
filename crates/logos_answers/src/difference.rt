//! Functions that append, for an input on which two lexers differ, the match or the error that each
//! lexer finds first. Used by `callbacks`, `logos_records`, `logos_replies` and `logos_show`.

ghost use Rattle.std.specs.Prelude.{◌≡◌, ◌++◌, ℕ, List, OnOk, codes, if◌then◌else◌};
ghost use Rattle.logos_answers.specs.Imports.{Gains, difference_line, mode_line};

use crate::matches::{bytes_between, push_first};
use crate::names::variant_at;
use crate::quotes::push_quoted;
use logos_code::action::Action;
use logos_code::code::Code;
use logos_evidence::{Match, matches_from, winner};
use logos_graph::graph::Graph;
use logos_machine::machine::{Item, Lexer};
use logos_page::Page;
use logos_pattern::leaf::LeafId;
use std::alloc::{AllocError, Global};

/// A lexer, the path of its file, and the text of its enum.
#[derive(Clone, Copy)]
pub struct NamedLexer<'m, 's> {
    pub path: &'m str,
    /// The text of the enum. The spans of the graph's leaves are relative to this text.
    pub text: &'m str,
    pub graph: &'m Graph<'s>,
    pub code: &'m Code<'s>,
}

/// The match or the error that a lexer finds at the beginning of an input.
#[derive(Clone, Copy)]
pub struct Finding<'f> {
    /// The number of the match's leaf, or `None` if there is no match.
    pub leaf: Option<usize>,
    /// The name of the match's variant, or `None` if the match is a skip or there is no match.
    pub variant: Option<&'f str>,
    /// The bytes of the match or the error, or no bytes if the lexer finds neither.
    pub bytes: &'f [u8],
}

/// Appends a line for each of two lexers. The line states whether the lexer reads UTF-8 or any
/// bytes.
pub fn push_modes(page: &mut Page, one: NamedLexer<'_, '_>, other: NamedLexer<'_, '_>)
    ensures { Gains (mode_line one.entry.path.now one.entry.graph.now.utf8
        ++ mode_line other.entry.path.now other.entry.graph.now.utf8) page.old page.new }
{
    push_mode(page, one);
    push_mode(page, other);
}

/// Appends the line that states whether a lexer reads UTF-8 or any bytes.
fn push_mode(page: &mut Page, one: NamedLexer<'_, '_>)
    ensures { Gains (mode_line one.entry.path.now one.entry.graph.now.utf8) page.old page.new }
{
    page.push_shown(one.path);
    page.push(mode_text(one.graph.utf8_mode()));
}

/// Returns the text that follows the path of a lexer. The text states that the lexer reads UTF-8 if
/// `is_utf8` is `true`, and that it reads any bytes otherwise.
fn mode_text(is_utf8: bool) -> &'static str
    ensures { result.now ≡ (if is_utf8 then codes " reads UTF-8\n" else codes " reads any bytes\n") }
{
    if is_utf8 {
        " reads UTF-8\n"
    } else {
        " reads any bytes\n"
    }
}

/// Appends a line with `input`, on which two lexers differ, and a line for each lexer with the
/// match or the error that the lexer finds first in the input.
///
/// # Errors
///
/// Returns `AllocError` if memory runs out. Then nothing was appended.
pub fn push_difference(
    alloc: Global,
    page: &mut Page,
    one: NamedLexer<'_, '_>,
    other: NamedLexer<'_, '_>,
    input: &[u8],
) -> Result<(), AllocError>
    ensures { OnOk result ((findings : List ℕ)
        × Gains (difference_line input.now ++ findings) page.old page.new) }
{
    let findings = findings_text(alloc, one, other, input)?;
    push_input(page, input);
    page.push(findings.as_str());
    Ok(())
}

/// Appends the line with an input on which two lexers differ.
fn push_input(page: &mut Page, input: &[u8])
    ensures { Gains (difference_line input.now) page.old page.new }
{
    page.push("the lexers differ on ");
    push_quoted(page, input);
    page.push("\n");
}

/// Returns the lines with the match or the error that each of two lexers finds at the beginning of
/// an input.
fn findings_text(
    alloc: Global,
    one: NamedLexer<'_, '_>,
    other: NamedLexer<'_, '_>,
    input: &[u8],
) -> Result<String, AllocError> {
    let mut page = Page::new(alloc, false);
    push_finding(alloc, &mut page, one, input)?;
    push_finding(alloc, &mut page, other, input)?;
    page.finish()
}

/// Appends the line with the match or the error that a lexer finds at the beginning of an input.
fn push_finding(
    alloc: Global,
    page: &mut Page,
    one: NamedLexer<'_, '_>,
    input: &[u8],
) -> Result<(), AllocError> {
    page.push_shown(one.path);
    page.push(" finds ");
    if !push_first(alloc, page, one.graph, input)? {
        push_error(page, first_error(one.code, input));
    }
    page.push("\n");
    Ok(())
}

/// Appends `an error, ` and the bytes of `error` in quotes, or `nothing` if `error` is empty.
fn push_error(page: &mut Page, error: &[u8]) {
    if error.is_empty() {
        page.push("nothing");
    } else {
        page.push("an error, ");
        push_quoted(page, error);
    }
}

/// Returns the bytes of the error that a lexer finds at the beginning of an input, or no bytes if
/// there is no such error.
fn first_error<'i>(code: &Code<'_>, input: &'i [u8]) -> &'i [u8] {
    let emit = |_leaf: LeafId, _slice: &[u8]| Action::Emit;
    let Ok(lexer) = Lexer::new_bytes(code, input, emit) else {
        return &[];
    };
    let mut lexer = lexer;
    match lexer.next() {
        Some(Item::Error { slice, .. }) => slice,
        _ => &[],
    }
}

/// Returns the match or the error that a lexer finds at the beginning of an input.
///
/// # Errors
///
/// Returns `AllocError` if memory runs out.
pub fn finding_of<'f>(
    alloc: Global,
    one: NamedLexer<'f, '_>,
    input: &'f [u8],
) -> Result<Finding<'f>, AllocError> {
    let matches = matches_from(alloc, one.graph, input, 0)?;
    match winner(&matches) {
        Some(found) => Ok(finding_by(one, input, found)),
        None => Ok(Finding {
            leaf: None,
            variant: None,
            bytes: first_error(one.code, input),
        }),
    }
}

/// Returns the finding for the match `found` at the beginning of an input.
fn finding_by<'f>(one: NamedLexer<'f, '_>, input: &'f [u8], found: Match) -> Finding<'f> {
    Finding {
        leaf: Some(found.leaf),
        variant: variant_at(one.graph.leaves(), found.leaf),
        bytes: bytes_between(input, 0, found.end),
    }
}
