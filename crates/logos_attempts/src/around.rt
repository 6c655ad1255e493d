//! Finds the match or the error around an offset of an input. Called by `entries`, `partial_lines`
//! and `logos_replies`.

ghost use Rattle.std.specs.Prelude.{◌≡◌, ◌<◌, ◌≤◌, ℕ, List, IfSome, length};
ghost use Rattle.logos_attempts.specs.Views.{Finds, Gains, IsAround, IsAroundText, LeadsTo, around_text, kind_text, location_in, location_text};

use logos_answers::{bytes_between, push_leaf, push_quoted};
use logos_code::code::Code;
use logos_lines::{Cursor, Location};
use logos_machine::machine::walk::{Outcome, attempt};
use logos_page::Page;
use logos_pattern::leaf::Leaf;
use std::str;

/// The kind of match or error that a match attempt finds.
#[derive(Clone, Copy, Debug, PartialEq, Eq)]
pub enum SurroundingKind {
    /// A skipped match.
    Skip,
    /// A match that is not skipped, with the index of its leaf.
    Leaf(usize),
    /// Bytes that no leaf matches.
    Error,
}

/// A match or an error that a lexer finds, with its span in the input, in bytes.
#[derive(Clone, Copy, Debug, PartialEq, Eq)]
pub struct Surrounding {
    pub kind: SurroundingKind,
    pub from: usize,
    pub to: usize,
}

/// Returns the match or the error that a lexer finds around the byte `offset` of an input. The
/// match or error begins before the offset and ends after it. The lexer begins at the first byte,
/// and calls no callback. Returns `None` if there is no such match or error, or if the lexer
/// refuses the input because the input is not UTF-8.
pub fn match_around(code: &Code<'_>, input: &[u8], offset: usize) -> Option<Surrounding>
    requires { offset ≤ length input.now }
    ensures { IfSome result (IsAround code.now input.now offset) }
{
    if is_refused(code, input) {
        return None;
    }
    found_around(code, input, offset)
}

/// Returns whether a lexer refuses an input because the input is not UTF-8.
fn is_refused(code: &Code<'_>, input: &[u8]) -> bool {
    code.is_utf8() & str::from_utf8(input).is_err()
}

/// Returns the match or the error that begins before the byte `offset` of an input and ends after
/// this offset, or `None` if there is none.
fn found_around(code: &Code<'_>, input: &[u8], offset: usize) -> Option<Surrounding>
    requires { offset ≤ length input.now }
    ensures { IfSome result (IsAround code.now input.now offset) }
{
    let mut at = 0;
    while at < offset {
        let found = found_at(code, input, at);
        if offset < found.to {
            return Some(found);
        }
        at = found.to;
    }
    None
}

/// Returns the match or the error that begins at the byte offset `from`. The offset must be before
/// the end of the input.
pub(crate) fn found_at(code: &Code<'_>, input: &[u8], from: usize) -> Surrounding
    requires { from < length input.now }
    ensures finds { Finds code.now input.now result }
    ensures from { result.from ≡ from }
    ensures past { from < result.to }
{
    match attempt(code, input, from) {
        Outcome::Skips(to) => around_of(SurroundingKind::Skip, from, to),
        Outcome::Emits(leaf, to, _) => around_of(SurroundingKind::Leaf(leaf.0), from, to),
        Outcome::CallsBack(leaf, to, _) => around_of(SurroundingKind::Leaf(leaf.0), from, to),
        Outcome::Fails(to, _) => around_of(SurroundingKind::Error, from, to),
        Outcome::Ends(_) => around_of(SurroundingKind::Error, from, input.len()),
    }
}

/// Returns a match or an error of the kind `kind` with the span `from..to`.
fn around_of(kind: SurroundingKind, from: usize, to: usize) -> Surrounding
    ensures { result ≡ record { kind = kind; from = from; to = to } }
{
    Surrounding { kind, from, to }
}

/// Appends a line with the match or the error that begins before the byte `offset` of an input and
/// ends after this offset. Appends nothing if there is none.
pub fn push_around(
    page: &mut Page,
    code: &Code<'_>,
    leaves: &[Leaf<'_>],
    input: &[u8],
    offset: usize,
)
    requires { offset ≤ length input.now }
    ensures { (text : List ℕ) × IsAroundText code.now leaves.now input.now offset text
        × Gains text page.old page.new }
{
    if let Some(found) = match_around(code, input, offset) {
        push_found(page, leaves, input, found);
    }
}

/// Appends the line of a match or an error: its kind, the locations of its start and its end, and
/// its text.
fn push_found(page: &mut Page, leaves: &[Leaf<'_>], input: &[u8], found: Surrounding)
    ensures { Gains (around_text leaves.now input.now found) page.old page.new }
{
    page.push("inside ");
    push_kind(page, leaves, found.kind);
    page.push(" from ");
    push_location(page, location_in(input, found.from));
    page.push(" to ");
    push_location(page, location_in(input, found.to));
    page.push("  ");
    push_quoted(page, bytes_between(input, found.from, found.to));
    page.push("\n");
}

/// Appends the kind of a match or an error: a skipped match, the leaf, or an error.
fn push_kind(page: &mut Page, leaves: &[Leaf<'_>], kind: SurroundingKind)
    ensures { Gains (kind_text leaves.now kind) page.old page.new }
{
    match kind {
        SurroundingKind::Skip => page.push("a skipped match"),
        SurroundingKind::Leaf(leaf) => push_leaf(page, leaves, leaf),
        SurroundingKind::Error => page.push("an error"),
    }
}

/// Returns the location of the byte `offset` of an input, or of the end of the input if the offset
/// is past the end.
pub(crate) fn location_in(input: &[u8], offset: usize) -> Location
    ensures { result ≡ location_in input.now offset }
{
    let mut cursor = Cursor::new(input);
    cursor.go_to(offset);
    cursor.location()
}

/// Appends a location as `line:column`.
pub(crate) fn push_location(page: &mut Page, location: Location)
    ensures { Gains (location_text location) page.old page.new }
{
    page.push_number(location.line);
    page.push(":");
    page.push_number(location.column);
}
