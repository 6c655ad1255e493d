//! Functions that collect the warnings of a file, and print the warnings as a report or as JSON.
//! Called by `logos_cli`, `logos_expand` and `logos_show`.

ghost use Rattle.std.specs.Prelude.{◌≡◌, ◌++◌, ◌∷◌, All, IfOk, OnOk, [], map, string_bytes};
ghost use Rattle.logos_file_warnings.specs.Imports.{AddsMissing, AddsMoved, AreOfLexer, AreOfText, AreWarnings, Gains, InReport, IsPassedOver, Shows, ShowsWarnings, denied_line, has_lexer, missing_line, missing_texts, moved, moved_span, reports_missing, shown_of, tokens_of, warnings_texts};

use logos_causes::{Lexer, accepted_warnings};
use logos_host::MessageFormat;
use logos_messages::push_warning_messages;
use logos_page::Page;
use logos_report::{Part, Source, Warning, push_warnings};
use logos_rust_file::FoundEnum;
use logos_token::error::Memory;
use logos_token::token::{Span, Tokens};
use logos_warnings::{Origin, enum_warnings, fixed_warning, passed_over};
use std::alloc::{AllocError, Global};

/// The form of the messages about the faults and warnings of a file.
#[derive(Clone, Copy)]
pub struct Showing {
    /// The allocator for messages.
    pub alloc: Global,
    pub format: MessageFormat,
    /// Whether messages have colors.
    pub is_colored: bool,
    /// Whether a file with warnings is refused, because warnings are denied.
    pub denies: bool,
}

/// Appends `warnings` about a text to `warned`. The text begins at the byte offset `offset` of a
/// file, and the spans of the warnings become spans in the file.
///
/// # Errors
///
/// Returns `Memory` if memory runs out. Some of the warnings may then have been appended.
pub fn add_warnings(
    offset: usize,
    warnings: Vec<Warning>,
    warned: &mut Vec<Warning>,
) -> Result<(), Memory>
    ensures { OnOk result (warned.new.items
        ≡ warned.old.items ++ map (moved offset) warnings.items) }
{
    for warning in warnings {
        warned.push(moved(warning, offset))?;
    }
    Ok(())
}

/// Returns `warning` with `offset` added to the offsets of its spans.
fn moved(warning: Warning, offset: usize) -> Warning
    ensures { result ≡ moved offset warning }
{
    let mut moved = warning;
    moved.span = moved_span(moved.span, offset);
    moved.also = match moved.also {
        Some(span) => Some(moved_span(span, offset)),
        None => None,
    };
    moved
}

/// Returns `span` with `offset` added to its offsets.
fn moved_span(span: Span, offset: usize) -> Span
    ensures { result ≡ moved_span offset span }
{
    Span {
        from: span.from.saturating_add(offset),
        to: span.to.saturating_add(offset),
    }
}

/// Appends to `warned` the warnings for the enum that `text` spells. The text begins at the byte
/// offset `offset` of a file. `derives` is `true` if the enum derives `Logos`.
///
/// # Errors
///
/// Returns `Memory` if memory runs out. Some of the warnings may then have been appended.
pub fn add_text(
    text: &str,
    offset: usize,
    derives: bool,
    warned: &mut Vec<Warning>,
) -> Result<(), Memory>
    ensures { OnOk result (AddsMoved offset (AreOfText text.now derives Origin.File)
        warned.old.items warned.new.items) }
{
    let warnings = enum_warnings(*warned.allocator(), text, derives, Origin::File)?;
    add_warnings(offset, warnings, warned)?;
    Ok(())
}

/// Appends to `warned` the warnings for an enum without faults that derives `Logos`, and for its
/// lexer. The enum has the tokens `tokens`, and begins at the byte offset `offset` of a file.
///
/// # Errors
///
/// Returns `Memory` if memory runs out. Some of the warnings may then have been appended.
pub fn add_accepted(
    tokens: Tokens<'_, '_>,
    offset: usize,
    lexer: Lexer<'_, '_>,
    warned: &mut Vec<Warning>,
) -> Result<(), Memory>
    ensures { OnOk result (AddsMoved offset
        (AreOfLexer (tokens_of tokens.entry) lexer.entry.graph.now Origin.File)
        warned.old.items warned.new.items) }
{
    let warnings = accepted_warnings(*warned.allocator(), tokens, lexer, Origin::File)?;
    add_warnings(offset, warnings, warned)?;
    Ok(())
}

/// Appends to `warned` the warnings about entries of `derive` that are passed over in a file. The
/// file has the tokens `tokens` and the enums `found`.
///
/// # Errors
///
/// Returns `Memory` if memory runs out. Some of the warnings may then have been appended.
pub fn add_passed(
    tokens: Tokens<'_, '_>,
    found: &[FoundEnum],
    warned: &mut Vec<Warning>,
) -> Result<(), Memory>
    ensures { OnOk result (AddsMoved 0 (All IsPassedOver) warned.old.items warned.new.items) }
{
    let alloc = *warned.allocator();
    let spans = spans_of(alloc, found)?;
    let warnings = passed_over(alloc, tokens, &spans)?;
    add_warnings(0, warnings, warned)?;
    Ok(())
}

const MISSING: &str = "no enum in this file derives `Logos`";

/// Appends to `warned` the warning that no enum of a file derives `Logos`. Appends nothing if an
/// enum in `found` derives `Logos`, or if the format is not JSON and warnings are not denied. The
/// span of the warning is the empty span at the beginning of the file.
///
/// # Errors
///
/// Returns `Memory` if memory runs out. `warned` is then unchanged.
pub fn add_missing(
    showing: Showing,
    found: &[FoundEnum],
    warned: &mut Vec<Warning>,
) -> Result<(), Memory>
    ensures { OnOk result (AddsMissing (reports_missing showing.denies showing.format) found.now
        warned.old.items warned.new.items) }
{
    if !reports_missing(showing) || has_lexer(found) {
        return Ok(());
    }
    let start = Span { from: 0, to: 0 };
    warned.push(fixed_warning(showing.alloc, MISSING, start, None)?)?;
    Ok(())
}

/// Returns whether a file in which no enum derives `Logos` has a warning. Such a file has a warning
/// if the format is JSON or warnings are denied.
fn reports_missing(showing: Showing) -> bool
    ensures { result ≡ reports_missing showing.denies showing.format }
{
    match showing.format {
        MessageFormat::Human => showing.denies,
        MessageFormat::Json => true,
    }
}

/// Returns whether an enum in `found` derives `Logos`.
pub fn has_lexer(found: &[FoundEnum]) -> bool
    ensures { result ≡ has_lexer found.now }
{
    for one in found {
        if one.derives {
            return true;
        }
    }
    false
}

/// Returns the spans in the file of the enums in `found` that derive `Logos`, in the order of
/// `found`.
fn spans_of(alloc: Global, found: &[FoundEnum]) -> Result<Vec<Span>, AllocError> {
    let mut spans = Vec::new(alloc);
    for one in found {
        if one.derives {
            spans.push(one.span)?;
        }
    }
    Ok(spans)
}

/// Appends to `page` the report of the first 50 warnings in `warned`, and the number of further
/// warnings. The warnings are about the file `source`.
pub fn push_warned(page: &mut Page, source: &Source<'_>, warned: &[Warning])
    ensures { Shows (warnings_texts page.old.is_colored source.now 0 warned.now) page.old page.new }
{
    push_warnings(page, Part { source, offset: 0 }, warned);
}

/// Returns the text of the warnings `warned` about the file `source`, in the format of `showing`.
/// `is_missing` is `true` if no enum of the file derives `Logos`. A report then has a line about
/// the missing enum, but JSON has no such line.
///
/// # Errors
///
/// Returns `Memory` if memory runs out.
pub fn warning_text(
    source: &Source<'_>,
    showing: Showing,
    warned: &[Warning],
    is_missing: bool,
) -> Result<Vec<u8>, Memory>
    ensures { IfOk result (λ text. ShowsWarnings showing.format source.now warned.now
        (missing_texts source.now is_missing) text.items) }
{
    match showing.format {
        MessageFormat::Human => match warning_report(source, showing, warned, is_missing) {
            Ok(report) => Ok(report.into_bytes()),
            Err(AllocError) => Err(Memory),
        },
        MessageFormat::Json => warning_lines(showing.alloc, source, warned),
    }
}

/// Returns the report of the warnings `warned` about the file `source`. If `is_missing` is `true`,
/// the report ends with a line stating that no enum of the file derives `Logos`.
fn warning_report(
    source: &Source<'_>,
    showing: Showing,
    warned: &[Warning],
    is_missing: bool,
) -> Result<String, AllocError>
    ensures { IfOk result (λ report. InReport showing.is_colored
        (warnings_texts showing.is_colored source.now 0 warned.now
        ++ missing_texts source.now is_missing) (string_bytes report)) }
{
    let mut page = Page::new(showing.alloc, showing.is_colored);
    push_warned(&mut page, source, warned);
    push_missing(&mut page, source, is_missing);
    page.finish()
}

/// Appends to `page` the line stating that no enum of the file `source` derives `Logos`, or nothing
/// if `is_missing` is `false`.
fn push_missing(page: &mut Page, source: &Source<'_>, is_missing: bool)
    ensures { Shows (missing_texts source.now is_missing) page.old page.new }
{
    if is_missing {
        push_missing_line(page, source);
    }
}

/// Appends to `page` the line stating that no enum of the file `source` derives `Logos`.
fn push_missing_line(page: &mut Page, source: &Source<'_>)
    ensures { Gains (missing_line source.now) page.old page.new }
{
    page.push("warning: no enum in ");
    page.push_shown(source.path());
    page.push(" derives `Logos`\n");
}

/// Returns a line of JSON for each of the first 50 warnings in `warned` about the file `source`.
///
/// # Errors
///
/// Returns `Memory` if memory runs out.
pub fn warning_lines(
    alloc: Global,
    source: &Source<'_>,
    warned: &[Warning],
) -> Result<Vec<u8>, Memory>
    ensures { IfOk result (λ lines. AreWarnings source.now 0 (shown_of warned.now) lines.items) }
{
    let mut lines = Vec::new(alloc);
    push_warning_messages(alloc, &mut lines, Part { source, offset: 0 }, warned)?;
    Ok(lines)
}

/// Returns the text of the denied warnings `warned` about the file `source`. A report ends with a
/// line stating that warnings are denied.
///
/// # Errors
///
/// Returns `Memory` if memory runs out.
pub fn denial_text(
    source: &Source<'_>,
    showing: Showing,
    warned: &[Warning],
) -> Result<String, Memory>
    ensures { IfOk result (λ text. ShowsWarnings showing.format source.now warned.now
        (denied_line ∷ []) (string_bytes text)) }
{
    let text = text_of(warning_text(source, showing, warned, false)?)?;
    match showing.format {
        MessageFormat::Human => denied(text),
        MessageFormat::Json => Ok(text),
    }
}

/// Returns `report`, followed by a line stating that warnings are denied.
fn denied(report: String) -> Result<String, Memory>
    ensures { IfOk result (λ text. string_bytes text ≡ string_bytes report ++ denied_line) }
{
    let mut text = report;
    text.push_str("error: warnings are denied by `--deny-warnings`\n")?;
    Ok(text)
}

/// Returns the bytes `bytes` of a message as a text.
///
/// # Errors
///
/// Returns `Memory` if `bytes` is not UTF-8, which cannot happen with the bytes of a message.
pub fn text_of(bytes: Vec<u8>) -> Result<String, Memory>
    ensures { IfOk result (λ text. string_bytes text ≡ bytes.items) }
{
    match String::from_utf8(bytes) {
        Ok(text) => Ok(text),
        Err(_) => Err(Memory),
    }
}
