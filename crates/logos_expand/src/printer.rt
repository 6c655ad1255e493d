//! Prints the replacement of an enum: the enum without the derive and its attributes, followed by
//! the implementation. Called by `expansion`.

ghost use Rattle.std.specs.Prelude.{◌≡◌, ◌++◌, true, IfOk, OnOk, string_bytes};
ghost use Rattle.logos_expand.specs.Views.{around_made, tokens_of, IsLaidOut, IsGuard, IsGuarded, are_blanks, guard_text, import_under, lexer_under, under, IsPrintedWith};

use logos_codegen::Generated;
use logos_codegen::error::Memory;
use logos_codegen::token::Tokens;
use logos_layout::{Note, Setting, lay_out, push_conditions, write_left};
use logos_report::Source;
use logos_tables::{Shape, lexer_text};
use logos_text::{Call, Sink};
use std::alloc::Global;

/// The file and the byte offset of an enum, with the shape of the enum's lexer.
#[derive(Clone, Copy)]
pub(crate) struct Site<'f, 't> {
    /// The shape of the lexer of the enum.
    pub(crate) shape: Shape,
    /// The file that contains the enum.
    pub(crate) file: &'f Source<'t>,
    /// The byte offset of the enum in the file.
    pub(crate) offset: usize,
    /// Whether the file may import `Logos` and the enum derives `Logos` without a path.
    pub(crate) by_name: bool,
}

/// The import of `Logos`, marked as used.
const IMPORT: &str = "#[allow(unused_imports)]\nuse self::Logos as _;\n";

/// The attributes of an implementation. The attributes disable rustfmt, and the lints of rustc and
/// clippy that generated code violates.
const ATTRIBUTES: &str = "\
#[allow(dead_code, deprecated, unused_assignments, unused_imports)]
#[allow(unused_parens, unused_variables)]
#[allow(clippy::large_const_arrays, clippy::let_unit_value, clippy::manual_is_ascii_check)]
#[allow(clippy::manual_range_contains, clippy::needless_else, clippy::question_mark)]
#[allow(clippy::redundant_locals, clippy::type_complexity, clippy::unit_arg)]
#[allow(clippy::useless_asref, clippy::useless_conversion)]
#[rustfmt::skip]
";

/// The line with the attribute that excludes an enum from rustfmt.
const GUARD: &str = "#[rustfmt::skip]\n";

/// Returns the replacement of an enum: the text that `guarded` returns, followed by an LF and the
/// implementation from `made`. The implementation is laid out in lines. `left` contains the tokens
/// of `source` that remain in the enum.
pub(crate) fn printed_with(
    alloc: Global,
    source: &str,
    left: Tokens<'_, '_>,
    site: Site<'_, '_>,
    made: &Generated<'_>,
) -> Result<String, Memory>
    ensures { IfOk result (λ text.
        IsPrintedWith site.entry.shape (around_made made.now) made.now.code
        (tokens_of left.entry) (string_bytes text)) }
{
    let lexer = lexer_text(alloc, site.shape, made)?;
    let whole = under(alloc, site.by_name, left, lexer.text.as_str())?;
    let laid = laid_out(alloc, whole.as_str(), site, &lexer)?;
    let mut text = guarded(alloc, source, left, site)?;
    text.push('\n')?;
    text.push_str(laid.as_str())?;
    Ok(text)
}

/// Returns the text of `left`, which contains the remaining tokens of `source`. `#[rustfmt::skip]`
/// precedes the text if rustfmt would otherwise change the text.
fn guarded(
    alloc: Global,
    source: &str,
    left: Tokens<'_, '_>,
    site: Site<'_, '_>,
) -> Result<String, Memory>
    ensures { IfOk result (λ text. IsGuarded (tokens_of left.entry) (string_bytes text)) }
{
    let written = write_left(alloc, source, left)?;
    let mut text = guard_of(alloc, written.as_str(), site)?;
    text.push_str(written.as_str())?;
    Ok(text)
}

/// Returns the line that excludes the enum `written` from rustfmt, followed by the blanks that
/// precede the enum in the file. Returns an empty text if rustfmt would not change the enum.
fn guard_of(alloc: Global, written: &str, site: Site<'_, '_>) -> Result<String, Memory>
    ensures { IfOk result (λ guard. IsGuard (string_bytes guard)) }
{
    let mut guard = String::new(alloc);
    if has_last_comma(written.as_bytes()) {
        push_guard(&mut guard, margin_at(site.file.text(), site.offset))?;
    }
    Ok(guard)
}

/// Appends to `text` the line that excludes an enum from rustfmt, followed by `margin`. `margin`
/// must consist of the blanks before the enum.
fn push_guard(text: &mut String, margin: &str) -> Result<(), Memory>
    ensures { OnOk result (string_bytes text.new
        ≡ string_bytes text.old ++ (guard_text ++ margin.now)) }
{
    text.push_str(GUARD)?;
    text.push_str(margin)?;
    Ok(())
}

/// Returns whether `bytes` contain a comma followed by a closing parenthesis, with or without white
/// space between the comma and the parenthesis. The removal of the last entry of a `derive` leaves
/// such a comma.
fn has_last_comma(bytes: &[u8]) -> bool {
    let mut last = b' ';
    for byte in bytes {
        if (last == b',') & (*byte == b')') {
            return true;
        }
        last = last_of(last, *byte);
    }
    false
}

/// Returns `byte`, or `last` if `byte` is white space.
fn last_of(last: u8, byte: u8) -> u8 {
    if byte.is_ascii_whitespace() {
        last
    } else {
        byte
    }
}

/// Returns the blanks between the beginning of a line and the byte offset `offset` of a text.
/// Returns an empty text if the line has any other bytes before the offset, or if no character
/// begins at the offset.
fn margin_at(text: &str, offset: usize) -> &str
    ensures { are_blanks result.now ≡ true }
{
    let Some((before, _)) = text.split_at_checked(offset) else {
        return "";
    };
    let line = last_line(before);
    if are_blanks(line.as_bytes()) {
        line
    } else {
        ""
    }
}

/// Returns the text after the last LF of `text`, or all of `text` if `text` has no LF.
fn last_line(text: &str) -> &str {
    match text.rsplit_once('\n') {
        Some((_, line)) => line,
        None => text,
    }
}

/// Returns whether all of `bytes` are spaces or tabs.
fn are_blanks(bytes: &[u8]) -> bool
    ensures { result ≡ are_blanks bytes.now }
{
    for byte in bytes {
        if (*byte != b' ') & (*byte != b'\t') {
            return false;
        }
    }
    true
}

/// Returns the text `whole` laid out in lines. `whole` ends with the text of `lexer`. Before each
/// call of a callback, a comment names the line of the callback in the file.
fn laid_out(alloc: Global, whole: &str, site: Site<'_, '_>, lexer: &Sink) -> Result<String, Memory>
    ensures { IfOk result (λ laid. IsLaidOut whole.now (string_bytes laid)) }
{
    let start = whole.len().saturating_sub(lexer.text.len());
    let notes = notes_of(alloc, start, site, &lexer.calls)?;
    let margin = margin_at(site.file.text(), site.offset);
    let setting = Setting {
        margin,
        notes: &notes,
    };
    lay_out(alloc, whole, setting)
}

/// Returns a comment for each of `calls`, the calls of callbacks in the text of a lexer. Each
/// comment names the line of the callback in the file. The text of the lexer begins at the byte
/// offset `start` of the text that is laid out.
fn notes_of(
    alloc: Global,
    start: usize,
    site: Site<'_, '_>,
    calls: &[Call],
) -> Result<Vec<Note>, Memory> {
    let mut notes = Vec::new(alloc);
    for call in calls {
        let from = site.offset.saturating_add(call.from);
        notes.push(Note {
            offset: start.saturating_add(call.offset),
            line: site.file.location(from).line,
        })?;
    }
    Ok(notes)
}

/// Returns the text `lexer` with the attributes of an implementation. The import of `Logos`
/// precedes the text if `by_name` is `true`. Both the import and `lexer` have the `cfg` attributes
/// of the enum with the tokens `left`.
fn under(alloc: Global, by_name: bool, left: Tokens<'_, '_>, lexer: &str) -> Result<String, Memory>
    ensures { IfOk result (λ text.
        string_bytes text ≡ under by_name (tokens_of left.entry) lexer.now) }
{
    let mut text = String::new(alloc);
    push_import(alloc, &mut text, by_name, left)?;
    push_lexer(alloc, &mut text, left, lexer)?;
    Ok(text)
}

/// Appends the import of `Logos` to `text`, with the `cfg` attributes of the enum with the tokens
/// `left`. Appends nothing if `by_name` is `false`.
fn push_import(
    alloc: Global,
    text: &mut String,
    by_name: bool,
    left: Tokens<'_, '_>,
) -> Result<(), Memory>
    ensures { OnOk result (string_bytes text.new
        ≡ string_bytes text.old ++ import_under by_name (tokens_of left.entry)) }
{
    if !by_name {
        return Ok(());
    }
    push_conditions(alloc, text, left)?;
    text.push_str(IMPORT)?;
    Ok(())
}

/// Appends the text `lexer` to `text`, with the attributes of an implementation and the `cfg`
/// attributes of the enum with the tokens `left`.
fn push_lexer(
    alloc: Global,
    text: &mut String,
    left: Tokens<'_, '_>,
    lexer: &str,
) -> Result<(), Memory>
    ensures { OnOk result (string_bytes text.new
        ≡ string_bytes text.old ++ lexer_under (tokens_of left.entry) lexer.now) }
{
    push_conditions(alloc, text, left)?;
    text.push_str(ATTRIBUTES)?;
    text.push_str(lexer)?;
    Ok(())
}
