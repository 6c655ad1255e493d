//! Contains functions that find the texts of enums, create the refusals of files, and write notes.
//! Used by `choice`, `comparison`, `diagrams`, `inputs`, `items`, `matches`, `page_files`, `pages`,
//! `program` and `stream`.

ghost use Rattle.std.specs.Prelude.{IfErr};
ghost use Rattle.logos_show.specs.Views.{IsNoMisuse, IsPartAt, IsRefusal};

use logos_causes::{Explained, explain};
use logos_codegen::Refusal;
use logos_codegen::error::{Errors, Memory};
use logos_codegen::token::Span;
use logos_file_warnings::{
    Showing, add_warnings, push_warned, text_of as text_of_lines, warning_lines,
};
use logos_help::add_helps;
use logos_host::{Failure, MessageFormat};
use logos_messages::push_messages;
use logos_page::Page;
use logos_report::{Part, Source, count_errors, push_faults, push_summary};
use logos_rust_file::{FoundEnum, enums_in};
use std::alloc::Global;
use std::io::Write;

/// Returns the text at a span of `text`, or an empty text if `text` has no such span.
fn slice(text: &str, span: Span) -> &str
    ensures { IsPartAt text.now span result.now }
{
    match text.get(span.from..span.to) {
        Some(slice) => slice,
        None => "",
    }
}

/// Returns the text of the enum `found` of a file.
pub(crate) fn text_of<'t>(source: &Source<'t>, found: FoundEnum) -> &'t str
    ensures { IsPartAt source.now.text found.span result.now }
{
    slice(source.text(), found.span)
}

/// Returns the refusal of a part of a file, with the faults of this part. If an enum begins at the
/// start of the part, adds the clues and the warnings of the enum. Returns `Memory` if memory runs
/// out.
pub(crate) fn refused(
    alloc: Global,
    part: Part<'_, '_>,
    showing: Showing,
    refusal: Refusal,
) -> Failure<'static>
    ensures failed { IsNoMisuse result }
    ensures refused { IsRefusal result }
{
    match known_of(alloc, part) {
        Ok(known) => refused_with(part, showing, refusal, known),
        Err(Memory) => Failure::Memory,
    }
}

/// Returns the clues and the warnings of the enum at the start of a part of a file. The result is
/// empty if no enum begins at this point. The spans of the warnings are relative to the start of
/// the file.
fn known_of(alloc: Global, part: Part<'_, '_>) -> Result<Explained, Memory> {
    let Explained { clues, warnings } = explain(alloc, enum_at(alloc, part)?)?;
    let mut warned = Vec::new(alloc);
    add_warnings(part.offset, warnings, &mut warned)?;
    Ok(Explained {
        clues,
        warnings: warned,
    })
}

/// Returns the refusal of a part of a file, with the faults of this part, and with the clues and
/// the warnings of `known`. The spans of the warnings are relative to the start of the file.
/// Returns `Memory` if memory runs out.
pub(crate) fn refused_with(
    part: Part<'_, '_>,
    showing: Showing,
    refusal: Refusal,
    known: Explained,
) -> Failure<'static>
    ensures failed { IsNoMisuse result }
    ensures refused { IsRefusal result }
{
    let Refusal::Errors(errors) = refusal else {
        return Failure::Memory;
    };
    match refusal_text(part, showing, &errors, known) {
        Ok(text) => Failure::Refused(text),
        Err(Memory) => Failure::Memory,
    }
}

/// Writes a note to standard error. If writing fails, the failure is ignored.
pub(crate) fn write_note<E: Write>(err: &mut E, note: &[u8]) {
    let _ = err.write_all(note);
    let _ = err.flush();
}

/// Returns the messages about the warnings of `known`, followed by the messages about the faults
/// `errors`. The messages are text or JSON.
fn refusal_text(
    part: Part<'_, '_>,
    showing: Showing,
    errors: &Errors,
    mut known: Explained,
) -> Result<String, Memory> {
    let alloc = showing.alloc;
    add_helps(part, errors, &mut known.clues)?;
    let clues = &known.clues;
    match showing.format {
        MessageFormat::Human => {
            let mut page = Page::new(alloc, showing.is_colored);
            push_warned(&mut page, part.source, &known.warnings);
            push_faults(&mut page, part, errors, clues);
            push_summary(&mut page, count_errors(errors, clues));
            Ok(page.finish()?)
        }
        MessageFormat::Json => {
            let mut lines = warning_lines(alloc, part.source, &known.warnings)?;
            push_messages(alloc, &mut lines, part, errors, clues)?;
            text_of_lines(lines)
        }
    }
}

/// Returns the text of the enum at the start of a part of a file. Returns an empty text if no enum
/// begins at this point, or if the file cannot be read into tokens.
fn enum_at<'t>(alloc: Global, part: Part<'_, 't>) -> Result<&'t str, Memory> {
    let found = match enums_in(alloc, part.source.text()) {
        Ok(found) => found,
        Err(Refusal::Memory) => return Err(Memory),
        Err(_) => return Ok(""),
    };
    for one in &found {
        if one.span.from == part.offset {
            return Ok(text_of(part.source, *one));
        }
    }
    Ok("")
}
