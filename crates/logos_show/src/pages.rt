//! Shows the lexers of a file as tables, as examples or as JSON. Used by `program`.

ghost use Rattle.std.specs.Prelude.{IfErr};
ghost use Rattle.logos_show.specs.Orders.{IsNoMisuse};

use crate::choice::has_name;
use crate::lexers::SHAPE;
use crate::refusals::{refused, refused_with, text_of};
use logos_causes::{Explained, Lexer, explain_enum};
use logos_codegen::error::Memory;
use logos_codegen::token::{TokenStream, tokenize};
use logos_codegen::{Generated, generate};
use logos_file_warnings::{
    Showing, add_accepted, add_missing, add_passed, add_text, add_warnings, denial_text, has_lexer,
    warning_text,
};
use logos_host::Failure;
use logos_lines::LineIndex;
use logos_page::Page;
use logos_records::JsonLines;
use logos_replies::{EnumInFile, Form, push_form, refusal_of};
use logos_report::{Part, Source, Warning};
use logos_rust_file::{FoundEnum, read_file};
use logos_warnings::Origin;
use std::alloc::Global;
use std::mem;

/// The output for a file: the tables, examples or records of its lexers, and the warnings of the
/// file.
#[derive(Drop)]
pub(crate) struct Shown {
    /// The tables or the examples of the lexers of the file. Empty if the form is JSON.
    pub(crate) tables: String,
    /// The leaves or the examples of the lexers as lines of JSON. Empty if the form is not JSON.
    pub(crate) records: Vec<u8>,
    /// The text of the warnings of the file. Empty if there are no warnings.
    pub(crate) warnings: Vec<u8>,
}

/// The form in which lexers are shown, and the settings for messages.
#[derive(Clone, Copy)]
pub(crate) struct PageStyle {
    /// The settings for showing faults and warnings.
    pub(crate) showing: Showing,
    pub(crate) form: Form,
}

/// The output for the enums of a file that have been read so far.
#[derive(Drop)]
struct Pages {
    tables: Page,
    records: JsonLines,
    warned: Vec<Warning>,
    style: PageStyle,
}

/// Returns the output for all enums of a file, or for the enums that `name` selects.
///
/// # Errors
///
/// Returns `Memory` if memory runs out. Returns `Refused` with one of:
///
/// - The faults of the file.
/// - The faults of the first enum that has a fault.
/// - The warnings if warnings are denied.
pub(crate) fn shown_of(
    alloc: Global,
    source: &Source<'_>,
    style: PageStyle,
    name: Option<&str>,
) -> Result<Shown, Failure<'static>>
    ensures { IfErr result IsNoMisuse }
{
    let whole = Part { source, offset: 0 };
    let file = match read_file(alloc, source.text()) {
        Ok(file) => file,
        Err(refusal) => return Err(refused(alloc, whole, style.showing, refusal)),
    };
    let lines = LineIndex::new(alloc, source.text())?;
    let mut pages = pages_of(&*source, &lines, &file.found, style, name)?;
    add_passed(file.stream.run(), &file.found, &mut pages.warned)?;
    add_missing(style.showing, &file.found, &mut pages.warned)?;
    shown_by(source, pages, !has_lexer(&file.found))
}

/// Returns the output for the enums in `found`, or only for those that `name` selects if `name` is
/// not `None`. `lines` is the index of the lines of the file.
fn pages_of<'f, 's>(
    source: &'f Source<'s>,
    lines: &'f LineIndex<'s>,
    found: &[FoundEnum],
    style: PageStyle,
    name: Option<&str>,
) -> Result<Pages, Failure<'static>>
    ensures { IfErr result IsNoMisuse }
{
    let alloc = style.showing.alloc;
    let mut pages = Pages {
        tables: Page::new(alloc, false),
        records: JsonLines::new(alloc, Vec::new(alloc)),
        warned: Vec::new(alloc),
        style,
    };
    for one in found {
        push_named(&mut pages, enum_in(source, lines, *one), *one, name)?;
    }
    Ok(pages)
}

/// Returns the finished output for a file, or `Refused` if warnings are denied and there are
/// warnings. `is_missing` is `true` if no enum of the file derives `Logos`.
fn shown_by(source: &Source<'_>, pages: Pages, is_missing: bool) -> Result<Shown, Failure<'static>>
    ensures { IfErr result IsNoMisuse }
{
    let showing = pages.style.showing;
    if showing.denies && !pages.warned.is_empty() {
        return Err(denied(source, showing, &pages.warned));
    }
    Ok(Shown {
        warnings: warning_text(source, showing, &pages.warned, is_missing)?,
        tables: pages.tables.finish()?,
        records: pages.records.finish()?,
    })
}

/// Returns the refusal of a file whose warnings are denied. The refusal contains the warnings
/// `warned`.
fn denied(source: &Source<'_>, showing: Showing, warned: &[Warning]) -> Failure<'static>
    ensures { IsNoMisuse result }
{
    refusal_of(denial_text(source, showing, warned))
}

/// Returns the enum `found` with its text, its file and the index of the file's lines.
fn enum_in<'f, 's>(
    source: &'f Source<'s>,
    lines: &'f LineIndex<'s>,
    found: FoundEnum,
) -> EnumInFile<'f, 's> {
    EnumInFile {
        part: Part {
            source,
            offset: found.span.from,
        },
        lines,
        text: text_of(source, found),
    }
}

/// Appends the output for an enum to `pages` if `name` selects the enum or is `None`.
fn push_named(
    pages: &mut Pages,
    one: EnumInFile<'_, '_>,
    found: FoundEnum,
    name: Option<&str>,
) -> Result<(), Failure<'static>>
    ensures { IfErr result IsNoMisuse }
{
    let alloc = pages.style.showing.alloc;
    if has_name(alloc, one.part.source, found, name)? {
        push_enum(alloc, pages, one, found.derives)?;
    }
    Ok(())
}

/// Appends the output for an enum to `pages`. If `derives` is `true`, the output shows the lexer of
/// the enum. Otherwise, the output consists of the warnings about the text of the enum.
fn push_enum(
    alloc: Global,
    pages: &mut Pages,
    one: EnumInFile<'_, '_>,
    derives: bool,
) -> Result<(), Failure<'static>>
    ensures { IfErr result IsNoMisuse }
{
    if derives {
        return push_lexer(alloc, pages, one);
    }
    add_text(one.text, one.part.offset, false, &mut pages.warned)?;
    Ok(())
}

/// Appends the output for an enum that derives `Logos` to `pages`. If the enum has no lexer,
/// returns the refusal of the enum.
fn push_lexer(
    alloc: Global,
    pages: &mut Pages,
    one: EnumInFile<'_, '_>,
) -> Result<(), Failure<'static>>
    ensures { IfErr result IsNoMisuse }
{
    match generate(alloc, one.text, SHAPE) {
        Ok(made) => push_made(alloc, pages, one, &made),
        Err(refusal) => {
            let known = known_after(alloc, pages, one)?;
            Err(refused_with(one.part, pages.style.showing, refusal, known))
        }
    }
}

/// Returns the explanation of a refused enum. The warnings of `pages` are moved into the
/// explanation, before the warnings of the enum.
fn known_after(
    alloc: Global,
    pages: &mut Pages,
    one: EnumInFile<'_, '_>,
) -> Result<Explained, Memory> {
    let Explained { clues, warnings } = explain_enum(alloc, one.text, Origin::File)?;
    let mut warned = mem::replace(&mut pages.warned, Vec::new(alloc));
    add_warnings(one.part.offset, warnings, &mut warned)?;
    Ok(Explained {
        clues,
        warnings: warned,
    })
}

/// Appends the leaves or the examples of the lexer `made` to `pages`, and also the warnings about
/// the enum and the leaves of the lexer.
fn push_made(
    alloc: Global,
    pages: &mut Pages,
    one: EnumInFile<'_, '_>,
    made: &Generated<'_>,
) -> Result<(), Failure<'static>>
    ensures { IfErr result IsNoMisuse }
{
    push_form(
        alloc,
        &mut pages.tables,
        &mut pages.records,
        pages.style.form,
        one,
        made,
    )?;
    let stream = tokens_of(alloc, one.text)?;
    let lexer = Lexer {
        graph: &made.graph,
        error: made.code.error_callback(),
    };
    add_accepted(stream.run(), one.part.offset, lexer, &mut pages.warned)?;
    Ok(())
}

/// Returns the tokens of the text of an enum that has a lexer. Such a text can always be read into
/// tokens, so the only possible error is `Memory`.
fn tokens_of<'s>(alloc: Global, text: &'s str) -> Result<TokenStream<'s>, Memory> {
    match tokenize(alloc, text) {
        Ok(stream) => Ok(stream),
        Err(_) => Err(Memory),
    }
}
