//! Writes the page of a lexer to a file or to standard output. Used by `program` for `--html`.

ghost use Rattle.std.specs.Prelude.{IfErr};
ghost use Rattle.logos_show.specs.Imports.{IsNoMisuse};

use crate::choice::lexer_in;
use crate::lexers::{SHAPE, part_of};
use crate::program::Task;
use crate::refusals::{refused, text_of};
use logos_codegen::{Generated, generate};
use logos_host::{Failure, Files, print_bytes, read_bytes, write_file};
use logos_html::{LexerPage, PageInput, page_of};
use logos_lines::LineIndex;
use logos_replies::{EnumInFile, rows_of};
use logos_report::Source;
use logos_rust_file::FoundEnum;
use std::io::Write;

/// The path of a page, and the path of the input that the page shows, if there is one. A page with
/// the path `-` is written to standard output.
#[derive(Clone, Copy)]
pub(crate) struct PageOrder<'w> {
    pub(crate) to: &'w str,
    pub(crate) input: Option<&'w str>,
}

/// Writes the page of the requested lexer of a file to the path of `order`, or to `out` if the path
/// is `-`. A file at the path is written entirely or not at all.
///
/// # Errors
///
/// Returns:
///
/// - `Read` if the input cannot be read.
/// - `NotUtf8` if the lexer reads UTF-8 and the input is not UTF-8.
/// - `Refused` if the file has no requested enum or the enum has no lexer.
/// - `Write`, `Output` or `Closed` if writing fails.
/// - `Memory` if memory runs out.
pub(crate) fn write_page<'w, F: Files, O: Write, E: Write>(
    task: Task<'w>,
    source: &Source<'_>,
    order: PageOrder<'w>,
    files: &mut F,
    err: &mut E,
    out: &mut O,
) -> Result<(), Failure<'w>>
    ensures { IfErr result IsNoMisuse }
{
    let page = match order.input {
        Some(path) => {
            let bytes = read_bytes(path, files)?;
            let input = PageInput {
                path,
                bytes: &bytes,
            };
            page_by_file(task, source, Some(input), err)?
        }
        None => page_by_file(task, source, None, err)?,
    };
    if order.to == "-" {
        return print_bytes(page.as_str().as_bytes(), out);
    }
    write_file(order.to, page.as_str().as_bytes(), files)
}

/// Returns the page of the requested lexer of a file, with the text of `input` if there is an
/// input.
fn page_by_file<'w, E: Write>(
    task: Task<'w>,
    source: &Source<'_>,
    input: Option<PageInput<'_>>,
    err: &mut E,
) -> Result<String, Failure<'w>>
    ensures { IfErr result IsNoMisuse }
{
    let alloc = task.showing.alloc;
    let one = lexer_in(alloc, task, source, err)?;
    let part = part_of(source, one);
    match generate(alloc, text_of(source, one), SHAPE) {
        Ok(made) => page_by_lexer(task, source, one, &made, input),
        Err(refusal) => Err(refused(alloc, part, task.showing, refusal)),
    }
}

/// Returns the page of the lexer `made` from the enum `one`, with the text of `input` if there is
/// an input.
fn page_by_lexer(
    task: Task<'_>,
    source: &Source<'_>,
    one: FoundEnum,
    made: &Generated<'_>,
    input: Option<PageInput<'_>>,
) -> Result<String, Failure<'static>>
    ensures { IfErr result IsNoMisuse }
{
    let alloc = task.showing.alloc;
    let part = part_of(source, one);
    let lines = LineIndex::new(alloc, source.text())?;
    let found = EnumInFile {
        part,
        lines: &lines,
        text: text_of(source, one),
    };
    let rows = rows_of(alloc, found, made)?;
    let page = LexerPage {
        name: made.name.text,
        path: source.path(),
        line: part.location(made.name.span.from).line,
        rows: &rows,
        graph: &made.graph,
        code: &made.code,
    };
    page_of(alloc, page, input)
}
