//! Prints the items of an input. Used by `program` if a second path is given without an option.

ghost use Rattle.std.specs.Prelude.{IfErr};
ghost use Rattle.logos_show.specs.Imports.{IsNoMisuse};

use crate::choice::lexer_in;
use crate::lexers::{SHAPE, part_of};
use crate::program::{Task, is_json};
use crate::refusals::{refused, text_of, write_note};
use logos_codegen::{Generated, generate};
use logos_host::{Failure, Files, read_bytes};
use logos_items::{ItemOrder, write_item_records, write_items};
use logos_questions::Question;
use logos_report::Source;
use std::io::Write;
use std::time::Clock;

/// Writes the items that the requested lexer of a file finds in the input that the question names.
/// Writes a note to standard error.
///
/// # Errors
///
/// Returns:
///
/// - `Read` if the input cannot be read.
/// - `NotUtf8` if the lexer reads UTF-8 and the input is not UTF-8.
/// - `Refused` if the file has no requested enum or the enum has no lexer.
/// - `Output` or `Closed` if writing fails.
/// - `Memory` if memory runs out.
pub(crate) fn lex<'w, F: Files, C: Clock, O: Write, E: Write>(
    task: Task<'w>,
    source: &Source<'_>,
    files: &mut F,
    clock: &C,
    err: &mut E,
    out: &mut O,
) -> Result<(), Failure<'w>>
    ensures { IfErr result IsNoMisuse }
{
    let bytes = read_bytes(input_of(task.order.question), files)?;
    lex_by_file(task, source, &bytes, clock, err, out)
}

/// Returns the path of the input if the question requests the items of an input, and an empty path
/// otherwise.
fn input_of<'w>(question: Question<'w>) -> &'w str {
    match question {
        Question::Items(input) => input,
        _ => "",
    }
}

/// Writes the items that the requested lexer of a file finds in `bytes`, and a note to standard
/// error.
fn lex_by_file<'w, C: Clock, O: Write, E: Write>(
    task: Task<'w>,
    source: &Source<'_>,
    bytes: &[u8],
    clock: &C,
    err: &mut E,
    out: &mut O,
) -> Result<(), Failure<'w>>
    ensures { IfErr result IsNoMisuse }
{
    let alloc = task.showing.alloc;
    let one = lexer_in(alloc, task, source, err)?;
    let part = part_of(source, one);
    let lexed = match generate(alloc, text_of(source, one), SHAPE) {
        Ok(made) => items_by_lexer(task, &made, bytes, clock, out),
        Err(refusal) => Err(refused(alloc, part, task.showing, refusal)),
    };
    print_note(lexed, err)
}

/// Writes the items that the lexer `made` finds in `bytes`, as JSON if JSON is requested. Returns
/// the note about the items.
fn items_by_lexer<C: Clock, O: Write>(
    task: Task<'_>,
    made: &Generated<'_>,
    bytes: &[u8],
    clock: &C,
    out: &mut O,
) -> Result<String, Failure<'static>>
    ensures { IfErr result IsNoMisuse }
{
    let alloc = task.showing.alloc;
    if is_json(task.order) {
        return write_item_records(alloc, &made.code, bytes, out);
    }
    let order = ItemOrder {
        alloc,
        settings: task.order.settings,
        screen: task.screen,
    };
    write_items(order, made, bytes, clock, out)
}

/// Writes the note in `lexed` to standard error.
///
/// # Errors
///
/// Returns the failure in `lexed` if there is one. If writing the note fails, the failure to write
/// is ignored.
pub(crate) fn print_note<'w, E: Write>(
    lexed: Result<String, Failure<'w>>,
    err: &mut E,
) -> Result<(), Failure<'w>>
    requires { IfErr lexed IsNoMisuse }
    ensures { IfErr result IsNoMisuse }
{
    match lexed {
        Ok(note) => {
            write_note(err, note.as_bytes());
            Ok(())
        }
        Err(failure) => Err(failure),
    }
}
