//! Prints each item of standard input on a line of its own as soon as the item is found. Used by
//! `program`.

ghost use Rattle.std.specs.Prelude.{IfErr};
ghost use Rattle.logos_show.specs.Imports.{IsNoMisuse};

use crate::choice::lexer_in;
use crate::items::print_note;
use crate::lexers::{SHAPE, part_of};
use crate::program::Task;
use crate::refusals::{refused, text_of};
use logos_codegen::generate;
use logos_host::Failure;
use logos_items::{ItemOrder, write_streamed};
use logos_report::Source;
use std::io::{Input, Write};
use std::time::Clock;

/// Writes the items that the requested lexer of a file finds in standard input. Each item is
/// written as soon as it is found. Writes a note to standard error.
///
/// # Errors
///
/// Returns the failures of `write_streamed`, and `Refused` if the file has no requested enum or the
/// enum has no lexer. Items before the failure may have been written.
pub(crate) fn lex_stream<'w, C: Clock + Input, O: Write, E: Write>(
    task: Task<'w>,
    source: &Source<'_>,
    clock: &C,
    err: &mut E,
    out: &mut O,
) -> Result<(), Failure<'w>>
    ensures { IfErr result IsNoMisuse }
{
    let alloc = task.showing.alloc;
    let order = ItemOrder {
        alloc,
        settings: task.order.settings,
        screen: task.screen,
    };
    let one = lexer_in(alloc, task, source, err)?;
    let part = part_of(source, one);
    let lexed = match generate(alloc, text_of(source, one), SHAPE) {
        Ok(made) => write_streamed(order, &made, clock, out),
        Err(refusal) => Err(refused(alloc, part, task.showing, refusal)),
    };
    print_note(lexed, err)
}
