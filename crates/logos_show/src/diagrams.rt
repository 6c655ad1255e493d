//! Prints the state diagram of a lexer. Used by `program` for `--mermaid`.

ghost use Rattle.std.specs.Prelude.{IfErr};
ghost use Rattle.logos_show.specs.Imports.{IsNoMisuse};

use crate::choice::lexer_in;
use crate::lexers::{SHAPE, part_of};
use crate::program::Task;
use crate::refusals::{refused, text_of};
use logos_codegen::{Generated, generate};
use logos_diagram::{DiagramLexer, diagram_of};
use logos_host::{Failure, print_bytes};
use logos_report::Source;
use std::alloc::Global;
use std::io::Write;

/// Writes the state diagram of the requested lexer of a file to `out`.
///
/// # Errors
///
/// Returns:
///
/// - `Refused` if the file has no requested enum or the enum has no lexer.
/// - `Output` or `Closed` if writing fails.
/// - `Memory` if memory runs out.
pub(crate) fn print_diagram<'w, O: Write, E: Write>(
    task: Task<'w>,
    source: &Source<'_>,
    err: &mut E,
    out: &mut O,
) -> Result<(), Failure<'w>>
    ensures { IfErr result IsNoMisuse }
{
    let alloc = task.showing.alloc;
    let one = lexer_in(alloc, task, source, err)?;
    let part = part_of(source, one);
    match generate(alloc, text_of(source, one), SHAPE) {
        Ok(made) => print_by_lexer(alloc, &made, out),
        Err(refusal) => Err(refused(alloc, part, task.showing, refusal)),
    }
}

/// Writes the state diagram of the lexer `made` to `out`.
fn print_by_lexer<O: Write>(
    alloc: Global,
    made: &Generated<'_>,
    out: &mut O,
) -> Result<(), Failure<'static>>
    ensures { IfErr result IsNoMisuse }
{
    let lexer = DiagramLexer {
        name: made.name.text,
        graph: &made.graph,
    };
    let text = diagram_of(alloc, lexer)?;
    print_bytes(text.as_str().as_bytes(), out)
}
