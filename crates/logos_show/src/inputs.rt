//! Prints inputs that together take all edges of the graph of a lexer. Used by `program` for
//! `--inputs`.

ghost use Rattle.std.specs.Prelude.{◌≡◌, IfErr, IfOk, OnOk};
ghost use Rattle.logos_show.specs.Views.{IsNoMisuse, PrintsInputsAs, ShowsInputsOf, order_value};

use crate::choice::lexer_in;
use crate::lexers::{SHAPE, part_of};
use crate::program::{Task, is_json};
use crate::refusals::{refused, text_of, write_note};
use logos_codegen::generate;
use logos_codegen::graph::Graph;
use logos_host::Failure;
use logos_replies::{Agreement, write_input_records, write_inputs};
use logos_report::Source;
use std::alloc::Global;
use std::io::Write;

/// Finds inputs that together take all edges of the graph of a file's requested lexer. Writes the
/// first `most` of these inputs, and a note to standard error. Returns `Same`, because nothing is
/// compared.
///
/// # Errors
///
/// Returns:
///
/// - `Refused` if the file has no requested enum or the enum has no lexer.
/// - `Output` or `Closed` if writing fails.
/// - `Memory` if memory runs out.
pub(crate) fn yield_inputs<'w, O: Write, E: Write>(
    task: Task<'w>,
    source: &Source<'_>,
    most: usize,
    err: &mut E,
    out: &mut O,
) -> Result<Agreement, Failure<'w>>
    ensures failed { IfErr result IsNoMisuse }
    ensures printed { IfOk result (λ agreement. (agreement ≡ Agreement.Same) × ShowsInputsOf
        (order_value task.entry.order) source.now.text most (O.contents out.old)
        (O.contents out.new)) }
{
    let note = inputs_by_file(task, source, most, err, out)?;
    write_note(err, note.as_bytes());
    Ok(Agreement::Same)
}

/// Writes the first `most` of the inputs that together take all edges of the graph of a file's
/// requested lexer. Returns the note about these inputs.
fn inputs_by_file<'w, O: Write, E: Write>(
    task: Task<'w>,
    source: &Source<'_>,
    most: usize,
    err: &mut E,
    out: &mut O,
) -> Result<String, Failure<'w>>
    ensures failed { IfErr result IsNoMisuse }
    ensures printed { OnOk result (ShowsInputsOf (order_value task.entry.order) source.now.text most
        (O.contents out.old) (O.contents out.new)) }
{
    let alloc = task.showing.alloc;
    let one = lexer_in(alloc, task, source, err)?;
    let part = part_of(source, one);
    match generate(alloc, text_of(source, one), SHAPE) {
        Ok(made) => inputs_by_graph(alloc, &made.graph, most, is_json(task.order), out),
        Err(refusal) => Err(refused(alloc, part, task.showing, refusal)),
    }
}

/// Writes the first `most` of the inputs that together take all edges of `graph`: as JSON if
/// `is_json` is `true`, and as text otherwise. Returns the note about these inputs.
fn inputs_by_graph<O: Write>(
    alloc: Global,
    graph: &Graph<'_>,
    most: usize,
    is_json: bool,
    out: &mut O,
) -> Result<String, Failure<'static>>
    ensures failed { IfErr result IsNoMisuse }
    ensures printed { OnOk result (PrintsInputsAs is_json graph.now most (O.contents out.old)
        (O.contents out.new)) }
{
    if is_json {
        write_input_records(alloc, graph, most, out)
    } else {
        write_inputs(alloc, graph, most, out)
    }
}
