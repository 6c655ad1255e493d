//! Writes the JSON objects for inputs that together take all edges of a graph. Used by
//! `logos_replies`.

ghost use Rattle.std.specs.Prelude.{◌≡◌, ◌∷◌, [], IfOk, map};
ghost use Rattle.logos_records.specs.Imports.{flat_map, AreInputRecords, Puts, PutsInputs, input_lines, object};

use logos_answers::first_of;
use logos_evidence::covering_inputs;
use logos_graph::graph::Graph;
use logos_json::JsonLines;
use std::alloc::{AllocError, Global};

/// Lines of JSON for the first inputs that were found, and the number of all inputs found.
#[derive(Drop)]
pub struct InputRecords {
    pub bytes: Vec<u8>,
    pub count: usize,
}

/// Finds inputs that together take all edges of a graph. Returns the first `most` of them as JSON
/// objects, one on each line, and the number of all inputs found.
///
/// # Errors
///
/// Returns `AllocError` if memory runs out.
pub fn input_records(
    alloc: Global,
    graph: &Graph<'_>,
    most: usize,
) -> Result<InputRecords, AllocError>
    ensures { IfOk result (λ made.
        AreInputRecords graph.now.states graph.now.utf8 most made.count made.bytes.items) }
{
    let mut lines = JsonLines::new(alloc, Vec::new(alloc));
    let count = push_input_records(alloc, &mut lines, graph, most)?;
    let bytes = lines.finish()?;
    Ok(InputRecords { bytes, count })
}

/// Appends a line for each of the first `most` inputs in a list of inputs that together take all
/// edges of a graph. Returns the number of inputs in the list.
fn push_input_records(
    alloc: Global,
    lines: &mut JsonLines,
    graph: &Graph<'_>,
    most: usize,
) -> Result<usize, AllocError>
    ensures { IfOk result (λ count.
        PutsInputs graph.now.states graph.now.utf8 most count lines.old lines.new) }
{
    let inputs = covering_inputs(alloc, graph)?;
    push_each(lines, first_of(&inputs, most));
    Ok(inputs.len())
}

/// Appends a line with the object of each input.
fn push_each(lines: &mut JsonLines, inputs: &[Vec<u8>])
    ensures { Puts (flat_map input_lines (map (λ input. input.items) inputs.now)) lines.old lines.new }
{
    for input in inputs {
        push_input_record(lines, input);
    }
}

/// Appends the line with the object of an input.
fn push_input_record(lines: &mut JsonLines, input: &[u8])
    ensures { Puts (input_lines input.now) lines.old lines.new }
{
    lines.begin_object();
    lines.push_bytes("input", input);
    lines.end_object();
    lines.end_line();
}
