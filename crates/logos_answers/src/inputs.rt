//! `push_inputs` appends inputs that together take all edges of a graph. Used by `logos_records`
//! and `logos_replies` for `--inputs`.

ghost use Rattle.std.specs.Prelude.{◌≡◌, IfOk, map, take};
ghost use Rattle.logos_answers.specs.Imports.{flat_map, Gains, ShowsInputs, input_line};

use crate::quotes::push_literal;
use logos_evidence::covering_inputs;
use logos_graph::graph::Graph;
use logos_page::Page;
use std::alloc::{AllocError, Global};

/// Appends the first `most` inputs of a list of inputs that together take all edges of a graph.
/// Each input is a Rust literal on its own line. Returns the number of inputs in the list.
///
/// # Errors
///
/// Returns `AllocError` if memory runs out. Then nothing was appended.
pub fn push_inputs(
    alloc: Global,
    page: &mut Page,
    graph: &Graph<'_>,
    most: usize,
) -> Result<usize, AllocError>
    ensures { IfOk result (λ count.
        ShowsInputs graph.now.states graph.now.utf8 most count page.old page.new) }
{
    let inputs = covering_inputs(alloc, graph)?;
    push_literals(page, first_of(&inputs, most));
    Ok(inputs.len())
}

/// Returns the first `most` inputs, or all inputs if there are fewer.
pub fn first_of(inputs: &[Vec<u8>], most: usize) -> &[Vec<u8>]
    ensures { result.now ≡ take most inputs.now }
{
    match inputs.get(..most) {
        Some(first) => first,
        None => inputs,
    }
}

/// Appends each input as a Rust literal on its own line.
fn push_literals(page: &mut Page, inputs: &[Vec<u8>])
    ensures { Gains (flat_map input_line (map (λ input. input.items) inputs.now)) page.old page.new }
{
    for input in inputs {
        push_line(page, input);
    }
}

/// Appends an input as a Rust literal on its own line.
fn push_line(page: &mut Page, input: &[u8])
    ensures { Gains (input_line input.now) page.old page.new }
{
    push_literal(page, input);
    page.push("\n");
}
