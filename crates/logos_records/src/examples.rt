//! Writes the JSON objects with examples for leaves: inputs in which a lexer finds a leaf, and
//! inputs that a leaf loses to another leaf. Used by `logos_replies`.

ghost use Rattle.std.specs.Prelude.{◌≡◌, ◌++◌, ◌∷◌, [], OnOk, codes, length, option_map};
ghost use Rattle.logos_records.specs.Imports.{loss_value, Gains, IsGraphOf, Puts, PutsExample, PutsExamples, bytes_member, example_members, loss_members, maybe_bytes, null_member, number_member, object};

use crate::matches::push_leaf_members;
use logos_answers::{Evidence, Loss, evidence_of};
use logos_graph::graph::Graph;
use logos_json::JsonLines;
use logos_pattern::leaf::Leaf;
use std::alloc::{AllocError, Global};

/// A graph, and the name of its enum.
#[derive(Clone, Copy)]
pub struct NamedGraph<'g, 's> {
    pub name: &'g str,
    pub graph: &'g Graph<'s>,
}

/// Appends a line with an object for each leaf of a graph without faults.
///
/// The object has the name of the enum, the leaf, and two inputs: a shortest input in which a lexer
/// finds the leaf first, and a shortest input that the leaf matches but in which a lexer finds
/// another leaf. The object also has the other leaf. A missing input is null.
///
/// # Errors
///
/// Returns `AllocError` if memory runs out. In this case, some objects may have been appended.
pub fn push_example_records(
    alloc: Global,
    lines: &mut JsonLines,
    one: NamedGraph<'_, '_>,
) -> Result<(), AllocError>
    ensures { OnOk result (IsGraphOf one.entry.graph.now.leaves one.entry.graph.now.utf8 one.entry.graph.now →
        one.entry.graph.now.faults ≡ [] → PutsExamples one.entry.name.now one.entry.graph.now.leaves one.entry.graph.now.utf8 0
        (length one.entry.graph.now.leaves) lines.old lines.new) }
{
    for leaf in 0..one.graph.leaves().len() {
        push_example_record(alloc, lines, one, leaf)?;
    }
    Ok(())
}

/// Appends the object of the leaf with the number `leaf`.
fn push_example_record(
    alloc: Global,
    lines: &mut JsonLines,
    one: NamedGraph<'_, '_>,
    leaf: usize,
) -> Result<(), AllocError>
    ensures { OnOk result (IsGraphOf one.entry.graph.now.leaves one.entry.graph.now.utf8 one.entry.graph.now →
        one.entry.graph.now.faults ≡ [] →
        PutsExample one.entry.name.now one.entry.graph.now.leaves one.entry.graph.now.utf8 leaf lines.old lines.new) }
{
    let evidence = evidence_of(alloc, one.graph, leaf)?;
    lines.begin_object();
    lines.push_text("enum", one.name);
    push_leaf_members(lines, one.graph.leaves(), leaf);
    push_evidence(lines, &evidence);
    lines.end_object();
    lines.end_line();
    Ok(())
}

/// Appends the members with the input in which a lexer finds a leaf first, and with the input that
/// the leaf loses.
fn push_evidence(lines: &mut JsonLines, evidence: &Evidence)
    ensures { Gains (example_members (option_map (λ input. input.items) evidence.now.found)
        (option_map loss_value evidence.now.loss)) lines.old lines.new }
{
    push_found(lines, &evidence.found);
    push_loss(lines, &evidence.loss);
}

/// Appends a member with the input in which a lexer finds a leaf first, or with null if there is no
/// such input.
fn push_found(lines: &mut JsonLines, found: &Option<Vec<u8>>)
    ensures { Gains (maybe_bytes (codes "finds") (option_map (λ input. input.items) found.now))
        lines.old lines.new }
{
    match found {
        Some(input) => lines.push_bytes("finds", input),
        None => lines.push_null("finds"),
    }
}

/// Appends the members with an input that a leaf loses and the leaf that wins the input. Both
/// members are null if the leaf never loses.
fn push_loss(lines: &mut JsonLines, loss: &Option<Loss>)
    ensures { Gains (loss_members (option_map loss_value loss.now)) lines.old lines.new }
{
    match loss {
        Some(loss) => push_lost(lines, &loss.input, loss.winner),
        None => push_no_loss(lines),
    }
}

/// Appends the members with an input that a leaf loses, and the number of the leaf that wins the
/// input.
fn push_lost(lines: &mut JsonLines, input: &[u8], winner: usize)
    ensures { Gains (bytes_member (codes "loses") input.now ++ number_member (codes "taker") winner)
        lines.old lines.new }
{
    lines.push_bytes("loses", input);
    lines.push_number("taker", winner);
}

/// Appends the null members of a leaf that never loses an input.
fn push_no_loss(lines: &mut JsonLines)
    ensures { Gains (null_member (codes "loses") ++ null_member (codes "taker")) lines.old lines.new }
{
    lines.push_null("loses");
    lines.push_null("taker");
}
