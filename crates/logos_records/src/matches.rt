//! Writes the JSON objects for the matches that start at an offset of an input. Used by `examples`
//! and `logos_replies`.

ghost use Rattle.std.specs.Prelude.{◌≡◌, ◌≤◌, IfOk, OnOk, Some, length};
ghost use Rattle.logos_records.specs.Imports.{flat_map, AllStart, AreMatchRecords, Gains, IsBytes, IsGraphOf, Puts, PutsMatches, rules_of, end_members, match_lines, named_leaf};

use logos_answers::{bytes_between, longest_of, variant_at};
use logos_evidence::{Match, matches_from, winner};
use logos_graph::graph::Graph;
use logos_json::JsonLines;
use logos_pattern::leaf::Leaf;
use std::alloc::{AllocError, Global};

/// The offset `from` of the input `input`. `leaves` are the leaves of a lexer, and `winner` is the
/// number of the leaf whose match the lexer takes at the offset.
#[derive(Clone, Copy)]
struct StartRecord<'a, 's> {
    leaves: &'a [Leaf<'s>],
    input: &'a [u8],
    from: usize,
    winner: usize,
}

/// Returns a line with an object for each leaf that matches from the byte offset `from` of `input`.
/// The object has the leaf's longest match from this offset, and states whether a lexer takes the
/// match.
///
/// # Errors
///
/// Returns `AllocError` if memory runs out.
pub fn match_records(
    alloc: Global,
    graph: &Graph<'_>,
    input: &[u8],
    from: usize,
) -> Result<Vec<u8>, AllocError>
    requires { from ≤ length input.now }
    ensures { IfOk result (λ bytes. IsGraphOf graph.now.leaves graph.now.utf8 graph.now →
        AllStart (rules_of graph.now.leaves) → IsBytes input.now →
        AreMatchRecords graph.now.leaves input.now from bytes.items) }
{
    let mut lines = JsonLines::new(alloc, Vec::new(alloc));
    push_match_records(alloc, &mut lines, graph, input, from)?;
    let bytes = lines.finish()?;
    Ok(bytes)
}

/// Appends a line with an object for each leaf that matches from the byte offset `from` of `input`.
/// The object has the leaf's longest match from this offset, and states whether a lexer takes the
/// match.
fn push_match_records(
    alloc: Global,
    lines: &mut JsonLines,
    graph: &Graph<'_>,
    input: &[u8],
    from: usize,
) -> Result<(), AllocError>
    requires { from ≤ length input.now }
    ensures { OnOk result (IsGraphOf graph.now.leaves graph.now.utf8 graph.now →
        AllStart (rules_of graph.now.leaves) → IsBytes input.now →
        PutsMatches graph.now.leaves input.now from lines.old lines.new) }
{
    let matches = matches_from(alloc, graph, input, from)?;
    let Some(best) = winner(&matches) else {
        return Ok(());
    };
    let longest = longest_of(alloc, graph.leaves().len(), &matches)?;
    let start = StartRecord {
        leaves: graph.leaves(),
        input,
        from,
        winner: best.leaf,
    };
    push_each(lines, start, &longest);
    Ok(())
}

/// Appends a line for each leaf that has a match in `longest`.
fn push_each(lines: &mut JsonLines, start: StartRecord<'_, '_>, longest: &[Option<Match>])
    ensures { Puts (flat_map (match_lines start.entry.leaves.now start.entry.input.now
        start.entry.from start.entry.winner) longest.now) lines.old lines.new }
{
    for found in longest {
        push_found(lines, start, *found);
    }
}

/// Appends the line of a match. Appends nothing if `found` is `None`.
fn push_found(lines: &mut JsonLines, start: StartRecord<'_, '_>, found: Option<Match>)
    ensures { Puts (match_lines start.entry.leaves.now start.entry.input.now start.entry.from
        start.entry.winner found) lines.old lines.new }
{
    match found {
        Some(found) => push_match(lines, start, found),
        None => {}
    }
}

/// Appends the line with the object of a match.
fn push_match(lines: &mut JsonLines, start: StartRecord<'_, '_>, found: Match)
    ensures { Puts (match_lines start.entry.leaves.now start.entry.input.now start.entry.from
        start.entry.winner (Some found)) lines.old lines.new }
{
    lines.begin_object();
    push_leaf_members(lines, start.leaves, found.leaf);
    lines.push_number("priority", found.priority);
    push_end(lines, start, found);
    lines.end_object();
    lines.end_line();
}

/// Appends the members with the number of a leaf and its variant. The variant of a skip is null.
pub(crate) fn push_leaf_members(lines: &mut JsonLines, leaves: &[Leaf<'_>], leaf: usize)
    ensures { Gains (named_leaf leaves.now leaf) lines.old lines.new }
{
    lines.push_number("leaf", leaf);
    lines.push_maybe_text("variant", variant_at(leaves, leaf));
}

/// Appends the members with the span and the text of a match, and a member that states whether a
/// lexer takes the match.
fn push_end(lines: &mut JsonLines, start: StartRecord<'_, '_>, found: Match)
    ensures { Gains (end_members start.entry.input.now start.entry.from start.entry.winner found)
        lines.old lines.new }
{
    lines.push_number("from", start.from);
    lines.push_number("to", found.end);
    lines.push_bytes("text", bytes_between(start.input, start.from, found.end));
    lines.push_bool("wins", found.leaf == start.winner);
}
