//! `push_partials` appends lines to a page that show the partial matches at an offset where no leaf
//! matches. Called by `logos_html` and `logos_replies`.

ghost use Rattle.std.specs.Prelude.{◌≡◌, ◌≤◌, ℕ, List, IfOk, IsTrue, OnErr, OnOk, length, string_bytes};
ghost use Rattle.logos_attempts.specs.Views.{AddsLine, ArePartialLines, CodeFinds, Gains, IsPartialText, failed, partial_line, read_text, reader_text};

use crate::around::{location_in, push_location};
use crate::classes::push_needed;
use crate::partials::{PartialMatch, partial_matches};
use logos_answers::{bytes_between, name_at, push_quoted};
use logos_code::code::Code;
use logos_graph::graph::Graph;
use logos_machine::machine::walk::{Outcome, attempt};
use logos_page::Page;
use logos_pattern::leaf::Leaf;
use std::alloc::{AllocError, Global};

/// The maximum number of leaves for which [`push_partials`] appends a line.
const SHOWN: usize = 8;

/// A byte offset `from` of an input, and the leaves that may read bytes from this offset on.
#[derive(Clone, Copy)]
struct ReadStart<'a, 's> {
    leaves: &'a [Leaf<'s>],
    input: &'a [u8],
    from: usize,
}

/// Appends the lines of partial matches from the byte offset `from` of an input, if a lexer finds
/// an error at this offset. At most eight leaves that read at least one byte have a line. The line
/// of a leaf shows the bytes that the leaf reads and the bytes that can follow. The leaves that
/// read furthest come first, and a line with the number of omitted leaves comes last.
///
/// # Errors
///
/// Returns `AllocError` if memory runs out. Nothing is appended in this case.
pub fn push_partials(
    alloc: Global,
    page: &mut Page,
    graph: &Graph<'_>,
    code: &Code<'_>,
    input: &[u8],
    from: usize,
) -> Result<(), AllocError>
    requires { from ≤ length input.now }
    ensures shows { OnOk result ((text : List ℕ)
        × IsPartialText graph.now.leaves input.now from code.now text
        × Gains text page.old page.new) }
    ensures err { OnErr result (page.new ≡ page.old) }
{
    if !fails_at(code, input, from) {
        return Ok(());
    }
    let text = lines_of(alloc, graph, input, from)?;
    page.push(text.as_str());
    Ok(())
}

/// Returns whether a lexer finds an error at the byte offset `from` of an input.
fn fails_at(code: &Code<'_>, input: &[u8], from: usize) -> bool
    requires { from ≤ length input.now }
    ensures { IsTrue result → (to : ℕ) × CodeFinds code.now input.now from (failed to) }
{
    match attempt(code, input, from) {
        Outcome::Fails(_, _) => true,
        _ => false,
    }
}

/// Returns the lines of the partial matches from the byte offset `from` of an input.
fn lines_of(
    alloc: Global,
    graph: &Graph<'_>,
    input: &[u8],
    from: usize,
) -> Result<String, AllocError>
    ensures { IfOk result (λ text.
        ArePartialLines graph.now.leaves input.now from (string_bytes text)) }
{
    let partials = partial_matches(alloc, graph, input, from)?;
    let mut page = Page::new(alloc, false);
    let start = ReadStart {
        leaves: graph.leaves(),
        input,
        from,
    };
    push_lines(alloc, &mut page, start, &partials)?;
    page.finish()
}

/// Appends the lines of the first `SHOWN` partial matches by rank, and a line with the number of
/// omitted partial matches.
///
/// # Errors
///
/// Returns `AllocError` if memory runs out. Some lines may have been appended in this case.
fn push_lines(
    alloc: Global,
    page: &mut Page,
    start: ReadStart<'_, '_>,
    partials: &[PartialMatch],
) -> Result<(), AllocError>
    ensures { OnOk result ((text : List ℕ) × ArePartialLines start.entry.leaves.now
        start.entry.input.now start.entry.from text × Gains text page.old page.new) }
{
    for rank in 0..SHOWN {
        push_ranked(alloc, page, start, partials, rank)?;
    }
    let rest = others_text(alloc, partials.len().saturating_sub(SHOWN))?;
    page.push(rest.as_str());
    Ok(())
}

/// Returns a line with the number `count` of omitted partial matches, or an empty text if `count`
/// is 0.
fn others_text(alloc: Global, count: usize) -> Result<String, AllocError> {
    let mut page = Page::new(alloc, false);
    if count > 0 {
        page.push("  and ");
        page.push_number(count);
        page.push(" more\n");
    }
    page.finish()
}

/// Appends the line of the partial match with the rank `rank`, counted from 0. Appends nothing if
/// there is no such partial match.
///
/// # Errors
///
/// Returns `AllocError` if memory runs out. Nothing is appended in this case.
fn push_ranked(
    alloc: Global,
    page: &mut Page,
    start: ReadStart<'_, '_>,
    partials: &[PartialMatch],
    rank: usize,
) -> Result<(), AllocError>
    ensures { OnOk result (AddsLine start.entry.leaves.now start.entry.input.now start.entry.from
        page.old page.new) }
{
    let Some(partial) = ranked(partials, rank) else {
        return Ok(());
    };
    push_checked(alloc, page, start, partial)
}

/// Returns the partial match with the rank `rank`, counted from 0, or `None` if there is none.
fn ranked(partials: &[PartialMatch], rank: usize) -> Option<&PartialMatch> {
    for partial in partials {
        if rank_of(partials, partial) == rank {
            return Some(partial);
        }
    }
    None
}

/// Returns the number of partial matches in `partials` that come before `partial`.
fn rank_of(partials: &[PartialMatch], partial: &PartialMatch) -> usize {
    let mut rank: usize = 0;
    for other in partials {
        rank = rank.saturating_add(is_before(other, partial) as usize);
    }
    rank
}

/// Returns whether `one` comes before `other`. A partial match that ends later comes first. If both
/// end at the same offset, the partial match of the earlier leaf comes first.
fn is_before(one: &PartialMatch, other: &PartialMatch) -> bool {
    (one.end > other.end) | ((one.end == other.end) & (one.leaf < other.leaf))
}

/// Appends the line of a partial match that has at least one byte and ends within the input.
/// Appends nothing for any other partial match.
///
/// # Errors
///
/// Returns `AllocError` if memory runs out. Nothing is appended in this case.
fn push_checked(
    alloc: Global,
    page: &mut Page,
    start: ReadStart<'_, '_>,
    partial: &PartialMatch,
) -> Result<(), AllocError>
    ensures { OnOk result (AddsLine start.entry.leaves.now start.entry.input.now start.entry.from
        page.old page.new) }
{
    if partial.end <= start.from {
        return Ok(());
    }
    if start.input.len() < partial.end {
        return Ok(());
    }
    let needs = needs_of(alloc, partial)?;
    push_line(page, start, partial, needs.as_str());
    Ok(())
}

/// Appends the line of a partial match: its leaf, the bytes that the leaf reads, and the text
/// `needs` of the bytes that can follow.
fn push_line(page: &mut Page, start: ReadStart<'_, '_>, partial: &PartialMatch, needs: &str)
    ensures { Gains (partial_line start.entry.leaves.now start.entry.input.now start.entry.from
        partial.now.leaf partial.now.end needs.now) page.old page.new }
{
    push_reader(page, start, partial.leaf);
    push_read(page, start, partial.end);
    page.push("  then needs ");
    page.push(needs);
    page.push("\n");
}

/// Appends the index and the name of the leaf of a partial match.
fn push_reader(page: &mut Page, start: ReadStart<'_, '_>, leaf: usize)
    ensures { Gains (reader_text start.entry.leaves.now leaf) page.old page.new }
{
    page.push("  leaf ");
    page.push_number(leaf);
    page.push("  ");
    page.push(name_at(start.leaves, leaf));
}

/// Appends the bytes that a leaf reads up to the byte offset `end`, and the location of `end`.
fn push_read(page: &mut Page, start: ReadStart<'_, '_>, end: usize)
    ensures { Gains (read_text start.entry.input.now start.entry.from end) page.old page.new }
{
    page.push("  reads ");
    push_quoted(page, bytes_between(start.input, start.from, end));
    page.push(" to ");
    push_location(page, location_in(start.input, end));
}

/// Returns a text with the bytes that continue a partial match and the bytes that complete it.
fn needs_of(alloc: Global, partial: &PartialMatch) -> Result<String, AllocError> {
    let mut page = Page::new(alloc, false);
    push_next(&mut page, partial);
    push_last(&mut page, partial);
    page.finish()
}

/// Appends the bytes that continue a partial match. Also appends the end of the input if the end of
/// the input completes a match, or if no byte continues the partial match.
fn push_next(page: &mut Page, partial: &PartialMatch) {
    if partial.next.ranges.is_empty() {
        page.push("the end of the input");
        return;
    }
    push_needed(page, &partial.next);
    if partial.may_end {
        page.push(" or the end of the input");
    }
}

/// Appends the bytes that complete a partial match. Appends nothing if there are none, or if all of
/// them also continue the partial match.
fn push_last(page: &mut Page, partial: &PartialMatch) {
    if partial.last.ranges.is_empty() | (partial.last == partial.next) {
        return;
    }
    page.push("; ");
    push_needed(page, &partial.last);
    page.push(" completes it");
}
