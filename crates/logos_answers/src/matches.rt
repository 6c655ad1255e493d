//! Functions that append the matches that begin at an offset of an input. Used by `difference`,
//! `examples`, `logos_replies` and other crates.

ghost use Rattle.std.specs.Prelude.{◌≡◌, ◌<◌, ◌≤◌, ◌-◌, ◌==◌, ℕ, List, None, Some, IfOk, OnErr, OnOk, codes, get_or, if◌then◌else◌, length};
ghost use Rattle.logos_answers.specs.Imports as shown;
ghost use Rattle.logos_answers.specs.Imports.{AllStart, Gains, IsBytes, IsGraphOf, rules_of};

use crate::names::{name_at, push_leaf};
use crate::quotes::push_quoted;
use logos_evidence::{Match, matches_from, winner};
use logos_graph::graph::Graph;
use logos_page::Page;
use logos_pattern::leaf::Leaf;
use std::alloc::{AllocError, Global};

/// The leaves of a lexer, an input, and the byte offset `from` of the input at which matches begin.
#[derive(Clone, Copy)]
struct MatchStart<'a, 's> {
    leaves: &'a [Leaf<'s>],
    input: &'a [u8],
    from: usize,
}

/// Appends a line for each leaf with a match that begins at the byte offset `from` of an input: the
/// leaf, its priority, and its longest match from this offset. Then appends a line that names the
/// leaf whose match a lexer selects and the reason for the selection, or that states that no leaf
/// matches.
///
/// # Errors
///
/// Returns `AllocError` if memory runs out. Then nothing was appended.
pub fn push_matches(
    alloc: Global,
    page: &mut Page,
    graph: &Graph<'_>,
    input: &[u8],
    from: usize,
) -> Result<(), AllocError>
    requires { from ≤ length input.now }
    ensures shows { OnOk result (IsGraphOf graph.now.leaves graph.now.utf8 graph.now →
        AllStart (rules_of graph.now.leaves) → IsBytes input.now →
        shown.ShowsMatches graph.now.leaves input.now from page.old page.new) }
    ensures err { OnErr result (page.new ≡ page.old) }
{
    let matches = matches_from(alloc, graph, input, from)?;
    let start = MatchStart {
        leaves: graph.leaves(),
        input,
        from,
    };
    let longest = longest_of(alloc, start.leaves.len(), &matches)?;
    push_lines(page, start, &longest);
    push_verdict(page, start.leaves, &matches);
    Ok(())
}

/// Appends the match that a lexer selects at the beginning of an input, and returns `true`. Returns
/// `false` and appends nothing if no leaf matches at the beginning.
///
/// # Errors
///
/// Returns `AllocError` if memory runs out. Then nothing was appended.
pub fn push_first(
    alloc: Global,
    page: &mut Page,
    graph: &Graph<'_>,
    input: &[u8],
) -> Result<bool, AllocError>
    ensures { IfOk result (λ is_there. IsGraphOf graph.now.leaves graph.now.utf8 graph.now →
        AllStart (rules_of graph.now.leaves) → IsBytes input.now →
        shown.ShowsFirst graph.now.leaves input.now is_there page.old page.new) }
{
    let matches = matches_from(alloc, graph, input, 0)?;
    let Some(found) = winner(&matches) else {
        return Ok(false);
    };
    push_leaf(page, graph.leaves(), found.leaf);
    page.push(", ");
    push_quoted(page, bytes_between(input, 0, found.end));
    Ok(true)
}

/// Returns the last match in `matches` for each of `count` leaves, or `None` for a leaf without a
/// match. If `matches` is sorted by the ends of the matches, the last match of a leaf is its
/// longest match.
///
/// # Errors
///
/// Returns `AllocError` if memory runs out.
pub fn longest_of(
    alloc: Global,
    count: usize,
    matches: &[Match],
) -> Result<Vec<Option<Match>>, AllocError>
    ensures { IfOk result (λ longest. longest.items ≡ shown.longest_from matches.now 0 count) }
{
    let mut longest = vec![in alloc; None; count]?;
    for found in matches {
        set_longest(&mut longest, *found);
    }
    Ok(longest)
}

/// Stores `found` in `longest` as the match of its leaf, in place of an earlier match. Does nothing
/// if `longest` has no entry for the leaf.
fn set_longest(longest: &mut Vec<Option<Match>>, found: Match)
    ensures count { length longest.new.items ≡ length longest.old.items }
    ensures each { (leaf : ℕ) → leaf < length longest.old.items →
        get_or longest.new.items leaf None
        ≡ (if found.leaf == leaf then Some found else get_or longest.old.items leaf None) }
{
    if found.leaf < longest.len() {
        longest[found.leaf] = Some(found);
    }
}

/// Appends a line for each match in `longest`.
fn push_lines(page: &mut Page, start: MatchStart<'_, '_>, longest: &[Option<Match>])
    ensures { Gains (shown.lines_of start.entry.leaves.now start.entry.input.now start.entry.from
        longest.now) page.old page.new }
{
    for found in longest {
        push_found(page, start, *found);
    }
}

/// Appends the line of the match `found`, or nothing if `found` is `None`.
fn push_found(page: &mut Page, start: MatchStart<'_, '_>, found: Option<Match>)
    ensures { Gains (shown.line_or_none start.entry.leaves.now start.entry.input.now start.entry.from
        found) page.old page.new }
{
    if let Some(found) = found {
        push_line(page, start, found);
    }
}

/// Appends the line of a match: its leaf, its priority, its length and its text.
fn push_line(page: &mut Page, start: MatchStart<'_, '_>, found: Match)
    ensures { Gains (shown.match_line start.entry.leaves.now start.entry.input.now start.entry.from
        found) page.old page.new }
{
    push_head(page, start.leaves, found.leaf);
    page.push("priority ");
    page.push_number(found.priority);
    page.push("  ");
    push_extent(page, start, found.end);
}

/// Appends the beginning of the line of a leaf: its number and its name.
pub(crate) fn push_head(page: &mut Page, leaves: &[Leaf<'_>], leaf: usize)
    ensures { Gains (shown.leaf_head leaves.now leaf) page.old page.new }
{
    page.push("  leaf ");
    page.push_number(leaf);
    page.push("  ");
    page.push(name_at(leaves, leaf));
    page.push("  ");
}

/// Appends the length and the text of the match from the offset in `start` to the offset `end`, and
/// a line end.
fn push_extent(page: &mut Page, start: MatchStart<'_, '_>, end: usize)
    ensures { Gains (shown.extent_text start.entry.input.now start.entry.from end) page.old page.new }
{
    push_length(page, length_from(start.from, end));
    page.push("  ");
    push_quoted(page, bytes_between(start.input, start.from, end));
    page.push("\n");
}

/// Returns the length in bytes of a match from the offset `from` to the offset `end`.
fn length_from(from: usize, end: usize) -> usize
    ensures { result ≡ end - from }
{
    end.saturating_sub(from)
}

/// Appends a number of bytes with the unit `byte` or `bytes`.
fn push_length(page: &mut Page, count: usize)
    ensures { Gains (shown.length_text count) page.old page.new }
{
    page.push_number(count);
    page.push(unit_of(count));
}

/// Returns the unit after a number of bytes: ` byte` for 1, otherwise ` bytes`.
fn unit_of(count: usize) -> &'static str
    ensures { result.now ≡ (if count == 1 then codes " byte" else codes " bytes") }
{
    if count == 1 { " byte" } else { " bytes" }
}

/// Returns the bytes `from..to` of an input, or no bytes if `from..to` is not a range of the input.
pub fn bytes_between(input: &[u8], from: usize, to: usize) -> &[u8]
    ensures { result.now ≡ shown.bytes_between input.now from to }
{
    match input.get(from..to) {
        Some(bytes) => bytes,
        None => &[],
    }
}

/// Appends a line that names the leaf whose match a lexer selects and the reason for the selection,
/// or that states that no leaf matches.
fn push_verdict(page: &mut Page, leaves: &[Leaf<'_>], matches: &[Match])
    ensures { (text : List ℕ) × shown.IsVerdict leaves.now matches.now text
        × Gains text page.old page.new }
{
    match winner(matches) {
        Some(found) => push_winner(page, leaves, matches, found),
        None => page.push("no leaf matches\n"),
    }
}

/// Appends the line that names the leaf of the selected match `found` and the reason for the
/// selection.
fn push_winner(page: &mut Page, leaves: &[Leaf<'_>], matches: &[Match], found: Match)
    ensures { Gains (shown.winner_text leaves.now matches.now found) page.old page.new }
{
    push_leaf(page, leaves, found.leaf);
    page.push(reason(matches, found));
}

/// Returns the reason why a lexer selects the match `found`, as the end of a line.
fn reason(matches: &[Match], found: Match) -> &'static str
    ensures { result.now ≡ shown.reason matches.now found }
{
    if has_rival(matches, found) {
        " wins: it has the highest priority of the longest matches\n"
    } else {
        " wins: its match is the longest\n"
    }
}

/// Returns whether a match of another leaf ends where `found` ends.
fn has_rival(matches: &[Match], found: Match) -> bool
    ensures { result ≡ shown.has_rival matches.now found }
{
    matches.iter().any(|other| (other.end == found.end) & (other.leaf != found.leaf))
}
