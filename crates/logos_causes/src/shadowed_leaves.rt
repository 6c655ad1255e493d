//! Functions that find the leaves that are never found in any input, and the leaves that are found
//! instead. Used by `explanation`.

ghost use Rattle.std.specs.Prelude.{◌≡◌, ◌<◌, IfOk, IsTrue, OnOk, length};
ghost use Rattle.logos_causes.specs.Views.{AddsEach, AreMarks, IsHidden, IsMarked, IsSet};

use crate::names::{name_of, text_with};
use crate::quotes::push_quoted;
use logos_automaton::dfa::{Dfa, Matches, StateId};
use logos_evidence::{loses, matches_from, winner};
use logos_graph::graph::Graph;
use logos_inspect::marked_leaves;
use logos_page::Page;
use logos_pattern::leaf::Leaf;
use logos_report::Warning;
use logos_warnings::plain_warning;
use std::alloc::{AllocError, Global};

/// The maximum number of hidden leaves for which the leaf that is found instead is searched for.
const SEARCHED: usize = 10;

/// Appends a warning to `warnings` for each leaf of a graph that is never found.
pub(crate) fn add_hidden(
    alloc: Global,
    graph: &Graph<'_>,
    warnings: &mut Vec<Warning>,
) -> Result<(), AllocError>
    ensures { OnOk result (AddsEach (IsHidden graph.now) warnings.old.items warnings.new.items) }
{
    let marked = marked_leaves(alloc, graph)?;
    let mut count: usize = 0;
    for number in 0..graph.leaves().len() {
        count = add_if_hidden(graph, &marked, number, count, warnings)?;
    }
    Ok(())
}

/// Appends a warning for the leaf with the number `number` to `warnings` if the leaf is never
/// found. A leaf is never found if its flag in `marked` is `false`. `count` is the number of
/// earlier leaves with a warning. Returns `count + 1` if a warning was appended, and `count`
/// otherwise.
fn add_if_hidden(
    graph: &Graph<'_>,
    marked: &[bool],
    number: usize,
    count: usize,
    warnings: &mut Vec<Warning>,
) -> Result<usize, AllocError>
    requires marks { AreMarks graph.now marked.now }
    requires inside { number < length graph.now.leaves }
    ensures { IfOk result (λ next.
        AddsEach (IsHidden graph.now) warnings.old.items warnings.new.items) }
{
    if is_unmarked(marked, number) {
        add_leaf(graph, number, count < SEARCHED, warnings)?;
        return Ok(count.saturating_add(1));
    }
    Ok(count)
}

/// Returns whether the leaf with the number `number` has a flag in `marked` and the flag is
/// `false`.
fn is_unmarked(marked: &[bool], number: usize) -> bool
    ensures { IsTrue result → ¬ IsSet marked.now number }
{
    if number < marked.len() {
        return !marked[number];
    }
    false
}

/// Appends the warning for a leaf that is never found to `warnings`. `number` is the number of the
/// leaf. The warning names the leaf that is found instead only if `is_searched` is `true`.
fn add_leaf(
    graph: &Graph<'_>,
    number: usize,
    is_searched: bool,
    warnings: &mut Vec<Warning>,
) -> Result<(), AllocError>
    requires { ¬ IsMarked graph.now.states number }
    ensures { OnOk result (AddsEach (IsHidden graph.now) warnings.old.items warnings.new.items) }
{
    let alloc = *warnings.allocator();
    let Some(leaf) = graph.leaves().get(number) else {
        return Ok(());
    };
    let warning = hidden_warning(alloc, graph, (number, leaf), is_searched)?;
    warnings.push(warning)?;
    Ok(())
}

/// Returns the warning for a leaf that is never found. `hidden` contains the number of the leaf and
/// the leaf itself. The warning names the leaf that is found instead only if `is_searched` is
/// `true`.
fn hidden_warning(
    alloc: Global,
    graph: &Graph<'_>,
    hidden: (usize, &Leaf<'_>),
    is_searched: bool,
) -> Result<Warning, AllocError>
    ensures { IfOk result (λ warning. warning.span ≡ hidden.entry.1.now.span) }
{
    let mut warning = warning_of(alloc, hidden.1)?;
    if !is_searched {
        return Ok(warning);
    }
    explain(alloc, graph, hidden.0, &mut warning)?;
    Ok(warning)
}

/// Returns the warning for a leaf that is never found. The warning does not name the leaf that is
/// found instead.
fn warning_of(alloc: Global, leaf: &Leaf<'_>) -> Result<Warning, AllocError>
    ensures { IfOk result (λ warning. warning.span ≡ leaf.now.span) }
{
    let message = text_with(
        alloc,
        "this pattern of `",
        leaf,
        "` is never found: where it matches, others match more or have a higher priority",
    )?;
    Ok(plain_warning(message, leaf.span, None))
}

/// Explains in `warning` why the leaf with the number `number` is never found. Adds a text on which
/// another leaf is found instead, and the name and the span of the other leaf. Leaves `warning`
/// unchanged if there is no such text.
fn explain(
    alloc: Global,
    graph: &Graph<'_>,
    number: usize,
    warning: &mut Warning,
) -> Result<(), AllocError>
    ensures { warning.new.span ≡ warning.old.span }
{
    let Some(bytes) = loses(alloc, graph, number)? else {
        return Ok(());
    };
    let matches = matches_from(alloc, graph, &bytes, 0)?;
    let Some(taken) = winner(&matches) else {
        return Ok(());
    };
    let Some(other) = graph.leaves().get(taken.leaf) else {
        return Ok(());
    };
    let likeness = likeness_of(graph, number, taken.leaf);
    warning.note = Some(note_of(alloc, &bytes, other, likeness)?);
    warning.also = Some(other.span);
    Ok(())
}

/// Returns the relation between the patterns of the leaves with the numbers `one` and `other`, as
/// the end of a sentence. The sentence states that the patterns have equal texts, or that they
/// match the same texts. Returns an empty text if neither holds.
fn likeness_of(graph: &Graph<'_>, one: usize, other: usize) -> &'static str {
    if is_written_alike(graph.leaves(), one, other) {
        ": its pattern is the same"
    } else if are_twins(graph.dfa(), one, other) {
        ": its pattern matches the same texts"
    } else {
        ""
    }
}

/// Returns whether the patterns of the leaves with the numbers `one` and `other` have equal texts.
fn is_written_alike(leaves: &[Leaf<'_>], one: usize, other: usize) -> bool {
    match (leaves.get(one), leaves.get(other)) {
        (Some(one), Some(other)) => one.pattern.source() == other.pattern.source(),
        _ => false,
    }
}

/// Returns whether the leaves with the numbers `one` and `other` match exactly the same texts. This
/// holds if each state of `dfa` lists both leaves or neither.
fn are_twins(dfa: &Dfa, one: usize, other: usize) -> bool {
    for state in dfa.get_states() {
        if parts_leaves(dfa, state, one, other) {
            return false;
        }
    }
    true
}

/// Returns whether `state` lists exactly one of the leaves with the numbers `one` and `other`.
/// Returns `false` if `dfa` does not have the state.
fn parts_leaves(dfa: &Dfa, state: StateId, one: usize, other: usize) -> bool {
    if !dfa.contains(state) {
        return false;
    }
    let matches = dfa.iter_matches(state);
    lists(matches, one) != lists(matches, other)
}

/// Returns whether the leaf with the number `number` is in `leaves`.
fn lists(leaves: Matches<'_>, number: usize) -> bool {
    for leaf in leaves {
        if leaf.0 == number {
            return true;
        }
    }
    false
}

/// Returns the note stating that the leaf `other` is found on the text `bytes`. The note contains
/// the priority of `other`. The note also contains `likeness`, the relation of `other` to the leaf
/// that is never found.
fn note_of(
    alloc: Global,
    bytes: &[u8],
    other: &Leaf<'_>,
    likeness: &str,
) -> Result<String, AllocError> {
    let mut page = Page::new(alloc, false);
    page.push("on ");
    push_quoted(&mut page, bytes);
    page.push(" `");
    page.push(name_of(other));
    page.push("` is found, with priority ");
    page.push_number(other.priority);
    page.push(likeness);
    page.finish()
}
