//! Functions that find the clues about the sets of ambiguous leaves of a graph. The leaves of a set
//! meet on a text if exactly these leaves match the text with the highest priority. Used by
//! `explanation`.

ghost use Rattle.std.specs.Prelude.{◌≡◌, ◌≤◌, ◌++◌, ◌∷◌, [], IfOk, IsTrue, OnOk, length, map};
ghost use Rattle.std.specs.List.Sorted.{IsStrictlyIncreasing};
ghost use Rattle.logos_causes.specs.Imports.{fault_of, numbers, set_size, set_sizes, size_of};

use crate::names::name_of;
use crate::quotes::push_quoted;
use logos_evidence::{Match, matches_from, meeting};
use logos_graph::graph::{Graph, GraphError};
use logos_hir::leaf::LeafId;
use logos_page::Page;
use logos_pattern::leaf::Leaf;
use logos_report::Meeting;
use std::alloc::{AllocError, Global};

/// The maximum number of sets for which a text that all leaves of the set match is searched for.
const SEARCHED: usize = 10;

/// Returns one clue for each set of ambiguous leaves of a graph, in the order of the graph's
/// faults.
pub(crate) fn meetings_of(alloc: Global, graph: &Graph<'_>) -> Result<Vec<Meeting>, AllocError>
    ensures { IfOk result (λ meetings. map size_of meetings.items ≡ set_sizes graph.now.faults) }
{
    let mut meetings = Vec::new(alloc);
    let faults = graph.errors();
    for fault in faults {
        add_fault(alloc, graph, fault, &mut meetings)?;
    }
    Ok(meetings)
}

/// Appends the clue about the set of ambiguous leaves in `fault` to `meetings`. Appends nothing if
/// `fault` is not about ambiguous leaves.
fn add_fault(
    alloc: Global,
    graph: &Graph<'_>,
    fault: &GraphError,
    meetings: &mut Vec<Meeting>,
) -> Result<(), AllocError>
    ensures { OnOk result (map size_of meetings.new.items
        ≡ map size_of meetings.old.items ++ set_size (fault_of fault.now)) }
{
    match fault {
        GraphError::Disambiguation(leaves) => add_set(alloc, graph, leaves, meetings),
        GraphError::EmptyMatch(_) => Ok(()),
        GraphError::NoUniversalStart => Ok(()),
    }
}

/// Appends the clue about the set of ambiguous leaves `leaves` to `meetings`.
fn add_set(
    alloc: Global,
    graph: &Graph<'_>,
    leaves: &[LeafId],
    meetings: &mut Vec<Meeting>,
) -> Result<(), AllocError>
    ensures { OnOk result (map size_of meetings.new.items
        ≡ map size_of meetings.old.items ++ length (numbers leaves.now) ∷ []) }
{
    let set = numbers_of(alloc, leaves)?;
    let is_searched = meetings.len() < SEARCHED;
    let meeting = meeting_of(alloc, graph, &set, is_searched)?;
    meetings.push(meeting)?;
    Ok(())
}

/// Returns the numbers of `leaves`, in the order of `leaves`.
fn numbers_of(alloc: Global, leaves: &[LeafId]) -> Result<Vec<usize>, AllocError>
    ensures { IfOk result (λ set. set.items ≡ numbers leaves.now) }
{
    let mut set = Vec::new(alloc);
    for leaf in leaves {
        set.push(leaf.0)?;
    }
    Ok(set)
}

/// Returns the clue about the set of ambiguous leaves with the numbers `set`. The function searches
/// for a text that all of these leaves match only if `is_searched` is `true`.
fn meeting_of(
    alloc: Global,
    graph: &Graph<'_>,
    set: &[usize],
    is_searched: bool,
) -> Result<Meeting, AllocError>
    ensures { IfOk result (λ meeting. size_of meeting ≡ length set.now) }
{
    Ok(Meeting {
        names: names_of(alloc, graph.leaves(), set)?,
        note: note_of(alloc, graph, set, is_searched)?,
    })
}

/// Returns the names of the leaves with the numbers `set`, in the order of the numbers. `leaves`
/// contains all leaves.
fn names_of(alloc: Global, leaves: &[Leaf<'_>], set: &[usize]) -> Result<Vec<String>, AllocError>
    ensures { IfOk result (λ names. length names.items ≡ length set.now) }
{
    let mut names = Vec::new(alloc);
    for number in set {
        names.push(name_at(alloc, leaves, *number)?)?;
    }
    Ok(names)
}

/// Returns the name of the leaf with the number `number`, or an empty text if there is no such
/// leaf.
fn name_at(alloc: Global, leaves: &[Leaf<'_>], number: usize) -> Result<String, AllocError> {
    let name = match leaves.get(number) {
        Some(leaf) => name_of(leaf),
        None => "",
    };
    String::from_str(alloc, name)
}

/// Returns the note about the set of ambiguous leaves with the numbers `set`. The note contains a
/// text that all of these leaves match, the priority of the leaves, and a priority that would
/// decide between the leaves. The note contains a general phrase instead of the text if no text is
/// found or `is_searched` is `false`.
fn note_of(
    alloc: Global,
    graph: &Graph<'_>,
    set: &[usize],
    is_searched: bool,
) -> Result<String, AllocError> {
    let mut page = Page::new(alloc, false);
    page.push(if set.len() == 2 {
        "both match "
    } else {
        "all match "
    });
    if is_searched {
        push_text(alloc, &mut page, graph, set)?;
    } else {
        page.push("a same text");
    }
    push_priority(&mut page, priority_of(graph.leaves(), set));
    page.finish()
}

/// Returns the priority of the set of ambiguous leaves with the numbers `set`. All leaves of the
/// set have the priority of the first leaf. Returns 0 if the first leaf does not exist.
fn priority_of(leaves: &[Leaf<'_>], set: &[usize]) -> usize {
    let Some(first) = set.first() else {
        return 0;
    };
    match leaves.get(*first) {
        Some(leaf) => leaf.priority,
        None => 0,
    }
}

/// Appends the priority of a set of ambiguous leaves, and the lowest priority that would decide
/// between the leaves.
fn push_priority(page: &mut Page, priority: usize) {
    page.push(" with priority ");
    page.push_number(priority);
    page.push(", so ");
    page.push_number(priority.saturating_add(1));
    page.push(" would decide");
}

/// Appends a shortest input with a prefix on which exactly the leaves with the numbers `set` meet:
/// first the prefix, and then the rest of the input. Appends a general phrase if no such input is
/// found.
fn push_text(
    alloc: Global,
    page: &mut Page,
    graph: &Graph<'_>,
    set: &[usize],
) -> Result<(), AllocError> {
    match text_of(alloc, graph, set)? {
        Some(bytes) => {
            let matches = matches_from(alloc, graph, &bytes, 0)?;
            push_found(page, &bytes, end_of(&matches, set).min(bytes.len()));
            Ok(())
        }
        None => {
            page.push("a same text");
            Ok(())
        }
    }
}

/// Returns a shortest input with a prefix on which exactly the leaves with the numbers `set` meet.
/// Returns `None` if there is no such input, if `set` is empty, or if the numbers do not ascend.
fn text_of(alloc: Global, graph: &Graph<'_>, set: &[usize]) -> Result<Option<Vec<u8>>, AllocError> {
    if set.is_empty() {
        return Ok(None);
    }
    if !ascends(set) {
        return Ok(None);
    }
    let found = meeting(alloc, graph, set)?;
    Ok(found)
}

/// Returns whether the numbers in `set` are in strictly ascending order.
fn ascends(set: &[usize]) -> bool
    ensures { IsTrue result → IsStrictlyIncreasing set.now }
{
    let mut at: usize = 1;
    while at < set.len() {
        if set[at - 1] >= set[at] {
            return false;
        }
        at += 1;
    }
    true
}

/// Appends the text on which leaves meet, the prefix of `input` that ends at `end`. Also appends
/// the rest of `input` unless the rest is empty.
fn push_found(page: &mut Page, input: &[u8], end: usize)
    requires { end ≤ length input.now }
{
    push_quoted(page, &input[..end]);
    if end < input.len() {
        page.push(" in front of ");
        push_quoted(page, &input[end..]);
    }
}

/// Returns the end of the first text on which exactly the leaves with the numbers `set` meet, or
/// `usize::MAX` if there is none. `matches` contains all matches from the beginning of the input.
fn end_of(matches: &[Match], set: &[usize]) -> usize {
    for one in matches {
        if is_first(*one, set) && is_met(matches, *one, set) {
            return one.end;
        }
    }
    usize::MAX
}

/// Returns whether `one` is a match of the first leaf of `set`. Returns `false` for an empty set.
fn is_first(one: Match, set: &[usize]) -> bool {
    match set.first() {
        Some(leaf) => one.leaf == *leaf,
        None => false,
    }
}

/// Returns whether exactly the leaves with the numbers `set` have a match that ends where `one`
/// ends and has at least the priority of `one`. `matches` contains all matches from the beginning
/// of the input.
fn is_met(matches: &[Match], one: Match, set: &[usize]) -> bool {
    let mut count: usize = 0;
    for other in matches {
        if (other.end == one.end) & (other.priority >= one.priority) {
            if !set.contains(&other.leaf) {
                return false;
            }
            count = count.saturating_add(1);
        }
    }
    count == set.len()
}
