//! Describes each item of an input by the lines that `--at` prints for the start of the item. Used
//! by `document`.

ghost use Rattle.std.specs.Prelude.{◌≡◌, ◌+◌, ◌≤◌, IfOk, drop, length, map, string_bytes};
ghost use Rattle.logos_html.specs.Views.{AllStart, AreDescribed, IsBytes, IsDescribed, IsDescription, IsEnough, IsGraphOf, described_of, item_of, items_of, rules_of, start_of};

use crate::finds::span_of;
use crate::prefixes::enough_bytes;
use logos_answers::push_matches;
use logos_attempts::push_partials;
use logos_automaton::dfa::parts::state_count;
use logos_code::code::Code;
use logos_graph::graph::Graph;
use logos_machine::machine::Item;
use logos_page::Page;
use std::alloc::{AllocError, Global};

/// The maximum number of steps for making the descriptions of a page.
const MOST: usize = 268_435_456;

/// The number of steps that are counted for reading or writing a byte.
const BYTE: usize = 64;

/// The maximum number of bytes that are read for one description.
const LONGEST: usize = 65_536;

/// An item of an input, with its description.
#[derive(Drop)]
pub(crate) struct Described<'i> {
    pub(crate) item: Item<'i>,
    /// The lines that describe the item, or an empty text if the lines would add nothing to the
    /// item's label.
    pub(crate) description: String,
}

/// A lexer, and the input whose items are described.
#[derive(Clone, Copy)]
pub(crate) struct Subject<'a, 's> {
    pub(crate) graph: &'a Graph<'s>,
    pub(crate) code: &'a Code<'s>,
    pub(crate) bytes: &'a [u8],
}

/// A budget of steps for the descriptions of a page. The budget bounds the size of the descriptions
/// and the time for making the descriptions.
#[derive(Clone, Copy)]
pub(crate) struct Budget {
    left: usize,
    /// The start of the first item for which the budget was too small, as an offset in bytes, or
    /// `None` if there was no such item. This item and all later items have no description.
    pub(crate) end: Option<usize>,
}

/// Returns a budget of `MOST` steps.
pub(crate) fn new_budget() -> Budget {
    Budget {
        left: MOST,
        end: None,
    }
}

/// Returns each of `items` with its description. The steps for the descriptions are taken from
/// `budget`.
///
/// # Errors
///
/// Returns `AllocError` if memory runs out.
pub(crate) fn describe<'i>(
    alloc: Global,
    subject: Subject<'_, '_>,
    budget: &mut Budget,
    items: &[Item<'i>],
) -> Result<Vec<Described<'i>>, AllocError>
    ensures items { IfOk result (λ described. items_of described.items ≡ map item_of items.now) }
    ensures described { IfOk result (λ described. AreDescribed subject.entry.code.now
        subject.entry.graph.now subject.entry.bytes.now (map described_of described.items)) }
{
    let mut described = Vec::new(alloc);
    for item in items {
        let description = description_of(alloc, subject, budget, *item)?;
        described.push(Described {
            item: *item,
            description,
        })?;
    }
    Ok(described)
}

/// Returns the description of an item, or an empty text if the description would add nothing to the
/// label of the item or if the budget is too small. The steps for the description are taken from
/// `budget`.
fn description_of(
    alloc: Global,
    subject: Subject<'_, '_>,
    budget: &mut Budget,
    item: Item<'_>,
) -> Result<String, AllocError>
    ensures { IfOk result (λ text. IsGraphOf subject.entry.graph.now.leaves
        subject.entry.graph.now.utf8 subject.entry.graph.now →
        AllStart (rules_of subject.entry.graph.now.leaves) → IsBytes subject.entry.bytes.now →
        IsDescribed subject.entry.graph.now.leaves subject.entry.code.now subject.entry.bytes.now
        (record { item = item_of item.entry; description = string_bytes text })) }
{
    let from = span_of(item).from;
    if subject.bytes.len() < from {
        return Ok(String::new(alloc));
    }
    let most = LONGEST.min(budget.left / BYTE);
    let Some(count) = enough_bytes(subject.graph.dfa(), &subject.bytes[from..], most) else {
        close(budget, from);
        return Ok(String::new(alloc));
    };
    let text = answer_of(alloc, subject, from, count)?;
    if is_usual(subject, budget, item, count, text.as_str()) {
        return Ok(String::new(alloc));
    }
    Ok(text)
}

/// Returns the lines that `--at` prints for the offset `from` of an input: the matches that start
/// at this offset, and the partial matches if no leaf matches. Reads only the bytes before the
/// offset `from + count`. These bytes must suffice to decide which leaves match.
///
/// # Errors
///
/// Returns `AllocError` if memory runs out.
fn answer_of(
    alloc: Global,
    subject: Subject<'_, '_>,
    from: usize,
    count: usize,
) -> Result<String, AllocError>
    requires { from + count ≤ length subject.bytes.now }
    ensures { IfOk result (λ text. IsGraphOf subject.entry.graph.now.leaves
        subject.entry.graph.now.utf8 subject.entry.graph.now →
        AllStart (rules_of subject.entry.graph.now.leaves) → IsBytes subject.entry.bytes.now →
        IsEnough subject.entry.graph.now.automaton (drop from subject.entry.bytes.now) count →
        IsDescription subject.entry.graph.now.leaves subject.entry.code.now
        subject.entry.bytes.now from (string_bytes text)) }
{
    let prefix = &subject.bytes[..from + count];
    let mut page = Page::new(alloc, false);
    push_matches(alloc, &mut page, subject.graph, prefix, from)?;
    push_partials(alloc, &mut page, subject.graph, subject.code, prefix, from)?;
    let text = page.finish()?;
    Ok(text)
}

/// Returns whether `text`, the lines about an item, adds nothing to the item's label. This is the
/// case if `text` has no more lines than `usual_lines` returns. The steps for the lines are taken
/// from `budget`. `count` is the number of bytes that were read for the lines.
fn is_usual(
    subject: Subject<'_, '_>,
    budget: &mut Budget,
    item: Item<'_>,
    count: usize,
    text: &str,
) -> bool {
    let lines = line_count(text);
    spend(budget, count.saturating_mul(BYTE));
    spend(budget, steps_at(subject, item, lines));
    if lines <= usual_lines(item) {
        return true;
    }
    spend(budget, text.len().saturating_mul(BYTE));
    false
}

/// Returns the number of steps for the partial matches at an error, or 0 for a match. The search
/// for partial matches visits each state for each leaf. Each of the `lines` lines after the first
/// contains a location, which is counted from the beginning of the input.
fn steps_at(subject: Subject<'_, '_>, item: Item<'_>, lines: usize) -> usize {
    match item {
        Item::Token { .. } => 0,
        Item::Error { span, .. } => {
            let leaves = subject.graph.leaves().len();
            let walked = state_count(subject.graph.dfa()).saturating_mul(leaves.saturating_add(
                BYTE,
            ));
            walked.saturating_add(lines.saturating_sub(1).saturating_mul(span.to))
        }
    }
}

/// Subtracts `count` steps from a budget, saturating at 0.
fn spend(budget: &mut Budget, count: usize) {
    budget.left = budget.left.saturating_sub(count);
}

/// Sets the steps of a budget to 0. Records `from`, the start of an item, as the end of the budget
/// unless the budget already has an end.
fn close(budget: &mut Budget, from: usize) {
    budget.left = 0;
    if budget.end.is_none() {
        budget.end = Some(from);
    }
}

/// Returns the maximum number of lines about an item that add nothing to the label of the item: one
/// line for the verdict, and one for the match unless the item is an error.
fn usual_lines(item: Item<'_>) -> usize {
    match item {
        Item::Token { .. } => 2,
        Item::Error { .. } => 1,
    }
}

/// Returns the number of line ends of a text.
fn line_count(text: &str) -> usize {
    let mut count: usize = 0;
    for byte in text.as_bytes() {
        count = count.saturating_add((*byte == b'\n') as usize);
    }
    count
}
