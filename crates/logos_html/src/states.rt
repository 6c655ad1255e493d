//! Writes the states of a graph as a table of a page, with links between the states. Used by
//! `document`.

use crate::classes::push_class;
use crate::html::Html;
use crate::leaves::push_leaf_link;
use logos_attempts::Entries;
use logos_graph::graph::{Graph, State, StateData, StateType};
use std::alloc::{AllocError, Global};

/// The maximum number of states that the table lists.
const LISTED: usize = 1000;

/// The maximum number of byte ranges that are shown for an edge.
const RANGES: usize = 12;

/// Appends the section of the states of a graph. If the page shows an input, `entries` contains the
/// number of times that match attempts on the input enter each state.
///
/// # Errors
///
/// Returns `AllocError` if memory runs out. Then a part of the section may have been appended.
pub(crate) fn push_states(
    alloc: Global,
    html: &mut Html,
    graph: &Graph<'_>,
    states: &[&StateData],
    entries: Option<&Entries>,
) -> Result<(), AllocError> {
    html.push_markup(
        "<section id=\"states\" aria-labelledby=\"states-title\">
<h2 id=\"states-title\">States</h2>
<p>Each match attempt begins in state 0. At a late mark the match ends one byte before the state is
entered. Sets of bytes are written as in a pattern.</p>
",
    );
    push_cut(html, states.len());
    push_head(html, entries);
    for number in 0..states.len() {
        push_listed(alloc, html, graph, number, states[number], entries)?;
    }
    html.push_markup("</tbody>\n</table>\n</div>\n</section>\n");
    Ok(())
}

/// Appends the head of the table. If `entries` is `Some`, the head has a column for the counts of
/// entries, and a sentence before the table explains these counts.
fn push_head(html: &mut Html, entries: Option<&Entries>) {
    if let Some(entries) = entries {
        html.push_markup(
            "<p>The column Entered counts how often match attempts enter the state, in the first ",
        );
        html.push_number(entries.end);
        html.push_markup(" bytes of the text.</p>\n");
    }
    html.push_markup(
        "<div class=\"box\" role=\"region\" aria-label=\"Table of states\" tabindex=\"0\">
<table class=\"s\">
<thead>
<tr><th scope=\"col\">State</th><th scope=\"col\">Mark</th>",
    );
    if entries.is_some() {
        html.push_markup("<th scope=\"col\">Entered</th>");
    }
    html.push_markup("<th scope=\"col\">Edges</th></tr>\n</thead>\n<tbody>\n");
}

/// Appends a sentence that states that only the first states are listed. Appends nothing if all
/// `count` states are listed.
fn push_cut(html: &mut Html, count: usize) {
    if count > LISTED {
        html.push_markup("<p class=\"cut\">The first ");
        html.push_number(LISTED);
        html.push_markup(" of ");
        html.push_number(count);
        html.push_markup(" states are listed.</p>\n");
    }
}

/// Appends the row of the state with the number `number`, or nothing if the state is not listed.
fn push_listed(
    alloc: Global,
    html: &mut Html,
    graph: &Graph<'_>,
    number: usize,
    state: &StateData,
    entries: Option<&Entries>,
) -> Result<(), AllocError> {
    if number >= LISTED {
        return Ok(());
    }
    html.push_markup("<tr id=\"state-");
    html.push_number(number);
    html.push_markup("\"><th scope=\"row\">");
    html.push_number(number);
    html.push_markup("</th><td>");
    push_mark(html, graph, state.state_type);
    html.push_markup("</td>");
    push_count(html, number, entries);
    html.push_markup("<td><ul>");
    push_edges(alloc, html, state)?;
    html.push_markup("</ul></td></tr>\n");
    Ok(())
}

/// Appends the cell with the number of times that a state is entered, or nothing if `entries` is
/// `None`.
fn push_count(html: &mut Html, number: usize, entries: Option<&Entries>) {
    if let Some(entries) = entries {
        html.push_markup("<td class=\"n\">");
        html.push_number(count_at(&entries.counts, number));
        html.push_markup("</td>");
    }
}

/// Returns the count of the state with the number `state`, or 0 if there is no such state.
fn count_at(counts: &[usize], state: usize) -> usize {
    match counts.get(state) {
        Some(count) => *count,
        None => 0,
    }
}

/// Appends the mark of a state, or nothing if the state has no mark. If the state has two marks,
/// only the early mark is shown.
fn push_mark(html: &mut Html, graph: &Graph<'_>, state_type: StateType) {
    match (state_type.early, state_type.accept) {
        (Some(leaf), _) => {
            html.push_markup("early: ");
            push_leaf_link(html, graph, leaf.0);
        }
        (None, Some(leaf)) => {
            html.push_markup("late: ");
            push_leaf_link(html, graph, leaf.0);
        }
        (None, None) => {}
    }
}

/// Appends the edges of a state as the items of an HTML list.
fn push_edges(alloc: Global, html: &mut Html, state: &StateData) -> Result<(), AllocError> {
    for edge in &state.normal {
        html.push_markup("<li><code>");
        push_class(alloc, html, &edge.0, RANGES)?;
        html.push_markup("</code> to ");
        push_state_link(html, edge.1);
        html.push_markup("</li>");
    }
    push_end_edge(html, state.eoi);
    Ok(())
}

/// Appends the edge for the end of the input, or nothing if `end` is `None`.
fn push_end_edge(html: &mut Html, end: Option<State>) {
    if let Some(target) = end {
        html.push_markup("<li>end of input to ");
        push_state_link(html, target);
        html.push_markup("</li>");
    }
}

/// Appends the number of a state. The number is a link to the row of the state if this row is
/// listed.
fn push_state_link(html: &mut Html, state: State) {
    let number = state.index();
    if number >= LISTED {
        html.push_number(number);
        return;
    }
    html.push_markup("<a href=\"#state-");
    html.push_number(number);
    html.push_markup("\">");
    html.push_number(number);
    html.push_markup("</a>");
}
