//! Draws a graph with at most 60 states in SVG. Used by `document`.

use crate::classes::push_class;
use crate::html::Html;
use crate::layers::{Cell, Layers, layers_of};
use logos_answers::name_at;
use logos_graph::graph::{Graph, StateData, StateType};
use std::alloc::{AllocError, Global};

/// The maximum number of states of a graph that is drawn.
const DRAWN: usize = 60;

/// The maximum number of byte ranges that are shown beside an edge.
const RANGES: usize = 2;

/// The horizontal distance between the centers of states in neighboring columns.
const WIDE: usize = 170;

const HIGH: usize = 100;

/// The distance between the centers of the outermost states and the borders of the drawing.
const MARGIN: usize = 70;

/// The radius of the ring of a state.
const RADIUS: usize = 20;

/// The distance of a curve from the states that the curve connects, measured at its control points.
const DEEP: usize = 60;

/// The horizontal distance between the label of an edge and the target of the edge.
const BEFORE: usize = 66;

/// A point of a drawing, relative to the upper left corner.
#[derive(Clone, Copy)]
struct Dot {
    x: usize,
    y: usize,
}

/// The form of an edge: to a state on the right, to the state itself, to another state in the same
/// column, or to a state on the left.
#[derive(Clone, Copy)]
enum Bend {
    Forward,
    Loop,
    Aside,
    Back,
}

/// Appends the section with the drawing of a graph, or with the reason why the graph is not drawn.
///
/// # Errors
///
/// Returns `AllocError` if memory runs out. Then a part of the section may have been appended.
pub(crate) fn push_drawing(
    alloc: Global,
    html: &mut Html,
    graph: &Graph<'_>,
    states: &[&StateData],
) -> Result<(), AllocError> {
    html.push_markup(
        "<section id=\"drawing\" aria-labelledby=\"drawing-title\">
<h2 id=\"drawing-title\">Drawing</h2>
",
    );
    if states.len() > DRAWN {
        push_too_large(html, states.len());
    } else {
        push_graph(alloc, html, graph, states)?;
    }
    html.push_markup("</section>\n");
    Ok(())
}

/// Appends the reason why a graph of `count` states is not drawn.
fn push_too_large(html: &mut Html, count: usize) {
    html.push_markup("<p class=\"cut\">Only lexers of at most ");
    html.push_number(DRAWN);
    html.push_markup(" states are drawn. This one has ");
    html.push_number(count);
    html.push_markup(" states, which the table lists.</p>\n");
}

/// Appends the drawing of a graph, and the sentence that explains the drawing.
fn push_graph(
    alloc: Global,
    html: &mut Html,
    graph: &Graph<'_>,
    states: &[&StateData],
) -> Result<(), AllocError> {
    let layers = layers_of(alloc, states)?;
    html.push_markup(
        "<p>A double ring is a state with a mark, and a dashed line is the end of the input. The
table of states has the same edges as text.</p>
<div class=\"box\" role=\"region\" aria-label=\"Drawing of the states\" tabindex=\"0\">
",
    );
    push_frame(html, &layers, states.len());
    for number in 0..states.len() {
        push_edges(alloc, html, &layers, number, states[number])?;
    }
    for number in 0..states.len() {
        push_node(html, graph, &layers, number, states[number].state_type);
    }
    html.push_markup("</svg>\n</div>\n");
    Ok(())
}

/// Appends the beginning of the drawing of `count` states: its size, its title and its arrowhead.
fn push_frame(html: &mut Html, layers: &Layers, count: usize) {
    let end = dot_at(Cell {
        column: layers.columns.saturating_sub(1),
        row: layers.rows.saturating_sub(1),
    });
    html.push_markup("<svg role=\"img\" aria-labelledby=\"drawing-name\" width=\"");
    html.push_number(end.x.saturating_add(MARGIN));
    html.push_markup("\" height=\"");
    html.push_number(end.y.saturating_add(MARGIN));
    html.push_markup("\">\n<title id=\"drawing-name\">The graph of the lexer: ");
    html.push_number(count);
    html.push_markup(" states, from left to right by their distance from state 0</title>\n");
    html.push_markup(
        "<defs><marker id=\"head\" viewBox=\"0 0 8 8\" refX=\"8\" refY=\"4\" markerWidth=\"8\"
markerHeight=\"8\" orient=\"auto\"><path d=\"M0 0L8 4L0 8z\"/></marker></defs>
",
    );
}

/// Returns the point in the middle of a cell.
fn dot_at(cell: Cell) -> Dot {
    Dot {
        x: MARGIN.saturating_add(WIDE.saturating_mul(cell.column)),
        y: MARGIN.saturating_add(HIGH.saturating_mul(cell.row)),
    }
}

/// Returns the point of the state with the number `state`, or the upper left corner if there is no
/// such state.
fn dot_of(layers: &Layers, state: usize) -> Dot {
    match layers.cells.get(state) {
        Some(cell) => dot_at(*cell),
        None => Dot { x: 0, y: 0 },
    }
}

/// Appends the edges of the state with the number `number`. Each edge for bytes has a label.
fn push_edges(
    alloc: Global,
    html: &mut Html,
    layers: &Layers,
    number: usize,
    state: &StateData,
) -> Result<(), AllocError> {
    let from = dot_of(layers, number);
    for edge in &state.normal {
        let to = dot_of(layers, edge.1.index());
        push_line(html, from, to, "<path class=\"l\" d=\"");
        push_label_start(html, label_between(from, to));
        push_class(alloc, html, &edge.0, RANGES)?;
        html.push_markup("</text>\n");
    }
    if let Some(target) = state.eoi {
        let to = dot_of(layers, target.index());
        push_line(html, from, to, "<path class=\"l end\" d=\"");
    }
    Ok(())
}

/// Returns the form of an edge from one point to another.
fn bend_of(from: Dot, to: Dot) -> Bend {
    if from.x < to.x {
        return Bend::Forward;
    }
    if to.x < from.x {
        return Bend::Back;
    }
    if from.y == to.y {
        return Bend::Loop;
    }
    Bend::Aside
}

/// Appends the line of an edge. `head` is the beginning of the line's markup.
fn push_line(html: &mut Html, from: Dot, to: Dot, head: &'static str) {
    html.push_markup(head);
    match bend_of(from, to) {
        Bend::Forward => push_forward(html, from, to),
        Bend::Loop => push_loop(html, from),
        Bend::Aside => push_aside(html, from, to),
        Bend::Back => push_back(html, from, to),
    }
    html.push_markup("\" marker-end=\"url(#head)\"/>\n");
}

/// Appends the curve of an edge that leads to a state on the right.
fn push_forward(html: &mut Html, from: Dot, to: Dot) {
    push_point(html, "M", from.x.saturating_add(RADIUS), from.y);
    push_point(html, " C", from.x.saturating_add(WIDE / 2), from.y);
    push_point(html, " ", to.x.saturating_sub(WIDE / 2), to.y);
    push_point(html, " ", to.x.saturating_sub(RADIUS + 2), to.y);
}

/// Appends the curve of an edge that leads from the state at the point `at` to itself.
fn push_loop(html: &mut Html, at: Dot) {
    let top = at.y.saturating_sub(RADIUS - 2);
    let high = at.y.saturating_sub(RADIUS + 34);
    push_point(html, "M", at.x.saturating_sub(9), top);
    push_point(html, " C", at.x.saturating_sub(30), high);
    push_point(html, " ", at.x.saturating_add(30), high);
    push_point(html, " ", at.x.saturating_add(10), top);
}

/// Appends the curve of an edge that leads to another state in the same column. The curve is on the
/// right of both states.
fn push_aside(html: &mut Html, from: Dot, to: Dot) {
    push_point(html, "M", from.x.saturating_add(RADIUS), from.y);
    push_point(html, " C", from.x.saturating_add(DEEP), from.y);
    push_point(html, " ", to.x.saturating_add(DEEP), to.y);
    push_point(html, " ", to.x.saturating_add(RADIUS + 2), to.y);
}

/// Appends the curve of an edge that leads to a state on the left.
fn push_back(html: &mut Html, from: Dot, to: Dot) {
    let deep = from.y.max(to.y).saturating_add(DEEP);
    push_point(html, "M", from.x, from.y.saturating_add(RADIUS));
    push_point(html, " C", from.x.saturating_sub(WIDE / 4), deep);
    push_point(html, " ", to.x.saturating_add(WIDE / 4), deep);
    push_point(html, " ", to.x, to.y.saturating_add(RADIUS + 2));
}

/// Appends the text `head`, followed by the coordinates of a point of a curve.
fn push_point(html: &mut Html, head: &'static str, x: usize, y: usize) {
    html.push_markup(head);
    html.push_number(x);
    html.push_markup(" ");
    html.push_number(y);
}

/// Returns the point at which the label of an edge between two points is drawn.
fn label_between(from: Dot, to: Dot) -> Dot {
    match bend_of(from, to) {
        Bend::Forward => Dot {
            x: to.x.saturating_sub(BEFORE),
            y: to.y.saturating_sub(5),
        },
        Bend::Loop => Dot {
            x: from.x,
            y: from.y.saturating_sub(RADIUS + 26),
        },
        Bend::Aside => Dot {
            x: from.x.saturating_add(DEEP),
            y: middle(from.y, to.y),
        },
        Bend::Back => Dot {
            x: middle(from.x, to.x),
            y: from.y.max(to.y).saturating_add(DEEP - 16),
        },
    }
}

/// Returns the mean of two numbers, rounded down, or one less than the mean if both are odd.
fn middle(one: usize, other: usize) -> usize {
    (one / 2).saturating_add(other / 2)
}

/// Appends the start tag of a label at the point `at`.
fn push_label_start(html: &mut Html, at: Dot) {
    html.push_markup("<text class=\"t\" x=\"");
    html.push_number(at.x);
    html.push_markup("\" y=\"");
    html.push_number(at.y);
    html.push_markup("\">");
}

/// Appends the state with the number `number`: its ring, a second ring if the state has a mark, the
/// number, and the name of the marked leaf.
fn push_node(
    html: &mut Html,
    graph: &Graph<'_>,
    layers: &Layers,
    number: usize,
    state_type: StateType,
) {
    let at = dot_of(layers, number);
    push_ring(html, at, RADIUS);
    if state_type.early.is_some() | state_type.accept.is_some() {
        push_ring(html, at, RADIUS - 4);
    }
    push_label_start(
        html,
        Dot {
            x: at.x,
            y: at.y.saturating_add(5),
        },
    );
    html.push_number(number);
    html.push_markup("</text>\n");
    push_name(html, graph, at, state_type);
}

/// Appends a ring around the point `at`.
fn push_ring(html: &mut Html, at: Dot, radius: usize) {
    html.push_markup("<circle cx=\"");
    html.push_number(at.x);
    html.push_markup("\" cy=\"");
    html.push_number(at.y);
    html.push_markup("\" r=\"");
    html.push_number(radius);
    html.push_markup("\"/>\n");
}

/// Appends the name of the marked leaf below a state at the point `at`, or nothing if the state has
/// no mark.
fn push_name(html: &mut Html, graph: &Graph<'_>, at: Dot, state_type: StateType) {
    let below = Dot {
        x: at.x,
        y: at.y.saturating_add(RADIUS + 14),
    };
    if let Some(leaf) = state_type.early.or(state_type.accept) {
        push_label_start(html, below);
        html.push_text(name_at(graph.leaves(), leaf.0));
        html.push_markup("</text>\n");
    }
}
