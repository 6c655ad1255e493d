//! Prints state diagrams of graphs in Mermaid's language. Called by `Graph::get_mermaid`.

ghost use Rattle.std.specs.Prelude.{◌≡◌, ◌<◌, ◌++◌, IfOk, OnOk, map, option_map, codes, string_bytes};
ghost use Rattle.logos_graph.specs.Views.{decimal, flat_map, bounds, ranges_of, byte_text, label_character, label_text, range_label, next_label, class_label, state_label, state_colour, node_name, edge_name, style_line, link_line, node_lines, edge_lines, byte_edge_lines, end_edge_lines, state_lines, mermaid_of, edge_of, graph_state_of, state_number, state_type_of};

use super::{State, StateData, StateType};
use logos_byte_class::byte_class::ByteClass;
use logos_byte_class::text::{is_printable, letter_of, lower_digit};
use logos_hir::leaf::LeafId;
use std::alloc::{AllocError, Global};
use std::ops::RangeInclusive;

/// The first character that is not ASCII.
const ASCII: u32 = 128;

/// Appends an ASCII character to a label. Writes `"`, `\` and a line break as Mermaid spells them,
/// and any other character unchanged.
fn push_character(text: &mut String, character: char) -> Result<(), AllocError>
    requires { character < ASCII }
    ensures { OnOk result (string_bytes text.new
        ≡ string_bytes text.old ++ label_character character) }
{
    match character {
        '"' => text.push_str("&quot"),
        '\\' => text.push_str("\\\\"),
        '\n' => text.push_str("<br>"),
        _ => text.push(character),
    }
}

/// Appends the printed form of a byte to a label: an escape sequence such as `\n`, `\"` or `\x1f`,
/// or the byte itself if no escape is needed. Spells each character as `push_character` does.
fn push_byte(text: &mut String, byte: u8) -> Result<(), AllocError>
    ensures { OnOk result (string_bytes text.new
        ≡ string_bytes text.old ++ label_text (byte_text byte)) }
{
    if let Some(letter) = letter_of(byte) {
        push_character(text, '\\')?;
        return push_character(text, letter);
    }
    if is_printable(byte) {
        return push_character(text, char::from(byte));
    }
    push_character(text, '\\')?;
    push_character(text, 'x')?;
    push_character(text, lower_digit(byte / 16))?;
    push_character(text, lower_digit(byte % 16))
}

/// Appends a range of bytes to a label: the first byte, and also `..=` and the last byte if the
/// range has more than one byte.
fn push_range(text: &mut String, range: &RangeInclusive<u8>) -> Result<(), AllocError>
    ensures { OnOk result (string_bytes text.new
        ≡ string_bytes text.old ++ range_label (bounds range.now)) }
{
    let first = *range.start();
    let last = *range.end();
    push_byte(text, first)?;
    if first == last {
        return Ok(());
    }
    text.push_str("..=")?;
    push_byte(text, last)
}

/// Appends a range of bytes to a label, on a new line.
fn push_next_range(text: &mut String, range: &RangeInclusive<u8>) -> Result<(), AllocError>
    ensures { OnOk result (string_bytes text.new
        ≡ string_bytes text.old ++ next_label (bounds range.now)) }
{
    push_character(text, '\n')?;
    push_range(text, range)
}

/// Appends ranges of bytes to a label, each on a new line.
fn push_next_ranges(text: &mut String, ranges: &[RangeInclusive<u8>]) -> Result<(), AllocError>
    ensures { OnOk result (string_bytes text.new
        ≡ string_bytes text.old ++ flat_map next_label (map bounds ranges.now)) }
{
    for range in ranges {
        push_next_range(text, range)?;
    }
    Ok(())
}

/// Appends the ranges of an edge's bytes to a label, each on a line of its own.
fn push_class(text: &mut String, class: &ByteClass) -> Result<(), AllocError>
    ensures { OnOk result (string_bytes text.new
        ≡ string_bytes text.old ++ class_label (ranges_of class.now)) }
{
    let Some((first, rest)) = class.ranges.split_first() else {
        return Ok(());
    };
    push_range(text, first)?;
    push_next_ranges(text, rest)
}

/// Appends a mark to a label: the text `mark`, the number of the leaf, and `)`.
fn push_mark(text: &mut String, mark: &str, leaf: LeafId) -> Result<(), AllocError>
    ensures { OnOk result (string_bytes text.new
        ≡ string_bytes text.old ++ mark.now ++ decimal leaf.0 ++ codes ")") }
{
    let leaf = leaf.0;
    write!(text, "{mark}{leaf})")
}

/// Appends the label of the node of the state `s`: the number of the state, and its early mark. If
/// there is no early mark, the label contains the late mark of the state, if any.
fn push_state_label(text: &mut String, s: usize, state_type: StateType) -> Result<(), AllocError>
    ensures { OnOk result (string_bytes text.new
        ≡ string_bytes text.old ++ state_label s (state_type_of state_type)) }
{
    write!(text, "State {s}")?;
    if let Some(leaf) = state_type.early {
        return push_mark(text, "<br>early(", leaf);
    }
    if let Some(leaf) = state_type.accept {
        return push_mark(text, "<br>late(", leaf);
    }
    Ok(())
}

/// Returns the colour of the node of a state: green if the state has a mark, and black otherwise.
fn colour_of(state_type: StateType) -> &'static str
    ensures { result.now ≡ state_colour (state_type_of state_type) }
{
    if state_type.early.is_some() || state_type.accept.is_some() {
        return "#00C853";
    }
    "#000000"
}

/// Returns the name of the node of the state `s`.
fn name_of(alloc: Global, s: usize) -> Result<String, AllocError>
    ensures { IfOk result (λ name. string_bytes name ≡ node_name s) }
{
    format!(in alloc; "n{s}")
}

/// Appends the line that assigns a colour to the node `name`.
fn push_style(text: &mut String, name: &str, colour: &str) -> Result<(), AllocError>
    ensures { OnOk result (string_bytes text.new
        ≡ string_bytes text.old ++ style_line name.now colour.now) }
{
    write!(text, "style {name} stroke:{colour}\n")
}

/// Appends the line of a link from the node `from` to the node `to`.
fn push_link(text: &mut String, from: &str, to: &str) -> Result<(), AllocError>
    ensures { OnOk result (string_bytes text.new
        ≡ string_bytes text.old ++ link_line from.now to.now) }
{
    write!(text, "{from}-->{to}\n")
}

/// Appends the lines of an edge from the node `from` to the state `target`. The edge has a node of
/// its own with the label `label`. Links lead from `from` to this node, and from this node to the
/// node of `target`.
fn push_edge(
    alloc: Global,
    text: &mut String,
    from: &str,
    target: State,
    label: &str,
) -> Result<(), AllocError>
    ensures { OnOk result (string_bytes text.new ≡ string_bytes text.old
        ++ edge_lines from.now (node_name (state_number target)) label.now) }
{
    let to = name_of(alloc, target.0)?;
    let name = format!(in alloc; "e{from}{to}")?;
    write!(text, "{name}{{\"{label}\"}}\n")?;
    push_style(text, &name, "#000000")?;
    push_link(text, from, &name)?;
    push_link(text, &name, &to)
}

/// Appends the lines of `edge`, an edge on bytes from the node `from`.
fn push_byte_edge(
    alloc: Global,
    text: &mut String,
    from: &str,
    edge: &(ByteClass, State),
) -> Result<(), AllocError>
    ensures { OnOk result (string_bytes text.new
        ≡ string_bytes text.old ++ byte_edge_lines from.now (edge_of edge.now)) }
{
    let mut label = String::new(alloc);
    push_class(&mut label, &edge.0)?;
    push_edge(alloc, text, from, edge.1, &label)
}

/// Appends the lines of `edges`, the edges on bytes from the node `from`.
fn push_byte_edges(
    alloc: Global,
    text: &mut String,
    from: &str,
    edges: &[(ByteClass, State)],
) -> Result<(), AllocError>
    ensures { OnOk result (string_bytes text.new
        ≡ string_bytes text.old ++ flat_map (byte_edge_lines from.now) (map edge_of edges.now)) }
{
    for edge in edges {
        push_byte_edge(alloc, text, from, edge)?;
    }
    Ok(())
}

/// Appends the lines of the edge on the end of the input from the node `from` to the state `end`.
/// Appends nothing if `end` is `None`.
fn push_end_edge(
    alloc: Global,
    text: &mut String,
    from: &str,
    end: Option<State>,
) -> Result<(), AllocError>
    ensures { OnOk result (string_bytes text.new
        ≡ string_bytes text.old ++ end_edge_lines from.now (option_map state_number end)) }
{
    let Some(target) = end else {
        return Ok(());
    };
    push_edge(alloc, text, from, target, "EOI")
}

/// Appends the lines of the node `name` of the state `s`: its label and its colour.
fn push_node(
    text: &mut String,
    name: &str,
    s: usize,
    state_type: StateType,
) -> Result<(), AllocError>
    ensures { OnOk result (string_bytes text.new ≡ string_bytes text.old ++ node_lines name.now
        (state_label s (state_type_of state_type)) (state_colour (state_type_of state_type))) }
{
    write!(text, "{name}[\"")?;
    push_state_label(text, s, state_type)?;
    text.push_str("\"]\n")?;
    push_style(text, name, colour_of(state_type))
}

/// Appends the lines of the state `s` and of its edges.
fn push_state(
    alloc: Global,
    text: &mut String,
    s: usize,
    state: &StateData,
) -> Result<(), AllocError>
    ensures { OnOk result (string_bytes text.new
        ≡ string_bytes text.old ++ state_lines s (graph_state_of state.now)) }
{
    let name = name_of(alloc, s)?;
    push_node(text, &name, s, state.state_type)?;
    push_byte_edges(alloc, text, &name, &state.normal)?;
    push_end_edge(alloc, text, &name, state.eoi)
}

/// Returns the state diagram of a graph with the states `states`.
pub(super) fn diagram(alloc: Global, states: &[StateData]) -> Result<String, AllocError>
    ensures { IfOk result (λ text. string_bytes text ≡ mermaid_of (map graph_state_of states.now)) }
{
    let mut text = String::from_str(alloc, "flowchart TB\n")?;
    for s in 0..states.len() {
        push_state(alloc, &mut text, s, &states[s])?;
    }
    Ok(text)
}
