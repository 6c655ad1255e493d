//! Writes the leaves of a lexer as a table of a page. Used by `document` and `states`.

use crate::html::Html;
use logos_answers::{Evidence, evidence_of, name_at, push_quoted};
use logos_graph::graph::Graph;
use logos_inspect::LeafRow;
use logos_page::Page;
use std::alloc::{AllocError, Global};

/// Appends the section of the leaves of `graph`. `rows` contains the rows of the leaves, in the
/// order of the leaves' numbers.
///
/// # Errors
///
/// Returns `AllocError` if memory runs out. Then a part of the section may have been appended.
pub(crate) fn push_leaves(
    alloc: Global,
    html: &mut Html,
    graph: &Graph<'_>,
    rows: &[LeafRow<'_>],
) -> Result<(), AllocError> {
    html.push_markup(
        "<section id=\"leaves\" aria-labelledby=\"leaves-title\">
<h2 id=\"leaves-title\">Leaves</h2>
<p>Each leaf is a pattern with its priority. The example is a shortest text that the lexer finds
as this leaf first. The last column has a shortest text that the leaf matches and that is found as
another leaf.</p>
<div class=\"box\" role=\"region\" aria-label=\"Table of leaves\" tabindex=\"0\">
<table>
<thead>
<tr><th scope=\"col\">Leaf</th><th scope=\"col\">Variant</th><th scope=\"col\">Kind</th>
<th scope=\"col\">Pattern</th><th scope=\"col\">Priority</th><th scope=\"col\">Callback</th>
<th scope=\"col\">Line</th><th scope=\"col\">Example</th><th scope=\"col\">Loses</th></tr>
</thead>
<tbody>
",
    );
    for number in 0..rows.len() {
        push_row(alloc, html, graph, number, rows[number])?;
    }
    html.push_markup("</tbody>\n</table>\n</div>\n</section>\n");
    Ok(())
}

/// Appends the row of the leaf with the number `number`.
fn push_row(
    alloc: Global,
    html: &mut Html,
    graph: &Graph<'_>,
    number: usize,
    row: LeafRow<'_>,
) -> Result<(), AllocError> {
    let evidence = evidence_of(alloc, graph, number)?;
    push_number_cell(html, number);
    push_name_cells(html, row);
    push_pattern_cell(html, row);
    push_priority_cell(html, row);
    push_callback_cell(html, row);
    push_line_cell(html, row.line);
    push_example_cell(alloc, html, &evidence)?;
    push_loss_cell(alloc, html, graph, &evidence)?;
    html.push_markup("</tr>\n");
    Ok(())
}

/// Appends the beginning of the row of a leaf, and the cell with the leaf's number in the leaf's
/// color.
fn push_number_cell(html: &mut Html, number: usize) {
    html.push_markup("<tr id=\"leaf-");
    html.push_number(number);
    html.push_markup("\"><th scope=\"row\"><span class=\"k c");
    html.push_number(number % 8);
    html.push_markup("\">");
    html.push_number(number);
    html.push_markup("</span></th>");
}

/// Appends the cells with the variant and the kind of a leaf. A skip has no variant.
fn push_name_cells(html: &mut Html, row: LeafRow<'_>) {
    html.push_markup("<td>");
    match row.variant {
        Some(name) => html.push_text(name),
        None => html.push_markup("<i>skip</i>"),
    }
    html.push_markup(if row.is_token {
        "</td><td>token</td>"
    } else {
        "</td><td>regex</td>"
    });
}

/// Appends the cell with the pattern of a leaf and the options that are set for the leaf.
fn push_pattern_cell(html: &mut Html, row: LeafRow<'_>) {
    html.push_markup("<td><code>");
    html.push_text(row.pattern);
    html.push_markup("</code>");
    if row.options.ignores_case {
        html.push_markup(" <span class=\"o\">ignore(case)</span>");
    }
    if row.options.allows_greedy {
        html.push_markup(" <span class=\"o\">allow_greedy = true</span>");
    }
    html.push_markup("</td>");
}

/// Appends the cell with the priority of a leaf. The priority is marked as the default if it is the
/// default priority of the leaf.
fn push_priority_cell(html: &mut Html, row: LeafRow<'_>) {
    html.push_markup("<td class=\"n\">");
    html.push_number(row.priority);
    if row.is_default {
        html.push_markup(" <span class=\"o\">default</span>");
    }
    html.push_markup("</td>");
}

/// Appends the cell with the callback of a leaf. The cell is empty if the leaf has no callback.
fn push_callback_cell(html: &mut Html, row: LeafRow<'_>) {
    html.push_markup("<td>");
    if let Some(callback) = row.callback {
        html.push_markup("<code>");
        html.push_text(callback);
        html.push_markup("</code>");
    }
    html.push_markup("</td>");
}

/// Appends the cell with the number of the line of a leaf in its file.
fn push_line_cell(html: &mut Html, line: usize) {
    html.push_markup("<td class=\"n\">");
    html.push_number(line);
    html.push_markup("</td>");
}

/// Appends the cell with an input whose first item is a match of the leaf, or with a note that
/// there is no such input.
fn push_example_cell(
    alloc: Global,
    html: &mut Html,
    evidence: &Evidence,
) -> Result<(), AllocError> {
    match &evidence.found {
        Some(input) => {
            html.push_markup("<td>");
            push_code(alloc, html, input)?;
        }
        None => html.push_markup("<td><strong>finds nothing</strong>"),
    }
    html.push_markup("</td>");
    Ok(())
}

/// Appends the cell with an input that a leaf matches but in which the lexer finds another leaf,
/// and with a link to this other leaf. The cell is empty if there is no such input.
fn push_loss_cell(
    alloc: Global,
    html: &mut Html,
    graph: &Graph<'_>,
    evidence: &Evidence,
) -> Result<(), AllocError> {
    html.push_markup("<td>");
    if let Some(loss) = &evidence.loss {
        push_code(alloc, html, &loss.input)?;
        html.push_markup(" to ");
        push_leaf_link(html, graph, loss.winner);
    }
    html.push_markup("</td>");
    Ok(())
}

/// Appends a link to the row of a leaf, with the leaf's name and its number.
pub(crate) fn push_leaf_link(html: &mut Html, graph: &Graph<'_>, leaf: usize) {
    html.push_markup("<a href=\"#leaf-");
    html.push_number(leaf);
    html.push_markup("\">");
    html.push_text(name_at(graph.leaves(), leaf));
    html.push_markup(" (leaf ");
    html.push_number(leaf);
    html.push_markup(")</a>");
}

/// Appends bytes in quotes as an HTML `code` element.
fn push_code(alloc: Global, html: &mut Html, bytes: &[u8]) -> Result<(), AllocError> {
    let mut quoted = Page::new(alloc, false);
    push_quoted(&mut quoted, bytes);
    let text = quoted.finish()?;
    html.push_markup("<code>");
    html.push_text(text.as_str());
    html.push_markup("</code>");
    Ok(())
}
