//! Functions that append the leaves of a lexer as a table, and the costs of the lexer. Used by
//! `logos_replies`.

use logos_inspect::{Costs, LeafRow};
use logos_page::{Page, digits};
use std::cmp::max;

/// The width of a tab, in columns.
const TAB: usize = 4;

/// The maximum number of shown bytes of a pattern or a callback.
const MOST: usize = 60;

/// The widths of the columns of a table, in characters. A tab counts as four characters.
#[derive(Clone, Copy)]
struct Widths {
    variant: usize,
    pattern: usize,
    priority: usize,
    callback: usize,
}

/// Appends a table: a line with the headings of the columns, and a numbered line for each row in
/// `rows`.
pub fn push_rows(page: &mut Page, rows: &[LeafRow<'_>]) {
    let widths = widths_of(rows);
    push_heads(page, widths);
    for number in 0..rows.len() {
        push_row(page, number, rows[number], widths);
    }
}

/// Appends the costs of a lexer, one on each line, between two empty lines.
pub fn push_costs(page: &mut Page, costs: Costs) {
    page.push("\n");
    push_cost(page, "states", costs.states);
    push_cost(page, "bit tables", costs.bit_tables);
    push_cost(page, "jump tables", costs.jump_tables);
    page.push("\n");
}

/// Returns the cell in the column of variants: the name of the variant, or `skip`.
fn variant_cell<'l>(row: LeafRow<'l>) -> &'l str {
    match row.variant {
        Some(name) => name,
        None => "skip",
    }
}

/// Returns the cell in the column of patterns: the first line of the literal.
fn pattern_cell<'l>(row: LeafRow<'l>) -> &'l str {
    first_line(row.pattern)
}

/// Returns the text after the literal in the column of patterns: the options of the definition, in
/// the syntax of its attribute.
fn options_cell(row: LeafRow<'_>) -> &'static str {
    match (row.options.ignores_case, row.options.allows_greedy) {
        (false, false) => "",
        (true, false) => ", ignore(case)",
        (false, true) => ", allow_greedy = true",
        (true, true) => ", ignore(case), allow_greedy = true",
    }
}

/// Returns the cell in the column of callbacks: the first line of the callback, or `-`.
fn callback_cell<'l>(row: LeafRow<'l>) -> &'l str {
    match row.callback {
        Some(text) => first_line(text),
        None => "-",
    }
}

/// Returns the text before the first LF, or the whole text if there is no LF.
fn first_line(text: &str) -> &str {
    match text.split_once('\n') {
        Some((line, _)) => line,
        None => text,
    }
}

/// Returns the smallest column widths that fit `rows` and the headings.
fn widths_of(rows: &[LeafRow<'_>]) -> Widths {
    let mut widths = Widths {
        variant: 7,
        pattern: 7,
        priority: 6,
        callback: 8,
    };
    for row in rows {
        widths = widened(widths, *row);
    }
    widths
}

/// Returns `widths`, with each width increased if needed to fit `row`.
fn widened(widths: Widths, row: LeafRow<'_>) -> Widths {
    Widths {
        variant: max(widths.variant, width_of(variant_cell(row))),
        pattern: max(widths.pattern, pattern_width(row)),
        priority: max(widths.priority, digits(row.priority)),
        callback: max(widths.callback, cut_width(callback_cell(row))),
    }
}

/// Returns the width of the pattern of a leaf with its options.
fn pattern_width(row: LeafRow<'_>) -> usize {
    cut_width(pattern_cell(row)).saturating_add(options_cell(row).len())
}

/// Returns the width of a text in the form in which `push_cut` appends it.
fn cut_width(text: &str) -> usize {
    match long_front(text) {
        Some(front) => width_of(front).saturating_add(2),
        None => width_of(text),
    }
}

/// Returns the shown prefix of a text with more than `MOST` bytes, or `None` if the text is shown
/// in full.
fn long_front(text: &str) -> Option<&str> {
    let (front, rest) = text.split_at_checked(text.floor_char_boundary(MOST))?;
    if rest.is_empty() { None } else { Some(front) }
}

/// Returns the width of a text in characters. A tab counts as four characters.
fn width_of(text: &str) -> usize {
    let mut width: usize = 0;
    for character in text.chars() {
        width = width.saturating_add(columns_of(character));
    }
    width
}

/// Returns the width of a character: 4 for a tab, otherwise 1.
fn columns_of(character: char) -> usize {
    if character == '\t' { TAB } else { 1 }
}

/// Appends the line with the headings of the columns.
fn push_heads(page: &mut Page, widths: Widths) {
    page.push("leaf  ");
    push_cell(page, "variant", widths.variant);
    push_cell(page, "kind", 5);
    push_cell(page, "pattern", widths.pattern);
    push_cell(page, "priority", widths.priority.saturating_add(10));
    push_cell(page, "callback", widths.callback);
    page.push("line\n");
}

/// Appends the line with the row `row` of the leaf with the number `number`.
fn push_row(page: &mut Page, number: usize, row: LeafRow<'_>, widths: Widths) {
    push_right(page, number, 4);
    push_cell(page, variant_cell(row), widths.variant);
    push_cell(page, if row.is_token { "token" } else { "regex" }, 5);
    push_cut(page, pattern_cell(row));
    let left = widths.pattern.saturating_sub(cut_width(pattern_cell(row)));
    push_cell(page, options_cell(row), left);
    push_right(page, row.priority, widths.priority);
    push_cell(page, if row.is_default { "default" } else { "" }, 8);
    push_cut(page, callback_cell(row));
    push_cell(
        page,
        "",
        widths
            .callback
            .saturating_sub(cut_width(callback_cell(row))),
    );
    page.push_number(row.line);
    page.push("\n");
}

/// Appends a text in a form that cannot control a terminal, padded with spaces to `width`, and two
/// more spaces.
fn push_cell(page: &mut Page, text: &str, width: usize) {
    page.push_shown(text);
    page.push_times(" ", width.saturating_sub(width_of(text)).saturating_add(2));
}

/// Appends a text in a form that cannot control a terminal. If the text has more than `MOST` bytes,
/// appends only a prefix and two dots.
fn push_cut(page: &mut Page, text: &str) {
    match long_front(text) {
        Some(front) => {
            page.push_shown(front);
            page.push("..");
        }
        None => page.push_shown(text),
    }
}

/// Appends a number, padded on the left with spaces to `width`, and two more spaces.
fn push_right(page: &mut Page, number: usize, width: usize) {
    page.push_times(" ", width.saturating_sub(digits(number)));
    page.push_number(number);
    page.push("  ");
}

/// Appends a line with a name and a number.
fn push_cost(page: &mut Page, name: &str, count: usize) {
    push_cell(page, name, 11);
    page.push_number(count);
    page.push("\n");
}
