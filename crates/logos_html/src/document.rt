//! Assembles the page of a lexer: the head, the sections and the end of the page. Used by
//! `logos_show`.

ghost use Rattle.std.specs.Prelude.{◌≡◌, ◌++◌, IfErr, IfOk, IfSome, map, string_bytes};
ghost use Rattle.logos_html.specs.Views.{AreDescribed, Begins, HasMarked, IsMarked, IsNoMisuse, described_of, emits, items_of, shown};

use crate::descriptions::{Described, Subject, describe, new_budget};
use crate::drawing::push_drawing;
use crate::finds::first_items;
use crate::html::Html;
use crate::leaves::push_leaves;
use crate::spans::{ShownInput, push_items};
use crate::states::push_states;
use crate::style::STYLE;
use logos_attempts::entries_of;
use logos_code::code::Code;
use logos_graph::graph::{Graph, StateData};
use logos_host::Failure;
use logos_inspect::LeafRow;
use std::alloc::{AllocError, Global};

/// The maximum number of bytes of an input that a page shows.
const SHOWN: usize = 65_536;

/// A lexer, with the information about its enum that is shown on the page of the lexer.
#[derive(Clone, Copy)]
pub struct LexerPage<'p, 's> {
    /// The name of the enum.
    pub name: &'p str,
    /// The path of the file with the enum.
    pub path: &'p str,
    /// The line of the name in the file, counted from 1.
    pub line: usize,
    /// The rows of the lexer's leaves, in the order of the leaves' numbers.
    pub rows: &'p [LeafRow<'p>],
    pub graph: &'p Graph<'s>,
    pub code: &'p Code<'s>,
}

/// An input whose text a page shows.
#[derive(Clone, Copy)]
pub struct PageInput<'p> {
    /// The path of the input.
    pub path: &'p str,
    pub bytes: &'p [u8],
}

/// Returns the page of a lexer, with the text of `input` if there is an input. If the input has
/// more than 65,536 bytes, at most the first 65,536 bytes are shown, and the page states how many
/// are shown.
///
/// # Errors
///
/// Returns `NotUtf8` if the lexer reads UTF-8 and the input is not UTF-8, and `Memory` if memory
/// runs out.
pub fn page_of(
    alloc: Global,
    page: LexerPage<'_, '_>,
    input: Option<PageInput<'_>>,
) -> Result<String, Failure<'static>>
    ensures failed { IfErr result IsNoMisuse }
    ensures marked { IfOk result (λ text. IfSome input.entry (λ input.
        HasMarked page.entry.code.now page.entry.graph.now input.bytes.now
        (string_bytes text))) }
{
    match input {
        Some(input) => page_with(alloc, page, input),
        None => Ok(page_without(alloc, page)?),
    }
}

/// Returns the page of a lexer, with the text of an input.
fn page_with(
    alloc: Global,
    page: LexerPage<'_, '_>,
    input: PageInput<'_>,
) -> Result<String, Failure<'static>>
    ensures failed { IfErr result IsNoMisuse }
    ensures marked { IfOk result (λ text. HasMarked page.entry.code.now page.entry.graph.now
        input.entry.bytes.now (string_bytes text)) }
{
    let items = first_items(alloc, page.code, input.bytes, SHOWN)?;
    let mut budget = new_budget();
    let subject = Subject {
        graph: page.graph,
        code: page.code,
        bytes: input.bytes,
    };
    let described = describe(alloc, subject, &mut budget, &items)?;
    let front = front_of(alloc, page, Some(input), budget.end)?;
    let marked = marked_of(alloc, page, input, &described)?;
    let rest = rest_of(alloc, page, Some(input))?;
    Ok(joined(front, marked.as_str(), rest.as_str())?)
}

/// Returns the page of a lexer, without the text of an input.
fn page_without(alloc: Global, page: LexerPage<'_, '_>) -> Result<String, AllocError> {
    let front = front_of(alloc, page, None, None)?;
    let rest = rest_of(alloc, page, None)?;
    joined(front, "", rest.as_str())
}

/// Returns `front`, followed by `middle` and `rest`.
fn joined(front: String, middle: &str, rest: &str) -> Result<String, AllocError>
    ensures { IfOk result (λ text. string_bytes text
        ≡ string_bytes front ++ (middle.now ++ rest.now)) }
{
    let mut whole = front;
    whole.push_str(middle)?;
    whole.push_str(rest)?;
    Ok(whole)
}

/// Returns the front of a page: everything before the marked text of the input, or before the
/// section of the states if there is no input. If `described` is `Some`, items that start at or
/// after this offset have no description.
fn front_of(
    alloc: Global,
    page: LexerPage<'_, '_>,
    input: Option<PageInput<'_>>,
    described: Option<usize>,
) -> Result<String, AllocError> {
    let mut html = Html::new(alloc);
    push_head(&mut html, page, input.is_some());
    push_leaves(alloc, &mut html, page.graph, page.rows)?;
    if let Some(input) = input {
        push_input_head(&mut html, input, end_of(input.bytes), described);
    }
    html.finish()
}

/// Returns the shown front of an input as HTML, with the shown bytes of each of `items` marked.
fn marked_of(
    alloc: Global,
    page: LexerPage<'_, '_>,
    input: PageInput<'_>,
    items: &[Described<'_>],
) -> Result<String, AllocError>
    requires first { Begins page.code.now emits input.bytes.now 0 shown (items_of items.now) }
    requires described { AreDescribed page.code.now page.graph.now input.bytes.now
        (map described_of items.now) }
    ensures { IfOk result (λ text. IsMarked page.entry.code.now page.entry.graph.now
        input.entry.bytes.now (string_bytes text)) }
{
    let shown = ShownInput {
        leaves: page.graph.leaves(),
        bytes: input.bytes,
        end: end_of(input.bytes),
    };
    let mut html = Html::new(alloc);
    push_items(&mut html, shown, items);
    html.finish()
}

/// Returns the rest of a page: everything after the marked text of the input. If there is no input,
/// the rest begins with the section of the states.
fn rest_of(
    alloc: Global,
    page: LexerPage<'_, '_>,
    input: Option<PageInput<'_>>,
) -> Result<String, AllocError> {
    let states = states_of(alloc, page.graph)?;
    let mut html = Html::new(alloc);
    push_input_states(alloc, &mut html, page, input, &states)?;
    push_drawing(alloc, &mut html, page.graph, &states)?;
    html.push_markup(
        "</main>\n<footer>Made by <code>logos_show --html</code>.</footer>\n</body>\n</html>\n",
    );
    html.finish()
}

/// Appends the section of the states, preceded by the end of the section of the input if there is
/// an input.
fn push_input_states(
    alloc: Global,
    html: &mut Html,
    page: LexerPage<'_, '_>,
    input: Option<PageInput<'_>>,
    states: &[&StateData],
) -> Result<(), AllocError> {
    let Some(input) = input else {
        return push_states(alloc, html, page.graph, states, None);
    };
    html.push_markup("</pre>\n</div>\n</section>\n");
    let end = end_of(input.bytes);
    let mut entries = entries_of(alloc, states, page.code, input.bytes, end)?;
    entries.end = entries.end.min(end);
    push_states(alloc, html, page.graph, states, Some(&entries))
}

/// Appends the head of the page, and the body of the page up to the first section. `has_input` is
/// `true` if the page shows an input.
fn push_head(html: &mut Html, page: LexerPage<'_, '_>, has_input: bool) {
    html.push_markup(
        "<!DOCTYPE html>
<html lang=\"en\">
<head>
<meta charset=\"utf-8\">
<meta name=\"viewport\" content=\"width=device-width, initial-scale=1\">
<title>Lexer ",
    );
    html.push_text(page.name);
    html.push_markup("</title>\n<style>\n");
    html.push_markup(STYLE);
    html.push_markup("</style>\n</head>\n<body>\n<header>\n<h1>Lexer <code>");
    html.push_text(page.name);
    html.push_markup("</code></h1>\n<p>Line ");
    html.push_number(page.line);
    html.push_markup(" of <code>");
    html.push_text(page.path);
    html.push_markup("</code>.</p>\n");
    push_navigation(html, has_input);
    html.push_markup("</header>\n<main>\n");
}

/// Appends the links to the sections. The section of the input's text is linked only if `has_input`
/// is `true`.
fn push_navigation(html: &mut Html, has_input: bool) {
    html.push_markup(
        "<nav aria-label=\"Sections\">\n<ul>\n<li><a href=\"#leaves\">Leaves</a></li>\n",
    );
    if has_input {
        html.push_markup("<li><a href=\"#text\">Text</a></li>\n");
    }
    html.push_markup(
        "<li><a href=\"#states\">States</a></li>
<li><a href=\"#drawing\">Drawing</a></li>
</ul>
</nav>
",
    );
}

/// Returns the end of the shown front of an input, as an offset in bytes. An input of at most
/// `SHOWN` bytes is shown completely. Otherwise, the end is `SHOWN`, or at most 3 less so that no
/// UTF-8 character is split.
fn end_of(bytes: &[u8]) -> usize {
    if bytes.len() <= SHOWN {
        return bytes.len();
    }
    let mut end = SHOWN;
    for _ in 0..3 {
        end = before_continuation(bytes, end);
    }
    end
}

/// Returns the offset before `at` if the byte at `at` is a UTF-8 continuation byte, and `at`
/// otherwise.
fn before_continuation(bytes: &[u8], at: usize) -> usize {
    match bytes.get(at) {
        Some(byte) if (128 <= *byte) & (*byte < 192) => at.saturating_sub(1),
        _ => at,
    }
}

/// Appends the beginning of the section of an input, which precedes the text of the input. The text
/// is shown before the offset `end`. If `described` is `Some`, items from this offset on have no
/// description.
fn push_input_head(html: &mut Html, input: PageInput<'_>, end: usize, described: Option<usize>) {
    html.push_markup(
        "<section id=\"text\" aria-labelledby=\"text-title\">
<h2 id=\"text-title\">Text</h2>
<p>The text of <code>",
    );
    html.push_text(input.path);
    html.push_markup(
        "</code> in the colors of the leaves. Bytes that no leaf matches are red, underlined and
marked by a sign. An item shows its leaf, its priority and its span while it has the focus or the
pointer. If other leaves match from its start, it shows their longest matches, and why one of all
wins. An error shows how far leaves read, and the bytes that they need next. Skipped bytes have no
color. <a class=\"skip\" href=\"#states\">Skip the text</a></p>
",
    );
    push_cut(html, input.bytes.len(), end);
    push_undescribed(html, described);
    html.push_markup(
        "<div class=\"box\" role=\"region\" aria-label=\"Text with its items\">
<pre>",
    );
}

/// Appends a sentence that states that only the first `end` of `length` bytes are shown. Appends
/// nothing if all bytes are shown.
fn push_cut(html: &mut Html, length: usize, end: usize) {
    if end < length {
        html.push_markup("<p class=\"cut\">The first ");
        html.push_number(end);
        html.push_markup(" of ");
        html.push_number(length);
        html.push_markup(" bytes are shown.</p>\n");
    }
}

/// Appends a sentence that states that items from the offset `described` on have no description.
/// Appends nothing if `described` is `None`.
fn push_undescribed(html: &mut Html, described: Option<usize>) {
    if let Some(end) = described {
        html.push_markup(
            "<p class=\"cut\">Other matches, and how far leaves read, are shown for items
before byte ",
        );
        html.push_number(end);
        html.push_markup(".</p>\n");
    }
}

/// Returns the states of a graph, in the order of their numbers.
fn states_of<'g>(alloc: Global, graph: &'g Graph<'_>) -> Result<Vec<&'g StateData>, AllocError> {
    let mut states = Vec::new(alloc);
    for state in graph.iter_states() {
        states.push(graph.get_state(state))?;
    }
    Ok(states)
}
