//! Functions that print the leaves and the cost of a lexer, or examples of the leaves. Used by the
//! modules `page_files` and `pages` of `logos_show`.

use logos_answers::{push_costs, push_examples, push_rows};
use logos_codegen::Generated;
use logos_codegen::error::Memory;
use logos_inspect::{LeafRow, costs_of, row_of};
use logos_lines::LineIndex;
use logos_page::Page;
use logos_records::{
    JsonLines, NamedGraph, push_cost_record, push_example_records, push_leaf_records,
};
use logos_report::Part;
use std::alloc::Global;

/// The form in which the lexers of a file are shown: the leaves or examples of the leaves, as text
/// or as JSON.
#[derive(Clone, Copy)]
pub enum Form {
    Tables,
    Examples,
    LeafRecords,
    ExampleRecords,
}

/// An enum of a file: the part of the file that begins at the enum, the lines of the file, and the
/// text of the enum.
#[derive(Clone, Copy)]
pub struct EnumInFile<'f, 's> {
    pub part: Part<'f, 's>,
    pub lines: &'f LineIndex<'s>,
    pub text: &'s str,
}

/// Appends the leaves and the cost of the lexer `made`, or examples of its leaves, in the form
/// `form`: as text to `page`, or as JSON to `lines`. `one` is the enum of the lexer.
///
/// # Errors
///
/// Returns `Memory` if memory runs out.
pub fn push_form(
    alloc: Global,
    page: &mut Page,
    lines: &mut JsonLines,
    form: Form,
    one: EnumInFile<'_, '_>,
    made: &Generated<'_>,
) -> Result<(), Memory> {
    let named = NamedGraph {
        name: made.name.text,
        graph: &made.graph,
    };
    match form {
        Form::Tables => push_table(alloc, page, one, made),
        Form::Examples => push_example_lines(alloc, page, one.part, made),
        Form::LeafRecords => push_leaves(alloc, lines, one, made),
        Form::ExampleRecords => match push_example_records(alloc, lines, named) {
            Ok(()) => Ok(()),
            Err(_) => Err(Memory),
        },
    }
}

/// Appends the title of a lexer, the rows of its leaves, and its cost.
fn push_table(
    alloc: Global,
    page: &mut Page,
    one: EnumInFile<'_, '_>,
    made: &Generated<'_>,
) -> Result<(), Memory> {
    let rows = rows_of(alloc, one, made)?;
    push_title(page, one.part, made);
    push_rows(page, &rows);
    push_costs(page, costs_of(&made.code));
    Ok(())
}

/// Appends the title of a lexer, the examples of its leaves, and an empty line.
fn push_example_lines(
    alloc: Global,
    page: &mut Page,
    part: Part<'_, '_>,
    made: &Generated<'_>,
) -> Result<(), Memory> {
    push_title(page, part, made);
    push_examples(alloc, page, &made.graph)?;
    page.push("\n");
    Ok(())
}

/// Appends the leaves and the cost of the lexer `made` as lines of JSON. `one` is the enum of the
/// lexer.
fn push_leaves(
    alloc: Global,
    lines: &mut JsonLines,
    one: EnumInFile<'_, '_>,
    made: &Generated<'_>,
) -> Result<(), Memory> {
    let rows = rows_of(alloc, one, made)?;
    push_leaf_records(lines, made.name.text, &rows);
    push_cost_record(lines, made.name.text, costs_of(&made.code));
    Ok(())
}

/// Returns the rows of the leaves of the lexer `made`, in the order of the leaves. `one` is the
/// enum of the lexer.
///
/// # Errors
///
/// Returns `Memory` if memory runs out.
pub fn rows_of<'l>(
    alloc: Global,
    one: EnumInFile<'_, 'l>,
    made: &'l Generated<'_>,
) -> Result<Vec<LeafRow<'l>>, Memory> {
    let mut rows = Vec::new(alloc);
    for leaf in made.graph.leaves() {
        rows.push(row_of(alloc, one.lines, one.part.offset, one.text, leaf)?)?;
    }
    Ok(rows)
}

/// Appends the name of an enum, the path of its file, the number of the line that contains the
/// name, and an empty line.
fn push_title(page: &mut Page, part: Part<'_, '_>, made: &Generated<'_>) {
    page.push("enum ");
    page.push(made.name.text);
    page.push(" (");
    page.push_shown(part.source.path());
    page.push(":");
    page.push_number(part.location(made.name.span.from).line);
    page.push(")\n\n");
}
