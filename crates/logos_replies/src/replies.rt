//! Functions that write the matches that begin at a point of an input, inputs that together take
//! all edges of a graph, and the outcome of a comparison with a stored answer. Used by the modules
//! `inputs`, `matches` and `program` of `logos_show`.

ghost use Rattle.std.specs.Prelude.{◌≡◌, IfErr, IfOk, OnOk};
ghost use Rattle.logos_replies.specs.Views.{AllStart, Gains, IsBytes, IsGraphOf, rules_of, IsNoMisuse, PrintsAgreement, PrintsInputRecords, PrintsInputs, PrintsMatchRecords, PrintsMatches, location_line};

use logos_answers::{offset_of, push_agreement, push_inputs, push_matches};
use logos_attempts::{push_around, push_partials};
use logos_codegen::code::Code;
use logos_codegen::graph::Graph;
use logos_host::{Failure, print_bytes};
use logos_lines::Location;
use logos_page::Page;
use logos_records::{input_records, match_records};
use std::alloc::{AllocError, Global};
use std::io::Write;

/// The outcome of comparing two lexers, or an answer with a stored answer.
#[derive(Clone, Copy)]
pub enum Agreement {
    Same,
    Different,
}

/// A point of an input: the path and the bytes of the input, and the location of the point.
#[derive(Clone, Copy)]
pub struct InputPoint<'w, 'i> {
    pub path: &'w str,
    pub bytes: &'i [u8],
    pub location: Location,
}

/// Writes the matches that begin at a point of an input, as lines of text. The match or the error
/// around the point, if there is one, is written before the matches. If no leaf matches, the
/// partial matches are written.
///
/// # Errors
///
/// Returns:
///
/// - `Refused` if the input does not have the point
/// - `Output` or `Closed` if writing fails
/// - `Memory` if memory runs out
pub fn write_matches<O: Write>(
    alloc: Global,
    graph: &Graph<'_>,
    code: &Code<'_>,
    point: InputPoint<'_, '_>,
    out: &mut O,
) -> Result<(), Failure<'static>>
    ensures failed { IfErr result IsNoMisuse }
    ensures printed { OnOk result (IsGraphOf graph.now.leaves graph.now.utf8 graph.now →
        AllStart (rules_of graph.now.leaves) → IsBytes point.entry.bytes.now →
        PrintsMatches graph.now.leaves code.now point.entry.bytes.now point.entry.location
        (O.contents out.old) (O.contents out.new)) }
{
    let Some(from) = offset_of(point.bytes, point.location) else {
        return Err(no_location(alloc, point.path, point.location));
    };
    let mut page = Page::new(alloc, false);
    push_around(&mut page, code, graph.leaves(), point.bytes, from);
    push_location(&mut page, point.location);
    push_matches(alloc, &mut page, graph, point.bytes, from)?;
    push_partials(alloc, &mut page, graph, code, point.bytes, from)?;
    let text = page.finish()?;
    print_bytes(text.as_str().as_bytes(), out)
}

/// Writes the matches that begin at a point of an input, as lines of JSON.
///
/// # Errors
///
/// Returns:
///
/// - `Refused` if the input does not have the point
/// - `Output` or `Closed` if writing fails
/// - `Memory` if memory runs out
pub fn write_match_records<O: Write>(
    alloc: Global,
    graph: &Graph<'_>,
    point: InputPoint<'_, '_>,
    out: &mut O,
) -> Result<(), Failure<'static>>
    ensures failed { IfErr result IsNoMisuse }
    ensures printed { OnOk result (IsGraphOf graph.now.leaves graph.now.utf8 graph.now →
        AllStart (rules_of graph.now.leaves) → IsBytes point.entry.bytes.now →
        PrintsMatchRecords graph.now.leaves point.entry.bytes.now point.entry.location
        (O.contents out.old) (O.contents out.new)) }
{
    let Some(from) = offset_of(point.bytes, point.location) else {
        return Err(no_location(alloc, point.path, point.location));
    };
    let bytes = match_records(alloc, graph, point.bytes, from)?;
    print_bytes(&bytes, out)
}

/// Appends the line with the location at which matches begin.
fn push_location(page: &mut Page, location: Location)
    ensures { Gains (location_line location) page.old page.new }
{
    page.push("from ");
    page.push_number(location.line);
    page.push(":");
    page.push_number(location.column);
    page.push("\n");
}

/// Returns the refusal of the input at `path`, which does not have the location `location`.
fn no_location(alloc: Global, path: &str, location: Location) -> Failure<'static>
    ensures { IsNoMisuse result }
{
    let mut page = Page::new(alloc, false);
    page.push("error: ");
    page.push_shown(path);
    page.push(" has no column ");
    page.push_number(location.column);
    page.push(" in line ");
    page.push_number(location.line);
    page.push("\n");
    refusal_of(page.finish())
}

/// Finds inputs that together take all edges of a graph, and writes the first `most` of these
/// inputs as Rust literals. Returns a note with the number of written inputs and the number of all
/// inputs. The note is empty if all inputs were written.
///
/// # Errors
///
/// Returns `Output` or `Closed` if writing fails, and `Memory` if memory runs out.
pub fn write_inputs<O: Write>(
    alloc: Global,
    graph: &Graph<'_>,
    most: usize,
    out: &mut O,
) -> Result<String, Failure<'static>>
    ensures failed { IfErr result IsNoMisuse }
    ensures printed { OnOk result (PrintsInputs graph.now.states graph.now.utf8 most
        (O.contents out.old) (O.contents out.new)) }
{
    let mut page = Page::new(alloc, false);
    let count = push_inputs(alloc, &mut page, graph, most)?;
    // The note is made first, so that nothing is printed if memory runs out.
    let note = note_of_cut(alloc, most, count)?;
    let text = page.finish()?;
    print_bytes(text.as_str().as_bytes(), out)?;
    Ok(note)
}

/// Finds inputs that together take all edges of a graph, and writes the first `most` of these
/// inputs as lines of JSON. Returns a note with the number of written inputs and the number of all
/// inputs. The note is empty if all inputs were written.
///
/// # Errors
///
/// Returns `Output` or `Closed` if writing fails, and `Memory` if memory runs out.
pub fn write_input_records<O: Write>(
    alloc: Global,
    graph: &Graph<'_>,
    most: usize,
    out: &mut O,
) -> Result<String, Failure<'static>>
    ensures failed { IfErr result IsNoMisuse }
    ensures printed { OnOk result (PrintsInputRecords graph.now.states graph.now.utf8 most
        (O.contents out.old) (O.contents out.new)) }
{
    let made = input_records(alloc, graph, most)?;
    let note = note_of_cut(alloc, most, made.count)?;
    print_bytes(&made.bytes, out)?;
    Ok(note)
}

/// Returns the note that only `most` of `count` inputs were written, or an empty text if `count` is
/// not greater than `most`.
fn note_of_cut(alloc: Global, most: usize, count: usize) -> Result<String, AllocError> {
    let mut page = Page::new(alloc, false);
    if most < count {
        page.push("note: ");
        page.push_number(most);
        page.push(" of ");
        page.push_number(count);
        page.push(" inputs: some edges that inputs pass may be passed by none of these\n");
    }
    page.finish()
}

/// Writes whether the answer `made` equals the bytes `stored` of the file at `path`, and the first
/// difference if there is one. Returns the outcome.
///
/// # Errors
///
/// Returns `Output` or `Closed` if writing fails, and `Memory` if memory runs out.
pub fn write_agreement<O: Write>(
    alloc: Global,
    path: &str,
    stored: &[u8],
    made: &[u8],
    out: &mut O,
) -> Result<Agreement, Failure<'static>>
    ensures failed { IfErr result IsNoMisuse }
    ensures printed { IfOk result (λ agreement. PrintsAgreement path.now stored.now made.now agreement
        (O.contents out.old) (O.contents out.new)) }
{
    let mut page = Page::new(alloc, false);
    let is_same = push_agreement(&mut page, path, stored, made);
    let text = page.finish()?;
    print_bytes(text.as_str().as_bytes(), out)?;
    if is_same {
        return Ok(Agreement::Same);
    }
    Ok(Agreement::Different)
}

/// Returns the refusal with `text`, or `Memory` if `text` is an error.
pub fn refusal_of<E: Drop>(text: Result<String, E>) -> Failure<'static>
    ensures { IsNoMisuse result }
{
    match text {
        Ok(text) => Failure::Refused(text),
        Err(_) => Failure::Memory,
    }
}
