//! Prints the matches that start at a location of an input. Used by `program` for `--at`.

ghost use Rattle.std.specs.Prelude.{◌≡◌, IfErr, IfOk, OnOk};
ghost use Rattle.logos_show.specs.Views.{AllStart, IsBytes, IsGraphOf, IsNoMisuse, PrintsMatchesAs, Reads, ShowsMatchesOf, order_value, rules_of};

use crate::choice::lexer_in;
use crate::lexers::{SHAPE, part_of};
use crate::program::{Task, is_json};
use crate::refusals::{refused, text_of};
use logos_codegen::{Generated, generate};
use logos_host::{Failure, Files, read_bytes};
use logos_lines::Location;
use logos_replies::{Agreement, InputPoint, write_match_records, write_matches};
use logos_report::Source;
use std::alloc::Global;
use std::io::Write;

/// The path of an input, and a location in this input.
#[derive(Clone, Copy)]
pub(crate) struct FilePoint<'w> {
    pub(crate) path: &'w str,
    pub(crate) location: Location,
}

/// Writes the matches that start at a point of an input, according to the requested lexer of a
/// file. Returns `Same`, because nothing is compared.
///
/// # Errors
///
/// Returns:
///
/// - `Read` if the input cannot be read.
/// - `Refused` if the input does not have the point, the file has no requested enum, or the enum
///   has no lexer.
/// - `Output` or `Closed` if writing fails.
/// - `Memory` if memory runs out.
pub(crate) fn show_matches<'w, F: Files, O: Write, E: Write>(
    task: Task<'w>,
    source: &Source<'_>,
    point: FilePoint<'w>,
    files: &mut F,
    err: &mut E,
    out: &mut O,
) -> Result<Agreement, Failure<'w>>
    ensures failed { IfErr result IsNoMisuse }
    ensures printed { IfOk result (λ agreement. (agreement ≡ Agreement.Same) × Reads F.read_yields
        files.old point.entry.path.now (λ bytes read. (files.new ≡ read) × ShowsMatchesOf
        (order_value task.entry.order) source.now.text bytes point.entry.location
        (O.contents out.old) (O.contents out.new))) }
{
    let bytes = read_bytes(point.path, files)?;
    matches_by_file(task, source, point, &bytes, err, out)?;
    Ok(Agreement::Same)
}

/// Writes the matches that start at the location of `point` in `bytes`, according to the requested
/// lexer of a file.
fn matches_by_file<'w, O: Write, E: Write>(
    task: Task<'w>,
    source: &Source<'_>,
    point: FilePoint<'w>,
    bytes: &[u8],
    err: &mut E,
    out: &mut O,
) -> Result<(), Failure<'w>>
    ensures failed { IfErr result IsNoMisuse }
    ensures printed { OnOk result (ShowsMatchesOf (order_value task.entry.order) source.now.text
        bytes.now point.entry.location (O.contents out.old) (O.contents out.new)) }
{
    let alloc = task.showing.alloc;
    let one = lexer_in(alloc, task, source, err)?;
    let part = part_of(source, one);
    match generate(alloc, text_of(source, one), SHAPE) {
        Ok(made) => {
            let input = InputPoint {
                path: point.path,
                bytes,
                location: point.location,
            };
            matches_by_lexer(alloc, &made, input, is_json(task.order), out)
        }
        Err(refusal) => Err(refused(alloc, part, task.showing, refusal)),
    }
}

/// Writes the matches that start at a point of an input, according to the lexer `made`. Writes JSON
/// if `is_json` is `true` and text otherwise.
fn matches_by_lexer<O: Write>(
    alloc: Global,
    made: &Generated<'_>,
    point: InputPoint<'_, '_>,
    is_json: bool,
    out: &mut O,
) -> Result<(), Failure<'static>>
    ensures failed { IfErr result IsNoMisuse }
    ensures printed { OnOk result (IsGraphOf made.now.graph.leaves made.now.graph.utf8 made.now.graph →
        AllStart (rules_of made.now.graph.leaves) → IsBytes point.entry.bytes.now →
        PrintsMatchesAs is_json made.now.graph made.now.code point.entry.bytes.now
        point.entry.location (O.contents out.old) (O.contents out.new)) }
{
    if is_json {
        write_match_records(alloc, &made.graph, point, out)
    } else {
        write_matches(alloc, &made.graph, &made.code, point, out)
    }
}
