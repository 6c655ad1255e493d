//! Compares the lexers of two files. Used by `program` for `--compare`.

ghost use Rattle.std.specs.Prelude.{◌≡◌, [], IfErr, IfOk};
ghost use Rattle.logos_show.specs.Views.{ComparesFiles, ComparesTo, IsGraphOf, IsNoMisuse, Reads, order_value};

use crate::choice::lexer_in;
use crate::lexers::{SHAPE, part_of};
use crate::program::{Task, is_json};
use crate::refusals::{refused, text_of, write_note};
use logos_answers::NamedLexer;
use logos_codegen::{Generated, generate};
use logos_host::{Failure, Files, read_text};
use logos_replies::{Agreement, Judgment, Pair, compare_with};
use logos_report::Source;
use logos_rust_file::FoundEnum;
use std::alloc::AllocError;
use std::io::Write;

/// Writes the verdict on the requested lexer of a file and the requested lexer of the file at the
/// path `other`. Writes a note to standard error. Returns whether the lexers agree.
///
/// # Errors
///
/// Returns:
///
/// - `Refused` if a file has no requested enum or the enum has no lexer.
/// - `Read` or `NotText` if the other file cannot be read.
/// - `Output` or `Closed` if writing fails.
/// - `Memory` if memory runs out.
pub(crate) fn compare<'w, F: Files, O: Write, E: Write>(
    task: Task<'w>,
    source: &Source<'_>,
    other: &'w str,
    files: &mut F,
    err: &mut E,
    out: &mut O,
) -> Result<Agreement, Failure<'w>>
    ensures failed { IfErr result IsNoMisuse }
    ensures judged { IfOk result (λ agreement. Reads F.read_yields files.old other.now
        (λ text read. (files.new ≡ read) × ComparesFiles (order_value task.entry.order) source.now
        (record { path = other.now; text = text }) agreement (O.contents out.old)
        (O.contents out.new))) }
{
    let other_text = match read_text(other, files) {
        Ok(text) => text,
        Err(failure) => return Err(failure),
    };
    let other_source = match Source::new(task.showing.alloc, other, other_text.as_str()) {
        Ok(source) => source,
        Err(AllocError) => return Err(Failure::Memory),
    };
    compare_sources(task, source, &other_source, err, out)
}

/// Writes the verdict on the requested lexers of two files, and a note to standard error. Returns
/// whether the lexers agree.
fn compare_sources<'w, O: Write, E: Write>(
    task: Task<'w>,
    source: &Source<'_>,
    other: &Source<'_>,
    err: &mut E,
    out: &mut O,
) -> Result<Agreement, Failure<'w>>
    ensures failed { IfErr result IsNoMisuse }
    ensures judged { IfOk result (λ agreement. ComparesFiles (order_value task.entry.order) source.now
        other.now agreement (O.contents out.old) (O.contents out.new)) }
{
    let judgment = compare_files(task, source, other, err, out)?;
    write_note(err, judgment.note.as_bytes());
    Ok(judgment.agreement)
}

/// Writes the verdict on the requested lexers of two files. Returns the note about the lexers, and
/// whether the lexers agree.
fn compare_files<'w, O: Write, E: Write>(
    task: Task<'w>,
    source: &Source<'_>,
    other: &Source<'_>,
    err: &mut E,
    out: &mut O,
) -> Result<Judgment, Failure<'w>>
    ensures failed { IfErr result IsNoMisuse }
    ensures judged { IfOk result (λ judgment. ComparesFiles (order_value task.entry.order) source.now
        other.now judgment.agreement (O.contents out.old) (O.contents out.new)) }
{
    let alloc = task.showing.alloc;
    let one = lexer_in(alloc, task, source, err)?;
    let part = part_of(source, one);
    match generate(alloc, text_of(source, one), SHAPE) {
        Ok(made) => compare_to(task, named_lexer(source, one, &made), other, err, out),
        Err(refusal) => Err(refused(alloc, part, task.showing, refusal)),
    }
}

/// Returns the lexer `made`, with the path of its file and the text of its enum `one`.
fn named_lexer<'m, 's>(
    source: &'m Source<'_>,
    one: FoundEnum,
    made: &'m Generated<'s>,
) -> NamedLexer<'m, 's>
    ensures path { result.path.now ≡ source.now.path }
    ensures graph { result.graph.now ≡ made.now.graph }
{
    NamedLexer {
        path: source.path(),
        text: text_of(source, one),
        graph: &made.graph,
        code: &made.code,
    }
}

/// Writes the verdict on the lexer `one` and the requested lexer of the file `source`. Returns the
/// note about the lexers, and whether the lexers agree.
fn compare_to<'w, O: Write, E: Write>(
    task: Task<'w>,
    one: NamedLexer<'_, '_>,
    source: &Source<'_>,
    err: &mut E,
    out: &mut O,
) -> Result<Judgment, Failure<'w>>
    ensures failed { IfErr result IsNoMisuse }
    ensures judged { IfOk result (λ judgment. IsGraphOf one.entry.graph.now.leaves
        one.entry.graph.now.utf8 one.entry.graph.now → one.entry.graph.now.faults ≡ [] →
        ComparesTo (order_value task.entry.order) one.entry.graph.now one.entry.path.now source.now
        judgment.agreement (O.contents out.old) (O.contents out.new)) }
{
    let alloc = task.showing.alloc;
    let other = lexer_in(alloc, task, source, err)?;
    let part = part_of(source, other);
    match generate(alloc, text_of(source, other), SHAPE) {
        Ok(made) => {
            let pair = Pair {
                one,
                other: named_lexer(source, other, &made),
                is_json: is_json(task.order),
            };
            compare_with(alloc, pair, out)
        }
        Err(refusal) => Err(refused(alloc, part, task.showing, refusal)),
    }
}
