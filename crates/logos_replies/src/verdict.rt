//! `compare_with` prints the verdict on two lexers. Called by the module `comparison` of
//! `logos_show`.

ghost use Rattle.std.specs.Prelude.{◌≡◌, ◌∷◌, [], IfErr, IfOk, OnOk, string_bytes};
ghost use Rattle.logos_replies.specs.Views.{Finding, IsGraphOf, IsNoMisuse, IsVerdictRecord, IsVerdictText, PrintsVerdict, Puts, PutsVerdict, ShowsVerdict, ShowsVerdictText, agreement_of, difference_object, status_of};

use crate::replies::Agreement;
use logos_answers::{
    Compared, NamedLexer, compare_lexers, finding_of, push_callbacks, push_difference, push_modes,
};
use logos_host::{Failure, print_bytes};
use logos_page::Page;
use logos_records::{JsonLines, push_difference_record, push_modes_record, push_same_record};
use std::alloc::{AllocError, Global};
use std::io::Write;

/// Two lexers to compare. `is_json` is `true` if the answer is JSON.
#[derive(Clone, Copy)]
pub struct Pair<'m, 's, 't> {
    pub one: NamedLexer<'m, 's>,
    pub other: NamedLexer<'m, 't>,
    pub is_json: bool,
}

/// The result of comparing two lexers, with a note for standard error.
#[derive(Drop)]
pub struct Judgment {
    pub agreement: Agreement,
    /// The note about callbacks that are written differently, or an empty text if there are none.
    pub note: String,
}

/// Writes the verdict on two lexers, and returns the verdict with the note about their callbacks.
/// The verdict on lexers that differ on an input includes a shortest input at whose start the
/// lexers find different matches or errors, and the match or the error that each lexer finds.
///
/// # Errors
///
/// Returns `Output` or `Closed` if writing fails, and `Memory` if memory runs out.
pub fn compare_with<O: Write>(
    alloc: Global,
    pair: Pair<'_, '_, '_>,
    out: &mut O,
) -> Result<Judgment, Failure<'static>>
    ensures failed { IfErr result IsNoMisuse }
    ensures judged { IfOk result (λ judgment.
        IsGraphOf pair.entry.one.graph.now.leaves pair.entry.one.graph.now.utf8
        pair.entry.one.graph.now →
        IsGraphOf pair.entry.other.graph.now.leaves pair.entry.other.graph.now.utf8
        pair.entry.other.graph.now →
        pair.entry.one.graph.now.faults ≡ [] → pair.entry.other.graph.now.faults ≡ [] →
        PrintsVerdict pair.entry.one.graph.now pair.entry.other.graph.now
        pair.entry.one.path.now pair.entry.other.path.now pair.entry.is_json judgment.agreement
        (O.contents out.old) (O.contents out.new)) }
    ensures status { IfErr result (λ failure. status_of failure ≡ 3) }
{
    let compared = compare_lexers(alloc, pair.one.graph, pair.other.graph)?;
    let bytes = comparison_bytes(alloc, pair, &compared)?;
    let note = callback_note(alloc, pair.one, pair.other)?;
    print_bytes(&bytes, out)?;
    Ok(Judgment {
        agreement: agreement_of(&compared),
        note,
    })
}

/// Returns `Same` if the comparison has shown two lexers to be equivalent, and `Different`
/// otherwise.
fn agreement_of(compared: &Compared) -> Agreement
    ensures { result ≡ agreement_of compared.now }
{
    match compared {
        Compared::Same => Agreement::Same,
        Compared::Differ(_) => Agreement::Different,
        Compared::OtherMode => Agreement::Different,
    }
}

/// Returns the note about callbacks that are written differently in two lexers. The note is empty
/// if there are no such callbacks.
fn callback_note<'l>(
    alloc: Global,
    one: NamedLexer<'l, '_>,
    other: NamedLexer<'l, '_>,
) -> Result<String, AllocError> {
    let mut page = Page::new(alloc, false);
    push_callbacks(alloc, &mut page, one, other)?;
    page.finish()
}

/// Returns the output about a comparison of two lexers, as JSON if JSON is requested and as text
/// otherwise.
fn comparison_bytes(
    alloc: Global,
    pair: Pair<'_, '_, '_>,
    compared: &Compared,
) -> Result<Vec<u8>, AllocError>
    ensures { IfOk result (λ bytes. ShowsVerdict pair.entry.one.graph.now
        pair.entry.other.graph.now pair.entry.one.path.now pair.entry.other.path.now
        pair.entry.is_json compared.now bytes.items) }
{
    if pair.is_json {
        return compared_record(alloc, pair, compared);
    }
    match compared_page(alloc, pair, compared) {
        Ok(text) => Ok(text.into_bytes()),
        Err(error) => Err(error),
    }
}

/// Returns the lines of text about a comparison of two lexers.
fn compared_page(
    alloc: Global,
    pair: Pair<'_, '_, '_>,
    compared: &Compared,
) -> Result<String, AllocError>
    ensures { IfOk result (λ text. IsVerdictText pair.entry.one.graph.now
        pair.entry.other.graph.now pair.entry.one.path.now pair.entry.other.path.now compared.now
        (string_bytes text)) }
{
    let mut page = Page::new(alloc, false);
    push_compared(alloc, &mut page, pair, compared)?;
    page.finish()
}

/// Appends the lines of text about a comparison of two lexers.
fn push_compared(
    alloc: Global,
    page: &mut Page,
    pair: Pair<'_, '_, '_>,
    compared: &Compared,
) -> Result<(), AllocError>
    ensures { OnOk result (ShowsVerdictText pair.entry.one.graph.now pair.entry.other.graph.now
        pair.entry.one.path.now pair.entry.other.path.now compared.now page.old page.new) }
{
    match compared {
        Compared::Same => page.push("the same lexer\n"),
        Compared::OtherMode => push_modes(page, pair.one, pair.other),
        Compared::Differ(input) => {
            return push_difference(alloc, page, pair.one, pair.other, input);
        }
    }
    Ok(())
}

/// Returns the line of JSON about a comparison of two lexers.
fn compared_record(
    alloc: Global,
    pair: Pair<'_, '_, '_>,
    compared: &Compared,
) -> Result<Vec<u8>, AllocError>
    ensures { IfOk result (λ bytes. IsVerdictRecord pair.entry.one.graph.now
        pair.entry.other.graph.now compared.now bytes.items) }
{
    let mut lines = JsonLines::new(alloc, Vec::new(alloc));
    push_compared_record(alloc, &mut lines, pair, compared)?;
    lines.finish()
}

/// Appends the JSON object about a comparison of two lexers.
fn push_compared_record(
    alloc: Global,
    lines: &mut JsonLines,
    pair: Pair<'_, '_, '_>,
    compared: &Compared,
) -> Result<(), AllocError>
    ensures { OnOk result (PutsVerdict pair.entry.one.graph.now pair.entry.other.graph.now
        compared.now lines.old lines.new) }
{
    match compared {
        Compared::Same => push_same_record(lines),
        Compared::OtherMode => {
            push_modes_record(
                lines,
                pair.one.graph.utf8_mode(),
                pair.other.graph.utf8_mode(),
            )
        }
        Compared::Differ(input) => return push_findings(alloc, lines, pair, input),
    }
    Ok(())
}

/// Appends the JSON object with an input on which two lexers differ, and with the match or the
/// error that each lexer finds at the start of the input.
fn push_findings(
    alloc: Global,
    lines: &mut JsonLines,
    pair: Pair<'_, '_, '_>,
    input: &[u8],
) -> Result<(), AllocError>
    ensures { OnOk result ((one other : Finding)
        × Puts (difference_object input.now one other ∷ []) lines.old lines.new) }
{
    let found = finding_of(alloc, pair.one, input)?;
    let found_by_other = finding_of(alloc, pair.other, input)?;
    push_difference_record(lines, input, found, found_by_other);
    Ok(())
}
