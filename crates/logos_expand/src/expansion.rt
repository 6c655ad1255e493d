//! Expands the `Logos` derives in a file. Called by `logos_cli`.

ghost use Rattle.std.specs.Prelude.{◌≡◌, ◌<◌, ◌≤◌, ◌++◌, ◌^◌, ◌-◌, All, IfErr, IfOk, IfSome, IsTrue, OnOk, length, map, min, string_bytes};
ghost use Rattle.logos_expand.specs.Views.{IsRefused, AreInOrder, IsFoundCut, found_span, part_span, AreEnumsOf, InReport, Refuses, IsExpanded, IsExpansion, IsUnreadable, AreRefused, AreReportLines, FailsFor, GathersAll, ShowsRefused, errors_in, report_texts, AddsRefusal, GathersOne, HasSets, IsExpansionBy, around_made, sizes_of, Spells, SpellsEnum, tokens_of};
ghost use Rattle.logos_expand.specs.Views.{IsFileOf, IsPlainly, IsWithoutInner, AddsMoved, AddsOfEnums, AddsSome, AreFileWarnings, AreOfAccepted, AreOfGraph, WarnsOne, reports_missing};

use crate::head::with_head;
use crate::printer::{Site, printed_with};
use logos_causes::{Explained, Lexer, explain_enum};
use logos_codegen::error::Memory;
use logos_codegen::{Generated, Refusal, generate};
use logos_file_warnings::{
    Showing, add_accepted, add_missing, add_passed, add_text, add_warnings, denial_text,
    push_warned, text_of, warning_lines, warning_text,
};
use logos_help::add_helps;
use logos_host::{Failure, MessageFormat};
use logos_layout::{has_inner, without_inner};
use logos_messages::push_refused_messages;
use logos_page::Page;
use logos_report::{
    Clues, Part, Refused, Source, Warning, count_errors, push_refused, push_summary,
};
use logos_rust_file::{FoundEnum, ReadFile, Replacement, read_file, replace};
use logos_strip::stripper::strip_enum;
use logos_tables::{Shape, config_of};
use logos_token::token::{Span, Tokens, tokenize};
use logos_warnings::Origin;
use std::alloc::{AllocError, Global};

/// The text of a file with its `Logos` derives expanded, and the text of the file's warnings.
#[derive(Drop)]
pub struct Expansion {
    /// The text of the file, in UTF-8.
    pub bytes: Vec<u8>,
    /// The text of the warnings, in UTF-8 and in the requested format of messages.
    pub warnings: Vec<u8>,
}

/// The replacements of the accepted enums of a file, and the faults of its refused enums.
#[derive(Drop)]
struct Gathered {
    parts: Vec<Replacement>,
    refused: Vec<Refused>,
}

/// Returns the file `source` with each enum that derives `Logos` expanded: the derive and its
/// attributes are removed, and the implementation in the shape `shape` follows the enum. `showing`
/// is the form of the messages.
///
/// If the file contains such an enum, a first line states that the file is generated, unless `#!`
/// or U+FEFF must remain first. The inner documentation and the inner attributes of the file become
/// plain comments where possible. All other text is unchanged.
///
/// # Errors
///
/// Returns `Refused` with the text of the file's warnings and of all faults of these enums, in the
/// order of the file. If the file cannot be read into tokens, the text contains the one fault of
/// the file. If the file has no faults but its warnings are denied, the text contains the warnings.
/// Returns `Memory` if memory runs out.
pub fn expand<'w>(
    source: &Source<'_>,
    shape: Shape,
    showing: Showing,
) -> Result<Expansion, Failure<'w>>
    ensures done { IfOk result (λ made. IsExpanded shape source.now.path source.now.text made.bytes.items) }
    ensures denied { IfErr result (FailsFor showing.format showing.denies shape source.now) }
{
    let file = match read_file(showing.alloc, source.text()) {
        Ok(file) => file,
        Err(refusal) => return Err(refused_whole(source, showing, refusal)),
    };
    expand_enums(source, shape, showing, &file)
}

/// Returns the failure for a file that cannot be read into tokens for the reason `refusal`. The
/// failure is `Memory` if memory runs out.
fn refused_whole<'w>(source: &Source<'_>, showing: Showing, refusal: Refusal) -> Failure<'w>
    requires { Refuses (IsUnreadable source.now.text) refusal }
    ensures { (shape : Shape) → FailsFor showing.format showing.denies shape source.now result }
{
    let mut refused = Vec::new(showing.alloc);
    let part = Part { source, offset: 0 };
    match push_refusal(&mut refused, part, refusal, Clues::none(showing.alloc)) {
        Ok(()) => refused_file(source, showing, &refused, &[]),
        Err(Memory) => Failure::Memory,
    }
}

/// Returns the expansion of the file `source`, or the failure with the faults or the denied
/// warnings of the file. `file` is the result of reading `source`.
fn expand_enums<'w>(
    source: &Source<'_>,
    shape: Shape,
    showing: Showing,
    file: &ReadFile<'_>,
) -> Result<Expansion, Failure<'w>>
    requires enums { AreEnumsOf source.now.text file.now.found.items }
    requires order { AreInOrder 0 (map found_span file.now.found.items) (length source.now.text) }
    requires cut { All (IsFoundCut source.now.text) file.now.found.items }
    ensures done { IfOk result (λ made. IsExpanded shape source.now.path source.now.text made.bytes.items) }
    ensures denied { IfErr result (FailsFor showing.format showing.denies shape source.now) }
{
    let mut warned = Vec::new(showing.alloc);
    let site = Site {
        shape,
        file: source,
        offset: 0,
        by_name: has_import(source),
    };
    let gathered = gather(source.text(), site, &file.found, &mut warned)?;
    add_passed(file.stream.run(), &file.found, &mut warned)?;
    add_missing(showing, &file.found, &mut warned)?;
    if gathered.refused.is_empty() {
        let tokens = file.stream.run();
        return accepted_file(source, shape, showing, tokens, &gathered.parts, &warned);
    }
    Err(refused_file(source, showing, &gathered.refused, &warned))
}

/// Returns whether a file may import `Logos`. This is the case if the text of the file contains a
/// path that an import of `Logos` could have.
fn has_import(source: &Source<'_>) -> bool {
    let text = source.text();
    text.contains("::Logos") | text.contains("logos::{") | text.contains("::*")
}

/// Returns the expansion of a file without faults, in which the parts in `parts` are replaced.
/// Returns the failure with the warnings `warned` if these warnings are denied. `tokens` are the
/// tokens of the file.
fn accepted_file<'w>(
    source: &Source<'_>,
    shape: Shape,
    showing: Showing,
    tokens: Tokens<'_, '_>,
    parts: &[Replacement],
    warned: &[Warning],
) -> Result<Expansion, Failure<'w>>
    requires order { AreInOrder 0 (map part_span parts.now) (length source.now.text) }
    requires warns { AreFileWarnings shape (reports_missing showing.denies showing.format)
        source.now.text warned.now }
    ensures done { IfOk result (λ made.
        IsFileOf shape source.now.path source.now.text parts.now made.bytes.items) }
    ensures denied { IfErr result (FailsFor showing.format showing.denies shape source.now) }
{
    if showing.denies && !warned.is_empty() {
        return Err(denied_file(source, showing, warned));
    }
    Ok(Expansion {
        bytes: expanded_file(showing.alloc, source, shape, tokens, parts)?,
        warnings: warning_text(source, showing, warned, parts.is_empty())?,
    })
}

/// Returns the failure for a file whose warnings `warned` are denied. The failure is `Memory` if
/// memory runs out.
fn denied_file<'w>(source: &Source<'_>, showing: Showing, warned: &[Warning]) -> Failure<'w>
    requires denies { IsTrue showing.denies }
    requires some { 0 < length warned.now }
    ensures { (shape : Shape) → AreFileWarnings shape
        (reports_missing showing.denies showing.format) source.now.text warned.now →
        FailsFor showing.format showing.denies shape source.now result }
{
    match denial_text(source, showing, warned) {
        Ok(text) => Failure::Refused(text),
        Err(Memory) => Failure::Memory,
    }
}

/// Returns the text of a file with `parts` replaced. `tokens` are the tokens of the file.
///
/// If there are parts, the first line states that the file is generated, unless no line can be
/// inserted. The inner documentation and the inner attributes of the file become plain comments
/// where possible.
fn expanded_file(
    alloc: Global,
    source: &Source<'_>,
    shape: Shape,
    tokens: Tokens<'_, '_>,
    parts: &[Replacement],
) -> Result<Vec<u8>, Memory>
    requires { AreInOrder 0 (map part_span parts.now) (length source.now.text) }
    ensures { IfOk result (λ made.
        IsFileOf shape source.now.path source.now.text parts.now made.items) }
{
    let bytes = replace(alloc, source.text(), parts)?;
    if parts.is_empty() {
        return Ok(bytes);
    }
    let body = plain_file(alloc, bytes, tokens)?;
    with_head(alloc, source.path(), shape, &body)
}

/// Returns `bytes`, the text of a file, with plain comments in place of the file's inner
/// documentation and inner attributes. Returns `bytes` unchanged if the file has no inner
/// documentation and no inner attributes, or if these cannot become plain comments. `tokens` are
/// the tokens of the file before its parts were replaced.
fn plain_file(alloc: Global, bytes: Vec<u8>, tokens: Tokens<'_, '_>) -> Result<Vec<u8>, Memory>
    ensures { IfOk result (λ body. IsWithoutInner bytes.items body.items) }
{
    if !has_inner(tokens) {
        return Ok(bytes);
    }
    match plain_bytes(alloc, &bytes)? {
        Some(body) => Ok(body),
        None => Ok(bytes),
    }
}

/// Returns the text of a file with plain comments in place of the file's inner documentation and
/// inner attributes. Returns `None` if these cannot become plain comments or the text is not UTF-8.
fn plain_bytes(alloc: Global, bytes: &[u8]) -> Result<Option<Vec<u8>>, Memory>
    ensures { IfOk result (λ found. IfSome found (λ body. IsPlainly bytes.now body.items)) }
{
    let Ok(text) = str::from_utf8(bytes) else {
        return Ok(None);
    };
    match without_inner(alloc, text)? {
        Some(plain) => Ok(Some(plain.into_bytes())),
        None => Ok(None),
    }
}

/// Returns the replacements of the accepted enums among `found`, and the faults of the refused
/// enums. Appends the warnings for all enums of `found` to `warned`. `text` is the text of the
/// file.
fn gather(
    text: &str,
    site: Site<'_, '_>,
    found: &[FoundEnum],
    warned: &mut Vec<Warning>,
) -> Result<Gathered, Memory>
    requires order { AreInOrder 0 (map found_span found.now) (length text.now) }
    requires cut { All (IsFoundCut text.now) found.now }
    ensures gathers { IfOk result (GathersAll site.entry.shape text.now found.now) }
    ensures order { IfOk result (λ gathered.
        AreInOrder 0 (map part_span gathered.parts.items) (length text.now)) }
    ensures warns { IfOk result (λ gathered. AddsOfEnums site.entry.shape text.now found.now
        gathered.refused.items warned.old.items warned.new.items) }
{
    let alloc = *warned.allocator();
    let mut gathered = Gathered {
        parts: Vec::new(alloc),
        refused: Vec::new(alloc),
    };
    for one in found {
        gather_enum(text, site, *one, &mut gathered, warned)?;
    }
    Ok(gathered)
}

/// Adds the replacement or the faults of the enum `one` to `gathered` if the enum derives `Logos`.
/// Appends the warnings for the enum to `warned`. `text` is the text of the file.
fn gather_enum(
    text: &str,
    site: Site<'_, '_>,
    one: FoundEnum,
    gathered: &mut Gathered,
    warned: &mut Vec<Warning>,
) -> Result<(), Memory>
    requires order { one.span.from ≤ one.span.to }
    requires cut { IsFoundCut text.now one }
    ensures gathers { OnOk result
        (GathersOne site.entry.shape text.now one gathered.old gathered.new) }
    ensures warns { OnOk result (WarnsOne site.entry.shape text.now one gathered.old gathered.new
        warned.old.items warned.new.items) }
{
    let span = one.span;
    let source = &text[span.from..span.to];
    if !one.derives {
        add_text(source, span.from, false, warned)?;
        return Ok(());
    }
    let site = Site {
        offset: span.from,
        by_name: one.by_name & site.by_name,
        ..site
    };
    match expanded(source, site, warned) {
        Ok(text) => {
            gathered.parts.push(Replacement { span, text })?;
            Ok(())
        }
        Err(refusal) => {
            let clues = clues_of(source, span.from, warned)?;
            let part = Part {
                source: site.file,
                offset: span.from,
            };
            push_refusal(&mut gathered.refused, part, refusal, clues)?;
            Ok(())
        }
    }
}

/// Returns the clues about a refused enum, and appends all warnings for the enum to `warned`.
/// `text` is the text of the enum, and begins at the byte offset `offset` of the file.
fn clues_of(text: &str, offset: usize, warned: &mut Vec<Warning>) -> Result<Clues, Memory>
    ensures sets { IfOk result (λ clues. HasSets text.now (sizes_of clues)) }
    ensures warns { IfOk result (λ clues. AddsSome warned.old.items warned.new.items) }
{
    let Explained { clues, warnings } = explain_enum(*warned.allocator(), text, Origin::File)?;
    add_warnings(offset, warnings, warned)?;
    Ok(clues)
}

/// Appends the faults of `refusal` to `refused`, with their clues and help texts. `part` is the
/// part of the file that has the faults.
fn push_refusal(
    refused: &mut Vec<Refused>,
    part: Part<'_, '_>,
    refusal: Refusal,
    mut clues: Clues,
) -> Result<(), Memory>
    ensures { OnOk result
        (AddsRefusal part.entry.offset refusal clues refused.old.items refused.new.items) }
{
    match refusal {
        Refusal::Errors(errors) => {
            add_helps(part, &errors, &mut clues)?;
            refused.push(Refused {
                offset: part.offset,
                errors,
                clues,
            })?;
            Ok(())
        }
        Refusal::Memory => Err(Memory),
    }
}

/// Returns the enum `source` without the derive and its attributes, followed by the implementation.
/// Returns the refusal of the enum if the enum is refused. Appends the warnings for an accepted
/// enum and for its lexer to `warned`.
fn expanded(source: &str, site: Site<'_, '_>, warned: &mut Vec<Warning>) -> Result<String, Refusal>
    ensures done { IfOk result
        (λ text. IsExpansion site.entry.shape source.now (string_bytes text)) }
    ensures refused { IfErr result (Refuses (IsRefused source.now)) }
    ensures warns { IfOk result (λ text. AddsMoved site.entry.offset
        (AreOfAccepted site.entry.shape source.now) warned.old.items warned.new.items) }
    ensures silent { IfErr result (Refuses (λ faults. warned.new.items ≡ warned.old.items)) }
{
    match generate(*warned.allocator(), source, config_of(site.shape)) {
        Ok(made) => match expansion_by(source, site, &made, warned) {
            Ok(text) => Ok(text),
            Err(Memory) => Err(Refusal::Memory),
        },
        Err(refusal) => Err(refusal),
    }
}

/// Returns the enum `source` without the derive and its attributes, followed by the implementation
/// from `made`. Appends the warnings for the enum and for its lexer to `warned`.
fn expansion_by(
    source: &str,
    site: Site<'_, '_>,
    made: &Generated<'_>,
    warned: &mut Vec<Warning>,
) -> Result<String, Memory>
    requires { SpellsEnum source.now }
    ensures done { IfOk result (λ text.
        IsExpansionBy site.entry.shape (around_made made.now) made.now.code source.now (string_bytes text)) }
    ensures warns { IfOk result (λ text. AddsMoved site.entry.offset
        (AreOfGraph source.now made.now.graph) warned.old.items warned.new.items) }
{
    match tokenize(*warned.allocator(), source) {
        Ok(stream) => expansion_with(source, stream.run(), site, made, warned),
        // Only memory can run out: the source has tokens, within the limits.
        Err(_) => Err(Memory),
    }
}

/// Returns the result of `expansion_by` for an enum with the tokens `tokens`. Appends the warnings
/// for the enum and for its lexer to `warned`.
fn expansion_with(
    source: &str,
    tokens: Tokens<'_, '_>,
    site: Site<'_, '_>,
    made: &Generated<'_>,
    warned: &mut Vec<Warning>,
) -> Result<String, Memory>
    requires known { SpellsEnum source.now }
    requires spelled { Spells source.now (tokens_of tokens) }
    ensures done { IfOk result (λ text.
        IsExpansionBy site.entry.shape (around_made made.now) made.now.code source.now (string_bytes text)) }
    ensures warns { IfOk result (λ text. AddsMoved site.entry.offset
        (AreOfGraph source.now made.now.graph) warned.old.items warned.new.items) }
{
    let alloc = *warned.allocator();
    let lexer = Lexer {
        graph: &made.graph,
        error: made.code.error_callback(),
    };
    add_accepted(tokens, site.offset, lexer, warned)?;
    let left = strip_enum(alloc, source, tokens)?;
    printed_with(alloc, source, left.run(), site, made)
}

/// Returns the failure for a file with the faults `refused`. The failure contains the text of the
/// warnings `warned`, followed by the text of the faults. The failure is `Memory` if memory runs
/// out.
fn refused_file<'w>(
    source: &Source<'_>,
    showing: Showing,
    refused: &[Refused],
    warned: &[Warning],
) -> Failure<'w>
    ensures { (shape : Shape) → AreRefused shape source.now.text refused.now →
        FailsFor showing.format showing.denies shape source.now result }
{
    match faults_text(source, showing, refused, warned) {
        Ok(text) => Failure::Refused(text),
        Err(Memory) => Failure::Memory,
    }
}

/// Returns the text of the warnings `warned` of a file, followed by the text of the faults
/// `refused`, in the requested format.
fn faults_text(
    source: &Source<'_>,
    showing: Showing,
    refused: &[Refused],
    warned: &[Warning],
) -> Result<String, Memory>
    ensures { IfOk result (λ text. ShowsRefused showing.format source.now refused.now
        (string_bytes text)) }
{
    match showing.format {
        MessageFormat::Human => match refusal_text(source, showing, refused, warned) {
            Ok(text) => Ok(text),
            Err(AllocError) => Err(Memory),
        },
        MessageFormat::Json => text_of(fault_lines(showing.alloc, source, refused, warned)?),
    }
}

/// Returns lines of JSON: one for each of the first 50 of the warnings `warned`, followed by one
/// for each of the faults `refused`. Of the faults with one code, only the first 50 have a line.
fn fault_lines(
    alloc: Global,
    source: &Source<'_>,
    refused: &[Refused],
    warned: &[Warning],
) -> Result<Vec<u8>, Memory>
    ensures { IfOk result (λ lines. AreReportLines source.now refused.now lines.items) }
{
    let mut lines = warning_lines(alloc, source, warned)?;
    push_refused_messages(alloc, &mut lines, source, refused)?;
    Ok(lines)
}

/// Returns the report of a file: the warnings `warned`, the faults `refused` in the order of the
/// file, and the number of faults. For each fault, the report has two lines. One line contains the
/// name of the fault's code and the first line of the fault's message. The other line contains the
/// fault's location in the file.
fn refusal_text(
    source: &Source<'_>,
    showing: Showing,
    refused: &[Refused],
    warned: &[Warning],
) -> Result<String, AllocError>
    ensures { IfOk result (λ text. InReport showing.is_colored
        (report_texts showing.is_colored source.now warned.now refused.now) (string_bytes text)) }
{
    let mut page = Page::new(showing.alloc, showing.is_colored);
    push_warned(&mut page, source, warned);
    push_refused(&mut page, source, refused);
    push_summary(&mut page, count_refused(refused));
    page.finish()
}

/// Returns the number of errors that are reported for the faults `refused`, or `usize::MAX` if this
/// number overflows.
fn count_refused(refused: &[Refused]) -> usize
    ensures { result ≡ min (errors_in refused.now) (2 ^ 64 - 1) }
{
    let mut count: usize = 0;
    for one in refused {
        count = count.saturating_add(count_errors(&one.errors, &one.clues));
    }
    count
}
