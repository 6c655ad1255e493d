//! Functions that explain the faults of a refused source, or find the warnings for a lexer. The
//! programs and the derive macro call them.

ghost use Rattle.std.specs.Prelude.{◌≡◌, ◌≢◌, ◌≤◌, [], IfOk, OnOk};
ghost use Rattle.logos_causes.specs.Views.{AddsEach, AreOfLexer, IsOfLexer, YieldsEnum, HasSets, IsRefusal, LeavesHaveSets, Spells, delimiter_limit, depth_of, enum_value, run_span, set_sizes, sizes_of, tokens_of};

use crate::callbacks::{add_callbacks, add_error_callback};
use crate::leading_looks::starts_of;
use crate::meetings::meetings_of;
use crate::shadowed_leaves::add_hidden;
use logos_enum::{ItemEnum, ReadError, read_enum};
use logos_graph::graph::{BuildError, Config, Graph};
use logos_parser::analysis::{Analysis, analyze_enum};
use logos_pattern::leaf::{Callback, Leaf};
use logos_report::{Clues, Warning};
use logos_token::error::Memory;
use logos_token::token::{TokenError, Tokens, tokenize};
use logos_warnings::{Origin, item_warnings, token_warnings};
use std::alloc::{AllocError, Global};
use std::mem;

/// The clues about the faults of a source, and the warnings for the source.
#[derive(Debug, Drop)]
pub struct Explained {
    /// The clues about the faults of the source's graph, without help texts.
    pub clues: Clues,
    /// The warnings for the source.
    pub warnings: Vec<Warning>,
}

impl Explained {
    /// Returns the empty explanation of a source that cannot be read as an enum.
    fn nothing(alloc: Global) -> Explained
        ensures { sizes_of result.clues ≡ [] }
    {
        Explained {
            clues: Clues::none(alloc),
            warnings: Vec::new(alloc),
        }
    }
}

/// Returns the clues about the faults of a refused source's graph, and the warnings for the
/// source's callbacks. Returns no clues and no warnings if the source cannot be read as an enum.
///
/// # Errors
///
/// Returns `Memory` if memory runs out.
pub fn explain(alloc: Global, source: &str) -> Result<Explained, Memory>
    // Each set of ambiguous leaves of the source has a clue, in order.
    ensures { IfOk result (λ known. HasSets source.now (sizes_of known.clues)) }
{
    explain_source(alloc, source, None)
}

/// Returns the clues of `explain`, and all warnings for an enum that derives `Logos`. `source` is
/// the text of the enum.
///
/// The warnings of `enum_warnings` come first, followed by the warnings of `explain`. There are no
/// clues and no warnings if the source cannot be read as an enum. The enum is read only once.
///
/// # Errors
///
/// Returns `Memory` if memory runs out.
pub fn explain_enum(alloc: Global, source: &str, origin: Origin) -> Result<Explained, Memory>
    // Each set of ambiguous leaves of the source has a clue, in order.
    ensures { IfOk result (λ known. HasSets source.now (sizes_of known.clues)) }
{
    explain_source(alloc, source, Some(origin))
}

/// Returns the explanation of a source. The warnings of `enum_warnings` come first, but are left
/// out if `origin` is `None`.
fn explain_source(alloc: Global, source: &str, origin: Option<Origin>) -> Result<Explained, Memory>
    ensures { IfOk result (λ known. HasSets source.now (sizes_of known.clues)) }
{
    match tokenize(alloc, source) {
        Ok(stream) => explain_tokens(alloc, source, stream.run(), origin),
        Err(error) => explain_unreadable(alloc, source, error),
    }
}

/// Returns the empty explanation of a source that could not be read into tokens, or `Memory` if
/// memory ran out.
fn explain_unreadable(alloc: Global, source: &str, error: TokenError) -> Result<Explained, Memory>
    requires { IsRefusal source.now error }
    ensures { IfOk result (λ known. HasSets source.now (sizes_of known.clues)) }
{
    match error {
        TokenError::Lexical { .. } => Ok(Explained::nothing(alloc)),
        TokenError::LimitSource => Ok(Explained::nothing(alloc)),
        TokenError::LimitTokenNesting { .. } => Ok(Explained::nothing(alloc)),
        TokenError::Memory => Err(Memory),
    }
}

/// Returns the explanation of a source with the tokens `tokens`. The warnings of `enum_warnings`
/// come first, but are left out if `origin` is `None`.
fn explain_tokens(
    alloc: Global,
    source: &str,
    tokens: Tokens<'_, '_>,
    origin: Option<Origin>,
) -> Result<Explained, Memory>
    requires spelled { Spells source.now (tokens_of tokens) }
    requires shallow { depth_of (tokens_of tokens) ≤ delimiter_limit }
    ensures { IfOk result (λ known. HasSets source.now (sizes_of known.clues)) }
{
    match read_enum(alloc, tokens) {
        Ok(item) => explain_item(alloc, EnumText { source, tokens }, &item, origin),
        Err(error) => explain_misread(alloc, error),
    }
}

/// Returns the empty explanation of tokens that could not be read as an enum, or `Memory` if memory
/// ran out.
fn explain_misread(alloc: Global, error: ReadError) -> Result<Explained, Memory>
    ensures known { IfOk result (λ known. sizes_of known.clues ≡ []) }
    ensures fault { IfOk result (λ known. error ≢ ReadError.Memory) }
{
    match error {
        ReadError::NotAnEnum { .. } => Ok(Explained::nothing(alloc)),
        ReadError::Grammar { .. } => Ok(Explained::nothing(alloc)),
        ReadError::TypeUnsupported { .. } => Ok(Explained::nothing(alloc)),
        ReadError::LimitTypeNesting { .. } => Ok(Explained::nothing(alloc)),
        ReadError::Memory => Err(Memory),
    }
}

/// The text of an enum, with its tokens.
#[derive(Clone, Copy)]
struct EnumText<'t, 's> {
    source: &'s str,
    tokens: Tokens<'t, 's>,
}

/// Returns the clues about the faults of the graph of the enum `item`, and the warnings for the
/// enum. The warnings of `enum_warnings` come first, but are left out if `origin` is `None`. `text`
/// is the text of the enum.
fn explain_item(
    alloc: Global,
    text: EnumText<'_, '_>,
    item: &ItemEnum<'_, '_>,
    origin: Option<Origin>,
) -> Result<Explained, Memory>
    requires { YieldsEnum text.source.now (enum_value item.now) (run_span (tokens_of text.tokens)) }
    ensures { IfOk result (λ known. HasSets text.entry.source.now (sizes_of known.clues)) }
{
    let mut warnings = known_warnings(alloc, item, origin)?;
    let clues = clues_in(alloc, text, item, &mut warnings)?;
    Ok(Explained { clues, warnings })
}

/// Returns the warnings of `enum_warnings` for `item`, an enum that derives `Logos`, or no warnings
/// if `origin` is `None`.
fn known_warnings(
    alloc: Global,
    item: &ItemEnum<'_, '_>,
    origin: Option<Origin>,
) -> Result<Vec<Warning>, AllocError> {
    match origin {
        Some(origin) => item_warnings(alloc, item, true, origin),
        None => Ok(Vec::new(alloc)),
    }
}

/// Returns the clues about the faults of the graph of the enum `item`, and appends the warnings for
/// the callbacks of the enum to `warnings`. `text` is the text of the enum.
fn clues_in(
    alloc: Global,
    text: EnumText<'_, '_>,
    item: &ItemEnum<'_, '_>,
    warnings: &mut Vec<Warning>,
) -> Result<Clues, Memory>
    requires { YieldsEnum text.source.now (enum_value item.now) (run_span (tokens_of text.tokens)) }
    ensures { IfOk result (λ clues. HasSets text.entry.source.now (sizes_of clues)) }
{
    match analyze_enum(alloc, item, text.tokens.span()) {
        Ok(analysis) => {
            let mut analysis = analysis;
            let clues = clues_of_analysis(alloc, text.tokens, &mut analysis, warnings);
            drop(analysis);
            clues
        }
        Err(Memory) => Err(Memory),
    }
}

/// Takes the leaves out of an analysis, and returns the clues about the faults of their graph.
/// Appends the warnings for the callbacks of the analysis to `warnings`. `tokens` are the tokens of
/// the source.
fn clues_of_analysis(
    alloc: Global,
    tokens: Tokens<'_, '_>,
    analysis: &mut Analysis<'_>,
    warnings: &mut Vec<Warning>,
) -> Result<Clues, Memory>
    ensures { IfOk result (λ clues.
        LeavesHaveSets analysis.old.leaves.items (sizes_of clues)) }
{
    let error = callback_of(analysis);
    add_error_callback(alloc, tokens, error, warnings)?;
    add_callbacks(alloc, tokens, &analysis.leaves, warnings)?;
    let utf8_mode = analysis.parser.is_utf8();
    clues_of_leaves(alloc, leaves_of(alloc, analysis), utf8_mode)
}

/// Returns the error callback of an analysis, or `None` if the analysis has no error callback.
fn callback_of<'a, 's>(analysis: &'a Analysis<'s>) -> Option<&'a Callback<'s>> {
    match &analysis.parser.error_type {
        Some(error) => error.callback.as_ref(),
        None => None,
    }
}

/// Takes the leaves out of an analysis, and returns the leaves.
fn leaves_of<'s>(alloc: Global, analysis: &mut Analysis<'s>) -> Vec<Leaf<'s>>
    ensures { result ≡ analysis.old.leaves }
{
    mem::replace(&mut analysis.leaves, Vec::new(alloc))
}

/// Returns the clues about the faults of the graph of `leaves`. The clues are empty if a limit
/// prevents the construction of the graph.
fn clues_of_leaves(alloc: Global, leaves: Vec<Leaf<'_>>, utf8_mode: bool) -> Result<Clues, Memory>
    ensures { IfOk result (λ clues. LeavesHaveSets leaves.entry.items (sizes_of clues)) }
{
    match Graph::new(alloc, leaves, Config { utf8_mode }) {
        Ok(graph) => Ok(clues_of(alloc, &graph)?),
        Err(BuildError::LimitSize) => Ok(Clues::none(alloc)),
        Err(BuildError::LimitStates) => Ok(Clues::none(alloc)),
        Err(BuildError::Memory) => Err(Memory),
    }
}

/// Returns the clues about the faults of a graph, without help texts.
fn clues_of(alloc: Global, graph: &Graph<'_>) -> Result<Clues, AllocError>
    ensures { IfOk result (λ clues. sizes_of clues ≡ set_sizes graph.now.faults) }
{
    Ok(Clues {
        meetings: meetings_of(alloc, graph)?,
        starts: starts_of(alloc, graph.leaves())?,
        helps: Vec::new(alloc),
    })
}

/// Returns the warnings for an enum without faults. The enum derives `Logos` and has the tokens
/// `tokens`.
///
/// The warnings of `enum_warnings` come first. The warnings for the callbacks of the lexer follow,
/// beginning with the error callback. The warnings for leaves that are never found come last.
///
/// # Errors
///
/// Returns `Memory` if memory runs out.
pub fn accepted_warnings(
    alloc: Global,
    tokens: Tokens<'_, '_>,
    lexer: Lexer<'_, '_>,
    origin: Origin,
) -> Result<Vec<Warning>, Memory>
    ensures { IfOk result (λ warnings.
        AreOfLexer (tokens_of tokens.entry) lexer.entry.graph.now origin warnings.items) }
{
    let mut warnings = token_warnings(alloc, tokens, true, origin)?;
    add_of_lexer(alloc, tokens, lexer, &mut warnings)?;
    Ok(warnings)
}

/// Appends the warnings for the callbacks of a lexer to `warnings`, and then the warnings for
/// leaves that are never found. `tokens` are the tokens of the lexer's source.
fn add_of_lexer(
    alloc: Global,
    tokens: Tokens<'_, '_>,
    lexer: Lexer<'_, '_>,
    warnings: &mut Vec<Warning>,
) -> Result<(), Memory>
    ensures { OnOk result (AddsEach (IsOfLexer lexer.entry.graph.now) warnings.old.items
        warnings.new.items) }
{
    add_error_callback(alloc, tokens, lexer.error, warnings)?;
    add_callbacks(alloc, tokens, lexer.graph.leaves(), warnings)?;
    add_hidden(alloc, lexer.graph, warnings)?;
    Ok(())
}

/// The graph and the error callback of a lexer without faults.
#[derive(Clone, Copy)]
pub struct Lexer<'g, 's> {
    /// The graph of the lexer, with its leaves.
    pub graph: &'g Graph<'s>,
    /// The error callback, or `None` if there is none.
    pub error: Option<&'g Callback<'s>>,
}
