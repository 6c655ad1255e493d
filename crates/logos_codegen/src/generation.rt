//! `generate` generates the code of a lexer from its source, and returns a `Generated`. Part of the
//! public interface, and called by `lex_source` and the programs.

ghost use Rattle.std.specs.Prelude.{◌≡◌, ◌<◌, ◌↔◌, ◌∷◌, ◌++◌, Bool, List, [], length, map, flat_map, option_map, IfOk, IfErr, IsErrAnd, OnOk, IsTrue, string_bytes, option_copied};
ghost use Rattle.logos_codegen.specs.Views.{Rule, fault_of, ident_slice, callback_view, parser_view, kind_value, utf8_mode, IsGraphOf, rules_of, KeepsGiven, IsLexer, HeadHasItsType, IsHeadOf, analysis_view, too_long, Refuses, IsMemory, OccurInOrder, texts_of, named_leaf, reported_as, IsGiven, KeepsEnum, error_callback, variant_at, RunsAreCut, IsAccepted, IsRefused, IsWithinSizes, IsWithinLimits, IsLimit, ReportsGraph, IsFaultless, AreGraphFaults, IsGraphMade, BeginsImplementation, IsFrontOf};
ghost use Rattle.logos_codegen.specs.Views.{ArePrinted, IsAroundOf, around_given, around_made, front_runs, text_runs};

use crate::frame::AroundOptions;
use crate::reports::report_fault;
use logos_definition::parser::{ExportPath, Parser};
use logos_generator::code::Code;
use logos_generator::generator::{Config, Generator};
use logos_graph::graph::{BuildError, Config as GraphConfig, Graph, GraphError};
use logos_hir::leaf::LeafId;
use logos_parser::analysis::{Analysis, analyze};
use logos_parser::refusal::Refusal;
use logos_pattern::leaf::{Callback, Leaf};
use logos_text::{Sink, front_in, text_in};
use logos_token::error::{Errors, FaultCode, Memory};
use logos_token::token::{Ident, Span};
use logos_type::TypeExpr;
use std::alloc::Global;
use std::mem;

/// The maximum length of a source, in bytes.
pub const MAX_SOURCE: usize = 16_777_216;

/// The result of `generate`: the code of a source's lexer, its graph, and the options of the source
/// that determine the text around the code.
#[derive(Drop)]
pub struct Generated<'s> {
    /// The code of the lexer.
    pub code: Code<'s>,
    /// The graph from which the code was made, with its leaves.
    pub graph: Graph<'s>,
    /// The name of the enum.
    pub name: Ident<'s>,
    /// The path in the option `export_dir`, or `None` if the source does not have this option. A
    /// program writes the state diagram of the graph to this path.
    pub export_path: Option<String>,
    /// The options of the source that determine the text around the body of the source's lexer.
    options: AroundOptions<'s>,
}

/// The name, the type and the options of an enum.
#[derive(Drop)]
struct EnumHead<'s> {
    /// The name of the enum.
    name: Ident<'s>,
    /// The type of the enum: its name, and the generic arguments that follow it.
    this: TypeExpr<'s>,
    /// The options of the source, without the faults and without the skips. The skips are leaves.
    options: Parser<'s>,
}

impl Generated<'_> {
    /// Returns the generated code: the implementation of `Logos` for the enum, as printed tokens.
    ///
    /// The generated code contains the texts of all bit tables, in the order of their numbers. The
    /// conditions of all forks follow, in the order of the states, and for each fork in the order
    /// of its conditions. No two of these texts overlap.
    ///
    /// # Errors
    ///
    /// Returns `Memory` if memory runs out.
    pub fn text(&self, alloc: Global) -> Result<String, Memory>
        ensures occur { IfOk result (λ text.
            OccurInOrder (texts_of self.now.code) (string_bytes text)) }
        // The text begins with the head of the implementation, as the options of the source
        // determine it.
        ensures begins { IfOk result (λ text. BeginsImplementation self.now (string_bytes text)) }
    {
        Ok(self.printed(alloc)?.text)
    }

    /// Returns the generated code as the text that `text` returns, together with the pieces of the
    /// source in this text.
    ///
    /// # Errors
    ///
    /// Returns `Memory` if memory runs out.
    pub fn printed(&self, alloc: Global) -> Result<Sink, Memory>
        ensures occur { IfOk result (λ sink.
            OccurInOrder (texts_of self.now.code) (string_bytes sink.text)) }
        ensures begins { IfOk result (λ sink. BeginsImplementation self.now (string_bytes sink.text)) }
        // Each piece consists of tokens of the source, and no piece is missing.
        ensures pieces { IfOk result (λ sink. ArePrinted (text_runs (around_made self.now) self.now.code)
            0 sink.pieces.items (string_bytes sink.text)) }
    {
        text_in(
            alloc,
            &self.code,
            self.options.around(self.graph.utf8_mode()),
        )
    }

    /// Returns the front of the generated code in the shape `tables`, with the pieces of the source
    /// in this text.
    ///
    /// The front is the beginning of the implementation of `Logos` for the enum, as printed tokens.
    /// It ends with the functions for errors, matches and tokens in the body of the lexing
    /// function. In the generated code, the tables follow the front.
    ///
    /// # Errors
    ///
    /// Returns `Memory` if memory runs out.
    pub fn front(&self, alloc: Global) -> Result<Sink, Memory>
        ensures front { IfOk result (λ sink. IsFrontOf self.now (string_bytes sink.text)) }
        ensures pieces { IfOk result (λ sink. ArePrinted (front_runs (around_made self.now) self.now.code)
            0 sink.pieces.items (string_bytes sink.text)) }
    {
        front_in(
            alloc,
            &self.code,
            self.options.around(self.graph.utf8_mode()),
        )
    }
}

impl<'s> Generated<'s> {
    /// Returns the name of the variant for the matches of `leaf`, with the span of the name in the
    /// source. Returns `None` if the leaf is a skip or if no leaf has this number.
    ///
    /// An item of `Lexer` contains the number of its leaf, so `variant` finds the variant of an
    /// item.
    pub fn variant(&self, leaf: LeafId) -> Option<Ident<'s>>
        ensures { result ≡ variant_at self.now.graph.leaves leaf.0 }
    {
        match self.graph.leaves().get(leaf.0) {
            Some(leaf) => leaf.kind.name(),
            None => None,
        }
    }
}

/// Adds `faults`, the faults of the graph of `leaves`, to `errors`. `item` is the span of the enum.
fn report_faults(
    leaves: &[Leaf<'_>],
    item: Span,
    faults: &[GraphError],
    errors: &mut Errors,
) -> Result<(), Memory>
    ensures { OnOk result (errors.new ≡ errors.old ++ flat_map (reported_as
        (map named_leaf leaves.now) item) (map fault_of faults.now)) }
{
    for fault in faults {
        report_fault(leaves, item, fault, errors)?;
    }
    Ok(())
}

/// Reports the limit that `error` names. `item` is the span of the enum, at which the limit is
/// reported. Returns `Memory` if `error` is `Memory`, or if memory runs out.
fn report_limit(error: BuildError, item: Span, errors: &mut Errors) -> Result<(), Memory>
    ensures { OnOk result (IsLimit error item errors.old errors.new) }
{
    match error {
        BuildError::LimitSize => {
            errors.err(FaultCode::LimitSize, "limit LimitSize passed", item)
        }
        BuildError::LimitStates => {
            errors.err(FaultCode::LimitStates, "limit LimitStates passed", item)
        }
        BuildError::Memory => Err(Memory),
    }
}

/// Returns the graph of the leaves, or `None` if a limit is exceeded. Adds the faults of the graph
/// or the exceeded limit to `errors`. `item` is the span of the enum.
fn graph_of<'s>(
    leaves: Vec<Leaf<'s>>,
    utf8_mode: bool,
    item: Span,
    errors: &mut Errors,
) -> Result<Option<Graph<'s>>, Memory>
    ensures { IfOk result (ReportsGraph leaves.entry.items utf8_mode item errors.old errors.new) }
{
    match Graph::new(errors.alloc(), leaves, GraphConfig { utf8_mode }) {
        Ok(graph) => {
            let Ok(()) = report_faults(graph.leaves(), item, graph.errors(), errors) else {
                drop(graph);
                return Err(Memory);
            };
            Ok(Some(graph))
        }
        Err(error) => {
            report_limit(error, item, errors)?;
            Ok(None)
        }
    }
}

/// Returns whether `errors` contains no fault.
fn is_faultless(errors: &Errors) -> bool
    ensures { IsTrue result ↔ (errors.now ≡ []) }
{
    errors.list().is_empty()
}

/// Returns the graph of the leaves if neither the graph nor `errors` has a fault.
///
/// # Errors
///
/// Returns `Errors` with the faults in `errors`, followed by the faults of the graph, if there are
/// any faults. An exceeded limit is a fault of the graph. Returns `Memory` if memory runs out.
fn faultless_graph<'s>(
    leaves: Vec<Leaf<'s>>,
    utf8_mode: bool,
    item: Span,
    mut errors: Errors,
) -> Result<Graph<'s>, Refusal>
    ensures ok { IfOk result (IsFaultless leaves.entry.items utf8_mode item errors) }
    ensures err { IfErr result (Refuses (AreGraphFaults leaves.entry.items utf8_mode item errors)) }
{
    match graph_of(leaves, utf8_mode, item, &mut errors) {
        Ok(Some(graph)) => if is_faultless(&errors) {
            Ok(graph)
        } else {
            drop(graph);
            Err(Refusal::Errors(errors))
        },
        Ok(None) => Err(Refusal::Errors(errors)),
        Err(Memory) => Err(Refusal::Memory),
    }
}

/// Returns the graph of the leaves of an analysis, and the head of the analyzed enum.
///
/// # Errors
///
/// Returns `Errors` if the analysis or the graph has faults or a limit is exceeded, and `Memory` if
/// memory runs out.
fn accept_analysis<'s>(analysis: Analysis<'s>) -> Result<(Graph<'s>, EnumHead<'s>), Refusal>
    ensures ok { IfOk result (λ made. IsFaultless analysis.entry.leaves.items
        (utf8_mode (parser_view analysis.entry.parser)) analysis.entry.span
        analysis.entry.parser.errors made.0) }
    ensures err { IfErr result (Refuses (AreGraphFaults analysis.entry.leaves.items
        (utf8_mode (parser_view analysis.entry.parser)) analysis.entry.span
        analysis.entry.parser.errors)) }
    ensures head { IfOk result (λ made. IsHeadOf (analysis_view analysis.entry) made.1) }
{
    let Analysis {
        name,
        span,
        this,
        leaves,
        parser,
    } = analysis;
    let mut options = parser;
    let mode = options.is_utf8();
    let none = Errors::new(options.errors.alloc());
    let errors = mem::replace(&mut options.errors, none);
    match faultless_graph(leaves, mode, span, errors) {
        Ok(graph) => Ok((
            graph,
            EnumHead {
                name,
                this,
                options,
            },
        )),
        Err(refusal) => {
            drop(this);
            drop(options);
            Err(refusal)
        }
    }
}

/// Returns the callback for errors, or `None` if the options have none.
fn callback_in<'p, 's>(parser: &'p Parser<'s>) -> Option<&'p Callback<'s>>
    ensures { option_map callback_view (option_copied result)
        ≡ error_callback (parser_view parser.now) }
{
    match &parser.error_type {
        Some(error) => error.callback.as_ref(),
        None => None,
    }
}

/// Returns the code of a graph for the enum with the head `head`. The code finds the longest
/// matches.
fn code_of<'s>(
    alloc: Global,
    config: Config,
    head: &EnumHead<'s>,
    graph: &Graph<'s>,
) -> Result<Code<'s>, Memory>
    requires of_leaves { IsGraphOf graph.now.leaves graph.now.utf8 graph.now }
    requires faultless { graph.now.faults ≡ [] }
    requires typed { HeadHasItsType head.now }
    ensures lexer { IfOk result (IsLexer (rules_of graph.now.leaves) graph.now.utf8) }
    ensures keeps { IfOk result (KeepsEnum config (ident_slice head.now.name)
        (parser_view head.now.options) graph.now) }
{
    let callback = callback_in(&head.options);
    let mut generator = Generator::new(alloc, config, head.name, &head.this, graph, callback);
    generator.generate(alloc)
}

/// Analyzes a source, and returns the graph of its leaves and the head of its enum.
///
/// # Errors
///
/// Returns `Errors` if the source has faults, and `Memory` if memory runs out.
fn accept<'s>(alloc: Global, src: &'s str) -> Result<(Graph<'s>, EnumHead<'s>), Refusal>
    ensures ok { IfOk result (λ read. IsGraphMade src.now (ident_slice read.1.name)
        (parser_view read.1.options) read.0) }
    ensures typed { IfOk result (λ read. HeadHasItsType read.1) }
    ensures err { IfErr result (Refuses (IsRefused src.now)) }
    ensures long { MAX_SOURCE < length src.now → IsErrAnd result (Refuses (λ faults.
        faults ≡ too_long src.now ∷ [])) }
{
    match analyze(alloc, src) {
        Ok(analysis) => accept_analysis(analysis),
        Err(refusal) => Err(refusal),
    }
}

/// Returns the path of a state diagram, or `None` if the source exports none.
fn path_of(export: Option<ExportPath>) -> Option<String>
    ensures { option_map string_bytes result
        ≡ option_map (λ e. string_bytes e.path) export }
{
    match export {
        Some(export) => Some(export.path),
        None => None,
    }
}

/// Returns the result of `generate` with `code`, `graph`, and the name and the options in `head`.
fn put_together<'s>(code: Code<'s>, graph: Graph<'s>, head: EnumHead<'s>) -> Generated<'s>
    ensures parts { (result.code ≡ code.entry) × (result.graph ≡ graph.entry)
        × (result.name ≡ head.entry.name) }
    ensures path { option_map string_bytes result.export_path
        ≡ option_map (λ e. e.path) (parser_view head.entry.options).export_path }
    ensures around { around_made result
        ≡ around_given (parser_view head.entry.options) graph.entry.utf8 }
{
    let EnumHead { name, options, .. } = head;
    let Parser {
        logos_path,
        error_type,
        extras,
        export_path,
        ..
    } = options;
    Generated {
        code,
        graph,
        name,
        export_path: path_of(export_path),
        options: AroundOptions {
            library: logos_path,
            error_type,
            extras,
        },
    }
}

/// Generates the code of a lexer from its source.
///
/// The source is an enum with the attributes `token` and `regex` on its variants and with
/// attributes `logos` of its own. Leaves are numbered from 0: first the skips and then the leaves
/// of the variants, both in source order. The code finds the same items in both shapes of `config`.
///
/// # Errors
///
/// Returns `Errors` with the one fault that ends the reading of the source, or otherwise with all
/// faults of the source. The faults are in this order:
///
/// - faults of the generic parameters
/// - faults of the attributes of the enum
/// - faults of parameters that contain themselves
/// - faults of subpatterns
/// - faults of skips
/// - faults of variants, in source order
/// - faults of leaves that can match invalid UTF-8 when inputs are UTF-8
/// - faults of parameters without a type
/// - faults of the graph
///
/// Exceeded limits are also faults: limits on the length of the source, on the nesting of its
/// delimiters, types and patterns, on the size of all trees, and on the number of states.
///
/// Returns `Memory` if memory runs out.
pub fn generate<'s>(alloc: Global, src: &'s str, config: Config) -> Result<Generated<'s>, Refusal>
    // The source has no faults, and these are its rules and its mode.
    ensures accepted { IfOk result (λ made. IsAccepted src.now
        (rules_of made.graph.leaves) made.graph.utf8) }
    // The graph is that of the source's leaves. The code has the shape, the name and the type of
    // the enum, the callback for errors, and the kind and the callback of each leaf. The name is
    // the enum's, and the path is that of `export_dir`.
    ensures given { IfOk result (λ made. IsGiven src.now config made.graph made.code
        (ident_slice made.name) (option_map string_bytes made.export_path)) }
    // The text around the lexer is determined by the options of the source.
    ensures around { IfOk result (λ made. IsAroundOf src.now made.graph (around_made made)) }
    // The length of the source, its nesting and the size of its trees are within their limits.
    ensures within { IfOk result (λ made. IsWithinSizes src.now (rules_of made.graph.leaves)) }
    // From each point of each input the code finds exactly the result of maximal munch.
    ensures lexer { IfOk result (λ made. IsLexer
        (rules_of made.graph.leaves) made.graph.utf8 made.code) }
    // In UTF-8 mode the items of each run of the code on a text start and end between characters,
    // whatever callbacks answer.
    ensures cut { IfOk result (λ made. IsTrue made.graph.utf8 → RunsAreCut made.code) }
    // A refused source has these faults.
    ensures refused { IfErr result (Refuses (IsRefused src.now)) }
    // A source longer than the limit has exactly that fault.
    ensures long { MAX_SOURCE < length src.now → IsErrAnd result (Refuses (λ faults.
        faults ≡ too_long src.now ∷ [])) }
    // A source without faults, within the limits, is not refused.
    ensures complete { (rules : List Rule) (utf8 : Bool) → IsAccepted src.now rules utf8 →
        IsWithinLimits src.now rules → IfErr result IsMemory }
{
    let (graph, head) = match accept(alloc, src) {
        Ok(read) => read,
        Err(refusal) => return Err(refusal),
    };
    match code_of(alloc, config, &head, &graph) {
        Ok(code) => Ok(put_together(code, graph, head)),
        Err(_) => {
            drop(graph);
            drop(head);
            Err(Refusal::Memory)
        }
    }
}
