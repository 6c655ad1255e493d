//! `analyze` finds the leaves, the options and the faults of a source. `generate` of
//! `logos_codegen` calls `analyze` first.

ghost use Rattle.std.specs.Prelude.{◌≡◌, ◌<◌, ◌≤◌, ◌∷◌, ◌++◌, [], length, map, option_map, IfOk, IfErr, IsErrAnd, OnOk};
ghost use Rattle.logos_parser.specs.Views.{source_limit, Fault, run_span, stream_tokens, tokens_of, enum_value, generics_of, generics, parser_view, leaf_view, utf8_mode, IsShallow, too_long, EndsReading, EndsTokens, type_faults, HasItsType, IsEnumAnalysis, IsTokenAnalysis, IsAnalysis, ReadsEnum, no_options, type_tree, utf8_faults, Refuses, analysis_view};

use crate::ending_faults::{misread, unreadable};
use crate::enum_type::enum_type;
use crate::mode::report_not_utf8;
use crate::refusal::Refusal;
use logos_definition::parser::Parser;
use logos_enum::{ItemEnum, read_enum};
use logos_leaf::source::read_leaves;
use logos_pattern::leaf::Leaf;
use logos_token::error::Memory;
use logos_token::token::{Ident, Span, TokenStream, tokenize};
use logos_type::TypeExpr;
use logos_type_params::Generics;
use std::alloc::Global;

/// The result of analyzing a source: the name, the type and the span of the enum, its leaves, its
/// options, and all faults except the faults of the graph.
#[derive(Drop)]
pub struct Analysis<'s> {
    /// The name of the enum.
    pub name: Ident<'s>,
    /// The span of the enum, from its first token to its last.
    pub span: Span,
    /// The type of the enum: its name, and the generic arguments that follow it.
    pub this: TypeExpr<'s>,
    /// The leaves of the skips, followed by the leaves of the variants, both in source order.
    pub leaves: Vec<Leaf<'s>>,
    /// The options, and the faults in the order in which they were found. The skips are in `leaves`
    /// instead.
    pub parser: Parser<'s>,
}

/// Reports each leaf that can match invalid UTF-8, but only if inputs are UTF-8. Also reports each
/// type parameter without a type. Returns the generic arguments that follow the enum's name, or
/// `None` if there are none.
fn check_leaves<'s>(
    leaves: &[Leaf<'s>],
    parser: &mut Parser<'s>,
) -> Result<Option<Generics<'s>>, Memory>
    ensures faults { OnOk result (parser.new.errors ≡ (parser.old.errors
        ++ utf8_faults (utf8_mode (parser_view parser.old)) (map leaf_view leaves.now))
        ++ type_faults (parser_view parser.old)) }
    ensures given { IfOk result (λ made. option_map generics_of made
        ≡ generics (parser_view parser.old).types) }
    ensures unchanged { OnOk result (parser_view parser.new ≡ parser_view parser.old) }
{
    let mode = parser.is_utf8();
    report_not_utf8(mode, leaves, &mut parser.errors)?;
    parser.types.generics(&mut parser.errors)
}

/// Reads and checks the leaves of `item`. `parser` is a new parser, to which the options and the
/// faults are added. Returns the leaves and the type of the enum.
fn read_typed<'s>(
    alloc: Global,
    item: &ItemEnum<'_, 's>,
    parser: &mut Parser<'s>,
) -> Result<(Vec<Leaf<'s>>, TypeExpr<'s>), Memory>
    requires options { parser_view parser.old ≡ no_options }
    requires faults { parser.old.errors ≡ [] }
    ensures reads_as { IfOk result (λ made. ReadsEnum (enum_value item.now)
        (map leaf_view made.0.items) (parser_view parser.new) parser.new.errors) }
    ensures is_type { IfOk result (λ made. HasItsType (enum_value item.now).name
        (parser_view parser.new) (type_tree made.1)) }
{
    let leaves = read_leaves(item, parser)?;
    let generics = check_leaves(leaves.as_slice(), parser)?;
    let this = enum_type(alloc, item.name.text, generics)?;
    Ok((leaves, this))
}

/// Analyzes `item`, an enum whose tokens have the span `span`. Faults do not stop the analysis; the
/// parser in the result contains them.
///
/// # Errors
///
/// Returns `Memory` if memory runs out.
pub fn analyze_enum<'s>(
    alloc: Global,
    item: &ItemEnum<'_, 's>,
    span: Span,
) -> Result<Analysis<'s>, Memory>
    ensures { IfOk result (λ analysis.
        IsEnumAnalysis (enum_value item.now) span (analysis_view analysis)) }
{
    let mut parser = Parser::new(alloc);
    match read_typed(alloc, item, &mut parser) {
        Ok((leaves, this)) => Ok(Analysis {
            name: item.name,
            span,
            this,
            leaves,
            parser,
        }),
        Err(Memory) => Err(Memory),
    }
}

/// Analyzes the tokens of a source. Returns the refusal with one fault if the tokens are not an
/// enum.
fn analyze_tokens<'s>(alloc: Global, stream: &TokenStream<'s>) -> Result<Analysis<'s>, Refusal>
    ensures ok { IfOk result (λ analysis.
        IsTokenAnalysis (stream_tokens stream.now) (analysis_view analysis)) }
    ensures err { IfErr result (Refuses (EndsTokens (stream_tokens stream.now))) }
{
    let tokens = stream.run();
    let item = match read_enum(alloc, tokens) {
        Ok(item) => item,
        Err(error) => return Err(misread(alloc, error)),
    };
    match analyze_enum(alloc, &item, tokens.span()) {
        Ok(analysis) => Ok(analysis),
        Err(Memory) => Err(Refusal::Memory),
    }
}

/// Analyzes a source: reads its enum, and finds its leaves, its options, and all faults except the
/// faults of the graph. Faults in the enum do not stop the analysis; the parser in the result
/// contains them.
///
/// # Errors
///
/// Returns `Memory` if memory runs out, and `Errors` with the one fault that ends the reading:
///
/// - `LimitSource` if the source is longer than 16 MiB
/// - `Lexical` if the source cannot be split into tokens
/// - `LimitTokenNesting` if groups of tokens are nested too deeply
/// - `NotAnEnum`, `Grammar`, `TypeUnsupported` or `LimitTypeNesting` if the tokens are not an enum
pub fn analyze<'s>(alloc: Global, src: &'s str) -> Result<Analysis<'s>, Refusal>
    ensures ok { IfOk result (λ analysis. IsAnalysis src.now (analysis_view analysis)) }
    ensures short { IfOk result (λ analysis. length src.now ≤ source_limit) }
    ensures shallow { IfOk result (λ analysis. IsShallow src.now) }
    ensures err { IfErr result (Refuses (λ faults. (ending : Fault) × EndsReading src.now ending
        × (faults ≡ ending ∷ []))) }
    ensures long { source_limit < length src.now →
        IsErrAnd result (Refuses (λ faults. faults ≡ too_long src.now ∷ [])) }
{
    match tokenize(alloc, src) {
        Ok(stream) => analyze_tokens(alloc, &stream),
        Err(error) => Err(unreadable(alloc, src, error)),
    }
}
