//! The functions that strip sources. `logos strip` calls `strip_attributes`, and the expansion of
//! files calls `strip_enum`.

ghost use Rattle.std.specs.Prelude.{◌≡◌, ◌<◌, [], ◌∷◌, length, IfOk, IfErr, IsErrAnd};
ghost use Rattle.logos_strip.specs.Views.{source_limit, Fault, Spells, stream_tokens, tokens_of, EnumValue, too_long, EndsReading, EndsTokens, Refuses, IsMemory, stripped, AreStripped, IsStripped, SpellsEnum};

use crate::groups::strip_run;
use crate::spots::Scope;
use logos_enum::read_enum;
use logos_parser::ending_faults::{misread, unreadable};
use logos_parser::refusal::Refusal;
use logos_token::error::Memory;
use logos_token::token::{TokenStream, Tokens, tokenize};
use std::alloc::Global;

/// Returns the tokens of a source without the parts that belong to the derive macro, or a refusal
/// if the tokens are not an enum.
fn strip_tokens<'s>(alloc: Global, stream: &TokenStream<'s>) -> Result<TokenStream<'s>, Refusal>
    ensures ok { IfOk result (λ left. AreStripped (stream_tokens stream.now) (stream_tokens left)) }
    ensures err { IfErr result (Refuses (EndsTokens (stream_tokens stream.now))) }
{
    let tokens = stream.run();
    if let Err(error) = read_enum(alloc, tokens) {
        return Err(misread(alloc, error));
    }
    match strip_run(alloc, Scope::Enum, tokens) {
        Ok(left) => Ok(left),
        Err(_) => Err(Refusal::Memory),
    }
}

/// Returns the tokens of the enum that a source spells, without the parts that belong to the derive
/// macro.
///
/// The helper attributes `logos`, `token` and `regex` are removed from the enum, its variants and
/// its fields, whatever their arguments. From each `derive` of the enum, the entries `Logos`,
/// `logos::Logos` and `::logos::Logos` are removed, each with the comma after it. Punctuation
/// directly before a removed part gets the spacing `Alone`. All other tokens are unchanged, with
/// their spans in the source.
///
/// # Errors
///
/// Returns `Memory` if memory runs out, or `Errors` with one fault, which ends the reading. The
/// fault is:
///
/// - `LimitSource` if the source is longer than 16 MiB.
/// - `Lexical` if the source cannot be split into tokens.
/// - `LimitTokenNesting` if the groups of the source are nested more than 128 deep.
/// - `NotAnEnum`, `Grammar`, `TypeUnsupported` or `LimitTypeNesting` if the tokens of the source
///   are not an enum.
pub fn strip_attributes<'s>(alloc: Global, src: &'s str) -> Result<TokenStream<'s>, Refusal>
    ensures ok { IfOk result (λ left. IsStripped src.now (stream_tokens left)) }
    ensures err { IfErr result (Refuses (λ faults. (ending : Fault) × EndsReading src.now ending
        × (faults ≡ ending ∷ []))) }
    ensures long { source_limit < length src.now →
        IsErrAnd result (Refuses (λ faults. faults ≡ too_long src.now ∷ [])) }
    // A source that spells an enum, within the limits, is not refused.
    ensures complete { SpellsEnum src.now → IfErr result IsMemory }
{
    match tokenize(alloc, src) {
        Ok(stream) => strip_tokens(alloc, &stream),
        Err(error) => Err(unreadable(alloc, src, error)),
    }
}

/// Returns the tokens of the enum that the source `src` spells, without the parts that belong to
/// the derive macro. The result is the same as that of `strip_attributes`, but the enum is not read
/// again. `tokens` are the tokens of the source. The source must spell an enum, such as an enum
/// from which `generate` has made a lexer.
///
/// # Errors
///
/// Returns `Memory` if memory runs out.
pub fn strip_enum<'s>(
    alloc: Global,
    src: &'s str,
    tokens: Tokens<'_, 's>,
) -> Result<TokenStream<'s>, Memory>
    requires known { SpellsEnum src.now }
    requires spelled { Spells src.now (tokens_of tokens) }
    ensures { IfOk result (λ left. IsStripped src.now (stream_tokens left)) }
{
    // The source is only here for the contract's facts about it.
    let _ = src;
    strip_run(alloc, Scope::Enum, tokens)
}
