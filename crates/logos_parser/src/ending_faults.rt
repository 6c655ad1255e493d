//! Functions that return the refusal of a source with a fault that ends the reading of the source.
//! Called by `analyze`, `strip_attributes` and `enums_in`.

ghost use Rattle.std.specs.Prelude.{◌≡◌, ◌∷◌, []};
ghost use Rattle.logos_parser.specs.Views.{Fault, IsRefusal, fault, only, EndsReading, lexical_fault, lexical_text, IsMisread, too_long, Refuses};

use crate::refusal::Refusal;
use logos_enum::ReadError;
use logos_token::error::{Detail, Errors, FaultCode};
use logos_token::token::{LexicalKind, Span, TokenError};
use logos_type_params::reports::type_nesting_text;
use std::alloc::Global;

/// Returns the refusal with one fault that has `code`, `message` and `span`, or `Memory` if memory
/// runs out.
fn refused(alloc: Global, code: FaultCode, message: &str, span: Span) -> Refusal
    ensures { Refuses (λ faults. faults ≡ only (fault code message.now span)) result }
{
    let mut errors = Errors::new(alloc);
    match errors.err(code, message, span) {
        Ok(()) => Refusal::Errors(errors),
        Err(_) => Refusal::Memory,
    }
}

/// Returns the message of a lexical fault of the kind `kind`.
fn lexical_text(kind: LexicalKind) -> &'static str
    ensures { result.now ≡ lexical_text kind }
{
    match kind {
        LexicalKind::BadCharacter => "unreadable source: BadCharacter",
        LexicalKind::BadLiteral => "unreadable source: BadLiteral",
        LexicalKind::Unterminated => "unreadable source: Unterminated",
        LexicalKind::Unbalanced => "unreadable source: Unbalanced",
    }
}

/// Returns the refusal of a source that cannot be split into tokens, with a lexical fault of the
/// kind `kind` at `span`, or `Memory` if memory runs out.
fn unlexed(alloc: Global, kind: LexicalKind, span: Span) -> Refusal
    ensures { Refuses (λ faults. faults ≡ only (lexical_fault kind span)) result }
{
    let mut errors = Errors::new(alloc);
    match errors.err_with(
        FaultCode::Lexical,
        lexical_text(kind),
        span,
        Detail::Lexical(kind),
    ) {
        Ok(()) => Refusal::Errors(errors),
        Err(_) => Refusal::Memory,
    }
}

/// Returns the refusal of tokens that are not an enum: one fault for `error`, or `Memory` if memory
/// ran out.
pub fn misread(alloc: Global, error: ReadError) -> Refusal
    ensures { Refuses (IsMisread error) result }
{
    match error {
        ReadError::NotAnEnum { span } => refused(
            alloc,
            FaultCode::NotAnEnum,
            "Logos can be only be derived for enums",
            span,
        ),
        ReadError::Grammar { span } => refused(
            alloc,
            FaultCode::Grammar,
            "the enum is not well formed",
            span,
        ),
        ReadError::TypeUnsupported { span } => refused(
            alloc,
            FaultCode::TypeUnsupported,
            "type not supported",
            span,
        ),
        ReadError::LimitTypeNesting { span } => refused(
            alloc,
            FaultCode::LimitTypeNesting,
            type_nesting_text(),
            span,
        ),
        ReadError::Memory => Refusal::Memory,
    }
}

/// Returns the refusal of `src`, a source that cannot be split into tokens: one fault for `error`,
/// or `Memory` if memory ran out.
pub fn unreadable(alloc: Global, src: &str, error: TokenError) -> Refusal
    requires { IsRefusal src.now error }
    ensures ends { Refuses (λ faults. (ending : Fault) × EndsReading src.now ending
        × (faults ≡ ending ∷ [])) result }
    ensures long { error ≡ TokenError.LimitSource →
        Refuses (λ faults. faults ≡ too_long src.now ∷ []) result }
{
    match error {
        TokenError::Lexical { kind, span } => unlexed(alloc, kind, span),
        TokenError::LimitSource => refused(
            alloc,
            FaultCode::LimitSource,
            "limit LimitSource passed",
            Span {
                from: 0,
                to: src.len(),
            },
        ),
        TokenError::LimitTokenNesting { span } => refused(
            alloc,
            FaultCode::LimitTokenNesting,
            "limit LimitTokenNesting passed",
            span,
        ),
        TokenError::Memory => Refusal::Memory,
    }
}
