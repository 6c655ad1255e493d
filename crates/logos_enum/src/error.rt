//! Defines the errors that the readers of this crate return if a run of tokens is not an enum.

ghost use Rattle.std.specs.Prelude.{◌≡◌};
ghost use Rattle.logos_enum.specs.Views.{Memory};

use logos_token::token::Span;
use std::alloc::{AllocError, AllocFailed};

/// The reason why a run of tokens is not an enum: the first fault of the run from the left.
#[derive(Clone, Copy, Debug, PartialEq, Eq)]
pub enum ReadError {
    /// The run does not begin with well-formed attributes, an optional visibility, and `enum`.
    /// `span` is the span of the whole run.
    NotAnEnum { span: Span },
    /// The run begins as an enum does, but a token after `enum` does not fit. `span` is the span of
    /// the first such token. If this token is a group, `span` is the span of the whole group. If
    /// the tokens, or the tokens of a group, end too early, `span` is `0..0`.
    Grammar { span: Span },
    /// The type of a field is not supported. `span` is the span of the innermost unsupported type.
    TypeUnsupported { span: Span },
    /// More types are nested in the type of a field than the limit allows. `span` is the span of
    /// the whole type.
    LimitTypeNesting { span: Span },
    /// Memory ran out.
    Memory,
}

impl From<AllocError> for ReadError {
    ghost from_gives = { λ _ error. error ≡ Memory };

    fn from(_error: AllocError) -> ReadError {
        ReadError::Memory
    }
}

impl<T: Drop> From<AllocFailed<T>> for ReadError {
    ghost from_gives = { λ _ error. error ≡ Memory };

    fn from(_error: AllocFailed<T>) -> ReadError {
        ReadError::Memory
    }
}

/// The span of the first token that does not fit, or `0..0` if the tokens end too early.
#[derive(Clone, Copy)]
pub(crate) struct Mismatch {
    pub span: Span,
}
