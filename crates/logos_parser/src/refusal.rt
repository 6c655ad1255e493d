//! Defines the refusal of a source. Each function that reads a whole source returns a refusal as
//! its error.

ghost use Rattle.std.specs.Prelude.{◌≡◌};
ghost use Rattle.logos_parser.specs.Views.{Memory as OutOfMemory};

use logos_token::error::{Errors, Memory};
use std::alloc::{AllocError, AllocFailed};

/// The reason why a source has no lexer.
#[derive(Debug, Drop)]
pub enum Refusal {
    /// The faults of the source, including exceeded limits.
    Errors(Errors),
    /// Memory ran out.
    Memory,
}

impl From<AllocError> for Refusal {
    ghost from_gives = { λ _ e. e ≡ OutOfMemory };

    fn from(_error: AllocError) -> Refusal {
        Refusal::Memory
    }
}

impl<T: Drop> From<AllocFailed<T>> for Refusal {
    ghost from_gives = { λ _ e. e ≡ OutOfMemory };

    fn from(_error: AllocFailed<T>) -> Refusal {
        Refusal::Memory
    }
}

impl From<Memory> for Refusal {
    ghost from_gives = { λ _ e. e ≡ OutOfMemory };

    fn from(_error: Memory) -> Refusal {
        Refusal::Memory
    }
}
