//! Defines the faults of rules, and the reasons why an automaton is not built. `faults` and
//! `dfa::builder` return these errors.

ghost use Rattle.std.specs.Prelude.{◌≡◌};
ghost use Rattle.logos_automaton.specs.declared.errors.BuildError.TheVariants.{Memory};

use logos_hir::leaf::LeafId;
use std::alloc::{AllocError, AllocFailed};

/// A fault of the leaves of a lexer.
#[derive(Debug, Drop)]
pub enum GraphError {
    /// At least one pattern can have a look-around assertion before its first byte.
    NoUniversalStart,
    /// The pattern of this leaf can match the empty string.
    EmptyMatch(LeafId),
    /// There is a text for which these leaves are the matching leaves of highest priority. The list
    /// has at least two leaves, in ascending order.
    Disambiguation(Vec<LeafId>),
}

/// The reason why a graph is not built.
#[derive(Clone, Copy, Debug, PartialEq, Eq)]
pub enum BuildError {
    /// The total size of all trees exceeds 1,048,576.
    LimitSize,
    /// The automaton would have more than 65,536 states.
    LimitStates,
    /// Memory ran out.
    Memory,
}

impl From<AllocError> for BuildError {
    ghost from_gives = { λ _ e. e ≡ Memory };

    fn from(_error: AllocError) -> BuildError {
        BuildError::Memory
    }
}

impl<T: Drop> From<AllocFailed<T>> for BuildError {
    ghost from_gives = { λ _ e. e ≡ Memory };

    fn from(_error: AllocFailed<T>) -> BuildError {
        BuildError::Memory
    }
}
