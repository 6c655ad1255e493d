//! Defines the actions that callbacks return and `logos_machine` performs. Part of the public
//! interface.

/// The result of a callback. It determines whether the match becomes a token, no item, or an error.
#[derive(Clone, Copy, Debug, PartialEq, Eq)]
pub enum Action {
    /// The match becomes a token. For the leaf of a `skip`, `Emit` is equivalent to `Skip`.
    Emit,
    /// The match is skipped and becomes no item.
    Skip,
    /// The match becomes an error with the leaf of the match.
    Error,
}
