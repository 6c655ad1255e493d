//! Derives the implementation of an enum. `derive` returns the implementation, which contains
//! pieces of the source, or the errors of the enum, and in both cases the warnings. Called by
//! `rust/logos-derive`, which turns the implementation into tokens.

#![tactic(auto)]

mod derivation;
mod diagnostic;
mod errors;
mod joined;
mod notes;
mod warnings;

pub use derivation::{Derivation, derive};
pub use diagnostic::{Diagnostic, Label, Level, Note};
pub use logos_text::{Piece, Sink};
