//! Prints a `Code` as Rust text. Called by `logos_codegen`.

#![tactic(auto)]

mod actions;
mod callbacks;
mod code;
mod conditions;
mod errors;
mod forks;
mod gaps;
mod implementation;
mod leaves;
mod macros;
mod names;
mod pieces;
mod sink;
mod states;
mod tables;

pub use code::{front_in, text, text_in};
pub use implementation::Around;
pub use sink::{Call, Piece, Sink};
