//! Functions that generate the code of a source, and that lex an input with the code. Re-exports
//! the public modules of the crates below. Part of the public interface, and used by the programs.

#![tactic(auto)]

pub mod code;
pub mod expr;
mod frame;
mod generation;
pub mod generator;
pub mod laws;
mod lexing;
mod reports;

pub use generation::{Generated, generate};
pub use lexing::{LexSourceError, lex_source};
pub use logos_generator::machine;
pub use logos_graph::graph;
pub use logos_parser::refusal::Refusal;
pub use logos_parser::{item, nested, parser};
pub use logos_pattern::{leaf, pattern};
pub use logos_relex::{Chunk, Edit, ItemAt, Lexed, RelexError};
pub use logos_stream::{Parts, Stream, StreamItem, Streamed};
pub use logos_strip::stripper::strip_attributes;
pub use logos_text::text;
pub use logos_token::{error, token, util};
pub use logos_type::{TypePart, TypeToken};
