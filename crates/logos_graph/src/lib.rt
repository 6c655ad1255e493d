//! Builds the graph of a lexer from its leaves. `logos_codegen` builds a graph for each source.

#![tactic(auto)]

mod distinction;
pub mod graph;
pub mod laws;
mod leaves;
mod raw_table;

pub use logos_byte_class::byte_class;
