//! The state diagram of a lexer as Mermaid text, with short names for sets of bytes. The bytes of a
//! character outside ASCII form one edge. Used by `logos_show` for `--mermaid`.

#![tactic(auto)]

mod diagram;
mod edges;
mod folds;
mod label;
pub mod laws;
mod names;

pub use diagram::{DiagramLexer, diagram_of};
pub use label::Mermaid;
