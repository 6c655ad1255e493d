//! Prints the generated code of a lexer in each shape. In the shape `tables`, the generated code
//! contains tables for the loop of the runtime. Called by `logos_derive`, `logos_expand` and
//! `logos_cli`.

#![tactic(auto)]

mod bytes;
mod classes;
mod fields;
mod lexer;
mod made;
mod marks;
mod numbers;
mod parts;
mod rows;
mod runs;
mod shape;
mod steps;

pub use lexer::tables;
pub use shape::{Shape, config_of, lexer_text};
