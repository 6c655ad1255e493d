//! Parses the text of a pattern into the tree that the grammar defines. `logos_pattern` calls
//! `parse` for each pattern.

#![tactic(auto)]

mod bracket;
mod groups;
mod names;
pub mod parser;
mod translation;
