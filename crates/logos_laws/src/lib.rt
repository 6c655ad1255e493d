//! Laws of the beginnings of lexemes and of the spans of leaves in a source, and laws that restate
//! definitions of other crates in a form that is easier to check by reading. The contract of each
//! function is a proved law, and no code calls the function.

#![tactic(auto)]

pub mod lexemes;
pub mod readings;
pub mod spans;
