//! Turns graphs into code values for `logos_codegen`, and re-exports code values and the machine
//! that runs them.

#![tactic(auto)]

pub mod generator;
pub mod laws;

pub use logos_code::code;
pub use logos_machine::machine;
