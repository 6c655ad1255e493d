//! Defines code values: the steps of a lexer in each state. `logos_generator` makes code values,
//! and `logos_machine` runs them.

#![tactic(auto)]

pub mod action;
pub mod code;

pub use code::construction::make_code;
