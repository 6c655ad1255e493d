//! Splits the contents of attributes on an enum and its variants into arguments, and reads the
//! values of the arguments. `logos_definition` calls the readers.

#![tactic(auto)]

pub mod arguments;
pub mod callback;
pub mod flags;
pub mod literal;
pub mod nested;
pub mod reports;
pub mod value;
