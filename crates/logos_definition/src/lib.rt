//! Reads the definitions and the options of a lexer from the attributes of an enum and its
//! variants. `logos_leaf` uses `Parser` for each attribute.

#![tactic(auto)]

mod arguments;
pub mod definition;
pub mod error_type;
pub mod ignore_flags;
pub mod meta;
pub mod parser;
