//! The patterns and the leaves of a lexer. `logos_leaf` makes patterns and leaves from definitions,
//! and the later stages read them.

#![tactic(auto)]

pub mod leaf;
pub mod pattern;
