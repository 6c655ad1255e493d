//! Makes the leaves of an enum from its definitions. `logos_parser` calls `read_leaves` for each
//! source.

#![tactic(auto)]

mod fault;
pub mod laws;
pub mod leaf;
pub mod source;
pub mod subpattern;
pub mod variant;
