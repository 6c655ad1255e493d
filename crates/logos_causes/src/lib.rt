//! Explains the faults of a graph: shows texts that all leaves of an ambiguous set match, and
//! patterns that examine bytes before the start of a match. Also warns about leaves that are never
//! found and about mistakes in callbacks. Called by the programs and the derive macro.

#![tactic(auto)]

mod callbacks;
mod closures;
mod explanation;
mod leading_looks;
mod meetings;
mod names;
mod quotes;
mod shadowed_leaves;

pub use explanation::{Explained, Lexer, accepted_warnings, explain, explain_enum};
