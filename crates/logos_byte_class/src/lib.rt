//! Sets of bytes, comparisons that test whether a byte is in a set, and the printed form of sets.
//! Graphs, codes and the printers of generated code use this crate.

#![tactic(auto)]

pub mod byte_class;
pub mod text;
