//! Defines the trees of patterns, with functions that build and measure trees, and the sets of
//! characters and bytes in trees. `logos_syntax` builds trees, and `logos_automaton` and
//! `logos_positions` read trees.

#![tactic(auto)]

pub mod builder;
pub mod case_folding;
pub mod hir;
pub mod laws;
pub mod leaf;
pub mod measures;
pub mod property;
pub mod sets;
pub mod simplifier;
