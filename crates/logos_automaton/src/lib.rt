//! Builds the automaton of rules and finds the faults of the rules. The states of the automaton
//! record matches one byte late. `logos_graph` reduces automata to graphs.

#![tactic(auto)]

mod boundaries;
mod byte_equivalence;
mod cache;
pub mod dfa;
pub mod errors;
pub mod faults;
mod key;
pub mod measures;
mod nodes;
mod row;
pub mod rule;
mod tree_steps;
mod trees;
