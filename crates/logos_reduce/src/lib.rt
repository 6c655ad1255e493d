//! Minimizes a table of targets and marks, numbers the states of the result by first visit, and
//! records how the states were separated. `logos_graph` calls `reduce` for each graph.

#![tactic(auto)]

pub mod lists;
pub mod merge;
mod number;
mod order;
mod prune;
pub mod reduction;
mod row_hash;
pub mod rows;
mod settle;
pub mod table;
