//! Computes the properties of a lexer that programs show: its leaves and its cost. Used by
//! `logos_answers`, `logos_records` and `logos_replies`.

#![tactic(auto)]

mod costs;
mod leaves;
mod marks;

pub use costs::{Costs, costs_of};
pub use leaves::{LeafRow, row_of};
pub use marks::marked_leaves;
