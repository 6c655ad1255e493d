//! Writes answers about lexers as lines of JSON: their leaves, the items of an input, the matches
//! from a point, examples for a leaf, inputs that take all edges, and whether two lexers are
//! equivalent. Used by `logos_items`, `logos_replies` and `logos_show` for `--json`.

#![tactic(auto)]

mod comparing;
mod examples;
mod inputs;
mod items;
mod leaves;
mod matches;

pub use comparing::{push_difference_record, push_modes_record, push_same_record};
pub use examples::{NamedGraph, push_example_records};
pub use inputs::{InputRecords, input_records};
pub use items::{ItemRecord, push_item_record};
pub use leaves::{push_cost_record, push_leaf_records};
pub use logos_json::JsonLines;
pub use matches::match_records;
