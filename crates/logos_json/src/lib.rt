//! Writes JSON token by token, with one object on each line. Called by `logos_messages` and
//! `logos_records`.

#![tactic(auto)]

mod lines;

pub use lines::JsonLines;
