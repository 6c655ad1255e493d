//! Finds inputs as evidence about lexers: examples of matches, inputs for which lexers differ, and
//! inputs that take all edges. Used by `logos_answers`, `logos_causes` and `logos_records`.

#![tactic(auto)]

mod comparison;
mod cover;
mod examples;
mod graph_steps;
mod losses;
mod matches;
mod meetings;
pub mod search;
mod steps;

pub use comparison::{Comparison, Named, compare};
pub use cover::covering_inputs;
pub use examples::example;
pub use losses::loses;
pub use matches::{Match, matches_from, winner};
pub use meetings::meeting;
