//! Expands the `Logos` derives in a Rust file. Called by `logos_cli`.

#![tactic(auto)]

mod expansion;
mod head;
mod printer;

pub use expansion::{Expansion, expand};
pub use head::shape_name;
