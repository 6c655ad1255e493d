//! `analyze` finds the leaves and the options of a source's enum, and all faults of the enum except
//! the faults of the graph. `logos_codegen` calls `analyze`. Re-exports the modules of the crates
//! below.

#![tactic(auto)]

pub mod analysis;
pub mod ending_faults;
pub mod enum_type;
pub mod item;
mod mode;
pub mod nested;
pub mod parser;
pub mod refusal;
