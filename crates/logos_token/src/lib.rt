//! The tokens of a source with their spans, the faults found in a source, and helper functions for
//! both. All crates that read sources use this crate.

#![tactic(auto)]

pub mod error;
pub mod token;
pub mod util;
