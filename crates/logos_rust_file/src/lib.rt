//! Finds the enums of a Rust file, and replaces parts of a file. Used by `logos_expand` and
//! `logos_show`.

#![tactic(auto)]

mod derives;
mod finder;
mod fronts;
pub mod laws;
mod names;
mod paths;
mod replacement;

pub use finder::{FoundEnum, ReadFile, enums_in, read_file};
pub use paths::{ends_with_path, path_of};
pub use replacement::{Replacement, replace};
