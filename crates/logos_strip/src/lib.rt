//! Strips an enum: removes the helper attributes of the derive macro, and the macro's name in
//! `derive`. `logos strip` and the expansion of files use this crate.

#![tactic(auto)]

mod groups;
pub mod helpers;
pub mod laws;
pub mod spots;
pub mod stripper;
pub mod writer;
