//! Scans an input by chunks, and yields the results of its match attempts. Called by
//! `logos_codegen` and the programs.

#![tactic(auto)]

pub mod attempts;
pub mod choice;
pub mod fold;
pub mod items;
pub mod run;
pub mod trial;
pub mod walk;
