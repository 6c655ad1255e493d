//! Contains the commands of the program `logos`, generic over files and writers. Used by
//! `logos_program` and the tests.

#![tactic(auto)]

mod command;
mod diagram_path;
mod item_lines;
mod lines;
mod outcome;
mod program;
mod refusals;

pub use logos_host::{FileError, Files, Reason};
pub use program::{run, run_with};
