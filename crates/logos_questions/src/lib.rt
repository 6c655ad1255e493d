//! Reads the arguments of `logos_show`: the path of a file, and a question about the lexers of the
//! file. Called by `logos_show`.

#![tactic(auto)]

mod questions;

pub use questions::{FileQuestion, Question, RequestKind, ShowOrder, ShowRequest, request_of};
