//! Writes faults and warnings as lines of JSON in rustc's schema of diagnostics, for editors and
//! for CI. Called for the option `--message-format json`.

#![tactic(auto)]

mod fault;
mod head;
mod marked_lines;
mod messages;
mod notes;
mod rest_line;
mod spans;
mod warnings;

pub use messages::{push_messages, push_refused_messages};
pub use warnings::push_warning_messages;
