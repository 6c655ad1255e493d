//! Functions that collect and print the warnings of a file. Called by `logos_cli`, `logos_expand`
//! and `logos_show`.

#![tactic(auto)]

mod file_warnings;

pub use file_warnings::{
    Showing, add_accepted, add_missing, add_passed, add_text, add_warnings, denial_text, has_lexer,
    push_warned, text_of, warning_lines, warning_text,
};
