//! Formats Rust text for human readers: lays out a text in lines, or repeats the layout of its
//! source. The tokens do not change. Used by `logos_expand`.

#![tactic(auto)]

mod blanks;
mod classes;
mod comparison;
mod conditions;
mod ends;
mod inner_attributes;
mod kept_lexemes;
mod layout;
mod line_breaks;
mod lines;
mod pieces;
mod plain_comments;
mod state;
mod without_derive;
mod writer;

pub use conditions::push_conditions;
pub use inner_attributes::{has_inner, without_inner};
pub use layout::{Note, Setting, lay_out};
pub use writer::write_left;
