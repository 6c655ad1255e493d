//! Contains the tokens of a pattern's text, and the readers that read one token from the front of
//! the text. `logos_syntax` calls the readers.

#![tactic(auto)]

pub mod bracket;
pub mod counts;
pub mod error;
pub mod escapes;
pub mod openings;
pub mod reader;
pub mod token;
