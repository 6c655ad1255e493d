//! Contains the tokens inside the brackets of a pattern, and the reader of these tokens.
//! `logos_syntax` calls the reader.

pub mod reader;
pub mod token;
