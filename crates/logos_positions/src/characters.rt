//! Reads classes of characters byte by byte, according to tables. `preparation` builds the tables,
//! and `positions::step` looks up rows in them.

pub(crate) mod builder;
pub(crate) mod ranges;
pub mod reader;
