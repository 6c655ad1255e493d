//! Conversions between the byte offsets of a text and lines and columns. Used for reports of faults
//! and for tables.

#![tactic(auto)]

mod cursor;
mod index;
mod location;

pub use cursor::Cursor;
pub use index::LineIndex;
pub use location::{Location, one_location};
