//! Lexes an input of any length while reading the input. Used by `logos_items`, and part of the
//! public interface.

#![tactic(auto)]

mod front;
mod item;
mod items;
pub mod laws;
mod parts;
mod stream;
mod tail;
mod window;

pub use item::{StreamItem, Streamed};
pub use parts::Parts;
pub use stream::Stream;
