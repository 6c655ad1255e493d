//! The type `Lexed`, which updates the items of an input after an edit. Chunks that do not depend
//! on the edit are not lexed again. Part of the public interface.

#![tactic(auto)]

mod anew;
mod borders;
mod chunk;
pub mod laws;
mod lexed;

pub use chunk::{Chunk, ItemAt};
pub use lexed::{Edit, Lexed, RelexError};
