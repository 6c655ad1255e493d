//! Chooses the help for a fault. The help is a sentence that depends on the code of the fault, on
//! the kind of a pattern fault, and on the text at the span of the fault. Used by the programs and
//! the derive macro.

#![tactic(auto)]

mod adding;
mod codes;
mod patterns;
mod sight;
mod sights;

pub use adding::{FaultHelps, add_helps};
pub use codes::help_for;
pub use sight::Sight;
