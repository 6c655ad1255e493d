//! Re-exports the types of code values. Part of the public interface, and used by `logos_commands`.
//! The printers of generated code read the `CodeParts` of a code.

pub use logos_generator::code::{
    Code, CodeLeaf, CodeParts, CodeState, Condition, Config, Fork, Header, Mark, NOWHERE,
};
