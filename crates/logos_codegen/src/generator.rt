//! Re-exports the generator of code values, the code values, and the printer of their Rust text.
//! Part of the public interface, and used by `logos_tables` and the programs.

pub use logos_generator::code::Code;
pub use logos_generator::generator::{
    Config, FastLoop, FastLoopMacro, Generator, TakeAction, fast_loop_macro,
};
pub use logos_text::text;
