//! The options of `logos_cli` and `logos_show`, and functions that read the arguments of the two
//! programs.

#![tactic(auto)]

mod argument_steps;
mod arguments;
mod help;
pub mod laws;
mod message_style;
mod nearest_option;
mod options;
mod paths;
mod program;
mod version;

pub use argument_steps::{ArgumentProgress, ArgumentStep, GivenOption, Use, next_step};
pub use arguments::{Arguments, Settings, arguments_of, misuse};
pub use help::{HelpText, print_help};
pub use message_style::{MessageStyle, style_given};
pub use nearest_option::with_nearest;
pub use options::{OptionName, OptionRole};
pub use paths::{STANDARD_INPUT, path_by_word, paths_of};
pub use program::Program;
pub use version::print_version;
