//! Adapts an output to the colors and the width of the screen that shows the output. Used by
//! `logos_cli`, `logos_items` and `logos_show`.

#![tactic(auto)]

mod color_output;
mod fronts;
mod item_line;
mod progress;
mod screen;

pub use color_output::ColorOutput;
pub use fronts::push_fitted;
pub use item_line::{ItemLine, push_item_line};
pub use progress::{CountedOutput, MessageOutput, ProgressLine};
pub use screen::{PLAIN, Screen, allows_colors, screen_of};
