//! Defines texts with optional colors, and the form in which characters are shown on a terminal.
//! Used for reports and answers.

#![tactic(auto)]

mod page;
mod shown;

pub use page::{Page, Style, digits};
pub use shown::{columns_of, occur_in};
