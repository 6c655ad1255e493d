//! Writes the page of a lexer. The page is an HTML file with the leaves, the states and a drawing
//! of the states of the lexer, and optionally an input in which the items are marked. The text of
//! sources and inputs is never read as markup. Used by `logos_show` for `--html`.

#![tactic(auto)]

mod bytes;
mod classes;
mod descriptions;
mod document;
mod drawing;
mod finds;
mod html;
pub mod laws;
mod layers;
mod leaves;
mod prefixes;
mod spans;
mod states;
mod style;

pub use document::{LexerPage, PageInput, page_of};
pub use html::Html;
