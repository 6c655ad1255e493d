//! Finds the match or the error around an offset of an input, finds partial matches at an offset
//! where no leaf matches, and counts how often match attempts enter each state. Called by
//! `logos_replies` and `logos_html`.

#![tactic(auto)]

mod around;
mod classes;
mod entries;
mod partial_lines;
mod partials;

pub use around::{Surrounding, match_around, push_around};
pub use classes::{push_class, push_excluded};
pub use entries::{Entries, entries_of};
pub use partial_lines::push_partials;
pub use partials::{PartialMatch, partial_matches};
