//! Functions that write answers about lexers as lines of text: the leaves of a lexer, its items,
//! the matches that begin at an offset, examples for each leaf, inputs that together take all edges
//! of a graph, and the results of comparing two lexers or two answers. Called by `logos_show` and
//! `logos_items`.

#![tactic(auto)]

mod callbacks;
mod comparison;
mod counts;
mod difference;
mod examples;
mod expectation;
mod inputs;
mod lines;
mod locations;
mod matches;
mod names;
mod notes;
mod offsets;
mod quotes;
mod table;

pub use callbacks::push_callbacks;
pub use comparison::{Compared, compare_lexers};
pub use counts::{Counts, Totals, code_name_at};
pub use difference::{Finding, NamedLexer, finding_of, push_difference, push_modes};
pub use examples::{Evidence, Loss, evidence_of, push_examples};
pub use expectation::push_agreement;
pub use inputs::{first_of, push_inputs};
pub use lines::{LINE, push_item};
pub use locations::{location_by_word, number_by_text};
pub use matches::{bytes_between, longest_of, push_first, push_matches};
pub use names::{name_at, push_leaf, variant_at, variant_of};
pub use notes::note_of;
pub use offsets::offset_of;
pub use quotes::push_quoted;
pub use table::{push_costs, push_rows};
