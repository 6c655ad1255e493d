//! Functions that print the replies of `logos_show` to questions about lexers, as text or as lines
//! of JSON: the leaves of a lexer, the matches that begin at a point of an input, inputs that
//! together take all edges, the verdict on two lexers, and the outcome of comparing an answer with
//! a stored answer. Called by `logos_show`.

#![tactic(auto)]

mod leaves;
mod replies;
mod verdict;

pub use leaves::{EnumInFile, Form, push_form, rows_of};
pub use replies::{
    Agreement, InputPoint, refusal_of, write_agreement, write_input_records, write_inputs,
    write_match_records, write_matches,
};
pub use verdict::{Judgment, Pair, compare_with};
