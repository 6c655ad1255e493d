//! Prints faults in the format of rustc, with the lines of the file and with carets under the spans
//! of the faults. Called by `logos_cli` and `logos_show`.

#![tactic(auto)]

mod clues;
mod fault_set;
mod faults;
mod file_report;
mod frame;
mod helps;
mod notes;
mod pattern_caret;
mod sets;
mod source;
mod warnings;
mod window;

pub use clues::{Clues, Meeting, Member, NextFaults, Start, first_faults};
pub use fault_set::{FaultSet, set_at};
pub use faults::{
    KnownFault, MOST, begins_error, count_errors, first_line, is_error, push_fault, push_faults,
    push_rest, push_summary,
};
pub use file_report::{FaultListing, Refused, count_in, push_refused, seen_in};
pub use frame::{push_frame, push_location};
pub use helps::Helps;
pub use notes::push_put_in;
pub use pattern_caret::{PutIn, caret_span, put_in};
pub use source::{Part, Source};
pub use warnings::{Warning, first_of, push_warning, push_warnings};
