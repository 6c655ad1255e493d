//! Finds the faults that are shown with an earlier error: the notes of the error, and the other
//! members of its set of ambiguous leaves. Called by `errors`.

use crate::diagnostic::{Label, add_label, add_other};
use logos_report::{MOST, Member, NextFaults, begins_error, first_line};
use logos_token::error::{Memory, SpannedError};
use std::alloc::Global;

/// Returns the faults at the start of `faults` before the first fault that begins an error. The
/// returned faults belong to the preceding error. `first` is the state before the first of
/// `faults`.
pub(crate) fn joined_to<'f>(
    faults: &'f [SpannedError],
    first: NextFaults<'_>,
) -> &'f [SpannedError] {
    let mut next = first;
    for number in 0..faults.len() {
        let fault = &faults[number];
        if begins_error(next, fault) {
            return &faults[..number];
        }
        next = next.after(fault);
    }
    faults
}

/// Returns the further spans of the error for `fault`: the second span of the fault, if there is
/// one, and the spans of the first 50 faults in `joined`. `joined` consists of the faults that
/// belong to the error, and `first` is the state before the first of these faults.
pub(crate) fn labels_of(
    alloc: Global,
    fault: &SpannedError,
    joined: &[SpannedError],
    first: NextFaults<'_>,
) -> Result<Vec<Label>, Memory> {
    let mut labels = Vec::new(alloc);
    add_other(fault.also, &mut labels)?;
    let mut next = first;
    for fault in joined.iter().take(MOST) {
        add_joined(fault, next.member(fault), &mut labels)?;
        next = next.after(fault);
    }
    Ok(labels)
}

/// Appends to `labels` the span of a fault that belongs to an error. If the fault is the member
/// `member` of a set of ambiguous leaves, the label is the name of its leaf. Otherwise the label is
/// the first line of the fault's message.
fn add_joined(
    fault: &SpannedError,
    member: Option<Member<'_>>,
    labels: &mut Vec<Label>,
) -> Result<(), Memory> {
    let Some(member) = member else {
        return add_label(fault.span, first_line(fault.message.as_str()), labels);
    };
    let name = member.name();
    let text = format!(in *labels.allocator(); "`{name}`")?;
    labels.push(Label {
        span: fault.span,
        text,
    })?;
    Ok(())
}
