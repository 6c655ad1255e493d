//! Turns the faults of an enum into errors: one for each fault that is not part of an earlier
//! error, but at most 50 for faults with the same code. Called by `derivation`.

ghost use Rattle.std.specs.Prelude.{◌≡◌, ◌≤◌, ◌++◌, IfOk, OnOk, length, map, take};
ghost use Rattle.logos_derive.specs.Views.{errors_at, error_summaries, fault_of, faults_of, has_error, next_value, summary_of, error_summary, sizes_of};

use crate::diagnostic::{Diagnostic, Level};
use crate::joined::{joined_to, labels_of};
use crate::notes::{KnownError, notes_of};
use logos_report::{
    Clues, FaultListing, MOST, NextFaults, Part, begins_error, caret_span, count_in, first_faults,
    first_line, seen_in,
};
use logos_token::error::{FaultCode, Memory, SpannedError};
use logos_token::token::Span;
use std::alloc::Global;

/// Returns the errors for `faults`, in the order of the faults. `part` is the source of the faults,
/// and `clues` contains the clues about them.
pub(crate) fn errors_of(
    alloc: Global,
    part: Part<'_, '_>,
    faults: &[SpannedError],
    clues: &Clues,
) -> Result<Vec<Diagnostic>, Memory>
    ensures { IfOk result (λ errors. map summary_of errors.items
        ≡ error_summaries (sizes_of clues.now) (faults_of faults.now)) }
{
    let mut errors = Vec::new(alloc);
    let mut next = first_faults(clues);
    for number in 0..faults.len() {
        let fault = &faults[number];
        add_fault(part, faults, number, fault, next, &mut errors)?;
        next = next.after(fault);
    }
    Ok(errors)
}

/// Appends the error for `fault` to `errors` if the fault has its own error. `fault` is the fault
/// at the index `number` of `faults`, and `next` is the state before the fault.
fn add_fault(
    part: Part<'_, '_>,
    faults: &[SpannedError],
    number: usize,
    fault: &SpannedError,
    next: NextFaults<'_>,
    errors: &mut Vec<Diagnostic>,
) -> Result<(), Memory>
    requires { number ≤ length faults.now }
    ensures { OnOk result (map summary_of errors.new.items ≡ map summary_of errors.old.items
        ++ errors_at (faults_of (take number faults.now)) (next_value next.entry)
        (fault_of fault.now)) }
{
    if !has_error(&faults[..number], next, fault) {
        return Ok(());
    }
    let error = error_of(*errors.allocator(), part, faults, number, fault, next)?;
    errors.push(error)?;
    Ok(())
}

/// Returns whether `fault` has its own error. `front` consists of the faults before `fault`, and
/// `next` is the state before `fault`. The first fault always has its own error, so that no source
/// is refused without an error.
fn has_error(front: &[SpannedError], next: NextFaults<'_>, fault: &SpannedError) -> bool
    ensures { result ≡ has_error (faults_of front.now) (next_value next.entry)
        (fault_of fault.now) }
{
    if front.is_empty() {
        return true;
    }
    begins_error(next, fault) & (seen_in(&[], front, fault.code) < MOST)
}

/// Returns the error for `fault`, the fault at the index `number` of `faults`. `next` is the state
/// before the fault.
fn error_of(
    alloc: Global,
    part: Part<'_, '_>,
    faults: &[SpannedError],
    number: usize,
    fault: &SpannedError,
    next: NextFaults<'_>,
) -> Result<Diagnostic, Memory>
    ensures { IfOk result (λ error. summary_of error ≡ error_summary (fault_of fault.now)) }
{
    let start = number.saturating_add(1);
    let joined = joined_to(rest_from(faults, start), next.after(fault));
    let known = KnownError {
        part,
        fault,
        member: next.member(fault),
        starts: next.starts(fault.code),
        help: next.help(),
        left_out: left_out(faults, start.saturating_add(joined.len()), fault.code),
    };
    let message = String::from_str(alloc, first_line(fault.message.as_str()))?;
    let labels = labels_of(alloc, fault, joined, next.after(fault))?;
    let notes = notes_of(alloc, known)?;
    Ok(Diagnostic {
        level: Level::Error,
        code: Some(fault.code),
        message,
        span: fault.span,
        carets: carets_of(part, fault),
        labels,
        notes,
    })
}

/// Returns the faults from the index `number` to the last, or no faults if there are fewer than
/// `number`.
fn rest_from(faults: &[SpannedError], number: usize) -> &[SpannedError] {
    match faults.get(number..) {
        Some(rest) => rest,
        None => &[],
    }
}

/// Returns the number of faults with the code `code` from the index `number` to the last. Returns 0
/// if there are fewer than `number` faults, or if fewer than 50 faults before this index have the
/// code.
fn left_out(faults: &[SpannedError], number: usize, code: FaultCode) -> usize {
    let Some(front) = faults.get(..number) else {
        return 0;
    };
    if seen_in(&[], front, code) < MOST {
        return 0;
    }
    let listing = FaultListing {
        earlier: &[],
        faults: rest_from(faults, number),
        later: &[],
    };
    count_in(listing, code)
}

/// Returns the span of the carets of a fault, or `None` if the carets cover the whole span of the
/// fault.
fn carets_of(part: Part<'_, '_>, fault: &SpannedError) -> Option<Span> {
    let carets = caret_span(part, fault);
    if (carets.from == fault.span.from) & (carets.to == fault.span.to) {
        return None;
    }
    Some(carets)
}
