//! Finds the faults of a set of ambiguous leaves. A report or a message about one of the faults
//! names the other leaves of the set, with the locations of their faults. Used by `faults` and
//! `logos_messages`.

use logos_token::error::{Detail, SpannedError};

/// The faults of a set of ambiguous leaves, and the index of the fault that is shown.
#[derive(Clone, Copy)]
pub struct FaultSet<'f> {
    /// The faults of the set, in the order of the leaves. Empty if the shown fault is not about an
    /// ambiguous leaf.
    faults: &'f [SpannedError],
    /// The index of the shown fault in `faults`.
    own: usize,
}

impl<'f> FaultSet<'f> {
    /// Returns the fault at the index `number` among the faults of the set other than the shown
    /// fault. Returns `None` if there is no such fault.
    pub(crate) fn other(self, number: usize) -> Option<&'f SpannedError> {
        if number < self.own {
            self.faults.get(number)
        } else {
            self.faults.get(number.saturating_add(1))
        }
    }
}

/// Returns the set of the fault at the index `number`, with this fault as the shown fault. The set
/// is empty if the fault is not about an ambiguous leaf, or if `faults` has no such fault.
pub fn set_at(faults: &[SpannedError], number: usize) -> FaultSet<'_> {
    let from = begin_of_set(faults, number);
    let to = end_of_set(faults, number);
    match faults.get(from..to) {
        Some(set) => FaultSet {
            faults: set,
            own: number.saturating_sub(from),
        },
        None => FaultSet {
            faults: &[],
            own: 0,
        },
    }
}

/// Returns whether a fault belongs to a set of ambiguous leaves but is not the first fault of the
/// set.
fn continues_set(fault: &SpannedError) -> bool {
    match fault.detail {
        Detail::Ambiguous { leaf, first } => leaf != first,
        _ => false,
    }
}

/// Returns whether `faults` has a fault at the index `number` that belongs to a set of ambiguous
/// leaves but is not the first fault of the set.
fn continues_at(faults: &[SpannedError], number: usize) -> bool {
    match faults.get(number) {
        Some(fault) => continues_set(fault),
        None => false,
    }
}

/// Returns the index of the first fault in the set of the fault at the index `number`. Returns
/// `number` if this fault does not continue a set.
fn begin_of_set(faults: &[SpannedError], number: usize) -> usize {
    let mut from = number;
    while from > 0 && continues_at(faults, from) {
        from -= 1;
    }
    from
}

/// Returns the index after the last fault in the set of the fault at the index `number`. Returns
/// `number` if this fault is not about an ambiguous leaf, or if `faults` has no such fault.
fn end_of_set(faults: &[SpannedError], number: usize) -> usize {
    let Some(fault) = faults.get(number) else {
        return number;
    };
    match fault.detail {
        Detail::Ambiguous { .. } => end_from(faults, number.saturating_add(1)),
        _ => number,
    }
}

/// Returns the index of the first fault at or after `from` that does not continue a set, or the
/// number of faults if there is no such fault.
fn end_from(faults: &[SpannedError], from: usize) -> usize {
    for number in from..faults.len() {
        if !continues_set(&faults[number]) {
            return number;
        }
    }
    faults.len()
}
