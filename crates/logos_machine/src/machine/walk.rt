//! The fast path of a match attempt, which loads one table entry for each byte. Called by
//! `Lexer::next` and `logos_scan`.

ghost use Rattle.std.specs.Prelude.{◌≡◌, ◌<◌, ◌≤◌, ◌/◌, ◌%◌, length, slice_index_or};
ghost use Rattle.logos_machine.specs.Views.{state_at, IsSound, IsEntry, IsRowStart, Reaches, LooksAhead, IsOutcome};

use super::attempt::{Found, attempt_with_marks, error_end};
use super::fast_loop::stop;
use logos_code::code::Code;
use logos_code::code::last_marks::LastMark;
use logos_code::code::rows::{
    CALLS_BACK, CALLS_BACK_AFTER, CLOSES, HALTS, LATE, LEAVES, SHUTS, STAYS, STUCK, UNDESCRIBED,
    WIDTH,
};
use logos_hir::leaf::LeafId;

/// The outcome of an attempt. The numbers after a leaf are the end of the match and the number of
/// states that the attempt entered.
#[derive(Clone, Copy)]
pub enum Outcome {
    /// A match that ends at this offset and that the lexer skips.
    Skips(usize),
    /// A match of this leaf that becomes a token.
    Emits(LeafId, usize, usize),
    /// A match of this leaf, which may have a callback.
    CallsBack(LeafId, usize, usize),
    /// No match. The numbers are the end of the error, and the number of states that were entered.
    Fails(usize, usize),
    /// The end of an attempt that began at the end of the input. The number is the number of states
    /// that were entered.
    Ends(usize),
}

/// Returns the outcome of an attempt from the offset `start` in the input on.
#[inline(always)]
pub fn attempt(code: &Code, input: &[u8], start: usize) -> Outcome
    requires { start ≤ length input.now }
    ensures { IsOutcome code.now input.now start result }
{
    if start >= input.len() {
        return attempt_slowly(code, input, start);
    }
    let first = code.first_entry(input[start]);
    if first >= CLOSES && first < SHUTS {
        return Outcome::Emits(LeafId((first - CLOSES) as usize), start + 1, 2);
    }
    if first >= STAYS {
        return end_of(code, input, start, (first, start, 0, code.root_row_start()));
    }
    let last = walk(code, input, start, first);
    end_of(code, input, start, last)
}

/// Returns the outcome of an attempt from `start` on that records the marks passed. Only
/// `attempt_with_marks` is called out of line. The result of this function is in memory, but the
/// outcome is created from the result inline, so that the compiler can keep the outcome in
/// registers.
#[inline(always)]
fn attempt_slowly(code: &Code, input: &[u8], start: usize) -> Outcome
    requires { start ≤ length input.now }
    ensures { IsOutcome code.now input.now start result }
{
    match attempt_with_marks(code, input, start) {
        (Found::Ended, steps) => Outcome::Ends(steps),
        (Found::Matched(leaf, to), steps) => Outcome::CallsBack(leaf, to, steps),
        (Found::Failed(to), steps) => Outcome::Fails(to, steps),
    }
}

/// Returns the outcome of an attempt that ends at the entry `last.0`. The other numbers of `last`
/// are the offset of the entry's byte, the number of states that were entered before the entry's
/// state, and the row offset of that state.
#[inline(always)]
fn end_of(code: &Code, input: &[u8], start: usize, last: (u32, usize, usize, usize)) -> Outcome
    requires sound { IsSound code.now }
    requires start { start ≤ length input.now }
    requires reaches { Reaches code.now input.now start (last.3 / WIDTH) last.0 last.1 last.2 }
    requires ends { LEAVES ≤ last.0 }
    ensures { IsOutcome code.now input.now start result }
{
    let (entry, stop, before, row_start) = last;
    if entry < HALTS {
        return Outcome::Skips(stop);
    }
    if entry < CLOSES {
        let (leaf, late) = halted(entry - HALTS);
        return Outcome::Emits(leaf, stop, before + 1 + late);
    }
    if entry < SHUTS {
        return Outcome::Emits(LeafId((entry - CLOSES) as usize), stop + 1, before + 2);
    }
    if entry < CALLS_BACK {
        return Outcome::Skips(stop + 1);
    }
    if entry < CALLS_BACK_AFTER {
        let (leaf, late) = halted(entry - CALLS_BACK);
        return Outcome::CallsBack(leaf, stop, before + 1 + late);
    }
    if entry < STUCK {
        return Outcome::CallsBack(
            LeafId((entry - CALLS_BACK_AFTER) as usize),
            stop + 1,
            before + 2,
        );
    }
    if entry < UNDESCRIBED && stop < input.len() {
        return stuck(code, input, start, (entry, stop, before, row_start));
    }
    attempt_slowly(code, input, start)
}

/// Returns the outcome of an attempt that ends before a byte that leads to no state. `last` has the
/// same meaning as in `end_of`. The attempt is repeated unless the last mark passed is known for
/// the state of `last`.
#[inline(always)]
fn stuck(code: &Code, input: &[u8], start: usize, last: (u32, usize, usize, usize)) -> Outcome
    requires sound { IsSound code.now }
    requires start { start ≤ length input.now }
    requires reaches { Reaches code.now input.now start (last.3 / WIDTH) last.0 last.1 last.2 }
    requires nowhere { (STUCK ≤ last.0) × (last.0 < UNDESCRIBED) }
    requires inside { last.1 < length input.now }
    ensures { IsOutcome code.now input.now start result }
{
    let (_, stop, before, row_start) = last;
    match code.last_mark(row_start) {
        LastMark::Back(leaf, bytes) => Outcome::CallsBack(leaf, stop - bytes, before + 1),
        LastMark::Never => Outcome::Fails(error_end(code, input, start, stop), before + 1),
        _ => attempt_slowly(code, input, start),
    }
}

/// Returns the leaf of a match that ends before the byte of an entry, and the number of states that
/// were entered after the entry's state. `entry` is the operand of the entry.
#[inline(always)]
fn halted(entry: u32) -> (LeafId, usize)
    ensures leaf { result.0.0 ≡ entry % LATE }
    ensures late { result.1 ≡ entry / LATE }
{
    (LeafId((entry % LATE) as usize), (entry / LATE) as usize)
}

/// Returns the last entry of an attempt from `start`, the offset of the entry's byte, the number of
/// states that were entered before the entry's state, and the row offset of that state. `first` is
/// the entry of the first byte, which leads to a state.
#[inline(always)]
fn walk(code: &Code, input: &[u8], start: usize, first: u32) -> (u32, usize, usize, usize)
    requires sound { IsSound code.now }
    requires start { start < length input.now }
    requires leads { first < STAYS }
    requires reaches { Reaches code.now input.now start code.now.root first start 0 }
    ensures reaches { Reaches code.now input.now start (result.3 / WIDTH) result.0 result.1 result.2 }
    ensures ends { LEAVES ≤ result.0 }
{
    let mut row_start = first as usize;
    let mut at = start + 1;
    let mut before = 1;
    while at < input.len() {
        let entry = code.entry(row_start, input[at]);
        if entry < STAYS {
            row_start = entry as usize;
            at += 1;
            before += 1;
            continue;
        }
        if entry >= LEAVES {
            return (entry, at, before, row_start);
        }
        let (later, stop) = look_far(code, input, row_start, at, entry);
        if later >= STAYS {
            return (later, stop, before, row_start);
        }
        row_start = later as usize;
        at = stop + 1;
        before += 1;
    }
    (code.last_entry(row_start), at, before, row_start)
}

/// Returns the entry after the fast loop of the state with the row offset `row_start`, and the
/// offset of the byte of this entry. `entry` must be the entry of the byte at the offset `at`, and
/// must lead back to the state. At the end of the input, the returned entry is the state's entry
/// for the end.
#[inline(always)]
fn look_far(code: &Code, input: &[u8], row_start: usize, at: usize, entry: u32) -> (u32, usize)
    requires sound { IsSound code.now }
    requires row_start { IsRowStart code.now row_start }
    requires at { at < length input.now }
    requires stays { (STAYS ≤ entry) × (entry < LEAVES) }
    requires entry { IsEntry code.now (state_at code.now (row_start / WIDTH))
        (slice_index_or input.now at 0) entry }
    ensures { LooksAhead code.now input.now (row_start / WIDTH) at result.0 result.1 }
{
    let stop = stop(code, (entry - STAYS) as usize, input, at + 1);
    if stop >= input.len() {
        return (code.last_entry(row_start), stop);
    }
    (code.entry(row_start, input[stop]), stop)
}
