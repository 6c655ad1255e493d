//! Computes the entries of folded rows. Called by `folded` for each state.

ghost use Rattle.std.specs.Prelude.{◌≡◌, ◌+◌, ◌<◌, false, length, IfSome};
ghost use Rattle.logos_scan.specs.fold.Imports.{first_halting, flags_of, row_start_of, state_at, stays, Goes, IsEnded, IsFew, IsFolded, IsFoldedRow, IsSound, IsStepOf, IsWithin, LeadsToRowStart, Describes};

use crate::walk::{ENDED, TOKEN};
use logos_code::code::Code;
use logos_code::code::rows::{
    CALLS_BACK, CALLS_BACK_AFTER, CLOSES, HALTS, LATE, LEAVES, MatchUse, SHUTS, STAYS, STUCK, Step,
    UNDESCRIBED, WIDTH,
};
use logos_hir::leaf::LeafId;

/// The flag of an entry before whose byte a match of a leaf ends, if the leaf may have a callback.
pub const CALLS: u32 = 1 << 29;

/// The number of possible entries of each kind in the rows of a code.
const NAMED: u32 = 1 << 28;

/// The maximum number of entries that folded rows can have.
pub(crate) const ENTRIES: usize = 1 << 20;

/// The maximum number of leaves that entries can represent.
const LEAVES_NAMED: usize = 512;

/// The factor by which the number of a leaf is multiplied in an entry.
const LEAF: u32 = 1 << 20;

/// Returns the step that an entry of a code represents.
fn step_of(entry: u32) -> Step
    requires { LeadsToRowStart entry }
    ensures { IsStepOf entry result }
{
    match entry {
        0..STAYS => Step::Leads(entry as usize / WIDTH),
        STAYS..LEAVES => Step::Stays((entry - STAYS) as usize),
        LEAVES..HALTS => before(entry - LEAVES, MatchUse::Skips),
        HALTS..CLOSES => before(entry - HALTS, MatchUse::Emits),
        CLOSES..SHUTS => Step::Closes(LeafId((entry - CLOSES) as usize), MatchUse::Emits),
        SHUTS..CALLS_BACK => Step::Closes(LeafId((entry - SHUTS) as usize), MatchUse::Skips),
        CALLS_BACK..CALLS_BACK_AFTER => before(entry - CALLS_BACK, MatchUse::CallsBack),
        CALLS_BACK_AFTER..STUCK => Step::Closes(
            LeafId((entry - CALLS_BACK_AFTER) as usize),
            MatchUse::CallsBack,
        ),
        STUCK..UNDESCRIBED => Step::Stuck,
        _ => Step::Undescribed,
    }
}

/// Returns the step of a byte before which a match ends. `named` is the operand of the byte's
/// entry, and `used` is the use of the match.
fn before(named: u32, used: MatchUse) -> Step
    requires { named < NAMED }
    ensures { IsStepOf (first_halting used + named) result }
{
    if named < LATE {
        Step::Halts(LeafId(named as usize), used)
    } else {
        Step::Looks(LeafId((named - LATE) as usize), used)
    }
}

/// Returns the step for the byte in the state.
fn step_at(code: &Code, state: usize, byte: u8) -> Step
    requires few { IsFew code.now }
    requires state { state < length code.now.states }
    ensures { Describes code.now (state_at code.now state) byte result }
{
    step_of(code.entry(WIDTH * state, byte))
}

/// Returns the row offset of the state after the byte. Returns `None` unless it is known that the
/// byte continues the attempt.
fn row_start_after(code: &Code, state: usize, byte: u8) -> Option<usize>
    requires few { IsFew code.now }
    requires sound { IsSound code.now }
    requires state { state < length code.now.states }
    ensures { IfSome result (Goes code.now state byte) }
{
    match step_at(code, state, byte) {
        Step::Leads(next) => Some(WIDTH * next),
        Step::Stays(_) => Some(WIDTH * state),
        Step::Closes(..) => row_start_of_target(code, state, byte),
        _ => None,
    }
}

/// Returns the row offset of the state to which the byte leads, or `None` if the byte leads to no
/// state.
fn row_start_of_target(code: &Code, state: usize, byte: u8) -> Option<usize>
    requires few { IsFew code.now }
    requires sound { IsSound code.now }
    requires state { state < length code.now.states }
    requires out { stays code.now (state_at code.now state).fast_loop byte ≡ false }
    ensures { IfSome result (Goes code.now state byte) }
{
    match code.target(state, byte) {
        Some(next) => Some(WIDTH * next),
        None => None,
    }
}

/// Returns the flags of an entry before whose byte a match with the use `used` ends.
fn flags(used: MatchUse) -> u32
    ensures { result ≡ flags_of used }
{
    match used {
        MatchUse::Emits => ENDED + TOKEN,
        MatchUse::Skips => ENDED,
        MatchUse::CallsBack => ENDED + TOKEN + CALLS,
    }
}

/// Returns the entry of a byte before which a match of `leaf` with the use `used` ends. `row_start`
/// is the row offset of the next attempt's state after the byte.
fn ended(leaf: LeafId, used: MatchUse, row_start: usize) -> u32
    requires leaf { leaf.0 < LEAVES_NAMED }
    requires row_start { row_start < ENTRIES }
    ensures { IsEnded result leaf.0 used row_start }
{
    flags(used) + LEAF * leaf.0 as u32 + row_start as u32
}

/// Returns the entry of a byte that does not continue the attempt. `row_start` is the row offset of
/// a new attempt's state after the byte.
fn fold_end(code: &Code, state: usize, byte: u8, row_start: usize) -> u32
    requires few { IsFew code.now }
    requires state { state < length code.now.states }
    requires row_start { Goes code.now code.now.root byte row_start }
    ensures folded { IsFolded code.now state byte result }
    ensures within { IsWithin code.now (row_start_of result) }
{
    match step_at(code, state, byte) {
        Step::Halts(leaf, used) if leaf.0 < LEAVES_NAMED => ended(leaf, used, row_start),
        Step::Looks(leaf, used) if leaf.0 < LEAVES_NAMED => ended(leaf, used, row_start),
        _ => TOKEN + row_start as u32,
    }
}

/// Returns the folded entry of the byte in the state.
fn fold(code: &Code, state: usize, byte: u8) -> u32
    requires few { IsFew code.now }
    requires sound { IsSound code.now }
    requires state { state < length code.now.states }
    ensures folded { IsFolded code.now state byte result }
    ensures within { IsWithin code.now (row_start_of result) }
{
    if let Some(row_start) = row_start_after(code, state, byte) {
        return row_start as u32;
    }
    match row_start_after(code, code.root(), byte) {
        Some(row_start) => fold_end(code, state, byte, row_start),
        None => TOKEN,
    }
}

/// Returns the folded row of the state: the entries of all bytes, followed by 16 unused entries.
pub(crate) fn row_of(code: &Code, state: usize) -> [u32; 272]
    requires few { IsFew code.now }
    requires sound { IsSound code.now }
    requires state { state < length code.now.states }
    ensures { IsFoldedRow code.now state result }
{
    let mut row = [0; 272];
    for b in 0..256 {
        row[b] = fold(code, state, b as u8);
    }
    row
}
