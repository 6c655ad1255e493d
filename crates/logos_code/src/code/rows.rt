//! `rows_of` computes rows: the step for each byte in each state, encoded as a number. Called by
//! `construction`. `logos_machine` and `logos_scan` read the rows.
//!
//! The rows of all states are stored consecutively in one table, with `WIDTH` entries each. The
//! step for byte `b` in state `s` is entry `WIDTH * s + b`. The row offset of a state is the index
//! of the first entry of its row. The upper four bits of an entry are its kind, and the lower bits
//! are its operand. The kinds are numbered in the order in which a lexer tests for them:
//!
//! | Kind | Operand | The byte |
//! |---|---|---|
//! | 0 | the row offset of a state | leads to this state |
//! | 1, `STAYS` | a test | does not change the state, whose fast loop has this test |
//! | 2, `LEAVES` | a leaf, `LATE` | follows a match that is skipped without a callback |
//! | 3, `HALTS` | a leaf, `LATE` | follows a match that is a token without a callback |
//! | 4, `CLOSES` | a leaf | is the last byte of a match that is a token without a callback |
//! | 5, `SHUTS` | a leaf | is the last byte of a match that is skipped without a callback |
//! | 6, `CALLS_BACK` | a leaf, `LATE` | follows a match that may have a callback |
//! | 7, `CALLS_BACK_AFTER` | a leaf | is the last byte of a match that may have a callback |
//! | 8, `STUCK` | nothing | leads nowhere, and the state has no early mark |
//! | 9, `UNDESCRIBED` | nothing | has a step that entries cannot describe |
//!
//! A match that ends after the byte is marked by the state to which the byte leads, and this state
//! has no other step. For a match that ends before the byte, the bit `LATE` has two values. If
//! `LATE` is 0, the state itself marks the match and the byte leads nowhere. If `LATE` is 1, the
//! byte leads to a state that marks the match late and has no other step. A step that is too large
//! for an entry is `UNDESCRIBED`.

ghost use Rattle.std.specs.Prelude.{◌≡◌, ◌+◌, ◌*◌, ◌<◌, ◌≤◌, ◌⊎◌, false, ℕ, List, length, map, None, Some, option_map, IfOk, IfSome, slice_index, slice_index_or};
ghost use Rattle.logos_code.specs.Views.{comparison_of, some_compares, passes_test, by_conditions, IsSound, NamesTest, NamesState, NamesCondition, NamesFork, NamesExisting, stays, target, passes, mark_of, condition_of, branch_of, fork_of, use_of, jumps_of, state_of, has_mask, code_of, closing, IsStepOf, first_halting, first_closing, IsUse, IsPlainUse, Describes, IsHalting, IsEntry, IsRow, AreRows, IsFirstEntry, IsFirstOf};

use super::{CodeLeaf, CodeParts, CodeState, Condition, Fork, Mark, target_of};
use logos_byte_class::byte_class::Comparisons;
use logos_hir::leaf::LeafId;
use logos_pattern::leaf::VariantKind;
use std::alloc::{AllocError, Global};

/// The distance between the first entries of two consecutive kinds. The lower 28 bits of an entry
/// are its operand.
const NAMED: u32 = 1 << 28;

/// The number of entries of a row: one for each byte, and 16 unused entries. Without the unused
/// entries, the entries of a byte in different states would be a power of two apart, and would
/// evict each other from the processor's cache.
pub const WIDTH: usize = 272;

/// The maximum number of states that entries can represent.
const STATES: usize = 986_896;

/// The bit that is set in the entry of a match that ends before the byte, if the byte leads to a
/// state that marks the match late.
pub const LATE: u32 = 1 << 27;

/// The smallest of the entries with a test as operand. The byte does not change the state, whose
/// fast loop has this test. An entry below `STAYS` is the row offset of the state to which the byte
/// leads.
pub const STAYS: u32 = NAMED;

/// The smallest of the entries with a leaf whose match ends before the byte and is skipped without
/// a callback.
pub const LEAVES: u32 = 2 * NAMED;

/// The smallest of the entries with a leaf whose match ends before the byte and is a token without
/// a callback.
pub const HALTS: u32 = 3 * NAMED;

/// The smallest of the entries with a leaf whose match ends after the byte and is a token without a
/// callback.
pub const CLOSES: u32 = 4 * NAMED;

/// The smallest of the entries with a leaf whose match ends after the byte and is skipped without a
/// callback.
pub const SHUTS: u32 = 5 * NAMED;

/// The smallest of the entries with a leaf whose match ends before the byte and may have a
/// callback.
pub const CALLS_BACK: u32 = 6 * NAMED;

/// The smallest of the entries with a leaf whose match ends after the byte and may have a callback.
pub const CALLS_BACK_AFTER: u32 = 7 * NAMED;

/// The entry of a byte that leads nowhere from a state without an early mark.
pub const STUCK: u32 = 8 * NAMED;

/// The entry of a byte whose step no other entry describes.
pub const UNDESCRIBED: u32 = 9 * NAMED;

/// The use of a leaf's matches, to the extent that entries describe it.
#[derive(Clone, Copy)]
pub enum MatchUse {
    /// The matches become tokens, without a callback.
    Emits,
    /// The matches are skipped, without a callback.
    Skips,
    /// A callback may determine the use of the matches.
    CallsBack,
}

/// The step for a byte in a state.
#[derive(Clone, Copy)]
pub enum Step {
    /// The byte leads to this state.
    Leads(usize),
    /// The byte does not change the state, whose fast loop has this test.
    Stays(usize),
    /// The byte leads nowhere, and a match of this leaf ends before the byte.
    Halts(LeafId, MatchUse),
    /// The byte leads to a state that marks a match of this leaf late and has no other step. The
    /// match ends before the byte.
    Looks(LeafId, MatchUse),
    /// The byte leads to a state that marks a match of this leaf early and has no other step. The
    /// match ends after the byte.
    Closes(LeafId, MatchUse),
    /// The byte leads nowhere, and the state has no early mark.
    Stuck,
    /// No entry can describe the step.
    Undescribed,
}

/// Returns the entry that represents `step`, or `UNDESCRIBED` if no other entry can represent the
/// step.
pub(super) fn entry_of_step(step: Step) -> u32
    ensures { IsStepOf result step ⊎ IsStepOf result Step.Undescribed }
{
    match step {
        Step::Leads(state) if state < STATES => WIDTH as u32 * state as u32,
        Step::Stays(test) if test < NAMED as usize => STAYS + test as u32,
        Step::Halts(leaf, used) if leaf.0 < LATE as usize => first_halting(used) + leaf.0 as u32,
        Step::Looks(leaf, used) if leaf.0 < LATE as usize => {
            first_halting(used) + LATE + leaf.0 as u32
        }
        Step::Closes(leaf, used) if leaf.0 < NAMED as usize => first_closing(used) + leaf.0 as u32,
        Step::Stuck => STUCK,
        _ => UNDESCRIBED,
    }
}

/// Returns the smallest of the entries with a leaf whose match ends before the byte and has the use
/// `used`.
fn first_halting(used: MatchUse) -> u32
    ensures { result ≡ first_halting used }
{
    match used {
        MatchUse::Emits => HALTS,
        MatchUse::Skips => LEAVES,
        MatchUse::CallsBack => CALLS_BACK,
    }
}

/// Returns the smallest of the entries with a leaf whose match ends after the byte and has the use
/// `used`.
fn first_closing(used: MatchUse) -> u32
    ensures { result ≡ first_closing used }
{
    match used {
        MatchUse::Emits => CLOSES,
        MatchUse::Skips => SHUTS,
        MatchUse::CallsBack => CALLS_BACK_AFTER,
    }
}

/// Returns the concatenated rows of all states.
///
/// # Errors
///
/// Returns `AllocError` if memory runs out.
pub(super) fn rows_of(alloc: Global, parts: &CodeParts) -> Result<Vec<u32>, AllocError>
    requires { IsSound (code_of parts.now) }
    ensures { IfOk result (λ rows. AreRows (code_of parts.now) rows.items) }
{
    let mut rows = Vec::new(alloc);
    for state in &parts.states {
        rows.extend_from_slice(&row_of(parts, state))?;
    }
    Ok(rows)
}

/// Returns the row of a state: the entries of all bytes, followed by 16 unused entries.
fn row_of(parts: &CodeParts, state: &CodeState) -> [u32; 272]
    requires { NamesExisting (code_of parts.now)
        (state_of parts.now.jump_tables.items state.now) }
    ensures { IsRow (code_of parts.now) (state_of parts.now.jump_tables.items state.now) result }
{
    let mut row = [UNDESCRIBED; 272];
    let mut b = 0;
    while b < 256 {
        let end = parts.run_end(state, b);
        fill(&mut row, b, end, entry_at(parts, state, b as u8));
        b = end;
    }
    row
}

/// Writes `entry` to `row` for the bytes from `byte` up to but not including `end`.
fn fill(row: &mut [u32; 272], byte: usize, end: usize, entry: u32)
    requires { end ≤ 256 }
    ensures inside { (k : ℕ) → byte ≤ k → k < end → slice_index row.new k ≡ entry }
    ensures before { (k : ℕ) → k < byte → slice_index row.new k ≡ slice_index row.old k }
{
    for b in byte..end {
        row[b] = entry;
    }
}

/// Returns the entry of `byte` in `state`.
fn entry_at(parts: &CodeParts, state: &CodeState, byte: u8) -> u32
    requires { NamesExisting (code_of parts.now)
        (state_of parts.now.jump_tables.items state.now) }
    ensures { IsEntry (code_of parts.now)
        (state_of parts.now.jump_tables.items state.now) byte result }
{
    entry_of_step(parts.step(state, byte))
}

/// Returns the entry of each byte as the first byte of an attempt. `rows` contains the rows of all
/// states, and `root` is the number of the state in which match attempts begin.
pub(super) fn first_row(rows: &[u32], root: usize) -> [u32; 256]
    requires { WIDTH * root + 256 ≤ length rows.now }
    ensures { IsFirstOf rows.now root result }
{
    let mut first = [UNDESCRIBED; 256];
    for b in 0..256 {
        first[b] = first_entry(rows[WIDTH * root + b]);
    }
    first
}

/// Returns the entry of a byte as the first byte of an attempt. `entry` is the entry of the byte in
/// the row of the root. The result is `UNDESCRIBED` if `entry` is of the kind `STAYS`, `LEAVES` or
/// `HALTS`, and `entry` otherwise.
fn first_entry(entry: u32) -> u32
    ensures { IsFirstEntry entry result }
{
    if entry < STAYS || entry >= CLOSES {
        entry
    } else {
        UNDESCRIBED
    }
}

/// Returns the mark of a state that has no step other than the mark. Returns `None` if the state
/// has another step or no mark.
fn closing_mark(state: &CodeState) -> Option<Mark>
    ensures { IfSome result (λ mark. (tables : List (List ℕ)) →
        state_of tables state.now ≡ closing (mark_of mark)) }
{
    let Fork::Conditions(branches) = &state.fork else {
        return None;
    };
    if !branches.is_empty() || state.fast_loop.is_some() || state.at_end.is_some() {
        return None;
    }
    state.mark
}

/// Returns the leaf of an early mark. Returns `None` if the mark is late or absent.
pub(super) fn early_leaf(mark: Option<Mark>) -> Option<LeafId>
    ensures { IfSome result (λ leaf. option_map mark_of mark
        ≡ Some (record { leaf = leaf.0; late = false })) }
{
    match mark {
        Some(mark) if !mark.late => Some(mark.leaf),
        _ => None,
    }
}

impl CodeParts<'_> {
    /// Returns whether `byte` passes the test of the fast loop. Returns `false` if there is no fast
    /// loop.
    fn stays(&self, fast_loop: Option<usize>, byte: u8) -> bool
        requires { IfSome fast_loop (NamesTest (code_of self.now)) }
        ensures { result ≡ stays (code_of self.now) fast_loop byte }
    {
        match fast_loop {
            Some(k) => self.passes_test(k, byte),
            None => false,
        }
    }

    /// Returns the step for `byte` in `state`.
    fn step(&self, state: &CodeState, byte: u8) -> Step
        requires { NamesExisting (code_of self.now)
            (state_of self.now.jump_tables.items state.now) }
        ensures { Describes (code_of self.now)
            (state_of self.now.jump_tables.items state.now) byte result }
    {
        if !self.stays(state.fast_loop, byte) {
            return self.step_out(state, byte);
        }
        match state.fast_loop {
            Some(test) => Step::Stays(test),
            None => Step::Undescribed,
        }
    }

    /// Returns the step for `byte` in `state`. The byte must not pass the test of the state's fast
    /// loop.
    fn step_out(&self, state: &CodeState, byte: u8) -> Step
        requires there { NamesExisting (code_of self.now)
            (state_of self.now.jump_tables.items state.now) }
        requires out { stays (code_of self.now) state.now.fast_loop byte ≡ false }
        ensures { Describes (code_of self.now)
            (state_of self.now.jump_tables.items state.now) byte result }
    {
        let Some(target) = self.target(&state.fork, byte) else {
            return self.halting_step(state.mark);
        };
        match closing_mark(&self.states[target]) {
            Some(mark) if mark.late => Step::Looks(mark.leaf, self.match_use(mark.leaf)),
            Some(mark) => Step::Closes(mark.leaf, self.match_use(mark.leaf)),
            None => Step::Leads(target),
        }
    }

    /// Returns the step for a symbol that leads nowhere from a state with the mark `mark`. The
    /// symbol is a byte or the end of the input.
    pub(super) fn halting_step(&self, mark: Option<Mark>) -> Step
        ensures { IsHalting (code_of self.now) (option_map mark_of mark) result }
    {
        match early_leaf(mark) {
            Some(leaf) => Step::Halts(leaf, self.match_use(leaf)),
            None => Step::Stuck,
        }
    }

    /// Returns the use of the matches of `leaf`. The result is `CallsBack` if the leaf has a
    /// callback or does not exist.
    fn match_use(&self, leaf: LeafId) -> MatchUse
        ensures { IsUse (code_of self.now) leaf.0 result }
    {
        match self.leaves.get(leaf.0) {
            Some(leaf) if leaf.callback.is_none() => plain_use(leaf),
            _ => MatchUse::CallsBack,
        }
    }

    /// Returns the state to which `fork` leads on `byte`, or `None` if the byte leads nowhere.
    pub(super) fn target(&self, fork: &Fork, byte: u8) -> Option<usize>
        requires { NamesFork (code_of self.now) (fork_of self.now.jump_tables.items fork.now) }
        ensures is { result ≡ target (code_of self.now)
            (fork_of self.now.jump_tables.items fork.now) byte }
        ensures there { IfSome result (NamesState (code_of self.now)) }
    {
        match fork {
            Fork::Conditions(branches) => self.first_target(branches, byte),
            Fork::Table(k) => jump(&self.jump_tables[*k], byte),
        }
    }

    /// Returns the target of the first branch whose condition holds for `byte`, or `None` if no
    /// condition holds.
    fn first_target(&self, branches: &[(Condition, usize)], byte: u8) -> Option<usize>
        requires { NamesFork (code_of self.now) (by_conditions (map branch_of branches.now)) }
        ensures { result ≡ target (code_of self.now)
            (by_conditions (map branch_of branches.now)) byte }
    {
        for (condition, target) in branches {
            if self.passes(condition, byte) {
                return Some(*target);
            }
        }
        None
    }

    /// Returns whether `condition` holds for `byte`.
    fn passes(&self, condition: &Condition, byte: u8) -> bool
        requires { NamesCondition (code_of self.now) (condition_of condition.now) }
        ensures { result ≡ passes (code_of self.now) (condition_of condition.now) byte }
    {
        match condition {
            Condition::Comparisons(all) => some_holds(all, byte),
            Condition::Test(k) => self.passes_test(*k, byte),
        }
    }

    /// Returns whether `byte` passes the test with the number `k`.
    pub(super) fn passes_test(&self, k: usize, byte: u8) -> bool
        requires { NamesTest (code_of self.now) k }
        ensures { result ≡ passes_test self.now.bit_tables.items k byte }
    {
        has_mask(&self.bit_tables[k / 8], 1 << (k % 8), byte)
    }
}

/// Returns the use of the matches of `leaf`, which must not have a callback.
fn plain_use(leaf: &CodeLeaf) -> MatchUse
    requires { leaf.now.callback ≡ None }
    ensures { IsPlainUse (use_of leaf.now) result }
{
    match leaf.kind {
        VariantKind::Skip => MatchUse::Skips,
        _ => MatchUse::Emits,
    }
}

/// Returns the state to which a jump table leads on `byte`, or `None` if the byte leads nowhere.
fn jump(table: &[u32; 256], byte: u8) -> Option<usize>
    ensures { result ≡ slice_index_or (jumps_of table.now) byte None }
{
    target_of(table[byte as usize])
}

/// Returns whether at least one of `comparisons` holds for `byte`.
fn some_holds(comparisons: &[Comparisons], byte: u8) -> bool
    ensures { result ≡ some_compares (map comparison_of comparisons.now) byte }
{
    for comparison in comparisons {
        if comparison.holds(byte) {
            return true;
        }
    }
    false
}

/// Returns whether the entry of `table` for `byte` has a bit that is set in `mask`.
fn has_mask(table: &[u8; 256], mask: u8, byte: u8) -> bool
    ensures { result ≡ has_mask table.now mask byte }
{
    table[byte as usize] & mask != 0
}
