//! `run_end` finds runs of neighboring bytes with the same step in a state. Called by `rows`, which
//! writes all entries of a run at once.
//!
//! A run consists of consecutive bytes from a first byte up to but not including an end. A run need
//! not be maximal.

ghost use Rattle.std.specs.Prelude.{◌≡◌, ◌<◌, ◌≤◌, ◌==◌, IfSome, None, map, slice_index_or};
ghost use Rattle.logos_code.specs.Views.{EndsRun, comparison_of, compares, some_compares, is_among, passes_test, by_conditions, NamesTest, NamesCondition, NamesFork, NamesExisting, stays, target, passes, condition_of, branch_of, fork_of, jumps_of, state_of, code_of};

use super::{CodeParts, CodeState, Condition, Fork};
use logos_byte_class::byte_class::Comparisons;

impl CodeParts<'_> {
    /// Returns the end of a run that begins at `byte`. All bytes of the run have the same step in
    /// `state`.
    pub(super) fn run_end(&self, state: &CodeState, byte: usize) -> usize
        requires there { NamesExisting (code_of self.now)
            (state_of self.now.jump_tables.items state.now) }
        requires byte { byte < 256 }
        ensures stays { EndsRun (stays (code_of self.now) state.now.fast_loop) byte 256 result }
        ensures leads { EndsRun (target (code_of self.now)
            (fork_of self.now.jump_tables.items state.now.fork)) byte 256 result }
    {
        let end = self.loop_end(state.fast_loop, byte);
        self.fork_end(&state.fork, byte, end)
    }

    /// Returns the end of a run that begins at `byte`. Either all bytes of the run pass the test of
    /// the fast loop, or none does. Without a fast loop, the end is 256.
    fn loop_end(&self, fast_loop: Option<usize>, byte: usize) -> usize
        requires there { IfSome fast_loop (NamesTest (code_of self.now)) }
        requires byte { byte < 256 }
        ensures { EndsRun (stays (code_of self.now) fast_loop) byte 256 result }
    {
        match fast_loop {
            Some(k) => self.test_end(k, byte, 256),
            None => 256,
        }
    }

    /// Returns the end of a run that begins at `byte` and ends no later than `end`. Either all
    /// bytes of the run lead to the same state, or all lead nowhere.
    fn fork_end(&self, fork: &Fork, byte: usize, end: usize) -> usize
        requires there { NamesFork (code_of self.now)
            (fork_of self.now.jump_tables.items fork.now) }
        requires byte { byte < end }
        requires end { end ≤ 256 }
        ensures { EndsRun (target (code_of self.now)
            (fork_of self.now.jump_tables.items fork.now)) byte end result }
    {
        match fork {
            Fork::Conditions(branches) => self.branches_end(branches, byte, end),
            Fork::Table(k) => table_end(&self.jump_tables[*k], byte, end),
        }
    }

    /// Returns the end of a run that begins at `byte` and ends no later than `end`. The same
    /// conditions hold for all bytes of the run.
    fn branches_end(&self, branches: &[(Condition, usize)], byte: usize, end: usize) -> usize
        requires there { NamesFork (code_of self.now) (by_conditions (map branch_of branches.now)) }
        requires byte { byte < end }
        requires end { end ≤ 256 }
        ensures { EndsRun (target (code_of self.now) (by_conditions (map branch_of branches.now)))
            byte end result }
    {
        let mut until = end;
        for (condition, _) in branches {
            until = self.condition_end(condition, byte, until);
        }
        until
    }

    /// Returns the end of a run that begins at `byte` and ends no later than `end`. The condition
    /// holds either for all bytes of the run or for none.
    fn condition_end(&self, condition: &Condition, byte: usize, end: usize) -> usize
        requires there { NamesCondition (code_of self.now) (condition_of condition.now) }
        requires byte { byte < end }
        requires end { end ≤ 256 }
        ensures { EndsRun (passes (code_of self.now) (condition_of condition.now))
            byte end result }
    {
        match condition {
            Condition::Comparisons(all) => comparisons_end(all, byte, end),
            Condition::Test(k) => self.test_end(*k, byte, end),
        }
    }

    /// Returns the end of a run that begins at `byte` and ends no later than `end`. Either all
    /// bytes of the run pass the test `k`, or none does.
    fn test_end(&self, k: usize, byte: usize, end: usize) -> usize
        requires there { NamesTest (code_of self.now) k }
        requires byte { byte < end }
        requires end { end ≤ 256 }
        ensures { EndsRun (passes_test self.now.bit_tables.items k) byte end result }
    {
        let passes = self.passes_test(k, byte as u8);
        for b in byte + 1..end {
            if self.passes_test(k, b as u8) != passes {
                return b;
            }
        }
        end
    }
}

/// Returns the end of a run that begins at `byte` and ends no later than `end`. All bytes of the
/// run have the same entry in the jump table.
fn table_end(table: &[u32; 256], byte: usize, end: usize) -> usize
    requires byte { byte < end }
    requires end { end ≤ 256 }
    ensures { EndsRun (λ b. slice_index_or (jumps_of table.now) b None) byte end result }
{
    let entry = table[byte];
    for b in byte + 1..end {
        if table[b] != entry {
            return b;
        }
    }
    end
}

/// Returns the end of a run that begins at `byte` and ends no later than `end`. The same
/// comparisons hold for all bytes of the run.
fn comparisons_end(comparisons: &[Comparisons], byte: usize, end: usize) -> usize
    requires { byte < end }
    ensures { EndsRun (some_compares (map comparison_of comparisons.now)) byte end result }
{
    let mut until = end;
    for comparison in comparisons {
        until = comparison_end(comparison, byte, until);
    }
    until
}

/// Returns the end of a run that begins at `byte` and ends no later than `end`. The comparison
/// holds either for all bytes of the run or for none.
fn comparison_end(comparison: &Comparisons, byte: usize, end: usize) -> usize
    requires { byte < end }
    ensures { EndsRun (compares (comparison_of comparison.now)) byte end result }
{
    let first = *comparison.range.start() as usize;
    let last = *comparison.range.end() as usize;
    let before = cut(byte, end, first);
    let until = cut(byte, before, last + 1);
    exceptions_end(&comparison.except, byte, until)
}

/// Returns the end of a run that begins at `byte` and ends no later than `end`. Either all bytes of
/// the run are in `except`, or none is.
fn exceptions_end(except: &[u8], byte: usize, end: usize) -> usize
    requires { byte < end }
    ensures { EndsRun (is_among except.now) byte end result }
{
    let mut until = end;
    for one in except {
        let before = cut(byte, until, *one as usize);
        until = cut(byte, before, *one as usize + 1);
    }
    until
}

/// Returns `at` if it is greater than `byte` and less than `end`, and `end` otherwise.
fn cut(byte: usize, end: usize, at: usize) -> usize
    requires { byte < end }
    ensures after { byte < result }
    ensures within { result ≤ end }
    ensures before { byte < at → result ≤ at }
{
    if byte < at && at < end { at } else { end }
}
