//! `last_marks_of` finds last marks: for each state, the last mark that a match attempt has passed
//! when the attempt ends in the state. Called by `construction`. The fast path of an attempt reads
//! the last marks.
//!
//! If all paths to a state have the same last mark, a lexer need not record the marks that it
//! passes. The last marks are first searched along the forks of all states, and then checked. Only
//! the check establishes that the last marks are correct.

ghost use Rattle.std.specs.Prelude.{◌≡◌, ◌<◌, IfOk, IfSome, IsTrue, length, map, option_map, if◌then◌else◌};
ghost use Rattle.logos_code.specs.Views.{code_of, mark_of, branch_of, fork_of, jumps_of, entry_of, by_conditions, by_table, IsSound, NamesFork, AreLastMarks, last_mark_at, IsOwn, Follows, FollowsAt, FollowsBack, ForkAgrees, StateAgrees, BeginsUnmarked, Agree};

use super::{CodeParts, CodeState, Condition, Fork, Mark, target_of};
use logos_hir::leaf::LeafId;
use std::alloc::{AllocError, Global};

/// The last mark that a match attempt has passed when the attempt ends in a given state.
#[derive(Clone, Copy, PartialEq, Eq)]
pub enum LastMark {
    /// No path to the state was found, so the last mark is unknown.
    Unseen,
    /// Different paths to the state have different last marks.
    Varies,
    /// No mark was passed.
    Never,
    /// The last mark is a match of this leaf that ends this number of bytes before the end of the
    /// attempt.
    Back(LeafId, usize),
}

/// A search for the last marks of all states.
#[derive(Drop)]
struct Search {
    /// The last mark that has been found for each state.
    found: Vec<LastMark>,
    /// The states whose last marks have changed since the search last updated the targets of the
    /// states.
    open: Vec<usize>,
}

/// Returns the last marks of all states, or an empty list if the last marks found do not pass the
/// check.
///
/// # Errors
///
/// Returns `AllocError` if memory runs out.
pub(super) fn last_marks_of(alloc: Global, parts: &CodeParts) -> Result<Vec<LastMark>, AllocError>
    requires { IsSound (code_of parts.now) }
    ensures { IfOk result (λ marks. AreLastMarks (code_of parts.now) marks.items) }
{
    let found = find(alloc, parts)?;
    if agree(parts, &found) {
        return Ok(found);
    }
    Ok(Vec::new(alloc))
}

/// Returns the last marks of all states that a search along the forks finds. The result is not
/// checked.
///
/// # Errors
///
/// Returns `AllocError` if memory runs out.
fn find(alloc: Global, parts: &CodeParts) -> Result<Vec<LastMark>, AllocError> {
    let mut search = Search {
        found: vec![in alloc; LastMark::Unseen; parts.states.len()]?,
        open: Vec::new(alloc),
    };
    search.find_more(parts.root, LastMark::Never)?;
    // The last mark of a state changes at most twice.
    for _ in 0..parts.states.len().saturating_mul(2) {
        let Some(state) = search.open.pop() else {
            return Ok(search.found);
        };
        search.update_targets(parts, state)?;
    }
    Ok(search.found)
}

impl Search {
    /// Updates the last marks of all states to which the fork of `state` leads. Does nothing if
    /// `state` does not exist.
    fn update_targets(&mut self, parts: &CodeParts, state: usize) -> Result<(), AllocError> {
        let mark = last_mark_at(&self.found, state);
        let Some(state) = parts.states.get(state) else {
            return Ok(());
        };
        match &state.fork {
            Fork::Conditions(branches) => self.update_by_conditions(parts, branches, mark),
            Fork::Table(k) => self.update_by_table(parts, *k, mark),
        }
    }

    /// Updates the last marks of all states to which `branches` lead. `mark` is the last mark in
    /// the state that has the branches.
    fn update_by_conditions(
        &mut self,
        parts: &CodeParts,
        branches: &[(Condition, usize)],
        mark: LastMark,
    ) -> Result<(), AllocError> {
        for branch in branches {
            self.update_target(parts, branch.1, mark)?;
        }
        Ok(())
    }

    /// Updates the last marks of all states to which the jump table `k` leads. `mark` is the last
    /// mark in the state that has the table. Does nothing if the table does not exist.
    fn update_by_table(
        &mut self,
        parts: &CodeParts,
        k: usize,
        mark: LastMark,
    ) -> Result<(), AllocError> {
        let Some(table) = parts.jump_tables.get(k) else {
            return Ok(());
        };
        for entry in table {
            self.update_target(parts, *entry as usize, mark)?;
        }
        Ok(())
    }

    /// Updates the last mark of the state `to`, if the state exists. `mark` is the last mark in a
    /// state that leads to `to`.
    fn update_target(
        &mut self,
        parts: &CodeParts,
        to: usize,
        mark: LastMark,
    ) -> Result<(), AllocError> {
        match parts.states.get(to) {
            Some(next) => self.find_more(to, entered(next, mark)),
            None => Ok(()),
        }
    }

    /// Records that an attempt can end in `state` with the last mark `mark`. Adds the state to the
    /// open states if its last mark changes. Does nothing if the state does not exist.
    fn find_more(&mut self, state: usize, mark: LastMark) -> Result<(), AllocError> {
        if state >= self.found.len() {
            return Ok(());
        }
        let old = self.found[state];
        let new = either(old, mark);
        if new != old {
            self.found[state] = new;
            self.open.push(state)?;
        }
        Ok(())
    }
}

/// Returns the last mark of a state after the last mark `other` was found in addition to `one`. The
/// result is `other` if `one` is `Unseen` or equals `other`, and `Varies` otherwise.
fn either(one: LastMark, other: LastMark) -> LastMark {
    if one == LastMark::Unseen || one == other {
        other
    } else {
        LastMark::Varies
    }
}

/// Returns the last mark in `state` after a byte that leads to `state`. `before` is the last mark
/// before the byte. The result is `Varies` if a fast loop makes the number of bytes unknown.
fn entered(state: &CodeState, before: LastMark) -> LastMark {
    match (state.mark, before) {
        (Some(mark), _) => LastMark::Back(mark.leaf, bytes_back(mark)),
        (None, LastMark::Back(leaf, bytes)) if state.fast_loop.is_none() && bytes < usize::MAX => {
            LastMark::Back(leaf, bytes + 1)
        }
        (None, LastMark::Never) => LastMark::Never,
        _ => LastMark::Varies,
    }
}

/// Returns the number of bytes between the end of a mark's match and the state that has the mark.
/// The number is 1 if the mark is late, and 0 otherwise.
fn bytes_back(mark: Mark) -> usize
    ensures { result ≡ (if mark.late then 1 else 0) }
{
    if mark.late { 1 } else { 0 }
}

/// Returns the last mark in the state with the number `state`, or `Unseen` if `marks` has no such
/// element.
pub(super) fn last_mark_at(marks: &[LastMark], state: usize) -> LastMark
    ensures { result ≡ last_mark_at marks.now state }
{
    match marks.get(state) {
        Some(mark) => *mark,
        None => LastMark::Unseen,
    }
}

/// Returns whether the last marks are correct: whether they agree with the marks of all states, and
/// with each other along all transitions.
fn agree(parts: &CodeParts, marks: &[LastMark]) -> bool
    requires { IsSound (code_of parts.now) }
    ensures { IsTrue result → Agree (code_of parts.now) marks.now }
{
    if !begins_unmarked(last_mark_at(marks, parts.root)) {
        return false;
    }
    for state in 0..parts.states.len() {
        if !state_agrees(parts, marks, state) {
            return false;
        }
    }
    true
}

/// Returns whether `mark` can be the last mark in the root, that is, whether `mark` is not `Back`.
fn begins_unmarked(mark: LastMark) -> bool
    ensures { IsTrue result → BeginsUnmarked mark }
{
    !matches!(mark, LastMark::Back(..))
}

/// Returns whether the last mark in a state agrees with the state's mark, and with the last marks
/// in the states to which the fork of the state leads.
fn state_agrees(parts: &CodeParts, marks: &[LastMark], state: usize) -> bool
    requires sound { IsSound (code_of parts.now) }
    requires state { state < length parts.now.states.items }
    ensures { IsTrue result → StateAgrees (code_of parts.now) marks.now state }
{
    let from = last_mark_at(marks, state);
    let state = &parts.states[state];
    if !is_own(from, state.mark) {
        return false;
    }
    fork_agrees(parts, marks, from, &state.fork)
}

/// Returns whether the last marks in all states to which `fork` leads follow from `from`. `from` is
/// the last mark in the state that has the fork.
fn fork_agrees(parts: &CodeParts, marks: &[LastMark], from: LastMark, fork: &Fork) -> bool
    requires { NamesFork (code_of parts.now) (fork_of parts.now.jump_tables.items fork.now) }
    ensures { IsTrue result → ForkAgrees (code_of parts.now) marks.now from
        (fork_of parts.now.jump_tables.items fork.now) }
{
    match fork {
        Fork::Conditions(branches) => branches_agree(parts, marks, from, branches),
        Fork::Table(k) => table_agrees(parts, marks, from, &parts.jump_tables[*k]),
    }
}

/// Returns whether the last marks in all states to which `branches` lead follow from `from`. `from`
/// is the last mark in the state that has the branches.
fn branches_agree(
    parts: &CodeParts,
    marks: &[LastMark],
    from: LastMark,
    branches: &[(Condition, usize)],
) -> bool
    ensures { IsTrue result → ForkAgrees (code_of parts.now) marks.now from
        (by_conditions (map branch_of branches.now)) }
{
    for branch in branches {
        if !target_agrees(parts, marks, from, branch.1) {
            return false;
        }
    }
    true
}

/// Returns whether the last marks in all states to which the jump table leads follow from `from`.
/// `from` is the last mark in the state that has the table.
fn table_agrees(parts: &CodeParts, marks: &[LastMark], from: LastMark, table: &[u32; 256]) -> bool
    ensures { IsTrue result → ForkAgrees (code_of parts.now) marks.now from
        (by_table (jumps_of table.now)) }
{
    for b in 0..256 {
        if !entry_agrees(parts, marks, from, table[b]) {
            return false;
        }
    }
    true
}

/// Returns whether the last mark `last` in a state agrees with `mark`, the mark of the state.
fn is_own(last: LastMark, mark: Option<Mark>) -> bool
    ensures { IsTrue result → IsOwn last (option_map mark_of mark) }
{
    let Some(mark) = mark else {
        return true;
    };
    match last {
        LastMark::Back(leaf, bytes) => leaf.0 == mark.leaf.0 && bytes == bytes_back(mark),
        LastMark::Never => false,
        _ => true,
    }
}

/// Returns whether an entry of a jump table leads nowhere, or leads to a state for which
/// `target_agrees` returns `true`.
fn entry_agrees(parts: &CodeParts, marks: &[LastMark], from: LastMark, entry: u32) -> bool
    ensures { IsTrue result → IfSome (entry_of entry) (FollowsAt (code_of parts.now) marks.now
        from) }
{
    match target_of(entry) {
        Some(to) => target_agrees(parts, marks, from, to),
        None => true,
    }
}

/// Returns whether the state `to` exists, and has a mark of its own or a last mark that follows
/// from `from`. `from` is the last mark in a state that leads to `to`.
fn target_agrees(parts: &CodeParts, marks: &[LastMark], from: LastMark, to: usize) -> bool
    ensures { IsTrue result → FollowsAt (code_of parts.now) marks.now from to }
{
    let Some(next) = parts.states.get(to) else {
        return false;
    };
    if next.mark.is_some() {
        return true;
    }
    follows(from, next.fast_loop, last_mark_at(marks, to))
}

/// Returns whether `to` follows from `from` along a byte. `from` is the last mark in the state
/// before the byte, and `to` is the last mark in the state after the byte. The state after the byte
/// has the fast loop `fast_loop` and no mark of its own.
fn follows(from: LastMark, fast_loop: Option<usize>, to: LastMark) -> bool
    ensures { IsTrue result → Follows to from fast_loop }
{
    match to {
        LastMark::Unseen | LastMark::Varies => true,
        LastMark::Never => matches!(from, LastMark::Never),
        LastMark::Back(leaf, bytes) => fast_loop.is_none() && follows_back(from, leaf, bytes),
    }
}

/// Returns whether `from` is `Back` with the leaf `leaf` and `bytes - 1` bytes.
fn follows_back(from: LastMark, leaf: LeafId, bytes: usize) -> bool
    ensures { IsTrue result → FollowsBack from leaf.0 bytes }
{
    match from {
        LastMark::Back(last, before) => last.0 == leaf.0 && before < bytes && bytes - before == 1,
        _ => false,
    }
}
