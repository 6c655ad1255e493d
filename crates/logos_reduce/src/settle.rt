//! Sets early marks, and removes the late marks that the early marks make redundant. `reduce` calls
//! `settle` as its first step.

ghost use Rattle.std.specs.Prelude.{◌≡◌, ◌≢◌, ℕ, ◌+◌, ◌<◌, ◌↔◌, ◌⊎◌, None, Some, IfOk, length, vec_len, slice_index_or, if◌then◌else◌};
ghost use Rattle.logos_reduce.specs.Views.{size, to, mark, mark_in, IsNeeded, IsSpare, IsSettled, accepted_in, IsCommonIn, AreCommonIn, AreCommon, IsSet, AreNeeded, IsMarkedBy};

use crate::rows::{END, Row, WIDTH, run_end, target_at};
use crate::table::{StateMarks, Table};
use std::alloc::{AllocError, Global};

/// Returns the late mark of the state to which `row` leads on the symbol `k`. Returns `None` if
/// there is no such state, or if the state has no late mark.
fn accepted_by(table: &Table, row: &Row, k: usize) -> Option<usize>
    requires { k < WIDTH }
    ensures { result ≡ accepted_in table.now row.now k }
{
    table.accept(target_at(row, k)?)
}

/// Returns the late mark that all targets of `row` share. Returns `None` if a symbol has no target,
/// or if the late marks of the targets differ or are missing.
fn common_leaf(table: &Table, row: &Row) -> Option<usize>
    ensures { IsCommonIn table.now row.now result }
{
    let leaf = accepted_by(table, row, END)?;
    for k in 0..END {
        if accepted_by(table, row, k) != Some(leaf) {
            return None;
        }
    }
    Some(leaf)
}

/// Returns, for each distinct row, the late mark that all targets of the row share, or `None` if
/// there is no such mark.
fn common_leaves(alloc: Global, table: &Table) -> Result<Vec<Option<usize>>, AllocError>
    ensures len { IfOk result (λ v. vec_len v ≡ length table.now.rows.distinct.keys.items) }
    ensures leaves { IfOk result (λ v.
        AreCommonIn table.now table.now.rows.distinct.keys.items
        (length table.now.rows.distinct.keys.items) v.items) }
{
    let mut leaves = Vec::new(alloc);
    for slot in 0..table.rows.count() {
        leaves.push(common_leaf(table, table.rows.distinct(slot)))?;
    }
    Ok(leaves)
}

/// Returns the early mark of each state, or `None` for a state that has no early mark.
fn early_marks(alloc: Global, table: &Table) -> Result<Vec<Option<usize>>, AllocError>
    ensures len { IfOk result (λ v. vec_len v ≡ size table.now) }
    ensures marks { IfOk result (λ v. AreCommon table.now (size table.now) v.items) }
{
    let leaves = common_leaves(alloc, table)?;
    let mut early = Vec::new(alloc);
    for s in 0..table.len() {
        early.push(leaves[table.rows.slot(s)])?;
    }
    Ok(early)
}

/// Sets the flag of the state `t` in `needed` if the late mark of `t` differs from `early`, the
/// early mark of a state that leads to `t`. The late mark is then needed.
fn note_target(table: &Table, t: usize, early: Option<usize>, needed: &mut Vec<bool>)
    requires inside { t < size table.now }
    requires len { vec_len needed.old ≡ size table.now }
    ensures len { vec_len needed.new ≡ vec_len needed.old }
    ensures stays { (u : ℕ) → IsSet needed.old.items u → IsSet needed.new.items u }
    ensures needed { (u : ℕ) → IsSet needed.new.items u →
        IsSet needed.old.items u ⊎ ((u ≡ t) × ((mark table.now t).accept ≢ early)) }
    ensures spare { IsSet needed.new.items t ⊎ ((mark table.now t).accept ≡ early) }
{
    if table.mark(t).accept != early {
        needed[t] = true;
    }
}

/// Sets the flag of `target`, the target of an edge, in `needed` if the late mark of `target`
/// differs from `early`, the early mark of the state from which the edge leads. Does nothing if
/// `target` is `None`.
fn note_edge(table: &Table, target: Option<usize>, early: Option<usize>, needed: &mut Vec<bool>)
    requires inside { (t : ℕ) → target ≡ Some t → t < size table.now }
    requires len { vec_len needed.old ≡ size table.now }
    ensures len { vec_len needed.new ≡ vec_len needed.old }
    ensures stays { (u : ℕ) → IsSet needed.old.items u → IsSet needed.new.items u }
    ensures needed { (u : ℕ) → IsSet needed.new.items u →
        IsSet needed.old.items u ⊎ ((target ≡ Some u) × ((mark table.now u).accept ≢ early)) }
    ensures spare { (t : ℕ) → target ≡ Some t →
        IsSet needed.new.items t ⊎ ((mark table.now t).accept ≡ early) }
{
    if let Some(t) = target {
        note_target(table, t, early, needed);
    }
}

/// Sets the flags in `needed` of those targets of the state `s` whose late marks differ from
/// `early`, the early mark of `s`.
fn note_targets(table: &Table, s: usize, early: Option<usize>, needed: &mut Vec<bool>)
    requires state { s < size table.now }
    requires len { vec_len needed.old ≡ size table.now }
    ensures len { vec_len needed.new ≡ vec_len needed.old }
    ensures stays { (t : ℕ) → IsSet needed.old.items t → IsSet needed.new.items t }
    ensures needed { (t : ℕ) → IsSet needed.new.items t →
        IsSet needed.old.items t ⊎ IsNeeded table.now s early t }
    ensures spare { (t : ℕ) → IsSet needed.new.items t ⊎ IsSpare table.now s early t }
{
    let row = table.row(s);
    let mut k = 0;
    while k < WIDTH {
        note_edge(table, target_at(row, k), early, needed);
        k = run_end(row, k);
    }
}

/// Returns, for each state, whether its late mark is needed. `early` contains the early mark of
/// each state.
fn needed_marks(
    alloc: Global,
    table: &Table,
    early: &Vec<Option<usize>>,
) -> Result<Vec<bool>, AllocError>
    requires { vec_len early.now ≡ size table.now }
    ensures len { IfOk result (λ v. vec_len v ≡ size table.now) }
    ensures needed { IfOk result (λ v.
        AreNeeded table.now early.now.items (size table.now) v.items) }
{
    let mut needed = vec![in alloc; false; table.len()]?;
    for s in 0..table.len() {
        note_targets(table, s, early[s], &mut needed);
    }
    Ok(needed)
}

/// Returns the settled marks of a state: the early mark `early`, and the late mark of `mark` if
/// `needed` is `true`.
fn settled_mark(mark: StateMarks, early: Option<usize>, needed: bool) -> StateMarks
    ensures early { result.early ≡ early }
    ensures accept { result.accept ≡ (if needed then mark.accept else None) }
{
    StateMarks {
        accept: if needed { mark.accept } else { None },
        early,
    }
}

/// Returns the settled marks of all states. `early` contains the early mark of each state, and
/// `needed` contains `true` for each state whose late mark is needed.
fn settled_marks(
    alloc: Global,
    table: &Table,
    early: &Vec<Option<usize>>,
    needed: &Vec<bool>,
) -> Result<Vec<StateMarks>, AllocError>
    requires early { vec_len early.now ≡ size table.now }
    requires needed { vec_len needed.now ≡ size table.now }
    ensures len { IfOk result (λ v. vec_len v ≡ size table.now) }
    ensures marks { IfOk result (λ v. (s : ℕ) → s < size table.now →
        IsMarkedBy table.now early.now.items needed.now.items s (mark_in v.items s)) }
{
    let mut marks = Vec::new(alloc);
    for s in 0..table.len() {
        marks.push(settled_mark(table.mark(s), early[s], needed[s]))?;
    }
    Ok(marks)
}

/// Returns `table` with early marks, and without the late marks that the early marks make
/// redundant.
///
/// # Errors
///
/// Returns `AllocError` if memory runs out.
pub fn settle(alloc: Global, table: Table) -> Result<Table, AllocError>
    ensures { IfOk result (IsSettled table) }
{
    let early = early_marks(alloc, &table)?;
    let needed = needed_marks(alloc, &table, &early)?;
    let marks = settled_marks(alloc, &table, &early, &needed)?;
    let Table { marks: _, rows } = table;
    Ok(Table { marks, rows })
}
