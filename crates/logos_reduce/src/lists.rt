//! Functions on vectors of lists of states. A vector has one list for each state or block. `merge`
//! and `prune` store edges in such vectors, and `merge` also stores the states of blocks.

ghost use Rattle.std.specs.Prelude.{true, ◌≡◌, ◌≢◌, ℕ, ◌+◌, ◌-◌, ◌<◌, ◌≤◌, ◌⊎◌, Some, OnOk, IfOk, IsTrue, IsFalse, length, slice_get, vec_len, slice_index};
ghost use Rattle.logos_reduce.specs.Views.{has, has_in, Rises, AreRising, ArePredecessors, target_by, size, to};

use crate::rows::{Row, WIDTH, run_end, target_at};
use crate::table::Table;
use std::alloc::{AllocError, Global};

/// Returns a vector of `len` empty lists.
///
/// # Errors
///
/// Returns `AllocError` if memory runs out.
pub fn empty_lists(alloc: Global, len: usize) -> Result<Vec<Vec<usize>>, AllocError>
    ensures len { IfOk result (λ v. vec_len v ≡ len) }
    ensures empty { IfOk result (λ v. (b s : ℕ) → has_in v.items b s ≡ true → ⊥) }
    ensures rising { IfOk result (λ v. AreRising 0 v.items) }
{
    let mut lists = Vec::new(alloc);
    for _i in 0..len {
        lists.push(Vec::new(alloc))?;
    }
    Ok(lists)
}

/// Returns whether the last number of `list` is `s`, or `false` if the list is empty.
fn ends_with(list: &Vec<usize>, s: usize) -> bool
    ensures hit { IsTrue result → has list.now.items s ≡ true }
    ensures miss { IsFalse result → slice_get list.now.items (vec_len list.now - 1) ≢ Some s }
{
    match list.last() {
        Some(last) => *last == s,
        None => false,
    }
}

/// Appends the number `s` to `list` unless `s` is already the last number of `list`.
///
/// # Errors
///
/// Returns `AllocError` if memory runs out. The list is then unchanged.
pub fn add(list: &mut Vec<usize>, s: usize) -> Result<(), AllocError>
    ensures has { OnOk result (has list.new.items s ≡ true) }
    ensures stays { (t : ℕ) → has list.old.items t ≡ true → has list.new.items t ≡ true }
    ensures only { (t : ℕ) → has list.new.items t ≡ true → (has list.old.items t ≡ true) ⊎ (t ≡ s) }
    ensures rising { Rises (s + 1) list.old.items → Rises (s + 1) list.new.items }
{
    if !ends_with(list, s) {
        list.push(s)?;
    }
    Ok(())
}

/// Appends the state `s` to the list at the index `b` unless `s` is already the last state of this
/// list.
///
/// # Errors
///
/// Returns `AllocError` if memory runs out. The lists are then unchanged.
pub fn file(lists: &mut Vec<Vec<usize>>, b: usize, s: usize) -> Result<(), AllocError>
    requires { b < vec_len lists.old }
    ensures len { vec_len lists.new ≡ vec_len lists.old }
    ensures has { OnOk result (has_in lists.new.items b s ≡ true) }
    ensures stays { (c t : ℕ) → has_in lists.old.items c t ≡ true →
        has_in lists.new.items c t ≡ true }
    ensures only { (c t : ℕ) → has_in lists.new.items c t ≡ true →
        (has_in lists.old.items c t ≡ true) ⊎ ((c ≡ b) × (t ≡ s)) }
    ensures rising { AreRising (s + 1) lists.old.items → AreRising (s + 1) lists.new.items }
{
    add(&mut lists[b], s)?;
    Ok(())
}

/// Appends the state `s` to the list of the state `target` unless `s` is already the last state of
/// this list. Does nothing if `target` is `None`.
fn file_target(
    lists: &mut Vec<Vec<usize>>,
    target: Option<usize>,
    s: usize,
) -> Result<(), AllocError>
    requires { (t : ℕ) → target ≡ Some t → t < vec_len lists.old }
    ensures len { vec_len lists.new ≡ vec_len lists.old }
    ensures stays { (t u : ℕ) → has_in lists.old.items t u ≡ true →
        has_in lists.new.items t u ≡ true }
    ensures filed { OnOk result ((t : ℕ) → target ≡ Some t → has_in lists.new.items t s ≡ true) }
    ensures only { (t u : ℕ) → has_in lists.new.items t u ≡ true →
        (has_in lists.old.items t u ≡ true) ⊎ ((u ≡ s) × (target ≡ Some t)) }
    ensures rising { AreRising (s + 1) lists.old.items → AreRising (s + 1) lists.new.items }
{
    if let Some(t) = target {
        file(lists, t, s)?;
    }
    Ok(())
}

/// Appends the state `s` to the list of each target of `s` on the first `width` symbols, unless `s`
/// is already the last state of this list. `row` is the row of `s`.
fn file_row(
    lists: &mut Vec<Vec<usize>>,
    row: &Row,
    s: usize,
    width: usize,
) -> Result<(), AllocError>
    requires width { width ≤ WIDTH }
    requires inside { (k t : ℕ) → target_by row.now k ≡ Some t → t < vec_len lists.old }
    ensures len { vec_len lists.new ≡ vec_len lists.old }
    ensures stays { (t u : ℕ) → has_in lists.old.items t u ≡ true →
        has_in lists.new.items t u ≡ true }
    ensures filed { OnOk result ((k t : ℕ) → k < width → target_by row.now k ≡ Some t →
        has_in lists.new.items t s ≡ true) }
    ensures only { (t u : ℕ) → has_in lists.new.items t u ≡ true →
        (has_in lists.old.items t u ≡ true)
        ⊎ ((u ≡ s) × ((k : ℕ) × (k < width) × (target_by row.now k ≡ Some t))) }
    ensures rising { AreRising (s + 1) lists.old.items → AreRising (s + 1) lists.new.items }
{
    let mut k = 0;
    while k < width {
        file_target(lists, target_at(row, k), s)?;
        k = run_end(row, k);
    }
    Ok(())
}

/// Returns, for each state, its predecessors: the states that lead to the state on one of the first
/// `width` symbols, in ascending order and without duplicates.
///
/// # Errors
///
/// Returns `AllocError` if memory runs out.
pub fn predecessors(
    alloc: Global,
    table: &Table,
    width: usize,
) -> Result<Vec<Vec<usize>>, AllocError>
    requires { width ≤ WIDTH }
    ensures len { IfOk result (λ v. vec_len v ≡ size table.now) }
    ensures lists { IfOk result (λ v.
        ArePredecessors (size table.now) width (to table.now) v.items) }
    ensures rising { IfOk result (λ v. AreRising (size table.now) v.items) }
{
    let mut lists = empty_lists(alloc, table.len())?;
    for s in 0..table.len() {
        file_row(&mut lists, table.row(s), s, width)?;
    }
    Ok(lists)
}

/// Returns the entries of `table` at the indices in `numbers`, in the order of `numbers`.
///
/// # Errors
///
/// Returns `AllocError` if memory runs out.
pub fn looked_up(
    alloc: Global,
    table: &Vec<usize>,
    numbers: &Vec<usize>,
) -> Result<Vec<usize>, AllocError>
    requires { (i : ℕ) → i < vec_len numbers.now →
        slice_index numbers.now.items i < vec_len table.now }
    ensures len { IfOk result (λ v. vec_len v ≡ vec_len numbers.now) }
    ensures found { IfOk result (λ v. (i : ℕ) → i < vec_len numbers.now →
        slice_index v.items i
        ≡ slice_index table.now.items (slice_index numbers.now.items i)) }
{
    let mut found = Vec::new(alloc);
    for number in numbers {
        found.push(table[*number])?;
    }
    Ok(found)
}
