//! Removes the edges to states that have no mark and lead to no state with a mark. `reduce` calls
//! `prune` as its second step, after `settle`.

ghost use Rattle.std.specs.Prelude.{true, ◌≡◌, ℕ, ◌+◌, ◌<◌, ◌≤◌, ◌↔◌, ◌⊎◌, Some, OnOk, IfOk, IsTrue, IsSome, length, vec_len, slice_index};
ghost use Rattle.logos_reduce.specs.Views.{has, IsMet, Grows, IsMarked, target_by, target_of, target_in, size, to, mark, type_of, IsSeed, AreUseful, met_target, IsPrunedTable, rows_of};
ghost use Rattle.logos_reduce.specs.Rows.{AreWide};

use crate::lists::predecessors;
use crate::order::Order;
use crate::rows::{END, Row, Rows, WIDTH, run_end, set_run, target_at};
use crate::table::{StateMarks, Table};
use std::alloc::{AllocError, Global};

/// Returns whether `mark` contains an early or a late mark.
fn is_marked(mark: StateMarks) -> bool
    ensures { IsTrue result ↔ IsMarked (type_of mark) }
{
    mark.early.is_some() || mark.accept.is_some()
}

/// Returns whether the state `s` has a mark or leads to a marked state at the end of the input.
fn is_seed(table: &Table, s: usize) -> bool
    requires { s < size table.now }
    ensures { IsTrue result ↔ IsSeed table.now s }
{
    if is_marked(table.mark(s)) {
        return true;
    }
    match table.target(s, END) {
        Some(t) => is_marked(table.mark(t)),
        None => false,
    }
}

/// Returns the states that have a mark or lead to a marked state at the end of the input. The
/// states are in ascending order.
fn seeds(alloc: Global, table: &Table) -> Result<Order, AllocError>
    ensures len { IfOk result (λ o. vec_len o.numbers ≡ size table.now) }
    ensures only { IfOk result (λ o. (s : ℕ) → IsMet o.numbers.items s → IsSeed table.now s) }
    ensures all { IfOk result (λ o. (s : ℕ) → s < size table.now → IsSeed table.now s →
        IsMet o.numbers.items s) }
{
    let mut order = Order::new(alloc, table.len())?;
    for s in 0..table.len() {
        order.meet_if(s, is_seed(table, s))?;
    }
    Ok(order)
}

/// Appends the states of `list` to `order`, except states that `order` already contains.
fn meet_all(order: &mut Order, list: &Vec<usize>) -> Result<(), AllocError>
    requires { (s : ℕ) → has list.now.items s ≡ true → s < vec_len order.old.numbers }
    ensures len { vec_len order.new.numbers ≡ vec_len order.old.numbers }
    ensures grows { Grows order.old.numbers.items order.new.numbers.items }
    ensures all { OnOk result ((s : ℕ) → has list.now.items s ≡ true →
        IsMet order.new.numbers.items s) }
    ensures only { (s : ℕ) → IsMet order.new.numbers.items s →
        IsMet order.old.numbers.items s ⊎ (has list.now.items s ≡ true) }
{
    for s in list {
        order.meet(*s)?;
    }
    Ok(())
}

/// Returns the states that have a mark or lead, in one or more steps, to a state with a mark.
fn useful_states(alloc: Global, table: &Table) -> Result<Order, AllocError>
    ensures len { IfOk result (λ o. vec_len o.numbers ≡ size table.now) }
    ensures useful { IfOk result (λ o. AreUseful table.now o.numbers.items) }
{
    let from = predecessors(alloc, table, END)?;
    let mut order = seeds(alloc, table)?;
    let mut i = 0;
    while i < order.states.len() {
        let t = order.states[i];
        meet_all(&mut order, &from[t])?;
        i += 1;
    }
    Ok(order)
}

/// Removes the targets that are not in `order` from `row`.
fn prune_row(row: &mut Row, order: &Order)
    ensures len { length row.new ≡ WIDTH }
    ensures pruned { (k : ℕ) → target_by row.new k
        ≡ met_target order.now.numbers.items (target_by row.old k) }
{
    let mut k = 0;
    while k < WIDTH {
        let end = run_end(row, k);
        let entry = pruned_entry(row, k, order);
        set_run(row, k, end, entry);
        k = end;
    }
}

/// Returns the entry of `row` on the symbol `k`, or 0 if the target of the entry is not in `order`.
fn pruned_entry(row: &Row, k: usize, order: &Order) -> u32
    requires { k < WIDTH }
    ensures { target_of result ≡ met_target order.now.numbers.items (target_by row.now k) }
{
    match target_at(row, k) {
        Some(t) => if order.number_of(t) == 0 { 0 } else { row[k] },
        None => 0,
    }
}

/// Removes the targets that are not in `order` from each of `rows`.
fn prune_all(rows: &mut Vec<Row>, order: &Order)
    ensures len { vec_len rows.new ≡ vec_len rows.old }
    ensures wide { AreWide rows.old.items → AreWide rows.new.items }
    ensures rows { (i k : ℕ) → i < vec_len rows.old → target_in rows.new.items i k
        ≡ met_target order.now.numbers.items (target_in rows.old.items i k) }
{
    for i in 0..rows.len() {
        prune_row(&mut rows[i], order);
    }
}

/// Returns `rows` without the targets that are not in `order`.
fn pruned_rows(rows: Rows, order: &Order) -> Rows
    ensures len { length (rows_of result) ≡ length (rows_of rows) }
    ensures rows { (s k : ℕ) → s < length (rows_of rows) → target_in (rows_of result) s k
        ≡ met_target order.now.numbers.items (target_in (rows_of rows) s k) }
{
    let Rows {
        slots,
        mut distinct,
    } = rows;
    prune_all(&mut distinct.keys, order);
    Rows { slots, distinct }
}

/// Returns `table` without the edges to states that have no mark and lead to no state with a mark.
///
/// # Errors
///
/// Returns `AllocError` if memory runs out.
pub fn prune(alloc: Global, table: Table) -> Result<Table, AllocError>
    ensures { IfOk result (IsPrunedTable table) }
{
    let order = useful_states(alloc, &table)?;
    let Table { marks, rows } = table;
    let pruned = pruned_rows(rows, &order);
    Ok(Table {
        marks,
        rows: pruned,
    })
}
