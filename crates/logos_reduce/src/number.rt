//! Numbers the blocks of a table in breadth-first order, from the block of the root on. `reduce`
//! calls `number` as its last step.

ghost use Rattle.std.specs.Prelude.{◌≡◌, ℕ, ◌+◌, ◌-◌, ◌<◌, ◌≤◌, ◌++◌, ◌∷◌, ◌⊎◌, ◌^◌, [], Some, OnOk, IfOk, length, vec_len, slice_index, option_map, option_and_then};
ghost use Rattle.logos_reduce.specs.Views.{IsMet, Grows, target_by, target_in, target_of, target_block, AreLeaders, size, to, mark, mark_in, IsInTurn, AreUsed, IsNumbered, rows_of};

use crate::merge::Partition;
use crate::merge::refine::block_of;
use crate::order::Order;
use crate::rows::{Row, Rows, WIDTH, fill_run, run_end, target_at};
use crate::table::{StateMarks, Table};
use std::alloc::{AllocError, Global};

/// Appends the block `target` to `order` if `order` does not contain it yet. Does nothing if
/// `target` is `None`.
fn meet_target(order: &mut Order, target: Option<usize>) -> Result<(), AllocError>
    requires { (b : ℕ) → target ≡ Some b → b < vec_len order.old.numbers }
    ensures len { vec_len order.new.numbers ≡ vec_len order.old.numbers }
    ensures grows { Grows order.old.numbers.items order.new.numbers.items }
    ensures met { OnOk result ((b : ℕ) → target ≡ Some b → IsMet order.new.numbers.items b) }
    ensures states { OnOk result ((order.new.states.items ≡ order.old.states.items)
        ⊎ ((b : ℕ) × (target ≡ Some b) × (slice_index order.old.numbers.items b ≡ 0)
        × (order.new.states.items ≡ order.old.states.items ++ b ∷ []))) }
{
    if let Some(b) = target {
        order.meet(b)?;
    }
    Ok(())
}

/// Appends the targets of the block at the index `i` of `order` to `order`, except blocks that
/// `order` already contains.
fn meet_targets(
    order: &mut Order,
    table: &Table,
    merged: &Partition,
    i: usize,
) -> Result<(), AllocError>
    requires slot { i < vec_len order.old.states }
    requires len { vec_len merged.now.blocks.of ≡ size table.now }
    requires room { vec_len merged.now.leaders ≡ vec_len order.old.numbers }
    requires within { (s : ℕ) → s < size table.now →
        slice_index merged.now.blocks.of.items s < vec_len merged.now.leaders }
    requires leaders { AreLeaders (size table.now) (slice_index merged.now.blocks.of.items)
        (slice_index merged.now.leaders.items) }
    requires used { AreUsed (size table.now) (slice_index merged.now.blocks.of.items)
        order.old.states.items }
    requires in_turn { IsInTurn (λ b k.
        target_block table.now (slice_index merged.now.blocks.of.items)
        (slice_index merged.now.leaders.items b) k)
        order.old.numbers.items order.old.states.items i 0 }
    ensures len { vec_len order.new.numbers ≡ vec_len order.old.numbers }
    ensures grows { Grows order.old.numbers.items order.new.numbers.items }
    ensures used { OnOk result (AreUsed (size table.now)
        (slice_index merged.now.blocks.of.items) order.new.states.items) }
    ensures in_turn { OnOk result
        (IsInTurn (λ b k. target_block table.now (slice_index merged.now.blocks.of.items)
        (slice_index merged.now.leaders.items b) k) order.new.numbers.items order.new.states.items
        (i + 1) 0) }
{
    let row = table.row(merged.leaders[order.states[i]]);
    let mut k = 0;
    while k < WIDTH {
        meet_target(order, block_of(target_at(row, k), &merged.blocks.of))?;
        k = run_end(row, k);
    }
    Ok(())
}

/// Returns the blocks that can be reached from the block of the state `root`, in breadth-first
/// order.
fn breadth_first(
    alloc: Global,
    table: &Table,
    merged: &Partition,
    root: usize,
) -> Result<Order, AllocError>
    requires root_in { root < size table.now }
    requires len { vec_len merged.now.blocks.of ≡ size table.now }
    requires within { (s : ℕ) → s < size table.now →
        slice_index merged.now.blocks.of.items s < vec_len merged.now.leaders }
    requires leaders { AreLeaders (size table.now) (slice_index merged.now.blocks.of.items)
        (slice_index merged.now.leaders.items) }
    ensures len { IfOk result (λ o. vec_len o.numbers ≡ vec_len merged.now.leaders) }
    ensures some { IfOk result (λ o. 0 < vec_len o.states) }
    ensures start { IfOk result (λ o.
        slice_index o.states.items 0 ≡ slice_index merged.now.blocks.of.items root) }
    ensures used { IfOk result (λ o.
        AreUsed (size table.now) (slice_index merged.now.blocks.of.items) o.states.items) }
    ensures in_turn { IfOk result
        (λ o. IsInTurn (λ b k. target_block table.now (slice_index merged.now.blocks.of.items)
        (slice_index merged.now.leaders.items b) k) o.numbers.items o.states.items
        (length o.states.items) 0) }
{
    let mut order = Order::new(alloc, merged.leaders.len())?;
    order.meet(merged.blocks.of[root])?;
    let mut i = 0;
    while i < order.states.len() {
        meet_targets(&mut order, table, merged, i)?;
        i += 1;
    }
    Ok(order)
}

/// Returns `row` with each target replaced by the new number of its block. `blocks[s]` is the block
/// of the state `s`. `numbers[b]` is one more than the new number of the block `b`.
fn numbered_row(row: &Row, blocks: &Vec<usize>, numbers: &Vec<usize>) -> Row
    requires inside { (k t : ℕ) → target_by row.now k ≡ Some t → t < vec_len blocks.now }
    requires within { (s : ℕ) → s < vec_len blocks.now →
        slice_index blocks.now.items s < vec_len numbers.now }
    requires few { (b : ℕ) → slice_index numbers.now.items b < 2 ^ 32 }
    ensures { (k : ℕ) → target_by result k
        ≡ option_and_then (λ b. target_of (slice_index numbers.now.items b))
        (option_map (slice_index blocks.now.items) (target_by row.now k)) }
{
    let mut numbered = [0; WIDTH];
    let mut k = 0;
    while k < WIDTH {
        let end = run_end(row, k);
        fill_run(
            &mut numbered,
            k,
            end,
            numbered_entry(target_at(row, k), blocks, numbers),
        );
        k = end;
    }
    numbered
}

/// Returns the row entry that leads to the block of `target` under its new number, or 0 if `target`
/// is `None`. `blocks[s]` is the block of the state `s`. `numbers[b]` is one more than the new
/// number of the block `b`.
fn numbered_entry(target: Option<usize>, blocks: &Vec<usize>, numbers: &Vec<usize>) -> u32
    requires inside { (t : ℕ) → target ≡ Some t → t < vec_len blocks.now }
    requires within { (s : ℕ) → s < vec_len blocks.now →
        slice_index blocks.now.items s < vec_len numbers.now }
    requires few { (b : ℕ) → slice_index numbers.now.items b < 2 ^ 32 }
    ensures { target_of result
        ≡ option_and_then (λ b. target_of (slice_index numbers.now.items b))
        (option_map (slice_index blocks.now.items) target) }
{
    match block_of(target, blocks) {
        Some(b) => numbers[b] as u32,
        None => 0,
    }
}

/// Returns the rows of the blocks, in the order of `order`.
fn numbered_rows(
    alloc: Global,
    table: &Table,
    merged: &Partition,
    order: &Order,
) -> Result<Rows, AllocError>
    requires len { vec_len merged.now.blocks.of ≡ size table.now }
    requires room { vec_len merged.now.leaders ≡ vec_len order.now.numbers }
    requires within { (s : ℕ) → s < size table.now →
        slice_index merged.now.blocks.of.items s < vec_len merged.now.leaders }
    requires leaders { (i : ℕ) → i < vec_len order.now.states →
        slice_index merged.now.leaders.items (slice_index order.now.states.items i)
        < size table.now }
    requires few { (b : ℕ) → slice_index order.now.numbers.items b < 2 ^ 32 }
    ensures len { IfOk result (λ r. length (rows_of r) ≡ vec_len order.now.states) }
    ensures rows { IfOk result (λ r. (i k : ℕ) → i < vec_len order.now.states →
        target_in (rows_of r) i k
        ≡ option_and_then (λ b. target_of (slice_index order.now.numbers.items b))
        (target_block table.now (slice_index merged.now.blocks.of.items)
        (slice_index merged.now.leaders.items (slice_index order.now.states.items i)) k)) }
{
    let mut rows = Rows::new(alloc);
    for block in &order.states {
        let row = numbered_row(
            table.row(merged.leaders[*block]),
            &merged.blocks.of,
            &order.numbers,
        );
        rows.push(&row)?;
    }
    Ok(rows)
}

/// Returns the marks of the blocks, in the order of `order`.
fn numbered_marks(
    alloc: Global,
    table: &Table,
    merged: &Partition,
    order: &Order,
) -> Result<Vec<StateMarks>, AllocError>
    requires room { vec_len merged.now.leaders ≡ vec_len order.now.numbers }
    requires leaders { (i : ℕ) → i < vec_len order.now.states →
        slice_index merged.now.leaders.items (slice_index order.now.states.items i)
        < size table.now }
    ensures len { IfOk result (λ v. vec_len v ≡ vec_len order.now.states) }
    ensures marks { IfOk result (λ v. (i : ℕ) → i < vec_len order.now.states →
        mark_in v.items i ≡ mark table.now
        (slice_index merged.now.leaders.items (slice_index order.now.states.items i))) }
{
    let mut marks = Vec::new(alloc);
    for block in &order.states {
        marks.push(table.mark(merged.leaders[*block]))?;
    }
    Ok(marks)
}

/// A table whose states represent the blocks of another table, with the block of each state.
#[derive(Drop)]
pub struct Numbering {
    pub table: Table,
    /// For each state of `table`, the block that it represents.
    pub states: Vec<usize>,
}

/// Returns the table whose states are the blocks that can be reached from the block of the state
/// `root`, in breadth-first order.
///
/// # Errors
///
/// Returns `AllocError` if memory runs out.
pub fn number(
    alloc: Global,
    table: &Table,
    merged: &Partition,
    root: usize,
) -> Result<Numbering, AllocError>
    requires root_in { root < size table.now }
    requires len { vec_len merged.now.blocks.of ≡ size table.now }
    requires within { (s : ℕ) → s < size table.now →
        slice_index merged.now.blocks.of.items s < vec_len merged.now.leaders }
    requires leaders { AreLeaders (size table.now) (slice_index merged.now.blocks.of.items)
        (slice_index merged.now.leaders.items) }
    ensures { IfOk result (λ r. IsNumbered table.now (slice_index merged.now.blocks.of.items)
        (slice_index merged.now.leaders.items) root r.states.items r.table) }
{
    let order = breadth_first(alloc, table, merged, root)?;
    let rows = numbered_rows(alloc, table, merged, &order)?;
    let marks = numbered_marks(alloc, table, merged, &order)?;
    let Order { numbers: _, states } = order;
    Ok(Numbering {
        table: Table { marks, rows },
        states,
    })
}
