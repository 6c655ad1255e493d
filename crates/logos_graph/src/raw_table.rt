//! Makes the table of an automaton, with only late marks. Called by `graph::construction`, which
//! reduces the table.

ghost use Rattle.std.specs.Prelude.{◌≡◌, ℕ, ◌+◌, ◌<◌, ◌^◌, Some, IfOk, IfSome, List, [], length, vec_len, slice_index, slice_get};
ghost use Rattle.logos_graph.specs.Imports.{All, dfa_of, AreFaults, NamesLeaves, priority_of, first_of, best_with, IsRawMark, IsMarkOf, AreRawRows, rules_of, IsTotal, ReadsOneByteLate, MarksOneByteLate, size, mark, type_of, edges, mark_in, IsRaw, target_by, IsClosed, rows_of};

use logos_automaton::dfa::parts::{end_at, leaves_at, row_at, state_count};
use logos_automaton::dfa::{Dfa, Row as ByteRow};
use logos_pattern::leaf::Leaf;
use logos_reduce::rows::{Row, Rows};
use logos_reduce::table::{StateMarks, Table};
use std::alloc::{AllocError, Global};

/// Returns the priority of the leaf with the number `leaf`, or 0 if there is no such leaf.
fn priority_at(leaves: &[Leaf<'_>], leaf: usize) -> usize
    ensures { result ≡ priority_of (rules_of leaves.now) leaf }
{
    match leaves.get(leaf) {
        Some(leaf) => leaf.priority,
        None => 0,
    }
}

/// Returns the leaf with the higher priority, `best` or `leaf`. Returns `best` if their priorities
/// are equal, and `leaf` if `best` is `None`.
fn best_with(leaves: &[Leaf<'_>], best: Option<usize>, leaf: usize) -> usize
    ensures { result ≡ best_with (rules_of leaves.now) (length leaves.now) best leaf }
{
    match best {
        None => leaf,
        Some(best) => {
            if priority_at(leaves, best) < priority_at(leaves, leaf) {
                leaf
            } else {
                best
            }
        }
    }
}

/// Returns the first leaf with the highest priority among `listed`, or `None` if no leaf is listed.
fn first_leaf(leaves: &[Leaf<'_>], listed: &[usize]) -> Option<usize>
    ensures { result ≡ first_of (rules_of leaves.now) listed.now }
{
    let mut best = None;
    for leaf in listed {
        best = Some(best_with(leaves, best, *leaf));
    }
    best
}

/// Returns the late mark of a state that lists the leaves `listed`. The mark is the first leaf with
/// the highest priority, or `None` if no leaf is listed.
fn raw_mark(leaves: &[Leaf<'_>], listed: &[usize]) -> StateMarks
    ensures { IsRawMark (rules_of leaves.now) (length leaves.now) listed.now result }
{
    let accept = match first_leaf(leaves, listed) {
        Some(leaf) if leaf < leaves.len() => Some(leaf),
        _ => None,
    };
    StateMarks {
        accept,
        early: None,
    }
}

/// Returns the marks of all states of the automaton, in the order of the states.
fn raw_marks(alloc: Global, leaves: &[Leaf<'_>], dfa: &Dfa) -> Result<Vec<StateMarks>, AllocError>
    ensures len { IfOk result (λ marks. vec_len marks ≡ length (dfa_of dfa.now).matches) }
    ensures marks { IfOk result (λ marks. (s : ℕ) → s < length (dfa_of dfa.now).matches →
        IsMarkOf (rules_of leaves.now) (length leaves.now) (dfa_of dfa.now) s
        (mark_in marks.items s)) }
{
    let mut marks = Vec::new(alloc);
    for state in 0..state_count(dfa) {
        marks.push(raw_mark(leaves, leaves_at(dfa, state)))?;
    }
    Ok(marks)
}

/// Returns the row of a state with the targets `row` for bytes and `end` for the end of the input.
fn raw_row(row: &ByteRow, end: u32) -> Row
    requires few { (k : ℕ) → k < 256 → slice_index row.now k + 1 < 2 ^ 32 }
    requires end { end + 1 < 2 ^ 32 }
    ensures bytes { (k : ℕ) → k < 256 → target_by result k ≡ Some (slice_index row.now k) }
    ensures end { target_by result 256 ≡ Some end }
{
    let mut made = [end + 1; 257];
    for k in 0..256 {
        made[k] = row[k] as u32 + 1;
    }
    made
}

/// Returns the rows of all states of the automaton, in the order of the states.
fn raw_rows(alloc: Global, dfa: &Dfa) -> Result<Rows, AllocError>
    requires total { IsTotal (dfa_of dfa.now) }
    requires few { length (dfa_of dfa.now).matches + 1 < 2 ^ 32 }
    ensures { IfOk result (λ rows.
        AreRawRows (dfa_of dfa.now) (rows_of rows) (length (dfa_of dfa.now).matches)) }
{
    let mut rows = Rows::new(alloc);
    for state in 0..state_count(dfa) {
        rows.push(&raw_row(row_at(dfa, state), end_at(dfa, state)))?;
    }
    Ok(rows)
}

/// Returns the table of the automaton. Each state that lists leaves marks the first listed leaf
/// with the highest priority. The states keep their numbers, and the first state is the start.
pub(crate) fn raw_table(alloc: Global, leaves: &[Leaf<'_>], dfa: &Dfa) -> Result<Table, AllocError>
    requires total { IsTotal (dfa_of dfa.now) }
    requires few { length (dfa_of dfa.now).matches + 1 < 2 ^ 32 }
    ensures raw { IfOk result (λ table. IsRaw table 0) }
    ensures late { IfOk result (λ table. ReadsOneByteLate (rules_of leaves.now) (dfa_of dfa.now) →
        AreFaults (rules_of leaves.now) [] →
        MarksOneByteLate (rules_of leaves.now) (edges table) 0) }
    ensures named { IfOk result (λ table. (s : ℕ) → s < size table →
        NamesLeaves (length leaves.now) (type_of (mark table s))) }
    ensures size { IfOk result (λ table. size table ≡ length (dfa_of dfa.now).matches) }
{
    let marks = raw_marks(alloc, leaves, dfa)?;
    let rows = raw_rows(alloc, dfa)?;
    Ok(Table::new(marks, rows))
}
