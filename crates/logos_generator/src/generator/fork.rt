//! Makes the fork and the fast loop of a state from its edges. Called by `states` for each state,
//! and by `nodes` for single states.

ghost use Rattle.std.specs.Prelude.{◌≡◌, ◌<◌, ◌≤◌, ◌↔◌, ◌&&◌, ◌==◌, ℕ, true, IfOk, OnOk, OnErr, IsTrue, [], ◌∷◌, length, map, option_map, find, nat_le, slice_index, None};
ghost use Rattle.logos_generator.specs.Imports.{All, flat_map, option_or, ranges_of, has_byte, AreSeparated, comparison_of, condition_of, branch_of, entry_of, fork_of, edge_of, state_number, hit, leads_beside, Extends, IsConditionOf, AreBranchesOf, IsForkOf, IsLoopOf, cost, numbered, loop_uses, condition_uses, branch_uses, fork_uses, fork_tables, jump_table, with_tables, AddsBranch};

use super::node_tables::NodeTables;
use super::tests_by_bits::add_test;
use indexmap::IndexSet;
use logos_byte_class::byte_class::{ByteClass, Comparisons};
use logos_code::code::{Condition, Fork, NOWHERE};
use logos_graph::graph::State;
use std::alloc::{AllocError, Global};

/// Returns the number of the test for the edge from `state` back to itself, or `None` if there is
/// no such edge. Adds the test to `tests` if it is new.
pub(super) fn maybe_impl_fast_loop(
    tests: &mut IndexSet<[bool; 256]>,
    edges: &[(ByteClass, State)],
    state: usize,
) -> Result<Option<usize>, AllocError>
    ensures grows { Extends tests.old.keys tests.new.keys }
    ensures is { IfOk result (IsLoopOf tests.new.keys state (map edge_of edges.now)) }
    ensures numbers { OnOk result (tests.new.keys
        ≡ numbered tests.old.keys (loop_uses state (map edge_of edges.now))) }
    ensures error { OnErr result (tests.new.keys ≡ tests.old.keys) }
{
    match edge_back(edges, state) {
        Some(class) => Ok(Some(add_test(tests, class)?)),
        None => Ok(None),
    }
}

/// Returns the bytes of the first edge that leads back to `state`, or `None` if there is no such
/// edge.
fn edge_back<'e>(edges: &'e [(ByteClass, State)], state: usize) -> Option<&'e ByteClass>
    ensures { option_map (λ class. ranges_of class.now) result
        ≡ option_map (λ edge. edge.0) (find (λ edge. edge.1 == state) (map edge_of edges.now)) }
{
    for edge in edges {
        if edge.1.index() == state {
            return Some(&edge.0);
        }
    }
    None
}

/// Returns the fork of `state`, without the edge from `state` back to itself. The fork is a jump
/// table if there are more than two edges, including the edge back, and conditions otherwise. Adds
/// the tests and the jump table to `tables` if they are new.
pub(super) fn impl_fork(
    alloc: Global,
    tables: &mut NodeTables,
    edges: &[(ByteClass, State)],
    state: usize,
) -> Result<Fork, AllocError>
    requires separated { All (λ edge. AreSeparated (ranges_of edge.0)) edges.now }
    requires targets { All (λ edge. state_number edge.1 < NOWHERE) edges.now }
    ensures tests { Extends tables.old.tests.keys tables.new.tests.keys }
    ensures jumps { Extends tables.old.jumps.keys tables.new.jumps.keys }
    ensures is { IfOk result (λ fork. IsForkOf tables.new.tests.keys state
        (map edge_of edges.now) (fork_of tables.new.jumps.keys fork)) }
    ensures numbers { OnOk result (tables.new.tests.keys
        ≡ numbered tables.old.tests.keys (fork_uses state (map edge_of edges.now))) }
    ensures tables { OnOk result (tables.new.jumps.keys
        ≡ with_tables tables.old.jumps.keys (fork_tables state (map edge_of edges.now))) }
{
    if edges.len() > 2 {
        let (k, _) = tables.jumps.insert_full(table_of(edges, state))?;
        return Ok(Fork::Table(k));
    }
    Ok(Fork::Conditions(conditions_of(alloc, &mut tables.tests, edges, state)?))
}

/// Returns the jump table of the edges of `state`, without the edge from `state` back to itself.
fn table_of(edges: &[(ByteClass, State)], state: usize) -> [u32; 256]
    requires { All (λ edge. state_number edge.1 < NOWHERE) edges.now }
    ensures long { length result ≡ 256 }
    ensures leads { (b : ℕ) → b < 256 →
        entry_of (slice_index result b) ≡ leads_beside state (map edge_of edges.now) b }
    ensures is { result ≡ jump_table state (map edge_of edges.now) }
{
    let mut table = [NOWHERE; 256];
    for edge in edges {
        fill_edge(&mut table, edge, state);
    }
    table
}

/// Writes the target of an edge to each entry that belongs to a byte of the edge and has no target
/// yet. Does nothing if the edge leads back to `state`.
fn fill_edge(table: &mut [u32; 256], edge: &(ByteClass, State), state: usize)
    requires { state_number edge.now.1 < NOWHERE }
    ensures { (b : ℕ) → b < 256 → entry_of (slice_index table.new b) ≡ option_or
        (entry_of (slice_index table.old b)) (leads_beside state (edge_of edge.now ∷ []) b) }
{
    if edge.1.index() != state {
        fill_class(table, &edge.0, edge.1.index() as u32);
    }
}

/// Writes `target` to each entry that belongs to a byte of the class and has no target yet.
fn fill_class(table: &mut [u32; 256], class: &ByteClass, target: u32)
    requires { target < NOWHERE }
    ensures { (b : ℕ) → b < 256 → entry_of (slice_index table.new b)
        ≡ hit (has_byte class.now b) target (entry_of (slice_index table.old b)) }
{
    for range in &class.ranges {
        fill_range(table, *range.start(), *range.end(), target);
    }
}

/// Writes `target` to each entry that belongs to a byte from `first` to `last` and has no target
/// yet.
fn fill_range(table: &mut [u32; 256], first: u8, last: u8, target: u32)
    requires { target < NOWHERE }
    ensures { (b : ℕ) → b < 256 → entry_of (slice_index table.new b)
        ≡ hit (nat_le first b && nat_le b last) target (entry_of (slice_index table.old b)) }
{
    for b in first as usize..last as usize + 1 {
        table[b] = filled(table[b], target);
    }
}

/// Returns `entry`, or `target` if `entry` leads nowhere.
fn filled(entry: u32, target: u32) -> u32
    requires { target < NOWHERE }
    ensures { entry_of result ≡ hit true target (entry_of entry) }
{
    if entry == NOWHERE { target } else { entry }
}

/// Returns the conditions and targets of the edges of `state`, without the edge from `state` back
/// to itself. Adds the tests to `tests` if they are new.
fn conditions_of(
    alloc: Global,
    tests: &mut IndexSet<[bool; 256]>,
    edges: &[(ByteClass, State)],
    state: usize,
) -> Result<Vec<(Condition, usize)>, AllocError>
    requires { All (λ edge. AreSeparated (ranges_of edge.0)) edges.now }
    ensures grows { Extends tests.old.keys tests.new.keys }
    ensures are { IfOk result (λ made.
        AreBranchesOf tests.new.keys state (map edge_of edges.now) (map branch_of made.items)) }
    ensures numbers { OnOk result (tests.new.keys
        ≡ numbered tests.old.keys (flat_map (branch_uses state) (map edge_of edges.now))) }
{
    let mut made = Vec::new(alloc);
    for edge in edges {
        add_branch(alloc, tests, &mut made, edge, state)?;
    }
    Ok(made)
}

/// Appends the condition and the target of an edge to `made`, unless the edge leads back to
/// `state`. Adds the test of the condition to `tests` if it is new.
fn add_branch(
    alloc: Global,
    tests: &mut IndexSet<[bool; 256]>,
    made: &mut Vec<(Condition, usize)>,
    edge: &(ByteClass, State),
    state: usize,
) -> Result<(), AllocError>
    requires { AreSeparated (ranges_of edge.now.0) }
    ensures grows { Extends tests.old.keys tests.new.keys }
    ensures adds { OnOk result (AddsBranch
        tests.new.keys state edge.now made.old.items made.new.items) }
    ensures numbers { OnOk result (tests.new.keys
        ≡ numbered tests.old.keys (branch_uses state (edge_of edge.now))) }
{
    if edge.1.index() == state {
        return Ok(());
    }
    let condition = condition_of(alloc, tests, &edge.0)?;
    made.push((condition, edge.1.index()))?;
    Ok(())
}

/// Returns the condition for the bytes of a class: comparisons, or a test by bits if the
/// comparisons cost more than two operations. Adds the test to `tests` if it is new.
fn condition_of(
    alloc: Global,
    tests: &mut IndexSet<[bool; 256]>,
    class: &ByteClass,
) -> Result<Condition, AllocError>
    requires { AreSeparated (ranges_of class.now) }
    ensures grows { Extends tests.old.keys tests.new.keys }
    ensures is { IfOk result (λ condition.
        IsConditionOf tests.new.keys (ranges_of class.now) (condition_of condition)) }
    ensures numbers { OnOk result (tests.new.keys
        ≡ numbered tests.old.keys (condition_uses (ranges_of class.now))) }
{
    let Ok(comparisons) = class.impl_with_cmp(alloc) else {
        return Err(AllocError);
    };
    if are_cheap(&comparisons) {
        return Ok(Condition::Comparisons(comparisons));
    }
    Ok(Condition::Test(add_test(tests, class)?))
}

/// Returns whether the comparisons cost at most two operations.
fn are_cheap(comparisons: &[Comparisons]) -> bool
    ensures { result ≡ nat_le (cost (map comparison_of comparisons.now)) 2 }
{
    let mut left: usize = 2;
    for comparison in comparisons {
        let operations = comparison.count_ops();
        if operations > left {
            return false;
        }
        left -= operations;
    }
    true
}
