//! Reduces a table to the smallest table that records the same matches. `logos_graph` calls
//! `reduce` with the table of an automaton.

ghost use Rattle.std.specs.Prelude.{◌<◌, IfOk};
ghost use Rattle.logos_reduce.specs.Views.{IsRaw, IsReductionOf, IsLeast, IsInOrder, IsSpareless, size, YieldsEvidence};

use crate::merge::blocks::{Blocks, Split};
use crate::merge::{Partition, merge};
use crate::number::{Numbering, number};
use crate::prune::prune;
use crate::settle::settle;
use crate::table::Table;
use std::alloc::{AllocError, Global};

/// A reduced table, with the splits that separated its states.
#[derive(Drop)]
pub struct Reduction {
    /// The reduced table. Its states are numbered by first visit from the root, which is state 0.
    pub table: Table,
    /// For each state of `table`, the block that it represents, as an index of `splits`.
    pub blocks: Vec<usize>,
    /// For each block, the split that separated it from a block with a lower number.
    pub splits: Vec<Split>,
}

/// Returns the smallest table that records the same matches as `table` after the same bytes, from
/// the state `root` on.
///
/// Early marks are set, and the late marks that the early marks make redundant are removed. Edges
/// to states that have no mark and lead to no state with a mark are removed. Equivalent states are
/// merged. The states that can be reached from the root are numbered by first visit.
///
/// Suppose that each state of `table` can be reached, that the root has no mark, that all marks are
/// late, and that no state after the end of the input leads to a mark. Then each state of the
/// result is needed, and `splits` yields bytes that distinguish any two states.
///
/// # Errors
///
/// Returns `AllocError` if memory runs out.
pub fn reduce(alloc: Global, table: Table, root: usize) -> Result<Reduction, AllocError>
    requires { root < size table }
    ensures made { IfOk result (IsReductionOf table root) }
    ensures least { IfOk result (λ r. IsLeast r.table) }
    ensures in_order { IfOk result (λ r. IsInOrder r.table) }
    ensures spareless { IfOk result (λ r. IsRaw table root → IsSpareless r.table) }
    ensures evidence { IfOk result (λ r. IsRaw table root → YieldsEvidence r) }
{
    let settled = settle(alloc, table)?;
    let pruned = prune(alloc, settled)?;
    let merged = merge(alloc, &pruned)?;
    let numbered = number(alloc, &pruned, &merged, root)?;
    let Partition { blocks, leaders: _ } = merged;
    let Blocks { of: _, splits } = blocks;
    let Numbering { table, states } = numbered;
    Ok(Reduction {
        table,
        blocks: states,
        splits,
    })
}
