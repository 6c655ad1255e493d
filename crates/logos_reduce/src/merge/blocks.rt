//! Contains blocks of states. `merge` begins with one block for each group of states with equal
//! marks, and then splits these blocks.

ghost use Rattle.std.specs.Prelude.{None, ◌≡◌, ◌≢◌, ℕ, ◌+◌, ◌<◌, ◌≤◌, IfOk, length, vec_len, slice_index, slice_index_or};
ghost use Rattle.logos_reduce.specs.Merge.{AreLeaders, IsSound, split_at};
ghost use Rattle.logos_reduce.specs.inside.Merge as inside;
ghost use Rattle.logos_reduce.specs.Table.{size};

use crate::table::{StateMarks, Table};
use indexmap::IndexSet;
use std::alloc::{AllocError, Global};

/// The separation of a new block from another block, by a symbol or by the marks of states.
#[derive(Clone, Copy, Drop)]
pub struct Split {
    /// The number of the other block, which is lower than the number of the new block.
    pub parent: usize,
    /// The symbol on which states of the two blocks lead to different blocks, or `None` if their
    /// marks differ.
    pub symbol: Option<usize>,
}

/// The block of each state, and the splits that made the blocks.
#[derive(Drop)]
pub struct Blocks {
    /// For each state, its block.
    pub of: Vec<usize>,
    /// For each block, the split that separated it from a block with a lower number. The split of
    /// block 0 has no meaning.
    pub splits: Vec<Split>,
    ghost within: { (s : ℕ) → s < vec_len of → slice_index of.items s < vec_len splits },
}

/// Returns a key of `mark`. Two marks have equal keys if and only if the marks are equal.
fn key_of(mark: StateMarks) -> [usize; 4]
    ensures { result ≡ inside.key_of mark }
{
    let (accepts, accept) = tagged(mark.accept);
    let (is_early, early) = tagged(mark.early);
    [accepts, accept, is_early, early]
}

/// Returns `(1, leaf)`, or `(0, 0)` if `leaf` is `None`.
pub fn tagged(leaf: Option<usize>) -> (usize, usize)
    ensures { result ≡ inside.tagged leaf }
{
    match leaf {
        Some(leaf) => (1, leaf),
        None => (0, 0),
    }
}

/// Returns `count` splits, one for each block. Each split separates its block from block 0 by the
/// marks of states.
fn parted_by_marks(alloc: Global, count: usize) -> Result<Vec<Split>, AllocError>
    ensures len { IfOk result (λ v. vec_len v ≡ count) }
    ensures splits { IfOk result (λ v. (j : ℕ) →
        split_at v.items j ≡ record { parent = 0; symbol = None }) }
{
    let split = Split {
        parent: 0,
        symbol: None,
    };
    let splits = vec![in alloc; split; count]?;
    Ok(splits)
}

/// Groups the states of a table into blocks. Two states are in the same block if and only if their
/// marks are equal.
///
/// # Errors
///
/// Returns `AllocError` if memory runs out.
pub fn by_marks(alloc: Global, table: &Table) -> Result<Blocks, AllocError>
    ensures len { IfOk result (λ b. vec_len b.of ≡ size table.now) }
    ensures sound { IfOk result (λ b. IsSound table.now b.splits.items (slice_index b.of.items)) }
{
    let mut keys = IndexSet::new(alloc);
    let mut of = Vec::new(alloc);
    for s in 0..table.len() {
        let (block, _) = keys.insert_full(key_of(table.mark(s)))?;
        of.push(block)?;
    }
    let splits = parted_by_marks(alloc, keys.len())?;
    Ok(Blocks { of, splits })
}

/// Returns, for each of the `count` blocks, one of its states, or 0 if the block has no states.
/// `of` contains the block of each state.
///
/// # Errors
///
/// Returns `AllocError` if memory runs out.
pub fn leaders_of(alloc: Global, of: &Vec<usize>, count: usize) -> Result<Vec<usize>, AllocError>
    requires { (s : ℕ) → s < vec_len of.now → slice_index of.now.items s < count }
    ensures len { IfOk result (λ v. vec_len v ≡ count) }
    ensures leaders { IfOk result
        (λ v. AreLeaders (vec_len of.now) (slice_index of.now.items) (slice_index v.items)) }
    ensures inside { IfOk result (λ v. 0 < vec_len of.now →
        (j : ℕ) → slice_index v.items j < vec_len of.now) }
{
    let mut leaders = vec![in alloc; 0; count]?;
    for s in 0..of.len() {
        leaders[of[s]] = s;
    }
    Ok(leaders)
}
