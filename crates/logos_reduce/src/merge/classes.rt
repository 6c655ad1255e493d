//! Groups states with equal marks and equal rows into classes, so that classes are merged instead
//! of states. `merge` calls `classes_of`, and then `class_table` if merging classes saves time.

ghost use Rattle.std.specs.Prelude.{◌≡◌, ℕ, ◌+◌, ◌<◌, ◌≤◌, ◌^◌, Some, IfOk, length, vec_len, slice_index, option_map};
ghost use Rattle.logos_reduce.specs.Views.{target_by, target_in, target_of, target_block, rows_of, size, mark, mark_in, AreClasses, IsClassTable};
ghost use Rattle.logos_reduce.specs.inside.Classes as inside;

use crate::merge::blocks::{leaders_of, tagged};
use crate::merge::refine::block_of;
use crate::rows::{Row, Rows, WIDTH, fill_run, run_end, target_at};
use crate::table::{StateMarks, Table};
use indexmap::IndexSet;
use std::alloc::{AllocError, Global};

/// Classes of states. The states of a class have equal marks and equal rows.
#[derive(Drop)]
pub struct Classes {
    /// For each state, its class.
    pub of: Vec<usize>,
    /// The number of classes.
    pub count: usize,
    ghost within: { (s : ℕ) → s < vec_len of → slice_index of.items s < count },
    ghost few: { count ≤ vec_len of },
}

/// Returns a key for the state `s`: the index of its row among the distinct rows, and its marks.
fn class_key(table: &Table, s: usize) -> [usize; 5]
    requires { s < size table.now }
    ensures { result ≡ inside.class_key table.now s }
{
    let mark = table.mark(s);
    let (accepts, accept) = tagged(mark.accept);
    let (is_early, early) = tagged(mark.early);
    [table.rows.slot(s), accepts, accept, is_early, early]
}

/// Returns the classes of the states of a table.
///
/// # Errors
///
/// Returns `AllocError` if memory runs out.
pub fn classes_of(alloc: Global, table: &Table) -> Result<Classes, AllocError>
    ensures len { IfOk result (λ c. vec_len c.of ≡ size table.now) }
    ensures classes { IfOk result (λ c. AreClasses table.now (slice_index c.of.items)) }
{
    let mut keys = IndexSet::new(alloc);
    let mut of = Vec::new(alloc);
    for s in 0..table.len() {
        let (class, _) = keys.insert_full(class_key(table, s))?;
        of.push(class)?;
    }
    Ok(Classes {
        of,
        count: keys.len(),
    })
}

/// Returns `row` with each target replaced by its class. `of` contains the class of each state.
fn class_row(row: &Row, of: &Vec<usize>) -> Row
    requires inside { (k t : ℕ) → target_by row.now k ≡ Some t → t < vec_len of.now }
    requires few { (s : ℕ) → s < vec_len of.now → slice_index of.now.items s + 1 < 2 ^ 32 }
    ensures { (k : ℕ) → target_by result k
        ≡ option_map (slice_index of.now.items) (target_by row.now k) }
{
    let mut made = [0; WIDTH];
    let mut k = 0;
    while k < WIDTH {
        let end = run_end(row, k);
        fill_run(&mut made, k, end, class_entry(target_at(row, k), of));
        k = end;
    }
    made
}

/// Returns the row entry for the class of `target`: one more than the number of the class, or 0 if
/// `target` is `None`. `of` contains the class of each state.
fn class_entry(target: Option<usize>, of: &Vec<usize>) -> u32
    requires inside { (t : ℕ) → target ≡ Some t → t < vec_len of.now }
    requires few { (s : ℕ) → s < vec_len of.now → slice_index of.now.items s + 1 < 2 ^ 32 }
    ensures { target_of result ≡ option_map (slice_index of.now.items) target }
{
    match block_of(target, of) {
        Some(class) => class as u32 + 1,
        None => 0,
    }
}

/// Returns the rows of the classes. On each symbol, a class leads to the class of its leader's
/// target. `of` contains the class of each state, and `leaders` contains a state of each class.
fn class_rows(
    alloc: Global,
    table: &Table,
    of: &Vec<usize>,
    leaders: &Vec<usize>,
) -> Result<Rows, AllocError>
    requires len { vec_len of.now ≡ size table.now }
    requires few { (s : ℕ) → s < vec_len of.now → slice_index of.now.items s + 1 < 2 ^ 32 }
    requires leaders { (c : ℕ) → c < vec_len leaders.now →
        slice_index leaders.now.items c < size table.now }
    ensures len { IfOk result (λ r. length (rows_of r) ≡ vec_len leaders.now) }
    ensures rows { IfOk result (λ r. (c k : ℕ) → c < vec_len leaders.now →
        target_in (rows_of r) c k
        ≡ target_block table.now (slice_index of.now.items) (slice_index leaders.now.items c) k) }
{
    let mut rows = Rows::new(alloc);
    for leader in leaders {
        rows.push(&class_row(table.row(*leader), of))?;
    }
    Ok(rows)
}

/// Returns the marks of the classes. Each class has the marks of its leader.
fn class_marks(
    alloc: Global,
    table: &Table,
    leaders: &Vec<usize>,
) -> Result<Vec<StateMarks>, AllocError>
    requires leaders { (c : ℕ) → c < vec_len leaders.now →
        slice_index leaders.now.items c < size table.now }
    ensures len { IfOk result (λ v. vec_len v ≡ vec_len leaders.now) }
    ensures marks { IfOk result (λ v. (c : ℕ) → c < vec_len leaders.now →
        mark_in v.items c ≡ mark table.now (slice_index leaders.now.items c)) }
{
    let mut marks = Vec::new(alloc);
    for leader in leaders {
        marks.push(table.mark(*leader))?;
    }
    Ok(marks)
}

/// Returns the table whose states are the classes of the states of `table`.
///
/// # Errors
///
/// Returns `AllocError` if memory runs out.
pub fn class_table(alloc: Global, table: &Table, classes: &Classes) -> Result<Table, AllocError>
    requires len { vec_len classes.now.of ≡ size table.now }
    requires classes { AreClasses table.now (slice_index classes.now.of.items) }
    ensures size { IfOk result (λ small. size small ≡ classes.now.count) }
    ensures table { IfOk result (IsClassTable table.now (slice_index classes.now.of.items)) }
{
    let leaders = leaders_of(alloc, &classes.of, classes.count)?;
    let rows = class_rows(alloc, table, &classes.of, &leaders)?;
    let marks = class_marks(alloc, table, &leaders)?;
    Ok(Table { marks, rows })
}
