//! Contains tables of states, with the marks and the row of targets of each state. `logos_graph`
//! builds a table from an automaton, and `reduce` builds further tables from this table.

ghost use Rattle.std.specs.Prelude.{◌≡◌, ℕ, ◌+◌, ◌<◌, ◌^◌, Some, length, vec_len};
ghost use Rattle.logos_reduce.specs.Rows.{IsClosed, target_by};
ghost use Rattle.logos_reduce.specs.RowsView.{rows_of};

use crate::rows::{Row, Rows, WIDTH, target_at};

/// The marks of a state: the leaf whose match ends at the state, and the leaf whose match ends one
/// byte before the state.
#[derive(Clone, Copy, PartialEq, Eq, Drop)]
pub struct StateMarks {
    /// The late mark: the leaf whose match ends one byte before the state, or `None` if there is no
    /// such leaf.
    pub accept: Option<usize>,
    /// The early mark: the leaf whose match ends at the state, or `None` if there is no such leaf.
    pub early: Option<usize>,
}

/// A table of states. Each state has a number, marks and a row of targets.
#[derive(Drop)]
pub struct Table {
    pub(crate) marks: Vec<StateMarks>,
    pub(crate) rows: Rows,
    ghost same_len: { length (rows_of rows) ≡ vec_len marks },
    ghost closed: { IsClosed (vec_len marks) (rows_of rows) },
    ghost few: { vec_len marks + 1 < 2 ^ 32 },
}

impl Table {
    ghost use Rattle.logos_reduce.specs.Table.{mark_in, size, to, mark};

    /// Returns a table with `marks` and `rows`. The state `s` has the marks and the row at the
    /// index `s`.
    ///
    /// The caller must ensure that there are as many marks as rows, that each target is the number
    /// of a state, and that there are fewer than 4,294,967,295 states. To build `rows`, append the
    /// row of each state with `Rows::push`, in the order of the states.
    pub fn new(marks: Vec<StateMarks>, rows: Rows) -> Table
        requires same_len { length (rows_of rows) ≡ vec_len marks }
        requires closed { IsClosed (vec_len marks) (rows_of rows) }
        requires few { vec_len marks + 1 < 2 ^ 32 }
        ensures marks { result.marks ≡ marks }
        ensures rows { result.rows ≡ rows }
    {
        Table { marks, rows }
    }

    /// Returns the number of states.
    pub fn len(&self) -> usize
        ensures { result ≡ size self.now }
    {
        self.marks.len()
    }

    /// Returns the marks of the state `s`.
    pub fn mark(&self, s: usize) -> StateMarks
        requires { s < size self.now }
        ensures { result ≡ mark self.now s }
    {
        self.marks[s]
    }

    /// Returns the late mark of the state `s`, or `None` if the state has no late mark or does not
    /// exist.
    pub(crate) fn accept(&self, s: usize) -> Option<usize>
        ensures { result ≡ (mark self.now s).accept }
    {
        if s < self.marks.len() {
            return self.marks[s].accept;
        }
        None
    }

    /// Returns the row of the state `s`, which contains the targets of `s`.
    pub fn row(&self, s: usize) -> &Row
        requires { s < size self.now }
        ensures row { (k : ℕ) → target_by result.now k ≡ to self.now s k }
        ensures inside { (k t : ℕ) → target_by result.now k ≡ Some t → t < size self.now }
    {
        self.rows.get(s)
    }

    /// Returns the target of the state `s` on the symbol `k`, or `None` if there is no target.
    pub fn target(&self, s: usize, k: usize) -> Option<usize>
        requires state { s < size self.now }
        requires symbol { k < WIDTH }
        ensures { result ≡ to self.now s k }
    {
        target_at(self.row(s), k)
    }
}
