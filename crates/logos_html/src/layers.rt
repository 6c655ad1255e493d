//! Assigns each state of a graph to a cell of a drawing. The column of a state is its distance from
//! the root. Used by `drawing`.

use logos_graph::graph::StateData;
use std::alloc::{AllocError, Global};
use std::cmp::max;

/// The column of a state that has not been reached.
const UNREACHED: usize = usize::MAX;

/// The cell of a state: its column, and its row in that column.
#[derive(Clone, Copy)]
pub(crate) struct Cell {
    pub(crate) column: usize,
    pub(crate) row: usize,
}

/// The cells of all states of a graph, and the numbers of columns and rows.
#[derive(Drop)]
pub(crate) struct Layers {
    pub(crate) cells: Vec<Cell>,
    pub(crate) columns: usize,
    pub(crate) rows: usize,
}

/// Returns the cells of all states of a graph, in the order of the states.
///
/// # Errors
///
/// Returns `AllocError` if memory runs out.
pub(crate) fn layers_of(alloc: Global, states: &[&StateData]) -> Result<Layers, AllocError> {
    let columns = columns_of(alloc, states)?;
    let mut filled = vec![in alloc; 0; states.len()]?;
    let mut layers = Layers {
        cells: Vec::new(alloc),
        columns: 0,
        rows: 0,
    };
    for column in &columns {
        let row = next_row(&mut filled, *column);
        add_cell(&mut layers, *column, row)?;
    }
    Ok(layers)
}

/// Returns the next free row of a column, and counts the row as filled. `filled` is the number of
/// filled rows of each column. Returns 0 for a column beyond `filled`.
fn next_row(filled: &mut Vec<usize>, column: usize) -> usize {
    if column < filled.len() {
        let row = filled[column];
        filled[column] = row.saturating_add(1);
        return row;
    }
    0
}

/// Adds the cell of the next state to `layers`. Increases the numbers of columns and rows in
/// `layers` if the cell is outside of these columns and rows.
fn add_cell(layers: &mut Layers, column: usize, row: usize) -> Result<(), AllocError> {
    layers.cells.push(Cell { column, row })?;
    layers.columns = max(layers.columns, column.saturating_add(1));
    layers.rows = max(layers.rows, row.saturating_add(1));
    Ok(())
}

/// Returns the distance of each state from the root, in edges, or `UNREACHED` for a state that
/// cannot be reached.
fn columns_of(alloc: Global, states: &[&StateData]) -> Result<Vec<usize>, AllocError> {
    let mut columns = vec![in alloc; UNREACHED; states.len()]?;
    let mut reached = Vec::new(alloc);
    reach(&mut columns, &mut reached, 0, 0)?;
    for at in 0..states.len() {
        reach_next(&mut columns, &mut reached, states, at)?;
    }
    Ok(columns)
}

/// Calls `reach` for each state to which an edge leads from the state at the index `at` of
/// `reached`. Changes nothing if there is no such index.
fn reach_next(
    columns: &mut Vec<usize>,
    reached: &mut Vec<usize>,
    states: &[&StateData],
    at: usize,
) -> Result<(), AllocError> {
    let Some(from) = number_at(reached, at) else {
        return Ok(());
    };
    let Some(state) = states.get(from) else {
        return Ok(());
    };
    let next = column_at(columns, from).saturating_add(1);
    for edge in &state.normal {
        reach(columns, reached, edge.1.index(), next)?;
    }
    match state.eoi {
        Some(target) => reach(columns, reached, target.index(), next),
        None => Ok(()),
    }
}

/// Returns the number at the index `at`, or `None` if there is no such index.
fn number_at(numbers: &[usize], at: usize) -> Option<usize> {
    match numbers.get(at) {
        Some(number) => Some(*number),
        None => None,
    }
}

/// Returns the column of the state with the number `state`, or 0 if there is no such state.
fn column_at(columns: &[usize], state: usize) -> usize {
    match columns.get(state) {
        Some(column) => *column,
        None => 0,
    }
}

/// Appends a state to `reached` and records its column, unless the state was reached before or does
/// not exist.
fn reach(
    columns: &mut Vec<usize>,
    reached: &mut Vec<usize>,
    state: usize,
    column: usize,
) -> Result<(), AllocError> {
    if state >= columns.len() {
        return Ok(());
    }
    if columns[state] != UNREACHED {
        return Ok(());
    }
    reached.push(state)?;
    columns[state] = column;
    Ok(())
}
