//! Functions that compute the lengths of the arrays that the runtime makes from the tables. `lexer`
//! calls them, and prints these lengths. The compiler rejects wrong lengths.

use crate::made::PrintedTables;
use crate::steps::Steps;

/// The maximum number of states for which the runtime's rows have an entry for each byte.
const FEW: usize = 300;

/// The number of columns of a row that has an entry for each byte.
const BYTES: usize = 272;

/// The maximum total number of row entries for which folded tables have rows.
const MOST_ENTRIES: usize = 1048575;

/// The maximum number of leaves for which folded tables have rows.
const MOST_LEAVES: usize = 1023;

/// The number of entries of folded tables that do not belong to rows.
const BESIDE: usize = 1024;

/// Returns the number of columns of a row. A row has a column for each byte if there are at most
/// `FEW` states. Otherwise the row has a column for each class, and `more` additional columns.
fn columns(tables: &PrintedTables, more: usize) -> usize {
    if tables.rows.slots.len() <= FEW {
        BYTES
    } else {
        tables.classes.symbols.len().saturating_add(more)
    }
}

/// Returns the number of entries of all rows. `more` is the number of additional columns of a row
/// that has a column for each class.
fn row_entries(tables: &PrintedTables, more: usize) -> usize {
    tables
        .rows
        .slots
        .len()
        .saturating_mul(columns(tables, more))
}

/// Returns the number of entries in the constant `ROWS`, which the loop of the runtime reads.
pub(crate) fn entry_count(tables: &PrintedTables) -> usize {
    row_entries(tables, 0).saturating_add(256)
}

/// Returns the number of entries in the folded tables of a lexer with `leaves` leaves. The scans of
/// the runtime read these tables. The tables have no rows if the limits `MOST_ENTRIES` and
/// `MOST_LEAVES` do not allow rows.
pub(crate) fn folded_count(tables: &PrintedTables, leaves: usize) -> usize {
    let entries = row_entries(tables, 1);
    if (entries > MOST_ENTRIES) | (leaves > MOST_LEAVES) {
        return BESIDE + 1;
    }
    power_of_two(entries).saturating_add(BESIDE)
}

/// Returns the number of masks. This is the least power of two that is not less than the number of
/// distinct rows in which at least one byte does not change the state.
pub(crate) fn mask_count(tables: &PrintedTables) -> usize {
    power_of_two(loop_count(tables.rows.distinct.as_slice()))
}

/// Returns the number of rows in which at least one byte does not change the state.
fn loop_count(rows: &[Steps]) -> usize {
    let mut count: usize = 0;
    for row in rows {
        if row.contains(&1) {
            count = count.saturating_add(1);
        }
    }
    count
}

/// Returns the least power of two that is not less than `number`, or `usize::MAX` if this power
/// does not fit `usize`.
fn power_of_two(number: usize) -> usize {
    number.checked_next_power_of_two().unwrap_or(usize::MAX)
}
