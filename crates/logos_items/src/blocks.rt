//! Writes blocks of text when they are full. Used by `inputs`, `lines`, `records` and `streams`.

ghost use Rattle.std.specs.Prelude.{IfErr};
ghost use Rattle.logos_items.specs.Imports.{IsNoMisuse};

use logos_host::{Failure, write_full};
use std::io::Write;

/// The minimum length of a full block, in bytes.
pub(crate) const BLOCK: usize = 65_536;

/// Writes and empties a block if it has at least `BLOCK` bytes, and changes nothing otherwise.
///
/// # Errors
///
/// Returns `Output` or `Closed` if writing fails. Then a part of the block may have been written.
#[inline(always)]
pub(crate) fn write_if_full<O: Write>(
    block: &mut Vec<u8>,
    out: &mut O,
) -> Result<(), Failure<'static>>
    ensures { IfErr result IsNoMisuse }
{
    match write_full(block, BLOCK, out) {
        Ok(()) => Ok(()),
        Err(error) => Err(Failure::of_output(&error)),
    }
}
