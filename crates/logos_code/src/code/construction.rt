//! `make_code` constructs a code from its parts. Only the generator of codes calls `make_code`, so
//! the module `code` does not re-export the function.

ghost use Rattle.std.specs.Prelude.{◌≡◌, IfOk};
ghost use Rattle.logos_code.specs.Views.{code_of, IsValid, IsWhole};

use super::last_marks::{LastMark, last_marks_of};
use super::masks::masks_of;
use super::rows::{first_row, rows_of};
use super::signs::{Sign, signs_of};
use super::uses::{LeafUse, uses_of};
use super::{Code, CodeParts};
use std::alloc::{AllocError, Global};

/// The tables that are computed from the parts of a code.
#[derive(Drop)]
struct CodeTables {
    /// The entry of each byte as the first byte of a match attempt.
    first: [u32; 256],
    rows: Vec<u32>,
    masks: Vec<[u8; 32]>,
    signs: Vec<Sign>,
    last_marks: Vec<LastMark>,
    uses: Vec<LeafUse>,
}

/// Returns the tables of a code with the parts `parts`.
fn tables_of(alloc: Global, parts: &CodeParts<'_>) -> Result<CodeTables, AllocError>
    requires { IsValid parts.now }
    ensures { IfOk result (λ tables. IsWhole parts.now tables.first tables.rows.items
        tables.masks.items tables.signs.items tables.last_marks.items tables.uses.items) }
{
    let rows = rows_of(alloc, parts)?;
    let masks = masks_of(alloc, parts)?;
    let signs = signs_of(alloc, parts)?;
    let last_marks = last_marks_of(alloc, parts)?;
    let uses = uses_of(alloc, parts)?;
    let first = first_row(&rows, parts.root);
    Ok(CodeTables {
        first,
        rows,
        masks,
        signs,
        last_marks,
        uses,
    })
}

/// Returns the code with the parts `parts`. All states, tables, tests and leaves to which the parts
/// refer must exist, and no two jump tables may be equal.
///
/// # Errors
///
/// Returns `AllocError` if memory runs out.
pub fn make_code<'s>(alloc: Global, parts: CodeParts<'s>) -> Result<Code<'s>, AllocError>
    requires { IsValid parts }
    ensures { IfOk result (λ code. code ≡ code_of parts.entry) }
{
    match tables_of(alloc, &parts) {
        Ok(tables) => {
            let CodeTables {
                first,
                rows,
                masks,
                signs,
                last_marks,
                uses,
            } = tables;
            Ok(Code {
                parts,
                first,
                rows,
                masks,
                signs,
                last_marks,
                uses,
            })
        }
        Err(error) => Err(error),
    }
}
