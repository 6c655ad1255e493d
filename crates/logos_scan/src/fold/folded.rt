//! Folds the rows of a code. `choice` calls `Folded::new` for each input that is not too short for
//! a scan.

ghost use Rattle.std.specs.Prelude.{◌≡◌, IfOk, IfSome, None, length};
ghost use Rattle.logos_scan.specs.fold.Imports.{AreFolded, IsFew, IsMany};

use crate::fold::entries::{ENTRIES, row_of};
use logos_code::code::Code;
use logos_code::code::rows::WIDTH;
use std::alloc::{AllocError, Global};
use std::marker::Model;

/// A code with its folded rows. The module `walk` describes the entries of folded rows.
#[derive(Drop)]
pub struct Folded<'c, 's> {
    code: &'c Code<'s>,
    rows: Vec<u32>,
}

impl<'c, 's> Model for Folded<'c, 's> {
    ghost use Rattle.std.specs.Prelude.{[]};
    ghost use Rattle.logos_scan.specs.fold.Imports.{codes, named, AreFolded, FoldedValue};
    ghost use Rattle.logos_type.specs.contracts.type_expr.TypePart as p;

    ghost Value = { FoldedValue };

    ghost coded = { Prim.hlevel (codes, (p.the_row (record { mir = named 1; lft = [] })).coded) };

    ghost view = { λ f. record { code = f.code.now; rows = f.rows.items } };

    ghost invariant = { λ f. AreFolded f.code.now f.rows.items };
}

impl<'c, 's> Folded<'c, 's> {
    /// Returns the code with its folded rows. Returns `None` if the code has more than 3,855
    /// states, which folded entries cannot represent.
    ///
    /// # Errors
    ///
    /// Returns `AllocError` if memory runs out.
    pub fn new(alloc: Global, code: &'c Code<'s>) -> Result<Option<Folded<'c, 's>>, AllocError>
        ensures code { IfOk result (λ o. IfSome o (λ folded. folded.code ≡ code.now)) }
        ensures many { IfOk result (λ o. o ≡ None → IsMany code.now) }
    {
        let states = code.parts().states.len();
        if states > ENTRIES / WIDTH {
            return Ok(None);
        }
        let rows = fold_rows(alloc, code, states)?;
        Ok(Some(Folded { code, rows }))
    }

    /// Returns the code whose rows were folded.
    pub fn code(&self) -> &'c Code<'s>
        ensures { result.now ≡ self.now.code }
    {
        self.code
    }

    /// Returns the rows of all states, one after another, with `WIDTH` entries each. The entry for
    /// the byte `b` in the state `s` is at the index `WIDTH * s + b`.
    pub fn rows(&self) -> &[u32]
        ensures rows { result.now ≡ self.now.rows }
        ensures folded { AreFolded self.now.code self.now.rows }
    {
        &self.rows
    }
}

/// Returns the folded rows of the `states` states of a code, one after another.
///
/// # Errors
///
/// Returns `AllocError` if memory runs out.
fn fold_rows(alloc: Global, code: &Code, states: usize) -> Result<Vec<u32>, AllocError>
    requires few { IsFew code.now }
    requires states { states ≡ length code.now.states }
    ensures { IfOk result (λ rows. AreFolded code.now rows.items) }
{
    // A call of `root` brings the soundness of the code into the proof.
    let _ = code.root();
    let mut rows = Vec::new(alloc);
    for state in 0..states {
        rows.extend_from_slice(&row_of(code, state))?;
    }
    Ok(rows)
}
