//! `signs_of` computes signs: the marks of states in a form that a lexer reads with one load.
//! Called by `construction`. The slow path of an attempt reads the signs.

ghost use Rattle.std.specs.Prelude.{◌≡◌, IfOk, map, option_map};
ghost use Rattle.logos_code.specs.Views.{mark_of, code_of, mark_by, AreSigns};

use super::{CodeParts, Mark};
use logos_hir::leaf::LeafId;
use std::alloc::{AllocError, Global};

/// The mark of a state, with a variant for each case. A lexer branches on the variant, and so need
/// not wait until the leaf is loaded.
#[derive(Clone, Copy)]
pub enum Sign {
    /// The state has no mark.
    Nothing,
    /// The state has an early mark: a match of this leaf ends at the state.
    Here(LeafId),
    /// The state has a late mark: a match of this leaf ends one byte before the state.
    Before(LeafId),
}

/// Returns the signs of all states, in the order of their numbers.
///
/// # Errors
///
/// Returns `AllocError` if memory runs out.
pub(super) fn signs_of(alloc: Global, parts: &CodeParts) -> Result<Vec<Sign>, AllocError>
    ensures { IfOk result (λ signs. AreSigns (code_of parts.now) (map mark_by signs.items)) }
{
    let mut signs = Vec::new(alloc);
    for state in &parts.states {
        signs.push(sign_of(state.mark))?;
    }
    Ok(signs)
}

/// Returns the sign of a mark, or `Nothing` if there is no mark.
fn sign_of(mark: Option<Mark>) -> Sign
    ensures { mark_by result ≡ option_map mark_of mark }
{
    match mark {
        Some(mark) if mark.late => Sign::Before(mark.leaf),
        Some(mark) => Sign::Here(mark.leaf),
        None => Sign::Nothing,
    }
}
