//! Functions that encode as numbers the marks of states, and the leaves whose matches are skipped.
//! `lexer` calls them, and prints these numbers after the steps.

ghost use Rattle.std.specs.Prelude.{◌≡◌, ◌<◌, IfOk, IfSome, map, option_map};
ghost use Rattle.logos_tables.specs.Imports.{All, leaf_limit, mark_of, use_of, mark_number, skip_number};

use logos_code::code::{CodeLeaf, CodeState, Mark};
use logos_pattern::leaf::VariantKind;
use std::alloc::{AllocError, Global};

/// Returns the number that encodes the mark of each state, in the order of the states.
///
/// # Errors
///
/// Returns `AllocError` if memory runs out.
pub(crate) fn marks_of(alloc: Global, states: &[CodeState]) -> Result<Vec<usize>, AllocError>
    requires { All (λ state. IfSome state.mark (λ mark. mark.leaf.0 < leaf_limit)) states.now }
    ensures { IfOk result (λ marks. marks.items
        ≡ map (λ state. mark_number (option_map mark_of state.mark)) states.now) }
{
    let mut marks = Vec::new(alloc);
    for state in states {
        marks.push(mark_number(state.mark))?;
    }
    Ok(marks)
}

/// Returns the number that encodes a mark. The number is 0 if there is no mark. Otherwise it is 2
/// plus twice the number of the mark's leaf, plus 1 if the mark is late.
fn mark_number(mark: Option<Mark>) -> usize
    requires { IfSome mark (λ mark. mark.leaf.0 < leaf_limit) }
    ensures { result ≡ mark_number (option_map mark_of mark) }
{
    match mark {
        Some(mark) if mark.late => mark.leaf.0 * 2 + 3,
        Some(mark) => mark.leaf.0 * 2 + 2,
        None => 0,
    }
}

/// Returns a number for each leaf. The number is 1 if the leaf's matches are skipped without a
/// callback, and 0 otherwise.
///
/// # Errors
///
/// Returns `AllocError` if memory runs out.
pub(crate) fn skips_of(alloc: Global, leaves: &[CodeLeaf<'_>]) -> Result<Vec<usize>, AllocError>
    ensures { IfOk result (λ skips. skips.items ≡ map (λ leaf. skip_number (use_of leaf)) leaves.now) }
{
    let mut skips = Vec::new(alloc);
    for leaf in leaves {
        skips.push(skip_number(leaf))?;
    }
    Ok(skips)
}

/// Returns 1 if the matches of the leaf are skipped without a callback, and 0 otherwise.
fn skip_number(leaf: &CodeLeaf<'_>) -> usize
    ensures { result ≡ skip_number (use_of leaf.now) }
{
    if matches!(leaf.kind, VariantKind::Skip) & leaf.callback.is_none() {
        1
    } else {
        0
    }
}
