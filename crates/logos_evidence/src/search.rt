//! Functions that search for a shortest input that leads a machine to a goal, and for inputs that
//! together take all steps of a machine. Used by the other modules of this crate.

ghost use Rattle.std.specs.Prelude.{◌≡◌, IfOk, MatchOption};
ghost use Rattle.logos_evidence.specs.search.Views.{IsShortest, NoneLeads, pending_goal};

mod cover;
mod order;
mod point;
mod steps;
mod utf8;
mod visits;

use crate::search::visits::{
    PendingPoint, first_pending, first_visits, meet_all, pending_of, way_to,
};
pub use cover::covering;
pub use point::{Machine, Point};
use std::alloc::{AllocError, Global};

/// Returns whether a pending point is a goal at which an input can end.
pub(crate) fn is_goal<M: Machine>(machine: &M, pending: PendingPoint) -> bool
    ensures { result ≡ pending_goal (M.goal machine.now) pending }
{
    machine.is_goal(pending.point) & (pending.rest.count == 0)
}

/// Returns a shortest input that leads a machine from the point `start` to a goal, or `None` if
/// there is no such input. Among inputs of the same length, the search prefers letters, then
/// digits, then punctuation.
///
/// If `utf8` is `true`, only inputs in UTF-8 are considered. The search stores each visited point
/// with its predecessor, and the byte that leads from the predecessor to the point.
///
/// # Errors
///
/// Returns `AllocError` if memory runs out.
pub fn shortest<M: Machine>(
    alloc: Global,
    machine: &M,
    utf8: bool,
    start: Point,
) -> Result<Option<Vec<u8>>, AllocError>
    ensures { IfOk result (λ found. MatchOption found
        (NoneLeads (M.leads machine.now) (M.goal machine.now) utf8 start)
        (λ bytes. IsShortest (M.leads machine.now) (M.goal machine.now) utf8 start bytes.items)) }
{
    let mut visits = first_visits(alloc, first_pending(start))?;
    let mut number = 0;
    while number < visits.points.len() {
        if is_goal(machine, pending_of(&visits, number)) {
            let bytes = way_to(alloc, &visits, number)?;
            return Ok(Some(bytes));
        }
        meet_all(machine, utf8, &mut visits, number)?;
        number += 1;
    }
    Ok(None)
}
