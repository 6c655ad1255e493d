//! Visits points breadth first, and stores the step to each point from its predecessor. Used by
//! `cover` and `search`.

ghost use Rattle.std.specs.Prelude.{◌≡◌, ◌+◌, ◌<◌, ◌∷◌, [], ℕ, IfOk, OnOk, Option, Some, length, slice_get};
ghost use Rattle.logos_evidence.specs.search.Views.{more, PendingPoint as At};
ghost use Rattle.logos_evidence.specs.search.inside.PendingPoints as points;
ghost use Rattle.logos_evidence.specs.search.inside.Visits as walks;

use crate::search::order::byte_at;
use crate::search::point::{Machine, Point};
use crate::search::utf8::{Rest, more, rest_by};
use indexmap::IndexSet;
use std::alloc::{AllocError, Global};

/// A point, with the rest of the character that is being read at the point.
#[derive(Clone, Copy, PartialEq, Eq, Hash)]
pub(crate) struct PendingPoint {
    pub(crate) point: Point,
    pub(crate) rest: Rest,
}

/// The step by which a pending point was first reached.
#[derive(Clone, Copy)]
pub(crate) struct Visit {
    /// The number of the predecessor.
    pub(crate) from: usize,
    /// The byte that leads from the predecessor to the pending point.
    pub(crate) byte: u8,
    /// The number of bytes that lead from the first pending point to this one.
    pub(crate) depth: usize,
}

/// The pending points that were visited, numbered in the order of their visits.
#[derive(Drop)]
pub(crate) struct Visits {
    pub(crate) points: IndexSet<PendingPoint>,
    pub(crate) ways: Vec<Visit>,
}

/// Returns the pending point at `point` before the first byte of an input.
pub(crate) fn first_pending(point: Point) -> PendingPoint
    ensures { result ≡ points.pending_at point (more 0) }
{
    PendingPoint {
        point,
        rest: more(0),
    }
}

/// Returns the pending point to which `byte` leads from `at`, or `None` if the machine has no such
/// step. Also returns `None` if `utf8` is `true` and UTF-8 does not allow `byte` at this point.
pub(crate) fn advance<M: Machine>(
    machine: &M,
    utf8: bool,
    at: PendingPoint,
    byte: u8,
) -> Option<PendingPoint>
    ensures { result ≡ points.pending_next (M.leads machine.now) utf8 at byte }
{
    let point = machine.next(at.point, byte)?;
    let rest = rest_by(utf8, at.rest, byte)?;
    Some(PendingPoint { point, rest })
}

/// Adds a pending point to `visits`, with the step `way` to the point, unless the point was visited
/// before.
///
/// # Errors
///
/// Returns `AllocError` if memory runs out.
fn meet(visits: &mut Visits, pending: PendingPoint, way: Visit) -> Result<(), AllocError>
    ensures { OnOk result (walks.Meets visits.old.points.keys visits.old.ways.items pending way
        visits.new.points.keys visits.new.ways.items) }
{
    let (_, is_new) = visits.points.insert_full(pending)?;
    if is_new {
        visits.ways.push(way)?;
    }
    Ok(())
}

/// Adds to `visits` the pending point to which the byte of `way` leads from `at`. Adds nothing if
/// there is no such point or it was visited before.
///
/// # Errors
///
/// Returns `AllocError` if memory runs out.
fn meet_next<M: Machine>(
    machine: &M,
    utf8: bool,
    visits: &mut Visits,
    at: PendingPoint,
    way: Visit,
) -> Result<(), AllocError>
    requires there { slice_get visits.old.points.keys way.from ≡ Some at }
    requires depth { way.depth ≡ walks.depth_at visits.old.ways.items way.from + 1 }
    requires byte { way.byte < 256 }
    requires tree { walks.IsTree (points.pending_next (M.leads machine.now) utf8)
        visits.old.points.keys visits.old.ways.items }
    requires within { walks.IsWithin (points.pending_next (M.leads machine.now) utf8)
        visits.old.points.keys visits.old.ways.items way.depth }
    ensures tree { OnOk result (walks.IsTree (points.pending_next (M.leads machine.now) utf8)
        visits.new.points.keys visits.new.ways.items) }
    ensures within { OnOk result (walks.IsWithin (points.pending_next (M.leads machine.now) utf8)
        visits.new.points.keys visits.new.ways.items way.depth) }
    ensures grows { OnOk result (walks.Grows visits.old.points.keys visits.old.ways.items
        visits.new.points.keys visits.new.ways.items) }
    ensures met { OnOk result ((to : At) →
        points.pending_next (M.leads machine.now) utf8 at way.byte ≡ Some to →
        walks.IsMet visits.new.points.keys visits.new.ways.items to way.depth) }
{
    let Some(next) = advance(machine, utf8, at, way.byte) else {
        return Ok(());
    };
    meet(visits, next, way)?;
    Ok(())
}

/// Adds to `visits` the pending points to which bytes lead from the pending point with the number
/// `number`.
///
/// # Errors
///
/// Returns `AllocError` if memory runs out.
pub(crate) fn meet_all<M: Machine>(
    machine: &M,
    utf8: bool,
    visits: &mut Visits,
    number: usize,
) -> Result<(), AllocError>
    requires there { number < length visits.old.points.keys }
    requires tree { walks.IsTree (points.pending_next (M.leads machine.now) utf8)
        visits.old.points.keys visits.old.ways.items }
    requires within { walks.IsWithin (points.pending_next (M.leads machine.now) utf8)
        visits.old.points.keys visits.old.ways.items
        (walks.depth_at visits.old.ways.items number + 1) }
    ensures tree { OnOk result (walks.IsTree (points.pending_next (M.leads machine.now) utf8)
        visits.new.points.keys visits.new.ways.items) }
    ensures within { OnOk result (walks.IsWithin (points.pending_next (M.leads machine.now) utf8)
        visits.new.points.keys visits.new.ways.items
        (walks.depth_at visits.old.ways.items number + 1)) }
    ensures grows { OnOk result (walks.Grows visits.old.points.keys visits.old.ways.items
        visits.new.points.keys visits.new.ways.items) }
    ensures met { OnOk result ((b : ℕ) (from : At) →
        slice_get visits.old.points.keys number ≡ Some from → b < 256 →
        walks.LeadsToMet (points.pending_next (M.leads machine.now) utf8)
        visits.new.points.keys visits.new.ways.items from
        (walks.depth_at visits.old.ways.items number) b) }
{
    let at = pending_of(visits, number);
    let depth = visits.ways[number].depth + 1;
    for site in 0..256usize {
        let byte = byte_at(site as u8);
        let way = Visit {
            from: number,
            byte,
            depth,
        };
        meet_next(machine, utf8, visits, at, way)?;
    }
    Ok(())
}

/// Returns the visited pending point with the number `number`, which must exist.
pub(crate) fn pending_of(visits: &Visits, number: usize) -> PendingPoint
    requires { number < length visits.now.points.keys }
    ensures { slice_get visits.now.points.keys number ≡ Some result }
{
    match visits.points.get_index(number) {
        Some(pending) => *pending,
        None => unreachable!(),
    }
}

/// Returns visits that contain only the pending point `start`.
///
/// # Errors
///
/// Returns `AllocError` if memory runs out.
pub(crate) fn first_visits(alloc: Global, start: PendingPoint) -> Result<Visits, AllocError>
    ensures points { IfOk result (λ visits. visits.points.keys ≡ start ∷ []) }
    ensures ways { IfOk result (λ visits. visits.ways.items ≡ walks.no_visit ∷ []) }
{
    let mut points = IndexSet::new(alloc);
    points.insert(start)?;
    let mut ways = Vec::new(alloc);
    ways.push(Visit {
        from: 0,
        byte: 0,
        depth: 0,
    })?;
    Ok(Visits { points, ways })
}

/// Returns the bytes that lead from the first pending point to the pending point with the number
/// `number`.
///
/// # Errors
///
/// Returns `AllocError` if memory runs out.
pub(crate) fn way_to(alloc: Global, visits: &Visits, number: usize) -> Result<Vec<u8>, AllocError>
    requires there { number < length visits.now.ways.items }
    requires down { walks.GoDown visits.now.ways.items }
    ensures { IfOk result (λ bytes. (next : At → ℕ → Option At) (to : At) →
        walks.IsTree next visits.now.points.keys visits.now.ways.items →
        slice_get visits.now.points.keys number ≡ Some to →
        walks.IsWayTo next visits.now.points.keys visits.now.ways.items number to bytes.items) }
{
    let mut bytes = Vec::new(alloc);
    let mut at = number;
    while at != 0 {
        let way = visits.ways[at];
        bytes.push(way.byte)?;
        at = way.from;
    }
    bytes.reverse();
    Ok(bytes)
}
