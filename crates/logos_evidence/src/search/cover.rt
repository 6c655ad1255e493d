//! Searches for inputs that together take all steps of a machine. Used by `covering_inputs`.

ghost use Rattle.std.specs.Prelude.{◌≡◌, ◌<◌, ◌∷◌, ◌++◌, [], true, IfOk, OnOk, Contains, Some, length, map, slice_get};
ghost use Rattle.logos_evidence.specs.search.Views.{AreCovering, end_at, pending_goal, GoDown, PendingPoint as At};
ghost use Rattle.logos_evidence.specs.search.inside.Covers as covers;

use crate::search::is_goal;
use crate::search::order::byte_at;
use crate::search::point::{Machine, Point};
use crate::search::steps::{InputStep, add_step, add_steps};
use crate::search::utf8::{Rest, push_rest};
use crate::search::visits::{
    Visits, advance, first_pending, first_visits, meet_all, pending_of, way_to,
};
use indexmap::IndexSet;
use std::alloc::{AllocError, Global};

/// The pending points that a machine can reach from the point `start`.
#[derive(Drop)]
struct Explored {
    alloc: Global,
    utf8: bool,
    start: Point,
    visits: Visits,
}

/// Inputs, and the steps that a machine takes on them.
#[derive(Drop)]
struct Cover {
    steps: IndexSet<InputStep>,
    inputs: Vec<Vec<u8>>,
}

/// A pending point, identified by its number, and a byte that is read there.
#[derive(Clone, Copy)]
struct PointByte {
    number: usize,
    byte: u8,
}

/// Returns all pending points that a machine can reach from the point `start`.
///
/// # Errors
///
/// Returns `AllocError` if memory runs out.
fn explore<M: Machine>(
    alloc: Global,
    machine: &M,
    utf8: bool,
    start: Point,
) -> Result<Explored, AllocError>
    ensures explored { IfOk result (λ made. covers.HasExplored (M.leads machine.now) made) }
    ensures mode { IfOk result (λ made. made.utf8 ≡ utf8) }
    ensures start { IfOk result (λ made. made.start ≡ start) }
{
    let mut visits = first_visits(alloc, first_pending(start))?;
    let mut number = 0;
    while number < visits.points.len() {
        meet_all(machine, utf8, &mut visits, number)?;
        number += 1;
    }
    Ok(Explored {
        alloc,
        utf8,
        start,
        visits,
    })
}

/// Returns an input that takes the step of `reading`.
///
/// The input consists of these bytes, in this order:
///
/// - the bytes that lead to the pending point of `reading`,
/// - the byte of `reading`,
/// - the least bytes that complete the character with the rest `rest`.
///
/// # Errors
///
/// Returns `AllocError` if memory runs out.
fn way_by(
    alloc: Global,
    visits: &Visits,
    reading: PointByte,
    rest: Rest,
) -> Result<Vec<u8>, AllocError>
    requires there { reading.number < length visits.now.ways.items }
    requires down { GoDown visits.now.ways.items }
    ensures { IfOk result (λ bytes. covers.IsWayBy visits.now.points.keys visits.now.ways.items
        reading.number reading.byte rest bytes.items) }
{
    let mut bytes = way_to(alloc, visits, reading.number)?;
    bytes.push(reading.byte)?;
    push_rest(&mut bytes, rest)?;
    Ok(bytes)
}

/// Adds an input to `cover`, with the steps that the machine takes on the input from the point
/// `start`.
///
/// # Errors
///
/// Returns `AllocError` if memory runs out.
fn add_input<M: Machine>(
    machine: &M,
    start: Point,
    cover: &mut Cover,
    input: Vec<u8>,
) -> Result<(), AllocError>
    ensures adds { OnOk result (covers.Adds (M.leads machine.now) start cover.old.steps.keys
        input.items cover.new.steps.keys) }
    ensures input { OnOk result (map (λ v. v.items) cover.new.inputs.items ≡
        map (λ v. v.items) cover.old.inputs.items ++ input.items ∷ []) }
{
    add_steps(machine, start, &input, &mut cover.steps)?;
    cover.inputs.push(input)?;
    Ok(())
}

/// Adds an input to `cover` that takes the step from a pending point by a byte. Adds nothing if
/// there is no such step or an earlier input takes the step.
///
/// # Errors
///
/// Returns `AllocError` if memory runs out.
fn cover_byte<M: Machine>(
    machine: &M,
    explored: &Explored,
    cover: &mut Cover,
    reading: PointByte,
) -> Result<(), AllocError>
    requires there { reading.number < length explored.now.visits.points.keys }
    requires byte { reading.byte < 256 }
    requires explored { covers.HasExplored (M.leads machine.now) explored.now }
    requires cover { covers.CoversSteps (M.leads machine.now) explored.now cover.old }
    ensures cover { OnOk result (
        covers.CoversSteps (M.leads machine.now) explored.now cover.new) }
    ensures grows { OnOk result (covers.HasStepsOf cover.old cover.new) }
    ensures covered { OnOk result ((at : At) →
        slice_get explored.now.visits.points.keys reading.number ≡ Some at →
        covers.IsCoveredBy (M.leads machine.now) explored.now.utf8 cover.new.steps.keys at
        reading.byte) }
{
    let at = pending_of(&explored.visits, reading.number);
    let Some(next) = advance(machine, explored.utf8, at, reading.byte) else {
        return Ok(());
    };
    let step = InputStep {
        from: at.point,
        to: next.point,
        ends: false,
    };
    let is_new = add_step(&mut cover.steps, step)?;
    if !is_new {
        return Ok(());
    }
    let input = way_by(explored.alloc, &explored.visits, reading, next.rest)?;
    add_input(machine, explored.start, cover, input)?;
    Ok(())
}

/// Adds an input to `cover` that ends at the pending point with the number `number`. Adds nothing
/// if no input can end at this point, if the point is not a goal, or if an earlier input ends at
/// this point.
///
/// # Errors
///
/// Returns `AllocError` if memory runs out.
fn cover_end<M: Machine>(
    machine: &M,
    explored: &Explored,
    cover: &mut Cover,
    number: usize,
) -> Result<(), AllocError>
    requires there { number < length explored.now.visits.points.keys }
    requires explored { covers.HasExplored (M.leads machine.now) explored.now }
    requires cover { covers.CoversSteps (M.leads machine.now) explored.now cover.old }
    ensures cover { OnOk result (
        covers.CoversSteps (M.leads machine.now) explored.now cover.new) }
    ensures grows { OnOk result (covers.HasStepsOf cover.old cover.new) }
    ensures covered { OnOk result ((at : At) →
        slice_get explored.now.visits.points.keys number ≡ Some at →
        pending_goal (M.goal machine.now) at ≡ true →
        Contains cover.new.steps.keys (end_at at.point)) }
{
    let at = pending_of(&explored.visits, number);
    if !is_goal(machine, at) {
        return Ok(());
    }
    let step = InputStep {
        from: at.point,
        to: at.point,
        ends: true,
    };
    let is_new = add_step(&mut cover.steps, step)?;
    if !is_new {
        return Ok(());
    }
    let input = way_to(explored.alloc, &explored.visits, number)?;
    add_input(machine, explored.start, cover, input)?;
    Ok(())
}

/// Adds inputs to `cover` that take all steps from the pending point with the number `number`: the
/// steps by each byte, and the end of the input.
///
/// # Errors
///
/// Returns `AllocError` if memory runs out.
fn cover_pending<M: Machine>(
    machine: &M,
    explored: &Explored,
    cover: &mut Cover,
    number: usize,
) -> Result<(), AllocError>
    requires there { number < length explored.now.visits.points.keys }
    requires explored { covers.HasExplored (M.leads machine.now) explored.now }
    requires cover { covers.CoversSteps (M.leads machine.now) explored.now cover.old }
    ensures cover { OnOk result (
        covers.CoversSteps (M.leads machine.now) explored.now cover.new) }
    ensures grows { OnOk result (covers.HasStepsOf cover.old cover.new) }
    ensures covered { OnOk result ((at : At) →
        slice_get explored.now.visits.points.keys number ≡ Some at →
        covers.AreCoveredAt (M.leads machine.now) (M.goal machine.now) explored.now.utf8
        cover.new.steps.keys at) }
{
    for site in 0..256usize {
        let byte = byte_at(site as u8);
        cover_byte(machine, explored, cover, PointByte { number, byte })?;
    }
    cover_end(machine, explored, cover, number)?;
    Ok(())
}

/// Returns inputs that together take each step that a machine takes over any input from the point
/// `start`: each step by a byte from one point to the next, and each end of an input at a goal.
/// Each input takes a step that no earlier input takes.
///
/// If `utf8` is `true`, only inputs in UTF-8 are considered. The search stores each step. It also
/// stores each visited point with its predecessor, and the byte that leads from the predecessor to
/// the point.
///
/// # Errors
///
/// Returns `AllocError` if memory runs out.
pub fn covering<M: Machine>(
    alloc: Global,
    machine: &M,
    utf8: bool,
    start: Point,
) -> Result<Vec<Vec<u8>>, AllocError>
    ensures { IfOk result (λ inputs. AreCovering (M.leads machine.now) (M.goal machine.now) utf8
        start (map (λ v. v.items) inputs.items)) }
{
    let explored = explore(alloc, machine, utf8, start)?;
    let mut cover = Cover {
        steps: IndexSet::new(alloc),
        inputs: Vec::new(alloc),
    };
    let mut number = explored.visits.points.len();
    while number > 0 {
        number -= 1;
        cover_pending(machine, &explored, &mut cover, number)?;
    }
    Ok(cover.inputs)
}
