//! Collects the steps that a machine takes over an input. Used by `cover`.

ghost use Rattle.std.specs.Prelude.{◌≡◌, ◌⊎◌, false, IfOk, OnOk, Contains};
ghost use Rattle.logos_evidence.specs.search.Views.{Adds, InputStep as Taken};

use crate::search::point::{Machine, Point};
use indexmap::IndexSet;
use std::alloc::AllocError;

/// A step of a machine over an input: a byte leads from one point to the next, or the input ends.
#[derive(Clone, Copy, PartialEq, Eq, Hash)]
pub(crate) struct InputStep {
    pub(crate) from: Point,
    /// The next point, or the same point if the input ends.
    pub(crate) to: Point,
    /// Whether the input ends.
    pub(crate) ends: bool,
}

/// Adds a step to `steps` if the set does not contain the step. Returns whether the step is new.
///
/// # Errors
///
/// Returns `AllocError` if memory runs out.
pub(crate) fn add_step(steps: &mut IndexSet<InputStep>, step: InputStep) -> Result<bool, AllocError>
    ensures has { OnOk result (Contains steps.new.keys step) }
    ensures only { OnOk result ((other : Taken) → Contains steps.new.keys other →
        Contains steps.old.keys other ⊎ (other ≡ step)) }
    ensures grows { OnOk result ((other : Taken) → Contains steps.old.keys other →
        Contains steps.new.keys other) }
    ensures stays { IfOk result (λ is_new. is_new ≡ false → steps.new.keys ≡ steps.old.keys) }
{
    let (_, is_new) = steps.insert_full(step)?;
    Ok(is_new)
}

/// Adds to `steps` the steps that a machine takes over an input from the point `start`, up to the
/// first byte that leads to no point. If there is no such byte, the end of the input is also added
/// as a step.
///
/// # Errors
///
/// Returns `AllocError` if memory runs out. Then some of the steps may have been added.
pub(crate) fn add_steps<M: Machine>(
    machine: &M,
    start: Point,
    input: &[u8],
    steps: &mut IndexSet<InputStep>,
) -> Result<(), AllocError>
    ensures { OnOk result (Adds (M.leads machine.now) start steps.old.keys input.now
        steps.new.keys) }
{
    let mut at = start;
    for byte in input {
        let Some(to) = machine.next(at, *byte) else {
            return Ok(());
        };
        add_step(
            steps,
            InputStep {
                from: at,
                to,
                ends: false,
            },
        )?;
        at = to;
    }
    add_step(
        steps,
        InputStep {
            from: at,
            to: at,
            ends: true,
        },
    )?;
    Ok(())
}
