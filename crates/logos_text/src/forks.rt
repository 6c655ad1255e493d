//! Printers of forks. A fork consists of the steps of a state for the bytes that lead to states.
//! `states` calls `push_ways` for each state.

ghost use Rattle.std.specs.Prelude.{◌∷◌, [], OnOk, map, string_bytes};
ghost use Rattle.logos_text.specs.Imports.{branch_of, fork_of, Adds, Grows, branch_text, fork_texts};

use crate::conditions::{push_condition, push_transition};
use crate::pieces::{comma_before, push};
use logos_code::code::{CodeParts, Condition, Config, Fork, NOWHERE};
use logos_token::error::Memory;
use std::alloc::Global;

/// Appends a branch and a space.
fn push_branch(text: &mut String, branch: &(Condition, usize), shape: Config) -> Result<(), Memory>
    ensures { OnOk result (Adds (branch_text shape (branch_of branch.now) ∷ [])
        (string_bytes text.old) (string_bytes text.new)) }
{
    push_condition(text, &branch.0, branch.1, shape)?;
    push(text, " ")
}

/// Appends the branches, in the order of `branches`.
fn push_branches(
    text: &mut String,
    branches: &[(Condition, usize)],
    shape: Config,
) -> Result<(), Memory>
    ensures { OnOk result (Adds (map (branch_text shape) (map branch_of branches.now))
        (string_bytes text.old) (string_bytes text.new)) }
{
    for branch in branches {
        push_branch(text, branch, shape)?;
    }
    Ok(())
}

/// Appends the entry of a jump table for `byte`. A comma precedes the entry unless `byte` is 0.
fn push_jump(text: &mut String, byte: usize, entry: u32, shape: Config) -> Result<(), Memory>
    ensures { OnOk result (Grows (string_bytes text.old) (string_bytes text.new)) }
{
    let comma = comma_before(byte);
    if entry == NOWHERE {
        let nowhere = nowhere(shape);
        write!(text, "{comma}{nowhere} ")?;
        return Ok(());
    }
    if shape.use_state_machine_codegen {
        write!(text, "{comma}Some ( LogosState :: State{entry} ) ")?;
        return Ok(());
    }
    write!(text, "{comma}State{entry} ")?;
    Ok(())
}

/// Returns the text of a jump table's entry for a byte that leads to no state.
fn nowhere(shape: Config) -> &'static str {
    if shape.use_state_machine_codegen {
        "None"
    } else {
        "___"
    }
}

/// Appends the entries of a jump table.
fn push_jumps(text: &mut String, table: &[u32; 256], shape: Config) -> Result<(), Memory>
    ensures { OnOk result (Grows (string_bytes text.old) (string_bytes text.new)) }
{
    for byte in 0..256 {
        push_jump(text, byte, table[byte], shape)?;
    }
    Ok(())
}

/// Appends a jump table, and the statements that set the state according to the table. Called for
/// the shape with a loop over the current state.
fn push_step(text: &mut String, table: &[u32; 256], shape: Config) -> Result<(), Memory>
    ensures { OnOk result (Grows (string_bytes text.old) (string_bytes text.new)) }
{
    push(text, "const TABLE : [ _Option < LogosState > ; 256 ] = [ ")?;
    push_jumps(text, table, shape)?;
    push(
        text,
        "] ; let next_state = TABLE [ byte as usize ] ; if let Some ( next_state ) = next_state { offset += 1 ; state = next_state ; continue ; } ",
    )
}

/// Returns the numbers of the targets of a jump table, in ascending order and without duplicates.
/// `NOWHERE` is not a target.
fn targets_of(alloc: Global, table: &[u32; 256]) -> Result<Vec<u32>, Memory> {
    let mut targets = Vec::from_slice(alloc, table)?;
    targets.sort_unstable();
    targets.dedup();
    if targets.last().copied() == Some(NOWHERE) {
        targets.pop();
    }
    Ok(targets)
}

/// Appends the name of the state with the number `target` to a list. A comma precedes the name
/// unless `n`, the index of the name in the list, is 0.
fn push_next_name(text: &mut String, n: usize, target: u32) -> Result<(), Memory>
    ensures { OnOk result (Grows (string_bytes text.old) (string_bytes text.new)) }
{
    let comma = comma_before(n);
    write!(text, "{comma}State{target} ")?;
    Ok(())
}

/// Appends the names of the targets of a jump table, with commas between them.
fn push_next_names(text: &mut String, targets: &[u32]) -> Result<(), Memory>
    ensures { OnOk result (Grows (string_bytes text.old) (string_bytes text.new)) }
{
    for n in 0..targets.len() {
        push_next_name(text, n, targets[n])?;
    }
    Ok(())
}

/// Appends the match arm that calls the state with the number `target` to a list. A comma precedes
/// the arm unless `n`, the index of the arm in the list, is 0.
fn push_next_arm(text: &mut String, n: usize, target: u32, shape: Config) -> Result<(), Memory>
    ensures { OnOk result (Grows (string_bytes text.old) (string_bytes text.new)) }
{
    let comma = comma_before(n);
    write!(text, "{comma}LogosNextState :: State{target} => {{ ")?;
    push_transition(text, target as usize, shape)?;
    push(text, " } ")
}

/// Appends the match arms that call the targets of a jump table.
fn push_next_arms(text: &mut String, targets: &[u32], shape: Config) -> Result<(), Memory>
    ensures { OnOk result (Grows (string_bytes text.old) (string_bytes text.new)) }
{
    for n in 0..targets.len() {
        push_next_arm(text, n, targets[n], shape)?;
    }
    Ok(())
}

/// Appends an enum of the targets of a jump table, and the table without its closing brackets.
fn push_next_table(
    text: &mut String,
    table: &[u32; 256],
    targets: &[u32],
    shape: Config,
) -> Result<(), Memory>
    ensures { OnOk result (Grows (string_bytes text.old) (string_bytes text.new)) }
{
    push(
        text,
        "# [ derive ( Copy , Clone ) ] enum LogosNextState { ___ , ",
    )?;
    push_next_names(text, targets)?;
    push(
        text,
        "} const TABLE : [ LogosNextState ; 256 ] = { use LogosNextState :: * ; [ ",
    )?;
    push_jumps(text, table, shape)
}

/// Appends a jump table, and the calls of the targets' functions. Called for the shape with a
/// function for each state.
fn push_call(
    alloc: Global,
    text: &mut String,
    table: &[u32; 256],
    shape: Config,
) -> Result<(), Memory>
    ensures { OnOk result (Grows (string_bytes text.old) (string_bytes text.new)) }
{
    let targets = targets_of(alloc, table)?;
    push_next_table(text, table, &targets, shape)?;
    push(text, "] } ; offset += 1 ; match TABLE [ byte as usize ] { ")?;
    push_next_arms(text, &targets, shape)?;
    push(text, "LogosNextState :: ___ => { } , } offset -= 1 ; ")
}

/// Appends a jump according to `table` in the shape `shape`, or nothing if there is no table.
fn push_by_table(
    alloc: Global,
    text: &mut String,
    table: Option<&[u32; 256]>,
    shape: Config,
) -> Result<(), Memory>
    ensures { OnOk result (Grows (string_bytes text.old) (string_bytes text.new)) }
{
    let Some(table) = table else {
        return Ok(());
    };
    if shape.use_state_machine_codegen {
        return push_step(text, table, shape);
    }
    push_call(alloc, text, table, shape)
}

/// Appends the steps of a fork: the steps for the bytes that lead to states.
pub(crate) fn push_ways(
    alloc: Global,
    text: &mut String,
    fork: &Fork,
    parts: &CodeParts<'_>,
    shape: Config,
) -> Result<(), Memory>
    ensures { OnOk result (Adds (fork_texts shape (fork_of parts.now.jump_tables.items fork.now))
        (string_bytes text.old) (string_bytes text.new)) }
{
    match fork {
        Fork::Conditions(branches) => push_branches(text, branches, shape),
        Fork::Table(k) => push_by_table(alloc, text, parts.jump_tables.get(*k), shape),
    }
}
