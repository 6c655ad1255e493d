//! Computes the targets of states while the automaton is built. `dfa::builder` calls `row_of` and
//! `end_after` for each state in turn.

ghost use Rattle.std.specs.Prelude.{Bool, List, ℕ, ◌≡◌, ◌^◌, ◌<◌, ◌≤◌, ◌+◌, IfOk, IfSome, IsFalse, OnOk, false, length, slice_index};
ghost use Rattle.logos_automaton.specs.Views.{Core, AreKindBytes, IsCacheOf, IsPrepared, cores_of, Foresees, IsNotStart, state_after, AreRising, AreReached, AreFirstIn, Extends, Grows, IsAt, LeadsTo, EndsIn, IsRow};

use crate::byte_equivalence::first_bytes;
use crate::cache::{LiveTree, StateSteps, StepCache};
use crate::key::{Key, end_key, ended_key, is_start, number_of, step_key};
use crate::trees::Trees;
use indexmap::IndexSet;
use std::alloc::AllocError;

/// The targets of a state, indexed by byte.
pub type Row = [u16; 256];

/// The number of symbols: the 256 bytes and the end of the input.
pub const SYMBOLS: usize = 257;

/// The targets of a state, indexed by byte, while the automaton is built. At that time, the number
/// of states can exceed the limit.
pub type DraftRow = [u32; 256];

/// Returns the target of the state with the number `state` for `byte`. Adds the target to `states`
/// if it is new.
///
/// # Errors
///
/// Returns `AllocError` if memory runs out.
fn target_of(
    trees: &Trees<'_>,
    states: &mut IndexSet<Key>,
    state: usize,
    byte: u8,
) -> Result<u32, AllocError>
    requires prepared { IsPrepared trees.now }
    requires within { state < length states.old.keys }
    requires rising { AreRising states.old.keys }
    requires reached { AreReached (cores_of trees.now) trees.now.looks states.old.keys }
    requires few { length states.old.keys < 2 ^ 31 }
    ensures extends { OnOk result (Extends (cores_of trees.now)
        trees.now.looks states.old.keys states.new.keys 1) }
    ensures leads { IfOk result (λ target.
        LeadsTo (cores_of trees.now) trees.now.looks states.new.keys state byte target) }
{
    let made = match states.get_index(state) {
        Some(key) => step_key(trees, key, byte)?,
        None => unreachable!(),
    };
    let target = number_of(states, made)?;
    Ok(target as u32)
}

/// Returns the target of the state with the number `state` for the end of the input. Adds the
/// target to `states` if it is new.
///
/// # Errors
///
/// Returns `AllocError` if memory runs out.
fn end_of(trees: &Trees<'_>, states: &mut IndexSet<Key>, state: usize) -> Result<u32, AllocError>
    requires prepared { IsPrepared trees.now }
    requires within { state < length states.old.keys }
    requires rising { AreRising states.old.keys }
    requires few { length states.old.keys < 2 ^ 31 }
    ensures extends { (looks : Bool) →
        OnOk result (Extends (cores_of trees.now) looks states.old.keys states.new.keys 1) }
    ensures ends { IfOk result (λ target.
        EndsIn (cores_of trees.now) states.new.keys state target) }
{
    let made = match states.get_index(state) {
        Some(key) => end_key(trees, key)?,
        None => unreachable!(),
    };
    let target = number_of(states, made)?;
    Ok(target as u32)
}

/// Returns the target of the state with the number `state` for the end of the input if no tree has
/// a look-around assertion. Adds the target to `states` if it is new.
///
/// `by_zero` is the target of the state for byte 0. Without look-around assertions, a leaf matches
/// before the end if and only if it matches before a byte. The target for the end thus has the
/// leaves of `by_zero`.
///
/// # Errors
///
/// Returns `AllocError` if memory runs out.
fn end_as_by_zero(
    trees: &Trees<'_>,
    states: &mut IndexSet<Key>,
    state: usize,
    by_zero: u32,
) -> Result<u32, AllocError>
    requires prepared { IsPrepared trees.now }
    requires free { trees.now.looks ≡ false }
    requires few { length states.old.keys < 2 ^ 31 }
    requires leads { LeadsTo (cores_of trees.now) trees.now.looks states.old.keys state 0 by_zero }
    ensures extends { (looks : Bool) →
        OnOk result (Extends (cores_of trees.now) looks states.old.keys states.new.keys 1) }
    ensures ends { IfOk result (λ target.
        EndsIn (cores_of trees.now) states.new.keys state target) }
{
    let made = match states.get_index(by_zero as usize) {
        Some(key) => ended_key(trees.alloc, &key.matches)?,
        None => unreachable!(),
    };
    let target = number_of(states, made)?;
    Ok(target as u32)
}

/// Returns the target of the state with the number `state` for the end of the input. Adds the
/// target to `states` if it is new. `by_zero` is the target of the state for byte 0.
///
/// # Errors
///
/// Returns `AllocError` if memory runs out.
pub fn end_after(
    trees: &Trees<'_>,
    states: &mut IndexSet<Key>,
    state: usize,
    by_zero: u32,
) -> Result<u32, AllocError>
    requires prepared { IsPrepared trees.now }
    requires within { state < length states.old.keys }
    requires rising { AreRising states.old.keys }
    requires few { length states.old.keys < 2 ^ 31 }
    requires leads { LeadsTo (cores_of trees.now) trees.now.looks states.old.keys state 0 by_zero }
    ensures extends { (looks : Bool) →
        OnOk result (Extends (cores_of trees.now) looks states.old.keys states.new.keys 1) }
    ensures ends { IfOk result (λ target.
        EndsIn (cores_of trees.now) states.new.keys state target) }
{
    if trees.looks {
        return end_of(trees, states, state);
    }
    end_as_by_zero(trees, states, state, by_zero)
}

/// Returns the target in `known` if there is one. Otherwise computes the target of the state with
/// the number `state` for `byte`, adds the target to `states` if it is new, and returns the target.
///
/// # Errors
///
/// Returns `AllocError` if memory runs out.
fn next_target(
    trees: &Trees<'_>,
    states: &mut IndexSet<Key>,
    state: usize,
    byte: u8,
    known: Option<u32>,
) -> Result<u32, AllocError>
    requires prepared { IsPrepared trees.now }
    requires within { state < length states.old.keys }
    requires rising { AreRising states.old.keys }
    requires reached { AreReached (cores_of trees.now) trees.now.looks states.old.keys }
    requires few { length states.old.keys < 2 ^ 31 }
    requires known { IfSome known (λ target.
        LeadsTo (cores_of trees.now) trees.now.looks states.old.keys state byte target) }
    ensures extends { OnOk result (Extends (cores_of trees.now)
        trees.now.looks states.old.keys states.new.keys 1) }
    ensures leads { IfOk result (λ target.
        LeadsTo (cores_of trees.now) trees.now.looks states.new.keys state byte target) }
{
    match known {
        Some(target) => Ok(target),
        None => target_of(trees, states, state, byte),
    }
}

/// Returns an array in which the flag of a byte is `true` if the state with the number `state` can
/// distinguish the byte from the next smaller byte.
fn first_in(trees: &Trees<'_>, states: &IndexSet<Key>, state: usize) -> [bool; 256]
    requires prepared { IsPrepared trees.now }
    requires within { state < length states.now.keys }
    requires rising { AreRising states.now.keys }
    ensures { AreFirstIn (cores_of trees.now) trees.now.looks states.now.keys state result }
{
    match states.get_index(state) {
        Some(key) => first_bytes(trees, &key.positions, is_start(key.kind)),
        None => unreachable!(),
    }
}

/// Returns the targets of the state with the number `state` for all bytes, computed without the
/// cache of steps. Adds the new targets to `states`.
///
/// # Errors
///
/// Returns `AllocError` if memory runs out.
fn plain_row(
    trees: &Trees<'_>,
    states: &mut IndexSet<Key>,
    state: usize,
) -> Result<DraftRow, AllocError>
    requires prepared { IsPrepared trees.now }
    requires within { state < length states.old.keys }
    requires rising { AreRising states.old.keys }
    requires reached { AreReached (cores_of trees.now) trees.now.looks states.old.keys }
    requires few { length states.old.keys < 2 ^ 30 }
    ensures extends { OnOk result (Extends (cores_of trees.now)
        trees.now.looks states.old.keys states.new.keys SYMBOLS) }
    ensures row { IfOk result (λ row.
        IsRow (cores_of trees.now) trees.now.looks states.new.keys state row 256) }
    ensures wide { IfOk result (λ row. length row ≡ 256) }
{
    let first = first_in(trees, states, state);
    let mut row = [0; 256];
    row[0] = target_of(trees, states, state, 0)?;
    for byte in 1..256 {
        let known = (!first[byte]).then_some(row[byte - 1]);
        row[byte] = next_target(trees, states, state, byte as u8, known)?;
    }
    Ok(row)
}

/// Returns the target of a state for `byte`, computed from the steps of the state's live trees.
/// Adds the target to `states` if it is new.
///
/// # Errors
///
/// Returns `AllocError` if memory runs out.
fn target_by(steps: StateSteps<'_>, states: &mut IndexSet<Key>, byte: u8) -> Result<u32, AllocError>
    requires few { length states.old.keys < 2 ^ 31 }
    ensures extends { (ts : List Core) (i : ℕ) →
        Foresees ts steps.entry.looks states.old.keys i steps.entry.steps.now steps.entry.lives.now →
        OnOk result (Extends ts steps.entry.looks states.old.keys states.new.keys 1) }
    ensures grows { OnOk result (Grows states.old.keys states.new.keys) }
    ensures few { OnOk result (length states.new.keys ≤ length states.old.keys + 1) }
    ensures at { IfOk result (λ target. IsAt states.new.keys target
        (state_after steps.entry.looks steps.entry.steps.now steps.entry.lives.now byte)) }
{
    let made = steps.next_key(byte)?;
    let target = number_of(states, made)?;
    Ok(target as u32)
}

/// Returns the target in `known` if there is one. Otherwise computes the target of a state for
/// `byte` from the steps of the state's live trees, adds the target to `states` if it is new, and
/// returns the target.
///
/// # Errors
///
/// Returns `AllocError` if memory runs out.
fn known_or_target_by(
    steps: StateSteps<'_>,
    states: &mut IndexSet<Key>,
    byte: u8,
    known: Option<u32>,
) -> Result<u32, AllocError>
    requires few { length states.old.keys < 2 ^ 31 }
    requires known { IfSome known (λ target. IsAt states.old.keys target
        (state_after steps.looks steps.steps.now steps.lives.now byte)) }
    ensures extends { (ts : List Core) (i : ℕ) →
        Foresees ts steps.entry.looks states.old.keys i steps.entry.steps.now steps.entry.lives.now →
        OnOk result (Extends ts steps.entry.looks states.old.keys states.new.keys 1) }
    ensures grows { OnOk result (Grows states.old.keys states.new.keys) }
    ensures few { OnOk result (length states.new.keys ≤ length states.old.keys + 1) }
    ensures at { IfOk result (λ target. IsAt states.new.keys target
        (state_after steps.entry.looks steps.entry.steps.now steps.entry.lives.now byte)) }
{
    match known {
        Some(target) => Ok(target),
        None => target_by(steps, states, byte),
    }
}

/// Returns the targets of a state for all bytes, computed from the steps of the state's live trees.
/// Adds the new targets to `states`. `kinds` contains the flags that `kind_bytes` returns.
///
/// # Errors
///
/// Returns `AllocError` if memory runs out.
fn row_by(
    steps: StateSteps<'_>,
    kinds: &[bool; 256],
    states: &mut IndexSet<Key>,
) -> Result<DraftRow, AllocError>
    requires few { length states.old.keys < 2 ^ 30 }
    requires kinds { AreKindBytes kinds.now }
    ensures extends { (ts : List Core) (i : ℕ) →
        Foresees ts steps.entry.looks states.old.keys i steps.entry.steps.now steps.entry.lives.now →
        OnOk result (Extends ts steps.entry.looks states.old.keys states.new.keys SYMBOLS) }
    ensures row { (ts : List Core) (i : ℕ) →
        Foresees ts steps.entry.looks states.old.keys i steps.entry.steps.now steps.entry.lives.now →
        IfOk result (λ row. IsRow ts steps.entry.looks states.new.keys i row 256) }
    ensures wide { IfOk result (λ row. length row ≡ 256) }
{
    let first = steps.changes(kinds);
    let mut row = [0; 256];
    row[0] = target_by(steps, states, 0)?;
    for byte in 1..256 {
        let known = (!first[byte]).then_some(row[byte - 1]);
        row[byte] = known_or_target_by(steps, states, byte as u8, known)?;
    }
    Ok(row)
}

/// Returns the live trees of the state with the number `state`, in ascending order. The state must
/// not be the start.
///
/// # Errors
///
/// Returns `AllocError` if memory runs out.
fn live_in(
    trees: &Trees<'_>,
    cache: &mut StepCache,
    states: &IndexSet<Key>,
    state: usize,
) -> Result<Vec<LiveTree>, AllocError>
    requires prepared { IsPrepared trees.now }
    requires cached { IsCacheOf trees.now cache.old }
    requires within { state < length states.now.keys }
    requires rising { AreRising states.now.keys }
    requires entered { IsNotStart states.now.keys state }
    ensures cached { OnOk result (IsCacheOf trees.now cache.new) }
    ensures foresees { IfOk result (λ lives. Foresees (cores_of trees.now) trees.now.looks
        states.now.keys state cache.new.steps.items lives.items) }
{
    match states.get_index(state) {
        Some(key) => cache.live_trees(trees, key),
        None => unreachable!(),
    }
}

/// Returns whether the state with the number `state` is the start.
fn is_start_at(states: &IndexSet<Key>, state: usize) -> bool
    requires within { state < length states.now.keys }
    ensures { IsFalse result → IsNotStart states.now.keys state }
{
    match states.get_index(state) {
        Some(key) => is_start(key.kind),
        None => unreachable!(),
    }
}

/// Returns the targets of the state with the number `state` for all bytes, and adds the new targets
/// to `states`.
///
/// Does not store the steps from the start, which no other state shares because only the start
/// enters the trees. If there is only one tree, stores no steps, because the states of the tree
/// seldom occur twice.
///
/// # Errors
///
/// Returns `AllocError` if memory runs out.
pub fn row_of(
    trees: &Trees<'_>,
    cache: &mut StepCache,
    states: &mut IndexSet<Key>,
    state: usize,
) -> Result<DraftRow, AllocError>
    requires prepared { IsPrepared trees.now }
    requires cached { IsCacheOf trees.now cache.old }
    requires within { state < length states.old.keys }
    requires rising { AreRising states.old.keys }
    requires reached { AreReached (cores_of trees.now) trees.now.looks states.old.keys }
    requires few { length states.old.keys < 2 ^ 30 }
    ensures cached { OnOk result (IsCacheOf trees.now cache.new) }
    ensures extends { OnOk result (Extends (cores_of trees.now)
        trees.now.looks states.old.keys states.new.keys SYMBOLS) }
    ensures row { IfOk result (λ row.
        IsRow (cores_of trees.now) trees.now.looks states.new.keys state row 256) }
    ensures wide { IfOk result (λ row. length row ≡ 256) }
{
    if trees.nodes.len() == 1 || is_start_at(states, state) {
        return plain_row(trees, states, state);
    }
    cache.trim();
    let lives = live_in(trees, cache, states, state)?;
    let steps = StateSteps {
        alloc: trees.alloc,
        lives: &lives,
        steps: &cache.steps,
        looks: trees.looks,
    };
    row_by(steps, trees.kinds, states)
}

/// Returns `row` with 16-bit entries. Each target must be less than 65,536.
pub fn narrowed(row: &DraftRow) -> Row
    requires { (byte : ℕ) → byte < 256 → slice_index row.now byte < 2 ^ 16 }
    ensures wide { length result ≡ 256 }
    ensures same { (byte : ℕ) → byte < 256 → slice_index result byte ≡ slice_index row.now byte }
{
    let mut narrow = [0; 256];
    for byte in 0..256 {
        narrow[byte] = row[byte] as u16;
    }
    narrow
}
