//! Computes the keys by which states are looked up while the automaton is built. `dfa::builder`
//! begins with the key of the start, and `row` computes the key of each target.

ghost use Rattle.std.specs.Prelude.{◌≡◌, ◌<◌, ◌≤◌, ◌+◌, Bool, List, IfOk, OnOk, length};
ghost use Rattle.logos_automaton.specs.Views.{Core, IsRising, IsPrepared, cores_of};
ghost use Rattle.logos_automaton.specs.Keys as keys;

use crate::trees::Trees;
use indexmap::IndexSet;
use logos_positions::positions::look::{ByteKind, Context, kind_of};
use logos_positions::positions::step::ReadByte;
use logos_positions::positions::trees::{Forest, exits_all, step_all};
use std::alloc::{AllocError, Global};

/// The key of a state: the information that an automaton stores about the bytes that it has read.
#[derive(PartialEq, Eq, Hash, Drop)]
pub struct Key {
    /// The positions that can have read the last byte, in ascending order.
    pub positions: Vec<usize>,
    /// The kind of the last byte, or `Unseen` if look-around assertions cannot depend on the byte.
    pub kind: ByteKind,
    /// The numbers of the trees that match all bytes before the last byte, or all bytes if the end
    /// was read. The numbers are in ascending order.
    pub matches: Vec<usize>,
}

/// Returns the kind of `byte`, which is read at `positions`. Returns `Unseen` if `positions` is
/// empty or `looks` is `false`. `looks` is `true` if at least one tree has a look-around assertion.
pub fn next_kind(looks: bool, positions: &[usize], byte: u8) -> ByteKind
    ensures { result ≡ keys.next_kind looks positions.now byte }
{
    if looks && !positions.is_empty() {
        kind_of(byte)
    } else {
        ByteKind::Unseen
    }
}

/// Returns whether no byte was read. `kind` is the kind of the last byte.
pub fn is_start(kind: ByteKind) -> bool
    ensures { result ≡ keys.is_start kind }
{
    matches!(kind, ByteKind::Start)
}

/// Returns the key of the state before the first byte.
pub fn start_key(alloc: Global) -> Key
    ensures { keys.state_of result ≡ keys.start_state }
{
    Key {
        positions: Vec::new(alloc),
        kind: ByteKind::Start,
        matches: Vec::new(alloc),
    }
}

/// Returns the key of the state to which `byte` leads from the state with the key `key`.
///
/// # Errors
///
/// Returns `AllocError` if memory runs out.
pub fn step_key(trees: &Trees<'_>, key: &Key, byte: u8) -> Result<Key, AllocError>
    requires prepared { IsPrepared trees.now }
    requires rising { IsRising key.now.positions.items }
    ensures { IfOk result (λ made. keys.IsNext (cores_of trees.now) trees.now.looks
        (keys.state_of key.now) byte (keys.state_of made)) }
{
    let at = Context {
        before: key.kind,
        after: Some(byte),
    };
    let by = ReadByte {
        byte,
        marks: &key.positions,
        at,
    };
    let forest = Forest {
        nodes: trees.nodes,
        starts: trees.starts,
    };
    let step = step_all(trees.alloc, forest, by, is_start(key.kind))?;
    Ok(Key {
        kind: next_kind(trees.looks, &step.positions, byte),
        positions: step.positions,
        matches: step.left,
    })
}

/// Returns the key of the state to which the end of the input leads from the state with the key
/// `key`.
///
/// # Errors
///
/// Returns `AllocError` if memory runs out.
pub fn end_key(trees: &Trees<'_>, key: &Key) -> Result<Key, AllocError>
    requires prepared { IsPrepared trees.now }
    requires rising { IsRising key.now.positions.items }
    ensures { IfOk result (λ made. keys.IsLast (cores_of trees.now) (keys.state_of key.now)
        (keys.state_of made)) }
{
    let at = Context {
        before: key.kind,
        after: None,
    };
    let forest = Forest {
        nodes: trees.nodes,
        starts: trees.starts,
    };
    let matches = exits_all(trees.alloc, forest, &key.positions, at, is_start(key.kind))?;
    Ok(Key {
        positions: Vec::new(trees.alloc),
        kind: ByteKind::Unseen,
        matches,
    })
}

/// Returns the key of a state after the end of the input. `matches` contains the numbers of the
/// trees that match all bytes.
///
/// # Errors
///
/// Returns `AllocError` if memory runs out.
pub fn ended_key(alloc: Global, matches: &[usize]) -> Result<Key, AllocError>
    ensures { IfOk result (λ made. keys.state_of made ≡ keys.ended_state matches.now) }
{
    Ok(Key {
        positions: Vec::new(alloc),
        kind: ByteKind::Unseen,
        matches: Vec::from_slice(alloc, matches)?,
    })
}

/// Returns the number of the state with the key `key`. Adds the state to `states` if it is new.
///
/// # Errors
///
/// Returns `AllocError` if memory runs out.
pub fn number_of(states: &mut IndexSet<Key>, key: Key) -> Result<usize, AllocError>
    ensures grows { OnOk result (keys.Grows states.old.keys states.new.keys) }
    ensures rising { keys.AreRising states.old.keys → IsRising key.positions.items →
        OnOk result (keys.AreRising states.new.keys) }
    ensures distinct { keys.AreDistinct states.old.keys →
        OnOk result (keys.AreDistinct states.new.keys) }
    ensures reached { (ts : List Core) (looks : Bool) → keys.AreReached ts looks states.old.keys →
        keys.IsReached ts looks (keys.state_of key) →
        OnOk result (keys.AreReached ts looks states.new.keys) }
    ensures longer { OnOk result (length states.old.keys ≤ length states.new.keys) }
    ensures few { OnOk result (length states.new.keys ≤ length states.old.keys + 1) }
    ensures within { IfOk result (λ i. i < length states.new.keys) }
    ensures stored { IfOk result (λ i. keys.IsAt states.new.keys i (keys.state_of key)) }
{
    let (i, _) = states.insert_full(key)?;
    Ok(i)
}
