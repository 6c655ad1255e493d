//! Finds and checks bytes that distinguish two states of a reduced table. Called by
//! `Graph::telling` and `Graph::checks`.

ghost use Rattle.std.specs.Prelude.{◌≡◌, ◌≢◌, ◌⊎◌, ◌↔◌, ◌<◌, ℕ, IsTrue, IfOk, IfSome, MatchOption, Some, None};
ghost use Rattle.logos_reduce.specs.Views.{size, to, YieldsEvidence, mark_with_end, mark_after, Distinguishes, IsEvidence, state_after, ArePartedAt};

use logos_reduce::reduction::Reduction;
use logos_reduce::rows::{END, WIDTH};
use logos_reduce::table::{StateMarks, Table};
use std::alloc::{AllocError, Global};

/// Returns the state to which `bytes` lead from the state `s`, or `None` if there is no such state.
fn state_after(table: &Table, s: usize, bytes: &[u8]) -> Option<usize>
    requires { s < size table.now }
    ensures state { result ≡ state_after table.now (Some s) bytes.now }
    ensures within { IfSome result (λ t. t < size table.now) }
{
    let mut at = s;
    for b in bytes {
        at = table.target(at, usize::from(*b))?;
    }
    Some(at)
}

/// Returns the marks of the state `s`. If `at_end` is `true`, returns the marks of the state to
/// which the end of the input leads from `s`, or `None` if there is no such state.
fn mark_with_end(table: &Table, s: usize, at_end: bool) -> Option<StateMarks>
    requires { s < size table.now }
    ensures { result ≡ mark_with_end table.now s at_end }
{
    if !at_end {
        return Some(table.mark(s));
    }
    let t = table.target(s, END)?;
    Some(table.mark(t))
}

/// Returns the marks of the state to which `bytes` lead from the state `s`, followed by the end of
/// the input if `at_end` is `true`. Returns `None` if there is no such state.
fn mark_after(table: &Table, s: usize, bytes: &[u8], at_end: bool) -> Option<StateMarks>
    requires { s < size table.now }
    ensures { result ≡ mark_after table.now s bytes.now at_end }
{
    let t = state_after(table, s, bytes)?;
    mark_with_end(table, t, at_end)
}

/// Returns whether two marks differ, or whether exactly one of the marks exists.
fn differ(one: Option<StateMarks>, other: Option<StateMarks>) -> bool
    ensures { IsTrue result ↔ (one ≢ other) }
{
    one != other
}

/// Returns the targets of the states `s` and `t` on the symbol `k`, or `None` if `s` or `t` has no
/// target on `k`.
fn both_targets(table: &Table, s: usize, t: usize, k: usize) -> Option<(usize, usize)>
    requires s_in { s < size table.now }
    requires t_in { t < size table.now }
    requires k_in { k < WIDTH }
    ensures { MatchOption result
        ((to table.now s k ≡ None) ⊎ (to table.now t k ≡ None))
        (λ p. (to table.now s k ≡ Some p.0) × (to table.now t k ≡ Some p.1)) }
{
    Some((table.target(s, k)?, table.target(t, k)?))
}

/// Returns the numbers `a` and `b`, which must be different, in ascending order.
fn ordered(a: usize, b: usize) -> (usize, usize)
    requires { a ≢ b }
    ensures order { result.0 < result.1 }
    ensures same { ((result.0 ≡ a) × (result.1 ≡ b)) ⊎ ((result.0 ≡ b) × (result.1 ≡ a)) }
{
    if a < b { (a, b) } else { (b, a) }
}

/// Returns the number of the block that was new when the states `s` and `t` were separated.
fn parted_at(reduced: &Reduction, s: usize, t: usize) -> usize
    requires evidence { YieldsEvidence reduced.now }
    requires s_in { s < size reduced.now.table }
    requires t_in { t < size reduced.now.table }
    requires different { s ≢ t }
    ensures { ArePartedAt reduced.now s t result }
{
    let (mut low, mut high) = ordered(reduced.blocks[s], reduced.blocks[t]);
    loop {
        let parent = reduced.splits[high].parent;
        if parent == low {
            return high;
        }
        (low, high) = ordered(parent, low);
    }
}

/// Returns whether `bytes`, followed by the end of the input if `at_end` is `true`, distinguish the
/// states `s` and `t`. Does not allocate.
pub fn checks(reduced: &Reduction, s: usize, t: usize, bytes: &[u8], at_end: bool) -> bool
    requires s_in { s < size reduced.now.table }
    requires t_in { t < size reduced.now.table }
    ensures { IsTrue result ↔ Distinguishes reduced.now.table s t bytes.now at_end }
{
    let one = mark_after(&reduced.table, s, bytes, at_end);
    let other = mark_after(&reduced.table, t, bytes, at_end);
    differ(one, other)
}

/// Finds bytes that distinguish the states `s` and `t`, which must be different. Returns the bytes,
/// and whether the end of the input follows the bytes. There are fewer bytes than states.
///
/// # Errors
///
/// Returns `AllocError` if memory runs out.
pub fn evidence(
    alloc: Global,
    reduced: &Reduction,
    s: usize,
    t: usize,
) -> Result<(Vec<u8>, bool), AllocError>
    requires evidence { YieldsEvidence reduced.now }
    requires s_in { s < size reduced.now.table }
    requires t_in { t < size reduced.now.table }
    requires different { s ≢ t }
    ensures { IfOk result (λ p. IsEvidence reduced.now.table s t p.0.items p.1) }
{
    let mut bytes = Vec::new(alloc);
    let mut left = s;
    let mut right = t;
    loop {
        let split = reduced.splits[parted_at(reduced, left, right)];
        let Some(k) = split.symbol else {
            return Ok((bytes, false));
        };
        if k == END {
            return Ok((bytes, true));
        }
        bytes.push(k as u8)?;
        let Some((a, b)) = both_targets(&reduced.table, left, right, k) else {
            return Ok((bytes, false));
        };
        left = a;
        right = b;
    }
}
