//! The slow path of a match attempt, which enters state after state and records the last mark
//! passed. `walk` takes this path if table entries do not determine the result. `part` uses
//! functions of this module for a part of an input without the bytes after the part.

ghost use Rattle.std.specs.Prelude.{◌≡◌, ◌+◌, ◌-◌, ◌<◌, ◌≤◌, ℕ, max, length, slice_get, drop, option_map, IfSome, IsTrue, IsCharBoundary, ◌^◌, ◌↔◌};
ghost use Rattle.logos_machine.specs.Views.{state_at, mark_by, Does, Attempts, EndsError, target, looped, marked, IsStatus, StaysWithin, context_of, status_of, turn_of, found_of};

use super::fast_loop::stop;
use logos_code::code::Code;
use logos_code::code::signs::Sign;
use logos_hir::leaf::LeafId;

/// The first UTF-8 continuation byte.
const CONTINUES: u8 = 128;

/// The byte after the last UTF-8 continuation byte.
const LEADS: u8 = 192;

/// The status of an attempt that enters a state: the state, the offset in the input, and the last
/// mark passed.
#[derive(Clone, Copy)]
pub(super) struct Status {
    pub state: usize,
    pub offset: usize,
    /// The leaf of the last mark passed and the end of its match, or `None` if no mark has been
    /// passed.
    pub context: Option<(LeafId, usize)>,
}

/// The step that an attempt makes in a state.
#[derive(Clone, Copy)]
pub(super) enum Turn {
    Enters(Status),
    /// The end of the attempt. The first field is the last mark passed, and the second field is the
    /// offset at which the attempt ends.
    Acts(Option<(LeafId, usize)>, usize),
    /// The end of an attempt that began at the end of the input.
    Returns,
}

/// The result of an attempt: a match or an error.
#[derive(Clone, Copy)]
pub(super) enum Found {
    Ended,
    /// A match of this leaf that ends at this offset.
    Matched(LeafId, usize),
    /// No match. The error ends at this offset.
    Failed(usize),
}

/// The point at which a state's fast loop ends.
#[derive(Clone, Copy)]
pub(super) struct LoopEnd {
    pub offset: usize,
    /// The target of the byte at `offset`, or `None` at the end of the input. The inner option is
    /// `None` if the byte leads to no state.
    pub target: Option<Option<usize>>,
}

/// Returns the step in the state that an attempt from `start` has entered. `at` is the status of
/// the attempt when it enters the state.
#[inline]
fn run_state(code: &Code, input: &[u8], start: usize, at: Status) -> Turn
    requires { IsStatus code.now input.now start (status_of at) }
    ensures { Does code.now input.now start (status_of at) (turn_of result) }
{
    let stop = stop_of(code, input, at.state, at.offset);
    let target = match stop.target {
        Some(target) => target,
        None if at.state == code.root() && stop.offset == start => return Turn::Returns,
        None => code.at_end(at.state),
    };
    let context = marked(code.sign(at.state), stop.offset, at.context);
    match target {
        Some(state) => Turn::Enters(Status {
            state,
            offset: stop.offset + 1,
            context,
        }),
        None => Turn::Acts(context, stop.offset),
    }
}

/// Returns the end of the fast loop of a state that is entered at `offset`, with the target of the
/// byte at the loop's end.
#[inline]
pub(super) fn stop_of(code: &Code, input: &[u8], state: usize, offset: usize) -> LoopEnd
    requires { state < length code.now.states }
    ensures offset { result.offset
        ≡ offset + looped code.now (state_at code.now state).fast_loop (drop offset input.now) }
    ensures target { result.target ≡ option_map (target code.now (state_at code.now state).fork)
        (slice_get input.now result.offset) }
    ensures within { result.offset ≤ max offset (length input.now) }
{
    if offset >= input.len() {
        return LoopEnd {
            offset,
            target: None,
        };
    }
    let end = loop_end(code, input, state, offset);
    if end >= input.len() {
        return LoopEnd {
            offset: end,
            target: None,
        };
    }
    LoopEnd {
        offset: end,
        target: Some(code.target(state, input[end])),
    }
}

/// Returns the end of the fast loop of a state that is entered at `offset`, or `offset` if the
/// state has no fast loop.
#[inline]
fn loop_end(code: &Code, input: &[u8], state: usize, offset: usize) -> usize
    requires state { state < length code.now.states }
    requires within { offset ≤ length input.now }
    ensures is { result
        ≡ offset + looped code.now (state_at code.now state).fast_loop (drop offset input.now) }
    ensures within { result ≤ length input.now }
{
    match code.fast_loop(state) {
        Some(test) => stop(code, test, input, offset),
        None => offset,
    }
}

/// Returns the last mark passed at the end of the step in a state with the sign `sign`. `offset` is
/// the end of the state's fast loop, and `context` is the last mark passed before the state.
#[inline]
pub(super) fn marked(
    sign: Sign,
    offset: usize,
    context: Option<(LeafId, usize)>,
) -> Option<(LeafId, usize)>
    requires { IfSome (mark_by sign) (λ m. IsTrue m.late → 0 < offset) }
    ensures { context_of result ≡ marked (mark_by sign) offset (context_of context) }
{
    match sign {
        Sign::Here(leaf) => Some((leaf, offset)),
        Sign::Before(leaf) => Some((leaf, offset - 1)),
        Sign::Nothing => context,
    }
}

/// Returns the end of the error of an attempt from `start` that ends at `offset`. The error ends at
/// the first offset, from `offset` on, that is greater than `start` and, in UTF-8 mode, on a
/// character boundary.
#[cold]
#[inline(never)]
pub(super) fn error_end(code: &Code, input: &[u8], start: usize, offset: usize) -> usize
    requires start { start < length input.now }
    requires offset { offset ≤ length input.now }
    ensures ends { EndsError code.now input.now start offset result }
    ensures within { result ≤ length input.now }
{
    let least = offset.max(start + 1);
    if code.is_utf8() {
        boundary_from(input, least)
    } else {
        least
    }
}

/// Returns the first character boundary at or after `from`.
fn boundary_from(input: &[u8], from: usize) -> usize
    requires { from ≤ length input.now }
    ensures past { from ≤ result }
    ensures boundary { IsCharBoundary input.now result }
    ensures least { (other : ℕ) → from ≤ other → IsCharBoundary input.now other → result ≤ other }
{
    let mut to = from;
    while to < input.len() && is_continuation(input[to]) {
        to += 1;
    }
    to
}

/// Returns whether the byte is a UTF-8 continuation byte.
fn is_continuation(byte: u8) -> bool
    ensures { IsTrue result ↔ (CONTINUES ≤ byte) × (byte < LEADS) }
{
    matches!(byte, 0x80..=0xBF)
}

/// Makes a match attempt from `start`, and records the marks passed during the attempt. Returns the
/// result and the number of states that the attempt entered.
#[cold]
#[inline(never)]
pub(super) fn attempt_with_marks(code: &Code, input: &[u8], start: usize) -> (Found, usize)
    requires { start ≤ length input.now }
    ensures attempts { Attempts code.now input.now start (found_of result.0) result.1 }
    ensures within { StaysWithin code.now input.now start (found_of result.0) }
    ensures few { result.1 ≤ (length input.now - start) + 2 }
{
    let mut at = Status {
        state: code.root(),
        offset: start,
        context: None,
    };
    let mut before = 0;
    loop {
        match run_state(code, input, start, at) {
            Turn::Enters(next) => at = next,
            Turn::Acts(Some((leaf, to)), _) => return (Found::Matched(leaf, to), before + 1),
            Turn::Acts(None, offset) => {
                return (
                    Found::Failed(error_end(code, input, start, offset)),
                    before + 1,
                );
            }
            Turn::Returns => return (Found::Ended, before + 1),
        }
        before += 1;
    }
}
