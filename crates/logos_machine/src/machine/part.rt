//! Lexes a part of an input without knowledge of the bytes after the part. `logos_stream` calls
//! `next_within` for each item, and `logos_relex` calls `next_within` for each item of a chunk.

ghost use Rattle.std.specs.Prelude.{◌≡◌, ◌<◌, ◌≤◌, ◌+◌, drop, length, false, List, ℕ, MatchBool};
ghost use Rattle.logos_machine.specs.Views.{IsStatus, answers_of, fork_of, looped, status_of, state_at, DoesWithin, HasBranches, IsClosed, IsOpen, IsSettled, KeepsGiven, Moves, NoBranches, TakesMatches};

use super::attempt::{Status, error_end, marked, stop_of};
use super::{Action, Item, Lexer, error, matched_item};
use logos_code::code::{Code, Fork};
use logos_hir::leaf::LeafId;
use logos_token::token::Span;

/// The result of `next_within`: an item, a request for more bytes, or the end of the input.
#[derive(Clone, Copy, Debug)]
pub enum Within<'i> {
    /// The next item. The item does not depend on the bytes after the part.
    Item(Item<'i>),
    /// A request for more bytes. The next match attempt has reached the end of the part, in a state
    /// from which more bytes or the end of the input can continue the attempt.
    More,
    /// The end of the input. Returned only for the last part.
    End,
}

impl<'c, 's, 'i, C: Fn(LeafId, &[u8]) -> Action> Lexer<'c, 's, 'i, C> {
    /// Returns the next item of an input of which the lexer has only a part.
    ///
    /// If `last` is `true`, the part is the last part of the input. The function then returns the
    /// result of `next`, with `End` for `None`. If `last` is `false`, more bytes may follow. The
    /// function then returns the next item if no byte after the part can change the item, and
    /// `More` otherwise.
    ///
    /// After `More`, the lexer has passed the matches without an item, and the span of the lexer is
    /// empty. The next match attempt has reached the end of the part, and more bytes or the end of
    /// the input can continue the attempt. To continue, append more bytes to the bytes of
    /// `remainder`, and create a lexer for all these bytes.
    pub fn next_within(&mut self, last: bool) -> Within<'i>
        requires { TakesMatches C.Fn self.old.code self.old.callback }
        ensures keeps { KeepsGiven self.old self.new }
        ensures does { DoesWithin last (answers_of C.Fn self.old.callback) self.old self.new
            result }
    {
        if !last {
            return self.next_in_part();
        }
        match self.next() {
            Some(item) => Within::Item(item),
            None => Within::End,
        }
    }

    /// Returns the next item if no byte after the part can change the item, and `More` otherwise.
    fn next_in_part(&mut self) -> Within<'i>
        requires { TakesMatches C.Fn self.old.code self.old.callback }
        ensures keeps { KeepsGiven self.old self.new }
        ensures does { DoesWithin false (answers_of C.Fn self.old.callback) self.old self.new
            result }
    {
        let code = self.code;
        let part = self.input;
        let steps = self.steps;
        let mut from = self.to;
        loop {
            match attempt_in_part(code, part, from) {
                Settled::Matched(leaf, to, steps) => {
                    let span = Span { from, to };
                    if let Some(item) = matched_item(code, part, &self.callback, leaf, span) {
                        self.status_after(from, to, steps);
                        return Within::Item(item);
                    }
                    from = to;
                }
                Settled::Failed(to, steps) => {
                    self.status_after(from, to, steps);
                    return Within::Item(error(part, Span { from, to }));
                }
                Settled::Open => {
                    self.status_after(from, from, steps);
                    return Within::More;
                }
            }
        }
    }
}

/// The step that an attempt on a part of an input makes in a state.
#[derive(Clone, Copy)]
enum Move {
    Enters(Status),
    /// The end of the attempt. The first field is the last mark passed, and the second field is the
    /// offset at which the attempt ends.
    Acts(Option<(LeafId, usize)>, usize),
    /// The end of the part. More bytes or the end of the input can continue the attempt.
    Waits,
}

/// The result of an attempt on a part of an input. The last number of a match or an error is the
/// number of states that the attempt entered.
#[derive(Clone, Copy)]
enum Settled {
    /// A match of this leaf that ends at this offset.
    Matched(LeafId, usize, usize),
    /// No match. The error ends at this offset.
    Failed(usize, usize),
    /// No result. The attempt has reached the end of the part and can continue.
    Open,
}

/// Returns the step in the state that an attempt from `start` has entered if no byte after the part
/// can change the step, and `Waits` otherwise. `at` is the status of the attempt when it enters the
/// state.
fn move_in_part(code: &Code, part: &[u8], start: usize, at: Status) -> Move
    requires { IsStatus code.now part.now start (status_of at) }
    ensures { Moves code.now part.now start (status_of at) result }
{
    let stop = stop_of(code, part, at.state, at.offset);
    let Some(target) = stop.target else {
        return move_at_end(code, part, start, at);
    };
    let context = marked(code.sign(at.state), stop.offset, at.context);
    match target {
        Some(state) => Move::Enters(Status {
            state,
            offset: stop.offset + 1,
            context,
        }),
        None => Move::Acts(context, stop.offset),
    }
}

/// Returns the step in a state whose fast loop reaches the end of the part. The step is `Waits`,
/// unless the attempt has read a byte and the state has no transitions. Such a state ends the
/// attempt at once: for example, a match of `;` needs no byte after the match.
fn move_at_end(code: &Code, part: &[u8], start: usize, at: Status) -> Move
    requires status { IsStatus code.now part.now start (status_of at) }
    requires past { length part.now
        ≤ at.offset + looped code.now (state_at code.now at.state).fast_loop (drop at.offset part.now) }
    ensures { Moves code.now part.now start (status_of at) result }
{
    if at.offset <= start {
        return Move::Waits;
    }
    if is_closed(code, at.state) {
        let context = marked(code.sign(at.state), at.offset, at.context);
        return Move::Acts(context, at.offset);
    }
    Move::Waits
}

/// Returns whether the state has no transition on a byte or on the end of the input, and no fast
/// loop.
fn is_closed(code: &Code, state: usize) -> bool
    requires { state < length code.now.states }
    ensures { MatchBool result (IsClosed (state_at code.now state))
        (IsOpen (state_at code.now state)) }
{
    if code.fast_loop(state).is_some() {
        return false;
    }
    if code.at_end(state).is_some() {
        return false;
    }
    if has_branches(&code.parts().states[state].fork) {
        return false;
    }
    true
}

/// Returns whether a fork has a branch. A jump table counts as a branch, even if all its entries
/// are empty.
fn has_branches(fork: &Fork) -> bool
    ensures { (tables : List (List ℕ)) → MatchBool result
        (HasBranches (fork_of tables fork.now)) (NoBranches (fork_of tables fork.now)) }
{
    match fork {
        Fork::Conditions(branches) => !branches.is_empty(),
        Fork::Table(_) => true,
    }
}

/// Returns the result of an attempt from `start` on if the result depends only on the part, and
/// `Open` otherwise.
fn attempt_in_part(code: &Code, part: &[u8], start: usize) -> Settled
    requires { start ≤ length part.now }
    ensures { IsSettled code.now part.now start result }
{
    let mut at = Status {
        state: code.root(),
        offset: start,
        context: None,
    };
    let mut before = 0;
    loop {
        match move_in_part(code, part, start, at) {
            Move::Enters(next) => at = next,
            Move::Acts(Some((leaf, to)), _) => return Settled::Matched(leaf, to, before + 1),
            Move::Acts(None, offset) => {
                return Settled::Failed(error_end(code, part, start, offset), before + 1);
            }
            Move::Waits => return Settled::Open,
        }
        before += 1;
    }
}
