//! Defines lexers. A lexer runs a code on an input and returns the items of the input one at a
//! time. Used by `logos_scan`, `logos_stream` and `logos_relex`. Part of the public interface.

ghost use Rattle.std.specs.Prelude.{◌≡◌, ◌<◌, ◌≤◌, length, option_map, slice_range, MatchBool, MatchOption, IfOk, IfErr, IsTrue, IsUtf8, drop, None};
ghost use Rattle.logos_machine.specs.Views.{IsValidUpTo, calls_back_for, token, error, answers_of, begun, item_of, Yields, Ends, Keeps, MatchYields, Takes, TakesMatches};

mod attempt;
mod fast_loop;
mod part;
pub mod walk;

pub use logos_code::action::Action;
use logos_code::code::Code;
use logos_hir::leaf::LeafId;
use logos_token::token::Span;
pub use part::Within;
use std::marker::Model;
use walk::{Outcome, attempt};

/// An element of a lexer's output: a match of a leaf, or an error. `span` is a range of byte
/// offsets in the input, and `slice` contains the input's bytes at the span.
#[derive(Clone, Copy, Debug)]
pub enum Item<'i> {
    /// A match of `leaf`.
    Token {
        leaf: LeafId,
        span: Span,
        slice: &'i [u8],
    },
    /// An error. If `leaf` is `None`, no leaf matches the bytes at the span. Otherwise, the bytes
    /// are a match of `leaf` for which the callback returned `Error`.
    Error {
        leaf: Option<LeafId>,
        span: Span,
        slice: &'i [u8],
    },
}

/// The error that occurs if a lexer is in UTF-8 mode but its input is not UTF-8.
#[derive(Clone, Copy, Debug, PartialEq, Eq)]
pub struct NotUtf8 {
    /// The length in bytes of the longest prefix of the input that is UTF-8.
    pub valid_up_to: usize,
}

/// A lexer, which runs a code on an input and returns the input's items one at a time. Items borrow
/// only the input, so they can outlive the lexer.
#[derive(Drop)]
pub struct Lexer<'c, 's, 'i, C> {
    code: &'c Code<'s>,
    input: &'i [u8],
    callback: C,
    from: usize,
    to: usize,
    steps: usize,
}

impl<'c, 's, 'i, C> Model for Lexer<'c, 's, 'i, C> {
    ghost use Rattle.std.specs.Prelude.{◌≤◌, [], length};
    ghost use Rattle.logos_machine.specs.Views.{codes, named, LexerValue};
    ghost use Rattle.logos_type.specs.contracts.type_expr.TypePart as p;

    ghost Value = { LexerValue C };

    ghost coded = { Prim.hlevel (codes, (p.the_row (record { mir = named 1; lft = [] })).coded) };

    ghost view = { λ l. record {
      code = l.code.now;
      input = l.input.now;
      callback = l.callback;
      from = l.from;
      to = l.to;
      steps = l.steps;
    } };

    ghost invariant = { λ l. (l.from ≤ l.to) × (l.to ≤ length l.input.now) };
}

impl<'c, 's, 'i, C: Fn(LeafId, &[u8]) -> Action> Lexer<'c, 's, 'i, C> {
    /// Returns a lexer at the start of a text. The lexer calls `callback` for each match of a leaf
    /// that has a callback.
    pub fn new_str(code: &'c Code<'s>, input: &'i str, callback: C) -> Lexer<'c, 's, 'i, C>
        ensures { result ≡ begun code.now input.now callback }
    {
        Lexer::start(code, input.as_bytes(), callback)
    }

    /// Returns a lexer at the start of an input of bytes. The lexer calls `callback` for each match
    /// of a leaf that has a callback.
    ///
    /// # Errors
    ///
    /// Returns `NotUtf8` if the code is in UTF-8 mode and the bytes are not UTF-8.
    pub fn new_bytes(
        code: &'c Code<'s>,
        input: &'i [u8],
        callback: C,
    ) -> Result<Lexer<'c, 's, 'i, C>, NotUtf8>
        ensures accepted { IfOk result (λ lexer. (lexer ≡ begun code.now input.now callback)
            × (IsTrue code.now.utf8 → IsUtf8 input.now)) }
        ensures refused { IfErr result (λ refusal. IsTrue code.now.utf8 × ¬ IsUtf8 input.now
            × IsValidUpTo input.now refusal.valid_up_to) }
    {
        if code.is_utf8() {
            check_utf8(input)?;
        }
        Ok(Lexer::start(code, input, callback))
    }

    /// Returns a lexer at the start of an input of bytes. The bytes must be UTF-8 if the code is in
    /// UTF-8 mode. `logos_stream` calls this function because it has validated the bytes while
    /// reading them.
    pub fn new_checked(code: &'c Code<'s>, input: &'i [u8], callback: C) -> Lexer<'c, 's, 'i, C>
        requires { IsTrue code.now.utf8 → IsUtf8 input.now }
        ensures { result ≡ begun code.now input.now callback }
    {
        Lexer::start(code, input, callback)
    }

    /// Returns a lexer before the first byte of the input.
    fn start(code: &'c Code<'s>, input: &'i [u8], callback: C) -> Lexer<'c, 's, 'i, C>
        ensures { result ≡ begun code.now input.now callback }
    {
        Lexer {
            code,
            input,
            callback,
            from: 0,
            to: 0,
            steps: 0,
        }
    }

    /// Returns the next item, or `None` at the end of the input and on every later call. Calls the
    /// callback for each match of a leaf that has a callback, and for no other match.
    #[inline(always)]
    pub fn next(&mut self) -> Option<Item<'i>>
        requires { TakesMatches C.Fn self.old.code self.old.callback }
        ensures keeps { Keeps self.old self.new }
        ensures item { MatchOption result
            (Ends (answers_of C.Fn self.old.callback) self.old self.new)
            (λ i. Yields (answers_of C.Fn self.old.callback) self.old self.new (item_of i)) }
    {
        let code = self.code;
        let input = self.input;
        let mut from = self.to;
        loop {
            match attempt(code, input, from) {
                Outcome::Skips(to) => from = to,
                Outcome::Emits(leaf, to, steps) => {
                    self.status_after(from, to, steps);
                    return Some(token(input, leaf, Span { from, to }));
                }
                Outcome::CallsBack(leaf, to, steps) => {
                    let span = Span { from, to };
                    if let Some(item) = matched_item(code, input, &self.callback, leaf, span) {
                        self.status_after(from, to, steps);
                        return Some(item);
                    }
                    from = to;
                }
                Outcome::Fails(to, steps) => {
                    self.status_after(from, to, steps);
                    return Some(error(input, Span { from, to }));
                }
                Outcome::Ends(steps) => {
                    self.status_after(from, from, steps);
                    return None;
                }
            }
        }
    }

    /// Moves the lexer to the offset `to`, and sets the span of the last item to `from..to`.
    /// `steps` is the number of states that the last attempt entered.
    #[inline(always)]
    fn status_after(&mut self, from: usize, to: usize, steps: usize)
        requires order { from ≤ to }
        requires within { to ≤ length self.old.input }
        ensures { self.new ≡ record {
          code = self.old.code;
          input = self.old.input;
          callback = self.old.callback;
          from = from;
          to = to;
          steps = steps;
        } }
    {
        self.from = from;
        self.to = to;
        self.steps = steps;
    }

    /// Returns the span of the last item, in bytes of the input. The span is `0..0` before the
    /// first item. After `next` has returned `None`, the span is empty and lies at the end of the
    /// input. After `next_within` has returned `More`, the span is empty and lies at the start of
    /// the next match attempt.
    pub fn span(&self) -> Span
        ensures { result ≡ record { from = self.now.from; to = self.now.to } }
    {
        Span {
            from: self.from,
            to: self.to,
        }
    }

    /// Returns the input's bytes at the span of the last item.
    pub fn slice(&self) -> &'i [u8]
        ensures { result.now ≡ slice_range self.now.input self.now.from self.now.to }
    {
        &self.input[self.from..self.to]
    }

    /// Returns the input's bytes after the span of the last item.
    pub fn remainder(&self) -> &'i [u8]
        ensures { result.now ≡ drop self.now.to self.now.input }
    {
        &self.input[self.to..]
    }

    /// Returns the code of the lexer.
    pub fn code(&self) -> &'c Code<'s>
        ensures { result.now ≡ self.now.code }
    {
        self.code
    }

    /// Returns the whole input.
    pub fn input(&self) -> &'i [u8]
        ensures { result.now ≡ self.now.input }
    {
        self.input
    }

    /// Returns the callback of the lexer.
    pub fn callback(&self) -> &C
        ensures { result.now ≡ self.now.callback }
    {
        &self.callback
    }

    /// Returns the number of states that the last attempt entered, or 0 before the first attempt.
    /// The number is unchanged when `next_within` returns `More`.
    pub fn steps(&self) -> usize
        ensures { result ≡ self.now.steps }
    {
        self.steps
    }
}

/// Checks that the input is UTF-8.
///
/// # Errors
///
/// Returns `NotUtf8`, with the length of the longest prefix that is UTF-8, if the input is not
/// UTF-8.
fn check_utf8(input: &[u8]) -> Result<(), NotUtf8>
    ensures accepted { IfOk result (λ _. IsUtf8 input.now) }
    ensures refused { IfErr result
        (λ refusal. ¬ IsUtf8 input.now × IsValidUpTo input.now refusal.valid_up_to) }
{
    match str::from_utf8(input) {
        Ok(_) => Ok(()),
        Err(error) => Err(NotUtf8 {
            valid_up_to: error.valid_up_to(),
        }),
    }
}

/// Returns the token for a match of `leaf` at `span` in the input.
#[inline(always)]
pub fn token<'i>(input: &'i [u8], leaf: LeafId, span: Span) -> Item<'i>
    requires order { span.from ≤ span.to }
    requires within { span.to ≤ length input.now }
    ensures { item_of result ≡ token leaf.0 span.from span.to
        (slice_range input.now span.from span.to) }
{
    Item::Token {
        leaf,
        span,
        slice: &input[span.from..span.to],
    }
}

/// Returns the error at `span` in the input, for bytes that no leaf matches.
pub fn error<'i>(input: &'i [u8], span: Span) -> Item<'i>
    requires order { span.from ≤ span.to }
    requires within { span.to ≤ length input.now }
    ensures { item_of result ≡ error None span.from span.to
        (slice_range input.now span.from span.to) }
{
    Item::Error {
        leaf: None,
        span,
        slice: &input[span.from..span.to],
    }
}

/// Returns the item for a match of `leaf` at `span` in the input: a token if the action is `Emit`,
/// and an error if the action is `Error`. Returns `None` if the action is `Skip`, or if the action
/// is `Emit` and the leaf is a skip. Calls the callback only for a leaf that has a callback. For
/// any other leaf, the action is `Emit`.
#[inline(always)]
pub fn matched_item<'i, C: Fn(LeafId, &[u8]) -> Action>(
    code: &Code,
    input: &'i [u8],
    callback: &C,
    leaf: LeafId,
    span: Span,
) -> Option<Item<'i>>
    requires callable { IsTrue (calls_back_for code.now leaf.0) → Takes C.Fn callback.now leaf
        (slice_range input.now span.from span.to) }
    requires leaf { leaf.0 < length code.now.leaves }
    requires order { span.from ≤ span.to }
    requires within { span.to ≤ length input.now }
    ensures { MatchYields code.now (answers_of C.Fn callback.now) input.now leaf.0 span.from span.to
        (option_map item_of result) }
{
    let slice = &input[span.from..span.to];
    match answer(code, callback, leaf, slice) {
        Action::Emit if !code.skips(leaf) => Some(Item::Token { leaf, span, slice }),
        Action::Error => Some(Item::Error {
            leaf: Some(leaf),
            span,
            slice,
        }),
        _ => None,
    }
}

/// Returns the action for a match of `leaf` with the bytes `slice`: the result of the callback if
/// the leaf has a callback, and `Emit` otherwise.
#[inline(always)]
fn answer<C: Fn(LeafId, &[u8]) -> Action>(
    code: &Code,
    callback: &C,
    leaf: LeafId,
    slice: &[u8],
) -> Action
    requires callable { IsTrue (calls_back_for code.now leaf.0) → Takes C.Fn callback.now leaf slice.now }
    requires leaf { leaf.0 < length code.now.leaves }
    ensures { MatchBool (calls_back_for code.now leaf.0)
        (answers_of C.Fn callback.now leaf.0 slice.now result) (result ≡ Action.Emit) }
{
    if code.calls_back(leaf) {
        callback(leaf, slice)
    } else {
        Action::Emit
    }
}
