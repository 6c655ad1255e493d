//! Makes single match attempts. `run` calls `attempted` at an entry that does not determine the
//! match.

ghost use Rattle.std.specs.Prelude.{◌≤◌, length};
ghost use Rattle.logos_scan.specs.Views.{IsTaken};

use logos_code::code::Code;
use logos_hir::leaf::LeafId;
use logos_machine::machine::walk::{Outcome, attempt};
use logos_token::token::Span;

/// The result of a match attempt, unless the match is known to be skipped without a callback.
#[derive(Clone, Copy)]
pub enum Taken {
    /// A match of this leaf that is a token.
    Emits(LeafId, Span),
    /// A match of this leaf that may be skipped, or may have a callback.
    CallsBack(LeafId, Span),
    /// An error: bytes that no leaf matches.
    Fails(Span),
    /// The end of the input.
    Ends,
}

/// Makes match attempts from `start` on, until the outcome of an attempt is not `Skips`. Returns
/// the result of this attempt, and the start of the next attempt.
pub(crate) fn attempted(code: &Code, input: &[u8], start: usize) -> (Taken, usize)
    requires { start ≤ length input.now }
    ensures { IsTaken code.now input.now start result.0 result.1 }
{
    let mut from = start;
    loop {
        match attempt(code, input, from) {
            Outcome::Skips(to) => from = to,
            Outcome::Emits(leaf, to, _) => return (Taken::Emits(leaf, Span { from, to }), to),
            Outcome::CallsBack(leaf, to, _) => return (
                Taken::CallsBack(leaf, Span { from, to }),
                to,
            ),
            Outcome::Fails(to, _) => return (Taken::Fails(Span { from, to }), to),
            Outcome::Ends(_) => return (Taken::Ends, from),
        }
    }
}
