//! Functions that report the faults of leaves. Each function reports one kind of fault. Called by
//! `leaf`.

ghost use Rattle.std.specs.Prelude.{OnOk};
ghost use Rattle.logos_leaf.specs.Imports.{AddsFault, greedy_dot, priority_overflow};

use logos_token::error::{Errors, FaultCode, Memory};
use logos_token::token::Span;

/// The message for a greedy dot in a pattern.
const GREEDY_DOT: &str =
    "This pattern contains an unbounded greedy dot repetition, i.e. `.*` or `.+` (or a character class that is equivalent to a dot, i.e., `[^\\n]*`). This will cause the entirety of the input to be read for every token. Consider making your repetition non-greedy or changing it to a more specific character class. If this is the intended behavior, add #[regex(..., allow_greedy = true)] or#[logos(skip(..., allow_greedy = true))]";

/// Reports that the pattern whose literal is at `span` contains a greedy dot.
pub(crate) fn report_greedy_dot(span: Span, errors: &mut Errors) -> Result<(), Memory>
    ensures { OnOk result (AddsFault (greedy_dot span) errors.old errors.new) }
{
    errors.err(FaultCode::GreedyDot, GREEDY_DOT, span)
}

/// Reports that the default priority of the pattern whose literal is at `span` does not fit
/// `usize`.
pub(crate) fn report_overflow(span: Span, errors: &mut Errors) -> Result<(), Memory>
    ensures { OnOk result (AddsFault (priority_overflow span) errors.old errors.new) }
{
    errors.err(
        FaultCode::PriorityOverflow,
        "the default priority is too large",
        span,
    )
}
