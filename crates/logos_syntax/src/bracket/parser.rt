//! Reads a whole bracket. The pattern parser calls `read_bracket` at each `[`.

ghost use Rattle.std.specs.Prelude.{◌≡◌, ◌<◌, ◌≤◌};
ghost use Rattle.logos_syntax.specs.Views.{pattern_nesting, IsStopOf, ReadsInside, ReadsBracket};

use crate::bracket::stack::{BracketOpening, BracketValue, Frames, MAX_NESTING};
use logos_pattern_tokens::bracket::reader::{bracket_token_at, open_at};
use logos_pattern_tokens::error::{Fault, Kind, Stop};
use logos_pattern_tokens::token::Flags;
use std::alloc::Global;

/// Returns the number of characters from the first unclosed `{` of an escape to the end of the
/// text, or the length of the text if there is no such `{`.
fn left_at_brace(text: &[char]) -> usize {
    let mut rest = after_braces(text);
    while let [_, after @ ..] = rest {
        if let ['\\', _, '{', ..] = rest {
            return rest.len().saturating_sub(2);
        }
        rest = after;
    }
    text.len()
}

/// Returns the text from its last `}` on, or the whole text if it has no `}`.
fn after_braces(text: &[char]) -> &[char] {
    match text.iter().rposition(|c| *c == '}') {
        Some(at) if at < text.len() => &text[at..],
        _ => text,
    }
}

/// Returns the stop for `fault`, the fault of the token at the front of `rest`. `rest` is the text
/// that remains to be read.
pub(crate) fn stop_for(flags: Flags, fault: Fault, rest: &[char]) -> Stop
    ensures { IsStopOf fault result }
{
    match fault {
        Fault::Memory => Stop::Memory,
        Fault::Syntax(Kind::Unclosed) => Stop::Syntax {
            kind: Kind::Unclosed,
            left: left_at_brace(rest),
        },
        Fault::Syntax(kind) => Stop::Syntax {
            kind: property_kind(flags, kind),
            left: rest.len(),
        },
    }
}

/// Returns `NotInBytes` for a fault of a property's name if the pattern matches bytes, and `kind`
/// otherwise.
fn property_kind(flags: Flags, kind: Kind) -> Kind {
    match kind {
        Kind::UnknownProperty | Kind::PropertyForm if !flags.unicode => Kind::NotInBytes,
        kind => kind,
    }
}

/// Reads the text after the opening of a bracket, up to the end of the bracket. Returns the set of
/// the bracket, the depth of its innermost point, and the rest of the text. `base` is the number of
/// groups that are open around the bracket.
///
/// # Errors
///
/// Returns:
///
/// - the first fault of the text, from left to right;
/// - `LimitPatternNesting` if the bracket is nested too deeply;
/// - `Memory` if memory runs out.
fn read_inside(
    alloc: Global,
    flags: Flags,
    base: usize,
    opening: BracketOpening,
    text: &[char],
) -> Result<(BracketValue, &[char]), Stop>
    requires { base < pattern_nesting }
    ensures { ReadsInside flags base opening.negated opening.lead text.now result }
{
    let mut frames = Frames::new(alloc, opening, base + 1)?;
    let mut rest = text;
    while !rest.is_empty() {
        let (token, after) = match bracket_token_at(alloc, rest) {
            Ok(found) => found,
            Err(fault) => return Err(stop_for(flags, fault, rest)),
        };
        if frames.ends_by(token) {
            return Ok((frames.finish(alloc, flags)?, after));
        }
        if let Err(stop) = frames.step(alloc, flags, base, token, rest.len()) {
            return Err(stop);
        }
        rest = after;
    }
    Err(Stop::Syntax {
        kind: Kind::Unclosed,
        left: frames.left(),
    })
}

/// Reads a bracket from the text after its `[`. Returns the set of the bracket, the depth of its
/// innermost point, and the rest of the text. `base` is the number of groups that are open around
/// the bracket.
///
/// # Errors
///
/// Returns:
///
/// - the first fault of the text, from left to right;
/// - `LimitPatternNesting` if the bracket is nested too deeply;
/// - `Memory` if memory runs out.
pub(crate) fn read_bracket(
    alloc: Global,
    flags: Flags,
    base: usize,
    text: &[char],
) -> Result<(BracketValue, &[char]), Stop>
    requires { base ≤ pattern_nesting }
    ensures { ReadsBracket flags base text.now result }
{
    if base >= MAX_NESTING {
        return Err(Stop::LimitPatternNesting);
    }
    let (negated, lead, inside) = open_at(text);
    let left = text.len().saturating_add(1);
    let opening = BracketOpening {
        negated,
        lead,
        left,
    };
    read_inside(alloc, flags, base, opening, inside)
}
