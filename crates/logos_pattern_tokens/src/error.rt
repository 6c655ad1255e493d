//! The errors that occur while a pattern is read. All readers of this crate and of `logos_syntax`
//! return them.

ghost use Rattle.std.specs.Prelude.{◌≡◌};
ghost use Rattle.logos_pattern_tokens.specs.declared.error.Fault.TheVariants as faults;
ghost use Rattle.logos_pattern_tokens.specs.declared.error.Stop.TheVariants as stops;
ghost use Rattle.logos_pattern_tokens.specs.declared.error.PatternError.TheVariants as errors;

use std::alloc::{AllocError, AllocFailed};

/// The kind of a fault in a pattern.
#[derive(Clone, Copy, Debug, PartialEq, Eq)]
pub enum Kind {
    /// A group, a bracket or a brace that is still open at the end of the text.
    Unclosed,
    /// A closing parenthesis where no group is open.
    Unopened,
    /// A repetition operator that has nothing to repeat.
    NothingToRepeat,
    /// Braces that do not contain counts.
    CountSyntax,
    /// A minimum count that is greater than the maximum count.
    CountOrder,
    /// A count of 2^32 or more.
    CountTooLarge,
    /// The flag `x`, which is not supported.
    FlagUnsupported,
    /// Text after `(?` that is not a flag setting.
    FlagSyntax,
    /// A look-around group such as `(?=..)`, or a group with a malformed or repeated name.
    GroupSyntax,
    /// A backslash before a character that cannot be escaped.
    EscapeUnknown,
    /// A numeric escape without digits, with too few digits, or with characters that are not
    /// digits.
    HexSyntax,
    /// A numeric escape whose number is not a Unicode scalar value.
    HexNotScalar,
    /// A range whose start is greater than its end, or a range with a class as its start or end.
    ClassRange,
    /// An unknown property name.
    UnknownProperty,
    /// A property with a value, or a property negated by `^`.
    PropertyForm,
    /// A property, or a non-ASCII character in a bracket, in a pattern that matches bytes.
    NotInBytes,
    /// A word boundary in a pattern that matches characters.
    UnicodeWordBoundary,
    /// A word boundary written as `\b{..}`, `\<` or `\>`.
    WordBoundaryForm,
}

/// The reason why a text cannot be read as a pattern.
#[derive(Debug, Drop)]
pub enum PatternError {
    /// A syntax error. `at` is the byte offset of the fault in the text of the pattern.
    Syntax { kind: Kind, at: usize },
    /// Groups, brackets and operators are nested too deeply.
    LimitPatternNesting,
    /// Memory ran out.
    Memory,
}

/// The reason why no token can be read at the front of a text: a fault, or a lack of memory.
#[derive(Drop)]
pub enum Fault {
    Syntax(Kind),
    Memory,
}

/// The reason why the reading of a pattern stops. `left` is the number of characters from the point
/// of the fault to the end of the text.
#[derive(Drop)]
pub enum Stop {
    Syntax { kind: Kind, left: usize },
    LimitPatternNesting,
    Memory,
}

impl From<AllocError> for Fault {
    ghost from_gives = { λ _ e. e ≡ faults.Memory };

    fn from(_e: AllocError) -> Fault {
        Fault::Memory
    }
}

impl From<AllocError> for Stop {
    ghost from_gives = { λ _ e. e ≡ stops.Memory };

    fn from(_e: AllocError) -> Stop {
        Stop::Memory
    }
}

impl<T: Drop> From<AllocFailed<T>> for Stop {
    ghost from_gives = { λ _ e. e ≡ stops.Memory };

    fn from(_e: AllocFailed<T>) -> Stop {
        Stop::Memory
    }
}

impl From<AllocError> for PatternError {
    ghost from_gives = { λ _ e. e ≡ errors.Memory };

    fn from(_e: AllocError) -> PatternError {
        PatternError::Memory
    }
}
