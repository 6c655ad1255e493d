//! The details of faults: typed data in addition to the message. The crates that read a source
//! record a detail with each fault. The code for reports and help texts matches on the detail
//! instead of parsing the message.

use crate::token::Span;
use logos_lexeme::lexeme::LexicalKind;

/// Typed data of a fault, in addition to the fault's code, message and spans.
#[derive(Clone, Copy, Debug)]
pub enum Detail {
    /// No detail.
    Plain,
    /// The reason why a source cannot be cut into tokens.
    Lexical(LexicalKind),
    /// The kind, the byte offset and the origin of a fault in a pattern.
    Pattern(PatternDetail),
    /// An unknown argument that belongs to the option `error` rather than to a pattern.
    ErrorArgument,
    /// A leaf of an ambiguous set. Such a set consists of leaves that have the same priority and
    /// match the same bytes. The faults of a set are neighbors in the list of faults, in the order
    /// of the leaves.
    Ambiguous {
        /// The index of the leaf.
        leaf: usize,
        /// The index of the first leaf of the set.
        first: usize,
    },
}

/// The kind, the byte offset and the origin of a fault in a pattern.
#[derive(Clone, Copy, Debug)]
pub struct PatternDetail {
    pub kind: PatternKind,
    /// The byte offset of the fault in the text of the pattern after all subpatterns have been
    /// substituted.
    pub at: usize,
    /// The first four bytes of the pattern's text from `at` on.
    pub front: PatternFront,
    pub origin: ByteOrigin,
}

/// Four consecutive bytes of a text. Bytes past the end of the text are 0.
#[derive(Clone, Copy, Debug)]
pub struct PatternFront {
    pub first: u8,
    pub second: u8,
    pub third: u8,
    pub fourth: u8,
}

/// The origin of a byte of a pattern's text: the pattern's own literal, or a subpattern.
#[derive(Clone, Copy, Debug)]
pub struct ByteOrigin {
    /// The byte's offset in the text that the pattern's own literal spells, or `None` if the byte
    /// belongs to a substituted subpattern or to the group around the text of a subpattern.
    pub own: Option<usize>,
    /// The span of the name in the definition of the first subpattern that was substituted before
    /// the byte or contains the byte, or `None` if there is no such subpattern.
    pub put_in: Option<Span>,
}

/// The kind of a fault in a pattern. The variants have the names that `logos_pattern` uses.
#[derive(Clone, Copy, Debug)]
pub enum PatternKind {
    /// A group, a bracket or a brace that is still open at the end of the text.
    Unclosed,
    /// A closing parenthesis where no group is open.
    Unopened,
    /// A repetition operator that has nothing to repeat.
    NothingToRepeat,
    /// Braces that do not contain counts.
    CountSyntax,
    /// A minimum count that is greater than the maximum count.
    CountOrder,
    /// A count of 2^32 or more.
    CountTooLarge,
    /// The flag `x`, which is not supported.
    FlagUnsupported,
    /// Characters after `(?` that are not a flag setting.
    FlagSyntax,
    /// A look-around group such as `(?=..)`, or a group with a malformed or repeated name.
    GroupSyntax,
    /// A backslash before a character that cannot be escaped.
    EscapeUnknown,
    /// A numeric escape without digits, with too few digits, or with characters that are not
    /// digits.
    HexSyntax,
    /// A numeric escape whose number is not a Unicode scalar value.
    HexNotScalar,
    /// A range whose start is greater than its end, or a range with a class as its start or end.
    ClassRange,
    /// An unknown property name.
    UnknownProperty,
    /// A property with a value, or a property negated by `^`.
    PropertyForm,
    /// A property, or a non-ASCII character in a bracket, in a pattern that matches bytes.
    NotInBytes,
    /// A word boundary in a pattern that matches characters.
    UnicodeWordBoundary,
    /// A word boundary written as `\b{..}`, `\<` or `\>`.
    WordBoundaryForm,
}
