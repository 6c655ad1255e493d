//! Defines the tree of a pattern, with names from regex-syntax. `builder` builds trees, and
//! `logos_positions` and `logos_automaton` read trees.

ghost use Rattle.std.specs.Prelude.{◌≡◌};

/// A look-around assertion: a condition on the bytes before and after a point of the input.
#[derive(Clone, Copy, Debug, PartialEq, Eq)]
pub enum Look {
    /// The start of the input.
    Start,
    /// The end of the input.
    End,
    /// The start of a line, where lines end with LF.
    StartLF,
    /// The end of a line, where lines end with LF.
    EndLF,
    /// The start of a line, where lines end with CR, LF or CR LF.
    StartCRLF,
    /// The end of a line, where lines end with CR, LF or CR LF.
    EndCRLF,
    /// An ASCII word boundary.
    WordAscii,
    /// A point that is not an ASCII word boundary.
    WordAsciiNegate,
}

/// The numbers from `first` to `last`, both included.
#[derive(Clone, Copy, Debug, PartialEq, Eq)]
pub struct Range {
    pub first: u32,
    pub last: u32,
}

impl Range {
    /// Returns the range from `first` to `last`.
    pub fn new(first: u32, last: u32) -> Range
        ensures { result ≡ record { first = first; last = last } }
    {
        Range { first, last }
    }
}

/// A set of bytes or of characters. A class matches one member of the set.
#[derive(Debug, Drop)]
pub enum Class {
    /// One byte in these ranges.
    Bytes(Vec<Range>),
    /// The UTF-8 of one character in these ranges.
    Characters(Vec<Range>),
}

/// A pattern as a tree. Each variant is described by the strings that it matches.
#[derive(Drop)]
pub enum Hir {
    /// The empty string.
    Empty,
    /// Exactly these bytes.
    Literal(Vec<u8>),
    /// One member of the class.
    Class(Class),
    /// The empty string at a point of the input at which the look-around assertion holds.
    Look(Look),
    /// The body `sub` at least `min` times, and at most `max` times if `max` is not `None`. If
    /// `greedy` is `true`, more repetitions are preferred to fewer, and otherwise fewer to more.
    Repetition {
        min: u32,
        max: Option<u32>,
        greedy: bool,
        sub: Box<Hir>,
    },
    /// A match of the body of a capture group.
    Capture(Box<Hir>),
    /// A match of each part of a concatenation, one after another.
    Concat(Vec<Hir>),
    /// A match of one branch of an alternation.
    Alternation(Vec<Hir>),
}
