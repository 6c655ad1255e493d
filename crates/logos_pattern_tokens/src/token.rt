//! Defines the tokens of a pattern outside brackets. `reader` returns these tokens.

use logos_hir::property::PerlKind;
use unicode::sets::Set;

/// The flags that are on at a point of a pattern's text.
#[derive(Clone, Copy)]
pub struct Flags {
    /// `u`: the pattern matches characters. Without the flag, the pattern matches bytes.
    pub unicode: bool,
    /// `i`: letters match in both cases.
    pub ignore_case: bool,
    /// `m`: `^` and `$` match at the start and the end of each line.
    pub multi_line: bool,
    /// `s`: `.` matches line ends too.
    pub dot_all: bool,
    /// `U`: operators are lazy without `?`, and greedy with `?`.
    pub swap_greed: bool,
    /// `R`: lines end with CR, LF or CR LF. Without the flag, lines end with LF.
    pub crlf: bool,
}

/// The effect of a flag setting on each flag: `Some(true)` turns the flag on, `Some(false)` turns
/// it off, and `None` leaves it unchanged.
#[derive(Clone, Copy)]
pub struct Change {
    pub unicode: Option<bool>,
    pub ignore_case: Option<bool>,
    pub multi_line: Option<bool>,
    pub dot_all: Option<bool>,
    pub swap_greed: Option<bool>,
    pub crlf: Option<bool>,
}

/// A repetition operator with its counts `least` and `most`. `most` is `None` if there is no upper
/// bound. `lazy` is `true` if a `?` follows.
#[derive(Clone, Copy)]
pub struct Operator {
    pub least: u32,
    pub most: Option<u32>,
    pub lazy: bool,
}

/// A part of a pattern outside brackets that can be repeated and has no parts itself. The `bool` of
/// an atom is `true` if the atom is negated.
#[derive(Clone, Copy)]
pub enum Atom {
    /// A character, or an escape of a character other than `\xNN`.
    Character(char),
    /// `\xNN`: a byte if the pattern matches bytes, and the character with the code point `NN`
    /// otherwise.
    Byte(u8),
    /// `.`: any character or byte except a line end or, with the flag `s`, any character or byte.
    Dot,
    /// `^`: the start of the input or, with the flag `m`, of a line.
    Caret,
    /// `$`: the end of the input or, with the flag `m`, of a line.
    Dollar,
    /// `\A`: the start of the input.
    TextStart,
    /// `\z`: the end of the input.
    TextEnd,
    /// `\b`: a word boundary, or `\B` if it is negated.
    Boundary(bool),
    /// A class `\d`, `\s` or `\w`, or `\D`, `\S` or `\W` if it is negated.
    Perl(PerlKind, bool),
    /// A property `\p{..}`, or `\P{..}` if it is negated.
    Property(Set, bool),
}

/// The opening of a group.
#[derive(Clone, Copy)]
pub enum GroupOpening<'t> {
    /// `(`: the opening of a capture group.
    Capture,
    /// `(?P<name>` or `(?<name>`: the opening of a capture group with this name.
    Named(&'t [char]),
    /// `(?:` or `(?flags:`: the opening of a non-capturing group, with its effect on the flags.
    Plain(Change),
}

/// A token outside brackets.
#[derive(Clone, Copy)]
pub enum Token<'t> {
    Atom(Atom),
    Bar,
    Open(GroupOpening<'t>),
    Close,
    /// `(?flags)`: a flag setting for the rest of the group.
    Setting(Change),
    Repeat(Operator),
}
