//! Defines the tokens inside the brackets of a pattern. `bracket::reader` returns these tokens.

use logos_hir::property::{AsciiKind, PerlKind};
use logos_hir::sets::operands::SetOperator;
use unicode::sets::Set;

/// A character or a byte in a bracket.
#[derive(Clone, Copy)]
pub enum Symbol {
    /// A character, or an escape of a character other than `\xNN`.
    Character(char),
    /// `\xNN`: a byte if the pattern matches bytes, and the character with the code point `NN`
    /// otherwise.
    Byte(u8),
}

/// A part of an operand that is not a nested bracket. The `bool` is `true` if the part is negated.
#[derive(Clone, Copy)]
pub enum BracketItem {
    One(Symbol),
    /// A range such as `a-z`, with its first and its last symbol.
    Range(Symbol, Symbol),
    /// A class `\d`, `\s` or `\w`, or `\D`, `\S` or `\W` if it is negated.
    Perl(PerlKind, bool),
    /// A property `\p{..}`, or `\P{..}` if it is negated.
    Property(Set, bool),
    /// A class of ASCII characters `[:name:]`, or `[:^name:]` if it is negated.
    Ascii(AsciiKind, bool),
}

/// The literals directly after `[` or `[^`. They have no other meaning at this point.
#[derive(Clone, Copy)]
pub enum Lead {
    /// Any number of `-`, including none.
    Dashes(usize),
    /// One `]`.
    Bracket,
}

/// A token inside brackets.
#[derive(Clone, Copy)]
pub enum BracketToken {
    Item(BracketItem),
    /// `[` or `[^`, and the literals after it. The `bool` is `true` for `[^`.
    Open(bool, Lead),
    Operator(SetOperator),
    /// `]`: the end of a bracket.
    Close,
}
