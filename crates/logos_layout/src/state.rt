//! Defines the state of a layout: the properties of the lexemes so far that determine the separator
//! before the next lexeme. Used by `line_breaks`.

use crate::blanks::is_blank;
use crate::classes::{LexemeClass, Role};
use crate::lines::WordLead;
use logos_token::token::Delimiter;

/// The kind of the content of an open delimiter.
#[derive(Clone, Copy, PartialEq, Eq)]
pub(crate) enum Open {
    /// Separate lines.
    Block,
    /// Tokens that stay on the line of their braces.
    Short,
    /// An attribute.
    Attribute,
    /// Any other content of parentheses or brackets.
    Group,
}

/// The kind of the gap before the next lexeme, according to the line ends in the gap.
#[derive(Clone, Copy, PartialEq, Eq)]
pub(crate) enum Gap {
    /// No gap.
    Nothing,
    /// A gap without a line end.
    Blank,
    /// A gap with one line end.
    Line,
    /// A gap with more than one line end.
    EmptyLine,
}

/// The kind of the unit that ends with the last lexeme.
#[derive(Clone, Copy, PartialEq, Eq)]
pub(crate) enum LastEnd {
    /// No unit: neither a line nor braces.
    Nothing,
    /// A line.
    Line,
    /// Braces around lines.
    Block,
    /// Braces on a single line.
    Short,
}

/// The properties of the lexemes so far that determine the separator before the next lexeme.
#[derive(Clone, Copy)]
pub(crate) struct LayoutState {
    /// The number of open blocks.
    pub(crate) depth: usize,
    /// The number of open lists of types.
    pub(crate) types: usize,
    /// The class of the last lexeme.
    pub(crate) last: LexemeClass,
    /// The gap after the last lexeme.
    pub(crate) gap: Gap,
    /// The unit that ends with the last lexeme.
    pub(crate) end: LastEnd,
    /// The content of the innermost open delimiter.
    pub(crate) inner: Open,
}

impl LayoutState {
    /// Returns the state before the first lexeme.
    pub(crate) fn new() -> LayoutState {
        LayoutState {
            depth: 0,
            types: 0,
            last: LexemeClass::Start,
            gap: Gap::Nothing,
            end: LastEnd::Nothing,
            inner: Open::Block,
        }
    }

    /// Returns the separator before the next lexeme, or `None` if the lexeme continues the current
    /// word. `next` is the class of the lexeme.
    pub(crate) fn lead(self, next: LexemeClass) -> Option<WordLead> {
        if matches!(self.last, LexemeClass::Start) {
            return None;
        }
        if self.is_line_before(next) {
            return Some(WordLead::Line {
                depth: self.depth_before(next),
                is_apart: matches!(self.gap, Gap::EmptyLine),
            });
        }
        if is_blank(self.last, next, !matches!(self.gap, Gap::Nothing)) {
            let depth = self.depth.saturating_add(1);
            return Some(WordLead::Blank { depth });
        }
        None
    }

    /// Returns whether the next lexeme begins a line. `next` is the class of the lexeme.
    fn is_line_before(self, next: LexemeClass) -> bool {
        if closes_block(self.inner, next) {
            return true;
        }
        match self.end {
            LastEnd::Nothing => matches!(self.gap, Gap::Line | Gap::EmptyLine),
            LastEnd::Line => true,
            LastEnd::Block => !continues(next),
            LastEnd::Short => !matches!(self.inner, Open::Group) & !continues(next),
        }
    }

    /// Returns the number of levels of four blanks before the next lexeme. The lexeme must begin a
    /// line. `next` is the class of the lexeme.
    fn depth_before(self, next: LexemeClass) -> usize {
        if closes_block(self.inner, next) {
            return self.depth.saturating_sub(1);
        }
        if matches!(next, LexemeClass::Closing(_)) {
            return self.depth;
        }
        if matches!(self.inner, Open::Group) | matches!(self.end, LastEnd::Nothing) {
            return self.depth.saturating_add(1);
        }
        self.depth
    }

    /// Returns the state after an opening delimiter with the content `inner`.
    pub(crate) fn after_opening(self, delimiter: Delimiter, inner: Open) -> LayoutState {
        let is_block = matches!(inner, Open::Block);
        LayoutState {
            depth: self.depth.saturating_add(usize::from(is_block)),
            types: types_inside(delimiter, self.types),
            last: LexemeClass::Opening(delimiter),
            gap: Gap::Nothing,
            end: if is_block {
                LastEnd::Line
            } else {
                LastEnd::Nothing
            },
            inner,
        }
    }

    /// Returns the state after a closing delimiter. `outer` is the content of the enclosing
    /// delimiter.
    pub(crate) fn after_closing(self, delimiter: Delimiter, outer: Open) -> LayoutState {
        let is_block = matches!(self.inner, Open::Block);
        LayoutState {
            depth: self.depth.saturating_sub(usize::from(is_block)),
            types: types_inside(delimiter, self.types),
            last: LexemeClass::Closing(delimiter),
            gap: Gap::Nothing,
            end: end_of(self.inner),
            inner: outer,
        }
    }

    /// Returns the state after a lexeme of the class `next`. The lexeme must not be a delimiter.
    pub(crate) fn after(self, next: LexemeClass) -> LayoutState {
        LayoutState {
            types: types_after(next, self.types),
            last: next,
            gap: Gap::Nothing,
            end: self.end_at(next),
            ..self
        }
    }

    /// Returns the unit that ends with a lexeme of the class `next`. The lexeme must not be a
    /// delimiter.
    fn end_at(self, next: LexemeClass) -> LastEnd {
        let ends = match next {
            LexemeClass::Comment => true,
            LexemeClass::Sign(Role::Semicolon) => matches!(self.inner, Open::Block | Open::Short),
            LexemeClass::Sign(Role::Comma) => matches!(self.inner, Open::Block) & (self.types == 0),
            _ => false,
        };
        if ends {
            LastEnd::Line
        } else {
            LastEnd::Nothing
        }
    }
}

/// Returns whether a lexeme of the class `next` closes a block, that is, whether the lexeme is a
/// closing delimiter and ends separate lines. `inner` is the content of the innermost open
/// delimiter.
fn closes_block(inner: Open, next: LexemeClass) -> bool {
    matches!(inner, Open::Block) & matches!(next, LexemeClass::Closing(_))
}

/// Returns whether a lexeme of the class `next` continues the line of the closing brace before it.
fn continues(next: LexemeClass) -> bool {
    match next {
        LexemeClass::Sign(role) => matches!(
            role,
            Role::Comma
                | Role::Semicolon
                | Role::Question
                | Role::Dot
                | Role::Arrow
                | Role::Operator
                | Role::ClosesTypes
        ),
        LexemeClass::Closing(_) | LexemeClass::Else => true,
        _ => false,
    }
}

/// Returns the unit that ends with the closing delimiter after the content `inner`.
fn end_of(inner: Open) -> LastEnd {
    match inner {
        Open::Block => LastEnd::Block,
        Open::Short => LastEnd::Short,
        Open::Attribute => LastEnd::Line,
        Open::Group => LastEnd::Nothing,
    }
}

/// Returns the number of open lists of types after an opening or closing delimiter. `types` is the
/// number before the delimiter. A brace ends all open lists.
fn types_inside(delimiter: Delimiter, types: usize) -> usize {
    match delimiter {
        Delimiter::Brace => 0,
        _ => types,
    }
}

/// Returns the number of open lists of types after a lexeme of the class `next`. `types` is the
/// number before the lexeme. A `;` ends all open lists.
fn types_after(next: LexemeClass, types: usize) -> usize {
    match next {
        LexemeClass::Sign(Role::Semicolon) => 0,
        LexemeClass::Sign(Role::OpensTypes) => types.saturating_add(1),
        LexemeClass::Sign(Role::ClosesTypes) => types.saturating_sub(1),
        _ => types,
    }
}

/// Returns the kind of the content that begins after an opening delimiter. `last` is the class of
/// the lexeme before the delimiter. The bytes `ahead` follow the delimiter, and `room` bytes fit
/// into the line after the delimiter.
pub(crate) fn opened(last: LexemeClass, delimiter: Delimiter, ahead: &[u8], room: usize) -> Open {
    match delimiter {
        Delimiter::Brace if is_short(ahead, room) => Open::Short,
        Delimiter::Brace => Open::Block,
        Delimiter::Bracket if matches!(last, LexemeClass::Sign(Role::Hash)) => Open::Attribute,
        _ => Open::Group,
    }
}

/// Returns whether a `}` is among the first `room` bytes of `ahead`, with no line end, `;` or `{`
/// before it.
fn is_short(ahead: &[u8], room: usize) -> bool {
    for at in 0..room {
        match ahead.get(at) {
            Some(b'}') => return true,
            Some(b'{' | b';' | b'\n') => return false,
            Some(_) => {}
            None => return false,
        }
    }
    false
}
