//! Decides whether a blank separates two neighboring lexemes of a line. `state` calls `is_blank`.

use crate::classes::{LexemeClass, Role};
use logos_token::token::Delimiter;

/// Returns whether a line has a blank between two neighboring lexemes. `last` and `next` are the
/// classes of the lexemes, and `has_gap` is `true` if the text has a gap between them. Without a
/// gap, a blank is inserted only after a comma.
///
/// A gap between two characters of punctuation always becomes a blank, and so does a gap between
/// two names or literals. Otherwise, the tokens of the text could change.
pub(crate) fn is_blank(last: LexemeClass, next: LexemeClass, has_gap: bool) -> bool {
    if !has_gap {
        return is_after_comma(last, next);
    }
    if is_sign(last) & is_sign(next) {
        return true;
    }
    !(is_tight_after(last, next) | is_tight_before(last, next))
}

/// Returns whether a blank is inserted between two lexemes that have no gap between them. `last`
/// and `next` are the classes of the lexemes. A blank is inserted after a comma, unless punctuation
/// or a closing delimiter follows the comma.
fn is_after_comma(last: LexemeClass, next: LexemeClass) -> bool {
    matches!(last, LexemeClass::Sign(Role::Comma))
        & !matches!(next, LexemeClass::Sign(_) | LexemeClass::Closing(_))
}

/// Returns whether lexemes of the class `class` are punctuation.
fn is_sign(class: LexemeClass) -> bool {
    matches!(class, LexemeClass::Sign(_))
}

/// Returns whether the class `last` prevents a blank before a lexeme of the class `next`. A blank
/// between a dot and a literal remains, because a dot and a number could otherwise be read as a
/// fraction.
fn is_tight_after(last: LexemeClass, next: LexemeClass) -> bool {
    match last {
        LexemeClass::Opening(Delimiter::Brace) => matches!(
            next,
            LexemeClass::Closing(Delimiter::Brace)
        ),
        LexemeClass::Opening(_) => true,
        LexemeClass::Sign(Role::Dot) => !matches!(next, LexemeClass::Literal),
        LexemeClass::Sign(role) => matches!(
            role,
            Role::Prefix | Role::PathMark | Role::OpensTypes | Role::Hash | Role::Apostrophe
        ),
        _ => false,
    }
}

/// Returns whether the class `next` prevents a blank after a lexeme of the class `last`. A blank
/// between a literal and a dot remains, because a number and a dot could otherwise be read as a
/// fraction.
fn is_tight_before(last: LexemeClass, next: LexemeClass) -> bool {
    match next {
        LexemeClass::Closing(Delimiter::Brace) => false,
        LexemeClass::Closing(_) => true,
        LexemeClass::Opening(Delimiter::Brace) => false,
        LexemeClass::Opening(_) => is_called(last),
        LexemeClass::Sign(role) => is_tight_sign(last, role),
        _ => false,
    }
}

/// Returns whether a `(` or `[` after a lexeme of the class `last` belongs to the lexeme, as in a
/// call.
fn is_called(last: LexemeClass) -> bool {
    matches!(
        last,
        LexemeClass::Name
            | LexemeClass::TypeName
            | LexemeClass::Closing(Delimiter::Parenthesis)
            | LexemeClass::Closing(Delimiter::Bracket)
            | LexemeClass::Sign(Role::MacroMark)
            | LexemeClass::Sign(Role::ClosesTypes)
    )
}

/// Returns whether punctuation with the role `role` follows a lexeme of the class `last` without a
/// blank.
fn is_tight_sign(last: LexemeClass, role: Role) -> bool {
    match role {
        Role::Comma | Role::Semicolon | Role::Question => true,
        Role::ClosesTypes | Role::MacroMark => true,
        Role::Dot => !matches!(last, LexemeClass::Literal),
        Role::Colon => !matches!(last, LexemeClass::Keyword),
        Role::OpensTypes => matches!(last, LexemeClass::TypeName),
        _ => false,
    }
}
