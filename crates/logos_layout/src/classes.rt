//! Defines the classes of lexemes, which determine the separators between lexemes. Used by
//! `blanks`, `line_breaks` and `state`.

use logos_token::token::{Delimiter, Spacing};

/// The class of a lexeme, which determines the separators before and after the lexeme.
#[derive(Clone, Copy, PartialEq, Eq)]
pub(crate) enum LexemeClass {
    /// No lexeme: the beginning of the text.
    Start,
    /// A name directly after a `Declaring` keyword, or any other name that looks like the name of a
    /// type.
    TypeName,
    /// A keyword that declares a name.
    Declaring,
    /// The keyword `else`.
    Else,
    /// Any other keyword that precedes an operand, a pattern or a name.
    Keyword,
    /// The name of a lifetime or a label, without its apostrophe.
    Lifetime,
    /// Any other name.
    Name,
    /// A literal.
    Literal,
    /// A comment.
    Comment,
    /// An opening delimiter.
    Opening(Delimiter),
    /// A closing delimiter.
    Closing(Delimiter),
    /// A character of punctuation.
    Sign(Role),
}

/// The role of a character of punctuation, which determines the blanks around the character.
#[derive(Clone, Copy, PartialEq, Eq)]
pub(crate) enum Role {
    /// The character `,`.
    Comma,
    /// The character `;`.
    Semicolon,
    /// The character `?`.
    Question,
    /// The character `.`.
    Dot,
    /// The `'` of a lifetime or a label.
    Apostrophe,
    /// The character `#`.
    Hash,
    /// The second `:` of the `::` in a path.
    PathMark,
    /// Any other `:`.
    Colon,
    /// A `<` that opens a list of types.
    OpensTypes,
    /// A `>` that closes a list of types.
    ClosesTypes,
    /// The `!` after the name of a macro.
    MacroMark,
    /// An operator before its operand, such as the `&` of a reference, or the character `$`.
    Prefix,
    /// A `-` or `=` that may begin an arrow: `->` or `=>`.
    Arrow,
    /// Any other character.
    Operator,
}

/// The keywords that declare a name.
const DECLARING: [&str; 7] = ["enum", "fn", "impl", "struct", "trait", "type", "union"];

/// The other keywords that precede an operand, a pattern or a name, except `else`.
const KEYWORDS: [&str; 18] = [
    "as", "break", "const", "dyn", "for", "if", "in", "let", "loop", "match", "move", "mut", "ref",
    "return", "static", "use", "where", "while",
];

/// Returns the class of the name or keyword `name` after a lexeme of the class `last`.
pub(crate) fn class_of_name(name: &str, last: LexemeClass) -> LexemeClass {
    match last {
        LexemeClass::Sign(Role::Apostrophe) => LexemeClass::Lifetime,
        LexemeClass::Declaring => LexemeClass::TypeName,
        _ => class_of_word(name),
    }
}

/// Returns the class of the name or keyword `name`, regardless of the preceding lexeme.
fn class_of_word(name: &str) -> LexemeClass {
    if name == "else" {
        return LexemeClass::Else;
    }
    if is_in(name, &DECLARING) {
        return LexemeClass::Declaring;
    }
    if is_in(name, &KEYWORDS) {
        return LexemeClass::Keyword;
    }
    if is_type_name(name.as_bytes()) {
        return LexemeClass::TypeName;
    }
    LexemeClass::Name
}

/// Returns whether `name` is one of `words`.
fn is_in(name: &str, words: &[&str]) -> bool {
    for word in words {
        if name == *word {
            return true;
        }
    }
    false
}

/// Returns whether `name` looks like the name of a type, that is, whether it begins with an
/// upper-case ASCII letter that is followed by a lower-case one. A single leading `_` is ignored.
fn is_type_name(name: &[u8]) -> bool {
    match name {
        [b'_', first, second, ..] => first.is_ascii_uppercase() & second.is_ascii_lowercase(),
        [first, second, ..] => first.is_ascii_uppercase() & second.is_ascii_lowercase(),
        _ => false,
    }
}

/// A character of punctuation, with its context.
#[derive(Clone, Copy)]
pub(crate) struct Punctuation {
    /// The character.
    pub(crate) character: u8,
    /// Whether another character of punctuation follows without a gap.
    pub(crate) spacing: Spacing,
    /// The class of the lexeme before the character.
    pub(crate) last: LexemeClass,
    /// Whether no gap separates the character from the lexeme before it.
    pub(crate) is_second: bool,
    /// Whether a list of types is open.
    pub(crate) has_types: bool,
}

/// Returns the role of a character of punctuation.
pub(crate) fn role_of(sign: Punctuation) -> Role {
    let last = sign.last;
    match sign.character {
        b',' => Role::Comma,
        b';' => Role::Semicolon,
        b'?' => Role::Question,
        b'.' => Role::Dot,
        b'\'' => Role::Apostrophe,
        b'#' => Role::Hash,
        b':' => colon_role(last),
        b'<' => less_role(last, sign.is_second),
        b'>' => greater_role(last, sign.has_types),
        b'!' if is_macro_mark(last, sign.spacing) => Role::MacroMark,
        b'$' => Role::Prefix,
        b'&' | b'*' | b'!' | b'-' if is_prefix(last, sign.is_second) => Role::Prefix,
        b'-' | b'=' => Role::Arrow,
        _ => Role::Operator,
    }
}

/// Returns the role of a `:` after a lexeme of the class `last`. The second of two colons ends the
/// `::` of a path.
fn colon_role(last: LexemeClass) -> Role {
    match last {
        LexemeClass::Sign(Role::Colon) => Role::PathMark,
        _ => Role::Colon,
    }
}

/// Returns the role of a `<` after a lexeme of the class `last`. `is_second` is `true` if no gap
/// separates the `<` from the lexeme before it.
///
/// The `<` opens a list of types in each of these positions:
///
/// - after the name of a type,
/// - after a keyword that declares a name,
/// - after the `::` of a path,
/// - where an operand can follow.
fn less_role(last: LexemeClass, is_second: bool) -> Role {
    match last {
        LexemeClass::TypeName | LexemeClass::Declaring | LexemeClass::Sign(Role::PathMark) =>
            Role::OpensTypes,
        _ if is_prefix(last, is_second) => Role::OpensTypes,
        _ => Role::Operator,
    }
}

/// Returns the role of a `>` after a lexeme of the class `last`. `has_types` is `true` if a list of
/// types is open. The `>` closes this list, unless it ends an arrow.
fn greater_role(last: LexemeClass, has_types: bool) -> Role {
    match last {
        LexemeClass::Sign(Role::Arrow) => Role::Operator,
        _ if has_types => Role::ClosesTypes,
        _ => Role::Operator,
    }
}

/// Returns whether a `!` after a lexeme of the class `last` marks the name of a macro, that is,
/// whether the `!` follows a name, and no other punctuation follows the `!` without a gap.
fn is_macro_mark(last: LexemeClass, spacing: Spacing) -> bool {
    matches!(last, LexemeClass::Name | LexemeClass::TypeName) & matches!(spacing, Spacing::Alone)
}

/// Returns whether a character after a lexeme of the class `last` begins an operand, that is,
/// whether an operand can follow the lexeme, and the character is not the second one of an
/// operator. `is_second` is `true` if no gap separates the character from the lexeme.
fn is_prefix(last: LexemeClass, is_second: bool) -> bool {
    let is_operator = matches!(last, LexemeClass::Sign(Role::Operator | Role::Arrow));
    is_before_operand(last) & !(is_operator & is_second)
}

/// Returns whether an operand can follow a lexeme of the class `last`.
fn is_before_operand(last: LexemeClass) -> bool {
    match last {
        LexemeClass::Start
        | LexemeClass::Else
        | LexemeClass::Keyword
        | LexemeClass::Comment
        | LexemeClass::Opening(_) => true,
        LexemeClass::Sign(role) => !matches!(
            role,
            Role::Question | Role::PathMark | Role::ClosesTypes | Role::MacroMark
        ),
        _ => false,
    }
}
