//! Chooses the help text for a fault in a pattern, according to the kind of the fault and the bytes
//! at the fault. `docs/FAULTS.md` repeats the help texts, and `tests/lints/faults.py` compares the
//! copies. Used by `codes`.

ghost use Rattle.std.specs.Prelude.{◌≡◌};
ghost use Rattle.logos_help.specs.Patterns.{boundary_help, escape_help, escapes, flag_help, group_help, is_digit, looks_ahead, looks_back, opens_with, pattern_help, refers_back};

use crate::sight::{Sight, between_quotes};
use logos_token::error::{PatternDetail, PatternFront, PatternKind};

/// Returns the help for a literal whose text is not a pattern. `detail` is the detail of the fault.
pub(crate) fn help_for_pattern(detail: PatternDetail) -> &'static str
    ensures { result.now ≡ pattern_help detail }
{
    match detail.kind {
        PatternKind::Unclosed => UNCLOSED,
        PatternKind::Unopened => "remove it, or write `\\)` for the character",
        PatternKind::NothingToRepeat => NOTHING_TO_REPEAT,
        PatternKind::CountSyntax => COUNT_SYNTAX,
        PatternKind::CountOrder => "write the smaller count first",
        PatternKind::CountTooLarge => "write a count below 4,294,967,296",
        PatternKind::FlagUnsupported => FLAG_UNSUPPORTED,
        PatternKind::FlagSyntax => help_for_flag(detail.front),
        PatternKind::GroupSyntax => help_for_group(detail.front),
        PatternKind::EscapeUnknown => help_for_escape(detail.front),
        PatternKind::UnicodeWordBoundary => help_for_boundary(detail.at),
        PatternKind::HexSyntax => HEX_SYNTAX,
        PatternKind::HexNotScalar => HEX_NOT_SCALAR,
        PatternKind::ClassRange => CLASS_RANGE,
        PatternKind::UnknownProperty => UNKNOWN_PROPERTY,
        PatternKind::PropertyForm => PROPERTY_FORM,
        PatternKind::NotInBytes => "put it in `(?u:..)`, as in `(?u:\\pL)`",
        PatternKind::WordBoundaryForm => WORD_BOUNDARY_FORM,
    }
}

const NOTHING_TO_REPEAT: &str =
    "write what it repeats before it, or escape the character, as in `\\*`";

const COUNT_SYNTAX: &str =
    "write `{2}`, `{2,}` or `{0,3}` without blanks, or `\\{` for the character";

const FLAG_UNSUPPORTED: &str =
    "remove the flag `x`, and write the pattern without blanks and comments";

const HEX_SYNTAX: &str = "write two digits, as in `\\x0A`, or put them in braces, as in `\\x{A}`";

const HEX_NOT_SCALAR: &str = "write a number up to `10FFFF`, but none from `D800` to `DFFF`";

const CLASS_RANGE: &str =
    "write the smaller end first, and `\\-` for the character next to a class";

const UNKNOWN_PROPERTY: &str =
    "write a general category, a script or a binary property, as in `\\p{Lu}`";

const PROPERTY_FORM: &str = "write `\\p{Greek}` for a script, and `\\P{..}` for the complement";

const WORD_BOUNDARY_FORM: &str = "write `(?-u:\\b)`, with the next character after it";

const UNCLOSED: &str = "close it, or write `\\(`, `\\[` or `\\{` for the character";

/// Returns whether the bytes `front` begin with `(?` and the byte `third`.
fn opens_with(front: PatternFront, third: u8) -> bool
    ensures { result ≡ opens_with front third }
{
    (front.first == b'(') & (front.second == b'?') & (front.third == third)
}

/// Returns whether the bytes `front` begin with a backslash and the byte `second`.
fn escapes(front: PatternFront, second: u8) -> bool
    ensures { result ≡ escapes front second }
{
    (front.first == b'\\') & (front.second == second)
}

/// Returns the help for a group that begins with an unknown flag. The help depends on the first
/// bytes of the group.
fn help_for_flag(front: PatternFront) -> &'static str
    ensures { result.now ≡ flag_help front }
{
    if opens_with(front, b'P') & (front.fourth == b'=') {
        REFERENCE
    } else if opens_with(front, b'#') {
        "remove the comment"
    } else {
        "write one of `i m s U u R`, as in `(?i)`, or `(?:..)` for a group"
    }
}

const REFERENCE: &str = "repeat the pattern of the group: there are no backreferences";

/// Returns the help for an unknown escape. The help depends on the first bytes of the escape.
fn help_for_escape(front: PatternFront) -> &'static str
    ensures { result.now ≡ escape_help front }
{
    if escapes(front, b'k') | refers_back(front) {
        REFERENCE
    } else if escapes(front, b'h') {
        "write `[ \\t]` for a blank"
    } else if escapes(front, b'R') {
        "write `\\r?\\n` for a line end"
    } else if escapes(front, b'Z') {
        "write `\\z` for the end of the input"
    } else if escapes(front, b'Q') {
        "write a backslash before each special character"
    } else {
        "write the character alone or by its number, as in `\\x1B`"
    }
}

/// Returns whether an escape looks like a backreference, that is, whether its backslash is followed
/// by a digit other than `0`, but not by three digits. Three digits are the number of a character.
fn refers_back(front: PatternFront) -> bool
    ensures { result ≡ refers_back front }
{
    let is_number = is_digit(front.second) & (front.second != b'0');
    (front.first == b'\\') & is_number & !(is_digit(front.third) & is_digit(front.fourth))
}

/// Returns whether a byte is an ASCII digit.
fn is_digit(byte: u8) -> bool
    ensures { result ≡ is_digit byte }
{
    (b'/' < byte) & (byte < b':')
}

/// Returns the help for a word boundary at the byte offset `at` in the pattern. At the beginning of
/// the pattern, where a boundary is not needed, the help is to remove the boundary.
fn help_for_boundary(at: usize) -> &'static str
    ensures { result.now ≡ boundary_help at }
{
    if at == 0 {
        "remove it: a match begins where the previous one ended"
    } else {
        "write `(?-u:\\b)`, the boundary of ASCII words"
    }
}

/// Returns the help for a group that is neither plain nor named. The help depends on the first
/// bytes of the group.
fn help_for_group(front: PatternFront) -> &'static str
    ensures { result.now ≡ group_help front }
{
    if looks_ahead(front) | looks_back(front) {
        "write a longer pattern and a priority instead of look-around"
    } else {
        "write a name once, as in `(?<name>..)`, or `(?:..)` without one"
    }
}

/// Returns whether a group begins with `(?=` or `(?!`.
fn looks_ahead(front: PatternFront) -> bool
    ensures { result ≡ looks_ahead front }
{
    opens_with(front, b'=') | opens_with(front, b'!')
}

/// Returns whether a group begins with `(?<=` or `(?<!`.
fn looks_back(front: PatternFront) -> bool
    ensures { result ≡ looks_back front }
{
    opens_with(front, b'<') & ((front.fourth == b'=') | (front.fourth == b'!'))
}

/// Returns the help for a pattern with a greedy dot. The help depends on the text of the pattern. A
/// help that shows a pattern with a greedy dot also shows `allow_greedy`.
pub(crate) fn help_for_dot(sight: Sight<'_>) -> &'static str {
    let pattern = between_quotes(sight.text);
    if is_block_comment(pattern) {
        "for a block comment write `/\\*([^*]|\\*+[^*/])*\\*+/` in a raw string"
    } else if is_to_line_end(pattern) {
        "for a comment to the end of its line add `allow_greedy = true`, as in `skip(\"..\", allow_greedy = true)`"
    } else if is_delimited(pattern) {
        "replace the dot with a class that excludes the delimiter, as in `\"[^\"\\n]*\"`"
    } else {
        "replace the dot with a class that excludes the end, as in `a[^b]*b`, or add `allow_greedy = true`"
    }
}

/// Returns whether a pattern probably matches a block comment. Such a pattern begins with `/\` or
/// `/[*]`, contains `*`, and ends with `/`.
fn is_block_comment(pattern: &str) -> bool {
    let begins = pattern.starts_with("/\\") | pattern.starts_with("/[*]");
    begins & pattern.contains('*') & pattern.ends_with('/')
}

/// Returns whether a pattern probably matches a text up to the end of the line. Such a pattern ends
/// with a greedy dot after a nonempty beginning, perhaps with an escape for LF after the dot, and
/// does not contain `(?s`.
fn is_to_line_end(pattern: &str) -> bool {
    if pattern.contains("(?s") {
        return false;
    }
    match without_dot(without_line_end(pattern)) {
        Some(front) => !front.is_empty(),
        None => false,
    }
}

/// Returns a pattern without the escape for LF at its end, and without a `?` after this escape.
/// Returns the whole pattern if the pattern has no such end. The escape consists of a backslash and
/// `n`.
fn without_line_end(pattern: &str) -> &str {
    let plain = pattern.strip_suffix("?").unwrap_or(pattern);
    match plain.strip_suffix("\\n") {
        Some(front) => front,
        None => pattern,
    }
}

/// Returns a pattern without the greedy dot at its end, or `None` if it does not end with a greedy
/// dot. A greedy dot is a repetition of any character except LF with the operator `*` or `+`.
fn without_dot(pattern: &str) -> Option<&str> {
    let Some(front) = pattern.strip_suffix("*") else {
        return match pattern.strip_suffix("+") {
            Some(front) => without_any(front),
            None => None,
        };
    };
    without_any(front)
}

/// Returns a pattern without the final `.`, or without the final class of all characters except LF.
/// Returns `None` if the pattern ends with neither.
fn without_any(pattern: &str) -> Option<&str> {
    if let Some(front) = pattern.strip_suffix(".") {
        return Some(front);
    }
    if let Some(front) = pattern.strip_suffix("[^\\n]") {
        return Some(front);
    }
    pattern.strip_suffix("[^\\\\n]")
}

/// Returns whether a pattern ends with a character that often closes a text, such as a quote.
fn is_delimited(pattern: &str) -> bool {
    match pattern.chars().last() {
        Some(last) => "\"'`>)]}%/$".contains(last),
        None => false,
    }
}
