//! `group_at` reads the text after an opening parenthesis. The reader of tokens calls `group_at` at
//! each `(`.

ghost use Rattle.std.specs.Prelude.{◌≡◌};
ghost use Rattle.logos_pattern_tokens.specs.Views.{no_change, set_once, with_letter, Yields, token_view, sets, opens, plain, is_name_start, is_name_part, are_name_parts, is_name, name_at, python_at, dash, next_letter, setting_end, letters_from, no_letters, option_at, group_at};

use crate::counts::cut_at;
use crate::error::{Fault, Kind};
use crate::token::{Change, GroupOpening, Token};
use unicode::properties::{GeneralCategory, GeneralCategoryGroup, is_alphabetic};

/// Returns whether a group's name can begin with the character.
fn is_name_start(c: char) -> bool
    ensures { result ≡ is_name_start c }
{
    c == '_' || is_alphabetic(c)
}

/// Returns whether a group's name can contain the character after its first character.
fn is_name_part(c: char) -> bool
    ensures { result ≡ is_name_part c }
{
    is_name_start(c)
        || GeneralCategoryGroup::Number.contains(GeneralCategory::for_char(c))
        || matches!(c, '.' | '[' | ']')
}

/// Returns whether a group's name can contain each character of `text` after its first character.
fn are_name_parts(text: &[char]) -> bool
    ensures { result ≡ are_name_parts text.now }
{
    text.iter().all(|c| is_name_part(*c))
}

/// Returns whether the text is the name of a group.
fn is_name(text: &[char]) -> bool
    ensures { result ≡ is_name text.now }
{
    match text {
        [] => false,
        [c, rest @ ..] => is_name_start(*c) && are_name_parts(rest),
    }
}

/// Returns the fault of the text after a `<` that is not closed by a `>`: `Unclosed` if the text is
/// a name or empty, and `GroupSyntax` otherwise.
fn name_fault(text: &[char]) -> Kind {
    if text.is_empty() || is_name(text) {
        Kind::Unclosed
    } else {
        Kind::GroupSyntax
    }
}

/// Reads the text after `(?<` or `(?P<`. Returns the opening of the group and the text after `>`.
///
/// # Errors
///
/// Returns `Unclosed` if the text has no `>` and is a name or empty, and `GroupSyntax` if the text
/// before `>`, or the whole text if it has no `>`, is not a name.
#[tactic(auto, unfolding(crate::specs::Openings::name_at))]
fn name_at(text: &[char]) -> Result<(Token<'_>, &[char]), Fault>
    ensures { Yields (λ x. (token_view x.0, x.1.now)) result (name_at text.now) }
{
    let Some((name, rest)) = cut_at('>', text) else {
        return Err(Fault::Syntax(name_fault(text)));
    };
    if !is_name(name) {
        return Err(Fault::Syntax(Kind::GroupSyntax));
    }
    Ok((Token::Open(GroupOpening::Named(name)), rest))
}

/// Reads the text after `(?P`. Returns the opening of the group and the rest of the text.
///
/// # Errors
///
/// Returns:
///
/// - `Unclosed` if the text is empty
/// - `FlagSyntax` if the text does not begin with `<`
/// - otherwise the errors of `name_at`
#[tactic(auto, unfolding(crate::specs::Openings::python_at))]
fn python_at(text: &[char]) -> Result<(Token<'_>, &[char]), Fault>
    ensures { Yields (λ x. (token_view x.0, x.1.now)) result (python_at text.now) }
{
    match text {
        [] => Err(Fault::Syntax(Kind::Unclosed)),
        ['<', rest @ ..] => name_at(rest),
        _ => Err(Fault::Syntax(Kind::FlagSyntax)),
    }
}

/// The part of a flag setting that has been read so far.
#[derive(Clone, Copy)]
pub struct Letters {
    change: Change,
    /// Whether the next letters turn flags on: `true` until a dash is read.
    on: bool,
    /// Whether a letter must follow.
    pending: bool,
}

/// Returns the flag setting that changes no flag.
fn no_change() -> Change
    ensures { result ≡ no_change }
{
    Change {
        unicode: None,
        ignore_case: None,
        multi_line: None,
        dot_all: None,
        swap_greed: None,
        crlf: None,
    }
}

/// Returns the setting `on` for a flag with the previous setting `flag`.
///
/// # Errors
///
/// Returns `FlagSyntax` if the flag was set before.
fn set_once(flag: Option<bool>, on: bool) -> Result<Option<bool>, Fault>
    ensures { Yields (λ x. x) result (set_once flag on) }
{
    match flag {
        None => Ok(Some(on)),
        Some(_) => Err(Fault::Syntax(Kind::FlagSyntax)),
    }
}

/// Returns the flag setting with one more letter. The letter turns its flag on if `on` is `true`,
/// and off otherwise.
///
/// # Errors
///
/// Returns `FlagUnsupported` for `x`, and `FlagSyntax` if the letter does not name a flag or was
/// read before.
fn with_letter(change: Change, on: bool, letter: char) -> Result<Change, Fault>
    ensures { Yields (λ x. x) result (with_letter change on letter) }
{
    let mut next = change;
    match letter {
        'i' => next.ignore_case = set_once(change.ignore_case, on)?,
        'm' => next.multi_line = set_once(change.multi_line, on)?,
        's' => next.dot_all = set_once(change.dot_all, on)?,
        'U' => next.swap_greed = set_once(change.swap_greed, on)?,
        'u' => next.unicode = set_once(change.unicode, on)?,
        'R' => next.crlf = set_once(change.crlf, on)?,
        'x' => return Err(Fault::Syntax(Kind::FlagUnsupported)),
        _ => return Err(Fault::Syntax(Kind::FlagSyntax)),
    }
    Ok(next)
}

/// Returns the letters followed by a dash. The dash turns off the flags of the letters that follow
/// it.
///
/// # Errors
///
/// Returns `FlagSyntax` if a dash was read before.
#[tactic(auto, unfolding(crate::specs::Openings::dash))]
fn dash(letters: Letters) -> Result<Letters, Fault>
    ensures { Yields (λ x. x) result (dash letters) }
{
    if letters.on {
        Ok(Letters {
            change: letters.change,
            on: false,
            pending: true,
        })
    } else {
        Err(Fault::Syntax(Kind::FlagSyntax))
    }
}

/// Returns the letters followed by the letter or the dash `c`.
///
/// # Errors
///
/// Returns the errors of `dash` and `with_letter`.
#[tactic(auto, unfolding(crate::specs::Openings::next_letter))]
fn next_letter(letters: Letters, c: char) -> Result<Letters, Fault>
    ensures { Yields (λ x. x) result (next_letter letters c) }
{
    if c == '-' {
        return dash(letters);
    }
    let change = with_letter(letters.change, letters.on, c)?;
    Ok(Letters {
        change,
        on: letters.on,
        pending: false,
    })
}

/// Returns `token`, the token of a flag setting that ends after `letters`, and the rest of the
/// text.
///
/// # Errors
///
/// Returns `FlagSyntax` if a letter must follow.
#[tactic(auto, unfolding(crate::specs::Openings::setting_end))]
fn setting_end<'t>(
    letters: Letters,
    token: Token<'t>,
    rest: &'t [char],
) -> Result<(Token<'t>, &'t [char]), Fault>
    ensures { Yields (λ x. (token_view x.0, x.1.now)) result
        (setting_end letters (token_view token.entry) rest.now) }
{
    if letters.pending {
        Err(Fault::Syntax(Kind::FlagSyntax))
    } else {
        Ok((token, rest))
    }
}

/// Reads the letters of a flag setting up to `)` or `:`. `start` contains the letters read before.
/// Returns the token of the setting or of the group, and the rest of the text.
///
/// # Errors
///
/// Returns `Unclosed` if the text ends before `)` or `:`, and otherwise the first error of
/// `next_letter` or `setting_end` from the left.
fn letters_from(start: Letters, text: &[char]) -> Result<(Token<'_>, &[char]), Fault>
    ensures { Yields (λ x. (token_view x.0, x.1.now)) result (letters_from start text.now) }
{
    let mut letters = start;
    let mut rest = text;
    while let [c, after @ ..] = rest {
        if *c == ')' {
            return setting_end(letters, Token::Setting(letters.change), after);
        }
        if *c == ':' {
            return setting_end(
                letters,
                Token::Open(GroupOpening::Plain(letters.change)),
                after,
            );
        }
        letters = next_letter(letters, *c)?;
        rest = after;
    }
    Err(Fault::Syntax(Kind::Unclosed))
}

/// Reads the text after `(?`. Returns the token of the group or of the flag setting, and the rest
/// of the text.
///
/// # Errors
///
/// Returns `Unclosed` if the text is empty, and otherwise the errors of `name_at`, `python_at` or
/// `letters_from`.
#[tactic(auto, unfolding(crate::specs::Openings::option_at))]
fn option_at(text: &[char]) -> Result<(Token<'_>, &[char]), Fault>
    ensures { Yields (λ x. (token_view x.0, x.1.now)) result (option_at text.now) }
{
    match text {
        [] => Err(Fault::Syntax(Kind::Unclosed)),
        [':', rest @ ..] => Ok((Token::Open(GroupOpening::Plain(no_change())), rest)),
        ['<', rest @ ..] => name_at(rest),
        ['P', rest @ ..] => python_at(rest),
        _ => letters_from(no_letters(), text),
    }
}

/// Returns the letters of a flag setting before its first letter is read: no flag changes, and a
/// letter must follow.
fn no_letters() -> Letters
    ensures { result ≡ no_letters }
{
    Letters {
        change: no_change(),
        on: true,
        pending: true,
    }
}

/// Reads the text after an opening parenthesis. Returns the token of the group or of the flag
/// setting, and the rest of the text.
///
/// # Errors
///
/// Returns the first fault from the left: `Unclosed`, `GroupSyntax`, `FlagSyntax` or
/// `FlagUnsupported`.
#[tactic(auto, unfolding(crate::specs::Openings::group_at))]
pub fn group_at(text: &[char]) -> Result<(Token<'_>, &[char]), Fault>
    ensures { Yields (λ x. (token_view x.0, x.1.now)) result (group_at text.now) }
{
    match text {
        ['?', rest @ ..] => option_at(rest),
        _ => Ok((Token::Open(GroupOpening::Capture), text)),
    }
}
