//! Defines the form in which characters are shown. No text of a file, of a message or of a name
//! reaches a terminal unchanged, because some characters move the cursor, change colors or change
//! the order of the text. Used by `page`, `logos_host`, `logos_report` and `logos_screen`.

ghost use Rattle.std.specs.Prelude.{◌≡◌, ◌<◌, ◌+◌};
ghost use Rattle.logos_page.specs.Imports.{is_in_range, is_unsafe, occur_in};

use unicode_width::UnicodeWidthChar;

/// The width of a tab, in columns.
const TAB: usize = 4;

/// Returns the character that represents `character` on a terminal. `character` must not be a tab.
///
/// The result is:
///
/// - for an ASCII control character, its symbol from Unicode's block Control Pictures,
/// - for any other unsafe character, U+FFFD,
/// - for a safe character, `character` itself.
pub fn occur_in(character: char) -> char
    ensures { result ≡ occur_in character }
{
    let code = character as u32;
    if code < 32 {
        picture(code)
    } else if code == 127 {
        '\u{2421}'
    } else if is_unsafe(code) {
        '\u{FFFD}'
    } else {
        character
    }
}

/// Returns the symbol of an ASCII control character from Unicode's block Control Pictures. `code`
/// is the code point of the control character, and must be less than 32.
fn picture(code: u32) -> char
    requires { code < 32 }
    ensures { result ≡ 0x2400 + code }
{
    match char::from_u32(0x2400 + code) {
        Some(picture) => picture,
        None => '\u{FFFD}',
    }
}

/// Returns whether the character with the code point `code`, other than an ASCII control character,
/// is unsafe to show. Such a character controls a terminal or the order of a text, or takes no
/// column without changing its neighbors.
fn is_unsafe(code: u32) -> bool
    ensures { result ≡ is_unsafe code }
{
    is_in_range(code, 0x80, 0x9F)
        | (code == 0xAD)
        | (code == 0x61C)
        | (code == 0x180E)
        | is_in_range(code, 0x200B, 0x200F)
        | is_in_range(code, 0x2028, 0x202E)
        | is_in_range(code, 0x2060, 0x206F)
        | (code == 0xFEFF)
        | is_in_range(code, 0xFFF9, 0xFFFB)
        | is_in_range(code, 0xE0000, 0xE007F)
}

/// Returns whether `code` is in `first..=last`.
fn is_in_range(code: u32, first: u32, last: u32) -> bool
    ensures { result ≡ is_in_range first last code }
{
    (first <= code) & (code <= last)
}

/// Returns the width of a character as it is shown, in columns of a terminal.
pub fn columns_of(character: char) -> usize {
    if character == '\t' {
        return TAB;
    }
    match occur_in(character).width() {
        Some(width) => width,
        None => 1,
    }
}
