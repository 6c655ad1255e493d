//! Functions that read bytes and characters at byte offsets of a source text, and functions that
//! classify characters. Called by the modules of this crate and by `logos_token`.

ghost use Rattle.std.specs.Prelude.{◌≡◌, ◌<◌, ◌≤◌, length, slice_index};
ghost use Rattle.logos_lexeme.specs.Imports.{IsCharBoundary, character, past, is_space, is_start, is_continuing, is_mark};

/// Returns the byte at the byte offset `at`, or 0 at the end of the source and after it.
pub fn byte_at(source: &str, at: usize) -> u8
    ensures { result ≡ slice_index source.now at }
{
    let bytes = source.as_bytes();
    if at < bytes.len() { bytes[at] } else { 0 }
}

/// Returns the character that begins at the byte offset `at`, or NUL at the end of the source.
pub(crate) fn char_at(source: &str, at: usize) -> char
    requires { IsCharBoundary source.now at }
    ensures { result ≡ character source.now at }
{
    source[at..].chars().next().unwrap_or('\0')
}

/// Returns the byte offset after the character that begins at `at`, or `at + 1` at the end of the
/// source.
pub(crate) fn past(source: &str, at: usize) -> usize
    requires inside { at < length source.now }
    requires boundary { IsCharBoundary source.now at }
    ensures value { result ≡ past source.now at }
    ensures next_boundary { IsCharBoundary source.now result }
{
    at + char_at(source, at).len_utf8()
}

/// Returns whether a character has the Unicode property `Pattern_White_Space`.
pub(crate) fn is_space(c: char) -> bool
    ensures { result ≡ is_space c }
{
    (('\t' <= c) & (c <= '\r'))
        | (c == ' ')
        | (c == '\u{85}')
        | (('\u{200E}' <= c) & (c <= '\u{200F}'))
        | (('\u{2028}' <= c) & (c <= '\u{2029}'))
}

/// Returns whether a character can begin an identifier.
pub(crate) fn is_start(c: char) -> bool
    ensures { result ≡ is_start c }
{
    unicode_ident::is_xid_start(c) | (c == '_')
}

/// Returns whether a character can continue an identifier.
pub(crate) fn is_continuing(c: char) -> bool
    ensures { result ≡ is_continuing c }
{
    unicode_ident::is_xid_continue(c)
}

/// Returns whether a character is punctuation. Delimiters, quotes and `'` are not punctuation.
pub(crate) fn is_mark(c: char) -> bool
    ensures { result ≡ is_mark c }
{
    [
        '~', '!', '@', '#', '$', '%', '^', '&', '*', '-', '=', '+', '|', ';', ':', ',', '<', '.',
        '>', '/', '?',
    ]
    .contains(&c)
}
