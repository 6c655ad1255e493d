//! Functions that format inputs for messages. Used by `meetings` and `shadowed_leaves`.

use logos_page::Page;
use std::str;

/// The maximum number of bytes of an input that are shown.
const MOST: usize = 60;

/// Appends at most the first 60 bytes of `bytes` in quotes, as a text if all of `bytes` is UTF-8,
/// and as numbers otherwise. Appends `..` after the last byte shown if bytes are left out.
pub(crate) fn push_quoted(page: &mut Page, bytes: &[u8]) {
    page.push("\"");
    match str::from_utf8(bytes) {
        Ok(text) => push_text(page, text),
        Err(_) => push_bytes(page, bytes),
    }
    page.push("\"");
}

/// Appends a text in the form in which it is shown on a terminal. If the text has more than `MOST`
/// bytes, appends only the longest prefix of at most `MOST` bytes, followed by `..`.
fn push_text(page: &mut Page, text: &str) {
    if text.len() > MOST {
        page.push_shown(front_of(text));
        page.push("..");
    } else {
        page.push_shown(text);
    }
}

/// Returns the longest prefix of a text with at most `MOST` bytes.
fn front_of(text: &str) -> &str {
    let mut end = MOST;
    while end > 0 {
        if let Some(front) = text.get(..end) {
            return front;
        }
        end -= 1;
    }
    ""
}

/// Appends at most the first `MOST` bytes of `bytes`, each as `\x` and two hexadecimal digits.
/// Appends `..` if there are more bytes.
fn push_bytes(page: &mut Page, bytes: &[u8]) {
    for byte in bytes.iter().take(MOST) {
        page.push("\\x");
        page.push(digit(*byte / 16));
        page.push(digit(*byte % 16));
    }
    if bytes.len() > MOST {
        page.push("..");
    }
}

/// Returns the hexadecimal digit of a number, or an empty text if the number is 16 or more.
fn digit(value: u8) -> &'static str {
    const DIGITS: &str = "0123456789ABCDEF";
    let at = usize::from(value);
    DIGITS.get(at..at + 1).unwrap_or("")
}
