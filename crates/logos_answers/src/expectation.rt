//! `push_agreement` compares an answer with a stored answer. Called by `logos_replies` for
//! `--expect`.

ghost use Rattle.std.specs.Prelude.{◌≡◌, ◌≤◌, ◌↔◌, ◌++◌, ℕ, List, IsTrue, drop, length, take};
ghost use Rattle.logos_answers.specs.Imports.{Gains, IsLineStart, ShowsAgreement, line_text, timeless};
ghost use Rattle.logos_page.specs.Shown.{shown_text};

use crate::quotes::push_quoted;
use logos_lines::{Cursor, Location};
use logos_page::Page;

/// The beginning of the line with the time. The time differs between runs of a program with equal
/// arguments.
const TIME: &[u8] = b"milliseconds: ";

/// Appends the result of comparing the answer `made` with the answer `stored` from the file at
/// `path`, and returns whether the answers are equal. If they differ, the result consists of the
/// location of the first difference in `stored` and the differing line of each answer. A last line
/// with the time is not compared.
pub fn push_agreement(page: &mut Page, path: &str, stored: &[u8], made: &[u8]) -> bool
    ensures same { IsTrue result ↔ (timeless stored.now ≡ timeless made.now) }
    ensures shows { ShowsAgreement path.now result page.old page.new }
{
    let stored = without_time(stored);
    let made = without_time(made);
    if stored == made {
        page.push("as expected\n");
        return true;
    }
    push_difference(page, path, stored, made);
    false
}

/// Returns an answer without its last line if the last line contains the time, and the whole answer
/// otherwise.
fn without_time(answer: &[u8]) -> &[u8]
    ensures { result.now ≡ timeless answer.now }
{
    let start = line_start(answer, answer.len().saturating_sub(1));
    if tail_of(answer, start).starts_with(TIME) {
        return front_of(answer, start);
    }
    answer
}

/// Returns the byte offset at which the line that contains the offset `at` begins.
fn line_start(text: &[u8], at: usize) -> usize
    requires { at ≤ length text.now }
    ensures { IsLineStart text.now at result }
{
    let mut start = at;
    while start > 0 && text[start - 1] != b'\n' {
        start -= 1;
    }
    start
}

/// Returns the bytes before the offset `at`, or all bytes if the text has fewer than `at` bytes.
fn front_of(text: &[u8], at: usize) -> &[u8]
    ensures { result.now ≡ take at text.now }
{
    match text.get(..at) {
        Some(front) => front,
        None => text,
    }
}

/// Returns the bytes from the offset `at` on, or no bytes if the text has fewer than `at` bytes.
fn tail_of(text: &[u8], at: usize) -> &[u8]
    ensures { result.now ≡ drop at text.now }
{
    match text.get(at..) {
        Some(tail) => tail,
        None => &[],
    }
}

/// Appends the location in `stored` at which two answers first differ, and the differing line of
/// each answer.
fn push_difference(page: &mut Page, path: &str, stored: &[u8], made: &[u8])
    ensures { (rest : List ℕ) × Gains (shown_text path.now ++ rest) page.old page.new }
{
    let at = common_length(stored, made);
    let start = line_start(stored, at);
    page.push_shown(path);
    push_location(page, stored, at);
    push_line(page, "expected ", line_from(stored, start));
    push_line(page, "found    ", line_from(made, start));
}

/// Returns the length in bytes of the longest common prefix of two texts.
fn common_length(one: &[u8], other: &[u8]) -> usize
    ensures { result ≤ length one.now }
{
    let mut at = 0;
    while at < one.len() && at < other.len() && one[at] == other[at] {
        at += 1;
    }
    at
}

/// Returns the line that begins at the offset `start`, without its LF, or no bytes if the text has
/// fewer than `start` bytes.
fn line_from(text: &[u8], start: usize) -> &[u8] {
    let tail = tail_of(text, start);
    match tail.iter().position(|byte| *byte == b'\n') {
        Some(end) => front_of(tail, end),
        None => tail,
    }
}

/// Appends the location of the byte offset `at` in a text, and the rest of the line that reports a
/// difference.
fn push_location(page: &mut Page, text: &[u8], at: usize)
    ensures { (added : List ℕ) × Gains added page.old page.new }
{
    let mut cursor = Cursor::new(text);
    cursor.go_to(at);
    push_point(page, cursor.location());
}

/// Appends a colon, a location, and the rest of the line that reports a difference.
fn push_point(page: &mut Page, location: Location)
    ensures { (added : List ℕ) × Gains added page.old page.new }
{
    page.push(":");
    page.push_number(location.line);
    page.push(":");
    page.push_number(location.column);
    page.push(": the answer is another\n");
}

/// Appends a line that consists of the text `before` and, in quotes, the line `line` of an answer.
fn push_line(page: &mut Page, before: &str, line: &[u8])
    ensures { Gains (line_text before.now line.now) page.old page.new }
{
    page.push(before);
    push_quoted(page, line);
    page.push("\n");
}
