//! Defines indexes of the lines of a text. The printers of reports and of tables create an index
//! for each file that they show.

ghost use Rattle.std.specs.Prelude.{◌≡◌, ◌<◌, ◌≤◌, ◌+◌, ◌^◌, ◌∷◌, [], ℕ, List, Some, None, ◌⊎◌, IfOk, IfSome, MatchOption, OnOk, IsCharBoundary, ◌++◌, ◌==◌, if◌then◌else◌, length, drop};
ghost use Rattle.logos_lines.specs.Views.{location_at, ends_line, line_length, ends_search, next_column, AreStarts, AreStops, IsLineOf, IsLongLine, IsNoLine, IsStart};

use crate::cursor::Cursor;
use crate::location::{Location, continues};
use std::alloc::{AllocError, Global};
use std::marker::Model;

/// The distance between two consecutive stops, in bytes.
const STEP: usize = 256;

/// A text with the offsets at which its lines begin. A line ends in LF or CR LF.
///
/// Offsets count bytes from 0, lines count from 1, and columns count characters from 1. Finding the
/// line and column of an offset takes the same time anywhere in the text, even in one long line.
#[derive(Drop)]
pub struct LineIndex<'t> {
    text: &'t str,
    starts: Vec<usize>,
    /// The locations of the byte offsets 0, 256, 512 and so on, up to the length of the text.
    stops: Vec<Location>,
}

impl<'t> Model for LineIndex<'t> {
    ghost use Rattle.std.specs.Prelude.{ℕ, List, IsUtf8};
    ghost use Rattle.logos_lines.specs.Views.{AreStarts, AreStops};

    ghost Value = { List ℕ };

    ghost view = { λ index. index.text.now };

    ghost invariant = { λ index. AreStarts index.text.now index.starts.items
        × AreStops index.text.now index.stops.items };
}

impl<'t> LineIndex<'t> {
    /// Returns an index of the lines of a text.
    ///
    /// # Errors
    ///
    /// Returns `AllocError` if memory runs out.
    pub fn new(alloc: Global, text: &'t str) -> Result<LineIndex<'t>, AllocError>
        ensures { IfOk result (λ index. index ≡ text.now) }
    {
        let starts = line_starts(alloc, text)?;
        let stops = stops_of(alloc, text.as_bytes())?;
        Ok(LineIndex {
            text,
            starts,
            stops,
        })
    }

    /// Returns the line and the column of a byte offset. An offset past the end of the text is
    /// treated as the end of the text. An offset inside a character is treated as the offset after
    /// the character's first byte.
    pub fn line_column(&self, offset: usize) -> Location
        ensures { result ≡ location_at self.now offset }
    {
        let bytes = self.text.as_bytes();
        let stop = offset.min(bytes.len()) / STEP;
        let mut cursor = Cursor::at(bytes, stop * STEP, self.stops[stop]);
        cursor.go_to(offset);
        cursor.location()
    }

    /// Returns the byte offset of a line and a column, or `None` if the text has no such line or
    /// the line has no such column. At character boundaries, this is the inverse of `line_column`.
    pub fn offset(&self, line: usize, column: usize) -> Option<usize>
        ensures found { IfSome result (λ offset. IsCharBoundary self.now offset
            × (location_at self.now offset ≡ record { line = line; column = column })) }
        ensures every { (offset : ℕ) → IsCharBoundary self.now offset →
            location_at self.now offset ≡ record { line = line; column = column } →
            result ≡ Some offset }
    {
        let start = self.start_of(line)?;
        offset_in_line(self.text, start, line, column)
    }

    /// Returns the text of a line without LF or CR LF, or `None` if the text has no such line.
    pub fn line_text(&self, line: usize) -> Option<&'t str>
        ensures { MatchOption result (IsNoLine self.now line)
            (λ text. IsLineOf self.now line text.now) }
    {
        let start = self.start_of(line)?;
        let end = line_end(self.text, start);
        Some(&self.text[start..end])
    }

    /// Returns the text of a line without LF or CR LF, or `None` if the text has no such line or
    /// the line has more than `most` bytes. Examines at most `most` bytes and the end of the line.
    pub fn short_line(&self, line: usize, most: usize) -> Option<&'t str>
        ensures { MatchOption result (IsNoLine self.now line ⊎ IsLongLine self.now line most)
            (λ text. IsLineOf self.now line text.now × (length text.now ≤ most)) }
    {
        let Some(start) = self.start_of(line) else {
            return None;
        };
        match near_end(self.text, start, most) {
            Some(end) => Some(&self.text[start..end]),
            None => None,
        }
    }

    /// Returns the byte offset at which the line with the number `line` begins, or `None` if the
    /// text has no such line.
    fn start_of(&self, line: usize) -> Option<usize>
        ensures { MatchOption result (IsNoLine self.now line) (IsStart self.now line) }
    {
        let before = line.checked_sub(1)?;
        Some(*self.starts.get(before)?)
    }
}

/// Returns the byte offsets at which the lines of a text begin: 0, and the offset after each LF.
fn line_starts(alloc: Global, text: &str) -> Result<Vec<usize>, AllocError>
    ensures { IfOk result (λ starts. AreStarts text.now starts.items) }
{
    let bytes = text.as_bytes();
    let mut starts = Vec::new(alloc);
    starts.push(0)?;
    for at in 0..bytes.len() {
        push_start(&mut starts, at, bytes[at])?;
    }
    Ok(starts)
}

/// Appends the offset after `at` to `starts` if the byte `byte` at the offset `at` is LF.
fn push_start(starts: &mut Vec<usize>, at: usize, byte: u8) -> Result<(), AllocError>
    requires { at + 1 < 2 ^ 64 }
    ensures { OnOk result (starts.new.items ≡ (if byte == 10 then starts.old.items ++ (at + 1) ∷ []
        else starts.old.items)) }
{
    if byte == b'\n' {
        starts.push(at + 1)?;
    }
    Ok(())
}

/// Returns the locations of the byte offsets 0, 256, 512 and so on of a text, up to its length.
fn stops_of(alloc: Global, bytes: &[u8]) -> Result<Vec<Location>, AllocError>
    ensures { IfOk result (λ stops. AreStops bytes.now stops.items) }
{
    let mut cursor = Cursor::new(bytes);
    let mut stops = Vec::new(alloc);
    for stop in 0..bytes.len() / STEP + 1 {
        cursor.go_to(stop * STEP);
        stops.push(cursor.location())?;
    }
    Ok(stops)
}

/// Returns whether the search for the column `column` ends before `byte`, which is in the column
/// `reached`. The search ends at the first byte of a character if the columns are equal or the
/// character is LF.
fn ends_search(byte: u8, reached: usize, column: usize) -> bool
    ensures { result ≡ ends_search byte reached column }
{
    !continues(byte) & ((reached == column) | (byte == b'\n'))
}

/// Returns the column after the byte `byte`, which is in the column `column` and must not be LF.
fn next_column(byte: u8, column: usize) -> usize
    requires { column + 1 < 2 ^ 64 }
    ensures { result ≡ next_column byte column }
{
    if continues(byte) { column } else { column + 1 }
}

/// Returns the byte offset of a column of the line that begins at `start`, or `None` if the line
/// has no such column.
fn offset_in_line(text: &str, start: usize, line: usize, column: usize) -> Option<usize>
    requires { IsStart text.now line start }
    ensures found { IfSome result (λ offset. IsCharBoundary text.now offset
        × (location_at text.now offset ≡ record { line = line; column = column })) }
    ensures every { (offset : ℕ) → IsCharBoundary text.now offset →
        location_at text.now offset ≡ record { line = line; column = column } →
        result ≡ Some offset }
{
    let bytes = text.as_bytes();
    let mut at = start;
    let mut reached = 1;
    while at < bytes.len() && !ends_search(bytes[at], reached, column) {
        reached = next_column(bytes[at], reached);
        at += 1;
    }
    if reached == column { Some(at) } else { None }
}

/// Returns whether LF or CR LF is at the byte offset `at`.
fn ends_line(bytes: &[u8], at: usize) -> bool
    requires { at < length bytes.now }
    ensures { result ≡ ends_line (drop at bytes.now) }
{
    let next = at + 1;
    let is_return = next < bytes.len() && bytes[at] == b'\r' && bytes[next] == b'\n';
    (bytes[at] == b'\n') | is_return
}

/// Returns the byte offset at which the line that begins at `start` ends, before its LF or CR LF.
fn line_end(text: &str, start: usize) -> usize
    requires { start ≤ length text.now }
    ensures value { result ≡ start + line_length (drop start text.now) }
    ensures after { start ≤ result }
    ensures boundary { IsCharBoundary text.now result }
{
    let bytes = text.as_bytes();
    let mut end = start;
    while end < bytes.len() && !ends_line(bytes, end) {
        end += 1;
    }
    end
}

/// Returns the byte offset at which the line that begins at `start` ends, before its LF or CR LF.
/// Returns `None` if the line has more than `most` bytes.
fn near_end(text: &str, start: usize, most: usize) -> Option<usize>
    requires { start ≤ length text.now }
    ensures value { MatchOption result (most < line_length (drop start text.now))
        (λ end. end ≡ start + line_length (drop start text.now)) }
    ensures near { IfSome result (λ end. end ≤ start + most) }
    ensures after { IfSome result (λ end. start ≤ end) }
    ensures boundary { IfSome result (λ end. IsCharBoundary text.now end) }
{
    let bytes = text.as_bytes();
    let mut end = start;
    while end < bytes.len() && !ends_line(bytes, end) {
        if end - start >= most {
            return None;
        }
        end += 1;
    }
    Some(end)
}
