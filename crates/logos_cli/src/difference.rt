//! Describes the difference between a file and the requested result. Called by `program` for
//! `--check`.

ghost use Rattle.std.specs.Prelude.{⊤};
ghost use Rattle.logos_cli.specs.Views.{FailsBy, IsRefusedFor};

use logos_expand::shape_name;
use logos_host::{ComparableFiles, Failure, Occurrence};
use logos_page::Page;
use logos_tables::Shape;
use std::alloc::{AllocError, Global};

/// The maximum number of lines of each text that are shown.
const SHOWN_LINES: usize = 3;

/// The maximum number of bytes of a line that are shown.
const SHOWN_BYTES: usize = 100;

/// The names of all shapes.
const NAMES: [&str; 3] = ["tables", "tailcall", "state_machine"];

/// A file that is missing or differs from the requested result.
#[derive(Clone, Copy)]
pub(crate) struct StaleFile<'t> {
    /// The path of the file that was expanded.
    pub(crate) input: &'t str,
    /// The path of the file that is missing or differs.
    pub(crate) path: &'t str,
    /// The shape of the requested result.
    pub(crate) shape: Shape,
    /// The result of comparing the file with `made`. It is never `Same`.
    pub(crate) occurrence: Occurrence,
    /// The bytes of the requested result.
    pub(crate) made: &'t [u8],
}

/// Returns the refusal of a file that is missing or differs from the result. The refusal shows the
/// first lines that differ, and the shape in the file's first line if this shape differs from the
/// shape of the result. Returns `Memory` if memory runs out.
pub(crate) fn difference<'w, F: ComparableFiles>(
    alloc: Global,
    stale: &StaleFile<'_>,
    files: &F,
) -> Failure<'w>
    ensures { FailsBy (IsRefusedFor (λ shown. ⊤)) result }
{
    let found = match files.found_bytes(stale.path) {
        Ok(found) => found,
        Err(AllocError) => return Failure::Memory,
    };
    refused(alloc, stale, &found)
}

/// Returns the refusal of a stale file that contains the bytes `found`, or `Memory` if memory runs
/// out.
fn refused<'w>(alloc: Global, stale: &StaleFile<'_>, found: &[u8]) -> Failure<'w>
    ensures { FailsBy (IsRefusedFor (λ shown. ⊤)) result }
{
    match difference_text(alloc, stale, found) {
        Ok(text) => Failure::Refused(text),
        Err(AllocError) => Failure::Memory,
    }
}

/// Returns the lines that describe how the bytes `found` of a stale file differ from the result.
/// Returns only the first of these lines if `found` or the result is not UTF-8.
fn difference_text(
    alloc: Global,
    stale: &StaleFile<'_>,
    found: &[u8],
) -> Result<String, AllocError> {
    let mut page = Page::new(alloc, false);
    push_what(&mut page, stale);
    if let (Ok(found), Ok(made)) = (str::from_utf8(found), str::from_utf8(stale.made)) {
        push_lines(&mut page, found, made);
        push_shape(&mut page, found, stale);
    }
    page.finish()
}

/// Appends the line that states that a file is missing or differs from the result.
fn push_what(page: &mut Page, stale: &StaleFile<'_>) {
    page.push("error: ");
    page.push_shown(stale.path);
    match stale.occurrence {
        Occurrence::Missing => page.push(" is missing\n"),
        _ => {
            page.push(" is not what ");
            page.push_shown(stale.input);
            page.push(" gives\n");
        }
    }
}

/// Appends the lines of a file and of the result from the first difference on, at most
/// `SHOWN_LINES` of each. Appends nothing if the file is empty.
fn push_lines(page: &mut Page, found: &str, made: &str) {
    if found.is_empty() {
        return;
    }
    let mut number: usize = 1;
    let mut rests = (found, made);
    for _ in 0..found.len() {
        let Some(next) = after_same(rests.0, rests.1) else {
            return push_both(page, number, rests.0, rests.1);
        };
        number = number.saturating_add(1);
        rests = next;
    }
    push_both(page, number, rests.0, rests.1);
}

/// Returns both texts without their first lines if the first lines are equal, and `None` otherwise.
/// A line without a line end does not equal any line.
fn after_same<'t>(found: &'t str, made: &'t str) -> Option<(&'t str, &'t str)> {
    let (one, found) = found.split_once('\n')?;
    let (other, made) = made.split_once('\n')?;
    if one == other {
        Some((found, made))
    } else {
        None
    }
}

/// Appends the first lines of `found` and of `made`, at most `SHOWN_LINES` of each. `number` is the
/// line number at which both texts begin.
fn push_both(page: &mut Page, number: usize, found: &str, made: &str) {
    push_side(page, " - ", number, found);
    push_side(page, " + ", number, made);
}

/// Appends the first lines of `text`, at most `SHOWN_LINES`, each preceded by its line number and
/// `sign`. `number` is the line number at which `text` begins.
fn push_side(page: &mut Page, sign: &str, number: usize, text: &str) {
    let mut rest = text;
    for line in 0..SHOWN_LINES {
        let Some((first, after)) = first_line(rest) else {
            return;
        };
        page.push_number(number.saturating_add(line));
        page.push(sign);
        push_cut(page, first);
        rest = after;
    }
}

/// Returns the first line of a text without its line end, and the text after the line end. Returns
/// `None` if the text is empty.
fn first_line(text: &str) -> Option<(&str, &str)> {
    if text.is_empty() {
        return None;
    }
    match text.split_once('\n') {
        Some(parts) => Some(parts),
        None => Some((text, "")),
    }
}

/// Appends `line` and a line end. If the line has more than `SHOWN_BYTES` bytes, appends a prefix
/// of the line, `..` and a line end instead.
fn push_cut(page: &mut Page, line: &str) {
    if let Some((front, rest)) = line.split_at_checked(line.floor_char_boundary(SHOWN_BYTES)) {
        page.push_shown(front);
        if !rest.is_empty() {
            page.push("..");
        }
    }
    page.push("\n");
}

/// Appends the help about the shape in the first line of a file if this shape differs from the
/// shape of the result.
fn push_shape(page: &mut Page, found: &str, stale: &StaleFile<'_>) {
    let wanted = shape_name(stale.shape);
    match named_shape(found) {
        Some(named) if named != wanted => {
            page.push("help: ");
            page.push_shown(stale.path);
            page.push(" says `--shape ");
            page.push(named);
            page.push("`, and this run has `--shape ");
            page.push(wanted);
            page.push("`\n");
        }
        _ => {}
    }
}

/// Returns the name of the shape in the first line of `found`, or `None` if the line contains no
/// known shape.
fn named_shape(found: &str) -> Option<&'static str> {
    let (line, _) = found.split_once('\n')?;
    let front = line.strip_suffix("; do not edit")?;
    let (_, name) = front.rsplit_once(", --shape ")?;
    for known in &NAMES {
        if *known == name {
            return Some(*known);
        }
    }
    None
}
