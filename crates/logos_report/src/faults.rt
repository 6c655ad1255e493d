//! Appends faults, with their notes and help texts, to a report, and counts the errors among the
//! faults. Called by `file_report`, `sets` and other crates.

ghost use Rattle.std.specs.Prelude.{◌≡◌, ◌≤◌, ◌++◌, ◌==◌, ◌∷◌, [], codes, if◌then◌else◌, length, take};
ghost use Rattle.logos_report.specs.Views.{count_by, name_of, fault_of, faults_of, is_error, shown_text, code_text, count_text, counted_texts, fault_texts, faults_texts, texts_after, first_line, has_name, head_line, rest_line, rest_text, seen_of, summary_line, all_faults, listed_faults, begins_error, errors_after, first_faults, sizes_of, next_value, Gains, Shows, painted, location_line, starts_in, starts_of};

use crate::clues::{Clues, NextFaults, first_faults};
use crate::fault_set::{FaultSet, set_at};
use crate::file_report::{FaultListing, count_in, seen_in};
use crate::frame::{Marks, push_frame_with, push_offset};
use crate::notes::{ShownFault, push_notes};
use crate::pattern_caret::caret_span;
use crate::sets::push_listed;
use crate::source::Part;
use logos_page::{Page, Style};
use logos_token::error::{Errors, FaultCode, SpannedError};

/// The maximum number of faults with one code that are shown for a file.
pub const MOST: usize = 50;

/// A fault with its set of ambiguous leaves and its help.
#[derive(Clone, Copy)]
pub struct KnownFault<'f> {
    pub fault: &'f SpannedError,
    /// The set of the fault. Empty if the fault is not about an ambiguous leaf.
    pub set: FaultSet<'f>,
    /// The help for the fault, if there is one.
    pub help: Option<&'static str>,
}

/// Appends the faults of a part of a file, in the order of `errors`.
///
/// For each fault, the appended text has a line with the name of the fault's code and the first
/// line of its message, and a line with its location in the file. In a set of ambiguous leaves with
/// a clue, only the first fault has the line with the code, and the locations of all faults follow
/// this line. If a code has more than 50 faults, only the first 50 and the number of the remaining
/// faults are appended.
pub fn push_faults(page: &mut Page, part: Part<'_, '_>, errors: &Errors, clues: &Clues)
    ensures { Shows (faults_texts page.old.is_colored part.entry.source.now part.entry.offset
        (starts_of clues.now) (sizes_of clues.now) errors.now) page.old page.new }
{
    let listing = FaultListing {
        earlier: &[],
        faults: errors.list(),
        later: &[],
    };
    push_all(page, part, listing, first_faults(clues));
}

/// Appends the faults in `listing.faults`, in the order of this list. `first` contains the clues
/// from the first of these faults on.
pub(crate) fn push_all(
    page: &mut Page,
    part: Part<'_, '_>,
    listing: FaultListing<'_>,
    first: NextFaults<'_>,
)
    ensures { Shows (texts_after page.old.is_colored part.entry.source.now part.entry.offset
        (starts_in first.entry) (listed_faults listing.entry) (all_faults listing.entry.earlier.now)
        (next_value first.entry) (faults_of listing.entry.faults.now)) page.old page.new }
{
    let mut number = 0;
    let mut next = first;
    for fault in listing.faults {
        push_counted(page, part, listing, number, fault, next);
        next = next.after(fault);
        number += 1;
    }
}

/// Appends `fault` if fewer than 50 faults with its code precede it in the file. For the 51st fault
/// with this code, appends the number of faults that are left out instead. For later faults,
/// appends nothing. `number` is the index of the fault in its part, and `next` contains the clues
/// from this fault on.
fn push_counted(
    page: &mut Page,
    part: Part<'_, '_>,
    listing: FaultListing<'_>,
    number: usize,
    fault: &SpannedError,
    next: NextFaults<'_>,
)
    requires { number ≤ length listing.faults.now }
    ensures { Shows (counted_texts page.old.is_colored part.entry.source.now part.entry.offset
        (starts_in next.entry) (listed_faults listing.entry)
        (all_faults listing.entry.earlier.now ++ faults_of (take number listing.entry.faults.now))
        (next_value next.entry) (fault_of fault.now)) page.old page.new }
{
    let code = fault.code;
    let seen = seen_in(listing.earlier, &listing.faults[..number], code);
    if seen < MOST {
        let known = KnownFault {
            fault,
            set: set_at(listing.faults, number),
            help: next.help(),
        };
        push_listed(page, part, known, next);
    } else if seen == MOST {
        push_rest(page, code, count_in(listing, code).saturating_sub(MOST));
    }
}

/// Appends a line reporting that `count` faults with the code `code` are not shown, and an empty
/// line.
pub fn push_rest(page: &mut Page, code: FaultCode, count: usize)
    ensures { Shows (rest_line page.old.is_colored code count ∷ []) page.old page.new }
{
    push_rest_line(page, code, count);
    page.push("\n");
}

/// Appends the line reporting that `count` faults with the code `code` are not shown.
fn push_rest_line(page: &mut Page, code: FaultCode, count: usize)
    ensures { Gains (rest_line page.old.is_colored code count) page.old page.new }
{
    push_code(page, code);
    push_rest_text(page, count);
    page.push("\n");
}

/// Appends the text after the code in the line reporting that `count` faults are not shown.
fn push_rest_text(page: &mut Page, count: usize)
    ensures { Gains (painted page.old.is_colored Style.Strong (rest_text count)) page.old page.new }
{
    page.begin(Style::Strong);
    page.push(": ");
    page.push_number(count);
    page.push(" more are not shown");
    page.end();
}

/// Returns the number of faults in `faults` with the code `code`.
pub(crate) fn count_code(faults: &[SpannedError], code: FaultCode) -> usize
    ensures { result ≡ count_by (has_name (name_of code)) (faults_of faults.now) }
{
    let mut count = 0;
    for fault in faults {
        count += usize::from(has_code(fault, code));
    }
    count
}

/// Returns the number of faults in `faults` with the code `code`, but at most `MOST + 1`. The
/// search begins at the last fault, so that the calls for all faults of a list together take time
/// linear in the number of faults.
pub(crate) fn seen_of(faults: &[SpannedError], code: FaultCode) -> usize
    ensures { result ≡ seen_of code (faults_of faults.now) }
{
    let mut left = faults.len();
    let mut count = 0;
    while left > 0 {
        if count > MOST {
            return count;
        }
        left -= 1;
        count += usize::from(has_code(&faults[left], code));
    }
    count
}

/// Returns whether the code of a fault has the same name as `code`.
fn has_code(fault: &SpannedError, code: FaultCode) -> bool
    ensures { result ≡ has_name (name_of code) (fault_of fault.now) }
{
    fault.code.name() == code.name()
}

/// Returns the number of error reports for the faults in `errors`. A fault with the code `Previous`
/// is not an error, because it only shows an earlier definition to which an error refers. A set of
/// ambiguous leaves with a clue has one report.
pub fn count_errors(errors: &Errors, clues: &Clues) -> usize
    ensures { result ≡ errors_after (first_faults (sizes_of clues.now)) errors.now }
{
    count_all(errors.list(), first_faults(clues))
}

/// Returns the number of error reports for `faults`. `first` contains the clues from the first
/// fault on.
fn count_all(faults: &[SpannedError], first: NextFaults<'_>) -> usize
    ensures { result ≡ errors_after (next_value first.entry) (faults_of faults.now) }
{
    let mut count = 0;
    let mut next = first;
    for fault in faults {
        count += usize::from(begins_error(next, fault));
        next = next.after(fault);
    }
    count
}

/// Returns whether the report of an error begins with `fault`, that is, whether the fault is an
/// error that is not shown in the report of an earlier fault of its set. `next` contains the clues
/// from `fault` on.
pub fn begins_error(next: NextFaults<'_>, fault: &SpannedError) -> bool
    ensures { result ≡ begins_error (next_value next.entry) (fault_of fault.now) }
{
    is_error(fault.code) & !next.follows(fault)
}

/// Returns whether a fault with the code `code` is an error: `true` for each code except
/// `Previous`.
pub fn is_error(code: FaultCode) -> bool
    ensures { result ≡ is_error code }
{
    !matches!(code, FaultCode::Previous)
}

/// Appends the last line of a report, which contains `count`, the number of errors.
pub fn push_summary(page: &mut Page, count: usize)
    ensures { Gains (summary_line page.old.is_colored count) page.old page.new }
{
    page.paint(Style::Error, "error");
    page.begin(Style::Strong);
    push_count(page, count);
    page.end();
    page.push("\n");
}

/// Appends the text after the word `error` in the last line of a report. The text contains `count`,
/// the number of errors.
fn push_count(page: &mut Page, count: usize)
    ensures { Gains (count_text count) page.old page.new }
{
    page.push(": aborting due to ");
    page.push_number(count);
    page.push(errors_text(count));
}

/// Returns the text after the number of errors in the last line of a report. `count` is this
/// number.
fn errors_text(count: usize) -> &'static str
    ensures { result.now ≡ (if count == 1 then codes " previous error" else codes " previous errors") }
{
    if count == 1 {
        " previous error"
    } else {
        " previous errors"
    }
}

/// Appends a fault: its code, the first line of its message, its location, its lines, its notes,
/// its help, and an empty line.
pub fn push_fault(page: &mut Page, part: Part<'_, '_>, known: KnownFault<'_>)
    ensures { Shows (fault_texts page.old.is_colored part.entry.source.now part.entry.offset
        (fault_of known.entry.fault.now)) page.old page.new }
{
    push_head(page, known.fault);
    let width = push_span(page, part, known.fault);
    push_notes(page, ShownFault { part, known, width });
}

/// Appends the location of a fault and its lines with carets. Appends only the location if the
/// fault is that the source is too long. Returns the width of the column of line numbers.
fn push_span(page: &mut Page, part: Part<'_, '_>, fault: &SpannedError) -> usize
    ensures { Shows (location_line page.old.is_colored part.entry.source.now part.entry.offset
        fault.now.span.from ∷ []) page.old page.new }
{
    if matches!(fault.code, FaultCode::LimitSource) {
        push_offset(page, part, fault.span.from, 1);
        return 1;
    }
    push_marked(page, part, fault, "")
}

/// Appends the location of a fault and its lines with carets, with `label` after the carets.
/// Returns the width of the column of line numbers.
pub(crate) fn push_marked(
    page: &mut Page,
    part: Part<'_, '_>,
    fault: &SpannedError,
    label: &str,
) -> usize
    ensures { Shows (location_line page.old.is_colored part.entry.source.now part.entry.offset
        fault.now.span.from ∷ []) page.old page.new }
{
    let marks = Marks {
        span: caret_span(part, fault),
        style: style_of(fault.code),
        label,
    };
    push_frame_with(page, part, fault.span.from, marks)
}

/// Appends the line with the code of a fault and the first line of its message.
pub(crate) fn push_head(page: &mut Page, fault: &SpannedError)
    ensures { Gains (head_line page.old.is_colored (fault_of fault.now)) page.old page.new }
{
    push_code(page, fault.code);
    push_message(page, first_line(fault.message.as_str()));
    page.push("\n");
}

/// Appends the separator `: ` and `line`, the first line of a fault's message.
fn push_message(page: &mut Page, line: &str)
    ensures { Gains (painted page.old.is_colored Style.Strong (codes ": " ++ shown_text line.now))
        page.old page.new }
{
    page.begin(Style::Strong);
    page.push(": ");
    page.push_shown(line);
    page.end();
}

/// Appends the code of a fault as `error[CODE]`, or appends `note` if the fault is not an error.
fn push_code(page: &mut Page, code: FaultCode)
    ensures { Gains (code_text page.old.is_colored code) page.old page.new }
{
    if is_error(code) {
        push_error_code(page, code);
    } else {
        page.paint(Style::Frame, "note");
    }
}

/// Appends the code of an error as `error[CODE]`.
fn push_error_code(page: &mut Page, code: FaultCode)
    ensures { Gains (painted page.old.is_colored Style.Error
        (codes "error[" ++ (name_of code ++ codes "]"))) page.old page.new }
{
    page.begin(Style::Error);
    page.push("error[");
    page.push(code.name());
    page.push("]");
    page.end();
}

/// Returns the style of the carets under a fault with the code `code`.
fn style_of(code: FaultCode) -> Style {
    if is_error(code) {
        Style::Error
    } else {
        Style::Frame
    }
}

/// Returns the part of `text` before its first LF, or the whole text if it has no LF.
pub fn first_line(text: &str) -> &str
    ensures { result.now ≡ first_line text.now }
{
    match text.split_once('\n') {
        Some(parts) => parts.0,
        None => text,
    }
}
