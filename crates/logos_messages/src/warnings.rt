//! Functions that append a line of JSON for each of the first 50 warnings of a part of a file. Used
//! by `logos_file_warnings`.

ghost use Rattle.std.specs.Prelude.{◌≡◌, ◌++◌, ℕ, List, None, false, IfOk, IfSome, OnErr, OnOk, option_map, string_bytes};
ghost use Rattle.logos_messages.specs.Imports.{AreWarnings, Gains, HasLongLine, YieldsMessage, YieldsNoteList, YieldsNotes, PutsWarning, PutsWarnings, InReport, shown_of, warning_head, warning_texts};

use crate::head::push_message;
use crate::notes::{push_one, text_of};
use crate::spans::{has_long_line, push_spans};
use logos_json::JsonLines;
use logos_page::Page;
use logos_report::{Part, Warning, first_of, push_warning};
use logos_token::error::Memory;
use std::alloc::{AllocError, Global};

/// Appends a line of JSON for each of the first 50 warnings of a part of a file, in the order of
/// `warnings`.
///
/// A line has the members of rustc's diagnostics. The member `rendered` is the report of the
/// warning, without colors, or null if the span of the warning begins or ends in a line of more
/// than 400 bytes.
///
/// # Errors
///
/// Returns `Memory` if memory runs out. `lines` is then unchanged.
pub fn push_warning_messages(
    alloc: Global,
    lines: &mut Vec<u8>,
    part: Part<'_, '_>,
    warnings: &[Warning],
) -> Result<(), Memory>
    ensures pushed { OnOk result ((added : List ℕ) × (lines.new.items ≡ lines.old.items ++ added)
        × AreWarnings part.entry.source.now part.entry.offset (shown_of warnings.now) added) }
    ensures unchanged { OnErr result (lines.new.items ≡ lines.old.items) }
{
    let mut added = warning_lines(alloc, part, first_of(warnings))?;
    lines.append(&mut added)?;
    Ok(())
}

/// Returns the lines for `warnings`.
fn warning_lines(
    alloc: Global,
    part: Part<'_, '_>,
    warnings: &[Warning],
) -> Result<Vec<u8>, AllocError>
    ensures { IfOk result (λ lines. AreWarnings part.entry.source.now part.entry.offset
        warnings.now lines.items) }
{
    let mut lines = JsonLines::new(alloc, Vec::new(alloc));
    push_all(&mut lines, alloc, part, warnings)?;
    let bytes = lines.finish()?;
    Ok(bytes)
}

/// Appends the lines for `warnings`.
fn push_all(
    lines: &mut JsonLines,
    alloc: Global,
    part: Part<'_, '_>,
    warnings: &[Warning],
) -> Result<(), AllocError>
    ensures { OnOk result (PutsWarnings part.entry.source.now part.entry.offset warnings.now
        lines.old lines.new) }
{
    for warning in warnings {
        push_line(lines, alloc, part, warning)?;
    }
    Ok(())
}

/// Appends the line for a warning.
fn push_line(
    lines: &mut JsonLines,
    alloc: Global,
    part: Part<'_, '_>,
    warning: &Warning,
) -> Result<(), AllocError>
    ensures { OnOk result (PutsWarning part.entry.source.now part.entry.offset warning.now
        lines.old lines.new) }
{
    let rendered = rendered(alloc, part, warning)?;
    push_object(lines, part, warning, text_of(&rendered));
    lines.end_line();
    Ok(())
}

/// Appends the object of a warning with the report `rendered`, or with null if `rendered` is
/// `None`.
fn push_object(lines: &mut JsonLines, part: Part<'_, '_>, warning: &Warning, rendered: Option<&str>)
    ensures { YieldsMessage part.entry.source.now part.entry.offset
        (warning_head (string_bytes warning.now.message)) warning.now.span warning.now.also
        (option_map (λ t. t.now) rendered.entry) lines.old lines.new }
{
    lines.begin_object();
    push_head(lines, warning.message.as_str());
    push_spans(lines, part, warning.span, warning.also);
    push_notes(lines, warning);
    lines.push_maybe_text("rendered", rendered);
    lines.end_object();
}

/// Appends the marker of a diagnostic, the message of a warning, a null code, and the level.
fn push_head(lines: &mut JsonLines, message: &str)
    ensures { Gains (warning_head message.now) lines.old lines.new }
{
    push_message(lines, message);
    lines.push_null("code");
    lines.push_text("level", "warning");
}

/// Appends a member with the list of the note and the help of a warning.
fn push_notes(lines: &mut JsonLines, warning: &Warning)
    ensures { YieldsNoteList lines.old lines.new }
{
    lines.begin_list("children");
    push_text(lines, "note", text_of(&warning.note));
    push_text(lines, "help", warning.help);
    lines.end_list();
}

/// Appends the object of a note or a help with the level `level` and the text `text`. Appends
/// nothing if `text` is `None`.
fn push_text(lines: &mut JsonLines, level: &str, text: Option<&str>)
    ensures { YieldsNotes lines.old lines.new }
{
    if let Some(text) = text {
        push_one(lines, level, text);
    }
}

/// Returns the report of a warning, without colors. Returns `None` if the span of the warning
/// begins or ends in a line of more than 400 bytes.
fn rendered(
    alloc: Global,
    part: Part<'_, '_>,
    warning: &Warning,
) -> Result<Option<String>, AllocError>
    ensures occur { IfOk result (λ text. IfSome text (λ text. InReport false (warning_texts false
        part.entry.source.now part.entry.offset warning.now) (string_bytes text))) }
    ensures left_out { IfOk result (λ text. text ≡ None →
        HasLongLine part.entry.source.now part.entry.offset warning.now.span) }
{
    if has_long_line(part, warning.span) {
        return Ok(None);
    }
    let mut page = Page::new(alloc, false);
    push_warning(&mut page, part, warning);
    Ok(Some(page.finish()?))
}
