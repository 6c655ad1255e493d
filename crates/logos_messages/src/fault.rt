//! Functions that append the line of JSON for a fault. `messages` calls `push_fault_line` for each
//! fault that has a line.

ghost use Rattle.std.specs.Prelude.{◌≡◌, None, false, IfOk, IfSome, OnOk, option_map, string_bytes};
ghost use Rattle.logos_messages.specs.Imports.{HasLongLine, YieldsMessage, PutsFault, InReport, fault_head, fault_of, fault_texts};

use crate::head::push_head;
use crate::notes::{push_notes, text_of};
use crate::spans::{has_long_line, push_spans};
use logos_json::JsonLines;
use logos_page::Page;
use logos_report::{KnownFault, Member, Part, Start, push_fault, push_put_in, put_in};
use std::alloc::{AllocError, Global};

/// A fault of a part of a file, with the clues about the fault.
#[derive(Clone, Copy)]
pub(crate) struct FaultMessage<'f, 'c, 'p, 't> {
    pub(crate) part: Part<'p, 't>,
    pub(crate) known: KnownFault<'f>,
    /// The fault as a member of its set of ambiguous leaves, if there is a clue about the set.
    pub(crate) member: Option<Member<'c>>,
    /// The patterns that explain the fault, if any.
    pub(crate) starts: &'c [Start],
}

/// Appends the line of a fault to `lines`.
///
/// # Errors
///
/// Returns `AllocError` if memory runs out for the report of the fault. In this case, nothing was
/// appended.
pub(crate) fn push_fault_line(
    lines: &mut JsonLines,
    alloc: Global,
    message: FaultMessage<'_, '_, '_, '_>,
) -> Result<(), AllocError>
    ensures { OnOk result (PutsFault message.entry.part.source.now message.entry.part.offset
        (fault_of message.entry.known.fault.now) lines.old lines.new) }
{
    let put_in = put_in_text(alloc, message)?;
    let rendered = rendered(alloc, message)?;
    push_message(lines, message, text_of(&rendered), &put_in);
    lines.end_line();
    Ok(())
}

/// Appends the object of a fault. `rendered` is the report of the fault, and `put_in` is the text
/// about a substituted subpattern.
fn push_message(
    lines: &mut JsonLines,
    message: FaultMessage<'_, '_, '_, '_>,
    rendered: Option<&str>,
    put_in: &Option<String>,
)
    ensures { YieldsMessage message.entry.part.source.now message.entry.part.offset
        (fault_head (fault_of message.entry.known.fault.now)) message.entry.known.fault.now.span
        message.entry.known.fault.now.also (option_map (λ t. t.now) rendered.entry)
        lines.old lines.new }
{
    lines.begin_object();
    push_head(lines, message.known.fault);
    push_spans(
        lines,
        message.part,
        message.known.fault.span,
        message.known.fault.also,
    );
    push_notes(lines, message, put_in);
    lines.push_maybe_text("rendered", rendered);
    lines.end_object();
}

/// Returns the report of a fault, without colors. Returns `None` if the span of the fault begins or
/// ends in a line of more than 400 bytes.
fn rendered(
    alloc: Global,
    message: FaultMessage<'_, '_, '_, '_>,
) -> Result<Option<String>, AllocError>
    ensures occur { IfOk result (λ text. IfSome text (λ text. InReport false (fault_texts false
        message.entry.part.source.now message.entry.part.offset
        (fault_of message.entry.known.fault.now)) (string_bytes text))) }
    ensures left_out { IfOk result (λ text. text ≡ None → HasLongLine message.entry.part.source.now
        message.entry.part.offset message.entry.known.fault.now.span) }
{
    if has_long_line(message.part, message.known.fault.span) {
        return Ok(None);
    }
    let mut report = Page::new(alloc, false);
    push_fault(&mut report, message.part, message.known);
    Ok(Some(report.finish()?))
}

/// Returns the text about the subpattern whose substitution shifts the byte of a fault, or `None`
/// if there is no such subpattern.
fn put_in_text(
    alloc: Global,
    message: FaultMessage<'_, '_, '_, '_>,
) -> Result<Option<String>, AllocError> {
    let Some(put) = put_in(message.part, message.known.fault) else {
        return Ok(None);
    };
    let mut page = Page::new(alloc, false);
    push_put_in(&mut page, message.part, put);
    Ok(Some(page.finish()?))
}
