//! Functions that append the line that states how many faults with a code are left out. Used by
//! `messages`.

ghost use Rattle.std.specs.Prelude.{◌≡◌, ◌++◌, ◌∷◌, [], false, IfOk, OnOk, codes, decimal, string_bytes};
ghost use Rattle.logos_messages.specs.Imports.{Gains, PutsRest, InReport, left_out_tokens, rest_line};

use crate::head::{push_code, push_message};
use crate::notes::push_empty_list;
use logos_json::JsonLines;
use logos_page::Page;
use logos_report::push_rest;
use logos_token::error::FaultCode;
use std::alloc::{AllocError, Global};

/// Appends to `lines` the line that states that `count` faults with the code `code` are left out.
///
/// # Errors
///
/// Returns `AllocError` if memory runs out for the message or the report of the line. In this case,
/// nothing was appended.
pub(crate) fn push_rest_line(
    lines: &mut JsonLines,
    alloc: Global,
    code: FaultCode,
    count: usize,
) -> Result<(), AllocError>
    ensures { OnOk result (PutsRest code count lines.old lines.new) }
{
    let message = rest_message(alloc, count)?;
    let rendered = rest_report(alloc, code, count)?;
    push_object(lines, code, message.as_str(), rendered.as_str());
    lines.end_line();
    Ok(())
}

/// Returns the message that `count` faults are left out.
fn rest_message(alloc: Global, count: usize) -> Result<String, AllocError>
    ensures { IfOk result (λ text. string_bytes text ≡ decimal count ++ codes " more are not shown") }
{
    let mut text = String::new(alloc);
    match write!(text, "{count} more are not shown") {
        Ok(()) => Ok(text),
        Err(_) => Err(AllocError),
    }
}

/// Returns the report that `count` faults with the code `code` are left out.
fn rest_report(alloc: Global, code: FaultCode, count: usize) -> Result<String, AllocError>
    ensures { IfOk result (λ text.
        InReport false (rest_line false code count ∷ []) (string_bytes text)) }
{
    let mut page = Page::new(alloc, false);
    push_rest(&mut page, code, count);
    let text = page.finish()?;
    Ok(text)
}

/// Appends the object for the faults with the code `code` that are left out, with the message
/// `message` and the report `rendered`.
fn push_object(lines: &mut JsonLines, code: FaultCode, message: &str, rendered: &str)
    ensures { Gains (left_out_tokens message.now code rendered.now) lines.old lines.new }
{
    lines.begin_object();
    push_message(lines, message);
    push_code(lines, code);
    lines.push_text("level", "failure-note");
    push_empty_list(lines, "spans");
    push_empty_list(lines, "children");
    lines.push_text("rendered", rendered);
    lines.end_object();
}
