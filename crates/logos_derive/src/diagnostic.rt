//! Defines errors and warnings as the derive macro shows them. Used by `errors` and `warnings`.

use logos_token::error::{FaultCode, Memory};
use logos_token::token::Span;
use std::alloc::Global;

/// The level of a diagnostic: an error, for which the enum is refused, or a warning.
#[derive(Clone, Copy, Debug, PartialEq, Eq)]
pub enum Level {
    Error,
    Warning,
}

/// An error or a warning about an enum. Its spans are in bytes of the source.
#[derive(Debug, Drop)]
pub struct Diagnostic {
    pub level: Level,
    /// The code of the fault, or `None` for a warning.
    pub code: Option<FaultCode>,
    /// The first line of the message.
    pub message: String,
    /// The primary span.
    pub span: Span,
    /// The span of the character at which a pattern is faulty, or `None` if this span equals
    /// `span`.
    pub carets: Option<Span>,
    /// Further spans, each with a label.
    pub labels: Vec<Label>,
    /// The lines under the message: its other lines, the clues and the help.
    pub notes: Vec<Note>,
}

/// A further span of a diagnostic.
#[derive(Debug, Drop)]
pub struct Label {
    /// The span, in bytes of the source.
    pub span: Span,
    /// The label of the span, on one line.
    pub text: String,
}

/// A line under the message of a diagnostic.
#[derive(Debug, Drop)]
pub struct Note {
    /// Whether the line is a help: a way to fix the fault or the mistake.
    pub is_help: bool,
    pub text: String,
}

/// Appends the further span `span` with the label `text` to `labels`.
pub(crate) fn add_label(span: Span, text: &str, labels: &mut Vec<Label>) -> Result<(), Memory> {
    let text = String::from_str(*labels.allocator(), text)?;
    labels.push(Label { span, text })?;
    Ok(())
}

/// Appends the second span `also` of a fault or a warning to `labels`, unless `also` is `None`.
pub(crate) fn add_other(also: Option<Span>, labels: &mut Vec<Label>) -> Result<(), Memory> {
    match also {
        Some(span) => add_label(span, "see also", labels),
        None => Ok(()),
    }
}

/// Appends the line `text` to `notes`, not marked as a help.
pub(crate) fn add_note(text: &str, notes: &mut Vec<Note>) -> Result<(), Memory> {
    add_line(false, text, notes)
}

/// Appends the help `text` to `notes`.
pub(crate) fn add_help(text: &str, notes: &mut Vec<Note>) -> Result<(), Memory> {
    add_line(true, text, notes)
}

/// Appends the line `text` to `notes`, marked as a help if `is_help` is `true`.
fn add_line(is_help: bool, text: &str, notes: &mut Vec<Note>) -> Result<(), Memory> {
    let text = String::from_str(*notes.allocator(), text)?;
    notes.push(Note { is_help, text })?;
    Ok(())
}
