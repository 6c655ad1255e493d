//! Turns warnings into diagnostics. Called by `derivation`.

ghost use Rattle.std.specs.Prelude.{IfOk};
ghost use Rattle.logos_derive.specs.Views.{All, IsWarning};

use crate::diagnostic::{Diagnostic, Label, Level, Note, add_help, add_note, add_other};
use logos_report::{Warning, first_of};
use logos_token::error::Memory;
use std::alloc::Global;

/// Returns the first 50 warnings in `warned` as diagnostics, in the order of `warned`.
pub(crate) fn warnings_of(alloc: Global, warned: &[Warning]) -> Result<Vec<Diagnostic>, Memory>
    ensures { IfOk result (λ diagnostics. All IsWarning diagnostics.items) }
{
    let mut diagnostics = Vec::new(alloc);
    for warning in first_of(warned) {
        diagnostics.push(diagnostic_of(alloc, warning)?)?;
    }
    Ok(diagnostics)
}

/// Returns a warning as a diagnostic.
fn diagnostic_of(alloc: Global, warning: &Warning) -> Result<Diagnostic, Memory>
    ensures { IfOk result IsWarning }
{
    let message = String::from_str(alloc, warning.message.as_str())?;
    let labels = labels_of(alloc, warning)?;
    let notes = notes_of(alloc, warning)?;
    Ok(Diagnostic {
        level: Level::Warning,
        code: None,
        message,
        span: warning.span,
        carets: None,
        labels,
        notes,
    })
}

/// Returns the second span of a warning with its label, or no span if the warning has no second
/// span.
fn labels_of(alloc: Global, warning: &Warning) -> Result<Vec<Label>, Memory> {
    let mut labels = Vec::new(alloc);
    add_other(warning.also, &mut labels)?;
    Ok(labels)
}

/// Returns the note of a warning, followed by its help. Either can be missing.
fn notes_of(alloc: Global, warning: &Warning) -> Result<Vec<Note>, Memory> {
    let mut notes = Vec::new(alloc);
    if let Some(note) = &warning.note {
        add_note(note.as_str(), &mut notes)?;
    }
    if let Some(help) = warning.help {
        add_help(help, &mut notes)?;
    }
    Ok(notes)
}
