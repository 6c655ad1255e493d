//! Adds help texts to the faults of a source. Called by the programs and the derive macro.

ghost use Rattle.std.specs.Prelude.{◌≡◌, OnOk, OnErr};
ghost use Rattle.logos_report.specs.Views.{sizes_of};

use crate::codes::help_for;
use crate::sight::Sight;
use logos_report::{Clues, Helps, Part};
use logos_token::error::{Errors, Memory, SpannedError};
use logos_token::token::Span;

/// The type that adds the help texts of this crate, for callers that accept any type that
/// implements `Helps`.
#[derive(Clone, Copy)]
pub struct FaultHelps;

impl Helps for FaultHelps {
    fn add(&self, part: Part<'_, '_>, errors: &Errors, clues: &mut Clues) -> Result<(), Memory> {
        add_helps(part, errors, clues)
    }
}

/// Appends the help text for each fault in `errors` to `clues.helps`, in the order of the faults.
/// Appends `None` for a fault without a help text. `part` is the part of a file that has the
/// faults. A report shows each help text under the fault.
///
/// # Errors
///
/// Returns `Memory` if memory runs out. The help texts for only some of the faults may then have
/// been appended.
pub fn add_helps(part: Part<'_, '_>, errors: &Errors, clues: &mut Clues) -> Result<(), Memory>
    ensures { sizes_of clues.new ≡ sizes_of clues.old }
{
    add_all(part, errors.list(), &mut clues.helps)
}

/// Appends the help text for each fault in `faults` to `helps`, in the order of the faults. Appends
/// `None` for a fault without a help text. `part` is the part of a file that has the faults.
fn add_all(
    part: Part<'_, '_>,
    faults: &[SpannedError],
    helps: &mut Vec<Option<&'static str>>,
) -> Result<(), Memory> {
    for fault in faults {
        helps.push(help_for(fault, sight_at(part, fault.span)))?;
    }
    Ok(())
}

/// Returns the text of a file at `span`, and the text after the span. `span` is in bytes of `part`.
/// If the offsets of one of the two texts are not in the file, this text is empty.
fn sight_at<'t>(part: Part<'_, 't>, span: Span) -> Sight<'t> {
    Sight {
        text: part.text_at(span),
        after: part.text_from(span.to),
    }
}
