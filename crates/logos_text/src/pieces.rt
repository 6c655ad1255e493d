//! Functions that append texts to generated code. All printers call them.

ghost use Rattle.std.specs.Prelude.{◌≡◌, ◌==◌, ◌++◌, OnOk, codes, if◌then◌else◌, string_bytes};
ghost use Rattle.logos_text.specs.Imports.{Grows};

use logos_token::error::Memory;

/// Appends `part` to `text`.
pub(crate) fn push_str(text: &mut String, part: &str) -> Result<(), Memory>
    ensures { OnOk result (string_bytes text.new ≡ string_bytes text.old ++ part.now) }
{
    text.push_str(part)?;
    Ok(())
}

/// Appends `part` to `text`. Called for texts that are neither conditions nor tables.
pub(crate) fn push(text: &mut String, part: &str) -> Result<(), Memory>
    ensures { OnOk result (Grows (string_bytes text.old) (string_bytes text.new)) }
{
    text.push_str(part)?;
    Ok(())
}

/// Returns the text before the element at the index `n` of a list: a comma and a space, or nothing
/// before the first element.
pub(crate) fn comma_before(n: usize) -> &'static str
    ensures { result.now ≡ (if n == 0 then codes "" else codes ", ") }
{
    if n == 0 { "" } else { ", " }
}
