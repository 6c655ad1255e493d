//! Functions that escape texts for string literals. `Errors::render` and `logos_attribute` call
//! them.

ghost use Rattle.std.specs.Prelude.{◌≡◌, ◌++◌, OnOk, string_bytes};
ghost use Rattle.logos_token.specs.Imports.{escaped_character, escaped};

use crate::error::Memory;

/// Appends a character to `text` in the form in which it is written between the quotes of a string
/// literal.
fn push_character(text: &mut String, character: char) -> Result<(), Memory>
    ensures { OnOk result
        (string_bytes text.new ≡ string_bytes text.old ++ escaped_character character) }
{
    match character {
        '"' => text.push_str("\\\"")?,
        '\\' => text.push_str("\\\\")?,
        '\n' => text.push_str("\\n")?,
        '\r' => text.push_str("\\r")?,
        '\t' => text.push_str("\\t")?,
        _ => text.push(character)?,
    }
    Ok(())
}

/// Appends `value` to `text` in the form in which it is written between the quotes of a string
/// literal. `"`, `\`, LF, CR and tab become escapes, and each other character represents itself.
///
/// # Errors
///
/// Returns `Memory` if memory runs out. A part of the value may then have been appended.
pub fn push_escaped(text: &mut String, value: &str) -> Result<(), Memory>
    ensures { OnOk result (string_bytes text.new ≡ string_bytes text.old ++ escaped value.now) }
{
    for character in value.chars() {
        push_character(text, character)?;
    }
    Ok(())
}
