//! Lays out a text in lines. Used by `logos_expand`.

ghost use Rattle.std.specs.Prelude.{IfOk, string_bytes};
ghost use Rattle.logos_layout.specs.Imports.{IsLaidOut};

use crate::comparison::spell_same;
use crate::ends::is_closed;
use crate::line_breaks::lines_of;
use logos_token::error::Memory;
use std::alloc::Global;

/// A comment to insert into a text. The comment names a line of another text.
#[derive(Clone, Copy)]
pub struct Note {
    /// The byte offset in the text before which the comment is inserted.
    pub offset: usize,
    /// The number of the line in the other text, counted from 1.
    pub line: usize,
}

/// The settings of a layout.
#[derive(Clone, Copy)]
pub struct Setting<'n> {
    /// The spaces and tabs before each line.
    pub margin: &'n str,
    /// The comments that are inserted, in the order of their offsets.
    pub notes: &'n [Note],
}

/// Returns a Rust text laid out in lines. The tokens and the comments of the text do not change,
/// except that the comments of `setting` are inserted.
///
/// Each line begins with the margin of `setting`, with four blanks for each level of braces, and
/// with four more blanks if the line continues the preceding one. A line has at most 100 bytes if
/// it can be broken at a blank. Lines end after `;`, after the braces of blocks, after commas
/// between braces, after attributes and comments, and where the text has a line end. A lexeme such
/// as `else` or `.` stays on the line of the closing brace before it. Short braces stay on one
/// line.
///
/// The text must end with a group in braces. A text is returned unchanged, followed by LF, in each
/// of these cases:
///
/// - The text does not end with a group in braces.
/// - The text cannot be read into tokens.
/// - The text in lines has more than 16,777,216 bytes.
///
/// # Errors
///
/// Returns `Memory` if memory runs out.
pub fn lay_out(alloc: Global, text: &str, setting: Setting<'_>) -> Result<String, Memory>
    ensures { IfOk result (λ laid. IsLaidOut text.now (string_bytes laid)) }
{
    let laid = lines_of(alloc, text, setting)?;
    if !spell_same(alloc, text, laid.as_str())? {
        return unchanged(alloc, text);
    }
    if is_closed(alloc, laid.as_str())? {
        return Ok(laid);
    }
    unchanged(alloc, text)
}

/// Returns a text, unchanged, followed by LF.
fn unchanged(alloc: Global, text: &str) -> Result<String, Memory>
    ensures { IfOk result (λ laid. IsLaidOut text.now (string_bytes laid)) }
{
    let mut laid = String::from_str(alloc, text)?;
    laid.push_str("\n")?;
    Ok(laid)
}
