//! Writes the remaining tokens of a source. Used by `logos_expand`.

ghost use Rattle.std.specs.Prelude.{IfOk, string_bytes};
ghost use Rattle.logos_layout.specs.Imports.{IsWrittenAs, tokens_of};

use crate::comparison::prints_as;
use crate::without_derive::text_without;
use logos_token::error::Memory;
use logos_token::token::{Tokens, print};
use std::alloc::Global;

/// Returns the text of the tokens `left`, with the comments and the layout of `source`. A line that
/// has lost all its tokens is removed unless it has a comment.
///
/// `left` consists of the remaining tokens of the source in source order, with their spans in the
/// source. A group may have lost tokens. For any other tokens, returns the text that `print`
/// returns.
///
/// # Errors
///
/// Returns `Memory` if memory runs out.
pub fn write_left(alloc: Global, source: &str, left: Tokens<'_, '_>) -> Result<String, Memory>
    ensures { IfOk result (λ text. IsWrittenAs (tokens_of left.entry) (string_bytes text)) }
{
    let text = text_without(alloc, source, left)?;
    let printed = print(alloc, left)?;
    if prints_as(alloc, text.as_str(), printed.as_str())? {
        return Ok(text);
    }
    Ok(printed)
}
