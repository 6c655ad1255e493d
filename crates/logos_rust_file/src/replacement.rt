//! Replaces parts of a text. `logos_expand` calls `replace` to insert the expansions into a file.

ghost use Rattle.std.specs.Prelude.{◌≡◌, ◌≤◌, IfOk, length, map, slice_range};
ghost use Rattle.logos_rust_file.specs.Views.{AreInOrder, part_span, replaced};

use logos_token::token::Span;
use std::alloc::{AllocError, Global};

/// A part of a text and the text that replaces it.
#[derive(Drop)]
pub struct Replacement {
    /// The span of the part in the text, in bytes.
    pub span: Span,
    /// The text that replaces the part.
    pub text: String,
}

/// Returns the bytes of `text` with `parts` replaced. The parts must be sorted by their spans and
/// must not overlap. All bytes between the parts stay unchanged.
///
/// # Errors
///
/// Returns `AllocError` if memory runs out.
pub fn replace(alloc: Global, text: &str, parts: &[Replacement]) -> Result<Vec<u8>, AllocError>
    requires { AreInOrder 0 (map part_span parts.now) (length text.now) }
    ensures { IfOk result (λ bytes. bytes.items ≡ replaced text.now 0 parts.now) }
{
    let bytes = text.as_bytes();
    let mut made = Vec::new(alloc);
    let mut from = 0;
    for part in parts {
        let Span { from: start, to } = part.span;
        made.extend_from_slice(between(bytes, from, start))?;
        made.extend_from_slice(part.text.as_bytes())?;
        from = to;
    }
    made.extend_from_slice(between(bytes, from, bytes.len()))?;
    Ok(made)
}

/// Returns the bytes in the range `from..to`.
fn between(bytes: &[u8], from: usize, to: usize) -> &[u8]
    requires order { from ≤ to }
    requires inside { to ≤ length bytes.now }
    ensures { result.now ≡ slice_range bytes.now from to }
{
    &bytes[from..to]
}
