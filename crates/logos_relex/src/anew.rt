//! Functions that lex an input from a border until a former border is met, or the input ends.
//! Called by `Lexed`.

ghost use Rattle.std.specs.Prelude.{◌≤◌, ◌<◌, ◌^◌, IfOk, drop, length};
ghost use Rattle.logos_relex.specs.Views.{answers_of, bytes_of, IsAnew, IsBorder, IsMade, TakesMatches};

use crate::borders::{Border, border_from};
use crate::chunk::{Chunk, ItemAt, last_items, next_chunk};
use crate::lexed::{Edit, Lexed, RelexError};
use logos_code::code::Code;
use logos_hir::leaf::LeafId;
use logos_machine::machine::Action;
use std::alloc::Global;

/// The length in bytes of the window of a chunk, unless a former chunk determines the length.
const WINDOW: usize = 4096;

/// The former chunks or the last items that follow the new chunks.
#[derive(Drop)]
pub(crate) enum After {
    /// The former chunks from this index on, and the items after these chunks.
    Former(usize),
    /// The last items of the input.
    Last(Vec<ItemAt>),
}

/// New chunks, and the former chunks or the last items that follow them.
#[derive(Drop)]
pub(crate) struct Anew {
    pub chunks: Vec<Chunk>,
    pub after: After,
}

/// Returns the chunks of an input, and the items after the last chunk.
///
/// # Errors
///
/// Returns `NotUtf8` if the code is in UTF-8 mode and the input is not UTF-8, and `Memory` if
/// memory runs out.
pub(crate) fn make<C: Fn(LeafId, &[u8]) -> Action>(
    alloc: Global,
    code: &Code,
    input: &[u8],
    callback: &C,
) -> Result<(Vec<Chunk>, Vec<ItemAt>), RelexError>
    requires { TakesMatches C.Fn code.now callback.now }
    ensures { IfOk result (λ made. IsMade code.now (answers_of C.Fn callback.now) input.now
        made.0.items made.1.items) }
{
    let mut chunks = Vec::new(alloc);
    let mut rest = input;
    while let Some(chunk) = next_chunk(alloc, code, rest, callback, WINDOW)? {
        rest = &rest[chunk.length()..];
        chunks.push(chunk)?;
    }
    let last = last_items(alloc, code, rest, callback)?;
    Ok((chunks, last))
}

/// Returns the number of bytes to examine if `left` bytes remain. The bytes reach as far as the
/// bytes that the former chunk before `border` examined, so that the border is met again if the
/// items are unchanged. If the number would be 0 or more than twice `WINDOW`, returns `WINDOW`.
fn window(former: &Lexed, border: Border, left: usize) -> usize
    ensures { 0 < result }
{
    let beyond = match former.chunks().get(border.index.saturating_sub(1)) {
        Some(chunk) => chunk.window().saturating_sub(chunk.length()),
        None => former.length(),
    };
    let end = border.at.saturating_add(beyond);
    let size = left.saturating_sub(former.length().saturating_sub(end));
    if (size == 0) | (size > 2 * WINDOW) {
        WINDOW
    } else {
        size
    }
}

/// Lexes an edited input from the border `start` until a former border after the edit is met, or
/// the input ends. Returns the new chunks, and the former chunks or the last items that follow
/// them.
///
/// # Errors
///
/// Returns `NotUtf8` if the code is in UTF-8 mode and the remaining input is not UTF-8, and
/// `Memory` if memory runs out.
pub(crate) fn make_anew<C: Fn(LeafId, &[u8]) -> Action>(
    former: &Lexed,
    code: &Code,
    callback: &C,
    edit: Edit<'_>,
    start: Border,
) -> Result<Anew, RelexError>
    requires callable { TakesMatches C.Fn code.now callback.now }
    requires border { IsBorder former.now.chunks.items start }
    requires within { start.at ≤ length edit.input.now }
    requires edit { edit.replaced.to ≤ former.now.length }
    requires bytes { bytes_of former.now.chunks.items ≤ former.now.length }
    ensures { IfOk result (λ made. IsAnew code.now (answers_of C.Fn callback.now)
        former.now edit.entry.replaced.to edit.entry.input.now start made) }
{
    let alloc = former.alloc();
    let mut chunks = Vec::new(alloc);
    let mut rest = &edit.input[start.at..];
    let mut border = start;
    loop {
        // The point of the former input that has as many bytes after it as `rest`, or the end of
        // the replaced span if that is later.
        let left = rest.len();
        let target = former.length().saturating_sub(left).max(edit.replaced.to);
        border = border_from(former.chunks(), border, target);
        if (border.at == target) & (left <= former.length() - edit.replaced.to) {
            return Ok(Anew {
                chunks,
                after: After::Former(border.index),
            });
        }
        let size = window(former, border, left);
        let Some(chunk) = next_chunk(alloc, code, rest, callback, size)? else {
            let last = last_items(alloc, code, rest, callback)?;
            return Ok(Anew {
                chunks,
                after: After::Last(last),
            });
        };
        rest = &rest[chunk.length()..];
        chunks.push(chunk)?;
    }
}
