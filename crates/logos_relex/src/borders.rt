//! Functions that find borders between chunks. Called by `anew` and `lexed`.

ghost use Rattle.std.specs.Prelude.{◌<◌, ◌≤◌, ◌^◌, take};
ghost use Rattle.logos_relex.specs.Views.{bytes_of, IsBorder, LookBelow};

use crate::chunk::Chunk;

/// A border between chunks: the number of chunks before the border, and the number of bytes in
/// these chunks.
#[derive(Clone, Copy)]
pub(crate) struct Border {
    pub index: usize,
    pub at: usize,
}

/// Returns the border after the leading chunks that examined only bytes before `limit`.
pub(crate) fn untouched(chunks: &[Chunk], limit: usize) -> Border
    ensures border { IsBorder chunks.now result }
    ensures below { LookBelow limit (take result.index chunks.now) }
{
    let mut border = Border { index: 0, at: 0 };
    while border.index < chunks.len() {
        let chunk = &chunks[border.index];
        if chunk.length().max(chunk.window()) > limit - border.at {
            break;
        }
        border.index += 1;
        border.at += chunk.length();
    }
    border
}

/// Returns the first border from `from` on that is not before the byte offset `offset`, or the last
/// border if there is no such border.
pub(crate) fn border_from(chunks: &[Chunk], from: Border, offset: usize) -> Border
    requires border { IsBorder chunks.now from }
    requires bytes { bytes_of chunks.now < 2 ^ 64 }
    ensures border { IsBorder chunks.now result }
    ensures later { from.index ≤ result.index }
{
    let mut border = from;
    while border.at < offset && border.index < chunks.len() {
        border.at += chunks[border.index].length();
        border.index += 1;
    }
    border
}
