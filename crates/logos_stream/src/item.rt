//! Represents the events and the items that `Stream::next` returns. Used by `stream` and
//! `logos_items`.

ghost use Rattle.std.specs.Prelude.{◌≡◌, ◌+◌, ◌<◌, ◌^◌, List, ℕ};
ghost use Rattle.logos_stream.specs.Views.{item_later, end_of, item_with, start_of};

use logos_hir::leaf::LeafId;
use logos_token::token::Span;

/// An item of a stream, with its span in the stream, in bytes. `Stream::slice` returns the bytes at
/// the span.
#[derive(Clone, Copy, Debug, PartialEq, Eq)]
pub enum StreamItem {
    /// A match of `leaf`.
    Token { leaf: LeafId, span: Span },
    /// An error. If `leaf` is `None`, no leaf matches the bytes at the span. Otherwise, the bytes
    /// are a match of `leaf` for which the callback returned `Error`.
    Error { leaf: Option<LeafId>, span: Span },
}

/// The next event of a stream.
#[derive(Clone, Copy, Debug, PartialEq, Eq)]
pub enum Streamed {
    /// The next item, regardless of the bytes that follow.
    Item(StreamItem),
    /// A request to call `Stream::read`, because the next event depends on more bytes.
    More,
    /// The stream is stopped: the next event depends on more bytes than may be in memory at a time.
    TooLong,
    /// Bytes at `Stream::offset` that are not UTF-8, for a code in UTF-8 mode. All items of the
    /// text before these bytes have been returned.
    NotUtf8,
    /// The end of the stream.
    End,
}

impl StreamItem {
    /// Returns the span of the item in the stream, in bytes.
    pub fn span(self) -> Span
        ensures from { result.from ≡ start_of self }
        ensures to { result.to ≡ end_of self }
    {
        match self {
            StreamItem::Token { span, .. } => span,
            StreamItem::Error { span, .. } => span,
        }
    }
}

/// Returns the item with its span moved by `by` bytes, saturating at `usize::MAX`.
pub(crate) fn later(item: StreamItem, by: usize) -> StreamItem
    ensures { by + start_of item < 2 ^ 64 → by + end_of item < 2 ^ 64 → (slice : List ℕ) →
        item_with result slice ≡ item_later by (item_with item slice) }
{
    match item {
        StreamItem::Token { leaf, span } => StreamItem::Token {
            leaf,
            span: span_later(span, by),
        },
        StreamItem::Error { leaf, span } => StreamItem::Error {
            leaf,
            span: span_later(span, by),
        },
    }
}

/// Returns the span moved by `by` bytes, saturating at `usize::MAX`.
fn span_later(span: Span, by: usize) -> Span
    ensures from { by + span.from < 2 ^ 64 → result.from ≡ by + span.from }
    ensures to { by + span.to < 2 ^ 64 → result.to ≡ by + span.to }
{
    Span {
        from: by.saturating_add(span.from),
        to: by.saturating_add(span.to),
    }
}
