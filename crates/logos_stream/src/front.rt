//! Finds the first event in consecutive bytes of an input. Called by `Stream::next`.

ghost use Rattle.std.specs.Prelude.{◌≡◌, IsTrue, IsUtf8};
ghost use Rattle.logos_stream.specs.Views.{answers_of, item_of, IsFront, IsWithout, TakesMatches};

use crate::item::StreamItem;
use logos_code::action::Action;
use logos_code::code::Code;
use logos_hir::leaf::LeafId;
use logos_machine::machine::{Item, Lexer, Within};

/// The first event in consecutive bytes of an input.
#[derive(Clone, Copy)]
pub(crate) enum Front {
    /// An item, possibly after matches without items. The span of the item is relative to the start
    /// of the bytes.
    Item(StreamItem),
    /// No item before this offset. The next item depends on the bytes that follow.
    Waits(usize),
    /// No item before the end of the bytes, which is the end of the input.
    Ends,
}

/// Returns the first event in `bytes`. If `is_last` is `true`, `bytes` are the last bytes of the
/// input. Otherwise, more bytes may follow.
pub(crate) fn front_of<C: Fn(LeafId, &[u8]) -> Action + Copy>(
    code: &Code<'_>,
    bytes: &[u8],
    callback: C,
    is_last: bool,
) -> Front
    requires callable { TakesMatches C.Fn code.now callback }
    requires text { IsTrue code.now.utf8 → IsUtf8 bytes.now }
    ensures { IsFront code.now (answers_of C.Fn callback) bytes.now is_last result }
{
    let mut lexer = Lexer::new_checked(code, bytes, callback);
    match lexer.next_within(is_last) {
        Within::Item(item) => Front::Item(without_slice(item)),
        Within::More => Front::Waits(lexer.span().to),
        Within::End => Front::Ends,
    }
}

/// Returns an item without its slice.
fn without_slice(item: Item<'_>) -> StreamItem
    ensures { IsWithout (item_of item.entry) result }
{
    match item {
        Item::Token { leaf, span, .. } => StreamItem::Token { leaf, span },
        Item::Error { leaf, span, .. } => StreamItem::Error { leaf, span },
    }
}
