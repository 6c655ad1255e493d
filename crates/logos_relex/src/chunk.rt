//! Defines chunks, and functions that find the next chunk of an input. A chunk contains the items
//! of a few thousand bytes. The bytes of a window determine these items. Used by `anew`, `borders`
//! and `lexed`.

ghost use Rattle.std.specs.Prelude.{◌≡◌, ◌<◌, ◌≤◌, length, map, take, IfOk, IfErr, IfSome};
ghost use Rattle.logos_relex.specs.Views.{Runs, answers_of, offset_of, item_at, IsChunk, IsInput, IsRefused, SettlesUpTo, TakesMatches};

use crate::lexed::RelexError;
use logos_code::code::Code;
use logos_hir::leaf::LeafId;
use logos_machine::machine::{Action, Item, Lexer, Within};
use logos_token::token::Span;
use std::alloc::{AllocError, Global};

/// An item without its bytes: its kind, its leaf and its span.
#[derive(Clone, Copy, Debug, PartialEq, Eq)]
pub enum ItemAt {
    /// A match of `leaf`.
    Token { leaf: LeafId, span: Span },
    /// An error: bytes that no leaf matches if `leaf` is `None`, and otherwise a match of `leaf`
    /// for which the callback returned `Error`.
    Error { leaf: Option<LeafId>, span: Span },
}

/// The items of consecutive bytes of an input, with the number of these bytes, and the number of
/// bytes that determine the items.
///
/// Spans count from the chunk's first byte, so an edit before a chunk does not change the chunk.
#[derive(Debug, Drop)]
pub struct Chunk {
    items: Vec<ItemAt>,
    length: usize,
    window: usize,
}

impl Chunk {
    /// Returns the items. Their spans count from the chunk's first byte.
    pub fn items(&self) -> &[ItemAt]
        ensures { result.now ≡ self.now.items.items }
    {
        self.items.as_slice()
    }

    /// Returns the length of the chunk in bytes.
    pub fn length(&self) -> usize
        ensures { result ≡ self.now.length }
    {
        self.length
    }

    /// Returns the number of bytes, counted from the chunk's first byte, that were examined to find
    /// the chunk's items.
    pub fn window(&self) -> usize
        ensures { result ≡ self.now.window }
    {
        self.window
    }
}

/// Returns an item without its bytes.
fn offset_of(item: Item<'_>) -> ItemAt
    ensures { result ≡ offset_of item.entry }
{
    match item {
        Item::Token { leaf, span, .. } => ItemAt::Token { leaf, span },
        Item::Error { leaf, span, .. } => ItemAt::Error { leaf, span },
    }
}

/// Returns the leading items of a lexer's input that do not depend on the bytes after the input,
/// and the offset at which the next match attempt begins. The lexer must be at the start of the
/// input.
///
/// # Errors
///
/// Returns `AllocError` if memory runs out.
fn settled<C: Fn(LeafId, &[u8]) -> Action + Drop>(
    alloc: Global,
    lexer: Lexer<'_, '_, '_, C>,
) -> Result<(Vec<ItemAt>, usize), AllocError>
    requires callable { TakesMatches C.Fn lexer.code lexer.callback }
    requires start { lexer.to ≡ 0 }
    ensures { IfOk result (λ found. SettlesUpTo lexer.entry.code
        (answers_of C.Fn lexer.entry.callback) lexer.entry.input found.0.items found.1) }
{
    let mut lexer = lexer;
    let mut items = Vec::new(alloc);
    while let Within::Item(item) = lexer.next_within(false) {
        items.push(offset_of(item))?;
    }
    Ok((items, lexer.span().to))
}

/// Returns the longest prefix of `part` that a lexer of the code accepts: the longest UTF-8 prefix
/// in UTF-8 mode, and otherwise all of `part`.
fn characters<'p>(code: &Code, part: &'p [u8]) -> &'p [u8]
    ensures front { result.now ≡ take (length result.now) part.now }
    ensures within { length result.now ≤ length part.now }
{
    if !code.is_utf8() {
        return part;
    }
    match str::from_utf8(part) {
        Ok(_) => part,
        Err(error) => &part[..error.valid_up_to()],
    }
}

/// Returns the first chunk of an input, or `None` if the prefix `part` of the input determines no
/// chunk.
///
/// # Errors
///
/// Returns `AllocError` if memory runs out.
fn chunk_of<C: Fn(LeafId, &[u8]) -> Action + Drop>(
    alloc: Global,
    code: &Code,
    part: &[u8],
    callback: C,
) -> Result<Option<Chunk>, AllocError>
    requires { TakesMatches C.Fn code.now callback }
    ensures { IfOk result (λ found.
        IfSome found (IsChunk code.now (answers_of C.Fn callback) part.now)) }
{
    let part = characters(code, part);
    let Ok(lexer) = Lexer::new_bytes(code, part, callback) else {
        return Ok(None);
    };
    let (items, length) = settled(alloc, lexer)?;
    if length == 0 {
        return Ok(None);
    }
    Ok(Some(Chunk {
        items,
        length,
        window: part.len(),
    }))
}

/// Returns the first chunk of `bytes`. The window has `size` bytes at first, and is doubled until
/// it determines a chunk. Returns `None` if no window shorter than `bytes` determines a chunk.
///
/// # Errors
///
/// Returns `AllocError` if memory runs out.
pub(crate) fn next_chunk<C: Fn(LeafId, &[u8]) -> Action>(
    alloc: Global,
    code: &Code,
    bytes: &[u8],
    callback: &C,
    size: usize,
) -> Result<Option<Chunk>, AllocError>
    requires callable { TakesMatches C.Fn code.now callback.now }
    requires size { 0 < size }
    ensures { IfOk result (λ found.
        IfSome found (IsChunk code.now (answers_of C.Fn callback.now) bytes.now)) }
{
    let mut size = size;
    while size < bytes.len() {
        if let Some(chunk) = chunk_of(alloc, code, &bytes[..size], callback)? {
            return Ok(Some(chunk));
        }
        let Some(twice) = size.checked_mul(2) else {
            break;
        };
        size = twice;
    }
    Ok(None)
}

/// Returns all items of `bytes`, which must be the last bytes of an input.
///
/// # Errors
///
/// Returns `NotUtf8` if the code is in UTF-8 mode and the bytes are not UTF-8, and `Memory` if
/// memory runs out.
pub(crate) fn last_items<C: Fn(LeafId, &[u8]) -> Action>(
    alloc: Global,
    code: &Code,
    bytes: &[u8],
    callback: &C,
) -> Result<Vec<ItemAt>, RelexError>
    requires { TakesMatches C.Fn code.now callback.now }
    ensures items { IfOk result (λ items. Runs code.now (answers_of C.Fn callback.now) bytes.now 0
        (map (item_at bytes.now) items.items)) }
    ensures accepted { IfOk result (λ _. IsInput code.now bytes.now) }
    ensures refused { IfErr result (IsRefused code.now bytes.now) }
{
    let lexer = Lexer::new_bytes(code, bytes, callback)?;
    let found = lexer.items(alloc)?;
    Ok(offsets(alloc, &found)?)
}

/// Returns the items `found` without their bytes.
///
/// # Errors
///
/// Returns `AllocError` if memory runs out.
fn offsets(alloc: Global, found: &[Item<'_>]) -> Result<Vec<ItemAt>, AllocError>
    ensures { IfOk result (λ items. items.items ≡ map offset_of found.now) }
{
    let mut items = Vec::with_capacity(alloc, found.len())?;
    for item in found {
        items.push(offset_of(*item))?;
    }
    Ok(items)
}
