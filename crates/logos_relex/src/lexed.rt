//! The type `Lexed`, which contains the items of an input that changes. Part of the public
//! interface.

ghost use Rattle.std.specs.Prelude.{◌≡◌, ◌≤◌, IfOk, IfErr, OnErr, OnOk, length};
ghost use Rattle.logos_relex.specs.Views.{answers_of, ComesAfter, IsInput, IsLexed, IsRefused, PutsAnew, Stays, TakesMatches, WasLexed, Memory as OutOfMemory, NotUtf8 as NoUtf8};

use crate::anew::{After, Anew, make, make_anew};
use crate::borders::{Border, untouched};
use crate::chunk::{Chunk, ItemAt, last_items};
use logos_code::code::Code;
use logos_hir::leaf::LeafId;
use logos_machine::machine::{Action, NotUtf8};
use logos_token::token::Span;
use std::alloc::{AllocError, AllocFailed, Global};

/// The reason why an input cannot be lexed.
#[derive(Clone, Copy, Debug, PartialEq, Eq)]
pub enum RelexError {
    /// An input that is not UTF-8, for a code in UTF-8 mode. `valid_up_to` is the length in bytes
    /// of the longest prefix of the input that is UTF-8.
    NotUtf8 { valid_up_to: usize },
    /// Memory ran out.
    Memory,
}

impl From<AllocError> for RelexError {
    ghost from_gives = { λ _ e. e ≡ OutOfMemory };

    fn from(_error: AllocError) -> RelexError {
        RelexError::Memory
    }
}

impl<T: Drop> From<AllocFailed<T>> for RelexError {
    ghost from_gives = { λ _ e. e ≡ OutOfMemory };

    fn from(_error: AllocFailed<T>) -> RelexError {
        RelexError::Memory
    }
}

impl From<NotUtf8> for RelexError {
    ghost from_gives = { λ error e. e ≡ NoUtf8 error.valid_up_to };

    fn from(error: NotUtf8) -> RelexError {
        RelexError::NotUtf8 {
            valid_up_to: error.valid_up_to,
        }
    }
}

/// An edit of an input: other bytes, possibly none, replace a span.
#[derive(Clone, Copy, Debug)]
pub struct Edit<'i> {
    /// The bytes that were replaced, as a span of the former input.
    pub replaced: Span,
    /// The whole input after the edit.
    pub input: &'i [u8],
}

/// The items of an input, in chunks. After an edit, the input is lexed again from the first chunk
/// that examined edited bytes until a former border is met again.
#[derive(Debug, Drop)]
pub struct Lexed {
    alloc: Global,
    chunks: Vec<Chunk>,
    last: Vec<ItemAt>,
    length: usize,
}

impl Lexed {
    /// Returns the items that `code` finds in `input`. For each match of a leaf that has a
    /// callback, `callback` receives the leaf and the bytes of the match, and returns the action.
    ///
    /// # Errors
    ///
    /// Returns `NotUtf8` if the code is in UTF-8 mode and the input is not UTF-8, and `Memory` if
    /// memory runs out.
    pub fn new<C: Fn(LeafId, &[u8]) -> Action>(
        alloc: Global,
        code: &Code,
        callback: &C,
        input: &[u8],
    ) -> Result<Lexed, RelexError>
        requires { TakesMatches C.Fn code.now callback.now }
        ensures lexed { IfOk result (λ lexed.
            IsLexed code.now (answers_of C.Fn callback.now) input.now lexed) }
        ensures accepted { IfOk result (λ _. IsInput code.now input.now) }
        ensures refused { IfErr result (IsRefused code.now input.now) }
    {
        match make(alloc, code, input, callback) {
            Ok((chunks, last)) => Ok(Lexed {
                alloc,
                chunks,
                last,
                length: input.len(),
            }),
            Err(RelexError::Memory) => Err(RelexError::Memory),
            Err(_) => Lexed::whole(alloc, code, callback, input),
        }
    }

    /// Returns the items of an input that is lexed as a whole, without chunks.
    ///
    /// # Errors
    ///
    /// Returns `NotUtf8` if the code is in UTF-8 mode and the input is not UTF-8, and `Memory` if
    /// memory runs out.
    fn whole<C: Fn(LeafId, &[u8]) -> Action>(
        alloc: Global,
        code: &Code,
        callback: &C,
        input: &[u8],
    ) -> Result<Lexed, RelexError>
        requires { TakesMatches C.Fn code.now callback.now }
        ensures lexed { IfOk result (λ lexed.
            IsLexed code.now (answers_of C.Fn callback.now) input.now lexed) }
        ensures accepted { IfOk result (λ _. IsInput code.now input.now) }
        ensures refused { IfErr result (IsRefused code.now input.now) }
    {
        let last = last_items(alloc, code, input, callback)?;
        let chunks = Vec::new(alloc);
        Ok(Lexed {
            alloc,
            chunks,
            last,
            length: input.len(),
        })
    }

    /// Replaces the items with the items of the edited input. `code` and `callback` must be the
    /// code and the callback of the former items, and the input must be unchanged outside of the
    /// replaced span. Items that do not depend on the edit remain: the items before the edit, and
    /// the items from the first border after the edit that the new items also reach. `callback` is
    /// called only for bytes that are lexed again, so the action that `callback` returns must
    /// depend on the leaf and the bytes of the match alone.
    ///
    /// # Errors
    ///
    /// Returns `NotUtf8` if the code is in UTF-8 mode and the input is not UTF-8, and `Memory` if
    /// memory runs out. The former items then remain unchanged.
    pub fn relex<C: Fn(LeafId, &[u8]) -> Action>(
        &mut self,
        code: &Code,
        callback: &C,
        edit: Edit<'_>,
    ) -> Result<(), RelexError>
        requires callable { TakesMatches C.Fn code.now callback.now }
        requires former { WasLexed code.now (answers_of C.Fn callback.now) edit.replaced
            edit.input.now self.old }
        ensures lexed { IfOk result (λ _.
            IsLexed code.now (answers_of C.Fn callback.now) edit.entry.input.now self.new) }
        ensures accepted { IfOk result (λ _. IsInput code.now edit.entry.input.now) }
        ensures refused { IfErr result (IsRefused code.now edit.entry.input.now) }
        ensures stays { OnErr result (Stays self.old self.new) }
    {
        let start = untouched(&self.chunks, edit.replaced.from);
        match make_anew(self, code, callback, edit, start) {
            Ok(made) => self.put(start.index, made, edit.input.len()),
            Err(RelexError::Memory) => Err(RelexError::Memory),
            Err(_) => self.relex_whole(code, callback, edit.input),
        }
    }

    /// Lexes `input` as a whole, without chunks, and replaces all items.
    ///
    /// # Errors
    ///
    /// Returns `NotUtf8` if the code is in UTF-8 mode and the input is not UTF-8, and `Memory` if
    /// memory runs out. The former items then remain unchanged.
    fn relex_whole<C: Fn(LeafId, &[u8]) -> Action>(
        &mut self,
        code: &Code,
        callback: &C,
        input: &[u8],
    ) -> Result<(), RelexError>
        requires { TakesMatches C.Fn code.now callback.now }
        ensures lexed { IfOk result (λ _.
            IsLexed code.now (answers_of C.Fn callback.now) input.now self.new) }
        ensures accepted { IfOk result (λ _. IsInput code.now input.now) }
        ensures refused { IfErr result (IsRefused code.now input.now) }
        ensures stays { OnErr result (Stays self.old self.new) }
    {
        let last = last_items(self.alloc, code, input, callback)?;
        self.chunks.clear();
        self.last = last;
        self.length = input.len();
        Ok(())
    }

    /// Replaces former chunks with the chunks in `made`. The replaced chunks begin at the index
    /// `from`, and end before the former chunk that follows the new chunks. If no former chunk
    /// follows the new chunks, also replaces the last items. The edited input has `length` bytes.
    ///
    /// # Errors
    ///
    /// Returns `Memory` if memory runs out. The former items then remain unchanged.
    fn put(&mut self, from: usize, made: Anew, length: usize) -> Result<(), RelexError>
        requires { ComesAfter self.old from made.after }
        ensures puts { OnOk result (PutsAnew from made length self.old self.new) }
        ensures refused { IfErr result (λ error. error ≡ OutOfMemory) }
        ensures stays { OnErr result (Stays self.old self.new) }
    {
        let Anew { chunks, after } = made;
        match after {
            After::Former(to) => {
                self.chunks.splice(from..to, chunks)?;
            }
            After::Last(last) => {
                self.chunks.splice(from.., chunks)?;
                self.last = last;
            }
        }
        self.length = length;
        Ok(())
    }

    /// Returns the allocator of the chunks and items.
    pub(crate) fn alloc(&self) -> Global
        ensures { result ≡ self.now.alloc }
    {
        self.alloc
    }

    /// Returns the length of the input in bytes.
    pub fn length(&self) -> usize
        ensures { result ≡ self.now.length }
    {
        self.length
    }

    /// Returns the chunks in the order of the input. The first chunk begins at the input's first
    /// byte, and every other chunk begins where its predecessor ends.
    pub fn chunks(&self) -> &[Chunk]
        ensures { result.now ≡ self.now.chunks.items }
    {
        self.chunks.as_slice()
    }

    /// Returns the items after the last chunk. Their spans count from the end of this chunk, or
    /// from the input's first byte if there are no chunks.
    pub fn last(&self) -> &[ItemAt]
        ensures { result.now ≡ self.now.last.items }
    {
        self.last.as_slice()
    }
}
