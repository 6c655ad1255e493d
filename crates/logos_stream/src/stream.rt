//! Defines `Stream`, a lexer of the bytes of a reader. Used by `items` and `logos_items`.

ghost use Rattle.std.specs.Prelude.{◌≡◌, ◌<◌, IfOk, OnErr};
ghost use Rattle.logos_stream.specs.Views.{answers_of, at_start, unread_length, DoesNext, KeepsCode, ReadsOn, StaysUnread, TakesMatches};

use crate::front::{Front, front_of};
use crate::item::Streamed;
use crate::window::Window;
use logos_code::action::Action;
use logos_code::code::Code;
use logos_hir::leaf::LeafId;
use std::alloc::{AllocError, Global};
use std::io;
use std::io::Read;
use std::marker::Model;

/// A lexer that reads bytes from a reader, and returns the items in these bytes before all bytes
/// have been read. Offsets and lengths count bytes.
///
/// The number of bytes in memory is at most the bound, regardless of the length of the stream. In
/// UTF-8 mode, the bytes are validated as they are read.
///
/// ```text
/// let mut stream = Stream::new(alloc, &code, reader, bound, callback)?;
/// loop {
///     match stream.next() {
///         Streamed::Item(item) => use(item, stream.slice()),
///         Streamed::More => stream.read()?,
///         Streamed::TooLong | Streamed::NotUtf8 | Streamed::End => break,
///     }
/// }
/// ```
#[derive(Drop)]
pub struct Stream<'c, 's, R, C> {
    code: &'c Code<'s>,
    callback: C,
    window: Window<R>,
}

impl<'c, 's, R, C> Model for Stream<'c, 's, R, C> {
    ghost use Rattle.std.specs.Prelude.{◌≡◌, []};
    ghost use Rattle.logos_stream.specs.Views.{codes, named, StreamValue};
    ghost use Rattle.logos_type.specs.contracts.type_expr.TypePart as p;

    ghost Value = { StreamValue R C };

    ghost coded = { Prim.hlevel (codes, (p.the_row (record { mir = named 1; lft = [] })).coded) };

    ghost view = { λ s. record { code = s.code.now; callback = s.callback; window = s.window } };

    ghost invariant = { λ s. s.window.utf8 ≡ s.code.now.utf8 };
}

impl<'c, 's, R: Read + Drop, C: Fn(LeafId, &[u8]) -> Action + Copy> Stream<'c, 's, R, C> {
    /// Returns the stream of a reader, before anything is read. At most `bound` bytes of the stream
    /// are in memory at a time. `callback` is called for each match of a leaf that has a callback.
    ///
    /// # Errors
    ///
    /// Returns `AllocError` if memory runs out.
    pub fn new(
        alloc: Global,
        code: &'c Code<'s>,
        reader: R,
        bound: usize,
        callback: C,
    ) -> Result<Stream<'c, 's, R, C>, AllocError>
        ensures { IfOk result (λ stream. stream ≡ at_start code.now reader bound callback) }
    {
        let window = Window::new(alloc, code.is_utf8(), reader, bound)?;
        Ok(Stream {
            code,
            callback,
            window,
        })
    }

    /// Returns the next event. An item is returned only if it does not depend on the bytes that
    /// follow the bytes in memory. Any other event is returned again by each call until `read` has
    /// read bytes or reached the end.
    pub fn next(&mut self) -> Streamed
        requires { TakesMatches C.Fn self.old.code self.old.callback }
        ensures keeps { KeepsCode self.old self.new }
        ensures does { DoesNext self.old.code (answers_of C.Fn self.old.callback)
            self.old.window self.new.window result }
    {
        if self.window.is_short() {
            return self.window.wait_longer();
        }
        let is_last = self.window.is_last();
        match front_of(self.code, self.window.lexed(), self.callback, is_last) {
            Front::Item(item) => self.window.emit(item),
            Front::Waits(to) => self.window.wait(to),
            Front::Ends => self.window.finish(),
        }
    }

    /// Reads once from the reader, unless the last bytes were already read. The bound must leave
    /// room for at least one byte, as it does after `More`.
    ///
    /// # Errors
    ///
    /// Returns the error of the reader. The bytes that were read before remain, and `read` can be
    /// called again.
    pub fn read(&mut self) -> io::Result<()>
        requires { unread_length self.old.window < self.old.window.bound }
        ensures keeps { KeepsCode self.old self.new }
        ensures read { IfOk result (λ _. ReadsOn R.remaining self.old.window self.new.window) }
        ensures failed { OnErr result
            (StaysUnread R.remaining self.old.window self.new.window) }
    {
        self.window.read()
    }

    /// Returns the bytes that the last call of `next` passed before the returned item, or all bytes
    /// that the call passed if it returned another event. The next read from the reader drops these
    /// bytes.
    pub fn skipped(&self) -> &[u8]
        ensures { result.now ≡ self.now.window.skipped }
    {
        self.window.skipped()
    }

    /// Returns the bytes at the span of the item that the last call of `next` returned, or no bytes
    /// if the call returned another event. The next read from the reader drops these bytes.
    pub fn slice(&self) -> &[u8]
        ensures { result.now ≡ self.now.window.slice }
    {
        self.window.slice()
    }

    /// Returns the number of bytes of the stream that were passed, saturating at `usize::MAX`.
    pub fn offset(&self) -> usize
        ensures { result ≡ self.now.window.offset }
    {
        self.window.offset()
    }
}
