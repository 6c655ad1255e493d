//! Defines `Window`, which contains the bytes of a stream that are in memory, and the offset at
//! which the next match attempt begins. Used by `stream`.

ghost use Rattle.std.specs.Prelude.{◌≡◌, ◌*◌, ◌<◌, ◌≤◌, [], drop, length, false, slice_range, true, IfOk, OnErr, MatchBool, IsTrue, IsUtf8, IsCharBoundary};
ghost use Rattle.logos_stream.specs.Views.{end_of, nothing_read, start_of, unread_length, Finishes, Yields, GoesPast, IsPutOff, IsTorn, ReadsOn, StaysUnread, Waits};

use crate::item::{StreamItem, Streamed, later};
use crate::parts::Parts;
use crate::tail::{is_cut, tail_of};
use std::alloc::{AllocError, Global};
use std::io;
use std::io::Read;
use std::marker::Model;

/// The maximum number of undecided bytes that are lexed again after each read. A larger number of
/// undecided bytes must double before the bytes are lexed again, so that the time stays linear in
/// the length of the stream.
const SHORT: usize = 4096;

/// The bytes of a stream that are in memory. A move passes bytes, with or without an item. Offsets
/// and lengths count bytes.
#[derive(Drop)]
pub(crate) struct Window<R> {
    parts: Parts<R>,
    is_utf8: bool,
    /// The offset in the part at which the last move began.
    before: usize,
    /// The offset in the part at which the item of the last move begins.
    from: usize,
    /// The offset in the part at which the last move ended and the next match attempt begins.
    at: usize,
    /// The offset in the part at which the lexable bytes end.
    ready: usize,
    /// Whether the lexable bytes are the last bytes that are lexed.
    is_last: bool,
    /// The offset in the stream at which the next match attempt begins.
    offset: usize,
    bound: usize,
    /// The number of bytes after `at` that must be in memory before the next match attempt.
    wanted: usize,
}

impl<R> Model for Window<R> {
    ghost use Rattle.std.specs.Prelude.{slice_range, drop};
    ghost use Rattle.logos_stream.specs.Views.{WindowValue, IsWindow};

    ghost Value = { WindowValue R };

    ghost view = { λ w. record {
      reader = w.parts.reader;
      utf8 = w.is_utf8;
      skipped = slice_range w.parts.part w.before w.from;
      slice = slice_range w.parts.part w.from w.at;
      lexed = slice_range w.parts.part w.at w.ready;
      after = drop w.ready w.parts.part;
      is_last = w.is_last;
      is_over = w.parts.is_over;
      offset = w.offset;
      bound = w.bound;
      wanted = w.wanted;
    } };

    ghost invariant = { λ w. IsWindow w.is_utf8 w.parts.part w.parts.bound w.parts.is_over
        w.before w.from w.at w.ready w.is_last w.bound w.wanted };
}

impl<R: Read + Drop> Window<R> {
    /// Returns the window on the stream of a reader, before anything is read. If `is_utf8` is
    /// `true`, the bytes of the stream are validated as UTF-8.
    ///
    /// # Errors
    ///
    /// Returns `AllocError` if memory runs out.
    pub(crate) fn new(
        alloc: Global,
        is_utf8: bool,
        reader: R,
        bound: usize,
    ) -> Result<Window<R>, AllocError>
        ensures { IfOk result (λ window. window ≡ nothing_read is_utf8 reader bound) }
    {
        let parts = Parts::new(alloc, reader, bound)?;
        Ok(Window {
            parts,
            is_utf8,
            before: 0,
            from: 0,
            at: 0,
            ready: 0,
            is_last: false,
            offset: 0,
            bound,
            wanted: 0,
        })
    }

    /// Passes the bytes before `at` and reads once from the reader, unless the last bytes were
    /// already read.
    ///
    /// # Errors
    ///
    /// Returns the error of the reader. The bytes that were read before remain, and `read` can be
    /// called again.
    pub(crate) fn read(&mut self) -> io::Result<()>
        requires { unread_length self.old < self.old.bound }
        ensures read { IfOk result (λ _. ReadsOn R.remaining self.old self.new) }
        ensures failed { OnErr result (StaysUnread R.remaining self.old self.new) }
    {
        if self.is_last {
            return Ok(());
        }
        pass_front(&mut self.parts, self.at);
        self.ready -= self.at;
        self.before = 0;
        self.from = 0;
        self.at = 0;
        self.parts.read()?;
        let tail = tail_of(self.is_utf8, &self.parts.part()[self.ready..]);
        self.ready += tail.valid;
        self.is_last = tail.is_at_fault | self.parts.is_last();
        Ok(())
    }

    /// Returns the bytes that the last move passed before its item, or all bytes that the move
    /// passed if the move has no item.
    pub(crate) fn skipped(&self) -> &[u8]
        ensures { result.now ≡ self.now.skipped }
    {
        &self.parts.part()[self.before..self.from]
    }

    /// Returns the bytes at the span of the last move's item, or no bytes if the move has no item.
    pub(crate) fn slice(&self) -> &[u8]
        ensures { result.now ≡ self.now.slice }
    {
        &self.parts.part()[self.from..self.at]
    }

    /// Returns the number of bytes of the stream that were passed, saturating at `usize::MAX`.
    pub(crate) fn offset(&self) -> usize
        ensures { result ≡ self.now.offset }
    {
        self.offset
    }

    /// Returns whether the lexable bytes are the last bytes that are lexed.
    pub(crate) fn is_last(&self) -> bool
        ensures { result ≡ self.now.is_last }
    {
        self.is_last
    }

    /// Returns the lexable bytes that no move has passed.
    pub(crate) fn lexed(&self) -> &[u8]
        ensures bytes { result.now ≡ self.now.lexed }
        ensures text { IsTrue self.now.utf8 → IsUtf8 self.now.lexed }
    {
        &self.parts.part()[self.at..self.ready]
    }

    /// Returns whether fewer bytes are in memory than the next match attempt needs, and more bytes
    /// can still become lexable.
    pub(crate) fn is_short(&self) -> bool
        ensures short { IsTrue result → unread_length self.now < self.now.wanted }
        ensures room { IsTrue result → unread_length self.now < self.now.bound }
        ensures unsettled { IsTrue result → self.now.is_last ≡ false }
    {
        if self.is_last {
            return false;
        }
        self.unread() < self.wanted
    }

    /// Returns the number of bytes in memory that no move has passed.
    fn unread(&self) -> usize
        ensures { result ≡ unread_length self.now }
    {
        self.parts.part().len() - self.at
    }

    /// Passes an item that was found in the lexable bytes, and returns the item with its span in
    /// the stream. Returns `NotUtf8`, and passes nothing, if the item ends inside a character.
    pub(crate) fn emit(&mut self, item: StreamItem) -> Streamed
        requires order { start_of item < end_of item }
        requires within { end_of item ≤ length self.old.lexed }
        ensures { Yields self.old self.new item result }
    {
        let span = item.span();
        if !is_cut(self.is_utf8, self.lexed(), span.to) {
            self.go_past(0, 0);
            return Streamed::NotUtf8;
        }
        let before = self.offset;
        self.go_past(span.from, span.to);
        self.wanted = 0;
        Streamed::Item(later(item, before))
    }

    /// Passes the first `to` lexable bytes, which must contain no item. Returns `More`, or
    /// `TooLong` if the bound leaves no room for more bytes. Returns `NotUtf8`, and passes nothing,
    /// if `to` is inside a character.
    pub(crate) fn wait(&mut self, to: usize) -> Streamed
        requires { to ≤ length self.old.lexed }
        ensures { Waits self.old self.new to result }
    {
        if !is_cut(self.is_utf8, self.lexed(), to) {
            self.go_past(0, 0);
            return Streamed::NotUtf8;
        }
        self.go_past(to, to);
        let unread = self.unread();
        if unread >= self.bound {
            return Streamed::TooLong;
        }
        self.wanted = wanted_after(unread, self.bound);
        Streamed::More
    }

    /// Returns `More` without a match attempt, and passes nothing.
    pub(crate) fn wait_longer(&mut self) -> Streamed
        requires { unread_length self.old < self.old.bound }
        ensures { Waits self.old self.new 0 result }
    {
        self.go_past(0, 0);
        Streamed::More
    }

    /// Passes the remaining lexable bytes, which must contain no item. Returns `NotUtf8` if other
    /// bytes follow the lexable bytes, and `End` otherwise.
    pub(crate) fn finish(&mut self) -> Streamed
        requires { self.old.is_last ≡ true }
        ensures { Finishes self.old self.new result }
    {
        let to = self.lexed().len();
        self.go_past(to, to);
        if self.is_torn() {
            return Streamed::NotUtf8;
        }
        Streamed::End
    }

    /// Returns whether there are bytes after the lexable bytes.
    fn is_torn(&self) -> bool
        requires { self.now.is_last ≡ true }
        ensures { MatchBool result (IsTorn self.now)
            ((self.now.after ≡ []) × IsTrue self.now.is_over) }
    {
        if self.ready < self.parts.part().len() {
            return true;
        }
        false
    }

    /// Moves past the first `to` lexable bytes. The item of the move has the span `from..to` in
    /// these bytes.
    fn go_past(&mut self, from: usize, to: usize)
        requires order { from ≤ to }
        requires within { to ≤ length self.old.lexed }
        requires cut { IsTrue self.old.utf8 → 0 < to → IsCharBoundary self.old.lexed to }
        ensures past { GoesPast to self.old self.new }
        ensures slice { self.new.slice ≡ slice_range self.old.lexed from to }
        ensures wanted { self.new.wanted ≡ self.old.wanted }
    {
        self.before = self.at;
        self.from = self.at + from;
        self.at += to;
        self.offset = self.offset.saturating_add(to);
    }
}

/// Passes the first `bytes` bytes of a part. If `bytes` is 0, nothing is moved in memory.
fn pass_front<R: Read + Drop>(parts: &mut Parts<R>, bytes: usize)
    requires { bytes ≤ length parts.old.part }
    ensures part { parts.new.part ≡ drop bytes parts.old.part }
    ensures reader { parts.new.reader ≡ parts.old.reader }
    ensures bound { parts.new.bound ≡ parts.old.bound }
    ensures is_over { parts.new.is_over ≡ parts.old.is_over }
{
    if bytes > 0 {
        parts.pass(bytes);
    }
}

/// Returns the number of bytes that must be in memory for the next match attempt, after an attempt
/// that left `unread` bytes undecided. The result is 0 if `unread` is at most `SHORT`. Otherwise,
/// it is twice `unread`, but at most `bound`.
fn wanted_after(unread: usize, bound: usize) -> usize
    ensures most { result ≤ bound }
    ensures put_off { IsPutOff unread result }
{
    if unread <= SHORT {
        return 0;
    }
    unread.saturating_mul(2).min(bound)
}
