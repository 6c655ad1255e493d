//! `Stream::items` collects all items of a stream in one call. Part of the public interface.

ghost use Rattle.std.specs.Prelude.{◌<◌, IfOk, OnOk};
ghost use Rattle.logos_stream.specs.Views.{answers_of, unread_length, AreLeft, KeepsCode, MayRead, Steps, TakesMatches};

use crate::item::{StreamItem, Streamed};
use crate::stream::Stream;
use logos_code::action::Action;
use logos_hir::leaf::LeafId;
use std::alloc::Global;
use std::io;
use std::io::{ErrorKind, Read};

impl<'c, 's, R: Read + Drop, C: Fn(LeafId, &[u8]) -> Action + Copy> Stream<'c, 's, R, C> {
    /// Reads to the end of the stream, and returns the remaining items in ascending order of their
    /// offsets, with their spans in the stream.
    ///
    /// # Errors
    ///
    /// Returns:
    ///
    /// - The error of the reader if reading fails. An interrupted read is repeated instead.
    /// - An error of the kind `InvalidData` if `next` returns `TooLong` or `NotUtf8`.
    /// - An error of the kind `OutOfMemory` if memory runs out.
    /// - An error of the kind `TimedOut` after 2^64 - 1 steps, each of which adds an item or reads
    ///   once.
    pub fn items(self, alloc: Global) -> io::Result<Vec<StreamItem>>
        requires { TakesMatches C.Fn self.code self.callback }
        ensures { IfOk result (λ items. AreLeft R.remaining self.entry.code
            (answers_of C.Fn self.entry.callback) self.entry.window items.items) }
    {
        let mut stream = self;
        let mut items = Vec::new(alloc);
        for _ in 0..u64::MAX {
            if stream.step(&mut items)? {
                return Ok(items);
            }
        }
        Err(io::Error::from(ErrorKind::TimedOut))
    }

    /// Appends the next item to `items`, or reads once if the next item depends on more bytes.
    /// Returns whether the stream has ended.
    fn step(&mut self, items: &mut Vec<StreamItem>) -> io::Result<bool>
        requires { TakesMatches C.Fn self.old.code self.old.callback }
        ensures keeps { KeepsCode self.old self.new }
        ensures steps { IfOk result (Steps R.remaining self.old.code
            (answers_of C.Fn self.old.callback) self.old.window self.new.window items.old.items
            items.new.items) }
    {
        match self.next() {
            Streamed::Item(item) => {
                items.push(item)?;
                Ok(false)
            }
            Streamed::More => {
                self.read_again()?;
                Ok(false)
            }
            Streamed::End => Ok(true),
            Streamed::TooLong | Streamed::NotUtf8 => Err(io::Error::from(ErrorKind::InvalidData)),
        }
    }

    /// Reads once from the reader. An interrupted read is not an error, and reads nothing.
    fn read_again(&mut self) -> io::Result<()>
        requires { unread_length self.old.window < self.old.window.bound }
        ensures keeps { KeepsCode self.old self.new }
        ensures reads { OnOk result (MayRead R.remaining self.old.window self.new.window) }
    {
        match self.read() {
            Ok(()) => Ok(()),
            Err(error) if error.kind() == ErrorKind::Interrupted => Ok(()),
            Err(error) => Err(error),
        }
    }
}
