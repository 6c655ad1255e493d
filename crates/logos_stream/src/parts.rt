//! Reads an input in parts: only the bytes that were read and not yet passed are in memory. Used by
//! `window`, where each `Window` contains a `Parts`.

ghost use Rattle.std.specs.Prelude.{◌≡◌, ◌+◌, ◌<◌, ◌≤◌, [], length, take, false, IfOk, OnErr, MatchBool, min};
ghost use Rattle.logos_stream.specs.parts.Imports.{ReadsAfter, Reads, Stays, without};

use std::alloc::{AllocError, Global};
use std::io;
use std::io::Read;
use std::marker::Model;

/// An input that is read in parts. It consists of a reader, and of the part: the bytes that were
/// read and not yet passed. Offsets and lengths count bytes.
///
/// The number of bytes in memory is at most the bound. To lex an input of any length, read, lex the
/// part with `Lexer::next_within(parts.is_last())`, and pass the bytes before the offset at which
/// the lexer waits. To get the span of an item in the input, add `before` to its span in the part.
/// If the part is full and nothing can be passed, the item is longer than the bound.
///
/// In UTF-8 mode, the part may end inside a character. Then lex only the longest prefix of the part
/// that is UTF-8. To keep the time linear in the length of the input, read until the part is twice
/// as long as the bytes that were left.
#[derive(Drop)]
pub struct Parts<R> {
    reader: R,
    buffer: Vec<u8>,
    held: usize,
    before: u64,
    is_over: bool,
}

impl<R> Model for Parts<R> {
    ghost use Rattle.std.specs.Prelude.{◌≤◌, length, take};
    ghost use Rattle.logos_stream.specs.parts.Imports.{PartsValue};

    ghost Value = { PartsValue R };

    ghost view = { λ p. record {
      reader = p.reader;
      part = take p.held p.buffer.items;
      bound = length p.buffer.items;
      before = p.before;
      is_over = p.is_over;
    } };

    ghost invariant = { λ p. p.held ≤ length p.buffer.items };
}

impl<R: Read + Drop> Parts<R> {
    /// Returns the input of a reader, before anything is read. At most `bound` bytes of the input
    /// are in memory at a time.
    ///
    /// # Errors
    ///
    /// Returns `AllocError` if memory runs out.
    pub fn new(alloc: Global, reader: R, bound: usize) -> Result<Parts<R>, AllocError>
        ensures { IfOk result (λ parts. parts ≡ record {
          reader = reader;
          part = [];
          bound = bound;
          before = 0;
          is_over = false;
        }) }
    {
        let buffer = vec![in alloc; 0u8; bound]?;
        Ok(Parts {
            reader,
            buffer,
            held: 0,
            before: 0,
            is_over: false,
        })
    }

    /// Returns the part: the bytes that were read and not passed.
    pub fn part(&self) -> &[u8]
        ensures { result.now ≡ self.now.part }
    {
        &self.buffer[..self.held]
    }

    /// Returns the offset of the part in the input, in bytes.
    pub fn before(&self) -> u64
        ensures { result ≡ self.now.before }
    {
        self.before
    }

    /// Returns whether the part is the last part of the input, that is, whether the last successful
    /// call of `read` read no bytes.
    pub fn is_last(&self) -> bool
        ensures { result ≡ self.now.is_over }
    {
        self.is_over
    }

    /// Returns whether the part is as long as the bound. If the part is full, bytes have to be
    /// passed before `read` can be called.
    pub fn is_full(&self) -> bool
        ensures { MatchBool result (length self.now.part ≡ self.now.bound)
            (length self.now.part < self.now.bound) }
    {
        self.held == self.buffer.len()
    }

    /// Passes the first `bytes` bytes of the part: removes these bytes from memory, and increases
    /// `before` by `bytes`, saturating at `u64::MAX`. The part must have at least `bytes` bytes.
    pub fn pass(&mut self, bytes: usize)
        requires { bytes ≤ length self.old.part }
        ensures { self.new ≡ without bytes self.old }
    {
        self.buffer.copy_within(bytes..self.held, 0);
        self.held -= bytes;
        self.before = self.before.saturating_add(bytes as u64);
    }

    /// Reads once from the reader, and appends the bytes read to the part. If no bytes are read,
    /// the input has ended. The part must not be full.
    ///
    /// # Errors
    ///
    /// Returns the error of the reader. The part stays unchanged, and `read` can be called again.
    pub fn read(&mut self) -> io::Result<()>
        requires { length self.old.part < self.old.bound }
        ensures read { IfOk result (λ _. Reads R.remaining self.old self.new) }
        ensures failed { OnErr result (Stays R.remaining self.old self.new) }
    {
        match read_after(&mut self.reader, &mut self.buffer, self.held) {
            Ok(count) => {
                self.held += count;
                self.is_over = count == 0;
                Ok(())
            }
            Err(error) => Err(error),
        }
    }
}

/// Reads once into a buffer, after its first `held` bytes. Returns the number of bytes read.
fn read_after<R: Read>(reader: &mut R, buffer: &mut [u8], held: usize) -> io::Result<usize>
    requires { held < length buffer.old }
    ensures length { length buffer.new ≡ length buffer.old }
    ensures front { take held buffer.new ≡ take held buffer.old }
    ensures read { ReadsAfter R.remaining reader.old reader.new held result buffer.new }
{
    reader.read(&mut buffer[held..])
}
