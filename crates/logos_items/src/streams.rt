//! Writes the items of standard input as they are found, one on each line. Used by `logos_show`.

ghost use Rattle.std.specs.Prelude.{◌<◌, IfErr};
ghost use Rattle.logos_items.specs.Imports.{IsNoMisuse, KeepsCode, TakesMatches, unread_length};

use crate::blocks::write_if_full;
use crate::lines::{
    ERROR, ItemOrder, Lines, head_at, milliseconds, no_lines, now, push_line, push_totals,
};
use logos_answers::{Totals, note_of};
use logos_codegen::Generated;
use logos_codegen::leaf::LeafId;
use logos_codegen::machine::Action;
use logos_host::{Failure, Reason, print_bytes, write_through};
use logos_lines::Location;
use logos_options::STANDARD_INPUT;
use logos_stream::{Stream, StreamItem, Streamed};
use std::alloc::{AllocError, Global};
use std::io::{ErrorKind, Input, Read, Write};
use std::time::Clock;

/// The maximum number of bytes of standard input in memory. A match with more bytes is refused.
const MOST: usize = 16_777_216;

/// Writes a line for each item of standard input, and then the counts. Before each read, the items
/// found so far are written. Returns the note about the callbacks of leaves that have items. The
/// note is empty if there are no such callbacks.
///
/// # Errors
///
/// Returns:
///
/// - `NotUtf8` if the lexer reads UTF-8 and the input is not UTF-8.
/// - `Refused` if a match has more than `MOST` bytes.
/// - `Read` if reading fails.
/// - `Output` or `Closed` if writing fails.
/// - `Memory` if memory runs out.
///
/// With `NotUtf8` and `Refused`, the lines of the items before the error were written.
pub fn write_streamed<S: Clock + Input, O: Write>(
    order: ItemOrder<'_>,
    made: &Generated<'_>,
    system: &S,
    out: &mut O,
) -> Result<String, Failure<'static>>
    ensures { IfErr result IsNoMisuse }
{
    let alloc = order.alloc;
    let mut lines = no_lines(order, &made.code)?;
    let start = now(system);
    let emit = |_leaf: LeafId, _slice: &[u8]| Action::Emit;
    let mut stream = Stream::new(alloc, &made.code, system.reader(), MOST, emit)?;
    let end = write_stream(&mut stream, &mut lines, out)?;
    if let Some(stop) = end {
        write_found(&mut lines, out)?;
        return Err(failure_at(alloc, stop, stream.offset()));
    }
    let totals = Totals {
        bytes: stream.offset(),
        passed: milliseconds(start, now(system)),
    };
    push_totals(order, made, &mut lines, totals)?;
    // The note is made first, so that the rest is not printed if memory runs out.
    let note = note_of(alloc, made.code.leaves(), &lines.counts)?;
    print_bytes(&lines.block, out)?;
    Ok(note)
}

/// The reason why a stream was not lexed to its end.
#[derive(Clone, Copy)]
enum StreamStop {
    NotUtf8,
    TooLong,
}

/// Returns the failure for a stream that is lexed only up to the byte offset `offset`.
fn failure_at(alloc: Global, stop: StreamStop, offset: usize) -> Failure<'static>
    ensures { IsNoMisuse result }
{
    match stop {
        StreamStop::NotUtf8 => Failure::NotUtf8 {
            valid_up_to: offset,
        },
        StreamStop::TooLong => too_long(alloc, offset),
    }
}

/// Returns the failure for a match of more than `MOST` bytes that begins at the byte offset
/// `offset` of standard input.
fn too_long(alloc: Global, offset: usize) -> Failure<'static>
    ensures { IsNoMisuse result }
{
    let made = format!(in alloc;
        "error: the token at byte {offset} is longer than {MOST} bytes; name a file as the input\n"
    );
    match made {
        Ok(text) => Failure::Refused(text),
        Err(_) => Failure::Memory,
    }
}

/// Writes, in blocks, a line for each item of a stream. The last lines remain in `lines` for the
/// caller to write. Returns the reason why the stream was not lexed to its end, or `None` if it was
/// lexed to its end.
fn write_stream<R: Read + Drop, C: Fn(LeafId, &[u8]) -> Action + Copy, O: Write>(
    stream: &mut Stream<'_, '_, R, C>,
    lines: &mut Lines,
    out: &mut O,
) -> Result<Option<StreamStop>, Failure<'static>>
    requires { TakesMatches C.Fn stream.old.code stream.old.callback }
    ensures { IfErr result IsNoMisuse }
{
    let mut location = Location { line: 1, column: 1 };
    for _ in 0..u64::MAX {
        let next = stream.next();
        let start = after(location, stream.skipped());
        location = after(start, stream.slice());
        match next {
            Streamed::Item(item) => {
                add_item(lines, start, item, stream.slice())?;
                write_if_full(&mut lines.block, out)?;
            }
            Streamed::More => read_more(stream, lines, out)?,
            Streamed::TooLong => return Ok(Some(StreamStop::TooLong)),
            Streamed::NotUtf8 => return Ok(Some(StreamStop::NotUtf8)),
            Streamed::End => break,
        }
    }
    Ok(None)
}

/// Adds the line of an item at `location` to `lines`, and counts the item.
fn add_item(
    lines: &mut Lines,
    location: Location,
    item: StreamItem,
    slice: &[u8],
) -> Result<(), AllocError> {
    match item {
        StreamItem::Token { leaf, .. } => {
            lines.counts.count_token(leaf.0);
            let head = head_at(&lines.heads, leaf.0);
            push_line(&mut lines.block, &mut lines.canvas, location, head, slice)
        }
        StreamItem::Error { .. } => {
            lines.counts.count_error();
            push_line(&mut lines.block, &mut lines.canvas, location, ERROR, slice)
        }
    }
}

/// Writes the lines of the items found so far, and reads once. An interrupted read is not a
/// failure.
fn read_more<R: Read + Drop, C: Fn(LeafId, &[u8]) -> Action + Copy, O: Write>(
    stream: &mut Stream<'_, '_, R, C>,
    lines: &mut Lines,
    out: &mut O,
) -> Result<(), Failure<'static>>
    requires { unread_length stream.old.window < stream.old.window.bound }
    ensures keeps { KeepsCode stream.old stream.new }
    ensures failed { IfErr result IsNoMisuse }
{
    write_found(lines, out)?;
    match stream.read() {
        Ok(()) => Ok(()),
        // The next iteration reads again.
        Err(error) if error.kind() == ErrorKind::Interrupted => Ok(()),
        Err(error) => Err(Failure::Read(STANDARD_INPUT, Reason::of_kind(error.kind()))),
    }
}

/// Writes the lines that have not been written, if there are any, and removes them. The lines are
/// removed even if writing fails.
fn write_found<O: Write>(lines: &mut Lines, out: &mut O) -> Result<(), Failure<'static>>
    ensures { IfErr result IsNoMisuse }
{
    if lines.block.is_empty() {
        return Ok(());
    }
    let written = write_through(&lines.block, out);
    lines.block.clear();
    match written {
        Ok(()) => Ok(()),
        Err(error) => Err(Failure::of_output(&error)),
    }
}

/// Returns the location after the bytes that begin at `location`.
fn after(location: Location, bytes: &[u8]) -> Location {
    let mut location = location;
    for byte in bytes {
        location = after_byte(location, *byte);
    }
    location
}

/// Returns the location after a byte at `location`. Continuation bytes of a character do not change
/// the location.
#[inline(always)]
fn after_byte(location: Location, byte: u8) -> Location {
    if byte == b'\n' {
        return Location {
            line: location.line.saturating_add(1),
            column: 1,
        };
    }
    if (128 <= byte) & (byte < 192) {
        return location;
    }
    Location {
        line: location.line,
        column: location.column.saturating_add(1),
    }
}
