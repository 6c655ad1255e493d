//! Shows the progress of a program in a line on standard error. Used by `logos_show`.
//!
//! The line contains the number of bytes that were written. The line is shown only if standard
//! error is a terminal and standard output is not, and first after a second. The line is cleared
//! before a message and at the end of the program.

use std::cell::Cell;
use std::io;
use std::io::{IsTerminal, Write};
use std::time::{Clock, Duration};

/// The minimum time in milliseconds before the line is first shown.
const PATIENCE: u64 = 1000;

/// The minimum time in milliseconds between two updates of the line.
const PAUSE: u64 = 200;

/// The text that clears the line: it overwrites the line with spaces, and then moves the cursor to
/// the beginning of the line.
const CLEAR: &[u8] = b"\r                                \r";

/// A record of whether the progress line is on the terminal. The outputs of a program share this
/// record.
#[derive(Drop)]
pub struct ProgressLine {
    is_shown: Cell<bool>,
}

impl ProgressLine {
    /// Returns the `ProgressLine` of a line that is not shown.
    pub fn new() -> ProgressLine {
        ProgressLine {
            is_shown: Cell::new(false),
        }
    }

    /// Clears the line on standard error if the line is shown. Ignores errors of the writer.
    pub fn clear<E: Write>(&self, err: &mut E) {
        if self.is_shown.get() {
            self.is_shown.set(false);
            let _ = err.write_all(CLEAR);
            let _ = err.flush();
        }
    }
}

/// An output to standard error that clears the progress line before each write.
#[derive(Drop)]
pub struct MessageOutput<'l, E> {
    line: &'l ProgressLine,
    writer: E,
    /// A second handle to standard error. The progress line is cleared with this handle, so that
    /// only messages count as written to `writer`.
    err: E,
}

impl<'l, E> MessageOutput<'l, E> {
    /// Returns a `MessageOutput`. `writer` and `err` must be handles to standard error.
    pub fn new(line: &'l ProgressLine, writer: E, err: E) -> MessageOutput<'l, E> {
        MessageOutput { line, writer, err }
    }
}

impl<E: Write> Write for MessageOutput<'_, E> {
    ghost contents = { λ output. E.contents output.writer };

    fn write(&mut self, buf: &[u8]) -> io::Result<usize> {
        self.line.clear(&mut self.err);
        self.writer.write(buf)
    }

    fn flush(&mut self) -> io::Result<()> {
        self.writer.flush()
    }

    fn write_all(&mut self, buf: &[u8]) -> io::Result<()> {
        self.line.clear(&mut self.err);
        self.writer.write_all(buf)
    }
}

impl<E: IsTerminal> IsTerminal for MessageOutput<'_, E> {
    fn is_terminal(&self) -> bool {
        self.writer.is_terminal()
    }
}

/// An output that writes to standard output and shows the number of written bytes on standard
/// error.
#[derive(Drop)]
pub struct CountedOutput<'l, S, O, E> {
    writer: O,
    progress: Progress<'l, S, E>,
}

/// The number of bytes that were written, and the time at which this number is shown next.
#[derive(Drop)]
struct Progress<'l, S, E> {
    system: &'l S,
    line: &'l ProgressLine,
    err: E,
    written: usize,
    /// The time from which the number is shown next, or `None` if the number is not shown again.
    due: Option<Duration>,
}

impl<'l, S: Clock, O: IsTerminal, E: IsTerminal> CountedOutput<'l, S, O, E> {
    /// Returns a `CountedOutput` that has written no bytes. `writer` must be standard output, and
    /// `err` must be standard error. The number of written bytes is shown only if `err` is a
    /// terminal, `writer` is not a terminal, and the system has a clock.
    pub fn new(
        system: &'l S,
        line: &'l ProgressLine,
        writer: O,
        err: E,
    ) -> CountedOutput<'l, S, O, E> {
        let due = if err.is_terminal() & !writer.is_terminal() {
            time_in(system, PATIENCE)
        } else {
            None
        };
        CountedOutput {
            writer,
            progress: Progress {
                system,
                line,
                err,
                written: 0,
                due,
            },
        }
    }
}

/// Returns the time `milliseconds` from now, or `None` if the system has no clock or the time
/// overflows.
fn time_in<S: Clock>(system: &S, milliseconds: u64) -> Option<Duration> {
    match system.monotonic() {
        Ok(time) => time.checked_add(Duration::from_millis(milliseconds)),
        Err(_) => None,
    }
}

impl<S: Clock, E: Write> Progress<'_, S, E> {
    /// Adds `length` to the number of written bytes, and shows this number if it is due. Ignores
    /// errors of writing to standard error.
    fn count(&mut self, length: usize) {
        self.written = self.written.saturating_add(length);
        if self.is_due() {
            let kibibytes = self.written / 1024;
            let _ = write!(self.err, "\r{kibibytes} KiB written");
            let _ = self.err.flush();
            self.line.is_shown.set(true);
            self.due = time_in(self.system, PAUSE);
        }
    }

    /// Returns whether the number of written bytes is due to be shown.
    fn is_due(&self) -> bool {
        let Some(due) = self.due else {
            return false;
        };
        match self.system.monotonic() {
            Ok(time) => due <= time,
            Err(_) => false,
        }
    }
}

impl<S: Clock, O: Write, E: Write> Write for CountedOutput<'_, S, O, E> {
    ghost contents = { λ output. O.contents output.writer };

    fn write(&mut self, buf: &[u8]) -> io::Result<usize> {
        match self.writer.write(buf) {
            Ok(length) => {
                self.progress.count(length);
                Ok(length)
            }
            Err(error) => Err(error),
        }
    }

    fn flush(&mut self) -> io::Result<()> {
        self.writer.flush()
    }

    fn write_all(&mut self, buf: &[u8]) -> io::Result<()> {
        match self.writer.write_all(buf) {
            Ok(()) => {
                self.progress.count(buf.len());
                Ok(())
            }
            Err(error) => Err(error),
        }
    }
}

impl<S, O: IsTerminal, E> IsTerminal for CountedOutput<'_, S, O, E> {
    fn is_terminal(&self) -> bool {
        self.writer.is_terminal()
    }
}
