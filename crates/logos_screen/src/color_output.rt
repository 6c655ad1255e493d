//! Defines an output that reports itself as a terminal only if colors are allowed. Used by
//! `logos_cli`.

use crate::screen::allows_colors;
use std::env::Env;
use std::io;
use std::io::{IsTerminal, Write};

/// An output that reports itself as a terminal if its writer is a terminal and the variable
/// `NO_COLOR` allows colors.
#[derive(Drop)]
pub struct ColorOutput<W> {
    writer: W,
    is_allowed: bool,
}

impl<W> ColorOutput<W> {
    /// Returns a `ColorOutput` to `writer`. The environment variables `variables` determine whether
    /// colors are allowed.
    pub fn new<V: Env>(variables: &V, writer: W) -> ColorOutput<W> {
        ColorOutput {
            writer,
            is_allowed: allows_colors(variables),
        }
    }
}

impl<W: Write> Write for ColorOutput<W> {
    ghost contents = { λ output. W.contents output.writer };

    fn write(&mut self, buf: &[u8]) -> io::Result<usize> {
        self.writer.write(buf)
    }

    fn flush(&mut self) -> io::Result<()> {
        self.writer.flush()
    }

    fn write_all(&mut self, buf: &[u8]) -> io::Result<()> {
        self.writer.write_all(buf)
    }
}

impl<W: IsTerminal> IsTerminal for ColorOutput<W> {
    fn is_terminal(&self) -> bool {
        self.is_allowed & self.writer.is_terminal()
    }
}
