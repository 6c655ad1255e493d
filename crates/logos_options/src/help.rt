//! The function `print_help`, which writes the help of a program with each option that the program
//! takes. Called by `logos_cli` and `logos_show`.

ghost use Rattle.std.specs.Prelude.{◌≡◌, IfErr};
ghost use Rattle.logos_options.specs.Imports.{IsNoMisuse, IsOutputFailure, status_of};

use crate::options::{OptionRow, ROWS};
use crate::program::Program;
use logos_host::Failure;
use std::io;
use std::io::Write;

/// The help of a program: the texts before and after the lines of its options.
#[derive(Clone, Copy)]
pub struct HelpText {
    pub front: &'static str,
    pub end: &'static str,
}

/// Writes the help of a program to `out`, and flushes the writer.
///
/// # Errors
///
/// Returns `Closed` if the reader has closed the output, and `Output` if writing fails for another
/// reason. The beginning of the help may then have been written.
pub fn print_help<'w, O: Write>(
    program: Program,
    help: HelpText,
    out: &mut O,
) -> Result<(), Failure<'w>>
    ensures failed { IfErr result IsOutputFailure }
    ensures status { IfErr result (λ failure. status_of failure ≡ 3) }
    ensures no_misuse { IfErr result IsNoMisuse }
{
    match write_help(program, help, out) {
        Ok(()) => Ok(()),
        Err(error) => Err(Failure::of_output(&error)),
    }
}

/// Writes the help of a program to `out`, and flushes the writer.
fn write_help<O: Write>(program: Program, help: HelpText, out: &mut O) -> io::Result<()> {
    out.write_all(help.front.as_bytes())?;
    write_rows(program, &ROWS, out)?;
    out.write_all(help.end.as_bytes())?;
    out.flush()
}

/// Writes the help lines of the options in `rows` that the program takes to `out`.
fn write_rows<O: Write>(program: Program, rows: &[OptionRow], out: &mut O) -> io::Result<()> {
    for row in rows {
        out.write_all(program.help_of(row).as_bytes())?;
    }
    Ok(())
}
