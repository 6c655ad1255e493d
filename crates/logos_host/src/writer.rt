//! Writes to standard output, directly or in blocks, and to files. Used by `logos`, `logos_cli` and
//! `logos_show`.

ghost use Rattle.std.specs.Prelude.{◌≡◌, ◌<◌, [], IfErr, OnOk, vec_capacity, vec_len};
ghost use Rattle.logos_host.specs.Views.{Appends, AppendsFront, IsNoMisuse, IsOutputFailure, IsUnwritten, status_of};

use crate::failure::Failure;
use crate::files::Files;
use std::io;
use std::io::Write;

/// Writes all of `bytes` to `out`, and flushes the writer.
///
/// # Errors
///
/// Returns the error of the writer. Then a part of `bytes` may have been written.
pub fn write_through<O: Write>(bytes: &[u8], out: &mut O) -> io::Result<()>
    ensures { OnOk result (Appends (O.contents out.old) (O.contents out.new) bytes.now) }
{
    out.write_all(bytes)?;
    out.flush()
}

/// Writes `bytes` to `out`, which must be standard output, and flushes the writer.
///
/// # Errors
///
/// Returns `Closed` if the reader has closed the output, and `Output` if writing fails for another
/// reason. Then a part of `bytes` may have been written.
pub fn print_bytes<'w, O: Write>(bytes: &[u8], out: &mut O) -> Result<(), Failure<'w>>
    ensures printed { OnOk result (Appends (O.contents out.old) (O.contents out.new) bytes.now) }
    ensures failed { IfErr result IsOutputFailure }
    ensures status { IfErr result (λ failure. status_of failure ≡ 3) }
    ensures no_misuse { IfErr result IsNoMisuse }
{
    match write_through(bytes, out) {
        Ok(()) => Ok(()),
        Err(error) => Err(Failure::of_output(&error)),
    }
}

/// Replaces the content of the file at `path` with `bytes`. Creates the file if it does not exist.
///
/// # Errors
///
/// Returns `Write` if the file cannot be written, and `Memory` if memory runs out.
pub fn write_file<'w, F: Files>(
    path: &'w str,
    bytes: &[u8],
    files: &mut F,
) -> Result<(), Failure<'w>>
    ensures written { OnOk result (F.write_makes files.old path.now bytes.now files.new) }
    ensures ends { F.write_ends files.old path.now files.new }
    ensures failed { IfErr result (IsUnwritten path.now) }
    ensures status { IfErr result (λ failure. status_of failure ≡ 3) }
{
    match files.write(path, bytes) {
        Ok(()) => Ok(()),
        Err(error) => Err(Failure::of_writing(path, error)),
    }
}

/// Writes `block` to `out` and empties `block`. Does nothing if `block` has fewer than `length`
/// bytes.
///
/// # Errors
///
/// Returns the error of the writer. Then a part of the block may have been written, and the block
/// is empty.
#[inline(always)]
pub fn write_full<O: Write>(block: &mut Vec<u8>, length: usize, out: &mut O) -> io::Result<()>
    requires { 0 < length }
    ensures few { vec_len block.new < length }
    ensures room { vec_capacity block.new ≡ vec_capacity block.old }
    ensures written { OnOk result (AppendsFront (O.contents out.old) (O.contents out.new)
        block.old.items block.new.items) }
{
    if block.len() < length {
        return Ok(());
    }
    write_block(block, out)
}

/// Writes `block` to `out`, and empties `block`.
///
/// # Errors
///
/// Returns the error of the writer. Then a part of the block may have been written, and the block
/// is empty.
pub fn write_block<O: Write>(block: &mut Vec<u8>, out: &mut O) -> io::Result<()>
    ensures empty { block.new.items ≡ [] }
    ensures room { vec_capacity block.new ≡ vec_capacity block.old }
    ensures written { OnOk result (Appends (O.contents out.old) (O.contents out.new)
        block.old.items) }
{
    let written = out.write_all(block.as_slice());
    block.clear();
    written
}
