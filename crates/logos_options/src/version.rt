//! The function `print_version`, which writes the version of a program, and the line that names the
//! program's commit. Called by `logos_cli` and `logos_show`.

ghost use Rattle.std.specs.Prelude.{◌≡◌, ◌-◌, IfErr, drop, length};
ghost use Rattle.logos_options.specs.Imports.{IsNoMisuse, commit_line, is_commit_line, is_hex_digit, list_all, status_of};

use logos_host::{ComparableFiles, Failure, print_bytes};
use std::alloc::AllocError;
use std::io::Write;

/// The path of the program that runs.
const PROGRAM: &str = "/proc/self/exe";

/// The length in bytes of the line that names a commit: `commit: `, forty digits and a line end.
const LENGTH: usize = 49;

/// Writes the text `version` to `out`. If the file of the running program ends with a line that
/// names the program's commit, then writes this line. Flushes the writer.
///
/// # Errors
///
/// Returns:
///
/// - `Closed` if the reader has closed the output. The beginning of the text may then have been
///   written.
/// - `Output` if writing fails for another reason. The beginning of the text may then have been
///   written.
/// - `Memory` if memory runs out. Nothing has then been written.
pub fn print_version<'w, F: ComparableFiles, O: Write>(
    version: &str,
    files: &F,
    out: &mut O,
) -> Result<(), Failure<'w>>
    ensures status { IfErr result (λ failure. status_of failure ≡ 3) }
    ensures no_misuse { IfErr result IsNoMisuse }
{
    let program = match files.found_bytes(PROGRAM) {
        Ok(program) => program,
        Err(AllocError) => return Err(Failure::Memory),
    };
    match print_bytes(version.as_bytes(), out) {
        Ok(()) => print_bytes(commit_line(&program), out),
        Err(failure) => Err(failure),
    }
}

/// Returns the last line of a program, including the line end, if the line names the program's
/// commit. Returns no bytes otherwise. `tools/release.sh` and `tools/install.sh` append the line to
/// the programs.
fn commit_line(program: &[u8]) -> &[u8]
    ensures { result.now ≡ commit_line program.now }
{
    let line = last_bytes(program);
    if is_commit_line(line) {
        return line;
    }
    &[]
}

/// Returns the last 49 bytes of a program, or all bytes if the program has fewer.
fn last_bytes(program: &[u8]) -> &[u8]
    ensures { result.now ≡ drop (length program.now - 49) program.now }
{
    match program.get(program.len().saturating_sub(LENGTH)..) {
        Some(line) => line,
        None => &[],
    }
}

/// Returns whether `line` names a commit. Such a line consists of `commit: `, forty lower-case
/// hexadecimal digits and LF.
fn is_commit_line(line: &[u8]) -> bool
    ensures { result ≡ is_commit_line line.now }
{
    if line.len() != LENGTH {
        return false;
    }
    line.starts_with(b"commit: ") & (line[48] == b'\n') & are_digits(&line[8..48])
}

/// Returns whether all bytes are lower-case hexadecimal digits.
fn are_digits(bytes: &[u8]) -> bool
    ensures { result ≡ list_all is_hex_digit bytes.now }
{
    for byte in bytes {
        if !is_hex_digit(*byte) {
            return false;
        }
    }
    true
}

/// Returns whether a byte is a lower-case hexadecimal digit.
fn is_hex_digit(byte: u8) -> bool
    ensures { result ≡ is_hex_digit byte }
{
    ((b'0' <= byte) & (byte <= b'9')) | ((b'a' <= byte) & (byte <= b'f'))
}
