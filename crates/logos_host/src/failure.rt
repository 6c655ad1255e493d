//! Defines the failures of a program, and the exit status of each failure. Used by `logos`,
//! `logos_cli` and `logos_show`.

ghost use Rattle.std.specs.IoError.{error_kind};
ghost use Rattle.std.specs.Prelude.{◌≡◌, ◌≢◌};
ghost use Rattle.logos_host.specs.Views.{Closed, IsOutputFailure, IsReadingFailure, IsUnread, IsUnwritten, IsWritingFailure, Output, status_of, Memory as OutOfMemory};

use crate::files::FileError;
use crate::reason::Reason;
use logos_token::error::Memory;
use std::alloc::{AllocError, AllocFailed};
use std::io;
use std::io::ErrorKind;

/// The reason why a program ends with an exit status other than 0.
#[derive(Drop)]
pub enum Failure<'w> {
    /// The arguments are invalid for the reason `what`. `word` is the invalid argument, or empty if
    /// the reason concerns no single argument.
    Misuse {
        what: &'static str,
        word: &'w str,
    },
    /// The argument `word` is not an option of the program. `nearest` is the name of the nearest
    /// option, or empty if no option is near.
    UnknownOption {
        word: &'w str,
        nearest: &'static str,
    },
    /// The output file at this path is the input file.
    OwnOutput(&'w str),
    /// The source is refused, for the reasons in this text.
    Refused(String),
    /// The input is not UTF-8. `valid_up_to` is the length in bytes of the longest UTF-8 prefix of
    /// the input.
    NotUtf8 {
        valid_up_to: usize,
    },
    /// The file at this path should be text, but is not UTF-8. `valid_up_to` is the length in bytes
    /// of the longest UTF-8 prefix of the file.
    NotText {
        path: &'w str,
        valid_up_to: usize,
    },
    /// The file at this path cannot be read.
    Read(&'w str, Reason),
    /// The file at this path cannot be written.
    Write(&'w str, Reason),
    /// Standard output cannot be written.
    Output,
    /// The reader of standard output has closed standard output.
    Closed,
    /// Memory ran out.
    Memory,
}

impl From<AllocError> for Failure<'_> {
    ghost from_gives = { λ _ failure. failure ≡ OutOfMemory };

    fn from(_error: AllocError) -> Self {
        Failure::Memory
    }
}

impl<T: Drop> From<AllocFailed<T>> for Failure<'_> {
    ghost from_gives = { λ _ failure. failure ≡ OutOfMemory };

    fn from(_error: AllocFailed<T>) -> Self {
        Failure::Memory
    }
}

impl From<Memory> for Failure<'_> {
    ghost from_gives = { λ _ failure. failure ≡ OutOfMemory };

    fn from(_error: Memory) -> Self {
        Failure::Memory
    }
}

impl Failure<'_> {
    /// Returns the exit status of the failure.
    ///
    /// The exit status is:
    ///
    /// - 1 if the source is refused or the input is not UTF-8.
    /// - 2 if the arguments are invalid or name the input as the output.
    /// - 3 for any other failure.
    pub fn status(&self) -> u8
        ensures { result ≡ status_of self.now }
    {
        match self {
            Failure::Refused(_) | Failure::NotUtf8 { .. } => 1,
            Failure::Misuse { .. } | Failure::UnknownOption { .. } | Failure::OwnOutput(_) => 2,
            _ => 3,
        }
    }

    /// Returns the failure for an error of reading the file at `path`: `Read`, `NotText` or
    /// `Memory`.
    pub fn of_reading<'w>(path: &'w str, error: FileError) -> Failure<'w>
        ensures failure { IsReadingFailure path.now error result }
        ensures unread { IsUnread path.now result }
        ensures status { status_of result ≡ 3 }
    {
        match error {
            FileError::Failed(reason) => Failure::Read(path, reason),
            FileError::NotText { valid_up_to } => Failure::NotText { path, valid_up_to },
            FileError::Memory => Failure::Memory,
        }
    }

    /// Returns the failure for an error of writing the file at `path`: `Write` if the error has a
    /// reason, otherwise `Memory`.
    pub fn of_writing<'w>(path: &'w str, error: FileError) -> Failure<'w>
        ensures failure { IsWritingFailure path.now error result }
        ensures unwritten { IsUnwritten path.now result }
        ensures status { status_of result ≡ 3 }
    {
        match error {
            FileError::Failed(reason) => Failure::Write(path, reason),
            _ => Failure::Memory,
        }
    }

    /// Returns the failure for an error of writing to standard output: `Closed` if the reader has
    /// closed the output, otherwise `Output`.
    pub fn of_output(error: &io::Error) -> Failure<'static>
        ensures closed { error_kind error.now ≡ ErrorKind.BrokenPipe → result ≡ Closed }
        ensures other { error_kind error.now ≢ ErrorKind.BrokenPipe → result ≡ Output }
        ensures failure { IsOutputFailure result }
        ensures status { status_of result ≡ 3 }
    {
        output_failure(error.kind())
    }
}

/// Returns the failure for an error of the kind `kind` in writing to standard output: `Closed` for
/// `BrokenPipe`, otherwise `Output`.
fn output_failure(kind: ErrorKind) -> Failure<'static>
    ensures closed { kind ≡ ErrorKind.BrokenPipe → result ≡ Closed }
    ensures other { kind ≢ ErrorKind.BrokenPipe → result ≡ Output }
    ensures failure { IsOutputFailure result }
    ensures status { status_of result ≡ 3 }
{
    match kind {
        ErrorKind::BrokenPipe => Failure::Closed,
        _ => Failure::Output,
    }
}
