//! Writes the messages of failures for `logos`, without the reasons that the system reports. Used
//! by `logos_commands`.

ghost use Rattle.std.specs.Prelude.{◌++◌, OnOk, codes};
ghost use Rattle.logos_host.specs.Views.{Appends, plain_message_of};

use crate::failure::Failure;
use std::io;
use std::io::Write;

/// Writes the plain message of a failure to `err`, and flushes the writer. The message is `usage`
/// if the arguments are invalid, an option is unknown, or the output is the input.
///
/// # Errors
///
/// Returns the error of the writer. Then a part of the message may have been written.
pub fn report_plainly<E: Write>(failure: &Failure<'_>, usage: &str, err: &mut E) -> io::Result<()>
    ensures { OnOk result (Appends (E.contents err.old) (E.contents err.new)
        (plain_message_of usage.now failure.now)) }
{
    write_plainly(failure, usage, err)?;
    err.flush()
}

/// Writes the plain message of a failure.
fn write_plainly<E: Write>(failure: &Failure<'_>, usage: &str, err: &mut E) -> io::Result<()>
    ensures { OnOk result (Appends (E.contents err.old) (E.contents err.new)
        (plain_message_of usage.now failure.now)) }
{
    match failure {
        Failure::Misuse { .. } => err.write_all(usage.as_bytes()),
        Failure::UnknownOption { .. } => err.write_all(usage.as_bytes()),
        Failure::OwnOutput(_) => err.write_all(usage.as_bytes()),
        Failure::Refused(text) => err.write_all(text.as_bytes()),
        Failure::NotUtf8 { valid_up_to } => writeln!(err, "NotUtf8 {valid_up_to}"),
        Failure::NotText { path, .. } => write_unread(path, err),
        Failure::Read(path, _) => write_unread(path, err),
        Failure::Write(path, _) => writeln!(err, "cannot write {path}"),
        Failure::Output => err.write_all(b"cannot write standard output\n"),
        Failure::Closed => err.write_all(b"cannot write standard output\n"),
        Failure::Memory => err.write_all(b"out of memory\n"),
    }
}

/// Writes the message that the file at `path` cannot be read.
fn write_unread<E: Write>(path: &str, err: &mut E) -> io::Result<()>
    ensures { OnOk result (Appends (E.contents err.old) (E.contents err.new)
        (codes "cannot read " ++ (path.now ++ codes "\n"))) }
{
    writeln!(err, "cannot read {path}")
}
