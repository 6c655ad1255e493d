//! Writes the messages of failures, with the reasons that the system reports. Used by `logos_cli`
//! and `logos_show`.

ghost use Rattle.std.specs.Prelude.{◌++◌, OnOk, codes, decimal};
ghost use Rattle.logos_host.specs.Views.{Appends, hint_line, message_of, misuse_line, path_line, shown_char, shown_text};

use crate::failure::Failure;
use logos_page::occur_in;
use std::io;
use std::io::Write;

/// Writes the message of a failure to `err`, and flushes the writer. The message for invalid
/// arguments and unknown options ends with `usage`. The message for `Closed` is empty.
///
/// # Errors
///
/// Returns the error of the writer. Then a part of the message may have been written.
pub fn report<E: Write>(failure: &Failure<'_>, usage: &str, err: &mut E) -> io::Result<()>
    ensures { OnOk result (Appends (E.contents err.old) (E.contents err.new)
        (message_of usage.now failure.now)) }
{
    write_message(failure, usage, err)?;
    err.flush()
}

/// Writes the message of a failure. For invalid arguments and unknown options, the message ends
/// with `usage`.
fn write_message<E: Write>(failure: &Failure<'_>, usage: &str, err: &mut E) -> io::Result<()>
    ensures { OnOk result (Appends (E.contents err.old) (E.contents err.new)
        (message_of usage.now failure.now)) }
{
    match failure {
        Failure::Misuse { what, word } => write_misuse(what, word, usage, err),
        Failure::UnknownOption { word, nearest } => write_unknown(word, nearest, usage, err),
        Failure::OwnOutput(path) => write_path(
            "error: ",
            path,
            " is the input and the output",
            err,
        ),
        Failure::Refused(text) => err.write_all(text.as_bytes()),
        Failure::NotUtf8 { valid_up_to } => {
            writeln!(err, "error: the input is not UTF-8 at byte {valid_up_to}")
        }
        Failure::NotText { path, valid_up_to } => write_not_text(path, *valid_up_to, err),
        Failure::Read(path, reason) => {
            write_path("error: cannot read ", path, reason.text(), err)
        }
        Failure::Write(path, reason) => {
            write_path("error: cannot write ", path, reason.text(), err)
        }
        Failure::Output => err.write_all(b"error: cannot write standard output\n"),
        Failure::Closed => err.write_all(b""),
        Failure::Memory => writeln!(err, "error: out of memory"),
    }
}

/// Writes the message that the file at `path` is not UTF-8. `valid_up_to` is the length in bytes of
/// the longest UTF-8 prefix of the file.
fn write_not_text<E: Write>(path: &str, valid_up_to: usize, err: &mut E) -> io::Result<()>
    ensures { OnOk result (Appends (E.contents err.old) (E.contents err.new)
        (codes "error: cannot read " ++ (shown_text path.now
        ++ (codes ": it is not UTF-8 at byte " ++ (decimal valid_up_to ++ codes "\n"))))) }
{
    err.write_all(b"error: cannot read ")?;
    write_shown(path, err)?;
    writeln!(err, ": it is not UTF-8 at byte {valid_up_to}")
}

/// Writes a line with `path` between the texts `before` and `after`.
fn write_path<E: Write>(before: &str, path: &str, after: &str, err: &mut E) -> io::Result<()>
    ensures { OnOk result (Appends (E.contents err.old) (E.contents err.new)
        (path_line before.now path.now after.now)) }
{
    err.write_all(before.as_bytes())?;
    write_shown(path, err)?;
    writeln!(err, "{after}")
}

/// Writes a text in a form that cannot control a terminal.
fn write_shown<E: Write>(text: &str, err: &mut E) -> io::Result<()>
    ensures { OnOk result (Appends (E.contents err.old) (E.contents err.new)
        (shown_text text.now)) }
{
    for character in text.chars() {
        write_shown_char(character, err)?;
    }
    Ok(())
}

/// Writes a character in a form that cannot control a terminal. The form of a tab is four spaces.
/// The form of any other character is the character that `occur_in` returns.
fn write_shown_char<E: Write>(character: char, err: &mut E) -> io::Result<()>
    ensures { OnOk result (Appends (E.contents err.old) (E.contents err.new)
        (shown_char character)) }
{
    if character == '\t' {
        return err.write_all(b"    ");
    }
    let shown = occur_in(character);
    write!(err, "{shown}")
}

/// Writes a line with the reason why the arguments are invalid, followed by the usage.
fn write_misuse<E: Write>(what: &str, word: &str, usage: &str, err: &mut E) -> io::Result<()>
    ensures { OnOk result (Appends (E.contents err.old) (E.contents err.new)
        (misuse_line what.now word.now ++ usage.now)) }
{
    write_misuse_line(what, word, err)?;
    err.write_all(usage.as_bytes())
}

/// Writes a line with the reason why the arguments are invalid. `what` is the reason. The line ends
/// with the invalid argument `word` unless `word` is empty.
fn write_misuse_line<E: Write>(what: &str, word: &str, err: &mut E) -> io::Result<()>
    ensures { OnOk result (Appends (E.contents err.old) (E.contents err.new)
        (misuse_line what.now word.now)) }
{
    if word.is_empty() {
        return writeln!(err, "error: {what}");
    }
    write!(err, "error: {what} `")?;
    write_shown(word, err)?;
    writeln!(err, "`")
}

/// Writes the message for the unknown option `word`, followed by the usage. Before the usage, a
/// line suggests the option `nearest` unless `nearest` is empty.
fn write_unknown<E: Write>(word: &str, nearest: &str, usage: &str, err: &mut E) -> io::Result<()>
    ensures { OnOk result (Appends (E.contents err.old) (E.contents err.new)
        (misuse_line (codes "unknown option") word.now ++ (hint_line nearest.now ++ usage.now))) }
{
    write_misuse_line("unknown option", word, err)?;
    write_hint(nearest, err)?;
    err.write_all(usage.as_bytes())
}

/// Writes a line that suggests the option `nearest`, or nothing if `nearest` is empty.
fn write_hint<E: Write>(nearest: &str, err: &mut E) -> io::Result<()>
    ensures { OnOk result (Appends (E.contents err.old) (E.contents err.new)
        (hint_line nearest.now)) }
{
    if nearest.is_empty() {
        return err.write_all(b"");
    }
    writeln!(err, "help: is `{nearest}` meant?")
}
