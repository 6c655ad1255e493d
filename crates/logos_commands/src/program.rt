//! Defines `run`, which runs the program `logos` with its arguments and returns the exit status.
//! Used by `logos_program`.

ghost use Rattle.std.specs.Prelude.{◌≡◌, ◌≢◌, ◌≤◌, ◌⊎◌, ◌↔◌, None, map, string_bytes, IfErr, IfOk, IfSome, OnOk};
ghost use Rattle.logos_commands.specs.Views.{Appends, Carries, Failure as Why, HasEffect, IsDenied, IsDone, IsLeft, IsPartOf, IsTouched, Keeps, ReadsSource, RefusesLexer, RefusesStripping, Touches, WritesFor, requested, effect_of, status_of};

use crate::command::{Command, command_of};
use crate::item_lines::lex;
use crate::outcome::{CommandOutcome, Requested, of_file, stripped};
use logos_host::{Failure, Files, print_bytes, report_plainly, write_file};
use std::alloc::Global;
use std::io::Write;

const USAGE: &str = "usage: logos gen|lex|strip|mermaid|export FILE ..\n";

/// Runs the program with `arguments`, and returns the exit status of `run`. If the arguments could
/// not be read, writes the message of the failure to `err` and returns the failure's exit status.
pub fn run_with<F: Files, O: Write, E: Write>(
    alloc: Global,
    arguments: Result<Vec<String>, Failure<'static>>,
    files: &mut F,
    out: &mut O,
    err: &mut E,
) -> u8
    requires { IfErr arguments (λ failure. (status_of failure ≡ 2) ⊎ (status_of failure ≡ 3)) }
    ensures usage { IfOk arguments.entry (λ passed.
        (result ≡ 2) ↔ (requested (map string_bytes passed.items) ≡ None)) }
    ensures done { IfOk arguments.entry (λ passed. result ≡ 0 →
        IfSome (requested (map string_bytes passed.items))
        (λ command. IsDone F.read_yields F.write_makes command files.old files.new
        (O.contents out.old) (O.contents out.new))) }
    ensures denied { IfOk arguments.entry (λ passed. result ≡ 1 →
        IfSome (requested (map string_bytes passed.items))
        (λ command. (failure : Why) × IsDenied F.read_yields command files.old files.new failure)) }
    ensures silent { result ≡ 1 → Keeps (O.contents out.old) (O.contents out.new) }
    ensures untouched { result ≡ 2 →
        (files.new ≡ files.old) × Keeps (O.contents out.old) (O.contents out.new) }
    ensures touched { IfOk arguments.entry (λ passed. IfSome (requested (map string_bytes passed.items))
        (λ command. Touches F.read_yields F.read_ends F.write_ends command files.old files.new)) }
    ensures unread { IfErr arguments.entry (λ failure. result ≡ status_of failure) }
    ensures known { result ≤ 3 }
{
    match arguments {
        Ok(passed) => run(alloc, passed.as_slice(), files, out, err),
        Err(failure) => failed(&failure, err),
    }
}

/// Runs the command in `arguments`, and returns the exit status.
///
/// The exit status is:
///
/// - 0 if the command was carried out,
/// - 1 if the source, the input or the export path was refused,
/// - 2 if the arguments are not a command,
/// - 3 if a file, the output or memory failed.
///
/// If the exit status is not 0, a message is written to `err`. Nothing is then written to `out`,
/// unless writing to `out` fails.
pub fn run<F: Files, O: Write, E: Write>(
    alloc: Global,
    arguments: &[String],
    files: &mut F,
    out: &mut O,
    err: &mut E,
) -> u8
    ensures usage { (result ≡ 2) ↔ (requested (map string_bytes arguments.now) ≡ None) }
    // At exit status 0 the source in the files is accepted, and the output of the command was
    // printed or written entirely.
    ensures done { result ≡ 0 → IfSome (requested (map string_bytes arguments.now))
        (λ command. IsDone F.read_yields F.write_makes command files.old files.new
        (O.contents out.old) (O.contents out.new)) }
    // At exit status 1 a source or an input in the files is refused, or the path of a diagram.
    // Nothing was written.
    ensures denied { result ≡ 1 → IfSome (requested (map string_bytes arguments.now))
        (λ command. (failure : Why) × IsDenied F.read_yields command files.old files.new failure) }
    ensures silent { result ≡ 1 → Keeps (O.contents out.old) (O.contents out.new) }
    // At exit status 2 no file was read or written, and nothing was printed.
    ensures untouched { result ≡ 2 →
        (files.new ≡ files.old) × Keeps (O.contents out.old) (O.contents out.new) }
    // At any exit status only the file of `export` was written, and only after its source was read.
    ensures touched { IfSome (requested (map string_bytes arguments.now))
        (λ command. Touches F.read_yields F.read_ends F.write_ends command files.old files.new) }
    ensures known { result ≤ 3 }
{
    let Some(command) = command_of(arguments) else {
        return failed(&NO_COMMAND, err);
    };
    match command {
        Command::Items(request) => match lex(alloc, request, files, out) {
            Ok(()) => 0,
            Err(failure) => failed(&failure, err),
        },
        Command::Text { file, config } => {
            run_part(alloc, (file, Requested::Text(config)), files, out, err)
        }
        Command::Diagram { file } => run_part(alloc, (file, Requested::Diagram), files, out, err),
        Command::Export { file } => run_part(alloc, (file, Requested::Export), files, out, err),
        Command::Strip { file } => run_strip(alloc, file, files, out, err),
    }
}

/// The failure for arguments that are not a command.
const NO_COMMAND: Failure<'static> = Failure::Misuse {
    what: "no command",
    word: "",
};

/// Writes the requested part of a lexer to `out` or to a file, and returns the exit status.
/// `request` consists of the path of the source and the requested part.
fn run_part<F: Files, O: Write, E: Write>(
    alloc: Global,
    request: (&str, Requested),
    files: &mut F,
    out: &mut O,
    err: &mut E,
) -> u8
    ensures done { result ≡ 0 → Carries F.read_yields F.write_makes request.entry.0.now files.old files.new
        (O.contents out.old) (O.contents out.new) (IsPartOf request.entry.1) }
    ensures denied { result ≡ 1 → (failure : Why) × ReadsSource F.read_yields request.entry.0.now files.old
        files.new (λ source. RefusesLexer source request.entry.1 failure) }
    ensures touched { IsTouched F.read_yields F.read_ends F.write_ends request.entry.0.now files.old files.new
        (IsPartOf request.entry.1) }
    ensures silent { result ≡ 1 → Keeps (O.contents out.old) (O.contents out.new) }
    ensures known { (result ≤ 3) × (result ≢ 2) }
{
    match of_file(alloc, request.0, request.1, files) {
        Ok(outcome) => run_outcome(&outcome, files, out, err),
        Err(failure) => failed(&failure, err),
    }
}

/// Writes the enum in the file `file` without the attributes of the derive macro to `out`, and
/// returns the exit status.
fn run_strip<F: Files, O: Write, E: Write>(
    alloc: Global,
    file: &str,
    files: &mut F,
    out: &mut O,
    err: &mut E,
) -> u8
    ensures done { result ≡ 0 → Carries F.read_yields F.write_makes file.now files.old files.new
        (O.contents out.old) (O.contents out.new) IsLeft }
    ensures denied { result ≡ 1 → (failure : Why) × ReadsSource F.read_yields file.now files.old
        files.new (λ source. RefusesStripping source failure) }
    ensures touched { IsTouched F.read_yields F.read_ends F.write_ends file.now files.old files.new IsLeft }
    ensures silent { result ≡ 1 → Keeps (O.contents out.old) (O.contents out.new) }
    ensures known { (result ≤ 3) × (result ≢ 2) }
{
    match stripped(alloc, file, files) {
        Ok(outcome) => run_outcome(&outcome, files, out, err),
        Err(failure) => failed(&failure, err),
    }
}

/// Writes an outcome to `out` or to its file, and returns the exit status.
fn run_outcome<F: Files, O: Write, E: Write>(
    outcome: &CommandOutcome,
    files: &mut F,
    out: &mut O,
    err: &mut E,
) -> u8
    ensures done { result ≡ 0 → HasEffect F.write_makes (effect_of outcome.now) files.old files.new
        (O.contents out.old) (O.contents out.new) }
    ensures touched { WritesFor F.write_ends (effect_of outcome.now) files.old files.new }
    ensures known { (result ≡ 0) ⊎ (result ≡ 3) }
{
    match deliver(outcome, files, out) {
        Ok(()) => 0,
        Err(failure) => failed(&failure, err),
    }
}

/// Writes an outcome to `out` or to its file, or returns the failure to write it.
fn deliver<'o, F: Files, O: Write>(
    outcome: &'o CommandOutcome,
    files: &mut F,
    out: &mut O,
) -> Result<(), Failure<'o>>
    ensures done { OnOk result (HasEffect F.write_makes (effect_of outcome.now) files.old files.new
        (O.contents out.old) (O.contents out.new)) }
    ensures touched { WritesFor F.write_ends (effect_of outcome.now) files.old files.new }
    ensures failed { IfErr result (λ failure. status_of failure ≡ 3) }
{
    match outcome {
        CommandOutcome::Text(text) => print_bytes(text.as_bytes(), out),
        CommandOutcome::Diagram { path, text } => write_file(path.as_str(), text.as_bytes(), files),
    }
}

/// Writes the message of a failure to `err`, and returns the failure's exit status.
fn failed<E: Write>(failure: &Failure<'_>, err: &mut E) -> u8
    ensures { result ≡ status_of failure.now }
{
    let _ = report_plainly(failure, USAGE, err);
    failure.status()
}
