//! Runs the program, from its arguments to its exit status. Called by `run_logos_cli`, `batch` and
//! build scripts.

ghost use Rattle.std.specs.Prelude.{◌≡◌, ◌≢◌, ◌≤◌, ◌++◌, ◌⊎◌, None, Some, MatchOption, false, true, IfErr, IfOk, IfSome, OnOk, ℕ, List, IsTrue, map, string_bytes};
ghost use Rattle.logos_cli.specs.Views.{Appends, Keeps, status_of, message_of, Reads, requested, order_value, request_value, IsCarriedOut, IsDelivered, IsDenied, IsDeniedOrder, IsDone, IsApart, IsHarmless, IsOwnOutput, IsSettled, IsTouched, MayWrite, IsExpanded, FailsBy, IsRefusedFor, IsOther};

use crate::batch::run_batch;
use crate::difference::{StaleFile, difference};
use crate::options::{ExpandOrder, Request, request_of};
use logos_expand::{Expansion, expand};
use logos_file_warnings::Showing;
use logos_host::{
    ComparableFiles, Failure, Occurrence, print_bytes, read_text, report, write_file, write_through,
};
use logos_options::{HelpText, Program, print_help, print_version, with_nearest};
use logos_report::Source;
use std::alloc::{AllocError, Global};
use std::io::{IsTerminal, Write};

pub(crate) const USAGE: &str = "\
usage: logos_cli INPUT [-o FILE] [-c] [--shape tables|tailcall|state_machine]
                 [--color always|never|auto]
       logos_cli INPUT.. -o FOLDER/ [-c] [--shape SHAPE] [--color WHEN]
";

const HELP: HelpText = HelpText {
    front: "\
logos_cli: a Rust file with the derive of `Logos` expanded

usage: logos_cli INPUT.. [OPTIONS]

Prints the file INPUT with each enum that derives `Logos` replaced by the enum
without what belongs to the derive, and by the implementation. All other text
stays as it is. INPUT may be `-`, which is standard input.

options:
",
    end: "      --             what follows is INPUT, even if it begins with `-`
",
};

const VERSION: &str = "logos_cli 0.1.0 (for logos 0.16)\n";

/// The result of a run of the program.
#[derive(Clone, Copy)]
pub(crate) struct Ending {
    /// The exit status.
    pub(crate) status: u8,
    /// Whether all messages were written to standard error.
    pub(crate) is_written: bool,
}

/// Runs the program with its arguments, and returns the exit status of `run`. If the arguments
/// cannot be read, writes the message of this failure and returns the exit status of the failure.
pub(crate) fn run_with<F: ComparableFiles, O: Write, E: Write + IsTerminal>(
    alloc: Global,
    arguments: Result<Vec<String>, Failure<'static>>,
    files: &mut F,
    out: &mut O,
    err: &mut E,
) -> u8
    requires { IfErr arguments (λ failure. (status_of failure ≡ 2) ⊎ (status_of failure ≡ 3)) }
    ensures usage { IfOk arguments.entry (λ passed.
        requested (map string_bytes passed.items) ≡ None → result ≡ 2) }
    ensures misuse { IfOk arguments.entry (λ passed. result ≡ 2 →
        (requested (map string_bytes passed.items) ≡ None)
        ⊎ IfSome (requested (map string_bytes passed.items))
        (λ order. IsOwnOutput F.same_finds order files.old)) }
    ensures apart { IfOk arguments.entry (λ passed. result ≡ 0 →
        IfSome (requested (map string_bytes passed.items))
        (λ order. IsApart F.same_finds order files.old)) }
    ensures untouched { result ≡ 2 →
        (files.new ≡ files.old) × Keeps (O.contents out.old) (O.contents out.new) }
    ensures touched { IfOk arguments.entry (λ passed. IfSome (requested (map string_bytes passed.items))
        (λ order. IsHarmless F.read_ends F.write_ends F.same_finds order files.old files.new)) }
    ensures done { IfOk arguments.entry (λ passed. result ≡ 0 →
        IfSome (requested (map string_bytes passed.items))
        (λ order. IsDone F.read_yields F.write_makes F.compare_finds order files.old files.new
        (O.contents out.old) (O.contents out.new))) }
    ensures denied { IfOk arguments.entry (λ passed. result ≡ 1 →
        IfSome (requested (map string_bytes passed.items)) (λ order. (shown : List ℕ)
        × IsDenied F.read_yields F.write_makes F.compare_finds order files.old files.new shown)) }
    ensures silent { result ≡ 1 → Keeps (O.contents out.old) (O.contents out.new) }
    ensures unread { IfErr arguments.entry (λ failure. result ≡ status_of failure) }
    ensures known { result ≤ 3 }
{
    match arguments {
        Ok(passed) => run(alloc, passed.as_slice(), files, out, err).status,
        Err(failure) => failed(&failure, err).status,
    }
}

/// Runs the program. Messages are written to standard error.
///
/// The exit status is:
///
/// - 0 if the request is fulfilled.
/// - 1 if the request is refused.
/// - 2 if the arguments are invalid, or if a result would overwrite an input or another result.
/// - 3 if a file cannot be read or written, or if memory runs out.
pub(crate) fn run<F: ComparableFiles, O: Write, E: Write + IsTerminal>(
    alloc: Global,
    arguments: &[String],
    files: &mut F,
    out: &mut O,
    err: &mut E,
) -> Ending
    ensures usage { requested (map string_bytes arguments.now) ≡ None → result.status ≡ 2 }
    ensures misuse { result.status ≡ 2 → (requested (map string_bytes arguments.now) ≡ None)
        ⊎ IfSome (requested (map string_bytes arguments.now)) (λ order. IsOwnOutput F.same_finds order files.old) }
    // The output is not the input.
    ensures apart { result.status ≡ 0 → IfSome (requested (map string_bytes arguments.now))
        (λ order. IsApart F.same_finds order files.old) }
    // No file was read or written, and nothing was printed.
    ensures untouched { result.status ≡ 2 →
        (files.new ≡ files.old) × Keeps (O.contents out.old) (O.contents out.new) }
    // Only files for results were written, and none of them is an input, whatever the status.
    ensures touched { IfSome (requested (map string_bytes arguments.now))
        (λ order. IsHarmless F.read_ends F.write_ends F.same_finds order files.old files.new) }
    // The request is fulfilled, and the result was written entirely.
    ensures done { result.status ≡ 0 → IfSome (requested (map string_bytes arguments.now))
        (λ order. IsDone F.read_yields F.write_makes F.compare_finds order files.old files.new
        (O.contents out.old) (O.contents out.new)) }
    // The request is refused: a lexer of the file has faults, or a file that is only compared
    // differs from the result. The text with the reason is the last that was written to standard
    // error, and nothing was printed or written.
    ensures denied { result.status ≡ 1 → IfSome (requested (map string_bytes arguments.now))
        (λ order. (shown : List ℕ) × IsDenied F.read_yields F.write_makes F.compare_finds order
        files.old files.new shown × (IsTrue result.is_written → (front : List ℕ)
        × Appends (E.contents err.old) (E.contents err.new) (front ++ shown))) }
    ensures silent { result.status ≡ 1 → Keeps (O.contents out.old) (O.contents out.new) }
    ensures known { result.status ≤ 3 }
{
    match request_of(arguments) {
        Ok(Request::Help) => ended(print_help(Program::Cli, HELP, out), err),
        Ok(Request::Version) => ended(print_version(VERSION, files, out), err),
        Ok(Request::Expand(order)) => run_order(alloc, order, files, out, err),
        Ok(Request::ExpandEach(batch)) => run_batch(alloc, batch, files, out, err),
        Err(failure) => failed(&with_nearest(failure, Program::Cli), err),
    }
}

/// Returns the ending of a request that has no warnings. If the request failed, writes the message
/// of the failure to standard error.
fn ended<E: Write>(done: Result<(), Failure<'_>>, err: &mut E) -> Ending
    requires { IfErr done (λ failure. status_of failure ≡ 3) }
    ensures { (result.status ≡ 3) ⊎ (result.status ≡ 0) }
{
    match done {
        Ok(()) => Ending {
            status: 0,
            is_written: true,
        },
        Err(failure) => failed(&failure, err),
    }
}

/// Writes the message of a failure to standard error, and returns the ending of the program.
pub(crate) fn failed<E: Write>(failure: &Failure<'_>, err: &mut E) -> Ending
    ensures status { result.status ≡ status_of failure.now }
    ensures written { IsTrue result.is_written → (usage : List ℕ) × Appends (E.contents err.old)
        (E.contents err.new) (message_of usage failure.now) }
{
    Ending {
        status: failure.status(),
        is_written: report(failure, USAGE, err).is_ok(),
    }
}

/// Expands the file of an order and delivers the result. If the output is the input, reads and
/// writes no file, and returns the exit status 2.
fn run_order<F: ComparableFiles, O: Write, E: Write + IsTerminal>(
    alloc: Global,
    order: ExpandOrder<'_>,
    files: &mut F,
    out: &mut O,
    err: &mut E,
) -> Ending
    ensures own { result.status ≡ 2 → IfSome (order_value order.entry).output
        (λ path. F.same_finds files.old (order_value order.entry).input path true) }
    ensures apart { result.status ≡ 0 → IfSome (order_value order.entry).output
        (λ path. F.same_finds files.old (order_value order.entry).input path false) }
    ensures untouched { result.status ≡ 2 →
        (files.new ≡ files.old) × Keeps (O.contents out.old) (O.contents out.new) }
    ensures touched { (files.new ≡ files.old) ⊎ (IfSome (order_value order.entry).output
        (λ path. F.same_finds files.old (order_value order.entry).input path false)
        × IsTouched F.read_ends F.write_ends (order_value order.entry) files.old files.new) }
    ensures done { result.status ≡ 0 → IsCarriedOut F.read_yields F.write_makes F.compare_finds
        (order_value order.entry) files.old files.new (O.contents out.old) (O.contents out.new) }
    ensures denied { result.status ≡ 1 → (shown : List ℕ) × IsDeniedOrder F.read_yields F.write_makes
        F.compare_finds (order_value order.entry) files.old files.new shown
        × (IsTrue result.is_written → (front : List ℕ)
        × Appends (E.contents err.old) (E.contents err.new) (front ++ shown)) }
    ensures silent { result.status ≡ 1 → Keeps (O.contents out.old) (O.contents out.new) }
    ensures known { result.status ≤ 3 }
{
    if let Some(path) = own_output(order, files) {
        return failed(&Failure::OwnOutput(path), err);
    }
    carry_out(alloc, order, files, out, err)
}

/// Expands the file of an order and delivers the result, even if the output is the input. Writes
/// warnings and the message of a failure to standard error.
pub(crate) fn carry_out<F: ComparableFiles, O: Write, E: Write + IsTerminal>(
    alloc: Global,
    order: ExpandOrder<'_>,
    files: &mut F,
    out: &mut O,
    err: &mut E,
) -> Ending
    ensures done { result.status ≡ 0 → IsCarriedOut F.read_yields F.write_makes F.compare_finds
        (order_value order.entry) files.old files.new (O.contents out.old) (O.contents out.new) }
    ensures denied { result.status ≡ 1 → (shown : List ℕ) × IsDeniedOrder F.read_yields F.write_makes
        F.compare_finds (order_value order.entry) files.old files.new shown
        × (IsTrue result.is_written → (front : List ℕ)
        × Appends (E.contents err.old) (E.contents err.new) (front ++ shown)) }
    ensures silent { result.status ≡ 1 → Keeps (O.contents out.old) (O.contents out.new) }
    ensures messages { IsTrue result.is_written → (text : List ℕ)
        × Appends (E.contents err.old) (E.contents err.new) text }
    ensures touched { IsTouched F.read_ends F.write_ends (order_value order.entry) files.old files.new }
    ensures known { (result.status ≤ 3) × (result.status ≢ 2) }
{
    let is_colored = order.color.is_on(err.is_terminal());
    match expansion_of(alloc, order, is_colored, files) {
        Ok(expansion) => deliver_and_end(alloc, order, &expansion, files, out, err),
        Err(failure) => failed(&failure, err),
    }
}

/// Returns the path of the output file if this path leads to the input, and `None` otherwise.
fn own_output<'w, F: ComparableFiles>(order: ExpandOrder<'w>, files: &F) -> Option<&'w str>
    ensures { MatchOption result
        (IfSome (order_value order.entry).output
        (λ path. F.same_finds files.now (order_value order.entry).input path false))
        (λ found. IfSome (order_value order.entry).output
        (λ path. F.same_finds files.now (order_value order.entry).input path true)) }
{
    match order.output {
        Some(path) if files.is_same_file(order.input, path) => Some(path),
        _ => None,
    }
}

/// Reads the file of an order, and returns the expansion of the file. `is_colored` is `true` if
/// messages have colors.
fn expansion_of<'w, F: ComparableFiles>(
    alloc: Global,
    order: ExpandOrder<'w>,
    is_colored: bool,
    files: &mut F,
) -> Result<Expansion, Failure<'w>>
    ensures done { IfOk result (λ made. Reads F.read_yields files.old (order_value order.entry).input
        (λ text read. (files.new ≡ read)
        × IsExpanded (order_value order.entry).shape (order_value order.entry).input text
        made.bytes.items)) }
    ensures denied { IfErr result (FailsBy (IsRefusedFor (IsDeniedOrder F.read_yields F.write_makes
        F.compare_finds (order_value order.entry) files.old files.new))) }
    ensures ends { F.read_ends files.old files.new }
{
    let text = match read_text(order.input, files) {
        Ok(text) => text,
        Err(failure) => return Err(failure),
    };
    let source = match Source::new(alloc, order.input, text.as_str()) {
        Ok(source) => source,
        Err(AllocError) => return Err(Failure::Memory),
    };
    let showing = Showing {
        alloc,
        format: order.format,
        is_colored,
        denies: order.denies,
    };
    expand(&source, order.shape, showing)
}

/// Writes the warnings of an expansion, delivers its result, and returns the ending of the program.
/// If the delivery fails, writes the message of the failure after the warnings.
fn deliver_and_end<F: ComparableFiles, O: Write, E: Write>(
    alloc: Global,
    order: ExpandOrder<'_>,
    expansion: &Expansion,
    files: &mut F,
    out: &mut O,
    err: &mut E,
) -> Ending
    ensures done { result.status ≡ 0 → IsDelivered F.read_yields F.write_makes F.compare_finds
        (order_value order.entry) (order_value order.entry).output expansion.now.bytes.items files.old
        files.new (O.contents out.old) (O.contents out.new) }
    ensures denied { result.status ≡ 1 → (shown : List ℕ) × IsTrue (order_value order.entry).is_check
        × IfSome (order_value order.entry).output (λ path. IsOther F.compare_finds path
        expansion.now.bytes.items files.old files.new) × (IsTrue result.is_written → (front : List ℕ)
        × Appends (E.contents err.old) (E.contents err.new) (front ++ shown)) }
    ensures silent { result.status ≡ 1 → Keeps (O.contents out.old) (O.contents out.new) }
    ensures messages { IsTrue result.is_written → (text : List ℕ)
        × Appends (E.contents err.old) (E.contents err.new) text }
    ensures touched { MayWrite F.read_ends F.write_ends (order_value order.entry).output files.old files.new }
    ensures known { (result.status ≤ 3) × (result.status ≢ 2) }
{
    let is_warned = warn(&expansion.warnings, err);
    match deliver(alloc, order, &expansion.bytes, files, out) {
        Ok(()) => Ending {
            status: 0,
            is_written: is_warned,
        },
        Err(failure) => failed_after(is_warned, &failure, err),
    }
}

/// Writes the message of a failure that followed warnings, and returns the ending of the program.
/// `is_warned` is `true` if all warnings were written to standard error.
fn failed_after<E: Write>(is_warned: bool, failure: &Failure<'_>, err: &mut E) -> Ending
    ensures status { result.status ≡ status_of failure.now }
    ensures written { IsTrue result.is_written → IsTrue is_warned × ((usage : List ℕ)
        × Appends (E.contents err.old) (E.contents err.new) (message_of usage failure.now)) }
{
    let ending = failed(failure, err);
    Ending {
        status: ending.status,
        is_written: is_warned & ending.is_written,
    }
}

/// Writes the text of the warnings of a file to standard error. Returns whether the whole text was
/// written, or `true` if the text is empty.
fn warn<E: Write>(warnings: &[u8], err: &mut E) -> bool
    ensures { IsTrue result → (text : List ℕ)
        × Appends (E.contents err.old) (E.contents err.new) text }
{
    if warnings.is_empty() {
        return true;
    }
    write_through(warnings, err).is_ok()
}

/// Writes the result `bytes` to the output file of an order, or to standard output if the order
/// names no output file. With `--check`, only compares the file with the result.
fn deliver<'w, F: ComparableFiles, O: Write>(
    alloc: Global,
    order: ExpandOrder<'w>,
    bytes: &[u8],
    files: &mut F,
    out: &mut O,
) -> Result<(), Failure<'w>>
    ensures done { OnOk result (IsDelivered F.read_yields F.write_makes F.compare_finds
        (order_value order.entry) (order_value order.entry).output bytes.now files.old files.new
        (O.contents out.old) (O.contents out.new)) }
    ensures denied { IfErr result (FailsBy (IsRefusedFor (λ shown.
        IsTrue (order_value order.entry).is_check × IfSome (order_value order.entry).output
        (λ path. IsOther F.compare_finds path bytes.now files.old files.new)))) }
    ensures silent { IfErr result (λ failure. status_of failure ≡ 1 →
        Keeps (O.contents out.old) (O.contents out.new)) }
    ensures touched { MayWrite F.read_ends F.write_ends (order_value order.entry).output files.old files.new }
{
    match order.output {
        None => print_bytes(bytes, out),
        Some(path) => settle(alloc, order, path, bytes, files),
    }
}

/// Writes `bytes` to the file at `path`, unless the file already contains these bytes. With
/// `--check`, writes nothing, and returns the failure of `difference` if the file does not contain
/// these bytes.
fn settle<'w, F: ComparableFiles>(
    alloc: Global,
    order: ExpandOrder<'w>,
    path: &'w str,
    bytes: &[u8],
    files: &mut F,
) -> Result<(), Failure<'w>>
    ensures done { OnOk result (IsSettled F.read_yields F.write_makes F.compare_finds
        (order_value order.entry) path.now bytes.now files.old files.new) }
    ensures denied { IfErr result (FailsBy (IsRefusedFor (λ shown.
        IsTrue (order_value order.entry).is_check
        × IsOther F.compare_finds path.now bytes.now files.old files.new))) }
    ensures touched { MayWrite F.read_ends F.write_ends (Some path.now) files.old files.new }
{
    let occurrence = match files.compare(path, bytes) {
        Ok(occurrence) => occurrence,
        Err(AllocError) => return Err(Failure::Memory),
    };
    if matches!(occurrence, Occurrence::Same) {
        return Ok(());
    }
    if order.is_check {
        let stale = StaleFile {
            input: order.input,
            path,
            shape: order.shape,
            occurrence,
            made: bytes,
        };
        return Err(difference(alloc, &stale, files));
    }
    write_file(path, bytes, files)
}
