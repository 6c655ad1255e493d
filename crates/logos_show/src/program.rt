//! Runs `logos_show` with its arguments. `run_logos_show` calls `run_with`.

ghost use Rattle.std.specs.Prelude.{◌≡◌, ◌≤◌, ◌↔◌, ◌⊎◌, None, IfErr, IfOk, IfSome, map, string_bytes};
ghost use Rattle.logos_show.specs.Views.{Answers, AnswersAbout, AnswersOrExpects, Expects, IsFulfilled, IsNoMisuse, expected_in, is_json, order_value, question_value, request_value, requested, status_of};

use crate::choice::found_in;
use crate::comparison::compare;
use crate::diagrams::print_diagram;
use crate::inputs::yield_inputs;
use crate::items::lex;
use crate::matches::{FilePoint, show_matches};
use crate::page_files::{PageOrder, write_page};
use crate::pages::{PageStyle, Shown, shown_of};
use crate::refusals::write_note;
use crate::stream::lex_stream;
use logos_file_warnings::Showing;
use logos_host::{ComparableFiles, Failure, Files, print_bytes, read_bytes, read_text, report};
use logos_options::{
    HelpText, OptionName, Program, STANDARD_INPUT, path_by_word, print_help, print_version,
    with_nearest,
};
use logos_questions::{Question, RequestKind, ShowOrder, ShowRequest, request_of};
use logos_replies::{Agreement, Form, write_agreement};
use logos_report::Source;
use logos_screen::{PLAIN, Screen, allows_colors, push_fitted, screen_of};
use std::alloc::{AllocError, Global};
use std::env::Env;
use std::io::{Input as StandardInput, IsTerminal, Write};
use std::time::Clock;

pub(crate) const USAGE: &str = "\
usage: logos_show FILE [INPUT] [--enum NAME] [--color always|never|auto]
       logos_show FILE INPUT --at LINE:COLUMN
       logos_show FILE --examples
       logos_show FILE --inputs N
       logos_show OLD NEW --compare
       logos_show FILE [INPUT] --html PAGE
       logos_show FILE --mermaid
";

const HELP: HelpText = HelpText {
    front: "\
logos_show: the lexers of a Rust file, and the items of an input

usage: logos_show FILE [INPUT] [OPTIONS]

Without INPUT, prints the leaves of each enum in FILE that derives `Logos`, and
what its lexer costs, and warns about probable mistakes. With INPUT, prints a
line for each item of INPUT that the first of these enums finds, and at the end
how many items there were. Either may be `-`, which is standard input.

On a terminal, lines of tables and of items are cut to the number of columns in
the variable COLUMNS, if it is exported.

options:
",
    end: "      --            what follows are FILE and INPUT, even if they begin with `-`
",
};

const VERSION: &str = "logos_show 0.1.0 (for logos 0.16)\n";

/// Runs the program with its arguments, and returns the exit status of `run`. If the arguments
/// cannot be read, writes a message and returns the exit status of the failure.
pub(crate) fn run_with<
    F: ComparableFiles,
    C: Clock + StandardInput + Env,
    O: Write + IsTerminal,
    E: Write + IsTerminal,
>(
    alloc: Global,
    arguments: Result<Vec<String>, Failure<'static>>,
    files: &mut F,
    clock: &C,
    err: &mut E,
    out: &mut O,
) -> u8
    requires { IfErr arguments (λ failure. (status_of failure ≡ 2) ⊎ (status_of failure ≡ 3)) }
    ensures usage { IfOk arguments.entry (λ passed.
        (result ≡ 2) ↔ (requested (map string_bytes passed.items) ≡ None)) }
    ensures fulfilled { IfOk arguments.entry (λ passed. result ≡ 0 →
        IfSome (requested (map string_bytes passed.items)) (λ request. IsFulfilled F.read_yields
        request files.old files.new Agreement.Same (O.contents out.old) (O.contents out.new))) }
    ensures unread { IfErr arguments.entry (λ failure. result ≡ status_of failure) }
    ensures known { result ≤ 3 }
{
    match arguments {
        Ok(passed) => run(alloc, passed.as_slice(), files, clock, err, out),
        Err(failure) => failed(&failure, err),
    }
}

/// Runs the program and returns the exit status. Writes the messages of failures and the warnings
/// to standard error.
///
/// The exit status is:
///
/// - 0 if the request is fulfilled.
/// - 1 if the request is refused or a comparison finds a difference.
/// - 2 if the arguments are invalid.
/// - 3 for any other failure.
pub(crate) fn run<
    F: ComparableFiles,
    C: Clock + StandardInput + Env,
    O: Write + IsTerminal,
    E: Write + IsTerminal,
>(alloc: Global, arguments: &[String], files: &mut F, clock: &C, err: &mut E, out: &mut O) -> u8
    ensures usage { (result ≡ 2) ↔ (requested (map string_bytes arguments.now) ≡ None) }
    // At exit status 0 the question was answered as requested. Two lexers that are compared find
    // the same items in all inputs, and an answer that is compared equals the stored one.
    ensures fulfilled { result ≡ 0 → IfSome (requested (map string_bytes arguments.now))
        (λ request. IsFulfilled F.read_yields request files.old files.new Agreement.Same
        (O.contents out.old) (O.contents out.new)) }
    ensures known { result ≤ 3 }
{
    let request = match request_of(arguments) {
        Ok(request) => request,
        Err(failure) => return failed(&with_nearest(failure, Program::Show), err),
    };
    match carry_out(alloc, request, files, clock, err, out) {
        Ok(Agreement::Same) => 0,
        Ok(Agreement::Different) => 1,
        Err(failure) => failed(&failure, err),
    }
}

/// Writes the message of a failure to standard error, and returns the failure's exit status.
fn failed<E: Write>(failure: &Failure<'_>, err: &mut E) -> u8
    ensures { result ≡ status_of failure.now }
{
    let _ = report(failure, USAGE, err);
    failure.status()
}

/// An order to be carried out, with the settings for messages and for the screen.
#[derive(Clone, Copy)]
pub(crate) struct Task<'w> {
    pub(crate) order: ShowOrder<'w>,
    /// The settings for messages.
    pub(crate) showing: Showing,
    /// The form of standard output.
    pub(crate) screen: Screen,
}

/// Carries out a request. Returns the outcome of the comparison, or `Same` if nothing is compared.
fn carry_out<
    'w,
    F: ComparableFiles,
    C: Clock + StandardInput + Env,
    O: Write + IsTerminal,
    E: Write + IsTerminal,
>(
    alloc: Global,
    request: ShowRequest<'w>,
    files: &mut F,
    clock: &C,
    err: &mut E,
    out: &mut O,
) -> Result<Agreement, Failure<'w>>
    ensures failed { IfErr result IsNoMisuse }
    ensures fulfilled { IfOk result (λ agreement. IsFulfilled F.read_yields
        (request_value request.entry) files.old files.new agreement (O.contents out.old)
        (O.contents out.new)) }
{
    match request.kind {
        RequestKind::Help => as_same(print_help(Program::Show, HELP, out)),
        RequestKind::Version => as_same(print_version(VERSION, files, out)),
        RequestKind::Show(asked) => {
            let order = ShowOrder {
                file: asked.file,
                question: asked.question,
                settings: request.settings,
                style: asked.style,
            };
            let task = Task {
                order,
                showing: showing_of(alloc, order, clock, err.is_terminal()),
                screen: screen_of(clock, order.style.color, out.is_terminal()),
            };
            answer_or_compare(task, files, clock, err, out)
        }
    }
}

/// Returns the settings for the messages of an order. `is_terminal` is `true` if messages are
/// written to a terminal. Messages on a terminal have colors unless the environment variables
/// forbid colors.
fn showing_of<V: Env>(
    alloc: Global,
    order: ShowOrder<'_>,
    variables: &V,
    is_terminal: bool,
) -> Showing {
    let takes_colors = is_terminal & allows_colors(variables);
    Showing {
        alloc,
        format: order.style.format,
        is_colored: order.style.color.is_on(takes_colors),
        denies: order.settings.has(OptionName::DenyWarnings),
    }
}

/// Returns `Same` if `done` is a success, and the failure in `done` otherwise. Used for requests
/// that compare nothing.
fn as_same<'w>(done: Result<(), Failure<'w>>) -> Result<Agreement, Failure<'w>>
    requires { IfErr done IsNoMisuse }
    ensures failed { IfErr result IsNoMisuse }
    ensures same { IfOk result (λ agreement. agreement ≡ Agreement.Same) }
{
    match done {
        Ok(()) => Ok(Agreement::Same),
        Err(failure) => Err(failure),
    }
}

/// Answers the question about the lexers of a file. With the option `--expect`, does not print the
/// answer but compares it with the stored answer that the option names. Returns the outcome of the
/// comparison, or `Same` if nothing is compared.
fn answer_or_compare<'w, F: Files, C: Clock + StandardInput, O: Write, E: Write>(
    task: Task<'w>,
    files: &mut F,
    clock: &C,
    err: &mut E,
    out: &mut O,
) -> Result<Agreement, Failure<'w>>
    ensures failed { IfErr result IsNoMisuse }
    ensures answered { IfOk result (λ agreement. AnswersOrExpects F.read_yields
        (expected_in (order_value task.entry.order)) (order_value task.entry.order) files.old files.new
        agreement (O.contents out.old) (O.contents out.new)) }
{
    match task.order.settings.value(OptionName::Expect) {
        Some(word) => expect(task, path_by_word(word), files, clock, err, out),
        None => answer(task, files, clock, err, out),
    }
}

/// Compares the answer to the question about the lexers of a file with the bytes stored at `path`.
/// Writes the outcome of the comparison to `out`, and returns this outcome.
fn expect<'w, F: Files, C: Clock + StandardInput, O: Write, E: Write>(
    task: Task<'w>,
    path: &'w str,
    files: &mut F,
    clock: &C,
    err: &mut E,
    out: &mut O,
) -> Result<Agreement, Failure<'w>>
    ensures failed { IfErr result IsNoMisuse }
    ensures expected { IfOk result (λ agreement. Expects F.read_yields (order_value task.entry.order)
        path.now files.old files.new agreement (O.contents out.old) (O.contents out.new)) }
{
    let alloc = task.showing.alloc;
    let stored = read_bytes(path, files)?;
    let mut made = Vec::new(alloc);
    let compared = Task {
        screen: PLAIN,
        ..task
    };
    let _ = answer(compared, files, clock, err, &mut made)?;
    write_agreement(alloc, path, &stored, &made, out)
}

/// Answers the question about the lexers of the file that the order names. Returns the outcome of
/// the comparison, or `Same` if nothing is compared.
fn answer<'w, F: Files, C: Clock + StandardInput, O: Write, E: Write>(
    task: Task<'w>,
    files: &mut F,
    clock: &C,
    err: &mut E,
    out: &mut O,
) -> Result<Agreement, Failure<'w>>
    ensures failed { IfErr result IsNoMisuse }
    ensures answered { IfOk result (λ agreement. Answers F.read_yields (order_value task.entry.order)
        files.old files.new agreement (O.contents out.old) (O.contents out.new)) }
{
    let path = task.order.file;
    let text = match read_text(path, files) {
        Ok(text) => text,
        Err(failure) => return Err(failure),
    };
    let source = match Source::new(task.showing.alloc, path, text.as_str()) {
        Ok(source) => source,
        Err(AllocError) => return Err(Failure::Memory),
    };
    answer_about(task, &source, files, clock, err, out)
}

/// Answers the question about the lexers of `source`. Returns the outcome of the comparison, or
/// `Same` if nothing is compared.
fn answer_about<'w, F: Files, C: Clock + StandardInput, O: Write, E: Write>(
    task: Task<'w>,
    source: &Source<'_>,
    files: &mut F,
    clock: &C,
    err: &mut E,
    out: &mut O,
) -> Result<Agreement, Failure<'w>>
    ensures failed { IfErr result IsNoMisuse }
    ensures answered { IfOk result (λ agreement. AnswersAbout F.read_yields
        (order_value task.entry.order) (question_value task.entry.order.question) source.now files.old
        files.new agreement (O.contents out.old) (O.contents out.new)) }
{
    match task.order.question {
        Question::Comparison(other) => compare(task, source, other, files, err, out),
        Question::Matches(path, location) => {
            let point = FilePoint { path, location };
            show_matches(task, source, point, files, err, out)
        }
        Question::Inputs(most) => yield_inputs(task, source, most, err, out),
        Question::Page(to, input) => {
            as_same(write_page(task, source, PageOrder { to, input }, files, err, out))
        }
        Question::Diagram => as_same(print_diagram(task, source, err, out)),
        Question::Items(_) => as_same(lex_any(task, source, files, clock, err, out)),
        Question::Leaves | Question::Examples => as_same(show(task, source, err, out)),
    }
}

/// Writes the items of the input that the question names. If the input is standard input and the
/// items are not written as JSON, writes each item as soon as the item is found.
fn lex_any<'w, F: Files, C: Clock + StandardInput, O: Write, E: Write>(
    task: Task<'w>,
    source: &Source<'_>,
    files: &mut F,
    clock: &C,
    err: &mut E,
    out: &mut O,
) -> Result<(), Failure<'w>>
    ensures { IfErr result IsNoMisuse }
{
    match task.order.question {
        Question::Items(STANDARD_INPUT) if !is_json(task.order) => lex_stream(
            task, source, clock, err, out,
        ),
        _ => lex(task, source, files, clock, err, out),
    }
}

/// Writes the tables or the examples of the lexers of a file to `out`, and the warnings of the file
/// to standard error.
fn show<'w, O: Write, E: Write>(
    task: Task<'w>,
    source: &Source<'_>,
    err: &mut E,
    out: &mut O,
) -> Result<(), Failure<'w>>
    ensures { IfErr result IsNoMisuse }
{
    let alloc = task.showing.alloc;
    let name = task.order.settings.value(OptionName::Enum);
    if name.is_some() {
        let _ = found_in(alloc, task, source)?;
    }
    let style = PageStyle {
        showing: task.showing,
        form: form_of(task.order),
    };
    let Shown {
        tables,
        records,
        warnings,
    } = shown_of(alloc, source, style, name)?;
    write_note(err, &warnings);
    print_tables(task, tables.as_str(), out)?;
    print_bytes(&records, out)
}

/// Writes `tables`, which may be empty. The lines of leaf tables are cut to the width of the
/// screen. The lines of examples are not cut.
fn print_tables<'w, O: Write>(task: Task<'w>, tables: &str, out: &mut O) -> Result<(), Failure<'w>>
    ensures { IfErr result IsNoMisuse }
{
    let width = match task.order.question {
        Question::Leaves => task.screen.width,
        _ => None,
    };
    let mut block = Vec::new(task.showing.alloc);
    push_fitted(&mut block, tables, width)?;
    print_bytes(&block, out)
}

/// Returns whether the answer to an order is JSON.
pub(crate) fn is_json(order: ShowOrder<'_>) -> bool
    ensures { result ≡ is_json (order_value order.entry) }
{
    order.settings.has(OptionName::Json)
}

/// Returns the form in which the lexers of a file are shown for an order. Questions that request
/// neither leaves nor examples have the form of leaves.
fn form_of(order: ShowOrder<'_>) -> Form {
    match (order.question, is_json(order)) {
        (Question::Examples, false) => Form::Examples,
        (Question::Examples, true) => Form::ExampleRecords,
        (_, false) => Form::Tables,
        (_, true) => Form::LeafRecords,
    }
}
