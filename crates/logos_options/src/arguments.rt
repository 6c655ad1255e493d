//! The function `arguments_of`, which reads the paths and the options on a command line. Used by
//! `logos_cli`, `logos_items` and `logos_questions`.

ghost use Rattle.std.specs.Prelude.{◌≡◌, IfErr, IfOk, None, Some, is_some, map, option_map, set, string_bytes};
ghost use Rattle.logos_options.specs.Imports.{arguments_of, arguments_value, nothing_given, number, option_value, role_of, settings_value, settled, status_of, use_value, with_found, with_path, with_question, with_role, with_setting, with_word, with_arguments};

use crate::argument_steps::{ArgumentProgress, GivenOption, Use, next_step};
use crate::options::{OPTIONS, OptionName, OptionRole};
use crate::paths::path_by_word;
use crate::program::Program;
use logos_host::Failure;

/// The arguments that have been read from a command line.
#[derive(Clone, Copy)]
pub struct Arguments<'w> {
    /// The first path, if there is one.
    pub first: Option<&'w str>,
    /// The second path, if there is one.
    pub second: Option<&'w str>,
    /// The settings on the command line.
    pub settings: Settings<'w>,
    /// The question, such as `--examples`, if there is one.
    pub question: Option<GivenOption<'w>>,
    /// The option that requests a text, such as `--help`, if there is one.
    pub text: Option<OptionName>,
    /// The progress of reading after these arguments.
    pub progress: ArgumentProgress,
}

/// The settings of a command line, with their values.
#[derive(Clone, Copy)]
pub struct Settings<'w> {
    /// The value of each option, indexed by the option's number, or `None` if the option is not
    /// given.
    values: [Option<&'w str>; OPTIONS],
}

impl<'w> Settings<'w> {
    ghost use Rattle.std.specs.Prelude.{◌≡◌, option_map};
    ghost use Rattle.logos_options.specs.Arguments.{is_set, setting, settings_value};

    /// Returns the value of an option, or `None` if the option is not given. The value is empty if
    /// the option takes no value.
    pub fn value(&self, option: OptionName) -> Option<&'w str>
        ensures { option_map (λ text. text.now) result ≡ setting option (settings_value self.now) }
    {
        self.values[option.number()]
    }

    /// Returns whether an option is given.
    pub fn has(&self, option: OptionName) -> bool
        ensures { result ≡ is_set option (settings_value self.now) }
    {
        match self.value(option) {
            Some(_) => true,
            None => false,
        }
    }
}

/// Returns the paths and the options in the arguments of a command line. Arguments after `--help`
/// or `--version` are not read.
///
/// # Errors
///
/// Returns `UnknownOption` for an option that the program does not take. Returns `Misuse` if:
///
/// - an option lacks its value,
/// - an option has a value that it does not take,
/// - a setting is given twice,
/// - there is a second question, or
/// - there is a third path of `logos_show`.
pub fn arguments_of(program: Program, arguments: &[String]) -> Result<Arguments<'_>, Failure<'_>>
    ensures read { IfOk result (λ parsed.
        arguments_of program (map string_bytes arguments.now) ≡ Some (arguments_value parsed)) }
    ensures misuse { IfErr result (λ failure.
        (arguments_of program (map string_bytes arguments.now) ≡ None) × (status_of failure ≡ 2)) }
{
    match read_arguments(program, arguments) {
        Ok(parsed) => settled(parsed),
        Err(failure) => Err(failure),
    }
}

/// Returns the failure for invalid arguments, with the reason `what` and the invalid argument
/// `word`.
pub fn misuse<'w>(what: &'static str, word: &'w str) -> Failure<'w>
    ensures { status_of result ≡ 2 }
{
    Failure::Misuse { what, word }
}

/// Returns the paths and the options in `arguments`, up to an option that requests a text.
fn read_arguments(program: Program, arguments: &[String]) -> Result<Arguments<'_>, Failure<'_>>
    ensures read { IfOk result (λ parsed. with_arguments program (Some nothing_given)
        (map string_bytes arguments.now) ≡ Some (arguments_value parsed)) }
    ensures misuse { IfErr result (λ failure. (with_arguments program (Some nothing_given)
        (map string_bytes arguments.now) ≡ None) × (status_of failure ≡ 2)) }
{
    let mut parsed = Arguments {
        first: None,
        second: None,
        settings: Settings {
            values: [None; OPTIONS],
        },
        question: None,
        text: None,
        progress: ArgumentProgress {
            pending: None,
            is_over: false,
        },
    };
    for word in arguments {
        parsed = match read_word(program, parsed, word.as_str()) {
            Ok(next) => next,
            Err(failure) => return Err(failure),
        };
    }
    Ok(parsed)
}

/// Returns `arguments`, or `Misuse` if the last option lacks its value and no text is requested.
fn settled(arguments: Arguments<'_>) -> Result<Arguments<'_>, Failure<'_>>
    ensures read { IfOk result (λ all.
        settled (Some (arguments_value arguments.entry)) ≡ Some (arguments_value all)) }
    ensures misuse { IfErr result (λ failure.
        (settled (Some (arguments_value arguments.entry)) ≡ None) × (status_of failure ≡ 2)) }
{
    match (arguments.text, arguments.progress.pending) {
        (None, Some(option)) => Err(misuse("a value is missing after", option.word())),
        _ => Ok(arguments),
    }
}

/// Returns `arguments` with the argument `word` added. If a text is requested, returns `arguments`
/// unchanged.
fn read_word<'w>(
    program: Program,
    arguments: Arguments<'w>,
    word: &'w str,
) -> Result<Arguments<'w>, Failure<'w>>
    ensures read { IfOk result (λ next. with_word program (arguments_value arguments.entry) word.now
        ≡ Some (arguments_value next)) }
    ensures misuse { IfErr result (λ failure.
        (with_word program (arguments_value arguments.entry) word.now ≡ None)
        × (status_of failure ≡ 2)) }
{
    if has_text(arguments.text) {
        return Ok(arguments);
    }
    match next_step(arguments.progress, word) {
        Ok(next) => read_found(
            program,
            Arguments {
                progress: next.progress,
                ..arguments
            },
            next.found,
        ),
        Err(failure) => Err(failure),
    }
}

/// Returns whether a text is requested.
fn has_text(text: Option<OptionName>) -> bool
    ensures { result ≡ is_some text }
{
    match text {
        Some(_) => true,
        None => false,
    }
}

/// Returns `arguments` with the path or the option in `found` added. If `found` is `None`, returns
/// `arguments` unchanged.
fn read_found<'w>(
    program: Program,
    arguments: Arguments<'w>,
    found: Option<Use<'w>>,
) -> Result<Arguments<'w>, Failure<'w>>
    ensures read { IfOk result (λ next. with_found program (arguments_value arguments.entry)
        (option_map use_value found.entry) ≡ Some (arguments_value next)) }
    ensures misuse { IfErr result (λ failure. (with_found program (arguments_value arguments.entry)
        (option_map use_value found.entry) ≡ None) × (status_of failure ≡ 2)) }
{
    match found {
        None => Ok(arguments),
        Some(Use::Path(path)) => read_path(program, arguments, path_by_word(path)),
        Some(Use::Given(one)) if program.takes(one.option) => read_option(arguments, one),
        Some(Use::Given(one)) => Err(unknown(one.option)),
    }
}

/// Returns the failure for an option that the program does not take.
fn unknown<'w>(option: OptionName) -> Failure<'w>
    ensures { status_of result ≡ 2 }
{
    Failure::UnknownOption {
        word: option.word(),
        nearest: "",
    }
}

/// Returns `arguments` with `path` as the first or the second path. If `arguments` has two paths
/// already, returns `Misuse` for `logos_show`, and `arguments` unchanged for `logos_cli`.
/// `logos_cli` reads its paths with `paths_of`.
fn read_path<'w>(
    program: Program,
    arguments: Arguments<'w>,
    path: &'w str,
) -> Result<Arguments<'w>, Failure<'w>>
    ensures read { IfOk result (λ next. with_path program (arguments_value arguments.entry) path.now
        ≡ Some (arguments_value next)) }
    ensures misuse { IfErr result (λ failure.
        (with_path program (arguments_value arguments.entry) path.now ≡ None)
        × (status_of failure ≡ 2)) }
{
    match (arguments.first, arguments.second, program) {
        (None, _, _) => Ok(Arguments {
            first: Some(path),
            ..arguments
        }),
        (Some(_), None, _) => Ok(Arguments {
            second: Some(path),
            ..arguments
        }),
        (Some(_), Some(_), Program::Cli) => Ok(arguments),
        (Some(_), Some(_), Program::Show) => Err(misuse("a second input file", path)),
    }
}

/// Returns `arguments` with the option `one` added. The program must take this option.
fn read_option<'w>(
    arguments: Arguments<'w>,
    one: GivenOption<'w>,
) -> Result<Arguments<'w>, Failure<'w>>
    ensures read { IfOk result (λ next. with_role (arguments_value arguments.entry)
        (option_value one.entry) (role_of one.entry.option) ≡ Some (arguments_value next)) }
    ensures misuse { IfErr result (λ failure. (with_role (arguments_value arguments.entry)
        (option_value one.entry) (role_of one.entry.option) ≡ None) × (status_of failure ≡ 2)) }
{
    match one.option.role() {
        OptionRole::Setting => read_setting(arguments, one),
        OptionRole::Question => read_question(arguments, one),
        OptionRole::Text => Ok(Arguments {
            text: Some(one.option),
            ..arguments
        }),
    }
}

/// Returns `arguments` with a setting added, or `Misuse` if the setting was given before.
fn read_setting<'w>(
    arguments: Arguments<'w>,
    one: GivenOption<'w>,
) -> Result<Arguments<'w>, Failure<'w>>
    ensures read { IfOk result (λ next. with_setting (arguments_value arguments.entry)
        (option_value one.entry) ≡ Some (arguments_value next)) }
    ensures misuse { IfErr result (λ failure. (with_setting (arguments_value arguments.entry)
        (option_value one.entry) ≡ None) × (status_of failure ≡ 2)) }
{
    if arguments.settings.has(one.option) {
        return Err(misuse("given twice:", one.option.word()));
    }
    Ok(Arguments {
        settings: settings_with(arguments.settings, one),
        ..arguments
    })
}

/// Returns `settings` with the value of the option `one` added.
fn settings_with<'w>(settings: Settings<'w>, one: GivenOption<'w>) -> Settings<'w>
    ensures { settings_value result
        ≡ set (settings_value settings.entry) (number one.entry.option) (Some one.entry.value.now) }
{
    let mut values = settings.values;
    values[one.option.number()] = Some(one.value);
    Settings { values }
}

/// Returns `arguments` with a question added, or `Misuse` if a question was given before.
fn read_question<'w>(
    arguments: Arguments<'w>,
    one: GivenOption<'w>,
) -> Result<Arguments<'w>, Failure<'w>>
    ensures read { IfOk result (λ next. with_question (arguments_value arguments.entry)
        (option_value one.entry) ≡ Some (arguments_value next)) }
    ensures misuse { IfErr result (λ failure. (with_question (arguments_value arguments.entry)
        (option_value one.entry) ≡ None) × (status_of failure ≡ 2)) }
{
    match arguments.question {
        Some(_) => Err(misuse("a second question", one.option.word())),
        None => Ok(Arguments {
            question: Some(one),
            ..arguments
        }),
    }
}
