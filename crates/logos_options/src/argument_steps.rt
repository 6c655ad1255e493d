//! The function `next_step`, which reads one argument of a command line, and the types of its
//! parameters and its result. Used by `arguments`, `paths` and `logos_questions`.

ghost use Rattle.std.specs.Prelude.{◌≡◌, IfErr, IfOk, None, Some, option_map};
ghost use Rattle.logos_options.specs.Imports.{status_of, option_named, begins_option, split_at_equals, step, step_value, with_assigned, with_option, with_written};

use crate::options::OptionName;
use logos_host::Failure;

/// An option of a command line, with its value.
#[derive(Clone, Copy)]
pub struct GivenOption<'w> {
    pub option: OptionName,
    /// The value of the option, or an empty text if the option takes no value.
    pub value: &'w str,
}

/// The meaning of one argument, or of two consecutive arguments: an option and the option's value.
#[derive(Clone, Copy)]
pub enum Use<'w> {
    /// A path.
    Path(&'w str),
    /// An option, with its value.
    Given(GivenOption<'w>),
}

/// The progress of reading a command line: the effect of the arguments read so far on the meaning
/// of the next argument.
#[derive(Clone, Copy)]
pub struct ArgumentProgress {
    /// The option whose value is the next argument, if there is such an option.
    pub pending: Option<OptionName>,
    /// Whether `--` was read. All arguments after `--` are paths.
    pub is_over: bool,
}

/// The result of reading one argument: the progress after the argument, and the path or the option
/// that the argument completes, if there is one.
#[derive(Clone, Copy)]
pub struct ArgumentStep<'w> {
    pub progress: ArgumentProgress,
    pub found: Option<Use<'w>>,
}

/// Returns the result of reading the argument `word` after the arguments that led to `progress`.
///
/// # Errors
///
/// Returns:
///
/// - `UnknownOption` if the argument begins with `-`, has further bytes and is not an option.
/// - `Misuse` if the argument is an option that takes no value, but has a value after `=`.
pub fn next_step<'w>(
    progress: ArgumentProgress,
    word: &'w str,
) -> Result<ArgumentStep<'w>, Failure<'w>>
    ensures step { IfOk result (λ next. step progress word.now ≡ Some (step_value next)) }
    ensures misuse { IfErr result (λ failure.
        (step progress word.now ≡ None) × (status_of failure ≡ 2)) }
{
    if let Some(option) = progress.pending {
        let progress = ArgumentProgress {
            pending: None,
            is_over: progress.is_over,
        };
        return Ok(found(
            progress,
            Use::Given(GivenOption {
                option,
                value: word,
            }),
        ));
    }
    if progress.is_over {
        return Ok(found(progress, Use::Path(word)));
    }
    step_written(progress, word)
}

/// Returns the result of a step that leads to `progress` and has found the path or the option
/// `one`.
fn found<'w>(progress: ArgumentProgress, one: Use<'w>) -> ArgumentStep<'w>
    ensures { result ≡ record { progress = progress; found = Some one.entry } }
{
    ArgumentStep {
        progress,
        found: Some(one),
    }
}

/// Returns the result of reading an argument that is not the value of an option and does not follow
/// `--`.
fn step_written<'w>(
    progress: ArgumentProgress,
    word: &'w str,
) -> Result<ArgumentStep<'w>, Failure<'w>>
    ensures step { IfOk result (λ next.
        with_written progress word.now ≡ Some (step_value next)) }
    ensures misuse { IfErr result (λ failure.
        (with_written progress word.now ≡ None) × (status_of failure ≡ 2)) }
{
    if word == "--" {
        let progress = ArgumentProgress {
            pending: None,
            is_over: true,
        };
        return Ok(ArgumentStep {
            progress,
            found: None,
        });
    }
    step_option(progress, word)
}

/// Returns the result of reading an argument that is not `--`: an option, with or without its
/// value, or a path.
fn step_option<'w>(
    progress: ArgumentProgress,
    word: &'w str,
) -> Result<ArgumentStep<'w>, Failure<'w>>
    ensures step { IfOk result (λ next. with_option progress (option_named word.now) word.now
        ≡ Some (step_value next)) }
    ensures misuse { IfErr result (λ failure.
        (with_option progress (option_named word.now) word.now ≡ None)
        × (status_of failure ≡ 2)) }
{
    match OptionName::by_word(word) {
        Some(option) if option.takes_value() => Ok(ArgumentStep {
            progress: ArgumentProgress {
                pending: Some(option),
                is_over: false,
            },
            found: None,
        }),
        Some(option) => Ok(found(progress, Use::Given(GivenOption { option, value: "" }))),
        None if is_option(word) => step_assigned(progress, word),
        None => Ok(found(progress, Use::Path(word))),
    }
}

/// Returns the result of reading an argument that begins with `-` and is not the name of an option:
/// an option with its value after `=`, or a failure.
fn step_assigned<'w>(
    progress: ArgumentProgress,
    word: &'w str,
) -> Result<ArgumentStep<'w>, Failure<'w>>
    ensures step { IfOk result (λ next.
        with_assigned progress word.now ≡ Some (step_value next)) }
    ensures misuse { IfErr result (λ failure.
        (with_assigned progress word.now ≡ None) × (status_of failure ≡ 2)) }
{
    let Some((name, value)) = split_at_equals(word) else {
        return Err(unknown(word));
    };
    match OptionName::by_word(name) {
        Some(option) if option.takes_value() => {
            Ok(found(progress, Use::Given(GivenOption { option, value })))
        }
        Some(option) => Err(Failure::Misuse {
            what: "there is no value for",
            word: option.word(),
        }),
        None => Err(unknown(name)),
    }
}

/// Returns the texts before and after the first `=` of an argument, or `None` if the argument has
/// no `=`.
fn split_at_equals(word: &str) -> Option<(&str, &str)>
    ensures { option_map (λ parts. (parts.0.now, parts.1.now)) result ≡ split_at_equals word.now }
{
    match word.split_once('=') {
        Some((name, value)) => Some((name, value)),
        None => None,
    }
}

/// Returns the failure for the unknown option `word`, without a nearest option.
fn unknown<'w>(word: &'w str) -> Failure<'w>
    ensures { status_of result ≡ 2 }
{
    Failure::UnknownOption { word, nearest: "" }
}

/// Returns whether an argument begins with `-` and has further bytes.
fn is_option(word: &str) -> bool
    ensures { result ≡ begins_option word.now }
{
    match word.as_bytes() {
        [first, _, ..] => *first == b'-',
        _ => false,
    }
}
