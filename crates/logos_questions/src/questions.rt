//! Reads the request of `logos_show` from its arguments. Called by `logos_show`.

ghost use Rattle.std.specs.Prelude.{◌≡◌, IfErr, IfOk, Some, map, option_map, string_bytes};
ghost use Rattle.logos_questions.specs.Imports.{arguments_value, requested, inputs_given, kind_value, matches_given, number_named, option_value, order_given, location_named, question_given, question_named, question_value, request_given, request_value, status_of};

use logos_answers::{location_by_word, number_by_text};
use logos_host::Failure;
use logos_lines::Location;
use logos_options::{
    Arguments, GivenOption, MessageStyle, OptionName, Program, Settings, arguments_of, misuse,
    style_given,
};

/// A request of `logos_show`, and the given settings.
#[derive(Clone, Copy)]
pub struct ShowRequest<'w> {
    pub kind: RequestKind<'w>,
    /// The given settings. They are not stored in a variant of `kind`, because the borrow checker
    /// does not support variants that contain the array of the settings.
    pub settings: Settings<'w>,
}

/// The kind of a request: to print the help or the version, or to answer a question.
#[derive(Clone, Copy)]
pub enum RequestKind<'w> {
    Help,
    Version,
    Show(FileQuestion<'w>),
}

/// A question about the lexers of a file, together with the path of the file.
#[derive(Clone, Copy)]
pub struct FileQuestion<'w> {
    /// The path of the file.
    pub file: &'w str,
    pub question: Question<'w>,
    /// The style of messages.
    pub style: MessageStyle,
}

/// A question about the lexers of a file, together with the given settings.
#[derive(Clone, Copy)]
pub struct ShowOrder<'w> {
    /// The path of the file.
    pub file: &'w str,
    pub question: Question<'w>,
    /// The given settings: whether the answer is JSON, the path of a stored answer with which the
    /// answer is compared, the name of an enum, and whether a file with warnings is refused.
    pub settings: Settings<'w>,
    /// The style of messages.
    pub style: MessageStyle,
}

/// A question about the lexers of a file.
#[derive(Clone, Copy)]
pub enum Question<'w> {
    /// The leaves of the lexers.
    Leaves,
    /// The items of the file at this path.
    Items(&'w str),
    /// The matches that start at a location of the file at this path.
    Matches(&'w str, Location),
    /// For each leaf, an input in which a lexer finds the leaf, and an input that the leaf matches
    /// although the lexer finds another leaf.
    Examples,
    /// The first inputs, at most this many, of the inputs that together take all edges of a lexer's
    /// graph.
    Inputs(usize),
    /// Whether the lexer is equivalent to the lexer of the file at this path.
    Comparison(&'w str),
    /// A page about a lexer, written to the file at the first path. The page also shows the input
    /// at the second path, if there is one.
    Page(&'w str, Option<&'w str>),
    /// The state diagram of a lexer.
    Diagram,
}

/// Returns the request that the arguments of `logos_show` make.
///
/// # Errors
///
/// Returns `UnknownOption` if an argument is an unknown option, and `Misuse` if the arguments are
/// invalid for another reason.
pub fn request_of(arguments: &[String]) -> Result<ShowRequest<'_>, Failure<'_>>
    ensures requested { IfOk result (λ request.
        requested (map string_bytes arguments.now) ≡ Some (request_value request)) }
    ensures misuse { IfErr result (λ failure.
        (requested (map string_bytes arguments.now) ≡ None) × (status_of failure ≡ 2)) }
{
    match arguments_of(Program::Show, arguments) {
        Ok(arguments) => request_given(arguments),
        Err(failure) => Err(failure),
    }
}

/// Returns the request that the parsed arguments make.
fn request_given(arguments: Arguments<'_>) -> Result<ShowRequest<'_>, Failure<'_>>
    ensures requested { IfOk result (λ request. request_given (arguments_value arguments.entry)
        (arguments_value arguments.entry).text ≡ Some (request_value request)) }
    ensures misuse { IfErr result (λ failure. (request_given (arguments_value arguments.entry)
        (arguments_value arguments.entry).text ≡ None) × (status_of failure ≡ 2)) }
{
    let settings = arguments.settings;
    match kind_given(arguments) {
        Ok(kind) => Ok(ShowRequest { kind, settings }),
        Err(failure) => Err(failure),
    }
}

/// Returns the kind of the request that the parsed arguments make.
fn kind_given(arguments: Arguments<'_>) -> Result<RequestKind<'_>, Failure<'_>>
    ensures requested { IfOk result (λ kind. request_given (arguments_value arguments.entry)
        (arguments_value arguments.entry).text
        ≡ Some (kind_value kind (arguments_value arguments.entry).settings)) }
    ensures misuse { IfErr result (λ failure. (request_given (arguments_value arguments.entry)
        (arguments_value arguments.entry).text ≡ None) × (status_of failure ≡ 2)) }
{
    match arguments.text {
        Some(OptionName::Version) => Ok(RequestKind::Version),
        Some(_) => Ok(RequestKind::Help),
        None => order_given(arguments),
    }
}

/// Returns the request with the question about a file that the parsed arguments make. The arguments
/// must name the file.
fn order_given(arguments: Arguments<'_>) -> Result<RequestKind<'_>, Failure<'_>>
    ensures requested { IfOk result (λ kind. order_given (arguments_value arguments.entry)
        (arguments_value arguments.entry).first
        ≡ Some (kind_value kind (arguments_value arguments.entry).settings)) }
    ensures misuse { IfErr result (λ failure. (order_given (arguments_value arguments.entry)
        (arguments_value arguments.entry).first ≡ None) × (status_of failure ≡ 2)) }
{
    let Some(file) = arguments.first else {
        return Err(misuse("no file", ""));
    };
    let style = match style_given(&arguments.settings) {
        Ok(style) => style,
        Err(failure) => return Err(failure),
    };
    match question_given(arguments.question, arguments.second) {
        Ok(question) => Ok(RequestKind::Show(FileQuestion {
            file,
            question,
            style,
        })),
        Err(failure) => Err(failure),
    }
}

/// Returns the question about a file that the option `requested` and the second path `input` make.
/// Without an option, the question is about the items of the file at the second path, or about the
/// leaves if there is no second path.
fn question_given<'w>(
    requested: Option<GivenOption<'w>>,
    input: Option<&'w str>,
) -> Result<Question<'w>, Failure<'w>>
    ensures requested { IfOk result (λ question. question_given
        (option_map option_value requested.entry) (option_map (λ path. path.now) input.entry)
        ≡ Some (question_value question)) }
    ensures misuse { IfErr result (λ failure. (question_given
        (option_map option_value requested.entry) (option_map (λ path. path.now) input.entry)
        ≡ None) × (status_of failure ≡ 2)) }
{
    match (requested, input) {
        (None, None) => Ok(Question::Leaves),
        (None, Some(input)) => Ok(Question::Items(input)),
        (Some(one), input) => question_named(one, input),
    }
}

/// Returns the question that the option `one` and the second path `input` make. Returns `Misuse` if
/// the option requires a second path and there is none, or if there is a second path and the option
/// takes none.
fn question_named<'w>(
    one: GivenOption<'w>,
    input: Option<&'w str>,
) -> Result<Question<'w>, Failure<'w>>
    ensures requested { IfOk result (λ question. question_named one.entry.option one.entry.value.now
        (option_map (λ path. path.now) input.entry) ≡ Some (question_value question)) }
    ensures misuse { IfErr result (λ failure. (question_named one.entry.option one.entry.value.now
        (option_map (λ path. path.now) input.entry) ≡ None) × (status_of failure ≡ 2)) }
{
    match (one.option, input) {
        (OptionName::Compare, None) => Err(misuse("no second file for", one.option.word())),
        (OptionName::Compare, Some(other)) => Ok(Question::Comparison(other)),
        (OptionName::Inputs, input) => inputs_given(one.value, input),
        (OptionName::At, input) => matches_given(one.value, input),
        (OptionName::Html, input) => Ok(Question::Page(one.value, input)),
        (OptionName::Mermaid, None) => Ok(Question::Diagram),
        (OptionName::Mermaid, Some(input)) => Err(misuse("`--mermaid` takes no input, not", input)),
        (_, None) => Ok(Question::Examples),
        (_, Some(input)) => Err(misuse("`--examples` takes no input, not", input)),
    }
}

/// Returns the question for at most `word` inputs. Returns `Misuse` if `word` is not a positive
/// number, or if there is a second path.
fn inputs_given<'w>(word: &'w str, input: Option<&'w str>) -> Result<Question<'w>, Failure<'w>>
    ensures requested { IfOk result (λ question. inputs_given (number_named word.now)
        (option_map (λ path. path.now) input.entry) ≡ Some (question_value question)) }
    ensures misuse { IfErr result (λ failure. (inputs_given (number_named word.now)
        (option_map (λ path. path.now) input.entry) ≡ None) × (status_of failure ≡ 2)) }
{
    match (number_by_text(word), input) {
        (None, _) => Err(misuse("`--inputs` is a number from 1 on, not", word)),
        (Some(most), None) => Ok(Question::Inputs(most)),
        (Some(_), Some(input)) => Err(misuse("`--inputs` takes no input, not", input)),
    }
}

/// Returns the question for the matches that start at a location of the file at the path `input`.
/// `word` is the line and the column of the location. Returns `Misuse` if `word` is malformed, or
/// if `input` is `None`.
fn matches_given<'w>(word: &'w str, input: Option<&'w str>) -> Result<Question<'w>, Failure<'w>>
    ensures requested { IfOk result (λ question. matches_given (location_named word.now)
        (option_map (λ path. path.now) input.entry) ≡ Some (question_value question)) }
    ensures misuse { IfErr result (λ failure. (matches_given (location_named word.now)
        (option_map (λ path. path.now) input.entry) ≡ None) × (status_of failure ≡ 2)) }
{
    match (location_by_word(word), input) {
        (None, _) => Err(misuse("`--at` is LINE:COLUMN, not", word)),
        (Some(_), None) => Err(misuse("no input for", OptionName::At.word())),
        (Some(location), Some(input)) => Ok(Question::Matches(input, location)),
    }
}
