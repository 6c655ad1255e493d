//! Reads the request of `logos_cli` from its arguments. Called by `program`.

ghost use Rattle.std.specs.Prelude.{◌≡◌, IfErr, IfOk, None, Some, is_some, map, option_map, string_bytes};
ghost use Rattle.logos_cli.specs.Views.{arguments_value, requested, file_given, is_folder, named_shape, order_given, order_value, placed, request_given, request_value, shape_named, status_of};

use logos_codegen::generator::Config;
use logos_host::{Color, Failure, MessageFormat};
use logos_options::{
    Arguments, MessageStyle, OptionName, Program, arguments_of, misuse, style_given,
};
use logos_tables::Shape;

/// A request of `logos_cli`: to print the help or the version, or to expand files.
#[derive(Clone, Copy)]
pub(crate) enum Request<'w> {
    Help,
    Version,
    Expand(ExpandOrder<'w>),
    /// The order to expand several files into a folder.
    ExpandEach(Batch<'w>),
}

/// An order to expand a file.
#[derive(Clone, Copy)]
pub(crate) struct ExpandOrder<'w> {
    /// The path of the file.
    pub(crate) input: &'w str,
    /// The path of the file for the result, or `None` to write the result to standard output.
    pub(crate) output: Option<&'w str>,
    /// Whether the file at `output` is only compared with the result.
    pub(crate) is_check: bool,
    /// The shape of the generated code.
    pub(crate) shape: Shape,
    /// The format of messages.
    pub(crate) format: MessageFormat,
    /// Whether a file with warnings is refused.
    pub(crate) denies: bool,
    /// The condition under which messages have colors.
    pub(crate) color: Color,
}

/// An order to expand several files into a folder.
#[derive(Clone, Copy)]
pub(crate) struct Batch<'w> {
    /// The arguments of the command line, which contain the paths of the files.
    pub(crate) arguments: &'w [String],
    /// The order for the first file. The orders for the other files differ from this order only in
    /// their paths.
    pub(crate) order: ExpandOrder<'w>,
    /// The path of the folder, which ends in `/`.
    pub(crate) folder: &'w str,
}

/// Returns the request that the arguments of `logos_cli` make.
///
/// # Errors
///
/// Returns `UnknownOption` if an argument is an unknown option, and `Misuse` if the arguments are
/// invalid for another reason.
pub(crate) fn request_of(arguments: &[String]) -> Result<Request<'_>, Failure<'_>>
    ensures requested { IfOk result (λ request.
        requested (map string_bytes arguments.now) ≡ Some (request_value request)) }
    ensures misuse { IfErr result (λ failure.
        (requested (map string_bytes arguments.now) ≡ None) × (status_of failure ≡ 2)) }
{
    match arguments_of(Program::Cli, arguments) {
        Ok(parsed) => request_given(arguments, parsed),
        Err(failure) => Err(failure),
    }
}

/// Returns the request that the parsed arguments make.
fn request_given<'w>(
    arguments: &'w [String],
    parsed: Arguments<'w>,
) -> Result<Request<'w>, Failure<'w>>
    ensures requested { IfOk result (λ request. request_given (map string_bytes arguments.now)
        (arguments_value parsed.entry) (arguments_value parsed.entry).text
        ≡ Some (request_value request)) }
    ensures misuse { IfErr result (λ failure. (request_given (map string_bytes arguments.now)
        (arguments_value parsed.entry) (arguments_value parsed.entry).text ≡ None)
        × (status_of failure ≡ 2)) }
{
    match parsed.text {
        Some(OptionName::Version) => Ok(Request::Version),
        Some(_) => Ok(Request::Help),
        None => order_given(arguments, parsed),
    }
}

/// Returns the request to expand files that the parsed arguments make. The arguments must name a
/// file.
fn order_given<'w>(
    arguments: &'w [String],
    parsed: Arguments<'w>,
) -> Result<Request<'w>, Failure<'w>>
    ensures requested { IfOk result (λ request. order_given (map string_bytes arguments.now)
        (arguments_value parsed.entry) (arguments_value parsed.entry).first
        ≡ Some (request_value request)) }
    ensures misuse { IfErr result (λ failure. (order_given (map string_bytes arguments.now)
        (arguments_value parsed.entry) (arguments_value parsed.entry).first ≡ None)
        × (status_of failure ≡ 2)) }
{
    let Some(input) = parsed.first else {
        return Err(misuse("no input file", ""));
    };
    let style = match style_given(&parsed.settings) {
        Ok(style) => style,
        Err(failure) => return Err(failure),
    };
    file_given(arguments, parsed, input, style)
}

/// Returns the request to expand `input` and any further files that the arguments name. Messages
/// have the style `style`.
fn file_given<'w>(
    arguments: &'w [String],
    parsed: Arguments<'w>,
    input: &'w str,
    style: MessageStyle,
) -> Result<Request<'w>, Failure<'w>>
    ensures requested { IfOk result (λ request. file_given (map string_bytes arguments.now)
        (arguments_value parsed.entry) input.now style ≡ Some (request_value request)) }
    ensures misuse { IfErr result (λ failure. (file_given (map string_bytes arguments.now)
        (arguments_value parsed.entry) input.now style ≡ None) × (status_of failure ≡ 2)) }
{
    let settings = &parsed.settings;
    let shape = match shape_given(settings.value(OptionName::Shape)) {
        Ok(shape) => shape,
        Err(failure) => return Err(failure),
    };
    let is_check = settings.has(OptionName::Check);
    let output = settings.value(OptionName::Output);
    if is_check & !is_given(output) {
        return Err(misuse("`--check` needs `--output FILE`", ""));
    }
    let order = ExpandOrder {
        input,
        output,
        is_check,
        shape,
        format: style.format,
        denies: settings.has(OptionName::DenyWarnings),
        color: style.color,
    };
    placed(arguments, order, parsed.second)
}

/// Returns the request to expand several files into a folder if the output of `order` is a folder,
/// and the request to expand one file otherwise. Returns `Misuse` if there is a second path and the
/// output is not a folder.
fn placed<'w>(
    arguments: &'w [String],
    order: ExpandOrder<'w>,
    second: Option<&'w str>,
) -> Result<Request<'w>, Failure<'w>>
    ensures requested { IfOk result (λ request. placed (map string_bytes arguments.now)
        (order_value order.entry) (order_value order.entry).output
        (option_map (λ path. path.now) second.entry) ≡ Some (request_value request)) }
    ensures misuse { IfErr result (λ failure. (placed (map string_bytes arguments.now)
        (order_value order.entry) (order_value order.entry).output
        (option_map (λ path. path.now) second.entry) ≡ None) × (status_of failure ≡ 2)) }
{
    match (order.output, second) {
        (Some(folder), _) if is_folder(folder) => Ok(Request::ExpandEach(Batch {
            arguments,
            order,
            folder,
        })),
        (_, None) => Ok(Request::Expand(order)),
        (_, Some(_)) => Err(misuse("several inputs need `--output FOLDER/`", "")),
    }
}

/// Returns whether `path` ends in `/` and thus is the path of a folder.
fn is_folder(path: &str) -> bool
    ensures { result ≡ is_folder path.now }
{
    path.ends_with('/')
}

/// Returns whether `path` is `Some`.
fn is_given(path: Option<&str>) -> bool
    ensures { result ≡ is_some (option_map (λ path. path.now) path.entry) }
{
    match path {
        Some(_) => true,
        None => false,
    }
}

/// Returns the shape with the name `name`, or `Tables` if `name` is `None`. Returns `Misuse` if the
/// name is unknown.
fn shape_given<'w>(name: Option<&'w str>) -> Result<Shape, Failure<'w>>
    ensures shape { IfOk result (λ shape.
        named_shape (option_map (λ name. name.now) name.entry) ≡ Some shape) }
    ensures misuse { IfErr result (λ failure.
        (named_shape (option_map (λ name. name.now) name.entry) ≡ None)
        × (status_of failure ≡ 2)) }
{
    let Some(name) = name else {
        return Ok(Shape::Tables);
    };
    match shape_by_name(name) {
        Some(shape) => Ok(shape),
        None => Err(misuse(
            "`--shape` is `tables`, `tailcall` or `state_machine`, not",
            name,
        )),
    }
}

/// Returns the shape with the name `name`, or `None` if the name is unknown.
fn shape_by_name(name: &str) -> Option<Shape>
    ensures { result ≡ shape_named name.now }
{
    if name == "tables" {
        return Some(Shape::Tables);
    }
    match Config::by_name(name) {
        Some(config) => Some(Shape::Code(config)),
        None => None,
    }
}
