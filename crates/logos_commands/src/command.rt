//! Reads the commands of `logos` from arguments. Used by `program`.

ghost use Rattle.std.specs.Prelude.{◌≡◌, bytes_eq, map, option_map, string_bytes};
ghost use Rattle.logos_commands.specs.Commands.{requested, diagram_in, command_requested, export_in, items_in, shape_in, strip_in, text_in};

use crate::item_lines::LexRequest;
use logos_codegen::generator::Config;
use logos_options::OptionName;

/// A command of `logos`, with the paths of its files.
#[derive(Clone, Copy)]
pub(super) enum Command<'w> {
    // `tools/completions.py` reads the docs of the variants.
    /// `gen`: print the generated code for the enum in the file.
    Text { file: &'w str, config: Config },
    /// `lex`: print the items that the lexer of the enum in the file finds in the input.
    Items(LexRequest<'w>),
    /// `mermaid`: print the state diagram of the lexer of the enum in the file.
    Diagram { file: &'w str },
    /// `export`: write the state diagram to the file that the source names.
    Export { file: &'w str },
    /// `strip`: print the enum in the file without the attributes of the derive macro.
    Strip { file: &'w str },
}

/// Returns the command in `arguments`, or `None` if the arguments are invalid.
pub(super) fn command_of(arguments: &[String]) -> Option<Command<'_>>
    ensures { option_map command_requested result ≡ requested (map string_bytes arguments.now) }
{
    let [name, arguments @ ..] = arguments else {
        return None;
    };
    if is_word(name, "gen") {
        return text_of(arguments);
    }
    if is_word(name, "lex") {
        return items_of(arguments);
    }
    if is_word(name, "mermaid") {
        return diagram_of(arguments);
    }
    if is_word(name, "export") {
        return export_of(arguments);
    }
    if is_word(name, "strip") {
        return strip_of(arguments);
    }
    None
}

/// Returns whether the argument `word` is `text`.
fn is_word(word: &String, text: &str) -> bool
    ensures { result ≡ bytes_eq (string_bytes word.now) text.now }
{
    word.as_str() == text
}

/// Returns the command `gen` with the arguments that follow its name, or `None` if the arguments
/// are invalid.
fn text_of(arguments: &[String]) -> Option<Command<'_>>
    ensures { option_map command_requested result ≡ text_in (map string_bytes arguments.now) }
{
    let [file, arguments @ ..] = arguments else {
        return None;
    };
    let config = shape_of(arguments)?;
    let file = file.as_str();
    Some(Command::Text { file, config })
}

/// Returns the command `lex` with the arguments that follow its name, or `None` if the arguments
/// are invalid.
fn items_of(arguments: &[String]) -> Option<Command<'_>>
    ensures { option_map command_requested result ≡ items_in (map string_bytes arguments.now) }
{
    let [file, input, arguments @ ..] = arguments else {
        return None;
    };
    let config = shape_of(arguments)?;
    Some(Command::Items(LexRequest {
        source: file.as_str(),
        input: input.as_str(),
        config,
    }))
}

/// Returns the command `mermaid` with the arguments that follow its name, or `None` if the
/// arguments are invalid.
fn diagram_of(arguments: &[String]) -> Option<Command<'_>>
    ensures { option_map command_requested result ≡ diagram_in (map string_bytes arguments.now) }
{
    match arguments {
        [file] => Some(Command::Diagram {
            file: file.as_str(),
        }),
        _ => None,
    }
}

/// Returns the command `export` with the arguments that follow its name, or `None` if the arguments
/// are invalid.
fn export_of(arguments: &[String]) -> Option<Command<'_>>
    ensures { option_map command_requested result ≡ export_in (map string_bytes arguments.now) }
{
    match arguments {
        [file] => Some(Command::Export {
            file: file.as_str(),
        }),
        _ => None,
    }
}

/// Returns the command `strip` with the arguments that follow its name, or `None` if the arguments
/// are invalid.
fn strip_of(arguments: &[String]) -> Option<Command<'_>>
    ensures { option_map command_requested result ≡ strip_in (map string_bytes arguments.now) }
{
    match arguments {
        [file] => Some(Command::Strip {
            file: file.as_str(),
        }),
        _ => None,
    }
}

/// Returns the code shape that `arguments` select, or `None` if the arguments are invalid.
/// `arguments` contains the arguments after the files of a command. Without arguments, the shape is
/// one loop over the current state.
fn shape_of(arguments: &[String]) -> Option<Config>
    ensures { result ≡ shape_in (map string_bytes arguments.now) }
{
    match arguments {
        [] => Some(Config {
            use_state_machine_codegen: true,
        }),
        [option, shape] if is_word(option, OptionName::Shape.word()) => {
            Config::by_name(shape.as_str())
        }
        _ => None,
    }
}
