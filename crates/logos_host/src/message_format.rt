//! Defines the formats of messages and their names in the option `--message-format`. Used by
//! `logos_cli`, `logos_options`, `logos_show` and the crates that report warnings.

ghost use Rattle.std.specs.Prelude.{◌≡◌};
ghost use Rattle.logos_host.specs.Formats.{format_named};

/// The format of messages: for people or for programs.
#[derive(Clone, Copy, Debug, PartialEq, Eq)]
pub enum MessageFormat {
    /// A report that people read.
    Human,
    /// Lines of JSON that programs read.
    Json,
}

/// Returns the format for a value of `--message-format`: `human` or `json`. Returns `None` for any
/// other value.
pub fn format_by_name(name: &str) -> Option<MessageFormat>
    ensures { result ≡ format_named name.now }
{
    if name == "human" {
        return Some(MessageFormat::Human);
    }
    if name == "json" {
        return Some(MessageFormat::Json);
    }
    None
}
