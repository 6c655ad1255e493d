//! The function `style_given`, which reads the style of messages from the settings `--color` and
//! `--message-format`. Called by `logos_cli` and `logos_questions`.

ghost use Rattle.std.specs.Prelude.{◌≡◌, IfErr, IfOk, None, Some, option_map};
ghost use Rattle.logos_options.specs.Imports.{color_given, format_given, settings_value, status_of, style_given};

use crate::arguments::{Settings, misuse};
use crate::options::OptionName;
use logos_host::{Color, Failure, MessageFormat, color_by_name, format_by_name};

/// The style of messages: their format, and the condition under which they have colors.
#[derive(Clone, Copy, Debug, PartialEq, Eq)]
pub struct MessageStyle {
    pub format: MessageFormat,
    /// The condition under which messages have colors.
    pub color: Color,
}

/// Returns the style that the settings select. The default is a report, with colors if the report
/// is written to a terminal.
///
/// # Errors
///
/// Returns `Misuse` if the value of `--color` or of `--message-format` is unknown.
pub fn style_given<'w>(settings: &Settings<'w>) -> Result<MessageStyle, Failure<'w>>
    ensures given { IfOk result (λ style.
        style_given (settings_value settings.now) ≡ Some style) }
    ensures misuse { IfErr result (λ failure.
        (style_given (settings_value settings.now) ≡ None) × (status_of failure ≡ 2)) }
{
    let color = match color_given(settings.value(OptionName::Color)) {
        Ok(color) => color,
        Err(failure) => return Err(failure),
    };
    match format_given(settings.value(OptionName::MessageFormat)) {
        Ok(format) => Ok(MessageStyle { format, color }),
        Err(failure) => Err(failure),
    }
}

/// Returns the color setting for `name`, the value of `--color`. Returns `Auto` if `name` is
/// `None`, and `Misuse` if the value is unknown.
fn color_given<'w>(name: Option<&'w str>) -> Result<Color, Failure<'w>>
    ensures given { IfOk result (λ color.
        color_given (option_map (λ name. name.now) name.entry) ≡ Some color) }
    ensures misuse { IfErr result (λ failure.
        (color_given (option_map (λ name. name.now) name.entry) ≡ None)
        × (status_of failure ≡ 2)) }
{
    let Some(name) = name else {
        return Ok(Color::Auto);
    };
    match color_by_name(name) {
        Some(color) => Ok(color),
        None => Err(misuse("`--color` is `always`, `never` or `auto`, not", name)),
    }
}

/// Returns the format for `name`, the value of `--message-format`. Returns `Human` if `name` is
/// `None`, and `Misuse` if the value is unknown.
fn format_given<'w>(name: Option<&'w str>) -> Result<MessageFormat, Failure<'w>>
    ensures given { IfOk result (λ format.
        format_given (option_map (λ name. name.now) name.entry) ≡ Some format) }
    ensures misuse { IfErr result (λ failure.
        (format_given (option_map (λ name. name.now) name.entry) ≡ None)
        × (status_of failure ≡ 2)) }
{
    let Some(name) = name else {
        return Ok(MessageFormat::Human);
    };
    match format_by_name(name) {
        Some(format) => Ok(format),
        None => Err(misuse("`--message-format` is `human` or `json`, not", name)),
    }
}
