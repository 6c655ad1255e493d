//! Functions that append the first members of the line for a fault or a warning. Used by `fault`,
//! `rest_line` and `warnings`.

ghost use Rattle.std.specs.Prelude.{◌≡◌, ◌++◌, [], ◌∷◌, codes, if◌then◌else◌};
ghost use Rattle.logos_messages.specs.Imports.{Gains, code_member, error_tokens, fault_head, fault_of, level_of, message_tokens, name_of};

use logos_json::JsonLines;
use logos_report::{first_line, is_error};
use logos_token::error::{FaultCode, SpannedError};

/// Appends the first members of the line for a fault: the marker of a diagnostic, the first line of
/// the fault's message, and the code and the level of the fault.
pub(crate) fn push_head(lines: &mut JsonLines, fault: &SpannedError)
    ensures { Gains (fault_head (fault_of fault.now)) lines.old lines.new }
{
    push_message(lines, first_line(fault.message.as_str()));
    push_code(lines, fault.code);
    lines.push_text("level", level_of(fault.code));
}

/// Appends a member with the marker of a diagnostic, and a member with the message `message`.
pub(crate) fn push_message(lines: &mut JsonLines, message: &str)
    ensures { Gains (message_tokens message.now) lines.old lines.new }
{
    lines.push_text("$message_type", "diagnostic");
    lines.push_text("message", message);
}

/// Appends a member with the code of a fault, or with null if the fault is not an error.
pub(crate) fn push_code(lines: &mut JsonLines, code: FaultCode)
    ensures { Gains (code_member code) lines.old lines.new }
{
    if is_error(code) {
        push_error_code(lines, code);
    } else {
        lines.push_null("code");
    }
}

/// Returns rustc's name for the level of a fault with the code `code`.
fn level_of(code: FaultCode) -> &'static str
    ensures { result.now ≡ level_of code }
{
    if is_error(code) { "error" } else { "note" }
}

/// Appends a member with an object that contains the code of an error.
fn push_error_code(lines: &mut JsonLines, code: FaultCode)
    ensures { Gains (error_tokens code) lines.old lines.new }
{
    lines.push_name("code");
    lines.begin_object();
    lines.push_text("code", code.name());
    lines.push_null("explanation");
    lines.end_object();
}
