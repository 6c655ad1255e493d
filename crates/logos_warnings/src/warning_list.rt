//! Creates warnings with a message, a span and an optional help. Used by this crate, `logos_causes`
//! and `logos_file_warnings`.

ghost use Rattle.std.specs.Prelude.{◌≡◌, IfOk, string_bytes};

use logos_report::Warning;
use logos_token::token::Span;
use std::alloc::{AllocError, Global};

/// Returns a warning with a copy of `message`, with the span `span` and with an optional help. The
/// warning has no note and no second span. `span` is in bytes of the source.
///
/// # Errors
///
/// Returns `AllocError` if memory runs out.
pub fn fixed_warning(
    alloc: Global,
    message: &str,
    span: Span,
    help: Option<&'static str>,
) -> Result<Warning, AllocError>
    ensures text { IfOk result (λ warning. string_bytes warning.message ≡ message.now) }
    ensures span { IfOk result (λ warning. warning.span ≡ span) }
{
    let message = String::from_str(alloc, message)?;
    Ok(plain_warning(message, span, help))
}

/// Returns a warning with a message, with the span `span` and with an optional help. The warning
/// has no note and no second span. `span` is in bytes of the source.
pub fn plain_warning(message: String, span: Span, help: Option<&'static str>) -> Warning
    ensures text { result.message ≡ message }
    ensures span { result.span ≡ span }
{
    Warning {
        message,
        span,
        note: None,
        help,
        also: None,
    }
}
