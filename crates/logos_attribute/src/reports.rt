//! Reports faults whose messages contain texts of the source. Each function reports one fault. The
//! readers of attributes and of subpatterns call these functions.

ghost use Rattle.std.specs.Prelude.{◌≡◌, OnOk, OnErr};
ghost use Rattle.logos_attribute.specs.Imports.{run_span, tokens_of, ident_slice, AddsFault, fault, fault_about};

use logos_token::error::{Errors, FaultCode, Memory};
use logos_token::token::{Ident, Tokens};
use logos_type_params::reports::report_about;

/// Reports a fault at the span of `name`. The message consists of `before`, the name and `after`.
///
/// # Errors
///
/// Returns `Memory` if memory runs out. The faults are then unchanged.
pub fn report_named(
    errors: &mut Errors,
    code: FaultCode,
    before: &str,
    name: Ident<'_>,
    after: &str,
) -> Result<(), Memory>
    ensures ok { OnOk result
        (AddsFault (fault_about code before.now (ident_slice name.entry) after.now)
        errors.old errors.new) }
    ensures unreported { OnErr result (errors.new ≡ errors.old) }
{
    report_about(errors, code, before, name, after)
}

/// Reports a fault at the span of the run `tokens`.
///
/// # Errors
///
/// Returns `Memory` if memory runs out. The faults are then unchanged.
pub fn report_run(
    errors: &mut Errors,
    code: FaultCode,
    message: &str,
    tokens: Tokens<'_, '_>,
) -> Result<(), Memory>
    ensures ok { OnOk result
        (AddsFault (fault code message.now (run_span (tokens_of tokens.entry)))
        errors.old errors.new) }
    ensures unreported { OnErr result (errors.new ≡ errors.old) }
{
    errors.err(code, message, tokens.span())?;
    Ok(())
}

/// Reports a fault at the span of `name`.
///
/// # Errors
///
/// Returns `Memory` if memory runs out. The faults are then unchanged.
pub fn report_form(
    errors: &mut Errors,
    code: FaultCode,
    message: &str,
    name: Ident<'_>,
) -> Result<(), Memory>
    ensures ok { OnOk result
        (AddsFault (fault code message.now (ident_slice name.entry).span) errors.old errors.new) }
    ensures unreported { OnErr result (errors.new ≡ errors.old) }
{
    errors.err(code, message, name.span)?;
    Ok(())
}
