//! Reports faults in names and types. Each function adds one fault. `logos_definition` and this
//! crate call these functions.

ghost use Rattle.std.specs.Prelude.{◌≡◌, ◌++◌, ◌∷◌, [], IfOk, OnOk, OnErr, string_bytes};
ghost use Rattle.logos_type_params.specs.Views.{named_of, about, about_with, previous, type_nesting_text, limit_type_nesting};

use logos_token::error::{Detail, Errors, FaultCode, Memory};
use logos_token::token::{Ident, Span};
use std::alloc::Global;

/// Returns the concatenation of `before`, `text` and `after`.
fn joined(alloc: Global, before: &str, text: &str, after: &str) -> Result<String, Memory>
    ensures { IfOk result (λ message.
        string_bytes message ≡ (before.now ++ text.now) ++ after.now) }
{
    let mut message = String::from_str(alloc, before)?;
    message.push_str(text)?;
    message.push_str(after)?;
    Ok(message)
}

/// Reports a fault about `name` at its span. The message consists of `before`, the name and
/// `after`.
///
/// # Errors
///
/// Returns `Memory` if memory runs out. The faults are then unchanged.
pub fn report_about(
    errors: &mut Errors,
    code: FaultCode,
    before: &str,
    name: Ident<'_>,
    after: &str,
) -> Result<(), Memory>
    ensures ok { OnOk result (errors.new
        ≡ errors.old ++ (about code before.now (named_of name.entry) after.now) ∷ []) }
    ensures err { OnErr result (errors.new ≡ errors.old) }
{
    report_about_with(errors, code, before, name, after, Detail::Plain)
}

/// Reports a fault about `name` at its span, with the detail `detail`. The message consists of
/// `before`, the name and `after`.
///
/// # Errors
///
/// Returns `Memory` if memory runs out. The faults are then unchanged.
pub fn report_about_with(
    errors: &mut Errors,
    code: FaultCode,
    before: &str,
    name: Ident<'_>,
    after: &str,
    detail: Detail,
) -> Result<(), Memory>
    ensures ok { OnOk result (errors.new ≡ errors.old
        ++ (about_with code before.now (named_of name.entry) after.now detail) ∷ []) }
    ensures err { OnErr result (errors.new ≡ errors.old) }
{
    let message = joined(errors.alloc(), before, name.text, after)?;
    errors.err_with(code, message.as_str(), name.span, detail)?;
    Ok(())
}

/// Reports the span `at` of an earlier value. The fault that refers to this value must have been
/// reported before.
///
/// # Errors
///
/// Returns `Memory` if memory runs out. The faults are then unchanged.
pub fn report_previous(errors: &mut Errors, at: Span) -> Result<(), Memory>
    ensures ok { OnOk result (errors.new ≡ errors.old ++ previous at ∷ []) }
    ensures err { OnErr result (errors.new ≡ errors.old) }
{
    errors.err(FaultCode::Previous, "Previously assigned here", at)
}

/// Returns the message of the fault that too many types are nested.
pub fn type_nesting_text() -> &'static str
    ensures { result.now ≡ type_nesting_text }
{
    "limit LimitTypeNesting passed"
}

/// Reports that too many types are nested in the value at the span `at`. After an error the faults
/// are unchanged.
pub(crate) fn report_depth(errors: &mut Errors, at: Span) -> Result<(), Memory>
    ensures ok { OnOk result (errors.new ≡ errors.old ++ limit_type_nesting at ∷ []) }
    ensures err { OnErr result (errors.new ≡ errors.old) }
{
    errors.err(FaultCode::LimitTypeNesting, type_nesting_text(), at)
}
