//! Functions that report the faults of variants and of their attributes. Each call reports at most
//! one fault. Called by `variant`.

ghost use Rattle.std.specs.Prelude.{◌≡◌, ◌++◌, IfOk, OnOk, string_bytes};
ghost use Rattle.logos_leaf.specs.Imports.{AddsFault, fields_text, variant_fields, count_faults, named_fields, error_variant, token_form, regex_form};

use logos_token::error::{Errors, FaultCode, Memory};
use logos_token::token::Span;
use std::alloc::{AllocError, Global};

/// Returns the message for a variant that has `count` fields instead of one.
fn fields_text(alloc: Global, count: usize) -> Result<String, AllocError>
    ensures { IfOk result (λ text. string_bytes text ≡ fields_text count) }
{
    let text = format!(in alloc;
        "Logos currently only supports variants with one field, found {count}"
    )?;
    Ok(text)
}

/// Reports that a variant has `count` fields instead of one. The fields are in the parentheses at
/// `span`.
pub(super) fn report_variant_fields(
    count: usize,
    span: Span,
    errors: &mut Errors,
) -> Result<(), Memory>
    ensures { OnOk result (AddsFault (variant_fields count span) errors.old errors.new) }
{
    let text = fields_text(errors.alloc(), count)?;
    errors.err(FaultCode::VariantFields, text.as_str(), span)
}

/// Reports a variant that does not have exactly one field. `count` is the number of fields, and
/// `span` is the span of their parentheses.
pub(super) fn report_count(count: usize, span: Span, errors: &mut Errors) -> Result<(), Memory>
    ensures { OnOk result (errors.new ≡ errors.old ++ count_faults count span) }
{
    if count != 1 {
        report_variant_fields(count, span, errors)?;
    }
    Ok(())
}

/// Reports a variant with named fields in the braces at `span`.
pub(super) fn report_named_fields(span: Span, errors: &mut Errors) -> Result<(), Memory>
    ensures { OnOk result (AddsFault (named_fields span) errors.old errors.new) }
{
    errors.err(
        FaultCode::NamedFields,
        "Logos doesn't support named fields yet.",
        span,
    )
}

/// Reports an `error` attribute at `span`.
pub(super) fn report_error_variant(span: Span, errors: &mut Errors) -> Result<(), Memory>
    ensures { OnOk result (AddsFault (error_variant span) errors.old errors.new) }
{
    errors.err(
        FaultCode::ErrorVariant,
        "Since 0.13 Logos no longer requires the #[error] variant.\n\nFor help with migration see release notes: https://github.com/maciejhirsz/logos/releases",
        span,
    )
}

/// Reports a `token` attribute without a definition at `span`.
pub(super) fn report_token_form(span: Span, errors: &mut Errors) -> Result<(), Memory>
    ensures { OnOk result (AddsFault (token_form span) errors.old errors.new) }
{
    errors.err(FaultCode::TokenForm, "Expected #[token(...)]", span)
}

/// Reports a `regex` attribute without a definition at `span`.
pub(super) fn report_regex_form(span: Span, errors: &mut Errors) -> Result<(), Memory>
    ensures { OnOk result (AddsFault (regex_form span) errors.old errors.new) }
{
    errors.err(FaultCode::RegexForm, "Expected #[regex(...)]", span)
}
