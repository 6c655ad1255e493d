//! Reports faults of the options of a lexer. Each function adds one fault, or two faults for a
//! second value: one at the second value, and one at the former value. `options` calls these
//! functions.

ghost use Rattle.std.specs.Prelude.{◌≡◌, ◌++◌, OnOk, Some};
ghost use Rattle.logos_definition.specs.Imports.{tokens_of, ident_slice, AddsFault, once_only, utf8_twice, extras_twice, error_twice, export_twice, skip_form, skip_group, utf8_value, utf8_form, extras_form, crate_form, export_bytes, export_form, subpattern_form, error_form, source_old, unknown_logos, invalid_nested, type_form};

use logos_attribute::reports::{report_form, report_named, report_run};
use logos_token::error::{Errors, FaultCode, Memory};
use logos_token::token::{Ident, Span, Tokens};

/// Reports a second value at `here` with `code` and `message`, and the former value at `there`.
fn report_twice(
    errors: &mut Errors,
    code: FaultCode,
    message: &str,
    here: Span,
    there: Span,
) -> Result<(), Memory>
    ensures { OnOk result (errors.new ≡ errors.old ++ once_only code message.now here there) }
{
    errors.err(code, message, here)?;
    errors.err(FaultCode::Previous, "Previous definition here", there)?;
    Ok(())
}

/// Reports a second UTF-8 mode at `here`, and the former mode at `there`.
pub(super) fn report_mode_twice(here: Span, there: Span, errors: &mut Errors) -> Result<(), Memory>
    ensures { OnOk result (errors.new ≡ errors.old ++ utf8_twice here (Some there)) }
{
    report_twice(
        errors,
        FaultCode::Utf8Twice,
        "Utf8 mode can be defined only once",
        here,
        there,
    )
}

/// Reports a second type of extras at `here`, and the former type at `there`.
pub(super) fn report_extras_twice(
    here: Span,
    there: Span,
    errors: &mut Errors,
) -> Result<(), Memory>
    ensures { OnOk result (errors.new ≡ errors.old ++ extras_twice here (Some there)) }
{
    report_twice(
        errors,
        FaultCode::ExtrasTwice,
        "Extras can be defined only once",
        here,
        there,
    )
}

/// Reports a second error type at `here`, and the former type at `there`.
pub(super) fn report_error_twice(here: Span, there: Span, errors: &mut Errors) -> Result<(), Memory>
    ensures { OnOk result (errors.new ≡ errors.old ++ error_twice here (Some there)) }
{
    report_twice(
        errors,
        FaultCode::ErrorTwice,
        "Error type can be defined only once",
        here,
        there,
    )
}

/// Reports a second export path at `here`, and the former path at `there`.
pub(super) fn report_export_twice(
    here: Span,
    there: Span,
    errors: &mut Errors,
) -> Result<(), Memory>
    ensures { OnOk result (errors.new ≡ errors.old ++ export_twice here (Some there)) }
{
    report_twice(
        errors,
        FaultCode::ExportTwice,
        "Export path can be defined only once",
        here,
        there,
    )
}

/// Reports that a literal or a group is missing after the option `skip`.
pub(super) fn report_skip_form(name: Ident<'_>, errors: &mut Errors) -> Result<(), Memory>
    ensures { OnOk result (AddsFault (skip_form (ident_slice name.entry)) errors.old errors.new) }
{
    report_form(
        errors,
        FaultCode::SkipForm,
        "Expected: #[logos(skip \"regex literal\")] or #[logos(skip(...))]",
        name,
    )
}

/// Reports that `= ..` is missing after the option `utf8`.
pub(super) fn report_utf8_form(name: Ident<'_>, errors: &mut Errors) -> Result<(), Memory>
    ensures { OnOk result (AddsFault (utf8_form (ident_slice name.entry)) errors.old errors.new) }
{
    report_form(
        errors,
        FaultCode::Utf8Form,
        "Expected: #[logos(utf8 = true)]",
        name,
    )
}

/// Reports that `= ..` is missing after the option `extras`.
pub(super) fn report_extras_form(name: Ident<'_>, errors: &mut Errors) -> Result<(), Memory>
    ensures { OnOk result (AddsFault (extras_form (ident_slice name.entry)) errors.old errors.new) }
{
    report_form(
        errors,
        FaultCode::ExtrasForm,
        "Expected: #[logos(extras = SomeType)]",
        name,
    )
}

/// Reports that `= ..` is missing after the option `crate`.
pub(super) fn report_crate_form(name: Ident<'_>, errors: &mut Errors) -> Result<(), Memory>
    ensures { OnOk result (AddsFault (crate_form (ident_slice name.entry)) errors.old errors.new) }
{
    report_form(
        errors,
        FaultCode::CrateForm,
        "Expected: #[logos(crate = path::to::logos)]",
        name,
    )
}

/// Reports that `= ..` is missing after the option `export_dir`.
pub(super) fn report_export_form(name: Ident<'_>, errors: &mut Errors) -> Result<(), Memory>
    ensures { OnOk result (AddsFault (export_form (ident_slice name.entry)) errors.old errors.new) }
{
    report_form(
        errors,
        FaultCode::ExportForm,
        "Expected #[logos(export_dir = \"path/to/export/dir\")]",
        name,
    )
}

/// Reports that a name and `= ..` are missing after the option `subpattern`.
pub(super) fn report_subpattern_form(name: Ident<'_>, errors: &mut Errors) -> Result<(), Memory>
    ensures { OnOk result
        (AddsFault (subpattern_form (ident_slice name.entry)) errors.old errors.new) }
{
    report_form(
        errors,
        FaultCode::SubpatternForm,
        "Expected: #[logos(subpattern name = r\"regex\")]",
        name,
    )
}

/// Reports that `= ..` or a group is missing after the option `error`.
pub(super) fn report_error_form(name: Ident<'_>, errors: &mut Errors) -> Result<(), Memory>
    ensures { OnOk result (AddsFault (error_form (ident_slice name.entry)) errors.old errors.new) }
{
    report_form(
        errors,
        FaultCode::ErrorForm,
        "Expected: #[logos(error = SomeType)] or #[logos(error(SomeType[, callback))]",
        name,
    )
}

/// Reports the option `source`, a former option that `utf8` has replaced.
pub(super) fn report_source_old(name: Ident<'_>, errors: &mut Errors) -> Result<(), Memory>
    ensures { OnOk result (AddsFault (source_old (ident_slice name.entry)) errors.old errors.new) }
{
    report_form(
        errors,
        FaultCode::SourceOld,
        "The `source` attribute is deprecated. Use the `utf8` attribute instead",
        name,
    )
}

/// Reports that `tokens`, the group of a `skip(..)`, do not begin with a string or byte string.
pub(super) fn report_skip_group(tokens: Tokens<'_, '_>, errors: &mut Errors) -> Result<(), Memory>
    ensures { OnOk result (AddsFault (skip_group (tokens_of tokens.entry)) errors.old errors.new) }
{
    report_run(
        errors,
        FaultCode::SkipGroup,
        "Expected #[logos(skip(\"regex literal\"[, [callback = ] callback, priority = priority]))]",
        tokens,
    )
}

/// Reports `tokens`, a UTF-8 mode that is neither `true` nor `false`.
pub(super) fn report_utf8_value(tokens: Tokens<'_, '_>, errors: &mut Errors) -> Result<(), Memory>
    ensures { OnOk result (AddsFault (utf8_value (tokens_of tokens.entry)) errors.old errors.new) }
{
    report_run(
        errors,
        FaultCode::Utf8Value,
        "Expected a boolean literal: expected boolean literal",
        tokens,
    )
}

/// Reports `tokens`, an export path that is a byte string.
pub(super) fn report_export_bytes(tokens: Tokens<'_, '_>, errors: &mut Errors) -> Result<(), Memory>
    ensures { OnOk result
        (AddsFault (export_bytes (tokens_of tokens.entry)) errors.old errors.new) }
{
    report_run(errors, FaultCode::ExportBytes, "Expected a &str", tokens)
}

/// Reports `tokens`, an argument of `logos(..)` without a name and a value.
pub(super) fn report_invalid_nested(
    tokens: Tokens<'_, '_>,
    errors: &mut Errors,
) -> Result<(), Memory>
    ensures { OnOk result
        (AddsFault (invalid_nested (tokens_of tokens.entry)) errors.old errors.new) }
{
    report_run(
        errors,
        FaultCode::InvalidNested,
        "Invalid nested attribute",
        tokens,
    )
}

/// Reports `name`, an unknown name of an option.
pub(super) fn report_unknown_logos(name: Ident<'_>, errors: &mut Errors) -> Result<(), Memory>
    ensures { OnOk result
        (AddsFault (unknown_logos (ident_slice name.entry)) errors.old errors.new) }
{
    report_named(
        errors,
        FaultCode::UnknownLogos,
        "Unknown nested attribute #[logos(",
        name,
        ")]",
    )
}

/// Reports that a name and `= ..` are missing after the option `type`.
pub(super) fn report_type_form(name: Ident<'_>, errors: &mut Errors) -> Result<(), Memory>
    ensures { OnOk result (AddsFault (type_form (ident_slice name.entry)) errors.old errors.new) }
{
    report_form(
        errors,
        FaultCode::TypeForm,
        "Expected: #[logos(type T = SomeType)]",
        name,
    )
}
