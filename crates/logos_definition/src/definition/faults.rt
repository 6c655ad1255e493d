//! Reports faults of definitions. Each function adds one fault. The readers of definitions and of
//! error types call these functions.

ghost use Rattle.std.specs.Prelude.{OnOk};
ghost use Rattle.logos_definition.specs.Imports.{tokens_of, ident_slice, AddsFault, priority_value, priority_twice, priority_form, greedy_value, greedy_twice, greedy_form, callback_form, ignore_form, unknown_nested, named_expected, unexpected_token};

use logos_attribute::reports::{report_form, report_named, report_run};
use logos_token::error::{Errors, FaultCode, Memory};
use logos_token::token::{Ident, Tokens};

/// Reports `tokens`, a priority that is not a number.
pub(super) fn report_priority_value(
    tokens: Tokens<'_, '_>,
    errors: &mut Errors,
) -> Result<(), Memory>
    ensures { OnOk result
        (AddsFault (priority_value (tokens_of tokens.entry)) errors.old errors.new) }
{
    report_run(
        errors,
        FaultCode::PriorityValue,
        "Expected an unsigned integer",
        tokens,
    )
}

/// Reports `tokens`, the second priority of a definition.
pub(super) fn report_priority_twice(
    tokens: Tokens<'_, '_>,
    errors: &mut Errors,
) -> Result<(), Memory>
    ensures { OnOk result
        (AddsFault (priority_twice (tokens_of tokens.entry)) errors.old errors.new) }
{
    report_run(
        errors,
        FaultCode::PriorityTwice,
        "Resetting previously set priority",
        tokens,
    )
}

/// Reports that `= ..` is missing after the argument `priority`.
pub(super) fn report_priority_form(name: Ident<'_>, errors: &mut Errors) -> Result<(), Memory>
    ensures { OnOk result
        (AddsFault (priority_form (ident_slice name.entry)) errors.old errors.new) }
{
    report_form(
        errors,
        FaultCode::PriorityForm,
        "Expected: priority = <integer>",
        name,
    )
}

/// Reports `tokens`, a value of `allow_greedy` that is neither `true` nor `false`.
pub(super) fn report_greedy_value(tokens: Tokens<'_, '_>, errors: &mut Errors) -> Result<(), Memory>
    ensures { OnOk result
        (AddsFault (greedy_value (tokens_of tokens.entry)) errors.old errors.new) }
{
    report_run(
        errors,
        FaultCode::GreedyValue,
        "Expected `true` or `false`",
        tokens,
    )
}

/// Reports `tokens`, the second value of `allow_greedy` in a definition.
pub(super) fn report_greedy_twice(tokens: Tokens<'_, '_>, errors: &mut Errors) -> Result<(), Memory>
    ensures { OnOk result
        (AddsFault (greedy_twice (tokens_of tokens.entry)) errors.old errors.new) }
{
    report_run(
        errors,
        FaultCode::GreedyTwice,
        "Resetting previously set allow_greedy",
        tokens,
    )
}

/// Reports that `= ..` is missing after the argument `allow_greedy`.
pub(super) fn report_greedy_form(name: Ident<'_>, errors: &mut Errors) -> Result<(), Memory>
    ensures { OnOk result (AddsFault (greedy_form (ident_slice name.entry)) errors.old errors.new) }
{
    report_form(
        errors,
        FaultCode::GreedyForm,
        "Expected: allow_greedy = ...",
        name,
    )
}

/// Reports that `= ..` is missing after the argument `callback`.
pub(crate) fn report_callback_form(name: Ident<'_>, errors: &mut Errors) -> Result<(), Memory>
    ensures { OnOk result
        (AddsFault (callback_form (ident_slice name.entry)) errors.old errors.new) }
{
    report_form(
        errors,
        FaultCode::CallbackForm,
        "Expected: callback = ...",
        name,
    )
}

/// Reports that a group is missing after the argument `ignore`.
pub(super) fn report_ignore_form(name: Ident<'_>, errors: &mut Errors) -> Result<(), Memory>
    ensures { OnOk result (AddsFault (ignore_form (ident_slice name.entry)) errors.old errors.new) }
{
    report_form(
        errors,
        FaultCode::IgnoreForm,
        "Expected: ignore(<flag>, ...)",
        name,
    )
}

/// Reports `name`, an unknown name of an argument of a definition.
pub(super) fn report_unknown(name: Ident<'_>, errors: &mut Errors) -> Result<(), Memory>
    ensures { OnOk result
        (AddsFault (unknown_nested (ident_slice name.entry)) errors.old errors.new) }
{
    report_named(
        errors,
        FaultCode::UnknownNested,
        "Unknown nested attribute: ",
        name,
        "\n\nExpected one of: priority, callback",
    )
}

/// Reports `tokens` that belong to no argument.
pub(crate) fn report_unexpected(tokens: Tokens<'_, '_>, errors: &mut Errors) -> Result<(), Memory>
    ensures { OnOk result
        (AddsFault (unexpected_token (tokens_of tokens.entry)) errors.old errors.new) }
{
    report_run(
        errors,
        FaultCode::UnexpectedToken,
        "Unexpected token in attribute",
        tokens,
    )
}

/// Reports `tokens`, an argument without a name after the first argument.
pub(crate) fn report_named_expected(
    tokens: Tokens<'_, '_>,
    errors: &mut Errors,
) -> Result<(), Memory>
    ensures { OnOk result
        (AddsFault (named_expected (tokens_of tokens.entry)) errors.old errors.new) }
{
    report_run(
        errors,
        FaultCode::NamedExpected,
        "Expected a named argument at this position\n\nhint: If you are trying to define a callback here use: callback = ...",
        tokens,
    )
}
