//! Reads the callbacks among the arguments of definitions and of error types. `definition` and
//! `error_type` call `add_callback` and `add_unnamed`.

ghost use Rattle.std.specs.Prelude.{◌≡◌, OnOk, OnErr, option_map};
ghost use Rattle.logos_definition.specs.Imports.{tokens_of, callback_view, value_of, IsReport, ident_slice, named_callback, unnamed_callback};

use crate::definition::faults::{report_callback_form, report_named_expected};
use logos_attribute::callback::{read_callback, set_callback};
use logos_attribute::nested::NestedValue;
use logos_pattern::leaf::Callback;
use logos_token::error::{Errors, Memory};
use logos_token::token::{Ident, Tokens};

/// Sets `callback` from the argument `callback`, and reports the argument's faults. If memory runs
/// out, `callback` is unchanged.
pub(crate) fn add_callback<'s>(
    callback: &mut Option<Callback<'s>>,
    name: Ident<'s>,
    value: &NestedValue<'_, 's>,
    errors: &mut Errors,
) -> Result<(), Memory>
    ensures ok { OnOk result (IsReport
        (named_callback (ident_slice name.entry) (value_of value.now)
        (option_map callback_view callback.old))
        (option_map callback_view callback.new) errors.old errors.new) }
    ensures unchanged { OnErr result (callback.new ≡ callback.old) }
{
    match value {
        NestedValue::Assign(tokens) => set_callback(callback, name, *tokens, errors)?,
        _ => report_callback_form(name, errors)?,
    }
    Ok(())
}

/// Reads `tokens`, an argument without a name. If `first` is `true`, sets `callback` to the
/// callback that the tokens spell. If these tokens do not spell a callback, reports them and sets
/// `callback` to `None`. If `first` is `false`, only reports the argument.
pub(crate) fn add_unnamed<'s>(
    callback: &mut Option<Callback<'s>>,
    first: bool,
    tokens: Tokens<'_, 's>,
    errors: &mut Errors,
) -> Result<(), Memory>
    ensures { OnOk result (IsReport
        (unnamed_callback first (tokens_of tokens.entry) (option_map callback_view callback.old))
        (option_map callback_view callback.new) errors.old errors.new) }
{
    if first {
        *callback = read_callback(tokens, errors)?;
    } else {
        report_named_expected(tokens, errors)?;
    }
    Ok(())
}
