//! Reads the flags in `ignore(..)`. The reader of definitions calls `read_flags`.

ghost use Rattle.std.specs.Prelude.{◌≡◌, OnOk, OnErr, IfOk, false, string_bytes};
ghost use Rattle.logos_attribute.specs.Views.{also, none, tokens_of, tree_of, printed, Slice, ident_slice, IsReport, AddsFault, flags_report, ignore_ascii, other_flag, ignore_empty, ignore_token, Continues, HasCase, IsSplit};

use crate::nested::split;
use crate::reports::{report_form, report_named};
use logos_token::error::{Errors, FaultCode, Memory};
use logos_token::token::{Ident, TokenTree, Tokens, print};
use logos_token::util::{is_punct, push_escaped};
use std::alloc::Global;

/// Returns the printed text of `tree`, the first token of `tokens`. `rest` contains the tokens
/// after `tree`.
fn first_printed(
    alloc: Global,
    tokens: Tokens<'_, '_>,
    tree: TokenTree<'_, '_>,
    rest: Tokens<'_, '_>,
) -> Result<String, Memory>
    requires { IsSplit tokens tree rest }
    ensures { IfOk result (λ text. string_bytes text ≡ printed (also (tree_of tree.entry) none)) }
{
    let text = print(alloc, tokens.before(rest))?;
    Ok(text)
}

/// Reports that `tree`, the first token of `tokens`, is not the expected comma. `rest` contains the
/// tokens after `tree`.
fn report_no_comma(
    tokens: Tokens<'_, '_>,
    tree: TokenTree<'_, '_>,
    rest: Tokens<'_, '_>,
    errors: &mut Errors,
) -> Result<(), Memory>
    requires { IsSplit tokens tree rest }
    ensures { OnOk result (AddsFault (ignore_token (tree_of tree.entry)) errors.old errors.new) }
{
    let alloc = errors.alloc();
    let text = first_printed(alloc, tokens, tree, rest)?;
    let mut message = String::from_str(alloc, "Unexpected token: \"")?;
    push_escaped(&mut message, text.as_str())?;
    message.push_str("\"")?;
    errors.err(FaultCode::IgnoreToken, message.as_str(), tree.span())?;
    Ok(())
}

/// Reports that the flag `ascii_case` is no longer supported. `flag` is the identifier of the flag.
fn report_ascii(flag: Ident<'_>, errors: &mut Errors) -> Result<(), Memory>
    ensures { OnOk result
        (AddsFault (ignore_ascii (ident_slice flag.entry)) errors.old errors.new) }
{
    report_form(
        errors,
        FaultCode::IgnoreAscii,
        "The flag \"ascii_case\" is no longer supported",
        flag,
    )
}

/// Reports that `flag` is not the flag `case`.
fn report_other(flag: Ident<'_>, errors: &mut Errors) -> Result<(), Memory>
    ensures { OnOk result (AddsFault (other_flag (ident_slice flag.entry)) errors.old errors.new) }
{
    if flag.text == "ascii_case" {
        return report_ascii(flag, errors);
    }
    report_named(
        errors,
        FaultCode::IgnoreUnknown,
        "Unknown flag: ",
        flag,
        "\n\nExpected one of: case",
    )
}

/// Reports that no valid flag follows `name`, which is the identifier `ignore`.
fn report_none(name: Ident<'_>, errors: &mut Errors) -> Result<(), Memory>
    ensures { OnOk result
        (AddsFault (ignore_empty (ident_slice name.entry)) errors.old errors.new) }
{
    report_form(
        errors,
        FaultCode::IgnoreEmpty,
        "Invalid ignore flag\n\nExpected one of: case",
        name,
    )
}

/// Returns the tokens after the comma that follows the flag `case`. Returns `None` if there is no
/// comma. If another token follows `case`, reports this token.
fn after_flag<'t, 's>(
    tokens: Tokens<'t, 's>,
    errors: &mut Errors,
) -> Result<Option<Tokens<'t, 's>>, Memory>
    ensures { IfOk result (λ next.
        (name : Slice) → Continues name (tokens_of tokens.entry) errors.old errors.new next) }
{
    let Some((tree, rest)) = split(tokens) else {
        return Ok(None);
    };
    if is_punct(&tree, ',') {
        return Ok(Some(rest));
    }
    report_no_comma(tokens, tree, rest, errors)?;
    Ok(None)
}

/// Returns the tokens after the flag `case`, or `None` if `tokens` do not begin with this flag.
///
/// Reports the first token if it is an identifier other than `case`. Reports that `name` has no
/// valid flag if the first token is not an identifier, or if there are no tokens and `found` is
/// `false`. `found` states whether an earlier flag was found.
fn read_case<'t, 's>(
    name: Ident<'s>,
    found: bool,
    tokens: Tokens<'t, 's>,
    errors: &mut Errors,
) -> Result<Option<Tokens<'t, 's>>, Memory>
    ensures { IfOk result (λ next.
        HasCase (ident_slice name.entry) found (tokens_of tokens.entry)
        errors.old errors.new next) }
{
    match split(tokens) {
        None => {
            if !found {
                report_none(name, errors)?;
            }
            Ok(None)
        }
        Some((TokenTree::Ident(flag), rest)) => {
            if flag.text == "case" {
                return Ok(Some(rest));
            }
            report_other(flag, errors)?;
            Ok(None)
        }
        Some(_) => {
            report_none(name, errors)?;
            Ok(None)
        }
    }
}

/// Sets `ignore_case` if `tokens` begin with the flag `case`, and reports the first fault among the
/// flags. After an error, `ignore_case` may already be set.
fn set_flags<'s>(
    ignore_case: &mut bool,
    name: Ident<'s>,
    tokens: Tokens<'_, 's>,
    errors: &mut Errors,
) -> Result<(), Memory>
    ensures { OnOk result (IsReport
        (flags_report (ident_slice name.entry) false ignore_case.old (tokens_of tokens.entry))
        ignore_case.new errors.old errors.new) }
{
    let mut found = false;
    let mut rest = tokens;
    while let Some(after) = read_case(name, found, rest, errors)? {
        *ignore_case = true;
        let Some(next) = after_flag(after, errors)? else {
            return Ok(());
        };
        found = true;
        rest = next;
    }
    Ok(())
}

/// Sets `ignore_case` if `tokens` begin with the flag `case`, and reports the first fault among the
/// flags. `tokens` are the contents of the group after `ignore`, and `name` is the identifier
/// `ignore`. A flag before a fault remains set.
///
/// # Errors
///
/// Returns `Memory` if memory runs out. The flag and the faults are then unchanged.
pub fn read_flags<'s>(
    ignore_case: &mut bool,
    name: Ident<'s>,
    tokens: Tokens<'_, 's>,
    errors: &mut Errors,
) -> Result<(), Memory>
    ensures ok { OnOk result (IsReport
        (flags_report (ident_slice name.entry) false ignore_case.old (tokens_of tokens.entry))
        ignore_case.new errors.old errors.new) }
    ensures unchanged { OnErr result (ignore_case.new ≡ ignore_case.old) }
    ensures unreported { OnErr result (errors.new ≡ errors.old) }
{
    let mut set = *ignore_case;
    let mut found = Errors::new(errors.alloc());
    set_flags(&mut set, name, tokens, &mut found)?;
    errors.append(found)?;
    *ignore_case = set;
    Ok(())
}
