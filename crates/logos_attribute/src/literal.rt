//! Reads strings and byte strings in the arguments of an attribute. The readers of definitions, of
//! subpatterns and of the path of `export_dir` call these functions.

ghost use Rattle.std.specs.Prelude.{◌≡◌, OnOk, OnErr, IfOk, option_map};
ghost use Rattle.logos_attribute.specs.Imports.{tokens_of, literal_slice, IsReport, AddsFault, literal_syntax, not_text, text_in, text_report, literal_report, string_in, literal_view};

use crate::nested::split;
use crate::reports::report_run;
use logos_pattern::pattern::Literal;
use logos_token::error::{Errors, FaultCode, Memory};
use logos_token::token;
use logos_token::token::{TokenTree, Tokens};
use std::alloc::Global;

/// Reports that the literal `token` is neither a string nor a byte string.
fn report_not_text(token: token::Literal<'_>, errors: &mut Errors) -> Result<(), Memory>
    ensures ok { OnOk result
        (AddsFault (not_text (literal_slice token.entry)) errors.old errors.new) }
    ensures unreported { OnErr result (errors.new ≡ errors.old) }
{
    errors.err(
        FaultCode::NotText,
        "Expected a &str or &[u8] slice",
        token.span,
    )?;
    Ok(())
}

/// Reports that the run `tokens` is not a literal.
///
/// # Errors
///
/// Returns `Memory` if memory runs out. The faults are then unchanged.
pub fn report_syntax(tokens: Tokens<'_, '_>, errors: &mut Errors) -> Result<(), Memory>
    ensures ok { OnOk result
        (AddsFault (literal_syntax (tokens_of tokens.entry)) errors.old errors.new) }
    ensures unreported { OnErr result (errors.new ≡ errors.old) }
{
    report_run(
        errors,
        FaultCode::LiteralSyntax,
        "expected a literal",
        tokens,
    )
}

/// Returns the string or byte string of `token`, or `None` if `token` is neither.
fn text_in<'s>(alloc: Global, token: token::Literal<'s>) -> Result<Option<Literal<'s>>, Memory>
    ensures { IfOk result (λ literal.
        option_map literal_view literal ≡ text_in (literal_slice token.entry)) }
{
    Ok(Literal::read(alloc, &token)?)
}

/// Reads the literal `token` as a string or byte string. If `token` is neither, reports the literal
/// and returns `None`.
///
/// # Errors
///
/// Returns `Memory` if memory runs out. The faults are then unchanged.
pub fn read_text<'s>(
    alloc: Global,
    token: token::Literal<'s>,
    errors: &mut Errors,
) -> Result<Option<Literal<'s>>, Memory>
    ensures ok { IfOk result (λ literal.
        IsReport (text_report (literal_slice token.entry))
        (option_map literal_view literal) errors.old errors.new) }
    ensures unreported { OnErr result (errors.new ≡ errors.old) }
{
    let Some(literal) = text_in(alloc, token)? else {
        report_not_text(token, errors)?;
        return Ok(None);
    };
    Ok(Some(literal))
}

/// Reads the run `tokens` as a string or byte string. Returns `None` for any other run, and reports
/// the run unless it is empty.
///
/// # Errors
///
/// Returns `Memory` if memory runs out. The faults are then unchanged.
pub fn read_literal<'s>(
    alloc: Global,
    tokens: Tokens<'_, 's>,
    errors: &mut Errors,
) -> Result<Option<Literal<'s>>, Memory>
    ensures ok { IfOk result (λ literal.
        IsReport (literal_report (tokens_of tokens.entry))
        (option_map literal_view literal) errors.old errors.new) }
    ensures unreported { OnErr result (errors.new ≡ errors.old) }
{
    match split(tokens) {
        None => Ok(None),
        Some((TokenTree::Literal(token), rest)) if rest.is_empty() => {
            read_text(alloc, token, errors)
        }
        Some(_) => {
            report_syntax(tokens, errors)?;
            Ok(None)
        }
    }
}

/// Returns the string or byte string that is the only token of a run. Returns `None` for any other
/// run.
///
/// # Errors
///
/// Returns `Memory` if memory runs out.
pub fn string_in<'s>(alloc: Global, tokens: Tokens<'_, 's>) -> Result<Option<Literal<'s>>, Memory>
    ensures { IfOk result (λ literal.
        option_map literal_view literal ≡ string_in (tokens_of tokens.entry)) }
{
    match split(tokens) {
        Some((TokenTree::Literal(token), rest)) if rest.is_empty() => text_in(alloc, token),
        _ => Ok(None),
    }
}
