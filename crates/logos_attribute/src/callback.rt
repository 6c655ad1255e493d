//! Reads callbacks in the arguments of attributes. The readers of definitions and of error types
//! call `read_callback` and `set_callback`.

ghost use Rattle.std.specs.Prelude.{◌≡◌, ◌++◌, ◌∷◌, [], IfOk, OnOk, OnErr, option_map};
ghost use Rattle.logos_attribute.specs.Views.{run_span, tokens_of, ident_slice, IsReport, AddsFault, body_in, bar_in, parameter_in, callback_in, callback_report, callback_set, twice_at, view_span, callback_closure, callback_body, callback_no_value, callback_view, run_view, callback_fault, read_view};

use crate::nested::split;
use logos_pattern::leaf::{Callback, InlineCallback};
use logos_token::error::{Errors, FaultCode, Memory};
use logos_token::token::{Ident, Span, TokenTree, Tokens};
use logos_token::util::is_punct;
use std::alloc::Global;

/// A callback whose tokens have not been copied from the source.
#[derive(Clone, Copy)]
enum CallbackRun<'t, 's> {
    /// The tokens that name a function.
    Label(Tokens<'t, 's>),
    /// The parameter and the body of a closure.
    Inline(Ident<'s>, Tokens<'t, 's>),
}

/// The reason why a run is not a callback.
#[derive(Clone, Copy)]
enum CallbackFault {
    /// The run is empty, or it begins with `|` but not with a single parameter between two `|`.
    Closure,
    /// The closure has no body.
    Body,
}

/// Returns the closure with the parameter `arg` and the body `tokens`. If the body begins with a
/// group, the result contains only the tokens of the group, without its delimiters. Returns `Body`
/// if there are no tokens.
fn body_in<'t, 's>(
    arg: Ident<'s>,
    tokens: Tokens<'t, 's>,
) -> Result<CallbackRun<'t, 's>, CallbackFault>
    ensures { (span : Span) →
        read_view span result ≡ body_in span (ident_slice arg.entry) (tokens_of tokens.entry) }
{
    match tokens.first() {
        None => Err(CallbackFault::Body),
        Some(TokenTree::Group(group)) => Ok(CallbackRun::Inline(arg, group.run())),
        Some(_) => Ok(CallbackRun::Inline(arg, tokens)),
    }
}

/// Returns the closure with the parameter `arg` and the body that follows the `|` at the beginning
/// of `tokens`. Returns `Body` if there are no tokens, and `Closure` if the first token is not a
/// `|`.
fn bar_in<'t, 's>(
    arg: Ident<'s>,
    tokens: Tokens<'t, 's>,
) -> Result<CallbackRun<'t, 's>, CallbackFault>
    ensures { (span : Span) →
        read_view span result ≡ bar_in span (ident_slice arg.entry) (tokens_of tokens.entry) }
{
    match split(tokens) {
        None => Err(CallbackFault::Body),
        Some((tree, rest)) if is_punct(&tree, '|') => body_in(arg, rest),
        Some(_) => Err(CallbackFault::Closure),
    }
}

/// Returns the closure whose parameter is the first token of `tokens`, or the reason why `tokens`
/// are not a closure.
fn parameter_in<'t, 's>(tokens: Tokens<'t, 's>) -> Result<CallbackRun<'t, 's>, CallbackFault>
    ensures { (span : Span) → read_view span result ≡ parameter_in span (tokens_of tokens.entry) }
{
    match split(tokens) {
        Some((TokenTree::Ident(arg), rest)) => bar_in(arg, rest),
        _ => Err(CallbackFault::Closure),
    }
}

/// Returns the callback that the run `tokens` spells, or the reason why the run is not a callback.
fn callback_in<'t, 's>(tokens: Tokens<'t, 's>) -> Result<CallbackRun<'t, 's>, CallbackFault>
    ensures { read_view (run_span (tokens_of tokens.entry)) result
        ≡ callback_in (tokens_of tokens.entry) }
{
    match split(tokens) {
        None => Err(CallbackFault::Closure),
        Some((tree, rest)) if is_punct(&tree, '|') => parameter_in(rest),
        Some(_) => Ok(CallbackRun::Label(tokens)),
    }
}

/// Copies the tokens of `run` into a callback. If the callback is a closure, its span is `span`.
fn copied<'s>(alloc: Global, run: CallbackRun<'_, 's>, span: Span) -> Result<Callback<'s>, Memory>
    ensures { IfOk result (λ callback. callback_view callback ≡ run_view span run.entry) }
{
    match run {
        CallbackRun::Label(tokens) => Ok(Callback::Label(tokens.to_stream(alloc)?)),
        CallbackRun::Inline(arg, body) => {
            let body = body.to_stream(alloc)?;
            Ok(Callback::Inline(InlineCallback { arg, body, span }))
        }
    }
}

/// Reports that the run at `span` is not a closure with one parameter.
fn report_closure(errors: &mut Errors, span: Span) -> Result<(), Memory>
    ensures ok { OnOk result (AddsFault (callback_closure span) errors.old errors.new) }
    ensures unreported { OnErr result (errors.new ≡ errors.old) }
{
    errors.err(
        FaultCode::CallbackClosure,
        "Inline callbacks must use closure syntax with exactly one parameter",
        span,
    )?;
    Ok(())
}

/// Reports that the closure at `span` has no body.
fn report_body(errors: &mut Errors, span: Span) -> Result<(), Memory>
    ensures ok { OnOk result (AddsFault (callback_body span) errors.old errors.new) }
    ensures unreported { OnErr result (errors.new ≡ errors.old) }
{
    errors.err(FaultCode::CallbackBody, "Callback missing a body", span)?;
    Ok(())
}

/// Reports `cause` as the reason why the run at `span` is not a callback.
fn report_callback(errors: &mut Errors, cause: CallbackFault, span: Span) -> Result<(), Memory>
    ensures ok { OnOk result (AddsFault (callback_fault span cause) errors.old errors.new) }
    ensures unreported { OnErr result (errors.new ≡ errors.old) }
{
    match cause {
        CallbackFault::Closure => report_closure(errors, span)?,
        CallbackFault::Body => report_body(errors, span)?,
    }
    Ok(())
}

/// Reads the run `tokens` as a callback without a name before it. If the run is not a callback,
/// reports the reason and returns `None`.
///
/// # Errors
///
/// Returns `Memory` if memory runs out. The faults are then unchanged.
pub fn read_callback<'s>(
    tokens: Tokens<'_, 's>,
    errors: &mut Errors,
) -> Result<Option<Callback<'s>>, Memory>
    ensures ok { IfOk result (λ callback.
        IsReport (callback_report (tokens_of tokens.entry))
        (option_map callback_view callback) errors.old errors.new) }
    ensures unreported { OnErr result (errors.new ≡ errors.old) }
{
    let span = tokens.span();
    match callback_in(tokens) {
        Ok(run) => Ok(Some(copied(errors.alloc(), run, span)?)),
        Err(cause) => {
            report_callback(errors, cause, span)?;
            Ok(None)
        }
    }
}

/// Reports the second callback at `span`, with the span of the preceding identifier `name`. Then
/// reports the first callback, `former`. After an error, the faults are unchanged.
fn report_again(
    errors: &mut Errors,
    name: Ident<'_>,
    span: Span,
    former: &Callback<'_>,
) -> Result<(), Memory>
    ensures ok { OnOk result (errors.new
        ≡ errors.old
        ++ twice_at (ident_slice name.entry) span (view_span (callback_view former.now))) }
    ensures unreported { OnErr result (errors.new ≡ errors.old) }
{
    let mut found = Errors::new(errors.alloc());
    found.err_also(
        FaultCode::CallbackTwice,
        "Callback has been already set",
        span,
        name.span,
    )?;
    found.err(
        FaultCode::Previous,
        "Previous callback set here",
        former.span(),
    )?;
    errors.append(found)
}

/// Reports `cause` as the reason why the run at `span` is not a callback. Then reports that the run
/// is not a valid value of `callback = ..`. After an error, the faults are unchanged.
fn report_no_callback(errors: &mut Errors, cause: CallbackFault, span: Span) -> Result<(), Memory>
    ensures ok { OnOk result (errors.new
        ≡ errors.old ++ callback_fault span cause ∷ callback_no_value span ∷ []) }
    ensures unreported { OnErr result (errors.new ≡ errors.old) }
{
    let mut found = Errors::new(errors.alloc());
    report_callback(&mut found, cause, span)?;
    found.err(FaultCode::CallbackValue, "Not a valid callback", span)?;
    errors.append(found)
}

/// Sets `callback` to the callback that `tokens` spell. `tokens` are the value of `callback = ..`,
/// and `name` is the identifier `callback`. If a callback is already set, reports both callbacks
/// and replaces the first. If the run is not a callback, reports the reason and sets nothing.
///
/// # Errors
///
/// Returns `Memory` if memory runs out. The callback and the faults are then unchanged.
pub fn set_callback<'s>(
    callback: &mut Option<Callback<'s>>,
    name: Ident<'s>,
    tokens: Tokens<'_, 's>,
    errors: &mut Errors,
) -> Result<(), Memory>
    ensures ok { OnOk result (IsReport
        (callback_set (ident_slice name.entry) (tokens_of tokens.entry)
        (option_map callback_view callback.old))
        (option_map callback_view callback.new) errors.old errors.new) }
    ensures unchanged { OnErr result (callback.new ≡ callback.old) }
    ensures unreported { OnErr result (errors.new ≡ errors.old) }
{
    let span = tokens.span();
    match callback_in(tokens) {
        Ok(run) => {
            let next = copied(errors.alloc(), run, span)?;
            if let Some(former) = &*callback {
                report_again(errors, name, span, former)?;
            }
            *callback = Some(next);
            Ok(())
        }
        Err(cause) => report_no_callback(errors, cause, span),
    }
}
