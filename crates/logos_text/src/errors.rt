//! The printer of the function that creates errors. `code` or `actions` calls `push_make_error`
//! once for each lexer.

ghost use Rattle.std.specs.Prelude.{OnOk, option_copied, option_map};
ghost use Rattle.logos_text.specs.Views.{Notes, called_runs, callback_runs, callback_value, inline_runs, noted_runs, stream_tokens, tokens_of};

use crate::names::Names;
use crate::sink::Sink;
use logos_pattern::leaf::{Callback, InlineCallback};
use logos_token::error::Memory;
use logos_token::token::Tokens;
use std::alloc::Global;

/// Appends the function `_make_error`, which creates the error for bytes that no leaf matches.
pub(crate) fn push_make_error(
    alloc: Global,
    sink: &mut Sink,
    callback: Option<&Callback<'_>>,
    names: Names<'_>,
) -> Result<(), Memory>
    ensures { OnOk result (Notes (called_runs (option_map callback_value (option_copied callback.entry)))
        sink.old sink.new) }
{
    let this = names.this;
    write!(
        sink.text,
        "# [ inline ] fn _make_error < 's > ( lex : & mut _Lexer < 's > ) -> < {this} as Logos < 's >> :: Error {{ "
    )?;
    push_error_body(alloc, sink, callback, names)?;
    sink.push("} ")?;
    Ok(())
}

/// Appends the body of `_make_error`: the call of the error callback, or the default error if there
/// is no callback.
fn push_error_body(
    alloc: Global,
    sink: &mut Sink,
    callback: Option<&Callback<'_>>,
    names: Names<'_>,
) -> Result<(), Memory>
    ensures { OnOk result (Notes (called_runs (option_map callback_value (option_copied callback.entry)))
        sink.old sink.new) }
{
    let Some(callback) = callback else {
        let this = names.this;
        write!(
            sink.text,
            "< {this} as Logos < 's >> :: Error :: default ( ) "
        )?;
        return Ok(());
    };
    sink.note_call(callback)?;
    push_error_call(alloc, sink, callback)?;
    Ok(())
}

/// Appends the call of the error callback.
fn push_error_call(alloc: Global, sink: &mut Sink, callback: &Callback<'_>) -> Result<(), Memory>
    ensures { OnOk result (Notes (callback_runs (callback_value callback.now)) sink.old sink.new) }
{
    match callback {
        Callback::Label(label) => push_error_label(alloc, sink, label.run()),
        Callback::Inline(inline) => push_error_inline(alloc, sink, inline),
    }
}

/// Appends the call of an error callback. The callback is the function with the path `label`.
fn push_error_label(alloc: Global, sink: &mut Sink, label: Tokens<'_, '_>) -> Result<(), Memory>
    ensures { OnOk result (Notes (noted_runs (tokens_of label.entry)) sink.old sink.new) }
{
    sink.push("let error = ")?;
    sink.push_run(alloc, label)?;
    sink.push("( lex ) ; error . into ( ) ")?;
    Ok(())
}

/// Appends an inline error callback: first the callback's parameter, and then the callback's body.
fn push_error_inline(
    alloc: Global,
    sink: &mut Sink,
    inline: &InlineCallback<'_>,
) -> Result<(), Memory>
    ensures { OnOk result (Notes (inline_runs inline.now.arg (stream_tokens inline.now.body))
        sink.old sink.new) }
{
    sink.push("let ")?;
    sink.push_name(inline.arg)?;
    sink.push(" = lex ; let error = { ")?;
    sink.push_run(alloc, inline.body.run())?;
    sink.push("} ; error . into ( ) ")?;
    Ok(())
}
