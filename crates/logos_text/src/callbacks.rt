//! Printers of the calls of leaves' callbacks. `leaves` calls `push_call`.

ghost use Rattle.std.specs.Prelude.{OnOk};
ghost use Rattle.logos_text.specs.Views.{Notes, callback_runs, callback_value, inline_runs, noted_runs, stream_tokens, tokens_of};

use crate::sink::Sink;
use logos_pattern::leaf::{Callback, InlineCallback};
use logos_token::error::Memory;
use logos_token::token::Tokens;
use std::alloc::Global;

/// Appends the call of a callback, as an expression.
pub(crate) fn push_call(
    alloc: Global,
    sink: &mut Sink,
    callback: &Callback<'_>,
) -> Result<(), Memory>
    ensures { OnOk result (Notes (callback_runs (callback_value callback.now)) sink.old sink.new) }
{
    match callback {
        Callback::Label(label) => push_label(alloc, sink, label.run()),
        Callback::Inline(inline) => push_inline(alloc, sink, inline),
    }
}

/// Appends the call of a callback. The callback is the function with the path `label`.
fn push_label(alloc: Global, sink: &mut Sink, label: Tokens<'_, '_>) -> Result<(), Memory>
    ensures { OnOk result (Notes (noted_runs (tokens_of label.entry)) sink.old sink.new) }
{
    sink.push_run(alloc, label)?;
    sink.push("( lex ) ")?;
    Ok(())
}

/// Appends an inline callback as a block: first the callback's parameter, and then the callback's
/// body.
fn push_inline(alloc: Global, sink: &mut Sink, inline: &InlineCallback<'_>) -> Result<(), Memory>
    ensures { OnOk result (Notes (inline_runs inline.now.arg (stream_tokens inline.now.body))
        sink.old sink.new) }
{
    sink.push("{ let ")?;
    sink.push_name(inline.arg)?;
    sink.push(" = lex ; ")?;
    sink.push_run(alloc, inline.body.run())?;
    sink.push("} ")?;
    Ok(())
}
