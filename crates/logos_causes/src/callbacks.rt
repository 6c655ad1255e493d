//! Warnings about probable mistakes in callbacks: tokens that a closure loses, tokens that exit the
//! function around the closure, and tokens that were probably not meant as a callback. Used by
//! `explanation`.

ghost use Rattle.std.specs.Prelude.{◌≡◌, OnOk};
ghost use Rattle.logos_causes.specs.Views.{AddsEach, IsOfCallback, callback_text};

use crate::closures::{closure_start, closure_starts, runs_at};
use logos_pattern::leaf::{Callback, InlineCallback, Leaf};
use logos_report::Warning;
use logos_token::error::Memory;
use logos_token::token::{Delimiter, Group, Punct, Span, TokenTree, Tokens};
use logos_token::util::begins_with;
use logos_warnings::fixed_warning;
use std::alloc::Global;

/// The owner of a callback: a leaf or the error type.
#[derive(Clone, Copy)]
pub(crate) enum CallbackOwner {
    Leaf,
    ErrorType,
}

/// A kind of probable mistake in a callback.
#[derive(Clone, Copy)]
pub(crate) enum CallbackMistake {
    /// The callback is the name of an argument, such as `priority`, without a value.
    OptionName,
    /// The callback is neither the path of a function nor a closure.
    NoFunction,
    /// The body of a closure ends before the end of the argument that contains the closure.
    Dropped,
    /// The body of a closure loses the brackets or parentheses around it.
    NoBrackets,
    /// The body of a closure begins with the type of its value.
    TypeInBody,
    /// The body of a closure contains a `return`.
    Return,
    /// The body of a closure contains a `?`.
    Question,
}

/// A mistake in a callback, with its span and its help text.
#[derive(Clone, Copy)]
struct FoundMistake {
    mistake: CallbackMistake,
    span: Span,
    help: &'static str,
}

/// Appends the warnings about the callbacks of `leaves` to `warnings`, in the order of the leaves.
/// `tokens` are the tokens of the source.
pub(crate) fn add_callbacks(
    alloc: Global,
    tokens: Tokens<'_, '_>,
    leaves: &[Leaf<'_>],
    warnings: &mut Vec<Warning>,
) -> Result<(), Memory>
    ensures { OnOk result (AddsEach IsOfCallback warnings.old.items warnings.new.items) }
{
    let starts = closure_starts(alloc, leaves)?;
    let runs = runs_at(alloc, tokens, &starts)?;
    let mut next = 0;
    for leaf in leaves {
        let callback = leaf.callback.as_ref();
        add_callback(
            CallbackOwner::Leaf,
            callback,
            runs.get(next).copied(),
            warnings,
        )?;
        next = after_callback(callback, next);
    }
    Ok(())
}

/// Returns the index of the first closure after `callback`. `next` is the index of the first
/// closure from `callback` on. The result is `next + 1` if `callback` is a closure, and `next`
/// otherwise.
fn after_callback(callback: Option<&Callback<'_>>, next: usize) -> usize {
    match callback {
        Some(Callback::Inline(_)) => next.saturating_add(1),
        _ => next,
    }
}

/// Appends the warnings about the error callback to `warnings`. Appends nothing if `callback` is
/// `None`. `tokens` are the tokens of the source.
pub(crate) fn add_error_callback(
    alloc: Global,
    tokens: Tokens<'_, '_>,
    callback: Option<&Callback<'_>>,
    warnings: &mut Vec<Warning>,
) -> Result<(), Memory>
    ensures { OnOk result (AddsEach IsOfCallback warnings.old.items warnings.new.items) }
{
    let mut starts = Vec::new(alloc);
    if let Some(start) = closure_start(callback) {
        starts.push(start)?;
    }
    let runs = runs_at(alloc, tokens, &starts)?;
    add_callback(
        CallbackOwner::ErrorType,
        callback,
        runs.first().copied(),
        warnings,
    )
}

/// Appends the warnings about the callback of `owner` to `warnings`. Appends nothing if `callback`
/// is `None`. If the callback is a closure, `run` begins with the closure, or is `None` if the
/// closure was not found.
fn add_callback(
    owner: CallbackOwner,
    callback: Option<&Callback<'_>>,
    run: Option<Tokens<'_, '_>>,
    warnings: &mut Vec<Warning>,
) -> Result<(), Memory>
    ensures { OnOk result (AddsEach IsOfCallback warnings.old.items warnings.new.items) }
{
    match callback {
        Some(Callback::Label(label)) => add_found(label_mistake(owner, label.run()), warnings),
        Some(Callback::Inline(closure)) => add_closure(closure, run, warnings),
        None => add_found(None, warnings),
    }
}

/// Appends the warning about the mistake `found` to `warnings`. Appends nothing if `found` is
/// `None`.
fn add_found(found: Option<FoundMistake>, warnings: &mut Vec<Warning>) -> Result<(), Memory>
    ensures { OnOk result (AddsEach IsOfCallback warnings.old.items warnings.new.items) }
{
    let Some(found) = found else {
        return Ok(());
    };
    let alloc = *warnings.allocator();
    let message = callback_text(found.mistake);
    warnings.push(fixed_warning(alloc, message, found.span, Some(found.help))?)?;
    Ok(())
}

/// Returns the message about a mistake in a callback.
fn callback_text(mistake: CallbackMistake) -> &'static str
    ensures { result.now ≡ callback_text mistake }
{
    match mistake {
        CallbackMistake::OptionName => "an option without a value is a callback of this name",
        CallbackMistake::NoFunction => {
            "this callback is neither the path of a function nor a closure"
        }
        CallbackMistake::Dropped => {
            "the body of this closure ends before this, which is dropped"
        }
        CallbackMistake::NoBrackets => "the body of this closure loses its outer brackets",
        CallbackMistake::TypeInBody => {
            "the type in front of the body of this closure becomes a part of the body"
        }
        CallbackMistake::Return => {
            "`return` leaves the function into which this closure is written, not the closure"
        }
        CallbackMistake::Question => {
            "`?` leaves the function into which this closure is written, not the closure"
        }
    }
}

const PATH: &str = "write the path of a function, or a closure with one parameter, as `|lex| ..`";

/// Returns the mistake in a callback of `owner`, or `None` if there is no mistake. The callback is
/// not a closure, and `label` contains its tokens.
fn label_mistake(owner: CallbackOwner, label: Tokens<'_, '_>) -> Option<FoundMistake> {
    let span = label.span();
    if names_option(label) {
        return Some(FoundMistake {
            mistake: CallbackMistake::OptionName,
            span,
            help: help_for_option(owner, label),
        });
    }
    if is_path(label) {
        return None;
    }
    Some(FoundMistake {
        mistake: CallbackMistake::NoFunction,
        span,
        help: help_for_label(owner, label),
    })
}

/// Returns the help text for a callback of `owner`, if the callback is only the name of an
/// argument. `label` contains the name.
fn help_for_option(owner: CallbackOwner, label: Tokens<'_, '_>) -> &'static str {
    match owner {
        CallbackOwner::Leaf => "write its value, as in `priority = 3` or `ignore(case)`",
        CallbackOwner::ErrorType => help_for_error(label),
    }
}

/// Returns the help text for a callback of `owner`, if the callback is neither a path nor a
/// closure. `label` contains the tokens of the callback.
fn help_for_label(owner: CallbackOwner, label: Tokens<'_, '_>) -> &'static str {
    match owner {
        CallbackOwner::Leaf => help_for_leaf(label),
        CallbackOwner::ErrorType => help_for_error(label),
    }
}

/// Returns the help text for the callback of an error type, if the callback does not name a
/// function. `label` contains the tokens of the callback. The only named argument of an error type
/// is `callback`.
fn help_for_error(label: Tokens<'_, '_>) -> &'static str {
    match label.first() {
        Some(TokenTree::Ident(name)) if name.text == "callback" => {
            "write its value after `=`, as in `callback = |lex| ..`"
        }
        _ => PATH,
    }
}

/// Returns the help text for the callback of a leaf, if the callback is neither a path nor a
/// closure. The text depends on the first token of `label`, the tokens of the callback.
fn help_for_leaf(label: Tokens<'_, '_>) -> &'static str {
    match label.first() {
        Some(TokenTree::Ident(name)) if is_option(name.text) => {
            "write the `=`, as in `priority = 3` or `callback = |lex| ..`"
        }
        Some(TokenTree::Literal(literal)) if literal.text.contains('"') => {
            "write an attribute for each text, and a callback as a path or as `|lex| ..`"
        }
        Some(TokenTree::Literal(_)) => {
            "write `priority = 3` for a priority, and a callback as a path or as `|lex| ..`"
        }
        _ => PATH,
    }
}

/// Returns whether `label` consists only of the name of an argument.
fn names_option(label: Tokens<'_, '_>) -> bool {
    match label.first() {
        Some(TokenTree::Ident(name)) => label.rest().is_empty() & is_option(name.text),
        _ => false,
    }
}

/// Returns whether `name` is the name of an argument of a pattern. Returns `true` also for
/// `ignore_case` and `ignore_ascii_case`, which are often mistaken for such names.
fn is_option(name: &str) -> bool {
    let is_argument = (name == "priority") | (name == "callback") | (name == "allow_greedy");
    is_argument | (name == "ignore") | (name == "ignore_case") | (name == "ignore_ascii_case")
}

/// Returns whether the tokens `label` can be the path of a function.
fn is_path(label: Tokens<'_, '_>) -> bool {
    let mut rest = label;
    while let Some(tree) = rest.first() {
        if !is_path_part(tree) {
            return false;
        }
        rest = rest.rest();
    }
    begins_path(label)
}

/// Returns whether `label` begins like a path: with a name other than `move`, with `:`, or with
/// `<`.
fn begins_path(label: Tokens<'_, '_>) -> bool {
    match label.first() {
        Some(TokenTree::Ident(name)) => name.text != "move",
        Some(TokenTree::Punct(_)) => begins_with(':', label) | begins_with('<', label),
        _ => false,
    }
}

/// Returns whether a token can be a part of the path of a function, or of a type in such a path.
fn is_path_part(tree: TokenTree<'_, '_>) -> bool {
    match tree {
        TokenTree::Ident(_) => true,
        TokenTree::Punct(punct) => matches!(punct.character, ':' | '<' | '>' | ',' | '&' | '\''),
        TokenTree::Group(group) => group.delimiter != Delimiter::Brace,
        _ => false,
    }
}

/// Appends the warnings about a closure to `warnings`. The warnings about tokens of the body that
/// exit the function around the closure come first. `run` begins with the closure, or is `None` if
/// the closure was not found.
fn add_closure(
    closure: &InlineCallback<'_>,
    run: Option<Tokens<'_, '_>>,
    warnings: &mut Vec<Warning>,
) -> Result<(), Memory>
    ensures { OnOk result (AddsEach IsOfCallback warnings.old.items warnings.new.items) }
{
    add_escapes(closure.body.run(), warnings)?;
    add_found(closure_mistake(closure.span.to, run), warnings)
}

/// Returns the mistake in the body of a closure, or `None` if there is no mistake or `run` is
/// `None`. `run` begins with the closure, and the closure ends at the byte offset `to` in the
/// source.
fn closure_mistake(to: usize, run: Option<Tokens<'_, '_>>) -> Option<FoundMistake> {
    match run {
        Some(run) => body_mistake(to, after_bars(run)),
        None => None,
    }
}

/// Returns the tokens after the parameter of a closure and after the bars around the parameter.
/// `closure` begins with the closure.
fn after_bars<'t, 's>(closure: Tokens<'t, 's>) -> Tokens<'t, 's> {
    closure.rest().rest().rest()
}

/// Returns the mistake in the body of a closure, or `None` if there is no mistake. `body` begins
/// with the body, and the closure ends at the byte offset `to` in the source.
fn body_mistake(to: usize, body: Tokens<'_, '_>) -> Option<FoundMistake> {
    match body.first() {
        Some(TokenTree::Group(group)) => group_mistake(to, group, body.rest()),
        Some(TokenTree::Punct(punct)) => type_mistake(to, punct, body.rest()),
        _ => None,
    }
}

const BRACES: &str = "put all of the body in braces";

/// Returns the mistake in a body that begins with `group`, or `None` if there is no mistake. Either
/// the closure drops the tokens of `rest` before the byte offset `to`, or the loss of the group's
/// delimiters changes the meaning of the group. `rest` contains the tokens after the group.
fn group_mistake(to: usize, group: Group<'_, '_>, rest: Tokens<'_, '_>) -> Option<FoundMistake> {
    if let Some(span) = dropped(to, rest) {
        return Some(FoundMistake {
            mistake: CallbackMistake::Dropped,
            span,
            help: BRACES,
        });
    }
    if loses_brackets(group.delimiter, group.run()) {
        return Some(FoundMistake {
            mistake: CallbackMistake::NoBrackets,
            span: group.span,
            help: BRACES,
        });
    }
    None
}

/// Returns the span from the first token of `run` to the byte offset `to`, or `None` if no token of
/// `run` begins before `to`.
fn dropped(to: usize, run: Tokens<'_, '_>) -> Option<Span> {
    let from = run.first()?.span().from;
    if from < to {
        Some(Span { from, to })
    } else {
        None
    }
}

/// Returns whether a group with the tokens `inside` has another meaning without its delimiters.
/// This holds for a group in brackets, and for a group in parentheses that contains a comma.
fn loses_brackets(delimiter: Delimiter, inside: Tokens<'_, '_>) -> bool {
    match delimiter {
        Delimiter::Bracket => true,
        Delimiter::Parenthesis => has_comma(inside),
        _ => false,
    }
}

/// Returns whether `run` contains a comma outside of its groups.
fn has_comma(run: Tokens<'_, '_>) -> bool {
    let mut rest = run;
    while !rest.is_empty() {
        if begins_with(',', rest) {
            return true;
        }
        rest = rest.rest();
    }
    false
}

/// Returns the mistake in a body that begins with `->` and the type of the closure's value, or
/// `None` for any other body. `first` is the first token of the body, and `rest` contains the
/// tokens after `first`. The closure ends at the byte offset `to` in the source.
fn type_mistake(to: usize, first: Punct, rest: Tokens<'_, '_>) -> Option<FoundMistake> {
    let from = first.span.from;
    if (first.character == '-') & begins_with('>', rest) {
        return Some(FoundMistake {
            mistake: CallbackMistake::TypeInBody,
            span: Span { from, to },
            help: "leave the type out, or write a function and name it",
        });
    }
    None
}

/// Appends a warning to `warnings` for each `return` and each `?` of `body` that is not in a group.
/// Such a token exits the function around the closure.
fn add_escapes(body: Tokens<'_, '_>, warnings: &mut Vec<Warning>) -> Result<(), Memory>
    ensures { OnOk result (AddsEach IsOfCallback warnings.old.items warnings.new.items) }
{
    let mut rest = body;
    while let Some(tree) = rest.first() {
        add_found(escape(tree), warnings)?;
        rest = rest.rest();
    }
    Ok(())
}

/// Returns the mistake of a `return` or a `?`, which exits the function around the closure. Returns
/// `None` for any other token.
fn escape(tree: TokenTree<'_, '_>) -> Option<FoundMistake> {
    let (mistake, span) = match tree {
        TokenTree::Ident(name) if name.text == "return" => (CallbackMistake::Return, name.span),
        TokenTree::Punct(punct) if punct.character == '?' => {
            (CallbackMistake::Question, punct.span)
        }
        _ => return None,
    };
    Some(FoundMistake {
        mistake,
        span,
        help: "write a function and name it, as in `callback = parse`",
    })
}
