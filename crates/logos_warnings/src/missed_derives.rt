//! Warns about `derive` entries that name the derive macro but are ignored, because the enum is not
//! found or the path of the entry is unknown. Used by `logos_file_warnings`.

ghost use Rattle.std.specs.Prelude.{All, IfOk};
ghost use Rattle.logos_warnings.specs.Views.{IsPassedOver};

use crate::warning_list::fixed_warning;
use logos_report::Warning;
use logos_token::error::Memory;
use logos_token::token::{Delimiter, Span, TokenTree, Tokens};
use logos_token::util::{after_word, begins_with};
use std::alloc::{AllocError, Global};

const MESSAGE: &str = "this derive of `Logos` is passed over";

const HELP: &str =
    "write `derive(Logos)` or `derive(logos::Logos)` on an enum outside of functions and macros";

/// Returns a warning for each `derive` list of a file that names the derive macro, with any path,
/// and begins outside of the spans in `found`. `tokens` are the tokens of the file. `found`
/// contains the spans of the enums that were found to derive the macro, in the order of the file.
///
/// # Errors
///
/// Returns `Memory` if memory runs out.
pub fn passed_over(
    alloc: Global,
    tokens: Tokens<'_, '_>,
    found: &[Span],
) -> Result<Vec<Warning>, Memory>
    ensures { IfOk result (λ warnings. All IsPassedOver warnings.items) }
{
    let mut derives = Vec::new(alloc);
    search_run(tokens, &mut derives)?;
    Ok(warnings_of(alloc, &derives, found)?)
}

/// Returns a warning for each span in `derives` that begins outside of the spans in `found`. Both
/// lists of spans must be in the order of the file.
fn warnings_of(alloc: Global, derives: &[Span], found: &[Span]) -> Result<Vec<Warning>, AllocError>
    ensures { IfOk result (λ warnings. All IsPassedOver warnings.items) }
{
    let mut warnings = Vec::new(alloc);
    let mut left = found;
    for span in derives {
        left = from_offset(left, span.from);
        if !begins_before(left, span.from) {
            warnings.push(fixed_warning(alloc, MESSAGE, *span, Some(HELP))?)?;
        }
    }
    Ok(warnings)
}

/// Returns the spans in `found` without the leading spans that end at or before `offset`.
fn from_offset(found: &[Span], offset: usize) -> &[Span] {
    let mut left = found;
    while let [first, rest @ ..] = left {
        if first.to > offset {
            return left;
        }
        left = rest;
    }
    left
}

/// Returns whether the first span in `found` begins at or before `offset`. Returns `false` if
/// `found` is empty.
fn begins_before(found: &[Span], offset: usize) -> bool {
    match found.first() {
        Some(span) => span.from <= offset,
        None => false,
    }
}

/// Searches a run, including its groups, for `derive` lists that contain the derive macro. Appends
/// the spans of these lists to `found`.
#[cycle(search)]
fn search_run(run: Tokens<'_, '_>, found: &mut Vec<Span>) -> Result<(), AllocError> {
    let mut rest = run;
    while !rest.is_empty() {
        search_first(rest, found)?;
        rest = rest.rest();
    }
    Ok(())
}

/// Appends the span of a `derive` list at the beginning of a run to `found`, as `add_derive` does.
/// If the run begins with a group, appends the spans of the `derive` lists in the group.
#[cycle(search)]
fn search_first(run: Tokens<'_, '_>, found: &mut Vec<Span>) -> Result<(), AllocError> {
    add_derive(run, found)?;
    match run.first() {
        Some(TokenTree::Group(group)) => search_run(group.run(), found),
        _ => Ok(()),
    }
}

/// Appends the span of the word `derive` and the list after this word to `found`. Appends nothing
/// if the run does not begin with `derive` and a list, or if the list does not contain the derive
/// macro.
fn add_derive(run: Tokens<'_, '_>, found: &mut Vec<Span>) -> Result<(), AllocError> {
    let Some(rest) = after_word("derive", run) else {
        return Ok(());
    };
    match rest.first() {
        Some(tree) if is_list(tree) => {
            found.push(Span {
                from: run.span().from,
                to: tree.span().to,
            })?;
            Ok(())
        }
        _ => Ok(()),
    }
}

/// Returns whether a token is a list in parentheses that contains the derive macro.
fn is_list(tree: TokenTree<'_, '_>) -> bool {
    match tree {
        TokenTree::Group(group) => (group.delimiter == Delimiter::Parenthesis)
            & lists_macro(group.run()),
        _ => false,
    }
}

/// Returns whether an entry of a list ends with `Logos`. `list` contains the tokens of the list.
fn lists_macro(list: Tokens<'_, '_>) -> bool {
    let mut rest = list;
    while !rest.is_empty() {
        if ends_with_macro(rest) {
            return true;
        }
        rest = rest.rest();
    }
    false
}

/// Returns whether a run begins with `Logos` at the end of an entry.
fn ends_with_macro(run: Tokens<'_, '_>) -> bool {
    match after_word("Logos", run) {
        Some(rest) => rest.is_empty() | begins_with(',', rest),
        None => false,
    }
}
