//! Functions that find the closures of a source among the source's tokens. `callbacks` calls them
//! once for the callbacks of all leaves and once for the error callback.

use logos_pattern::leaf::{Callback, Leaf};
use logos_token::token::{TokenTree, Tokens};
use std::alloc::{AllocError, Global};

/// Returns the byte offset at which the closure `callback` begins in the source, or `None` if
/// `callback` is not a closure.
pub(crate) fn closure_start(callback: Option<&Callback<'_>>) -> Option<usize> {
    match callback {
        Some(Callback::Inline(closure)) => Some(closure.span.from),
        _ => None,
    }
}

/// Returns the byte offsets in the source at which the closures of `leaves` begin, in the order of
/// the leaves.
pub(crate) fn closure_starts(alloc: Global, leaves: &[Leaf<'_>]) -> Result<Vec<usize>, AllocError> {
    let mut starts = Vec::new(alloc);
    for leaf in leaves {
        if let Some(start) = closure_start(leaf.callback.as_ref()) {
            starts.push(start)?;
        }
    }
    Ok(starts)
}

/// Returns the runs of tokens that begin at the byte offsets `starts` in a source. `tokens` are the
/// tokens of the source, and the offsets must ascend. Each run extends to the end of the innermost
/// group that contains the run, or to the end of the source. The result ends before the first
/// offset at which no token begins.
pub(crate) fn runs_at<'t, 's>(
    alloc: Global,
    tokens: Tokens<'t, 's>,
    starts: &[usize],
) -> Result<Vec<Tokens<'t, 's>>, AllocError> {
    let mut runs = Vec::new(alloc);
    search_run(tokens, starts, &mut runs)?;
    Ok(runs)
}

/// Searches `run` and its groups for the runs that begin at the next offsets, and appends these
/// runs to `runs`. The next offsets are the elements of `starts` from the index `runs.len()` on.
#[cycle(search)]
fn search_run<'t, 's>(
    run: Tokens<'t, 's>,
    starts: &[usize],
    runs: &mut Vec<Tokens<'t, 's>>,
) -> Result<(), AllocError> {
    let mut rest = run;
    while !rest.is_empty() {
        search_first(rest, starts, runs)?;
        rest = rest.rest();
    }
    Ok(())
}

/// Appends `run` to `runs` if the first token of `run` begins at the next offset, the element of
/// `starts` at the index `runs.len()`. If the first token is a group, also appends the runs in the
/// group.
#[cycle(search)]
fn search_first<'t, 's>(
    run: Tokens<'t, 's>,
    starts: &[usize],
    runs: &mut Vec<Tokens<'t, 's>>,
) -> Result<(), AllocError> {
    add_if_next(run, starts, runs)?;
    match run.first() {
        Some(TokenTree::Group(group)) => search_run(group.run(), starts, runs),
        _ => Ok(()),
    }
}

/// Appends `run` to `runs` if the first token of `run` begins at the next offset, the element of
/// `starts` at the index `runs.len()`.
fn add_if_next<'t, 's>(
    run: Tokens<'t, 's>,
    starts: &[usize],
    runs: &mut Vec<Tokens<'t, 's>>,
) -> Result<(), AllocError> {
    let Some(first) = run.first() else {
        return Ok(());
    };
    if starts.get(runs.len()).copied() == Some(first.span().from) {
        runs.push(run)?;
    }
    Ok(())
}
