//! Functions that strip runs of tokens, group by group. `stripper` calls `strip_run` for a whole
//! enum.

ghost use Rattle.std.specs.Prelude.{◌≡◌, ◌<◌, ◌≤◌, ◌∷◌, List, Option, Some, None, IfOk};
ghost use Rattle.logos_strip.specs.Views.{Token, tokens_of, tree_of, stream_tokens, Open, scope_inside, left, thinned, sorted, completed, group_token};

use crate::spots::{Scope, TokenSpot, goes, scope_of, spot_after};
use crate::writer::Writer;
use logos_token::error::Memory;
use logos_token::token::{Group, TokenStream, TokenTree, Tokens};
use std::alloc::Global;

/// Appends the group `whole` to the writer, with the tokens inside it stripped. `scope` is the part
/// of the enum that these tokens form.
#[cycle(walk)]
fn keep_group<'s>(
    alloc: Global,
    writer: Writer<'s>,
    scope: Scope,
    whole: Group<'_, 's>,
) -> Result<Writer<'s>, Memory>
    ensures { IfOk result (λ next. (pieces : List (Option Token)) → completed next pieces
        ≡ completed writer.entry (Some (thinned (Some scope) (group_token whole.entry)) ∷ pieces)) }
{
    let inside = strip_run(alloc, scope, whole.run())?;
    writer.with_tree(TokenTree::Group(inside.group(whole.delimiter, whole.span)))
}

/// Strips the tokens inside the token `tree`, and appends the token to the writer. `spot` is the
/// spot of the token in a run of `scope`, and `rest` are the tokens after `tree`.
#[cycle(walk)]
fn keep<'s>(
    alloc: Global,
    writer: Writer<'s>,
    scope: Scope,
    spot: TokenSpot,
    tree: TokenTree<'_, 's>,
    rest: Tokens<'_, 's>,
) -> Result<Writer<'s>, Memory>
    ensures { IfOk result (λ next. (pieces : List (Option Token)) → completed next pieces
        ≡ completed writer.entry (Some (thinned
        (scope_inside scope spot (tree_of tree.entry) (tokens_of rest.entry))
        (tree_of tree.entry)) ∷ pieces)) }
{
    let TokenTree::Group(whole) = tree else {
        return writer.with_tree(tree);
    };
    match scope_of(scope, spot, whole.delimiter, rest) {
        Some(inner) => keep_group(alloc, writer, inner, whole),
        None => writer.with_tree(tree),
    }
}

/// Returns the tokens of `run` that remain. `scope` is the part of the enum that the run forms.
///
/// # Errors
///
/// Returns `Memory` if memory runs out.
#[cycle(walk)]
pub(crate) fn strip_run<'s>(
    alloc: Global,
    scope: Scope,
    run: Tokens<'_, 's>,
) -> Result<TokenStream<'s>, Memory>
    ensures { IfOk result (λ stream. stream_tokens stream
        ≡ left (sorted scope Open (tokens_of run.entry))) }
{
    let mut writer = Writer::new(alloc);
    let mut spot = TokenSpot::Open;
    let mut tokens = run;
    while let Some(tree) = tokens.first() {
        let rest = tokens.rest();
        let gone = goes(scope, spot, tokens);
        writer = if gone {
            writer.without_tree()?
        } else {
            keep(alloc, writer, scope, spot, tree, rest)?
        };
        spot = spot_after(scope, spot, gone, tree);
        tokens = rest;
    }
    writer.finish()
}
