//! Printers of the functions that a table-driven lexer calls for errors, matches and tokens. These
//! functions represent each leaf by its number. `code` calls `push_table_actions` once.

ghost use Rattle.std.specs.Prelude.{◌≡◌, OnOk};
ghost use Rattle.logos_text.specs.Views.{Notes, NotesLast, called_leaf_runs, flat_map, is_called, last_arm_text, leaf_runs, plain_leaf_runs, table_runs, variant_runs};

use crate::errors::push_make_error;
use crate::leaves::{push_leaf, push_variant};
use crate::names::Names;
use crate::sink::Sink;
use logos_code::code::{CodeLeaf, CodeParts};
use logos_pattern::leaf::VariantKind;
use logos_token::error::Memory;
use logos_token::token::Ident;
use std::alloc::Global;

/// Appends the functions for errors, for matches, and for the tokens of leaves that have no
/// callback and whose variant has no field.
pub(crate) fn push_table_actions(
    alloc: Global,
    sink: &mut Sink,
    parts: &CodeParts<'_>,
    names: Names<'_>,
) -> Result<(), Memory>
    ensures { OnOk result (NotesLast last_arm_text (table_runs names.entry.name
        parts.now.header.error_callback parts.now.leaves.items) sink.old sink.new) }
{
    push_make_error(alloc, sink, parts.header.error_callback.as_ref(), names)?;
    push_action(alloc, sink, &parts.leaves, names)?;
    push_tokens(sink, &parts.leaves, names)?;
    sink.push("_ => _Option :: None } } ")?;
    Ok(())
}

/// Appends the function `_get_action`. The function returns the result of a match of a leaf that
/// has a callback or a field, and skips the matches of other leaves.
fn push_action(
    alloc: Global,
    sink: &mut Sink,
    leaves: &[CodeLeaf<'_>],
    names: Names<'_>,
) -> Result<(), Memory>
    ensures { OnOk result (Notes (flat_map (called_leaf_runs names.entry.name) leaves.now)
        sink.old sink.new) }
{
    let this = names.this;
    write!(
        sink.text,
        "# [ inline ] # [ allow ( clippy :: match_single_binding ) ] fn _get_action < 's > ( lex : & mut _Lexer < 's > , leaf : usize ) -> CallbackResult < 's , {this} > {{ match leaf {{ "
    )?;
    push_action_arms(alloc, sink, leaves, names)?;
    sink.push("_ => { let _ = lex ; CallbackResult :: Skip } } } ")?;
    Ok(())
}

/// Appends the match arms of the leaves that have a callback or a field.
fn push_action_arms(
    alloc: Global,
    sink: &mut Sink,
    leaves: &[CodeLeaf<'_>],
    names: Names<'_>,
) -> Result<(), Memory>
    ensures { OnOk result (Notes (flat_map (called_leaf_runs names.entry.name) leaves.now)
        sink.old sink.new) }
{
    for n in 0..leaves.len() {
        push_action_arm(alloc, sink, n, &leaves[n], names)?;
    }
    Ok(())
}

/// Appends the match arm of leaf number `n` if the leaf has a callback or a field. Otherwise
/// appends nothing.
fn push_action_arm(
    alloc: Global,
    sink: &mut Sink,
    n: usize,
    leaf: &CodeLeaf<'_>,
    names: Names<'_>,
) -> Result<(), Memory>
    ensures { OnOk result (Notes (called_leaf_runs names.entry.name leaf.now) sink.old sink.new) }
{
    if is_called(leaf) {
        return push_called_arm(alloc, sink, n, leaf, names);
    }
    sink.push("")?;
    Ok(())
}

/// Appends the match arm of leaf number `n`, a leaf with a callback or a field.
fn push_called_arm(
    alloc: Global,
    sink: &mut Sink,
    n: usize,
    leaf: &CodeLeaf<'_>,
    names: Names<'_>,
) -> Result<(), Memory>
    ensures { OnOk result (Notes (leaf_runs names.entry.name leaf.now) sink.old sink.new) }
{
    write!(sink.text, "{n} => {{ ")?;
    push_leaf(alloc, sink, leaf, names)?;
    sink.push("} , ")?;
    Ok(())
}

/// Returns whether a leaf has a callback or a variant with a field.
fn is_called(leaf: &CodeLeaf<'_>) -> bool
    ensures { result ≡ is_called leaf.now }
{
    leaf.callback.is_some() | matches!(leaf.kind, VariantKind::Value(_, _))
}

/// Appends the beginning of the function `_token`, before the match arm for other leaves. The
/// function returns the token of a leaf that has no callback and whose variant has no field.
fn push_tokens(sink: &mut Sink, leaves: &[CodeLeaf<'_>], names: Names<'_>) -> Result<(), Memory>
    ensures { OnOk result (Notes (flat_map (plain_leaf_runs names.entry.name) leaves.now)
        sink.old sink.new) }
{
    let this = names.this;
    write!(
        sink.text,
        "# [ inline ] # [ allow ( clippy :: extra_unused_lifetimes , clippy :: match_single_binding ) ] fn _token < 's > ( leaf : usize ) -> _Option < {this} > {{ match leaf {{ "
    )?;
    push_token_arms(sink, leaves, names.name)?;
    Ok(())
}

/// Appends the match arms of the leaves that have no callback and whose variant has no field.
fn push_token_arms(sink: &mut Sink, leaves: &[CodeLeaf<'_>], name: Ident<'_>) -> Result<(), Memory>
    ensures { OnOk result (Notes (flat_map (plain_leaf_runs name.entry) leaves.now) sink.old sink.new) }
{
    for n in 0..leaves.len() {
        push_token(sink, n, &leaves[n], name)?;
    }
    Ok(())
}

/// Appends the match arm of leaf number `n` if the leaf has no callback and its variant has no
/// field. Otherwise appends nothing.
fn push_token(sink: &mut Sink, n: usize, leaf: &CodeLeaf<'_>, name: Ident<'_>) -> Result<(), Memory>
    ensures { OnOk result (Notes (plain_leaf_runs name.entry leaf.now) sink.old sink.new) }
{
    match &leaf.kind {
        VariantKind::Unit(variant) if leaf.callback.is_none() => {
            push_token_arm(sink, n, name, *variant)
        }
        _ => sink.push(""),
    }
}

/// Appends the match arm of leaf number `n`. The arm returns the variant `variant` of the enum
/// `name`.
fn push_token_arm(
    sink: &mut Sink,
    n: usize,
    name: Ident<'_>,
    variant: Ident<'_>,
) -> Result<(), Memory>
    ensures { OnOk result (Notes (variant_runs name.entry variant.entry) sink.old sink.new) }
{
    write!(sink.text, "{n} => _Option :: Some ( ")?;
    push_variant(sink, name, variant)?;
    sink.push(" ) , ")?;
    Ok(())
}
