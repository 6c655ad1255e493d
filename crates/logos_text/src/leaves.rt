//! Printers of the enum of the leaves, and of the results of the leaves' matches. `code` and
//! `actions` call them.

ghost use Rattle.std.specs.Prelude.{[], OnOk, string_bytes};
ghost use Rattle.logos_text.specs.Views.{Grows, Notes, flat_map, kind_runs, kind_value, leaf_runs, variant_runs};

use crate::callbacks::push_call;
use crate::names::Names;
use crate::pieces::{comma_before, push};
use crate::sink::Sink;
use logos_code::code::CodeLeaf;
use logos_pattern::leaf::VariantKind;
use logos_token::error::Memory;
use logos_token::token::Ident;
use logos_type::print_type;
use std::alloc::Global;

/// Appends the enum of `count` leaves. Each variant has the number of its leaf.
pub(crate) fn push_leaf_names(text: &mut String, count: usize) -> Result<(), Memory>
    ensures { OnOk result (Grows (string_bytes text.old) (string_bytes text.new)) }
{
    push(text, "# [ derive ( Clone , Copy ) ] enum LogosLeaf { ")?;
    push_each_leaf_name(text, count)?;
    push(text, "} ")
}

/// Appends the variants of `count` leaves.
fn push_each_leaf_name(text: &mut String, count: usize) -> Result<(), Memory>
    ensures { OnOk result (Grows (string_bytes text.old) (string_bytes text.new)) }
{
    for leaf in 0..count {
        push_leaf_name(text, leaf)?;
    }
    Ok(())
}

/// Appends the variant of the leaf with the number `leaf` to a list. A comma precedes the variant
/// unless `leaf` is 0.
fn push_leaf_name(text: &mut String, leaf: usize) -> Result<(), Memory>
    ensures { OnOk result (Grows (string_bytes text.old) (string_bytes text.new)) }
{
    let comma = comma_before(leaf);
    write!(text, "{comma}Leaf{leaf} = {leaf}isize ")?;
    Ok(())
}

/// Appends the function `_get_action`, which returns the result of a match, or the error of a match
/// attempt that found no match.
pub(crate) fn push_get_action(
    alloc: Global,
    sink: &mut Sink,
    leaves: &[CodeLeaf<'_>],
    names: Names<'_>,
) -> Result<(), Memory>
    ensures { OnOk result (Notes (flat_map (leaf_runs names.entry.name) leaves.now)
        sink.old sink.new) }
{
    let this = names.this;
    write!(
        sink.text,
        "# [ inline ] fn _get_action < 's > ( lex : & mut _Lexer < 's > , offset : usize , context : _Option < LogosLeaf > ) -> CallbackResult < 's , {this} > {{ match context {{ None => {{ lex . end_to_boundary ( offset . max ( lex . offset ( ) + 1 ) ) ; CallbackResult :: Error ( _make_error ( lex ) ) }} , "
    )?;
    push_arms(alloc, sink, leaves, names)?;
    sink.push("} } ")?;
    Ok(())
}

/// Appends the match arms of all leaves, or the arm for a lexer without leaves.
fn push_arms(
    alloc: Global,
    sink: &mut Sink,
    leaves: &[CodeLeaf<'_>],
    names: Names<'_>,
) -> Result<(), Memory>
    ensures { OnOk result (Notes (flat_map (leaf_runs names.entry.name) leaves.now)
        sink.old sink.new) }
{
    if leaves.is_empty() {
        return push_no_arm(sink);
    }
    for n in 0..leaves.len() {
        push_arm(alloc, sink, n, &leaves[n], names)?;
    }
    Ok(())
}

/// Appends the match arm for a lexer without leaves. The arm is never taken.
fn push_no_arm(sink: &mut Sink) -> Result<(), Memory>
    ensures { OnOk result (Notes [] sink.old sink.new) }
{
    sink.push("Some ( _ ) => unreachable ! ( \"There are no matchable tokens\" ) , ")
}

/// Appends the match arm of leaf number `n`.
fn push_arm(
    alloc: Global,
    sink: &mut Sink,
    n: usize,
    leaf: &CodeLeaf<'_>,
    names: Names<'_>,
) -> Result<(), Memory>
    ensures { OnOk result (Notes (leaf_runs names.entry.name leaf.now) sink.old sink.new) }
{
    let comma = comma_before(n);
    write!(sink.text, "{comma}Some ( LogosLeaf :: Leaf{n} ) => {{ ")?;
    push_leaf(alloc, sink, leaf, names)?;
    sink.push("} ")?;
    Ok(())
}

/// Appends the body of a leaf's match arm: the call of the leaf's callback, if there is one, and
/// the result of a match.
pub(crate) fn push_leaf(
    alloc: Global,
    sink: &mut Sink,
    leaf: &CodeLeaf<'_>,
    names: Names<'_>,
) -> Result<(), Memory>
    ensures { OnOk result (Notes (leaf_runs names.entry.name leaf.now) sink.old sink.new) }
{
    let Some(callback) = &leaf.callback else {
        return push_plain(sink, &leaf.kind, names);
    };
    sink.note_call(callback)?;
    sink.push("let cb_result = ")?;
    push_call(alloc, sink, callback)?;
    sink.push("; ")?;
    push_result(alloc, sink, &leaf.kind, names)?;
    Ok(())
}

/// Appends the result of a match of a leaf without a callback.
fn push_plain(sink: &mut Sink, kind: &VariantKind<'_>, names: Names<'_>) -> Result<(), Memory>
    ensures { OnOk result (Notes (kind_runs names.entry.name (kind_value kind.now)) sink.old sink.new) }
{
    match kind {
        VariantKind::Skip => sink.push("CallbackResult :: Skip "),
        VariantKind::Unit(variant) => push_unit(sink, *variant, names),
        VariantKind::Value(variant, _) => push_value(sink, *variant, names),
    }
}

/// Appends the result of a match: the variant `variant`, which has no field.
fn push_unit(sink: &mut Sink, variant: Ident<'_>, names: Names<'_>) -> Result<(), Memory>
    ensures { OnOk result (Notes (variant_runs names.entry.name variant.entry) sink.old sink.new) }
{
    sink.push("CallbackResult :: Emit ( ")?;
    push_variant(sink, names.name, variant)?;
    sink.push(" ) ")?;
    Ok(())
}

/// Appends the result of a match: the variant `variant` with the matched slice as its field.
fn push_value(sink: &mut Sink, variant: Ident<'_>, names: Names<'_>) -> Result<(), Memory>
    ensures { OnOk result (Notes (variant_runs names.entry.name variant.entry) sink.old sink.new) }
{
    sink.push("let token = ")?;
    push_variant(sink, names.name, variant)?;
    sink.push(" ( lex . slice ( ) ) ; CallbackResult :: Emit ( token ) ")?;
    Ok(())
}

/// Appends the path of `variant`, a variant of the enum `name`.
pub(crate) fn push_variant(
    sink: &mut Sink,
    name: Ident<'_>,
    variant: Ident<'_>,
) -> Result<(), Memory>
    ensures { OnOk result (Notes (variant_runs name.entry variant.entry) sink.old sink.new) }
{
    sink.push_name(name)?;
    sink.push(" :: ")?;
    sink.push_name(variant)?;
    Ok(())
}

/// Appends the code that computes the result of a match of the kind `kind` from the callback's
/// result.
fn push_result(
    alloc: Global,
    sink: &mut Sink,
    kind: &VariantKind<'_>,
    names: Names<'_>,
) -> Result<(), Memory>
    ensures { OnOk result (Notes (kind_runs names.entry.name (kind_value kind.now)) sink.old sink.new) }
{
    match kind {
        VariantKind::Skip => push_skip_result(sink, names),
        VariantKind::Unit(variant) => push_unit_result(sink, *variant, names),
        VariantKind::Value(variant, field) => {
            let printed = print_type(alloc, field)?;
            push_value_result(sink, *variant, printed.as_str(), names)
        }
    }
}

/// Appends the code that computes the result of a skip's match from the callback's result.
fn push_skip_result(sink: &mut Sink, names: Names<'_>) -> Result<(), Memory>
    ensures { OnOk result (Notes [] sink.old sink.new) }
{
    let this = names.this;
    write!(
        sink.text,
        "let srv = SkipRetVal :: < 's , {this} > :: construct ( cb_result ) ; CallbackResult :: from ( srv ) "
    )?;
    Ok(())
}

/// Appends the code that computes the result of a match from the callback's result, for the variant
/// `variant`, which has no field.
fn push_unit_result(sink: &mut Sink, variant: Ident<'_>, names: Names<'_>) -> Result<(), Memory>
    ensures { OnOk result (Notes (variant_runs names.entry.name variant.entry) sink.old sink.new) }
{
    let this = names.this;
    write!(
        sink.text,
        "CallbackRetVal :: < 's , ( ) , {this} > :: construct ( cb_result , | ( ) | "
    )?;
    push_variant(sink, names.name, variant)?;
    sink.push(" ) ")?;
    Ok(())
}

/// Appends the code that computes the result of a match from the callback's result, for the variant
/// `variant` with a field of the type `field`.
fn push_value_result(
    sink: &mut Sink,
    variant: Ident<'_>,
    field: &str,
    names: Names<'_>,
) -> Result<(), Memory>
    ensures { OnOk result (Notes (variant_runs names.entry.name variant.entry) sink.old sink.new) }
{
    let this = names.this;
    write!(
        sink.text,
        "CallbackRetVal :: < 's , {field} , {this} > :: construct ( cb_result , "
    )?;
    push_variant(sink, names.name, variant)?;
    sink.push(" ) ")?;
    Ok(())
}
