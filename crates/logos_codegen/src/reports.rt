//! `report_fault` reports a fault of a graph. Called by `generation`.

ghost use Rattle.std.specs.Prelude.{◌≡◌, ◌++◌, ◌==◌, ◌∷◌, [], map, flat_map, slice_get, option_map, if◌then◌else◌, IfOk, OnOk, string_bytes};
ghost use Rattle.logos_codegen.specs.Imports.{option_map_or, fault_of, numbers, named_leaf, fault_at, line_of, other_lines, empty_match_faults, disambiguation_text, disambiguation_fault, disambiguation_faults, first_of, reported_as};

use logos_graph::graph::GraphError;
use logos_hir::leaf::LeafId;
use logos_pattern::leaf::Leaf;
use logos_token::error::{Detail, Errors, FaultCode, Memory};
use logos_token::token::Span;
use std::alloc::{AllocError, Global};

/// Returns the leaf with the number `number`, or `None` if no leaf has this number.
fn leaf_at<'l, 's>(leaves: &'l [Leaf<'s>], number: LeafId) -> Option<&'l Leaf<'s>>
    ensures { option_map (λ leaf. named_leaf leaf.now) result
        ≡ slice_get (map named_leaf leaves.now) number.0 }
{
    leaves.get(number.0)
}

/// Appends a line for the leaf with the number `other` to the message of a fault. Appends nothing
/// if `other` is `leaf` or if no leaf has this number.
fn push_line(
    text: &mut String,
    leaves: &[Leaf<'_>],
    leaf: LeafId,
    other: LeafId,
) -> Result<(), AllocError>
    ensures { OnOk result (string_bytes text.new ≡ string_bytes text.old
        ++ (if other.0 == leaf.0 then [] else option_map_or line_of (slice_get
        (map named_leaf leaves.now) other.0) [])) }
{
    if other.0 == leaf.0 {
        return Ok(());
    }
    match leaves.get(other.0) {
        Some(named) => write!(text, "\n  {named}"),
        None => Ok(()),
    }
}

/// Appends to the message of a fault a line for each leaf of the ambiguous `set` except `leaf`.
fn push_lines(
    text: &mut String,
    leaves: &[Leaf<'_>],
    leaf: LeafId,
    set: &[LeafId],
) -> Result<(), AllocError>
    ensures { OnOk result (string_bytes text.new ≡ string_bytes text.old
        ++ other_lines (map named_leaf leaves.now) leaf.0 (numbers set.now)) }
{
    for other in set {
        push_line(text, leaves, leaf, *other)?;
    }
    Ok(())
}

/// Returns the message about `leaf` as a leaf of the ambiguous `set`. `number` is the number of
/// `leaf`.
fn disambiguation_text(
    alloc: Global,
    leaves: &[Leaf<'_>],
    set: &[LeafId],
    number: LeafId,
    leaf: &Leaf<'_>,
) -> Result<String, AllocError>
    ensures { IfOk result (λ text. string_bytes text ≡ disambiguation_text
        (map named_leaf leaves.now) (numbers set.now) number.0 (named_leaf leaf.now)) }
{
    let mut text = format!(in alloc;
        "The pattern {leaf} can match simultaneously with the following variants:"
    )?;
    push_lines(&mut text, leaves, number, set)?;
    let priority = leaf.priority;
    write!(text, "\n\n(all at the priority {priority})")?;
    Ok(text)
}

/// Returns the number of the first leaf of a set, or `number` if the set is empty.
fn first_of(set: &[LeafId], number: LeafId) -> usize
    ensures { result ≡ first_of (numbers set.now) number.0 }
{
    match set.get(0) {
        Some(first) => first.0,
        None => number.0,
    }
}

/// Reports `leaf` as one of the leaves of the ambiguous `set`. `number` is the number of `leaf`.
fn report_ambiguous(
    leaves: &[Leaf<'_>],
    set: &[LeafId],
    number: LeafId,
    leaf: &Leaf<'_>,
    errors: &mut Errors,
) -> Result<(), Memory>
    ensures { OnOk result (errors.new ≡ errors.old ++ disambiguation_fault
        (map named_leaf leaves.now) (numbers set.now) number.0 (named_leaf leaf.now) ∷ []) }
{
    let text = disambiguation_text(errors.alloc(), leaves, set, number, leaf)?;
    let detail = Detail::Ambiguous {
        leaf: number.0,
        first: first_of(set, number),
    };
    errors.err_with(FaultCode::Disambiguation, text.as_str(), leaf.span, detail)
}

/// Reports the leaf with the number `number` as one of the leaves of the ambiguous `set`. Reports
/// nothing if no leaf has this number.
fn report_numbered(
    leaves: &[Leaf<'_>],
    set: &[LeafId],
    number: LeafId,
    errors: &mut Errors,
) -> Result<(), Memory>
    ensures { OnOk result (errors.new ≡ errors.old ++ disambiguation_faults
        (map named_leaf leaves.now) (numbers set.now) number.0) }
{
    match leaf_at(leaves, number) {
        Some(leaf) => report_ambiguous(leaves, set, number, leaf, errors),
        None => Ok(()),
    }
}

/// Reports each leaf of the ambiguous `set` in a separate fault.
fn report_set(leaves: &[Leaf<'_>], set: &[LeafId], errors: &mut Errors) -> Result<(), Memory>
    ensures { OnOk result (errors.new ≡ errors.old ++ flat_map (disambiguation_faults
        (map named_leaf leaves.now) (numbers set.now)) (numbers set.now)) }
{
    for number in set {
        report_numbered(leaves, set, *number, errors)?;
    }
    Ok(())
}

/// Reports that a leaf can match the empty string.
fn report_empty(leaf: &Leaf<'_>, errors: &mut Errors) -> Result<(), Memory>
    ensures { OnOk result (errors.new ≡ errors.old ++ empty_match_faults (named_leaf leaf.now)) }
{
    let alloc = errors.alloc();
    let text = format!(in alloc;
        "The pattern {leaf} can match the empty string, which is unsupported by logos."
    )?;
    errors.err(FaultCode::EmptyMatch, text.as_str(), leaf.span)
}

/// Reports that the leaf with the number `number` can match the empty string. Reports nothing if no
/// leaf has this number.
fn report_empty_match(
    leaves: &[Leaf<'_>],
    number: LeafId,
    errors: &mut Errors,
) -> Result<(), Memory>
    ensures { OnOk result (errors.new ≡ errors.old ++ option_map_or empty_match_faults (slice_get
        (map named_leaf leaves.now) number.0) []) }
{
    match leaf_at(leaves, number) {
        Some(leaf) => report_empty(leaf, errors),
        None => Ok(()),
    }
}

/// Reports a fault of the graph of `leaves`. `item` is the span of the whole enum.
pub(crate) fn report_fault(
    leaves: &[Leaf<'_>],
    item: Span,
    fault: &GraphError,
    errors: &mut Errors,
) -> Result<(), Memory>
    ensures { OnOk result (errors.new ≡ errors.old ++ reported_as (map named_leaf leaves.now) item
        (fault_of fault.now)) }
{
    match fault {
        GraphError::NoUniversalStart => errors.err(FaultCode::NoUniversalStart, START, item),
        GraphError::EmptyMatch(leaf) => report_empty_match(leaves, *leaf, errors),
        GraphError::Disambiguation(set) => report_set(leaves, set, errors),
    }
}

const START: &str =
    "The state machine implementing this lexer is missing a universal start state,which is unsupported by logos. This is most likely do to a lookbehind assertion at the start of the regex.";
