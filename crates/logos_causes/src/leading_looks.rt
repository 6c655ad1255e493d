//! Functions that find the patterns that can examine bytes before the start of a match. Used by
//! `explanation`.

ghost use Rattle.std.specs.Prelude.{◌≡◌, ◌∷◌, []};
ghost use Rattle.logos_causes.specs.Imports.{some_leads, rule_of};

use crate::names::text_with;
use logos_automaton::rule::{RuleView, some_leads};
use logos_pattern::leaf::{Leaf, VariantKind};
use logos_report::Start;
use std::alloc::{AllocError, Global};

/// Returns the patterns of `leaves` that can examine bytes before the start of a match, in the
/// order of the leaves.
pub(crate) fn starts_of(alloc: Global, leaves: &[Leaf<'_>]) -> Result<Vec<Start>, AllocError> {
    let mut starts = Vec::new(alloc);
    for leaf in leaves {
        add_start(alloc, leaf, &mut starts)?;
    }
    Ok(starts)
}

/// Appends the pattern of `leaf` to `starts` if the pattern can examine bytes before the start of a
/// match.
fn add_start(alloc: Global, leaf: &Leaf<'_>, starts: &mut Vec<Start>) -> Result<(), AllocError> {
    if !looks_first(leaf) {
        return Ok(());
    }
    starts.push(Start {
        name: text_with(
            alloc,
            "`",
            leaf,
            "` can look at what stands before its first byte",
        )?,
        span: leaf.span,
    })?;
    Ok(())
}

/// Returns whether the pattern of a leaf can examine bytes before the start of a match.
fn looks_first(leaf: &Leaf<'_>) -> bool
    ensures { result ≡ some_leads (rule_of leaf.now ∷ []) }
{
    some_leads(&[RuleView {
        tree: leaf.pattern.hir(),
        priority: leaf.priority,
        skips: matches!(leaf.kind, VariantKind::Skip),
        calls_back: leaf.callback.is_some(),
    }])
}
