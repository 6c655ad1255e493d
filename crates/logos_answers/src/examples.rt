//! Functions that find and append two examples for a leaf: an input on which the leaf is found, and
//! an input on which the leaf loses to another leaf. Used by `logos_html`, `logos_records` and
//! `logos_replies`.

ghost use Rattle.std.specs.Prelude.{◌≡◌, ◌++◌, ℕ, [], codes, IfOk, MatchOption, OnOk, length, option_map};
ghost use Rattle.logos_answers.specs.Views as shown;
ghost use Rattle.logos_answers.specs.Imports.{Gains, IsGraphOf, IsShortestLoss, NeverLoses, leaf_text, quoted, rules_of};

use crate::matches::push_head;
use crate::names::push_leaf;
use crate::quotes::push_quoted;
use logos_evidence::{example, loses, matches_from, winner};
use logos_graph::graph::Graph;
use logos_page::Page;
use logos_pattern::leaf::Leaf;
use std::alloc::{AllocError, Global};

/// Two examples for a leaf: an input on which the leaf is found, and an input on which the leaf
/// loses to another leaf.
#[derive(Drop)]
pub struct Evidence {
    /// A shortest input on which a lexer finds a match of the leaf first, or `None` if there is no
    /// such input.
    pub found: Option<Vec<u8>>,
    /// A shortest input on which the leaf matches but another leaf is found first, or `None` if
    /// there is no such input.
    pub loss: Option<Loss>,
}

/// An input on which a leaf matches, but another leaf is found first.
#[derive(Drop)]
pub struct Loss {
    pub input: Vec<u8>,
    /// The number of the leaf that is found first.
    pub winner: usize,
}

/// Appends a line with examples for each leaf of a graph without faults. The line contains a
/// shortest input on which the leaf is found first, or states that the leaf is never found. If
/// there is an input on which the leaf matches but another leaf is found first, the line also
/// contains a shortest such input and the other leaf.
///
/// # Errors
///
/// Returns `AllocError` if memory runs out. Then some lines may have been appended.
pub fn push_examples(alloc: Global, page: &mut Page, graph: &Graph<'_>) -> Result<(), AllocError>
    ensures { OnOk result (IsGraphOf graph.now.leaves graph.now.utf8 graph.now →
        graph.now.faults ≡ [] → shown.ShowsExamples graph.now.leaves graph.now.utf8 0
        (length graph.now.leaves) page.old page.new) }
{
    for leaf in 0..graph.leaves().len() {
        push_example(alloc, page, graph, leaf)?;
    }
    Ok(())
}

/// Appends the line with the examples for a leaf.
fn push_example(
    alloc: Global,
    page: &mut Page,
    graph: &Graph<'_>,
    leaf: usize,
) -> Result<(), AllocError>
    ensures { OnOk result (IsGraphOf graph.now.leaves graph.now.utf8 graph.now →
        graph.now.faults ≡ [] →
        shown.ShowsExample graph.now.leaves graph.now.utf8 leaf page.old page.new) }
{
    let evidence = evidence_of(alloc, graph, leaf)?;
    push_evidence(page, graph.leaves(), leaf, &evidence);
    Ok(())
}

/// Returns a shortest input on which a leaf of a graph without faults is found first, and a
/// shortest input on which the leaf matches but another leaf is found first. Each is `None` if
/// there is no such input.
///
/// # Errors
///
/// Returns `AllocError` if memory runs out.
pub fn evidence_of(alloc: Global, graph: &Graph<'_>, leaf: usize) -> Result<Evidence, AllocError>
    ensures { IfOk result (λ evidence. IsGraphOf graph.now.leaves graph.now.utf8 graph.now →
        graph.now.faults ≡ [] → shown.IsEvidence (rules_of graph.now.leaves) graph.now.utf8 leaf
        (option_map (λ input. input.items) evidence.found)
        (option_map shown.loss_value evidence.loss)) }
{
    let found = example(alloc, graph, leaf)?;
    let loss = loss_of(alloc, graph, leaf)?;
    Ok(Evidence { found, loss })
}

/// Returns a shortest input on which a leaf matches but another leaf is found first, together with
/// the other leaf. Returns `None` if there is no such input.
fn loss_of(alloc: Global, graph: &Graph<'_>, leaf: usize) -> Result<Option<Loss>, AllocError>
    ensures { IfOk result (λ loss. IsGraphOf graph.now.leaves graph.now.utf8 graph.now →
        graph.now.faults ≡ [] → MatchOption (option_map shown.loss_value loss)
        (NeverLoses (rules_of graph.now.leaves) graph.now.utf8 leaf)
        (shown.IsLostTo (rules_of graph.now.leaves) graph.now.utf8 leaf)) }
{
    match loses(alloc, graph, leaf)? {
        Some(input) => with_winner(alloc, graph, input),
        None => Ok(None),
    }
}

/// Returns `input` together with the leaf that a lexer finds at the beginning of the input. Returns
/// `None` if no leaf matches at the beginning.
fn with_winner(alloc: Global, graph: &Graph<'_>, input: Vec<u8>) -> Result<Option<Loss>, AllocError>
    ensures { IfOk result (λ loss. (leaf : ℕ) →
        IsGraphOf graph.now.leaves graph.now.utf8 graph.now → graph.now.faults ≡ [] →
        IsShortestLoss (rules_of graph.now.leaves) graph.now.utf8 leaf input.items →
        MatchOption (option_map shown.loss_value loss) ⊥
        (shown.IsLostTo (rules_of graph.now.leaves) graph.now.utf8 leaf)) }
{
    let matches = matches_from(alloc, graph, &input, 0)?;
    match winner(&matches) {
        Some(found) => Ok(Some(Loss {
            input,
            winner: found.leaf,
        })),
        None => Ok(None),
    }
}

/// Appends the line of a leaf with the examples in `evidence`.
fn push_evidence(page: &mut Page, leaves: &[Leaf<'_>], leaf: usize, evidence: &Evidence)
    ensures { Gains (shown.evidence_line leaves.now leaf
        (option_map (λ input. input.items) evidence.now.found)
        (option_map shown.loss_value evidence.now.loss)) page.old page.new }
{
    push_head(page, leaves, leaf);
    push_found(page, &evidence.found);
    push_loss(page, leaves, &evidence.loss);
    page.push("\n");
}

/// Appends `finds` and the input on which a leaf is found, or `finds nothing` if `found` is `None`.
fn push_found(page: &mut Page, found: &Option<Vec<u8>>)
    ensures { Gains (shown.found_text (option_map (λ input. input.items) found.now))
        page.old page.new }
{
    match found {
        Some(input) => push_example_of(page, input),
        None => page.push("finds nothing"),
    }
}

/// Appends `finds` and, in quotes, an input on which a leaf is found.
fn push_example_of(page: &mut Page, input: &[u8])
    ensures { Gains (codes "finds " ++ quoted input.now) page.old page.new }
{
    page.push("finds ");
    push_quoted(page, input);
}

/// Appends the input on which a leaf loses and the leaf that is found instead. Appends nothing if
/// `loss` is `None`.
fn push_loss(page: &mut Page, leaves: &[Leaf<'_>], loss: &Option<Loss>)
    ensures { Gains (shown.loss_text leaves.now (option_map shown.loss_value loss.now))
        page.old page.new }
{
    if let Some(loss) = loss {
        push_lost(page, leaves, &loss.input, loss.winner);
    }
}

/// Appends `loses`, the input on which a leaf loses, and the leaf `winner` that is found instead.
fn push_lost(page: &mut Page, leaves: &[Leaf<'_>], input: &[u8], winner: usize)
    ensures { Gains (codes ", loses " ++ (quoted input.now
        ++ (codes " to " ++ leaf_text leaves.now winner))) page.old page.new }
{
    page.push(", loses ");
    push_quoted(page, input);
    page.push(" to ");
    push_leaf(page, leaves, winner);
}
