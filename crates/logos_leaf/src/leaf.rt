//! Makes leaves from definitions. The readers of skips and of the attributes of variants call
//! `token_leaf` or `regex_leaf` for each definition.

ghost use Rattle.std.specs.Prelude.{◌≡◌, ◌++◌, IfOk, IfSome, OnOk, OnErr, true, false, option_map, chars, string_bytes};
ghost use Rattle.logos_leaf.specs.Imports.{literal_tree, KindValue, pattern_tree, source_of, is_token, kind_value, token_of, literal_view, IsReport, definition_view, IsRead, pattern_text, subst_report, names_of, bytes_of, is_string, escaped_of, leaf_with, options_of, token_priority, token_leaf, regex_priority, greedy_faults, tree_report, IsTokenLeaf, IsRegexLeaf, leaf_view, leaf_by, IsFoldedLeaf, IsWholeLeaf};

use crate::fault::{report_greedy_dot, report_overflow};
use crate::subpattern::fault::{Making, ReadingMode, WrittenPattern, read_pattern};
use crate::subpattern::{Subpatterns, pattern_text};
use logos_definition::definition::Definition;
use logos_pattern::leaf::{Leaf, LeafOptions, VariantKind};
use logos_pattern::pattern::{Literal, Pattern, token_priority};
use logos_token::error::{Errors, Memory};
use std::alloc::Global;

/// Returns the options of the leaf that is made from `definition`.
fn options_of(definition: &Definition<'_>) -> LeafOptions
    ensures { result ≡ options_of (definition_view definition.now) }
{
    LeafOptions {
        ignores_case: definition.ignore_flags.ignore_case,
        allows_greedy: definition.allow_greedy.unwrap_or(false),
    }
}

/// Returns the leaf for `definition` with the kind `kind`, the pattern `pattern` and the priority
/// `priority`.
fn leaf_with<'s>(
    definition: Definition<'s>,
    kind: VariantKind<'s>,
    pattern: Pattern<'s>,
    priority: usize,
) -> Leaf<'s>
    requires source { source_of pattern ≡ (token_of definition.literal).text.now }
    ensures { leaf_view result
        ≡ leaf_with (is_token pattern.entry) (definition_view definition.entry)
        (kind_value kind.entry) (pattern_tree pattern.entry) priority }
{
    let span = definition.literal.span();
    let options = options_of(&definition);
    Leaf::new(span, pattern)
        .variant_kind(kind)
        .priority(priority)
        .callback(definition.callback)
        .options(options)
}

/// Returns the priority of a `token`: the priority in `definition` if there is one, and otherwise
/// twice the number of bytes of the literal's value.
fn priority_of(definition: &Definition<'_>) -> usize
    ensures { result ≡ token_priority (definition_view definition.now) }
{
    let default = token_priority(&definition.literal);
    definition.priority.unwrap_or(default)
}

/// Returns whether `literal` is a string rather than a byte string.
fn is_string(literal: &Literal<'_>) -> bool
    ensures { result ≡ is_string (literal_view literal.now).held }
{
    match literal {
        Literal::Utf8(_) => true,
        Literal::Bytes(_) => false,
    }
}

/// Returns the text of a pattern that matches exactly the value of `literal`.
fn escaped_of(alloc: Global, literal: &Literal<'_>) -> Result<String, Memory>
    ensures { IfOk result (λ text. string_bytes text ≡ escaped_of (literal_view literal.now).held) }
{
    // Both arms make the same call: in each of them the prover knows the form of the literal.
    match literal {
        Literal::Utf8(_) => literal.escape(alloc, true),
        Literal::Bytes(_) => literal.escape(alloc, true),
    }
}

/// Returns the pattern of a `token` whose letters match in either case. If the escaped text of
/// `literal` cannot be read as a pattern, reports the reason and returns `None`.
fn folded_pattern<'s>(
    literal: &Literal<'s>,
    errors: &mut Errors,
) -> Result<Option<Pattern<'s>>, Memory>
    ensures read { IfOk result (λ pattern.
        IsRead (is_string (literal_view literal.now).held) true
        (chars (escaped_of (literal_view literal.now).held)) (token_of literal.now).span
        (option_map pattern_tree pattern) errors.old errors.new) }
    ensures source { IfOk result (λ pattern. IfSome pattern (λ p.
        source_of p ≡ (token_of literal.now).text.now)) }
    ensures token { IfOk result (λ pattern. IfSome pattern (λ p. is_token p ≡ true)) }
    ensures unreported { OnErr result (errors.new ≡ errors.old) }
{
    let text = escaped_of(errors.alloc(), literal)?;
    let mode = ReadingMode {
        is_literal: true,
        unicode: is_string(literal),
        ignore_case: true,
    };
    let making = Making::Escaped;
    let written = WrittenPattern { literal, making };
    read_pattern(text.as_str(), written, mode, errors)
}

/// Returns the leaf of a `token` whose letters match in either case. If the token's text cannot be
/// read as a pattern, reports the reason and returns `None`.
fn folded_leaf<'s>(
    definition: Definition<'s>,
    kind: VariantKind<'s>,
    errors: &mut Errors,
) -> Result<Option<Leaf<'s>>, Memory>
    ensures ok { IfOk result (λ leaf.
        IsFoldedLeaf (definition_view definition.entry) (kind_value kind.entry)
        (option_map leaf_view leaf) errors.old errors.new) }
    ensures unreported { OnErr result (errors.new ≡ errors.old) }
{
    match folded_pattern(&definition.literal, errors) {
        Ok(Some(pattern)) => {
            let priority = priority_of(&definition);
            Ok(Some(leaf_with(definition, kind, pattern, priority)))
        }
        Ok(None) => {
            drop(definition);
            drop(kind);
            Ok(None)
        }
        Err(Memory) => {
            drop(definition);
            drop(kind);
            Err(Memory)
        }
    }
}

/// Returns the leaf of a `token` without flags. The leaf matches exactly the bytes of the literal's
/// value.
fn plain_leaf<'s>(
    alloc: Global,
    definition: Definition<'s>,
    kind: VariantKind<'s>,
) -> Result<Leaf<'s>, Memory>
    ensures { IfOk result (λ leaf. leaf_view leaf
        ≡ token_leaf (definition_view definition.entry) (kind_value kind.entry)
        (literal_tree (bytes_of (literal_view definition.entry.literal).held))) }
{
    match Pattern::compile_lit(alloc, &definition.literal) {
        Ok(pattern) => {
            let priority = priority_of(&definition);
            Ok(leaf_with(definition, kind, pattern, priority))
        }
        Err(_) => {
            drop(definition);
            drop(kind);
            Err(Memory)
        }
    }
}

/// Returns the leaf of a `token`. If `definition` ignores case and the token's text cannot be read
/// as a pattern, reports the reason and returns `None`.
///
/// # Errors
///
/// Returns `Memory` if memory runs out. The faults are then unchanged.
pub fn token_leaf<'s>(
    definition: Definition<'s>,
    kind: VariantKind<'s>,
    errors: &mut Errors,
) -> Result<Option<Leaf<'s>>, Memory>
    ensures ok { IfOk result (λ leaf.
        IsTokenLeaf (definition_view definition.entry) (kind_value kind.entry)
        (option_map leaf_view leaf) errors.old errors.new) }
    ensures unreported { OnErr result (errors.new ≡ errors.old) }
{
    if definition.ignore_flags.ignore_case {
        return folded_leaf(definition, kind, errors);
    }
    Ok(Some(plain_leaf(errors.alloc(), definition, kind)?))
}

/// Reports a greedy dot in `pattern`, unless `definition` allows greedy dots.
fn check_greedy(
    definition: &Definition<'_>,
    pattern: &Pattern<'_>,
    errors: &mut Errors,
) -> Result<(), Memory>
    ensures { OnOk result (errors.new ≡ errors.old
        ++ greedy_faults (definition_view definition.now) (pattern_tree pattern.now)) }
{
    let allowed = definition.allow_greedy.unwrap_or(false);
    if !allowed & pattern.check_for_greedy_all() {
        report_greedy_dot(definition.literal.span(), errors)?;
    }
    Ok(())
}

/// Returns the priority of a `regex` or `skip`: the priority in its definition if there is one, and
/// otherwise the default priority of `pattern`. Returns `None` if the default priority does not fit
/// `usize`.
fn regex_priority(definition: &Definition<'_>, pattern: &Pattern<'_>) -> Option<usize>
    ensures { result
        ≡ regex_priority (definition_view definition.now) (pattern_tree pattern.now) }
{
    definition.priority.or(pattern.priority())
}

/// Returns `pattern` with the priority that `regex_priority` returns. If the default priority does
/// not fit `usize`, reports a fault and returns `None`. Reports a greedy dot first, unless
/// `definition` allows greedy dots.
fn fitted_pattern<'s>(
    definition: &Definition<'s>,
    pattern: Pattern<'s>,
    errors: &mut Errors,
) -> Result<Option<(Pattern<'s>, usize)>, Memory>
    requires source { source_of pattern ≡ (token_of definition.now.literal).text.now }
    requires regex { is_token pattern ≡ false }
    ensures made { IfOk result (λ fitted. (kind : KindValue) → IsReport
        (tree_report (definition_view definition.now) kind (pattern_tree pattern.entry))
        (leaf_by (definition_view definition.now) kind fitted) errors.old errors.new) }
    ensures source { IfOk result (λ fitted. IfSome fitted (λ p.
        source_of p.0 ≡ (token_of definition.now.literal).text.now)) }
    ensures regex { IfOk result (λ fitted. IfSome fitted (λ p. is_token p.0 ≡ false)) }
{
    let Ok(()) = check_greedy(definition, &pattern, errors) else {
        drop(pattern);
        return Err(Memory);
    };
    let priority = regex_priority(definition, &pattern);
    let Some(priority) = priority else {
        drop(pattern);
        report_overflow(definition.literal.span(), errors)?;
        return Ok(None);
    };
    Ok(Some((pattern, priority)))
}

/// Reads `text` as a pattern, and returns the pattern with its priority. All subpatterns in `text`
/// must already be substituted. If the text cannot be read as a pattern or the default priority
/// does not fit `usize`, reports the fault and returns `None`.
fn whole_pattern<'s>(
    definition: &Definition<'s>,
    text: &str,
    subpatterns: &Subpatterns<'s>,
    errors: &mut Errors,
) -> Result<Option<(Pattern<'s>, usize)>, Memory>
    ensures made { IfOk result (λ fitted. (kind : KindValue) →
        IsWholeLeaf (definition_view definition.now) kind text.now
        (leaf_by (definition_view definition.now) kind fitted) errors.old errors.new) }
    ensures source { IfOk result (λ fitted. IfSome fitted (λ p.
        source_of p.0 ≡ (token_of definition.now.literal).text.now)) }
    ensures regex { IfOk result (λ fitted. IfSome fitted (λ p. is_token p.0 ≡ false)) }
{
    let mode = ReadingMode {
        is_literal: false,
        unicode: is_string(&definition.literal),
        ignore_case: definition.ignore_flags.ignore_case,
    };
    let literal = &definition.literal;
    let making = Making::PutIn(subpatterns);
    let written = WrittenPattern { literal, making };
    match read_pattern(text, written, mode, errors) {
        Ok(Some(pattern)) => fitted_pattern(definition, pattern, errors),
        Ok(None) => {
            // The reason why the text is not a pattern has already been reported.
            Ok(None)
        }
        Err(Memory) => Err(Memory),
    }
}

/// Returns the pattern text that the value of `literal` spells, with all subpatterns substituted.
/// If a subpattern is missing, reports the subpattern and returns `None`.
fn whole_text(
    literal: &Literal<'_>,
    subpatterns: &Subpatterns<'_>,
    errors: &mut Errors,
) -> Result<Option<String>, Memory>
    ensures { IfOk result (λ text. IsReport
        (subst_report (names_of subpatterns.now) (token_of literal.now).span
        (chars (pattern_text (literal_view literal.now).held)))
        (option_map string_bytes text) errors.old errors.new) }
{
    let alloc = errors.alloc();
    let text = pattern_text(alloc, literal)?;
    subpatterns.subst_subpatterns(alloc, text.as_str(), literal.span(), errors)
}

/// Returns the pattern of a `regex` or `skip`, and its priority.
///
/// Reports a fault and returns `None` if one of these conditions holds:
///
/// - A subpattern is missing.
/// - The text cannot be read as a pattern.
/// - The default priority does not fit `usize`.
fn regex_pattern<'s>(
    definition: &Definition<'s>,
    subpatterns: &Subpatterns<'s>,
    errors: &mut Errors,
) -> Result<Option<(Pattern<'s>, usize)>, Memory>
    ensures made { IfOk result (λ fitted. (kind : KindValue) →
        IsRegexLeaf (definition_view definition.now) kind (names_of subpatterns.now)
        (leaf_by (definition_view definition.now) kind fitted) errors.old errors.new) }
    ensures source { IfOk result (λ fitted. IfSome fitted (λ p.
        source_of p.0 ≡ (token_of definition.now.literal).text.now)) }
    ensures regex { IfOk result (λ fitted. IfSome fitted (λ p. is_token p.0 ≡ false)) }
{
    match whole_text(&definition.literal, subpatterns, errors) {
        Ok(Some(text)) => whole_pattern(definition, text.as_str(), subpatterns, errors),
        Ok(None) => Ok(None),
        Err(Memory) => Err(Memory),
    }
}

/// Returns the leaf of a `regex` or `skip`, or `None` if a fault prevents the leaf. Reports all
/// faults. After an error, `errors` may already contain some of these faults.
fn read_leaf<'s>(
    definition: Definition<'s>,
    kind: VariantKind<'s>,
    subpatterns: &Subpatterns<'s>,
    errors: &mut Errors,
) -> Result<Option<Leaf<'s>>, Memory>
    ensures { IfOk result (λ leaf.
        IsRegexLeaf (definition_view definition.entry) (kind_value kind.entry)
        (names_of subpatterns.now) (option_map leaf_view leaf) errors.old errors.new) }
{
    match regex_pattern(&definition, subpatterns, errors) {
        Ok(Some((pattern, priority))) => Ok(Some(leaf_with(definition, kind, pattern, priority))),
        Ok(None) => {
            drop(definition);
            drop(kind);
            Ok(None)
        }
        Err(Memory) => {
            drop(definition);
            drop(kind);
            Err(Memory)
        }
    }
}

/// Returns the leaf of a `regex` or `skip`, or `None` if a fault prevents the leaf.
///
/// Reports a fault and returns `None` if one of these conditions holds:
///
/// - A subpattern is missing.
/// - The text cannot be read as a pattern.
/// - The default priority does not fit `usize`.
///
/// Also reports a greedy dot, unless the definition allows greedy dots. A greedy dot alone does not
/// prevent the leaf.
///
/// # Errors
///
/// Returns `Memory` if memory runs out. The faults are then unchanged.
pub fn regex_leaf<'s>(
    definition: Definition<'s>,
    kind: VariantKind<'s>,
    subpatterns: &Subpatterns<'s>,
    errors: &mut Errors,
) -> Result<Option<Leaf<'s>>, Memory>
    ensures ok { IfOk result (λ leaf.
        IsRegexLeaf (definition_view definition.entry) (kind_value kind.entry)
        (names_of subpatterns.now) (option_map leaf_view leaf) errors.old errors.new) }
    ensures unreported { OnErr result (errors.new ≡ errors.old) }
{
    let mut found = Errors::new(errors.alloc());
    let leaf = read_leaf(definition, kind, subpatterns, &mut found)?;
    match errors.append(found) {
        Ok(()) => Ok(leaf),
        Err(Memory) => {
            drop(leaf);
            Err(Memory)
        }
    }
}
