//! Makes the rows of a table of leaves. Used by `logos_answers`, `logos_html`, `logos_records` and
//! `logos_replies`.

ghost use Rattle.std.specs.Prelude.{◌≡◌, ◌↔◌, IsTrue, IfOk, Some, option_map, option_copied};
ghost use Rattle.logos_inspect.specs.Views.{location_at, held, IsRowOf, IsTextAt, ShowsCallback, default_priority, held_priority, moved, variant_name};

use logos_lines::LineIndex;
use logos_pattern::leaf::{Callback, Leaf, LeafOptions, VariantKind};
use logos_pattern::pattern::Pattern;
use logos_token::error::Memory;
use logos_token::token::{Literal, LiteralValue, Span};
use std::alloc::Global;

/// The row of a leaf in a table of leaves.
#[derive(Clone, Copy)]
pub struct LeafRow<'l> {
    /// The name of the variant, or `None` for a skip.
    pub variant: Option<&'l str>,
    /// Whether the leaf is a `token`, as opposed to a `regex` or a `skip`.
    pub is_token: bool,
    /// The literal as written in the source, including the quotes.
    pub pattern: &'l str,
    /// The options of the leaf's definition.
    pub options: LeafOptions,
    pub priority: usize,
    /// Whether the priority is the default priority of the leaf's pattern.
    pub is_default: bool,
    /// The callback as written in the source, if there is one.
    pub callback: Option<&'l str>,
    /// The number of the line on which the literal begins in the file, counted from 1.
    pub line: usize,
}

/// Returns the row of a leaf.
///
/// `lines` is the line index of the whole file, and `offset` is the byte offset of the enum in the
/// file. `text` is the text of the enum, to which the spans of the leaf are relative.
///
/// # Errors
///
/// Returns `Memory` if memory runs out.
pub fn row_of<'l>(
    alloc: Global,
    lines: &LineIndex<'_>,
    offset: usize,
    text: &'l str,
    leaf: &'l Leaf<'_>,
) -> Result<LeafRow<'l>, Memory>
    ensures { IfOk result (IsRowOf lines.now offset text.now leaf.now) }
{
    let is_default = has_default_priority(alloc, &leaf.pattern, leaf.priority)?;
    Ok(LeafRow {
        variant: variant_name(&leaf.kind),
        is_token: leaf.pattern.is_literal(),
        pattern: leaf.pattern.source(),
        options: leaf.options,
        priority: leaf.priority,
        is_default,
        callback: callback_text(text, leaf.callback.as_ref()),
        line: line_at(lines, offset, leaf.span.from),
    })
}

/// Returns the name of the variant of a leaf with the kind `kind`, or `None` for a skip.
fn variant_name<'l>(kind: &'l VariantKind<'_>) -> Option<&'l str>
    ensures { option_copied result ≡ variant_name kind.now }
{
    match kind {
        VariantKind::Unit(name) => Some(name.text),
        VariantKind::Value(name, _) => Some(name.text),
        VariantKind::Skip => None,
    }
}

/// Returns whether `priority` is the default priority of a leaf with the pattern `pattern`.
fn has_default_priority(
    alloc: Global,
    pattern: &Pattern<'_>,
    priority: usize,
) -> Result<bool, Memory>
    ensures { IfOk result (λ has. IsTrue has ↔ (default_priority pattern.now ≡ Some priority)) }
{
    let default = if pattern.is_literal() {
        token_priority(alloc, pattern.source())?
    } else {
        pattern.priority()
    };
    Ok(default == Some(priority))
}

/// Returns the default priority of a `token` with the literal `text`. Returns `None` if the literal
/// is neither a string nor a byte string.
fn token_priority(alloc: Global, text: &str) -> Result<Option<usize>, Memory>
    ensures { IfOk result (λ priority. priority ≡ option_map held_priority (held text.now)) }
{
    let span = Span {
        from: 0,
        to: text.len(),
    };
    let literal = Literal { text, span };
    match literal.value(alloc)? {
        Some(LiteralValue::Text(value)) => Ok(Some(2 * value.len())),
        Some(LiteralValue::Bytes(value)) => Ok(Some(2 * value.len())),
        None => Ok(None),
    }
}

/// Returns a callback as written in `text`, or `None` if there is no callback.
fn callback_text<'l>(text: &'l str, callback: Option<&Callback<'_>>) -> Option<&'l str>
    ensures { ShowsCallback text.now (option_copied callback.entry) (option_copied result) }
{
    match callback {
        Some(callback) => Some(text_at(text, callback.span())),
        None => None,
    }
}

/// Returns the part of `text` at `span`, or an empty text if `text` has no such span.
fn text_at(text: &str, span: Span) -> &str
    ensures { IsTextAt text.now span result.now }
{
    match text.get(span.from..span.to) {
        Some(slice) => slice,
        None => "",
    }
}

/// Returns the line number, counted from 1, of the byte `offset + from` of the file.
fn line_at(lines: &LineIndex<'_>, offset: usize, from: usize) -> usize
    ensures { result ≡ (location_at lines.now (moved offset from)).line }
{
    lines.line_column(offset.saturating_add(from)).line
}
