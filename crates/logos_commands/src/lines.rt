//! Formats the lines that the command `lex` writes for items. Used by `item_lines`.

ghost use Rattle.std.specs.Prelude.{◌≡◌, ◌+◌, ◌≤◌, ◌++◌, length, drop};
ghost use Rattle.logos_commands.specs.Imports.{item_of, line_of, span_line};

use itoa::write_digits;
use logos_codegen::machine::Item;
use logos_codegen::token::Span;

/// The length in bytes of the longest line: a keyword, three numbers of 20 digits, and the
/// separators between them.
pub(super) const LONGEST: usize = 70;

/// Writes the line of an item at the end of `line`, and returns the index in `line` at which the
/// written text begins.
#[inline(always)]
pub(super) fn write_line(line: &mut [u8; LONGEST], item: Item<'_>) -> usize
    ensures { drop result line.new ≡ line_of (item_of item.entry) }
{
    match item {
        Item::Token { leaf, span, .. } => {
            let at = write_span(line, span);
            let at = write_before(line, at, b" ");
            let at = write_digits(leaf.0 as u64, line, at);
            write_before(line, at, b"token ")
        }
        Item::Error { span, .. } => {
            let at = write_span(line, span);
            write_before(line, at, b"error ")
        }
    }
}

/// Writes a span and LF at the end of `line`, and returns the index in `line` at which the written
/// text begins.
#[inline(always)]
fn write_span(line: &mut [u8; LONGEST], span: Span) -> usize
    ensures row_start { (27 ≤ result) × (result ≤ LONGEST) }
    ensures text { drop result line.new ≡ span_line span.from span.to }
{
    let at = write_before(line, LONGEST, b"\n");
    let at = write_digits(span.to as u64, line, at);
    let at = write_before(line, at, b"..");
    write_digits(span.from as u64, line, at)
}

/// Writes `text` before the index `end` of `line`, and returns the index at which the text begins.
#[inline(always)]
fn write_before(line: &mut [u8; LONGEST], end: usize, text: &[u8]) -> usize
    requires { (length text.now ≤ end) × (end ≤ LONGEST) }
    ensures row_start { result + length text.now ≡ end }
    ensures text { drop result line.new ≡ text.now ++ drop end line.old }
{
    let at = end - text.len();
    line[at..end].copy_from_slice(text);
    at
}
