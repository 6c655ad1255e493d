//! Writes the items of an input, one on each line. Used by `logos_show`.

ghost use Rattle.std.specs.Prelude.{IfErr};
ghost use Rattle.logos_items.specs.Imports.{IsNoMisuse};

use crate::inputs::{ItemBlock, write_all};
use crate::lines::{
    ERROR, ItemOrder, Lines, head_at, milliseconds, no_lines, now, push_line, push_totals,
};
use logos_answers::{Totals, note_of};
use logos_codegen::Generated;
use logos_codegen::machine::Item;
use logos_host::{Failure, print_bytes};
use logos_lines::Cursor;
use std::alloc::AllocError;
use std::io::Write;
use std::time::Clock;

/// Writes a line for each item of an input, and then the counts. Returns the note about the
/// callbacks of leaves that have items. The note is empty if there are no such callbacks.
///
/// # Errors
///
/// Returns:
///
/// - `NotUtf8` if the lexer reads UTF-8 and the input is not UTF-8.
/// - `Output` or `Closed` if writing fails.
/// - `Memory` if memory runs out.
pub fn write_items<O: Write, C: Clock>(
    order: ItemOrder<'_>,
    made: &Generated<'_>,
    input: &[u8],
    clock: &C,
    out: &mut O,
) -> Result<String, Failure<'static>>
    ensures { IfErr result IsNoMisuse }
{
    let alloc = order.alloc;
    let mut added = InputLines {
        lines: no_lines(order, &made.code)?,
        cursor: Cursor::new(input),
    };
    let start = now(clock);
    write_all(alloc, &made.code, input, &mut added, out)?;
    let totals = Totals {
        bytes: input.len(),
        passed: milliseconds(start, now(clock)),
    };
    let mut lines = added.lines;
    push_totals(order, made, &mut lines, totals)?;
    // The note is made first, so that nothing is printed if memory runs out.
    let note = note_of(alloc, made.code.leaves(), &lines.counts)?;
    print_bytes(&lines.block, out)?;
    Ok(note)
}

/// The lines of the items of an input, and the point of the input at which the last item starts.
#[derive(Drop)]
struct InputLines<'t> {
    lines: Lines,
    cursor: Cursor<'t>,
}

impl<'t> ItemBlock for InputLines<'t> {
    #[inline(always)]
    fn add(&mut self, item: Item<'_>) -> Result<(), AllocError> {
        let lines = &mut self.lines;
        match item {
            Item::Token { leaf, span, slice } => {
                self.cursor.go_to(span.from);
                lines.counts.count_token(leaf.0);
                let head = head_at(&lines.heads, leaf.0);
                let location = self.cursor.location();
                push_line(&mut lines.block, &mut lines.canvas, location, head, slice)
            }
            Item::Error { span, slice, .. } => {
                self.cursor.go_to(span.from);
                lines.counts.count_error();
                let location = self.cursor.location();
                push_line(&mut lines.block, &mut lines.canvas, location, ERROR, slice)
            }
        }
    }

    #[inline(always)]
    fn text(&mut self) -> &mut Vec<u8> {
        &mut self.lines.block
    }
}
