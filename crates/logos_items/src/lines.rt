//! Assembles the lines of items, with the names of leaves, and counts the items. Used by `items`,
//! `streams` and `logos_show`.

ghost use Rattle.std.specs.Prelude.{◌≡◌, ◌++◌, OnOk};
ghost use Rattle.logos_items.specs.Imports.{totals_text};

use crate::blocks::BLOCK;
use logos_answers::{Counts, LINE, Totals, code_name_at, push_item};
use logos_codegen::Generated;
use logos_codegen::code::{Code, CodeLeaf};
use logos_lines::Location;
use logos_options::Settings;
use logos_page::Page;
use logos_screen::{ItemLine, Screen, push_item_line};
use std::alloc::{AllocError, Global};
use std::str;
use std::time::{Clock, Duration};

/// The head of the line of an error: the text between its location and its bytes.
pub(crate) const ERROR: &[u8] = b"  <error>  \"";

/// The settings for writing the items of an input.
#[derive(Clone, Copy)]
pub struct ItemOrder<'w> {
    pub alloc: Global,
    /// The settings of the command line.
    pub settings: Settings<'w>,
    /// The form of the output.
    pub screen: Screen,
}

/// The lines of items that have not been written, with the counts of all items so far.
#[derive(Drop)]
pub(crate) struct Lines {
    /// The lines that have not been written.
    pub(crate) block: Vec<u8>,
    pub(crate) canvas: Canvas,
    pub(crate) counts: Counts,
    /// For each leaf, the head of its lines: the text between the location and the item's bytes.
    /// The head contains the name of the variant, and separators.
    pub(crate) heads: Vec<Vec<u8>>,
}

/// The form of lines, and the buffers in which a line is assembled.
#[derive(Drop)]
pub(crate) struct Canvas {
    screen: Screen,
    /// The buffer in which a short line is assembled.
    line: [u8; LINE],
    /// The buffer for a line that is colored or cut before it is appended.
    plain: Vec<u8>,
}

/// Returns the lines of an input before its first item, with zero counts and the heads of the
/// leaves of `code`.
///
/// # Errors
///
/// Returns `AllocError` if memory runs out.
pub(crate) fn no_lines(order: ItemOrder<'_>, code: &Code<'_>) -> Result<Lines, AllocError> {
    let alloc = order.alloc;
    Ok(Lines {
        block: Vec::with_capacity(alloc, BLOCK + BLOCK / 16)?,
        canvas: Canvas {
            screen: order.screen,
            line: [0; LINE],
            plain: Vec::new(alloc),
        },
        counts: Counts::new(alloc, code.leaves().len())?,
        heads: heads_of(alloc, code.leaves())?,
    })
}

/// Appends the line of an item to `block`: the location, the head with the item's name, and the
/// bytes in quotes.
///
/// # Errors
///
/// Returns `AllocError` if memory runs out. Then a part of the line may have been appended.
#[inline(always)]
pub(crate) fn push_line(
    block: &mut Vec<u8>,
    canvas: &mut Canvas,
    location: Location,
    head: &[u8],
    slice: &[u8],
) -> Result<(), AllocError> {
    if canvas.screen.is_plain() {
        return push_item(block, &mut canvas.line, location, head, slice);
    }
    push_styled(block, canvas, location, head, slice)
}

/// Appends the line of an item to `block`, with colors or cut to a width, as the screen of `canvas`
/// requires.
fn push_styled(
    block: &mut Vec<u8>,
    canvas: &mut Canvas,
    location: Location,
    head: &[u8],
    slice: &[u8],
) -> Result<(), AllocError> {
    let plain = &mut canvas.plain;
    plain.clear();
    push_item(plain, &mut canvas.line, location, head, slice)?;
    let _ = plain.pop();
    match str::from_utf8(plain) {
        Ok(line) => {
            let line = ItemLine {
                line,
                variant: head.len().saturating_sub(1),
                is_error: head == ERROR,
            };
            push_item_line(block, canvas.screen, line)
        }
        Err(_) => block.extend_from_slice(plain),
    }
}

/// Appends the counts for a whole input to the block of `lines`.
///
/// # Errors
///
/// Returns `AllocError` if memory runs out. Then nothing was appended.
pub(crate) fn push_totals(
    order: ItemOrder<'_>,
    made: &Generated<'_>,
    lines: &mut Lines,
    totals: Totals,
) -> Result<(), AllocError>
    ensures { OnOk result (lines.new.block.items ≡ lines.old.block.items
        ++ totals_text made.now.name.text.now made.now.code.code_leaves lines.old.counts.by_leaf.items
        lines.old.counts.errors totals.bytes totals.passed) }
{
    let mut page = Page::new(order.alloc, false);
    let leaves = made.code.leaves();
    lines
        .counts
        .push_totals(&mut page, made.name.text, leaves, totals);
    let text = page.finish()?;
    lines.block.extend_from_slice(text.as_bytes())
}

/// Returns the head of the lines of each of `leaves`.
fn heads_of(alloc: Global, leaves: &[CodeLeaf<'_>]) -> Result<Vec<Vec<u8>>, AllocError> {
    let mut heads = Vec::new(alloc);
    for number in 0..leaves.len() {
        heads.push(head_of(alloc, code_name_at(leaves, number))?)?;
    }
    Ok(heads)
}

/// Returns the head of the lines of the variant `name`. The head is empty if `name` is `None`,
/// because a skip has no lines.
fn head_of(alloc: Global, name: Option<&str>) -> Result<Vec<u8>, AllocError> {
    let mut head = Vec::new(alloc);
    if let Some(name) = name {
        head.extend_from_slice(b"  ")?;
        head.extend_from_slice(name.as_bytes())?;
        head.extend_from_slice(b"  \"")?;
    }
    Ok(head)
}

/// Returns the head of the lines of the leaf with the number `leaf`, or an empty head if there is
/// no such leaf.
#[inline(always)]
pub(crate) fn head_at(heads: &[Vec<u8>], leaf: usize) -> &[u8] {
    match heads.get(leaf) {
        Some(head) => head.as_slice(),
        None => &[],
    }
}

/// Returns the time of the clock, or `None` if the clock cannot be read.
pub(crate) fn now<C: Clock>(clock: &C) -> Option<Duration> {
    match clock.monotonic() {
        Ok(time) => Some(time),
        Err(_) => None,
    }
}

/// Returns the milliseconds from `start` to `end`. Returns `None` if a time is unknown, if `end` is
/// earlier than `start`, or if the number exceeds `usize::MAX`.
pub(crate) fn milliseconds(start: Option<Duration>, end: Option<Duration>) -> Option<usize> {
    let passed = end?.checked_sub(start?)?;
    match usize::try_from(passed.as_millis()) {
        Ok(milliseconds) => Some(milliseconds),
        Err(_) => None,
    }
}
