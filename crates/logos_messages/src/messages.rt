//! Functions that append a line of JSON for each fault of a source, but for at most 50 faults with
//! one code. Used by `logos_expand` and `logos_show`.

ghost use Rattle.std.specs.Prelude.{◌≡◌, ◌≤◌, ◌<◌, ◌+◌, ◌++◌, List, ℕ, IfOk, OnErr, OnOk, length, take};
ghost use Rattle.logos_json.specs.Lines.{LinesValue};
ghost use Rattle.logos_messages.specs.Imports.{AreMessages, AreRefusedMessages, PutsAfter, PutsCounted, PutsFrom, all_faults, fault_of, faults_of, listed_faults};

use crate::fault::{FaultMessage, push_fault_line};
use crate::rest_line::push_rest_line;
use logos_json::JsonLines;
use logos_report::{
    Clues, FaultListing, KnownFault, MOST, NextFaults, Part, Refused, Source, count_in,
    first_faults, seen_in, set_at,
};
use logos_token::error::{Errors, Memory};
use std::alloc::{AllocError, Global};

/// Appends a line of JSON for each fault of a part of a file, in the order of `errors`.
///
/// A line has the members of rustc's diagnostics. The member `rendered` is the report that
/// `push_faults` appends, without colors. The clues about a fault are among its notes.
///
/// At most 50 faults with one code have a line. Instead of the 51st fault, a line of the level
/// `failure-note` states the number of faults that are left out. Lines of the file that have more
/// than 400 bytes are left out, and `rendered` is null if the span of the fault begins or ends in
/// such a line. Thus the memory for the appended lines is linear in the length of the messages of
/// the faults that have a line.
///
/// # Errors
///
/// Returns `Memory` if memory runs out. `lines` is then unchanged.
pub fn push_messages(
    alloc: Global,
    lines: &mut Vec<u8>,
    part: Part<'_, '_>,
    errors: &Errors,
    clues: &Clues,
) -> Result<(), Memory>
    ensures pushed { OnOk result ((added : List ℕ) × (lines.new.items ≡ lines.old.items ++ added)
        × AreMessages part.entry.source.now part.entry.offset errors.now added) }
    ensures unchanged { OnErr result (lines.new.items ≡ lines.old.items) }
{
    let mut added = message_lines(alloc, part, errors, clues)?;
    lines.append(&mut added)?;
    Ok(())
}

/// Appends the lines for the faults of the parts `refused` of a file, part by part, as
/// `push_messages` does. At most 50 faults with one code in all parts together have a line.
///
/// # Errors
///
/// Returns `Memory` if memory runs out. `lines` is then unchanged.
pub fn push_refused_messages(
    alloc: Global,
    lines: &mut Vec<u8>,
    source: &Source<'_>,
    refused: &[Refused],
) -> Result<(), Memory>
    ensures pushed { OnOk result ((added : List ℕ) × (lines.new.items ≡ lines.old.items ++ added)
        × AreRefusedMessages source.now refused.now added) }
    ensures unchanged { OnErr result (lines.new.items ≡ lines.old.items) }
{
    let mut added = refused_lines(alloc, source, refused)?;
    lines.append(&mut added)?;
    Ok(())
}

/// Returns the lines for the faults of a part of a file.
fn message_lines(
    alloc: Global,
    part: Part<'_, '_>,
    errors: &Errors,
    clues: &Clues,
) -> Result<Vec<u8>, AllocError>
    ensures { IfOk result (λ lines. AreMessages part.entry.source.now part.entry.offset errors.now
        lines.items) }
{
    let mut lines = JsonLines::new(alloc, Vec::new(alloc));
    let listing = FaultListing {
        earlier: &[],
        faults: errors.list(),
        later: &[],
    };
    push_all(&mut lines, alloc, part, listing, first_faults(clues))?;
    let bytes = lines.finish()?;
    Ok(bytes)
}

/// Returns the lines for the faults of the parts `refused` of a file.
fn refused_lines(
    alloc: Global,
    source: &Source<'_>,
    refused: &[Refused],
) -> Result<Vec<u8>, AllocError>
    ensures { IfOk result (λ lines. AreRefusedMessages source.now refused.now lines.items) }
{
    let mut lines = JsonLines::new(alloc, Vec::new(alloc));
    push_parts(&mut lines, alloc, source, refused)?;
    let bytes = lines.finish()?;
    Ok(bytes)
}

/// Appends the lines for the faults of the parts `refused` of a file.
fn push_parts(
    lines: &mut JsonLines,
    alloc: Global,
    source: &Source<'_>,
    refused: &[Refused],
) -> Result<(), AllocError>
    ensures { OnOk result (PutsFrom source.now refused.now 0 lines.old lines.new) }
{
    for number in 0..refused.len() {
        push_part(lines, alloc, source, refused, number)?;
    }
    Ok(())
}

/// Appends the lines for the faults of the part at the index `number` of `refused`.
fn push_part(
    lines: &mut JsonLines,
    alloc: Global,
    source: &Source<'_>,
    refused: &[Refused],
    number: usize,
) -> Result<(), AllocError>
    requires { number < length refused.now }
    ensures { OnOk result ((new : LinesValue) → PutsFrom source.now refused.now (number + 1) lines.new
        new → PutsFrom source.now refused.now number lines.old new) }
{
    let one = &refused[number];
    let offset = one.offset;
    let listing = FaultListing {
        earlier: &refused[..number],
        faults: one.errors.list(),
        later: &refused[number + 1..],
    };
    push_all(
        lines,
        alloc,
        Part { source, offset },
        listing,
        first_faults(&one.clues),
    )?;
    Ok(())
}

/// Appends the lines for the faults `listing.faults` of a part. `first` contains the clues about
/// these faults, beginning with the first fault.
fn push_all(
    lines: &mut JsonLines,
    alloc: Global,
    part: Part<'_, '_>,
    listing: FaultListing<'_>,
    first: NextFaults<'_>,
) -> Result<(), AllocError>
    ensures { OnOk result (PutsAfter part.entry.source.now part.entry.offset
        (listed_faults listing.entry) (all_faults listing.entry.earlier.now)
        (faults_of listing.entry.faults.now) lines.old lines.new) }
{
    let faults = listing.faults;
    let mut next = first;
    for number in 0..faults.len() {
        let fault = &faults[number];
        let known = KnownFault {
            fault,
            set: set_at(faults, number),
            help: next.help(),
        };
        let message = FaultMessage {
            part,
            known,
            member: next.member(fault),
            starts: next.starts(fault.code),
        };
        push_counted(lines, alloc, listing, number, message)?;
        next = next.after(fault);
    }
    Ok(())
}

/// Appends the line for the fault at the index `number` of a part if fewer than 50 faults with its
/// code precede it in the file. If exactly 50 faults precede it, appends a line with the number of
/// faults that are left out. If more than 50 faults precede it, appends nothing.
fn push_counted(
    lines: &mut JsonLines,
    alloc: Global,
    listing: FaultListing<'_>,
    number: usize,
    message: FaultMessage<'_, '_, '_, '_>,
) -> Result<(), AllocError>
    requires { number ≤ length listing.faults.now }
    ensures { OnOk result (PutsCounted message.entry.part.source.now message.entry.part.offset
        (listed_faults listing.entry)
        (all_faults listing.entry.earlier.now ++ faults_of (take number listing.entry.faults.now))
        (fault_of message.entry.known.fault.now) lines.old lines.new) }
{
    let code = message.known.fault.code;
    let seen = seen_in(listing.earlier, &listing.faults[..number], code);
    if seen < MOST {
        return push_fault_line(lines, alloc, message);
    }
    if seen == MOST {
        let count = count_in(listing, code).saturating_sub(MOST);
        return push_rest_line(lines, alloc, code, count);
    }
    Ok(())
}
