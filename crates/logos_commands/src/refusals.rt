//! Turns refusals into failures with the text that `logos` prints: a line for each fault, or the
//! reason why a diagram is not exported. Used by `diagram_path`, `item_lines` and `outcome`.

ghost use Rattle.std.specs.Prelude.{◌≡◌, ◌++◌, IfOk, OnOk, string_bytes};
ghost use Rattle.logos_commands.specs.Views.{IsNoMisuse, IsRefusalOf, IsUnexportedBy, export_line, fault_head, fault_line, fault_lines, fault_of, faults_of, flat_map, line_character, on_one_line};

use logos_codegen::Refusal;
use logos_codegen::error::{Errors, Memory, SpannedError};
use logos_host::Failure;
use std::alloc::Global;

/// The reason why a diagram is not exported.
#[derive(Clone, Copy)]
pub(super) enum ExportRefusal {
    /// A source without an export path.
    NoPath,
    /// A path for a diagram in the language DOT.
    Dot,
    /// A path with an extension that no diagram has.
    Extension,
}

/// Returns the failure for a refused source, or `Memory` if memory runs out.
pub(super) fn refused_source(refusal: Refusal) -> Failure<'static>
    ensures refusal { IsRefusalOf refusal result }
    ensures known { IsNoMisuse result }
{
    let Refusal::Errors(errors) = refusal else {
        return Failure::Memory;
    };
    match fault_lines(&errors) {
        Ok(text) => Failure::Refused(text),
        Err(Memory) => Failure::Memory,
    }
}

/// Returns the failure for a diagram that is not exported, or `Memory` if memory runs out.
pub(super) fn refused_export(alloc: Global, why: ExportRefusal) -> Failure<'static>
    ensures refusal { IsUnexportedBy why result }
    ensures known { IsNoMisuse result }
{
    match String::from_str(alloc, export_line(why)) {
        Ok(text) => Failure::Refused(text),
        Err(_) => Failure::Memory,
    }
}

/// Returns the line that reports the reason `why`, including the LF.
fn export_line(why: ExportRefusal) -> &'static str
    ensures { result.now ≡ export_line why }
{
    match why {
        ExportRefusal::NoPath => "no export path\n",
        ExportRefusal::Dot => "DOT export is left out\n",
        ExportRefusal::Extension => {
            "Export path must end in '.dot' or '.mmd', or it must be a directory.\n"
        }
    }
}

/// Returns the lines of all faults, or `Memory` if memory runs out. Reserves the memory for the
/// lines in one step, because the faults of thousands of equal leaves take hundreds of megabytes,
/// and a text that grows by doubling can take twice as much.
fn fault_lines(errors: &Errors) -> Result<String, Memory>
    ensures { IfOk result (λ text. string_bytes text ≡ fault_lines errors.now) }
{
    let mut text = String::new(errors.alloc());
    text.reserve(size_of_lines(errors.list()))?;
    push_lines(&mut text, errors.list())?;
    Ok(text)
}

/// An estimate of the number of bytes in a line apart from its message: two numbers, a code, and
/// the separators. In most lines, these have fewer bytes.
const BESIDE_MESSAGE: usize = 80;

/// Returns an estimate of the number of bytes in the lines of `faults`. No proof depends on this
/// estimate.
fn size_of_lines(faults: &[SpannedError]) -> usize {
    let mut size: usize = 0;
    for fault in faults {
        let line = size_on_one_line(fault.message.as_bytes());
        size = size.saturating_add(line).saturating_add(BESIDE_MESSAGE);
    }
    size
}

/// Returns the number of bytes in `message` with a backslash and `n` in place of each LF.
fn size_on_one_line(message: &[u8]) -> usize {
    let mut size = message.len();
    for byte in message {
        if *byte == b'\n' {
            size = size.saturating_add(1);
        }
    }
    size
}

/// Appends the lines of `faults` to `text`.
fn push_lines(text: &mut String, faults: &[SpannedError]) -> Result<(), Memory>
    ensures { OnOk result (string_bytes text.new
        ≡ string_bytes text.old ++ flat_map fault_line (faults_of faults.now)) }
{
    for fault in faults {
        push_line(text, fault)?;
    }
    Ok(())
}

/// Appends the line of a fault to `text`.
fn push_line(text: &mut String, fault: &SpannedError) -> Result<(), Memory>
    ensures { OnOk result (string_bytes text.new
        ≡ string_bytes text.old ++ fault_line (fault_of fault.now)) }
{
    push_head(text, fault)?;
    push_on_one_line(text, fault.message.as_str())?;
    text.push('\n')?;
    Ok(())
}

/// Appends the beginning of a fault's line to `text`: the span and the code of the fault.
fn push_head(text: &mut String, fault: &SpannedError) -> Result<(), Memory>
    ensures { OnOk result (string_bytes text.new
        ≡ string_bytes text.old ++ fault_head (fault_of fault.now)) }
{
    let from = fault.span.from;
    let to = fault.span.to;
    let code = fault.code;
    if write!(text, "{from}..{to} {code}: ").is_err() {
        return Err(Memory);
    }
    Ok(())
}

/// Appends `message` to `text`, with a backslash and `n` in place of each LF.
fn push_on_one_line(text: &mut String, message: &str) -> Result<(), Memory>
    ensures { OnOk result (string_bytes text.new
        ≡ string_bytes text.old ++ on_one_line message.now) }
{
    for character in message.chars() {
        push_character(text, character)?;
    }
    Ok(())
}

/// Appends a character to `text`, or a backslash and `n` if the character is LF.
fn push_character(text: &mut String, character: char) -> Result<(), Memory>
    ensures { OnOk result (string_bytes text.new
        ≡ string_bytes text.old ++ line_character character) }
{
    match character {
        '\n' => text.push_str("\\n")?,
        _ => text.push(character)?,
    }
    Ok(())
}
