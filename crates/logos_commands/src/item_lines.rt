//! Runs the command `lex`, which writes a line for each item of an input. The lines are written in
//! blocks while the input is lexed. Used by `command` and `program`.

ghost use Rattle.std.specs.Prelude.{◌≡◌, ◌++◌, ◌+◌, ◌<◌, ◌≤◌, ℕ, List, [], IfErr, OnOk, IsTrue, IsUtf8, vec_len, vec_capacity};
ghost use Rattle.logos_commands.specs.Views.{Appends, Keeps, TakesMatches, Action as Answer, answers_of, item_of, WritesLines, emits, line_of, AppendsFront, status_of, IsNoMisuse, IsOutputFailure, IsLookedAt, IsTornBy, PrintsItems, PrintsItemsOf, RefusesInput, RefusesItems};

use crate::lines::{LONGEST, write_line};
use crate::refusals::refused_source;
use logos_codegen::code::Code;
use logos_codegen::generate;
use logos_codegen::generator::Config;
use logos_codegen::leaf::LeafId;
use logos_codegen::machine::{Action, Item, Lexer};
use logos_host::{Failure, Files, print_bytes, read_bytes, read_text, write_full};
use logos_scan::choice::rows_for;
use logos_scan::fold::folded::Folded;
use logos_scan::run::{Reading, Run};
use logos_scan::walk::masks::ChunkEntries;
use std::alloc::Global;
use std::io::Write;

/// The length in bytes at which a block is full. Only the last written block is shorter.
const BLOCK: usize = 65_536;

/// A request for the items of an input: the paths of the source and of the input, and the shape of
/// the lexer's code.
#[derive(Clone, Copy)]
pub(super) struct LexRequest<'w> {
    pub(super) source: &'w str,
    pub(super) input: &'w str,
    pub(super) config: Config,
}

/// Writes a line to `out` for each item that the lexer of the enum in a file finds in an input.
///
/// The source and the input are validated before the first item is written. After that, only
/// writing can fail.
///
/// # Errors
///
/// Returns:
///
/// - the failure to read a file,
/// - `Refused` if the source is refused,
/// - `NotUtf8` if the lexer requires UTF-8 and the input is not UTF-8,
/// - `Memory` if memory runs out,
/// - the failure to write to `out`.
pub(super) fn lex<'w, F: Files, O: Write>(
    alloc: Global,
    request: LexRequest<'w>,
    files: &mut F,
    out: &mut O,
) -> Result<(), Failure<'w>>
    ensures done { OnOk result (PrintsItems F.read_yields request.entry.source.now
        request.entry.input.now files.old files.new (O.contents out.old) (O.contents out.new)) }
    ensures denied { IfErr result (λ failure. status_of failure ≡ 1 →
        RefusesItems F.read_yields request.entry.source.now request.entry.input.now files.old
        files.new failure) }
    ensures silent { IfErr result (λ failure. status_of failure ≡ 1 →
        Keeps (O.contents out.old) (O.contents out.new)) }
    ensures ends { IsLookedAt F.read_ends files.old files.new }
    ensures known { IfErr result IsNoMisuse }
{
    let source = read_text(request.source, files)?;
    let bytes = read_bytes(request.input, files)?;
    lex_by_source(
        alloc,
        source.as_str(),
        bytes.as_slice(),
        request.config,
        out,
    )
}

/// Writes a line to `out` for each item that the lexer of the source `source` finds in `input`.
fn lex_by_source<O: Write>(
    alloc: Global,
    source: &str,
    input: &[u8],
    config: Config,
    out: &mut O,
) -> Result<(), Failure<'static>>
    ensures done { OnOk result (PrintsItemsOf source.now input.now (O.contents out.old)
        (O.contents out.new)) }
    ensures denied { IfErr result (λ failure. status_of failure ≡ 1 →
        RefusesInput source.now input.now failure) }
    ensures silent { IfErr result (λ failure. status_of failure ≡ 1 →
        Keeps (O.contents out.old) (O.contents out.new)) }
    ensures known { IfErr result IsNoMisuse }
{
    match generate(alloc, source, config) {
        Ok(made) => lex_by_code(alloc, &made.code, input, out),
        Err(refusal) => Err(refused_source(refusal)),
    }
}

/// Writes a line to `out` for each item that the lexer with the code `code` finds in `input`.
fn lex_by_code<O: Write>(
    alloc: Global,
    code: &Code<'_>,
    input: &[u8],
    out: &mut O,
) -> Result<(), Failure<'static>>
    ensures text { OnOk result (IsTrue code.now.utf8 → IsUtf8 input.now) }
    ensures lines { OnOk result (WritesLines code.now emits input.now 0 [] (O.contents out.old)
        (O.contents out.new)) }
    ensures denied { IfErr result (λ failure. status_of failure ≡ 1 →
        IsTornBy code.now input.now failure) }
    ensures silent { IfErr result (λ failure. status_of failure ≡ 1 →
        Keeps (O.contents out.old) (O.contents out.new)) }
    ensures known { IfErr result IsNoMisuse }
{
    let mut block = Vec::with_capacity(alloc, BLOCK + LONGEST)?;
    let emit = |_leaf: LeafId, _slice: &[u8]| Action::Emit;
    match Lexer::new_bytes(code, input, emit) {
        Ok(lexer) => {
            let mut lexer = lexer;
            match rows_for(alloc, code, input)? {
                Some(folded) => write_by_chunks(&folded, input, &emit, &mut block, out),
                None => write_lines(&mut lexer, &mut block, out),
            }
        }
        Err(error) => Err(Failure::NotUtf8 {
            valid_up_to: error.valid_up_to,
        }),
    }
}

/// Writes the bytes of `block` to `out`, followed by a line for each item of `input`, and flushes
/// `out`. The items are found chunk by chunk, and their lines are collected in `block`. Only
/// writing can fail.
fn write_by_chunks<C: Fn(LeafId, &[u8]) -> Action, O: Write>(
    folded: &Folded<'_, '_>,
    input: &[u8],
    callback: &C,
    block: &mut Vec<u8>,
    out: &mut O,
) -> Result<(), Failure<'static>>
    requires callable { TakesMatches C.Fn folded.now.code callback.now }
    requires room { (vec_len block.old < BLOCK) × (BLOCK + LONGEST ≤ vec_capacity block.old) }
    ensures lines { OnOk result (WritesLines folded.now.code (answers_of C.Fn callback.now)
        input.now 0 block.old.items (O.contents out.old) (O.contents out.new)) }
    ensures failed { IfErr result IsOutputFailure }
    ensures status { IfErr result (λ failure. status_of failure ≡ 3) }
{
    let reading = Reading::new(folded, input);
    let mut chunk = ChunkEntries::new();
    let mut run = Run::new(&reading, &mut chunk);
    while let Some(item) = run.next_item(&reading, &mut chunk, callback) {
        push_line(block, item);
        write_if_full(block, out)?;
    }
    print_bytes(block, out)
}

/// Writes the bytes of `block` to `out`, followed by a line for each further item of a lexer, and
/// flushes `out`. The lines are collected in `block`. Only writing can fail.
fn write_lines<C: Fn(LeafId, &[u8]) -> Action, O: Write>(
    lexer: &mut Lexer<'_, '_, '_, C>,
    block: &mut Vec<u8>,
    out: &mut O,
) -> Result<(), Failure<'static>>
    requires callable { TakesMatches C.Fn lexer.old.code lexer.old.callback }
    requires room { (vec_len block.old < BLOCK) × (BLOCK + LONGEST ≤ vec_capacity block.old) }
    ensures lines { OnOk result (WritesLines lexer.old.code
        (answers_of C.Fn lexer.old.callback) lexer.old.input lexer.old.to block.old.items
        (O.contents out.old) (O.contents out.new)) }
    ensures failed { IfErr result IsOutputFailure }
    ensures status { IfErr result (λ failure. status_of failure ≡ 3) }
{
    while let Some(item) = lexer.next() {
        push_line(block, item);
        write_if_full(block, out)?;
    }
    print_bytes(block, out)
}

/// Writes `block` to `out` and empties the block if it has at least [`BLOCK`] bytes.
fn write_if_full<O: Write>(block: &mut Vec<u8>, out: &mut O) -> Result<(), Failure<'static>>
    ensures few { vec_len block.new < BLOCK }
    ensures room { vec_capacity block.new ≡ vec_capacity block.old }
    ensures written { OnOk result (AppendsFront (O.contents out.old) (O.contents out.new)
        block.old.items block.new.items) }
    ensures failed { IfErr result IsOutputFailure }
    ensures status { IfErr result (λ failure. status_of failure ≡ 3) }
{
    match write_full(block, BLOCK, out) {
        Ok(()) => Ok(()),
        Err(error) => Err(Failure::of_output(&error)),
    }
}

/// Appends the line of an item to `block`. `block` must have room for [`LONGEST`] further bytes.
#[inline(always)]
fn push_line(block: &mut Vec<u8>, item: Item<'_>)
    requires { vec_len block.old + LONGEST ≤ vec_capacity block.old }
    ensures text { block.new.items ≡ block.old.items ++ line_of (item_of item.entry) }
    ensures room { vec_capacity block.old ≤ vec_capacity block.new }
{
    let mut line = [0; LONGEST];
    let from = write_line(&mut line, item);
    if block.extend_from_slice(&line[from..]).is_err() {
        unreachable!();
    }
}
