//! Expands several files into a folder. `program` calls `run_batch` if the output is a folder.

ghost use Rattle.std.specs.Prelude.{◌≡◌, ◌≢◌, ◌⊎◌, ◌≤◌, ◌++◌, ◌∷◌, [], ℕ, All, Contains, IfOk, IsTrue, List, MatchOption, OnOk, drop, false, map, true};
ghost use Rattle.logos_cli.specs.Views.{Appends, AreCarriedOut, AreDenied, AreTouched, IsApart, IsOwnOutput, Keeps, OrderValue, requests_each, batch_value, batch_file_order, has_twins, is_among, order_into, order_value, orders_into, orders_of, output_text, texts_of};
ghost use Rattle.logos_cli.specs.declared.batch.BatchFile.{BatchFile as BatchFileValue};

use crate::options::{Batch, ExpandOrder};
use crate::program::{Ending, carry_out, failed};
use logos_host::{ComparableFiles, Failure, file_name};
use logos_options::{misuse, paths_of};
use logos_token::error::Memory;
use std::alloc::Global;
use std::io::{IsTerminal, Write};

/// A file to expand, and the path of its result.
#[derive(Drop)]
struct BatchFile<'w> {
    /// The path of the file.
    input: &'w str,
    /// The path of the result.
    output: String,
}

/// Expands the files of a batch. Writes each result into the folder, under the name of the input.
/// With `--check`, only compares the results with the files in the folder.
///
/// If a file is refused or fails, the remaining files are still expanded. The exit status is the
/// highest exit status of all files. If a result would overwrite an input or another result, the
/// exit status is 2, and nothing is read or written.
pub(crate) fn run_batch<F: ComparableFiles, O: Write, E: Write + IsTerminal>(
    alloc: Global,
    batch: Batch<'_>,
    files: &mut F,
    out: &mut O,
    err: &mut E,
) -> Ending
    ensures own { result.status ≡ 2 →
        IsOwnOutput F.same_finds (requests_each (batch_value batch.entry)) files.old }
    ensures apart { result.status ≡ 0 →
        IsApart F.same_finds (requests_each (batch_value batch.entry)) files.old }
    ensures untouched { result.status ≡ 2 →
        (files.new ≡ files.old) × Keeps (O.contents out.old) (O.contents out.new) }
    ensures touched { (files.new ≡ files.old)
        ⊎ (IsApart F.same_finds (requests_each (batch_value batch.entry)) files.old
        × AreTouched F.read_ends F.write_ends (batch_value batch.entry) files.old files.new) }
    ensures done { result.status ≡ 0 → AreCarriedOut F.read_yields F.write_makes F.compare_finds
        (batch_value batch.entry) files.old files.new (O.contents out.old) (O.contents out.new) }
    ensures denied { result.status ≡ 1 → (shown : List ℕ) × AreDenied F.read_yields F.write_makes
        F.compare_finds (batch_value batch.entry) files.old files.new shown
        × (IsTrue result.is_written → (front : List ℕ)
        × Appends (E.contents err.old) (E.contents err.new) (front ++ shown)) }
    ensures silent { result.status ≡ 1 → Keeps (O.contents out.old) (O.contents out.new) }
    ensures known { result.status ≤ 3 }
{
    let batch_files = match batch_files_of(alloc, batch) {
        Ok(batch_files) => batch_files,
        Err(Memory) => return failed(&Failure::Memory, err),
    };
    if let Some(path) = own_output_in(&batch_files, files) {
        return failed(&Failure::OwnOutput(path), err);
    }
    if let Some(path) = twin_in(&batch_files) {
        return failed(&misuse("two inputs give the file", path), err);
    }
    run_each(alloc, batch.order, &batch_files, files, out, err)
}

/// Returns the files of a batch with the paths of their results.
fn batch_files_of<'w>(alloc: Global, batch: Batch<'w>) -> Result<Vec<BatchFile<'w>>, Memory>
    ensures { IfOk result (λ batch_files.
        orders_of (order_value batch.entry.order) batch_files.items ≡ batch_value batch.entry) }
{
    let paths = paths_of(alloc, batch.arguments)?;
    batch_files_at(alloc, batch, &paths)
}

/// Returns the files at the paths `paths` with the paths of their results.
fn batch_files_at<'w>(
    alloc: Global,
    batch: Batch<'w>,
    paths: &[&'w str],
) -> Result<Vec<BatchFile<'w>>, Memory>
    ensures { IfOk result (λ batch_files. orders_of (order_value batch.entry.order) batch_files.items
        ≡ orders_into (order_value batch.entry.order) batch.entry.folder.now
        (texts_of paths.now)) }
{
    let mut batch_files = Vec::new(alloc);
    for path in paths {
        push_batch_file(batch, *path, &mut batch_files)?;
    }
    Ok(batch_files)
}

/// Appends the file at `path` with the path of its result to `batch_files`.
fn push_batch_file<'w>(
    batch: Batch<'w>,
    path: &'w str,
    batch_files: &mut Vec<BatchFile<'w>>,
) -> Result<(), Memory>
    ensures { OnOk result (orders_of (order_value batch.entry.order) batch_files.new.items
        ≡ orders_of (order_value batch.entry.order) batch_files.old.items
        ++ order_into (order_value batch.entry.order) batch.entry.folder.now path.now ∷ []) }
{
    let batch_file = batch_file_of(*batch_files.allocator(), batch.folder, path)?;
    batch_files.push(batch_file)?;
    Ok(())
}

/// Returns the file at the path `input` with the path of its result in `folder`.
fn batch_file_of<'w>(alloc: Global, folder: &str, input: &'w str) -> Result<BatchFile<'w>, Memory>
    ensures { IfOk result (λ batch_file. (order : OrderValue) →
        batch_file_order order batch_file ≡ order_into order folder.now input.now) }
{
    let mut output = String::new(alloc);
    output.push_str(folder)?;
    output.push_str(file_name(input))?;
    Ok(BatchFile { input, output })
}

/// Returns the first path of a result that leads to an input, or `None` if there is no such path.
fn own_output_in<'e, F: ComparableFiles>(
    batch_files: &'e [BatchFile<'_>],
    files: &F,
) -> Option<&'e str>
    ensures { MatchOption result
        (All (λ one. All (λ other. F.same_finds files.now other.input.now (output_text one) false)
        batch_files.now) batch_files.now)
        (λ path. (one : BatchFileValue) × Contains batch_files.now one × ((other : BatchFileValue)
        × Contains batch_files.now other
        × F.same_finds files.now other.input.now (output_text one) true)) }
{
    for batch_file in batch_files {
        if is_input(batch_files, batch_file.output.as_str(), files) {
            return Some(batch_file.output.as_str());
        }
    }
    None
}

/// Returns whether `path` leads to the file of an input of the batch.
fn is_input<F: ComparableFiles>(batch_files: &[BatchFile<'_>], path: &str, files: &F) -> bool
    ensures apart { result ≡ false →
        All (λ other. F.same_finds files.now other.input.now path.now false) batch_files.now }
    ensures same { result ≡ true → (other : BatchFileValue) × Contains batch_files.now other
        × F.same_finds files.now other.input.now path.now true }
{
    for batch_file in batch_files {
        if files.is_same_file(batch_file.input, path) {
            return true;
        }
    }
    false
}

/// Returns the first path that two results share, or `None` if all paths differ.
fn twin_in<'e>(batch_files: &'e [BatchFile<'_>]) -> Option<&'e str>
    ensures { MatchOption result (has_twins (map output_text batch_files.now) ≡ false)
        (λ path. has_twins (map output_text batch_files.now) ≡ true) }
{
    for number in 0..batch_files.len() {
        let path = batch_files[number].output.as_str();
        if is_output(&batch_files[number + 1..], path) {
            return Some(path);
        }
    }
    None
}

/// Returns whether `path` is the path of a result.
fn is_output(batch_files: &[BatchFile<'_>], path: &str) -> bool
    ensures { result ≡ is_among path.now (map output_text batch_files.now) }
{
    for batch_file in batch_files {
        if batch_file.output.as_str() == path {
            return true;
        }
    }
    false
}

/// Expands the files of a batch one after another, and writes or compares their results. Returns
/// the highest exit status, and whether all messages were written.
fn run_each<F: ComparableFiles, O: Write, E: Write + IsTerminal>(
    alloc: Global,
    order: ExpandOrder<'_>,
    batch_files: &[BatchFile<'_>],
    files: &mut F,
    out: &mut O,
    err: &mut E,
) -> Ending
    ensures done { result.status ≡ 0 → AreCarriedOut F.read_yields F.write_makes F.compare_finds
        (orders_of (order_value order.entry) batch_files.now) files.old files.new
        (O.contents out.old) (O.contents out.new) }
    ensures denied { result.status ≡ 1 → (shown : List ℕ) × AreDenied F.read_yields F.write_makes
        F.compare_finds (orders_of (order_value order.entry) batch_files.now) files.old files.new shown
        × (IsTrue result.is_written → (front : List ℕ)
        × Appends (E.contents err.old) (E.contents err.new) (front ++ shown)) }
    ensures silent { result.status ≡ 1 → Keeps (O.contents out.old) (O.contents out.new) }
    ensures touched { AreTouched F.read_ends F.write_ends
        (orders_of (order_value order.entry) batch_files.now) files.old files.new }
    ensures known { (result.status ≤ 3) × (result.status ≢ 2) }
{
    let mut ending = Ending {
        status: 0,
        is_written: true,
    };
    for batch_file in batch_files {
        ending = joined(
            ending,
            carry_out(alloc, order_at(order, batch_file), files, out, err),
        );
    }
    ending
}

/// Returns the order for one file of a batch, with the settings of `order`.
fn order_at<'e>(order: ExpandOrder<'_>, batch_file: &'e BatchFile<'_>) -> ExpandOrder<'e>
    ensures { order_value result ≡ batch_file_order (order_value order.entry) batch_file.now }
{
    ExpandOrder {
        input: batch_file.input,
        output: Some(batch_file.output.as_str()),
        is_check: order.is_check,
        shape: order.shape,
        format: order.format,
        denies: order.denies,
        color: order.color,
    }
}

/// Combines two endings. The result has the higher exit status, and its `is_written` is `true` if
/// the messages of both endings were written.
fn joined(one: Ending, other: Ending) -> Ending
    ensures status { (result.status ≡ one.status) ⊎ (result.status ≡ other.status) }
    ensures highest { (one.status ≤ result.status) × (other.status ≤ result.status) }
    ensures written { IsTrue result.is_written → IsTrue one.is_written × IsTrue other.is_written }
{
    let is_written = one.is_written & other.is_written;
    if one.status < other.status {
        return Ending {
            status: other.status,
            is_written,
        };
    }
    Ending {
        status: one.status,
        is_written,
    }
}
