//! `compare_lexers` determines whether two lexers find equal items. Items are compared by the names
//! of their variants. Called by `logos_replies` for `--compare`.

ghost use Rattle.std.specs.Prelude.{◌≡◌, [], Some, IfOk, OnOk, length, option_map};
ghost use Rattle.logos_answers.specs.Views.{AreDistinct, AreNumbers, Grows, IsGraphOf, IsNumberOf, IsCompared, compared_by};

use crate::names::variant_of;
use indexmap::IndexSet;
use logos_evidence::{Comparison, Named, compare};
use logos_graph::graph::Graph;
use logos_pattern::leaf::Leaf;
use std::alloc::{AllocError, Global};

/// The result of a comparison of two lexers.
#[derive(Debug, Drop)]
pub enum Compared {
    /// The two lexers find items of equal kinds, variants and lengths at each offset of each input.
    Same,
    /// The two lexers find items of different kinds, variants or lengths at the beginning of this
    /// input.
    Differ(Vec<u8>),
    /// One lexer reads UTF-8, and the other lexer reads any bytes.
    OtherMode,
}

/// Compares the lexers of two graphs without faults. The lexers are equivalent if both read UTF-8
/// or both read any bytes, and if at each offset of each input they find items with equal kinds,
/// variant names and ends. The effects of callbacks are not compared.
///
/// # Errors
///
/// Returns `AllocError` if memory runs out.
pub fn compare_lexers(
    alloc: Global,
    one: &Graph<'_>,
    other: &Graph<'_>,
) -> Result<Compared, AllocError>
    ensures { IfOk result (λ compared. IsGraphOf one.now.leaves one.now.utf8 one.now →
        IsGraphOf other.now.leaves other.now.utf8 other.now → one.now.faults ≡ [] →
        other.now.faults ≡ [] → IsCompared one.now other.now compared) }
{
    if one.utf8_mode() != other.utf8_mode() {
        return Ok(Compared::OtherMode);
    }
    let mut table = IndexSet::new(alloc);
    let names = numbers_of(alloc, &mut table, one.leaves())?;
    let others = numbers_of(alloc, &mut table, other.leaves())?;
    let named = Named {
        graph: one,
        names: &names,
    };
    let twin = Named {
        graph: other,
        names: &others,
    };
    let made = compare(alloc, named, twin)?;
    Ok(compared_by(made))
}

/// Returns the result of the comparison `made` of two lexers that both read UTF-8 or both read any
/// bytes.
fn compared_by(made: Comparison) -> Compared
    ensures { result ≡ compared_by made }
{
    match made {
        Comparison::Same => Compared::Same,
        Comparison::Differ(input) => Compared::Differ(input),
    }
}

/// Returns a number for each leaf: 0 for a skip, and the index of the leaf's variant in `table`
/// plus 1 for any other leaf. Adds missing variants to `table`.
fn numbers_of<'l>(
    alloc: Global,
    table: &mut IndexSet<&'l str>,
    leaves: &'l [Leaf<'_>],
) -> Result<Vec<usize>, AllocError>
    ensures numbers { IfOk result (λ numbers.
        AreNumbers table.new.keys leaves.now (length leaves.now) numbers.items) }
    ensures grows { OnOk result (Grows table.old.keys table.new.keys) }
    ensures distinct { OnOk result
        (AreDistinct table.old.keys → AreDistinct table.new.keys) }
{
    let mut numbers = Vec::new(alloc);
    for leaf in leaves {
        let number = number_of(table, variant_of(&leaf.kind))?;
        numbers.push(number)?;
    }
    Ok(numbers)
}

/// Returns the number of the variant `name`: its index in `table` plus 1. Returns 0 if `name` is
/// `None`, which denotes a skip. Adds a missing name to `table`.
fn number_of<'l>(table: &mut IndexSet<&'l str>, name: Option<&'l str>) -> Result<usize, AllocError>
    ensures number { IfOk result (λ number. IsNumberOf table.new.keys
        (option_map (λ name. name.now) name.entry) number) }
    ensures grows { OnOk result (Grows table.old.keys table.new.keys) }
    ensures distinct { OnOk result
        (AreDistinct table.old.keys → AreDistinct table.new.keys) }
{
    match name {
        Some(name) => index_of(table, name),
        None => Ok(0),
    }
}

/// Returns the index of `name` in `table` plus 1. Adds a missing name to `table`.
fn index_of<'l>(table: &mut IndexSet<&'l str>, name: &'l str) -> Result<usize, AllocError>
    ensures number { IfOk result (λ number. IsNumberOf table.new.keys (Some name.now) number) }
    ensures grows { OnOk result (Grows table.old.keys table.new.keys) }
    ensures distinct { OnOk result (AreDistinct table.new.keys) }
{
    match table.insert_full(name) {
        Ok((index, _)) => {
            // The length of the table shows that the sum does not overflow.
            let _ = table.len();
            Ok(index + 1)
        }
        Err(_) => Err(AllocError),
    }
}
