//! Finds the enums of a file. `logos_expand` and `logos_show` call `read_file` or `enums_in` once
//! for each file.

ghost use Rattle.std.specs.Prelude.{◌≡◌, ◌∷◌, [], All, IfOk, IfErr, OnOk, length, map};
ghost use Rattle.logos_rust_file.specs.Views.{Fault, Spells, stream_tokens, tokens_of, EndsReading, Refuses, AreEnumsOf, Describes, Finds, AreInOrder, IsFoundCut, found_span, AddsItem, AddsRun};

use crate::derives::derives;
use crate::fronts::{ItemKind, kind_of, name_of};
use crate::names::derives_by_name;
use logos_parser::ending_faults::unreadable;
use logos_parser::refusal::Refusal;
use logos_token::error::Memory;
use logos_token::token::{Span, TokenStream, Tokens, tokenize};
use std::alloc::Global;

/// An enum that was found in a file.
#[derive(Clone, Copy, Debug)]
pub struct FoundEnum {
    /// The span of the enum in the file, in bytes. The span begins with the first attribute of the
    /// enum, with the visibility if there is no attribute, or with `enum` if there is neither. The
    /// span ends with the braces of the enum.
    pub span: Span,
    /// The span of the enum's name in the file, in bytes, or `None` if `enum` is not followed by an
    /// identifier.
    pub name: Option<Span>,
    /// Whether one of the `derive` attributes at the front of the enum has the entry `Logos`,
    /// `logos::Logos` or `::logos::Logos`.
    pub derives: bool,
    /// Whether one of the `derive` attributes has the entry `Logos` without a path. Such an entry
    /// names the macro through an import.
    pub by_name: bool,
}

/// A Rust file that was read: its tokens and its enums.
#[derive(Drop)]
pub struct ReadFile<'s> {
    /// The tokens of the file.
    pub stream: TokenStream<'s>,
    /// The enums of the file, in the order in which they occur, as `enums_in` returns them.
    pub found: Vec<FoundEnum>,
}

/// Returns the enums at the top level of a Rust file and in the bodies of its modules, in the order
/// in which they occur in the file. Searches modules at any depth, but neither the bodies of
/// functions nor the arguments of macros.
///
/// # Errors
///
/// Returns `Errors` if the file cannot be read into tokens. The only fault is then `LimitSource`,
/// `Lexical` or `LimitTokenNesting`. Returns `Memory` if memory runs out.
pub fn enums_in(alloc: Global, text: &str) -> Result<Vec<FoundEnum>, Refusal>
    ensures found { IfOk result (λ found. AreEnumsOf text.now found.items) }
    ensures in_order { IfOk result (λ found.
        AreInOrder 0 (map found_span found.items) (length text.now)) }
    ensures cut { IfOk result (λ found. All (IsFoundCut text.now) found.items) }
    ensures unreadable { IfErr result (Refuses (λ faults. (ending : Fault)
        × EndsReading text.now ending × (faults ≡ ending ∷ []))) }
{
    match read_file(alloc, text) {
        Ok(file) => Ok(file.found),
        Err(refusal) => Err(refusal),
    }
}

/// Returns the tokens of a file, and the enums that `enums_in` returns for the file.
///
/// # Errors
///
/// Returns the errors of `enums_in`.
pub fn read_file<'s>(alloc: Global, text: &'s str) -> Result<ReadFile<'s>, Refusal>
    ensures spelled { IfOk result (λ file. Spells text.now (stream_tokens file.stream)) }
    ensures found { IfOk result (λ file. AreEnumsOf text.now file.found.items) }
    ensures in_order { IfOk result (λ file.
        AreInOrder 0 (map found_span file.found.items) (length text.now)) }
    ensures cut { IfOk result (λ file. All (IsFoundCut text.now) file.found.items) }
    ensures unreadable { IfErr result (Refuses (λ faults. (ending : Fault)
        × EndsReading text.now ending × (faults ≡ ending ∷ []))) }
{
    match tokenize(alloc, text) {
        Ok(stream) => match enums_of(alloc, stream.run()) {
            Ok(found) => Ok(ReadFile { stream, found }),
            Err(Memory) => Err(Refusal::Memory),
        },
        Err(error) => Err(unreadable(alloc, text, error)),
    }
}

/// Returns the enums of the items in `tokens`.
fn enums_of(alloc: Global, tokens: Tokens<'_, '_>) -> Result<Vec<FoundEnum>, Memory>
    ensures { IfOk result (λ found. Finds (tokens_of tokens.entry) found.items) }
{
    let mut found = Vec::new(alloc);
    add_all(tokens, &mut found)?;
    Ok(found)
}

/// Appends the enums of the items in `run` to `found`.
#[cycle(find)]
fn add_all(run: Tokens<'_, '_>, found: &mut Vec<FoundEnum>) -> Result<(), Memory>
    ensures { OnOk result (AddsRun (tokens_of run.entry) found.old.items found.new.items) }
{
    let mut tokens = run;
    while let Some(rest) = add_first(tokens, found)? {
        tokens = rest;
    }
    Ok(())
}

/// Appends the enums of the first item to `found`. Returns the tokens after the item, or `None` if
/// there is no item.
#[cycle(find)]
fn add_first<'t, 's>(
    tokens: Tokens<'t, 's>,
    found: &mut Vec<FoundEnum>,
) -> Result<Option<Tokens<'t, 's>>, Memory>
    ensures { IfOk result (AddsItem (tokens_of tokens.entry) found.old.items found.new.items) }
{
    match kind_of(tokens) {
        ItemKind::End => Ok(None),
        ItemKind::Enum { rest } => {
            found.push(describe(tokens.before(rest)))?;
            Ok(Some(rest))
        }
        ItemKind::Module { inside, rest } => {
            add_all(inside, found)?;
            Ok(Some(rest))
        }
        ItemKind::Other { rest } => Ok(Some(rest)),
    }
}

/// Returns the enum whose tokens are `item`.
fn describe(item: Tokens<'_, '_>) -> FoundEnum
    ensures { Describes (tokens_of item.entry) result }
{
    FoundEnum {
        span: item.span(),
        name: name_of(item),
        derives: derives(item),
        by_name: derives_by_name(item),
    }
}
