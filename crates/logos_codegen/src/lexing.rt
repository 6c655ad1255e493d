//! `lex_source` lexes an input with the lexer of a source in one call. Part of the public
//! interface.

ghost use Rattle.std.specs.Prelude.{◌≡◌, List, Bool, map, length, true, IfOk, IfErr, IsTrue};
ghost use Rattle.logos_codegen.specs.Views.{All, IsUtf8, Rule, CodeValue, IsCut, IsLexer, Items, answers_of, item_of, AreInOrder, Parts, IsLeftOut, Runs, IsAccepted, IsWithinLimits, IsUnlexed, IsJust, IsNoRefusal, TakesMatches, TakesMatchesOf, Memory as OutOfMemory, NotUtf8 as NoUtf8, IsThatRefusal};

use crate::generation::generate;
use logos_generator::code::Code;
use logos_generator::generator::Config;
use logos_generator::machine::{Action, Item, Lexer, NotUtf8};
use logos_hir::leaf::LeafId;
use logos_parser::refusal::Refusal;
use logos_scan::items::items;
use logos_token::error::Errors;
use std::alloc::{AllocError, AllocFailed, Global};

/// The reason why `lex_source` returns no items.
#[derive(Debug, Drop)]
pub enum LexSourceError {
    /// The faults of the source, including exceeded limits.
    Refused(Errors),
    /// An input that is not UTF-8. `valid_up_to` is the length in bytes of its longest UTF-8
    /// prefix.
    NotUtf8 { valid_up_to: usize },
    /// Memory ran out.
    Memory,
}

impl From<AllocError> for LexSourceError {
    ghost from_gives = { λ _ e. e ≡ OutOfMemory };

    fn from(_error: AllocError) -> LexSourceError {
        LexSourceError::Memory
    }
}

impl<T: Drop> From<AllocFailed<T>> for LexSourceError {
    ghost from_gives = { λ _ e. e ≡ OutOfMemory };

    fn from(_error: AllocFailed<T>) -> LexSourceError {
        LexSourceError::Memory
    }
}

impl From<NotUtf8> for LexSourceError {
    ghost from_gives = { λ error e. e ≡ NoUtf8 error.valid_up_to };

    fn from(error: NotUtf8) -> LexSourceError {
        LexSourceError::NotUtf8 {
            valid_up_to: error.valid_up_to,
        }
    }
}

impl From<Refusal> for LexSourceError {
    ghost from_gives = { IsThatRefusal };

    fn from(error: Refusal) -> LexSourceError {
        match error {
            Refusal::Errors(errors) => LexSourceError::Refused(errors),
            Refusal::Memory => LexSourceError::Memory,
        }
    }
}

/// Returns all items that a code finds in an input, in the order of the input.
fn lex_input<'i, C: Fn(LeafId, &[u8]) -> Action + Drop>(
    alloc: Global,
    code: &Code,
    input: &'i [u8],
    callbacks: C,
) -> Result<Vec<Item<'i>>, LexSourceError>
    requires { TakesMatches C.Fn code.now callbacks }
    ensures items { IfOk result (λ items. Runs code.now (answers_of C.Fn callbacks) input.now 0
        (map item_of items.items)) }
    ensures text { IfOk result (λ items. IsTrue code.now.utf8 → IsUtf8 input.now) }
    ensures err { IfErr result (IsUnlexed code.now input.now) }
{
    let lexer = Lexer::new_bytes(code, input, callbacks)?;
    Ok(items(alloc, lexer)?)
}

/// Returns the items that the leaves of a source determine in an input, in the order of the input.
///
/// The source is read as `generate` reads a source. At each point of the input, the longest match
/// is taken. Of several longest matches, the match of the leaf with the highest priority is taken.
/// The match becomes a token of its leaf; a match of a `skip` becomes no item. If no leaf matches,
/// the item is an error. An error spans the longest prefix that could still have become a match: at
/// least one byte, and in UTF-8 mode whole characters.
///
/// For each match of a leaf that has a callback, `callbacks` receives the leaf and the slice, and
/// returns the action; `Emit` for a `skip` means `Skip`. `callbacks` is not called for other
/// leaves. The items are the same in both shapes of `config`.
///
/// # Errors
///
/// Returns:
///
/// - `Refused` if the source has faults
/// - otherwise `NotUtf8` if the source is in UTF-8 mode and the input is not UTF-8
/// - `Memory` if memory runs out
pub fn lex_source<'i, C: Fn(LeafId, &[u8]) -> Action + Drop>(
    alloc: Global,
    src: &str,
    config: Config,
    input: &'i [u8],
    callbacks: C,
) -> Result<Vec<Item<'i>>, LexSourceError>
    requires { (rules : List Rule) (utf8 : Bool) → IsAccepted src.now rules utf8 →
        TakesMatchesOf C.Fn rules callbacks }
    // The source has no faults, and the items are those of maximal munch under its rules. In UTF-8
    // mode the input is UTF-8.
    ensures items { IfOk result (λ items. (rules : List Rule) × (utf8 : Bool)
        × IsAccepted src.now rules utf8 × (IsTrue utf8 → IsUtf8 input.now)
        × Items rules (answers_of C.Fn callbacks) utf8 input.now 0 (map item_of items.items)) }
    ensures in_order { IfOk result (λ items.
        AreInOrder (length input.now) 0 (map item_of items.items)) }
    // The items, together with the matches that a skip or an answer drops, partition the input in
    // order.
    ensures parts { (rules : List Rule) (utf8 : Bool) → IsAccepted src.now rules utf8 →
        IfOk result (λ items. Parts (IsLeftOut rules (answers_of C.Fn callbacks) input.now)
        (length input.now) 0 (map item_of items.items)) }
    // In UTF-8 mode each item starts and ends between characters.
    ensures cut { (rules : List Rule) → IsAccepted src.now rules true →
        IfOk result (λ items. All (IsCut input.now) (map item_of items.items)) }
    // Each code of the source, in either shape, has a run with the same items.
    ensures shapes { (rules : List Rule) (utf8 : Bool) (code : CodeValue) →
        IsAccepted src.now rules utf8 → IsLexer rules utf8 code → IfOk result (λ items.
        Runs code (answers_of C.Fn callbacks) input.now 0 (map item_of items.items)) }
    ensures err { IfErr result (IsJust src.now input.now) }
    // A source without faults, within the limits, is not refused.
    ensures accepted { (rules : List Rule) (utf8 : Bool) → IsAccepted src.now rules utf8 →
        IsWithinLimits src.now rules → IfErr result IsNoRefusal }
{
    match generate(alloc, src, config) {
        Ok(generated) => {
            let found = lex_input(alloc, &generated.code, input, callbacks);
            drop(generated);
            found
        }
        Err(refusal) => Err(LexSourceError::from(refusal)),
    }
}
