//! Finds the beginnings of types. The reader of types calls `begin` for each type that is more than
//! a name.

ghost use Rattle.std.specs.Prelude.{◌≡◌, Some, None, MatchOption};
ghost use Rattle.logos_type_reader.specs.Views.{rest_of, tokens_of, first_span, reference_first, reference_lifetime_first, word_stage, word_first, mark_first, begin, is_reserved, name_of, IsFirst, first_text, IsStart};

use crate::table::actions::begin_by;
use crate::table::stage::{
    Beginning, Binder, First, FirstEntry, FrontToken, PathKind, Prefix, Stage, StepFault,
};
use crate::table::tokens::{begins_colons, begins_mark, continues, first_span, first_text, look};
use logos_token::token::{Delimiter, Tokens};

/// Returns the beginning of a type that begins with `&`.
fn reference_first(run: Tokens<'_, '_>) -> First
    ensures { IsStart result (tokens_of run.entry)
        (reference_first (rest_of (tokens_of run.entry))) }
{
    match look(run.rest()) {
        FrontToken::Mark('\'', _) => reference_lifetime(run),
        _ => Ok(FirstEntry::Lead(false, Prefix::Reference, Stage::Referent)),
    }
}

/// Returns the beginning of a type that begins with `&'`, or a mismatch if no name follows.
fn reference_lifetime(run: Tokens<'_, '_>) -> First
    ensures { IsStart result (tokens_of run.entry)
        (reference_lifetime_first (rest_of (rest_of (tokens_of run.entry)))) }
{
    let name = run.rest().rest();
    match look(name) {
        FrontToken::Word => Ok(FirstEntry::Lead(false, Prefix::ReferenceLifetime, Stage::Referent)),
        _ => Err(StepFault::Mismatch(first_span(name))),
    }
}

/// Returns the stage after the word `text` at the start of a type. `+` joins bounds only if `plus`
/// is `true`.
fn word_stage(plus: bool, text: &str) -> Stage
    ensures { result ≡ word_stage plus text.now }
{
    if (text == "dyn") | (text == "impl") {
        return Stage::Bound(plus);
    }
    if text == "fn" {
        return Stage::Function;
    }
    if text == "unsafe" {
        return Stage::Unsafe;
    }
    if text == "extern" {
        return Stage::Extern;
    }
    if text == "for" {
        return Stage::For(Binder::OfFunction);
    }
    Stage::Named(PathKind::Plain)
}

/// Returns the beginning of a type that begins with a word. Returns a fault if the word is `_`,
/// because this type is unsupported. `+` joins bounds only if `plus` is `true`.
fn word_first(plus: bool, run: Tokens<'_, '_>) -> First
    ensures { IsStart result (tokens_of run.entry)
        (word_first plus (first_text (tokens_of run.entry)) (first_span (tokens_of run.entry))
        (rest_of (tokens_of run.entry))) }
{
    let text = first_text(run);
    if text == "_" {
        return Err(StepFault::Unsupported(first_span(run)));
    }
    Ok(FirstEntry::Lead(text == "impl", Prefix::Word, word_stage(plus, text)))
}

/// Returns the beginning of a type that begins with the punctuation `mark`, or a fault if `mark`
/// begins an unsupported type or no type at all.
fn mark_first(mark: char, run: Tokens<'_, '_>) -> First
    ensures { IsStart result (tokens_of run.entry)
        (mark_first mark (first_span (tokens_of run.entry)) (tokens_of run.entry)
        (rest_of (tokens_of run.entry))) }
{
    match mark {
        '&' => reference_first(run),
        '*' => Ok(FirstEntry::Lead(false, Prefix::Mark('*'), Stage::Pointer)),
        '<' => Ok(FirstEntry::Lead(false, Prefix::Mark('<'), Stage::SelfType)),
        '!' => Err(StepFault::Unsupported(first_span(run))),
        _ if begins_colons(run) => {
            Ok(FirstEntry::Lead(false, Prefix::Colons, Stage::Colons(PathKind::Plain, false)))
        }
        _ => Err(StepFault::Mismatch(first_span(run))),
    }
}

/// Returns the beginning of the type at the start of the run, without the tokens of this beginning.
/// Returns the fault if the run does not begin with a supported type. `+` joins bounds only if
/// `plus` is `true`.
#[tactic(auto, unfolding(crate::specs::Table::begin))]
fn start_at(plus: bool, run: Tokens<'_, '_>) -> First
    ensures { IsStart result (tokens_of run.entry) (begin plus (tokens_of run.entry)) }
{
    match look(run) {
        FrontToken::Word => word_first(plus, run),
        FrontToken::Group(Delimiter::Parenthesis) => Ok(FirstEntry::Open(Stage::List)),
        FrontToken::Group(Delimiter::Bracket) => Ok(FirstEntry::Open(Stage::Element)),
        FrontToken::Mark(mark, _) => mark_first(mark, run),
        _ => Err(StepFault::Mismatch(first_span(run))),
    }
}

/// Returns the first token of the type at the start of the run and the spot after this token.
/// Returns the fault if the run does not begin with a supported type. `+` joins bounds only if
/// `plus` is `true`.
pub(crate) fn begin<'t, 's>(plus: bool, run: Tokens<'t, 's>) -> Result<Beginning<'t, 's>, StepFault>
    ensures { IsFirst result (begin plus (tokens_of run.entry)) }
{
    match start_at(plus, run) {
        Ok(start) => begin_by(start, run),
        Err(stop) => Err(stop),
    }
}

/// Returns whether the word `text` is reserved and cannot be the name of a type.
fn is_reserved(text: &str) -> bool
    ensures { result ≡ is_reserved text.now }
{
    (((text == "dyn") | (text == "impl")) | ((text == "_") | (text == "for")))
        | (((text == "fn") | (text == "unsafe")) | (text == "extern"))
}

/// Returns the name at the start of `tokens` and the tokens after the name. Returns `None` if no
/// type begins at this point, or if the type is more than a name.
pub(crate) fn read_name<'t, 's>(tokens: Tokens<'t, 's>) -> Option<(&'s str, Tokens<'t, 's>)>
    ensures { MatchOption result (name_of (tokens_of tokens.entry) ≡ None)
        (λ read. (name_of (tokens_of tokens.entry) ≡ Some read.0.now)
        × (tokens_of read.1 ≡ rest_of (tokens_of tokens.entry))) }
{
    let FrontToken::Word = look(tokens) else {
        return None;
    };
    let name = first_text(tokens);
    let rest = tokens.rest();
    if is_reserved(name) | (continues(rest) | begins_mark('!', rest)) {
        return None;
    }
    Some((name, rest))
}
