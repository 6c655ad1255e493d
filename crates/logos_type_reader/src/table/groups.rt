//! Determines the table entries for the stages inside references, pointers, groups, and `<T as P>`.
//! `table` calls the function for the stage of a spot.

ghost use Rattle.logos_type_reader.specs.Views.{tokens_of, referent_move, pointer_move, list_move, list_end_move, element_end_move, length_move, self_end_move, self_trait_end_move, self_closed_move, outside_of, spot_of, IsAction};

use crate::table::stage::{FrontToken, Next, PathKind, Prefix, Spot, Stage, TableEntry};
use crate::table::tokens::{begins_colons, begins_word, look, mismatch};
use logos_token::token::Delimiter;

/// Returns the table entry for a spot after the `&` and the optional lifetime of a reference.
pub(super) fn referent_step(at: &Spot<'_, '_>) -> Next
    ensures { IsAction result (spot_of at.now)
        (referent_move (tokens_of at.now.run) (outside_of at.now.outside)) }
{
    match look(at.run) {
        FrontToken::Word if begins_word("mut", at.run) => Ok(TableEntry::Take(
            Prefix::Word,
            Stage::Target,
        )),
        _ => Ok(TableEntry::Need(false, Stage::End)),
    }
}

/// Returns the table entry for a spot after the `*` of a pointer, or a mismatch if neither `const`
/// nor `mut` follows.
pub(super) fn pointer_step(at: &Spot<'_, '_>) -> Next
    ensures { IsAction result (spot_of at.now)
        (pointer_move (tokens_of at.now.run) (outside_of at.now.outside)) }
{
    match look(at.run) {
        FrontToken::Word if begins_word("const", at.run) | begins_word("mut", at.run) => {
            Ok(TableEntry::Take(Prefix::Word, Stage::Target))
        }
        _ => mismatch(at),
    }
}

/// Returns the table entry for a spot in parentheses where a type is allowed. The entry ends the
/// group if no tokens are left, and otherwise reads a type.
pub(super) fn tuple_step(at: &Spot<'_, '_>) -> Next
    ensures { IsAction result (spot_of at.now)
        (list_move (tokens_of at.now.run) (outside_of at.now.outside)) }
{
    match look(at.run) {
        FrontToken::Nothing => Ok(TableEntry::Close(Delimiter::Parenthesis, Stage::End)),
        _ => Ok(TableEntry::Need(true, Stage::ListEnd)),
    }
}

/// Returns the table entry for a spot after a type in parentheses, or a mismatch if neither a comma
/// nor the end of the group follows.
pub(super) fn tuple_end_step(at: &Spot<'_, '_>) -> Next
    ensures { IsAction result (spot_of at.now)
        (list_end_move (tokens_of at.now.run) (outside_of at.now.outside)) }
{
    match look(at.run) {
        FrontToken::Nothing => Ok(TableEntry::Close(Delimiter::Parenthesis, Stage::End)),
        FrontToken::Mark(',', _) => Ok(TableEntry::Take(Prefix::Mark(','), Stage::List)),
        _ => mismatch(at),
    }
}

/// Returns the table entry for a spot after a type in brackets, or a mismatch if neither `;` nor
/// the end of the group follows.
pub(super) fn element_end_step(at: &Spot<'_, '_>) -> Next
    ensures { IsAction result (spot_of at.now)
        (element_end_move (tokens_of at.now.run) (outside_of at.now.outside)) }
{
    match look(at.run) {
        FrontToken::Nothing => Ok(TableEntry::Close(Delimiter::Bracket, Stage::End)),
        FrontToken::Mark(';', _) => Ok(TableEntry::Take(Prefix::Mark(';'), Stage::Length)),
        _ => mismatch(at),
    }
}

/// Returns the table entry for a spot after the `;` of an array, or a mismatch if no length
/// follows.
pub(super) fn length_step(at: &Spot<'_, '_>) -> Next
    ensures { IsAction result (spot_of at.now)
        (length_move (tokens_of at.now.run) (outside_of at.now.outside)) }
{
    match look(at.run) {
        FrontToken::Nothing => mismatch(at),
        _ => Ok(TableEntry::Keep(Stage::LengthEnd)),
    }
}

/// Returns the table entry for a spot after the type that follows `<`, or a mismatch if neither
/// `as` nor `>` follows.
pub(super) fn self_end_step(at: &Spot<'_, '_>) -> Next
    ensures { IsAction result (spot_of at.now)
        (self_end_move (tokens_of at.now.run) (outside_of at.now.outside)) }
{
    match look(at.run) {
        FrontToken::Word if begins_word("as", at.run) => Ok(TableEntry::Take(
            Prefix::Word,
            Stage::SelfTrait,
        )),
        FrontToken::Mark('>', _) => Ok(TableEntry::Take(Prefix::Mark('>'), Stage::SelfClosed)),
        _ => mismatch(at),
    }
}

/// Returns the table entry for a spot after the path that follows `as`, or a mismatch if no `>`
/// follows.
pub(super) fn self_trait_end_step(at: &Spot<'_, '_>) -> Next
    ensures { IsAction result (spot_of at.now)
        (self_trait_end_move (tokens_of at.now.run) (outside_of at.now.outside)) }
{
    match look(at.run) {
        FrontToken::Mark('>', _) => Ok(TableEntry::Take(Prefix::Mark('>'), Stage::SelfClosed)),
        _ => mismatch(at),
    }
}

/// Returns the table entry for a spot after the `>` of `<T as P>`, or a mismatch if no `::`
/// follows.
pub(super) fn self_closed_step(at: &Spot<'_, '_>) -> Next
    ensures { IsAction result (spot_of at.now)
        (self_closed_move (tokens_of at.now.run) (outside_of at.now.outside)) }
{
    if begins_colons(at.run) {
        return Ok(TableEntry::Take(Prefix::Colons, Stage::Colons(PathKind::OfType, false)));
    }
    mismatch(at)
}
