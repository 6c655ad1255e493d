//! Determines the table entries for the stages inside bounds and `for<..>`. `table` calls the
//! function for the stage of a spot.

ghost use Rattle.std.specs.Prelude.{◌≡◌};
ghost use Rattle.logos_type_reader.specs.Views.{rest_of, tokens_of, after_bound, bound_lifetime_move, trait_move, question_move, bound_move, bound_end_move, further_move, enclosed_end_move, after_for, for_move, for_lifetime_move, for_list_move, for_end_move, path_move, OfBound, outside_of, spot_of, IsAction};

use crate::table::paths::path_step;
use crate::table::stage::{
    Binder, BoundKind, FrontToken, Next, PathKind, Prefix, Spot, Stage, TableEntry,
};
use crate::table::tokens::{begins_bound, begins_word, look, mismatch, mismatch_after};
use logos_token::token::Delimiter;

/// Returns the stage after a bound.
fn after_bound(kind: BoundKind) -> Stage
    ensures { result ≡ after_bound kind }
{
    match kind {
        BoundKind::Listed(plus) => Stage::BoundEnd(plus),
        BoundKind::Enclosed(plus) => Stage::EnclosedEnd(plus),
    }
}

/// Returns the table entry for a spot before `'` where a bound is expected, or a mismatch if no
/// name follows. `+` can join another bound if `plus` is `true`.
fn bound_lifetime_step(plus: bool, at: &Spot<'_, '_>) -> Next
    ensures { IsAction result (spot_of at.now)
        (bound_lifetime_move plus (rest_of (tokens_of at.now.run)) (outside_of at.now.outside)) }
{
    match look(at.run.rest()) {
        FrontToken::Word => Ok(TableEntry::Take(Prefix::OtherLifetime, Stage::BoundEnd(plus))),
        _ => mismatch_after(at),
    }
}

/// Returns the table entry for a spot where an optional `for<..>` and the path of a bound are
/// expected. Returns a mismatch if neither a path nor `for<..>` follows.
pub(super) fn trait_step(kind: BoundKind, at: &Spot<'_, '_>) -> Next
    ensures { IsAction result (spot_of at.now)
        (trait_move kind (tokens_of at.now.run) (outside_of at.now.outside)) }
{
    match look(at.run) {
        FrontToken::Word if begins_word("for", at.run) => {
            Ok(TableEntry::Take(Prefix::Word, Stage::For(Binder::OfTrait(kind))))
        }
        _ => path_step(PathKind::OfBound, after_bound(kind), at),
    }
}

/// Returns the table entry for a spot after the `for<..>` of a bound, or a mismatch if no path
/// follows.
pub(super) fn trait_path_step(kind: BoundKind, at: &Spot<'_, '_>) -> Next
    ensures { IsAction result (spot_of at.now)
        (path_move OfBound (after_bound kind) (tokens_of at.now.run)) }
{
    path_step(PathKind::OfBound, after_bound(kind), at)
}

/// Returns the table entry for a spot before the path of a bound where a `?` is allowed, or a
/// mismatch if no bound follows.
pub(super) fn question_step(kind: BoundKind, at: &Spot<'_, '_>) -> Next
    ensures { IsAction result (spot_of at.now)
        (question_move kind (tokens_of at.now.run) (outside_of at.now.outside)) }
{
    match look(at.run) {
        FrontToken::Mark('?', _) => Ok(TableEntry::Take(Prefix::Mark('?'), Stage::Trait(kind))),
        _ => trait_step(kind, at),
    }
}

/// Returns the table entry for a spot where a bound is expected, or a mismatch if no bound follows.
/// `+` can join another bound if `plus` is `true`.
pub(super) fn bound_step(plus: bool, at: &Spot<'_, '_>) -> Next
    ensures { IsAction result (spot_of at.now)
        (bound_move plus (tokens_of at.now.run) (outside_of at.now.outside)) }
{
    match look(at.run) {
        FrontToken::Mark('\'', _) => bound_lifetime_step(plus, at),
        FrontToken::Group(Delimiter::Parenthesis) => Ok(TableEntry::Open(Stage::Question(plus))),
        _ => question_step(BoundKind::Listed(plus), at),
    }
}

/// Returns the table entry for a spot after a bound. The entry takes a `+` if a `+` follows and
/// `plus` is `true`, and otherwise ends the bounds.
pub(super) fn bound_end_step(plus: bool, at: &Spot<'_, '_>) -> Next
    ensures { IsAction result (spot_of at.now)
        (bound_end_move plus (tokens_of at.now.run) (outside_of at.now.outside)) }
{
    match look(at.run) {
        FrontToken::Mark('+', _) if plus => {
            Ok(TableEntry::Take(Prefix::Mark('+'), Stage::Further))
        }
        _ => Ok(TableEntry::End),
    }
}

/// Returns the table entry for a spot after a `+` that follows a bound. The entry begins another
/// bound if a bound follows, and otherwise ends the bounds.
pub(super) fn further_step(at: &Spot<'_, '_>) -> Next
    ensures { IsAction result (spot_of at.now)
        (further_move (tokens_of at.now.run) (outside_of at.now.outside)) }
{
    if begins_bound(at.run) {
        return bound_step(true, at);
    }
    Ok(TableEntry::End)
}

/// Returns the table entry for a spot after a path in the parentheses of a bound, or a mismatch if
/// a token follows. After the parentheses, `+` can join another bound if `plus` is `true`.
pub(super) fn enclosed_end_step(plus: bool, at: &Spot<'_, '_>) -> Next
    ensures { IsAction result (spot_of at.now)
        (enclosed_end_move plus (tokens_of at.now.run) (outside_of at.now.outside)) }
{
    match look(at.run) {
        FrontToken::Nothing => Ok(TableEntry::Close(Delimiter::Parenthesis, Stage::BoundEnd(plus))),
        _ => mismatch(at),
    }
}

/// Returns the stage after `for<..>`.
fn after_for(binder: Binder) -> Stage
    ensures { result ≡ after_for binder }
{
    match binder {
        Binder::OfFunction => Stage::Qualified,
        Binder::OfTrait(kind) => Stage::TraitPath(kind),
    }
}

/// Returns the table entry for a spot after `for`, or a mismatch if no `<` follows.
pub(super) fn for_step(binder: Binder, at: &Spot<'_, '_>) -> Next
    ensures { IsAction result (spot_of at.now)
        (for_move binder (tokens_of at.now.run) (outside_of at.now.outside)) }
{
    match look(at.run) {
        FrontToken::Mark('<', _) => {
            Ok(TableEntry::Take(Prefix::Mark('<'), Stage::ForList(binder)))
        }
        _ => mismatch(at),
    }
}

/// Returns the table entry for a spot before `'` in `for<..>`, or a mismatch if no name follows.
fn for_lifetime_step(binder: Binder, at: &Spot<'_, '_>) -> Next
    ensures { IsAction result (spot_of at.now)
        (for_lifetime_move binder (rest_of (tokens_of at.now.run)) (outside_of at.now.outside)) }
{
    match look(at.run.rest()) {
        FrontToken::Word => Ok(TableEntry::Take(Prefix::OtherLifetime, Stage::ForEnd(binder))),
        _ => mismatch_after(at),
    }
}

/// Returns the table entry for a spot in `for<..>` where a lifetime is allowed, or a mismatch if
/// neither a lifetime nor `>` follows.
pub(super) fn for_list_step(binder: Binder, at: &Spot<'_, '_>) -> Next
    ensures { IsAction result (spot_of at.now)
        (for_list_move binder (tokens_of at.now.run) (outside_of at.now.outside)) }
{
    match look(at.run) {
        FrontToken::Mark('>', _) => { Ok(TableEntry::Take(Prefix::Mark('>'), after_for(binder))) }
        FrontToken::Mark('\'', _) => for_lifetime_step(binder, at),
        _ => mismatch(at),
    }
}

/// Returns the table entry for a spot after a lifetime in `for<..>`, or a mismatch if neither a
/// comma nor `>` follows.
pub(super) fn for_end_step(binder: Binder, at: &Spot<'_, '_>) -> Next
    ensures { IsAction result (spot_of at.now)
        (for_end_move binder (tokens_of at.now.run) (outside_of at.now.outside)) }
{
    match look(at.run) {
        FrontToken::Mark(',', _) => {
            Ok(TableEntry::Take(Prefix::Mark(','), Stage::ForList(binder)))
        }
        FrontToken::Mark('>', _) => { Ok(TableEntry::Take(Prefix::Mark('>'), after_for(binder))) }
        _ => mismatch(at),
    }
}
