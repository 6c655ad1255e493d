//! Determines the table entries for the stages inside function types. `table` calls the function
//! for the stage of a spot.

ghost use Rattle.logos_type_reader.specs.Views.{tokens_of, linked_move, unsafe_move, qualified_move, extern_move, function_move, taken_value, taken_move, typed_move, one_taken_move, variadic_move, variadic_end_move, outside_of, spot_of, IsAction};

use crate::table::stage::{FrontToken, Next, Prefix, Spot, Stage, TableEntry};
use crate::table::tokens::{begins_dots, begins_word, is_typing, look, mismatch};
use logos_token::token::Delimiter;

/// Returns the table entry for a spot after `extern` and its literal, or a mismatch if no `fn`
/// follows.
pub(super) fn linked_step(at: &Spot<'_, '_>) -> Next
    ensures { IsAction result (spot_of at.now)
        (linked_move (tokens_of at.now.run) (outside_of at.now.outside)) }
{
    match look(at.run) {
        FrontToken::Word if begins_word("fn", at.run) => Ok(TableEntry::Take(
            Prefix::Word,
            Stage::Function,
        )),
        _ => mismatch(at),
    }
}

/// Returns the table entry for a spot after `unsafe`, or a mismatch if neither `extern` nor `fn`
/// follows.
pub(super) fn unsafe_step(at: &Spot<'_, '_>) -> Next
    ensures { IsAction result (spot_of at.now)
        (unsafe_move (tokens_of at.now.run) (outside_of at.now.outside)) }
{
    match look(at.run) {
        FrontToken::Word if begins_word("extern", at.run) => Ok(TableEntry::Take(
            Prefix::Word,
            Stage::Extern,
        )),
        _ => linked_step(at),
    }
}

/// Returns the table entry for a spot after the `for<..>` of a function type, or a mismatch if none
/// of `unsafe`, `extern` and `fn` follows.
pub(super) fn qualified_step(at: &Spot<'_, '_>) -> Next
    ensures { IsAction result (spot_of at.now)
        (qualified_move (tokens_of at.now.run) (outside_of at.now.outside)) }
{
    match look(at.run) {
        FrontToken::Word if begins_word("unsafe", at.run) => Ok(TableEntry::Take(
            Prefix::Word,
            Stage::Unsafe,
        )),
        _ => unsafe_step(at),
    }
}

/// Returns the table entry for a spot after `extern`, or a mismatch if neither a literal nor `fn`
/// follows.
pub(super) fn extern_step(at: &Spot<'_, '_>) -> Next
    ensures { IsAction result (spot_of at.now)
        (extern_move (tokens_of at.now.run) (outside_of at.now.outside)) }
{
    match look(at.run) {
        FrontToken::Literal => Ok(TableEntry::Take(Prefix::Literal, Stage::Linked)),
        _ => linked_step(at),
    }
}

/// Returns the table entry for a spot after `fn`, or a mismatch if no parentheses follow.
pub(super) fn function_step(at: &Spot<'_, '_>) -> Next
    ensures { IsAction result (spot_of at.now)
        (function_move (tokens_of at.now.run) (outside_of at.now.outside)) }
{
    match look(at.run) {
        FrontToken::Group(Delimiter::Parenthesis) => Ok(TableEntry::Open(Stage::Taken)),
        _ => mismatch(at),
    }
}

/// Returns the table entry for a spot where the type of a parameter or `...` is expected.
pub(super) fn taken_value_step(at: &Spot<'_, '_>) -> Next
    ensures { IsAction result (spot_of at.now)
        (taken_value (tokens_of at.now.run) (outside_of at.now.outside)) }
{
    if begins_dots(at.run) {
        return Ok(TableEntry::Bar(Prefix::Dots, Stage::Variadic));
    }
    Ok(TableEntry::Need(true, Stage::OneTaken))
}

/// Returns the table entry for a spot where a parameter of a function is allowed. The entry ends
/// the parameters, takes the name of a parameter, takes `...`, or reads the type of a parameter.
pub(super) fn taken_step(at: &Spot<'_, '_>) -> Next
    ensures { IsAction result (spot_of at.now)
        (taken_move (tokens_of at.now.run) (outside_of at.now.outside)) }
{
    match look(at.run) {
        FrontToken::Nothing => Ok(TableEntry::Close(Delimiter::Parenthesis, Stage::Output)),
        FrontToken::Word if is_typing(at.run.rest()) => Ok(TableEntry::Take(
            Prefix::Word,
            Stage::Typed,
        )),
        _ => taken_value_step(at),
    }
}

/// Returns the table entry for a spot between the name of a parameter and `:`, or a mismatch if no
/// `:` follows.
pub(super) fn typed_step(at: &Spot<'_, '_>) -> Next
    ensures { IsAction result (spot_of at.now)
        (typed_move (tokens_of at.now.run) (outside_of at.now.outside)) }
{
    match look(at.run) {
        FrontToken::Mark(':', _) => Ok(TableEntry::Take(Prefix::Mark(':'), Stage::TypedValue)),
        _ => mismatch(at),
    }
}

/// Returns the table entry for a spot after a parameter of a function, or a mismatch if neither a
/// comma nor the end of the parameters follows.
pub(super) fn one_taken_step(at: &Spot<'_, '_>) -> Next
    ensures { IsAction result (spot_of at.now)
        (one_taken_move (tokens_of at.now.run) (outside_of at.now.outside)) }
{
    match look(at.run) {
        FrontToken::Nothing => Ok(TableEntry::Close(Delimiter::Parenthesis, Stage::Output)),
        FrontToken::Mark(',', _) => Ok(TableEntry::Take(Prefix::Mark(','), Stage::Taken)),
        _ => mismatch(at),
    }
}

/// Returns the table entry for a spot after `...`, or a mismatch if neither a comma nor the end of
/// the parameters follows.
pub(super) fn variadic_step(at: &Spot<'_, '_>) -> Next
    ensures { IsAction result (spot_of at.now)
        (variadic_move (tokens_of at.now.run) (outside_of at.now.outside)) }
{
    match look(at.run) {
        FrontToken::Nothing => Ok(TableEntry::Close(Delimiter::Parenthesis, Stage::Output)),
        FrontToken::Mark(',', _) => Ok(TableEntry::Take(Prefix::Mark(','), Stage::VariadicEnd)),
        _ => mismatch(at),
    }
}

/// Returns the table entry for a spot after the `,` that follows `...`, or a mismatch if a token
/// follows.
pub(super) fn variadic_end_step(at: &Spot<'_, '_>) -> Next
    ensures { IsAction result (spot_of at.now)
        (variadic_end_move (tokens_of at.now.run) (outside_of at.now.outside)) }
{
    match look(at.run) {
        FrontToken::Nothing => Ok(TableEntry::Close(Delimiter::Parenthesis, Stage::Output)),
        _ => mismatch(at),
    }
}
