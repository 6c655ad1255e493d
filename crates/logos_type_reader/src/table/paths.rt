//! Determines the table entries for the stages inside paths and their arguments. `table` calls the
//! function for the stage of a spot.

ghost use Rattle.std.specs.Prelude.{◌≡◌};
ghost use Rattle.logos_type_reader.specs.Views.{rest_of, tokens_of, argued, name_end, segments_move, named_move, macro_move, output_move, inputs_move, input_end_move, colons_move, lifetime_move, argument_word, arguments_move, braced_move, equals_move, constrained_move, argument_end_move, path_move, outside_of, spot_of, first_text, IsAction};

use crate::table::stage::{FrontToken, Next, PathKind, Prefix, Spot, Stage, TableEntry};
use crate::table::tokens::{
    begins_arrow, begins_colons, begins_mark, is_typing, look, mismatch, mismatch_after,
};
use logos_token::token::Delimiter;

/// Returns the kind that a path of the kind `kind` has after its first arguments.
fn argued(kind: PathKind) -> PathKind
    ensures { result ≡ argued kind }
{
    match kind {
        PathKind::OfBound => PathKind::OfBound,
        _ => PathKind::OfType,
    }
}

/// Returns the table entry for a spot after the last name of a path. The entry takes the `!` of a
/// macro, or ends the path.
fn name_end(kind: PathKind, at: &Spot<'_, '_>) -> Next
    ensures { IsAction result (spot_of at.now)
        (name_end kind (tokens_of at.now.run) (outside_of at.now.outside)) }
{
    let PathKind::Plain = kind else {
        return Ok(TableEntry::End);
    };
    match look(at.run) {
        FrontToken::Mark('!', _) => Ok(TableEntry::Bar(Prefix::Mark('!'), Stage::Macro)),
        _ => Ok(TableEntry::End),
    }
}

/// Returns the table entry for a spot after the arguments of a name. The entry takes a `::`, or
/// ends the path.
pub(super) fn segments_step(kind: PathKind, at: &Spot<'_, '_>) -> Next
    ensures { IsAction result (spot_of at.now)
        (segments_move kind (tokens_of at.now.run) (outside_of at.now.outside)) }
{
    if begins_colons(at.run) {
        return Ok(TableEntry::Take(Prefix::Colons, Stage::Colons(kind, false)));
    }
    Ok(TableEntry::End)
}

/// Returns the table entry for a spot after a name of a path. The entry begins the arguments of the
/// name, takes a `::` or the `!` of a macro, or ends the path.
pub(super) fn named_step(kind: PathKind, at: &Spot<'_, '_>) -> Next
    ensures { IsAction result (spot_of at.now)
        (named_move kind (tokens_of at.now.run) (outside_of at.now.outside)) }
{
    match look(at.run) {
        FrontToken::Mark('<', _) => {
            Ok(TableEntry::Take(Prefix::Mark('<'), Stage::Arguments(argued(kind))))
        }
        FrontToken::Group(Delimiter::Parenthesis) => Ok(TableEntry::Open(Stage::Inputs)),
        _ if begins_colons(at.run) => {
            Ok(TableEntry::Take(Prefix::Colons, Stage::Colons(kind, true)))
        }
        _ => name_end(kind, at),
    }
}

/// Returns the table entry for a spot after the `!` of a macro, or a mismatch if no group follows.
pub(super) fn macro_step(at: &Spot<'_, '_>) -> Next
    ensures { IsAction result (spot_of at.now)
        (macro_move (tokens_of at.now.run) (outside_of at.now.outside)) }
{
    match look(at.run) {
        FrontToken::Group(delimiter) => Ok(TableEntry::Take(Prefix::Group(delimiter), Stage::End)),
        _ => mismatch(at),
    }
}

/// Returns the table entry for a spot after the parentheses of a path or of a function. The entry
/// takes a `->`, or ends the path or the function.
pub(super) fn output_step(at: &Spot<'_, '_>) -> Next
    ensures { IsAction result (spot_of at.now)
        (output_move (tokens_of at.now.run) (outside_of at.now.outside)) }
{
    if begins_arrow(at.run) {
        return Ok(TableEntry::Take(Prefix::Arrow, Stage::Target));
    }
    Ok(TableEntry::End)
}

/// Returns the table entry for a spot in the parentheses of a path where a type is allowed. The
/// entry ends the group if no tokens are left, and otherwise reads a type.
pub(super) fn inputs_step(at: &Spot<'_, '_>) -> Next
    ensures { IsAction result (spot_of at.now)
        (inputs_move (tokens_of at.now.run) (outside_of at.now.outside)) }
{
    match look(at.run) {
        FrontToken::Nothing => Ok(TableEntry::Close(Delimiter::Parenthesis, Stage::Output)),
        _ => Ok(TableEntry::Need(true, Stage::InputEnd)),
    }
}

/// Returns the table entry for a spot after a type in the parentheses of a path, or a mismatch if
/// neither a comma nor the end of the group follows.
pub(super) fn input_end_step(at: &Spot<'_, '_>) -> Next
    ensures { IsAction result (spot_of at.now)
        (input_end_move (tokens_of at.now.run) (outside_of at.now.outside)) }
{
    match look(at.run) {
        FrontToken::Nothing => Ok(TableEntry::Close(Delimiter::Parenthesis, Stage::Output)),
        FrontToken::Mark(',', _) => Ok(TableEntry::Take(Prefix::Mark(','), Stage::Inputs)),
        _ => mismatch(at),
    }
}

/// Returns the table entry for a spot after `::`, or a mismatch if neither a name nor `<` follows.
/// `<` is allowed only if `arguments` is `true`.
pub(super) fn colons_step(kind: PathKind, arguments: bool, at: &Spot<'_, '_>) -> Next
    ensures { IsAction result (spot_of at.now)
        (colons_move kind arguments (tokens_of at.now.run) (outside_of at.now.outside)) }
{
    match look(at.run) {
        FrontToken::Word => Ok(TableEntry::Take(Prefix::Word, Stage::Named(kind))),
        FrontToken::Mark('<', _) if arguments => {
            Ok(TableEntry::Take(Prefix::Mark('<'), Stage::Arguments(argued(kind))))
        }
        _ => mismatch(at),
    }
}

/// Returns the table entry for a spot before `'` among arguments, or a mismatch if no name follows.
fn lifetime_step(kind: PathKind, at: &Spot<'_, '_>) -> Next
    ensures { IsAction result (spot_of at.now)
        (lifetime_move kind (rest_of (tokens_of at.now.run)) (outside_of at.now.outside)) }
{
    let FrontToken::Word = look(at.run.rest()) else {
        return mismatch_after(at);
    };
    match kind {
        PathKind::OfBound => Ok(TableEntry::Take(Prefix::OtherLifetime, Stage::ArgumentEnd(kind))),
        _ => Ok(TableEntry::Take(Prefix::Lifetime, Stage::ArgumentEnd(kind))),
    }
}

/// Returns the table entry for a spot before a word among the arguments of a path. The entry takes
/// the word if `=` or `:` follows the word, and otherwise reads a type.
fn argument_word(kind: PathKind, at: &Spot<'_, '_>) -> Next
    ensures { IsAction result (spot_of at.now)
        (argument_word kind (first_text (tokens_of at.now.run)) (rest_of (tokens_of at.now.run))
        (outside_of at.now.outside)) }
{
    let rest = at.run.rest();
    if begins_mark('=', rest) {
        return Ok(TableEntry::Take(Prefix::Word, Stage::Equals(kind)));
    }
    if is_typing(rest) {
        return Ok(TableEntry::Bar(Prefix::Word, Stage::Constrained(kind)));
    }
    Ok(TableEntry::Need(true, Stage::ArgumentEnd(kind)))
}

/// Returns the table entry for a spot where an argument of a path is allowed. The entry takes the
/// closing `>`, or begins an argument.
pub(super) fn arguments_step(kind: PathKind, at: &Spot<'_, '_>) -> Next
    ensures { IsAction result (spot_of at.now)
        (arguments_move kind (tokens_of at.now.run) (outside_of at.now.outside)) }
{
    match look(at.run) {
        FrontToken::Mark('>', _) => {
            Ok(TableEntry::Take(Prefix::Mark('>'), Stage::Segments(kind)))
        }
        FrontToken::Mark('\'', _) => lifetime_step(kind, at),
        FrontToken::Literal => Ok(TableEntry::Take(Prefix::Literal, Stage::ArgumentEnd(kind))),
        FrontToken::Word => argument_word(kind, at),
        FrontToken::Group(Delimiter::Brace) => Ok(TableEntry::Open(Stage::Braced(kind))),
        _ => Ok(TableEntry::Need(true, Stage::ArgumentEnd(kind))),
    }
}

/// Returns the table entry for a spot inside the braces of an argument. The entry takes the tokens
/// between the braces, or ends the group if no tokens are left.
pub(super) fn braced_step(kind: PathKind, at: &Spot<'_, '_>) -> Next
    ensures { IsAction result (spot_of at.now)
        (braced_move kind (tokens_of at.now.run) (outside_of at.now.outside)) }
{
    match look(at.run) {
        FrontToken::Nothing => Ok(TableEntry::Close(Delimiter::Brace, Stage::ArgumentEnd(kind))),
        _ => Ok(TableEntry::Keep(Stage::Braced(kind))),
    }
}

/// Returns the table entry for a spot between a name and `=` among the arguments of a path, or a
/// mismatch if no `=` follows.
pub(super) fn equals_step(kind: PathKind, at: &Spot<'_, '_>) -> Next
    ensures { IsAction result (spot_of at.now)
        (equals_move kind (tokens_of at.now.run) (outside_of at.now.outside)) }
{
    match look(at.run) {
        FrontToken::Mark('=', _) => Ok(TableEntry::Take(Prefix::Mark('='), Stage::Value(kind))),
        _ => mismatch(at),
    }
}

/// Returns the table entry for a spot between a name and `:` among the arguments of a path, or a
/// mismatch if no `:` follows.
pub(super) fn constrained_step(kind: PathKind, at: &Spot<'_, '_>) -> Next
    ensures { IsAction result (spot_of at.now)
        (constrained_move kind (tokens_of at.now.run) (outside_of at.now.outside)) }
{
    match look(at.run) {
        FrontToken::Mark(':', _) => Ok(TableEntry::Nest(
            Prefix::Mark(':'),
            Stage::Bound(true),
            Stage::ArgumentEnd(kind),
        )),
        _ => mismatch(at),
    }
}

/// Returns the table entry for a spot after an argument, or a mismatch if neither a comma nor `>`
/// follows.
pub(super) fn argument_end_step(kind: PathKind, at: &Spot<'_, '_>) -> Next
    ensures { IsAction result (spot_of at.now)
        (argument_end_move kind (tokens_of at.now.run) (outside_of at.now.outside)) }
{
    match look(at.run) {
        FrontToken::Mark(',', _) => {
            Ok(TableEntry::Take(Prefix::Mark(','), Stage::Arguments(kind)))
        }
        FrontToken::Mark('>', _) => {
            Ok(TableEntry::Take(Prefix::Mark('>'), Stage::Segments(kind)))
        }
        _ => mismatch(at),
    }
}

/// Returns the table entry for a spot where a path must begin, or a mismatch if neither a name nor
/// `::` follows. `next` is the stage after the path.
pub(super) fn path_step(kind: PathKind, next: Stage, at: &Spot<'_, '_>) -> Next
    ensures { IsAction result (spot_of at.now) (path_move kind next (tokens_of at.now.run)) }
{
    match look(at.run) {
        FrontToken::Word => Ok(TableEntry::Nest(Prefix::Word, Stage::Named(kind), next)),
        _ if begins_colons(at.run) => {
            Ok(TableEntry::Nest(Prefix::Colons, Stage::Colons(kind, false), next))
        }
        _ => mismatch(at),
    }
}
