//! Defines the grammar of types, which determines the next step at each spot inside a type.
//! `reader` calls `next_at` at each spot.

ghost use Rattle.std.specs.Prelude.{IsTrue};
ghost use Rattle.logos_type_reader.specs.Views.{tokens_of, next_at, outside_of, spot_of, IsStep, IsAction, is_in_bounds};

mod actions;
mod bounds;
mod functions;
mod groups;
mod openings;
mod paths;
mod stage;
mod tokens;

use actions::act;
use bounds::{
    bound_end_step, bound_step, enclosed_end_step, for_end_step, for_list_step, for_step,
    further_step, question_step, trait_path_step, trait_step,
};
use functions::{
    extern_step, function_step, linked_step, one_taken_step, qualified_step, taken_step,
    taken_value_step, typed_step, unsafe_step, variadic_end_step, variadic_step,
};
use groups::{
    element_end_step, length_step, pointer_step, referent_step, self_closed_step, self_end_step,
    self_trait_end_step, tuple_end_step, tuple_step,
};
use logos_token::token::{Delimiter, Tokens};
pub(crate) use openings::{begin, read_name};
use paths::{
    argument_end_step, arguments_step, braced_step, colons_step, constrained_step, equals_step,
    input_end_step, inputs_step, macro_step, named_step, output_step, path_step, segments_step,
};
pub(crate) use stage::{Spot, Stage, StepFault, TypeStep};
use stage::{BoundKind, Next, Outside, PathKind, TableEntry};

/// Returns the table entry for a spot inside a type, or the fault if no entry fits.
#[tactic(auto, unfolding(crate::specs::Table::next_at))]
fn action_at(at: &Spot<'_, '_>) -> Next
    ensures { IsAction result (spot_of at.now)
        (next_at at.now.stage (tokens_of at.now.run) (outside_of at.now.outside)) }
{
    match at.stage {
        Stage::End => Ok(TableEntry::End),
        Stage::Named(kind) => named_step(kind, at),
        Stage::Segments(kind) => segments_step(kind, at),
        Stage::Colons(kind, arguments) => colons_step(kind, arguments, at),
        Stage::Arguments(kind) => arguments_step(kind, at),
        Stage::Equals(kind) => equals_step(kind, at),
        Stage::Value(kind) => Ok(TableEntry::Need(true, Stage::ArgumentEnd(kind))),
        Stage::Constrained(kind) => constrained_step(kind, at),
        Stage::Braced(kind) => braced_step(kind, at),
        Stage::ArgumentEnd(kind) => argument_end_step(kind, at),
        Stage::Macro => macro_step(at),
        Stage::Inputs => inputs_step(at),
        Stage::InputEnd => input_end_step(at),
        Stage::Output => output_step(at),
        Stage::SelfType => Ok(TableEntry::KeepType(Stage::SelfEnd)),
        Stage::SelfEnd => self_end_step(at),
        Stage::SelfTrait => path_step(PathKind::OfType, Stage::SelfTraitEnd, at),
        Stage::SelfTraitEnd => self_trait_end_step(at),
        Stage::SelfClosed => self_closed_step(at),
        Stage::Referent => referent_step(at),
        Stage::Pointer => pointer_step(at),
        Stage::Target => Ok(TableEntry::Need(false, Stage::End)),
        Stage::List => tuple_step(at),
        Stage::ListEnd => tuple_end_step(at),
        Stage::Element => Ok(TableEntry::Need(true, Stage::ElementEnd)),
        Stage::ElementEnd => element_end_step(at),
        Stage::Length => length_step(at),
        Stage::LengthEnd => Ok(TableEntry::Close(Delimiter::Bracket, Stage::End)),
        _ => bound_action_at(at),
    }
}

/// Returns the table entry for a spot in a bound, in `for<..>` or in a function type, or the fault
/// if no entry fits.
#[tactic(auto, unfolding(crate::specs::Table::next_at))]
fn bound_action_at(at: &Spot<'_, '_>) -> Next
    requires { IsTrue (is_in_bounds at.now.stage) }
    ensures { IsAction result (spot_of at.now)
        (next_at at.now.stage (tokens_of at.now.run) (outside_of at.now.outside)) }
{
    match at.stage {
        Stage::Bound(plus) => bound_step(plus, at),
        Stage::Question(plus) => question_step(BoundKind::Enclosed(plus), at),
        Stage::Trait(kind) => trait_step(kind, at),
        Stage::TraitPath(kind) => trait_path_step(kind, at),
        Stage::BoundEnd(plus) => bound_end_step(plus, at),
        Stage::Further => further_step(at),
        Stage::EnclosedEnd(plus) => enclosed_end_step(plus, at),
        Stage::For(binder) => for_step(binder, at),
        Stage::ForList(binder) => for_list_step(binder, at),
        Stage::ForEnd(binder) => for_end_step(binder, at),
        Stage::Qualified => qualified_step(at),
        Stage::Unsafe => unsafe_step(at),
        Stage::Extern => extern_step(at),
        Stage::Linked => linked_step(at),
        Stage::Function => function_step(at),
        Stage::Taken => taken_step(at),
        Stage::Typed => typed_step(at),
        Stage::TypedValue => taken_value_step(at),
        Stage::OneTaken => one_taken_step(at),
        Stage::Variadic => variadic_step(at),
        _ => variadic_end_step(at),
    }
}

/// Returns the next step at a spot inside a type, or the fault if no step fits. The spot has the
/// stage `stage`, `run` consists of the tokens after the spot, and `outside` contains the tokens
/// after the open group if a group is open.
pub(crate) fn next_at<'t, 's>(
    stage: Stage,
    run: Tokens<'t, 's>,
    outside: Outside<'t, 's>,
) -> Result<TypeStep<'t, 's>, StepFault>
    ensures { IsStep result (next_at stage (tokens_of run.entry) (outside_of outside.entry)) }
{
    let at = Spot {
        stage,
        run,
        outside,
    };
    match action_at(&at) {
        Ok(action) => act(action, run, outside),
        Err(stop) => Err(stop),
    }
}
