//! Turns table entries into steps. A step contains the tokens that its table entry takes. `table`
//! calls `act` for each table entry.

ghost use Rattle.std.specs.Prelude.{◌≡◌, Ok};
ghost use Rattle.logos_type_reader.specs.Views.{tokens_of, inside_of, sign_of, opens, closes, keeps, to, outside_of, spot_of, IsFirst, IsStep, lead_sign, after_lead, opens_first, opens_type, acts, begun};
ghost use Rattle.logos_token.specs.Tokens.{none};

use crate::table::stage::{
    Beginning, FirstEntry, Outside, Prefix, Spot, Stage, StepFault, TableEntry, TypeStep,
};
use crate::table::tokens::{first_span, first_text};
use logos_token::token::{Delimiter, Group, TokenTree, Tokens};
use logos_type::TypeToken;

/// Returns the tokens that `lead` takes from the front of `run`, as one token of a type.
fn lead_leaf<'s>(lead: Prefix, run: Tokens<'_, 's>) -> TypeToken<'s>
    ensures { sign_of result ≡ lead_sign lead (tokens_of run.entry) }
{
    match lead {
        Prefix::Word => TypeToken::Word(first_text(run)),
        Prefix::Mark(mark) => TypeToken::Mark(mark),
        Prefix::Literal => TypeToken::Literal(first_text(run)),
        Prefix::Colons => TypeToken::Colons,
        Prefix::Arrow => TypeToken::Arrow,
        Prefix::Dots => TypeToken::Mark('.'),
        Prefix::Reference => TypeToken::Reference(None),
        Prefix::ReferenceLifetime => TypeToken::Reference(Some(first_text(run.rest().rest()))),
        Prefix::Lifetime => TypeToken::Lifetime(first_text(run.rest())),
        Prefix::OtherLifetime => TypeToken::OtherLifetime(first_text(run.rest())),
        Prefix::Group(delimiter) => TypeToken::Open(delimiter),
    }
}

/// Returns the run after the tokens that `lead` takes.
fn after_lead<'t, 's>(lead: Prefix, run: Tokens<'t, 's>) -> Tokens<'t, 's>
    ensures { tokens_of result ≡ after_lead lead (tokens_of run.entry) }
{
    match lead {
        Prefix::Colons | Prefix::Arrow | Prefix::Lifetime | Prefix::OtherLifetime => run
            .rest()
            .rest(),
        Prefix::Dots | Prefix::ReferenceLifetime => run.rest().rest().rest(),
        _ => run.rest(),
    }
}

/// Returns the step that opens `group` and continues inside the group at `stage`. `rest` consists
/// of the tokens after the group. Returns a mismatch at the group if `outside` is not `None`,
/// because a group is then already open.
fn open<'t, 's>(
    group: Group<'t, 's>,
    stage: Stage,
    rest: Tokens<'t, 's>,
    outside: Outside<'t, 's>,
) -> Result<TypeStep<'t, 's>, StepFault>
    ensures { IsStep result (opens group.entry.delimiter group.entry.span stage
        (inside_of group.entry) (tokens_of rest.entry) (outside_of outside.entry)) }
{
    let None = outside else {
        return Err(StepFault::Mismatch(group.span));
    };
    let inner = Spot {
        stage,
        run: group.run(),
        outside: Some(rest),
    };
    Ok(TypeStep::Take(TypeToken::Open(group.delimiter), inner))
}

/// Returns the step that opens the group at the start of the run and continues inside the group at
/// `stage`. Returns a mismatch if the run does not begin with a group, or if a group is already
/// open.
fn open_first<'t, 's>(
    stage: Stage,
    run: Tokens<'t, 's>,
    outside: Outside<'t, 's>,
) -> Result<TypeStep<'t, 's>, StepFault>
    ensures { IsStep result
        (opens_first stage (tokens_of run.entry) (outside_of outside.entry)) }
{
    match run.first() {
        Some(TokenTree::Group(group)) => open(group, stage, run.rest(), outside),
        _ => Err(StepFault::Mismatch(first_span(run))),
    }
}

/// Returns the step that closes the open group and continues at `stage` in `outside`, the tokens
/// after the group. Returns `End` if no group is open.
fn close<'t, 's>(delimiter: Delimiter, stage: Stage, outside: Outside<'t, 's>) -> TypeStep<'t, 's>
    ensures { IsStep (Ok result) (closes delimiter stage (outside_of outside.entry)) }
{
    let Some(run) = outside else {
        return TypeStep::End;
    };
    let after = Spot {
        stage,
        run,
        outside: None,
    };
    TypeStep::Take(TypeToken::Close(delimiter), after)
}

/// Returns the step that takes all tokens of the run without reading types in these tokens, and
/// continues at `stage` at the end of the run.
fn keep<'t, 's>(stage: Stage, run: Tokens<'t, 's>, outside: Outside<'t, 's>) -> TypeStep<'t, 's>
    ensures { IsStep (Ok result)
        (keeps (tokens_of run.entry) (to stage none (outside_of outside.entry))) }
{
    let after = Spot {
        stage,
        run: run.before(run),
        outside,
    };
    TypeStep::Keep(run, after)
}

/// Returns the spot at `stage` after the tokens that `lead` takes.
fn after<'t, 's>(
    lead: Prefix,
    stage: Stage,
    run: Tokens<'t, 's>,
    outside: Outside<'t, 's>,
) -> Spot<'t, 's>
    ensures { spot_of result ≡
        to stage (after_lead lead (tokens_of run.entry)) (outside_of outside.entry) }
{
    Spot {
        stage,
        run: after_lead(lead, run),
        outside,
    }
}

/// Returns the next step for the table entry `action` and the tokens at the spot, or a mismatch if
/// a group cannot be opened.
pub(super) fn act<'t, 's>(
    action: TableEntry,
    run: Tokens<'t, 's>,
    outside: Outside<'t, 's>,
) -> Result<TypeStep<'t, 's>, StepFault>
    ensures { IsStep result (acts action (tokens_of run.entry) (outside_of outside.entry)) }
{
    match action {
        TableEntry::End => Ok(TypeStep::End),
        TableEntry::Take(lead, stage) => {
            Ok(TypeStep::Take(lead_leaf(lead, run), after(lead, stage, run, outside)))
        }
        TableEntry::Bar(lead, stage) => {
            Ok(TypeStep::Bar(lead_leaf(lead, run), after(lead, stage, run, outside)))
        }
        TableEntry::Need(plus, stage) => Ok(TypeStep::Need(plus, stage)),
        TableEntry::KeepType(stage) => Ok(TypeStep::KeepType(stage)),
        TableEntry::Keep(stage) => Ok(keep(stage, run, outside)),
        TableEntry::Nest(lead, stage, next) => {
            Ok(TypeStep::Nest(lead_leaf(lead, run), after(lead, stage, run, None), next))
        }
        TableEntry::Open(stage) => open_first(stage, run, outside),
        TableEntry::Close(delimiter, stage) => Ok(close(delimiter, stage, outside)),
    }
}

/// Returns the beginning of a type that begins with a group: the opening delimiter, and the spot
/// inside the group at `stage`. Returns a mismatch if `run` does not begin with a group.
fn open_type<'t, 's>(stage: Stage, run: Tokens<'t, 's>) -> Result<Beginning<'t, 's>, StepFault>
    ensures { IsFirst result (opens_type stage (tokens_of run.entry)) }
{
    let Some(TokenTree::Group(group)) = run.first() else {
        return Err(StepFault::Mismatch(first_span(run)));
    };
    let inner = Spot {
        stage,
        run: group.run(),
        outside: Some(run.rest()),
    };
    Ok(Beginning {
        barred: false,
        leaf: TypeToken::Open(group.delimiter),
        spot: inner,
    })
}

/// Returns the beginning of the type at the start of `run`: the first token, which `start`
/// determines, and the spot after this token. Returns a mismatch if `start` opens a group and `run`
/// does not begin with a group.
pub(super) fn begin_by<'t, 's>(
    start: FirstEntry,
    run: Tokens<'t, 's>,
) -> Result<Beginning<'t, 's>, StepFault>
    ensures { IsFirst result (begun start (tokens_of run.entry)) }
{
    match start {
        FirstEntry::Lead(barred, lead, stage) => Ok(Beginning {
            barred,
            leaf: lead_leaf(lead, run),
            spot: after(lead, stage, run, None),
        }),
        FirstEntry::Open(stage) => open_type(stage, run),
    }
}
