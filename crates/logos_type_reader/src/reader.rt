//! Reads the type at the start of a run of tokens. `logos_enum` calls `read_type` for each field,
//! and `logos_type_params` calls it for each type in an attribute.

ghost use Rattle.std.specs.Prelude.{◌≡◌, ◌<◌, ◌∷◌, ◌++◌, [], ℕ, map, IfOk, IfErr, OnOk, None, Ok, false};
ghost use Rattle.logos_type_reader.specs.Views.{IsRestOf, count_of, run_span, tokens_of, inside_of, tree_of, sign_of, sign, opening, closing, still, trees, also, none, still_run, still_token, type_tree, Spot as SpotOfRuns, outer, name_of, needs, keeps_type, nests, IsType, NoType, IsMove, after_type, next_of, spot_of, outside_of, IfFault, IsStep, YieldsMove, YieldsParts, IsTypeExpr, NoTypeExpr, Memory, fault_of};
ghost use Rattle.logos_token.specs.Views.{tree_of as token_of};

use crate::table::{Spot, Stage, StepFault, TypeStep, begin, next_at, read_name};
use logos_token::token::{Group, Span, TokenTree, Tokens};
use logos_type::{TypeExpr, TypePart, TypeToken};
use std::alloc::{AllocError, AllocFailed, Global};

/// The reason why a run does not begin with a type.
#[derive(Clone, Copy)]
pub enum TypeFault {
    /// An unsupported type at the span `span`.
    Unsupported { span: Span },
    /// The first token that does not fit, at the span `span`. The span is `0..0` if no tokens are
    /// left.
    Mismatch { span: Span },
    /// More nested types than the limit allows.
    LimitNesting,
    /// Memory ran out.
    Memory,
}

impl From<AllocError> for TypeFault {
    ghost from_gives = { λ _ fault. fault ≡ Memory };

    fn from(_error: AllocError) -> TypeFault {
        TypeFault::Memory
    }
}

impl<T: Drop> From<AllocFailed<T>> for TypeFault {
    ghost from_gives = { λ _ fault. fault ≡ Memory };

    fn from(_error: AllocFailed<T>) -> TypeFault {
        TypeFault::Memory
    }
}

impl From<StepFault> for TypeFault {
    ghost from_gives = { λ stop fault. fault ≡ fault_of stop };

    fn from(stop: StepFault) -> TypeFault {
        match stop {
            StepFault::Unsupported(span) => TypeFault::Unsupported { span },
            StepFault::Mismatch(span) => TypeFault::Mismatch { span },
        }
    }
}

/// The greatest number of types that can be nested, including the outermost type.
pub const TYPE_NESTING: u32 = 128;

/// Adds the token `leaf` to `parts` as one part.
fn add_leaf<'s>(leaf: TypeToken<'s>, parts: &mut Vec<TypePart<'s>>) -> Result<(), AllocError>
    ensures { OnOk result (map tree_of parts.new.items ≡
        map tree_of parts.old.items ++ sign (sign_of leaf.entry) ∷ []) }
{
    parts.push(TypePart::Leaf(leaf))?;
    Ok(())
}

/// Adds the tokens of `run` to `parts` without reading types in the run. For a group, adds the
/// delimiters of the group and the tokens between the delimiters.
#[cycle(keeping)]
fn keep_tokens<'s>(run: Tokens<'_, 's>, parts: &mut Vec<TypePart<'s>>) -> Result<(), AllocError>
    ensures { OnOk result (map tree_of parts.new.items ≡
        map tree_of parts.old.items ++ still_run (tokens_of run.entry)) }
{
    let mut rest = run;
    while let Some(tree) = rest.first() {
        keep_token(tree, parts)?;
        rest = rest.rest();
    }
    Ok(())
}

/// Adds the token `tree` to `parts` without reading types. If `tree` is a group, adds the
/// delimiters of the group and the tokens between the delimiters.
#[cycle(keeping)]
fn keep_token<'s>(tree: TokenTree<'_, 's>, parts: &mut Vec<TypePart<'s>>) -> Result<(), AllocError>
    ensures { OnOk result (map tree_of parts.new.items ≡
        map tree_of parts.old.items ++ still_token (token_of tree.entry)) }
{
    match tree {
        TokenTree::Ident(ident) => add_leaf(TypeToken::Word(ident.text), parts),
        TokenTree::Punct(punct) => {
            let character = punct.character;
            add_leaf(TypeToken::Punct(character, punct.spacing), parts)
        }
        TokenTree::Literal(literal) => add_leaf(TypeToken::Literal(literal.text), parts),
        TokenTree::Doc(doc) => add_leaf(TypeToken::Doc(doc.text), parts),
        TokenTree::Group(group) => keep_group(group, parts),
    }
}

/// Adds the delimiters of `group` and the tokens between the delimiters to `parts` without reading
/// types in the group.
#[cycle(keeping)]
fn keep_group<'s>(group: Group<'_, 's>, parts: &mut Vec<TypePart<'s>>) -> Result<(), AllocError>
    ensures { OnOk result (map tree_of parts.new.items ≡ map tree_of parts.old.items ++
        (sign (opening group.entry.delimiter) ∷ (still_run (inside_of group.entry) ++
        sign (closing group.entry.delimiter) ∷ []))) }
{
    add_leaf(TypeToken::Open(group.delimiter), parts)?;
    keep_tokens(group.run(), parts)?;
    add_leaf(TypeToken::Close(group.delimiter), parts)
}

/// Returns the tokens after the group that is open at `spot`, or the tokens at `spot` if no group
/// is open.
fn after_all<'t, 's>(spot: Spot<'t, 's>) -> Tokens<'t, 's>
    ensures { tokens_of result ≡ outer (tokens_of spot.entry.run) (outside_of spot.entry.outside) }
{
    match spot.outside {
        Some(rest) => rest,
        None => spot.run,
    }
}

/// Returns the spot after a type or a path that begins at `spot`. `stage` is the stage of the
/// returned spot, and `run` consists of the tokens after the type or path.
fn after_type<'t, 's>(spot: Spot<'t, 's>, stage: Stage, run: Tokens<'t, 's>) -> Spot<'t, 's>
    ensures { spot_of result ≡ after_type (spot_of spot.entry) stage (tokens_of run.entry) }
{
    Spot {
        stage,
        run,
        outside: spot.outside,
    }
}

/// Returns a list whose only part is `part`.
fn begun_parts<'s>(alloc: Global, part: TypePart<'s>) -> Result<Vec<TypePart<'s>>, AllocError>
    ensures { IfOk result (λ parts. map tree_of parts.items ≡ tree_of part.entry ∷ []) }
{
    let mut parts = Vec::new(alloc);
    parts.push(part)?;
    Ok(parts)
}

/// Adds `part` to `parts`. Returns `bars` and the spot `next`. `bars` must be `true` if and only if
/// `part` makes the type unsupported.
fn move_past<'t, 's>(
    bars: bool,
    part: TypePart<'s>,
    next: Spot<'t, 's>,
    parts: &mut Vec<TypePart<'s>>,
) -> Result<Option<(bool, Spot<'t, 's>)>, TypeFault>
    ensures { (levels : ℕ) (spot : SpotOfRuns) →
        IsMove levels bars spot (tree_of part.entry ∷ []) (spot_of next.entry) →
        YieldsMove levels spot (map tree_of parts.old.items) (map tree_of parts.new.items) result }
{
    parts.push(part)?;
    Ok(Some((bars, next)))
}

/// Adds one part that is never replaced to `parts`. The part consists of the tokens of `run`, in
/// which no types are read. Returns the spot `next`, with `false` because the part does not make
/// the type unsupported.
fn move_past_run<'t, 's>(
    alloc: Global,
    run: Tokens<'t, 's>,
    next: Spot<'t, 's>,
    parts: &mut Vec<TypePart<'s>>,
) -> Result<Option<(bool, Spot<'t, 's>)>, TypeFault>
    ensures { (levels : ℕ) (spot : SpotOfRuns) →
        IsMove levels false spot (still (trees (still_run (tokens_of run.entry))) ∷ [])
        (spot_of next.entry) →
        YieldsMove levels spot (map tree_of parts.old.items) (map tree_of parts.new.items) result }
{
    let mut inner = Vec::new(alloc);
    match keep_tokens(run, &mut inner) {
        Ok(()) => move_past(false, TypePart::Still(inner), next, parts),
        Err(_) => Err(TypeFault::Memory),
    }
}

/// Adds `part` to `parts` as a part that is never replaced. Returns the spot `next`, with `false`
/// because the part does not make the type unsupported.
fn move_past_still<'t, 's>(
    alloc: Global,
    part: TypePart<'s>,
    next: Spot<'t, 's>,
    parts: &mut Vec<TypePart<'s>>,
) -> Result<Option<(bool, Spot<'t, 's>)>, TypeFault>
    ensures { (levels : ℕ) (spot : SpotOfRuns) →
        IsMove levels false spot (still (also (tree_of part.entry) none) ∷ [])
        (spot_of next.entry) →
        YieldsMove levels spot (map tree_of parts.old.items) (map tree_of parts.new.items) result }
{
    match begun_parts(alloc, part) {
        Ok(inner) => move_past(false, TypePart::Still(inner), next, parts),
        Err(_) => Err(TypeFault::Memory),
    }
}

/// Reads the type at `spot` and adds the type to `parts`. Returns the spot after the type, with the
/// stage `stage`, and `false` because the type is supported. `levels` and `plus` have the same
/// meaning as in `type_at`.
#[cycle(types)]
fn move_past_type<'t, 's>(
    alloc: Global,
    levels: u32,
    plus: bool,
    stage: Stage,
    spot: Spot<'t, 's>,
    parts: &mut Vec<TypePart<'s>>,
) -> Result<Option<(bool, Spot<'t, 's>)>, TypeFault>
    requires { next_of (spot_of spot) ≡ needs plus stage }
    ensures { YieldsMove levels (spot_of spot.entry) (map tree_of parts.old.items)
        (map tree_of parts.new.items) result }
{
    match type_at(alloc, levels, plus, spot.run) {
        Ok((part, rest)) => move_past(false, part, after_type(spot, stage, rest), parts),
        Err(fault) => Err(fault),
    }
}

/// Reads the type at `spot` and adds the type to `parts` as a part that is never replaced. Returns
/// the spot after the type, with the stage `stage`, and `false` because the type is supported.
/// `levels` has the same meaning as in `type_at`.
#[cycle(types)]
fn move_past_still_type<'t, 's>(
    alloc: Global,
    levels: u32,
    stage: Stage,
    spot: Spot<'t, 's>,
    parts: &mut Vec<TypePart<'s>>,
) -> Result<Option<(bool, Spot<'t, 's>)>, TypeFault>
    requires { next_of (spot_of spot) ≡ keeps_type stage }
    ensures { YieldsMove levels (spot_of spot.entry) (map tree_of parts.old.items)
        (map tree_of parts.new.items) result }
{
    match type_at(alloc, levels, true, spot.run) {
        Ok((part, rest)) => move_past_still(alloc, part, after_type(spot, stage, rest), parts),
        Err(fault) => Err(fault),
    }
}

/// Adds the parts of a path or of bounds to `parts`. `opening` consists of the first token and the
/// spot after this token. Returns the spot after the parts, with the stage `stage`, and a `bool`
/// that is `true` if one of the parts makes the type unsupported.
#[cycle(types)]
fn move_past_nest<'t, 's>(
    alloc: Global,
    levels: u32,
    opening: (TypeToken<'s>, Spot<'t, 's>),
    stage: Stage,
    spot: Spot<'t, 's>,
    parts: &mut Vec<TypePart<'s>>,
) -> Result<Option<(bool, Spot<'t, 's>)>, TypeFault>
    requires { next_of (spot_of spot) ≡ nests (sign_of opening.0) (spot_of opening.1) stage }
    ensures { YieldsMove levels (spot_of spot.entry) (map tree_of parts.old.items)
        (map tree_of parts.new.items) result }
{
    let (leaf, inner) = opening;
    add_leaf(leaf, parts)?;
    match parts_at(alloc, levels, inner, parts) {
        Ok((barred, rest)) => Ok(Some((barred, after_type(spot, stage, rest)))),
        Err(fault) => Err(fault),
    }
}

/// Adds the parts of `step`, the next step at `spot`, to `parts`. Returns the spot after these
/// parts, and a `bool` that is `true` if one of these parts makes the type unsupported. Returns
/// `None` if the step ends the construct.
#[cycle(types)]
fn make_step<'t, 's>(
    alloc: Global,
    levels: u32,
    step: TypeStep<'t, 's>,
    spot: Spot<'t, 's>,
    parts: &mut Vec<TypePart<'s>>,
) -> Result<Option<(bool, Spot<'t, 's>)>, TypeFault>
    requires { IsStep (Ok step) (next_of (spot_of spot)) }
    ensures { YieldsMove levels (spot_of spot.entry) (map tree_of parts.old.items)
        (map tree_of parts.new.items) result }
{
    match step {
        TypeStep::End => Ok(None),
        TypeStep::Take(leaf, next) => move_past(false, TypePart::Leaf(leaf), next, parts),
        TypeStep::Bar(leaf, next) => move_past(true, TypePart::Leaf(leaf), next, parts),
        TypeStep::Need(plus, stage) => move_past_type(alloc, levels, plus, stage, spot, parts),
        TypeStep::KeepType(stage) => move_past_still_type(alloc, levels, stage, spot, parts),
        TypeStep::Keep(run, next) => move_past_run(alloc, run, next, parts),
        TypeStep::Nest(leaf, inner, stage) => {
            move_past_nest(alloc, levels, (leaf, inner), stage, spot, parts)
        }
    }
}

/// Adds the parts of the next step at `spot` to `parts`. Returns the spot after these parts, and a
/// `bool` that is `true` if one of these parts makes the type unsupported. Returns `None` if the
/// construct ends at `spot`.
#[cycle(types)]
fn move_on<'t, 's>(
    alloc: Global,
    levels: u32,
    spot: Spot<'t, 's>,
    parts: &mut Vec<TypePart<'s>>,
) -> Result<Option<(bool, Spot<'t, 's>)>, TypeFault>
    ensures { YieldsMove levels (spot_of spot.entry) (map tree_of parts.old.items)
        (map tree_of parts.new.items) result }
{
    match next_at(spot.stage, spot.run, spot.outside) {
        Ok(step) => make_step(alloc, levels, step, spot, parts),
        Err(stop) => Err(TypeFault::from(stop)),
    }
}

/// Adds the parts of a construct from the spot `from` on to `parts`. Returns the tokens after the
/// construct, and a `bool` that is `true` if one of these parts makes the type unsupported.
#[cycle(types)]
fn parts_at<'t, 's>(
    alloc: Global,
    levels: u32,
    from: Spot<'t, 's>,
    parts: &mut Vec<TypePart<'s>>,
) -> Result<(bool, Tokens<'t, 's>), TypeFault>
    ensures { YieldsParts levels (spot_of from.entry) (map tree_of parts.old.items)
        (map tree_of parts.new.items) result }
{
    let mut barred = false;
    let mut spot = from;
    while let Some((bars, next)) = move_on(alloc, levels, spot, parts)? {
        barred = barred | bars;
        spot = next;
    }
    Ok((barred, after_all(spot)))
}

/// Returns the span of the tokens in `tokens` that precede `rest`.
fn span_before<'t, 's>(tokens: Tokens<'t, 's>, rest: Tokens<'t, 's>) -> Span
    requires { IsRestOf (tokens_of tokens) (tokens_of rest) }
    ensures { (split : IsRestOf (tokens_of tokens.entry) (tokens_of rest.entry)) →
        result ≡ run_span split.front }
{
    let front = tokens.before(rest);
    front.span()
}

/// Reads the type at the start of `tokens`, which must be more than a name. Returns the type and
/// the tokens after the type. `levels` and `plus` have the same meaning as in `type_at`.
#[cycle(types)]
fn formed_at<'t, 's>(
    alloc: Global,
    levels: u32,
    plus: bool,
    tokens: Tokens<'t, 's>,
) -> Result<(TypePart<'s>, Tokens<'t, 's>), TypeFault>
    requires { name_of (tokens_of tokens) ≡ None }
    ensures ok { IfOk result
        (λ read. IsType levels plus (tokens_of tokens.entry) (tree_of read.0) (tokens_of read.1)) }
    ensures err { IfErr result (IfFault (NoType levels plus (tokens_of tokens.entry))) }
{
    let opening = match begin(plus, tokens) {
        Ok(opening) => opening,
        Err(stop) => return Err(TypeFault::from(stop)),
    };
    if levels == 0 {
        return Err(TypeFault::LimitNesting);
    }
    let mut parts = Vec::new(alloc);
    add_leaf(opening.leaf, &mut parts)?;
    let (barred, rest) = match parts_at(alloc, levels - 1, opening.spot, &mut parts) {
        Ok(read) => read,
        Err(fault) => return Err(fault),
    };
    if opening.barred | barred {
        return Err(TypeFault::Unsupported {
            span: span_before(tokens, rest),
        });
    }
    Ok((TypePart::Whole(parts), rest))
}

/// Reads the type at the start of `tokens`. Returns the type and the tokens after the type. At most
/// `levels` types can be nested, including the outermost type. `+` joins bounds only if `plus` is
/// `true`.
#[cycle(types)]
pub(crate) fn type_at<'t, 's>(
    alloc: Global,
    levels: u32,
    plus: bool,
    tokens: Tokens<'t, 's>,
) -> Result<(TypePart<'s>, Tokens<'t, 's>), TypeFault>
    ensures ok { IfOk result
        (λ read. IsType levels plus (tokens_of tokens.entry) (tree_of read.0) (tokens_of read.1)) }
    ensures err { IfErr result (IfFault (NoType levels plus (tokens_of tokens.entry))) }
{
    let Some((name, rest)) = read_name(tokens) else {
        return formed_at(alloc, levels, plus, tokens);
    };
    if levels == 0 {
        return Err(TypeFault::LimitNesting);
    }
    Ok((TypePart::Name(name), rest))
}

/// Reads the type at the start of `tokens`. Returns the type and the tokens after the type.
///
/// # Errors
///
/// Returns:
///
/// - `Unsupported` with the span of an unsupported type.
/// - `Mismatch` with the span of the first token that does not fit, or with `0..0` if no tokens are
///   left.
/// - `LimitNesting` if more than 128 types are nested.
/// - `Memory` if memory runs out.
pub fn read_type<'t, 's>(
    alloc: Global,
    tokens: Tokens<'t, 's>,
) -> Result<(TypeExpr<'s>, Tokens<'t, 's>), TypeFault>
    ensures ok { IfOk result
        (λ read. IsTypeExpr (tokens_of tokens.entry) (type_tree read.0) (tokens_of read.1)) }
    ensures shorter { IfOk result
        (λ read. count_of (tokens_of read.1) < count_of (tokens_of tokens.entry)) }
    ensures err { IfErr result (IfFault (NoTypeExpr (tokens_of tokens.entry))) }
{
    let (part, rest) = type_at(alloc, TYPE_NESTING, true, tokens)?;
    Ok((TypeExpr { part }, rest))
}
