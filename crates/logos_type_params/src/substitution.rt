//! Replaces declared type parameters in types. `written_types` calls `type_after` for each field.

ghost use Rattle.std.specs.Prelude.{◌≡◌, ◌<◌, ℕ, Bool, true, false, List, map, IfOk, IfErr, MatchOption};
ghost use Rattle.logos_type_params.specs.Views.{Tree, name, whole, trees, tree_of, sign_of, IfDeep, exceeds, Params, given, given_first, given_type, set_sign, param_value, After, AllAfter, Passes, SomePasses, params_of};
ghost use Rattle.logos_type_params.specs.inside.Given.{given_of};

use crate::given_types::GivenTypes;
use logos_token::token::Span;
use logos_type::{TypePart, TypeToken, exceeds};
use logos_type_reader::TypeFault;
use std::alloc::Global;
use std::collections::HashSet;

/// A type given to a declared parameter, with the spans of the type and of the parameter's name.
#[derive(Drop)]
pub struct TypeParam<'s> {
    /// The span of the name to which the type is given.
    pub at: Span,
    pub part: TypePart<'s>,
    /// The span of the type as written.
    pub span: Span,
}

/// The types given to the parameters, and the names that are not replaced. `held` contains the name
/// of each parameter from which a chain of types leads back to this parameter.
#[derive(Clone, Copy)]
pub struct Replacing<'p, 's> {
    pub types: &'p GivenTypes<'s>,
    pub held: &'p HashSet<&'s str>,
}

/// The replacement of a name: nothing, another name, or the parts of a type.
#[derive(Clone, Copy)]
enum GivenType<'p, 's> {
    Nothing,
    Name(&'s str),
    Parts(&'p [TypePart<'s>]),
}

/// Returns `leaf` with its lifetime set to `'s` if `leaf` is a reference, or a lifetime among the
/// angle-bracketed arguments of a path that is a type. Returns any other token unchanged.
pub(crate) fn set_lifetime(leaf: TypeToken<'_>) -> TypeToken<'_>
    ensures { sign_of result ≡ set_sign (sign_of leaf.entry) }
{
    match leaf {
        TypeToken::Reference(_) => TypeToken::Reference(Some("s")),
        TypeToken::Lifetime(_) => TypeToken::Lifetime("s"),
        other => other,
    }
}

/// Returns the replacement of a parameter to which the type `part` is given.
fn given_by<'p, 's>(part: &'p TypePart<'s>) -> GivenType<'p, 's>
    ensures { given_of result ≡ given_type (tree_of part.now) }
{
    match part {
        TypePart::Name(text) => GivenType::Name(text),
        TypePart::Whole(parts) => GivenType::Parts(parts),
        _ => GivenType::Nothing,
    }
}

/// Returns the replacement of the name `text` according to the type given to the name, or `Nothing`
/// if the name has no type.
fn given_first<'p, 's>(types: &'p GivenTypes<'s>, text: &str) -> GivenType<'p, 's>
    ensures { given_of result ≡ given_first (map param_value types.now.entries.items) text.now }
{
    match types.get(text) {
        Some(param) => given_by(&param.part),
        None => GivenType::Nothing,
    }
}

/// Returns the replacement of the name `text`. Returns `Nothing` if the name has no type or is one
/// of the names that are not replaced.
fn find<'p, 's>(params: Replacing<'p, 's>, text: &str) -> GivenType<'p, 's>
    ensures { given_of result ≡ given (params_of params.entry) text.now }
{
    if params.held.contains(text) {
        return GivenType::Nothing;
    }
    given_first(params.types, text)
}

/// Returns the type `part` with its declared parameters replaced and its lifetimes set to `'s`.
///
/// # Errors
///
/// Returns `LimitNesting` if the resulting type has more than `levels` nested types, and `Memory`
/// if memory runs out.
#[cycle(after)]
pub fn type_after<'s>(
    alloc: Global,
    levels: u32,
    params: Replacing<'_, 's>,
    part: &TypePart<'s>,
) -> Result<TypePart<'s>, TypeFault>
    ensures ok { IfOk result (λ after.
        After (params_of params.entry) levels (tree_of part.now) (tree_of after)) }
    ensures err { IfErr result
        (IfDeep (Passes (params_of params.entry) levels (tree_of part.now))) }
{
    match part {
        TypePart::Leaf(leaf) => Ok(TypePart::Leaf(set_lifetime(*leaf))),
        TypePart::Name(text) => name_after(alloc, levels, params, text),
        TypePart::Whole(parts) => whole_after(alloc, levels, params, parts),
        TypePart::Still(_) => still_after(levels, part),
    }
}

/// Returns a copy of `part` in which nothing is replaced. Returns `LimitNesting` if `part` has more
/// than `levels` nested types.
fn still_after<'s>(levels: u32, part: &TypePart<'s>) -> Result<TypePart<'s>, TypeFault>
    ensures ok { IfOk result (λ after. (tree_of after ≡ tree_of part.now)
        × (exceeds levels (tree_of part.now) ≡ false)) }
    ensures err { IfErr result (IfDeep (exceeds levels (tree_of part.now) ≡ true)) }
{
    if exceeds(part, levels) {
        return Err(TypeFault::LimitNesting);
    }
    Ok(part.clone()?)
}

/// Returns the replacement of the name `text`, or the name itself if there is no replacement. If
/// the replacement is a type with parts, the names in the parts are replaced in turn. If the
/// replacement is another name, that name is not replaced. Returns `LimitNesting` if the result has
/// more than `levels` nested types.
#[cycle(after)]
fn name_after<'s>(
    alloc: Global,
    levels: u32,
    params: Replacing<'_, 's>,
    text: &'s str,
) -> Result<TypePart<'s>, TypeFault>
    ensures ok { IfOk result (λ after.
        After (params_of params.entry) levels (name text.now) (tree_of after)) }
    ensures err { IfErr result (IfDeep (Passes (params_of params.entry) levels (name text.now))) }
{
    if levels == 0 {
        return Err(TypeFault::LimitNesting);
    }
    match find(params, text) {
        GivenType::Nothing => Ok(TypePart::Name(text)),
        GivenType::Name(other) => Ok(TypePart::Name(other)),
        GivenType::Parts(parts) => {
            let after = parts_after(alloc, levels - 1, params, parts)?;
            Ok(TypePart::Whole(after))
        }
    }
}

/// Returns the type that consists of `parts`, with the parameters in the parts replaced. Returns
/// `LimitNesting` if the result has more than `levels` nested types.
#[cycle(after)]
fn whole_after<'s>(
    alloc: Global,
    levels: u32,
    params: Replacing<'_, 's>,
    parts: &[TypePart<'s>],
) -> Result<TypePart<'s>, TypeFault>
    ensures ok { IfOk result (λ after. After (params_of params.entry) levels
        (whole (trees (map tree_of parts.now))) (tree_of after)) }
    ensures err { IfErr result (IfDeep
        (Passes (params_of params.entry) levels (whole (trees (map tree_of parts.now))))) }
{
    if levels == 0 {
        return Err(TypeFault::LimitNesting);
    }
    let after = parts_after(alloc, levels - 1, params, parts)?;
    Ok(TypePart::Whole(after))
}

/// Returns `parts` with the parameters in each part replaced. Returns `LimitNesting` if a resulting
/// part has more than `levels` nested types.
#[cycle(after)]
fn parts_after<'s>(
    alloc: Global,
    levels: u32,
    params: Replacing<'_, 's>,
    parts: &[TypePart<'s>],
) -> Result<Vec<TypePart<'s>>, TypeFault>
    ensures ok { IfOk result (λ after. AllAfter (params_of params.entry) levels
        (trees (map tree_of parts.now)) (trees (map tree_of after.items))) }
    ensures err { IfErr result (IfDeep
        (SomePasses (params_of params.entry) levels (trees (map tree_of parts.now)))) }
{
    let mut after = Vec::new(alloc);
    for part in parts {
        after.push(type_after(alloc, levels, params, part)?)?;
    }
    Ok(after)
}

/// A type has at most one replacement, regardless of the limit. If the replacement exceeds one
/// limit but not another, the first limit is less than the second.
pub fn at_most_one_after()
    ensures one { (params : Params) (levels others : ℕ) (part after other : Tree) →
        After params levels part after → After params others part other → after ≡ other }
    ensures deeper { (params : Params) (levels others : ℕ) (part after : Tree) →
        Passes params levels part → After params others part after → levels < others }
{}
