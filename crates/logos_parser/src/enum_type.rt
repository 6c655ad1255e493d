//! `enum_type` builds the type of an enum. `analysis` calls `enum_type` last.

ghost use Rattle.std.specs.Prelude.{◌≡◌, ◌∷◌, ◌++◌, [], IfOk, OnOk, map, option_map};
ghost use Rattle.logos_parser.specs.Imports.{tree_of, type_tree, generics_of, argument, arguments, lifetime_argument, bracketed, enum_type};

use logos_type::{TypeExpr, TypePart, TypeToken};
use logos_type_params::Generics;
use std::alloc::{AllocError, Global};

/// Appends `part` to the parts of a type.
fn push_part<'s>(parts: &mut Vec<TypePart<'s>>, part: TypePart<'s>) -> Result<(), AllocError>
    ensures { OnOk result (map tree_of parts.new.items
        ≡ map tree_of parts.old.items ++ tree_of part.entry ∷ []) }
{
    parts.push(part)?;
    Ok(())
}

/// Appends the argument `part` to the parts of a type. A comma precedes the argument unless
/// `is_first` is `true`.
fn push_argument<'s>(
    parts: &mut Vec<TypePart<'s>>,
    is_first: bool,
    part: TypePart<'s>,
) -> Result<(), AllocError>
    ensures { OnOk result (map tree_of parts.new.items
        ≡ map tree_of parts.old.items ++ argument is_first (tree_of part.entry)) }
{
    if !is_first {
        parts.push(TypePart::Leaf(TypeToken::Mark(',')))?;
    }
    parts.push(part)?;
    Ok(())
}

/// Appends the arguments `types` to the parts of a type. A comma precedes each argument, except for
/// the first one if `is_first` is `true`.
fn push_arguments<'s>(
    parts: &mut Vec<TypePart<'s>>,
    is_first: bool,
    types: Vec<TypeExpr<'s>>,
) -> Result<(), AllocError>
    ensures { OnOk result (map tree_of parts.new.items
        ≡ map tree_of parts.old.items ++ arguments is_first (map type_tree types.entry.items)) }
{
    let mut is_first = is_first;
    for argument in types {
        push_argument(parts, is_first, argument.part)?;
        is_first = false;
    }
    Ok(())
}

/// Appends the lifetime `'s` to the parts of a type if `lifetime` is `true`.
fn push_lifetime<'s>(parts: &mut Vec<TypePart<'s>>, lifetime: bool) -> Result<(), AllocError>
    ensures { OnOk result (map tree_of parts.new.items
        ≡ map tree_of parts.old.items ++ lifetime_argument lifetime) }
{
    if lifetime {
        parts.push(TypePart::Leaf(TypeToken::Lifetime("s")))?;
    }
    Ok(())
}

/// Returns the type of the enum `name` with generic arguments: `'s` if `lifetime` is `true`, and
/// `types`.
fn bracketed<'s>(
    alloc: Global,
    name: &'s str,
    lifetime: bool,
    types: Vec<TypeExpr<'s>>,
) -> Result<TypeExpr<'s>, AllocError>
    ensures { IfOk result (λ made. type_tree made ≡ bracketed name.now
        (record { lifetime = lifetime; types = map type_tree types.entry.items })) }
{
    let mut parts = Vec::new(alloc);
    push_part(&mut parts, TypePart::Leaf(TypeToken::Word(name)))?;
    push_part(&mut parts, TypePart::Leaf(TypeToken::Mark('<')))?;
    push_lifetime(&mut parts, lifetime)?;
    push_arguments(&mut parts, !lifetime, types)?;
    push_part(&mut parts, TypePart::Leaf(TypeToken::Mark('>')))?;
    let part = TypePart::Whole(parts);
    Ok(TypeExpr { part })
}

/// Returns the type of the enum `name`: its name and the generic arguments that follow the name, if
/// there are any.
///
/// # Errors
///
/// Returns `AllocError` if memory runs out.
pub fn enum_type<'s>(
    alloc: Global,
    name: &'s str,
    generics: Option<Generics<'s>>,
) -> Result<TypeExpr<'s>, AllocError>
    ensures { IfOk result (λ made. type_tree made
        ≡ enum_type name.now (option_map generics_of generics.entry)) }
{
    match generics {
        Some(Generics { lifetime, types }) => bracketed(alloc, name, lifetime, types),
        None => Ok(TypeExpr {
            part: TypePart::Name(name),
        }),
    }
}
