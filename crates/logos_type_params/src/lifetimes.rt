//! Sets the lifetimes of types to `'s`. `type_params` calls `set_lifetimes` for each type that is
//! given to a parameter, and users of the library call `replace_lifetime` and `replace_lifetimes`.

ghost use Rattle.std.specs.Prelude.{◌≡◌, map, IfOk};
ghost use Rattle.logos_type_params.specs.Views.{whole, trees, tree_of, type_tree, with_lifetimes, with_lifetime, own_lifetime};

use crate::substitution::set_lifetime;
use logos_token::error::Memory;
use logos_type::{TypeExpr, TypePart};
use std::alloc::{AllocError, Global};

/// Returns a copy of `part` with lifetimes set to `'s` at any depth: the lifetimes of references,
/// and the lifetimes among the angle-bracketed arguments of paths that are types.
pub(crate) fn set_lifetimes<'s>(
    alloc: Global,
    part: &TypePart<'s>,
) -> Result<TypePart<'s>, AllocError>
    ensures { IfOk result (λ after. tree_of after ≡ with_lifetimes (tree_of part.now)) }
{
    match part {
        TypePart::Leaf(leaf) => Ok(TypePart::Leaf(set_lifetime(*leaf))),
        TypePart::Name(text) => Ok(TypePart::Name(text)),
        TypePart::Whole(parts) => {
            let mut after = Vec::new(alloc);
            for inner in parts {
                after.push(set_lifetimes(alloc, inner)?)?;
            }
            Ok(TypePart::Whole(after))
        }
        TypePart::Still(_) => part.clone(),
    }
}

/// Returns a copy of `part`. If `part` is a token, `set_lifetime` is applied to the copy. A type is
/// copied unchanged.
fn set_own<'s>(part: &TypePart<'s>) -> Result<TypePart<'s>, AllocError>
    ensures { IfOk result (λ after. tree_of after ≡ own_lifetime (tree_of part.now)) }
{
    match part {
        TypePart::Leaf(leaf) => Ok(TypePart::Leaf(set_lifetime(*leaf))),
        _ => part.clone(),
    }
}

/// Returns the type that consists of copies of `parts`, with `set_lifetime` applied to each token
/// among them.
fn set_each<'s>(alloc: Global, parts: &[TypePart<'s>]) -> Result<TypePart<'s>, AllocError>
    ensures { IfOk result (λ after. tree_of after ≡
        with_lifetime (whole (trees (map tree_of parts.now)))) }
{
    let mut after = Vec::new(alloc);
    for part in parts {
        after.push(set_own(part)?)?;
    }
    Ok(TypePart::Whole(after))
}

/// Returns a copy of the type with lifetimes set to `'s` at any depth.
///
/// This sets the lifetimes of references, and the lifetimes among the angle-bracketed arguments of
/// paths that are types. If a reference has no lifetime, `'s` is added. Other lifetimes are
/// unchanged, such as the lifetimes of `dyn` and `for<..>`. Parts that are never replaced are also
/// unchanged, such as the type before `as`.
///
/// # Errors
///
/// Returns `Memory` if memory runs out.
pub fn replace_lifetimes<'s>(
    alloc: Global,
    type_expr: &TypeExpr<'s>,
) -> Result<TypeExpr<'s>, Memory>
    ensures { IfOk result (λ after. type_tree after ≡ with_lifetimes (type_tree type_expr.now)) }
{
    let part = set_lifetimes(alloc, &type_expr.part)?;
    Ok(TypeExpr { part })
}

/// Returns a copy of the type with its own lifetimes set to `'s`.
///
/// For a reference, this sets the lifetime after `&`, or adds `'s` if the reference has no
/// lifetime. For a path that is a type, this sets the lifetimes among the angle-bracketed arguments
/// of the path. All other types are unchanged, as are types inside the type.
///
/// # Errors
///
/// Returns `Memory` if memory runs out.
pub fn replace_lifetime<'s>(alloc: Global, type_expr: &TypeExpr<'s>) -> Result<TypeExpr<'s>, Memory>
    ensures { IfOk result (λ after. type_tree after ≡ with_lifetime (type_tree type_expr.now)) }
{
    let part = match &type_expr.part {
        TypePart::Whole(parts) => set_each(alloc, parts)?,
        part => set_own(part)?,
    };
    Ok(TypeExpr { part })
}
