//! Reads the leaves of an enum. `logos_parser` calls `read_leaves` once for each source.

ghost use Rattle.std.specs.Prelude.{◌≡◌, IfOk, OnOk, map, []};
ghost use Rattle.logos_leaf.specs.Imports.{tokens_of, texts, params_with, parameter_value, enum_value, variant_value, names_of, definition_view, no_options, parser_view, leaf_view, SkipsAdd, ReadsParameters, ReadsAttributes, YieldsLeaves, IsSourceRead, IsWithoutSkips, AreMadeWith};

use crate::leaf::regex_leaf;
use crate::subpattern::Subpatterns;
use crate::variant::{add_variants, push_leaf};
use logos_definition::definition::Definition;
use logos_definition::parser::Parser;
use logos_enum::{ItemEnum, Parameter, Variant, split_attribute};
use logos_pattern::leaf::{Leaf, VariantKind};
use logos_token::error::{Errors, Memory};
use logos_token::token::Tokens;
use std::collections::HashSet;
use std::mem;

/// Reads the generic parameters of an enum into `parser`, in source order.
fn read_parameters<'s>(
    parameters: &[Parameter<'_, 's>],
    parser: &mut Parser<'s>,
) -> Result<(), Memory>
    ensures { OnOk result (ReadsParameters (parser_view parser.old) (parser_view parser.new)
        parser.old.errors parser.new.errors (map parameter_value parameters.now)) }
{
    for parameter in parameters {
        parser.parse_generic(*parameter)?;
    }
    Ok(())
}

/// Reads the options in the attributes of an enum into `parser`, in source order.
fn read_attributes<'s>(attributes: Tokens<'_, 's>, parser: &mut Parser<'s>) -> Result<(), Memory>
    ensures { OnOk result (ReadsAttributes (parser_view parser.old) (parser_view parser.new)
        parser.old.errors parser.new.errors (tokens_of attributes.entry)) }
{
    let mut rest = attributes;
    while let Some((attribute, after)) = split_attribute(rest) {
        parser.try_parse_logos(attribute)?;
        rest = after;
    }
    Ok(())
}

/// Appends the leaves of `skips` to `leaves`, in source order, and reports the faults of `skips`.
fn add_skips<'s>(
    skips: Vec<Definition<'s>>,
    subpatterns: &Subpatterns<'s>,
    leaves: &mut Vec<Leaf<'s>>,
    errors: &mut Errors,
) -> Result<(), Memory>
    ensures { OnOk result (SkipsAdd (names_of subpatterns.now)
        (map definition_view skips.entry.items) (map leaf_view leaves.old.items)
        (map leaf_view leaves.new.items) errors.old errors.new) }
{
    for skip in skips {
        let leaf = regex_leaf(skip, VariantKind::Skip, subpatterns, errors)?;
        push_leaf(leaves, leaf)?;
    }
    Ok(())
}

/// Removes the skips from `parser`. Returns the leaves of the skips, followed by the leaves of
/// `variants`. `held` contains the name of each type parameter whose type contains the parameter
/// itself.
fn leaves_with<'s>(
    variants: &[Variant<'_, 's>],
    held: &HashSet<&'s str>,
    subpatterns: &Subpatterns<'s>,
    parser: &mut Parser<'s>,
) -> Result<Vec<Leaf<'s>>, Memory>
    ensures made { IfOk result (λ leaves. AreMadeWith
        (params_with parser.old.types (texts held.now.keys)) (names_of subpatterns.now)
        (map definition_view parser.old.skips.items) (map variant_value variants.now)
        (map leaf_view leaves.items) parser.old.errors parser.new.errors) }
    ensures options { OnOk result (IsWithoutSkips
        (parser_view parser.old) (parser_view parser.new)) }
{
    let alloc = parser.errors.alloc();
    let skips = mem::replace(&mut parser.skips, Vec::new(alloc));
    let mut leaves = Vec::new(alloc);
    add_skips(skips, subpatterns, &mut leaves, &mut parser.errors)?;
    add_variants(variants, held, subpatterns, parser, &mut leaves)?;
    Ok(leaves)
}

/// Reports each type parameter whose type contains the parameter itself, and reads the subpatterns.
/// Returns the leaves of the skips, followed by the leaves of `variants`.
fn make_leaves<'s>(
    variants: &[Variant<'_, 's>],
    parser: &mut Parser<'s>,
) -> Result<Vec<Leaf<'s>>, Memory>
    ensures leaves { IfOk result (λ leaves. YieldsLeaves (parser_view parser.old)
        (map variant_value variants.now) (map leaf_view leaves.items)
        parser.old.errors parser.new.errors) }
    ensures options { OnOk result (IsWithoutSkips
        (parser_view parser.old) (parser_view parser.new)) }
{
    parser.types.check(&mut parser.errors)?;
    let held = parser.types.held_names()?;
    let mode = parser.is_utf8();
    let alloc = parser.errors.alloc();
    let list = parser.subpatterns.as_slice();
    match Subpatterns::new(alloc, list, mode, &mut parser.errors) {
        Ok(subpatterns) => leaves_with(variants, &held, &subpatterns, parser),
        Err(Memory) => Err(Memory),
    }
}

/// Reads an enum into `parser`, which must be new. Returns the leaves of the enum's skips, followed
/// by the leaves of its variants, in source order.
///
/// Reads the generic parameters, the attributes, the subpatterns, the skips and the variants, in
/// this order. Performs each step regardless of earlier faults. Afterwards the parser contains all
/// options except the skips, and all faults.
///
/// # Errors
///
/// Returns `Memory` if memory runs out. The parser must not be used after this error.
pub fn read_leaves<'s>(
    item: &ItemEnum<'_, 's>,
    parser: &mut Parser<'s>,
) -> Result<Vec<Leaf<'s>>, Memory>
    requires options { parser_view parser.old ≡ no_options }
    requires faults { parser.old.errors ≡ [] }
    ensures { IfOk result (λ leaves. IsSourceRead (enum_value item.now)
        (map leaf_view leaves.items) (parser_view parser.new) parser.new.errors) }
{
    read_parameters(item.parameters.as_slice(), parser)?;
    read_attributes(item.attributes, parser)?;
    make_leaves(item.variants.as_slice(), parser)
}
