//! Makes the leaves of variants from their attributes. `source` calls `add_variants` for all
//! variants.

ghost use Rattle.std.specs.Prelude.{◌≡◌, ◌++◌, IfOk, OnOk, map, option_map};
ghost use Rattle.logos_leaf.specs.Imports.{option_to_list, tokens_of, texts, params_with, attribute_value, field_value, fields_value, in_parenthesis, variant_value, kind_value, names_of, parser_view, leaf_view, HoldsType, KindIs, TokenYields, RegexYields, AttributeYields, AttributesAdd, VariantAdds, VariantsAdd};

mod fault;

use crate::leaf::{regex_leaf, token_leaf};
use crate::subpattern::Subpatterns;
use crate::variant::fault::{
    report_count, report_error_variant, report_named_fields, report_regex_form, report_token_form,
    report_variant_fields,
};
use logos_definition::meta::meta_of;
use logos_definition::parser::Parser;
use logos_enum::{Attribute, Field, Fields, Variant, split_attribute};
use logos_pattern::leaf::{Leaf, VariantKind};
use logos_token::error::{Errors, Memory};
use logos_token::token::{Ident, Span, Tokens};
use logos_type_params::TypeParams;
use std::alloc::AllocError;
use std::collections::HashSet;

/// The declared type parameters of an enum, and the name of each type parameter whose type contains
/// the parameter itself.
#[derive(Clone, Copy)]
pub struct Types<'p, 's> {
    pub params: &'p TypeParams<'s>,
    pub held: &'p HashSet<&'s str>,
}

/// Returns the kind of the variant `name` with the field `field`. The type parameters in the
/// field's type are replaced by their types. Reports the field if the resulting type is nested too
/// deeply.
fn value_kind<'s>(
    types: Types<'_, 's>,
    name: Ident<'s>,
    field: &Field<'_, 's>,
    errors: &mut Errors,
) -> Result<VariantKind<'s>, Memory>
    ensures { IfOk result (λ kind. HoldsType
        (params_with types.entry.params.now (texts types.entry.held.now.keys)) name.entry
        (field_value field.now) errors.old errors.new (kind_value kind)) }
{
    let span = field.run.span();
    let got = types
        .params
        .get_type(types.held, &field.field_type, span, errors)?;
    Ok(VariantKind::Value(name, got))
}

/// Returns the kind of the variant `name` with `fields` in the parentheses at `span`. Reports the
/// variant if it does not have exactly one field. The kind of a variant without fields is `Skip`.
/// The kind of a variant with several fields has the type of the first field.
fn tuple_kind<'s>(
    types: Types<'_, 's>,
    name: Ident<'s>,
    span: Span,
    fields: &[Field<'_, 's>],
    errors: &mut Errors,
) -> Result<VariantKind<'s>, Memory>
    ensures { IfOk result (λ kind. KindIs
        (params_with types.entry.params.now (texts types.entry.held.now.keys)) name.entry
        errors.old errors.new (in_parenthesis span (map field_value fields.now))
        (kind_value kind)) }
{
    let Some((first, _)) = fields.split_first() else {
        report_variant_fields(0, span, errors)?;
        return Ok(VariantKind::Skip);
    };
    report_count(fields.len(), span, errors)?;
    value_kind(types, name, first, errors)
}

/// Returns the kind of the variant `name` with `fields`. Reports named fields, and parentheses that
/// do not contain exactly one field. The kind of a variant with named fields is `Skip`.
fn kind_of<'s>(
    types: Types<'_, 's>,
    name: Ident<'s>,
    fields: &Fields<'_, 's>,
    errors: &mut Errors,
) -> Result<VariantKind<'s>, Memory>
    ensures { IfOk result (λ kind. KindIs
        (params_with types.entry.params.now (texts types.entry.held.now.keys)) name.entry
        errors.old errors.new (fields_value fields.now) (kind_value kind)) }
{
    match fields {
        Fields::Unit => Ok(VariantKind::Unit(name)),
        Fields::Tuple(span, list) => tuple_kind(types, name, *span, list, errors),
        Fields::Named(span, _) => {
            report_named_fields(*span, errors)?;
            Ok(VariantKind::Skip)
        }
    }
}

/// Reads a `token` attribute and returns its leaf. If a fault prevents the leaf, reports the fault
/// and returns `None`.
fn read_token<'s>(
    attribute: Attribute<'_, 's>,
    kind: &VariantKind<'s>,
    parser: &mut Parser<'s>,
) -> Result<Option<Leaf<'s>>, Memory>
    ensures given { IfOk result (λ leaf. TokenYields (kind_value kind.now)
        (attribute_value attribute.entry) parser.old.errors parser.new.errors
        (option_map leaf_view leaf)) }
    ensures unchanged { OnOk result (parser_view parser.new ≡ parser_view parser.old) }
{
    let Some(definition) = parser.parse_definition_attr(attribute)? else {
        report_token_form(attribute.span, &mut parser.errors)?;
        return Ok(None);
    };
    let kind = kind.clone()?;
    token_leaf(definition, kind, &mut parser.errors)
}

/// Reads a `regex` attribute and returns its leaf. If a fault prevents the leaf, reports the fault
/// and returns `None`.
fn read_regex<'s>(
    attribute: Attribute<'_, 's>,
    kind: &VariantKind<'s>,
    subpatterns: &Subpatterns<'s>,
    parser: &mut Parser<'s>,
) -> Result<Option<Leaf<'s>>, Memory>
    ensures given { IfOk result (λ leaf. RegexYields (names_of subpatterns.now)
        (kind_value kind.now) (attribute_value attribute.entry)
        parser.old.errors parser.new.errors (option_map leaf_view leaf)) }
    ensures unchanged { OnOk result (parser_view parser.new ≡ parser_view parser.old) }
{
    let Some(definition) = parser.parse_definition_attr(attribute)? else {
        report_regex_form(attribute.span, &mut parser.errors)?;
        return Ok(None);
    };
    let kind = kind.clone()?;
    regex_leaf(definition, kind, subpatterns, &mut parser.errors)
}

/// Reads an attribute of a variant and returns its leaf. Returns `None` if the attribute is neither
/// a `token` nor a `regex`, or if a fault prevents the leaf. Reports all faults.
fn read_attribute<'s>(
    attribute: Attribute<'_, 's>,
    kind: &VariantKind<'s>,
    subpatterns: &Subpatterns<'s>,
    parser: &mut Parser<'s>,
) -> Result<Option<Leaf<'s>>, Memory>
    ensures given { IfOk result (λ leaf. AttributeYields (names_of subpatterns.now)
        (kind_value kind.now) (attribute_value attribute.entry)
        parser.old.errors parser.new.errors (option_map leaf_view leaf)) }
    ensures unchanged { OnOk result (parser_view parser.new ≡ parser_view parser.old) }
{
    let Some(meta) = meta_of(attribute) else {
        return Ok(None);
    };
    if meta.name.text == "error" {
        report_error_variant(attribute.span, &mut parser.errors)?;
        return Ok(None);
    }
    if meta.name.text == "token" {
        return read_token(attribute, kind, parser);
    }
    if meta.name.text == "regex" {
        return read_regex(attribute, kind, subpatterns, parser);
    }
    Ok(None)
}

/// Appends the leaf in `leaf` to `leaves`, if there is one.
pub(crate) fn push_leaf<'s>(
    leaves: &mut Vec<Leaf<'s>>,
    leaf: Option<Leaf<'s>>,
) -> Result<(), AllocError>
    ensures { OnOk result (map leaf_view leaves.new.items
        ≡ map leaf_view leaves.old.items ++ option_to_list (option_map leaf_view leaf.entry)) }
{
    match leaf {
        Some(leaf) => Ok(leaves.push(leaf)?),
        None => Ok(()),
    }
}

/// Appends the leaves of all attributes of a variant to `leaves`, and reports the faults of the
/// attributes.
fn add_attributes<'s>(
    attributes: Tokens<'_, 's>,
    kind: &VariantKind<'s>,
    subpatterns: &Subpatterns<'s>,
    parser: &mut Parser<'s>,
    leaves: &mut Vec<Leaf<'s>>,
) -> Result<(), Memory>
    ensures given { OnOk result (AttributesAdd (names_of subpatterns.now)
        (kind_value kind.now) (tokens_of attributes.entry) (map leaf_view leaves.old.items)
        (map leaf_view leaves.new.items) parser.old.errors parser.new.errors) }
    ensures unchanged { OnOk result (parser_view parser.new ≡ parser_view parser.old) }
{
    let mut rest = attributes;
    while let Some((attribute, after)) = split_attribute(rest) {
        let leaf = read_attribute(attribute, kind, subpatterns, parser)?;
        push_leaf(leaves, leaf)?;
        rest = after;
    }
    Ok(())
}

/// Appends the leaves of a variant to `leaves`, and reports the variant's faults. `held` contains
/// the name of each type parameter whose type contains the parameter itself.
fn add_variant<'s>(
    variant: &Variant<'_, 's>,
    held: &HashSet<&'s str>,
    subpatterns: &Subpatterns<'s>,
    parser: &mut Parser<'s>,
    leaves: &mut Vec<Leaf<'s>>,
) -> Result<(), Memory>
    ensures given { OnOk result (VariantAdds (params_with parser.old.types (texts held.now.keys))
        (names_of subpatterns.now) (variant_value variant.now) (map leaf_view leaves.old.items)
        (map leaf_view leaves.new.items) parser.old.errors parser.new.errors) }
    ensures unchanged { OnOk result (parser_view parser.new ≡ parser_view parser.old) }
{
    let types = Types {
        params: &parser.types,
        held,
    };
    let kind = kind_of(types, variant.name, &variant.fields, &mut parser.errors)?;
    add_attributes(variant.attributes, &kind, subpatterns, parser, leaves)
}

/// Appends the leaves of all variants to `leaves`, in source order, and reports the variants'
/// faults. `held` contains the name of each type parameter whose type contains the parameter
/// itself.
pub(crate) fn add_variants<'s>(
    variants: &[Variant<'_, 's>],
    held: &HashSet<&'s str>,
    subpatterns: &Subpatterns<'s>,
    parser: &mut Parser<'s>,
    leaves: &mut Vec<Leaf<'s>>,
) -> Result<(), Memory>
    ensures given { OnOk result (VariantsAdd (params_with parser.old.types (texts held.now.keys))
        (names_of subpatterns.now) (map variant_value variants.now)
        (map leaf_view leaves.old.items) (map leaf_view leaves.new.items)
        parser.old.errors parser.new.errors) }
    ensures unchanged { OnOk result (parser_view parser.new ≡ parser_view parser.old) }
{
    for variant in variants {
        add_variant(variant, held, subpatterns, parser, leaves)?;
    }
    Ok(())
}
