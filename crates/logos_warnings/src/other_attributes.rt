//! Warns about attributes of an enum and of its variants that a lexer ignores. These are the
//! attribute `end` of older lexers, and helper attributes under a condition. Used by `messages`.

ghost use Rattle.std.specs.Prelude.{OnOk, map};
ghost use Rattle.logos_warnings.specs.Views.{AddsEach, IsAboutIgnored, IsAt, IsIgnored, IsIgnoredIn, IsIgnoredOn, attribute_value, enum_value, tokens_of, variant_value};

use crate::attributes::name_of;
use crate::helper::is_helper_name;
use crate::warning_list::fixed_warning;
use logos_enum::{Attribute, ItemEnum, Variant, split_attribute};
use logos_report::Warning;
use logos_token::token::{Span, TokenTree, Tokens};
use std::alloc::AllocError;

const END: &str = "`end` has no effect: at the end of its input a lexer gives `None`";

const END_HELP: &str = "remove the attribute, and the variant if it has no pattern";

const CONDITION: &str = "the attribute in this `cfg_attr` is passed over";

const CONDITION_HELP: &str = "write it alone, or derive the lexer in place";

/// Appends to `warnings`, in source order, a warning for each attribute `end` or `cfg_attr` that
/// the lexer of an enum ignores.
pub(crate) fn add_others(
    item: &ItemEnum<'_, '_>,
    warnings: &mut Vec<Warning>,
) -> Result<(), AllocError>
    ensures { OnOk result (AddsEach (IsIgnored (enum_value item.now)) warnings.old.items
        warnings.new.items) }
{
    add_run(item.attributes, false, warnings)?;
    add_variants(item.variants.as_slice(), warnings)
}

/// Appends the warnings for the attributes of `variants` to `warnings`.
fn add_variants(variants: &[Variant<'_, '_>], warnings: &mut Vec<Warning>) -> Result<(), AllocError>
    ensures { OnOk result (AddsEach (IsIgnoredOn (map variant_value variants.now)) warnings.old.items
        warnings.new.items) }
{
    for variant in variants {
        add_run(variant.attributes, true, warnings)?;
    }
    Ok(())
}

/// Appends the warnings for the attributes of a run to `warnings`. `is_variant` is `true` if the
/// attributes are on a variant, and `false` if they are on the enum.
fn add_run(
    run: Tokens<'_, '_>,
    is_variant: bool,
    warnings: &mut Vec<Warning>,
) -> Result<(), AllocError>
    ensures { OnOk result (AddsEach (IsIgnoredIn (tokens_of run.entry)) warnings.old.items
        warnings.new.items) }
{
    let mut rest = run;
    while let Some((attribute, next)) = split_attribute(rest) {
        add_attribute(attribute, is_variant, warnings)?;
        rest = next;
    }
    Ok(())
}

/// Appends the warning for an attribute to `warnings`. Appends nothing if there is no warning.
/// `is_variant` is `true` if the attribute is on a variant, and `false` if it is on the enum.
fn add_attribute(
    attribute: Attribute<'_, '_>,
    is_variant: bool,
    warnings: &mut Vec<Warning>,
) -> Result<(), AllocError>
    ensures { OnOk result (AddsEach (IsAboutIgnored (attribute_value attribute.entry))
        warnings.old.items warnings.new.items) }
{
    let Some(name) = name_of(attribute) else {
        return Ok(());
    };
    if is_variant & (name == "end") {
        return add(END, END_HELP, attribute.span, warnings);
    }
    if name == "cfg_attr" && hides_helper(attribute) {
        return add(CONDITION, CONDITION_HELP, attribute.span, warnings);
    }
    Ok(())
}

/// Appends a warning with the message `message`, the help `help` and the span `span` to `warnings`.
fn add(
    message: &str,
    help: &'static str,
    span: Span,
    warnings: &mut Vec<Warning>,
) -> Result<(), AllocError>
    ensures { OnOk result (AddsEach (IsAt span) warnings.old.items warnings.new.items) }
{
    let alloc = *warnings.allocator();
    warnings.push(fixed_warning(alloc, message, span, Some(help))?)?;
    Ok(())
}

/// Returns whether the group after the name of an attribute contains a helper attribute.
fn hides_helper(attribute: Attribute<'_, '_>) -> bool {
    match attribute.inside {
        Some(tokens) => match tokens.rest().first() {
            Some(TokenTree::Group(group)) => has_helper_call(group.run()),
            _ => false,
        },
        None => false,
    }
}

/// Returns whether a run contains the name of a helper attribute, followed by a group.
fn has_helper_call(run: Tokens<'_, '_>) -> bool {
    let mut rest = run;
    while !rest.is_empty() {
        if begins_helper_call(rest) {
            return true;
        }
        rest = rest.rest();
    }
    false
}

/// Returns whether a run begins with the name of a helper attribute and a group.
fn begins_helper_call(run: Tokens<'_, '_>) -> bool {
    match (run.first(), run.rest().first()) {
        (Some(TokenTree::Ident(name)), Some(TokenTree::Group(_))) => is_helper_name(name.text),
        _ => false,
    }
}
