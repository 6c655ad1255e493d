//! Finds the probable mistakes in an enum. Such a mistake is not a fault. Used by `messages` and
//! `origin`.

ghost use Rattle.std.specs.Prelude.{◌≡◌, IfOk, None, OnOk, Some, [], map};
ghost use Rattle.logos_warnings.specs.Views.{attribute_value, enum_value, variant_value, tokens_of, mistake_value, is_conditional, is_useless, name_of, AreMistakes, AreOfLexer, AttributeAdds, LacksPatterns, RunAdds, VariantAdds, VariantsAdd, NamesAdd, ForgetsDerive};

use crate::attributes::{
    AttributeSite, has_helper, has_helpers, has_patterns, is_qualified, name_of,
};
use crate::helper::{Helper, intended_helper};
use logos_enum::{Attribute, ItemEnum, Variant, split_attribute};
use logos_token::token::{Span, Tokens};
use std::alloc::{AllocError, Global};

/// A probable mistake in an enum, as opposed to a fault. Spans are byte offsets in the text of the
/// enum.
#[derive(Clone, Copy, Debug)]
pub enum Mistake<'s> {
    /// The name of an attribute is similar to the name of a helper attribute.
    Misspelled {
        name: &'s str,
        intended: Helper,
        /// The span of the attribute.
        span: Span,
    },
    /// The path of an attribute is `logos::` and the name of a helper attribute.
    Qualified {
        /// The span of the attribute.
        span: Span,
    },
    /// An attribute has no effect at its site, because it is the attribute `logos` on a variant.
    Useless {
        /// The span of the attribute.
        span: Span,
    },
    /// A variant with a helper attribute has the attribute `cfg`.
    Conditional {
        /// The span of the attribute.
        span: Span,
    },
    /// The enum derives `Logos`, but no variant has a helper attribute.
    NoPattern {
        /// The span of the name of the enum.
        span: Span,
    },
    /// The enum has helper attributes, but no `derive` entry for `Logos`.
    NoDerive {
        /// The span of the name of the enum.
        span: Span,
    },
}

/// Returns the mistakes in an enum. `derives` is `true` if the enum derives `Logos`.
///
/// The mistakes in the attributes of the enum and of its variants come first, in source order. The
/// mistake `NoPattern` or `NoDerive` comes last if the enum has this mistake. An enum that neither
/// derives `Logos` nor has helper attributes has no mistakes.
///
/// # Errors
///
/// Returns `AllocError` if memory runs out.
pub fn mistakes_of<'s>(
    alloc: Global,
    item: &ItemEnum<'_, 's>,
    derives: bool,
) -> Result<Vec<Mistake<'s>>, AllocError>
    ensures { IfOk result (λ warnings. AreMistakes (enum_value item.now) derives
        (map mistake_value warnings.items)) }
{
    if derives {
        let all = of_lexer(alloc, item)?;
        return Ok(all);
    }
    if has_helpers(item) {
        let all = forgotten_of(alloc, item)?;
        return Ok(all);
    }
    Ok(Vec::new(alloc))
}

/// Returns the mistakes in an enum that derives `Logos`.
fn of_lexer<'s>(alloc: Global, item: &ItemEnum<'_, 's>) -> Result<Vec<Mistake<'s>>, AllocError>
    ensures { IfOk result (λ mistakes.
        AreOfLexer (enum_value item.now) (map mistake_value mistakes.items)) }
{
    if has_patterns(item) {
        let names = names_of(alloc, item)?;
        return Ok(names);
    }
    let all = patternless_of(alloc, item)?;
    Ok(all)
}

/// Returns the mistakes in an enum that derives `Logos` and has no patterns.
fn patternless_of<'s>(
    alloc: Global,
    item: &ItemEnum<'_, 's>,
) -> Result<Vec<Mistake<'s>>, AllocError>
    ensures { IfOk result (λ mistakes.
        LacksPatterns (enum_value item.now) (map mistake_value mistakes.items)) }
{
    let mut warnings = names_of(alloc, item)?;
    let span = item.name.span;
    warnings.push(Mistake::NoPattern { span })?;
    Ok(warnings)
}

/// Returns the mistakes in the attributes of an enum and of its variants.
fn names_of<'s>(alloc: Global, item: &ItemEnum<'_, 's>) -> Result<Vec<Mistake<'s>>, AllocError>
    ensures { IfOk result (λ warnings.
        NamesAdd (enum_value item.now) [] (map mistake_value warnings.items)) }
{
    let mut warnings = Vec::new(alloc);
    report_names(item, &mut warnings)?;
    Ok(warnings)
}

/// Returns the mistakes in an enum that has helper attributes and does not derive `Logos`.
fn forgotten_of<'s>(alloc: Global, item: &ItemEnum<'_, 's>) -> Result<Vec<Mistake<'s>>, AllocError>
    ensures { IfOk result (λ warnings.
        ForgetsDerive (enum_value item.now) (map mistake_value warnings.items)) }
{
    let mut warnings = names_of(alloc, item)?;
    let span = item.name.span;
    warnings.push(Mistake::NoDerive { span })?;
    Ok(warnings)
}

/// Appends the mistakes in the attributes of an enum and of its variants to `warnings`.
fn report_names<'s>(
    item: &ItemEnum<'_, 's>,
    warnings: &mut Vec<Mistake<'s>>,
) -> Result<(), AllocError>
    ensures { OnOk result (NamesAdd (enum_value item.now)
        (map mistake_value warnings.old.items) (map mistake_value warnings.new.items)) }
{
    report_run(AttributeSite::OnEnum, item.attributes, warnings)?;
    report_variants(item.variants.as_slice(), warnings)
}

/// Appends the mistakes in the attributes of variants to `warnings`.
fn report_variants<'s>(
    variants: &[Variant<'_, 's>],
    warnings: &mut Vec<Mistake<'s>>,
) -> Result<(), AllocError>
    ensures { OnOk result (VariantsAdd (map variant_value variants.now)
        (map mistake_value warnings.old.items) (map mistake_value warnings.new.items)) }
{
    let mut rest = variants;
    while let [variant, more @ ..] = rest {
        report_variant(variant.attributes, warnings)?;
        rest = more;
    }
    Ok(())
}

/// Appends the mistakes in the attributes of a variant to `warnings`. The attributes are in `run`.
fn report_variant<'s>(
    run: Tokens<'_, 's>,
    warnings: &mut Vec<Mistake<'s>>,
) -> Result<(), AllocError>
    ensures { OnOk result (VariantAdds (tokens_of run.entry)
        (map mistake_value warnings.old.items) (map mistake_value warnings.new.items)) }
{
    if has_helper(run) {
        report_run(AttributeSite::OnLeaf, run, warnings)?;
        return Ok(());
    }
    report_run(AttributeSite::OnVariant, run, warnings)?;
    Ok(())
}

/// Appends the mistakes in the attributes of a run at the site `site` to `warnings`.
fn report_run<'s>(
    site: AttributeSite,
    run: Tokens<'_, 's>,
    warnings: &mut Vec<Mistake<'s>>,
) -> Result<(), AllocError>
    ensures { OnOk result (RunAdds site (tokens_of run.entry)
        (map mistake_value warnings.old.items) (map mistake_value warnings.new.items)) }
{
    let mut rest = run;
    while let Some((attribute, next)) = split_attribute(rest) {
        report_attribute(site, attribute, warnings)?;
        rest = next;
    }
    Ok(())
}

/// Returns whether an attribute with the name `name` has no effect at the site `site`.
fn is_useless(site: AttributeSite, name: &str) -> bool
    ensures { result ≡ is_useless site name.now }
{
    match site {
        AttributeSite::OnEnum => false,
        AttributeSite::OnVariant => name == "logos",
        AttributeSite::OnLeaf => name == "logos",
    }
}

/// Returns whether an attribute with the name `name` at the site `site` makes a pattern
/// conditional.
fn is_conditional(site: AttributeSite, name: &str) -> bool
    ensures { result ≡ is_conditional site name.now }
{
    match site {
        AttributeSite::OnEnum => false,
        AttributeSite::OnVariant => false,
        AttributeSite::OnLeaf => name == "cfg",
    }
}

/// Appends the mistake in an attribute at the site `site` to `warnings`. Appends nothing if the
/// attribute has no mistake.
fn report_attribute<'s>(
    site: AttributeSite,
    attribute: Attribute<'_, 's>,
    warnings: &mut Vec<Mistake<'s>>,
) -> Result<(), AllocError>
    ensures { OnOk result (AttributeAdds site (attribute_value attribute.entry)
        (map mistake_value warnings.old.items) (map mistake_value warnings.new.items)) }
{
    match name_of(attribute) {
        Some(name) => report_named(site, attribute, name, warnings),
        None => report_unnamed(site, attribute, warnings),
    }
}

/// Appends the mistake in an attribute at the site `site` to `warnings`. Appends nothing if the
/// attribute has no mistake. The path of the attribute must not be a single identifier.
fn report_unnamed<'s>(
    site: AttributeSite,
    attribute: Attribute<'_, 's>,
    warnings: &mut Vec<Mistake<'s>>,
) -> Result<(), AllocError>
    requires { name_of (attribute_value attribute) ≡ None }
    ensures { OnOk result (AttributeAdds site (attribute_value attribute.entry)
        (map mistake_value warnings.old.items) (map mistake_value warnings.new.items)) }
{
    let span = attribute.span;
    if is_qualified(attribute) {
        warnings.push(Mistake::Qualified { span })?;
    }
    Ok(())
}

/// Appends the mistake in an attribute with the name `name` at the site `site` to `warnings`.
/// Appends nothing if the attribute has no mistake.
fn report_named<'s>(
    site: AttributeSite,
    attribute: Attribute<'_, 's>,
    name: &'s str,
    warnings: &mut Vec<Mistake<'s>>,
) -> Result<(), AllocError>
    requires { name_of (attribute_value attribute) ≡ Some name.now }
    ensures { OnOk result (AttributeAdds site (attribute_value attribute.entry)
        (map mistake_value warnings.old.items) (map mistake_value warnings.new.items)) }
{
    let span = attribute.span;
    if is_useless(site, name) {
        warnings.push(Mistake::Useless { span })?;
        return Ok(());
    }
    if is_conditional(site, name) {
        warnings.push(Mistake::Conditional { span })?;
        return Ok(());
    }
    let Some(intended) = intended_helper(name) else {
        return Ok(());
    };
    warnings.push(Mistake::Misspelled {
        name,
        intended,
        span,
    })?;
    Ok(())
}
