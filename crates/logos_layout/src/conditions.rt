//! Copies the `cfg` attributes of an item to a text. Used by `logos_expand`.

ghost use Rattle.std.specs.Prelude.{◌≡◌, ◌++◌, OnOk, codes, string_bytes};
ghost use Rattle.logos_layout.specs.Imports.{after_word, attribute_condition, attribute_text, attribute_value, conditions_text, text_if, tokens_of};

use logos_enum::{Attribute, split_attribute};
use logos_token::error::Memory;
use logos_token::token::{Tokens, print};
use logos_token::util::after_word;
use std::alloc::Global;

/// Appends the `cfg` attributes among the leading attributes of an item to `text`, each on its own
/// line. `item` contains the tokens of the item.
///
/// # Errors
///
/// Returns `Memory` if memory runs out. Some of the attributes may then have been appended.
pub fn push_conditions(alloc: Global, text: &mut String, item: Tokens<'_, '_>) -> Result<(), Memory>
    ensures { OnOk result (string_bytes text.new
        ≡ string_bytes text.old ++ conditions_text (tokens_of item.entry)) }
{
    let mut rest = item;
    while let Some((attribute, next)) = split_attribute(rest) {
        push_condition(alloc, text, attribute)?;
        rest = next;
    }
    Ok(())
}

/// Appends `attribute` to `text`, on its own line, if it is a `cfg` attribute.
fn push_condition(
    alloc: Global,
    text: &mut String,
    attribute: Attribute<'_, '_>,
) -> Result<(), Memory>
    ensures { OnOk result (string_bytes text.new
        ≡ string_bytes text.old ++ attribute_condition (attribute_value attribute.entry)) }
{
    match attribute.inside {
        Some(inside) => push_if_condition(alloc, text, inside),
        None => Ok(()),
    }
}

/// Appends an attribute to `text`, on its own line, if it is a `cfg` attribute. `run` contains the
/// tokens between the brackets of the attribute.
fn push_if_condition(alloc: Global, text: &mut String, run: Tokens<'_, '_>) -> Result<(), Memory>
    ensures { OnOk result (string_bytes text.new ≡ string_bytes text.old
        ++ text_if (after_word (codes "cfg") (tokens_of run.entry)) (tokens_of run.entry)) }
{
    match after_word("cfg", run) {
        Some(_) => push_attribute(alloc, text, run),
        None => Ok(()),
    }
}

/// Appends an attribute to `text`, on its own line. `run` contains the tokens between the brackets
/// of the attribute.
fn push_attribute(alloc: Global, text: &mut String, run: Tokens<'_, '_>) -> Result<(), Memory>
    ensures { OnOk result (string_bytes text.new
        ≡ string_bytes text.old ++ attribute_text (tokens_of run.entry)) }
{
    let inside = print(alloc, run)?;
    write!(text, "#[{inside}]\n")?;
    Ok(())
}
