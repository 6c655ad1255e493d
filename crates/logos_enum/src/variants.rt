//! Functions that read the variants of an enum. Called by `item`.

ghost use Rattle.std.specs.Prelude.{◌≡◌, ◌<◌, ◌≤◌, List, map, Ok, Err, MatchOption, MatchResult, IfOk, IfErr};
ghost use Rattle.logos_enum.specs.Views.{none, count_of, tokens_of, from_comma, value_in, discriminant_in, variant, variants, variant_value, Occurs};

use crate::attributes::read_attributes;
use crate::error::ReadError;
use crate::fields::{Fields, read_holding};
use crate::tokens::{grammar_at, read_name, skip_comma, split};
use logos_token::token::{Ident, TokenTree, Tokens};
use std::alloc::Global;

/// A variant of an enum.
#[derive(Drop)]
pub struct Variant<'t, 's> {
    /// The attributes of the variant.
    pub attributes: Tokens<'t, 's>,
    pub name: Ident<'s>,
    pub fields: Fields<'t, 's>,
}

/// Returns the tokens after the first token. Returns `None` if the first token is a comma, or there
/// are no tokens.
fn skip_other<'t, 's>(tokens: Tokens<'t, 's>) -> Option<Tokens<'t, 's>>
    ensures { MatchOption result (from_comma (tokens_of tokens.entry) ≡ tokens_of tokens.entry)
        (λ rest. (from_comma (tokens_of tokens.entry) ≡ from_comma (tokens_of rest))
        × (count_of (tokens_of rest) < count_of (tokens_of tokens.entry))) }
{
    match split(tokens)? {
        (TokenTree::Punct(punct), _) if punct.character == ',' => None,
        (_, rest) => Some(rest),
    }
}

/// Returns the tokens from the first comma on, or no tokens if there is no comma.
fn skip_to_comma<'t, 's>(tokens: Tokens<'t, 's>) -> Tokens<'t, 's>
    ensures value { tokens_of result ≡ from_comma (tokens_of tokens.entry) }
    ensures shorter { count_of (tokens_of result) ≤ count_of (tokens_of tokens.entry) }
{
    let mut rest = tokens;
    while let Some(next) = skip_other(rest) {
        rest = next;
    }
    rest
}

/// Returns the tokens from the first comma on, or no tokens if there is no comma. Returns `Grammar`
/// if no token precedes the comma.
fn skip_value<'t, 's>(tokens: Tokens<'t, 's>) -> Result<Tokens<'t, 's>, ReadError>
    ensures { MatchResult result
        (λ rest. (value_in (tokens_of tokens.entry) ≡ Ok (tt, tokens_of rest))
        × (count_of (tokens_of rest) ≤ count_of (tokens_of tokens.entry)))
        (λ error. value_in (tokens_of tokens.entry) ≡ Err error) }
{
    match split(tokens) {
        Some((TokenTree::Punct(punct), _)) if punct.character == ',' => Err(grammar_at(tokens)),
        Some((_, rest)) => Ok(skip_to_comma(rest)),
        None => Err(grammar_at(tokens)),
    }
}

/// Returns the tokens after `=` and the discriminant of a variant if `=` comes first, and all
/// tokens otherwise. Returns `Grammar` if no discriminant follows `=`.
fn skip_discriminant<'t, 's>(tokens: Tokens<'t, 's>) -> Result<Tokens<'t, 's>, ReadError>
    ensures { MatchResult result
        (λ rest. (discriminant_in (tokens_of tokens.entry) ≡ Ok (tt, tokens_of rest))
        × (count_of (tokens_of rest) ≤ count_of (tokens_of tokens.entry)))
        (λ error. discriminant_in (tokens_of tokens.entry) ≡ Err error) }
{
    match split(tokens) {
        Some((TokenTree::Punct(punct), rest)) if punct.character == '=' => skip_value(rest),
        _ => Ok(tokens),
    }
}

/// Returns the variant at the front of `tokens`, and the tokens after the variant.
fn read_variant<'t, 's>(
    alloc: Global,
    tokens: Tokens<'t, 's>,
) -> Result<(Variant<'t, 's>, Tokens<'t, 's>), ReadError>
    ensures ok { IfOk result
        (λ read. variant (tokens_of tokens.entry) (Ok (variant_value read.0, tokens_of read.1))) }
    ensures shorter { IfOk result
        (λ read. count_of (tokens_of read.1) < count_of (tokens_of tokens.entry)) }
    ensures err { IfErr result (Occurs (λ error. variant (tokens_of tokens.entry) (Err error))) }
{
    let (attributes, named) = read_attributes(tokens)?;
    let (name, held) = read_name(named)?;
    let (fields, numbered) = read_holding(alloc, held)?;
    let rest = skip_discriminant(numbered)?;
    let variant = Variant {
        attributes,
        name,
        fields,
    };
    Ok((variant, rest))
}

/// Returns the variants of an enum. `tokens` are the tokens inside the enum's braces. Returns the
/// first fault if a token belongs to no variant.
pub(crate) fn read_variants<'t, 's>(
    alloc: Global,
    tokens: Tokens<'t, 's>,
) -> Result<Vec<Variant<'t, 's>>, ReadError>
    ensures ok { IfOk result
        (λ list. variants (tokens_of tokens.entry) (Ok (map variant_value list.items, none))) }
    ensures err { IfErr result (Occurs (λ error. variants (tokens_of tokens.entry) (Err error))) }
{
    let mut list = Vec::new(alloc);
    let mut rest = tokens;
    while !rest.is_empty() {
        let (variant, after) = read_variant(alloc, rest)?;
        let next = skip_comma(after)?;
        list.push(variant)?;
        rest = next;
    }
    Ok(list)
}
