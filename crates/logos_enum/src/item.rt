//! The function `read_enum`, which reads a whole enum. Called by `logos_parser`, `logos_strip`,
//! `logos_causes` and `logos_warnings`.

ghost use Rattle.std.specs.Prelude.{◌≡◌, ◌<◌, ◌≤◌, List, map, Ok, Err, Result, Some, None, MatchOption, MatchResult, IfOk, IfErr};
ghost use Rattle.logos_enum.specs.Views.{TokenList, none, count_of, tokens_of, ReadError as ReadErrorValue, Memory, announced_in, IsFront, from_brace, where_in, Body, end_in, NoFront, item, Reads, EnumValue, variant_value, enum_value, Occurs};

use crate::attributes::{read_attributes, skip_keyword, skip_visibility};
use crate::error::ReadError;
use crate::generics::{Parameter, read_generics};
use crate::groups::open_brace;
use crate::tokens::{grammar_at, read_name, split};
use crate::variants::{Variant, read_variants};
use logos_token::token::{Delimiter, Ident, TokenTree, Tokens};
use std::alloc::Global;

/// An enum. Each run of tokens in it is a slice of the tokens from which the enum was read.
#[derive(Drop)]
pub struct ItemEnum<'t, 's> {
    /// The attributes of the enum. Each attribute is `#` and brackets, or a documentation comment.
    pub attributes: Tokens<'t, 's>,
    pub name: Ident<'s>,
    /// The generic parameters, in source order.
    pub parameters: Vec<Parameter<'t, 's>>,
    /// The variants, in source order.
    pub variants: Vec<Variant<'t, 's>>,
}

/// Returns the tokens after the first token. Returns `None` if the first token is a group in
/// braces, or there are no tokens.
fn skip_other<'t, 's>(tokens: Tokens<'t, 's>) -> Option<Tokens<'t, 's>>
    ensures { MatchOption result (from_brace (tokens_of tokens.entry) ≡ tokens_of tokens.entry)
        (λ rest. (from_brace (tokens_of tokens.entry) ≡ from_brace (tokens_of rest))
        × (count_of (tokens_of rest) < count_of (tokens_of tokens.entry))) }
{
    match split(tokens)? {
        (TokenTree::Group(group), _) if group.delimiter == Delimiter::Brace => None,
        (_, rest) => Some(rest),
    }
}

/// Returns the tokens from the first group in braces on, or no tokens if there is no such group.
fn skip_to_brace<'t, 's>(tokens: Tokens<'t, 's>) -> Tokens<'t, 's>
    ensures { tokens_of result ≡ from_brace (tokens_of tokens.entry) }
{
    let mut rest = tokens;
    while let Some(next) = skip_other(rest) {
        rest = next;
    }
    rest
}

/// Returns the tokens from the first group in braces on if `where` comes first, and all tokens
/// otherwise.
fn skip_where<'t, 's>(tokens: Tokens<'t, 's>) -> Tokens<'t, 's>
    ensures { where_in (tokens_of tokens.entry) ≡ Ok (tt, tokens_of result) }
{
    match split(tokens) {
        Some((TokenTree::Ident(word), rest)) if word.text == "where" => skip_to_brace(rest),
        _ => tokens,
    }
}

/// Returns the variants in the braces that must come first, and the tokens after the braces.
/// Returns `Grammar` if no braces come first.
fn read_body<'t, 's>(
    alloc: Global,
    tokens: Tokens<'t, 's>,
) -> Result<(Vec<Variant<'t, 's>>, Tokens<'t, 's>), ReadError>
    ensures ok { IfOk result
        (λ read. Body (tokens_of tokens.entry)
        (Ok (map variant_value read.0.items, tokens_of read.1))) }
    ensures err { IfErr result (Occurs (λ error. Body (tokens_of tokens.entry) (Err error))) }
{
    let Some(braced) = open_brace(tokens) else {
        return Err(grammar_at(tokens));
    };
    let list = read_variants(alloc, braced.inside)?;
    Ok((list, braced.rest))
}

/// Returns `Grammar` at the first token if `tokens` is not empty.
fn read_end(tokens: Tokens<'_, '_>) -> Result<(), ReadError>
    ensures { MatchResult result (λ _. end_in (tokens_of tokens.entry) ≡ Ok (tt, none))
        (λ error. end_in (tokens_of tokens.entry) ≡ Err error) }
{
    match split(tokens) {
        None => Ok(()),
        Some(_) => Err(grammar_at(tokens)),
    }
}

/// Returns `attributes`, and the tokens after `enum`. `middle` contains the tokens after the
/// attributes. Returns `None` if `middle` does not begin with an optional visibility and `enum`.
fn announced<'t, 's>(
    attributes: Tokens<'t, 's>,
    middle: Tokens<'t, 's>,
) -> Option<(Tokens<'t, 's>, Tokens<'t, 's>)>
    ensures { MatchOption result (announced_in (tokens_of middle.entry) ≡ None)
        (λ read. (tokens_of read.0 ≡ tokens_of attributes.entry)
        × (announced_in (tokens_of middle.entry) ≡ Some (tokens_of read.1))) }
{
    let rest = skip_keyword(skip_visibility(middle))?;
    Some((attributes, rest))
}

/// Returns the attributes before `enum`, and the tokens after `enum`. Returns `None` if the run
/// does not begin with well-formed attributes, an optional visibility and `enum`.
fn read_front<'t, 's>(tokens: Tokens<'t, 's>) -> Option<(Tokens<'t, 's>, Tokens<'t, 's>)>
    ensures { MatchOption result (NoFront (tokens_of tokens.entry))
        (λ read. IsFront (tokens_of tokens.entry) (tokens_of read.0) (tokens_of read.1)) }
{
    match read_attributes(tokens) {
        Ok((attributes, middle)) => announced(attributes, middle),
        Err(_) => None,
    }
}

/// Returns the enum with the attributes `attributes`. `tokens` are all tokens after `enum`.
fn read_item<'t, 's>(
    alloc: Global,
    attributes: Tokens<'t, 's>,
    tokens: Tokens<'t, 's>,
) -> Result<ItemEnum<'t, 's>, ReadError>
    ensures ok { IfOk result
        (λ read. item (tokens_of attributes.entry) (tokens_of tokens.entry)
        (Ok (enum_value read, none))) }
    ensures err { IfErr result (Occurs
        (λ error. item (tokens_of attributes.entry) (tokens_of tokens.entry) (Err error))) }
{
    let (name, after_name) = read_name(tokens)?;
    let (parameters, after_generics) = read_generics(alloc, after_name)?;
    let (variants, rest) = read_body(alloc, skip_where(after_generics))?;
    read_end(rest)?;
    Ok(ItemEnum {
        attributes,
        name,
        parameters,
        variants,
    })
}

/// Reads an enum.
///
/// An enum consists of attributes, an optional visibility, `enum`, a name, optional generic
/// parameters, an optional where clause, and variants in braces. Commas separate the variants, and
/// a comma may follow the last variant. No token can follow the braces. Only the structure of the
/// enum and the runs of tokens are returned; attributes are not interpreted.
///
/// - An attribute is an outer documentation comment, or `#` and brackets with a path. The path can
///   be followed by a group, or by `=` and tokens.
/// - A visibility is `pub`, optionally followed by a group in parentheses.
/// - A name is any identifier.
/// - A generic parameter is a lifetime, a type, or `const` and a name. Attributes can come before
///   the parameter. Its bounds and its default are returned as tokens.
/// - A where clause ends before the first brace that is not inside another group.
/// - A variant consists of attributes, a name, optional fields, and optionally `=` and tokens. The
///   fields are in parentheses, or have names and are in braces. At most 128 types can be nested in
///   the type of a field.
///
/// # Errors
///
/// Returns `NotAnEnum` if the run does not begin with well-formed attributes, an optional
/// visibility and `enum`. Otherwise, returns the first fault from the left:
///
/// - `Grammar` at a token that does not fit.
/// - `TypeUnsupported` at an unsupported type.
/// - `LimitTypeNesting` at a type that exceeds the limit.
///
/// Returns `Memory` if memory runs out.
pub fn read_enum<'t, 's>(
    alloc: Global,
    tokens: Tokens<'t, 's>,
) -> Result<ItemEnum<'t, 's>, ReadError>
    ensures ok { IfOk result (λ read. Reads (tokens_of tokens.entry) (Ok (enum_value read))) }
    ensures err { IfErr result (Occurs (λ error. Reads (tokens_of tokens.entry) (Err error))) }
    ensures complete { (value : EnumValue) → Reads (tokens_of tokens.entry) (Ok value) →
        IfErr result (λ error. error ≡ Memory) }
{
    let Some((attributes, rest)) = read_front(tokens) else {
        return Err(ReadError::NotAnEnum {
            span: tokens.span(),
        });
    };
    let item = read_item(alloc, attributes, rest)?;
    Ok(item)
}

/// A run of tokens can be read as at most one enum and has at most one fault, but never both.
pub fn reads_once()
    ensures { (run : TokenList) (one other : Result EnumValue ReadErrorValue) → Reads run one →
        Reads run other → one ≡ other }
{}
