//! Functions that read generic parameters. Called by `item`.

ghost use Rattle.std.specs.Prelude.{◌≡◌, ◌<◌, ◌≤◌, List, map, Ok, Err, MatchResult, IfOk, IfErr};
ghost use Rattle.logos_enum.specs.Views.{also, identifier, count_of, tokens_of, begins_with, greater, head_of, head_in, some_in, bounds_in, constant_in, default_in, tail, shape, OneParameter, closing_in, parameters, Generics, Listed, Occurs, ident_slice, head_value, parameter_value};

use crate::attributes::read_attributes;
use crate::error::ReadError;
use crate::extents::{End, ends, extent, skip_extent};
use crate::tokens::{after_mark, grammar_at, skip_comma_or_angle, split};
use logos_token::token::{Ident, TokenTree, Tokens};
use logos_token::util::begins_with;
use std::alloc::Global;

/// The kind of a generic parameter: a lifetime, a type or a constant.
#[derive(Clone, Copy, Debug, PartialEq, Eq)]
pub enum ParameterKind {
    Lifetime,
    Type,
    Const,
}

/// A generic parameter: its kind, its name and its tokens.
#[derive(Clone, Copy)]
pub struct Parameter<'t, 's> {
    pub kind: ParameterKind,
    /// The name, without the `'` of a lifetime.
    pub name: Ident<'s>,
    /// All tokens of the parameter: the attributes, the name, and the bounds, the type or the
    /// default after the name.
    pub run: Tokens<'t, 's>,
}

/// The kind and the name of a parameter.
#[derive(Clone, Copy)]
pub(crate) struct Head<'s> {
    kind: ParameterKind,
    name: Ident<'s>,
}

/// Reads the name at the front of `tokens` as the name of a parameter of the kind `kind`. Returns
/// the kind and the name, and the tokens after the name. Returns `Grammar` if no name comes first.
fn read_head_of<'t, 's>(
    kind: ParameterKind,
    tokens: Tokens<'t, 's>,
) -> Result<(Head<'s>, Tokens<'t, 's>), ReadError>
    ensures { MatchResult result
        (λ read. (head_of kind (tokens_of tokens.entry) ≡ Ok (head_value read.0, tokens_of read.1))
        × (count_of (tokens_of read.1) < count_of (tokens_of tokens.entry)))
        (λ error. head_of kind (tokens_of tokens.entry) ≡ Err error) }
{
    match split(tokens) {
        Some((TokenTree::Ident(name), rest)) => Ok((Head { kind, name }, rest)),
        _ => Err(grammar_at(tokens)),
    }
}

/// Returns the kind and the name of the parameter at the front of `tokens`, and the tokens after
/// the name.
fn read_head<'t, 's>(tokens: Tokens<'t, 's>) -> Result<(Head<'s>, Tokens<'t, 's>), ReadError>
    ensures { MatchResult result
        (λ read. (head_in (tokens_of tokens.entry) ≡ Ok (head_value read.0, tokens_of read.1))
        × (count_of (tokens_of read.1) < count_of (tokens_of tokens.entry)))
        (λ error. head_in (tokens_of tokens.entry) ≡ Err error) }
{
    match split(tokens) {
        Some((TokenTree::Punct(punct), rest)) if punct.character == '\'' => {
            read_head_of(ParameterKind::Lifetime, rest)
        }
        Some((TokenTree::Ident(word), rest)) if word.text == "const" => {
            read_head_of(ParameterKind::Const, rest)
        }
        Some((TokenTree::Ident(_), _)) => read_head_of(ParameterKind::Type, tokens),
        _ => Err(grammar_at(tokens)),
    }
}

/// Returns the tokens after the extent of `end`. Returns `Grammar` if the extent is empty.
fn skip_some<'t, 's>(end: End, tokens: Tokens<'t, 's>) -> Result<Tokens<'t, 's>, ReadError>
    ensures { MatchResult result
        (λ rest. (some_in end (tokens_of tokens.entry) ≡ Ok (tt, tokens_of rest))
        × (count_of (tokens_of rest) ≤ count_of (tokens_of tokens.entry)))
        (λ error. some_in end (tokens_of tokens.entry) ≡ Err error) }
{
    match tokens.first() {
        Some(TokenTree::Punct(punct)) if ends(end, punct.character) => Err(grammar_at(tokens)),
        Some(_) => Ok(skip_extent(end, tokens)),
        None => Err(grammar_at(tokens)),
    }
}

/// Returns the tokens after `:` and bounds if `:` comes first, and all tokens otherwise.
fn skip_bounds<'t, 's>(tokens: Tokens<'t, 's>) -> Tokens<'t, 's>
    ensures value { bounds_in (tokens_of tokens.entry) ≡ Ok (tt, tokens_of result) }
    ensures shorter { count_of (tokens_of result) ≤ count_of (tokens_of tokens.entry) }
{
    match split(tokens) {
        Some((TokenTree::Punct(punct), rest)) if punct.character == ':' => {
            skip_extent(End::OfBounds, rest)
        }
        _ => tokens,
    }
}

/// Returns the tokens after `:` and the type of a constant. Returns `Grammar` if `:` does not come
/// first, or no type follows `:`.
fn skip_constant<'t, 's>(tokens: Tokens<'t, 's>) -> Result<Tokens<'t, 's>, ReadError>
    ensures { MatchResult result
        (λ rest. (constant_in (tokens_of tokens.entry) ≡ Ok (tt, tokens_of rest))
        × (count_of (tokens_of rest) ≤ count_of (tokens_of tokens.entry)))
        (λ error. constant_in (tokens_of tokens.entry) ≡ Err error) }
{
    match split(tokens) {
        Some((TokenTree::Punct(punct), rest)) if punct.character == ':' => {
            skip_some(End::OfBounds, rest)
        }
        _ => Err(grammar_at(tokens)),
    }
}

/// Returns the tokens after `=` and a default if `=` comes first, and all tokens otherwise. Returns
/// `Grammar` if no default follows `=`.
fn skip_default<'t, 's>(tokens: Tokens<'t, 's>) -> Result<Tokens<'t, 's>, ReadError>
    ensures { MatchResult result
        (λ rest. (default_in (tokens_of tokens.entry) ≡ Ok (tt, tokens_of rest))
        × (count_of (tokens_of rest) ≤ count_of (tokens_of tokens.entry)))
        (λ error. default_in (tokens_of tokens.entry) ≡ Err error) }
{
    match split(tokens) {
        Some((TokenTree::Punct(punct), rest)) if punct.character == '=' => {
            skip_some(End::OfDefault, rest)
        }
        _ => Ok(tokens),
    }
}

/// Returns the tokens after the bounds, the type and the default that can follow the name of a
/// parameter of the kind `kind`.
fn skip_tail<'t, 's>(
    kind: ParameterKind,
    tokens: Tokens<'t, 's>,
) -> Result<Tokens<'t, 's>, ReadError>
    ensures ok { IfOk result
        (λ rest. tail kind (tokens_of tokens.entry) (Ok (tt, tokens_of rest))) }
    ensures shorter { IfOk result
        (λ rest. count_of (tokens_of rest) ≤ count_of (tokens_of tokens.entry)) }
    ensures err { IfErr result (λ error. tail kind (tokens_of tokens.entry) (Err error)) }
{
    match kind {
        ParameterKind::Lifetime => Ok(skip_bounds(tokens)),
        ParameterKind::Type => {
            let rest = skip_default(skip_bounds(tokens))?;
            Ok(rest)
        }
        ParameterKind::Const => {
            let rest = skip_default(skip_constant(tokens)?)?;
            Ok(rest)
        }
    }
}

/// Returns the kind and the name of a parameter, and the tokens after the whole parameter.
fn read_shape<'t, 's>(tokens: Tokens<'t, 's>) -> Result<(Head<'s>, Tokens<'t, 's>), ReadError>
    ensures ok { IfOk result
        (λ read. shape (tokens_of tokens.entry) (Ok (head_value read.0, tokens_of read.1))) }
    ensures shorter { IfOk result
        (λ read. count_of (tokens_of read.1) < count_of (tokens_of tokens.entry)) }
    ensures err { IfErr result (λ error. shape (tokens_of tokens.entry) (Err error)) }
{
    let (_, rest) = read_attributes(tokens)?;
    let (head, rest) = read_head(rest)?;
    let rest = skip_tail(head.kind, rest)?;
    Ok((head, rest))
}

/// Returns the parameter at the front of `tokens`, and the tokens after the parameter.
fn read_parameter<'t, 's>(
    tokens: Tokens<'t, 's>,
) -> Result<(Parameter<'t, 's>, Tokens<'t, 's>), ReadError>
    ensures ok { IfOk result
        (λ read. OneParameter (tokens_of tokens.entry)
        (Ok (parameter_value read.0, tokens_of read.1))) }
    ensures shorter { IfOk result
        (λ read. count_of (tokens_of read.1) < count_of (tokens_of tokens.entry)) }
    ensures err { IfErr result (λ error. OneParameter (tokens_of tokens.entry) (Err error)) }
{
    let (head, rest) = read_shape(tokens)?;
    let run = extent(End::OfDefault, tokens);
    let parameter = Parameter {
        kind: head.kind,
        name: head.name,
        run,
    };
    Ok((parameter, rest))
}

/// Returns the parameters before the closing `>`, and the tokens from this `>` on.
fn read_parameters<'t, 's>(
    alloc: Global,
    tokens: Tokens<'t, 's>,
) -> Result<(Vec<Parameter<'t, 's>>, Tokens<'t, 's>), ReadError>
    ensures ok { IfOk result
        (λ read. Listed (begins_with greater) OneParameter (tokens_of tokens.entry)
        (Ok (map parameter_value read.0.items, tokens_of read.1))) }
    ensures err { IfErr result (Occurs
        (λ error. Listed (begins_with greater) OneParameter (tokens_of tokens.entry) (Err error))) }
{
    let mut list = Vec::new(alloc);
    let mut rest = tokens;
    while !begins_with('>', rest) {
        let (parameter, after) = read_parameter(rest)?;
        let next = skip_comma_or_angle(after)?;
        list.push(parameter)?;
        rest = next;
    }
    Ok((list, rest))
}

/// Returns the tokens after the `>` that must come first. Returns `Grammar` if no `>` comes first.
fn skip_closing<'t, 's>(tokens: Tokens<'t, 's>) -> Result<Tokens<'t, 's>, ReadError>
    ensures { MatchResult result
        (λ rest. closing_in (tokens_of tokens.entry) ≡ Ok (tt, tokens_of rest))
        (λ error. closing_in (tokens_of tokens.entry) ≡ Err error) }
{
    match split(tokens) {
        Some((TokenTree::Punct(punct), rest)) if punct.character == '>' => Ok(rest),
        _ => Err(grammar_at(tokens)),
    }
}

/// Returns the generic parameters in angle brackets, and the tokens after the brackets. Returns no
/// parameters and all tokens if `<` does not come first.
pub(crate) fn read_generics<'t, 's>(
    alloc: Global,
    tokens: Tokens<'t, 's>,
) -> Result<(Vec<Parameter<'t, 's>>, Tokens<'t, 's>), ReadError>
    ensures ok { IfOk result
        (λ read. Generics (tokens_of tokens.entry)
        (Ok (map parameter_value read.0.items, tokens_of read.1))) }
    ensures err { IfErr result (Occurs (λ error. Generics (tokens_of tokens.entry) (Err error))) }
{
    let Some(inside) = after_mark('<', tokens) else {
        return Ok((Vec::new(alloc), tokens));
    };
    let (list, rest) = read_parameters(alloc, inside)?;
    let rest = skip_closing(rest)?;
    Ok((list, rest))
}
