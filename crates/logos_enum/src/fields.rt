//! Functions that read the fields of a variant. Called by `variants`.

ghost use Rattle.std.specs.Prelude.{◌≡◌, ◌<◌, ◌≤◌, List, map, Ok, Err, None, MatchOption, IfSome, MatchResult, IfOk, IfErr};
ghost use Rattle.logos_enum.specs.Views.{none, count_of, tokens_of, error_is, FieldType, colon_in, label, field, fields, Holding, typed_value, field_value, fields_value, parenthesis_in, Occurs};

use crate::attributes::{read_attributes, skip_visibility};
use crate::error::ReadError;
use crate::extents::{End, extent};
use crate::groups::{open_brace, open_parenthesis};
use crate::tokens::{grammar_at, read_name, skip_comma, split};
use logos_token::token::{Span, TokenTree, Tokens};
use logos_type::TypeExpr;
use logos_type_reader::{TypeFault, read_type};
use std::alloc::Global;

/// A field of a variant.
#[derive(Drop)]
pub struct Field<'t, 's> {
    /// The attributes of the field.
    pub attributes: Tokens<'t, 's>,
    pub field_type: TypeExpr<'s>,
    /// The tokens of the field's type.
    pub run: Tokens<'t, 's>,
}

/// The fields of a variant. Each span is the span of the parentheses or of the braces.
#[derive(Drop)]
pub enum Fields<'t, 's> {
    /// No fields.
    Unit,
    /// Fields in parentheses.
    Tuple(Span, Vec<Field<'t, 's>>),
    /// Named fields, in braces.
    Named(Span, Vec<Field<'t, 's>>),
}

/// The type of a field, and the tokens of the type.
#[derive(Drop)]
pub(crate) struct Typed<'t, 's> {
    field_type: TypeExpr<'s>,
    run: Tokens<'t, 's>,
}

/// Converts the fault of a field's type to an error. `run` contains the tokens of the type. If too
/// many types are nested, the error has the span of `run`.
fn error_of(run: Tokens<'_, '_>, fault: TypeFault) -> ReadError
    ensures { error_is (tokens_of run.entry) fault result }
{
    match fault {
        TypeFault::Unsupported { span } => ReadError::TypeUnsupported { span },
        TypeFault::Mismatch { span } => ReadError::Grammar { span },
        TypeFault::LimitNesting => ReadError::LimitTypeNesting { span: run.span() },
        TypeFault::Memory => ReadError::Memory,
    }
}

/// Reads the type of a field. Returns the type with its tokens, and the tokens after the type.
fn read_typed<'t, 's>(
    alloc: Global,
    tokens: Tokens<'t, 's>,
) -> Result<(Typed<'t, 's>, Tokens<'t, 's>), ReadError>
    ensures ok { IfOk result
        (λ read. FieldType (tokens_of tokens.entry) (Ok (typed_value read.0, tokens_of read.1))) }
    ensures shorter { IfOk result
        (λ read. count_of (tokens_of read.1) < count_of (tokens_of tokens.entry)) }
    ensures err { IfErr result (Occurs (λ error. FieldType (tokens_of tokens.entry) (Err error))) }
{
    let run = extent(End::OfField, tokens);
    match read_type(alloc, tokens) {
        Ok((field_type, rest)) => Ok((Typed { field_type, run }, rest)),
        Err(fault) => Err(error_of(run, fault)),
    }
}

/// Returns the tokens after the `:` that must come first. Returns `Grammar` if no `:` comes first.
fn skip_colon<'t, 's>(tokens: Tokens<'t, 's>) -> Result<Tokens<'t, 's>, ReadError>
    ensures { MatchResult result
        (λ rest. (colon_in (tokens_of tokens.entry) ≡ Ok (tt, tokens_of rest))
        × (count_of (tokens_of rest) ≤ count_of (tokens_of tokens.entry)))
        (λ error. colon_in (tokens_of tokens.entry) ≡ Err error) }
{
    match split(tokens) {
        Some((TokenTree::Punct(punct), rest)) if punct.character == ':' => Ok(rest),
        _ => Err(grammar_at(tokens)),
    }
}

/// Returns the tokens after the name of a field and `:` if `named` is `true`, and all tokens
/// otherwise. Returns `Grammar` if the name or `:` is missing.
fn skip_label<'t, 's>(named: bool, tokens: Tokens<'t, 's>) -> Result<Tokens<'t, 's>, ReadError>
    ensures ok { IfOk result
        (λ rest. label named (tokens_of tokens.entry) (Ok (tt, tokens_of rest))) }
    ensures shorter { IfOk result
        (λ rest. count_of (tokens_of rest) ≤ count_of (tokens_of tokens.entry)) }
    ensures err { IfErr result (λ error. label named (tokens_of tokens.entry) (Err error)) }
{
    if !named {
        return Ok(tokens);
    }
    let (_, rest) = read_name(tokens)?;
    let rest = skip_colon(rest)?;
    Ok(rest)
}

/// Returns the field at the front of `tokens`, and the tokens after the field. `named` states
/// whether the field must have a name.
fn read_field<'t, 's>(
    alloc: Global,
    named: bool,
    tokens: Tokens<'t, 's>,
) -> Result<(Field<'t, 's>, Tokens<'t, 's>), ReadError>
    ensures ok { IfOk result
        (λ read. field named (tokens_of tokens.entry) (Ok (field_value read.0, tokens_of read.1))) }
    ensures shorter { IfOk result
        (λ read. count_of (tokens_of read.1) < count_of (tokens_of tokens.entry)) }
    ensures err { IfErr result (Occurs
        (λ error. field named (tokens_of tokens.entry) (Err error))) }
{
    let (attributes, visible) = read_attributes(tokens)?;
    let labelled = skip_label(named, skip_visibility(visible))?;
    let (typed, rest) = read_typed(alloc, labelled)?;
    let field = Field {
        attributes,
        field_type: typed.field_type,
        run: typed.run,
    };
    Ok((field, rest))
}

/// Returns the fields of a variant. `tokens` are the tokens inside the parentheses or the braces.
/// `named` states whether the fields must have names. Returns the first fault if a token belongs to
/// no field.
fn read_fields<'t, 's>(
    alloc: Global,
    named: bool,
    tokens: Tokens<'t, 's>,
) -> Result<Vec<Field<'t, 's>>, ReadError>
    ensures ok { IfOk result
        (λ list. fields named (tokens_of tokens.entry) (Ok (map field_value list.items, none))) }
    ensures err { IfErr result (Occurs
        (λ error. fields named (tokens_of tokens.entry) (Err error))) }
{
    let mut list = Vec::new(alloc);
    let mut rest = tokens;
    while !rest.is_empty() {
        let (field, after) = read_field(alloc, named, rest)?;
        let next = skip_comma(after)?;
        list.push(field)?;
        rest = next;
    }
    Ok(list)
}

/// Returns the fields in parentheses, and the tokens after the parentheses. Returns `None` if
/// `tokens` does not begin with a group in parentheses.
fn read_tuple<'t, 's>(
    alloc: Global,
    tokens: Tokens<'t, 's>,
) -> Result<Option<(Fields<'t, 's>, Tokens<'t, 's>)>, ReadError>
    ensures ok { IfOk result
        (λ found. MatchOption found (parenthesis_in (tokens_of tokens.entry) ≡ None)
        (λ read. Holding (tokens_of tokens.entry) (Ok (fields_value read.0, tokens_of read.1)))) }
    ensures shorter { IfOk result (λ found. IfSome found
        (λ read. count_of (tokens_of read.1) ≤ count_of (tokens_of tokens.entry))) }
    ensures err { IfErr result (Occurs (λ error. Holding (tokens_of tokens.entry) (Err error))) }
{
    let Some(opened) = open_parenthesis(tokens) else {
        return Ok(None);
    };
    let list = read_fields(alloc, false, opened.inside)?;
    Ok(Some((Fields::Tuple(opened.span, list), opened.rest)))
}

/// Returns the fields in braces, and the tokens after the braces. Returns `Unit` and all tokens if
/// `tokens` does not begin with a group in braces. `tokens` must not begin with a group in
/// parentheses.
fn read_named<'t, 's>(
    alloc: Global,
    tokens: Tokens<'t, 's>,
) -> Result<(Fields<'t, 's>, Tokens<'t, 's>), ReadError>
    requires { parenthesis_in (tokens_of tokens) ≡ None }
    ensures ok { IfOk result
        (λ read. Holding (tokens_of tokens.entry) (Ok (fields_value read.0, tokens_of read.1))) }
    ensures shorter { IfOk result
        (λ read. count_of (tokens_of read.1) ≤ count_of (tokens_of tokens.entry)) }
    ensures err { IfErr result (Occurs (λ error. Holding (tokens_of tokens.entry) (Err error))) }
{
    let Some(opened) = open_brace(tokens) else {
        return Ok((Fields::Unit, tokens));
    };
    let list = read_fields(alloc, true, opened.inside)?;
    Ok((Fields::Named(opened.span, list), opened.rest))
}

/// Returns the fields that follow the name of a variant, and the tokens after the fields.
pub(crate) fn read_holding<'t, 's>(
    alloc: Global,
    tokens: Tokens<'t, 's>,
) -> Result<(Fields<'t, 's>, Tokens<'t, 's>), ReadError>
    ensures ok { IfOk result
        (λ read. Holding (tokens_of tokens.entry) (Ok (fields_value read.0, tokens_of read.1))) }
    ensures shorter { IfOk result
        (λ read. count_of (tokens_of read.1) ≤ count_of (tokens_of tokens.entry)) }
    ensures err { IfErr result (Occurs (λ error. Holding (tokens_of tokens.entry) (Err error))) }
{
    let found = read_tuple(alloc, tokens)?;
    match found {
        Some(read) => Ok(read),
        None => read_named(alloc, tokens),
    }
}
