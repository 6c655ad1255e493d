//! Functions that read or skip the attributes and the visibility at the front of a run. Called by
//! `item`, `variants`, `fields` and `generics`.

ghost use Rattle.std.specs.Prelude.{◌≡◌, ◌<◌, ◌≤◌, List, Ok, Err, Some, None, MatchOption, MatchResult, IfSome, IfOk, IfErr};
ghost use Rattle.logos_enum.specs.Views.{none, also, punctuation, count_of, IsRestOf, tokens_of, tree_of, Grammar, end_mismatch, value_mismatch, path_mismatch, colon_mismatch, segment_mismatch, attribute_mismatch, IsPathStep, after_attributes, after_hash, Attributes, after_parenthesis, after_visibility, after_keyword};

use crate::error::{Mismatch, ReadError};
use crate::tokens::{grammar_at, is_outer, mismatch_at, split};
use logos_token::token::{Delimiter, Punct, Span, TokenTree, Tokens};
use logos_token::util::is_path_mark;

/// Returns a mismatch at the first token if `tokens` is not empty.
fn read_end(tokens: Tokens<'_, '_>) -> Result<(), Mismatch>
    ensures { MatchResult result (λ _. end_mismatch (tokens_of tokens.entry) ≡ None)
        (λ mismatch. end_mismatch (tokens_of tokens.entry) ≡ Some mismatch.span) }
{
    match tokens.first() {
        Some(tree) => Err(Mismatch { span: tree.span() }),
        None => Ok(()),
    }
}

/// Returns a mismatch at `0..0` if `tokens` is empty.
fn read_value(tokens: Tokens<'_, '_>) -> Result<(), Mismatch>
    ensures { MatchResult result (λ _. value_mismatch (tokens_of tokens.entry) ≡ None)
        (λ mismatch. value_mismatch (tokens_of tokens.entry) ≡ Some mismatch.span) }
{
    match split(tokens) {
        Some(_) => Ok(()),
        None => Err(Mismatch {
            span: Span { from: 0, to: 0 },
        }),
    }
}

/// Returns the tokens after the identifier that must come first. Returns a mismatch if no
/// identifier comes first.
fn read_segment<'t, 's>(tokens: Tokens<'t, 's>) -> Result<Tokens<'t, 's>, Mismatch>
    ensures { MatchResult result
        (λ rest. (segment_mismatch (tokens_of tokens.entry) ≡ path_mismatch (tokens_of rest))
        × (count_of (tokens_of rest) < count_of (tokens_of tokens.entry)))
        (λ mismatch. segment_mismatch (tokens_of tokens.entry) ≡ Some mismatch.span) }
{
    match split(tokens) {
        Some((TokenTree::Ident(_), rest)) => Ok(rest),
        _ => Err(mismatch_at(tokens)),
    }
}

/// Returns the tokens after the second `:` of `::` and an identifier, with which `tokens` must
/// begin. `first` is the first `:` of `::`. Returns a mismatch if the second `:` or the identifier
/// is missing. If the second `:` is missing, the mismatch is at `first`.
fn read_colon<'t, 's>(first: Punct, tokens: Tokens<'t, 's>) -> Result<Tokens<'t, 's>, Mismatch>
    ensures { MatchResult result
        (λ rest. (colon_mismatch first.span (tokens_of tokens.entry) ≡ path_mismatch (tokens_of rest))
        × (count_of (tokens_of rest) < count_of (tokens_of tokens.entry)))
        (λ mismatch. colon_mismatch first.span (tokens_of tokens.entry) ≡ Some mismatch.span) }
{
    match split(tokens) {
        Some((TokenTree::Punct(punct), rest)) if punct.character == ':' => read_segment(rest),
        _ => Err(Mismatch { span: first.span }),
    }
}

/// Does the same as [`path_step`] for tokens that begin with `punct`. `tokens` are the tokens after
/// `punct`.
fn path_step_at<'t, 's>(
    punct: Punct,
    tokens: Tokens<'t, 's>,
) -> Result<Option<Tokens<'t, 's>>, Mismatch>
    ensures { IsPathStep (also (punctuation punct.character punct.spacing punct.span)
        (tokens_of tokens.entry)) result }
{
    if is_path_mark(punct) {
        return Ok(Some(read_colon(punct, tokens)?));
    }
    if punct.character == '=' {
        read_value(tokens)?;
        return Ok(None);
    }
    Err(Mismatch { span: punct.span })
}

/// Reads `::` and an identifier, with which the path of an attribute can continue at the front of
/// `tokens`. Returns the tokens after the identifier, or `None` if the path has ended and the
/// attribute is well-formed.
fn path_step<'t, 's>(tokens: Tokens<'t, 's>) -> Result<Option<Tokens<'t, 's>>, Mismatch>
    ensures { IsPathStep (tokens_of tokens.entry) result }
{
    match split(tokens) {
        None => Ok(None),
        Some((TokenTree::Group(_), rest)) => {
            read_end(rest)?;
            Ok(None)
        }
        Some((TokenTree::Punct(punct), rest)) => path_step_at(punct, rest),
        Some((tree, _)) => Err(Mismatch { span: tree.span() }),
    }
}

/// Returns a mismatch if the tokens after the first identifier of an attribute's path are
/// malformed.
fn read_path(tokens: Tokens<'_, '_>) -> Result<(), Mismatch>
    ensures { MatchResult result (λ _. path_mismatch (tokens_of tokens.entry) ≡ None)
        (λ mismatch. path_mismatch (tokens_of tokens.entry) ≡ Some mismatch.span) }
{
    let mut rest = tokens;
    while let Some(next) = path_step(rest)? {
        rest = next;
    }
    Ok(())
}

/// Returns a mismatch if the tokens inside the brackets of an attribute are malformed.
fn check_attribute(tokens: Tokens<'_, '_>) -> Result<(), Mismatch>
    ensures { MatchResult result (λ _. attribute_mismatch (tokens_of tokens.entry) ≡ None)
        (λ mismatch. attribute_mismatch (tokens_of tokens.entry) ≡ Some mismatch.span) }
{
    match split(tokens) {
        Some((TokenTree::Ident(_), rest)) => read_path(rest),
        Some((TokenTree::Punct(punct), rest)) if is_path_mark(punct) => {
            let rest = read_colon(punct, rest)?;
            read_path(rest)
        }
        _ => Err(mismatch_at(tokens)),
    }
}

/// Returns the tokens after the brackets of an attribute. `tokens` are the tokens after the `#` of
/// the attribute. Returns `Grammar` if there are no brackets, or the tokens inside them are
/// malformed.
fn skip_brackets<'t, 's>(tokens: Tokens<'t, 's>) -> Result<Tokens<'t, 's>, ReadError>
    ensures value { MatchResult result
        (λ rest. (after_hash (tokens_of tokens.entry) ≡ after_attributes (tokens_of rest))
        × (count_of (tokens_of rest) < count_of (tokens_of tokens.entry)))
        (λ error. after_hash (tokens_of tokens.entry) ≡ Err error) }
    ensures front { IfOk result (λ rest. IsRestOf (tokens_of tokens.entry) (tokens_of rest)) }
{
    match split(tokens) {
        Some((TokenTree::Group(group), rest)) if group.delimiter == Delimiter::Bracket => {
            match check_attribute(group.run()) {
                Ok(()) => Ok(rest),
                Err(found) => Err(ReadError::Grammar { span: found.span }),
            }
        }
        _ => Err(grammar_at(tokens)),
    }
}

/// Returns the tokens after the attribute that comes first. Returns `None` if neither `#` nor an
/// outer documentation comment comes first.
fn skip_attribute<'t, 's>(tokens: Tokens<'t, 's>) -> Result<Option<Tokens<'t, 's>>, ReadError>
    ensures value { MatchResult result
        (λ found. MatchOption found
        (after_attributes (tokens_of tokens.entry) ≡ Ok (tokens_of tokens.entry))
        (λ rest. (after_attributes (tokens_of tokens.entry) ≡ after_attributes (tokens_of rest))
        × (count_of (tokens_of rest) < count_of (tokens_of tokens.entry))))
        (λ error. after_attributes (tokens_of tokens.entry) ≡ Err error) }
    ensures front { IfOk result (λ found. IfSome found
        (λ rest. IsRestOf (tokens_of tokens.entry) (tokens_of rest))) }
{
    match split(tokens) {
        Some((TokenTree::Punct(punct), rest)) if punct.character == '#' => {
            Ok(Some(skip_brackets(rest)?))
        }
        Some((TokenTree::Doc(doc), rest)) if is_outer(doc.text) => Ok(Some(rest)),
        _ => Ok(None),
    }
}

/// Returns the attributes at the front of `tokens`, and the tokens after the attributes.
pub(crate) fn read_attributes<'t, 's>(
    tokens: Tokens<'t, 's>,
) -> Result<(Tokens<'t, 's>, Tokens<'t, 's>), ReadError>
    ensures ok { IfOk result
        (λ read. Attributes (tokens_of tokens.entry) (Ok (tokens_of read.0, tokens_of read.1))) }
    ensures shorter { IfOk result
        (λ read. count_of (tokens_of read.1) ≤ count_of (tokens_of tokens.entry)) }
    ensures err { IfErr result (λ error. Attributes (tokens_of tokens.entry) (Err error)) }
{
    let mut rest = tokens;
    while let Some(next) = skip_attribute(rest)? {
        rest = next;
    }
    Ok((tokens.before(rest), rest))
}

/// Returns the tokens after a group in parentheses if `tokens` begins with such a group, and all
/// tokens otherwise.
fn skip_parenthesis<'t, 's>(tokens: Tokens<'t, 's>) -> Tokens<'t, 's>
    ensures value { tokens_of result ≡ after_parenthesis (tokens_of tokens.entry) }
    ensures shorter { count_of (tokens_of result) ≤ count_of (tokens_of tokens.entry) }
{
    match split(tokens) {
        Some((TokenTree::Group(group), rest)) if group.delimiter == Delimiter::Parenthesis => rest,
        _ => tokens,
    }
}

/// Returns the tokens after a visibility if `tokens` begins with a visibility, and all tokens
/// otherwise.
pub fn skip_visibility<'t, 's>(tokens: Tokens<'t, 's>) -> Tokens<'t, 's>
    ensures value { tokens_of result ≡ after_visibility (tokens_of tokens.entry) }
    ensures shorter { count_of (tokens_of result) ≤ count_of (tokens_of tokens.entry) }
{
    match split(tokens) {
        Some((TokenTree::Ident(word), rest)) if word.text == "pub" => skip_parenthesis(rest),
        _ => tokens,
    }
}

/// Returns the tokens after `enum`, or `None` if `enum` does not come first.
pub(crate) fn skip_keyword<'t, 's>(tokens: Tokens<'t, 's>) -> Option<Tokens<'t, 's>>
    ensures { MatchOption result (after_keyword (tokens_of tokens.entry) ≡ None)
        (λ rest. after_keyword (tokens_of tokens.entry) ≡ Some (tokens_of rest)) }
{
    match split(tokens) {
        Some((TokenTree::Ident(word), rest)) if word.text == "enum" => Some(rest),
        _ => None,
    }
}
