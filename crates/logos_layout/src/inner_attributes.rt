//! Turns the inner documentation comments and the inner attributes at the beginning of a file into
//! plain comments. Used by `logos_expand`.

ghost use Rattle.std.specs.Prelude.{◌≡◌, ◌<◌, IfOk, IfSome, IsTrue, MatchOption, None, Some, string_bytes};
ghost use Rattle.logos_layout.specs.Imports.{FollowsInner, IsInnerText, IsPlainly, Spells, after_brackets, after_inner, after_mark, count_of, is_inner, none, tokens_of};

use crate::comparison::prints_as;
use crate::plain_comments::plain_text;
use logos_token::error::Memory;
use logos_token::token::{Delimiter, TokenError, TokenTree, Tokens, print, tokenize};
use std::alloc::Global;

/// Returns whether a Rust file with the tokens `tokens` begins with an inner documentation comment
/// or an inner attribute.
pub fn has_inner(tokens: Tokens<'_, '_>) -> bool {
    read_inner(tokens).0 > 0
}

/// Returns a Rust file with its leading inner documentation comments and inner attributes turned
/// into plain comments: `//!` becomes `//`, `/*!` becomes `/*`, and `#![..]` is put into `/* */`.
/// Another file can then include the result. The other tokens are unchanged.
///
/// Returns `None` in each of these cases:
///
/// - The file cannot be read into tokens.
/// - The file does not begin with an inner documentation comment or an inner attribute.
/// - The text of an attribute would end the comment around the attribute.
///
/// # Errors
///
/// Returns `Memory` if memory runs out.
pub fn without_inner(alloc: Global, file: &str) -> Result<Option<String>, Memory>
    ensures { IfOk result (λ found. IfSome found
        (λ made. IsPlainly file.now (string_bytes made))) }
{
    match tokenize(alloc, file) {
        Ok(stream) => without_front(alloc, file, stream.run()),
        Err(TokenError::Memory) => Err(Memory),
        Err(_) => Ok(None),
    }
}

/// Returns the result of `without_inner` for the file with the text `file` and the tokens `tokens`.
fn without_front(
    alloc: Global,
    file: &str,
    tokens: Tokens<'_, '_>,
) -> Result<Option<String>, Memory>
    requires { Spells file.now (tokens_of tokens) }
    ensures { IfOk result (λ found. IfSome found
        (λ made. IsPlainly file.now (string_bytes made))) }
{
    let (to, after) = read_inner(tokens);
    let Some((front, rest)) = file.split_at_checked(to) else {
        return Ok(None);
    };
    let Some(plain) = plain_comments(alloc, front)? else {
        return Ok(None);
    };
    let mut made = plain;
    made.push_str(rest)?;
    let printed = print(alloc, after)?;
    if prints_as(alloc, made.as_str(), printed.as_str())? {
        return Ok(Some(made));
    }
    Ok(None)
}

/// Returns the plain comments that replace `front`, a text of inner documentation comments and
/// inner attributes. Returns `None` if `front` is empty or spells other tokens, or if the plain
/// comments would spell tokens.
fn plain_comments(alloc: Global, front: &str) -> Result<Option<String>, Memory>
    ensures { IfOk result (λ found. IfSome found
        (λ plain. IsInnerText front.now × Spells (string_bytes plain) none)) }
{
    if front.is_empty() || !is_inner_text(alloc, front)? {
        return Ok(None);
    }
    let plain = plain_text(alloc, front)?;
    if is_bare(alloc, plain.as_str())? {
        return Ok(Some(plain));
    }
    Ok(None)
}

/// Returns whether a text spells only inner documentation comments and inner attributes. Returns
/// `false` if the text cannot be read into tokens.
fn is_inner_text(alloc: Global, text: &str) -> Result<bool, Memory>
    ensures { IfOk result (λ is. IsTrue is → IsInnerText text.now) }
{
    match tokenize(alloc, text) {
        Ok(stream) => Ok(is_all_inner(stream.run())),
        Err(TokenError::Memory) => Err(Memory),
        Err(_) => Ok(false),
    }
}

/// Returns whether a text spells no tokens. Returns `false` if the text cannot be read into tokens.
fn is_bare(alloc: Global, text: &str) -> Result<bool, Memory>
    ensures { IfOk result (λ is. IsTrue is → Spells text.now none) }
{
    match tokenize(alloc, text) {
        Ok(stream) => Ok(stream.run().is_empty()),
        Err(TokenError::Memory) => Err(Memory),
        Err(_) => Ok(false),
    }
}

/// Returns whether a run consists only of inner documentation comments and inner attributes.
/// Returns `true` for an empty run.
fn is_all_inner(run: Tokens<'_, '_>) -> bool
    ensures { IsTrue result → FollowsInner (tokens_of run.entry) none }
{
    read_inner(run).1.is_empty()
}

/// Returns the byte offset in the source at which the leading inner documentation comments and
/// inner attributes of a run end, and the tokens after them. The offset is 0 if the run begins with
/// neither.
fn read_inner<'t, 's>(run: Tokens<'t, 's>) -> (usize, Tokens<'t, 's>)
    ensures { FollowsInner (tokens_of run.entry) (tokens_of result.1) }
{
    let mut rest = run;
    let mut end = 0;
    while let Some((to, next)) = inner_at(rest) {
        end = to;
        rest = next;
    }
    (end, rest)
}

/// Returns the byte offset in the source at which the inner documentation comment or inner
/// attribute at the beginning of a run ends, and the tokens after this comment or attribute.
/// Returns `None` if the run begins with neither.
fn inner_at<'t, 's>(tokens: Tokens<'t, 's>) -> Option<(usize, Tokens<'t, 's>)>
    ensures { MatchOption result (after_inner (tokens_of tokens.entry) ≡ None)
        (λ read. (after_inner (tokens_of tokens.entry) ≡ Some (tokens_of read.1))
        × (count_of (tokens_of read.1) < count_of (tokens_of tokens.entry))) }
{
    match tokens.first() {
        Some(TokenTree::Doc(doc)) if is_inner(doc.text) => Some((doc.span.to, tokens.rest())),
        Some(TokenTree::Punct(punct)) if punct.character == '#' => marked(tokens.rest()),
        _ => None,
    }
}

/// Returns the byte offset in the source at which the brackets after a leading `!` end, and the
/// tokens after these brackets. Returns `None` if the run does not begin with `!` and brackets.
fn marked<'t, 's>(tokens: Tokens<'t, 's>) -> Option<(usize, Tokens<'t, 's>)>
    ensures { MatchOption result (after_mark (tokens_of tokens.entry) ≡ None)
        (λ read. (after_mark (tokens_of tokens.entry) ≡ Some (tokens_of read.1))
        × (count_of (tokens_of read.1) < count_of (tokens_of tokens.entry))) }
{
    match tokens.first() {
        Some(TokenTree::Punct(punct)) if punct.character == '!' => bracketed(tokens.rest()),
        _ => None,
    }
}

/// Returns the byte offset in the source at which the leading brackets of a run end, and the tokens
/// after these brackets. Returns `None` if the run does not begin with brackets.
fn bracketed<'t, 's>(tokens: Tokens<'t, 's>) -> Option<(usize, Tokens<'t, 's>)>
    ensures { MatchOption result (after_brackets (tokens_of tokens.entry) ≡ None)
        (λ read. (after_brackets (tokens_of tokens.entry) ≡ Some (tokens_of read.1))
        × (count_of (tokens_of read.1) < count_of (tokens_of tokens.entry))) }
{
    match tokens.first() {
        Some(TokenTree::Group(group)) if group.delimiter == Delimiter::Bracket => {
            Some((group.span.to, tokens.rest()))
        }
        _ => None,
    }
}

/// Returns whether a documentation comment is an inner one, that is, whether its third byte is `!`.
fn is_inner(comment: &str) -> bool
    ensures { result ≡ is_inner comment.now }
{
    match comment.as_bytes() {
        [_, _, mark, ..] => *mark == b'!',
        _ => false,
    }
}
