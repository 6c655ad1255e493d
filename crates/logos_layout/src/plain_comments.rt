//! Turns inner documentation comments and inner attributes into plain comments. Used by
//! `inner_attributes`.
//!
//! The result is untrusted: the caller checks that it spells no tokens.

use crate::pieces::first_piece;
use logos_lexeme::lexeme::LexemeKind;
use logos_token::error::Memory;
use std::alloc::Global;

/// Returns the plain comments that replace `text`, a text of inner documentation comments and inner
/// attributes. The result ends before the first byte of `text` that cannot be read into a lexeme.
pub(crate) fn plain_text(alloc: Global, text: &str) -> Result<String, Memory> {
    let mut plain = String::new(alloc);
    let mut depth = 0;
    let mut left = text;
    while let Some(first) = first_piece(left) {
        push_piece(&mut plain, first.kind, first.piece, depth)?;
        depth = depth_after(first.kind, depth);
        left = first.rest;
    }
    Ok(plain)
}

/// Returns the number of open delimiters after a lexeme or gap of the kind `kind`. `depth` is the
/// number of open delimiters before the lexeme or gap.
fn depth_after(kind: LexemeKind, depth: usize) -> usize {
    match kind {
        LexemeKind::Opening(_) => depth.saturating_add(1),
        LexemeKind::Closing(_) => depth.saturating_sub(1),
        _ => depth,
    }
}

/// Appends `piece`, a lexeme or gap inside `depth` open delimiters, to `plain`. Begins a comment
/// before the `#` of an attribute, and ends it after the brackets of the attribute. Turns a
/// documentation comment into a plain comment.
fn push_piece(
    plain: &mut String,
    kind: LexemeKind,
    piece: &str,
    depth: usize,
) -> Result<(), Memory> {
    match (kind, depth) {
        (LexemeKind::Doc, 0) => push_comment(plain, piece),
        (LexemeKind::Punctuation(_), 0) if piece == "#" => push(plain, "/* ", piece),
        (LexemeKind::Closing(_), 1) => push(plain, piece, " */"),
        _ => push(plain, piece, ""),
    }
}

/// Appends `one` and then `other` to `plain`.
fn push(plain: &mut String, one: &str, other: &str) -> Result<(), Memory> {
    plain.push_str(one)?;
    plain.push_str(other)?;
    Ok(())
}

/// Appends an inner documentation comment to `plain` as a plain comment. Any other comment is
/// appended unchanged.
fn push_comment(plain: &mut String, comment: &str) -> Result<(), Memory> {
    if let Some(rest) = comment.strip_prefix("//!") {
        return push(plain, opening("//", rest), rest);
    }
    if let Some(rest) = comment.strip_prefix("/*!") {
        return push(plain, opening("/*", rest), rest);
    }
    push(plain, comment, "")
}

/// Returns `mark`, the beginning of a plain comment with the text `rest`. A blank is added to
/// `mark` if the comment would otherwise be a documentation comment.
fn opening(mark: &'static str, rest: &str) -> &'static str {
    match (mark, rest.as_bytes()) {
        ("//", [b'/' | b'!', ..]) => "// ",
        ("/*", [b'*' | b'!', ..]) => "/* ",
        _ => mark,
    }
}
