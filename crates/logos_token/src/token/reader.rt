//! The function `tokenize`, which reads a source text into tokens. Every crate that reads a source
//! calls this function first.

ghost use Rattle.std.specs.Prelude.{◌≡◌, ℕ, ◌<◌, ◌≤◌, ◌↔◌, List, [], ◌∷◌, ◌++◌, map, length, IfOk, IfErr, OnOk, MatchResult, IsTrue};
ghost use Rattle.logos_token.specs.ViewImports.{source_limit, delimiter_limit, IsCharBoundary, IsNext, TokenList, depth_of, Spells, RunOccurs, Memory, value_of, stream_tokens, IsRead, ReadsOn, RefusesAt, SpellsAtEnd, RefusesAtEnd, IsRefusal, SpellsNothing, IsErrOf};

use crate::token::entry::Entry;
use crate::token::views::TokenStream;
use crate::token::{Delimiter, Doc, Ident, Literal, Punct, Span};
use logos_lexeme::lexeme::{LexemeKind, LexicalKind, lexeme_at};
use std::alloc::{AllocError, AllocFailed, Global};

/// The greatest length of a source, in bytes.
const MAX_SOURCE: usize = 16_777_216;

/// The greatest number of delimiters that can be open at once.
const MAX_NESTING: usize = 128;

/// The reason why a source text cannot be read into tokens.
#[derive(Clone, Copy, Debug, PartialEq, Eq)]
pub enum TokenError {
    /// The first fault of the source, from the left.
    Lexical { kind: LexicalKind, span: Span },
    /// The source is longer than 16,777,216 bytes.
    LimitSource,
    /// More than 128 delimiters are open at this opening delimiter.
    LimitTokenNesting { span: Span },
    /// Memory ran out.
    Memory,
}

impl From<AllocError> for TokenError {
    ghost from_gives = { λ _ error. error ≡ Memory };

    fn from(_error: AllocError) -> TokenError {
        TokenError::Memory
    }
}

impl<T: Drop> From<AllocFailed<T>> for TokenError {
    ghost from_gives = { λ _ error. error ≡ Memory };

    fn from(_error: AllocFailed<T>) -> TokenError {
        TokenError::Memory
    }
}

/// A group whose closing delimiter has not been read yet.
#[derive(Clone, Copy)]
struct OpenGroup {
    delimiter: Delimiter,
    /// The span of the opening delimiter.
    span: Span,
    /// The index of the group's entry in the list of entries.
    spot: usize,
}

/// Returns whether the delimiter `closing` closes a group that `opening` opened.
fn is_partner(opening: Delimiter, closing: Delimiter) -> bool
    ensures { IsTrue result ↔ (opening ≡ closing) }
{
    opening == closing
}

/// Appends the entry of a group to `entries`, and the group to `open_groups`. `span` is the span of
/// the group's opening delimiter. Returns `LimitTokenNesting` if 128 groups are already open.
fn begin_group(
    entries: &mut Vec<Entry<'_>>,
    open_groups: &mut Vec<OpenGroup>,
    delimiter: Delimiter,
    span: Span,
) -> Result<(), TokenError>
    ensures ok { ReadsOn (LexemeKind.Opening delimiter) span
        entries.old.items open_groups.old.items entries.new.items open_groups.new.items result }
    ensures err { RefusesAt (LexemeKind.Opening delimiter) span
        entries.old.items open_groups.old.items result }
{
    if open_groups.len() >= MAX_NESTING {
        return Err(TokenError::LimitTokenNesting { span });
    }
    open_groups.push(OpenGroup {
        delimiter,
        span,
        spot: entries.len(),
    })?;
    entries.push(Entry::Group {
        delimiter,
        span,
        size: 0,
    })?;
    Ok(())
}

/// Ends the innermost open group at the closing delimiter with the span `span`, and sets the span
/// and the size of the group's entry. Returns `Unbalanced` at `span` if no group is open or the
/// delimiters differ.
fn end_group(
    entries: &mut Vec<Entry<'_>>,
    open_groups: &mut Vec<OpenGroup>,
    delimiter: Delimiter,
    span: Span,
) -> Result<(), TokenError>
    requires { (bytes : List ℕ) ×
        IsRead bytes span.from (map value_of entries.old.items) open_groups.old.items }
    ensures ok { ReadsOn (LexemeKind.Closing delimiter) span
        entries.old.items open_groups.old.items entries.new.items open_groups.new.items result }
    ensures err { RefusesAt (LexemeKind.Closing delimiter) span
        entries.old.items open_groups.old.items result }
{
    let unbalanced = TokenError::Lexical {
        kind: LexicalKind::Unbalanced,
        span,
    };
    let Some(group) = open_groups.pop() else {
        return Err(unbalanced);
    };
    if !is_partner(group.delimiter, delimiter) {
        return Err(unbalanced);
    }
    let size = entries.len() - group.spot - 1;
    entries[group.spot] = Entry::Group {
        delimiter,
        span: Span {
            from: group.span.from,
            to: span.to,
        },
        size,
    };
    Ok(())
}

/// Appends the entry of a token that is not a group to `entries`.
fn push<'s>(entries: &mut Vec<Entry<'s>>, entry: Entry<'s>) -> Result<(), TokenError>
    ensures ok { OnOk result (entries.new.items ≡ entries.old.items ++ entry.entry ∷ []) }
    ensures err { IfErr result (λ error. error ≡ TokenError.Memory) }
{
    entries.push(entry)?;
    Ok(())
}

/// Adds the lexeme of the kind `kind` at `span` of `source` to `entries`, and opens or ends a group
/// if the lexeme is a delimiter. Adds nothing for a gap.
fn add<'s>(
    entries: &mut Vec<Entry<'s>>,
    open_groups: &mut Vec<OpenGroup>,
    source: &'s str,
    kind: LexemeKind,
    span: Span,
) -> Result<(), TokenError>
    requires from_boundary { IsCharBoundary source.now span.from }
    requires to_boundary { IsCharBoundary source.now span.to }
    requires next { IsNext source.now span.from kind span.to }
    requires read { IsRead source.now span.from
        (map value_of entries.old.items) open_groups.old.items }
    ensures ok { OnOk result
        (IsRead source.now span.to (map value_of entries.new.items) open_groups.new.items) }
    ensures err { IfErr result (IsRefusal source.now) }
{
    match kind {
        LexemeKind::Gap => Ok(()),
        LexemeKind::Opening(delimiter) => begin_group(entries, open_groups, delimiter, span),
        LexemeKind::Closing(delimiter) => end_group(entries, open_groups, delimiter, span),
        LexemeKind::Identifier => {
            let text = &source[span.from..span.to];
            push(entries, Entry::Ident(Ident { text, span }))
        }
        LexemeKind::Literal => {
            let text = &source[span.from..span.to];
            push(entries, Entry::Literal(Literal { text, span }))
        }
        LexemeKind::Doc => {
            let text = &source[span.from..span.to];
            push(entries, Entry::Doc(Doc { text, span }))
        }
        LexemeKind::Punctuation(spacing) => {
            let character = char::from(source.as_bytes()[span.from]);
            push(
                entries,
                Entry::Punct(Punct {
                    character,
                    spacing,
                    span,
                }),
            )
        }
    }
}

/// Returns the tokens of a source that was read to its end. Returns `Unbalanced` at the innermost
/// open delimiter if a group is still open.
fn finish<'s>(
    entries: Vec<Entry<'s>>,
    mut open_groups: Vec<OpenGroup>,
) -> Result<TokenStream<'s>, TokenError>
    requires { (bytes : List ℕ) ×
        IsRead bytes (length bytes) (map value_of entries.items) open_groups.items }
    ensures ok { SpellsAtEnd entries.entry.items open_groups.items result }
    ensures err { RefusesAtEnd entries.entry.items open_groups.items result }
{
    match open_groups.pop() {
        Some(group) => Err(TokenError::Lexical {
            kind: LexicalKind::Unbalanced,
            span: group.span,
        }),
        None => Ok(TokenStream::from_entries(entries)),
    }
}

/// Returns the tokens of a source text.
///
/// # Errors
///
/// Returns:
///
/// - `LimitSource` if the source is longer than 16,777,216 bytes. The source is then not read.
/// - `Lexical` with the first fault from the left. A delimiter that is never closed counts as a
///   fault at the end of the source.
/// - `LimitTokenNesting` at the first opening delimiter at which more than 128 delimiters are open.
/// - `Memory` if memory runs out.
pub fn tokenize<'s>(alloc: Global, src: &'s str) -> Result<TokenStream<'s>, TokenError>
    ensures ok { IfOk result (λ stream. Spells src.now (stream_tokens stream)) }
    ensures shallow { IfOk result (λ stream. depth_of (stream_tokens stream) ≤ delimiter_limit) }
    ensures limit { IsErrOf result TokenError.LimitSource ↔ (source_limit < length src.now) }
    ensures err { IfErr result (IsRefusal src.now) }
    ensures only { IfErr result (SpellsNothing src.now) }
    ensures complete { (tokens : TokenList) →
        Spells src.now tokens → length src.now ≤ source_limit → depth_of tokens ≤ delimiter_limit →
        MatchResult result (λ stream. stream_tokens stream ≡ tokens)
        (λ error. error ≡ TokenError.Memory) }
{
    if src.len() > MAX_SOURCE {
        return Err(TokenError::LimitSource);
    }
    let mut entries = Vec::new(alloc);
    let mut open_groups = Vec::new(alloc);
    let mut from = 0;
    while from < src.len() {
        let (kind, to) = match lexeme_at(src, from) {
            Ok(next) => next,
            Err((kind, span)) => return Err(TokenError::Lexical { kind, span }),
        };
        add(&mut entries, &mut open_groups, src, kind, Span { from, to })?;
        from = to;
    }
    finish(entries, open_groups)
}

/// A source spells at most one run of tokens.
pub fn spells_once()
    ensures { (bytes : List ℕ) (tokens other : TokenList) →
        Spells bytes tokens → Spells bytes other → tokens ≡ other }
{}

/// The tokens that a source spells occur in the source in the same order. The text of each token is
/// the text of the source at the token's span.
pub fn spelled_in_order()
    ensures { (bytes : List ℕ) (tokens : TokenList) →
        Spells bytes tokens → RunOccurs bytes 0 tokens (length bytes) }
{}
