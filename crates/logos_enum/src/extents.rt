//! Functions that find the extents of bounds, defaults and types. An extent consists of the tokens
//! up to the token that ends the extent. Called by `generics` and `fields`.

ghost use Rattle.std.specs.Prelude.{◌≡◌, ◌+◌, ◌<◌, ◌≤◌, MatchOption};
ghost use Rattle.logos_enum.specs.Views.{TokenList, also, punctuation, count_of, append, IsRestOf, tokens_of, ends, begins_arrow, depth_after, is_end, after_from, after_extent, after_generics, IsStep};

use crate::tokens::{after_mark, split};
use logos_token::token::{Punct, Spacing, TokenTree, Tokens};

/// The maximum number of open angle brackets.
const MOST: usize = usize::MAX;

/// A construct that has an extent.
#[derive(Clone, Copy)]
pub(crate) enum End {
    /// The bounds of a parameter, or the type of a constant. The extent ends before a comma, `=` or
    /// `>`.
    OfBounds,
    /// A default, or a whole parameter. The extent ends before a comma or `>`.
    OfDefault,
    /// The type of a field. The extent ends before a comma.
    OfField,
    /// All generic parameters. The extent ends before `>`.
    OfParameters,
}

/// The angle brackets before a token. `depth` is the number of open angle brackets, and `arrow` is
/// `true` if the preceding token is a `-` that can begin `->`.
#[derive(Clone, Copy)]
struct Angles {
    depth: usize,
    arrow: bool,
}

/// Returns whether the punctuation `character` ends the extent of `end` outside angle brackets.
pub(crate) fn ends(end: End, character: char) -> bool
    ensures { result ≡ ends end character }
{
    match end {
        End::OfBounds => (character == ',') | (character == '>') | (character == '='),
        End::OfDefault => (character == ',') | (character == '>'),
        End::OfField => character == ',',
        End::OfParameters => character == '>',
    }
}

/// Returns whether `punct` can be the first character of `->`.
fn begins_arrow(punct: Punct) -> bool
    ensures { result ≡ begins_arrow punct.character punct.spacing }
{
    match punct.spacing {
        Spacing::Joint => punct.character == '-',
        Spacing::Alone => false,
    }
}

/// Returns whether the punctuation `character` ends the extent of `end`. `angles` describes the
/// angle brackets before `character`.
fn is_end(end: End, angles: Angles, character: char) -> bool
    ensures { result ≡ is_end end angles.arrow angles.depth character }
{
    (angles.depth == 0) & (ends(end, character) & !(angles.arrow & (character == '>')))
}

/// Returns the number of angle brackets that are open after the punctuation `character`.
fn depth_after(angles: Angles, character: char) -> usize
    requires { angles.depth < MOST }
    ensures value { result ≡ depth_after angles.arrow angles.depth character }
    ensures bound { result ≤ angles.depth + 1 }
{
    if character == '<' {
        return angles.depth + 1;
    }
    if (character == '>') & !angles.arrow {
        return angles.depth.saturating_sub(1);
    }
    angles.depth
}

/// Returns the tokens after the first token of `tokens`, and the angle brackets that are open after
/// the first token. Returns `None` if the extent ends before the first token, or `tokens` is empty.
fn skip_token<'t, 's>(
    end: End,
    angles: Angles,
    tokens: Tokens<'t, 's>,
) -> Option<(Angles, Tokens<'t, 's>)>
    requires { angles.depth + count_of (tokens_of tokens) ≤ MOST }
    ensures { MatchOption result
        (after_from end angles.arrow angles.depth (tokens_of tokens.entry)
        ≡ tokens_of tokens.entry)
        (λ read. IsStep end angles (tokens_of tokens.entry) read.0 (tokens_of read.1)) }
{
    match split(tokens)? {
        (TokenTree::Punct(punct), rest) => {
            if is_end(end, angles, punct.character) {
                return None;
            }
            let depth = depth_after(angles, punct.character);
            let arrow = begins_arrow(punct);
            Some((Angles { depth, arrow }, rest))
        }
        (_, rest) => Some((
            Angles {
                depth: angles.depth,
                arrow: false,
            },
            rest,
        )),
    }
}

/// Returns the tokens after the extent of `end` that begins at the front of `tokens`.
pub(crate) fn skip_extent<'t, 's>(end: End, tokens: Tokens<'t, 's>) -> Tokens<'t, 's>
    ensures value { tokens_of result ≡ after_extent end (tokens_of tokens.entry) }
    ensures shorter { count_of (tokens_of result) ≤ count_of (tokens_of tokens.entry) }
    ensures front { IsRestOf (tokens_of tokens.entry) (tokens_of result) }
{
    // The number of tokens bounds the number of open angle brackets, so that a `usize` can count
    // them.
    if tokens.count() == 0 {
        return tokens;
    }
    let mut angles = Angles {
        depth: 0,
        arrow: false,
    };
    let mut rest = tokens;
    while let Some((next, after)) = skip_token(end, angles, rest) {
        angles = next;
        rest = after;
    }
    rest
}

/// Returns the tokens from the closing `>` of the generic parameters on, or no tokens if there is
/// no closing `>`. Returns all tokens if `<` does not come first.
pub fn skip_generics<'t, 's>(tokens: Tokens<'t, 's>) -> Tokens<'t, 's>
    ensures { tokens_of result ≡ after_generics (tokens_of tokens.entry) }
{
    match after_mark('<', tokens) {
        Some(rest) => skip_extent(End::OfParameters, rest),
        None => tokens,
    }
}

/// Returns the tokens of the extent of `end` that begins at the front of `tokens`.
pub(crate) fn extent<'t, 's>(end: End, tokens: Tokens<'t, 's>) -> Tokens<'t, 's>
    ensures { tokens_of tokens.entry ≡
        append (tokens_of result) (after_extent end (tokens_of tokens.entry)) }
{
    tokens.before(skip_extent(end, tokens))
}
