//! Splits a text into its lexemes and gaps. Used by `line_breaks`, `plain_comments` and
//! `without_derive`.

ghost use Rattle.std.specs.Prelude.{◌<◌, IfSome, length};

use logos_lexeme::lexeme::{LexemeKind, lexeme_at};

/// The first lexeme or gap of a text, and the text after it.
#[derive(Clone, Copy)]
pub(crate) struct FirstPiece<'t> {
    pub(crate) kind: LexemeKind,
    pub(crate) piece: &'t str,
    /// The text after the lexeme or gap.
    pub(crate) rest: &'t str,
}

/// Returns the first lexeme or gap of a text, or `None` if the text is empty or its beginning
/// cannot be read into a lexeme.
pub(crate) fn first_piece(text: &str) -> Option<FirstPiece<'_>>
    ensures { IfSome result (λ first. length first.rest.now < length text.now) }
{
    if text.is_empty() {
        return None;
    }
    let Ok((kind, to)) = lexeme_at(text, 0) else {
        return None;
    };
    Some(FirstPiece {
        kind,
        piece: &text[..to],
        rest: &text[to..],
    })
}
