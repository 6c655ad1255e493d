//! Defines attributes, and the function `split_attribute`, which splits the first attribute off a
//! run of attributes. Called by the crates that read the attributes of enums and variants.

ghost use Rattle.std.specs.Prelude.{◌≡◌, ◌<◌, Some, None, MatchOption};
ghost use Rattle.logos_enum.specs.Views.{count_of, tokens_of, attribute_in, split_value};

use crate::groups::open_bracket;
use crate::tokens::split;
use logos_token::token::{Span, TokenTree, Tokens};

/// An attribute of an enum, a variant or a field.
#[derive(Clone, Copy)]
pub struct Attribute<'t, 's> {
    /// The span from `#` to the end of the brackets, or the span of the documentation comment.
    pub span: Span,
    /// The tokens inside the brackets. `None` for a documentation comment.
    pub inside: Option<Tokens<'t, 's>>,
}

/// Returns the first attribute of a run of attributes, and the tokens after it. Returns `None` if
/// the run is empty or does not begin with an attribute.
pub fn split_attribute<'t, 's>(
    tokens: Tokens<'t, 's>,
) -> Option<(Attribute<'t, 's>, Tokens<'t, 's>)>
    ensures { MatchOption result (attribute_in (tokens_of tokens.entry) ≡ None)
        (λ read. (attribute_in (tokens_of tokens.entry) ≡ Some (split_value read))
        × (count_of (tokens_of read.1) < count_of (tokens_of tokens.entry))) }
{
    match split(tokens)? {
        (TokenTree::Doc(doc), rest) => {
            let attribute = Attribute {
                span: doc.span,
                inside: None,
            };
            Some((attribute, rest))
        }
        (TokenTree::Punct(punct), rest) => {
            let opened = open_bracket(rest)?;
            let attribute = Attribute {
                span: Span {
                    from: punct.span.from,
                    to: opened.span.to,
                },
                inside: Some(opened.inside),
            };
            Some((attribute, opened.rest))
        }
        _ => None,
    }
}
