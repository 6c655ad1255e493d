//! Reads the names and the arguments of attributes. The readers of enums and variants distinguish
//! attributes by the result of `meta_of`.

ghost use Rattle.std.specs.Prelude.{◌≡◌, MatchOption, None, Some};
ghost use Rattle.logos_definition.specs.Views.{tokens_of, ident_slice, attribute_value, after_name, meta_of, meta_view};

use logos_attribute::nested::split;
use logos_enum::Attribute;
use logos_token::token::{Ident, TokenTree, Tokens};

/// An attribute whose path is one identifier.
#[derive(Clone, Copy)]
pub struct Meta<'t, 's> {
    pub name: Ident<'s>,
    /// The tokens inside the group after the name, or `None` if no group follows.
    pub arguments: Option<Tokens<'t, 's>>,
}

/// Returns the attribute with the name `name`. `tokens` are the tokens after the name. Returns
/// `None` if the path of the attribute continues with `:`.
fn after_name<'t, 's>(name: Ident<'s>, tokens: Tokens<'t, 's>) -> Option<Meta<'t, 's>>
    ensures { MatchOption result
        (after_name (ident_slice name.entry) (tokens_of tokens.entry) ≡ None)
        (λ meta. after_name (ident_slice name.entry) (tokens_of tokens.entry)
        ≡ Some (meta_view meta)) }
{
    match tokens.first() {
        Some(TokenTree::Group(group)) => Some(Meta {
            name,
            arguments: Some(group.run()),
        }),
        Some(TokenTree::Punct(punct)) if punct.character == ':' => None,
        _ => Some(Meta {
            name,
            arguments: None,
        }),
    }
}

/// Returns the name and the arguments of an attribute. Returns `None` for a documentation comment,
/// and for an attribute whose path is not one identifier.
pub fn meta_of<'t, 's>(attribute: Attribute<'t, 's>) -> Option<Meta<'t, 's>>
    ensures { MatchOption result
        (meta_of (attribute_value attribute.entry) ≡ None)
        (λ meta. meta_of (attribute_value attribute.entry) ≡ Some (meta_view meta)) }
{
    match split(attribute.inside?)? {
        (TokenTree::Ident(name), rest) => after_name(name, rest),
        _ => None,
    }
}
