//! The entries of a token buffer. `reader` and `views::growing` append entries, and `views` reads
//! them.

use crate::token::{Delimiter, Doc, Ident, Literal, Punct, Span};

/// An entry of a token buffer: a token that is not a group, or the head of a group. The entries of
/// the tokens inside a group follow its head.
#[derive(Clone, Copy)]
pub enum Entry<'s> {
    Ident(Ident<'s>),
    Punct(Punct),
    Literal(Literal<'s>),
    Doc(Doc<'s>),
    /// A group. The `size` entries after this entry are the tokens inside the group.
    Group {
        delimiter: Delimiter,
        span: Span,
        size: usize,
    },
}

impl Entry<'_> {
    ghost use Rattle.std.specs.Prelude.{◌≡◌};
    ghost use Rattle.logos_token.specs.ViewImports.{size_of};

    /// Returns the number of entries inside a group, or 0 for a token that is not a group.
    pub fn size(&self) -> usize
        ensures { result ≡ size_of self.now }
    {
        match self {
            Entry::Group { size, .. } => *size,
            _ => 0,
        }
    }
}
