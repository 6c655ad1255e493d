//! Helper functions that compare and convert tokens. The readers of enums and attributes call them.

ghost use Rattle.std.specs.Prelude.{◌≡◌, IfOk, string_bytes};
ghost use Rattle.logos_token.specs.ViewImports.{tree_of, is_alone, unless_alone, maybe_printed};

mod escaping;
mod first;
mod near;

use crate::error::Memory;
use crate::token::{Ident, Spacing, Span, TokenStream, TokenTree, print};
pub use escaping::push_escaped;
pub use first::{after_path_mark, after_word, begins_with, is_path_mark};
pub use near::is_near;
use std::alloc::Global;
use std::mem;

/// Returns whether `tree` is the punctuation `expected` with the spacing `Alone`.
pub fn is_punct(tree: &TokenTree<'_, '_>, expected: char) -> bool
    ensures { result ≡ is_alone expected (tree_of tree.now) }
{
    match tree {
        TokenTree::Punct(punct) => {
            punct.spacing == Spacing::Alone && punct.character == expected
        }
        _ => false,
    }
}

/// Returns `None` if `tree` is the punctuation `expected` with the spacing `Alone`, and `tree`
/// otherwise.
pub fn expect_punct<'t, 's>(
    tree: Option<TokenTree<'t, 's>>,
    expected: char,
) -> Option<TokenTree<'t, 's>>
    ensures { result ≡ unless_alone expected tree.entry }
{
    let tree = tree?;
    if is_punct(&tree, expected) {
        None
    } else {
        Some(tree)
    }
}

/// A conversion of a text to an identifier.
pub trait ToIdent<'a> {
    /// Returns the identifier with this text. The identifier does not occur in the source, and its
    /// span is `0..0`.
    fn to_ident(self) -> Ident<'a>;
}

impl<'a> ToIdent<'a> for &'a str {
    fn to_ident(self) -> Ident<'a>
        ensures text { result.text.now ≡ self.entry.now }
        ensures span { result.span ≡ record { from = 0; to = 0 } }
    {
        Ident {
            text: self,
            span: Span { from: 0, to: 0 },
        }
    }
}

/// A stream of tokens, or `Void` if there is no stream. `Void` is printed as `( )`.
#[derive(Drop)]
pub enum MaybeVoid<'s> {
    Some(TokenStream<'s>),
    Void,
}

impl<'s> MaybeVoid<'s> {
    /// Replaces the value with the tokens of `stream`, and returns the former value.
    pub fn replace(&mut self, stream: TokenStream<'s>) -> MaybeVoid<'s>
        ensures former { result ≡ self.old }
        ensures after { self.new ≡ MaybeVoid.Some stream.entry }
    {
        mem::replace(self, MaybeVoid::Some(stream))
    }

    /// Replaces the value with `Void`, and returns the former value.
    pub fn take(&mut self) -> MaybeVoid<'s>
        ensures former { result ≡ self.old }
        ensures after { self.new ≡ MaybeVoid.Void }
    {
        mem::replace(self, MaybeVoid::Void)
    }

    /// Returns the printed text of the tokens, or `( )` for `Void`.
    ///
    /// # Errors
    ///
    /// Returns `Memory` if memory runs out.
    pub fn print(&self, alloc: Global) -> Result<String, Memory>
        ensures { IfOk result (λ text. string_bytes text ≡ maybe_printed self.now) }
    {
        match self {
            MaybeVoid::Some(stream) => print(alloc, stream.run()),
            MaybeVoid::Void => Ok(String::from_str(alloc, "( )")?),
        }
    }
}
