//! The type `Writer`, which collects the tokens that remain. `groups` writes the trees of each run
//! to a `Writer`.

ghost use Rattle.std.specs.Prelude.{◌≡◌, [], ◌∷◌, List, Option, Some, None, IfOk};
ghost use Rattle.logos_strip.specs.Views.{Token, stream_tokens, tree_of, left, completed};

use logos_token::error::Memory;
use logos_token::token::{Punct, Spacing, TokenStream, TokenTree};
use std::alloc::Global;

/// A writer of trees, with the trees written so far.
#[derive(Drop)]
pub(crate) struct Writer<'s> {
    /// All written trees except `held`.
    stream: TokenStream<'s>,
    /// The last tree, if it is punctuation. The punctuation gets the spacing `Alone` if the token
    /// directly after the punctuation is removed.
    held: Option<Punct>,
}

impl<'s> Writer<'s> {
    /// Returns a writer without trees.
    pub(crate) fn new(alloc: Global) -> Writer<'s>
        ensures { (pieces : List (Option Token)) → completed result pieces ≡ left pieces }
    {
        Writer {
            stream: TokenStream::new(alloc),
            held: None,
        }
    }

    /// Returns all trees that have been written.
    pub(crate) fn finish(self) -> Result<TokenStream<'s>, Memory>
        ensures { IfOk result (λ stream. stream_tokens stream ≡ completed self.entry []) }
    {
        match self.held {
            Some(punct) => self.stream.with_tree(TokenTree::Punct(punct)),
            None => Ok(self.stream),
        }
    }

    /// Appends a tree to the writer.
    pub(crate) fn with_tree(self, tree: TokenTree<'_, 's>) -> Result<Writer<'s>, Memory>
        ensures { IfOk result (λ writer. (pieces : List (Option Token)) →
            completed writer pieces ≡ completed self.entry (Some (tree_of tree.entry) ∷ pieces)) }
    {
        let stream = self.finish()?;
        match tree {
            TokenTree::Punct(punct) => Ok(Writer {
                stream,
                held: Some(punct),
            }),
            _ => Ok(Writer {
                stream: stream.with_tree(tree)?,
                held: None,
            }),
        }
    }

    /// Skips the next tree, which is removed. Punctuation directly before the tree gets the spacing
    /// `Alone`.
    pub(crate) fn without_tree(self) -> Result<Writer<'s>, Memory>
        ensures { IfOk result (λ writer. (pieces : List (Option Token)) →
            completed writer pieces ≡ completed self.entry (None ∷ pieces)) }
    {
        let Some(punct) = self.held else {
            return Ok(self);
        };
        let alone = Punct {
            spacing: Spacing::Alone,
            ..punct
        };
        Ok(Writer {
            stream: self.stream.with_tree(TokenTree::Punct(alone))?,
            held: None,
        })
    }
}
