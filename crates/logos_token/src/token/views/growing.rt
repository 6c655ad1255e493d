//! Methods that build a token buffer tree by tree. The code that strips enums calls them, and so
//! does the code that copies types and callbacks.

ghost use Rattle.std.specs.Prelude.{◌≡◌, ◌++◌, List, map, IfOk, OnOk};
ghost use Rattle.logos_token.specs.ViewImports.{group, none, also, append, value_of, flat_token, stream_tokens, tree_of, inside_of};

use crate::error::Memory;
use crate::token::entry::Entry;
use crate::token::views::{Group, TokenStream, TokenTree};
use crate::token::{Delimiter, Span};
use std::alloc::Global;

/// Appends the entry of a tree to `entries`, followed by the entries inside the tree.
fn push_tree<'s>(entries: &mut Vec<Entry<'s>>, tree: TokenTree<'_, 's>) -> Result<(), Memory>
    ensures { OnOk result (map value_of entries.new.items ≡
        map value_of entries.old.items ++ flat_token (tree_of tree.entry)) }
{
    match tree {
        TokenTree::Ident(ident) => entries.push(Entry::Ident(ident))?,
        TokenTree::Punct(punct) => entries.push(Entry::Punct(punct))?,
        TokenTree::Literal(literal) => entries.push(Entry::Literal(literal))?,
        TokenTree::Doc(doc) => entries.push(Entry::Doc(doc))?,
        TokenTree::Group(group) => {
            entries.push(Entry::Group {
                delimiter: group.delimiter,
                span: group.span,
                size: group.inside.entries.len(),
            })?;
            entries.extend_from_slice(group.inside.entries)?;
        }
    }
    Ok(())
}

impl<'s> TokenStream<'s> {
    /// Returns an empty buffer that takes its memory from `alloc`.
    pub fn new(alloc: Global) -> TokenStream<'s>
        ensures { stream_tokens result ≡ none }
    {
        TokenStream {
            entries: Vec::new(alloc),
        }
    }

    /// Appends `tree` to the buffer, and returns the buffer.
    ///
    /// # Errors
    ///
    /// Returns `Memory` if memory runs out. The buffer is then lost.
    pub fn with_tree(self, tree: TokenTree<'_, 's>) -> Result<TokenStream<'s>, Memory>
        ensures { IfOk result (λ stream. stream_tokens stream ≡
            append (stream_tokens self.entry) (also (tree_of tree.entry) none)) }
    {
        let mut entries = self.entries;
        push_tree(&mut entries, tree)?;
        Ok(TokenStream { entries })
    }

    /// Returns a group of all trees of the buffer, with the delimiters `delimiter` and the span
    /// `span`.
    pub fn group(&self, delimiter: Delimiter, span: Span) -> Group<'_, 's>
        ensures { group result.delimiter result.span (inside_of result) ≡
            group delimiter span (stream_tokens self.now) }
    {
        Group {
            delimiter,
            span,
            inside: self.run(),
        }
    }
}
