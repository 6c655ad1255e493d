//! Token buffers, and runs of the tokens in a buffer. All crates that read tokens use this module.

ghost use Rattle.logos_token.specs.Imports.{props};
ghost use Rattle.logos_token.specs.Flat.{IsFlat};

mod growing;

use crate::error::Memory;
use crate::token::entry::Entry;
use crate::token::{Delimiter, Doc, Ident, Literal, Punct, Span};
use std::alloc::{AllocError, Global};

/// A buffer of tokens: the tokens of a whole source, or tokens that were copied or built.
#[derive(Drop)]
pub struct TokenStream<'s> {
    entries: Vec<Entry<'s>>,
    ghost nested: { IsFlat entries.items } by { Prim.hlevel props },
}

/// A borrowed run of neighboring token trees in a buffer.
#[derive(Clone, Copy)]
pub struct Tokens<'t, 's> {
    entries: &'t [Entry<'s>],
    ghost nested: { IsFlat entries.now } by { Prim.hlevel props },
}

/// A group: its delimiters and the tokens between them.
#[derive(Clone, Copy)]
pub struct Group<'t, 's> {
    pub delimiter: Delimiter,
    /// The span from the start of the opening delimiter to the end of the closing delimiter.
    pub span: Span,
    inside: Tokens<'t, 's>,
}

/// A token, or a group with the tokens inside it.
#[derive(Clone, Copy)]
pub enum TokenTree<'t, 's> {
    Ident(Ident<'s>),
    Punct(Punct),
    Literal(Literal<'s>),
    Doc(Doc<'s>),
    Group(Group<'t, 's>),
}

/// An iterator over the trees of a run.
#[derive(Clone, Copy)]
pub struct TokenIter<'t, 's> {
    rest: Tokens<'t, 's>,
}

impl<'s> TokenStream<'s> {
    ghost use Rattle.std.specs.Prelude.{◌≡◌, IfOk};
    ghost use Rattle.logos_token.specs.ViewImports.{identifier, none, also, IsFlat, tokens_in, stream_tokens, tokens_of};

    /// Returns a buffer of the entries `entries`.
    pub(super) fn from_entries(entries: Vec<Entry<'s>>) -> TokenStream<'s>
        requires { IsFlat entries.items }
        ensures { stream_tokens result ≡ tokens_in entries.entry.items }
    {
        TokenStream { entries }
    }

    /// Returns a buffer whose only token is the identifier `ident`.
    ///
    /// # Errors
    ///
    /// Returns `AllocError` if memory runs out.
    pub fn from_ident(alloc: Global, ident: Ident<'s>) -> Result<TokenStream<'s>, AllocError>
        ensures { IfOk result (λ stream. stream_tokens stream ≡
            also (identifier ident.entry.text.now ident.entry.span) none) }
    {
        let entries = Vec::from_slice(alloc, &[Entry::Ident(ident)])?;
        Ok(TokenStream { entries })
    }

    /// Returns the run of all trees of the buffer.
    pub fn run(&self) -> Tokens<'_, 's>
        ensures { tokens_of result ≡ stream_tokens self.now }
    {
        Tokens {
            entries: self.entries.as_slice(),
        }
    }
}

impl Clone for TokenStream<'_> {
    ghost use Rattle.std.specs.Prelude.{◌≡◌};
    ghost use Rattle.logos_token.specs.ViewImports.{stream_tokens};

    // A copy has the same trees, with the same texts, spans and spacings.
    ghost is_clone = { λ stream copy. stream_tokens copy ≡ stream_tokens stream };

    fn clone(&self) -> Result<Self, AllocError> {
        let entries = Vec::from_slice(*self.entries.allocator(), self.entries.as_slice())?;
        Ok(TokenStream { entries })
    }
}

impl<'t, 's> Tokens<'t, 's> {
    ghost use Rattle.std.specs.Prelude.{◌≡◌, ◌↔◌, IsTrue, MatchOption, option_map, IfOk};
    ghost use Rattle.logos_token.specs.ViewImports.{none, also, IsRestOf, first_of, rest_of, run_span, count_of, stream_tokens, tokens_of, tree_of, iter_rest, listed};

    /// Returns whether the run contains no trees.
    pub fn is_empty(self) -> bool
        ensures { IsTrue result ↔ (tokens_of self.entry ≡ none) }
    {
        self.entries.is_empty()
    }

    /// Returns the number of tokens in the run and inside its groups. A group itself counts as one
    /// token.
    pub fn count(self) -> usize
        ensures { result ≡ count_of (tokens_of self.entry) }
    {
        self.entries.len()
    }

    /// Returns the first tree, or `None` if the run is empty.
    pub fn first(self) -> Option<TokenTree<'t, 's>>
        ensures value { option_map tree_of result ≡ first_of (tokens_of self.entry) }
        ensures cases { MatchOption result (tokens_of self.entry ≡ none)
            (λ tree. tokens_of self.entry ≡ also (tree_of tree) (rest_of (tokens_of self.entry))) }
    {
        let (entry, after) = self.entries.split_first()?;
        match entry {
            Entry::Ident(ident) => Some(TokenTree::Ident(*ident)),
            Entry::Punct(punct) => Some(TokenTree::Punct(*punct)),
            Entry::Literal(literal) => Some(TokenTree::Literal(*literal)),
            Entry::Doc(doc) => Some(TokenTree::Doc(*doc)),
            Entry::Group {
                delimiter,
                span,
                size,
            } => Some(TokenTree::Group(Group {
                delimiter: *delimiter,
                span: *span,
                inside: Tokens {
                    entries: &after[..*size],
                },
            })),
        }
    }

    /// Returns the trees after the first tree, or an empty run if this run is empty.
    pub fn rest(self) -> Tokens<'t, 's>
        ensures { tokens_of result ≡ rest_of (tokens_of self.entry) }
    {
        let Some((entry, after)) = self.entries.split_first() else {
            return self;
        };
        Tokens {
            entries: &after[entry.size()..],
        }
    }

    /// Returns the trees of this run before `rest`. `rest` must be a suffix of this run.
    pub fn before(self, rest: Tokens<'t, 's>) -> Tokens<'t, 's>
        requires { IsRestOf (tokens_of self) (tokens_of rest) }
        ensures { (split : IsRestOf (tokens_of self.entry) (tokens_of rest.entry)) →
            tokens_of result ≡ split.front }
    {
        Tokens {
            entries: &self.entries[..self.entries.len() - rest.entries.len()],
        }
    }

    /// Returns the span from the first tree to the last one, or `0..0` if the run is empty.
    pub fn span(self) -> Span
        ensures { result ≡ run_span (tokens_of self.entry) }
    {
        let Some(first) = self.first() else {
            return Span { from: 0, to: 0 };
        };
        let Span { from, mut to } = first.span();
        let mut rest = self.rest();
        while let Some(next) = rest.first() {
            to = next.span().to;
            rest = rest.rest();
        }
        Span { from, to }
    }

    /// Returns a new buffer with copies of the trees.
    ///
    /// # Errors
    ///
    /// Returns `Memory` if memory runs out.
    pub fn to_stream(self, alloc: Global) -> Result<TokenStream<'s>, Memory>
        ensures { IfOk result (λ stream. stream_tokens stream ≡ tokens_of self.entry) }
    {
        let entries = Vec::from_slice(alloc, self.entries)?;
        Ok(TokenStream { entries })
    }

    /// Returns an iterator over the trees.
    pub fn iter(self) -> TokenIter<'t, 's>
        ensures { iter_rest result ≡ listed (tokens_of self.entry) }
    {
        TokenIter { rest: self }
    }
}

impl<'t, 's> Group<'t, 's> {
    ghost use Rattle.std.specs.Prelude.{◌≡◌};
    ghost use Rattle.logos_token.specs.ViewImports.{tokens_of, inside_of};

    /// Returns the run of trees between the delimiters.
    pub fn run(self) -> Tokens<'t, 's>
        ensures { tokens_of result ≡ inside_of self.entry }
    {
        self.inside
    }
}

impl TokenTree<'_, '_> {
    ghost use Rattle.std.specs.Prelude.{◌≡◌};
    ghost use Rattle.logos_token.specs.ViewImports.{span_of, tree_of};

    /// Returns the span of the tree in the source.
    pub fn span(self) -> Span
        ensures { result ≡ span_of (tree_of self.entry) }
    {
        match self {
            TokenTree::Ident(ident) => ident.span,
            TokenTree::Punct(punct) => punct.span,
            TokenTree::Literal(literal) => literal.span,
            TokenTree::Doc(doc) => doc.span,
            TokenTree::Group(group) => group.span,
        }
    }
}

impl<'t, 's> Iterator for TokenIter<'t, 's> {
    type Item = TokenTree<'t, 's>;

    ghost use Rattle.logos_token.specs.ViewImports.{YieldsFirstBy, item_count, tree_of, iter_rest};

    ghost next_gives = { YieldsFirstBy tree_of iter_rest };

    ghost remaining = { item_count iter_rest };

    fn next(&mut self) -> Option<TokenTree<'t, 's>> {
        let tree = self.rest.first()?;
        self.rest = self.rest.rest();
        Some(tree)
    }
}
