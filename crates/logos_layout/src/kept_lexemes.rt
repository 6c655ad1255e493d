//! Finds the lexemes of the remaining tokens of a source. Used by `without_derive`.

use logos_token::error::Memory;
use logos_token::token::{Span, TokenTree, Tokens};
use std::alloc::Global;

/// The tokens after an open group, with the byte offset at which the enclosing group ends.
#[derive(Clone, Copy)]
struct Enclosing<'t, 's> {
    rest: Tokens<'t, 's>,
    to: usize,
}

/// A cursor over the remaining tokens of a source.
#[derive(Drop)]
pub(crate) struct Staying<'t, 's> {
    /// The tokens after the cursor in the innermost open group, or in the whole source if no group
    /// is open.
    rest: Tokens<'t, 's>,
    /// The byte offset at which the innermost open group ends, or 0 if no group is open.
    to: usize,
    /// For each open group, from the outermost to the innermost, the tokens after the group and the
    /// end of the enclosing group.
    outer: Vec<Enclosing<'t, 's>>,
}

impl<'t, 's> Staying<'t, 's> {
    /// Returns a cursor at the beginning of `tokens`.
    pub(crate) fn new(alloc: Global, tokens: Tokens<'t, 's>) -> Staying<'t, 's> {
        Staying {
            rest: tokens,
            to: 0,
            outer: Vec::new(alloc),
        }
    }

    /// Returns whether the lexeme at `span` is the next remaining lexeme. If so, moves the cursor
    /// past the lexeme.
    pub(crate) fn pass(&mut self, span: Span) -> Result<bool, Memory> {
        let Some(tree) = self.rest.first() else {
            return Ok(self.leave(span.to));
        };
        if tree.span().from != span.from {
            return Ok(false);
        }
        self.enter(tree)?;
        Ok(true)
    }

    /// Moves the cursor past `tree`, the next token. If the token is a group, moves the cursor only
    /// past its opening delimiter.
    fn enter(&mut self, tree: TokenTree<'t, 's>) -> Result<(), Memory> {
        let rest = self.rest.rest();
        let TokenTree::Group(group) = tree else {
            self.rest = rest;
            return Ok(());
        };
        self.outer.push(Enclosing { rest, to: self.to })?;
        self.rest = group.run();
        self.to = group.span.to;
        Ok(())
    }

    /// Returns whether the innermost open group ends at the byte offset `to`. If so, moves the
    /// cursor past the group.
    fn leave(&mut self, to: usize) -> bool {
        if to != self.to {
            return false;
        }
        let Some(outer) = self.outer.pop() else {
            return false;
        };
        self.rest = outer.rest;
        self.to = outer.to;
        true
    }
}
