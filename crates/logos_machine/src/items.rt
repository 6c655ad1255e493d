//! Collects all items of a lexer. Called by `logos_scan` and `logos_relex`.

ghost use Rattle.std.specs.Prelude.{map, IfOk};
ghost use Rattle.logos_machine.specs.Views.{Runs, TakesMatches, answers_of, item_of};

use crate::machine::{Action, Item, Lexer};
use logos_hir::leaf::LeafId;
use std::alloc::{AllocError, Global};

impl<'c, 's, 'i, C: Fn(LeafId, &[u8]) -> Action + Drop> Lexer<'c, 's, 'i, C> {
    /// Returns all remaining items, in the order of their spans.
    ///
    /// # Errors
    ///
    /// Returns `AllocError` if memory runs out.
    pub fn items(self, alloc: Global) -> Result<Vec<Item<'i>>, AllocError>
        requires { TakesMatches C.Fn self.code self.callback }
        // These are the items of a run of the code from the lexer's point to the end of the input.
        ensures { IfOk result (λ items. Runs self.entry.code
            (answers_of C.Fn self.entry.callback) self.entry.input self.entry.to
            (map item_of items.items)) }
    {
        let mut lexer = self;
        let mut items = Vec::new(alloc);
        while let Some(item) = lexer.next() {
            items.push(item)?;
        }
        Ok(items)
    }
}
