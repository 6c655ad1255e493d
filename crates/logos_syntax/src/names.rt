//! Collects the names of the groups in a pattern. The names must be distinct. The parser adds the
//! name of each group.

ghost use Rattle.std.specs.Prelude.{◌≡◌, ◌∷◌, [], List, not, bytes_eq, IfOk};
ghost use Rattle.logos_syntax.specs.Views.{list_any, Text, token_view, HasNames, Admits};

use logos_pattern_tokens::token::{GroupOpening, Token};
use std::alloc::{AllocError, Global};
use std::collections::BTreeSet;

/// The names of the groups that have been read so far.
#[derive(Drop)]
pub(crate) struct GroupNames {
    seen: BTreeSet<Vec<char>>,
}

impl GroupNames {
    /// Returns an empty set of names.
    pub(crate) fn new(alloc: Global) -> GroupNames
        ensures { HasNames result [] }
    {
        GroupNames {
            seen: BTreeSet::new(alloc),
        }
    }

    /// Adds a name to the set. Returns whether the name is new.
    fn add(&mut self, alloc: Global, name: &[char]) -> Result<bool, AllocError>
        ensures { (seen : List Text) → HasNames self.old seen →
            IfOk result (λ added. (added ≡ not (list_any (bytes_eq name.now) seen)) ×
            HasNames self.new (name.now ∷ seen)) }
    {
        let key = Vec::from_slice(alloc, name)?;
        Ok(self.seen.insert(key)?)
    }

    /// Adds the name of the group that the token opens. Returns whether the name is new, or `true`
    /// if the token does not open a named group.
    pub(crate) fn admit(&mut self, alloc: Global, token: Token<'_>) -> Result<bool, AllocError>
        ensures { (seen : List Text) → HasNames self.old seen →
            IfOk result (λ admitted. Admits seen (token_view token.entry) admitted self.new) }
    {
        match token {
            Token::Open(GroupOpening::Named(name)) => {
                let added = self.add(alloc, name)?;
                Ok(added)
            }
            _ => Ok(true),
        }
    }
}
