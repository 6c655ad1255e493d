//! Stores names in the order of their declaration. `TypeParams` contains the names of its
//! parameters as a `DeclaredNames`.

ghost use Rattle.std.specs.Prelude.{map, ◌≡◌, ◌++◌, ◌∷◌, [], OnOk, OnErr};
ghost use Rattle.logos_type_params.specs.Imports.{is_declared};
ghost use Rattle.logos_type_params.specs.NameLists.{named_of};
ghost use Rattle.logos_type_params.specs.inside.Fronts.{AreInFront};

use logos_token::error::Memory;
use logos_token::token::Ident;
use std::alloc::Global;
use std::collections::HashSet;

/// A list of declared names. A name can be declared more than once.
#[derive(Drop)]
pub(crate) struct DeclaredNames<'s> {
    /// The names, in order of declaration.
    pub(crate) list: Vec<Ident<'s>>,
    /// The texts of the names, without duplicates.
    pub(crate) texts: HashSet<&'s str>,
    ghost same: { AreInFront (map named_of list.items) texts.keys },
}

impl<'s> DeclaredNames<'s> {
    /// Returns an empty list that takes its memory from `alloc`.
    pub(crate) fn new(alloc: Global) -> DeclaredNames<'s>
        ensures { result.list.items ≡ [] }
    {
        DeclaredNames {
            list: Vec::new(alloc),
            texts: HashSet::new(alloc),
        }
    }

    /// Returns whether the name `text` is declared.
    pub(crate) fn contains(&self, text: &str) -> bool
        ensures { result ≡ is_declared (map named_of self.now.list.items) text.now }
    {
        self.texts.contains(text)
    }

    /// Appends `name` to the declared names. After an error the names are unchanged.
    pub(crate) fn push(&mut self, name: Ident<'s>) -> Result<(), Memory>
        ensures ok { OnOk result (self.new.list.items ≡ self.old.list.items ++ name.entry ∷ []) }
        ensures err { OnErr result (self.new.list.items ≡ self.old.list.items) }
    {
        self.texts.reserve(1)?;
        self.list.push(name)?;
        self.texts.insert(name.text)?;
        Ok(())
    }
}
