//! Stores the types given to the parameters, and finds them by name. `type_params` inserts a type
//! for each parameter, and `substitution` searches for the types.

ghost use Rattle.std.specs.Prelude.{◌≡◌, ◌++◌, ◌∷◌, [], ◌<◌, None, Some, length, option_copied, IfSome, OnOk, OnErr};
ghost use Rattle.std.specs.Map.{lookup};
ghost use Rattle.std.specs.Str.{bytes_eq};
ghost use Rattle.logos_type_params.specs.inside.Slots.{ArePlaced, slot_in, put_in};

use crate::substitution::TypeParam;
use logos_token::error::Memory;
use std::alloc::Global;
use std::collections::HashMap;

/// The types given to the parameters, at most one for each name.
#[derive(Drop)]
pub struct GivenTypes<'s> {
    /// The names with the types given to them, in the order in which the names first received a
    /// type.
    pub(crate) entries: Vec<(&'s str, TypeParam<'s>)>,
    /// For each name, the index of its type in `entries`.
    slots: HashMap<&'s str, usize>,
    ghost placed: { ArePlaced entries.items slots.entries },
}

impl<'s> GivenTypes<'s> {
    /// Returns an empty list of types that takes its memory from `alloc`.
    pub fn new(alloc: Global) -> GivenTypes<'s>
        ensures { result.entries.items ≡ [] }
    {
        GivenTypes {
            entries: Vec::new(alloc),
            slots: HashMap::new(alloc),
        }
    }

    /// Returns the index in `entries` of the type given to the name `text`, or `None` if the name
    /// has no type.
    pub(crate) fn slot_of(&self, text: &str) -> Option<usize>
        ensures slot { result ≡ slot_in self.now.entries.items text.now }
        ensures within { IfSome result (λ at. at < length self.now.entries.items) }
    {
        self.slots.get(text).copied()
    }

    /// Returns the type given to the name `text`, or `None` if the name has no type.
    pub fn get(&self, text: &str) -> Option<&TypeParam<'s>>
        ensures { option_copied result ≡
            lookup (λ k. bytes_eq text.now k.now) self.now.entries.items }
    {
        match self.slot_of(text) {
            Some(at) => Some(&self.entries[at].1),
            None => None,
        }
    }

    /// Returns the names with the types given to them, in the order in which the names first
    /// received a type.
    pub fn list(&self) -> &[(&'s str, TypeParam<'s>)]
        ensures { result.now ≡ self.now.entries.items }
    {
        self.entries.as_slice()
    }

    /// Assigns the type `param` to the name `text`. If the name already has a type, `param`
    /// replaces this type at the same index.
    ///
    /// # Errors
    ///
    /// Returns `Memory` if memory runs out. The types are then unchanged.
    pub fn insert(&mut self, text: &'s str, param: TypeParam<'s>) -> Result<(), Memory>
        ensures ok { OnOk result
            (self.new.entries.items ≡ put_in (text.entry, param.entry) self.old.entries.items) }
        ensures err { OnErr result (self.new.entries.items ≡ self.old.entries.items) }
        ensures absent { OnErr result
            (lookup (λ k. bytes_eq text.now k.now) self.old.entries.items ≡ None) }
    {
        match self.slot_of(text) {
            Some(at) => {
                self.entries[at] = (text, param);
                Ok(())
            }
            None => self.add(text, param),
        }
    }

    /// Appends the name `text` with the type `param`. The name must not have a type. After an
    /// error, the types are unchanged.
    fn add(&mut self, text: &'s str, param: TypeParam<'s>) -> Result<(), Memory>
        requires { slot_in self.old.entries.items text.now ≡ None }
        ensures ok { OnOk result
            (self.new.entries.items ≡ self.old.entries.items ++ (text.entry, param.entry) ∷ []) }
        ensures err { OnErr result (self.new.entries.items ≡ self.old.entries.items) }
    {
        let at = self.entries.len();
        self.slots.reserve(1)?;
        self.entries.push((text, param))?;
        self.slots.insert(text, at)?;
        Ok(())
    }
}
