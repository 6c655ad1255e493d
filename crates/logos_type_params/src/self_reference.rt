//! Finds each type parameter from which a chain of types leads back to this parameter.
//! `type_params` calls `Chains::new` after all attributes of an enum have been read.

ghost use Rattle.std.specs.Prelude.{◌≡◌, ◌↔◌, [], length, map, IfOk, OnOk, IsTrue};
ghost use Rattle.logos_type_params.specs.Views.{name, tree_of, names, Leads, Reaches, AreReached};
ghost use Rattle.logos_type_params.specs.SelfReference.{param_value};

use crate::cycles::on_cycles;
use crate::given_types::GivenTypes;
use logos_type::TypePart;
use std::alloc::{AllocError, Global};

/// The types given to the parameters, and the names from which a chain of types leads back to the
/// same name.
#[derive(Drop)]
pub(crate) struct Chains<'p, 's> {
    /// The types given to the names.
    types: &'p GivenTypes<'s>,
    /// For each type, whether a chain of types leads from its name back to this name.
    held: Vec<bool>,
    ghost fits: { length held.items ≡ length types.now.entries.items },
}

/// Appends to `reached` the index of the type given to the name `text`, if the name has a type.
fn reach_name<'s>(
    types: &GivenTypes<'s>,
    text: &str,
    reached: &mut Vec<usize>,
) -> Result<(), AllocError>
    ensures { OnOk result (Reaches (map param_value types.now.entries.items)
        (names (name text.now)) reached.old.items reached.new.items) }
{
    let Some(at) = types.slot_of(text) else {
        return Ok(());
    };
    reached.push(at)?;
    Ok(())
}

/// Appends to `reached` the indices of the types given to the names in `part`. Names in parts that
/// are never replaced do not count.
fn reach<'s>(
    types: &GivenTypes<'s>,
    part: &TypePart<'s>,
    reached: &mut Vec<usize>,
) -> Result<(), AllocError>
    ensures { OnOk result (Reaches (map param_value types.now.entries.items)
        (names (tree_of part.now)) reached.old.items reached.new.items) }
{
    match part {
        TypePart::Leaf(_) | TypePart::Still(_) => Ok(()),
        TypePart::Name(text) => reach_name(types, text, reached),
        TypePart::Whole(parts) => {
            for part in parts {
                reach(types, part, reached)?;
            }
            Ok(())
        }
    }
}

/// Returns, for each type, the indices of the types given to the names in this type.
fn all_reached<'s>(alloc: Global, types: &GivenTypes<'s>) -> Result<Vec<Vec<usize>>, AllocError>
    ensures { IfOk result (λ lists. AreReached (map param_value types.now.entries.items)
        (map param_value types.now.entries.items) (map (λ list. list.items) lists.items)) }
{
    let mut lists = Vec::new(alloc);
    for at in 0..types.entries.len() {
        let mut reached = Vec::new(alloc);
        reach(types, &types.entries[at].1.part, &mut reached)?;
        lists.push(reached)?;
    }
    Ok(lists)
}

impl<'p, 's> Chains<'p, 's> {
    ghost use Rattle.std.specs.Prelude.{◌≡◌, ◌↔◌, map, IfOk, IsTrue};
    ghost use Rattle.logos_type_params.specs.Views.{param_value, Leads, AreMarked};

    /// Finds the chains of `types`, in time linear in the total size of the types.
    pub(crate) fn new(
        alloc: Global,
        types: &'p GivenTypes<'s>,
    ) -> Result<Chains<'p, 's>, AllocError>
        ensures types { IfOk result (λ chains.
            chains.types.now.entries.items ≡ types.now.entries.items) }
        ensures marks { IfOk result (λ chains.
            AreMarked (map param_value types.now.entries.items) chains.held.items) }
    {
        let lists = all_reached(alloc, types)?;
        let held = on_cycles(alloc, lists.as_slice())?;
        Ok(Chains { types, held })
    }

    /// Returns whether a chain of types leads from the name `text` back to this name.
    pub(crate) fn lead_back(&self, text: &str) -> bool
        ensures { AreMarked (map param_value self.now.types.now.entries.items) self.now.held.items →
            IsTrue result ↔
            Leads (map param_value self.now.types.now.entries.items) text.now text.now }
    {
        let Some(at) = self.types.slot_of(text) else {
            return false;
        };
        self.held[at]
    }
}

/// Returns whether a chain of types that name one another leads from the parameter `text` back to
/// this parameter. This takes time linear in the total size of the types.
///
/// # Errors
///
/// Returns `AllocError` if memory runs out.
pub fn holds_itself<'s>(
    alloc: Global,
    params: &GivenTypes<'s>,
    text: &'s str,
) -> Result<bool, AllocError>
    ensures { IfOk result (λ holds.
        IsTrue holds ↔ Leads (map param_value params.now.entries.items) text.now text.now) }
{
    let chains = Chains::new(alloc, params)?;
    Ok(chains.lead_back(text))
}
