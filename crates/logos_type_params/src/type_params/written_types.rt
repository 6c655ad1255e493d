//! Replaces parameters in written types, and finds the names of parameters that are not replaced.
//! `logos_leaf` calls `get_type` for each field, once all types are given.

ghost use Rattle.std.specs.Prelude.{◌≡◌, ◌++◌, ◌∷◌, [], map, IfOk, OnOk, OnErr};
ghost use Rattle.logos_type_params.specs.Views.{type_tree, texts, limit_type_nesting, param_value, NeedsName, types_of, params_with, AreHeld, GetsType};

use super::TypeParams;
use crate::reports::report_depth;
use crate::self_reference::Chains;
use crate::substitution::{Replacing, type_after};
use logos_token::error::{Errors, Memory};
use logos_token::token::Span;
use logos_type::TypeExpr;
use logos_type_reader::{TYPE_NESTING, TypeFault};
use std::collections::HashSet;

/// Adds the name `text` to `held` if a chain of types leads from the name back to this name.
fn add_held<'s>(
    chains: &Chains<'_, 's>,
    text: &'s str,
    held: &mut HashSet<&'s str>,
) -> Result<(), Memory>
    ensures { OnOk result (NeedsName (map param_value chains.now.types.now.entries.items)
        chains.now.held.items text.now (texts held.old.keys) (texts held.new.keys)) }
{
    if chains.lead_back(text) {
        held.insert(text)?;
    }
    Ok(())
}

/// Returns a copy of `written`, and reports at `span` that its replacement exceeds the limit. After
/// an error the faults are unchanged.
fn leave_written<'s>(
    written: &TypeExpr<'s>,
    span: Span,
    errors: &mut Errors,
) -> Result<TypeExpr<'s>, Memory>
    ensures same { IfOk result (λ left. type_tree left ≡ type_tree written.now) }
    ensures faults { OnOk result (errors.new ≡ errors.old ++ limit_type_nesting span ∷ []) }
    ensures unreported { OnErr result (errors.new ≡ errors.old) }
{
    let left = written.clone()?;
    report_depth(errors, span)?;
    Ok(left)
}

impl<'s> TypeParams<'s> {
    /// Returns the name of each parameter from which a chain of types leads back to this parameter.
    /// `get_type` does not replace these names. This takes time linear in the total size of the
    /// types.
    ///
    /// # Errors
    ///
    /// Returns `Memory` if memory runs out.
    pub fn held_names(&self) -> Result<HashSet<&'s str>, Memory>
        ensures { IfOk result (λ held. AreHeld (types_of self.now) (texts held.keys)) }
    {
        let chains = Chains::new(self.alloc, &self.types)?;
        let mut held = HashSet::new(self.alloc);
        for at in 0..self.types.entries.len() {
            add_held(&chains, self.types.entries[at].0, &mut held)?;
        }
        Ok(held)
    }

    /// Returns the type `written` with its declared parameters replaced by the types given to them,
    /// and with its lifetimes set to `'s`. The names in `held` are not replaced. If too many types
    /// are nested in the result, reports `LimitTypeNesting` at `span` and returns the type as
    /// written.
    ///
    /// # Errors
    ///
    /// Returns `Memory` if memory runs out. The faults are then unchanged.
    pub fn get_type(
        &self,
        held: &HashSet<&'s str>,
        written: &TypeExpr<'s>,
        span: Span,
        errors: &mut Errors,
    ) -> Result<TypeExpr<'s>, Memory>
        ensures ok { IfOk result (λ got. GetsType (params_with self.now (texts held.now.keys))
            (type_tree written.now) span errors.old errors.new (type_tree got)) }
        ensures unreported { OnErr result (errors.new ≡ errors.old) }
    {
        let params = Replacing {
            types: &self.types,
            held,
        };
        match type_after(self.alloc, TYPE_NESTING, params, &written.part) {
            Ok(part) => Ok(TypeExpr { part }),
            Err(TypeFault::LimitNesting) => leave_written(written, span, errors),
            // The only other fault is that memory ran out.
            Err(_) => Err(Memory),
        }
    }
}
