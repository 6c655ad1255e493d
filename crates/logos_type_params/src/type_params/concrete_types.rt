//! Finds the types given to the declared parameters, and the generic arguments of the enum.
//! `logos_parser` calls `TypeParams::generics` once, for the enum's own type.

ghost use Rattle.std.specs.Prelude.{◌≡◌, ◌++◌, ◌∷◌, [], map, IfOk, OnOk, option_map, OnErr};
ghost use Rattle.logos_type_params.specs.Views.{type_tree, named_of, given_of, type_of, generics_of, no_concrete_type, and_type, and_fault, concrete_types, missing_types, between_brackets, CopiesName, value_of, type_at, generics};

use super::TypeParams;
use crate::given_types::GivenTypes;
use crate::reports::report_about;
use logos_token::error::{Errors, FaultCode, Memory};
use logos_token::token::Ident;
use logos_type::{TypeExpr, TypePart};
use std::alloc::Global;
use std::collections::HashSet;

/// The generic arguments that follow the enum's name, in angle brackets.
#[derive(Drop)]
pub struct Generics<'s> {
    /// Whether `'s` is the first argument.
    pub lifetime: bool,
    /// The types given to the declared parameters, in order of declaration.
    pub types: Vec<TypeExpr<'s>>,
}

/// Returns a copy of the type given to the name `text`, or `None` if the name has no type.
fn copy_given<'s>(types: &GivenTypes<'s>, text: &str) -> Result<Option<TypeExpr<'s>>, Memory>
    ensures { IfOk result (λ copy. option_map type_tree copy ≡
        type_of (map given_of types.now.entries.items) text.now) }
{
    let Some(param) = types.get(text) else {
        return Ok(None);
    };
    let part = param.part.clone()?;
    Ok(Some(TypeExpr { part }))
}

/// Adds the declared name `name` to `front`, and returns a copy of the type given to the name.
/// Returns `None` if the name was already in `front`, or has no type.
fn copy_concrete<'s>(
    front: &mut HashSet<&'s str>,
    types: &GivenTypes<'s>,
    name: Ident<'s>,
) -> Result<Option<TypeExpr<'s>>, Memory>
    ensures { IfOk result (λ copy. CopiesName (map given_of types.now.entries.items) front.old.keys
        (named_of name.entry) (option_map type_tree copy) front.new.keys) }
{
    if !front.insert(name.text)? {
        return Ok(None);
    }
    copy_given(types, name.text)
}

/// Reports that the type parameter `name` has no concrete type.
fn report_missing(name: Ident<'_>, errors: &mut Errors) -> Result<(), Memory>
    ensures { OnOk result (errors.new ≡ errors.old ++ no_concrete_type (named_of name.entry) ∷ []) }
{
    report_about(
        errors,
        FaultCode::NoConcreteType,
        "Generic type parameter without a concrete type\n\nDefine a concrete type Logos can use: #[logos(type ",
        name,
        " = Type)]",
    )
}

/// Appends the type in `found` to `types`. If `found` is `None`, reports that the type parameter
/// `name` has no concrete type.
fn add_or_report<'s>(
    found: Option<TypeExpr<'s>>,
    name: Ident<'s>,
    types: &mut Vec<TypeExpr<'s>>,
    errors: &mut Errors,
) -> Result<(), Memory>
    ensures types { OnOk result (map type_tree types.new.items ≡
        map type_tree types.old.items ++ and_type (option_map type_tree found.entry) []) }
    ensures faults { OnOk result (errors.new ≡
        errors.old ++ and_fault (option_map type_tree found.entry) (named_of name.entry) []) }
{
    let Some(type_expr) = found else {
        return report_missing(name, errors);
    };
    types.push(type_expr)?;
    Ok(())
}

/// Returns copies of the types given to the declared names, in the order of `names`, and reports
/// each name without a type. A second declaration of a name counts as a name without a type.
fn copy_types<'s>(
    names: &[Ident<'s>],
    types: &GivenTypes<'s>,
    errors: &mut Errors,
) -> Result<Vec<TypeExpr<'s>>, Memory>
    ensures types { IfOk result (λ copies. map type_tree copies.items ≡
        concrete_types (map given_of types.now.entries.items) [] (map named_of names.now)) }
    ensures faults { OnOk result (errors.new ≡ errors.old
        ++ missing_types (map given_of types.now.entries.items) [] (map named_of names.now)) }
{
    let alloc = errors.alloc();
    let mut front = HashSet::new(alloc);
    let mut copies = Vec::new(alloc);
    for name in names {
        let found = copy_concrete(&mut front, types, *name)?;
        add_or_report(found, *name, &mut copies, errors)?;
    }
    Ok(copies)
}

/// Returns the generic arguments: `'s` if `lifetime` is `true`, and then `types`. Returns `None` if
/// there are no arguments.
fn bracketed<'s>(lifetime: bool, types: Vec<TypeExpr<'s>>) -> Option<Generics<'s>>
    ensures { option_map generics_of result ≡
        between_brackets lifetime (map type_tree types.entry.items) }
{
    if !lifetime && types.is_empty() {
        return None;
    }
    Some(Generics { lifetime, types })
}

impl<'s> TypeParams<'s> {
    /// Returns a copy of the type given to the parameter that `path` names. Returns `None` if the
    /// path is more than a name, or if the name has no type.
    ///
    /// # Errors
    ///
    /// Returns `Memory` if memory runs out.
    pub fn find(&self, path: &TypeExpr<'s>) -> Result<Option<TypeExpr<'s>>, Memory>
        ensures { IfOk result (λ found. option_map type_tree found ≡
            type_at (value_of self.now).types (type_tree path.now)) }
    {
        match &path.part {
            TypePart::Name(text) => copy_given(&self.types, text),
            _ => Ok(None),
        }
    }

    /// Returns the generic arguments that follow the enum's name: `'s` if a lifetime is declared,
    /// and then the types given to the declared parameters, in order of declaration. Returns `None`
    /// if there are no arguments. For a parameter without a type, reports `NoConcreteType` at its
    /// declaration and omits the parameter. A second declaration of a name counts as a parameter
    /// without a type.
    ///
    /// # Errors
    ///
    /// Returns `Memory` if memory runs out. The faults are then unchanged.
    pub fn generics(&self, errors: &mut Errors) -> Result<Option<Generics<'s>>, Memory>
        ensures value { IfOk result (λ made. option_map generics_of made ≡
            generics (value_of self.now)) }
        ensures faults { OnOk result (errors.new ≡ errors.old ++ missing_types
            (value_of self.now).types [] (value_of self.now).names) }
        ensures unreported { OnErr result (errors.new ≡ errors.old) }
    {
        let mut missing = Errors::new(self.alloc);
        let names = self.names.list.as_slice();
        let types = copy_types(names, &self.types, &mut missing)?;
        errors.append(missing)?;
        Ok(bracketed(self.lifetime, types))
    }
}
