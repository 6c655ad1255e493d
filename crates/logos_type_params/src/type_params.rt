//! The declared type parameters of an enum and the types given to them. The readers of enums and
//! attributes declare the parameters and set their types.

ghost use Rattle.std.specs.Prelude.{◌≡◌, ◌++◌, ◌∷◌, [], Some, None, map, IfOk, OnOk, OnErr, if◌then◌else◌, option_map, true, false};
ghost use Rattle.logos_type_params.specs.Views.{tokens_of, run_span, tree_of, IfFault, type_tree, IsTypeExpr, NoTypeExpr, param_value, ChecksName, named_of, given_of, type_syntax, many_lifetimes, former, given_more, given_faults, ReadsValue, AreChecked, Value, value_of, IsSet, types_of};

mod concrete_types;
mod written_types;

use crate::given_types::GivenTypes;
use crate::lifetimes::set_lifetimes;
use crate::names::DeclaredNames;
use crate::reports::{report_about, report_depth, report_previous};
use crate::self_reference::Chains;
use crate::substitution::TypeParam;
pub use concrete_types::Generics;
use logos_token::error::{Errors, FaultCode, Memory};
use logos_token::token::{Ident, Span, Tokens};
use logos_type::TypeExpr;
use logos_type_reader::{TypeFault, read_type};
use std::alloc::Global;
use std::collections::HashSet;

/// The declared type parameters of an enum, and the types given to them.
#[derive(Drop)]
pub struct TypeParams<'s> {
    names: DeclaredNames<'s>,
    /// The types, by the names of the parameters to which they are given.
    types: GivenTypes<'s>,
    lifetime: bool,
    alloc: Global,
}

/// Reports that the value at the span `at` is not a type.
fn report_syntax(errors: &mut Errors, at: Span) -> Result<(), Memory>
    ensures ok { OnOk result (errors.new ≡ errors.old ++ type_syntax at ∷ []) }
    ensures err { OnErr result (errors.new ≡ errors.old) }
{
    errors.err(FaultCode::TypeSyntax, "not a type", at)
}

/// Reports `fault` at the span `at`. `fault` is the reason why `run` is not a type. If `fault` is
/// `Memory`, returns `Memory` without a report.
fn report_no_type(
    fault: TypeFault,
    run: Tokens<'_, '_>,
    at: Span,
    errors: &mut Errors,
) -> Result<(), Memory>
    requires { IfFault (NoTypeExpr (tokens_of run)) fault }
    ensures ok { OnOk result (ReadsValue (tokens_of run.entry) at errors.old errors.new None) }
    ensures err { OnErr result (errors.new ≡ errors.old) }
{
    match fault {
        TypeFault::Unsupported { .. } => report_syntax(errors, at),
        TypeFault::Mismatch { .. } => report_syntax(errors, at),
        TypeFault::LimitNesting => report_depth(errors, at),
        TypeFault::Memory => Err(Memory),
    }
}

/// Returns `type_expr` if `rest` is empty. Otherwise, reports at the span `at` that `run` is not a
/// type, and returns `None`. `rest` contains the tokens of `run` after the type.
fn whole_type<'s>(
    type_expr: TypeExpr<'s>,
    rest: Tokens<'_, 's>,
    run: Tokens<'_, 's>,
    at: Span,
    errors: &mut Errors,
) -> Result<Option<TypeExpr<'s>>, Memory>
    requires { IsTypeExpr (tokens_of run) (type_tree type_expr) (tokens_of rest) }
    ensures ok { IfOk result (λ read. ReadsValue
        (tokens_of run.entry) at errors.old errors.new (option_map type_tree read)) }
    ensures err { OnErr result (errors.new ≡ errors.old) }
{
    if rest.is_empty() {
        return Ok(Some(type_expr));
    }
    report_syntax(errors, at)?;
    Ok(None)
}

/// Reads all tokens of `run` as one type. Reports `LimitTypeNesting` at the span `at` if too many
/// types are nested in `run`, and `TypeSyntax` at this span if `run` is not a type for another
/// reason. In both cases, returns `None`.
///
/// # Errors
///
/// Returns `Memory` if memory runs out. The faults are then unchanged.
pub fn read_value<'s>(
    alloc: Global,
    run: Tokens<'_, 's>,
    at: Span,
    errors: &mut Errors,
) -> Result<Option<TypeExpr<'s>>, Memory>
    ensures ok { IfOk result (λ read. ReadsValue
        (tokens_of run.entry) at errors.old errors.new (option_map type_tree read)) }
    ensures err { OnErr result (errors.new ≡ errors.old) }
{
    match read_type(alloc, run) {
        Ok((type_expr, rest)) => whole_type(type_expr, rest, run, at, errors),
        Err(fault) => {
            report_no_type(fault, run, at, errors)?;
            Ok(None)
        }
    }
}

/// Reports a second lifetime at `span` if `is_declared` is `true`. In this case, a lifetime is
/// already declared.
fn report_second_lifetime(is_declared: bool, span: Span, errors: &mut Errors) -> Result<(), Memory>
    ensures ok { OnOk result (errors.new ≡ errors.old ++
        (if is_declared then many_lifetimes span ∷ [] else [])) }
    ensures err { OnErr result (errors.new ≡ errors.old) }
{
    if !is_declared {
        return Ok(());
    }
    errors.err(
        FaultCode::ManyLifetimes,
        "Logos types can only have one lifetime",
        span,
    )
}

/// Returns the span of the type given to the name `text`, or `None` if the name has no type.
fn former<'s>(types: &GivenTypes<'s>, text: &str) -> Option<Span>
    ensures { result ≡ former (map given_of types.now.entries.items) text.now }
{
    match types.get(text) {
        Some(param) => Some(param.span),
        None => None,
    }
}

/// Reports that `name` already has a type, and reports the span `former` of this type. After an
/// error the faults are unchanged.
fn report_twice(name: Ident<'_>, former: Span, errors: &mut Errors) -> Result<(), Memory>
    ensures ok { OnOk result (errors.new
        ≡ errors.old ++ given_faults (Some former) (named_of name.entry)) }
    ensures err { OnErr result (errors.new ≡ errors.old) }
{
    let mut found = Errors::new(errors.alloc());
    report_about(
        &mut found,
        FaultCode::TypeTwice,
        "",
        name,
        " can only have one type assigned to it",
    )?;
    report_previous(&mut found, former)?;
    errors.append(found)
}

/// Reports a second type for `name` if the name already has a type. `former` is the span of the
/// first type, or `None` if the name has no type. After an error, the faults are unchanged.
fn report_given(name: Ident<'_>, former: Option<Span>, errors: &mut Errors) -> Result<(), Memory>
    ensures ok { OnOk result (errors.new
        ≡ errors.old ++ given_faults former (named_of name.entry)) }
    ensures err { OnErr result (errors.new ≡ errors.old) }
{
    match former {
        Some(span) => report_twice(name, span, errors),
        None => Ok(()),
    }
}

/// Assigns the type `param` to the declared name `name`. If the name already has a type, reports
/// the second type and replaces the first type. After an error the types and faults are unchanged.
fn emit<'s>(
    types: &mut GivenTypes<'s>,
    name: Ident<'s>,
    param: TypeParam<'s>,
    errors: &mut Errors,
) -> Result<(), Memory>
    ensures types { OnOk result (map given_of types.new.entries.items ≡
        given_more (given_of (name.entry.text, param.entry))
        (map given_of types.old.entries.items)) }
    ensures faults { OnOk result (errors.new ≡ errors.old ++ given_faults
        (former (map given_of types.old.entries.items) name.entry.text.now) (named_of name.entry)) }
    ensures unchanged { OnErr result (types.new.entries.items ≡ types.old.entries.items) }
    ensures unreported { OnErr result (errors.new ≡ errors.old) }
{
    let span = former(types, name.text);
    report_given(name, span, errors)?;
    types.insert(name.text, param)?;
    Ok(())
}

/// Adds the declared name `name` to `front`. If the name was not in `front` before, and a chain of
/// types leads from the name back to this name, reports the name.
fn check_name<'s>(
    front: &mut HashSet<&'s str>,
    chains: &Chains<'_, 's>,
    name: Ident<'s>,
    errors: &mut Errors,
) -> Result<(), Memory>
    ensures { OnOk result (ChecksName (map param_value chains.now.types.now.entries.items)
        chains.now.held.items front.old.keys (named_of name.entry) errors.old
        front.new.keys errors.new) }
{
    if !front.insert(name.text)? {
        return Ok(());
    }
    if !chains.lead_back(name.text) {
        return Ok(());
    }
    report_about(
        errors,
        FaultCode::TypeHoldsItself,
        "Type parameter ",
        name,
        " holds itself",
    )
}

impl<'s> TypeParams<'s> {
    /// Returns an empty `TypeParams` that takes its memory from `alloc`.
    pub fn new(alloc: Global) -> TypeParams<'s>
        ensures { value_of result ≡ record { names = []; types = []; lifetime = false } }
    {
        TypeParams {
            names: DeclaredNames::new(alloc),
            types: GivenTypes::new(alloc),
            lifetime: false,
            alloc,
        }
    }

    /// Records that a lifetime parameter is declared. If a lifetime parameter was already declared,
    /// reports `ManyLifetimes` at `span`.
    ///
    /// # Errors
    ///
    /// Returns `Memory` if memory runs out. The parameters and faults are then unchanged.
    pub fn explicit_lifetime(&mut self, span: Span, errors: &mut Errors) -> Result<(), Memory>
        ensures value { OnOk result (value_of self.new ≡ record {
          names = (value_of self.old).names;
          types = (value_of self.old).types;
          lifetime = true;
        }) }
        ensures faults { OnOk result (errors.new ≡ errors.old ++
            (if (value_of self.old).lifetime then many_lifetimes span ∷ [] else [])) }
        ensures unchanged { OnErr result (value_of self.new ≡ value_of self.old) }
        ensures unreported { OnErr result (errors.new ≡ errors.old) }
    {
        report_second_lifetime(self.lifetime, span, errors)?;
        self.lifetime = true;
        Ok(())
    }

    /// Declares the type parameter `name`, after the parameters already declared.
    ///
    /// # Errors
    ///
    /// Returns `Memory` if memory runs out. The parameters are then unchanged.
    pub fn add(&mut self, name: Ident<'s>) -> Result<(), Memory>
        ensures ok { OnOk result (value_of self.new ≡ record {
          names = (value_of self.old).names ++ named_of name.entry ∷ [];
          types = (value_of self.old).types;
          lifetime = (value_of self.old).lifetime;
        }) }
        ensures unchanged { OnErr result (value_of self.new ≡ value_of self.old) }
    {
        self.names.push(name)?;
        Ok(())
    }

    /// Reads `value` as a type and assigns the type to the parameter `name`.
    ///
    /// Reports:
    ///
    /// - `TypeSyntax` if `value` is not a type.
    /// - `LimitTypeNesting` if too many types are nested in `value`.
    /// - `NotTypeParameter` if `name` is not declared.
    /// - `TypeTwice` with the span of the first type if the parameter already has a type.
    ///
    /// In the last case, the second type is assigned. In the other cases, no type is assigned.
    ///
    /// # Errors
    ///
    /// Returns `Memory` if memory runs out. The parameters and faults are then unchanged.
    pub fn set(
        &mut self,
        name: Ident<'s>,
        value: Tokens<'_, 's>,
        errors: &mut Errors,
    ) -> Result<(), Memory>
        ensures ok { OnOk result (IsSet (value_of self.old)
            (named_of name.entry) (tokens_of value.entry) errors.old
            (value_of self.new) errors.new) }
        ensures unchanged { OnErr result (value_of self.new ≡ value_of self.old) }
        ensures unreported { OnErr result (errors.new ≡ errors.old) }
    {
        let span = value.span();
        let Some(written) = read_value(self.alloc, value, span, errors)? else {
            return Ok(());
        };
        if !self.names.contains(name.text) {
            return report_about(
                errors,
                FaultCode::NotTypeParameter,
                "",
                name,
                " is not a declared type parameter",
            );
        }
        let part = set_lifetimes(self.alloc, &written.part)?;
        emit(
            &mut self.types,
            name,
            TypeParam {
                at: name.span,
                part,
                span,
            },
            errors,
        )
    }

    /// Reports `TypeHoldsItself` for each parameter from which a chain of types leads back to this
    /// parameter, in order of declaration. A name that is declared twice is reported only once.
    /// This takes time linear in the total size of the types.
    ///
    /// # Errors
    ///
    /// Returns `Memory` if memory runs out. The faults are then unchanged.
    pub fn check(&self, errors: &mut Errors) -> Result<(), Memory>
        ensures ok { OnOk result (AreChecked (types_of self.now) []
            (value_of self.now).names errors.old errors.new) }
        ensures unreported { OnErr result (errors.new ≡ errors.old) }
    {
        let mut found = Errors::new(self.alloc);
        self.check_all(&mut found)?;
        errors.append(found)
    }

    /// Reports each parameter from which a chain of types leads back to this parameter, in order of
    /// declaration. After an error some of the faults may have been added.
    fn check_all(&self, errors: &mut Errors) -> Result<(), Memory>
        ensures { OnOk result (AreChecked (types_of self.now) []
            (value_of self.now).names errors.old errors.new) }
    {
        let chains = Chains::new(self.alloc, &self.types)?;
        let mut front = HashSet::new(self.alloc);
        for name in &self.names.list {
            check_name(&mut front, &chains, *name, errors)?;
        }
        Ok(())
    }
}
