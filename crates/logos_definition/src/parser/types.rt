//! Declares the generic parameters of an enum, and replaces these parameters in types. `logos_leaf`
//! calls `parse_generic` for each parameter.

ghost use Rattle.std.specs.Prelude.{OnOk, ◌≡◌, ◌++◌, [], IfOk, OnErr, option_map, true};
ghost use Rattle.logos_definition.specs.Views.{AddsFault, run_span, tokens_of, type_tree, IsReport, ident_slice, generics, generics_of, missing_types, GetsUnheld, const_generic, parameter_report, parser_view, HasNotFailed};
ghost use Rattle.logos_type_params.specs.TypeParams.{value_of};

use crate::parser::Parser;
use logos_enum::{Parameter, ParameterKind};
use logos_token::error::{Errors, FaultCode, Memory};
use logos_token::token::Span;
use logos_type::TypeExpr;
use logos_type_params::Generics;

/// Reports the constant parameter at `span`.
fn report_const(span: Span, errors: &mut Errors) -> Result<(), Memory>
    ensures { OnOk result (AddsFault (const_generic span) errors.old errors.new) }
{
    errors.err(
        FaultCode::ConstGeneric,
        "Logos doesn't support const generics.",
        span,
    )
}

impl<'s> Parser<'s> {
    /// Declares a generic parameter: a lifetime or a type. Reports a constant parameter and a
    /// second lifetime.
    fn add_parameter(&mut self, parameter: Parameter<'_, 's>) -> Result<(), Memory>
        ensures { OnOk result (IsReport
            (parameter_report parameter.entry.kind (ident_slice parameter.entry.name)
            (run_span (tokens_of parameter.entry.run)) (parser_view self.old))
            (parser_view self.new) self.old.errors self.new.errors) }
    {
        let span = parameter.run.span();
        match parameter.kind {
            ParameterKind::Lifetime => self.types.explicit_lifetime(span, &mut self.errors),
            ParameterKind::Type => self.types.add(parameter.name),
            ParameterKind::Const => report_const(span, &mut self.errors),
        }
    }

    /// Declares a generic parameter: a lifetime, or a type by its name. Reports a constant
    /// parameter and a second lifetime. The faults have the span of the whole parameter.
    ///
    /// # Errors
    ///
    /// Returns `Memory` if memory runs out. The parser has then failed.
    pub fn parse_generic(&mut self, parameter: Parameter<'_, 's>) -> Result<(), Memory>
        ensures ok { OnOk result (IsReport
            (parameter_report parameter.entry.kind (ident_slice parameter.entry.name)
            (run_span (tokens_of parameter.entry.run)) (parser_view self.old))
            (parser_view self.new) self.old.errors self.new.errors) }
        ensures not_failed { OnOk result (HasNotFailed self.old self.new) }
        ensures err { OnErr result (self.new.failed ≡ true) }
    {
        unless_failed!(self, self.add_parameter(parameter))
    }

    /// Returns the generic arguments that follow the enum's name: `'s` if a lifetime is declared,
    /// and then the types assigned to the declared parameters, in the order of declaration. Returns
    /// `None` if there are no arguments. Reports and leaves out each parameter without a type.
    ///
    /// # Errors
    ///
    /// Returns `Memory` if memory runs out. The parser has then failed.
    pub fn generics(&mut self) -> Result<Option<Generics<'s>>, Memory>
        ensures value { IfOk result (λ made. option_map generics_of made
            ≡ generics (value_of self.old.types)) }
        ensures faults { OnOk result (self.new.errors ≡ self.old.errors ++ missing_types
            (value_of self.old.types).types [] (value_of self.old.types).names) }
        ensures options { OnOk result (parser_view self.new ≡ parser_view self.old) }
        ensures not_failed { OnOk result (HasNotFailed self.old self.new) }
        ensures err { OnErr result (self.new.failed ≡ true) }
    {
        unless_failed!(self, self.types.generics(&mut self.errors))
    }

    /// Returns the type that `get_type` returns, without checking whether the parser has failed.
    fn written_type(&mut self, written: &TypeExpr<'s>, span: Span) -> Result<TypeExpr<'s>, Memory>
        ensures got { IfOk result (λ got. GetsUnheld self.old.types (type_tree written.now) span
            self.old.errors self.new.errors (type_tree got)) }
        ensures options { parser_view self.new ≡ parser_view self.old }
        ensures not_failed { self.new.failed ≡ self.old.failed }
    {
        let held = self.types.held_names()?;
        let got = self.types.get_type(&held, written, span, &mut self.errors)?;
        Ok(got)
    }

    /// Returns the type `written` with each declared parameter replaced by the type assigned to it,
    /// and with each lifetime replaced by `'s`. A parameter is not replaced if the type assigned to
    /// it contains the parameter itself. Each call searches anew for the parameters that are not
    /// replaced.
    ///
    /// If the result has more than 128 levels of nested types, reports the nesting at `span` and
    /// returns the type as written.
    ///
    /// # Errors
    ///
    /// Returns `Memory` if memory runs out. The parser has then failed.
    pub fn get_type(&mut self, written: &TypeExpr<'s>, span: Span) -> Result<TypeExpr<'s>, Memory>
        ensures ok { IfOk result (λ got. GetsUnheld self.old.types (type_tree written.now) span
            self.old.errors self.new.errors (type_tree got)) }
        ensures options { OnOk result (parser_view self.new ≡ parser_view self.old) }
        ensures not_failed { OnOk result (HasNotFailed self.old self.new) }
        ensures err { OnErr result (self.new.failed ≡ true) }
    {
        unless_failed!(self, self.written_type(written, span))
    }
}
