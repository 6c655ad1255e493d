//! Reads error types and their callbacks. The parser calls `error_in` for `error(..)` in
//! `logos(..)`.

ghost use Rattle.std.specs.Prelude.{OnOk, IfOk, option_map, true, ◌≡◌, OnErr, string_bytes};
ghost use Rattle.logos_definition.specs.Views.{type_tree, tokens_of, ident_slice, pieces_left, AddsFault, IsReport, unknown_error_argument, error_read, error_arguments_report, error_empty, ErrorGroup, stream_tokens, value_of, piece_of, error_alone, no_error, error_span, error_text, error_named_report, error_argument_report, error_view};

use crate::arguments::{add_callback, add_unnamed};
use crate::definition::faults::report_unexpected;
use logos_attribute::nested::{AttributeParser, Nested, NestedValue};
use logos_attribute::reports::report_run;
use logos_pattern::leaf::Callback;
use logos_token::error::{Detail, Errors, FaultCode, Memory};
use logos_token::token::{Ident, Span, TokenStream, Tokens};
use logos_token::util::MaybeVoid;
use logos_type::{TypeExpr, print_type};
use logos_type_params::read_value;
use logos_type_params::reports::report_about_with;
use std::alloc::Global;

/// The error type of a lexer, with the callback that creates an error.
#[derive(Drop)]
pub struct ErrorType<'s> {
    /// The tokens of the type, or `Void` for the type `()`.
    pub ty: MaybeVoid<'s>,
    /// The type that was read from the tokens: `Some` for `error(..)`, and `None` for `error = ..`.
    pub type_expr: Option<TypeExpr<'s>>,
    /// The callback that creates an error, if there is one.
    pub callback: Option<Callback<'s>>,
}

/// Reports `name`, an unknown name in `error(..)`.
fn report_unknown(name: Ident<'_>, errors: &mut Errors) -> Result<(), Memory>
    ensures { OnOk result
        (AddsFault (unknown_error_argument (ident_slice name.entry)) errors.old errors.new) }
{
    report_about_with(
        errors,
        FaultCode::UnknownNested,
        "Unknown nested attribute: ",
        name,
        "\n\nExpected one of: callback",
        Detail::ErrorArgument,
    )
}

impl<'s> ErrorType<'s> {
    /// Returns the error type with the tokens `ty`, without a callback.
    pub fn new(ty: TokenStream<'s>) -> ErrorType<'s>
        ensures { error_view result ≡ error_alone (stream_tokens ty.entry) }
    {
        ErrorType {
            ty: MaybeVoid::Some(ty),
            type_expr: None,
            callback: None,
        }
    }

    /// Returns the error type `()`, without a callback. Does not allocate.
    pub fn default(_alloc: Global) -> ErrorType<'s>
        ensures { error_view result ≡ no_error }
    {
        ErrorType {
            ty: MaybeVoid::Void,
            type_expr: None,
            callback: None,
        }
    }

    /// Returns the text of the type: the text of `type_expr` if the type was read, and otherwise
    /// the text of the tokens, or `()` if there are no tokens. Lifetimes and parameters are printed
    /// as in the source.
    ///
    /// # Errors
    ///
    /// Returns `Memory` if memory runs out.
    pub fn print(&self, alloc: Global) -> Result<String, Memory>
        ensures { IfOk result (λ text. string_bytes text ≡ error_text (error_view self.now)) }
    {
        match &self.type_expr {
            Some(type_expr) => print_type(alloc, type_expr),
            None => self.ty.print(alloc),
        }
    }

    /// Returns the span of the type in the source, from the first token to the last, or `0..0` if
    /// the type has no tokens.
    pub fn span(&self) -> Span
        ensures { result ≡ error_span (error_view self.now) }
    {
        match &self.ty {
            MaybeVoid::Some(tokens) => tokens.run().span(),
            MaybeVoid::Void => Span { from: 0, to: 0 },
        }
    }

    /// Adds the argument `name` with `value` to the error type, and reports the argument's faults.
    /// If memory runs out, the error type is unchanged.
    pub(crate) fn add_named(
        &mut self,
        name: Ident<'s>,
        value: &NestedValue<'_, 's>,
        errors: &mut Errors,
    ) -> Result<(), Memory>
        ensures ok { OnOk result (IsReport
            (error_named_report (ident_slice name.entry) (value_of value.now) (error_view self.old))
            (error_view self.new) errors.old errors.new) }
        ensures unchanged { OnErr result (self.new ≡ self.old) }
    {
        if name.text == "callback" {
            return add_callback(&mut self.callback, name, value, errors);
        }
        report_unknown(name, errors)
    }

    /// Adds an argument after the type to the error type, and reports the argument's faults.
    /// `first` is `true` for the first argument. Only the first argument can be a callback without
    /// a name.
    fn add_argument(
        &mut self,
        first: bool,
        piece: Nested<'_, 's>,
        errors: &mut Errors,
    ) -> Result<(), Memory>
        ensures { OnOk result (IsReport
            (error_argument_report first (piece_of piece.entry) (error_view self.old))
            (error_view self.new) errors.old errors.new) }
    {
        match piece {
            Nested::Unexpected(tokens) => report_unexpected(tokens, errors)?,
            Nested::Unnamed(tokens) => add_unnamed(&mut self.callback, first, tokens, errors)?,
            Nested::Named(name, value) => self.add_named(name, &value, errors)?,
        }
        Ok(())
    }

    /// Adds all arguments after the type to the error type, and reports their faults.
    pub(crate) fn add_arguments(
        &mut self,
        pieces: AttributeParser<'_, 's>,
        errors: &mut Errors,
    ) -> Result<(), Memory>
        ensures { OnOk result (IsReport
            (error_arguments_report true (pieces_left pieces.entry) (error_view self.old))
            (error_view self.new) errors.old errors.new) }
    {
        let mut first = true;
        let mut pieces = pieces;
        while let Some(piece) = pieces.next() {
            self.add_argument(first, piece, errors)?;
            first = false;
        }
        Ok(())
    }
}

/// Reports that the group of `error(..)` contains no type. `group` contains the tokens of this
/// group.
fn report_empty(group: Tokens<'_, '_>, errors: &mut Errors) -> Result<(), Memory>
    ensures { OnOk result (AddsFault (error_empty (tokens_of group.entry)) errors.old errors.new) }
{
    report_run(
        errors,
        FaultCode::ErrorEmpty,
        "Expected #[logos(error(SomeType))]",
        group,
    )
}

/// Returns the error type `type_expr` with the arguments in `pieces`. Reports the faults of the
/// arguments. `run` contains the tokens of the type. The first argument can be a callback without a
/// name.
fn with_arguments<'s>(
    run: Tokens<'_, 's>,
    type_expr: TypeExpr<'s>,
    pieces: AttributeParser<'_, 's>,
    errors: &mut Errors,
) -> Result<ErrorType<'s>, Memory>
    ensures { IfOk result (λ error. IsReport
        (error_arguments_report true (pieces_left pieces.entry)
        (error_read (tokens_of run.entry) (type_tree type_expr.entry)))
        (error_view error) errors.old errors.new) }
{
    let mut error = ErrorType {
        ty: MaybeVoid::Some(run.to_stream(errors.alloc())?),
        type_expr: Some(type_expr),
        callback: None,
    };
    error.add_arguments(pieces, errors)?;
    Ok(error)
}

/// Reads the error type in `error(..)`. If the group does not begin with a type, reports the fault
/// at the span of the group and returns `None`.
pub(crate) fn error_in<'s>(
    group: Tokens<'_, 's>,
    errors: &mut Errors,
) -> Result<Option<ErrorType<'s>>, Memory>
    ensures { IfOk result (λ error. ErrorGroup
        (tokens_of group.entry) errors.old errors.new (option_map error_view error)) }
{
    let mut pieces = AttributeParser::new(group);
    let Some(run) = pieces.run() else {
        report_empty(group, errors)?;
        return Ok(None);
    };
    let Some(type_expr) = read_value(errors.alloc(), run, group.span(), errors)? else {
        return Ok(None);
    };
    let error = with_arguments(run, type_expr, pieces, errors)?;
    Ok(Some(error))
}
