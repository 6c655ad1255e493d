//! Reads the values in the arguments of an attribute one after another. `AttributeParser::parsed`
//! is part of the public interface, but in this repository only tests call it.

ghost use Rattle.std.specs.Prelude.{◌≡◌, ◌≢◌, List, Option, None, IfOk, OnOk, OnErr, MatchOption, option_map};
ghost use Rattle.logos_attribute.specs.Imports.{result_ok, Fault, TokenList, none, run_span, tokens_of, type_tree, ReadsValue, literal_view, literal_report, up_to_comma, after_comma, pieces, IsReport};
ghost use Rattle.logos_attribute.specs.Nested.{pieces_left};

use crate::literal::read_literal;
use crate::nested::AttributeParser;
use logos_pattern::pattern::Literal;
use logos_token::error::{Errors, Memory};
use logos_token::token::Tokens;
use logos_type::TypeExpr;
use logos_type_params::read_value;
use std::alloc::Global;

/// The error of a value that could not be read. The fault has been added to the list of faults.
#[derive(Clone, Copy, Debug)]
pub struct Reported;

/// A type whose values can be read from a run of tokens.
pub trait FromRun<'s>: Sized {
    /// The relation between a run, the value that is read from the run, and the lists of faults
    /// before and after reading.
    ghost is_read: { TokenList → Option Self → List Fault → List Fault → Type 0 };

    /// Reads all tokens of `run` as one value. If `run` is not a value of this type, reports the
    /// run and returns `None`. An empty run is not reported if the type is `Literal`.
    ///
    /// # Errors
    ///
    /// Returns `Memory` if memory runs out. The faults are then unchanged.
    fn from_run(
        alloc: Global,
        run: Tokens<'_, 's>,
        errors: &mut Errors,
    ) -> Result<Option<Self>, Memory>
        ensures read { IfOk result (λ read.
            is_read (tokens_of run.entry) read errors.old errors.new) }
        ensures unreported { OnErr result (errors.new ≡ errors.old) };
}

/// Reads a string or a byte string. Reports any other literal as `NotText`, and any other run that
/// is not empty as `LiteralSyntax`.
impl<'s> FromRun<'s> for Literal<'s> {
    ghost is_read = { λ run read old new.
        IsReport (literal_report run) (option_map literal_view read) old new };

    fn from_run(
        alloc: Global,
        run: Tokens<'_, 's>,
        errors: &mut Errors,
    ) -> Result<Option<Literal<'s>>, Memory> {
        read_literal(alloc, run, errors)
    }
}

/// Reads a type. Reports a run that is not a type as `TypeSyntax`, and a type that is nested too
/// deeply as `LimitTypeNesting`.
impl<'s> FromRun<'s> for TypeExpr<'s> {
    ghost is_read = { λ run read old new.
        ReadsValue run (run_span run) old new (option_map type_tree read) };

    fn from_run(
        alloc: Global,
        run: Tokens<'_, 's>,
        errors: &mut Errors,
    ) -> Result<Option<TypeExpr<'s>>, Memory> {
        read_value(alloc, run, run.span(), errors)
    }
}

impl<'t, 's> AttributeParser<'t, 's> {
    /// Reads the tokens up to the next lone comma as one value. Removes these tokens and the comma.
    /// Returns `None` if no token precedes the comma, and `Some(Err(Reported))` if the tokens are
    /// not a value of the type `T`.
    ///
    /// # Errors
    ///
    /// Returns `Memory` if memory runs out. Nothing is then removed, and the faults are unchanged.
    pub fn parsed<T: FromRun<'s>>(
        &mut self,
        alloc: Global,
        errors: &mut Errors,
    ) -> Result<Option<Result<T, Reported>>, Memory>
        ensures nothing { up_to_comma (tokens_of self.old.rest) ≡ none →
            IfOk result (λ read. (read ≡ None) × (errors.new ≡ errors.old)) }
        ensures value { up_to_comma (tokens_of self.old.rest) ≢ none →
            IfOk result (λ read. MatchOption read ⊥ (λ answer. T.is_read
            (up_to_comma (tokens_of self.old.rest)) (result_ok answer) errors.old errors.new)) }
        ensures pieces { OnOk result
            (pieces_left self.new ≡ pieces (after_comma (tokens_of self.old.rest))) }
        ensures rest { OnOk result
            (tokens_of self.new.rest ≡ after_comma (tokens_of self.old.rest)) }
        ensures unchanged { OnErr result (self.new ≡ self.old) }
        ensures unreported { OnErr result (errors.new ≡ errors.old) }
    {
        let mut after = *self;
        let Some(run) = after.run() else {
            *self = after;
            return Ok(None);
        };
        let read = T::from_run(alloc, run, errors)?;
        *self = after;
        match read {
            Some(value) => Ok(Some(Ok(value))),
            None => Ok(Some(Err(Reported))),
        }
    }
}
