//! Reads definitions: the literal of a `token`, `regex` or `skip(..)`, and the arguments after it.
//! `logos_leaf` reads a definition for each `token` and `regex`, and the parser reads one for each
//! `skip(..)`.

ghost use Rattle.std.specs.Prelude.{◌≡◌, OnOk, OnErr, IfOk, option_map, true};
ghost use Rattle.logos_definition.specs.Views.{tokens_of, ident_slice, IsReport, priority_set, greedy_set, definition_report, value_of, piece_of, pieces_left, literal_view, plain, priority_report, ignore_report, greedy_report, named_report, argument_report, arguments_report, definition_view};

pub(crate) mod faults;

use crate::arguments::{add_callback, add_unnamed};
use crate::definition::faults::{
    report_greedy_form, report_greedy_twice, report_greedy_value, report_ignore_form,
    report_priority_form, report_priority_twice, report_priority_value, report_unexpected,
    report_unknown,
};
use crate::ignore_flags::IgnoreFlags;
use logos_attribute::flags::read_flags;
use logos_attribute::literal::read_literal;
use logos_attribute::nested::{AttributeParser, Nested, NestedValue};
use logos_attribute::value::{boolean_in, number_in};
use logos_pattern::leaf::Callback;
use logos_pattern::pattern::Literal;
use logos_token::error::{Errors, Memory};
use logos_token::token::{Ident, Tokens};

/// The literal of a `token`, `regex` or `skip`, and the arguments after it.
#[derive(Drop)]
pub struct Definition<'s> {
    pub literal: Literal<'s>,
    pub priority: Option<usize>,
    pub callback: Option<Callback<'s>>,
    /// The value of the argument `allow_greedy`, or `None` if the argument does not occur. If the
    /// value is `true`, a greedy repetition of a dot is allowed.
    pub allow_greedy: Option<bool>,
    pub ignore_flags: IgnoreFlags,
}

/// Sets `priority` to the number that `tokens` spell. If a priority was set before, also reports
/// `tokens`. If `tokens` are not a number, reports them and leaves the priority unchanged. The
/// priority is also unchanged if memory runs out.
fn set_priority(
    priority: &mut Option<usize>,
    tokens: Tokens<'_, '_>,
    errors: &mut Errors,
) -> Result<(), Memory>
    ensures ok { OnOk result (IsReport
        (priority_set (tokens_of tokens.entry) priority.old)
        priority.new errors.old errors.new) }
    ensures unchanged { OnErr result (priority.new ≡ priority.old) }
{
    let Some(next) = number_in(tokens) else {
        report_priority_value(tokens, errors)?;
        return Ok(());
    };
    if priority.is_some() {
        report_priority_twice(tokens, errors)?;
    }
    *priority = Some(next);
    Ok(())
}

/// Sets `allow`, the value of `allow_greedy`, to the boolean that `tokens` spell. If a value was
/// set before, also reports `tokens`. If `tokens` are not a boolean, reports them and leaves the
/// value unchanged. The value is also unchanged if memory runs out.
fn set_greedy(
    allow: &mut Option<bool>,
    tokens: Tokens<'_, '_>,
    errors: &mut Errors,
) -> Result<(), Memory>
    ensures ok { OnOk result (IsReport
        (greedy_set (tokens_of tokens.entry) allow.old)
        allow.new errors.old errors.new) }
    ensures unchanged { OnErr result (allow.new ≡ allow.old) }
{
    let Some(next) = boolean_in(tokens) else {
        report_greedy_value(tokens, errors)?;
        return Ok(());
    };
    if allow.is_some() {
        report_greedy_twice(tokens, errors)?;
    }
    *allow = Some(next);
    Ok(())
}

impl<'s> Definition<'s> {
    /// Returns the definition with `literal` and no arguments.
    pub fn new(literal: Literal<'s>) -> Definition<'s>
        ensures { definition_view result ≡ plain (literal_view literal.entry) }
    {
        Definition {
            literal,
            priority: None,
            callback: None,
            allow_greedy: None,
            ignore_flags: IgnoreFlags { ignore_case: false },
        }
    }

    /// Sets the priority from the argument `priority`, and reports the argument's faults. If memory
    /// runs out, the definition is unchanged.
    fn add_priority(
        &mut self,
        name: Ident<'s>,
        value: &NestedValue<'_, 's>,
        errors: &mut Errors,
    ) -> Result<(), Memory>
        ensures ok { OnOk result (IsReport
            (priority_report (ident_slice name.entry) (value_of value.now)
            (definition_view self.old))
            (definition_view self.new) errors.old errors.new) }
        ensures unchanged { OnErr result (self.new ≡ self.old) }
    {
        match value {
            NestedValue::Assign(tokens) => set_priority(&mut self.priority, *tokens, errors)?,
            _ => report_priority_form(name, errors)?,
        }
        Ok(())
    }

    /// Sets the flags in `ignore(..)`, and reports the argument's faults. If memory runs out, the
    /// definition is unchanged.
    fn add_ignore(
        &mut self,
        name: Ident<'s>,
        value: &NestedValue<'_, 's>,
        errors: &mut Errors,
    ) -> Result<(), Memory>
        ensures ok { OnOk result (IsReport
            (ignore_report (ident_slice name.entry) (value_of value.now) (definition_view self.old))
            (definition_view self.new) errors.old errors.new) }
        ensures unchanged { OnErr result (self.new ≡ self.old) }
    {
        match value {
            NestedValue::Group(tokens) => {
                read_flags(&mut self.ignore_flags.ignore_case, name, *tokens, errors)?
            }
            _ => report_ignore_form(name, errors)?,
        }
        Ok(())
    }

    /// Sets the value of `allow_greedy`, and reports the argument's faults. If memory runs out, the
    /// definition is unchanged.
    fn add_greedy(
        &mut self,
        name: Ident<'s>,
        value: &NestedValue<'_, 's>,
        errors: &mut Errors,
    ) -> Result<(), Memory>
        ensures ok { OnOk result (IsReport
            (greedy_report (ident_slice name.entry) (value_of value.now) (definition_view self.old))
            (definition_view self.new) errors.old errors.new) }
        ensures unchanged { OnErr result (self.new ≡ self.old) }
    {
        match value {
            NestedValue::Assign(tokens) => set_greedy(&mut self.allow_greedy, *tokens, errors)?,
            _ => report_greedy_form(name, errors)?,
        }
        Ok(())
    }

    /// Adds the argument `name` with `value` to the definition, and reports the argument's faults.
    /// If memory runs out, the definition is unchanged.
    pub(crate) fn add_named(
        &mut self,
        name: Ident<'s>,
        value: &NestedValue<'_, 's>,
        errors: &mut Errors,
    ) -> Result<(), Memory>
        ensures ok { OnOk result (IsReport
            (named_report (ident_slice name.entry) (value_of value.now) (definition_view self.old))
            (definition_view self.new) errors.old errors.new) }
        ensures unchanged { OnErr result (self.new ≡ self.old) }
    {
        if name.text == "priority" {
            return self.add_priority(name, value, errors);
        }
        if name.text == "callback" {
            return add_callback(&mut self.callback, name, value, errors);
        }
        if name.text == "ignore" {
            return self.add_ignore(name, value, errors);
        }
        if name.text == "allow_greedy" {
            return self.add_greedy(name, value, errors);
        }
        report_unknown(name, errors)
    }

    /// Adds an argument after the literal to the definition, and reports the argument's faults.
    /// `first` is `true` for the first argument. Only the first argument can be a callback without
    /// a name.
    fn add_argument(
        &mut self,
        first: bool,
        piece: Nested<'_, 's>,
        errors: &mut Errors,
    ) -> Result<(), Memory>
        ensures { OnOk result (IsReport
            (argument_report first (piece_of piece.entry) (definition_view self.old))
            (definition_view self.new) errors.old errors.new) }
    {
        match piece {
            Nested::Unexpected(tokens) => report_unexpected(tokens, errors)?,
            Nested::Unnamed(tokens) => add_unnamed(&mut self.callback, first, tokens, errors)?,
            Nested::Named(name, value) => self.add_named(name, &value, errors)?,
        }
        Ok(())
    }

    /// Adds all arguments after the literal to the definition, and reports their faults.
    fn add_arguments(
        &mut self,
        pieces: AttributeParser<'_, 's>,
        errors: &mut Errors,
    ) -> Result<(), Memory>
        ensures { OnOk result (IsReport
            (arguments_report true (pieces_left pieces.entry) (definition_view self.old))
            (definition_view self.new) errors.old errors.new) }
    {
        let mut first = true;
        let mut pieces = pieces;
        while let Some(piece) = pieces.next() {
            self.add_argument(first, piece, errors)?;
            first = false;
        }
        Ok(())
    }
}

/// Reads the definition in the parentheses of `token`, `regex` or `skip`. If `tokens` do not begin
/// with a string or byte string, returns `None`, and reports the tokens found instead, if there are
/// any. If memory runs out, some of the faults may have been added.
pub(crate) fn read_definition<'s>(
    tokens: Tokens<'_, 's>,
    errors: &mut Errors,
) -> Result<Option<Definition<'s>>, Memory>
    ensures { IfOk result (λ definition.
        IsReport (definition_report (tokens_of tokens.entry))
        (option_map definition_view definition) errors.old errors.new) }
{
    let mut pieces = AttributeParser::new(tokens);
    let Some(run) = pieces.run() else {
        return Ok(None);
    };
    let Some(literal) = read_literal(errors.alloc(), run, errors)? else {
        return Ok(None);
    };
    let mut definition = Definition::new(literal);
    definition.add_arguments(pieces, errors)?;
    Ok(Some(definition))
}
