//! Adds the arguments of `logos(..)` to a parser. `Parser::read_logos` and the reader of attributes
//! call `add_pieces`.

use crate::definition::{Definition, read_definition};
use crate::error_type::{ErrorType, error_in};
use crate::parser::faults::{
    report_crate_form, report_error_form, report_error_twice, report_export_bytes,
    report_export_form, report_export_twice, report_extras_form, report_extras_twice,
    report_invalid_nested, report_mode_twice, report_skip_form, report_skip_group,
    report_source_old, report_subpattern_form, report_type_form, report_unknown_logos,
    report_utf8_form, report_utf8_value,
};
use crate::parser::{ExportPath, Parser, Utf8Mode};
use logos_attribute::literal::{read_text, report_syntax, string_in};
use logos_attribute::nested::{AttributeParser, Nested, NestedValue};
use logos_attribute::value::boolean_in;
use logos_pattern::pattern::Literal;
use logos_token::error::Memory;
use logos_token::token;
use logos_token::token::{Ident, Tokens};
use logos_token::util::MaybeVoid;

impl<'s> Parser<'s> {
    ghost use Rattle.std.specs.Prelude.{OnOk, IfOk, string_bytes};
    ghost use Rattle.logos_definition.specs.Views.{grouped, named, tokens_of, ident_slice, literal_slice, IsReport, map_report, and_then, text_report, string_in, literal_view, value_of, piece_of, pieces_left, definition_report, skip_plain, skip_whole, skip_report, mode_set, utf8_report, extras_set, extras_report, crate_report, path_set, held_path, export_report, subpattern_set, subpattern_report, error_set, error_report, setting_report, option_report, ReadsError, ReadsType, ReadsPiece, ReadsPieces, error_view, parser_view};

    /// Sets the UTF-8 mode to the boolean that `tokens` spell. If a mode was set before, reports
    /// both modes. If `tokens` are not a boolean, reports them and leaves the mode unchanged.
    fn set_mode(&mut self, tokens: Tokens<'_, 's>) -> Result<(), Memory>
        ensures { OnOk result (IsReport (mode_set (tokens_of tokens.entry) (parser_view self.old))
            (parser_view self.new) self.old.errors self.new.errors) }
    {
        let Some(value) = boolean_in(tokens) else {
            return report_utf8_value(tokens, &mut self.errors);
        };
        let span = tokens.span();
        if let Some(former) = self.utf8_mode.replace(Utf8Mode { value, span }) {
            report_mode_twice(span, former.span, &mut self.errors)?;
        }
        Ok(())
    }

    /// Sets the UTF-8 mode from the argument `utf8`, and reports the argument's faults.
    fn add_utf8(&mut self, name: Ident<'s>, value: &NestedValue<'_, 's>) -> Result<(), Memory>
        ensures { OnOk result (IsReport
            (utf8_report (ident_slice name.entry) (value_of value.now) (parser_view self.old))
            (parser_view self.new) self.old.errors self.new.errors) }
    {
        match value {
            NestedValue::Assign(tokens) => self.set_mode(*tokens)?,
            _ => report_utf8_form(name, &mut self.errors)?,
        }
        Ok(())
    }

    /// Sets the type of extras to `tokens`. If a type of extras was set before, reports both types.
    fn set_extras(&mut self, tokens: Tokens<'_, 's>) -> Result<(), Memory>
        ensures { OnOk result (IsReport (extras_set (tokens_of tokens.entry) (parser_view self.old))
            (parser_view self.new) self.old.errors self.new.errors) }
    {
        let stream = tokens.to_stream(self.alloc)?;
        if let MaybeVoid::Some(former) = self.extras.replace(stream) {
            report_extras_twice(tokens.span(), former.run().span(), &mut self.errors)?;
        }
        Ok(())
    }

    /// Sets the type of extras from the argument `extras`, and reports the argument's faults.
    fn add_extras(&mut self, name: Ident<'s>, value: &NestedValue<'_, 's>) -> Result<(), Memory>
        ensures { OnOk result (IsReport
            (extras_report (ident_slice name.entry) (value_of value.now) (parser_view self.old))
            (parser_view self.new) self.old.errors self.new.errors) }
    {
        match value {
            NestedValue::Assign(tokens) => self.set_extras(*tokens)?,
            _ => report_extras_form(name, &mut self.errors)?,
        }
        Ok(())
    }

    /// Sets the path of the crate from the argument `crate`, and reports the argument's faults. A
    /// second path replaces the first one without a report.
    fn add_crate(&mut self, name: Ident<'s>, value: &NestedValue<'_, 's>) -> Result<(), Memory>
        ensures { OnOk result (IsReport
            (crate_report (ident_slice name.entry) (value_of value.now) (parser_view self.old))
            (parser_view self.new) self.old.errors self.new.errors) }
    {
        match value {
            NestedValue::Assign(tokens) => {
                self.logos_path = Some(tokens.to_stream(self.alloc)?);
            }
            _ => report_crate_form(name, &mut self.errors)?,
        }
        Ok(())
    }

    /// Sets the path of the exported state diagram to `path`. If a path was set before, reports
    /// both paths. `tokens` are the tokens that spell `path`.
    fn set_path(&mut self, tokens: Tokens<'_, 's>, path: String) -> Result<(), Memory>
        ensures { OnOk result (IsReport
            (path_set (tokens_of tokens.entry) (string_bytes path) (parser_view self.old))
            (parser_view self.new) self.old.errors self.new.errors) }
    {
        let span = tokens.span();
        if let Some(former) = self.export_path.replace(ExportPath { path, span }) {
            report_export_twice(span, former.span, &mut self.errors)?;
        }
        Ok(())
    }

    /// Sets the path of the exported state diagram to the value of `literal`. `tokens` are the
    /// tokens of the literal. If the literal is a byte string, reports it and leaves the path
    /// unchanged.
    fn add_path(&mut self, tokens: Tokens<'_, 's>, literal: &Literal<'s>) -> Result<(), Memory>
        ensures { OnOk result (IsReport
            (held_path (tokens_of tokens.entry) (parser_view self.old)
            (literal_view literal.now).held)
            (parser_view self.new) self.old.errors self.new.errors) }
    {
        match literal {
            Literal::Utf8(_) => {
                let path = literal.escape(self.alloc, false)?;
                self.set_path(tokens, path)?;
            }
            Literal::Bytes(_) => report_export_bytes(tokens, &mut self.errors)?,
        }
        Ok(())
    }

    /// Sets the path of the exported state diagram from the argument `export_dir`, and reports the
    /// argument's faults.
    fn add_export(&mut self, name: Ident<'s>, value: &NestedValue<'_, 's>) -> Result<(), Memory>
        ensures { OnOk result (IsReport
            (export_report (ident_slice name.entry) (value_of value.now) (parser_view self.old))
            (parser_view self.new) self.old.errors self.new.errors) }
    {
        match value {
            NestedValue::Assign(tokens) => match string_in(self.alloc, *tokens)? {
                Some(literal) => self.add_path(*tokens, &literal)?,
                None => report_syntax(*tokens, &mut self.errors)?,
            },
            _ => report_export_form(name, &mut self.errors)?,
        }
        Ok(())
    }

    /// Appends the subpattern `name` with the literal that `tokens` spell. If `tokens` are not a
    /// string or byte string, reports them and appends nothing.
    fn set_subpattern(&mut self, name: Ident<'s>, tokens: Tokens<'_, 's>) -> Result<(), Memory>
        ensures { OnOk result (IsReport
            (subpattern_set (ident_slice name.entry) (tokens_of tokens.entry)
            (parser_view self.old) (string_in (tokens_of tokens.entry)))
            (parser_view self.new) self.old.errors self.new.errors) }
    {
        match string_in(self.alloc, tokens)? {
            Some(literal) => self.subpatterns.push((name, literal))?,
            None => report_syntax(tokens, &mut self.errors)?,
        }
        Ok(())
    }

    /// Appends the subpattern of the argument `subpattern`, or reports the argument's fault.
    fn add_subpattern(&mut self, name: Ident<'s>, value: &NestedValue<'_, 's>) -> Result<(), Memory>
        ensures { OnOk result (IsReport
            (subpattern_report (ident_slice name.entry) (value_of value.now)
            (parser_view self.old))
            (parser_view self.new) self.old.errors self.new.errors) }
    {
        match value {
            NestedValue::KeywordAssign(second, tokens) => self.set_subpattern(*second, *tokens)?,
            _ => report_subpattern_form(name, &mut self.errors)?,
        }
        Ok(())
    }

    /// Sets the error type to `error`. If an error type was set before, reports both types.
    /// `tokens` are the tokens that spell `error`.
    fn set_error(&mut self, tokens: Tokens<'_, 's>, error: ErrorType<'s>) -> Result<(), Memory>
        ensures { OnOk result (IsReport
            (error_set (tokens_of tokens.entry) (error_view error.entry) (parser_view self.old))
            (parser_view self.new) self.old.errors self.new.errors) }
    {
        if let Some(former) = self.error_type.replace(error) {
            report_error_twice(tokens.span(), former.span(), &mut self.errors)?;
        }
        Ok(())
    }

    /// Sets the error type from an argument `error` other than `error(..)`, and reports the
    /// argument's faults.
    fn add_error_alone(
        &mut self,
        name: Ident<'s>,
        value: &NestedValue<'_, 's>,
    ) -> Result<(), Memory>
        ensures { OnOk result (IsReport
            (error_report (ident_slice name.entry) (value_of value.now) (parser_view self.old))
            (parser_view self.new) self.old.errors self.new.errors) }
    {
        match value {
            NestedValue::Assign(tokens) => {
                let error = ErrorType::new(tokens.to_stream(self.alloc)?);
                self.set_error(*tokens, error)?;
            }
            _ => report_error_form(name, &mut self.errors)?,
        }
        Ok(())
    }

    /// Sets the error type from `error(..)`, and reports the argument's faults. Returns whether the
    /// following arguments of `logos(..)` are read: `false` if the group does not begin with a
    /// type.
    fn add_error_group(&mut self, name: Ident<'s>, group: Tokens<'_, 's>) -> Result<bool, Memory>
        ensures { IfOk result (λ continues. ReadsError (ident_slice name.entry)
            (parser_view self.old) (parser_view self.new) self.old.errors self.new.errors
            (grouped (tokens_of group.entry)) continues) }
    {
        let Some(error) = error_in(group, &mut self.errors)? else {
            return Ok(false);
        };
        self.set_error(group, error)?;
        Ok(true)
    }

    /// Sets the error type from the argument `error`, and reports the argument's faults. Returns
    /// whether the following arguments are read.
    fn add_error(&mut self, name: Ident<'s>, value: &NestedValue<'_, 's>) -> Result<bool, Memory>
        ensures { IfOk result (λ continues. ReadsError (ident_slice name.entry)
            (parser_view self.old) (parser_view self.new) self.old.errors self.new.errors
            (value_of value.now) continues) }
    {
        if let NestedValue::Group(group) = value {
            return self.add_error_group(name, *group);
        }
        self.add_error_alone(name, value)?;
        Ok(true)
    }

    /// Assigns a type to the parameter that the argument `type` names, and reports the argument's
    /// faults.
    fn add_type(&mut self, name: Ident<'s>, value: &NestedValue<'_, 's>) -> Result<(), Memory>
        ensures { OnOk result (ReadsType (ident_slice name.entry)
            (parser_view self.old) (parser_view self.new) self.old.errors self.new.errors
            (value_of value.now)) }
    {
        match value {
            NestedValue::KeywordAssign(second, tokens) => {
                self.types.set(*second, *tokens, &mut self.errors)?
            }
            _ => report_type_form(name, &mut self.errors)?,
        }
        Ok(())
    }

    /// Appends the definition of `skip "..."` with the literal `token`. If the literal is not a
    /// string or byte string, reports it and appends nothing.
    fn skip_text(&mut self, token: token::Literal<'s>) -> Result<(), Memory>
        ensures { OnOk result (IsReport
            (map_report (skip_plain (parser_view self.old))
            (text_report (literal_slice token.entry)))
            (parser_view self.new) self.old.errors self.new.errors) }
    {
        if let Some(literal) = read_text(self.alloc, token, &mut self.errors)? {
            self.skips.push(Definition::new(literal))?;
        }
        Ok(())
    }

    /// Appends the definition in `skip(..)`, or reports that the definition is missing.
    fn skip_group(&mut self, tokens: Tokens<'_, 's>) -> Result<(), Memory>
        ensures { OnOk result (IsReport
            (and_then (definition_report (tokens_of tokens.entry))
            (skip_whole (tokens_of tokens.entry) (parser_view self.old)))
            (parser_view self.new) self.old.errors self.new.errors) }
    {
        match read_definition(tokens, &mut self.errors)? {
            Some(definition) => self.skips.push(definition)?,
            None => report_skip_group(tokens, &mut self.errors)?,
        }
        Ok(())
    }

    /// Appends the definition of the argument `skip`, and reports the argument's faults.
    fn add_skip(&mut self, name: Ident<'s>, value: &NestedValue<'_, 's>) -> Result<(), Memory>
        ensures { OnOk result (IsReport
            (skip_report (ident_slice name.entry) (value_of value.now) (parser_view self.old))
            (parser_view self.new) self.old.errors self.new.errors) }
    {
        match value {
            NestedValue::Literal(token) => self.skip_text(*token)?,
            NestedValue::Group(tokens) => self.skip_group(*tokens)?,
            _ => report_skip_form(name, &mut self.errors)?,
        }
        Ok(())
    }

    /// Adds the argument `utf8`, `extras` or `crate` to the options. Reports the argument `source`,
    /// and any argument with an unknown name.
    fn add_setting(&mut self, name: Ident<'s>, value: &NestedValue<'_, 's>) -> Result<(), Memory>
        ensures { OnOk result (IsReport
            (setting_report (ident_slice name.entry) (value_of value.now) (parser_view self.old))
            (parser_view self.new) self.old.errors self.new.errors) }
    {
        if name.text == "utf8" {
            return self.add_utf8(name, value);
        }
        if name.text == "extras" {
            return self.add_extras(name, value);
        }
        if name.text == "crate" {
            return self.add_crate(name, value);
        }
        if name.text == "source" {
            return report_source_old(name, &mut self.errors);
        }
        report_unknown_logos(name, &mut self.errors)
    }

    /// Adds a named argument other than `error` and `type` to the options, and reports the
    /// argument's faults.
    fn add_plain(&mut self, name: Ident<'s>, value: &NestedValue<'_, 's>) -> Result<(), Memory>
        ensures { OnOk result (IsReport
            (option_report (ident_slice name.entry) (value_of value.now) (parser_view self.old))
            (parser_view self.new) self.old.errors self.new.errors) }
    {
        if name.text == "skip" {
            return self.add_skip(name, value);
        }
        if name.text == "subpattern" {
            return self.add_subpattern(name, value);
        }
        if name.text == "export_dir" {
            return self.add_export(name, value);
        }
        self.add_setting(name, value)
    }

    /// Adds a named argument to the options, and reports the argument's faults. Returns whether the
    /// following arguments are read.
    fn add_named(&mut self, name: Ident<'s>, value: &NestedValue<'_, 's>) -> Result<bool, Memory>
        ensures { IfOk result (ReadsPiece
            (parser_view self.old) (parser_view self.new) self.old.errors self.new.errors
            (named (ident_slice name.entry) (value_of value.now))) }
    {
        if name.text == "error" {
            return self.add_error(name, value);
        }
        if name.text == "type" {
            self.add_type(name, value)?;
            return Ok(true);
        }
        self.add_plain(name, value)?;
        Ok(true)
    }

    /// Adds an argument to the options, and reports the argument's faults. Returns whether the
    /// following arguments are read.
    fn add_piece(&mut self, piece: Nested<'_, 's>) -> Result<bool, Memory>
        ensures { IfOk result (ReadsPiece
            (parser_view self.old) (parser_view self.new) self.old.errors self.new.errors
            (piece_of piece.entry)) }
    {
        match piece {
            Nested::Named(name, value) => return self.add_named(name, &value),
            Nested::Unnamed(tokens) => report_invalid_nested(tokens, &mut self.errors)?,
            Nested::Unexpected(tokens) => report_invalid_nested(tokens, &mut self.errors)?,
        }
        Ok(true)
    }

    /// Adds arguments to the options in source order, and reports their faults. Stops after an
    /// `error(..)` that does not begin with a type.
    pub(super) fn add_pieces(&mut self, pieces: AttributeParser<'_, 's>) -> Result<(), Memory>
        ensures { OnOk result (ReadsPieces
            (parser_view self.old) (parser_view self.new) self.old.errors self.new.errors
            (pieces_left pieces.entry)) }
    {
        let mut pieces = pieces;
        while let Some(piece) = pieces.next() {
            if !self.add_piece(piece)? {
                return Ok(());
            }
        }
        Ok(())
    }
}
