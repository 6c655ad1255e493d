//! Reads whole attributes of an enum and its variants. `logos_leaf` calls `try_parse_logos` or
//! `parse_definition_attr` for each attribute.

ghost use Rattle.std.specs.Prelude.{OnOk, ◌≡◌, OnErr, IfOk, option_map, true};
ghost use Rattle.logos_definition.specs.Views.{AddsFault, attribute_value, IsReport, logos_form, meta_report, ReadsMeta, ReadsAttribute, definition_view, meta_of, meta_view, parser_view, HasNotFailed};

use crate::definition::{Definition, read_definition};
use crate::meta::{Meta, meta_of};
use crate::parser::Parser;
use logos_attribute::nested::AttributeParser;
use logos_enum::Attribute;
use logos_token::error::{Errors, FaultCode, Memory};
use logos_token::token::Span;

/// Reports that the `logos` attribute at `span` has no arguments.
fn report_logos_form(span: Span, errors: &mut Errors) -> Result<(), Memory>
    ensures { OnOk result (AddsFault (logos_form span) errors.old errors.new) }
{
    errors.err(FaultCode::LogosForm, "Expected #[logos(...)]", span)
}

impl<'s> Parser<'s> {
    /// Adds the arguments of the `logos` attribute at `span`, or reports that the attribute has
    /// none.
    fn add_meta(&mut self, meta: Meta<'_, 's>, span: Span) -> Result<(), Memory>
        ensures { OnOk result (ReadsMeta
            (parser_view self.old) (parser_view self.new) self.old.errors self.new.errors
            (meta_view meta.entry) span) }
    {
        match meta.arguments {
            Some(run) => self.add_pieces(AttributeParser::new(run)),
            None => report_logos_form(span, &mut self.errors),
        }
    }

    /// Adds the arguments of a `logos` attribute of the enum. Ignores any other attribute.
    fn add_attribute(&mut self, attribute: Attribute<'_, 's>) -> Result<(), Memory>
        ensures { OnOk result (ReadsAttribute
            (parser_view self.old) (parser_view self.new) self.old.errors self.new.errors
            (attribute_value attribute.entry)) }
    {
        match meta_of(attribute) {
            Some(meta) if meta.name.text == "logos" => self.add_meta(meta, attribute.span),
            _ => Ok(()),
        }
    }

    /// Adds the arguments of a `logos` attribute of the enum, and reports their faults. Reports a
    /// `logos` attribute without a group. Ignores any other attribute.
    ///
    /// # Errors
    ///
    /// Returns `Memory` if memory runs out. The parser has then failed.
    pub fn try_parse_logos(&mut self, attribute: Attribute<'_, 's>) -> Result<(), Memory>
        ensures ok { OnOk result (ReadsAttribute
            (parser_view self.old) (parser_view self.new) self.old.errors self.new.errors
            (attribute_value attribute.entry)) }
        ensures not_failed { OnOk result (HasNotFailed self.old self.new) }
        ensures err { OnErr result (self.new.failed ≡ true) }
    {
        unless_failed!(self, self.add_attribute(attribute))
    }

    /// Reads the definition in the arguments of a `token` or `regex` attribute. Returns `None` if
    /// the attribute has no group. If the group does not begin with a string or byte string,
    /// reports the tokens found instead, if there are any, and returns `None`.
    ///
    /// # Errors
    ///
    /// Returns `Memory` if memory runs out. The parser has then failed.
    pub fn parse_definition_attr(
        &mut self,
        attribute: Attribute<'_, 's>,
    ) -> Result<Option<Definition<'s>>, Memory>
        ensures ok { IfOk result (λ definition. IsReport
            (meta_report (meta_of (attribute_value attribute.entry)))
            (option_map definition_view definition) self.old.errors self.new.errors) }
        ensures options { OnOk result (parser_view self.new ≡ parser_view self.old) }
        ensures not_failed { OnOk result (HasNotFailed self.old self.new) }
        ensures err { OnErr result (self.new.failed ≡ true) }
    {
        unless_failed!(self, self.definition_in(attribute))
    }

    /// Returns the result of `parse_definition_attr`, without checking whether the parser has
    /// failed.
    fn definition_in(
        &mut self,
        attribute: Attribute<'_, 's>,
    ) -> Result<Option<Definition<'s>>, Memory>
        ensures ok { IfOk result (λ definition. IsReport
            (meta_report (meta_of (attribute_value attribute.entry)))
            (option_map definition_view definition) self.old.errors self.new.errors) }
        ensures options { OnOk result (parser_view self.new ≡ parser_view self.old) }
        ensures not_failed { self.new.failed ≡ self.old.failed }
    {
        let Some(meta) = meta_of(attribute) else {
            return Ok(None);
        };
        match meta.arguments {
            Some(run) => read_definition(run, &mut self.errors),
            None => Ok(None),
        }
    }
}
