//! Reads the attributes of an enum. `logos_leaf` uses one `Parser` for each enum.

ghost use Rattle.std.specs.Prelude.{◌≡◌, IfOk, OnOk, OnErr, option_map, true, false, []};
ghost use Rattle.logos_definition.specs.Views.{tokens_of, literal_slice, IsReport, AddsFault, fault, pieces, text_report, literal_view, definition_report, no_options, utf8_mode, ReadsPieces, ident_slice, value_of, named_report, error_named_report, flags_report, definition_view, parser_view, HasNotFailed, error_view};

/// Evaluates `$call`, which changes `$parser`, and returns the result of the call. Returns `Memory`
/// without the call if the parser has failed. Marks the parser as failed if the call returns an
/// error.
macro_rules! unless_failed {
    ($parser:expr, $call:expr) => {{
        if $parser.failed {
            return Err(Memory);
        }
        let outcome = $call;
        $parser.failed = outcome.is_err();
        outcome
    }};
}

mod attributes;
mod faults;
mod options;
mod types;

use crate::definition::{Definition, read_definition};
use crate::error_type::ErrorType;
use crate::ignore_flags::IgnoreFlags;
use logos_attribute::flags::read_flags;
use logos_attribute::literal::read_text;
use logos_attribute::nested::{AttributeParser, NestedValue};
use logos_pattern::pattern::Literal;
use logos_token::error::{Errors, FaultCode, Memory};
use logos_token::token;
use logos_token::token::{Ident, Span, TokenStream, Tokens};
use logos_token::util::MaybeVoid;
use logos_type_params::TypeParams;
use std::alloc::Global;

/// The UTF-8 mode, with the span of the option's value in the source.
#[derive(Clone, Copy)]
pub struct Utf8Mode {
    pub value: bool,
    /// The span of the value in the source, in bytes.
    pub span: Span,
}

/// The path of the exported state diagram, with the span of the option's value in the source.
#[derive(Drop)]
pub struct ExportPath {
    pub path: String,
    /// The span of the value in the source, in bytes.
    pub span: Span,
}

/// The options that have been read from the attributes of an enum, and the faults of these
/// attributes.
///
/// If memory runs out in a call that changes the parser, the parser has failed: each later call
/// that changes the parser returns `Memory`.
#[derive(Drop)]
pub struct Parser<'s> {
    pub errors: Errors,
    pub utf8_mode: Option<Utf8Mode>,
    /// The definitions of `skip` that are not leaves yet, in source order. The list is empty once
    /// the leaves of the enum have been read.
    pub skips: Vec<Definition<'s>>,
    pub extras: MaybeVoid<'s>,
    /// The subpatterns with their names, in source order.
    pub subpatterns: Vec<(Ident<'s>, Literal<'s>)>,
    pub error_type: Option<ErrorType<'s>>,
    /// The path of the crate in the generated code, or `None` if the option `crate` does not occur.
    pub logos_path: Option<TokenStream<'s>>,
    pub export_path: Option<ExportPath>,
    /// The declared type parameters, with the types assigned to them.
    pub types: TypeParams<'s>,
    alloc: Global,
    failed: bool,
}

impl<'s> Parser<'s> {
    /// Returns a parser without options or faults. The parser allocates its memory with `alloc`.
    pub fn new(alloc: Global) -> Parser<'s>
        ensures options { parser_view result ≡ no_options }
        ensures errors { result.errors ≡ [] }
        ensures failed { result.failed ≡ false }
    {
        Parser {
            errors: Errors::new(alloc),
            utf8_mode: None,
            skips: Vec::new(alloc),
            extras: MaybeVoid::Void,
            subpatterns: Vec::new(alloc),
            error_type: None,
            logos_path: None,
            export_path: None,
            types: TypeParams::new(alloc),
            alloc,
            failed: false,
        }
    }

    /// Returns whether inputs are UTF-8: `true` unless the option `utf8` is `false`.
    pub fn is_utf8(&self) -> bool
        ensures { result ≡ utf8_mode (parser_view self.now) }
    {
        match self.utf8_mode {
            Some(mode) => mode.value,
            None => true,
        }
    }

    /// Adds the arguments of a `logos` attribute, and reports their faults. `tokens` are the tokens
    /// between the parentheses of the attribute.
    ///
    /// # Errors
    ///
    /// Returns `Memory` if memory runs out. The parser has then failed.
    pub fn read_logos(&mut self, tokens: Tokens<'_, 's>) -> Result<(), Memory>
        ensures ok { OnOk result (ReadsPieces
            (parser_view self.old) (parser_view self.new) self.old.errors self.new.errors
            (pieces (tokens_of tokens.entry))) }
        ensures not_failed { OnOk result (HasNotFailed self.old self.new) }
        ensures err { OnErr result (self.new.failed ≡ true) }
    {
        unless_failed!(self, self.add_pieces(AttributeParser::new(tokens)))
    }

    /// Appends a fault with `code`, `message` and `span` to the list of faults.
    ///
    /// # Errors
    ///
    /// Returns `Memory` if memory runs out. The parser has then failed.
    pub fn err(&mut self, code: FaultCode, message: &str, span: Span) -> Result<(), Memory>
        ensures ok { OnOk result
            (AddsFault (fault code message.now span) self.old.errors self.new.errors) }
        ensures options { OnOk result (parser_view self.new ≡ parser_view self.old) }
        ensures not_failed { OnOk result (HasNotFailed self.old self.new) }
        ensures err { OnErr result (self.new.failed ≡ true) }
    {
        unless_failed!(self, self.errors.err(code, message, span))
    }

    /// Reads `literal` as a string or byte string. Reports any other literal and returns `None`.
    ///
    /// # Errors
    ///
    /// Returns `Memory` if memory runs out. The parser has then failed.
    pub fn parse_literal(
        &mut self,
        literal: token::Literal<'s>,
    ) -> Result<Option<Literal<'s>>, Memory>
        ensures ok { IfOk result (λ read. IsReport
            (text_report (literal_slice literal.entry)) (option_map literal_view read)
            self.old.errors self.new.errors) }
        ensures options { OnOk result (parser_view self.new ≡ parser_view self.old) }
        ensures not_failed { OnOk result (HasNotFailed self.old self.new) }
        ensures err { OnErr result (self.new.failed ≡ true) }
    {
        unless_failed!(self, read_text(self.alloc, literal, &mut self.errors))
    }

    /// Reads the definition in the parentheses of a `token` or `regex`. If `tokens` do not begin
    /// with a string or byte string, returns `None`, and reports the tokens found instead, if there
    /// are any.
    ///
    /// # Errors
    ///
    /// Returns `Memory` if memory runs out. The parser has then failed.
    pub fn parse_definition(
        &mut self,
        tokens: Tokens<'_, 's>,
    ) -> Result<Option<Definition<'s>>, Memory>
        ensures ok { IfOk result (λ definition. IsReport
            (definition_report (tokens_of tokens.entry)) (option_map definition_view definition)
            self.old.errors self.new.errors) }
        ensures options { OnOk result (parser_view self.new ≡ parser_view self.old) }
        ensures not_failed { OnOk result (HasNotFailed self.old self.new) }
        ensures err { OnErr result (self.new.failed ≡ true) }
    {
        unless_failed!(self, read_definition(tokens, &mut self.errors))
    }
}

impl<'s> Definition<'s> {
    /// Adds the argument `name` with `value` to the definition, and adds the argument's faults to
    /// `parser`. The parser is otherwise unchanged. Memory is allocated with the allocator of
    /// `parser`.
    ///
    /// # Errors
    ///
    /// Returns `Memory` if memory runs out. The parser has then failed, and the definition is
    /// unchanged.
    pub fn named_attr(
        &mut self,
        _alloc: Global,
        name: Ident<'s>,
        value: NestedValue<'_, 's>,
        parser: &mut Parser<'s>,
    ) -> Result<(), Memory>
        ensures ok { OnOk result (IsReport
            (named_report (ident_slice name.entry) (value_of value.entry)
            (definition_view self.old))
            (definition_view self.new) parser.old.errors parser.new.errors) }
        ensures options { OnOk result (parser_view parser.new ≡ parser_view parser.old) }
        ensures not_failed { OnOk result (HasNotFailed parser.old parser.new) }
        ensures err { OnErr result (parser.new.failed ≡ true) }
        ensures unchanged { OnErr result (self.new ≡ self.old) }
    {
        unless_failed!(parser, self.add_named(name, &value, &mut parser.errors))
    }
}

impl<'s> ErrorType<'s> {
    /// Adds the argument `name` with `value` to the error type, and adds the argument's faults to
    /// `parser`. The parser is otherwise unchanged. Memory is allocated with the allocator of
    /// `parser`.
    ///
    /// # Errors
    ///
    /// Returns `Memory` if memory runs out. The parser has then failed, and the error type is
    /// unchanged.
    pub fn named_attr(
        &mut self,
        _alloc: Global,
        name: Ident<'s>,
        value: NestedValue<'_, 's>,
        parser: &mut Parser<'s>,
    ) -> Result<(), Memory>
        ensures ok { OnOk result (IsReport
            (error_named_report (ident_slice name.entry) (value_of value.entry)
            (error_view self.old))
            (error_view self.new) parser.old.errors parser.new.errors) }
        ensures options { OnOk result (parser_view parser.new ≡ parser_view parser.old) }
        ensures not_failed { OnOk result (HasNotFailed parser.old parser.new) }
        ensures err { OnErr result (parser.new.failed ≡ true) }
        ensures unchanged { OnErr result (self.new ≡ self.old) }
    {
        unless_failed!(parser, self.add_named(name, &value, &mut parser.errors))
    }
}

impl IgnoreFlags {
    /// Sets the flags that occur in `tokens`, the group after `ignore`, and adds the first fault in
    /// `tokens` to `parser`. The parser is otherwise unchanged. `name` is the identifier `ignore`.
    /// Memory is allocated with the allocator of `parser`.
    ///
    /// # Errors
    ///
    /// Returns `Memory` if memory runs out. The parser has then failed, and the flags are
    /// unchanged.
    pub fn parse_group<'s>(
        &mut self,
        _alloc: Global,
        name: Ident<'s>,
        tokens: Tokens<'_, 's>,
        parser: &mut Parser<'s>,
    ) -> Result<(), Memory>
        ensures ok { OnOk result (IsReport
            (flags_report (ident_slice name.entry) false self.old.ignore_case
            (tokens_of tokens.entry))
            self.new.ignore_case parser.old.errors parser.new.errors) }
        ensures options { OnOk result (parser_view parser.new ≡ parser_view parser.old) }
        ensures not_failed { OnOk result (HasNotFailed parser.old parser.new) }
        ensures err { OnErr result (parser.new.failed ≡ true) }
        ensures unchanged { OnErr result (self.new ≡ self.old) }
    {
        unless_failed!(
            parser,
            read_flags(&mut self.ignore_case, name, tokens, &mut parser.errors)
        )
    }
}
