//! Creates the warnings for mistakes in enums. Used by `logos_causes` and `logos_file_warnings`.

ghost use Rattle.std.specs.Prelude.{◌≡◌, ◌≢◌, ◌++◌, [], IfOk, OnOk, codes, map, string_bytes};
ghost use Rattle.logos_warnings.specs.Views.{AddsAbout, AreAbout, AreOfEnum, AreOfText, AreOfTokens, IsAbout, enum_value, mistake_text, mistake_value, span_of, tokens_of};

use crate::mistakes::{Mistake, mistakes_of};
use crate::origin::{Origin, is_warning};
use crate::other_attributes::add_others;
use crate::warning_list::plain_warning;
use logos_enum::{ItemEnum, ReadError, read_enum};
use logos_report::Warning;
use logos_token::error::Memory;
use logos_token::token::{Span, TokenError, Tokens, tokenize};
use std::alloc::{AllocError, Global};

/// Returns the warnings for an enum with the text `text`, or no warnings if `text` does not spell
/// an enum.
///
/// The warnings for the names of attributes of the enum and of its variants come first, in source
/// order. The warning that the enum has no pattern or does not derive `Logos` follows, and the
/// warnings for attributes that the lexer ignores come last. `derives` is `true` if the enum
/// derives `Logos`. A `cfg` is not a mistake in an enum from the derive macro.
///
/// # Errors
///
/// Returns `Memory` if memory runs out.
pub fn enum_warnings(
    alloc: Global,
    text: &str,
    derives: bool,
    origin: Origin,
) -> Result<Vec<Warning>, Memory>
    ensures { IfOk result (λ warnings. AreOfText text.now derives origin warnings.items) }
{
    match tokenize(alloc, text) {
        Ok(stream) => token_warnings(alloc, stream.run(), derives, origin),
        Err(error) => warnings_of_unread(alloc, error),
    }
}

/// Returns no warnings for a text that cannot be read into tokens, or `Memory` if memory ran out.
fn warnings_of_unread(alloc: Global, error: TokenError) -> Result<Vec<Warning>, Memory>
    ensures nothing { IfOk result (λ warnings. warnings.items ≡ []) }
    ensures fault { IfOk result (λ warnings. error ≢ TokenError.Memory) }
{
    match error {
        TokenError::Lexical { .. } => Ok(Vec::new(alloc)),
        TokenError::LimitSource => Ok(Vec::new(alloc)),
        TokenError::LimitTokenNesting { .. } => Ok(Vec::new(alloc)),
        TokenError::Memory => Err(Memory),
    }
}

/// Returns the warnings of `enum_warnings` for an enum with the tokens `tokens`, or no warnings if
/// the tokens do not spell an enum. `derives` is `true` if the enum derives `Logos`.
///
/// # Errors
///
/// Returns `Memory` if memory runs out.
pub fn token_warnings(
    alloc: Global,
    tokens: Tokens<'_, '_>,
    derives: bool,
    origin: Origin,
) -> Result<Vec<Warning>, Memory>
    ensures { IfOk result (λ warnings.
        AreOfTokens (tokens_of tokens.entry) derives origin warnings.items) }
{
    match read_enum(alloc, tokens) {
        Ok(item) => Ok(item_warnings(alloc, &item, derives, origin)?),
        Err(error) => warnings_of_misread(alloc, error),
    }
}

/// Returns no warnings for tokens that do not spell an enum, or `Memory` if memory ran out.
fn warnings_of_misread(alloc: Global, error: ReadError) -> Result<Vec<Warning>, Memory>
    ensures nothing { IfOk result (λ warnings. warnings.items ≡ []) }
    ensures fault { IfOk result (λ warnings. error ≢ ReadError.Memory) }
{
    match error {
        ReadError::NotAnEnum { .. } => Ok(Vec::new(alloc)),
        ReadError::Grammar { .. } => Ok(Vec::new(alloc)),
        ReadError::TypeUnsupported { .. } => Ok(Vec::new(alloc)),
        ReadError::LimitTypeNesting { .. } => Ok(Vec::new(alloc)),
        ReadError::Memory => Err(Memory),
    }
}

/// Returns the warnings of `enum_warnings` for an enum that was read. `derives` is `true` if the
/// enum derives `Logos`.
///
/// # Errors
///
/// Returns `AllocError` if memory runs out.
pub fn item_warnings(
    alloc: Global,
    item: &ItemEnum<'_, '_>,
    derives: bool,
    origin: Origin,
) -> Result<Vec<Warning>, AllocError>
    ensures { IfOk result (λ warnings.
        AreOfEnum (enum_value item.now) derives origin warnings.items) }
{
    let mistakes = mistakes_of(alloc, item, derives)?;
    let mut warnings = warnings_about(alloc, item.name.text, &mistakes, origin)?;
    if !derives {
        return Ok(warnings);
    }
    add_others(item, &mut warnings)?;
    Ok(warnings)
}

/// Returns the warnings for `mistakes` in the enum `name`. A mistake that is not a warning for
/// `origin` is left out.
fn warnings_about(
    alloc: Global,
    name: &str,
    mistakes: &[Mistake<'_>],
    origin: Origin,
) -> Result<Vec<Warning>, AllocError>
    ensures { IfOk result (λ warnings.
        AreAbout name.now origin (map mistake_value mistakes.now) warnings.items) }
{
    let mut warnings = Vec::new(alloc);
    for mistake in mistakes {
        add_about(name, *mistake, origin, &mut warnings)?;
    }
    Ok(warnings)
}

/// Appends the warning for a mistake in the enum `name` to `warnings`. Appends nothing if the
/// mistake is not a warning for `origin`.
fn add_about(
    name: &str,
    mistake: Mistake<'_>,
    origin: Origin,
    warnings: &mut Vec<Warning>,
) -> Result<(), AllocError>
    ensures { OnOk result (AddsAbout name.now origin (mistake_value mistake.entry)
        warnings.old.items warnings.new.items) }
{
    if is_warning(mistake, origin) {
        let warning = warning_of(*warnings.allocator(), name, mistake)?;
        warnings.push(warning)?;
    }
    Ok(())
}

/// Returns the warning for a mistake in the enum `name`.
fn warning_of(alloc: Global, name: &str, mistake: Mistake<'_>) -> Result<Warning, AllocError>
    ensures { IfOk result (IsAbout name.now (mistake_value mistake.entry)) }
{
    let message = message_of(alloc, name, mistake)?;
    Ok(plain_warning(message, span_of(mistake), help_for(mistake)))
}

/// Returns the message about a mistake in the enum `name`.
fn message_of(alloc: Global, name: &str, mistake: Mistake<'_>) -> Result<String, AllocError>
    ensures { IfOk result (λ message.
        string_bytes message ≡ mistake_text name.now (mistake_value mistake.entry)) }
{
    match mistake {
        Mistake::Misspelled { name, intended, .. } => misspelled_text(alloc, name, intended.name()),
        Mistake::Qualified { .. } => String::from_str(alloc, PATH),
        Mistake::Useless { .. } => String::from_str(alloc, USELESS),
        Mistake::Conditional { .. } => String::from_str(alloc, CONDITION),
        Mistake::NoPattern { .. } => no_pattern_text(alloc, name),
        Mistake::NoDerive { .. } => no_derive_text(alloc, name),
    }
}

/// Returns the message that `name` looks like a misspelling of `intended`.
fn misspelled_text(alloc: Global, name: &str, intended: &str) -> Result<String, AllocError>
    ensures { IfOk result (λ message. string_bytes message ≡ codes "`" ++ (name.now
        ++ (codes "` looks like a misspelling of `" ++ (intended.now ++ codes "`")))) }
{
    let message = format!(in alloc; "`{name}` looks like a misspelling of `{intended}`")?;
    Ok(message)
}

/// Returns the message that no variant of the enum `name` has a pattern.
fn no_pattern_text(alloc: Global, name: &str) -> Result<String, AllocError>
    ensures { IfOk result (λ message. string_bytes message
        ≡ codes "no variant of `" ++ (name.now ++ codes "` has a pattern")) }
{
    let message = format!(in alloc; "no variant of `{name}` has a pattern")?;
    Ok(message)
}

/// Returns the message that the enum `name` has attributes of a lexer but does not derive `Logos`.
fn no_derive_text(alloc: Global, name: &str) -> Result<String, AllocError>
    ensures { IfOk result (λ message. string_bytes message ≡ codes "`" ++ (name.now
        ++ codes "` has attributes of a lexer and does not derive `Logos`")) }
{
    let message = format!(in alloc;
        "`{name}` has attributes of a lexer and does not derive `Logos`"
    )?;
    Ok(message)
}

/// Returns the span of a mistake.
fn span_of(mistake: Mistake<'_>) -> Span
    ensures { result ≡ span_of (mistake_value mistake.entry) }
{
    match mistake {
        Mistake::Misspelled { span, .. } => span,
        Mistake::Qualified { span } => span,
        Mistake::Useless { span } => span,
        Mistake::Conditional { span } => span,
        Mistake::NoPattern { span } => span,
        Mistake::NoDerive { span } => span,
    }
}

/// Returns the help for a mistake, or `None` if the mistake has no help.
fn help_for(mistake: Mistake<'_>) -> Option<&'static str> {
    match mistake {
        Mistake::Misspelled { .. } => None,
        Mistake::Qualified { .. } => Some(PATH_HELP),
        Mistake::Useless { .. } => Some(USELESS_HELP),
        Mistake::Conditional { .. } => Some(CONDITION_HELP),
        Mistake::NoPattern { .. } => Some(PATTERN_HELP),
        Mistake::NoDerive { .. } => None,
    }
}

const PATH: &str = "no attribute of a lexer has a path";

const PATH_HELP: &str = "write its name alone, as in `#[token(\"..\")]`";

const USELESS: &str = "`logos` has no effect on a variant";

const USELESS_HELP: &str = "write it in front of the enum";

const CONDITION: &str =
    "the pattern of this variant belongs to the lexer, whatever this `cfg` says";

const CONDITION_HELP: &str = "put the `cfg` in front of the enum, or derive the lexer in place";

const PATTERN_HELP: &str = "write `#[token(\"..\")]` or `#[regex(\"..\")]` in front of a variant";
