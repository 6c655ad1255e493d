//! Reads texts as patterns and reports their faults. `leaf` and `subpattern` call `read_pattern`.

ghost use Rattle.std.specs.Prelude.{◌≡◌, ◌++◌, chars, drop, IfOk, IfSome, OnOk, OnErr, option_map, string_bytes};
ghost use Rattle.logos_leaf.specs.subpattern.Imports.{pattern_tree, source_of, is_token, token_of, AddsFault, byte_in, detail_kind, front_in, kind_name, regex_fault, regex_text, IsDetail, IsRead, ReportsError};

use crate::subpattern::origin::origin_of;
pub use crate::subpattern::origin::{Making, WrittenPattern};
use logos_pattern::pattern::{Kind, Literal, Pattern, PatternError};
use logos_token::error::{
    Detail, Errors, FaultCode, Memory, PatternDetail, PatternFront, PatternKind,
};
use logos_token::token::Span;
use std::alloc::{AllocError, Global};

/// The mode in which a text is read as a pattern.
#[derive(Clone, Copy)]
pub struct ReadingMode {
    /// Whether the pattern belongs to a `token`, as opposed to a `regex`, a `skip` or a subpattern.
    pub is_literal: bool,
    /// Whether the pattern matches characters rather than bytes.
    pub unicode: bool,
    /// Whether letters match in either case.
    pub ignore_case: bool,
}

/// Returns the name of `kind` as it appears in the message of a fault.
fn kind_name(kind: Kind) -> &'static str
    ensures { result.now ≡ kind_name kind }
{
    match kind {
        Kind::Unclosed => "Unclosed",
        Kind::Unopened => "Unopened",
        Kind::NothingToRepeat => "NothingToRepeat",
        Kind::CountSyntax => "CountSyntax",
        Kind::CountOrder => "CountOrder",
        Kind::CountTooLarge => "CountTooLarge",
        Kind::FlagUnsupported => "FlagUnsupported",
        Kind::FlagSyntax => "FlagSyntax",
        Kind::GroupSyntax => "GroupSyntax",
        Kind::EscapeUnknown => "EscapeUnknown",
        Kind::HexSyntax => "HexSyntax",
        Kind::HexNotScalar => "HexNotScalar",
        Kind::ClassRange => "ClassRange",
        Kind::UnknownProperty => "UnknownProperty",
        Kind::PropertyForm => "PropertyForm",
        Kind::NotInBytes => "NotInBytes",
        Kind::UnicodeWordBoundary => "UnicodeWordBoundary",
        Kind::WordBoundaryForm => "WordBoundaryForm",
    }
}

/// Returns the kind that represents `kind` in the detail of a fault.
fn detail_kind(kind: Kind) -> PatternKind
    ensures { result ≡ detail_kind kind }
{
    match kind {
        Kind::Unclosed => PatternKind::Unclosed,
        Kind::Unopened => PatternKind::Unopened,
        Kind::NothingToRepeat => PatternKind::NothingToRepeat,
        Kind::CountSyntax => PatternKind::CountSyntax,
        Kind::CountOrder => PatternKind::CountOrder,
        Kind::CountTooLarge => PatternKind::CountTooLarge,
        Kind::FlagUnsupported => PatternKind::FlagUnsupported,
        Kind::FlagSyntax => PatternKind::FlagSyntax,
        Kind::GroupSyntax => PatternKind::GroupSyntax,
        Kind::EscapeUnknown => PatternKind::EscapeUnknown,
        Kind::HexSyntax => PatternKind::HexSyntax,
        Kind::HexNotScalar => PatternKind::HexNotScalar,
        Kind::ClassRange => PatternKind::ClassRange,
        Kind::UnknownProperty => PatternKind::UnknownProperty,
        Kind::PropertyForm => PatternKind::PropertyForm,
        Kind::NotInBytes => PatternKind::NotInBytes,
        Kind::UnicodeWordBoundary => PatternKind::UnicodeWordBoundary,
        Kind::WordBoundaryForm => PatternKind::WordBoundaryForm,
    }
}

/// Returns the byte at the offset `at` of a text, or 0 if the text is too short.
fn byte_in(text: &[u8], at: usize) -> u8
    ensures { result ≡ byte_in text.now at }
{
    match text.get(at) {
        Some(byte) => *byte,
        None => 0,
    }
}

/// Returns the first four bytes of a text, padded with 0 if the text is shorter.
fn front_in(text: &[u8]) -> PatternFront
    ensures { result ≡ front_in text.now }
{
    PatternFront {
        first: byte_in(text, 0),
        second: byte_in(text, 1),
        third: byte_in(text, 2),
        fourth: byte_in(text, 3),
    }
}

/// Returns the bytes of a text from the offset `at` on, or no bytes if `at` is past the end of the
/// text.
fn rest_from(text: &[u8], at: usize) -> &[u8]
    ensures { result.now ≡ drop at text.now }
{
    match text.get(at..) {
        Some(rest) => rest,
        None => &[],
    }
}

/// Returns the message for a fault of the kind `kind` at the byte offset `at` of a pattern's text.
fn regex_text(alloc: Global, kind: Kind, at: usize) -> Result<String, AllocError>
    ensures { IfOk result (λ text. string_bytes text ≡ regex_text at kind) }
{
    let name = kind_name(kind);
    let text = format!(in alloc; "regex fault at byte {at}: {name}")?;
    Ok(text)
}

/// Reports a fault of the kind `kind` in a pattern, with the detail `detail`. `span` is the span of
/// the pattern's literal.
fn report_regex(
    kind: Kind,
    detail: PatternDetail,
    span: Span,
    errors: &mut Errors,
) -> Result<(), Memory>
    ensures ok { OnOk result (AddsFault (regex_fault kind detail span) errors.old errors.new) }
    ensures unreported { OnErr result (errors.new ≡ errors.old) }
{
    let text = regex_text(errors.alloc(), kind, detail.at)?;
    errors.err_with(
        FaultCode::Regex,
        text.as_str(),
        span,
        Detail::Pattern(detail),
    )
}

/// Returns the detail of a fault of the kind `kind` at the byte offset `at` of the pattern text
/// `regex`. `written` describes the making of this text.
fn detail_of(
    alloc: Global,
    kind: Kind,
    at: usize,
    regex: &str,
    written: WrittenPattern<'_, '_, '_>,
) -> Result<PatternDetail, Memory>
    ensures { IfOk result (λ detail. IsDetail kind regex.now detail) }
{
    let origin = origin_of(alloc, written, at)?;
    Ok(PatternDetail {
        kind: detail_kind(kind),
        at,
        front: front_in(rest_from(regex.as_bytes(), at)),
        origin,
    })
}

/// Reports the reason why the pattern text `regex` could not be read. If the reason is that memory
/// ran out, returns `Memory` without a report.
fn report_error(
    error: PatternError,
    regex: &str,
    written: WrittenPattern<'_, '_, '_>,
    errors: &mut Errors,
) -> Result<(), Memory>
    ensures ok { OnOk result (ReportsError error regex.now
        (token_of written.entry.literal.now).span errors.old errors.new) }
    ensures unreported { OnErr result (errors.new ≡ errors.old) }
{
    let span = written.literal.span();
    match error {
        PatternError::Syntax { kind, at } => {
            let detail = detail_of(errors.alloc(), kind, at, regex, written)?;
            report_regex(kind, detail, span, errors)?;
            Ok(())
        }
        PatternError::LimitPatternNesting => errors.err(
            FaultCode::LimitPatternNesting,
            "limit LimitPatternNesting passed",
            span,
        ),
        PatternError::Memory => Err(Memory),
    }
}

/// Reads `regex`, the text that was made from the literal in `written`, as a pattern. If the text
/// is not a pattern or exceeds the limit on nesting, reports the fault at the literal and returns
/// `None`.
///
/// # Errors
///
/// Returns `Memory` if memory runs out. The faults are then unchanged.
pub fn read_pattern<'s>(
    regex: &str,
    written: WrittenPattern<'_, '_, 's>,
    mode: ReadingMode,
    errors: &mut Errors,
) -> Result<Option<Pattern<'s>>, Memory>
    ensures read { IfOk result (λ pattern.
        IsRead mode.unicode mode.ignore_case (chars regex.now) (token_of written.entry.literal.now).span
        (option_map pattern_tree pattern) errors.old errors.new) }
    ensures source { IfOk result (λ pattern. IfSome pattern (λ p.
        source_of p ≡ (token_of written.entry.literal.now).text.now)) }
    ensures form { IfOk result (λ pattern. IfSome pattern (λ p. is_token p ≡ mode.is_literal)) }
    ensures unreported { OnErr result (errors.new ≡ errors.old) }
{
    let token = written.literal.token();
    let ReadingMode {
        is_literal,
        unicode,
        ignore_case,
    } = mode;
    let alloc = errors.alloc();
    match Pattern::compile(alloc, is_literal, regex, token.text, unicode, ignore_case) {
        Ok(pattern) => Ok(Some(pattern)),
        Err(error) => {
            report_error(error, regex, written, errors)?;
            Ok(None)
        }
    }
}
