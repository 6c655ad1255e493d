//! Defines `derive`, which returns the implementation or the errors of an enum, and the warnings.
//! Called by the derive macro.

ghost use Rattle.std.specs.Prelude.{IfOk};
ghost use Rattle.logos_derive.specs.Views.{All, HasErrors, IsAcceptedBy, IsDerivation, IsRefusedFor, IsWarning, around_made, sizes_of};

use crate::diagnostic::Diagnostic;
use crate::errors::errors_of;
use crate::warnings::warnings_of;
use logos_causes::{Explained, Lexer, accepted_warnings, explain_enum};
use logos_codegen::{Generated, Refusal, generate};
use logos_report::{Helps, Part, Source};
use logos_tables::{Shape, config_of, lexer_text};
use logos_text::Sink;
use logos_token::error::{Errors, Memory};
use logos_token::token::{Tokens, tokenize};
use logos_warnings::Origin;
use std::alloc::Global;

/// The implementation or the errors of an enum, with its warnings.
#[derive(Debug, Drop)]
pub struct Derivation {
    /// The implementation, or `None` if the enum is refused.
    pub implementation: Option<Sink>,
    /// The errors in the order of their faults, followed by the warnings.
    pub diagnostics: Vec<Diagnostic>,
}

/// Returns the derivation of the enum that `source` spells. An enum without faults is accepted: it
/// has an implementation in the shape `shape`, and no errors. An enum with faults is refused: it
/// has no implementation, and at least one error, with the help texts that `helps` adds. Accepted
/// and refused enums may have warnings.
///
/// # Errors
///
/// Returns `Memory` if memory runs out.
pub fn derive<H: Helps>(
    alloc: Global,
    source: &str,
    shape: Shape,
    helps: &H,
) -> Result<Derivation, Memory>
    // The implementation is that of the lexer of the source, with the tokens that it repeats as
    // pieces; or the errors are those for the faults of the source.
    ensures { IfOk result (IsDerivation shape source.now) }
{
    match generate(alloc, source, config_of(shape)) {
        Ok(made) => accepted(alloc, source, shape, &made),
        Err(Refusal::Errors(errors)) => refused(alloc, source, &errors, helps),
        Err(Refusal::Memory) => Err(Memory),
    }
}

/// Returns the derivation of an accepted source, for which `made` was generated: its implementation
/// in the shape `shape`, and its warnings.
fn accepted(
    alloc: Global,
    source: &str,
    shape: Shape,
    made: &Generated<'_>,
) -> Result<Derivation, Memory>
    ensures { IfOk result (IsAcceptedBy shape (around_made made.now) made.now.code) }
{
    let implementation = lexer_text(alloc, shape, made)?;
    let diagnostics = warnings_by(alloc, source, made)?;
    Ok(Derivation {
        implementation: Some(implementation),
        diagnostics,
    })
}

/// Returns the warnings for an accepted source, for which `made` was generated.
fn warnings_by(alloc: Global, source: &str, made: &Generated<'_>) -> Result<Vec<Diagnostic>, Memory>
    ensures { IfOk result (λ diagnostics. All IsWarning diagnostics.items) }
{
    match tokenize(alloc, source) {
        Ok(stream) => warnings_with(alloc, stream.run(), made),
        // Only memory can run out: the source has tokens, within the limits.
        Err(_) => Err(Memory),
    }
}

/// Returns the warnings for an accepted source with the tokens `tokens`, for which `made` was
/// generated.
fn warnings_with(
    alloc: Global,
    tokens: Tokens<'_, '_>,
    made: &Generated<'_>,
) -> Result<Vec<Diagnostic>, Memory>
    ensures { IfOk result (λ diagnostics. All IsWarning diagnostics.items) }
{
    let lexer = Lexer {
        graph: &made.graph,
        error: made.code.error_callback(),
    };
    let warned = accepted_warnings(alloc, tokens, lexer, Origin::Macro)?;
    warnings_of(alloc, &warned)
}

/// Returns the derivation of a source that is refused for the faults `errors`: the errors for these
/// faults, and the warnings.
fn refused<H: Helps>(
    alloc: Global,
    source: &str,
    errors: &Errors,
    helps: &H,
) -> Result<Derivation, Memory>
    ensures { IfOk result (IsRefusedFor source.now errors.now) }
{
    let mut known = explain_enum(alloc, source, Origin::Macro)?;
    let diagnostics = diagnostics_of(alloc, source, errors, helps, &mut known)?;
    Ok(Derivation {
        implementation: None,
        diagnostics,
    })
}

/// Returns the errors for the faults `errors` of a refused source, followed by the warnings of the
/// source. `known` is the explanation of the source. `helps` adds help texts to the clues of this
/// explanation.
fn diagnostics_of<H: Helps>(
    alloc: Global,
    source: &str,
    errors: &Errors,
    helps: &H,
    known: &mut Explained,
) -> Result<Vec<Diagnostic>, Memory>
    ensures { IfOk result (λ diagnostics. HasErrors (sizes_of known.old.clues) errors.now
        diagnostics.items) }
{
    let text = Source::new(alloc, "", source)?;
    let part = Part {
        source: &text,
        offset: 0,
    };
    helps.add(part, errors, &mut known.clues)?;
    let mut diagnostics = errors_of(alloc, part, errors.list(), &known.clues)?;
    let mut warnings = warnings_of(alloc, &known.warnings)?;
    diagnostics.append(&mut warnings)?;
    Ok(diagnostics)
}
