//! `report_not_utf8` reports leaves that can match invalid UTF-8. `analysis` calls
//! `report_not_utf8` for all leaves at once.

ghost use Rattle.std.specs.Prelude.{◌≡◌, ◌++◌, map, IfOk, OnOk, string_bytes};
ghost use Rattle.logos_parser.specs.Imports.{AddsFault, leaf_view, utf8_text, utf8_fault, leaf_faults, utf8_faults};

use logos_pattern::leaf::Leaf;
use logos_token::error::{Errors, FaultCode, Memory};
use std::alloc::{AllocError, Global};

/// Returns the message for a leaf whose pattern can match invalid UTF-8.
fn utf8_text(alloc: Global, leaf: &Leaf<'_>) -> Result<String, AllocError>
    ensures { IfOk result (λ text. string_bytes text ≡ utf8_text (leaf_view leaf.now)) }
{
    let source = leaf.pattern.source();
    let kind = &leaf.kind;
    let text = format!(in alloc;
        "UTF-8 mode is requested, but the pattern {source} of variant `{kind}` can match invalid utf8.\nYou can disable UTF-8 mode with #[logos(utf8 = false)]"
    )?;
    Ok(text)
}

/// Reports that the pattern of `leaf` can match invalid UTF-8.
fn report_utf8_fault(leaf: &Leaf<'_>, errors: &mut Errors) -> Result<(), Memory>
    ensures { OnOk result (AddsFault (utf8_fault (leaf_view leaf.now)) errors.old errors.new) }
{
    let text = utf8_text(errors.alloc(), leaf)?;
    errors.err(FaultCode::Utf8Pattern, text.as_str(), leaf.span)
}

/// Reports `leaf` if its pattern can match invalid UTF-8.
fn report_if_not_utf8(leaf: &Leaf<'_>, errors: &mut Errors) -> Result<(), Memory>
    ensures { OnOk result (errors.new ≡ errors.old ++ leaf_faults (leaf_view leaf.now)) }
{
    if leaf.pattern.is_utf8() {
        return Ok(());
    }
    report_utf8_fault(leaf, errors)
}

/// Reports each leaf whose pattern can match invalid UTF-8. Reports nothing if `utf8_mode` is
/// `false`.
pub(crate) fn report_not_utf8(
    utf8_mode: bool,
    leaves: &[Leaf<'_>],
    errors: &mut Errors,
) -> Result<(), Memory>
    ensures { OnOk result (errors.new ≡ errors.old
        ++ utf8_faults utf8_mode (map leaf_view leaves.now)) }
{
    if !utf8_mode {
        return Ok(());
    }
    for leaf in leaves {
        report_if_not_utf8(leaf, errors)?;
    }
    Ok(())
}
