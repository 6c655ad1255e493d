//! Functions that print the sections of the implementation of `Tables`. `lexer` calls them one
//! after the other.

ghost use Rattle.std.specs.Prelude.{◌≡◌, ◌++◌, ◌∷◌, [], OnOk, string_bytes};
ghost use Rattle.logos_tables.specs.Imports.{Appends, data_text, end_text, entries_size_text, folded_text, head_text, masks_text, unpacked_text};

use crate::fields::push_str;
use logos_token::error::Memory;

// rustc evaluates a reference to the value of a call when it checks a package, unless the constant
// can end before the call. Therefore each constant of the text begins with an assertion.

/// The text after the tables: the functions that the loop of the runtime calls, and the call to the
/// loop.
const END: &str = "fn bytes(source: &'s <Self as Logos<'s>>::Source) -> &'s [u8] { source.as_ref() }
fn plain(leaf: usize) -> _Option<Self> { _token(leaf) }
fn act(lex: &mut _Lexer<'s>, leaf: usize) -> CallbackResult<'s, Self> { _get_action(lex, leaf) }
fn error(lex: &mut _Lexer<'s>) -> <Self as Logos<'s>>::Error { _make_error(lex) }
}
_Tables::run(lex)
} }
";

/// Appends the head of the implementation of `Tables` for the type `this`.
pub(crate) fn push_head(text: &mut String, this: &str) -> Result<(), Memory>
    ensures { OnOk result (string_bytes text.new ≡ string_bytes text.old ++ head_text this.now) }
{
    write!(
        text,
        "\n#[allow(unknown_lints, non_local_definitions, long_running_const_eval)]\nimpl<'s> _Tables<'s> for {this} {{\n"
    )?;
    Ok(())
}

/// Appends the beginning of the tables. `root` is the number of the root, and `width` is the number
/// of classes.
pub(crate) fn push_data(text: &mut String, root: usize, width: usize) -> Result<(), Memory>
    ensures { OnOk result (string_bytes text.new
        ≡ string_bytes text.old ++ data_text root width) }
{
    write!(
        text,
        "const DATA: _Data = _Data {{ root: {root}, width: {width}, "
    )?;
    Ok(())
}

/// Appends the end of the tables, and the type and the value of the unpacked tables. `states` is
/// the number of states, and `runs` is the number of runs in the rows.
pub(crate) fn push_unpacked(text: &mut String, states: usize, runs: usize) -> Result<(), Memory>
    ensures { OnOk result (string_bytes text.new
        ≡ string_bytes text.old ++ unpacked_text states runs) }
{
    write!(
        text,
        "}};\ntype Unpacked = _Unpacked<{states}, {runs}>;\nconst UNPACKED: &'static Self::Unpacked = {{ ::core::assert!(Self::DATA.width > 0); &<Self::Unpacked>::new::<Self>() }};\n"
    )?;
    Ok(())
}

/// Appends the constants that the loop of the runtime reads: the rows, with `entries` entries, and
/// the last match in each state.
pub(crate) fn push_entries_size(text: &mut String, entries: usize) -> Result<(), Memory>
    ensures { OnOk result (string_bytes text.new
        ≡ string_bytes text.old ++ entries_size_text entries) }
{
    write!(
        text,
        "const ROWS: &'static [u32] = {{ ::core::assert!(Self::DATA.width > 0); &<Self::Unpacked>::rows::<Self, {entries}>() }};\nconst LASTS: &'static [u32] = {{ ::core::assert!(Self::DATA.width > 0); &<Self::Unpacked>::lasts::<Self>() }};\n"
    )?;
    Ok(())
}

/// Appends the constants for the fast loops: `masks` masks, and the ranges of the masks.
pub(crate) fn push_masks(text: &mut String, masks: usize) -> Result<(), Memory>
    ensures { OnOk result (string_bytes text.new ≡ string_bytes text.old ++ masks_text masks) }
{
    write!(
        text,
        "const MASKS: &'static [[[u8; 8]; 256]] = {{ ::core::assert!(Self::DATA.width > 0); &<Self::Unpacked>::masks::<Self, {masks}>() }};\nconst RANGES: &'static [_Ranges] = {{ ::core::assert!(Self::DATA.width > 0); &_Ranges::of::<Self, {masks}>() }};\n"
    )?;
    Ok(())
}

/// Appends the constant with the folded tables, which have `entries` entries. The scans of the
/// runtime read this constant.
pub(crate) fn push_folded(text: &mut String, entries: usize) -> Result<(), Memory>
    ensures { OnOk result (string_bytes text.new ≡ string_bytes text.old ++ folded_text entries) }
{
    write!(
        text,
        "const FOLDED: &'static [u32] = {{ ::core::assert!(Self::DATA.width > 0); &<Self::Unpacked>::folded::<Self, {entries}>() }};\n"
    )?;
    Ok(())
}

/// Appends the text after the tables: the functions that the loop of the runtime calls, and the
/// call to the loop.
pub(crate) fn push_end(text: &mut String) -> Result<(), Memory>
    ensures { OnOk result (string_bytes text.new ≡ string_bytes text.old ++ end_text) }
{
    push_str(text, END)
}
