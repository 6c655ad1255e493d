//! Printers of the conditions of generated code that test a byte of the input, and of the steps to
//! other states. `forks` calls them for each branch. `states` calls them for fast loops and for the
//! end of the input.

ghost use Rattle.std.specs.Prelude.{◌≡◌, ◌++◌, ◌∷◌, [], ◌==◌, ◌<◌, OnOk, map, codes, string_bytes};
ghost use Rattle.logos_text.specs.Imports.{flat_map, join_by, comparison_of, condition_of, is_quoted, end_text, exception_text, single_text, between_text, comparison_text, bit_text, test_text, transition_text, condition_text};

use crate::pieces::push_str;
use logos_byte_class::byte_class::Comparisons;
use logos_code::code::{Condition, Config};
use logos_token::error::Memory;

/// The code point of the first character that is not ASCII.
const ASCII: u32 = 128;

/// Returns whether a byte is printed as a byte literal in quotes rather than as a number.
fn is_quoted(byte: u8) -> bool
    ensures { result ≡ is_quoted byte }
{
    matches!(byte, b'!'..=b'}') & (byte != b'`')
}

/// Appends `byte`, the start or the end of a range. The byte is printed as a byte literal in quotes
/// if it is a visible ASCII character other than a backquote or a tilde, and as a number otherwise.
fn push_end(text: &mut String, byte: u8) -> Result<(), Memory>
    ensures { OnOk result (string_bytes text.new ≡ string_bytes text.old ++ end_text byte) }
{
    if !is_quoted(byte) {
        write!(text, "{byte}u8")?;
        return Ok(());
    }
    match byte {
        b'\'' => push_str(text, "b'\\''")?,
        b'\\' => push_str(text, "b'\\\\'")?,
        _ => push_quoted(text, char::from(byte))?,
    }
    Ok(())
}

/// Appends an ASCII character as a byte literal in quotes, without an escape.
fn push_quoted(text: &mut String, character: char) -> Result<(), Memory>
    requires { character < ASCII }
    ensures { OnOk result (string_bytes text.new
        ≡ string_bytes text.old ++ 98 ∷ 39 ∷ character ∷ 39 ∷ []) }
{
    push_str(text, "b'")?;
    text.push(character)?;
    push_str(text, "'")?;
    Ok(())
}

/// Appends `&&` and the condition that the byte of the input is not `byte`.
fn push_exception(text: &mut String, byte: u8) -> Result<(), Memory>
    ensures { OnOk result (string_bytes text.new ≡ string_bytes text.old ++ exception_text byte) }
{
    write!(text, " && byte != {byte}u8")?;
    Ok(())
}

/// Appends `&&` and the condition that the byte of the input is not `b`, for each byte `b` in
/// `bytes`.
fn push_exceptions(text: &mut String, bytes: &[u8]) -> Result<(), Memory>
    ensures { OnOk result (string_bytes text.new
        ≡ string_bytes text.old ++ flat_map exception_text bytes.now) }
{
    for byte in bytes {
        push_exception(text, *byte)?;
    }
    Ok(())
}

/// Appends a comparison of the byte of the input with one byte, or with a range of bytes and its
/// exceptions.
fn push_comparison(text: &mut String, comparison: &Comparisons) -> Result<(), Memory>
    ensures { OnOk result (string_bytes text.new
        ≡ string_bytes text.old ++ comparison_text (comparison_of comparison.now)) }
{
    let first = *comparison.range.start();
    let last = *comparison.range.end();
    if first == last {
        return push_single(text, first);
    }
    push_between(text, first, last, &comparison.except)
}

/// Appends the condition that the byte of the input is `byte`.
fn push_single(text: &mut String, byte: u8) -> Result<(), Memory>
    ensures { OnOk result (string_bytes text.new ≡ string_bytes text.old ++ single_text byte) }
{
    push_str(text, "( byte == ")?;
    push_end(text, byte)?;
    push_str(text, " )")?;
    Ok(())
}

/// Appends the condition that the byte of the input is in `first..=last` but not in `except`.
fn push_between(text: &mut String, first: u8, last: u8, except: &[u8]) -> Result<(), Memory>
    ensures { OnOk result (string_bytes text.new
        ≡ string_bytes text.old ++ between_text first last except.now) }
{
    push_str(text, "( matches ! ( byte , ")?;
    push_end(text, first)?;
    push_str(text, " ..= ")?;
    push_end(text, last)?;
    push_str(text, " )")?;
    push_exceptions(text, except)?;
    push_str(text, " )")?;
    Ok(())
}

/// Appends `||` and a comparison.
fn push_next_comparison(text: &mut String, comparison: &Comparisons) -> Result<(), Memory>
    ensures { OnOk result (string_bytes text.new
        ≡ string_bytes text.old ++ codes " || " ++ comparison_text (comparison_of comparison.now)) }
{
    push_str(text, " || ")?;
    push_comparison(text, comparison)
}

/// Appends the comparisons, each preceded by `||`.
fn push_next_comparisons(text: &mut String, comparisons: &[Comparisons]) -> Result<(), Memory>
    ensures { OnOk result (string_bytes text.new ≡ string_bytes text.old
        ++ flat_map (λ c. codes " || " ++ comparison_text c) (map comparison_of comparisons.now)) }
{
    for comparison in comparisons {
        push_next_comparison(text, comparison)?;
    }
    Ok(())
}

/// Appends the comparisons, with `||` between them.
fn push_comparisons(text: &mut String, comparisons: &[Comparisons]) -> Result<(), Memory>
    ensures { OnOk result (string_bytes text.new ≡ string_bytes text.old
        ++ join_by comparison_text (codes " || ") (map comparison_of comparisons.now)) }
{
    let Some((first, rest)) = comparisons.split_first() else {
        return Ok(());
    };
    push_comparison(text, first)?;
    push_next_comparisons(text, rest)
}

/// Appends the expression that reads the bit of the test with the number `test` from the bit
/// table's entry for the byte of the input.
pub(crate) fn push_bit(text: &mut String, test: usize) -> Result<(), Memory>
    ensures { OnOk result (string_bytes text.new ≡ string_bytes text.old ++ bit_text test) }
{
    let table = test / 8;
    let mask: u8 = 1 << (test % 8);
    write!(text, "_TABLE_{table} [ byte as usize ] & {mask}u8")?;
    Ok(())
}

/// Appends the test of the byte of the input as an expression of type `bool`.
fn push_test(text: &mut String, test: &Condition) -> Result<(), Memory>
    ensures { OnOk result (string_bytes text.new
        ≡ string_bytes text.old ++ test_text (condition_of test.now)) }
{
    match test {
        Condition::Comparisons(all) => push_comparisons(text, all)?,
        Condition::Test(k) => push_bit_test(text, *k)?,
    }
    Ok(())
}

/// Appends the condition that the bit of the test with the number `test` is set.
fn push_bit_test(text: &mut String, test: usize) -> Result<(), Memory>
    ensures { OnOk result (string_bytes text.new
        ≡ string_bytes text.old ++ bit_text test ++ codes " != 0") }
{
    push_bit(text, test)?;
    push_str(text, " != 0")?;
    Ok(())
}

/// Appends the step to the state with the number `target`, in the shape `shape`.
pub(crate) fn push_transition(text: &mut String, target: usize, shape: Config) -> Result<(), Memory>
    ensures { OnOk result (string_bytes text.new
        ≡ string_bytes text.old ++ transition_text target shape) }
{
    if shape.use_state_machine_codegen {
        write!(text, "state = LogosState :: State{target} ; continue ;")?;
        return Ok(());
    }
    write!(text, "return state{target} ( lex , offset , context ) ;")?;
    Ok(())
}

/// Appends the condition `test`, and a step to the state with the number `target`. The step is
/// taken if the condition holds.
pub(crate) fn push_condition(
    text: &mut String,
    test: &Condition,
    target: usize,
    shape: Config,
) -> Result<(), Memory>
    ensures { OnOk result (string_bytes text.new
        ≡ string_bytes text.old ++ condition_text (condition_of test.now) target shape) }
{
    push_str(text, "if ")?;
    push_test(text, test)?;
    push_str(text, " { offset += 1 ; ")?;
    push_transition(text, target, shape)?;
    push_str(text, " }")?;
    Ok(())
}
