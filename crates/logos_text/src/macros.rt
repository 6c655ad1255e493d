//! Printers of the macros of a lexer. The macros precede the lexer's states. `code` calls the
//! printers.

ghost use Rattle.std.specs.Prelude.{OnOk, string_bytes};
ghost use Rattle.logos_text.specs.Imports.{Grows};

use crate::names::Names;
use crate::pieces::push;
use logos_token::error::Memory;

/// Appends the macro `_fast_loop`, which reads blocks of `factor` bytes.
pub(crate) fn push_fast_loop_macro(text: &mut String, factor: usize) -> Result<(), Memory>
    ensures { OnOk result (Grows (string_bytes text.old) (string_bytes text.new)) }
{
    write!(
        text,
        "macro_rules ! _fast_loop {{ ( $ lex : ident , $ test : ident , $ offset : ident ) => {{ 'fast_loop : {{ while let Some ( arr ) = $ lex . read :: < & [ u8 ; {factor}usize ] > ( $ offset ) {{ "
    )?;
    push_block_tests(text, factor)?;
    write!(
        text,
        "$ offset += {factor}usize ; }} while let Some ( byte ) = $ lex . read :: < u8 > ( $ offset ) {{ if $ test ( byte ) {{ break 'fast_loop ; }} $ offset += 1 ; }} }} }} ; }} "
    )?;
    Ok(())
}

/// Appends the tests of the `factor` bytes of a block.
fn push_block_tests(text: &mut String, factor: usize) -> Result<(), Memory>
    ensures { OnOk result (Grows (string_bytes text.old) (string_bytes text.new)) }
{
    for index in 0..factor {
        write!(
            text,
            "if $ test ( arr [ {index}usize ] ) {{ $ offset += {index}usize ; break 'fast_loop ; }} "
        )?;
    }
    Ok(())
}

/// Appends the macro `_take_action`, which ends a match attempt. The macro returns an item, or
/// begins the next match attempt after a skip. `root` is the number of the root.
pub(crate) fn push_take_action_macro(
    text: &mut String,
    root: usize,
    names: Names<'_>,
) -> Result<(), Memory>
    ensures { OnOk result (Grows (string_bytes text.old) (string_bytes text.new)) }
{
    push(
        text,
        "macro_rules ! _take_action { ( $ lex : ident , $ offset : ident , $ context : ident , $ state : ident ) => { { let action = _get_action ( $ lex , $ offset , $ context ) ; match action { CallbackResult :: Emit ( tok ) => { return Some ( Ok ( tok ) ) ; } , CallbackResult :: Skip => { $ lex . trivia ( ) ; $ offset = $ lex . offset ( ) ; $ context = None ; ",
    )?;
    push_restart(text, root, names)?;
    push(
        text,
        "} , CallbackResult :: Error ( err ) => { return Some ( Err ( err ) ) ; } , CallbackResult :: DefaultError => { return Some ( Err ( _make_error ( $ lex ) ) ) ; } , } } } } ",
    )
}

/// Appends the step that begins the next match attempt in the root, the state with the number
/// `root`.
fn push_restart(text: &mut String, root: usize, names: Names<'_>) -> Result<(), Memory>
    ensures { OnOk result (Grows (string_bytes text.old) (string_bytes text.new)) }
{
    if names.shape.use_state_machine_codegen {
        write!(text, "$ state = LogosState :: State{root} ; continue ; ")?;
        return Ok(());
    }
    write!(
        text,
        "return state{root} ( $ lex , $ offset , $ context ) ; "
    )?;
    Ok(())
}
