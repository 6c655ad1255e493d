//! Printers of the states of a lexer, as match arms of a loop or as one function for each state.
//! `code` calls them.

ghost use Rattle.std.specs.Prelude.{OnOk, map, string_bytes};
ghost use Rattle.logos_text.specs.Imports.{flat_map, state_of, Adds, Grows, state_texts};

use crate::conditions::{push_bit, push_transition};
use crate::forks::push_ways;
use crate::names::Names;
use crate::pieces::{comma_before, push};
use logos_code::code::{CodeParts, CodeState, Config, Mark};
use logos_token::error::Memory;
use std::alloc::Global;

/// Appends the fast loop for the test with the number `fast_loop`, or nothing for `None`.
fn push_fast_loop(text: &mut String, fast_loop: Option<usize>) -> Result<(), Memory>
    ensures { OnOk result (Grows (string_bytes text.old) (string_bytes text.new)) }
{
    let Some(test) = fast_loop else {
        return Ok(());
    };
    push(text, "# [ inline ] fn loop_test ( byte : u8 ) -> bool { ")?;
    push_bit(text, test)?;
    push(text, " == 0 } _fast_loop ! ( lex , loop_test , offset ) ; ")
}

/// Returns the text that follows `offset` in the expression for the end of a match: the subtraction
/// of one byte if the match's mark is late, and nothing otherwise.
fn distance(late: bool) -> &'static str {
    if late { " - 1" } else { "" }
}

/// Appends the statements that record the match of a state's mark, or nothing for `None`.
fn push_mark(text: &mut String, mark: Option<Mark>) -> Result<(), Memory>
    ensures { OnOk result (Grows (string_bytes text.old) (string_bytes text.new)) }
{
    let Some(mark) = mark else {
        return Ok(());
    };
    let distance = distance(mark.late);
    let leaf = mark.leaf.0;
    write!(
        text,
        "lex . end ( offset{distance} ) ; context = Some ( LogosLeaf :: Leaf{leaf} ) ; "
    )?;
    Ok(())
}

/// Appends the step of the root that returns `None` at the end of the input if no byte was read.
/// Appends nothing for other states.
fn push_nothing_read(text: &mut String, is_root: bool) -> Result<(), Memory>
    ensures { OnOk result (Grows (string_bytes text.old) (string_bytes text.new)) }
{
    if !is_root {
        return Ok(());
    }
    push(text, "if lex . offset ( ) == offset { return None } ")
}

/// Appends the step that a state takes at the end of the input. The step leads to the state with
/// the number `at_end`. Appends nothing if `at_end` is `None`.
fn push_at_end(text: &mut String, at_end: Option<usize>, shape: Config) -> Result<(), Memory>
    ensures { OnOk result (Grows (string_bytes text.old) (string_bytes text.new)) }
{
    let Some(target) = at_end else {
        return Ok(());
    };
    push(text, "offset += 1 ; ")?;
    push_transition(text, target, shape)?;
    push(text, " ")
}

/// Appends the head of the state with the number `s`: the pattern of a match arm, or the signature
/// of a function.
fn push_head(text: &mut String, s: usize, names: Names<'_>) -> Result<(), Memory>
    ensures { OnOk result (Grows (string_bytes text.old) (string_bytes text.new)) }
{
    if names.shape.use_state_machine_codegen {
        write!(text, "LogosState :: State{s} => {{ ")?;
        return Ok(());
    }
    let this = names.this;
    write!(
        text,
        "fn state{s} < 's > ( lex : & mut _Lexer < 's > , mut offset : usize , mut context : _Option < LogosLeaf > ) -> _Option < _Result < {this} , < {this} as Logos < 's >> :: Error >> {{ "
    )?;
    Ok(())
}

/// Appends the beginning of the state with the number `s`, before its fork: its fast loop, its
/// mark, and the read of a byte.
fn push_before(
    text: &mut String,
    s: usize,
    state: &CodeState,
    names: Names<'_>,
) -> Result<(), Memory>
    ensures { OnOk result (Grows (string_bytes text.old) (string_bytes text.new)) }
{
    push_head(text, s, names)?;
    push_fast_loop(text, state.fast_loop)?;
    push_mark(text, state.mark)?;
    push(
        text,
        "let other = lex . read :: < u8 > ( offset ) ; if let Some ( byte ) = other { ",
    )
}

/// Appends the steps of a state for the end of the input and for bytes that lead to no state.
fn push_after(
    text: &mut String,
    is_root: bool,
    at_end: Option<usize>,
    shape: Config,
) -> Result<(), Memory>
    ensures { OnOk result (Grows (string_bytes text.old) (string_bytes text.new)) }
{
    push(text, "} else { ")?;
    push_nothing_read(text, is_root)?;
    push_at_end(text, at_end, shape)?;
    push(
        text,
        "} _take_action ! ( lex , offset , context , state ) } ",
    )
}

/// Appends `state`, the state with the number `s`.
fn push_state(
    alloc: Global,
    text: &mut String,
    s: usize,
    state: &CodeState,
    parts: &CodeParts<'_>,
    names: Names<'_>,
) -> Result<(), Memory>
    ensures { OnOk result (Adds (state_texts names.entry.shape (state_of parts.now.jump_tables.items
        state.now)) (string_bytes text.old) (string_bytes text.new)) }
{
    push_before(text, s, state, names)?;
    push_ways(alloc, text, &state.fork, parts, names.shape)?;
    push_after(text, s == parts.root, state.at_end, names.shape)?;
    Ok(())
}

/// Appends the states, in the order of their numbers.
pub(crate) fn push_states(
    alloc: Global,
    text: &mut String,
    parts: &CodeParts<'_>,
    names: Names<'_>,
) -> Result<(), Memory>
    ensures { OnOk result (Adds (flat_map (state_texts names.entry.shape)
        (map (state_of parts.now.jump_tables.items) parts.now.states.items)) (string_bytes text.old)
        (string_bytes text.new)) }
{
    for s in 0..parts.states.len() {
        push_state(alloc, text, s, &parts.states[s], parts, names)?;
    }
    Ok(())
}

/// Appends the names of `count` states, in lexicographic order.
fn push_state_names(alloc: Global, text: &mut String, count: usize) -> Result<(), Memory>
    ensures { OnOk result (Grows (string_bytes text.old) (string_bytes text.new)) }
{
    let names = state_names(alloc, count)?;
    for n in 0..names.len() {
        push_state_name(text, n, &names[n])?;
    }
    Ok(())
}

/// Appends `name` to a list of names. A comma precedes the name unless `n`, the index of the name
/// in the list, is 0.
fn push_state_name(text: &mut String, n: usize, name: &str) -> Result<(), Memory>
    ensures { OnOk result (Grows (string_bytes text.old) (string_bytes text.new)) }
{
    let comma = comma_before(n);
    write!(text, "{comma}{name} ")?;
    Ok(())
}

/// Returns the names of `count` states, in lexicographic order.
fn state_names(alloc: Global, count: usize) -> Result<Vec<String>, Memory> {
    let mut names = Vec::new(alloc);
    for s in 0..count {
        names.push(format!(in alloc; "State{s}")?)?;
    }
    names.sort_unstable();
    Ok(names)
}

/// Appends the text before the states: the enum of the states, the variables and the beginning of
/// the loop. Appends nothing in the shape with a function for each state.
pub(crate) fn push_opening(
    alloc: Global,
    text: &mut String,
    parts: &CodeParts<'_>,
    shape: Config,
) -> Result<(), Memory>
    ensures { OnOk result (Grows (string_bytes text.old) (string_bytes text.new)) }
{
    if !shape.use_state_machine_codegen {
        return Ok(());
    }
    push(text, "# [ derive ( Clone , Copy ) ] enum LogosState { ")?;
    push_state_names(alloc, text, parts.states.len())?;
    let root = parts.root;
    write!(
        text,
        "}} let mut state = LogosState :: State{root} ; let mut offset = lex . offset ( ) ; let mut context : _Option < LogosLeaf > = None ; loop {{ match state {{ "
    )?;
    Ok(())
}

/// Appends the text after the states: the end of the loop, or the call of the root's function in
/// the shape with a function for each state.
pub(crate) fn push_closing(text: &mut String, root: usize, shape: Config) -> Result<(), Memory>
    ensures { OnOk result (Grows (string_bytes text.old) (string_bytes text.new)) }
{
    if shape.use_state_machine_codegen {
        return push(text, "} }");
    }
    write!(text, "state{root} ( lex , lex . offset ( ) , None )")?;
    Ok(())
}
