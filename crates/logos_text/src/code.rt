//! Functions that print a whole lexer: the text of a code, and the implementation of `Logos` around
//! this text. `logos_codegen` calls them.

ghost use Rattle.std.specs.Prelude.{[], IfOk, OnOk, map, string_bytes};
ghost use Rattle.logos_text.specs.Views.{Adds, ArePrinted, BeginsWith, Grows, IsFront, Notes, OccurInOrder, action_runs, around_value, code_of, flat_map, front_runs, opening_text, printed_type, short_core, state_of, state_texts, text_runs, texts_in, texts_of, type_tree};

use crate::actions::push_table_actions;
use crate::errors::push_make_error;
use crate::implementation::{Around, push_front, push_tables_use};
use crate::leaves::{push_get_action, push_leaf_names};
use crate::macros::{push_fast_loop_macro, push_take_action_macro};
use crate::names::Names;
use crate::sink::Sink;
use crate::states::{push_closing, push_opening, push_states};
use crate::tables::push_tables;
use logos_code::code::{Code, CodeParts};
use logos_token::error::Memory;
use logos_type::print_type;
use std::alloc::Global;

/// The path of `core` in generated code of the shapes in `Config`, with the gap after the path.
const SHORT_CORE: &str = "core ";
/// The path of `core` in generated code of the shape `tables`, with the gap after the path. The
/// path is absolute, so that no module beside the enum can change the path's meaning.
const WHOLE_CORE: &str = ":: core ";
/// The attribute before the function `lex` of a table-driven lexer. The function is short, and a
/// caller that inlines the function keeps the lexer in registers.
const TABLES_LEAD: &str = "# [ inline ] ";

/// Returns the Rust text of a code, as the body of a function. The text consists of tokens, with
/// the gaps that `print` puts between tokens.
///
/// The text contains the texts of all bit tables, in the order of their numbers. The texts of the
/// conditions of all forks follow, in the order of the states and, within a fork, in the order of
/// the fork's conditions. No two of these texts overlap.
///
/// # Errors
///
/// Returns `Memory` if memory runs out.
pub fn text(alloc: Global, code: &Code<'_>) -> Result<String, Memory>
    ensures { IfOk result (λ text. OccurInOrder (texts_of code.now) (string_bytes text)) }
{
    let parts = code.parts();
    let this = print_type(alloc, &parts.header.this)?;
    let mut sink = Sink::new(alloc);
    push_code(alloc, &mut sink, parts, Names::new(parts, &this))?;
    Ok(sink.text)
}

/// Returns the text of the implementation of `Logos`, with the pieces of the source in this text.
/// The body of the lexing function is the text that `text` returns for `code`. `around` determines
/// the text around this body.
///
/// # Errors
///
/// Returns `Memory` if memory runs out.
pub fn text_in(alloc: Global, code: &Code<'_>, around: Around<'_, '_>) -> Result<Sink, Memory>
    ensures occur { IfOk result (λ sink. OccurInOrder (texts_of code.now) (string_bytes sink.text)) }
    ensures begins { IfOk result (λ sink. BeginsWith (opening_text [] short_core (around_value around.entry)
        (printed_type (type_tree code.now.header.this))) (string_bytes sink.text)) }
    ensures pieces { IfOk result (λ sink. ArePrinted (text_runs (around_value around.entry) code.now)
        0 sink.pieces.items (string_bytes sink.text)) }
{
    let parts = code.parts();
    let this = print_type(alloc, &parts.header.this)?;
    let names = Names::new(parts, &this);
    let mut sink = Sink::new(alloc);
    push_front(alloc, &mut sink, around, names, "", SHORT_CORE)?;
    push_code(alloc, &mut sink, parts, names)?;
    sink.push(" } }")?;
    Ok(sink)
}

/// Returns the beginning of a table-driven implementation of `Logos`, with the pieces of the source
/// in this text. The beginning contains the associated types and the first items of the function
/// `lex`: the imports, and the functions for errors, matches and tokens. The caller appends the
/// rest of the function's body.
///
/// # Errors
///
/// Returns `Memory` if memory runs out.
pub fn front_in(alloc: Global, code: &Code<'_>, around: Around<'_, '_>) -> Result<Sink, Memory>
    ensures front { IfOk result (λ sink. IsFront (around_value around.entry)
        (printed_type (type_tree code.now.header.this)) (string_bytes sink.text)) }
    ensures pieces { IfOk result (λ sink. ArePrinted (front_runs (around_value around.entry) code.now)
        0 sink.pieces.items (string_bytes sink.text)) }
{
    let parts = code.parts();
    let this = print_type(alloc, &parts.header.this)?;
    let names = Names::new(parts, &this);
    let mut sink = Sink::new(alloc);
    push_front(alloc, &mut sink, around, names, TABLES_LEAD, WHOLE_CORE)?;
    push_tables_use(alloc, &mut sink, around.logos)?;
    push_table_actions(alloc, &mut sink, parts, names)?;
    Ok(sink)
}

/// Appends the body of the function that lexes: its macros, bit tables, functions and states.
fn push_code(
    alloc: Global,
    sink: &mut Sink,
    parts: &CodeParts<'_>,
    names: Names<'_>,
) -> Result<(), Memory>
    ensures adds { OnOk result (Adds (texts_in names.entry.shape (code_of parts.now))
        (string_bytes sink.old.text) (string_bytes sink.new.text)) }
    ensures notes { OnOk result (Notes (action_runs names.entry.name parts.now.header.error_callback
        parts.now.leaves.items) sink.old sink.new) }
{
    push_macros(&mut sink.text, parts.root, names)?;
    push_tables(&mut sink.text, &parts.bit_tables)?;
    push_actions(alloc, sink, parts, names)?;
    push_rest(alloc, &mut sink.text, parts, names)?;
    Ok(())
}

/// Appends the macro `_fast_loop`, which reads blocks of eight bytes, and the macro `_take_action`,
/// which ends a match attempt.
fn push_macros(text: &mut String, root: usize, names: Names<'_>) -> Result<(), Memory>
    ensures { OnOk result (Grows (string_bytes text.old) (string_bytes text.new)) }
{
    push_fast_loop_macro(text, 8)?;
    push_take_action_macro(text, root, names)
}

/// Appends the functions for matches and errors, followed by the enum of the leaves.
fn push_actions(
    alloc: Global,
    sink: &mut Sink,
    parts: &CodeParts<'_>,
    names: Names<'_>,
) -> Result<(), Memory>
    ensures { OnOk result (Notes (action_runs names.entry.name parts.now.header.error_callback
        parts.now.leaves.items) sink.old sink.new) }
{
    push_make_error(alloc, sink, parts.header.error_callback.as_ref(), names)?;
    push_get_action(alloc, sink, &parts.leaves, names)?;
    push_leaf_names(&mut sink.text, parts.leaves.len())?;
    Ok(())
}

/// Appends the states, with the text before and after them.
fn push_rest(
    alloc: Global,
    text: &mut String,
    parts: &CodeParts<'_>,
    names: Names<'_>,
) -> Result<(), Memory>
    ensures { OnOk result (Adds (flat_map (state_texts names.entry.shape)
        (map (state_of parts.now.jump_tables.items) parts.now.states.items))
        (string_bytes text.old) (string_bytes text.new)) }
{
    push_opening(alloc, text, parts, names.shape)?;
    push_states(alloc, text, parts, names)?;
    push_closing(text, parts.root, names.shape)?;
    Ok(())
}
