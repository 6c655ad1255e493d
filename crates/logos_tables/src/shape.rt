//! The function `lexer_text`, which prints a lexer in a given shape. `logos_derive`, `logos_expand`
//! and `logos_cli` call this function.

ghost use Rattle.std.specs.Prelude.{◌≡◌, IfOk, string_bytes};
ghost use Rattle.logos_tables.specs.Views.{ArePrinted, IsShown, around_made, config_of, shape_runs};

use crate::lexer::tables;
use logos_codegen::Generated;
use logos_codegen::generator::Config;
use logos_text::Sink;
use logos_token::error::Memory;
use std::alloc::Global;

/// The shape in which a lexer is printed.
#[derive(Clone, Copy)]
pub enum Shape {
    /// A shape in `Config`: a loop over the current state, or a function for each state.
    Code(Config),
    /// Tables for the loop of the runtime.
    Tables,
}

/// Returns the shape of the code from which a lexer of the shape `shape` is printed. The result for
/// `Tables` is the shape with a loop over the current state.
pub fn config_of(shape: Shape) -> Config
    ensures { result ≡ config_of shape }
{
    match shape {
        Shape::Code(config) => config,
        Shape::Tables => Config {
            use_state_machine_codegen: true,
        },
    }
}

/// Returns the text of the lexer `made` in the shape `shape`, and the pieces of the source in this
/// text.
///
/// # Errors
///
/// Returns `Memory` if memory runs out.
pub fn lexer_text(alloc: Global, shape: Shape, made: &Generated<'_>) -> Result<Sink, Memory>
    ensures shown { IfOk result (λ sink.
        IsShown shape (around_made made.now) made.now.code (string_bytes sink.text)) }
    ensures pieces { IfOk result (λ sink.
        ArePrinted (shape_runs shape (around_made made.now) made.now.code)
        0 sink.pieces.items (string_bytes sink.text)) }
{
    match shape {
        Shape::Code(_) => made.printed(alloc),
        Shape::Tables => tables(alloc, made),
    }
}
