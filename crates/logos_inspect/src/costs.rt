//! Measures the cost of a lexer. Used by `logos_answers`, `logos_records` and `logos_replies`.

ghost use Rattle.std.specs.Prelude.{◌≡◌};
ghost use Rattle.logos_inspect.specs.Views.{costs};

use logos_code::code::Code;

/// The cost of a lexer: the number of states and the numbers of tables in its code.
#[derive(Clone, Copy, Debug, PartialEq, Eq)]
pub struct Costs {
    /// The number of states.
    pub states: usize,
    /// The number of bit tables of 256 bytes each. Each table contains eight tests of bytes.
    pub bit_tables: usize,
    /// The number of jump tables of 256 entries each.
    pub jump_tables: usize,
}

/// Returns the cost of a lexer with the code `code`.
pub fn costs_of(code: &Code<'_>) -> Costs
    ensures { result ≡ costs code.now }
{
    let parts = code.parts();
    Costs {
        states: parts.states.len(),
        bit_tables: parts.bit_tables.len(),
        jump_tables: parts.jump_tables.len(),
    }
}
