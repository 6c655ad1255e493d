//! Functions that encode the steps of a state as numbers: one for each byte, and one for the end of
//! the input. `rows` calls `steps_of` for each state.

ghost use Rattle.std.specs.Prelude.{◌≡◌, ◌<◌, length, IfSome, IsTrue};
ghost use Rattle.logos_tables.specs.Imports.{passes_test, code_of, state_at, NamesState, NamesTest, stays, target, HasSteps, led_number, step_number};

use logos_code::code::{Code, CodeParts};

/// The symbol for the end of the input. The symbols below `END` are the bytes.
const END: usize = 256;

/// The number of symbols, which are all bytes and the end of the input.
const SYMBOLS: usize = 257;

/// The steps of a state, encoded as one number for each symbol.
pub(crate) type Steps = [usize; SYMBOLS];

/// Returns the numbers that encode the steps of all symbols in a state.
pub(crate) fn steps_of(code: &Code<'_>, state: usize) -> Steps
    requires { state < length code.now.states }
    ensures { HasSteps code.now (state_at code.now state) result }
{
    let mut steps = [0; SYMBOLS];
    for symbol in 0..SYMBOLS {
        steps[symbol] = step_number(code, state, symbol);
    }
    steps
}

/// Returns the number that encodes the step of a symbol in a state. The number is 1 if the fast
/// loop of the state consumes the symbol. Otherwise it is 2 plus the number of the target, or 0 if
/// the symbol leads nowhere.
fn step_number(code: &Code<'_>, state: usize, symbol: usize) -> usize
    requires state { state < length code.now.states }
    requires symbol { symbol < SYMBOLS }
    ensures { result ≡ step_number code.now (state_at code.now state) symbol }
{
    if symbol == END {
        return number_at_end(code, state);
    }
    let byte = symbol as u8;
    if stays(code, state, byte) {
        return 1;
    }
    number_of_target(code, state, byte)
}

/// Returns whether the state has a fast loop whose test `byte` passes.
fn stays(code: &Code<'_>, state: usize, byte: u8) -> bool
    requires { state < length code.now.states }
    ensures { result ≡ stays code.now (state_at code.now state).fast_loop byte }
{
    match code.fast_loop(state) {
        Some(test) => code.passes_test(test, byte),
        None => false,
    }
}

/// Returns the number that encodes the step of a state at the end of the input.
fn number_at_end(code: &Code<'_>, state: usize) -> usize
    requires { state < length code.now.states }
    ensures { result ≡ led_number (state_at code.now state).at_end }
{
    led_number(code.parts(), code.at_end(state))
}

/// Returns the number that encodes the step of a state for a byte that the state's fast loop does
/// not consume.
fn number_of_target(code: &Code<'_>, state: usize, byte: u8) -> usize
    requires { state < length code.now.states }
    ensures { result ≡ led_number (target code.now (state_at code.now state).fork byte) }
{
    led_number(code.parts(), code.target(state, byte))
}

/// Returns the number that encodes a step to the state `target`, or 0 if `target` is `None`.
fn led_number(parts: &CodeParts<'_>, target: Option<usize>) -> usize
    requires { IfSome target (NamesState (code_of parts.now)) }
    ensures { result ≡ led_number target }
{
    // `parts` is a parameter only for its invariant, which bounds the number of states.
    let _ = parts;
    match target {
        Some(state) => state + 2,
        None => 0,
    }
}
