//! Determines the form in which an output is shown: the colors and the width of the output. Used by
//! `color_output`, `item_line`, `logos_items` and `logos_show`.

ghost use Rattle.std.specs.Prelude.{◌≡◌};
ghost use Rattle.logos_screen.specs.Views.{IsScreenOf, is_plain};

use logos_host::Color;
use std::env::{Env, FillError};

/// The form in which an output is shown: whether the output has colors, and the width of its lines.
#[derive(Clone, Copy, Debug, PartialEq, Eq)]
pub struct Screen {
    pub is_colored: bool,
    /// The width in columns to which lines are cut, or `None` if lines are not cut.
    pub width: Option<usize>,
}

/// The form without colors and without a width, for an output that is compared or read by programs.
pub const PLAIN: Screen = Screen {
    is_colored: false,
    width: None,
};

impl Screen {
    ghost use Rattle.std.specs.Prelude.{◌≡◌};
    ghost use Rattle.logos_screen.specs.Screens.{is_plain};

    /// Returns whether lines have no colors and are never cut.
    #[inline(always)]
    pub fn is_plain(self) -> bool
        ensures { result ≡ is_plain self }
    {
        match self.width {
            Some(_) => false,
            None => !self.is_colored,
        }
    }
}

/// Returns the form of an output. `color` is the condition under which the output has colors.
/// `is_terminal` is `true` if the output is a terminal. The environment variable `COLUMNS`
/// determines the width of a terminal. Any other output has no width.
pub fn screen_of<V: Env>(variables: &V, color: Color, is_terminal: bool) -> Screen
    ensures { IsScreenOf color is_terminal result }
{
    let width = if is_terminal {
        width_in(variables)
    } else {
        None
    };
    Screen {
        is_colored: color.is_on(is_terminal & allows_colors(variables)),
        width,
    }
}

/// Returns whether the environment allows colors. Colors are allowed if the environment variable
/// `NO_COLOR` is empty or not set.
pub fn allows_colors<V: Env>(variables: &V) -> bool {
    let mut value = [0; 1];
    match variables.var("NO_COLOR", &mut value) {
        Ok(length) => length == 0,
        Err(FillError::NotPresent) => true,
        Err(FillError::TooLong) => false,
    }
}

/// The maximum length in bytes of the value of the environment variable `COLUMNS`. Longer values
/// are ignored.
const DIGITS: usize = 20;

/// Returns the value of the environment variable `COLUMNS`. Returns `None` if the variable is not
/// set, or if its value is longer than `DIGITS` bytes or not a positive decimal number.
fn width_in<V: Env>(variables: &V) -> Option<usize> {
    let mut value = [0; DIGITS];
    match variables.var("COLUMNS", &mut value) {
        Ok(length) => number_of(value.get(..length)?),
        Err(_) => None,
    }
}

/// Returns the number that `digits` denote. Returns `None` if a byte is not a decimal digit, or if
/// the number is 0 or overflows.
fn number_of(digits: &[u8]) -> Option<usize> {
    let mut number: usize = 0;
    for digit in digits {
        number = with_digit(number, *digit)?;
    }
    if number == 0 { None } else { Some(number) }
}

/// Returns `number` with the decimal digit `digit` appended, or `None` if `digit` is not an ASCII
/// digit or the result overflows.
fn with_digit(number: usize, digit: u8) -> Option<usize> {
    if !digit.is_ascii_digit() {
        return None;
    }
    number.checked_mul(10)?.checked_add((digit - b'0') as usize)
}
