//! Defines the programs that take options. Used by `logos_cli`, `logos_questions` and `logos_show`.

ghost use Rattle.std.specs.Prelude.{◌≡◌};
ghost use Rattle.logos_options.specs.Imports.{cli_takes, show_takes};

use crate::options::{OptionName, OptionRow, ROWS};

/// A program that takes options.
#[derive(Clone, Copy, Debug, PartialEq, Eq)]
pub enum Program {
    /// The program `logos_cli`.
    Cli,
    /// The program `logos_show`.
    Show,
}

impl Program {
    ghost use Rattle.std.specs.Prelude.{◌≡◌};
    ghost use Rattle.logos_options.specs.Programs.{takes};

    /// Returns whether the program takes an option.
    pub fn takes(self, option: OptionName) -> bool
        ensures { result ≡ takes self option }
    {
        match self {
            Program::Cli => cli_takes(option),
            Program::Show => show_takes(option),
        }
    }

    /// Returns the lines in the help of the program for the option in `row`, or an empty text if
    /// the program does not take the option.
    pub(crate) fn help_of(self, row: &OptionRow) -> &'static str {
        let lines = match self {
            Program::Cli => row.cli,
            Program::Show => row.show,
        };
        match lines {
            Some(lines) => lines,
            None => "",
        }
    }
}

/// Returns whether `logos_cli` takes an option.
fn cli_takes(option: OptionName) -> bool
    ensures { result ≡ cli_takes option }
{
    ROWS[option as usize].cli.is_some()
}

/// Returns whether `logos_show` takes an option.
fn show_takes(option: OptionName) -> bool
    ensures { result ≡ show_takes option }
{
    ROWS[option as usize].show.is_some()
}
