//! Laws of command-line arguments. The contract of each function is a proved law. No code calls
//! these functions.

ghost use Rattle.std.specs.Prelude.{◌≡◌, ◌++◌, ℕ, List};
ghost use Rattle.logos_options.specs.Imports.{AreApart, AreSettled, AreWhole, OptionValue, arguments_of};
ghost use Rattle.logos_options.specs.declared.program.Program.{Program as AnyProgram};

/// The order of options does not matter: two sequences of arguments can be exchanged if each
/// sequence spells whole options, no option requests a text, and no option occurs in both
/// sequences.
pub fn options_in_any_order()
    ensures { (program : AnyProgram) (one other : List (List ℕ)) (first second : List OptionValue) →
        AreWhole one first → AreWhole other second → AreSettled first → AreSettled second →
        AreApart first second →
        arguments_of program (one ++ other) ≡ arguments_of program (other ++ one) }
{}
