//! Declares the trait of types that choose the help texts for faults. `logos_help` implements the
//! trait, and `logos_derive` accepts any type that implements it.

ghost use Rattle.std.specs.Prelude.{◌≡◌};
ghost use Rattle.logos_report.specs.Views.{sizes_of};

use crate::clues::Clues;
use crate::source::Part;
use logos_token::error::{Errors, Memory};

/// A type that chooses the help texts for faults.
pub trait Helps {
    /// Adds the help for each fault in `errors` to `clues`. `errors` contains the faults of a part
    /// of a file. A report shows each help text under the fault.
    ///
    /// # Errors
    ///
    /// Returns `Memory` if memory runs out. The help texts for only some of the faults may then
    /// have been added.
    fn add(&self, part: Part<'_, '_>, errors: &Errors, clues: &mut Clues) -> Result<(), Memory>
        ensures { sizes_of clues.new ≡ sizes_of clues.old };
}
