//! Defines the origins of enums. The origin of an enum determines which of its mistakes are
//! warnings. Used by `messages` and the crates that report warnings.

ghost use Rattle.std.specs.Prelude.{◌≡◌};
ghost use Rattle.logos_warnings.specs.Views.{is_warning, mistake_value};

use crate::mistakes::Mistake;

/// The origin of an enum's text: a file, or the derive macro.
#[derive(Clone, Copy, Debug, PartialEq, Eq)]
pub enum Origin {
    /// A file.
    File,
    /// The derive macro. The compiler applies each `cfg` of the enum before the macro runs.
    Macro,
}

/// Returns whether a mistake is a warning for an enum with the origin `origin`.
pub(crate) fn is_warning(mistake: Mistake<'_>, origin: Origin) -> bool
    ensures { result ≡ is_warning (mistake_value mistake.entry) origin }
{
    match mistake {
        Mistake::Misspelled { .. } => true,
        Mistake::Qualified { .. } => true,
        Mistake::Useless { .. } => true,
        Mistake::Conditional { .. } => matches!(origin, Origin::File),
        Mistake::NoPattern { .. } => true,
        Mistake::NoDerive { .. } => true,
    }
}
