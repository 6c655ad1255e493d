//! Defines the setting for colors and its values in the option `--color`. Used by `logos_cli`,
//! `logos_options` and `logos_screen`.

ghost use Rattle.std.specs.Prelude.{◌≡◌};
ghost use Rattle.logos_host.specs.Colors.{color_named, has_colors};

/// The condition under which a text has colors.
#[derive(Clone, Copy, Debug, PartialEq, Eq)]
pub enum Color {
    /// The text always has colors.
    Always,
    /// The text never has colors.
    Never,
    /// The text has colors if it is written to a terminal.
    Auto,
}

impl Color {
    /// Returns whether a text has colors under this condition. `is_terminal` is `true` if the text
    /// is written to a terminal.
    pub fn is_on(self, is_terminal: bool) -> bool
        ensures { result ≡ has_colors self is_terminal }
    {
        match self {
            Color::Always => true,
            Color::Never => false,
            Color::Auto => is_terminal,
        }
    }
}

/// Returns the color setting for a value of `--color`: `always`, `never` or `auto`. Returns `None`
/// for any other value.
pub fn color_by_name(name: &str) -> Option<Color>
    ensures { result ≡ color_named name.now }
{
    if name == "always" {
        return Some(Color::Always);
    }
    if name == "never" {
        return Some(Color::Never);
    }
    if name == "auto" {
        return Some(Color::Auto);
    }
    None
}
