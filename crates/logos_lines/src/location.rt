//! Defines locations, which consist of a line and a column. `index` and `cursor` compute locations.

ghost use Rattle.std.specs.Prelude.{◌≡◌, ◌<◌, ◌+◌, ◌^◌, ℕ, List, IsCharBoundary};
ghost use Rattle.logos_lines.specs.Views.{after_byte, continues, location_at};

/// A line and a column of a text. Both count from 1, and a column counts characters.
#[derive(Clone, Copy, Debug, PartialEq, Eq)]
pub struct Location {
    pub line: usize,
    pub column: usize,
}

impl Location {
    /// Returns the location of the start of a text.
    pub(crate) fn first() -> Location
        ensures { result ≡ record { line = 1; column = 1 } }
    {
        Location { line: 1, column: 1 }
    }

    /// Returns the location after the byte `byte` at this location.
    pub(crate) fn after(self, byte: u8) -> Location
        requires line { self.line + 1 < 2 ^ 64 }
        requires column { self.column + 1 < 2 ^ 64 }
        ensures { result ≡ after_byte self byte }
    {
        let Location { line, column } = self;
        if byte == b'\n' {
            return Location {
                line: line + 1,
                column: 1,
            };
        }
        if continues(byte) {
            return self;
        }
        Location {
            line,
            column: column + 1,
        }
    }
}

/// Returns whether `byte` is a continuation byte of UTF-8.
pub(crate) fn continues(byte: u8) -> bool
    ensures { result ≡ continues byte }
{
    (128 <= byte) & (byte < 192)
}

/// No two boundaries between characters have the same line and column.
pub fn one_location()
    ensures { (text : List ℕ) (one other : ℕ) → IsCharBoundary text one →
        IsCharBoundary text other → location_at text one ≡ location_at text other → one ≡ other }
{}
