//! Defines cursors: offsets in a text that move forward together with their lines and columns.
//! Printers of tables move one cursor over ascending offsets instead of searching for each offset.

ghost use Rattle.std.specs.Prelude.{◌≡◌, ◌≤◌, max, min, length};
ghost use Rattle.logos_lines.specs.Views.{location_at};

use crate::location::Location;
use std::marker::Model;

/// A byte offset in a text, with its line and column. A cursor moves only forward.
///
/// Moving one cursor over a whole text takes time linear in the length of the text.
#[derive(Drop)]
pub struct Cursor<'t> {
    bytes: &'t [u8],
    offset: usize,
    location: Location,
}

impl<'t> Model for Cursor<'t> {
    ghost use Rattle.std.specs.Prelude.{◌≡◌, ◌≤◌, length};
    ghost use Rattle.logos_lines.specs.Views.{CursorValue, location_at};

    ghost Value = { CursorValue };

    ghost view = { λ c. record { text = c.bytes.now; at = c.offset } };

    ghost invariant = { λ c. (c.offset ≤ length c.bytes.now) ×
        (c.location ≡ location_at c.bytes.now c.offset) };
}

impl<'t> Cursor<'t> {
    /// Returns a cursor at the start of the text `bytes`.
    pub fn new(bytes: &'t [u8]) -> Cursor<'t>
        ensures { result ≡ record { text = bytes.now; at = 0 } }
    {
        Cursor {
            bytes,
            offset: 0,
            location: Location::first(),
        }
    }

    /// Returns a cursor at the byte offset `offset` in the text `bytes`. `location` is the line and
    /// the column of the offset.
    pub(crate) fn at(bytes: &'t [u8], offset: usize, location: Location) -> Cursor<'t>
        requires inside { offset ≤ length bytes.now }
        requires location { location ≡ location_at bytes.now offset }
        ensures { result ≡ record { text = bytes.now; at = offset } }
    {
        Cursor {
            bytes,
            offset,
            location,
        }
    }

    /// Returns the line and the column of the cursor's offset.
    pub fn location(&self) -> Location
        ensures { result ≡ location_at self.now.text self.now.at }
    {
        self.location
    }

    /// Moves the cursor to a byte offset, or to the end of the text if the offset is past the end.
    /// Does nothing if the offset is before the cursor.
    pub fn go_to(&mut self, offset: usize)
        ensures { self.new ≡ record {
          text = self.old.text;
          at = max self.old.at (min offset (length self.old.text));
        } }
    {
        let end = offset.min(self.bytes.len());
        while self.offset < end {
            self.location = self.location.after(self.bytes[self.offset]);
            self.offset += 1;
        }
    }
}
