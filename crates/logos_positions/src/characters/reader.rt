//! Contains the table that reads a character of a class byte by byte. For each byte,
//! `positions::step` looks up the next row in the table.

ghost use Rattle.std.specs.Prelude.{◌<◌, ◌^◌};

/// A class of characters as an automaton over the bytes of UTF-8. At row 0, a whole character has
/// been read. At any other row, a proper prefix of a character has been read.
#[derive(Drop)]
pub struct CharacterTable {
    /// The number of rows.
    pub rows: usize,
    /// For each byte, the row after the byte as the first byte of a character, or `None` if no
    /// character of the class begins with the byte.
    pub first: Vec<Option<usize>>,
    /// For each row and each continuation byte, the row after them, or `None` if no character
    /// continues with the byte. Each row has 64 entries.
    pub follow: Vec<Option<usize>>,
    ghost some: { 0 < rows },
    ghost few: { rows < 2 ^ 16 },
}

impl CharacterTable {
    ghost use Rattle.std.specs.Prelude.{◌≡◌, ◌<◌};
    ghost use Rattle.logos_positions.specs.Table as table;

    /// Returns the row after the first byte `byte`, or `None` if no character of the class begins
    /// with `byte`.
    pub fn first(&self, byte: u8) -> Option<usize>
        ensures { result ≡ (table.reader_of self.now).first byte }
    {
        match self.first.get(byte as usize) {
            None => None,
            Some(to) => *to,
        }
    }

    /// Returns the row after `row` and `byte`, or `None` if no character of the class continues
    /// with `byte`.
    pub fn follow(&self, row: usize, byte: u8) -> Option<usize>
        requires { row < self.now.rows }
        ensures { result ≡ (table.reader_of self.now).follow row byte }
    {
        if !(0x80 <= byte && byte < 0xC0) {
            return None;
        }
        match self.follow.get(row * 64 + (byte - 0x80) as usize) {
            None => None,
            Some(to) => *to,
        }
    }
}
