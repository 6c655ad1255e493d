//! `offset_of` finds the byte offset of a location in an input. Called by `logos_replies`.

ghost use Rattle.std.specs.Prelude.{◌≡◌, ◌↔◌, ℕ, IsTrue, MatchOption, false};
ghost use Rattle.logos_answers.specs.Imports.{IsOffsetOf, continues};

use crate::quotes::continues;
use logos_lines::{Cursor, Location};

/// Returns whether `byte` begins a character and its location `here` equals `location`.
fn begins_at(byte: u8, here: Location, location: Location) -> bool
    ensures { IsTrue result ↔ ((continues byte ≡ false) × (here ≡ location)) }
{
    !continues(byte) & (here == location)
}

/// Returns the byte offset of `location` in an input, or `None` if the input has no such location.
/// The end of the input is a location. Lines and columns are counted from 1, and columns count
/// characters.
pub fn offset_of(input: &[u8], location: Location) -> Option<usize>
    ensures { MatchOption result ((at : ℕ) → ¬ IsOffsetOf input.now location at)
        (IsOffsetOf input.now location) }
{
    let mut cursor = Cursor::new(input);
    for at in 0..input.len() {
        cursor.go_to(at);
        if begins_at(input[at], cursor.location(), location) {
            return Some(at);
        }
    }
    cursor.go_to(input.len());
    if cursor.location() == location {
        return Some(input.len());
    }
    None
}
