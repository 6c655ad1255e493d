//! Evaluates look-around assertions at a point, from the kind of the byte before the point and from
//! the byte after the point. `step` and `exits` call `holds` for each assertion of a tree.

ghost use Rattle.std.specs.Prelude.{◌≡◌, Some, is_none};
ghost use Rattle.logos_positions.specs.Views.{is_byte, side_before, kind_of_byte, test_at, is_word_byte};
ghost use Rattle.logos_hir.specs.Looks as looks;

use logos_hir::hir::Look;

/// The kind of the byte before a point. Look-around assertions at the point depend on no other
/// property of the byte.
#[derive(Clone, Copy, PartialEq, Eq, Hash)]
pub enum ByteKind {
    /// No byte: the point is the start of the input.
    Start,
    /// A byte that no look-around assertion can depend on.
    Unseen,
    /// One of `[0-9A-Za-z_]`.
    Word,
    /// A carriage return.
    Cr,
    /// A line feed.
    Lf,
    /// Any other byte.
    Other,
}

/// The bytes on both sides of a point.
#[derive(Clone, Copy)]
pub struct Context {
    /// The kind of the byte before the point.
    pub before: ByteKind,
    /// The byte after the point, or `None` at the end of the input.
    pub after: Option<u8>,
}

/// Returns whether `byte` is one of `[0-9A-Za-z_]`.
fn is_word(byte: u8) -> bool
    ensures { result ≡ is_word_byte byte }
{
    byte.is_ascii_alphanumeric() || byte == b'_'
}

/// Returns the kind of `byte` as a byte before a point.
pub fn kind_of(byte: u8) -> ByteKind
    ensures { result ≡ kind_of_byte byte }
{
    if is_word(byte) {
        ByteKind::Word
    } else if byte == b'\r' {
        ByteKind::Cr
    } else if byte == b'\n' {
        ByteKind::Lf
    } else {
        ByteKind::Other
    }
}

/// Returns whether there is no byte before the point.
fn is_start(before: ByteKind) -> bool
    ensures { result ≡ is_none (side_before before) }
{
    matches!(before, ByteKind::Start)
}

/// Returns whether the byte before the point is a carriage return.
fn is_cr(before: ByteKind) -> bool
    ensures { result ≡ is_byte 13 (side_before before) }
{
    matches!(before, ByteKind::Cr)
}

/// Returns whether the byte before the point is a line feed.
fn is_lf(before: ByteKind) -> bool
    ensures { result ≡ is_byte 10 (side_before before) }
{
    matches!(before, ByteKind::Lf)
}

/// Returns whether the byte before the point is one of `[0-9A-Za-z_]`.
fn is_word_before(before: ByteKind) -> bool
    ensures { result ≡ looks.is_word (side_before before) }
{
    matches!(before, ByteKind::Word)
}

/// Returns whether `side`, the byte after a point, exists and is `byte`.
fn is_this(side: Option<u8>, byte: u8) -> bool
    ensures { result ≡ is_byte byte side }
{
    match side {
        None => false,
        Some(b) => b == byte,
    }
}

/// Returns whether `side`, the byte after a point, exists and is one of `[0-9A-Za-z_]`.
fn is_word_after(side: Option<u8>) -> bool
    ensures { result ≡ looks.is_word side }
{
    match side {
        None => false,
        Some(b) => is_word(b),
    }
}

/// Returns whether the assertion `look` holds at the point `at`.
pub fn holds(look: Look, at: Context) -> bool
    ensures { result ≡ test_at at look }
{
    match look {
        Look::Start => is_start(at.before),
        Look::End => at.after.is_none(),
        Look::StartLF => is_start(at.before) | is_lf(at.before),
        Look::EndLF => at.after.is_none() | is_this(at.after, b'\n'),
        Look::StartCRLF => is_start(at.before)
            | is_lf(at.before)
            | (is_cr(at.before) & !is_this(at.after, b'\n')),
        Look::EndCRLF => at.after.is_none()
            | is_this(at.after, b'\r')
            | (is_this(at.after, b'\n') & !is_cr(at.before)),
        Look::WordAscii => is_word_before(at.before) != is_word_after(at.after),
        Look::WordAsciiNegate => is_word_before(at.before) == is_word_after(at.after),
    }
}
