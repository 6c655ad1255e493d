//! Reads UTF-8 byte by byte. Used by `cover` and `visits`.

ghost use Rattle.std.specs.Prelude.{◌≡◌, ◌++◌, OnOk};
ghost use Rattle.logos_evidence.specs.search.Rests as rests;
ghost use Rattle.simdutf8.specs.Steps as steps;

use std::alloc::AllocError;

/// The bytes that can complete the last character of an input.
#[derive(Clone, Copy, PartialEq, Eq, Hash)]
pub struct Rest {
    /// The least byte that may come next, if `count` is not 0.
    pub low: u8,
    /// The greatest byte that may come next, if `count` is not 0.
    pub high: u8,
    /// The number of bytes that the character lacks, or 0 between characters.
    pub count: usize,
}

/// Returns the rest of a character that is completed by any `count` continuation bytes.
pub(crate) fn more(count: usize) -> Rest
    ensures { result ≡ rests.more count }
{
    Rest {
        low: 0x80,
        high: 0xBF,
        count,
    }
}

/// Returns the least byte that may follow `byte`, the first byte of a character.
fn least_after(byte: u8) -> u8
    ensures { result ≡ steps.least_after byte }
{
    if byte == 0xE0 {
        0xA0
    } else if byte == 0xF0 {
        0x90
    } else {
        0x80
    }
}

/// Returns the greatest byte that may follow `byte`, the first byte of a character.
fn most_after(byte: u8) -> u8
    ensures { result ≡ steps.most_after byte }
{
    if byte == 0xED {
        0x9F
    } else if byte == 0xF4 {
        0x8F
    } else {
        0xBF
    }
}

/// Returns the rest of the character that `byte` begins, or `None` if no character begins with
/// `byte`.
fn begun(byte: u8) -> Option<Rest>
    ensures { result ≡ rests.begun byte }
{
    if byte < 0x80 {
        return Some(more(0));
    }
    if byte < 0xC2 {
        return None;
    }
    if byte < 0xE0 {
        return Some(more(1));
    }
    let low = least_after(byte);
    let high = most_after(byte);
    if byte < 0xF0 {
        return Some(Rest {
            low,
            high,
            count: 2,
        });
    }
    if byte < 0xF5 {
        return Some(Rest {
            low,
            high,
            count: 3,
        });
    }
    None
}

/// Returns the rest of the character after `byte` is read, or `None` if UTF-8 does not allow `byte`
/// at this point.
fn rest_after(rest: Rest, byte: u8) -> Option<Rest>
    ensures { result ≡ rests.rest_after rest byte }
{
    if rest.count == 0 {
        return begun(byte);
    }
    if rest.low <= byte && byte <= rest.high {
        return Some(more(rest.count - 1));
    }
    None
}

/// Returns the rest of the character after `byte` is read, or `None` if UTF-8 does not allow `byte`
/// at this point. Returns `rest` unchanged if `utf8` is `false`.
pub(crate) fn rest_by(utf8: bool, rest: Rest, byte: u8) -> Option<Rest>
    ensures { result ≡ rests.rest_by utf8 rest byte }
{
    if utf8 {
        rest_after(rest, byte)
    } else {
        Some(rest)
    }
}

/// Appends to `bytes` the least bytes that complete a character with the rest `rest`.
///
/// # Errors
///
/// Returns `AllocError` if memory runs out.
pub(crate) fn push_rest(bytes: &mut Vec<u8>, rest: Rest) -> Result<(), AllocError>
    ensures { OnOk result (bytes.new.items ≡ bytes.old.items ++ rests.completion rest) }
{
    let mut rest = rest;
    while rest.count != 0 {
        bytes.push(rest.low)?;
        rest = more(rest.count - 1);
    }
    Ok(())
}
