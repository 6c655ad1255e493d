//! Finds the lexable prefix of the bytes that were read. Called by `window`.

ghost use Rattle.std.specs.Prelude.{◌≡◌, ◌≤◌, ◌↔◌, length, false, IsTrue, IsCharBoundary};
ghost use Rattle.logos_stream.specs.Views.{IsTail};

/// The length of the lexable prefix of the bytes that were read, and a flag for invalid bytes after
/// the prefix.
#[derive(Clone, Copy)]
pub(crate) struct Tail {
    /// The length of the lexable prefix in bytes: all bytes, or in UTF-8 mode the longest prefix
    /// that is UTF-8.
    pub(crate) valid: usize,
    /// Whether the bytes after the prefix cannot begin a character, regardless of the bytes that
    /// follow.
    pub(crate) is_at_fault: bool,
}

/// Returns the lexable prefix of `bytes`: the longest UTF-8 prefix if `is_utf8` is `true`, and all
/// bytes otherwise.
pub(crate) fn tail_of(is_utf8: bool, bytes: &[u8]) -> Tail
    ensures { IsTail is_utf8 bytes.now result }
{
    if !is_utf8 {
        return whole(bytes);
    }
    match str::from_utf8(bytes) {
        Ok(_) => whole(bytes),
        Err(error) => Tail {
            valid: error.valid_up_to(),
            is_at_fault: error.error_len().is_some(),
        },
    }
}

/// Returns the tail of `bytes`, all of which must be lexable.
fn whole(bytes: &[u8]) -> Tail
    ensures { result ≡ record { valid = length bytes.now; is_at_fault = false } }
{
    Tail {
        valid: bytes.len(),
        is_at_fault: false,
    }
}

/// Returns whether the offset `to` in `bytes` is between characters. Returns `true` if `is_utf8` is
/// `false`.
pub(crate) fn is_cut(is_utf8: bool, bytes: &[u8], to: usize) -> bool
    requires { to ≤ length bytes.now }
    ensures { IsTrue result ↔ (IsTrue is_utf8 → IsCharBoundary bytes.now to) }
{
    if !is_utf8 {
        return true;
    }
    match bytes.get(to) {
        Some(byte) => (*byte < 128) | (*byte >= 192),
        None => true,
    }
}
