//! Defines the order in which a search reads bytes, so that the inputs that it finds are easy to
//! read. Used by `cover` and `visits`.

ghost use Rattle.std.specs.Prelude.{◌<◌};
ghost use Rattle.logos_evidence.specs.search.inside.Order.{IsByteAt};

/// Returns the byte at the index `site` of the order. The order begins with letters, followed by
/// digits, punctuation, and all other bytes.
pub(crate) fn byte_at(site: u8) -> u8
    ensures { IsByteAt site result }
{
    match site {
        0..=25 => b'a' + site,
        26..=51 => b'A' + (site - 26),
        52..=61 => b'0' + (site - 52),
        62..=77 => b' ' + (site - 62),
        78..=84 => b':' + (site - 78),
        85..=90 => b'[' + (site - 85),
        91..=94 => b'{' + (site - 91),
        95..=126 => site - 95,
        _ => site,
    }
}
