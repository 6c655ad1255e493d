//! Estimates whether a scan by chunks takes less time than a lexer. Called by `items`,
//! `logos_items` and `logos_commands` once for each input.

ghost use Rattle.std.specs.Prelude.{◌≡◌, IfOk, IfSome};

use crate::fold::folded::Folded;
use crate::run::Reading;
use crate::trial::trial_counts;
use logos_code::code::Code;
use std::alloc::{AllocError, Global};

/// The time that a scan saves for each byte of an average text, among the texts on which a scan
/// takes less time than a lexer. All times are in hundredths of a nanosecond.
const SAVED: usize = 100;

/// The time for folding the row of a state into newly allocated memory.
const FOLD: usize = 200_000;

/// The time for the walk over one sample.
const TRIAL: usize = 2_000_000;

/// Returns the folded rows of a code if a scan by chunks likely takes less time on the input than a
/// lexer. Returns `None` otherwise, or if the code has too many states for folded rows. Any result
/// is correct, because a scan and a lexer find the same items.
///
/// # Errors
///
/// Returns `AllocError` if memory runs out.
pub fn rows_for<'c, 's>(
    alloc: Global,
    code: &'c Code<'s>,
    input: &[u8],
) -> Result<Option<Folded<'c, 's>>, AllocError>
    ensures { IfOk result (λ rows. IfSome rows (λ folded. folded.code ≡ code.now)) }
{
    if is_short(code, input) {
        return Ok(None);
    }
    let Some(folded) = Folded::new(alloc, code)? else {
        return Ok(None);
    };
    let counts = trial_counts(&Reading::new(&folded, input));
    if counts.suit_scans() {
        Ok(Some(folded))
    } else {
        Ok(None)
    }
}

/// Returns whether the input is too short for a scan: whether a scan saves less time than is needed
/// to fold the rows of the code and to walk over one sample.
fn is_short(code: &Code, input: &[u8]) -> bool {
    let states = code.parts().states.len();
    SAVED.wrapping_mul(input.len()) < FOLD.wrapping_mul(states).wrapping_add(TRIAL)
}
