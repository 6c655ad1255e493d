//! Appends the faults of all parts of a file to a report, in the order of the parts. The limit on
//! shown faults applies to all parts together. Used by `logos_derive`, `logos_expand` and
//! `logos_messages`.

ghost use Rattle.std.specs.Prelude.{◌≡◌, ◌++◌, ◌+◌, ◌<◌, ◌^◌, ◌-◌, length, min};
ghost use Rattle.logos_page.specs.Pages.{PageValue};
ghost use Rattle.logos_report.specs.Views.{Shows, all_faults, count_by, faults_of, has_name, listed_faults, name_of, refused_texts, seen_of, texts_from};

use crate::clues::{Clues, first_faults};
use crate::faults::{MOST, count_code, push_all, seen_of};
use crate::source::{Part, Source};
use logos_page::Page;
use logos_token::error::{Errors, FaultCode, SpannedError};

/// The faults of a part of a file, with the clues about these faults. The part is an enum, or the
/// whole file if the file cannot be read.
#[derive(Drop)]
pub struct Refused {
    /// The byte offset of the part in the file.
    pub offset: usize,
    /// The faults of the part.
    pub errors: Errors,
    /// The clues about the faults of the part.
    pub clues: Clues,
}

/// The faults of a part of a file, with the parts before and after this part.
#[derive(Clone, Copy)]
pub struct FaultListing<'f> {
    /// The parts of the file before this part.
    pub earlier: &'f [Refused],
    /// The faults of this part.
    pub faults: &'f [SpannedError],
    /// The parts of the file after this part.
    pub later: &'f [Refused],
}

/// Appends the faults of the parts `refused` of a file, in the order of the list, as `push_faults`
/// does for one part. Shows at most 50 faults with one code in all parts together.
pub fn push_refused(page: &mut Page, source: &Source<'_>, refused: &[Refused])
    ensures { Shows (refused_texts page.old.is_colored source.now refused.now) page.old page.new }
{
    for number in 0..refused.len() {
        push_part(page, source, refused, number);
    }
}

/// Appends the faults of the part at the index `number` of `refused`.
fn push_part(page: &mut Page, source: &Source<'_>, refused: &[Refused], number: usize)
    requires { number < length refused.now }
    ensures colored { page.new.is_colored ≡ page.old.is_colored }
    ensures shown { (new : PageValue) → Shows (texts_from page.old.is_colored source.now refused.now
        (number + 1)) page.new new
        → Shows (texts_from page.old.is_colored source.now refused.now number) page.old new }
{
    let one = &refused[number];
    let offset = one.offset;
    let listing = FaultListing {
        earlier: &refused[..number],
        faults: one.errors.list(),
        later: &refused[number + 1..],
    };
    push_all(
        page,
        Part { source, offset },
        listing,
        first_faults(&one.clues),
    );
}

/// Returns the number of faults with the code `code` in the parts `earlier` and in `front`, but at
/// most `MOST + 1`. `front` contains the first faults of the next part. The search begins at the
/// last fault of `front`.
pub fn seen_in(earlier: &[Refused], front: &[SpannedError], code: FaultCode) -> usize
    ensures { result ≡ seen_of code (all_faults earlier.now ++ faults_of front.now) }
{
    let mut left = earlier.len();
    let mut count = seen_of(front, code);
    while left > 0 {
        if count > MOST {
            return count;
        }
        left -= 1;
        count = (count + seen_of(earlier[left].errors.list(), code)).min(MOST + 1);
    }
    count
}

/// Returns the number of faults with the code `code` in a part and in the parts before and after
/// this part, but at most `usize::MAX`.
pub fn count_in(listing: FaultListing<'_>, code: FaultCode) -> usize
    ensures { result ≡ min (count_by (has_name (name_of code)) (listed_faults listing.entry))
        (2 ^ 64 - 1) }
{
    count_parts(listing.earlier, code)
        .saturating_add(count_code(listing.faults, code))
        .saturating_add(count_parts(listing.later, code))
}

/// Returns the number of faults with the code `code` in `parts`, but at most `usize::MAX`.
fn count_parts(parts: &[Refused], code: FaultCode) -> usize
    ensures { result ≡ min (count_by (has_name (name_of code)) (all_faults parts.now)) (2 ^ 64 - 1) }
{
    let mut count: usize = 0;
    for part in parts {
        count = count.saturating_add(count_code(part.errors.list(), code));
    }
    count
}
