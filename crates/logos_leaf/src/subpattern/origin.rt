//! Finds the origin of a byte of a pattern's text: the pattern's own literal, or a substituted
//! subpattern. `fault` calls `origin_of` for the byte of each fault.

use crate::subpattern::substitution::{TextPart, characters, encoded, part_at};
use crate::subpattern::{Subpatterns, flags_of, pattern_text, wrapped};
use logos_pattern::pattern::Literal;
use logos_token::error::{ByteOrigin, Memory};
use logos_token::token::Span;
use std::alloc::Global;

/// The literal of a pattern, and the way in which the pattern's text was made from the literal.
#[derive(Clone, Copy)]
pub struct WrittenPattern<'l, 'p, 's> {
    pub literal: &'l Literal<'s>,
    pub making: Making<'p, 's>,
}

/// The way in which the text of a pattern is made from its literal.
#[derive(Clone, Copy)]
pub enum Making<'p, 's> {
    /// Characters with a special meaning are escaped, so that the pattern matches exactly the value
    /// of the literal.
    Escaped,
    /// These subpatterns are substituted in the text that the literal spells.
    PutIn(&'p Subpatterns<'s>),
    /// The text that the literal spells is put in a group that sets the pattern's flags, and these
    /// subpatterns are substituted in it.
    Grouped(&'p Subpatterns<'s>),
}

/// The lengths of a part of a pattern's own text before and after the substitution of subpatterns.
#[derive(Clone, Copy)]
struct Extent {
    /// The number of bytes of the part after the substitution.
    whole: usize,
    /// The number of bytes of the part before the substitution.
    own: usize,
    /// The span of the name in the definition of the substituted subpattern. It is `None` if the
    /// part is a character or the subpattern is missing.
    put_in: Option<Span>,
}

/// The state of a search for a byte of a pattern's text. The search passes the parts of the
/// pattern's own text one by one.
#[derive(Clone, Copy)]
struct OriginSearch {
    /// The number of bytes between the end of the passed parts and the byte, after the substitution
    /// of subpatterns.
    left: usize,
    /// The number of bytes of the passed parts, before the substitution of subpatterns.
    own: usize,
    /// The span of the name in the definition of the first substituted subpattern among the passed
    /// parts. It is `None` if no subpattern is substituted in these parts.
    put_in: Option<Span>,
}

impl OriginSearch {
    /// Returns whether the byte belongs to the next part. `extent` is the extent of that part.
    fn ends_in(self, extent: Extent) -> bool {
        self.left < extent.whole
    }

    /// Returns the search after it has passed the next part. `extent` is the extent of that part.
    fn moved_past(self, extent: Extent) -> OriginSearch {
        OriginSearch {
            left: self.left.saturating_sub(extent.whole),
            own: self.own.saturating_add(extent.own),
            put_in: self.put_in.or(extent.put_in),
        }
    }

    /// Returns the origin of the byte, which must belong to the next part. `extent` is the extent
    /// of that part.
    fn origin_in(self, extent: Extent) -> ByteOrigin {
        let own = match extent.put_in {
            Some(_) => None,
            None => Some(self.own),
        };
        ByteOrigin {
            own,
            put_in: self.put_in.or(extent.put_in),
        }
    }
}

/// Returns the extent of `part`.
fn extent_of(
    alloc: Global,
    subpatterns: &Subpatterns<'_>,
    part: TextPart<'_>,
) -> Result<Extent, Memory> {
    match part {
        TextPart::Itself(character) => {
            let length = character.len_utf8();
            Ok(Extent {
                whole: length,
                own: length,
                put_in: None,
            })
        }
        TextPart::Used(name) => used_extent(alloc, subpatterns, name),
    }
}

/// Returns the extent of a use `(?&name)` of a subpattern. The text of a missing subpattern counts
/// as empty.
fn used_extent(
    alloc: Global,
    subpatterns: &Subpatterns<'_>,
    name: &[char],
) -> Result<Extent, Memory> {
    let own = name.len().saturating_add(4);
    let name = encoded(alloc, name)?;
    match subpatterns.stored(name.as_str()) {
        Some((whole, span)) => Ok(Extent {
            whole,
            own,
            put_in: Some(span),
        }),
        None => Ok(Extent {
            whole: 0,
            own,
            put_in: None,
        }),
    }
}

/// Returns the origin of the byte at the offset `at` of a text with all subpatterns substituted.
/// `characters` contains the characters of the text before the substitution. If `at` is past the
/// end of the text, the `own` offset of the origin is the length of the text before the
/// substitution.
fn origin_in(
    alloc: Global,
    subpatterns: &Subpatterns<'_>,
    characters: &[char],
    at: usize,
) -> Result<ByteOrigin, Memory> {
    let mut search = OriginSearch {
        left: at,
        own: 0,
        put_in: None,
    };
    let mut rest = characters;
    while let Some((part, after)) = part_at(rest) {
        let extent = extent_of(alloc, subpatterns, part)?;
        if search.ends_in(extent) {
            return Ok(search.origin_in(extent));
        }
        search = search.moved_past(extent);
        rest = after;
    }
    Ok(ByteOrigin {
        own: Some(search.own),
        put_in: search.put_in,
    })
}

/// Returns the origin of the byte at the offset `at` of the text that `literal` spells, after the
/// substitution of all subpatterns.
fn put_in_origin(
    alloc: Global,
    literal: &Literal<'_>,
    subpatterns: &Subpatterns<'_>,
    at: usize,
) -> Result<ByteOrigin, Memory> {
    let text = pattern_text(alloc, literal)?;
    let characters = characters(alloc, text.as_str())?;
    origin_in(alloc, subpatterns, &characters, at)
}

/// Returns the origin of the byte at the offset `at` of the text that `literal` spells, in a group
/// that sets the pattern's flags, after the substitution of all subpatterns.
fn grouped_origin(
    alloc: Global,
    literal: &Literal<'_>,
    subpatterns: &Subpatterns<'_>,
    at: usize,
) -> Result<ByteOrigin, Memory> {
    let text = wrapped(alloc, literal)?;
    let characters = characters(alloc, text.as_str())?;
    let origin = origin_in(alloc, subpatterns, &characters, at)?;
    Ok(without_group(literal, origin))
}

/// Converts `origin` from an origin in the text of a group to an origin in the text inside the
/// group. The `own` offset is `None` for a byte of the text that opens the group.
fn without_group(literal: &Literal<'_>, origin: ByteOrigin) -> ByteOrigin {
    let length = flags_of(literal).len();
    let own = match origin.own {
        Some(own) => own.checked_sub(length),
        None => None,
    };
    ByteOrigin { own, ..origin }
}

/// Returns the origin of the byte at the offset `at` of a pattern's text. The origin of a byte of
/// an escaped text is unknown.
pub(crate) fn origin_of(
    alloc: Global,
    written: WrittenPattern<'_, '_, '_>,
    at: usize,
) -> Result<ByteOrigin, Memory> {
    let literal = written.literal;
    match written.making {
        Making::Escaped => Ok(ByteOrigin {
            own: None,
            put_in: None,
        }),
        Making::PutIn(subpatterns) => put_in_origin(alloc, literal, subpatterns, at),
        Making::Grouped(subpatterns) => grouped_origin(alloc, literal, subpatterns, at),
    }
}
