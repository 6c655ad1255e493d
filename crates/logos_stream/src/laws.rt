//! Laws of streams. The contract of each function is a law. A proof uses a law by calling the
//! function, which does nothing.

ghost use Rattle.logos_stream.specs.Views.{answers_of, AllAreOfTheWhole, StreamsAreOfTheWhole};

use logos_code::action::Action;
use logos_hir::leaf::LeafId;
use std::io::Read;

/// The items of a stream are the items of a run on all bytes that were read, regardless of the
/// lengths of the reads.
pub fn streams_are_of_the_whole<R: Read, C: Fn(LeafId, &[u8]) -> Action>(_reader: &R, callback: &C)
    ensures { StreamsAreOfTheWhole R.remaining (answers_of C.Fn callback.now) }
{}

/// The items that `Stream::items` returns are the items of a run on all bytes of the stream's
/// reader if the contract of the reader determines these bytes.
pub fn all_items_are_of_the_whole<R: Read, C: Fn(LeafId, &[u8]) -> Action>(
    _reader: &R,
    callback: &C,
)
    ensures { AllAreOfTheWhole R.remaining (answers_of C.Fn callback.now) }
{}
