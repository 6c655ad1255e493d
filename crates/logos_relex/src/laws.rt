//! Laws about the items of an input. The contract of each function is a law. A proof uses a law by
//! calling its function, which does nothing.

ghost use Rattle.logos_relex.specs.Views.{answers_of, LexedIsRun};

use logos_code::code::Code;
use logos_hir::leaf::LeafId;
use logos_machine::machine::Action;

/// The items of an input, whether lexed as a whole or again after edits, are the items of a run of
/// the code on the input.
pub fn lexed_is_run<C: Fn(LeafId, &[u8]) -> Action>(code: &Code, callback: &C)
    ensures { LexedIsRun code.now (answers_of C.Fn callback.now) }
{}
