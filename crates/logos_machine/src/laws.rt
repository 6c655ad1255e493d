//! Laws of lexers and their runs. The contract of each function is a law. A proof uses a law by
//! calling the function, which does nothing.

ghost use Rattle.logos_machine.specs.Views.{answers_of, EndIsRun, NextAddsItem, PartsAreOfTheWhole, RunsGoLater, RunsGoOver, AttemptsAgree};

use crate::machine::Action;
use logos_hir::leaf::LeafId;

/// If `next` returns an item, the list of the items that the lexer has returned grows by exactly
/// this item, at its end.
pub fn next_adds_its_item<C: Fn(LeafId, &[u8]) -> Action>(_callback: &C)
    ensures { NextAddsItem C.Fn }
{}

/// Once `next` returns `None`, the items that the lexer has returned are the items of a run of its
/// code on the input.
pub fn items_given_are_a_run<C: Fn(LeafId, &[u8]) -> Action>(_callback: &C)
    ensures { EndIsRun C.Fn }
{}

/// A run with a callback is also a run with every callback whose possible actions include all
/// possible actions of the first callback.
pub fn runs_go_over<C: Fn(LeafId, &[u8]) -> Action, D: Fn(LeafId, &[u8]) -> Action>(
    callback: &C,
    other: &D,
)
    ensures { RunsGoOver (answers_of C.Fn callback.now) (answers_of D.Fn other.now) }
{}

/// A match attempt that examines only the first bytes of an input has the same result in each input
/// that begins with these bytes.
pub fn attempts_agree()
    ensures { AttemptsAgree }
{}

/// A run of a code does not depend on preceding bytes. If bytes are inserted before the input,
/// there is a run with equal items, whose spans are shifted by the number of inserted bytes.
pub fn runs_go_later<C: Fn(LeafId, &[u8]) -> Action>(callback: &C)
    ensures { RunsGoLater (answers_of C.Fn callback.now) }
{}

/// If a lexer finds items in consecutive parts of an input, and no later byte can change the items
/// of a part, the items of all parts are the items of the whole input.
pub fn parts_are_of_the_whole<C: Fn(LeafId, &[u8]) -> Action>(callback: &C)
    ensures { PartsAreOfTheWhole (answers_of C.Fn callback.now) }
{}
