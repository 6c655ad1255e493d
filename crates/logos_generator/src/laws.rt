//! Laws of maximal munch, codes and inputs. The contract of each function is a law. A proof uses a
//! law by calling its function, which does nothing.

ghost use Rattle.std.specs.Prelude.{ℕ, ◌≤◌, Bool, false, List, length};
ghost use Rattle.logos_generator.specs.Imports.{IsInput, Rule, Item, Items, AreInOrder, Parts, IsLeftOut, answers_of, GraphsYieldLexers, RunsAreItems, NextIsTheNext, ItemsAreOnce, ItemsGoOver, LexersAgree, RunsAreCut};

use logos_code::action::Action;
use logos_hir::leaf::LeafId;

/// The spans of the items of maximal munch are nonempty and within the input, and no span begins
/// before the end of the preceding one.
pub fn items_are_in_order<C: Fn(LeafId, &[u8]) -> Action>(callback: &C)
    ensures { (rules : List Rule) (utf8 : Bool) (bytes : List ℕ) (from : ℕ) (items : List Item) →
        from ≤ length bytes → Items rules (answers_of C.Fn callback.now) utf8 bytes from items →
        AreInOrder (length bytes) from items }
{}

/// The spans of the items of maximal munch and of the matches without an item are nonempty. From a
/// point of the input on, each span begins where the preceding one ends, and the last one ends at
/// the end of the input.
pub fn items_part_the_input<C: Fn(LeafId, &[u8]) -> Action>(callback: &C)
    ensures { (rules : List Rule) (utf8 : Bool) (bytes : List ℕ) (from : ℕ) (items : List Item) →
        from ≤ length bytes → Items rules (answers_of C.Fn callback.now) utf8 bytes from items →
        Parts (IsLeftOut rules (answers_of C.Fn callback.now) bytes) (length bytes) from items }
{}

/// If a code has the runs of a graph and the uses of the graph's leaves, and the graph has the
/// results of maximal munch, then the code is a lexer of the graph's rules.
pub fn code_of_a_graph_is_a_lexer()
    ensures { GraphsYieldLexers }
{}

/// The runs of a lexer's code are the lists of items of maximal munch.
pub fn runs_are_the_items<C: Fn(LeafId, &[u8]) -> Action>(callback: &C)
    ensures { RunsAreItems (answers_of C.Fn callback.now) }
{}

/// The next item of a lexer's code from a point on is the next item of maximal munch, with the same
/// end.
pub fn next_items_are_the_next<C: Fn(LeafId, &[u8]) -> Action>(callback: &C)
    ensures { NextIsTheNext (answers_of C.Fn callback.now) }
{}

/// Two codes with the same rules and mode have the same runs.
pub fn codes_of_the_same_rules_agree<C: Fn(LeafId, &[u8]) -> Action>(callback: &C)
    ensures { LexersAgree (answers_of C.Fn callback.now) }
{}

/// If rules that match only text are applied to a text, each item starts and ends at a character
/// boundary.
pub fn items_are_cut_between_characters<C: Fn(LeafId, &[u8]) -> Action>(callback: &C)
    ensures { RunsAreCut (answers_of C.Fn callback.now) }
{}

/// With a callback that has at most one action for each match, an input has at most one list of
/// items.
pub fn an_input_has_one_list_of_items<C: Fn(LeafId, &[u8]) -> Action>(callback: &C)
    ensures { ItemsAreOnce (answers_of C.Fn callback.now) }
{}

/// A list of items with a callback is also a list of items with every callback whose possible
/// actions include the actions of the first callback.
pub fn items_go_over<C: Fn(LeafId, &[u8]) -> Action, D: Fn(LeafId, &[u8]) -> Action>(
    callback: &C,
    other: &D,
)
    ensures { ItemsGoOver (answers_of C.Fn callback.now) (answers_of D.Fn other.now) }
{}

/// A text is an input of lexers with and without UTF-8 mode.
pub fn a_text_is_an_input(text: &str)
    ensures { (utf8 : Bool) → IsInput utf8 text.now }
{
    // Reading the text brings the invariant of its type into the proof.
    let _ = text.as_bytes();
}

/// Any bytes are an input of lexers that are not in UTF-8 mode.
pub fn bytes_are_an_input(bytes: &[u8])
    ensures { IsInput false bytes.now }
{
    // Reading the slice brings the invariant of its type into the proof.
    let _ = bytes.len();
}
