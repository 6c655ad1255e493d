//! Laws of the definitions, and re-exports of the laws of the crates below. The contract of each
//! function is a law. A proof uses a law by calling its function, which does nothing.

ghost use Rattle.std.specs.Prelude.{◌≡◌, ℕ, ◌↔◌, Bool, true, List};
ghost use Rattle.logos_codegen.specs.Imports.{All, Rule, IsInput, CodeValue, IsCut, IsLexer, Item, answers_of, Runs, IsAccepted};

pub use logos_generator::laws::{
    a_text_is_an_input, an_input_has_one_list_of_items, bytes_are_an_input,
    code_of_a_graph_is_a_lexer, codes_of_the_same_rules_agree, items_are_cut_between_characters,
    items_are_in_order, items_go_over, items_part_the_input, next_items_are_the_next,
    runs_are_the_items,
};
use logos_generator::machine::Action;
pub use logos_graph::laws::{early_marks_are_found, one_is_found, one_list_of_faults};
use logos_hir::leaf::LeafId;
pub use logos_machine::laws::{
    attempts_agree, items_given_are_a_run, next_adds_its_item, parts_are_of_the_whole,
    runs_go_later, runs_go_over,
};
pub use logos_relex::laws::lexed_is_run;
pub use logos_stream::laws::{all_items_are_of_the_whole, streams_are_of_the_whole};

/// A source without faults determines exactly one list of rules and one mode.
pub fn a_source_has_one_list_of_rules()
    ensures { (source : List ℕ) (rules others : List Rule) (utf8 other : Bool) →
        IsAccepted source rules utf8 → IsAccepted source others other → (rules ≡ others)
        × (utf8 ≡ other) }
{}

/// In UTF-8 mode, the items of each run of a source's code on a text start and end between
/// characters.
pub fn runs_start_and_end_between_characters<C: Fn(LeafId, &[u8]) -> Action>(callback: &C)
    ensures { (source : List ℕ) (rules : List Rule) (code : CodeValue) (bytes : List ℕ)
        (items : List Item) → IsAccepted source rules true → IsLexer rules true code →
        IsInput true bytes → Runs code (answers_of C.Fn callback.now) bytes 0 items →
        All (IsCut bytes) items }
{}

/// Two codes of one source, such as its codes in the two shapes, have the same runs.
pub fn codes_of_a_source_agree<C: Fn(LeafId, &[u8]) -> Action>(callback: &C)
    ensures { (source : List ℕ) (rules others : List Rule) (utf8 other : Bool)
        (code next : CodeValue) (bytes : List ℕ) (items : List Item) →
        IsAccepted source rules utf8 → IsAccepted source others other → IsLexer rules utf8 code →
        IsLexer others other next → IsInput utf8 bytes →
        Runs code (answers_of C.Fn callback.now) bytes 0 items ↔ Runs next
        (answers_of C.Fn callback.now) bytes 0 items }
{}
