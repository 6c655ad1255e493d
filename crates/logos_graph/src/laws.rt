//! Laws of the definitions. The contract of each function is a law. A proof uses a law by calling
//! its function, which does nothing.

ghost use Rattle.std.specs.Prelude.{◌≡◌, ℕ, ◌<◌, ◌≤◌, Bool, false, List, Some, length};
ghost use Rattle.logos_graph.specs.Imports.{IsBytes, Rule, Found, Finds, matched, Fault, AreFaults, GraphState, walk, HasType, IsReduced};

/// At each point of an input, maximal munch has at most one result.
pub fn one_is_found()
    ensures { (rules : List Rule) (utf8 : Bool) (bytes : List ℕ) (from : ℕ) (f g : Found) →
        from ≤ length bytes → Finds rules utf8 bytes from f →
        Finds rules utf8 bytes from g → f ≡ g }
{}

/// A list of rules has at most one list of faults.
pub fn one_list_of_faults()
    ensures { (rules : List Rule) (faults others : List Fault) → AreFaults rules faults →
        AreFaults rules others → faults ≡ others }
{}

/// If a non-empty input leads from the root of a reduced graph to a state with an early mark,
/// maximal munch finds the match of the mark's leaf that spans this input. No such law holds for
/// late marks: another match may end later, regardless of the bytes that follow.
pub fn early_marks_are_found()
    ensures { (rules : List Rule) (utf8 : Bool) (graph : List GraphState) (bytes : List ℕ)
        (s leaf : ℕ) → IsReduced rules graph → IsBytes bytes → 0 < length bytes →
        walk graph 0 bytes false ≡ Some s → HasType graph s (λ type. type.early ≡ Some leaf) →
        Finds rules utf8 bytes 0 (matched leaf (length bytes)) }
{}
