//! Laws of look-around assertions, of trees, and of the default priority of trees. No code calls
//! these functions: the contract of each is a proved law.

ghost use Rattle.std.specs.Prelude.{
  ◌≡◌,
  ◌≢◌,
  ℕ,
  ◌++◌,
  ◌∷◌,
  false,
  Bool,
  List,
  Option,
  Some,
  length,
};
ghost use Rattle.logos_hir.specs.Views.{is_word, Holds, Matches, value, Tree, repetition, Look};

/// A look-around assertion that holds before a byte also holds if the input ends before the byte,
/// unless the byte is a word byte, CR or LF.
pub fn looks_hold_at_the_end()
    ensures { (look : Look) (bytes rest : List ℕ) (b : ℕ) →
        is_word (Some b) ≡ false → b ≢ 10 → b ≢ 13 →
        Holds look (bytes ++ b ∷ rest) (length bytes) → Holds look bytes (length bytes) }
{}

/// A lazy repetition and a greedy repetition have equal matches and equal priorities.
pub fn lazy_and_greedy()
    ensures matches { (least : ℕ) (most : Option ℕ) (lazy greedy : Bool) (body : Tree)
        (bytes : List ℕ) (from to : ℕ) →
        Matches (repetition least most lazy body) bytes from to →
        Matches (repetition least most greedy body) bytes from to }
    ensures priority { (least : ℕ) (most : Option ℕ) (lazy greedy : Bool) (body : Tree) →
        value (repetition least most lazy body) ≡ value (repetition least most greedy body) }
{}
