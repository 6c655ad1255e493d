//! Laws of stripping. No code calls these functions: the contract of each is a proved law.

ghost use Rattle.std.specs.Prelude.{◌≡◌, List, ℕ, IsUtf8};
ghost use Rattle.logos_strip.specs.Views.{TokenList, Spells, printed, SpellsAgain, bare, stripped};

/// Stripping a second time removes nothing.
pub fn strips_once()
    ensures same { (tokens : TokenList) → stripped (stripped tokens) ≡ stripped tokens }
    // This also holds for tokens that differ only in their spans, such as those that the printed
    // text spells.
    ensures again { (tokens again : TokenList) → bare again ≡ bare (stripped tokens) →
        bare (stripped again) ≡ bare again }
{}

/// The printed text of a stripped source spells the stripped tokens again, apart from their spans.
pub fn strips_back()
    ensures { (source : List ℕ) → IsUtf8 source → (tokens : TokenList) → Spells source tokens →
        SpellsAgain (printed (stripped tokens)) (stripped tokens) }
{}
