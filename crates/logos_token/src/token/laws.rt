//! Laws of reading and printing tokens. No code calls these functions: the contract of each is a
//! proved law.

ghost use Rattle.std.specs.Prelude.{List, ℕ, IsUtf8};
ghost use Rattle.logos_token.specs.Imports.{TokenList, run_span, Spells, printed, SpellsAgain, IsRunOf, EndsJoint, IsSpanOf};

/// The printed text of all tokens of a source spells the same tokens again, apart from their spans.
pub fn prints_back()
    ensures { (bytes : List ℕ) → IsUtf8 bytes → (tokens : TokenList) → Spells bytes tokens →
        SpellsAgain (printed tokens) tokens }
{}

/// The printed text of neighboring tokens of a source, at any depth, spells the same tokens again,
/// apart from their spans, unless the last token is joint punctuation.
pub fn prints_runs_back()
    ensures { (bytes : List ℕ) → IsUtf8 bytes → (tokens : TokenList) → Spells bytes tokens →
        (run : TokenList) → IsRunOf run tokens → (EndsJoint run → ⊥) →
        SpellsAgain (printed run) run }
{}

/// The span of neighboring tokens of a source, at any depth, is within the source.
pub fn runs_have_spans()
    ensures { (bytes : List ℕ) → IsUtf8 bytes → (run tokens : TokenList) → Spells bytes tokens →
        IsRunOf run tokens → IsSpanOf bytes (run_span run) }
{}
