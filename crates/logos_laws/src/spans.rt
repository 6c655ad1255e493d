//! Laws of the spans of leaves. No code calls these functions: the contract of each is a proved
//! law.

ghost use Rattle.std.specs.Prelude.{List, ℕ, Ok, All, IsUtf8};
ghost use Rattle.logos_laws.specs.spans.Imports.{EnumValue, Fault, LeafView, OptionsView, Reads, Spells, TokenList, IsSourceRead, HasSpansOf, OccursIn};

/// The literal of each leaf of an enum is a token of the enum, and the callback of the leaf, if it
/// has one, consists of tokens of the enum. In each source that spells these tokens, the literal
/// and the callback have spans, and the literal is the text at its span.
pub fn leaves_have_spans()
    ensures tokens { (tokens : TokenList) (enum : EnumValue) → Reads tokens (Ok enum) →
        (leaves : List LeafView) (options : OptionsView) (faults : List Fault) →
        IsSourceRead enum leaves options faults → All (OccursIn tokens) leaves }
    ensures spans { (source : List ℕ) → IsUtf8 source → (tokens : TokenList) →
        Spells source tokens → (enum : EnumValue) → Reads tokens (Ok enum) →
        (leaves : List LeafView) (options : OptionsView) (faults : List Fault) →
        IsSourceRead enum leaves options faults → All (HasSpansOf source) leaves }
{}
