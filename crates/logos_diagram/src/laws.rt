//! Laws about the text of labels. The contract of each function is a law.

ghost use Rattle.std.specs.Prelude.{ℕ, List};
ghost use Rattle.logos_diagram.specs.Imports.{AreLabelBytes, label_text};

/// A text in a label has no byte that ends the label or that Mermaid reads as code: no quote, no
/// backtick, no `<`, no `%`, no brace and no line end.
pub fn label_text_ends_no_label()
    ensures { (text : List ℕ) → AreLabelBytes (label_text text) }
{}
