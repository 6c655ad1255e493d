//! Laws of types. No code calls these functions. The contract of each function is a proved law.

ghost use Rattle.std.specs.Prelude.{◌<◌, ◌↔◌, ℕ, IsTrue};
ghost use Rattle.logos_type.specs.Views.{Tree, depth, exceeds};

/// A type exceeds `levels` if and only if its depth is greater than `levels`.
pub fn exceeds_is_deeper()
    ensures { (levels : ℕ) (tree : Tree) → IsTrue (exceeds levels tree) ↔ (levels < depth tree) }
{}
