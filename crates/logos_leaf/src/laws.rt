//! Laws about the reading of enums. No code calls these functions. The contract of each function is
//! a proved law.

ghost use Rattle.std.specs.Prelude.{◌≡◌, List, [], map, Option, Some, None};
ghost use Rattle.logos_leaf.specs.Imports.{Fault, Tree, EnumValue, Slice, ident_slice, plain, holding, skipped, OptionsView, LeafView, ReadsSource};

/// If one reading of an enum has no fault, then every reading of the enum has no fault, the same
/// options, and the same leaves. The names of variants are compared by their texts and their spans.
pub fn one_source()
    ensures no_fault { (item : EnumValue) (o p : OptionsView) (leaves others : List LeafView)
        (faults : List Fault) → ReadsSource item o leaves [] → ReadsSource item p others faults →
        faults ≡ [] }
    ensures one_set_of_options { (item : EnumValue) (o p : OptionsView) (leaves others : List LeafView)
        (faults : List Fault) → ReadsSource item o leaves [] → ReadsSource item p others faults →
        o ≡ p }
    // The leaves are compared without their kinds, which name a variant and the type of its field;
    // those names and types are compared beside the leaves.
    ensures one_list { (item : EnumValue) (o p : OptionsView) (leaves others : List LeafView)
        (faults : List Fault) → ReadsSource item o leaves [] → ReadsSource item p others faults →
        let shown : LeafView → LeafView × Option (Slice × Option Tree)
        = λ l. (
          record l { kind = skipped },
          elim l.kind [
            | plain name ↦ Some (ident_slice name, None)
            | holding name type ↦ Some (ident_slice name, Some type)
            | skipped ↦ None
          ],
        ) in
        map shown leaves ≡ map shown others }
{}
