//! Laws of the enums of a file. No code calls these functions: the contract of each function is a
//! proved law.

ghost use Rattle.std.specs.Prelude.{◌≡◌, Ok, Some};
ghost use Rattle.logos_rust_file.specs.Imports.{TokenList, Reads, EnumValue, loses_derive, derives};
ghost use Rattle.logos_rust_file.specs.Views.{name_of};

/// An enum derives `Logos` if and only if stripping removes an entry of a `derive`.
pub fn derives_where_stripped()
    ensures { (tokens : TokenList) (value : EnumValue) → Reads tokens (Ok value) →
        derives tokens ≡ loses_derive tokens }
{}

/// If `read_enum` reads an enum, the enum is found with the name that `read_enum` returns.
pub fn names_as_read()
    ensures { (tokens : TokenList) (value : EnumValue) → Reads tokens (Ok value) →
        name_of tokens ≡ Some value.name.span }
{}
