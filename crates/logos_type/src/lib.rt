//! Represents the Rust types in an enum's fields and in attributes, and prints, copies and compares
//! these types. `logos_type_reader` makes the types.

#![tactic(auto)]

mod equality;
mod laws;
mod printer;
mod type_expr;

pub use equality::is_same_type;
pub use laws::exceeds_is_deeper;
pub use printer::print_type;
pub use type_expr::{TypeExpr, TypePart, TypeToken, exceeds};
