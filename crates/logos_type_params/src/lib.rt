//! Stores the declared type parameters of an enum and the types given to them, and replaces
//! parameters and lifetimes in types. The parser of `logos_definition` contains a `TypeParams`.

#![tactic(auto)]

mod cycles;
mod given_types;
mod lifetimes;
mod names;
pub mod reports;
mod self_reference;
mod substitution;
mod type_params;

pub use cycles::on_cycles;
pub use given_types::GivenTypes;
pub use lifetimes::{replace_lifetime, replace_lifetimes};
pub use self_reference::holds_itself;
pub use substitution::{Replacing, TypeParam, at_most_one_after, type_after};
pub use type_params::{Generics, TypeParams, read_value};
