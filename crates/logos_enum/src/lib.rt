//! Functions and types for reading an enum: its attributes, its generic parameters and its
//! variants. Other crates read the runs of tokens in the enum.

#![tactic(auto)]

mod attribute_run;
mod attributes;
mod error;
mod extents;
mod fields;
mod generics;
mod groups;
mod item;
mod tokens;
mod variants;

pub use attribute_run::{Attribute, split_attribute};
pub use attributes::skip_visibility;
pub use error::ReadError;
pub use extents::skip_generics;
pub use fields::{Field, Fields};
pub use generics::{Parameter, ParameterKind};
pub use item::{ItemEnum, read_enum, reads_once};
pub use tokens::is_outer;
pub use variants::Variant;
