//! Re-exports the types of enums as written in a source: attributes as runs of tokens, generic
//! parameters, and variants with their fields and types.

pub use logos_enum::{
    Attribute, Field, Fields, ItemEnum, Parameter, ParameterKind, ReadError, Variant, read_enum,
    reads_once, split_attribute,
};
