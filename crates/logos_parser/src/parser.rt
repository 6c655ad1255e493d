//! Re-exports definitions, options, subpatterns and type parameters.

pub use crate::item::{ItemEnum, ReadError, read_enum};
pub use crate::nested::{AttributeParser, Nested, NestedValue};
pub use logos_definition::definition::Definition;
pub use logos_definition::error_type::ErrorType;
pub use logos_definition::ignore_flags::IgnoreFlags;
pub use logos_definition::parser::{ExportPath, Parser, Utf8Mode};
pub use logos_leaf::subpattern::{Subpattern, Subpatterns};
pub use logos_pattern::leaf::TypeExpr;
pub use logos_pattern::pattern::Literal;
pub use logos_type_params::{Generics, TypeParams, replace_lifetime, replace_lifetimes};
