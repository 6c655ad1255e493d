//! Re-exports the arguments of attributes and their readers from `logos_attribute`.

pub use logos_attribute::arguments::{FromRun, Reported};
pub use logos_attribute::nested::{AttributeParser, Nested, NestedValue};
