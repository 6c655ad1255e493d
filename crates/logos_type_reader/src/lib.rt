//! Reads Rust types in an enum's fields and in attributes. `logos_enum` and `logos_type_params`
//! call `read_type`.

#![tactic(auto)]

mod laws;
mod reader;
mod table;

pub use laws::{
    fault_stage, levels_only_limit, limit_is_depth, one_outcome, read_is_written, reads_written,
    some_outcome, type_is_front,
};
pub use reader::{TYPE_NESTING, TypeFault, read_type};
