//! Reads brackets into the sets that they denote. The pattern parser and the stack of groups call
//! this module.

pub(crate) mod parser;
pub(crate) mod stack;
pub(crate) mod translation;
