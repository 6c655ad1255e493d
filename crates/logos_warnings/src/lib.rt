//! Finds probable mistakes in the enums of a file. These mistakes are not faults. Used by the
//! programs and the derive macro.

#![tactic(auto)]

mod attributes;
mod helper;
mod messages;
mod missed_derives;
mod mistakes;
mod origin;
mod other_attributes;
mod warning_list;

pub use helper::{Helper, intended_helper};
pub use messages::{enum_warnings, item_warnings, token_warnings};
pub use missed_derives::passed_over;
pub use mistakes::{Mistake, mistakes_of};
pub use origin::Origin;
pub use warning_list::{fixed_warning, plain_warning};
