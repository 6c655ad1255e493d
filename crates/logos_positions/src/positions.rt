//! Makes steps from a set of positions to the positions that read the next byte. `logos_automaton`
//! makes these steps for each state.

pub(crate) mod exits;
pub mod look;
pub mod set;
pub mod step;
pub mod tree;
pub mod trees;
