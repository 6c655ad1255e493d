//! Makes steps on trees, from the positions that read one byte to the positions that read the next
//! byte. `logos_automaton` builds its states with these steps.

#![tactic(auto)]

pub mod characters;
pub mod node;
pub mod positions;
pub mod preparation;
