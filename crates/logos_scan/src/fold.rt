//! Contains folded rows, which represent the steps of each state. In a folded row, a byte that ends
//! a match attempt also begins the next attempt. `choice` makes folded rows, and scans read them.

pub mod entries;
pub mod folded;
