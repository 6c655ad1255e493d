//! The numbers that identify leaves. Automata, graphs, codes and lexers refer to leaves by these
//! numbers.

/// The number that identifies a leaf.
#[derive(Clone, Copy, Debug, PartialEq, Eq)]
pub struct LeafId(pub usize);
