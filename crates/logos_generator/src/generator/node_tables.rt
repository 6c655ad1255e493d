//! Defines the tests and jump tables that the nodes of a code share. `fork` adds to these tables,
//! and `states` puts them into the code.

ghost use Rattle.std.specs.Prelude.{◌≡◌, []};

use indexmap::IndexSet;
use std::alloc::Global;

/// The tests and the jump tables that the nodes of a code share.
#[derive(Drop)]
pub(super) struct NodeTables {
    /// The sets of bytes that nodes test by bits, in the order of their test numbers.
    pub tests: IndexSet<[bool; 256]>,
    /// The jump tables of nodes, in the order of their numbers.
    pub jumps: IndexSet<[u32; 256]>,
}

impl NodeTables {
    /// Returns empty tables. The tables take their memory from `alloc` when they grow. This call
    /// does not allocate.
    pub(super) fn new(alloc: Global) -> NodeTables
        ensures tests { result.tests.keys ≡ [] }
        ensures jumps { result.jumps.keys ≡ [] }
    {
        NodeTables {
            tests: IndexSet::new(alloc),
            jumps: IndexSet::new(alloc),
        }
    }
}
