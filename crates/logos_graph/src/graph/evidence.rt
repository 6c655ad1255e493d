//! Finds and checks bytes that distinguish two states of a graph. Part of the public interface.

ghost use Rattle.std.specs.Prelude.{◌≡◌, ◌≢◌, ◌<◌, ◌↔◌, [], IsTrue, IfOk, length};
ghost use Rattle.logos_graph.specs.Imports.{Distinguishes, IsEvidence};

use super::{Graph, State};
use crate::distinction::{checks, evidence};
use logos_token::error::Memory;
use std::alloc::Global;

/// Bytes that distinguish two states. The bytes lead from the two states to states of different
/// types, or they lead to a state from exactly one of the two states.
#[derive(Debug, Drop)]
pub struct Telling {
    pub bytes: Vec<u8>,
    /// Whether the end of the input follows the bytes.
    pub at_end: bool,
}

impl Graph<'_> {
    /// Returns bytes that distinguish the states `s` and `t` of this graph, which must be
    /// different. The result also contains whether the end of the input follows the bytes. There
    /// are fewer bytes than states.
    ///
    /// # Errors
    ///
    /// Returns `Memory` if memory runs out.
    pub fn telling(&self, alloc: Global, s: State, t: State) -> Result<Telling, Memory>
        requires s_in { s.0 < length self.now.states }
        requires t_in { t.0 < length self.now.states }
        requires different { s.0 ≢ t.0 }
        ensures { IfOk result (λ telling.
            IsEvidence self.now.states s.0 t.0 telling.bytes.items telling.at_end) }
    {
        let (bytes, at_end) = evidence(alloc, self.reduced(), s.0, t.0)?;
        Ok(Telling { bytes, at_end })
    }

    /// Returns whether `bytes`, followed by the end of the input if `at_end` is `true`, distinguish
    /// the states `s` and `t` of this graph. Does not allocate.
    pub fn checks(&self, s: State, t: State, bytes: &[u8], at_end: bool) -> bool
        requires s_in { s.0 < length self.now.states }
        requires t_in { t.0 < length self.now.states }
        ensures { IsTrue result ↔ Distinguishes self.now.states s.0 t.0 bytes.now at_end }
    {
        checks(self.reduced(), s.0, t.0, bytes, at_end)
    }
}
