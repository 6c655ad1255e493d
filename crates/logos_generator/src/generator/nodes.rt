//! Makes the nodes of a code one by one. These functions are part of the public interface, and
//! `generate` does not call them.

ghost use Rattle.std.specs.Prelude.{◌≡◌, ◌≤◌, ◌<◌, OnOk, OnErr, IfOk, length};
ghost use Rattle.logos_generator.specs.Views.{ranges_of, graph_state_of, state_number, code_leaf_value, leaf_value, left_out, bit_tables_of, IsCodable, Continues, MakesFork, MakesLoop, MakesLoopOver};

use super::Generator;
use super::fork::{impl_fork, maybe_impl_fast_loop};
use super::leaves::leaf_made;
use super::tests_by_bits::{add_test, tables_of};
use logos_byte_class::byte_class::ByteClass;
use logos_code::code::{CodeLeaf, Fork, NOWHERE};
use logos_graph::graph::{State, StateData};
use logos_pattern::leaf::Leaf;
use logos_token::error::Memory;
use std::alloc::Global;

/// A fast loop, identified by the number of its test.
#[derive(Clone, Copy, Debug, PartialEq, Eq)]
pub struct FastLoop {
    pub test: usize,
}

/// The macro that ends a match attempt. After a skipped match, the next match attempt begins in the
/// state with the number `restart`.
#[derive(Clone, Copy, Debug, PartialEq, Eq)]
pub struct TakeAction {
    pub restart: usize,
}

/// The macro for fast loops over blocks of `unroll_factor` bytes.
#[derive(Clone, Copy, Debug, PartialEq, Eq)]
pub struct FastLoopMacro {
    pub unroll_factor: usize,
}

/// Returns the macro for fast loops over blocks of `unroll_factor` bytes. `unroll_factor` must be
/// at least 1.
pub fn fast_loop_macro(unroll_factor: usize) -> FastLoopMacro
    requires { 1 ≤ unroll_factor }
    ensures { result ≡ record { unroll_factor = unroll_factor } }
{
    FastLoopMacro { unroll_factor }
}

impl<'s> Generator<'_, 's> {
    /// Returns the fork of `state` with the edges of `state_data`. Leaves out the edge from `state`
    /// back to itself if `ignore_self` is `true`. New tests and a new jump table are numbered after
    /// the tests and jump tables of earlier nodes.
    ///
    /// # Errors
    ///
    /// Returns `Memory` if memory runs out. The generator is then unchanged.
    pub fn impl_fork(
        &mut self,
        alloc: Global,
        state: State,
        state_data: &StateData,
        ignore_self: bool,
    ) -> Result<Fork, Memory>
        requires { IsCodable (graph_state_of state_data.now) }
        ensures continues { OnOk result (Continues self.old self.new) }
        ensures is { IfOk result (MakesFork self.old self.new state state_data.now ignore_self) }
        ensures error { OnErr result (self.new ≡ self.old) }
    {
        let left_out = left_out(ignore_self, state.index());
        let (tests, jumps) = (self.tables.tests.len(), self.tables.jumps.len());
        match impl_fork(alloc, &mut self.tables, &state_data.normal, left_out) {
            Ok(fork) => Ok(fork),
            Err(_) => {
                self.tables.tests.truncate(tests);
                self.tables.jumps.truncate(jumps);
                Err(Memory)
            }
        }
    }

    /// Returns the fast loop over the edge from `state` back to itself, or `None` if there is no
    /// such edge. `state` must be a state of the graph. A new test is numbered after the tests of
    /// earlier nodes.
    ///
    /// # Errors
    ///
    /// Returns `Memory` if memory runs out. The generator is then unchanged.
    pub fn maybe_impl_fast_loop(
        &mut self,
        _alloc: Global,
        state: State,
    ) -> Result<Option<FastLoop>, Memory>
        requires { state_number state < length self.old.graph.states }
        ensures continues { OnOk result (Continues self.old self.new) }
        ensures is { IfOk result (MakesLoop self.old self.new state) }
        ensures error { OnErr result (self.new ≡ self.old) }
    {
        let data = self.graph.get_state(state);
        match maybe_impl_fast_loop(&mut self.tables.tests, &data.normal, state.index())? {
            Some(test) => Ok(Some(FastLoop { test })),
            None => Ok(None),
        }
    }

    /// Returns the fast loop over an edge with the bytes of `self_edge`. A new test is numbered
    /// after the tests of earlier nodes.
    ///
    /// # Errors
    ///
    /// Returns `Memory` if memory runs out. The generator is then unchanged.
    pub fn impl_fast_loop(
        &mut self,
        _alloc: Global,
        self_edge: &ByteClass,
    ) -> Result<FastLoop, Memory>
        ensures continues { OnOk result (Continues self.old self.new) }
        ensures is { IfOk result (MakesLoopOver self.old self.new (ranges_of self_edge.now)) }
        ensures error { OnErr result (self.new ≡ self.old) }
    {
        let test = add_test(&mut self.tables.tests, self_edge)?;
        Ok(FastLoop { test })
    }

    /// Returns the code's leaf for `leaf`, with copies of the kind and the callback of `leaf`.
    ///
    /// # Errors
    ///
    /// Returns `Memory` if memory runs out.
    pub fn generate_callback(&self, _alloc: Global, leaf: &Leaf<'s>) -> Result<CodeLeaf<'s>, Memory>
        ensures { IfOk result (λ made. code_leaf_value made ≡ leaf_value leaf.now) }
    {
        Ok(leaf_made(leaf)?)
    }

    /// Returns the macro that ends a match attempt. After a skipped match, the next match attempt
    /// begins in the root, which is state 0.
    pub fn take_action_macro(&self) -> TakeAction
        ensures { result ≡ record { restart = 0 } }
    {
        TakeAction { restart: 0 }
    }

    /// Returns the bit tables of the tests of all nodes made so far. After `generate`, these are
    /// the bit tables of the code.
    ///
    /// # Errors
    ///
    /// Returns `Memory` if memory runs out.
    pub fn render_luts(&self, alloc: Global) -> Result<Vec<[u8; 256]>, Memory>
        ensures { IfOk result (λ tables. tables.items ≡ bit_tables_of self.now.tests) }
    {
        Ok(tables_of(alloc, self.tables.tests.as_slice())?)
    }

    /// Returns the jump tables of all forks made so far, in the order of their numbers. After
    /// `generate`, these are the jump tables of the code. The entry of a byte is the number of the
    /// state to which the byte leads, or `NOWHERE`. `Fork::Table(k)` refers to table `k`.
    ///
    /// # Errors
    ///
    /// Returns `Memory` if memory runs out.
    pub fn render_jump_tables(&self, alloc: Global) -> Result<Vec<[u32; 256]>, Memory>
        ensures { IfOk result (λ tables. tables.items ≡ self.now.jumps) }
    {
        Ok(Vec::from_slice(alloc, self.tables.jumps.as_slice())?)
    }
}

/// Returns the number of the state to which no edge of a fork leads: the number `state` if
/// `ignore_self` is `true`, and otherwise a number that no state has.
fn left_out(ignore_self: bool, state: usize) -> usize
    ensures { result ≡ left_out ignore_self state }
{
    if ignore_self { state } else { NOWHERE as usize }
}
