//! Turns a graph into a code value. `logos_codegen` calls `generate` once for each source without
//! faults.

ghost use Rattle.std.specs.Prelude.{◌≡◌, [], IfOk, OnOk, OnErr, map, option_copied};
ghost use Rattle.logos_generator.specs.Imports.{rule_of, RunsAs, fresh, code_leaf_value, leaf_value, IsCopy, KeepsGiven, HasNodesOf, jump_tables_of, tests_of, leaf_use};

mod fork;
mod leaves;
mod node_tables;
mod nodes;
mod states;
mod tests_by_bits;

pub use logos_code::code::Config;
use logos_code::code::{Code, Header};
use logos_graph::graph::Graph;
use logos_pattern::leaf::Callback;
use logos_token::error::Memory;
use logos_token::token::Ident;
use logos_type::TypeExpr;
use node_tables::NodeTables;
pub use nodes::{FastLoop, FastLoopMacro, TakeAction, fast_loop_macro};
use states::code_of;
use std::alloc::{AllocError, Global};
use std::marker::Model;

/// A generator that makes the code value of a graph without faults, as a whole or node by node.
#[derive(Drop)]
pub struct Generator<'g, 's> {
    config: Config,
    name: Ident<'s>,
    this: &'g TypeExpr<'s>,
    graph: &'g Graph<'s>,
    error_callback: Option<&'g Callback<'s>>,
    /// The tables of the nodes that have been made so far. After `generate`, the tables of the
    /// code.
    tables: NodeTables,
}

impl<'g, 's> Model for Generator<'g, 's> {
    ghost use Rattle.std.specs.Prelude.{◌≡◌, [], option_copied};
    ghost use Rattle.logos_generator.specs.Imports.{codes, named, GeneratorValue};
    ghost use Rattle.logos_hir.specs.contracts.hir.Hir as e;
    ghost use Rattle.logos_type.specs.contracts.type_expr.TypePart as p;

    ghost Value = { GeneratorValue };

    ghost coded = { Prim.hlevel (
      codes,
      e.the_row.coded,
      (p.the_row (record { mir = named 1; lft = [] })).coded,
    ) };

    ghost view = { λ g. record {
      given = record {
        shape = g.config;
        name = g.name;
        this = g.this.now;
        error_callback = option_copied g.error_callback;
      };
      graph = g.graph.now;
      tests = g.tables.tests.keys;
      jumps = g.tables.jumps.keys;
    } };

    ghost invariant = { λ g. g.graph.now.faults ≡ [] };
}

impl<'g, 's> Generator<'g, 's> {
    /// Returns a generator for a graph without faults. `name` and `this` are the name and the type
    /// of the enum. The code calls `error_callback`, if there is one, for bytes that no leaf
    /// matches. The generator has made no node yet.
    ///
    /// This call does not allocate. The tests and jump tables take their memory from `alloc` when
    /// nodes are made.
    pub fn new(
        alloc: Global,
        config: Config,
        name: Ident<'s>,
        this: &'g TypeExpr<'s>,
        graph: &'g Graph<'s>,
        error_callback: Option<&'g Callback<'s>>,
    ) -> Generator<'g, 's>
        requires { graph.now.faults ≡ [] }
        ensures { result ≡ fresh (record {
          shape = config;
          name = name.entry;
          this = this.now;
          error_callback = option_copied error_callback.entry;
        }) graph.now }
    {
        Generator {
            config,
            name,
            this,
            graph,
            error_callback,
            tables: NodeTables::new(alloc),
        }
    }

    /// Returns the code of the graph. From each point of each input, the code has the result of the
    /// graph, and each match attempt enters at most two states more than there are bytes left.
    ///
    /// The code has copies of the arguments of `new`, and of the kinds and callbacks of the graph's
    /// leaves. Its tests and jump tables are numbered in the order of their first use, with states
    /// ascending and the fast loop of a state before its fork. Equal tests share a number, and so
    /// do equal jump tables.
    ///
    /// Afterwards, the generator's tests and jump tables are the tests and jump tables of the code,
    /// regardless of the nodes that it made before. `render_luts` and `render_jump_tables` then
    /// return the tables of the code.
    ///
    /// # Errors
    ///
    /// Returns `Memory` if memory runs out. The generator is then unchanged.
    pub fn generate(&mut self, alloc: Global) -> Result<Code<'s>, Memory>
        ensures runs { IfOk result (λ code. RunsAs self.old.graph.states self.old.graph.utf8 code) }
        ensures mode { IfOk result (λ code. code.utf8 ≡ self.old.graph.utf8) }
        ensures uses { IfOk result (λ code. code.leaves
            ≡ map (λ leaf. (rule_of leaf).use_of) self.old.graph.leaves) }
        ensures keeps { IfOk result (KeepsGiven self.old.given self.old.graph) }
        ensures nodes { IfOk result (HasNodesOf self.old.graph.states) }
        ensures tests { OnOk result (self.new.tests ≡ tests_of self.old.graph.states) }
        ensures jumps { OnOk result (self.new.jumps ≡ jump_tables_of self.old.graph.states) }
        ensures same { (self.new.given ≡ self.old.given) × (self.new.graph ≡ self.old.graph) }
        ensures error { OnErr result (self.new ≡ self.old) }
    {
        let mut tables = NodeTables::new(alloc);
        match self.code(alloc, &mut tables) {
            Ok(code) => {
                self.tables = tables;
                Ok(code)
            }
            Err(_) => Err(Memory),
        }
    }

    /// Returns the code, and adds its tests and jump tables to `tables`, which must be empty.
    fn code(&self, alloc: Global, tables: &mut NodeTables) -> Result<Code<'s>, AllocError>
        requires tests { tables.old.tests.keys ≡ [] }
        requires jumps { tables.old.jumps.keys ≡ [] }
        ensures runs { IfOk result (λ code. RunsAs self.now.graph.states self.now.graph.utf8 code) }
        ensures mode { IfOk result (λ code. code.utf8 ≡ self.now.graph.utf8) }
        ensures leaves { IfOk result (λ code. code.leaves ≡ map leaf_use self.now.graph.leaves) }
        ensures nodes { IfOk result (HasNodesOf self.now.graph.states) }
        ensures tests { OnOk result (tables.new.tests.keys ≡ tests_of self.now.graph.states) }
        ensures jumps { OnOk result (tables.new.jumps.keys ≡ jump_tables_of self.now.graph.states) }
        ensures header { IfOk result (λ code. IsCopy self.now.given code.header) }
        ensures code_leaves { IfOk result
            (λ code. map code_leaf_value code.code_leaves ≡ map leaf_value self.now.graph.leaves) }
    {
        match self.header() {
            Ok(header) => code_of(alloc, tables, header, self.graph, self.graph.iter_states()),
            Err(error) => Err(error),
        }
    }

    /// Returns the header of the code, with copies of all arguments of `new` except the graph.
    fn header(&self) -> Result<Header<'s>, AllocError>
        ensures { IfOk result (IsCopy self.now.given) }
    {
        Ok(Header {
            shape: self.config,
            name: self.name,
            this: self.this.clone()?,
            error_callback: self.error_callback.cloned()?,
        })
    }
}
