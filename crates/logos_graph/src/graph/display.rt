//! Prints states and graphs. Used by `value`, and part of the public interface.

ghost use Rattle.std.specs.Prelude.{◌≡◌, ◌++◌, Some, IfOk, codes, string_bytes};
ghost use Rattle.logos_graph.specs.Imports.{decimal};

use super::{State, StateData, StateType};
use logos_token::error::Memory;
use std::alloc::Global;
use std::fmt;

impl State {
    /// Returns `State` followed by the number of the state.
    ///
    /// # Errors
    ///
    /// Returns `Memory` if memory runs out.
    pub fn pascal_case(self, alloc: Global) -> Result<String, Memory>
        ensures { IfOk result (λ text. string_bytes text ≡ codes "State" ++ decimal self.0) }
    {
        let number = self.0;
        Ok(format!(in alloc; "State{number}")?)
    }

    /// Returns `state` followed by the number of the state.
    ///
    /// # Errors
    ///
    /// Returns `Memory` if memory runs out.
    pub fn snake_case(self, alloc: Global) -> Result<String, Memory>
        ensures { IfOk result (λ text. string_bytes text ≡ codes "state" ++ decimal self.0) }
    {
        let number = self.0;
        Ok(format!(in alloc; "state{number}")?)
    }
}

impl fmt::Display for State {
    ghost output = { λ state. Some (codes "state" ++ decimal state.0) };

    fn fmt<W: fmt::Write>(&self, f: &mut fmt::Formatter<W>) -> fmt::Result {
        let number = self.0;
        write!(f, "state{number}")
    }
}

/// Prints `accept(..)` for a late mark and then `early(..)` for an early mark. The parentheses
/// contain the number of the mark's leaf. A space follows each mark.
impl fmt::Display for StateType {
    fn fmt<W: fmt::Write>(&self, f: &mut fmt::Formatter<W>) -> fmt::Result {
        if let Some(leaf) = self.accept {
            let leaf = leaf.0;
            write!(f, "accept({leaf}) ")?;
        }
        if let Some(leaf) = self.early {
            let leaf = leaf.0;
            write!(f, "early({leaf}) ")?;
        }
        Ok(())
    }
}

/// The printed form of a state: a line with the marks, a line for each edge, and a line with the
/// closing brace.
#[derive(Clone, Copy)]
struct StateLines<'g> {
    state: &'g StateData,
    /// The indentation of the last line. The lines of edges are indented by two more spaces.
    indent: &'static str,
}

impl fmt::Display for StateLines<'_> {
    fn fmt<W: fmt::Write>(&self, f: &mut fmt::Formatter<W>) -> fmt::Result {
        let indent = self.indent;
        let state_type = self.state.state_type;
        write!(f, "StateData({state_type}) {{\n")?;
        for edge in &self.state.normal {
            let class = &edge.0;
            let target = edge.1;
            write!(f, "{indent}  {class} => {target}\n")?;
        }
        if let Some(target) = self.state.eoi {
            write!(f, "{indent}  EOI => {target}\n")?;
        }
        write!(f, "{indent}}}")
    }
}

/// Prints the marks. The alternate form (`{:#}`) also prints a line for each edge.
impl fmt::Display for StateData {
    fn fmt<W: fmt::Write>(&self, f: &mut fmt::Formatter<W>) -> fmt::Result {
        if f.alternate() {
            let lines = StateLines {
                state: self,
                indent: "",
            };
            return write!(f, "{lines}");
        }
        let state_type = self.state_type;
        write!(f, "StateData({state_type})")
    }
}

/// The printed form of a graph: its states with their numbers, and a line for each edge.
#[derive(Clone, Copy)]
pub(super) struct Listing<'g> {
    pub states: &'g [StateData],
}

impl fmt::Display for Listing<'_> {
    fn fmt<W: fmt::Write>(&self, f: &mut fmt::Formatter<W>) -> fmt::Result {
        for (number, state) in self.states.iter().enumerate() {
            if number > 0 {
                write!(f, "\n")?;
            }
            let lines = StateLines {
                state,
                indent: "  ",
            };
            write!(f, "  state{number} => {lines}")?;
        }
        Ok(())
    }
}
