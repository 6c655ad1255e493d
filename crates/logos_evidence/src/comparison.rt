//! Compares two lexers. Used by `logos_answers` for `--compare`.

ghost use Rattle.std.specs.Prelude.{◌≡◌, ℕ, List, [], IfOk, Option, is_some, slice_get};
ghost use Rattle.logos_evidence.specs.Views.{IsGraphOf, rules_of, IsShortestDifference, FindTheSame, pair_next, pair_goal, shown, IsAnswer};
ghost use Rattle.logos_evidence.specs.inside.Machines as machines;

use crate::examples::point_from;
use crate::graph_steps::{next_at_end, next_by, seen_by, states_of};
use crate::search::{Machine, Point, shortest};
use logos_graph::graph::{Graph, StateData};
use std::alloc::{AllocError, Global};

/// The result of a comparison of two lexers.
#[derive(Debug, Drop)]
pub enum Comparison {
    /// The two lexers find the same match or error from each offset of each input.
    Same,
    /// The lexers find different matches or errors at the beginning of this input.
    Differ(Vec<u8>),
}

/// A graph, with a number that represents the name of each leaf.
#[derive(Clone, Copy)]
pub struct Named<'g, 's> {
    pub graph: &'g Graph<'s>,
    /// For each leaf, the number that represents its name. Leaves with the same number count as
    /// equal.
    pub names: &'g [usize],
}

/// A machine that follows two graphs. Its goals are the points after inputs at whose beginning the
/// graphs find different matches or errors.
#[derive(Clone, Copy)]
struct GraphPair<'g> {
    one: &'g [&'g StateData],
    names: &'g [usize],
    other: &'g [&'g StateData],
    others: &'g [usize],
    utf8: bool,
}

/// Returns whether the leaf `mark` of one graph and the leaf `twin` of another have equal names.
/// `names` and `others` contain the names of the leaves of the two graphs. Two missing names count
/// as equal.
fn same_mark(names: &[usize], mark: usize, others: &[usize], twin: usize) -> bool
    ensures { result ≡ machines.same_option (slice_get names.now mark) (slice_get others.now twin) }
{
    match (names.get(mark), others.get(twin)) {
        (Some(name), Some(other)) => *name == *other,
        (None, None) => true,
        _ => false,
    }
}

/// Returns whether an input may be cut before `byte`. In UTF-8 mode, an input may only be cut
/// before a byte that can begin a character.
fn is_cut(utf8: bool, byte: u8) -> bool
    ensures { result ≡ machines.is_cut utf8 byte }
{
    !utf8 | ((byte < 0x80) | (0xC0 <= byte))
}

/// Returns whether exactly one of two steps leads to a state. `next` and `twin` are the targets of
/// the steps.
fn one_leads(next: Option<usize>, twin: Option<usize>) -> bool
    ensures { result ≡ machines.one_leads next twin }
{
    (next.is_some() & !twin.is_some()) | (!next.is_some() & twin.is_some())
}

impl GraphPair<'_> {
    /// Returns whether the last matches of the two graphs differ after a step from the point `at`,
    /// or whether their errors differ if there is no match. `mark` and `twin` are the leaves of the
    /// two graphs whose matches end at `at`. `parts` is `true` if the error of only one graph ends
    /// at `at`.
    fn differs_after(
        &self,
        at: Point,
        mark: Option<usize>,
        twin: Option<usize>,
        parts: bool,
    ) -> bool
        ensures { result ≡
            machines.differs_after self.now.names.now self.now.others.now
            at.met at.last mark twin parts }
    {
        match (mark, twin) {
            (Some(mark), Some(twin)) => !same_mark(self.names, mark, self.others, twin),
            (None, None) => if at.met { at.last } else { at.last | parts },
            _ => true,
        }
    }
}

impl Machine for GraphPair<'_> {
    ghost leads = { λ it. pair_next (shown it.one.now) (shown it.other.now) it.names.now it.others.now it.utf8 };

    ghost goal = { λ it. pair_goal (shown it.one.now) (shown it.other.now) it.names.now it.others.now it.utf8 };

    fn next(&self, at: Point, byte: u8) -> Option<Point> {
        let next = next_by(self.one, at.here, byte);
        let twin = next_by(self.other, at.there, byte);
        let mark = seen_by(self.one, at.here, next);
        let twin_mark = seen_by(self.other, at.there, twin);
        let parts = at.begun & (is_cut(self.utf8, byte) & one_leads(next, twin));
        Some(Point {
            here: next.unwrap_or(self.one.len()),
            there: twin.unwrap_or(self.other.len()),
            begun: true,
            met: at.met | (mark.is_some() | twin_mark.is_some()),
            last: self.differs_after(at, mark, twin_mark, parts),
        })
    }

    fn is_goal(&self, at: Point) -> bool {
        let next = next_at_end(self.one, at.here);
        let twin = next_at_end(self.other, at.there);
        let mark = seen_by(self.one, at.here, next);
        let twin_mark = seen_by(self.other, at.there, twin);
        self.differs_after(at, mark, twin_mark, false)
    }
}

/// Compares two lexers of the same mode.
///
/// Returns `Same` if the lexers find equal matches and errors from each offset of each input, and
/// otherwise `Differ` with a shortest input at whose beginning they differ. Two matches are equal
/// if they end at the same offset and their leaves have the same name. Two errors are equal if they
/// end at the same offset. Among inputs of the same length, the search prefers letters, then
/// digits, then punctuation.
///
/// The graphs must have no faults. Callbacks are not compared. Skips are matches too: a lexer that
/// skips two blanks one by one differs from a lexer that skips both at once.
///
/// # Errors
///
/// Returns `AllocError` if memory runs out.
pub fn compare(
    alloc: Global,
    one: Named<'_, '_>,
    other: Named<'_, '_>,
) -> Result<Comparison, AllocError>
    requires { one.graph.now.utf8 ≡ other.graph.now.utf8 }
    ensures { IfOk result (λ made.
        IsGraphOf one.entry.graph.now.leaves one.entry.graph.now.utf8 one.entry.graph.now →
        IsGraphOf other.entry.graph.now.leaves other.entry.graph.now.utf8 other.entry.graph.now →
        one.entry.graph.now.faults ≡ [] → other.entry.graph.now.faults ≡ [] →
        IsAnswer (rules_of one.entry.graph.now.leaves) one.entry.names.now
        (rules_of other.entry.graph.now.leaves) other.entry.names.now
        one.entry.graph.now.utf8 made) }
{
    let states = states_of(alloc, one.graph)?;
    let twins = states_of(alloc, other.graph)?;
    let utf8 = one.graph.utf8_mode();
    let machine = GraphPair {
        one: &states,
        names: one.names,
        other: &twins,
        others: other.names,
        utf8,
    };
    match shortest(alloc, &machine, utf8, point_from(0))? {
        Some(input) => Ok(Comparison::Differ(input)),
        None => Ok(Comparison::Same),
    }
}
