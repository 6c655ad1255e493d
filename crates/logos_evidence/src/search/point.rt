//! Defines machines that read bytes, and their points. Used by all modules that search or define
//! machines.

/// A point that a machine can reach. Each machine defines the meaning of the fields.
#[derive(Clone, Copy, PartialEq, Eq, Hash)]
pub struct Point {
    /// The state of the machine.
    pub here: usize,
    /// The second state of a machine that follows two states.
    pub there: usize,
    /// Whether a byte was read.
    pub begun: bool,
    /// Whether a condition that a goal requires, such as a match, was met on the way.
    pub met: bool,
    /// A property of the last match on the way, such as whether it is a match of the leaf that is
    /// searched for.
    pub last: bool,
}

/// A machine that reads bytes, with the points that are its goals.
pub trait Machine {
    ghost use Rattle.std.specs.Prelude.{◌≡◌, ℕ, Bool, Option};
    ghost use Rattle.logos_evidence.specs.declared.search.point.Point.{Point as At};

    ghost leads: { Self → At → ℕ → Option At };

    ghost goal: { Self → At → Bool };

    /// Returns the point to which `byte` leads from the point `at`, or `None` if there is no such
    /// point.
    fn next(&self, at: Point, byte: u8) -> Option<Point>
        ensures { result ≡ leads self.now at byte };

    /// Returns whether the point `at` is a goal, at which a search for an input ends.
    fn is_goal(&self, at: Point) -> bool
        ensures { result ≡ goal self.now at };
}
