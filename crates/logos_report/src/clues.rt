//! Defines clues: information about faults beyond their messages. `logos_causes` finds the clues
//! about the faults of a graph, and `logos_help` adds the help for each fault.

ghost use Rattle.std.specs.Prelude.{◌≡◌, [], if◌then◌else◌, MatchOption, false, nat_lt, true};
ghost use Rattle.logos_report.specs.Views.{fault_of, is_ambiguity, is_explained, follows, sizes_of, starts_in, starts_of, stepped, next_after, next_value};

use logos_token::error::{FaultCode, SpannedError};
use logos_token::token::Span;
use std::alloc::Global;

/// The clues about the faults of a source.
#[derive(Debug, Drop)]
pub struct Clues {
    /// The clues about the sets of ambiguous leaves, in the order of the sets' faults.
    pub meetings: Vec<Meeting>,
    /// The patterns that can examine bytes before the start of a match.
    pub starts: Vec<Start>,
    /// The help text for each fault, in the order of the faults. A fault whose entry is `None` or
    /// missing has no help text.
    pub helps: Vec<Option<&'static str>>,
}

/// The clue about a set of ambiguous leaves.
#[derive(Debug, Drop)]
pub struct Meeting {
    /// The names of the leaves, in the order of the leaves' faults.
    pub names: Vec<String>,
    /// The text of the note: an input that all leaves of the set match, and the priority that would
    /// decide between them.
    pub note: String,
}

/// A pattern that can examine bytes before the start of a match.
#[derive(Debug, Drop)]
pub struct Start {
    /// The name of the pattern's leaf.
    pub name: String,
    /// The span of the pattern's literal, in bytes of the source.
    pub span: Span,
}

impl Clues {
    /// Returns an empty `Clues`.
    pub fn none(alloc: Global) -> Clues
        ensures { sizes_of result ≡ [] }
    {
        Clues {
            meetings: Vec::new(alloc),
            starts: Vec::new(alloc),
            helps: Vec::new(alloc),
        }
    }
}

/// The clues about the remaining faults of a source, and the number of faults that have been passed
/// in the current set of ambiguous leaves.
#[derive(Clone, Copy)]
pub struct NextFaults<'c> {
    /// The clues about the sets of ambiguous leaves that have remaining faults.
    meetings: &'c [Meeting],
    /// The number of passed faults in the first set of `meetings`.
    passed: usize,
    /// The patterns that can examine bytes before the start of a match.
    starts: &'c [Start],
    /// The entries of `Clues::helps` for the remaining faults.
    helps: &'c [Option<&'static str>],
}

/// A fault in a set of ambiguous leaves, with the clue about the set.
#[derive(Clone, Copy)]
pub struct Member<'c> {
    pub meeting: &'c Meeting,
    /// The number of faults of the set that precede this fault.
    pub number: usize,
}

/// Returns the clues that remain before the first fault: all of `clues`.
pub fn first_faults(clues: &Clues) -> NextFaults<'_>
    ensures faults { next_value result ≡ record { sizes = sizes_of clues.now; passed = 0 } }
    ensures starts { starts_in result ≡ starts_of clues.now }
{
    NextFaults {
        meetings: &clues.meetings,
        passed: 0,
        starts: &clues.starts,
        helps: &clues.helps,
    }
}

/// Returns whether a fault with the code `code` belongs to a set of ambiguous leaves.
fn is_ambiguity(code: FaultCode) -> bool
    ensures { result ≡ is_ambiguity code }
{
    matches!(code, FaultCode::Disambiguation)
}

/// Returns the clues that remain in `next` after a fault of a set of ambiguous leaves is passed.
/// Returns `next` unchanged if no set with a clue remains.
fn stepped(next: NextFaults<'_>) -> NextFaults<'_>
    ensures faults { next_value result
        ≡ stepped (next_value next.entry) (next_value next.entry).sizes }
    ensures starts { starts_in result ≡ starts_in next.entry }
{
    let [meeting, rest @ ..] = next.meetings else {
        return next;
    };
    if next.passed < meeting.names.len().saturating_sub(1) {
        return NextFaults {
            passed: next.passed + 1,
            ..next
        };
    }
    NextFaults {
        meetings: rest,
        passed: 0,
        ..next
    }
}

impl<'c> NextFaults<'c> {
    /// Returns the clues that remain after `fault`, the next fault.
    pub fn after(self, fault: &SpannedError) -> NextFaults<'c>
        ensures faults { next_value result
            ≡ next_after (next_value self.entry) (fault_of fault.now) }
        ensures starts { starts_in result ≡ starts_in self.entry }
    {
        let next = NextFaults {
            helps: self.helps.get(1..).unwrap_or(&[]),
            ..self
        };
        if is_ambiguity(fault.code) {
            stepped(next)
        } else {
            next
        }
    }

    /// Returns the help for the next fault, or `None` if there is no help.
    pub fn help(self) -> Option<&'static str> {
        *self.helps.first()?
    }

    /// Returns `fault`, the next fault, as a member of its set of ambiguous leaves. Returns `None`
    /// if the fault is not about an ambiguous leaf or if no clue about a set remains.
    pub fn member(self, fault: &SpannedError) -> Option<Member<'c>>
        ensures { MatchOption result (follows (next_value self.entry) (fault_of fault.now) ≡ false)
            (λ member. (follows (next_value self.entry) (fault_of fault.now)
            ≡ nat_lt 0 member.number) × (is_ambiguity fault.now.code ≡ true)) }
    {
        match self.meetings {
            [meeting, ..] if is_ambiguity(fault.code) => Some(Member {
                meeting,
                number: self.passed,
            }),
            _ => None,
        }
    }

    /// Returns whether `fault`, the next fault, is shown in the report of an earlier fault of its
    /// set.
    pub(crate) fn follows(self, fault: &SpannedError) -> bool
        ensures { result ≡ follows (next_value self.entry) (fault_of fault.now) }
    {
        match self.member(fault) {
            Some(member) => member.number > 0,
            None => false,
        }
    }

    /// Returns the patterns that explain a fault with the code `code`. For the code
    /// `NoUniversalStart`, these are the patterns that can examine bytes before the start of a
    /// match. For any other code, the list is empty.
    pub fn starts(self, code: FaultCode) -> &'c [Start]
        ensures { result.now ≡ (if is_explained code then self.entry.starts.now else []) }
    {
        match code {
            FaultCode::NoUniversalStart => self.starts,
            _ => &[],
        }
    }
}

impl Member<'_> {
    /// Returns the name of the fault's leaf, or an empty text if the clue about the set does not
    /// contain the name.
    pub fn name(&self) -> &str {
        match self.meeting.names.get(self.number) {
            Some(name) => name.as_str(),
            None => "",
        }
    }

    /// Returns whether the fault is the last fault of its set.
    pub(crate) fn is_last(&self) -> bool {
        self.number >= self.meeting.names.len().saturating_sub(1)
    }
}
