//! Selects, by its name, one of the enums of a file that derive `Logos`. Used by `choice`.

ghost use Rattle.std.specs.Prelude.{◌≢◌, ◌↔◌, All, Contains, IfOk, IsTrue, MatchOption, OnOk};
ghost use Rattle.logos_show.specs.Views.{AddsCandidate, AreCandidates, EndsWith, EndsWithPath, HasName, HasPath, IsOther, IsSelected, Selects};

use crate::choice::Chosen;
use logos_codegen::error::Memory;
use logos_rust_file::{FoundEnum, ends_with_path, path_of};
use std::alloc::Global;

/// An enum that derives `Logos`.
#[derive(Drop)]
struct Candidate {
    found: FoundEnum,
    /// The path of the enum in the file.
    path: String,
}

/// Selects among the enums in `found` that derive `Logos`, by their paths in the file `text`.
/// Returns the first enum whose path is `name`, or otherwise the first enum whose path ends with
/// `name`. In the second case, returns `Several` if another path also ends with `name`. Returns
/// `Nothing` if no enum is selected.
///
/// # Errors
///
/// Returns `Memory` if memory runs out.
pub(crate) fn named_enum(
    alloc: Global,
    text: &str,
    found: &[FoundEnum],
    name: &str,
) -> Result<Chosen, Memory>
    ensures { IfOk result (Selects text.now found.now name.now) }
{
    let candidates = candidates_of(alloc, text, found)?;
    Ok(selected(&candidates, name))
}

/// Returns the enums in `found` that derive `Logos`, with their paths in the file `text`.
fn candidates_of(alloc: Global, text: &str, found: &[FoundEnum]) -> Result<Vec<Candidate>, Memory>
    ensures { IfOk result (λ candidates. AreCandidates text.now found.now candidates.items) }
{
    let mut candidates = Vec::new(alloc);
    for one in found {
        add_candidate(alloc, text, *one, &mut candidates)?;
    }
    Ok(candidates)
}

/// Adds the enum `found` with its path in the file `text` to `candidates` if the enum derives
/// `Logos`.
fn add_candidate(
    alloc: Global,
    text: &str,
    found: FoundEnum,
    candidates: &mut Vec<Candidate>,
) -> Result<(), Memory>
    ensures { OnOk result
        (AddsCandidate text.now found candidates.old.items candidates.new.items) }
{
    if !found.derives {
        return Ok(());
    }
    let path = path_of(alloc, text, found)?;
    candidates.push(Candidate { found, path })?;
    Ok(())
}

/// Selects among candidates. Returns the first candidate whose path is `name`, or otherwise the
/// first candidate whose path ends with `name`. In the second case, returns `Several` if another
/// path also ends with `name`. Returns `Nothing` if no candidate is selected.
fn selected(candidates: &[Candidate], name: &str) -> Chosen
    ensures { IsSelected candidates.now name.now result }
{
    if let Some(exact) = with_path(candidates, name) {
        return Chosen::One(exact.found);
    }
    let Some(first) = with_end(candidates, name) else {
        return Chosen::Nothing;
    };
    match other_with_end(candidates, name, first.path.as_str()) {
        Some(other) => Chosen::Several(first.found, other.found),
        None => Chosen::One(first.found),
    }
}

/// Returns the first candidate whose path is `name`, or `None` if no candidate has this path.
fn with_path<'c>(candidates: &'c [Candidate], name: &str) -> Option<&'c Candidate>
    ensures { MatchOption result (All (λ candidate. ¬ HasPath name.now candidate) candidates.now)
        (λ found. Contains candidates.now found.now × HasPath name.now found.now) }
{
    for candidate in candidates {
        if candidate.path.as_str() == name {
            return Some(candidate);
        }
    }
    None
}

/// Returns the first candidate whose path ends with `name`, or `None` if no path ends with `name`.
fn with_end<'c>(candidates: &'c [Candidate], name: &str) -> Option<&'c Candidate>
    ensures { MatchOption result (All (λ candidate. ¬ EndsWith name.now candidate) candidates.now)
        (λ found. Contains candidates.now found.now × EndsWith name.now found.now) }
{
    for candidate in candidates {
        if ends_with_path(candidate.path.as_str(), name) {
            return Some(candidate);
        }
    }
    None
}

/// Returns the first candidate whose path ends with `name` and differs from `path`, or `None` if
/// there is no such candidate.
fn other_with_end<'c>(candidates: &'c [Candidate], name: &str, path: &str) -> Option<&'c Candidate>
    ensures { MatchOption result
        (All (λ candidate. ¬ IsOther name.now path.now candidate) candidates.now)
        (λ found. Contains candidates.now found.now × IsOther name.now path.now found.now) }
{
    for candidate in candidates {
        if is_other(candidate.path.as_str(), name, path) {
            return Some(candidate);
        }
    }
    None
}

/// Returns whether `path` ends with `name` and differs from `other`.
fn is_other(path: &str, name: &str, other: &str) -> bool
    ensures { IsTrue result ↔ ((EndsWithPath path.now name.now) × (path.now ≢ other.now)) }
{
    ends_with_path(path, name) & (path != other)
}

/// Returns whether `name` selects an enum with the path `path`. This is the case if the path is
/// `name` or ends with `name`.
pub(crate) fn is_named(path: &str, name: &str) -> bool
    ensures { IsTrue result ↔ HasName name.now path.now }
{
    (path == name) | ends_with_path(path, name)
}
