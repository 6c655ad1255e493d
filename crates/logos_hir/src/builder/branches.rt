//! Flattens alternations, and turns alternations of single characters or single bytes into classes.
//! Called by the simplifier.

ghost use Rattle.std.specs.Prelude.{◌≡◌, ◌≤◌, ◌++◌, ◌∷◌, [], map, length, take, drop, Option, option_map, is_some, ◌&&◌, true, false, IfOk, OnOk};
ghost use Rattle.logos_hir.specs.Views.{chars, pairs, tree_of, class_tree, sole_char, char_ranges_of, byte_ranges_of, all_ranges, branches_of, bytes_or, chars_or, choice_of, alternation_of, IsSimplest, IsAdded, IsFlatAlone, fits_of};

use super::{byte_class, char_class};
use crate::hir::{Class, Hir, Range};
use crate::sets::RangeSet;
use std::alloc::{AllocError, Global};

/// Returns the character whose UTF-8 is `bytes`, or `None` if there is no such character.
fn sole_char(alloc: Global, bytes: &[u8]) -> Result<Option<char>, AllocError>
    ensures { IfOk result (λ c. c ≡ sole_char bytes.now) }
{
    let Ok(text) = str::from_utf8(bytes) else {
        return Ok(None);
    };
    let chars = characters(alloc, text)?;
    match chars.as_slice() {
        [c] => Ok(Some(*c)),
        _ => Ok(None),
    }
}

/// Returns the characters of a text.
fn characters(alloc: Global, text: &str) -> Result<Vec<char>, AllocError>
    ensures { IfOk result (λ v. v.items ≡ chars text.now) }
{
    text.chars().collect(alloc)
}

/// Appends the ranges of `branch` to `out` and returns `true` if `branch` is a class of characters
/// or a literal of one character. Otherwise, appends nothing and returns `false`.
fn push_char_ranges(out: &mut Vec<Range>, branch: &Hir) -> Result<bool, AllocError>
    ensures { IfOk result (λ done. IsAdded (char_ranges_of (tree_of branch.now)) done
        (pairs out.old.items) (pairs out.new.items)) }
{
    match branch {
        Hir::Class(Class::Characters(ranges)) => {
            out.extend_from_slice(ranges)?;
            Ok(true)
        }
        Hir::Literal(bytes) => match sole_char(*out.allocator(), bytes)? {
            Some(c) => {
                out.push(Range::new(c as u32, c as u32))?;
                Ok(true)
            }
            None => Ok(false),
        },
        _ => Ok(false),
    }
}

/// Appends the ranges of `branch` to `out` and returns `true` if `branch` is a class of bytes or a
/// literal of one byte. Otherwise, appends nothing and returns `false`.
fn push_byte_ranges(out: &mut Vec<Range>, branch: &Hir) -> Result<bool, AllocError>
    ensures { IfOk result (λ done. IsAdded (byte_ranges_of (tree_of branch.now)) done
        (pairs out.old.items) (pairs out.new.items)) }
{
    match branch {
        Hir::Class(Class::Bytes(ranges)) => {
            out.extend_from_slice(ranges)?;
            Ok(true)
        }
        Hir::Literal(bytes) => match bytes.as_slice() {
            [b] => {
                out.push(Range::new(*b as u32, *b as u32))?;
                Ok(true)
            }
            _ => Ok(false),
        },
        _ => Ok(false),
    }
}

/// Returns the ranges of all branches, or `None` if a branch is neither a class of characters nor a
/// literal of one character.
fn char_ranges(alloc: Global, branches: &[Hir]) -> Result<Option<Vec<Range>>, AllocError>
    ensures { IfOk result (λ o. option_map (λ v. pairs v.items) o ≡
        all_ranges char_ranges_of (map tree_of branches.now)) }
{
    let mut out = Vec::new(alloc);
    for branch in branches {
        if !push_char_ranges(&mut out, branch)? {
            return Ok(None);
        }
    }
    Ok(Some(out))
}

/// Returns the ranges of all branches, or `None` if a branch is neither a class of bytes nor a
/// literal of one byte.
fn byte_ranges(alloc: Global, branches: &[Hir]) -> Result<Option<Vec<Range>>, AllocError>
    ensures { IfOk result (λ o. option_map (λ v. pairs v.items) o ≡
        all_ranges byte_ranges_of (map tree_of branches.now)) }
{
    let mut out = Vec::new(alloc);
    for branch in branches {
        if !push_byte_ranges(&mut out, branch)? {
            return Ok(None);
        }
    }
    Ok(Some(out))
}

/// Appends the branches of `inner` to `branches`. If `branches` is empty, `inner` is reused without
/// a copy.
fn push_branches(branches: &mut Vec<Hir>, mut inner: Vec<Hir>) -> Result<(), AllocError>
    ensures { OnOk result (map tree_of branches.new.items ≡
        map tree_of branches.old.items ++ map tree_of inner.items) }
{
    if branches.is_empty() {
        *branches = inner;
        return Ok(());
    }
    Ok(branches.append(&mut inner)?)
}

/// Appends the tree `branch` to `branches`. Appends the branches of an alternation one by one.
fn push_branch(branches: &mut Vec<Hir>, branch: Hir) -> Result<(), AllocError>
    ensures { OnOk result (map tree_of branches.new.items ≡
        map tree_of branches.old.items ++ branches_of (tree_of branch)) }
{
    match branch {
        Hir::Alternation(inner) => push_branches(branches, inner),
        other => Ok(branches.push(other)?),
    }
}

/// Returns a class of bytes if each branch is a class of bytes or a literal of one byte, and an
/// alternation of the branches otherwise.
fn bytes_or(alloc: Global, branches: Vec<Hir>) -> Result<Hir, AllocError>
    ensures { IfOk result (λ hir. tree_of hir ≡
        bytes_or (map tree_of branches.items)
        (all_ranges byte_ranges_of (map tree_of branches.items))) }
{
    match byte_ranges(alloc, &branches)? {
        Some(ranges) => byte_class(alloc, RangeSet::from_ranges(alloc, &ranges)?),
        None => Ok(Hir::Alternation(branches)),
    }
}

/// Returns a class of characters if each branch is a class of characters or a literal of one
/// character, and the result of `bytes_or` otherwise.
fn chars_or(alloc: Global, branches: Vec<Hir>) -> Result<Hir, AllocError>
    ensures { IfOk result (λ hir. tree_of hir ≡
        chars_or (map tree_of branches.items)
        (all_ranges char_ranges_of (map tree_of branches.items))) }
{
    match char_ranges(alloc, &branches)? {
        Some(ranges) => char_class(alloc, RangeSet::from_ranges(alloc, &ranges)?),
        None => bytes_or(alloc, branches),
    }
}

/// Returns the simplest form of an alternation of `branches`. No branch may itself be an
/// alternation. Returns a single branch unchanged, a class if all branches fit one class, and the
/// empty class of characters if `branches` is empty.
pub(crate) fn choice(mut branches: Vec<Hir>) -> Result<Hir, AllocError>
    ensures { IfOk result (λ hir. tree_of hir ≡ choice_of (map tree_of branches.items)) }
{
    let alloc = *branches.allocator();
    if branches.len() != 1 {
        return chars_or(alloc, branches);
    }
    match branches.pop() {
        Some(only) => Ok(only),
        None => chars_or(alloc, branches),
    }
}

/// Returns the simplest form of an alternation. The branches of inner alternations become branches
/// of the alternation. A single branch is returned unchanged. Branches that are all characters
/// become a class of characters, and branches that are all bytes become a class of bytes.
///
/// # Errors
///
/// Returns `AllocError` if memory runs out.
pub fn alternation(all: Vec<Hir>) -> Result<Hir, AllocError>
    ensures { IfOk result (λ hir. tree_of hir ≡ alternation_of (map tree_of all.items)) }
{
    let mut branches = Vec::new(*all.allocator());
    for branch in all {
        push_branch(&mut branches, branch)?;
    }
    choice(branches)
}

/// The kinds of class that a list of branches fits, that is, the kinds of class that can replace
/// the branches.
#[derive(Clone, Copy)]
pub(crate) struct Fits {
    /// Whether each branch is a class of characters, or a literal of one character.
    chars: bool,
    /// Whether each branch is a class of bytes, or a literal of one byte.
    bytes: bool,
}

impl Fits {
    /// Returns the classes that an empty list of branches fits: both kinds of class.
    pub(crate) fn all() -> Fits
        ensures { result ≡ fits_of [] }
    {
        Fits {
            chars: true,
            bytes: true,
        }
    }

    /// Returns the classes that the branches of `self` and of `other` fit together.
    pub(crate) fn both(self, other: Fits) -> Fits
        ensures { result ≡ record { chars = self.chars && other.chars; bytes = self.bytes && other.bytes } }
    {
        Fits {
            chars: self.chars & other.chars,
            bytes: self.bytes & other.bytes,
        }
    }
}

/// Returns the number of characters of a text.
fn char_count(text: &str) -> usize
    ensures { result ≡ length (chars text.now) }
{
    text.chars().count()
}

/// Returns whether `bytes` are the UTF-8 of one character.
fn is_one_char(bytes: &[u8]) -> bool
    ensures { result ≡ is_some (sole_char bytes.now) }
{
    match str::from_utf8(bytes) {
        Ok(text) => char_count(text) == 1,
        Err(_) => false,
    }
}

/// Returns the classes that the class `class` fits as a branch.
fn fits_of_class(class: &Class) -> Fits
    ensures { result ≡ fits_of (class_tree class.now ∷ []) }
{
    match class {
        Class::Characters(_) => Fits {
            chars: true,
            bytes: false,
        },
        Class::Bytes(_) => Fits {
            chars: false,
            bytes: true,
        },
    }
}

/// Returns the classes that the branches of the simplified tree `branch` fit. The branches of a
/// simplified alternation fit no class, because branches that fit a class are simplified to the
/// class.
fn fits_of(branch: &Hir) -> Fits
    requires { IsSimplest (tree_of branch.now) }
    ensures { result ≡ fits_of (branches_of (tree_of branch.now)) }
{
    match branch {
        Hir::Class(class) => fits_of_class(class),
        Hir::Literal(text) => Fits {
            chars: is_one_char(text),
            bytes: text.len() == 1,
        },
        _ => Fits {
            chars: false,
            bytes: false,
        },
    }
}

/// Appends the branches of the simplified tree `branch` to `branches`. Returns the classes that the
/// appended branches fit.
pub(crate) fn push_fitting(branches: &mut Vec<Hir>, branch: Hir) -> Result<Fits, AllocError>
    requires { IsSimplest (tree_of branch) }
    ensures items { OnOk result (map tree_of branches.new.items ≡
        map tree_of branches.old.items ++ branches_of (tree_of branch)) }
    ensures fits { IfOk result (λ fits. fits ≡ fits_of (branches_of (tree_of branch))) }
{
    let fits = fits_of(&branch);
    push_branch(branches, branch)?;
    Ok(fits)
}

/// Replaces the branches from the index `from` on with one class, unless there is exactly one such
/// branch or `fits` contains no class. `fits` must contain the classes that these branches fit.
/// Returns the classes that the branches from `from` on fit afterwards.
pub(crate) fn join_class(
    alloc: Global,
    branches: &mut Vec<Hir>,
    from: usize,
    fits: Fits,
) -> Result<Fits, AllocError>
    requires within { from ≤ length branches.now.items }
    requires fits { fits ≡ fits_of (map tree_of (drop from branches.now.items)) }
    requires alone { IsFlatAlone (map tree_of (drop from branches.now.items)) }
    ensures items { OnOk result (map tree_of branches.new.items ≡
        map tree_of (take from branches.old.items) ++
        branches_of (choice_of (map tree_of (drop from branches.old.items)))) }
    ensures fits { IfOk result (λ fits. fits ≡
        fits_of (branches_of (choice_of (map tree_of (drop from branches.old.items))))) }
{
    if branches.len() - from == 1 {
        return Ok(fits);
    }
    if !(fits.chars | fits.bytes) {
        return Ok(fits);
    }
    let added = branches.split_off(from)?;
    let class = chars_or(alloc, added)?;
    let fits = fits_of(&class);
    branches.push(class)?;
    Ok(fits)
}
