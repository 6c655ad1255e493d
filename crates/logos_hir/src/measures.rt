//! Computes measures of trees, such as the default priority of a leaf, without allocating memory.
//! Called by `logos_pattern` for each pattern that has been read.

ghost use Rattle.std.specs.Prelude.{◌≡◌, ℕ, ◌+◌, ◌*◌, min, nat_lt, length, map};
ghost use Rattle.logos_hir.specs.Views.{list_all, chars, is_utf8, pointwise, trees, pairs, tree_of, class_tree, value, sum_of_values, least_value, text_size, fitted, is_same, is_text, all_text, is_all, is_dot, has_greedy_dot, some_greedy_dot};

use crate::hir::{Class, Hir, Range};
use crate::sets::LAST_CHAR;

/// The first number after the ASCII characters.
const ASCII: u32 = 128;

/// Returns the number of characters of a text.
fn char_count(text: &str) -> usize
    ensures { result ≡ length (chars text.now) }
{
    text.chars().count()
}

/// Returns the number of characters of `bytes` if they are UTF-8, otherwise the number of bytes.
fn text_size(bytes: &[u8]) -> usize
    ensures { result ≡ text_size bytes.now }
{
    match str::from_utf8(bytes) {
        Ok(text) => char_count(text),
        Err(_) => bytes.len(),
    }
}

// In the following functions `None` is a number that does not fit `usize`.

/// Returns the product of `count` and `value`, or `None` if `value` is `None` or the product does
/// not fit in a `usize`. The product with 0 is 0, even if `value` is `None`.
fn times(count: u32, value: Option<usize>) -> Option<usize>
    ensures { (n : ℕ) → value ≡ fitted n → result ≡ fitted (count * n) }
{
    if count == 0 {
        return Some(0);
    }
    (count as usize).checked_mul(value?)
}

/// Returns the sum of two values, or `None` if one of them is `None` or the sum does not fit in a
/// `usize`.
fn plus(a: Option<usize>, b: Option<usize>) -> Option<usize>
    ensures { (m n : ℕ) → a ≡ fitted m → b ≡ fitted n → result ≡ fitted (m + n) }
{
    a?.checked_add(b?)
}

/// Returns the lesser of two values. `None` is greater than any number.
fn least(a: Option<usize>, b: Option<usize>) -> Option<usize>
    ensures { (m n : ℕ) → a ≡ fitted m → b ≡ fitted n → result ≡ fitted (min m n) }
{
    match (a, b) {
        (Some(a), Some(b)) => Some(a.min(b)),
        (None, b) => b,
        (a, None) => a,
    }
}

/// Returns the default priority of a tree, or `None` if the priority does not fit in a `usize`.
#[cycle(priority)]
pub fn priority(hir: &Hir) -> Option<usize>
    ensures { result ≡ fitted (value (tree_of hir.now)) }
{
    match hir {
        Hir::Empty | Hir::Look(_) => Some(0),
        Hir::Literal(bytes) => 2usize.checked_mul(text_size(bytes)),
        Hir::Class(_) => Some(2),
        Hir::Repetition { min, sub, .. } => times(*min, priority(sub)),
        Hir::Capture(sub) => priority(sub),
        Hir::Concat(parts) => sum_of_priorities(parts),
        Hir::Alternation(branches) => least_priority(branches),
    }
}

/// Returns the priority of a concatenation: the sum of the priorities of `parts`, or `None` if a
/// priority or the sum does not fit in a `usize`.
#[cycle(priority)]
fn sum_of_priorities(parts: &[Hir]) -> Option<usize>
    ensures { result ≡ fitted (sum_of_values (trees (map tree_of parts.now))) }
{
    let mut sum = Some(0);
    for part in parts {
        sum = plus(sum, priority(part));
    }
    sum
}

/// Returns the priority of an alternation: the least priority of `branches`, 0 if there are no
/// branches, or `None` if no priority fits in a `usize`.
#[cycle(priority)]
fn least_priority(branches: &[Hir]) -> Option<usize>
    ensures { result ≡ fitted (least_value (trees (map tree_of branches.now))) }
{
    let Some((first, others)) = branches.split_first() else {
        return Some(0);
    };
    let mut best = priority(first);
    for other in others {
        best = least(best, priority(other));
    }
    best
}

/// Returns whether each literal of a tree is UTF-8, and each of its classes of bytes contains only
/// ASCII bytes.
pub fn is_utf8(hir: &Hir) -> bool
    ensures { result ≡ is_text (tree_of hir.now) }
{
    match hir {
        Hir::Empty | Hir::Look(_) | Hir::Class(Class::Characters(_)) => true,
        Hir::Literal(bytes) => are_utf8(bytes),
        Hir::Class(Class::Bytes(ranges)) => are_ascii(ranges),
        Hir::Repetition { sub, .. } | Hir::Capture(sub) => is_utf8(sub),
        Hir::Concat(parts) | Hir::Alternation(parts) => {
            for part in parts {
                if !is_utf8(part) {
                    return false;
                }
            }
            true
        }
    }
}

/// Returns whether the bytes are UTF-8.
fn are_utf8(bytes: &[u8]) -> bool
    ensures { result ≡ is_utf8 bytes.now }
{
    match str::from_utf8(bytes) {
        Ok(_) => true,
        Err(_) => false,
    }
}

/// Returns whether the last number of each range is ASCII.
fn are_ascii(ranges: &[Range]) -> bool
    ensures { result ≡ list_all (λ r. nat_lt r.1 ASCII) (pairs ranges.now) }
{
    for range in ranges {
        if range.last >= ASCII {
            return false;
        }
    }
    true
}

/// Returns whether two lists of ranges are equal.
fn same(a: &[Range], b: &[Range]) -> bool
    ensures { result ≡ pointwise is_same (pairs a.now) (pairs b.now) }
{
    a == b
}

/// Returns whether the ranges are the canonical ranges of all numbers from 0 to `last`, of all but
/// LF, or of all but CR and LF.
fn is_all(last: u32, ranges: &[Range]) -> bool
    ensures { result ≡ is_all last (pairs ranges.now) }
{
    let all = [Range::new(0, last)];
    let but_lf = [Range::new(0, 9), Range::new(11, last)];
    let but_line_ends = [Range::new(0, 9), Range::new(11, 12), Range::new(14, last)];
    same(ranges, &all) | same(ranges, &but_lf) | same(ranges, &but_line_ends)
}

/// Returns whether the tree is a class that a dot can denote.
fn is_dot(hir: &Hir) -> bool
    ensures { result ≡ is_dot (tree_of hir.now) }
{
    match hir {
        Hir::Class(Class::Characters(ranges)) => is_all(LAST_CHAR, ranges),
        Hir::Class(Class::Bytes(ranges)) => is_all(255, ranges),
        _ => false,
    }
}

/// Returns whether a tree contains a greedy, unbounded repetition of a dot. A dot is a class of all
/// characters or of all bytes, of all but LF, or of all but CR and LF. Searches captures,
/// concatenations and alternations, but not the bodies of repetitions.
pub fn check_for_greedy_all(hir: &Hir) -> bool
    ensures { result ≡ has_greedy_dot (tree_of hir.now) }
{
    match hir {
        Hir::Empty | Hir::Look(_) | Hir::Literal(_) | Hir::Class(_) => false,
        Hir::Repetition {
            max,
            greedy,
            sub,
            ..
        } => max.is_none() && *greedy && is_dot(sub),
        Hir::Capture(sub) => check_for_greedy_all(sub),
        Hir::Concat(parts) | Hir::Alternation(parts) => {
            for part in parts {
                if check_for_greedy_all(part) {
                    return true;
                }
            }
            false
        }
    }
}
