//! Defines `Counts`, which contains the number of items of each leaf and the number of errors. Used
//! by `notes` and `logos_items`.

ghost use Rattle.std.specs.Prelude.{◌≡◌, ◌<◌, length, option_map};
ghost use Rattle.logos_answers.specs.Imports.{Gains, code_variant, count_line, next_shares_variant, is_same_name, line_after, sum_after, time_line, title_line, variant_line};

use crate::names::variant_of;
use logos_code::code::CodeLeaf;
use logos_page::Page;
use std::alloc::{AllocError, Global};

/// The number of items of each leaf, and the number of errors.
#[derive(Drop)]
pub struct Counts {
    by_leaf: Vec<usize>,
    errors: usize,
}

/// The length of an input in bytes, and the time taken to lex the input and write its items.
#[derive(Clone, Copy)]
pub struct Totals {
    pub bytes: usize,
    /// The time in milliseconds, or `None` if there is no clock.
    pub passed: Option<usize>,
}

impl Counts {
    ghost use Rattle.std.specs.Prelude.{◌≡◌, IfOk, replicate, slice_index};
    ghost use Rattle.logos_answers.specs.Imports.{CountsItem, Gains, ends_text, one_more, totals_text, variant_lines};

    /// Returns counts that are all zero, for `leaves` leaves.
    ///
    /// # Errors
    ///
    /// Returns `AllocError` if memory runs out.
    pub fn new(alloc: Global, leaves: usize) -> Result<Counts, AllocError>
        ensures { IfOk result (λ counts.
            (counts.by_leaf.items ≡ replicate leaves 0) × (counts.errors ≡ 0)) }
    {
        let by_leaf = vec![in alloc; 0; leaves]?;
        Ok(Counts { by_leaf, errors: 0 })
    }

    /// Adds 1 to the number of items of `leaf`, saturating at `usize::MAX`. Does nothing if there
    /// is no such leaf.
    #[inline(always)]
    pub fn count_token(&mut self, leaf: usize)
        ensures leaves { CountsItem leaf self.old.by_leaf.items self.new.by_leaf.items }
        ensures errors { self.new.errors ≡ self.old.errors }
    {
        if leaf < self.by_leaf.len() {
            self.by_leaf[leaf] = self.by_leaf[leaf].saturating_add(1);
        }
    }

    /// Adds 1 to the number of errors, saturating at `usize::MAX`.
    pub fn count_error(&mut self)
        ensures leaves { self.new.by_leaf.items ≡ self.old.by_leaf.items }
        ensures errors { self.new.errors ≡ one_more self.old.errors }
    {
        self.errors = self.errors.saturating_add(1);
    }

    /// Appends the enum's name `name`, the number of items of each variant, the number of errors,
    /// and the length and the time in `totals`, each on its own line. Leaves out variants without
    /// items, and the time if it is unknown. The leaves of each variant must be consecutive.
    pub fn push_totals(&self, page: &mut Page, name: &str, leaves: &[CodeLeaf<'_>], totals: Totals)
        ensures { Gains (totals_text name.now leaves.now self.now.by_leaf.items self.now.errors
            totals.bytes totals.passed) page.old page.new }
    {
        push_title(page, name);
        self.push_variants(page, leaves);
        self.push_ends(page, totals);
    }

    /// Appends a line for each variant that has items.
    fn push_variants(&self, page: &mut Page, leaves: &[CodeLeaf<'_>])
        ensures { Gains (variant_lines leaves.now self.now.by_leaf.items) page.old page.new }
    {
        let mut sum: usize = 0;
        for number in 0..leaves.len() {
            sum = push_sum(
                page,
                leaves,
                number,
                sum.saturating_add(self.of_leaf(number)),
            );
        }
    }

    /// Appends the number of errors, and the length and the time in `totals`, each on its own line.
    /// Leaves out the time if it is unknown.
    fn push_ends(&self, page: &mut Page, totals: Totals)
        ensures { Gains (ends_text self.now.errors totals.bytes totals.passed) page.old page.new }
    {
        push_count(page, "errors", self.errors);
        push_count(page, "bytes", totals.bytes);
        push_time(page, totals.passed);
    }

    /// Returns the number of items of the leaf at the index `number`, or 0 if there is no such
    /// leaf.
    pub(crate) fn of_leaf(&self, number: usize) -> usize
        ensures { result ≡ slice_index self.now.by_leaf.items number }
    {
        match self.by_leaf.get(number) {
            Some(count) => *count,
            None => 0,
        }
    }
}

/// Appends an empty line and a line with the enum's name `name`.
fn push_title(page: &mut Page, name: &str)
    ensures { Gains (title_line name.now) page.old page.new }
{
    page.push("\nenum ");
    page.push(name);
    page.push("\n");
}

/// Appends the line of a variant if the leaf at the index `number` is its last leaf and the variant
/// has items. `sum` is the number of items of the variant's leaves up to and including this leaf.
/// Returns 0 if the leaf is the last leaf of a variant or a skip, and `sum` otherwise.
fn push_sum(page: &mut Page, leaves: &[CodeLeaf<'_>], number: usize, sum: usize) -> usize
    requires { number < length leaves.now }
    ensures line { Gains (line_after leaves.now number sum) page.old page.new }
    ensures rest { result ≡ sum_after leaves.now number sum }
{
    if next_shares_variant(leaves, number) {
        return sum;
    }
    push_variant(page, code_name_at(leaves, number), sum);
    0
}

/// Returns whether the leaf at the index `number` and the next leaf share a variant.
fn next_shares_variant(leaves: &[CodeLeaf<'_>], number: usize) -> bool
    requires { number < length leaves.now }
    ensures { result ≡ next_shares_variant leaves.now number }
{
    is_same_name(
        code_name_at(leaves, number),
        code_name_at(leaves, number + 1),
    )
}

/// Returns whether `one` and `other` are equal variant names. Returns `false` if either is `None`,
/// which denotes a skip.
fn is_same_name(one: Option<&str>, other: Option<&str>) -> bool
    ensures { result ≡ is_same_name (option_map (λ name. name.now) one.entry)
        (option_map (λ name. name.now) other.entry) }
{
    match (one, other) {
        (Some(one), Some(other)) => one == other,
        _ => false,
    }
}

/// Returns the variant name of the leaf at the index `number`, or `None` if the leaf is a skip or
/// does not exist.
pub fn code_name_at<'l>(leaves: &'l [CodeLeaf<'_>], number: usize) -> Option<&'l str>
    ensures { option_map (λ name. name.now) result ≡ code_variant leaves.now number }
{
    match leaves.get(number) {
        Some(leaf) => variant_of(&leaf.kind),
        None => None,
    }
}

/// Appends the line of the variant `name` with its number of items, `count`. Appends nothing if
/// `count` is 0 or `name` is `None`.
fn push_variant(page: &mut Page, name: Option<&str>, count: usize)
    ensures { Gains (variant_line (option_map (λ name. name.now) name.entry) count)
        page.old page.new }
{
    let Some(name) = name else {
        return;
    };
    if count > 0 {
        page.push("  ");
        push_count(page, name, count);
    }
}

/// Appends a line with a name and a number.
fn push_count(page: &mut Page, name: &str, count: usize)
    ensures { Gains (count_line name.now count) page.old page.new }
{
    page.push(name);
    page.push(": ");
    page.push_number(count);
    page.push("\n");
}

/// Appends the line with the elapsed time in milliseconds, or nothing if `passed` is `None`.
fn push_time(page: &mut Page, passed: Option<usize>)
    ensures { Gains (time_line passed) page.old page.new }
{
    if let Some(passed) = passed {
        push_count(page, "milliseconds", passed);
    }
}
