//! `push_callbacks` appends a note about variants whose callbacks are written differently in two
//! lexers. Called by `logos_replies` for `--compare`.

use crate::difference::NamedLexer;
use crate::names::variant_of;
use indexmap::IndexSet;
use logos_page::Page;
use logos_pattern::leaf::Leaf;
use std::alloc::{AllocError, Global};

/// Sets of the variants and the callbacks of a lexer.
#[derive(Drop)]
struct Known<'l> {
    /// The names of the lexer's variants, and `skip` if the lexer has skips.
    variants: IndexSet<&'l str>,
    /// For each leaf, its name in `variants` with the text of its callback. The text is empty if
    /// the leaf has no callback.
    callbacks: IndexSet<(&'l str, &'l str)>,
}

/// Appends a note that names each variant that occurs in two lexers with differently written
/// callbacks. Skips count as one variant, `skip`. Appends nothing if there is no such variant.
///
/// # Errors
///
/// Returns `AllocError` if memory runs out. Then nothing was appended.
pub fn push_callbacks<'l>(
    alloc: Global,
    page: &mut Page,
    one: NamedLexer<'l, '_>,
    other: NamedLexer<'l, '_>,
) -> Result<(), AllocError> {
    let known = known_of(alloc, one)?;
    push_differing(alloc, page, &known, other)
}

/// Appends the note about callbacks that differ between the lexer of `known` and the lexer `other`.
fn push_differing<'l>(
    alloc: Global,
    page: &mut Page,
    known: &Known<'l>,
    other: NamedLexer<'l, '_>,
) -> Result<(), AllocError> {
    let other = known_of(alloc, other)?;
    push_names_of(alloc, page, known, &other)
}

/// Appends the note about callbacks that differ between the lexers of `known` and `other`.
fn push_names_of<'l>(
    alloc: Global,
    page: &mut Page,
    known: &Known<'l>,
    other: &Known<'l>,
) -> Result<(), AllocError> {
    let mut differing = IndexSet::new(alloc);
    add_differing(&mut differing, known, other)?;
    add_differing(&mut differing, other, known)?;
    push_note(page, differing.as_slice());
    Ok(())
}

/// Returns the variants of a lexer and the callbacks of its leaves.
fn known_of<'l>(alloc: Global, one: NamedLexer<'l, '_>) -> Result<Known<'l>, AllocError> {
    let mut known = Known {
        variants: IndexSet::new(alloc),
        callbacks: IndexSet::new(alloc),
    };
    for leaf in one.graph.leaves() {
        add_leaf(&mut known, name_of(leaf), callback_of(one.text, leaf))?;
    }
    Ok(known)
}

/// Adds a leaf of the variant `name` with the callback `callback` to `known`.
fn add_leaf<'l>(known: &mut Known<'l>, name: &'l str, callback: &'l str) -> Result<(), AllocError> {
    match known.variants.insert_full(name) {
        Ok(_) => {}
        Err(_) => return Err(AllocError),
    }
    match known.callbacks.insert_full((name, callback)) {
        Ok(_) => Ok(()),
        Err(_) => Err(AllocError),
    }
}

/// Returns the name of the variant of a leaf, or `skip` if the leaf is a skip.
fn name_of<'l>(leaf: &'l Leaf<'_>) -> &'l str {
    match variant_of(&leaf.kind) {
        Some(name) => name,
        None => "skip",
    }
}

/// Returns the callback of a leaf as written in `text`, the text of the leaf's enum, or an empty
/// text if the leaf has no callback.
fn callback_of<'l>(text: &'l str, leaf: &Leaf<'_>) -> &'l str {
    let Some(callback) = &leaf.callback else {
        return "";
    };
    let span = callback.span();
    match text.get(span.from..span.to) {
        Some(written) => written,
        None => "",
    }
}

/// Adds to `differing` each variant that is in `known` and in `other`, and that has a callback in
/// `known` that the variant does not have in `other`.
fn add_differing<'l>(
    differing: &mut IndexSet<&'l str>,
    known: &Known<'l>,
    other: &Known<'l>,
) -> Result<(), AllocError> {
    for pair in known.callbacks.as_slice() {
        add_if_differing(differing, *pair, other)?;
    }
    Ok(())
}

/// Adds the variant of `pair` to `differing` if `other` has the variant but not the pair. The pair
/// consists of a variant and a callback.
fn add_if_differing<'l>(
    differing: &mut IndexSet<&'l str>,
    pair: (&'l str, &'l str),
    other: &Known<'l>,
) -> Result<(), AllocError> {
    if !other.variants.contains(&pair.0) | other.callbacks.contains(&pair) {
        return Ok(());
    }
    match differing.insert_full(pair.0) {
        Ok(_) => Ok(()),
        Err(_) => Err(AllocError),
    }
}

/// Appends the note that names `variants`, or nothing if `variants` is empty.
fn push_note(page: &mut Page, variants: &[&str]) {
    if variants.is_empty() {
        return;
    }
    page.push("note: the callbacks of ");
    push_names(page, variants);
    page.push(" are written in another way: what they do is not compared\n");
}

/// Appends names in backticks, separated by commas.
fn push_names(page: &mut Page, names: &[&str]) {
    for number in 0..names.len() {
        page.push(if number == 0 { "`" } else { ", `" });
        page.push(names[number]);
        page.push("`");
    }
}
