//! Determines the paths of enums in a file. `logos_show` compares the paths with the name of the
//! enum to show.

ghost use Rattle.std.specs.Prelude.{◌↔◌, IfOk, IsTrue, string_bytes};
ghost use Rattle.logos_rust_file.specs.Views.{EndsWithPath, IsNameAt, IsPathOf};

use crate::finder::FoundEnum;
use logos_lexeme::lexeme::{LexemeKind, lexeme_at};
use logos_token::error::Memory;
use logos_token::token::Delimiter;
use std::alloc::Global;

/// The first lexeme of a text, and the text after the lexeme.
#[derive(Clone, Copy)]
struct Word<'t> {
    kind: LexemeKind,
    text: &'t str,
    rest: &'t str,
}

/// Returns the path of an enum in the file with the text `text`, such as `lexers::Token`. The path
/// consists of the names of the modules around the enum, and of the name of the enum. The name of
/// the enum is empty if the enum has none.
///
/// # Errors
///
/// Returns `Memory` if memory runs out.
pub fn path_of(alloc: Global, text: &str, found: FoundEnum) -> Result<String, Memory>
    ensures { IfOk result (λ path. IsPathOf text.now found (string_bytes path)) }
{
    let mut path = String::new(alloc);
    for level in &levels_of(alloc, before(text, found))? {
        push_level(&mut path, *level)?;
    }
    path.push_str(name_in(text, found))?;
    Ok(path)
}

/// Returns the part of `text` before an enum.
fn before(text: &str, found: FoundEnum) -> &str {
    match text.get(..found.span.from) {
        Some(before) => before,
        None => "",
    }
}

/// Returns the name of an enum, or an empty text if the enum has no name.
fn name_in(text: &str, found: FoundEnum) -> &str
    ensures { IsNameAt text.now found.name result.now }
{
    let Some(span) = found.name else {
        return "";
    };
    let Some((front, _)) = text.split_at_checked(span.to) else {
        return "";
    };
    match front.split_at_checked(span.from) {
        Some((_, name)) => name,
        None => "",
    }
}

/// Returns whether `path` ends with `::` followed by the path `end`.
pub fn ends_with_path(path: &str, end: &str) -> bool
    ensures { IsTrue result ↔ EndsWithPath path.now end.now }
{
    match path.as_bytes().strip_suffix(end.as_bytes()) {
        Some(front) => front.ends_with(b"::"),
        None => false,
    }
}

/// Appends `level`, the name of a module, and `::` to `path`. Appends nothing if the name is empty.
fn push_level(path: &mut String, level: &str) -> Result<(), Memory> {
    if !level.is_empty() {
        path.push_str(level)?;
        path.push_str("::")?;
    }
    Ok(())
}

/// Returns the names of the modules whose braces are open at the end of a text, from the outermost
/// to the innermost module. An empty text represents each open brace that does not begin a module.
fn levels_of<'t>(alloc: Global, text: &'t str) -> Result<Vec<&'t str>, Memory> {
    let mut levels = Vec::new(alloc);
    let mut rest = text;
    let mut words = ("", "");
    for _ in 0..text.len() {
        let Some(word) = first_word(rest) else {
            return Ok(levels);
        };
        note_brace(&mut levels, words, word)?;
        words = words_after(words, word);
        rest = word.rest;
    }
    Ok(levels)
}

/// Returns the first lexeme of a text, or `None` if the text is empty or begins with invalid Rust.
fn first_word<'t>(text: &'t str) -> Option<Word<'t>> {
    if text.is_empty() || !text.is_char_boundary(0) {
        return None;
    }
    let Ok((kind, to)) = lexeme_at(text, 0) else {
        return None;
    };
    let (text, rest) = text.split_at_checked(to)?;
    Some(Word { kind, text, rest })
}

/// Returns the last two lexemes up to and including `word`. `words` contains the last two lexemes
/// before `word`. Gaps and documentation do not count.
fn words_after<'t>(words: (&'t str, &'t str), word: Word<'t>) -> (&'t str, &'t str) {
    match word.kind {
        LexemeKind::Gap | LexemeKind::Doc => words,
        _ => (words.1, word.text),
    }
}

/// Appends an entry to `levels` if `word` is an opening brace, and removes the last entry if `word`
/// is a closing brace. The entry is the name of the module whose body the brace begins, or an empty
/// text for any other brace. `words` contains the last two lexemes before `word`.
fn note_brace<'t>(
    levels: &mut Vec<&'t str>,
    words: (&'t str, &'t str),
    word: Word<'t>,
) -> Result<(), Memory> {
    match word.kind {
        LexemeKind::Opening(Delimiter::Brace) => {
            levels.push(if words.0 == "mod" { words.1 } else { "" })?;
        }
        LexemeKind::Closing(Delimiter::Brace) => {
            let _ = levels.pop();
        }
        _ => {}
    }
    Ok(())
}
