//! Reads a whole pattern. `logos_pattern` calls `parse` once for each pattern.

ghost use Rattle.std.specs.Prelude.{◌≡◌, ℕ, List, ◌∷◌, [], chars, IfOk, IfErr, MatchResult};
ghost use Rattle.logos_syntax.specs.Views.{Flags as FlagsValue, Text, Tree, tree_of, IsTooDeep, Spells, IsFound, Refuses, start, StopsText, IfDeepText, HasNames, state_view, IsStopOf, ReadsToken, ReadsSimple};

use crate::bracket::parser::{read_bracket, stop_for};
use crate::groups::Groups;
use crate::names::GroupNames;
use logos_hir::hir::Hir;
use logos_pattern_tokens::error::{Fault, Kind, PatternError, Stop};
use logos_pattern_tokens::reader::token_at;
use logos_pattern_tokens::token::Flags;
use std::alloc::{AllocError, Global};

/// The state of a pattern parser: the open groups, and the group names that have been read so far.
#[derive(Drop)]
pub(crate) struct PatternParser {
    groups: Groups,
    names: GroupNames,
}

impl PatternParser {
    /// Returns a parser at the start of a text of `left` characters. The flags `flags` are on at
    /// this point.
    fn new(alloc: Global, flags: Flags, left: usize) -> PatternParser
        ensures groups { state_view result.groups ≡ start flags }
        ensures names { HasNames result.names [] }
    {
        PatternParser {
            groups: Groups::new(alloc, flags, left),
            names: GroupNames::new(alloc),
        }
    }

    /// Returns the stop for the fault `kind` of a repetition operator with counts. `left` is the
    /// number of characters from the operator's brace to the end of the text.
    ///
    /// If there is nothing to repeat, the fault of the stop is `NothingToRepeat`, and is at the
    /// brace. Otherwise, the fault is `kind`, and is at the start of the part that the operator
    /// would repeat, or at the brace if `kind` is `Unclosed`.
    fn stop(&self, fault: Fault, text: &[char]) -> Stop
        ensures { IsStopOf fault result }
    {
        match (fault, text) {
            (Fault::Syntax(kind), ['(', ..]) => Stop::Syntax {
                kind: group_kind(kind, text),
                left: text.len(),
            },
            (Fault::Syntax(kind), ['{', ..]) => self.count_stop(kind, text.len()),
            (fault, _) => stop_for(self.groups.flags(), fault, text),
        }
    }

    /// Returns the stop for the fault `kind` of a repetition operator with counts. `left` is the
    /// number of characters from the operator's brace to the end of the text. The fault is at the
    /// start of the part that the operator would repeat. If the brace is not closed, the fault is
    /// at the brace. If there is nothing to repeat, the fault is `NothingToRepeat` at the brace.
    fn count_stop(&self, kind: Kind, left: usize) -> Stop
        ensures { IsStopOf (Fault.Syntax kind) result }
    {
        match (kind, self.groups.repeated()) {
            (_, None) => Stop::Syntax {
                kind: Kind::NothingToRepeat,
                left,
            },
            (Kind::Unclosed, _) => Stop::Syntax { kind, left },
            (_, Some(left)) => Stop::Syntax { kind, left },
        }
    }

    /// Reads a bracket from the text after its `[`, and adds the bracket to the innermost group.
    /// Returns the rest of the text.
    ///
    /// # Errors
    ///
    /// Returns:
    ///
    /// - the first fault of the bracket, from left to right;
    /// - `LimitPatternNesting` if the bracket is nested too deeply;
    /// - `Memory` if memory runs out.
    fn bracket<'t>(&mut self, alloc: Global, inside: &'t [char]) -> Result<&'t [char], Stop>
        ensures { (seen : List Text) → HasNames self.old.names seen →
            ReadsToken (state_view self.old.groups) seen (91 ∷ inside.now) result
            (state_view self.new.groups) self.new.names }
    {
        let left = inside.len().saturating_add(1);
        let flags = self.groups.flags();
        let (found, rest) = match read_bracket(alloc, flags, self.groups.depth(), inside) {
            Ok(found) => found,
            Err(stop) => return Err(stop),
        };
        self.groups.class(alloc, found, left)?;
        Ok(rest)
    }

    /// Reads a token that does not begin a bracket, and adds the token to the groups. Returns the
    /// rest of the text.
    ///
    /// # Errors
    ///
    /// Returns:
    ///
    /// - the fault of the token, if the token has a fault;
    /// - `LimitPatternNesting` if the token is nested too deeply;
    /// - `Memory` if memory runs out.
    fn simple<'t>(&mut self, alloc: Global, text: &'t [char]) -> Result<&'t [char], Stop>
        ensures { (seen : List Text) → HasNames self.old.names seen →
            ReadsSimple (state_view self.old.groups) seen text.now result
            (state_view self.new.groups) self.new.names }
    {
        let (token, rest) = match token_at(alloc, text) {
            Ok(found) => found,
            Err(fault) => return Err(self.stop(fault, text)),
        };
        if !self.names.admit(alloc, token)? {
            return Err(Stop::Syntax {
                kind: Kind::GroupSyntax,
                left: text.len(),
            });
        }
        if let Err(stop) = self.groups.step(alloc, token, text.len()) {
            return Err(stop);
        }
        Ok(rest)
    }

    /// Reads the token or the bracket at the front of the text, and adds it to the groups. Returns
    /// the rest of the text.
    ///
    /// # Errors
    ///
    /// Returns:
    ///
    /// - the first fault of the token or bracket, from left to right;
    /// - `LimitPatternNesting` if the token or bracket is nested too deeply;
    /// - `Memory` if memory runs out.
    fn token<'t>(&mut self, alloc: Global, text: &'t [char]) -> Result<&'t [char], Stop>
        ensures { (seen : List Text) → HasNames self.old.names seen →
            ReadsToken (state_view self.old.groups) seen text.now result
            (state_view self.new.groups) self.new.names }
    {
        let [c, inside @ ..] = text else {
            return self.simple(alloc, text);
        };
        if *c == '[' {
            return self.bracket(alloc, inside);
        }
        self.simple(alloc, text)
    }
}

/// Returns `GroupSyntax` if `text` begins with the opening of a look-around group, `(?=` or `(?!`,
/// and `kind` otherwise.
fn group_kind(kind: Kind, text: &[char]) -> Kind {
    match text {
        ['(', '?', '=' | '!', ..] => Kind::GroupSyntax,
        _ => kind,
    }
}

/// Reads the whole text as a pattern, and returns the tree of the pattern.
///
/// # Errors
///
/// Returns:
///
/// - the first fault of the text, from left to right;
/// - `LimitPatternNesting` if the text is nested too deeply;
/// - `Memory` if memory runs out.
fn run(alloc: Global, flags: Flags, text: &[char]) -> Result<Hir, Stop>
    ensures found { IfOk result (λ hir. IsFound flags text.now (tree_of hir)) }
    ensures stopped { IfErr result (StopsText flags text.now) }
    ensures deep { IfErr result (IfDeepText flags text.now) }
{
    let mut parser = PatternParser::new(alloc, flags, text.len());
    let mut rest = text;
    while !rest.is_empty() {
        rest = match parser.token(alloc, rest) {
            Ok(after) => after,
            Err(stop) => return Err(stop),
        };
    }
    parser.groups.finish(alloc)
}

/// Returns the number of bytes in the UTF-8 encoding of `text`.
fn byte_len(text: &[char]) -> usize {
    let mut len: usize = 0;
    for c in text {
        len = len.saturating_add(c.len_utf8());
    }
    len
}

/// Returns the error for a fault that is `left` characters before the end of `text`.
fn syntax_at(text: &[char], kind: Kind, left: usize) -> PatternError
    ensures { (at : ℕ) × (result ≡ PatternError.Syntax kind at) }
{
    let before = text.len().saturating_sub(left);
    PatternError::Syntax {
        kind,
        at: byte_len(&text[..before]),
    }
}

/// Returns the error for the stop `stop` in the text `text`.
fn error_at(text: &[char], stop: Stop) -> PatternError
    ensures refused { (flags : FlagsValue) (t : Text) → StopsText flags t stop →
        Refuses flags t result }
    ensures deep { (flags : FlagsValue) (t : Text) → IfDeepText flags t stop →
        result ≡ PatternError.LimitPatternNesting → IsTooDeep flags t }
{
    match stop {
        Stop::Syntax { kind, left } => syntax_at(text, kind, left),
        Stop::LimitPatternNesting => PatternError::LimitPatternNesting,
        Stop::Memory => PatternError::Memory,
    }
}

/// Returns the characters of the text `regex`.
fn characters(alloc: Global, regex: &str) -> Result<Vec<char>, AllocError>
    ensures { IfOk result (λ v. v.items ≡ chars regex.now) }
{
    regex.chars().collect(alloc)
}

/// Reads a pattern, and returns its tree. `flags` are the flags that are on at the start of the
/// pattern.
///
/// # Errors
///
/// Returns:
///
/// - `Syntax`, with the kind and the byte offset of the fault, if the text breaks the grammar;
/// - `LimitPatternNesting` if groups, brackets and operators are nested more than 250 deep;
/// - `Memory` if memory runs out.
pub fn parse(alloc: Global, flags: Flags, regex: &str) -> Result<Hir, PatternError>
    ensures found { IfOk result (λ hir. IsFound flags (chars regex.now) (tree_of hir)) }
    // A text that is refused has no tree, or only one that is nested too deeply, or memory ran out.
    ensures refused { IfErr result (Refuses flags (chars regex.now)) }
    // In some prefix of a text that is refused as too deep, more than 250 groups, brackets and
    // operators are around one point.
    ensures deep { IfErr result (λ e. e ≡ PatternError.LimitPatternNesting →
        IsTooDeep flags (chars regex.now)) }
{
    let text = characters(alloc, regex)?;
    match run(alloc, flags, &text) {
        Ok(hir) => Ok(hir),
        Err(stop) => Err(error_at(&text, stop)),
    }
}

/// A text has at most one tree under given flags.
pub fn one_tree()
    ensures { (flags : FlagsValue) (text : Text) (a b : Tree) (m n : ℕ) → Spells flags text a m →
        Spells flags text b n → (a ≡ b) × (m ≡ n) }
{}
