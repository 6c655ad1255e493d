//! The type `Pattern`, whose functions read patterns from the texts of literals. `logos_leaf` makes
//! a pattern for each leaf and for each subpattern.

ghost use Rattle.std.specs.Prelude.{◌≡◌, ◌≤◌, ◌++◌, ℕ, chars, IfOk, IfErr, IsTrue, Some};
ghost use Rattle.logos_pattern.specs.Views.{tree_of, literal_tree, value, fitted, is_text, has_greedy_dot, IsTooDeep, IsSpelled, IsFound, Refuses, first_flags, pattern_tree, source_of, is_token, pattern_text, token_of, held_bytes, literal_value};
ghost use Rattle.logos_pattern_tokens.specs.declared.error.PatternError.TheVariants as errors;

pub mod error;
pub mod hir;
pub mod literal;

pub use error::{Kind, PatternError};
pub use hir::{Class, Hir, Look, Range};
pub use literal::Literal;
pub use logos_hir::laws::{lazy_and_greedy, looks_hold_at_the_end};
use logos_hir::measures;
use logos_pattern_tokens::token::Flags;
pub use logos_syntax::parser::one_tree;
use logos_syntax::parser::parse;
use logos_token::error::Memory;
use std::alloc::{AllocError, Global};
use std::fmt;

/// The maximum depth to which groups, brackets and operators can be nested in a pattern.
pub const MAX_NESTING: usize = 250;

/// A pattern, consisting of a tree and the literal from which the tree was read.
#[derive(Drop)]
pub struct Pattern<'s> {
    is_literal: bool,
    hir: Hir,
    source: &'s str,
}

impl<'s> Pattern<'s> {
    /// Reads the pattern that `regex` spells.
    ///
    /// At the start of `regex`, the flag `u` is on if `unicode` is `true`, the flag `i` is on if
    /// `ignore_case` is `true`, and all other flags are off. The pattern stores `source`, the text
    /// of its literal in the source, and `is_literal`, which is `true` for the literal of a
    /// `token`.
    ///
    /// # Errors
    ///
    /// Returns:
    ///
    /// - `Syntax` if `regex` violates the grammar. The error contains the kind of the fault and the
    ///   byte offset of the fault in `regex`.
    /// - `LimitPatternNesting` if groups, brackets and operators are nested more than 250 deep.
    /// - `Memory` if memory runs out.
    pub fn compile(
        alloc: Global,
        is_literal: bool,
        regex: &str,
        source: &'s str,
        unicode: bool,
        ignore_case: bool,
    ) -> Result<Pattern<'s>, PatternError>
        // The tree that is returned is the one that the text spells.
        ensures found { IfOk result (λ p. IsFound (first_flags unicode ignore_case)
            (chars regex.now) (tree_of p.hir)) }
        // A text that is refused has no tree, or only one that is nested too deeply, or memory ran
        // out.
        ensures refused { IfErr result (Refuses (first_flags unicode ignore_case)
            (chars regex.now)) }
        // In some prefix of a text that is refused as too deep, more than 250 groups, brackets and
        // operators are around one point.
        ensures deep { IfErr result (λ e. e ≡ errors.LimitPatternNesting →
            IsTooDeep (first_flags unicode ignore_case) (chars regex.now)) }
        // A text that has a tree within the limit is read.
        ensures complete { (depth : ℕ) → depth ≤ MAX_NESTING →
            IsSpelled (first_flags unicode ignore_case) (chars regex.now) depth →
            IfErr result (λ e. e ≡ errors.Memory) }
        ensures same { IfOk result (λ p. (p.is_literal ≡ is_literal) ×
            (p.source.now ≡ source.now)) }
    {
        let flags = Flags {
            unicode,
            ignore_case,
            multi_line: false,
            dot_all: false,
            swap_greed: false,
            crlf: false,
        };
        let hir = match parse(alloc, flags, regex) {
            Ok(hir) => hir,
            Err(error) => return Err(error),
        };
        Ok(Pattern {
            is_literal,
            hir,
            source,
        })
    }

    /// Returns the pattern of a `token`. The pattern matches exactly the bytes of the literal's
    /// value.
    ///
    /// # Errors
    ///
    /// Returns `Memory` if memory runs out.
    pub fn compile_lit(alloc: Global, literal: &Literal<'s>) -> Result<Pattern<'s>, Memory>
        ensures tree { IfOk result (λ pattern. pattern_tree pattern ≡
            literal_tree (held_bytes literal.now)) }
        ensures source { IfOk result (λ pattern. source_of pattern ≡
            (token_of literal.now).text.now) }
        ensures literal { IfOk result (λ pattern. IsTrue (is_token pattern)) }
    {
        let hir = literal_hir(alloc, literal.value())?;
        Ok(Pattern {
            is_literal: true,
            hir,
            source: literal.token().text,
        })
    }

    /// Returns the default priority of a `regex` or `skip`, computed from the pattern's tree.
    /// Returns `None` if the priority does not fit `usize`. The function `token_priority` returns
    /// the default priority of a `token`.
    pub fn priority(&self) -> Option<usize>
        ensures { result ≡ fitted (value (pattern_tree self.now)) }
    {
        measures::priority(&self.hir)
    }

    /// Returns whether the pattern contains a greedy repetition of a dot without an upper bound. A
    /// dot is a class of all characters or of all bytes, possibly except LF or except both CR and
    /// LF. Searches captures, concatenations and alternations, but not the bodies of repetitions.
    pub fn check_for_greedy_all(&self) -> bool
        ensures { result ≡ has_greedy_dot (pattern_tree self.now) }
    {
        measures::check_for_greedy_all(&self.hir)
    }

    /// Returns whether each literal of the tree is valid UTF-8 and each class of bytes contains
    /// only ASCII bytes.
    pub fn is_utf8(&self) -> bool
        ensures { result ≡ is_text (pattern_tree self.now) }
    {
        measures::is_utf8(&self.hir)
    }

    /// Returns the pattern's tree.
    pub fn hir(&self) -> &Hir
        ensures { tree_of result.now ≡ pattern_tree self.now }
    {
        &self.hir
    }

    /// Returns the literal from which the pattern was read, with its quotes.
    pub fn source(&self) -> &'s str
        ensures { result.now ≡ source_of self.now }
    {
        self.source
    }

    /// Returns whether the pattern belongs to a `token`.
    pub fn is_literal(&self) -> bool
        ensures { result ≡ is_token self.now }
    {
        self.is_literal
    }
}

impl fmt::Display for Pattern<'_> {
    ghost output = { λ pattern. Some (pattern_text pattern) };

    fn fmt<W: fmt::Write>(&self, f: &mut fmt::Formatter<W>) -> fmt::Result {
        let name = if self.is_literal { "token" } else { "regex" };
        let source = self.source;
        write!(f, "#[{name}({source})]")
    }
}

/// Returns the tree that matches exactly `bytes`. Returns `Hir::Empty` if `bytes` is empty.
fn literal_hir(alloc: Global, bytes: &[u8]) -> Result<Hir, AllocError>
    ensures { IfOk result (λ hir. tree_of hir ≡ literal_tree bytes.now) }
{
    if bytes.is_empty() {
        return Ok(Hir::Empty);
    }
    Ok(Hir::Literal(Vec::from_slice(alloc, bytes)?))
}

/// Returns the default priority of a `token`: twice the number of bytes of its literal's value.
pub fn token_priority(literal: &Literal<'_>) -> usize
    ensures { result ≡ literal_value literal.now }
{
    2 * literal.value().len()
}
