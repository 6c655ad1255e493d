//! Contains `Language`, a tokenizer of expressions, as an example of a proof that uses only the
//! contracts of `generate` and `Lexer`. Called by the tests.

ghost use Rattle.std.specs.Prelude.{◌≡◌, IfOk, IfErr, map};
ghost use Rattle.logos_codegen.specs.Views.{item_of, kind_value, IsLanguage, kind_at, kind_given, kind_named, IsToken, IsErrorAt, Tokenizes, IsOutcome, Answers, IsRefusalOf, IsThatError};
ghost use Rattle.logos_codegen.specs.declared.expr.ExprError.TheVariants.{Memory as OutOfMemory};

use crate::generation::{Generated, generate};
use logos_generator::code::Code;
use logos_generator::generator::Config;
use logos_generator::machine::{Action, Item, Lexer};
use logos_hir::leaf::LeafId;
use logos_parser::refusal::Refusal;
use logos_pattern::leaf::{Leaf, VariantKind};
use logos_token::token::Span;
use std::alloc::{AllocError, AllocFailed, Global};
use std::marker::Model;

/// The source of the tokenizer: an enum that skips blanks, and that has a variant of equal name for
/// each variant of `ExprKind`.
pub const SOURCE: &str = r#"#[logos(skip r"[ \t\n]+")]
enum Expr {
    #[regex("[0-9]+")]
    Number,
    #[regex("[a-z_][a-z0-9_]*")]
    Name,
    #[token("let")]
    Let,
    #[token("==")]
    EqEq,
    #[token("=")]
    Eq,
    #[token("+")]
    Plus,
    #[token("-")]
    Minus,
    #[token("*")]
    Star,
    #[token("/")]
    Slash,
    #[token("(")]
    Open,
    #[token(")")]
    Close,
}
"#;

/// The kind of a token. Each kind has the name of a variant of the enum in `SOURCE`.
#[derive(Clone, Copy, Debug, PartialEq, Eq)]
pub enum ExprKind {
    Number,
    Name,
    Let,
    EqEq,
    Eq,
    Plus,
    Minus,
    Star,
    Slash,
    Open,
    Close,
}

/// A token of an expression: its kind, its span in bytes of the input, and the bytes of the input
/// at this span.
#[derive(Clone, Copy, Debug)]
pub struct ExprToken<'i> {
    pub kind: ExprKind,
    pub span: Span,
    pub slice: &'i [u8],
}

/// The reason why no tokenizer or no tokens are returned.
#[derive(Clone, Copy, Debug, PartialEq, Eq)]
pub enum ExprError {
    /// Faults of the tokenizer's source. A test shows that the source has none.
    Refused,
    /// An error in the input. `span` is the span in bytes of the first error in the input.
    Bad { span: Span },
    /// Memory ran out.
    Memory,
}

impl From<AllocError> for ExprError {
    ghost from_gives = { λ _ e. e ≡ OutOfMemory };

    fn from(_error: AllocError) -> ExprError {
        ExprError::Memory
    }
}

impl<T: Drop> From<AllocFailed<T>> for ExprError {
    ghost from_gives = { λ _ e. e ≡ OutOfMemory };

    fn from(_error: AllocFailed<T>) -> ExprError {
        ExprError::Memory
    }
}

impl From<Refusal> for ExprError {
    ghost from_gives = { IsThatError };

    fn from(error: Refusal) -> ExprError {
        match error {
            Refusal::Errors(_) => ExprError::Refused,
            Refusal::Memory => ExprError::Memory,
        }
    }
}

/// The tokenizer: the code of the enum, generated once and used for any number of inputs.
#[derive(Drop)]
pub struct Language {
    code: Code<'static>,
    /// The kinds of the tokens of all leaves, in the order of the leaves' numbers. The entry of a
    /// skip is not used.
    kinds: Vec<ExprKind>,
}

impl Model for Language {
    ghost use Rattle.std.specs.Prelude.{[]};
    ghost use Rattle.logos_codegen.specs.Views.{codes, named, LanguageValue, IsLanguage};
    ghost use Rattle.logos_type.specs.contracts.type_expr.TypePart as p;

    ghost Value = { LanguageValue };

    ghost coded = { Prim.hlevel (codes, (p.the_row (record { mir = named 1; lft = [] })).coded) };

    ghost view = { λ l. record { code = l.code; kinds = l.kinds.items } };

    ghost invariant = { λ l. IsLanguage (record { code = l.code; kinds = l.kinds.items }) };
}

impl Language {
    /// Generates the code of `SOURCE`, and returns the tokenizer.
    ///
    /// # Errors
    ///
    /// Returns `Refused` if the source has faults; a test shows that it has none. Returns `Memory`
    /// if memory runs out.
    pub fn new(alloc: Global) -> Result<Language, ExprError>
        ensures ok { IfOk result IsLanguage }
        // An error means that the enum is refused or that memory ran out; it never depends on an
        // input.
        ensures err { IfErr result IsRefusalOf }
    {
        let made = generate(alloc, SOURCE, Config::STATE_MACHINE)?;
        let kinds = kinds_of(alloc, made.graph.leaves());
        let code = code_in(made);
        match kinds {
            Ok(kinds) => Ok(Language { code, kinds }),
            Err(_) => {
                drop(code);
                Err(ExprError::Memory)
            }
        }
    }

    /// Returns the tokens of a text in the order of the text, without the blanks between them.
    ///
    /// # Errors
    ///
    /// Returns `Bad` with the span of the first error if the text has an error. Neither a token nor
    /// a blank begins at the start of an error. The error spans the longest prefix that could still
    /// have become a token, or one character. Returns `Memory` if memory runs out.
    pub fn tokens<'i>(&self, alloc: Global, input: &'i str) -> Result<Vec<ExprToken<'i>>, ExprError>
        // The items of maximal munch from the start of the text determine the outcome.
        ensures reads { Answers (Tokenizes input.now) result }
        // The result is the outcome of all items of the text under the leaves of the enum.
        ensures all { Answers (IsOutcome input.now) result }
    {
        let mut tokens = Vec::new(alloc);
        let mut lexer = Lexer::new_str(&self.code, input, |_leaf, _slice: &[u8]| Action::Emit);
        while let Some(item) = lexer.next() {
            match self.token_from(item) {
                Ok(token) => tokens.push(token)?,
                Err(span) => return Err(ExprError::Bad { span }),
            }
        }
        Ok(tokens)
    }
}

impl Language {
    /// Returns the token of an item, or the span of the item if the item is an error.
    fn token_from<'i>(&self, item: Item<'i>) -> Result<ExprToken<'i>, Span>
        ensures ok { IfOk result (IsToken self.now.kinds (item_of item.entry)) }
        ensures err { IfErr result (IsErrorAt (item_of item.entry)) }
    {
        match item {
            Item::Token { leaf, span, slice } => Ok(ExprToken {
                kind: self.kind_at(leaf),
                span,
                slice,
            }),
            Item::Error { span, .. } => Err(span),
        }
    }

    /// Returns the kind of the tokens of `leaf`, or `Close` if no leaf has this number.
    fn kind_at(&self, leaf: LeafId) -> ExprKind
        ensures { result ≡ kind_at self.now.kinds leaf.0 }
    {
        match self.kinds.get(leaf.0) {
            Some(kind) => *kind,
            None => ExprKind::Close,
        }
    }
}

/// Returns the code of a generated lexer, and drops the graph.
fn code_in(made: Generated<'static>) -> Code<'static>
    ensures { result ≡ made.entry.code }
{
    let Generated { code, graph, .. } = made;
    drop(graph);
    code
}

/// Returns the kinds of the tokens of all leaves, in the order of the leaves' numbers.
fn kinds_of(alloc: Global, leaves: &[Leaf<'_>]) -> Result<Vec<ExprKind>, AllocError>
    ensures { IfOk result (λ kinds. kinds.items
        ≡ map (λ leaf. kind_given (kind_value leaf.kind)) leaves.now) }
{
    let mut kinds = Vec::new(alloc);
    for leaf in leaves {
        kinds.push(kind_given(&leaf.kind))?;
    }
    Ok(kinds)
}

/// Returns the kind with the name of a leaf's variant, or `Close` for a skip.
fn kind_given(kind: &VariantKind<'_>) -> ExprKind
    ensures { result ≡ kind_given (kind_value kind.now) }
{
    match kind {
        VariantKind::Unit(name) => kind_named(name.text),
        VariantKind::Value(name, _) => kind_named(name.text),
        VariantKind::Skip => ExprKind::Close,
    }
}

/// Returns the kind with the name `name`, or `Close` if no other kind has this name.
fn kind_named(name: &str) -> ExprKind
    ensures { result ≡ kind_named name.now }
{
    if name == "Number" {
        return ExprKind::Number;
    }
    if name == "Name" {
        return ExprKind::Name;
    }
    if name == "Let" {
        return ExprKind::Let;
    }
    if name == "EqEq" {
        return ExprKind::EqEq;
    }
    if name == "Eq" {
        return ExprKind::Eq;
    }
    if name == "Plus" {
        return ExprKind::Plus;
    }
    if name == "Minus" {
        return ExprKind::Minus;
    }
    if name == "Star" {
        return ExprKind::Star;
    }
    if name == "Slash" {
        return ExprKind::Slash;
    }
    if name == "Open" {
        return ExprKind::Open;
    }
    ExprKind::Close
}
