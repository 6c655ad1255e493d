//! The leaves of a lexer. A leaf is a pattern with its priority, its kind and its callback.
//! `logos_leaf` makes leaves, and graphs and codes store them.

ghost use Rattle.std.specs.Prelude.{◌≡◌, Some, false};
ghost use Rattle.logos_pattern.specs.Views.{kind_text, leaf_text, kind_value, callback_span, callback_value, inline_value, variant_name};
ghost use Rattle.logos_pattern.specs.declared.leaf.Callback.TheVariants as callbacks;

use crate::pattern::Pattern;
pub use logos_hir::leaf::LeafId;
use logos_token::token::{Ident, Span, TokenStream};
pub use logos_type::TypeExpr;
use std::alloc::AllocError;
use std::fmt;

/// The use of a leaf's matches: the variant that the lexer returns for a match, or a skip.
#[derive(Drop)]
pub enum VariantKind<'s> {
    /// A variant without a field. The identifier is the name of the variant.
    Unit(Ident<'s>),
    /// A variant with one field. The identifier is the name of the variant, and the type is the
    /// type of the field.
    Value(Ident<'s>, TypeExpr<'s>),
    /// No variant, because the lexer skips the match.
    Skip,
}

/// A user's function that the lexer calls for each match of a leaf, or for each error.
#[derive(Drop)]
pub enum Callback<'s> {
    /// The tokens that name a function, such as a path.
    Label(TokenStream<'s>),
    /// A closure.
    Inline(InlineCallback<'s>),
}

/// A callback in the form of a closure, `|lex| body`.
#[derive(Drop)]
pub struct InlineCallback<'s> {
    /// The name of the closure's parameter.
    pub arg: Ident<'s>,
    /// The tokens of the closure's body.
    pub body: TokenStream<'s>,
    /// The span of the whole callback in the source, in bytes.
    pub span: Span,
}

impl<'s> VariantKind<'s> {
    /// Returns the name of the variant, or `None` for `Skip`.
    pub fn name(&self) -> Option<Ident<'s>>
        ensures { result ≡ variant_name (kind_value self.now) }
    {
        match self {
            VariantKind::Unit(name) => Some(*name),
            VariantKind::Value(name, _) => Some(*name),
            VariantKind::Skip => None,
        }
    }
}

impl<'s> Callback<'s> {
    /// Returns the span of the callback in the source, in bytes. The span of a label extends from
    /// its first token to its last, and is `0..0` if the label has no token.
    pub fn span(&self) -> Span
        ensures { result ≡ callback_span self.now }
    {
        match self {
            Callback::Label(tokens) => tokens.run().span(),
            Callback::Inline(inline) => inline.span,
        }
    }
}

impl<'s> From<InlineCallback<'s>> for Callback<'s> {
    ghost from_gives = { λ inline callback. callback ≡ callbacks.Inline inline };

    fn from(inline: InlineCallback<'s>) -> Callback<'s> {
        Callback::Inline(inline)
    }
}

impl Clone for VariantKind<'_> {
    // A copy is of the same form, with the same name and a type of the same parts.
    ghost is_clone = { λ kind copy. kind_value copy ≡ kind_value kind };

    fn clone(&self) -> Result<Self, AllocError> {
        match self {
            VariantKind::Unit(name) => Ok(VariantKind::Unit(*name)),
            VariantKind::Value(name, field) => Ok(VariantKind::Value(*name, field.clone()?)),
            VariantKind::Skip => Ok(VariantKind::Skip),
        }
    }
}

impl Clone for Callback<'_> {
    // A copy is of the same form, with the same tokens.
    ghost is_clone = { λ callback copy. callback_value copy ≡ callback_value callback };

    fn clone(&self) -> Result<Self, AllocError> {
        match self {
            Callback::Label(tokens) => Ok(Callback::Label(tokens.clone()?)),
            Callback::Inline(inline) => Ok(Callback::Inline(inline.clone()?)),
        }
    }
}

impl Clone for InlineCallback<'_> {
    // A copy has the same parameter, a body of the same tokens, and the same span.
    ghost is_clone = { λ inline copy. inline_value copy ≡ inline_value inline };

    fn clone(&self) -> Result<Self, AllocError> {
        Ok(InlineCallback {
            arg: self.arg,
            body: self.body.clone()?,
            span: self.span,
        })
    }
}

/// The options of a leaf's definition other than its priority and its callback.
#[derive(Clone, Copy, Debug, PartialEq, Eq)]
pub struct LeafOptions {
    /// `true` if letters match in either case, as set by `ignore(case)`.
    pub ignores_case: bool,
    /// `true` if a greedy repetition of a dot is allowed, as set by `allow_greedy = true`.
    pub allows_greedy: bool,
}

/// A pattern with its priority, its kind, its callback and its options.
#[derive(Drop)]
pub struct Leaf<'s> {
    /// The pattern that the leaf matches.
    pub pattern: Pattern<'s>,
    /// The span of the pattern's literal in the source, in bytes.
    pub span: Span,
    /// The number that decides between leaves whose matches have equal spans: the highest wins.
    pub priority: usize,
    /// The variant that the lexer returns for a match, or a skip.
    pub kind: VariantKind<'s>,
    /// The function that the lexer calls for each match, if there is one.
    pub callback: Option<Callback<'s>>,
    /// The options of the leaf's definition.
    pub options: LeafOptions,
}

impl<'s> Leaf<'s> {
    /// Returns a leaf for `pattern`. The literal of the pattern is at `span`. The leaf skips its
    /// matches, and has priority 0, no callback and no options.
    pub fn new(span: Span, pattern: Pattern<'s>) -> Leaf<'s>
        ensures { result ≡ record {
          pattern = pattern.entry;
          span = span;
          priority = 0;
          kind = VariantKind.Skip;
          callback = None;
          options = record { ignores_case = false; allows_greedy = false };
        } }
    {
        Leaf {
            pattern,
            span,
            priority: 0,
            kind: VariantKind::Skip,
            callback: None,
            options: LeafOptions {
                ignores_case: false,
                allows_greedy: false,
            },
        }
    }

    /// Returns this leaf with the priority `priority`.
    pub fn priority(mut self, priority: usize) -> Leaf<'s>
        ensures { result ≡ record self.entry { priority = priority } }
    {
        self.priority = priority;
        self
    }

    /// Returns this leaf with the kind `kind`.
    pub fn variant_kind(mut self, kind: VariantKind<'s>) -> Leaf<'s>
        ensures { result ≡ record self.entry { kind = kind.entry } }
    {
        self.kind = kind;
        self
    }

    /// Returns this leaf with the callback `callback`, or without a callback if `callback` is
    /// `None`.
    pub fn callback(mut self, callback: Option<Callback<'s>>) -> Leaf<'s>
        ensures { result ≡ record self.entry { callback = callback.entry } }
    {
        self.callback = callback;
        self
    }

    /// Returns this leaf with the options `options`.
    pub fn options(mut self, options: LeafOptions) -> Leaf<'s>
        ensures { result ≡ record self.entry { options = options } }
    {
        self.options = options;
        self
    }
}

impl fmt::Display for VariantKind<'_> {
    ghost output = { λ kind. Some (kind_text kind) };

    fn fmt<W: fmt::Write>(&self, f: &mut fmt::Formatter<W>) -> fmt::Result {
        match self {
            VariantKind::Unit(name) => {
                let text = name.text;
                write!(f, "::{text}")
            }
            VariantKind::Value(name, _) => {
                let text = name.text;
                write!(f, "::{text}(_)")
            }
            VariantKind::Skip => f.write_str("::<skip>"),
        }
    }
}

impl fmt::Display for Leaf<'_> {
    ghost output = { λ leaf. Some (leaf_text leaf) };

    fn fmt<W: fmt::Write>(&self, f: &mut fmt::Formatter<W>) -> fmt::Result {
        let pattern = &self.pattern;
        let kind = &self.kind;
        write!(f, "{pattern} {kind}")
    }
}
