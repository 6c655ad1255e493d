//! Defines the stages inside a type, and the table entries and steps that can follow a stage. Used
//! by `reader` and the modules of `table`.

use logos_token::token::{Delimiter, Spacing, Span, Tokens};
use logos_type::TypeToken;

/// The kind of a path: the construct that the path names.
#[derive(Clone, Copy)]
pub(crate) enum PathKind {
    /// A type whose path has no arguments so far, and can still be the name of a macro.
    Plain,
    /// A type, or the trait after `as`.
    OfType,
    /// The trait of a bound.
    OfBound,
}

/// The kind of a spot at which a bound is expected: in a list of bounds, or in parentheses.
#[derive(Clone, Copy)]
pub(crate) enum BoundKind {
    /// In a list of bounds. `+` can join another bound if the flag is `true`.
    Listed(bool),
    /// In the parentheses of a bound in a list. After the parentheses, `+` can join another bound
    /// if the flag is `true`.
    Enclosed(bool),
}

/// A construct before which `for<..>` is allowed.
#[derive(Clone, Copy)]
pub(crate) enum Binder {
    OfFunction,
    OfTrait(BoundKind),
}

/// A stage of reading a type: the construct before the spot.
#[derive(Clone, Copy)]
pub(crate) enum Stage {
    /// After the last token.
    End,
    /// After a name of a path.
    Named(PathKind),
    /// After the arguments of a name.
    Segments(PathKind),
    /// After `::`. Arguments can follow if the flag is `true`.
    Colons(PathKind, bool),
    /// After `<`, or after `,` among arguments.
    Arguments(PathKind),
    /// Between a name and `=` among arguments.
    Equals(PathKind),
    /// After the `=` that follows a name among arguments.
    Value(PathKind),
    /// Between a name and `:` among arguments.
    Constrained(PathKind),
    /// Inside the braces of an argument.
    Braced(PathKind),
    /// After an argument.
    ArgumentEnd(PathKind),
    /// After the name of a macro and its `!`.
    Macro,
    /// After `(` or `,` in the parentheses of a path.
    Inputs,
    /// After a type in the parentheses of a path.
    InputEnd,
    /// After the parentheses of a path or of a function.
    Output,
    /// After the `<` at the start of a type.
    SelfType,
    /// After the type that follows the `<` at the start of a type.
    SelfEnd,
    /// After `as`.
    SelfTrait,
    /// After the path that follows `as`.
    SelfTraitEnd,
    /// After the `>` that ends `<T as P>`.
    SelfClosed,
    /// After the `&` and the optional lifetime of a reference.
    Referent,
    /// After the `*` of a pointer.
    Pointer,
    /// After `mut`, `const` or `->`.
    Target,
    /// After `(`, or after `,` in parentheses.
    List,
    /// After a type in parentheses.
    ListEnd,
    /// After the `[` of a slice or an array.
    Element,
    /// After a type in brackets.
    ElementEnd,
    /// After the `;` of an array.
    Length,
    /// After the tokens of an array's length.
    LengthEnd,
    /// Where a bound is expected. `+` can join another bound if the flag is `true`.
    Bound(bool),
    /// After the `(` of a bound. After the matching `)`, `+` can join another bound if the flag is
    /// `true`.
    Question(bool),
    /// Where an optional `for<..>` and the path of a bound are expected.
    Trait(BoundKind),
    /// After the `for<..>` of a bound.
    TraitPath(BoundKind),
    /// After a bound. `+` can join another bound if the flag is `true`.
    BoundEnd(bool),
    /// After the `+` that follows a bound.
    Further,
    /// After a path in the parentheses of a bound. After the parentheses, `+` can join another
    /// bound if the flag is `true`.
    EnclosedEnd(bool),
    /// After `for`.
    For(Binder),
    /// After the `<` that follows `for`, or after `,` in `for<..>`.
    ForList(Binder),
    /// After a lifetime in `for<..>`.
    ForEnd(Binder),
    /// After the `for<..>` of a function.
    Qualified,
    /// After `unsafe`.
    Unsafe,
    /// After `extern`.
    Extern,
    /// After the literal that follows `extern`.
    Linked,
    /// After `fn`.
    Function,
    /// After `(` or `,` in the parameters of a function.
    Taken,
    /// Between the name of a function's parameter and `:`.
    Typed,
    /// After the `:` that follows the name of a parameter.
    TypedValue,
    /// After a parameter of a function.
    OneTaken,
    /// After the `...` among the parameters of a function.
    Variadic,
    /// After the `,` that follows `...`.
    VariadicEnd,
}

/// The tokens after the open group, if a group is open.
pub(crate) type Outside<'t, 's> = Option<Tokens<'t, 's>>;

/// A spot inside a type: its stage and the tokens after the spot. If the spot is inside a group,
/// also the tokens after the group.
#[derive(Clone, Copy)]
pub(crate) struct Spot<'t, 's> {
    pub stage: Stage,
    pub run: Tokens<'t, 's>,
    pub outside: Outside<'t, 's>,
}

/// The next step at a spot, with the tokens that the step takes.
#[derive(Clone, Copy)]
pub(crate) enum TypeStep<'t, 's> {
    /// Ends the current construct.
    End,
    /// Takes this token and continues at the spot.
    Take(TypeToken<'s>, Spot<'t, 's>),
    /// Takes this token, which occurs only in unsupported types, and continues at the spot.
    Bar(TypeToken<'s>, Spot<'t, 's>),
    /// Reads a type and continues at this stage. `+` can join bounds if the flag is `true`.
    Need(bool, Stage),
    /// Reads a type that is never replaced and continues at this stage.
    KeepType(Stage),
    /// Takes these tokens without reading types in them and continues at the spot.
    Keep(Tokens<'t, 's>, Spot<'t, 's>),
    /// Takes this token, which begins a path or bounds. Reads the rest of the path or bounds from
    /// the spot on, and continues at the stage.
    Nest(TypeToken<'s>, Spot<'t, 's>, Stage),
}

/// The class of the first token of a run.
#[derive(Clone, Copy)]
pub(crate) enum FrontToken {
    /// No token: the run is empty.
    Nothing,
    /// A name.
    Word,
    /// A token of punctuation with this character and this spacing.
    Mark(char, Spacing),
    /// A literal.
    Literal,
    /// A documentation comment.
    Doc,
    /// A group with these delimiters.
    Group(Delimiter),
}

/// The tokens that a table entry takes from the front of a run.
#[derive(Clone, Copy)]
pub(crate) enum Prefix {
    /// A name.
    Word,
    /// A token of punctuation with this character.
    Mark(char),
    /// A literal.
    Literal,
    /// The two tokens of `::`.
    Colons,
    /// The two tokens of `->`.
    Arrow,
    /// The three tokens of `...`.
    Dots,
    /// An `&` without a lifetime.
    Reference,
    /// An `&` and the two tokens of a lifetime.
    ReferenceLifetime,
    /// The `'` and the name of a lifetime among the angle-bracketed arguments of a path that is a
    /// type.
    Lifetime,
    /// The `'` and the name of any other lifetime.
    OtherLifetime,
    /// A group with these delimiters.
    Group(Delimiter),
}

/// An entry of the grammar's table: the next step at a spot, without the tokens of this step. Runs
/// that begin alike have equal entries.
#[derive(Clone, Copy)]
pub(crate) enum TableEntry {
    /// Ends the current construct.
    End,
    /// Takes these tokens and continues after the tokens at this stage.
    Take(Prefix, Stage),
    /// Takes these tokens, which occur only in unsupported types, and continues after the tokens at
    /// this stage.
    Bar(Prefix, Stage),
    /// Reads a type and continues after the type at this stage. `+` can join bounds if the flag is
    /// `true`.
    Need(bool, Stage),
    /// Reads a type that is never replaced and continues after the type at this stage.
    KeepType(Stage),
    /// Takes all tokens without reading types in them and continues at this stage.
    Keep(Stage),
    /// Takes these tokens, which begin a path or bounds. Reads the rest of the path or bounds from
    /// the first stage on, and continues at the second stage.
    Nest(Prefix, Stage, Stage),
    /// Opens the group and continues inside the group at this stage.
    Open(Stage),
    /// Closes the group and continues after the group at this stage.
    Close(Delimiter, Stage),
}

/// The beginning of a type: its first token, and the spot after this token. `barred` is `true` if
/// the token occurs only in unsupported types.
#[derive(Clone, Copy)]
pub(crate) struct Beginning<'t, 's> {
    pub barred: bool,
    pub leaf: TypeToken<'s>,
    pub spot: Spot<'t, 's>,
}

/// The beginning of a type, without the tokens of this beginning.
#[derive(Clone, Copy)]
pub(crate) enum FirstEntry {
    /// A type that begins with these tokens and continues after the tokens at this stage. The flag
    /// is `true` if the tokens occur only in unsupported types.
    Lead(bool, Prefix, Stage),
    /// A type that begins with a group and continues inside the group at this stage.
    Open(Stage),
}

/// The reason why no step fits.
#[derive(Clone, Copy)]
pub(crate) enum StepFault {
    /// An unsupported type at this span.
    Unsupported(Span),
    /// A token at this span that does not fit. The span is `0..0` if no tokens are left.
    Mismatch(Span),
}

/// The table entry for a spot, or the reason why no entry fits.
pub(crate) type Next = Result<TableEntry, StepFault>;

/// The beginning of a type, or the reason why no type begins.
pub(crate) type First = Result<FirstEntry, StepFault>;
