//! The codes of faults. Every crate that adds a fault to an `Errors` passes its code.

ghost use Rattle.std.specs.Prelude.{◌≡◌, Some};
ghost use Rattle.logos_token.specs.ViewImports.{name_of};

use std::fmt;

/// The kind of a fault in a source. A code is printed as the name of its variant.
#[derive(Clone, Copy, PartialEq, Eq)]
pub enum FaultCode {
    /// A point at which the source cannot be cut into tokens.
    Lexical,
    /// A source that is not an enum.
    NotAnEnum,
    /// An enum that is not well-formed.
    Grammar,
    /// A type of Rust that is not supported.
    TypeUnsupported,
    /// Tokens that are not a type.
    TypeSyntax,
    /// A source that is longer than the limit.
    LimitSource,
    /// More open delimiters than the limit allows.
    LimitTokenNesting,
    /// Types that are nested more deeply than the limit allows.
    LimitTypeNesting,
    /// Groups, brackets and repetitions that are nested more deeply than the limit allows.
    LimitPatternNesting,
    /// Patterns whose trees are together larger than the limit allows.
    LimitSize,
    /// An automaton with more states than the limit allows.
    LimitStates,
    /// A second lifetime parameter.
    ManyLifetimes,
    /// A constant parameter.
    ConstGeneric,
    /// A type for a name that is not a type parameter.
    NotTypeParameter,
    /// A second type for a type parameter.
    TypeTwice,
    /// A type parameter without a type.
    NoConcreteType,
    /// A type parameter whose type contains the parameter itself, directly or through other
    /// parameters.
    TypeHoldsItself,
    /// `logos` without its parentheses.
    LogosForm,
    /// An argument of `logos(..)` in an unsupported form.
    InvalidNested,
    /// An unknown name in `logos(..)`.
    UnknownLogos,
    /// `crate` in a form other than `crate = path`.
    CrateForm,
    /// A second error type.
    ErrorTwice,
    /// A second export path.
    ExportTwice,
    /// A second type for the extras.
    ExtrasTwice,
    /// A second UTF-8 mode.
    Utf8Twice,
    /// `error()` without a type.
    ErrorEmpty,
    /// `error` in an unsupported form.
    ErrorForm,
    /// An export path that is not a string.
    ExportBytes,
    /// `export_dir` in an unsupported form.
    ExportForm,
    /// `extras` in an unsupported form.
    ExtrasForm,
    /// `skip` in an unsupported form.
    SkipForm,
    /// `skip(..)` that does not begin with a literal.
    SkipGroup,
    /// The attribute `source`, which is no longer supported.
    SourceOld,
    /// `subpattern` in an unsupported form.
    SubpatternForm,
    /// `type` in an unsupported form.
    TypeForm,
    /// A UTF-8 mode that is neither `true` nor `false`.
    Utf8Value,
    /// `utf8` in an unsupported form.
    Utf8Form,
    /// No literal where a literal is expected.
    LiteralSyntax,
    /// A literal that is neither a string nor a byte string.
    NotText,
    /// Tokens after an argument.
    UnexpectedToken,
    /// An argument without a name where only named arguments are allowed.
    NamedExpected,
    /// A priority that is not a number or does not fit `usize`.
    PriorityValue,
    /// A second priority.
    PriorityTwice,
    /// A second `allow_greedy`.
    GreedyTwice,
    /// `priority` in an unsupported form.
    PriorityForm,
    /// A value of `allow_greedy` that is neither `true` nor `false`.
    GreedyValue,
    /// `allow_greedy` in an unsupported form.
    GreedyForm,
    /// No callback where a callback is expected.
    CallbackValue,
    /// An inline callback without exactly one parameter.
    CallbackClosure,
    /// An inline callback without a body.
    CallbackBody,
    /// A second callback.
    CallbackTwice,
    /// `callback` in an unsupported form.
    CallbackForm,
    /// `ignore` in an unsupported form.
    IgnoreForm,
    /// The flag `ascii_case`, which is no longer supported.
    IgnoreAscii,
    /// An unknown flag.
    IgnoreUnknown,
    /// `ignore()` without a flag.
    IgnoreEmpty,
    /// A token other than a comma between flags.
    IgnoreToken,
    /// An unknown name among the arguments.
    UnknownNested,
    /// A variant with parentheses that do not contain exactly one field.
    VariantFields,
    /// A variant with named fields.
    NamedFields,
    /// The attribute `error`, which is no longer required.
    ErrorVariant,
    /// `token` in an unsupported form.
    TokenForm,
    /// `regex` in an unsupported form.
    RegexForm,
    /// A text that is not a pattern.
    Regex,
    /// A default priority that does not fit `usize`.
    PriorityOverflow,
    /// A text that is not the name of a subpattern.
    SubpatternName,
    /// A subpattern that is not defined before its use.
    SubpatternMissing,
    /// A second subpattern with the same name.
    SubpatternTwice,
    /// In UTF-8 mode, a pattern that can match invalid UTF-8.
    Utf8Pattern,
    /// In UTF-8 mode, a subpattern that can match invalid UTF-8.
    Utf8Subpattern,
    /// A pattern that matches the empty string.
    EmptyMatch,
    /// Leaves with the same priority that match the same bytes.
    Disambiguation,
    /// A pattern with a look-around assertion before its first byte.
    NoUniversalStart,
    /// A pattern with an unbounded greedy repetition of any character.
    GreedyDot,
    /// The earlier span to which another fault refers.
    Previous,
}

/// The names of the codes, in the order of the variants of `FaultCode`.
const NAMES: [&str; 75] = [
    "Lexical",
    "NotAnEnum",
    "Grammar",
    "TypeUnsupported",
    "TypeSyntax",
    "LimitSource",
    "LimitTokenNesting",
    "LimitTypeNesting",
    "LimitPatternNesting",
    "LimitSize",
    "LimitStates",
    "ManyLifetimes",
    "ConstGeneric",
    "NotTypeParameter",
    "TypeTwice",
    "NoConcreteType",
    "TypeHoldsItself",
    "LogosForm",
    "InvalidNested",
    "UnknownLogos",
    "CrateForm",
    "ErrorTwice",
    "ExportTwice",
    "ExtrasTwice",
    "Utf8Twice",
    "ErrorEmpty",
    "ErrorForm",
    "ExportBytes",
    "ExportForm",
    "ExtrasForm",
    "SkipForm",
    "SkipGroup",
    "SourceOld",
    "SubpatternForm",
    "TypeForm",
    "Utf8Value",
    "Utf8Form",
    "LiteralSyntax",
    "NotText",
    "UnexpectedToken",
    "NamedExpected",
    "PriorityValue",
    "PriorityTwice",
    "GreedyTwice",
    "PriorityForm",
    "GreedyValue",
    "GreedyForm",
    "CallbackValue",
    "CallbackClosure",
    "CallbackBody",
    "CallbackTwice",
    "CallbackForm",
    "IgnoreForm",
    "IgnoreAscii",
    "IgnoreUnknown",
    "IgnoreEmpty",
    "IgnoreToken",
    "UnknownNested",
    "VariantFields",
    "NamedFields",
    "ErrorVariant",
    "TokenForm",
    "RegexForm",
    "Regex",
    "PriorityOverflow",
    "SubpatternName",
    "SubpatternMissing",
    "SubpatternTwice",
    "Utf8Pattern",
    "Utf8Subpattern",
    "EmptyMatch",
    "Disambiguation",
    "NoUniversalStart",
    "GreedyDot",
    "Previous",
];

impl FaultCode {
    /// Returns the printed name of the code.
    pub fn name(self) -> &'static str
        ensures { result.now ≡ name_of self }
    {
        NAMES[self as usize]
    }
}

impl fmt::Display for FaultCode {
    ghost output = { λ code. Some (name_of code) };

    fn fmt<W: fmt::Write>(&self, f: &mut fmt::Formatter<W>) -> fmt::Result {
        f.write_str(self.name())
    }
}

impl fmt::Debug for FaultCode {
    fn fmt<W: fmt::Write>(&self, f: &mut fmt::Formatter<W>) -> fmt::Result {
        f.write_str(self.name())
    }
}
