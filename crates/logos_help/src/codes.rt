//! Chooses the help text for a fault according to the fault's code. `docs/FAULTS.md` repeats the
//! help texts, and `tests/lints/faults.py` compares the copies. Used by `adding`.

ghost use Rattle.std.specs.Prelude.{option_map};
ghost use Rattle.logos_help.specs.Patterns.{IsHelp};

use crate::patterns::{help_for_dot, help_for_pattern};
use crate::sight::Sight;
use crate::sights::{
    help_for_body, help_for_closure, help_for_empty, help_for_literal, help_for_name,
    help_for_named, help_for_nested, help_for_unknown,
};
use logos_token::error::{Detail, FaultCode, SpannedError};
use logos_token::token::LexicalKind;

const TWICE: &str = "keep one of them";

const DOUBLE: &str = "write it in double quotes, as in `\"..\"`";

const RENAME: &str = "rename it: a name contains only ASCII letters, digits and `_`";

/// Returns the help text for `fault`, or `None` for a fault with the code `Previous`, which has no
/// help text. The help text depends on the detail and the code of the fault, and on `sight`, the
/// text at the span of the fault.
pub fn help_for(fault: &SpannedError, sight: Sight<'_>) -> Option<&'static str>
    ensures { IsHelp fault.now.detail (option_map (λ help. help.now) result) }
{
    match fault.detail {
        Detail::Lexical(kind) => Some(help_for_lexical(kind, sight)),
        Detail::Pattern(detail) => Some(help_for_pattern(detail)),
        Detail::ErrorArgument => Some("write `callback = ..`, or the callback alone"),
        Detail::Plain => help_by_code(fault.code, sight),
        Detail::Ambiguous { .. } => help_by_code(fault.code, sight),
    }
}

/// Returns the help for a fault with the code `code`, or `None` for the code `Previous`. The help
/// depends on `sight`, the text at the span of the fault.
fn help_by_code(code: FaultCode, sight: Sight<'_>) -> Option<&'static str> {
    let help = match code {
        FaultCode::Previous => return None,
        FaultCode::GreedyDot => help_for_dot(sight),
        FaultCode::InvalidNested => help_for_nested(sight),
        FaultCode::UnknownLogos => help_for_unknown(sight),
        FaultCode::LiteralSyntax => help_for_literal(sight),
        FaultCode::UnknownNested => help_for_name(sight),
        FaultCode::NamedExpected => help_for_named(sight),
        FaultCode::CallbackClosure => help_for_closure(sight),
        FaultCode::CallbackBody => help_for_body(sight),
        FaultCode::EmptyMatch => help_for_empty(sight),
        _ => help_for_code(code),
    };
    Some(help)
}

/// Returns the help for a source that cannot be read into tokens for the reason `kind`. The help
/// depends on `sight`, the text that is not a token.
fn help_for_lexical(kind: LexicalKind, sight: Sight<'_>) -> &'static str {
    if sight.text.starts_with('\'') {
        return DOUBLE;
    }
    match kind {
        LexicalKind::BadCharacter => "remove this character: no token of Rust begins with it",
        LexicalKind::Unterminated => "close the string or the comment that begins here",
        LexicalKind::Unbalanced => "close this delimiter, or remove it: it has no partner",
        LexicalKind::BadLiteral => help_for_escapes(sight),
    }
}

/// Returns the help for a literal with an escape that Rust does not support.
fn help_for_escapes(sight: Sight<'_>) -> &'static str {
    if sight.text.contains("\\x") {
        "a string has `\\x00` to `\\x7F` and `\\u{..}`: write a byte string for other bytes"
    } else {
        "write a raw string, as `r\"\\d\"`: in it a backslash belongs to the pattern"
    }
}

/// Returns the help for a fault with the code `code`, regardless of the text at the span of the
/// fault.
fn help_for_code(code: FaultCode) -> &'static str {
    match code {
        FaultCode::NotAnEnum => "derive `Logos` only for an enum",
        FaultCode::Grammar => "a comma may be missing before this token",
        FaultCode::VariantFields => {
            "give the variant one field or none, as in `Name(Type)`, where the type may be a tuple"
        }
        FaultCode::NamedFields => "write the field without its name, as in `Name(Type)`",
        FaultCode::ErrorVariant => {
            "remove the variant: an error is `Err`, and `#[logos(error = ..)]` sets its type"
        }
        _ => help_for_limit(code),
    }
}

/// Returns the help for a source that exceeds a limit. The help contains the limit, its unit, and a
/// way to stay within the limit. For any other code, returns the result of `help_for_type`.
fn help_for_limit(code: FaultCode) -> &'static str {
    match code {
        FaultCode::LimitSource => "a source has at most 16,777,216 bytes: split the enum",
        FaultCode::LimitTokenNesting => {
            "at most 128 delimiters are open at once: name a part by a constant or a type alias"
        }
        FaultCode::LimitPatternNesting => {
            "groups, brackets and repetitions are nested at most 250 deep: drop groups around a single group"
        }
        FaultCode::LimitTypeNesting => "types are nested at most 128 deep: use a type alias",
        FaultCode::LimitSize => {
            "all patterns together have at most the size 1,048,576: write smaller counts, or let a callback count"
        }
        FaultCode::LimitStates => {
            "the automaton has at most 65,536 states: write smaller counts or classes, or one pattern for many keywords, with a callback that looks them up"
        }
        _ => help_for_type(code),
    }
}

/// Returns the help for a fault in parameters or types. For any other code, returns the result of
/// `help_for_option`.
fn help_for_type(code: FaultCode) -> &'static str {
    match code {
        FaultCode::ManyLifetimes => "keep only one lifetime, that of the input",
        FaultCode::ConstGeneric => "write the number where it is used",
        FaultCode::NoConcreteType => "write `#[logos(type T = ..)]` before the enum",
        FaultCode::NotTypeParameter => {
            "declare the parameter after the enum's name, or remove the option"
        }
        FaultCode::TypeTwice => TWICE,
        FaultCode::TypeHoldsItself => "write the whole type",
        FaultCode::TypeUnsupported => "name the type",
        FaultCode::TypeSyntax => "write a type; if it contains a comma, write an alias for it",
        FaultCode::TypeForm => "name the parameter, as in `type T = u8`",
        _ => help_for_option(code),
    }
}

/// Returns the help for a fault in the options of an enum. For any other code, returns the result
/// of `help_for_argument`.
fn help_for_option(code: FaultCode) -> &'static str {
    match code {
        FaultCode::LogosForm => "write `#[logos(..)]`, or remove it",
        FaultCode::CrateForm => "write `crate = path::to::logos`",
        FaultCode::ErrorTwice => TWICE,
        FaultCode::ErrorEmpty => "write `error(SomeType)`, or `error(SomeType, callback)`",
        FaultCode::ErrorForm => "write `error = SomeType`, or `error(SomeType, callback)`",
        FaultCode::ExportTwice => TWICE,
        FaultCode::ExportBytes => "remove the `b`",
        FaultCode::ExportForm => "write the `=`, as in `export_dir = \"..\"`",
        FaultCode::ExtrasTwice =>
            "keep one of them, and write an alias for a type that contains a comma",
        FaultCode::ExtrasForm => "write the `=`, as in `extras = SomeType`",
        FaultCode::SkipForm => "write `skip \"..\"`, without `=`",
        FaultCode::SkipGroup => "write the pattern first, as in `skip(\"..\", callback)`",
        FaultCode::SourceOld => "remove it, or write `utf8 = false` for inputs of bytes",
        FaultCode::Utf8Twice => TWICE,
        FaultCode::Utf8Value => "write `utf8 = false` for inputs of bytes",
        FaultCode::Utf8Form => "write the `=`, as in `utf8 = false`",
        _ => help_for_argument(code),
    }
}

/// Returns the help for a fault in the arguments of a pattern. For any other code, returns the
/// result of `help_for_callback`.
fn help_for_argument(code: FaultCode) -> &'static str {
    match code {
        FaultCode::TokenForm => "write `#[token(\"..\")]`",
        FaultCode::RegexForm => "write `#[regex(\"..\")]`",
        FaultCode::NotText => DOUBLE,
        FaultCode::UnexpectedToken => "remove it, or write the comma before it",
        FaultCode::PriorityValue => {
            "write a whole number, as in `priority = 3`, without `_` and without a suffix"
        }
        FaultCode::PriorityTwice => TWICE,
        FaultCode::PriorityForm => "write the `=`, as in `priority = 3`",
        FaultCode::PriorityOverflow => "write smaller counts, or give the pattern a `priority`",
        FaultCode::GreedyValue => "write `allow_greedy = true`",
        FaultCode::GreedyTwice => TWICE,
        FaultCode::GreedyForm => "write the `=`, as in `allow_greedy = true`",
        _ => help_for_callback(code),
    }
}

/// Returns the help for a fault in a flag, a callback, a subpattern or the whole lexer. For any
/// other code, returns the help for a pattern that matches bytes that are not UTF-8.
fn help_for_callback(code: FaultCode) -> &'static str {
    match code {
        FaultCode::IgnoreForm => "write `ignore(case)`",
        FaultCode::IgnoreEmpty => "write `ignore(case)`",
        FaultCode::IgnoreAscii => {
            "write `ignore(case)`, or `(?i-u:..)` in a pattern for ASCII letters alone"
        }
        FaultCode::IgnoreUnknown => "the only flag is `case`",
        FaultCode::IgnoreToken => "remove it",
        FaultCode::CallbackValue => {
            "write the name of a function, or a closure with one parameter, as `|lex| ..`"
        }
        FaultCode::CallbackTwice => TWICE,
        FaultCode::CallbackForm => "write the `=`, or the callback alone",
        FaultCode::SubpatternForm => "give it a name, as in `subpattern name = \"..\"`",
        FaultCode::SubpatternName => RENAME,
        FaultCode::SubpatternMissing => {
            "define it before its use, as in `#[logos(subpattern name = \"..\")]`"
        }
        FaultCode::SubpatternTwice => "rename one of them",
        FaultCode::Disambiguation => "give the pattern that should win a higher `priority`",
        FaultCode::NoUniversalStart => {
            "remove the `^`, `$` or `\\b` from the start of the pattern"
        }
        _ => "match whole characters, or write `#[logos(utf8 = false)]` for inputs of bytes",
    }
}
