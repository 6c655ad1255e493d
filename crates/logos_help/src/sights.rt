//! Chooses the help text for a fault according to the text at the fault's span. `docs/FAULTS.md`
//! repeats the help texts, and `tests/lints/faults.py` compares the copies. Used by `codes`.

use crate::sight::{Sight, between_quotes};

/// Returns the help for an argument of `logos(..)` that is not an option. The help depends on the
/// text of the argument.
pub(crate) fn help_for_nested(sight: Sight<'_>) -> &'static str {
    let text = sight.text;
    if text.is_empty() | text.starts_with(',') {
        "remove it: one comma between options is enough"
    } else if text.contains('>') {
        "write an alias for a type that contains a comma: a comma ends an option, even between `<` and `>`"
    } else if has_colon(text) {
        "write `=` instead of `:`"
    } else if text == "skip" {
        "write the pattern after it, as in `skip \"..\"`"
    } else if text.ends_with('"') & !text.contains('=') {
        "write `skip \"..\"` for text that is not a token"
    } else if text.starts_with('-') {
        "use only ASCII letters, digits and `_` in the name"
    } else {
        "write an option with its value, as in `utf8 = false`"
    }
}

/// Returns whether an argument of `logos(..)` probably has a colon instead of `=`. Such an argument
/// has a colon, does not have `::`, and does not begin with `skip`.
fn has_colon(text: &str) -> bool {
    text.contains(':') & !text.contains("::") & !text.starts_with("skip")
}

/// Returns the help for tokens that are not a literal where a literal is required.
pub(crate) fn help_for_literal(sight: Sight<'_>) -> &'static str {
    if sight.text.contains("\" | ") {
        "write an attribute for each pattern"
    } else {
        "write a string or a byte string, as `\"..\"`, `r\"..\"` or `b\"..\"`"
    }
}

/// Returns the help for an unknown argument of a pattern. The help depends on the character after
/// the argument's name.
pub(crate) fn help_for_name(sight: Sight<'_>) -> &'static str {
    if sight.after.starts_with('(') {
        "name a function without calling it, as in `callback = parse`"
    } else {
        "the arguments are `priority`, `callback`, `ignore` and `allow_greedy`"
    }
}

/// Returns the help for an unknown option. The help depends on the option's name.
pub(crate) fn help_for_unknown(sight: Sight<'_>) -> &'static str {
    if is_argument(sight.text) {
        "write it in the parentheses of `skip(\"..\", ..)`"
    } else {
        "the options are `crate`, `error`, `export_dir`, `extras`, `skip`, `subpattern`, `type` and `utf8`"
    }
}

/// Returns whether `name` is the name of an argument of a pattern.
fn is_argument(name: &str) -> bool {
    let is_value = (name == "priority") | (name == "callback") | (name == "allow_greedy");
    is_value | (name == "ignore")
}

/// Returns the help for an argument without a name where a name is required.
pub(crate) fn help_for_named(sight: Sight<'_>) -> &'static str {
    let text = sight.text;
    if text.contains('>') {
        "put the body of the closure in braces: a comma ends it, even between `<` and `>`"
    } else if text.contains('|') & !has_parameters(text) {
        "write a closure with one parameter, as `|lex| ..`"
    } else {
        "name it, as in `callback = ..` or `priority = 3`"
    }
}

/// Returns whether a text begins with a bar and contains a second bar. In such a text, no comma has
/// split the parameters of a closure.
fn has_parameters(text: &str) -> bool {
    match text.strip_prefix("|") {
        Some(rest) => rest.contains('|'),
        None => false,
    }
}

/// Returns the help for a callback that is not a closure with one parameter.
pub(crate) fn help_for_closure(sight: Sight<'_>) -> &'static str {
    let Some(rest) = sight.text.strip_prefix("|") else {
        return "write the name of a function, or a closure with one parameter, as `|lex| ..`";
    };
    if rest.contains('|') {
        "write only the name of the parameter, without a type and without `mut`, as in `|lex| ..`"
    } else {
        "write a closure with one parameter, as `|lex| ..`"
    }
}

/// Returns the help for a closure without a body. The help depends on whether a comma has ended the
/// parameters.
pub(crate) fn help_for_body(sight: Sight<'_>) -> &'static str {
    if sight.text.ends_with('|') {
        "write the body, as in `|lex| lex.slice().len()`"
    } else {
        "write only one parameter: a comma ends the callback"
    }
}

/// Returns the help for a pattern that matches the empty text. The help depends on the text of the
/// pattern.
pub(crate) fn help_for_empty(sight: Sight<'_>) -> &'static str {
    let pattern = between_quotes(sight.text);
    if pattern.is_empty() {
        "write the text that it matches"
    } else if pattern.ends_with('*') {
        "write `+` instead of `*`"
    } else if pattern.ends_with('?') {
        "remove the last `?`, so that the pattern matches at least one byte"
    } else if pattern.contains("{0") | pattern.contains("{,") {
        "write a count of at least 1"
    } else {
        "write alternatives that each match at least one byte"
    }
}
