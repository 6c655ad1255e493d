//! Defines the texts on which the help for a fault depends: the text of a source at the span of the
//! fault, and the text after the span. Used by `codes`, `patterns` and `sights`.

/// The text of a source at the span of a fault, and the text after the span.
#[derive(Clone, Copy, Debug)]
pub struct Sight<'t> {
    /// The text that the span covers.
    pub text: &'t str,
    /// The text from the end of the span to the end of the file.
    pub after: &'t str,
}

/// Returns the text of a literal between its first and its last quote. Escapes are left as they are
/// spelled. Returns a text with fewer than two quotes unchanged.
pub(crate) fn between_quotes(literal: &str) -> &str {
    let Some(parts) = literal.split_once('"') else {
        return literal;
    };
    match parts.1.rsplit_once('"') {
        Some(inner) => inner.0,
        None => literal,
    }
}
