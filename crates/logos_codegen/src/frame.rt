//! Defines the options of a source that determine the text around the body of the source's lexer.
//! Used by `Generated`.

ghost use Rattle.std.specs.Prelude.{◌≡◌, option_map, option_copied};
ghost use Rattle.logos_codegen.specs.Views.{around_options, around_value, error_run, error_tree, error_view, input_text, run_in, stream_tokens, tokens_of, type_tree};

use logos_definition::error_type::ErrorType;
use logos_text::Around;
use logos_token::token::{TokenStream, Tokens};
use logos_token::util::MaybeVoid;
use logos_type::TypeExpr;

/// The options of a source that determine the text around the body of the source's lexer.
#[derive(Drop)]
pub(crate) struct AroundOptions<'s> {
    /// The path of the crate `logos`, or `None` if the source does not set the path.
    pub(crate) library: Option<TokenStream<'s>>,
    pub(crate) error_type: Option<ErrorType<'s>>,
    pub(crate) extras: MaybeVoid<'s>,
}

impl<'s> AroundOptions<'s> {
    /// Returns the parts of the text around a body, as the options determine them. `utf8_mode` is
    /// `true` if inputs are UTF-8.
    pub(crate) fn around(&self, utf8_mode: bool) -> Around<'_, 's>
        ensures { around_value result ≡ around_options self.now utf8_mode }
    {
        Around {
            logos: run_of(self.library.as_ref()),
            error: error_run(self.error_type.as_ref()),
            error_type: read_type(self.error_type.as_ref()),
            extras: run_in(&self.extras),
            source: input_text(utf8_mode),
        }
    }
}

/// Returns the text of the type of inputs, followed by a blank.
fn input_text(utf8_mode: bool) -> &'static str
    ensures { result.now ≡ input_text utf8_mode }
{
    if utf8_mode { "str " } else { "[ u8 ] " }
}

/// Returns the tokens of a path, or `None` if there is no path.
fn run_of<'t, 's>(path: Option<&'t TokenStream<'s>>) -> Option<Tokens<'t, 's>>
    ensures { option_map tokens_of result ≡ option_map stream_tokens (option_copied path.entry) }
{
    match path {
        Some(stream) => Some(stream.run()),
        None => None,
    }
}

/// Returns the tokens of a type, or `None` for `Void`.
fn run_in<'t, 's>(tokens: &'t MaybeVoid<'s>) -> Option<Tokens<'t, 's>>
    ensures { option_map tokens_of result ≡ run_in tokens.now }
{
    match tokens {
        MaybeVoid::Some(stream) => Some(stream.run()),
        MaybeVoid::Void => None,
    }
}

/// Returns the tokens of the type of errors, or `None` if the source does not set the type or sets
/// it to `Void`.
fn error_run<'t, 's>(error: Option<&'t ErrorType<'s>>) -> Option<Tokens<'t, 's>>
    ensures { option_map tokens_of result
        ≡ error_run (option_map error_view (option_copied error.entry)) }
{
    match error {
        Some(error) => run_in(&error.ty),
        None => None,
    }
}

/// Returns the parsed type of errors, or `None` if the source sets no type or the type was not
/// parsed.
fn read_type<'t, 's>(error: Option<&'t ErrorType<'s>>) -> Option<&'t TypeExpr<'s>>
    ensures { option_map type_tree (option_copied result)
        ≡ error_tree (option_map error_view (option_copied error.entry)) }
{
    match error {
        Some(error) => error.type_expr.as_ref(),
        None => None,
    }
}
