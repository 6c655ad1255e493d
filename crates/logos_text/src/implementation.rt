//! Printers of the beginning of the implementation of `Logos`, before the body of the function
//! `lex`. `code` calls them.

ghost use Rattle.std.specs.Prelude.{[], ◌++◌, OnOk, option_copied, option_map};
ghost use Rattle.logos_text.specs.Views.{Prints, answer_text, around_value, core_text, error_type_runs, error_type_text, gap_after, head_runs, head_text, internals_text, lexer_end_text, lexer_text, library_text, library_twice};
ghost use Rattle.logos_text.specs.Views.{opening_runs, opening_text, option_runs, read_type_runs, read_type_text, signature_text, source_text, tables_use_text, this_runs, tokens_of, type_text, type_tree, typed_runs, types_runs, types_text, uses_runs, uses_text};

use crate::gaps::gap_after;
use crate::names::Names;
use crate::sink::Sink;
use logos_token::error::Memory;
use logos_token::token::{Ident, Tokens, print};
use logos_type::{TypeExpr, print_type};
use std::alloc::Global;

/// The values that determine the text around the body of a lexer: the path of the library, and the
/// types of errors, extras and inputs.
#[derive(Clone, Copy)]
pub struct Around<'t, 's> {
    /// The path of the `logos` library, or `None` for `::logos`.
    pub logos: Option<Tokens<'t, 's>>,
    /// The tokens of the type of errors, or `None` for `()`.
    pub error: Option<Tokens<'t, 's>>,
    /// The type of errors that was read from the tokens of `error`, or `None` if the tokens were
    /// not read. The type is printed instead of the tokens.
    pub error_type: Option<&'t TypeExpr<'s>>,
    /// The tokens of the type of extras, or `None` for `()`.
    pub extras: Option<Tokens<'t, 's>>,
    /// The text of the type of inputs, with the gap after the text.
    pub source: &'static str,
}

/// Appends the text before the body of a lexer. `lead` is the text before the function `lex`, and
/// `core` is the path of Rust's `core`, with the gap after the path.
pub(crate) fn push_front(
    alloc: Global,
    sink: &mut Sink,
    around: Around<'_, '_>,
    names: Names<'_>,
    lead: &str,
    core: &str,
) -> Result<(), Memory>
    ensures { OnOk result (Prints
        (opening_text lead.now core.now (around_value around.entry) names.entry.this.now)
        (opening_runs (around_value around.entry) names.entry.name names.entry.this.now)
        sink.old sink.new) }
{
    push_head(alloc, sink, around.logos, names)?;
    push_types(alloc, sink, around)?;
    push_signature(alloc, sink, lead, core, around.logos)?;
    push_uses(alloc, sink, core, around.logos, names.this)?;
    Ok(())
}

/// Appends the path `library` of the library, or `::logos` if `library` is `None`, and the gap
/// after the path.
fn push_library(
    alloc: Global,
    sink: &mut Sink,
    library: Option<Tokens<'_, '_>>,
) -> Result<(), Memory>
    ensures { OnOk result (Prints (library_text (option_map tokens_of library.entry))
        (option_runs (option_map tokens_of library.entry)) sink.old sink.new) }
{
    match library {
        Some(path) => sink.push_run(alloc, path),
        None => sink.push(":: logos "),
    }
}

/// Appends `this`, the printed type of the enum. If `this` begins with the enum's name `name`, the
/// name becomes a piece.
fn push_this(sink: &mut Sink, name: Ident<'_>, this: &str) -> Result<(), Memory>
    ensures { OnOk result (Prints this.now (this_runs name.entry this.now) sink.old sink.new) }
{
    match this.strip_prefix(name.text) {
        Some(rest) => {
            sink.push_name(name)?;
            sink.push(rest)?;
            Ok(())
        }
        None => {
            sink.push(this)?;
            Ok(())
        }
    }
}

/// Appends the head of the implementation, up to its opening brace.
fn push_head(
    alloc: Global,
    sink: &mut Sink,
    library: Option<Tokens<'_, '_>>,
    names: Names<'_>,
) -> Result<(), Memory>
    ensures { OnOk result (Prints
        (head_text (library_text (option_map tokens_of library.entry)) names.entry.this.now)
        (head_runs (option_map tokens_of library.entry) names.entry.name names.entry.this.now)
        sink.old sink.new) }
{
    sink.push("impl < 's > ")?;
    push_library(alloc, sink, library)?;
    sink.push(":: Logos < 's > for ")?;
    push_this(sink, names.name, names.this)?;
    sink.push(" { ")?;
    Ok(())
}

/// Appends the associated types of the implementation.
fn push_types(alloc: Global, sink: &mut Sink, around: Around<'_, '_>) -> Result<(), Memory>
    ensures { OnOk result (Prints (types_text (around_value around.entry))
        (types_runs (around_value around.entry)) sink.old sink.new) }
{
    sink.push("type Error = ")?;
    push_error(alloc, sink, around)?;
    sink.push("; type Extras = ")?;
    push_type(alloc, sink, around.extras)?;
    push_source(sink, around.source)?;
    Ok(())
}

/// Appends the associated type `Source`, which is the type of inputs.
fn push_source(sink: &mut Sink, source: &str) -> Result<(), Memory>
    ensures { OnOk result (Prints (source_text source.now) [] sink.old sink.new) }
{
    write!(sink.text, "; type Source = {source}; ")?;
    Ok(())
}

/// Appends the type of errors, and the gap after the type.
fn push_error(alloc: Global, sink: &mut Sink, around: Around<'_, '_>) -> Result<(), Memory>
    ensures { OnOk result (Prints
        (error_type_text (option_map type_tree (option_copied around.entry.error_type))
        (option_map tokens_of around.entry.error))
        (error_type_runs (option_map type_tree (option_copied around.entry.error_type))
        (option_map tokens_of around.entry.error)) sink.old sink.new) }
{
    match around.error_type {
        Some(error) => push_read_type(alloc, sink, error, around.error),
        None => push_type(alloc, sink, around.error),
    }
}

/// Appends the type `expr`, which was read from `tokens`, and the gap after the tokens, or a space
/// if there are no tokens. If the printed tokens equal the printed type, the tokens become a piece.
fn push_read_type(
    alloc: Global,
    sink: &mut Sink,
    expr: &TypeExpr<'_>,
    tokens: Option<Tokens<'_, '_>>,
) -> Result<(), Memory>
    ensures { OnOk result (Prints
        (read_type_text (type_tree expr.now) (option_map tokens_of tokens.entry))
        (read_type_runs (type_tree expr.now) (option_map tokens_of tokens.entry))
        sink.old sink.new) }
{
    let printed = print_type(alloc, expr)?;
    match tokens {
        Some(run) => push_typed_run(alloc, sink, printed.as_str(), run),
        None => {
            sink.push(printed.as_str())?;
            sink.push(" ")?;
            Ok(())
        }
    }
}

/// Appends `printed`, the printed form of a type that was read from the tokens `run`, and the gap
/// after the tokens. If the printed tokens equal `printed`, the tokens become a piece.
fn push_typed_run(
    alloc: Global,
    sink: &mut Sink,
    printed: &str,
    run: Tokens<'_, '_>,
) -> Result<(), Memory>
    ensures { OnOk result (Prints (printed.now ++ gap_after [] (tokens_of run.entry))
        (typed_runs printed.now (tokens_of run.entry)) sink.old sink.new) }
{
    let text = print(alloc, run)?;
    if text.as_str() == printed {
        sink.push_run(alloc, run)?;
        return Ok(());
    }
    sink.push(printed)?;
    sink.push(gap_after(run))?;
    Ok(())
}

/// Appends the type with the tokens `tokens`, or `()` if `tokens` is `None`, and the gap after the
/// type.
fn push_type(alloc: Global, sink: &mut Sink, tokens: Option<Tokens<'_, '_>>) -> Result<(), Memory>
    ensures { OnOk result (Prints (type_text (option_map tokens_of tokens.entry))
        (option_runs (option_map tokens_of tokens.entry)) sink.old sink.new) }
{
    match tokens {
        Some(run) => sink.push_run(alloc, run),
        None => sink.push("( ) "),
    }
}

/// Appends `lead` and the signature of the function `lex`.
fn push_signature(
    alloc: Global,
    sink: &mut Sink,
    lead: &str,
    core: &str,
    library: Option<Tokens<'_, '_>>,
) -> Result<(), Memory>
    ensures { OnOk result (Prints
        (signature_text lead.now core.now (library_text (option_map tokens_of library.entry)))
        (library_twice (option_map tokens_of library.entry)) sink.old sink.new) }
{
    sink.push(lead)?;
    sink.push("fn lex ( lex : & mut ")?;
    push_library(alloc, sink, library)?;
    push_answer(sink, core)?;
    push_library(alloc, sink, library)?;
    sink.push(":: Logos < 's >> :: Error >> { ")?;
    Ok(())
}

/// Appends the text between the two paths of the library in a signature: the end of the lexer's
/// type, and the beginning of the result type.
fn push_answer(sink: &mut Sink, core: &str) -> Result<(), Memory>
    ensures { OnOk result (Prints (answer_text core.now) [] sink.old sink.new) }
{
    write!(
        sink.text,
        ":: Lexer < 's , Self > ) -> {core}:: option :: Option < {core}:: result :: Result < Self , < Self as "
    )?;
    Ok(())
}

/// Appends the imports of the names that the body uses.
fn push_uses(
    alloc: Global,
    sink: &mut Sink,
    core: &str,
    library: Option<Tokens<'_, '_>>,
    this: &str,
) -> Result<(), Memory>
    ensures { OnOk result (Prints
        (uses_text core.now (library_text (option_map tokens_of library.entry)) this.now)
        (uses_runs (option_map tokens_of library.entry)) sink.old sink.new) }
{
    push_internals(alloc, sink, library)?;
    push_core(sink, core)?;
    push_lexer(alloc, sink, library, this)?;
    Ok(())
}

/// Appends the import of the library's internal items that the body uses.
fn push_internals(
    alloc: Global,
    sink: &mut Sink,
    library: Option<Tokens<'_, '_>>,
) -> Result<(), Memory>
    ensures { OnOk result (Prints (internals_text (library_text (option_map tokens_of library.entry)))
        (option_runs (option_map tokens_of library.entry)) sink.old sink.new) }
{
    sink.push("use ")?;
    push_library(alloc, sink, library)?;
    sink.push(
        ":: internal :: { LexerInternal , CallbackRetVal , CallbackResult , SkipRetVal , SkipResult , } ; ",
    )?;
    Ok(())
}

/// Appends the imports of `Result` and `Option` from Rust's `core`.
fn push_core(sink: &mut Sink, core: &str) -> Result<(), Memory>
    ensures { OnOk result (Prints (core_text core.now) [] sink.old sink.new) }
{
    write!(
        sink.text,
        "use {core}:: result :: Result as _Result ; use {core}:: option :: Option as _Option ; "
    )?;
    Ok(())
}

/// Appends the import of `Logos`, and `_Lexer`, an alias of the lexer's type.
fn push_lexer(
    alloc: Global,
    sink: &mut Sink,
    library: Option<Tokens<'_, '_>>,
    this: &str,
) -> Result<(), Memory>
    ensures { OnOk result (Prints
        (lexer_text (library_text (option_map tokens_of library.entry)) this.now)
        (library_twice (option_map tokens_of library.entry)) sink.old sink.new) }
{
    sink.push("use ")?;
    push_library(alloc, sink, library)?;
    sink.push(":: Logos ; type _Lexer < 's > = ")?;
    push_library(alloc, sink, library)?;
    push_lexer_end(sink, this)?;
    Ok(())
}

/// Appends the end of the lexer's type, which follows the path of the library.
fn push_lexer_end(sink: &mut Sink, this: &str) -> Result<(), Memory>
    ensures { OnOk result (Prints (lexer_end_text this.now) [] sink.old sink.new) }
{
    write!(sink.text, ":: Lexer < 's , {this} > ; ")?;
    Ok(())
}

/// Appends the import of the items of the library that a table-driven lexer uses.
pub(crate) fn push_tables_use(
    alloc: Global,
    sink: &mut Sink,
    library: Option<Tokens<'_, '_>>,
) -> Result<(), Memory>
    ensures { OnOk result (Prints (tables_use_text (library_text (option_map tokens_of library.entry)))
        (option_runs (option_map tokens_of library.entry)) sink.old sink.new) }
{
    sink.push("use ")?;
    push_library(alloc, sink, library)?;
    sink.push(":: internal :: { _Data , _Ranges , _Tables , _Unpacked } ; ")?;
    Ok(())
}
