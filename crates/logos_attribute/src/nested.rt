//! Splits the tokens in an attribute into arguments without copying the tokens. `logos_definition`
//! reads the arguments one by one.

ghost use Rattle.std.specs.Prelude.{◌≡◌, MatchOption, [], ◌≢◌};
ghost use Rattle.logos_attribute.specs.Views.{Token, TokenList, none, also, append, rest_of, tokens_of, tree_of, ident_slice, literal_slice, up_to_comma, after_comma, pieces, after_name, after_group, after_keyword, through_comma, without_comma, rest_after_name, rest_after_piece, rest_after_group, name_token, named, assigned, beside, keyed, unnamed, unexpected, first_run, after_mark, item_count, Cuts, IsSplit, piece_of, pieces_left, rest_after, YieldsNext};

use logos_token::token::{Ident, Literal, TokenTree, Tokens};
use logos_token::util::is_punct;

/// The tokens of an argument after its name.
#[derive(Clone, Copy)]
pub enum NestedValue<'t, 's> {
    /// The tokens after the `=` of `name = ..`.
    Assign(Tokens<'t, 's>),
    /// The literal of `name "literal"`.
    Literal(Literal<'s>),
    /// The tokens inside the delimiters of `name(..)`.
    Group(Tokens<'t, 's>),
    /// The second name of `name ident = ..`, `name ident, ..` or `name ident`, and the tokens after
    /// the `=` or the comma, up to the next lone comma.
    KeywordAssign(Ident<'s>, Tokens<'t, 's>),
}

/// An argument of an attribute. Its tokens are not copied.
#[derive(Clone, Copy)]
pub enum Nested<'t, 's> {
    /// A name alone, a name that is followed by a documentation comment or by punctuation other
    /// than `=`, or tokens that do not begin with a name.
    Unnamed(Tokens<'t, 's>),
    /// A name and its value.
    Named(Ident<'s>, NestedValue<'t, 's>),
    /// Tokens that are not expected after a group or after two names.
    Unexpected(Tokens<'t, 's>),
}

/// A parser that splits the tokens in an attribute into arguments at each lone comma. A comma is
/// lone if it is not directly followed by punctuation.
#[derive(Clone, Copy)]
pub struct AttributeParser<'t, 's> {
    rest: Tokens<'t, 's>,
    /// Whether the last argument was a name with a group, and no comma has been read after the
    /// group.
    after_group: bool,
}

/// Returns the first token of `tokens` and the tokens after it, or `None` if `tokens` is empty.
pub fn split<'t, 's>(tokens: Tokens<'t, 's>) -> Option<(TokenTree<'t, 's>, Tokens<'t, 's>)>
    ensures { MatchOption result
        (tokens_of tokens.entry ≡ none)
        (λ read. IsSplit tokens.entry read.0 read.1) }
{
    let tree = tokens.first()?;
    Some((tree, tokens.rest()))
}

/// Returns the tokens from the first lone comma on, or an empty run if there is no lone comma.
fn comma_in<'t, 's>(tokens: Tokens<'t, 's>) -> Tokens<'t, 's>
    ensures parts { tokens_of tokens.entry
        ≡ append (up_to_comma (tokens_of tokens.entry)) (tokens_of result) }
    ensures after { rest_of (tokens_of result) ≡ after_comma (tokens_of tokens.entry) }
{
    let mut rest = tokens;
    while let Some((tree, after)) = split(rest) {
        if is_punct(&tree, ',') {
            return rest;
        }
        rest = after;
    }
    rest
}

/// Returns the run up to the first lone comma, and the tokens after the comma. If there is no lone
/// comma, returns all tokens and an empty run.
fn run_at<'t, 's>(tokens: Tokens<'t, 's>) -> (Tokens<'t, 's>, Tokens<'t, 's>)
    ensures run { tokens_of result.0 ≡ up_to_comma (tokens_of tokens.entry) }
    ensures after { tokens_of result.1 ≡ after_comma (tokens_of tokens.entry) }
{
    let end = comma_in(tokens);
    (tokens.before(end), end.rest())
}

/// Returns the run up to the next lone comma after the first token, and the tokens after this
/// comma. The first token belongs to the run even if it is a comma.
fn run_from<'t, 's>(tokens: Tokens<'t, 's>) -> (Tokens<'t, 's>, Tokens<'t, 's>)
    ensures run { tokens_of result.0 ≡ first_run (tokens_of tokens.entry) }
    ensures after { tokens_of result.1 ≡ after_comma (rest_of (tokens_of tokens.entry)) }
{
    let end = comma_in(tokens.rest());
    (tokens.before(end), end.rest())
}

/// Returns a parser for the arguments in `tokens`.
fn begin<'t, 's>(tokens: Tokens<'t, 's>) -> AttributeParser<'t, 's>
    ensures pieces { pieces_left result ≡ pieces (tokens_of tokens.entry) }
    ensures rest { result.rest ≡ tokens.entry }
{
    AttributeParser {
        rest: tokens,
        after_group: false,
    }
}

/// Reads the value at the front of `tokens`, which follow `name =`. Returns the argument, and a
/// parser for the tokens after the comma that ends the value.
fn assigned_at<'t, 's>(
    name: Ident<'s>,
    tokens: Tokens<'t, 's>,
) -> (Nested<'t, 's>, AttributeParser<'t, 's>)
    ensures { Cuts
        (through_comma (λ run. named (ident_slice name.entry) (assigned run))
        (tokens_of tokens.entry))
        (after_comma (tokens_of tokens.entry))
        result.0 result.1 }
{
    let (run, rest) = run_at(tokens);
    (Nested::Named(name, NestedValue::Assign(run)), begin(rest))
}

/// Reads the value at the front of `tokens`, which follow the names `keyword` and `name`. Returns
/// the argument, and a parser for the tokens after the comma that ends the value.
fn keyed_at<'t, 's>(
    keyword: Ident<'s>,
    name: Ident<'s>,
    tokens: Tokens<'t, 's>,
) -> (Nested<'t, 's>, AttributeParser<'t, 's>)
    ensures { Cuts
        (through_comma
        (λ run. named (ident_slice keyword.entry) (keyed (ident_slice name.entry) run))
        (tokens_of tokens.entry))
        (after_comma (tokens_of tokens.entry))
        result.0 result.1 }
{
    let (run, rest) = run_at(tokens);
    (
        Nested::Named(keyword, NestedValue::KeywordAssign(name, run)),
        begin(rest),
    )
}

/// Returns the argument that consists of `name` and `literal`, and a parser for the tokens after
/// the next lone comma in `tokens`. Skips the tokens before the comma.
fn beside_at<'t, 's>(
    name: Ident<'s>,
    literal: Literal<'s>,
    tokens: Tokens<'t, 's>,
) -> (Nested<'t, 's>, AttributeParser<'t, 's>)
    ensures { Cuts
        (through_comma
        (λ run. named (ident_slice name.entry) (beside (literal_slice literal.entry)))
        (tokens_of tokens.entry))
        (after_comma (tokens_of tokens.entry))
        result.0 result.1 }
{
    let (_, rest) = run_at(tokens);
    (
        Nested::Named(name, NestedValue::Literal(literal)),
        begin(rest),
    )
}

/// Reads unexpected tokens up to the next lone comma. Returns the tokens as an argument, and a
/// parser for the tokens after the comma.
fn unexpected_at<'t, 's>(tokens: Tokens<'t, 's>) -> (Nested<'t, 's>, AttributeParser<'t, 's>)
    ensures { Cuts (through_comma (λ run. unexpected run) (tokens_of tokens.entry))
        (after_comma (tokens_of tokens.entry)) result.0 result.1 }
{
    let (run, rest) = run_at(tokens);
    (Nested::Unexpected(run), begin(rest))
}

/// Reads a token of any form, and the tokens after it up to the next lone comma. Returns these
/// tokens as an argument, and a parser for the tokens after the comma.
fn unnamed_at<'t, 's>(tokens: Tokens<'t, 's>) -> (Nested<'t, 's>, AttributeParser<'t, 's>)
    ensures { (first : Token) (rest : TokenList) → tokens_of tokens.entry ≡ also first rest →
        Cuts (through_comma (λ run. unnamed (also first run)) rest) (after_comma rest)
        result.0 result.1 }
{
    let (run, rest) = run_from(tokens);
    (Nested::Unnamed(run), begin(rest))
}

/// Reads `tokens`, which follow the names `keyword` and `name`. Returns the argument, and a parser
/// for the tokens after the argument.
fn keyword_at<'t, 's>(
    keyword: Ident<'s>,
    name: Ident<'s>,
    tokens: Tokens<'t, 's>,
) -> (Nested<'t, 's>, AttributeParser<'t, 's>)
    ensures { Cuts
        (after_keyword (ident_slice keyword.entry) (ident_slice name.entry)
        (tokens_of tokens.entry))
        (after_comma (rest_of (tokens_of tokens.entry)))
        result.0 result.1 }
{
    let Some((tree, rest)) = split(tokens) else {
        return keyed_at(keyword, name, tokens);
    };
    if is_punct(&tree, '=') {
        return keyed_at(keyword, name, rest);
    }
    if is_punct(&tree, ',') {
        return keyed_at(keyword, name, rest);
    }
    unexpected_at(tokens)
}

/// Reads the argument at the front of `whole`. The run `whole` consists of `name`, `tree` and
/// `tokens`, and `tree` must not be a name, a literal or a group. Returns the argument, and a
/// parser for the tokens after the argument.
fn mark_at<'t, 's>(
    whole: Tokens<'t, 's>,
    name: Ident<'s>,
    tree: TokenTree<'t, 's>,
    tokens: Tokens<'t, 's>,
) -> (Nested<'t, 's>, AttributeParser<'t, 's>)
    requires { tokens_of whole
        ≡ also (name_token (ident_slice name)) (also (tree_of tree) (tokens_of tokens)) }
    ensures { Cuts
        (after_mark (ident_slice name.entry) (tree_of tree.entry) (tokens_of tokens.entry))
        (after_comma (also (tree_of tree.entry) (tokens_of tokens.entry)))
        result.0 result.1 }
{
    if is_punct(&tree, '=') {
        return assigned_at(name, tokens);
    }
    unnamed_at(whole)
}

/// Returns a parser for the arguments in `tokens`, which follow a name and a group. If `tokens`
/// begin with a comma, removes the comma, so that `AttributeParser::run` begins after it.
fn end_group<'t, 's>(tokens: Tokens<'t, 's>) -> AttributeParser<'t, 's>
    ensures pieces { pieces_left result ≡ after_group (tokens_of tokens.entry) }
    ensures rest { tokens_of result.rest ≡ without_comma (tokens_of tokens.entry) }
{
    match split(tokens) {
        Some((tree, rest)) if is_punct(&tree, ',') => begin(rest),
        _ => AttributeParser {
            rest: tokens,
            after_group: true,
        },
    }
}

/// Reads the argument at the front of `whole`. The run `whole` consists of `name` and `tokens`.
/// Returns the argument, and a parser for the tokens after the argument.
fn name_at<'t, 's>(
    whole: Tokens<'t, 's>,
    name: Ident<'s>,
    tokens: Tokens<'t, 's>,
) -> (Nested<'t, 's>, AttributeParser<'t, 's>)
    requires { tokens_of whole ≡ also (name_token (ident_slice name)) (tokens_of tokens) }
    ensures { Cuts
        (after_name (ident_slice name.entry) (tokens_of tokens.entry))
        (rest_after_name (tokens_of tokens.entry))
        result.0 result.1 }
{
    match split(tokens) {
        None => unnamed_at(whole),
        Some((TokenTree::Literal(literal), rest)) => beside_at(name, literal, rest),
        Some((TokenTree::Group(group), rest)) => (
            Nested::Named(name, NestedValue::Group(group.run())),
            end_group(rest),
        ),
        Some((TokenTree::Ident(second), rest)) => keyword_at(name, second, rest),
        Some((TokenTree::Punct(punct), rest)) => mark_at(
            whole,
            name,
            TokenTree::Punct(punct),
            rest,
        ),
        Some((TokenTree::Doc(doc), rest)) => mark_at(whole, name, TokenTree::Doc(doc), rest),
    }
}

/// Returns the argument at the front of `tokens`, and a parser for the tokens after the argument.
/// Returns `None` if `tokens` is empty.
fn piece_at<'t, 's>(tokens: Tokens<'t, 's>) -> Option<(Nested<'t, 's>, AttributeParser<'t, 's>)>
    ensures { MatchOption result
        (pieces (tokens_of tokens.entry) ≡ [])
        (λ read. Cuts
        (pieces (tokens_of tokens.entry)) (rest_after_piece (tokens_of tokens.entry))
        read.0 read.1) }
{
    match split(tokens) {
        None => None,
        Some((TokenTree::Ident(name), rest)) => Some(name_at(tokens, name, rest)),
        Some((TokenTree::Punct(_), _)) => Some(unnamed_at(tokens)),
        Some((TokenTree::Literal(_), _)) => Some(unnamed_at(tokens)),
        Some((TokenTree::Doc(_), _)) => Some(unnamed_at(tokens)),
        Some((TokenTree::Group(_), _)) => Some(unnamed_at(tokens)),
    }
}

/// Returns the argument that follows a name and a group, and a parser for the tokens after the
/// argument. Returns `None` if no argument follows.
fn piece_after_group<'t, 's>(
    tokens: Tokens<'t, 's>,
) -> Option<(Nested<'t, 's>, AttributeParser<'t, 's>)>
    ensures { MatchOption result
        (after_group (tokens_of tokens.entry) ≡ [])
        (λ read. Cuts
        (after_group (tokens_of tokens.entry)) (rest_after_group (tokens_of tokens.entry))
        read.0 read.1) }
{
    match split(tokens) {
        None => None,
        Some((tree, rest)) if is_punct(&tree, ',') => piece_at(rest),
        Some(_) => Some(unexpected_at(tokens)),
    }
}

impl<'t, 's> AttributeParser<'t, 's> {
    /// Returns a parser for the arguments in `tokens`.
    pub fn new(tokens: Tokens<'t, 's>) -> AttributeParser<'t, 's>
        ensures pieces { pieces_left result ≡ pieces (tokens_of tokens.entry) }
        ensures rest { tokens_of result.rest ≡ tokens_of tokens.entry }
    {
        begin(tokens)
    }

    /// Removes and returns the tokens up to the next lone comma, and removes the comma. Returns
    /// `None` if no token precedes the comma. The comma is removed in this case too.
    pub fn run(&mut self) -> Option<Tokens<'t, 's>>
        ensures run { MatchOption result
            (up_to_comma (tokens_of self.old.rest) ≡ none)
            (λ run. (tokens_of run ≡ up_to_comma (tokens_of self.old.rest))
            × (up_to_comma (tokens_of self.old.rest) ≢ none)) }
        ensures pieces { pieces_left self.new ≡ pieces (after_comma (tokens_of self.old.rest)) }
        ensures rest { tokens_of self.new.rest ≡ after_comma (tokens_of self.old.rest) }
    {
        let (run, rest) = run_at(self.rest);
        *self = begin(rest);
        if run.is_empty() {
            return None;
        }
        Some(run)
    }

    /// Returns the next argument, and a parser for the tokens after the argument. Returns `None` if
    /// no argument is left.
    fn read(self) -> Option<(Nested<'t, 's>, AttributeParser<'t, 's>)>
        ensures { MatchOption result
            (pieces_left self.entry ≡ [])
            (λ read. Cuts (pieces_left self.entry) (rest_after self.entry) read.0 read.1) }
    {
        if self.after_group {
            return piece_after_group(self.rest);
        }
        piece_at(self.rest)
    }
}

impl<'t, 's> Iterator for AttributeParser<'t, 's> {
    type Item = Nested<'t, 's>;

    ghost next_gives = { YieldsNext };

    ghost remaining = { item_count pieces_left };

    /// Removes and returns the next argument. Also removes the comma that ends the argument, so
    /// that `run` and `parsed` continue after the comma. If the result is `None`, the parser is
    /// unchanged.
    fn next(&mut self) -> Option<Nested<'t, 's>> {
        let (nested, rest) = self.read()?;
        *self = rest;
        Some(nested)
    }
}
