//! Functions that print tokens as Rust text. The printers of callbacks, types and stripped enums
//! call `print`.

ghost use Rattle.std.specs.Prelude.{◌≡◌, ◌<◌, ◌∷◌, [], List, ℕ, IsUtf8, IfOk, IfSome, MatchOption, string_bytes, codes, if◌then◌else◌, OnOk};
ghost use Rattle.logos_token.specs.ViewImports.{SpellsAgain, IsRunOf, EndsJoint, Spells, TokenList, none, opening_text, closing_text, gap_after, is_line_comment, printed, encode_utf8, print_part, tokens_of, printed_of, PrintsOn, LeavesFewer, tree_of, PrintsTree};

use crate::error::Memory;
use crate::token::{Delimiter, Group, Spacing, TokenTree, Tokens};
use std::alloc::Global;

/// A printer of lexemes, with the text printed so far and the gap to print before the next lexeme.
#[derive(Drop)]
pub struct Printer {
    /// The lexemes printed so far, with the gaps between them.
    text: String,
    /// The gap to print before the next lexeme.
    gap: &'static str,
}

/// A group whose opening delimiter has been printed and whose closing delimiter has not.
#[derive(Clone, Copy)]
struct Outer<'t, 's> {
    /// The delimiters of the group.
    delimiter: Delimiter,
    /// The trees after the group.
    rest: Tokens<'t, 's>,
}

/// Returns the text of an opening delimiter.
pub fn opening_text(delimiter: Delimiter) -> &'static str
    ensures { result.now ≡ opening_text delimiter }
{
    match delimiter {
        Delimiter::Parenthesis => "(",
        Delimiter::Bracket => "[",
        Delimiter::Brace => "{",
    }
}

/// Returns the text of a closing delimiter.
pub fn closing_text(delimiter: Delimiter) -> &'static str
    ensures { result.now ≡ closing_text delimiter }
{
    match delimiter {
        Delimiter::Parenthesis => ")",
        Delimiter::Bracket => "]",
        Delimiter::Brace => "}",
    }
}

/// Returns the gap to print between punctuation and the next lexeme: a space for the spacing
/// `Alone`, and nothing for `Joint`.
pub fn gap_after(spacing: Spacing) -> &'static str
    ensures { result.now ≡ gap_after spacing }
{
    match spacing {
        Spacing::Alone => " ",
        Spacing::Joint => "",
    }
}

/// Returns the gap to print between the documentation comment `text` and the next lexeme: LF after
/// a line comment, and a space after a block comment.
pub fn gap_after_doc(text: &str) -> &'static str
    ensures { result.now ≡ (if is_line_comment text.now then 10 ∷ [] else codes " ") }
{
    match text.as_bytes() {
        [_, b'/', ..] => "\n",
        _ => " ",
    }
}

impl Printer {
    /// Returns a printer that has not printed anything yet and takes its memory from `alloc`.
    pub fn new(alloc: Global) -> Printer
        ensures { printed_of result ≡ record { text = []; gap = [] } }
    {
        Printer {
            text: String::new(alloc),
            gap: "",
        }
    }

    /// Returns the text printed so far, without the gap after the last lexeme.
    pub fn into_text(self) -> String
        ensures { string_bytes result ≡ (printed_of self).text }
    {
        self.text
    }

    /// Prints the gap after the previous lexeme and then the lexeme `text`. The gap after `text`
    /// will be `gap`.
    ///
    /// # Errors
    ///
    /// Returns `Memory` if memory runs out. The gap and a part of the lexeme may then have been
    /// printed.
    pub fn add(&mut self, text: &str, gap: &'static str) -> Result<(), Memory>
        ensures { OnOk result (printed_of self.new ≡
            print_part (printed_of self.old) (record { text = text.now; gap = gap.now })) }
    {
        self.text.push_str(self.gap)?;
        self.text.push_str(text)?;
        self.gap = gap;
        Ok(())
    }

    /// Prints the gap after the previous lexeme and then the lexeme `character`. The gap after
    /// `character` will be `gap`.
    ///
    /// # Errors
    ///
    /// Returns `Memory` if memory runs out. The gap may then have been printed.
    pub fn add_character(&mut self, character: char, gap: &'static str) -> Result<(), Memory>
        ensures { OnOk result (printed_of self.new ≡ print_part
            (printed_of self.old) (record { text = encode_utf8 character; gap = gap.now })) }
    {
        self.text.push_str(self.gap)?;
        self.text.push(character)?;
        self.gap = gap;
        Ok(())
    }

    /// Prints a token, or the opening delimiter of a group. Returns the group if its contents
    /// remain to be printed, or `None` for a token that is not a group.
    fn add_tree<'t, 's>(&mut self, tree: TokenTree<'t, 's>) -> Result<Option<Group<'t, 's>>, Memory>
        ensures { IfOk result (λ inner.
            PrintsTree (printed_of self.old) (tree_of tree.entry) (printed_of self.new) inner) }
    {
        match tree {
            TokenTree::Ident(ident) => self.add(ident.text, " ")?,
            TokenTree::Punct(punct) => {
                self.add_character(punct.character, gap_after(punct.spacing))?
            }
            TokenTree::Literal(literal) => self.add(literal.text, " ")?,
            TokenTree::Doc(doc) => self.add(doc.text, gap_after_doc(doc.text))?,
            TokenTree::Group(group) => {
                self.add(opening_text(group.delimiter), " ")?;
                return Ok(Some(group));
            }
        }
        Ok(None)
    }
}

/// Prints the closing delimiter of the innermost open group, and returns the trees after the group.
/// Returns `None` if no group is open.
fn leave<'t, 's>(
    printer: &mut Printer,
    outer: &mut Vec<Outer<'t, 's>>,
) -> Result<Option<Tokens<'t, 's>>, Memory>
    ensures ok { IfOk result (λ next. PrintsOn (printed_of printer.old) outer.old.items none
        (printed_of printer.new) outer.new.items next) }
    ensures fewer { IfOk result (λ next. LeavesFewer outer.old.items none outer.new.items next) }
{
    let Some(group) = outer.pop() else {
        return Ok(None);
    };
    printer.add(closing_text(group.delimiter), " ")?;
    Ok(Some(group.rest))
}

/// Prints the first tree of `rest`, or closes the innermost open group if `rest` is empty. Returns
/// the trees to print next, or `None` if all trees have been printed.
fn step<'t, 's>(
    printer: &mut Printer,
    outer: &mut Vec<Outer<'t, 's>>,
    rest: Tokens<'t, 's>,
) -> Result<Option<Tokens<'t, 's>>, Memory>
    ensures ok { IfOk result (λ next.
        PrintsOn (printed_of printer.old) outer.old.items (tokens_of rest.entry)
        (printed_of printer.new) outer.new.items next) }
    ensures fewer { IfOk result (λ next.
        LeavesFewer outer.old.items (tokens_of rest.entry) outer.new.items next) }
{
    let Some(tree) = rest.first() else {
        return leave(printer, outer);
    };
    let Some(group) = printer.add_tree(tree)? else {
        return Ok(Some(rest.rest()));
    };
    outer.push(Outer {
        delimiter: group.delimiter,
        rest: rest.rest(),
    })?;
    Ok(Some(group.run()))
}

/// Returns the text of the tokens. The lexemes are separated by one space, but by nothing after
/// joint punctuation and by LF after a line comment.
///
/// If the tokens occur in a source and the last token is not joint punctuation, the text spells the
/// same tokens again, apart from their spans.
///
/// # Errors
///
/// Returns `Memory` if memory runs out.
pub fn print(alloc: Global, run: Tokens<'_, '_>) -> Result<String, Memory>
    ensures text { IfOk result (λ text. string_bytes text ≡ printed (tokens_of run.entry)) }
    ensures back { IfOk result (λ text. (source : List ℕ) (tokens : TokenList) →
        IsUtf8 source → Spells source tokens → IsRunOf (tokens_of run.entry) tokens →
        (EndsJoint (tokens_of run.entry) → ⊥) →
        SpellsAgain (string_bytes text) (tokens_of run.entry)) }
{
    let mut printer = Printer::new(alloc);
    let mut outer = Vec::new(alloc);
    let mut rest = run;
    'trees: while let Some(next) = step(&mut printer, &mut outer, rest)? {
        rest = next;
    }
    Ok(printer.text)
}
