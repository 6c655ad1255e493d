//! Prints types. `logos_text` and `logos_tables` call `print_type` for the types of generated code,
//! and `logos_definition` calls it for the error type.

ghost use Rattle.std.specs.Prelude.{◌≡◌, IfOk, OnOk, fold, string_bytes};
ghost use Rattle.logos_type.specs.Views.{print_part, printed_of, sign_of, tree_of, lifetime_parts, sign_parts, type_parts, printed_type, type_tree};

use crate::type_expr::{TypeExpr, TypePart, TypeToken};
use logos_token::error::Memory;
use logos_token::token::{Printer, closing_text, gap_after, gap_after_doc, opening_text};
use std::alloc::Global;

/// Prints a lifetime as `'` and the name `text`.
fn add_lifetime(printer: &mut Printer, text: &str) -> Result<(), Memory>
    ensures { OnOk result (printed_of printer.new ≡
        fold print_part (printed_of printer.old) (lifetime_parts text.now)) }
{
    printer.add("'", "")?;
    printer.add(text, " ")
}

/// Prints `&`, followed by `lifetime` if there is one.
fn add_reference(printer: &mut Printer, lifetime: Option<&str>) -> Result<(), Memory>
    ensures { OnOk result (printed_of printer.new ≡
        fold print_part (printed_of printer.old)
        (sign_parts (sign_of (TypeToken.Reference lifetime.entry)))) }
{
    printer.add("&", " ")?;
    match lifetime {
        Some(text) => add_lifetime(printer, text),
        None => Ok(()),
    }
}

/// Prints a token.
fn add_leaf(printer: &mut Printer, leaf: TypeToken<'_>) -> Result<(), Memory>
    ensures { OnOk result (printed_of printer.new ≡
        fold print_part (printed_of printer.old) (sign_parts (sign_of leaf.entry))) }
{
    match leaf {
        TypeToken::Word(text) => printer.add(text, " "),
        TypeToken::Mark(character) => printer.add_character(character, " "),
        TypeToken::Colons => printer.add("::", " "),
        TypeToken::Arrow => printer.add("->", " "),
        TypeToken::Literal(text) => printer.add(text, " "),
        TypeToken::Open(delimiter) => printer.add(opening_text(delimiter), " "),
        TypeToken::Close(delimiter) => printer.add(closing_text(delimiter), " "),
        TypeToken::Reference(lifetime) => add_reference(printer, lifetime),
        TypeToken::Lifetime(text) => add_lifetime(printer, text),
        TypeToken::OtherLifetime(text) => add_lifetime(printer, text),
        TypeToken::Punct(character, spacing) => printer.add_character(
            character,
            gap_after(spacing),
        ),
        TypeToken::Doc(text) => printer.add(text, gap_after_doc(text)),
    }
}

/// Prints a part, including all parts inside it.
fn add_part(printer: &mut Printer, part: &TypePart<'_>) -> Result<(), Memory>
    ensures { OnOk result (printed_of printer.new ≡
        fold print_part (printed_of printer.old) (type_parts (tree_of part.now))) }
{
    match part {
        TypePart::Leaf(leaf) => add_leaf(printer, *leaf),
        TypePart::Name(text) => printer.add(text, " "),
        TypePart::Whole(parts) | TypePart::Still(parts) => {
            for inner in parts {
                add_part(printer, inner)?;
            }
            Ok(())
        }
    }
}

/// Returns the text of a type: its tokens, separated by single spaces. Each `<`, `>`, `&`, `::`,
/// `->` and lifetime is a token of its own. The tokens in the length of an array and in braces keep
/// their spacing.
///
/// # Errors
///
/// Returns `Memory` if memory runs out.
pub fn print_type(alloc: Global, type_expr: &TypeExpr<'_>) -> Result<String, Memory>
    ensures { IfOk result (λ text. string_bytes text ≡ printed_type (type_tree type_expr.now)) }
{
    let mut printer = Printer::new(alloc);
    add_part(&mut printer, &type_expr.part)?;
    Ok(printer.into_text())
}
