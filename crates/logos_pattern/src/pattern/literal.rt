//! The literals of patterns, with their values. The readers of attributes make literals, and
//! `pattern` makes patterns from literals.

ghost use Rattle.std.specs.Prelude.{◌≡◌, ◌<◌, ◌++◌, OnOk, string_bytes, IfOk, IfSome, option_map};
ghost use Rattle.logos_pattern.specs.Views.{flat_map, chars, is_metacharacter, escaped_character, upper_digit, escaped_byte, escaped_bytes, IsValue, token_of, held_value, is_unicode, held_bytes, escaped};

use logos_token::error::Memory;
use logos_token::token;
use logos_token::token::{LiteralValue, Span};
use std::alloc::{AllocError, Global};

/// A string literal and its value.
#[derive(Drop)]
pub struct StringLiteral<'s> {
    token: token::Literal<'s>,
    value: String,
}

/// A byte string literal and its value.
#[derive(Drop)]
pub struct ByteStringLiteral<'s> {
    token: token::Literal<'s>,
    value: Vec<u8>,
}

/// The literal of a `token`, `regex` or `skip`.
#[derive(Drop)]
pub enum Literal<'s> {
    /// A string, whose pattern matches characters.
    Utf8(StringLiteral<'s>),
    /// A byte string, whose pattern matches bytes.
    Bytes(ByteStringLiteral<'s>),
}

/// Returns whether `character` has a special meaning in a pattern.
fn is_metacharacter(character: char) -> bool
    ensures { result ≡ is_metacharacter character }
{
    [
        '\\', '.', '+', '*', '?', '(', ')', '|', '[', ']', '{', '}', '^', '$', '#', '&', '-', '~',
    ]
    .contains(&character)
}

/// Returns the uppercase hexadecimal digit of `value`, which must be less than 16.
fn upper_digit(value: u8) -> char
    requires { value < 16 }
    ensures { result ≡ upper_digit value }
{
    if value < 10 {
        return char::from(b'0' + value);
    }
    char::from(b'A' + (value - 10))
}

/// Appends to `text` a pattern that matches exactly `character`.
fn push_character(text: &mut String, character: char) -> Result<(), AllocError>
    ensures { OnOk result (string_bytes text.new ≡
        string_bytes text.old ++ escaped_character character) }
{
    if is_metacharacter(character) {
        text.push('\\')?;
    }
    text.push(character)
}

/// Appends to `text` a pattern that matches exactly `value`.
fn push_text(text: &mut String, value: &str) -> Result<(), AllocError>
    ensures { OnOk result (string_bytes text.new ≡
        string_bytes text.old ++ flat_map escaped_character (chars value.now)) }
{
    for character in value.chars() {
        push_character(text, character)?;
    }
    Ok(())
}

/// Appends a byte of a byte string to the text of a pattern. A byte greater than 0x7F is appended
/// as `\xNN`, and any other byte as its character. If `literal` is `true`, a `\` precedes a
/// character with a special meaning, so that the pattern matches exactly the byte.
fn push_byte(text: &mut String, literal: bool, byte: u8) -> Result<(), AllocError>
    ensures { OnOk result (string_bytes text.new ≡
        string_bytes text.old ++ escaped_byte literal byte) }
{
    if byte >= 128 {
        text.push_str("\\x")?;
        text.push(upper_digit(byte / 16))?;
        return text.push(upper_digit(byte % 16));
    }
    if literal {
        return push_character(text, char::from(byte));
    }
    text.push(char::from(byte))
}

/// Appends the value of a byte string to the text of a pattern. Each byte greater than 0x7F is
/// appended as `\xNN`. If `literal` is `true`, a `\` precedes each character with a special
/// meaning, so that the pattern matches exactly the value.
fn push_bytes(text: &mut String, literal: bool, value: &[u8]) -> Result<(), AllocError>
    ensures { OnOk result (string_bytes text.new ≡
        string_bytes text.old ++ escaped_bytes literal value.now) }
{
    for byte in value {
        push_byte(text, literal, *byte)?;
    }
    Ok(())
}

impl<'s> Literal<'s> {
    /// Reads the value of `token`, without the literal's suffix. Returns `None` if `token` is
    /// neither a string nor a byte string.
    ///
    /// # Errors
    ///
    /// Returns `Memory` if memory runs out.
    pub fn read(alloc: Global, token: &token::Literal<'s>) -> Result<Option<Literal<'s>>, Memory>
        ensures token { IfOk result (λ read. IfSome read (λ literal. token_of literal ≡
            token.now)) }
        ensures value { IfOk result (λ read. IsValue token.now.text.now
            (option_map held_value read)) }
    {
        let token = *token;
        match token.value(alloc)? {
            Some(LiteralValue::Text(value)) => {
                Ok(Some(Literal::Utf8(StringLiteral { token, value })))
            }
            Some(LiteralValue::Bytes(value)) => {
                Ok(Some(Literal::Bytes(ByteStringLiteral { token, value })))
            }
            None => Ok(None),
        }
    }

    /// Returns the token from which the literal was read.
    pub fn token(&self) -> token::Literal<'s>
        ensures { result ≡ token_of self.now }
    {
        match self {
            Literal::Utf8(string) => string.token,
            Literal::Bytes(bytes) => bytes.token,
        }
    }

    /// Returns whether the literal is a string. The pattern of a string matches characters.
    pub fn unicode(&self) -> bool
        ensures { result ≡ is_unicode self.now }
    {
        match self {
            Literal::Utf8(_) => true,
            Literal::Bytes(_) => false,
        }
    }

    /// Returns the literal's span in the source, in bytes.
    pub fn span(&self) -> Span
        ensures { result ≡ (token_of self.now).span }
    {
        self.token().span
    }

    /// Returns the bytes of the literal's value. The value of a string is encoded as UTF-8.
    pub fn value(&self) -> &[u8]
        ensures { result.now ≡ held_bytes self.now }
    {
        match self {
            Literal::Utf8(string) => string.value.as_bytes(),
            Literal::Bytes(bytes) => bytes.value.as_slice(),
        }
    }

    /// Returns the value as the text of a pattern. Each byte of a byte string that is greater than
    /// 0x7F is printed as `\xNN`. If `literal` is `true`, a `\` precedes each of ``\ . + * ? ( ) |
    /// [ ] { } ^ $ # & - ~``, so that the pattern matches exactly the value.
    ///
    /// # Errors
    ///
    /// Returns `Memory` if memory runs out.
    pub fn escape(&self, alloc: Global, literal: bool) -> Result<String, Memory>
        ensures { IfOk result (λ text. string_bytes text ≡ escaped self.now literal) }
    {
        let mut text = String::new(alloc);
        match self {
            Literal::Utf8(string) if literal => push_text(&mut text, string.value.as_str())?,
            Literal::Utf8(string) => text.push_str(string.value.as_str())?,
            Literal::Bytes(bytes) => push_bytes(&mut text, literal, bytes.value.as_slice())?,
        }
        Ok(text)
    }
}
