//! The type `Mermaid`, a Mermaid text to which code and labels are appended. Code comes from
//! constants, and each character of any other text passes through `push_label_char`. Used by all
//! modules that append lines or labels to a diagram.

ghost use Rattle.std.specs.Prelude.{◌≡◌, ◌↔◌, [], false, true, IfOk, IsOk, IsTrue, decimal, string_bytes};
ghost use Rattle.logos_diagram.specs.Imports.{Gains, coded, is_alphanumeric, is_between, is_coded, is_plain, label_char, label_text};

use logos_page::Page;
use std::alloc::{AllocError, Global};
use std::marker::Model;

/// Mermaid text to which code and labels are appended. The value records whether memory ran out, so
/// that only `finish` can fail.
#[derive(Drop)]
pub struct Mermaid {
    page: Page,
}

impl Model for Mermaid {
    ghost use Rattle.logos_page.specs.Pages.{PageValue};

    ghost Value = { PageValue };

    ghost view = { λ mermaid. mermaid.page };
}

impl Mermaid {
    /// Returns an empty Mermaid text.
    pub fn new(alloc: Global) -> Mermaid
        ensures { result ≡ record { text = []; is_colored = false; is_whole = true } }
    {
        Mermaid {
            page: Page::new(alloc, false),
        }
    }

    /// Appends Mermaid code. The code is a constant of the program, so that text from a file never
    /// becomes code.
    pub fn push_code(&mut self, code: &'static str)
        ensures { Gains code.now self.old self.new }
    {
        self.page.push(code);
    }

    /// Appends a number in decimal.
    pub fn push_number(&mut self, number: usize)
        ensures { Gains (decimal number) self.old self.new }
    {
        self.page.push_number(number);
    }

    /// Appends a character of a label: an entity code for visible ASCII other than letters, digits
    /// and plain punctuation, and the shown form of any other character.
    pub fn push_label_char(&mut self, character: char)
        ensures { Gains (label_char character) self.old self.new }
    {
        if is_coded(character as u32) {
            self.push_coded(character as usize);
        } else {
            self.page.push_shown_char(character);
        }
    }

    /// Appends the entity code of the character with the code point `number`.
    fn push_coded(&mut self, number: usize)
        ensures { Gains (coded number) self.old self.new }
    {
        self.page.push("#");
        self.page.push_number(number);
        self.page.push(";");
    }

    /// Appends a text as part of a label. No character of the text ends the label.
    pub fn push_label(&mut self, text: &str)
        ensures { Gains (label_text text.now) self.old self.new }
    {
        for character in text.chars() {
            self.push_label_char(character);
        }
    }

    /// Returns the Mermaid text.
    ///
    /// # Errors
    ///
    /// Returns `AllocError` if memory ran out at any call.
    pub fn finish(self) -> Result<String, AllocError>
        ensures whole { IsOk result ↔ IsTrue self.is_whole }
        ensures text { IfOk result (λ text. string_bytes text ≡ self.text) }
    {
        self.page.finish()
    }
}

/// Returns whether a code point is visible ASCII other than letters, digits and plain punctuation.
fn is_coded(code: u32) -> bool
    ensures { result ≡ is_coded code }
{
    is_between(33, 126, code) & !(is_alphanumeric(code) | is_plain(code))
}

/// Returns whether a code point is an ASCII letter or digit.
fn is_alphanumeric(code: u32) -> bool
    ensures { result ≡ is_alphanumeric code }
{
    is_between(48, 57, code) | (is_between(65, 90, code) | is_between(97, 122, code))
}

/// Returns whether a code point is one of `( ) + , - . [ ] ^ _`.
fn is_plain(code: u32) -> bool
    ensures { result ≡ is_plain code }
{
    is_between(40, 41, code)
        | (is_between(43, 46, code) | ((code == 91) | is_between(93, 95, code)))
}

/// Returns whether `number` is in `from..=to`.
fn is_between(from: u32, to: u32, number: u32) -> bool
    ensures { result ≡ is_between from to number }
{
    (from <= number) & (number <= to)
}
