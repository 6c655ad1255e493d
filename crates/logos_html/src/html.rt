//! Builds HTML from markup and text. Markup comes from constants, and each character of other text
//! passes through `push_char`. Used by `bytes`, `classes`, `document`, `drawing`, `leaves`, `spans`
//! and `states`.

ghost use Rattle.std.specs.Prelude.{◌≡◌, ◌↔◌, [], true, false, IfOk, IsOk, IsTrue, decimal, string_bytes};
ghost use Rattle.logos_html.specs.Views.{Gains, escaped_char, escaped_line_char, escaped_lines, escaped_text, line_end};

use logos_page::Page;
use std::alloc::{AllocError, Global};
use std::marker::Model;

/// HTML to which markup and text are appended. The value records whether memory ran out, so that
/// only `finish` can fail.
#[derive(Drop)]
pub struct Html {
    page: Page,
}

impl Model for Html {
    ghost use Rattle.logos_page.specs.Pages.{PageValue};

    ghost Value = { PageValue };

    ghost view = { λ html. html.page };
}

impl Html {
    /// Returns an `Html` without markup and text.
    pub fn new(alloc: Global) -> Html
        ensures { result ≡ record { text = []; is_colored = false; is_whole = true } }
    {
        Html {
            page: Page::new(alloc, false),
        }
    }

    /// Appends markup. The markup is a constant of the program, so that no text of a file becomes
    /// markup.
    pub fn push_markup(&mut self, markup: &'static str)
        ensures { Gains markup.now self.old self.new }
    {
        self.page.push(markup);
    }

    /// Appends `character` as text: as a character reference if `character` would otherwise be
    /// markup, and in its shown form if not.
    pub fn push_char(&mut self, character: char)
        ensures { Gains (escaped_char character) self.old self.new }
    {
        match character {
            '&' => self.page.push("&amp;"),
            '<' => self.page.push("&lt;"),
            '>' => self.page.push("&gt;"),
            '"' => self.page.push("&quot;"),
            '\'' => self.page.push("&#39;"),
            _ => self.page.push_shown_char(character),
        }
    }

    /// Appends a text. No character is read as markup, even in the value of an attribute.
    pub fn push_text(&mut self, text: &str)
        ensures { Gains (escaped_text text.now) self.old self.new }
    {
        for character in text.chars() {
            self.push_char(character);
        }
    }

    /// Appends a text of several lines, with the line ends. No character is read as markup, even in
    /// the value of an attribute.
    pub fn push_lines(&mut self, text: &str)
        ensures { Gains (escaped_lines text.now) self.old self.new }
    {
        for character in text.chars() {
            self.push_line_char(character);
        }
    }

    /// Appends a character of a text of several lines: LF unchanged, and any other character as
    /// text.
    fn push_line_char(&mut self, character: char)
        ensures { Gains (escaped_line_char character) self.old self.new }
    {
        if character == '\n' {
            self.page.push("\n");
        } else {
            self.push_char(character);
        }
    }

    /// Appends LF if `character` is LF, and nothing otherwise. In preformatted text, LF ends a line
    /// of the page.
    pub fn push_line_end(&mut self, character: char)
        ensures { Gains (line_end character) self.old self.new }
    {
        if character == '\n' {
            self.page.push("\n");
        }
    }

    /// Appends a number in decimal.
    pub fn push_number(&mut self, number: usize)
        ensures { Gains (decimal number) self.old self.new }
    {
        self.page.push_number(number);
    }

    /// Returns the HTML as a text.
    ///
    /// # Errors
    ///
    /// Returns `AllocError` if memory ran out in any call.
    pub fn finish(self) -> Result<String, AllocError>
        ensures whole { IsOk result ↔ IsTrue self.is_whole }
        ensures text { IfOk result (λ text. string_bytes text ≡ self.text) }
    {
        self.page.finish()
    }
}
