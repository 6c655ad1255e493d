//! Defines pages: texts with optional colors, to which other texts are appended. Used by all crates
//! that append to reports or answers.

ghost use Rattle.std.specs.Prelude.{◌≡◌, ◌↔◌, [], true, IfOk, IsOk, IsTrue, decimal, encode_utf8, length, string_bytes};
ghost use Rattle.logos_page.specs.Views.{shown_char, shown_text, Gains, begun, ended, painted, style_text, times};

use crate::shown::occur_in;
use std::alloc::{AllocError, Global};
use std::marker::Model;

/// The style of a text within a page with colors.
#[derive(Clone, Copy, Debug, PartialEq, Eq)]
pub enum Style {
    /// An error: bold and red.
    Error,
    /// A warning: bold and yellow.
    Warning,
    /// The frame around a line of a file: bold and blue.
    Frame,
    /// An emphasized text: bold.
    Strong,
}

/// A text with optional colors, to which other texts are appended. A page records whether memory
/// ran out, so only `finish` can fail.
#[derive(Drop)]
pub struct Page {
    text: String,
    is_colored: bool,
    is_whole: bool,
}

impl Model for Page {
    ghost use Rattle.std.specs.Prelude.{string_bytes};
    ghost use Rattle.logos_page.specs.Pages.{PageValue};

    ghost Value = { PageValue };

    ghost view = { λ page. record {
      text = string_bytes page.text;
      is_colored = page.is_colored;
      is_whole = page.is_whole;
    } };
}

impl Page {
    /// Returns an empty page. The page has colors if `is_colored` is `true`.
    pub fn new(alloc: Global, is_colored: bool) -> Page
        ensures { result ≡ record { text = []; is_colored = is_colored; is_whole = true } }
    {
        Page {
            text: String::new(alloc),
            is_colored,
            is_whole: true,
        }
    }

    /// Appends a text.
    pub fn push(&mut self, text: &str)
        ensures { Gains text.now self.old self.new }
    {
        if self.text.push_str(text).is_err() {
            self.is_whole = false;
        }
    }

    /// Appends a character.
    pub fn push_char(&mut self, character: char)
        ensures { Gains (encode_utf8 character) self.old self.new }
    {
        if self.text.push(character).is_err() {
            self.is_whole = false;
        }
    }

    /// Appends a character in a form that cannot control a terminal: a tab as four spaces, and any
    /// other character as the character that `occur_in` returns.
    pub fn push_shown_char(&mut self, character: char)
        ensures { Gains (shown_char character) self.old self.new }
    {
        if character == '\t' {
            self.push("    ");
        } else {
            self.push_char(occur_in(character));
        }
    }

    /// Appends a text in a form that cannot control a terminal.
    ///
    /// These characters are replaced:
    ///
    /// - a tab by four spaces,
    /// - any other ASCII control character by its symbol from Unicode's block Control Pictures,
    /// - any other character that controls a terminal, changes the order of a text or is invisible,
    ///   by U+FFFD.
    pub fn push_shown(&mut self, text: &str)
        ensures { Gains (shown_text text.now) self.old self.new }
    {
        for character in text.chars() {
            self.push_shown_char(character);
        }
    }

    /// Appends a number in decimal.
    pub fn push_number(&mut self, number: usize)
        ensures { Gains (decimal number) self.old self.new }
    {
        if write!(self.text, "{number}").is_err() {
            self.is_whole = false;
        }
    }

    /// Appends a text `count` times.
    pub fn push_times(&mut self, text: &str, count: usize)
        ensures { Gains (times count text.now) self.old self.new }
    {
        let mut pushed = 0;
        while pushed < count {
            self.push(text);
            pushed += 1;
        }
    }

    /// Begins a text in a style. Appends the escape sequence of the style if the page has colors.
    pub fn begin(&mut self, style: Style)
        ensures { Gains (begun self.old.is_colored style) self.old self.new }
    {
        if self.is_colored {
            self.push(style_text(style));
        }
    }

    /// Ends a text in a style. Appends the escape sequence that ends a style if the page has
    /// colors.
    pub fn end(&mut self)
        ensures { Gains (ended self.old.is_colored) self.old self.new }
    {
        if self.is_colored {
            self.push("\u{1b}[0m");
        }
    }

    /// Appends a text, in a style if the page has colors.
    pub fn paint(&mut self, style: Style, text: &str)
        ensures { Gains (painted self.old.is_colored style text.now) self.old self.new }
    {
        self.begin(style);
        self.push(text);
        self.end();
    }

    /// Returns the whole text.
    ///
    /// # Errors
    ///
    /// Returns `AllocError` if memory ran out in an earlier call on the page.
    pub fn finish(self) -> Result<String, AllocError>
        ensures whole { IsOk result ↔ IsTrue self.is_whole }
        ensures text { IfOk result (λ text. string_bytes text ≡ self.text) }
    {
        if self.is_whole {
            Ok(self.text)
        } else {
            Err(AllocError)
        }
    }
}

/// Returns the escape sequence that begins a text in the style `style` on a terminal.
fn style_text(style: Style) -> &'static str
    ensures { result.now ≡ style_text style }
{
    match style {
        Style::Error => "\u{1b}[1;31m",
        Style::Warning => "\u{1b}[1;33m",
        Style::Frame => "\u{1b}[1;34m",
        Style::Strong => "\u{1b}[1m",
    }
}

/// Returns the number of decimal digits of a number.
pub fn digits(number: usize) -> usize
    ensures { result ≡ length (decimal number) }
{
    let mut rest = number;
    let mut count: usize = 1;
    while rest >= 10 {
        rest /= 10;
        count += 1;
    }
    count
}
