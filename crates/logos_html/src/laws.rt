//! Laws about how browsers read the text of a page.

ghost use Rattle.std.specs.Prelude.{◌≡◌, ℕ, List};
ghost use Rattle.logos_html.specs.Imports.{ReadsAs, escaped_lines, escaped_text, shown_lines, shown_text};

/// A browser reads an escaped text as the shown form of the text: each character that would be
/// markup is a character reference, and no other byte is markup.
pub fn escaped_text_reads_as_shown()
    ensures { (text : List ℕ) → ReadsAs (escaped_text text) (shown_text text) }
{}

/// A browser reads escaped lines as the shown form of the lines: LF ends each line, and no byte is
/// markup.
pub fn escaped_lines_read_as_shown()
    ensures { (text : List ℕ) → ReadsAs (escaped_lines text) (shown_lines text) }
{}
