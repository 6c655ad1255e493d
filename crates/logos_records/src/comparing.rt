//! Writes the JSON object for a comparison of two lexers. Used by `logos_replies`.

ghost use Rattle.std.specs.Prelude.{◌≡◌, ◌++◌, ◌∷◌, [], codes, false, true};
ghost use Rattle.logos_records.specs.Imports.{Gains, Puts, bool_member, bytes_member, object, finding_member, mode_member};

use logos_answers::Finding;
use logos_json::JsonLines;

/// Appends the line with the object for two equivalent lexers.
pub fn push_same_record(lines: &mut JsonLines)
    ensures { Puts (object (bool_member (codes "same") true) ∷ []) lines.old lines.new }
{
    lines.begin_object();
    lines.push_bool("same", true);
    lines.end_object();
    lines.end_line();
}

/// Appends the line with the object for two lexers that differ: an input, and the match or error
/// that each lexer finds at the beginning of the input.
pub fn push_difference_record(
    lines: &mut JsonLines,
    input: &[u8],
    one: Finding<'_>,
    other: Finding<'_>,
)
    ensures { Puts (object (bool_member (codes "same") false ++ (bytes_member (codes "input") input.now
        ++ (finding_member (codes "old") one.entry ++ finding_member (codes "new") other.entry)))
        ∷ []) lines.old lines.new }
{
    lines.begin_object();
    lines.push_bool("same", false);
    lines.push_bytes("input", input);
    push_finding(lines, "old", one);
    push_finding(lines, "new", other);
    lines.end_object();
    lines.end_line();
}

/// Appends a member with the name `name`: the match or error that a lexer finds at the beginning of
/// an input.
fn push_finding(lines: &mut JsonLines, name: &str, finding: Finding<'_>)
    ensures { Gains (finding_member name.now finding.entry) lines.old lines.new }
{
    lines.push_name(name);
    lines.begin_object();
    lines.push_maybe_number("leaf", finding.leaf);
    lines.push_maybe_text("variant", finding.variant);
    lines.push_bytes("text", finding.bytes);
    lines.end_object();
}

/// Appends the line with the object for two lexers of which only one reads UTF-8. `one` and `other`
/// state whether the first and the second lexer read UTF-8.
pub fn push_modes_record(lines: &mut JsonLines, one: bool, other: bool)
    ensures { Puts (object (bool_member (codes "same") false ++ (mode_member (codes "old") one
        ++ mode_member (codes "new") other)) ∷ []) lines.old lines.new }
{
    lines.begin_object();
    lines.push_bool("same", false);
    push_mode(lines, "old", one);
    push_mode(lines, "new", other);
    lines.end_object();
    lines.end_line();
}

/// Appends a member with the name `name` that states whether a lexer reads UTF-8.
fn push_mode(lines: &mut JsonLines, name: &str, is_utf8: bool)
    ensures { Gains (mode_member name.now is_utf8) lines.old lines.new }
{
    lines.push_name(name);
    lines.begin_object();
    lines.push_bool("utf8", is_utf8);
    lines.end_object();
}
