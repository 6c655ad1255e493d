//! Writes the JSON objects for leaves, and for the cost of a lexer. Used by `logos_replies`.

ghost use Rattle.std.specs.Prelude.{◌≡◌, ◌∷◌, []};
ghost use Rattle.logos_records.specs.Imports.{Gains, Puts, object, cost_members, leaf_members, leaf_objects, name_members, shape_members};

use logos_inspect::{Costs, LeafRow};
use logos_json::JsonLines;

/// Appends one line for each leaf of the enum `name`: a JSON object that describes the leaf. The
/// number of a leaf is its index in `rows`.
pub fn push_leaf_records(lines: &mut JsonLines, name: &str, rows: &[LeafRow<'_>])
    ensures { Puts (leaf_objects name.now 0 rows.now) lines.old lines.new }
{
    for number in 0..rows.len() {
        push_leaf_record(lines, name, number, rows[number]);
    }
}

/// Appends a line with the JSON object that describes the leaf with the number `number`.
fn push_leaf_record(lines: &mut JsonLines, name: &str, number: usize, row: LeafRow<'_>)
    ensures { Puts (object (leaf_members name.now number row.entry) ∷ []) lines.old lines.new }
{
    lines.begin_object();
    push_name_members(lines, name, number, row);
    push_shape_members(lines, row);
    lines.end_object();
    lines.end_line();
}

/// Appends the members with the enum, the number, the variant and the kind of a leaf. The variant
/// of a skip is null.
fn push_name_members(lines: &mut JsonLines, name: &str, number: usize, row: LeafRow<'_>)
    ensures { Gains (name_members name.now number row.entry) lines.old lines.new }
{
    lines.push_text("enum", name);
    lines.push_number("leaf", number);
    lines.push_maybe_text("variant", row.variant);
    lines.push_text("kind", if row.is_token { "token" } else { "regex" });
}

/// Appends the members with the pattern, the priority, the callback and the line of a leaf.
fn push_shape_members(lines: &mut JsonLines, row: LeafRow<'_>)
    ensures { Gains (shape_members row.entry) lines.old lines.new }
{
    lines.push_text("pattern", row.pattern);
    lines.push_number("priority", row.priority);
    lines.push_bool("default", row.is_default);
    lines.push_maybe_text("callback", row.callback);
    lines.push_number("line", row.line);
}

/// Appends the line with the object for the cost of the lexer of the enum `name`.
pub fn push_cost_record(lines: &mut JsonLines, name: &str, costs: Costs)
    ensures { Puts (object (cost_members name.now costs) ∷ []) lines.old lines.new }
{
    lines.begin_object();
    lines.push_text("enum", name);
    lines.push_number("states", costs.states);
    lines.push_number("bit_tables", costs.bit_tables);
    lines.push_number("jump_tables", costs.jump_tables);
    lines.end_object();
    lines.end_line();
}
