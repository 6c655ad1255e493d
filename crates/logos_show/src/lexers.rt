//! Contains the code shape of shown lexers, and a function that finds the part of a file that
//! begins at an enum. Used by `comparison`, `diagrams`, `inputs`, `items`, `matches`, `page_files`,
//! `pages` and `stream`.

use logos_codegen::generator::Config;
use logos_report::{Part, Source};
use logos_rust_file::FoundEnum;

/// The code shape of each shown lexer. The counted tables do not depend on the shape.
pub(crate) const SHAPE: Config = Config {
    use_state_machine_codegen: true,
};

/// Returns the part of a file that begins at the enum `one`.
pub(crate) fn part_of<'f, 's>(source: &'f Source<'s>, one: FoundEnum) -> Part<'f, 's> {
    Part {
        source,
        offset: one.span.from,
    }
}
