//! Functions that read the paths on a command line. Called by `arguments`, `logos_cli`,
//! `logos_items` and `logos_show`.

ghost use Rattle.std.specs.Prelude.{◌≡◌, ◌++◌, IfOk, OnOk, map, option_map, string_bytes};
ghost use Rattle.logos_options.specs.Imports.{found_path, next_paths, next_progress, path_named, paths_of, step, texts_of, use_value};

use crate::argument_steps::{ArgumentProgress, Use, next_step};
use logos_token::error::Memory;
use std::alloc::Global;

/// The path of standard input.
pub const STANDARD_INPUT: &str = "/dev/stdin";

/// Returns all paths of a valid command line, in the order of the arguments.
///
/// # Errors
///
/// Returns `Memory` if memory runs out.
pub fn paths_of<'w>(alloc: Global, arguments: &'w [String]) -> Result<Vec<&'w str>, Memory>
    ensures { IfOk result (λ paths.
        texts_of paths.items ≡ paths_of (map string_bytes arguments.now)) }
{
    let mut paths = Vec::new(alloc);
    let mut progress = ArgumentProgress {
        pending: None,
        is_over: false,
    };
    for word in arguments {
        progress = push_path(&mut paths, progress, word.as_str())?;
    }
    Ok(paths)
}

/// Appends to `paths` the path that the argument `word` names, if the argument is a path. Returns
/// the progress after the argument, or `progress` if the argument is invalid.
fn push_path<'w>(
    paths: &mut Vec<&'w str>,
    progress: ArgumentProgress,
    word: &'w str,
) -> Result<ArgumentProgress, Memory>
    ensures read { IfOk result (λ next. next ≡ next_progress progress (step progress word.now)) }
    ensures pushed { IfOk result (λ next. texts_of paths.new.items
        ≡ texts_of paths.old.items ++ next_paths (step progress word.now)) }
{
    match next_step(progress, word) {
        Ok(next) => {
            push_found(paths, next.found)?;
            Ok(next.progress)
        }
        Err(_) => Ok(progress),
    }
}

/// Appends to `paths` the path in `found`, if there is one.
fn push_found<'w>(paths: &mut Vec<&'w str>, found: Option<Use<'w>>) -> Result<(), Memory>
    ensures { OnOk result (texts_of paths.new.items
        ≡ texts_of paths.old.items ++ found_path (option_map use_value found.entry)) }
{
    if let Some(Use::Path(path)) = found {
        paths.push(path_by_word(path))?;
    }
    Ok(())
}

/// Returns the path that an argument names: `STANDARD_INPUT` for `-`, and otherwise the argument
/// itself.
pub fn path_by_word(word: &str) -> &str
    ensures { result.now ≡ path_named word.now }
{
    if word == "-" {
        return STANDARD_INPUT;
    }
    word
}
