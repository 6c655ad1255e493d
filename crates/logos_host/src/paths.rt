//! Finds the name of a file in its path. Used by `atomic_file`, `logos_cli`, `logos_commands` and
//! `logos_expand`.

ghost use Rattle.std.specs.Prelude.{◌≡◌};
ghost use Rattle.logos_host.specs.Imports.{file_name};

/// Returns the name at the end of `path`: the part after the last `/`, or the whole path if `path`
/// has no `/`.
pub fn file_name(path: &str) -> &str
    ensures { result.now ≡ file_name path.now }
{
    match path.rsplit_once('/') {
        Some((_, name)) => name,
        None => path,
    }
}
