//! Reads whole files. Used by `logos`, `logos_cli` and `logos_show` for sources and inputs.

ghost use Rattle.std.specs.Prelude.{◌≡◌, IfErr, IfOk, string_bytes};
ghost use Rattle.logos_host.specs.Views.{IsNoMisuse, IsUnread, status_of};

use crate::failure::Failure;
use crate::files::{FileError, Files};

/// Returns all bytes of the file at `path`.
///
/// # Errors
///
/// Returns `Read` if the file cannot be read, and `Memory` if memory runs out.
pub fn read_bytes<'w, F: Files>(path: &'w str, files: &mut F) -> Result<Vec<u8>, Failure<'w>>
    ensures read { IfOk result (λ bytes. F.read_yields files.old path.now bytes.items files.new) }
    ensures ends { F.read_ends files.old files.new }
    ensures failed { IfErr result (IsUnread path.now) }
    ensures status { IfErr result (λ failure. status_of failure ≡ 3) }
    ensures no_misuse { IfErr result IsNoMisuse }
{
    match files.read(path) {
        Ok(bytes) => Ok(bytes),
        Err(error) => Err(Failure::of_reading(path, error)),
    }
}

/// Returns the text of the file at `path`.
///
/// # Errors
///
/// Returns:
///
/// - `Read` if the file cannot be read.
/// - `NotText` if the file is not UTF-8.
/// - `Memory` if memory runs out.
pub fn read_text<'w, F: Files>(path: &'w str, files: &mut F) -> Result<String, Failure<'w>>
    ensures read { IfOk result (λ text.
        F.read_yields files.old path.now (string_bytes text) files.new) }
    ensures ends { F.read_ends files.old files.new }
    ensures failed { IfErr result (IsUnread path.now) }
    ensures status { IfErr result (λ failure. status_of failure ≡ 3) }
    ensures no_misuse { IfErr result IsNoMisuse }
{
    match text_at(path, files) {
        Ok(text) => Ok(text),
        Err(error) => Err(Failure::of_reading(path, error)),
    }
}

/// Returns the text of the file at `path`, or an error if the file cannot be read or is not UTF-8.
fn text_at<F: Files>(path: &str, files: &mut F) -> Result<String, FileError>
    ensures read { IfOk result (λ text.
        F.read_yields files.old path.now (string_bytes text) files.new) }
    ensures ends { F.read_ends files.old files.new }
{
    let bytes = match files.read(path) {
        Ok(bytes) => bytes,
        Err(error) => return Err(error),
    };
    match String::from_utf8(bytes) {
        Ok(text) => Ok(text),
        Err(error) => Err(FileError::NotText {
            valid_up_to: error.utf8_error().valid_up_to(),
        }),
    }
}
