//! Determines the path of the file to which `export` writes a state diagram. Used by `outcome`.

ghost use Rattle.std.specs.Prelude.{◌≡◌, IfErr, IfOk, option_copied, string_bytes};
ghost use Rattle.logos_commands.specs.Views.{with_separator, destination, extension, file_at, file_in, refusal_by, FailsAt, IsNoMisuse};

use crate::refusals::{ExportRefusal, refused_export};
use logos_host::{Failure, file_name};
use std::alloc::{AllocError, Global};

/// Returns the path of the file for the state diagram of the enum `name`. `path` is the export path
/// of its source. An export path with the extension `mmd` is the path of the file. An export path
/// without an extension is the path of a folder. The file in this folder has the enum's name in
/// lower case and the extension `mmd`.
///
/// # Errors
///
/// Returns `Refused` if the path has an extension other than `mmd`, and `Memory` if memory runs
/// out.
pub(super) fn diagram_path(
    alloc: Global,
    path: &str,
    name: &str,
) -> Result<String, Failure<'static>>
    ensures file { IfOk result (λ diagram.
        file_at (string_bytes diagram) ≡ destination path.now name.now) }
    ensures failure { IfErr result (FailsAt (destination path.now name.now)) }
    ensures known { IfErr result IsNoMisuse }
{
    let Some(extension) = extension_of(file_name(path)) else {
        return Ok(path_in(alloc, path, name)?);
    };
    if extension == "mmd" {
        return Ok(String::from_str(alloc, path)?);
    }
    Err(refused_export(alloc, refused_by(extension)))
}

/// Returns the reason why the path of a diagram must not have the extension `extension`.
/// `extension` must not be `mmd`.
fn refused_by(extension: &str) -> ExportRefusal
    ensures { result ≡ refusal_by extension.now }
{
    if extension == "dot" {
        ExportRefusal::Dot
    } else {
        ExportRefusal::Extension
    }
}

/// Returns the extension of a name, or `None` if the name has no extension. The extension is the
/// text after the last `.` of the name. A leading `.` begins no extension, and `..` has no
/// extension.
fn extension_of(name: &str) -> Option<&str>
    ensures { option_copied result ≡ extension name.now }
{
    if name == ".." {
        return None;
    }
    match name.rsplit_once('.') {
        Some((stem, extension)) if !stem.is_empty() => Some(extension),
        _ => None,
    }
}

/// Returns the path of the state diagram of the enum `name` in `folder`: the name in lower case,
/// with the extension `mmd`. Returns `AllocError` if memory runs out.
fn path_in(alloc: Global, folder: &str, name: &str) -> Result<String, AllocError>
    ensures { IfOk result (λ path. string_bytes path ≡ file_in folder.now name.now) }
{
    let mut path = with_separator(alloc, folder)?;
    path.push_str(name.to_ascii_lowercase(alloc)?.as_str())?;
    path.push_str(".mmd")?;
    Ok(path)
}

/// Returns the path `folder` with `/` at its end, so that a name can be appended. An empty path
/// remains empty. Returns `AllocError` if memory runs out.
fn with_separator(alloc: Global, folder: &str) -> Result<String, AllocError>
    ensures { IfOk result (λ path. string_bytes path ≡ with_separator folder.now) }
{
    let mut path = String::from_str(alloc, folder)?;
    if !folder.is_empty() && !folder.ends_with('/') {
        path.push('/')?;
    }
    Ok(path)
}
