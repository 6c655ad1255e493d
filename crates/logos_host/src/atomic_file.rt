//! Writes a file entirely or not at all. `write_whole` writes a new file beside the old file, and
//! then renames the new file to the name of the old file. Used by `Disk`.

use crate::paths::file_name;
use std::fs::Metadata;
use std::io::{ErrorKind, Write};
use std::os::unix::fs::{MetadataExt, PermissionsExt};
use std::rt::Files;
use std::{fs, io};

/// The length from which a chain of symbolic links is refused.
const LINKS: usize = 40;

/// The bits of a file's mode with the permissions to read, write and execute the file.
const RIGHTS: u32 = 0o777;

/// Writes `bytes` to the file at `path` entirely or not at all. If there is no such file, first
/// creates the missing folders of `path`. The created folders remain if a later step fails.
///
/// If `path` is the path of a link, replaces the target of the link, or creates the target if the
/// target does not exist. Writes to a device or a pipe directly.
pub(crate) fn write_whole<R: Files + AllocGlobal + Clone + Drop>(
    rt: &R,
    path: &str,
    bytes: &[u8],
) -> io::Result<()> {
    match fs::metadata(rt, path) {
        Ok(old) if old.is_file() => replace_file(rt, path, &old, bytes),
        Ok(_) => fs::write(rt, path, bytes),
        Err(error) if error.kind() == ErrorKind::NotFound => {
            let target = target_of(rt, path)?;
            create_file(rt, target.as_str(), bytes)
        }
        Err(error) => Err(error),
    }
}

/// Returns the path of the missing file to which the links at `path` lead, or `path` if it is not
/// the path of a link. Fails if the chain has `LINKS` or more links.
fn target_of<R: Files + AllocGlobal>(rt: &R, path: &str) -> io::Result<String> {
    let mut target = String::from_str(rt.alloc(), path)?;
    for _ in 0..LINKS {
        match fs::read_link(rt, target.as_str()) {
            Ok(link) => target = joined(rt, target.as_str(), link.into_string().as_str())?,
            Err(_) => return Ok(target),
        }
    }
    Err(io::Error::from(ErrorKind::FilesystemLoop))
}

/// Returns the path to which the link at `path` with the target `link` leads.
fn joined<R: AllocGlobal>(rt: &R, path: &str, link: &str) -> io::Result<String> {
    let mut target = String::new(rt.alloc());
    if !link.starts_with('/') && path.contains('/') {
        target.push_str(folder_of(path))?;
        target.push('/')?;
    }
    target.push_str(link)?;
    Ok(target)
}

/// Replaces the file at `path` with a new file that contains `bytes`. The new file has the owner,
/// the group and the mode of `old`, as far as `keep_owner` can set them.
fn replace_file<R: Files + AllocGlobal + Clone + Drop>(
    rt: &R,
    path: &str,
    old: &Metadata,
    bytes: &[u8],
) -> io::Result<()> {
    let target = fs::canonicalize(rt, path)?.into_string();
    let beside = write_beside(rt, target.as_str(), bytes)?;
    let done = match keep_owner(rt, beside.as_str(), old) {
        Ok(()) => fs::rename(rt, beside.as_str(), target.as_str()),
        Err(error) => Err(error),
    };
    remove_after_error(rt, beside.as_str(), done)
}

/// Sets the owner, the group and the mode of the file at `path` to those of `old`. If the system
/// refuses the owner or the group, sets only the bits of the mode that are in `RIGHTS`.
fn keep_owner<R: Files>(rt: &R, path: &str, old: &Metadata) -> io::Result<()> {
    let mut permissions = old.permissions();
    let new = fs::metadata(rt, path)?;
    let is_owned = new.uid() == old.uid() && new.gid() == old.gid();
    if !is_owned && rt.chown(path, Some(old.uid()), Some(old.gid())).is_err() {
        permissions.set_mode(old.mode() & RIGHTS);
    }
    fs::set_permissions(rt, path, permissions)
}

/// Creates the missing file at `path` with the content `bytes`. First creates the missing folders
/// of `path`.
fn create_file<R: Files + AllocGlobal + Clone + Drop>(
    rt: &R,
    path: &str,
    bytes: &[u8],
) -> io::Result<()> {
    fs::create_dir_all(rt, folder_of(path))?;
    let beside = write_beside(rt, path, bytes)?;
    let done = fs::rename(rt, beside.as_str(), path);
    remove_after_error(rt, beside.as_str(), done)
}

/// Writes `bytes` to a new file beside the file at `path`. Returns the path of the new file, which
/// consists of `path`, the process id and `.new`. First removes the new files that terminated
/// processes left beside the file at `path`.
fn write_beside<R: Files + AllocGlobal + Clone + Drop>(
    rt: &R,
    path: &str,
    bytes: &[u8],
) -> io::Result<String> {
    let process = own_number(rt)?;
    let beside = format!(in rt.alloc(); "{path}.{process}.new")?;
    remove_leftovers(rt, path)?;
    let file = fs::File::create_new(rt, beside.as_str())?;
    let done = write_all(file, bytes);
    remove_after_error(rt, beside.as_str(), done)?;
    Ok(beside)
}

/// Returns the process id in decimal, or `0` if the system does not report the id.
fn own_number<R: Files + AllocGlobal>(rt: &R) -> io::Result<String> {
    match fs::read_link(rt, "/proc/self") {
        Ok(number) => Ok(number.into_string()),
        Err(_) => Ok(String::from_str(rt.alloc(), "0")?),
    }
}

/// Removes the new files that terminated processes left beside the file at `path`.
fn remove_leftovers<R: Files + AllocGlobal + Clone + Drop>(rt: &R, path: &str) -> io::Result<()> {
    let folder = match folder_of(path) {
        "" => ".",
        folder => folder,
    };
    for entry in fs::read_dir(rt, folder)? {
        if let Ok(entry) = entry {
            remove_leftover(rt, file_name(path), entry.file_name(), folder)?;
        }
    }
    Ok(())
}

/// Removes the file `other` in the folder `folder` if a terminated process left `other` as a new
/// file beside the file `name`. Ignores an error of the removal.
fn remove_leftover<R: Files + AllocGlobal>(
    rt: &R,
    name: &str,
    other: &str,
    folder: &str,
) -> io::Result<()> {
    let Some(process) = process_of(name, other) else {
        return Ok(());
    };
    let running = format!(in rt.alloc(); "/proc/{process}")?;
    if let Err(error) = fs::metadata(rt, running.as_str()) {
        if error.kind() == ErrorKind::NotFound {
            let left = format!(in rt.alloc(); "{folder}/{other}")?;
            let _ = fs::remove_file(rt, left.as_str());
        }
    }
    Ok(())
}

/// Returns the process id in `other` if `other` is the name of a new file beside the file `name`,
/// and `None` otherwise.
fn process_of<'n>(name: &str, other: &'n str) -> Option<&'n str> {
    let process = other
        .strip_prefix(name)?
        .strip_prefix('.')?
        .strip_suffix(".new")?;
    let is_number = !process.is_empty() && process.bytes().all(|byte| byte.is_ascii_digit());
    if is_number { Some(process) } else { None }
}

/// Writes all bytes to a file, flushes the file, and closes it.
fn write_all<F: Write + Drop>(mut file: F, bytes: &[u8]) -> io::Result<()> {
    file.write_all(bytes)?;
    file.flush()
}

/// Removes the file at `path` if `done`, the result of a step, is an error. Returns `done`.
fn remove_after_error<R: Files>(rt: &R, path: &str, done: io::Result<()>) -> io::Result<()> {
    if done.is_err() {
        let _ = fs::remove_file(rt, path);
    }
    done
}

/// Returns the path of the folder of the file at `path`: the part of `path` before the last `/`, or
/// an empty path if `path` has no `/`.
fn folder_of(path: &str) -> &str {
    match path.rsplit_once('/') {
        Some((folder, _)) => folder,
        None => "",
    }
}
